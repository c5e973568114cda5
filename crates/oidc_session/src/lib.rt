//! The sessions that a site keeps after logins, and their end by a logout token of the provider.
//!
//! - [`Sessions`] is the store. [`Sessions::open`] keeps a session of a user who is signed in until it ends,
//!   [`Sessions::look`] finds it by its id, [`Sessions::close`] removes it, and [`Sessions::sweep`] removes those that
//!   have ended.
//! - [`Sessions::provider_logout`] takes a logout token that the provider posts, and removes the sessions that it names
//!   by their subject, by the provider's session, or by both. [`LogoutVerifier`] is what is expected of such a token:
//!   one key and one algorithm, which the site hands in.
//! - [`SessionId`] is the id that a cookie holds: whoever has it has the session, so its `Debug` doesn't print it, and
//!   `SessionId::new_random` draws one from the site's generator, which is to be one for secrets.
//! - [`laws`] has what holds of whole runs of calls.
//!
//! What is promised: each call answers and leaves what the definitions in `specs/` say, or wants for memory and leaves
//! all as it was. After every list of calls, a session is there exactly where an accepted open of it, which hasn't
//! ended, isn't followed by a close of it, a sweep at its end or later, another accepted open of its id, or an accepted
//! logout that names it. The replies about one session are those of the run with its calls, the sweeps and the logouts
//! alone. No text is both accepted as a login's ID token with its nonce and as a logout token.
//!
//! The ids of accepted logout tokens are kept for good, so that none is accepted twice. README.md says what that costs.
//!
//! The standard: OpenID Connect Back-Channel Logout 1.0, sections 2.4 to 2.6.
#![tactic(auto)]

mod errors;
mod index;
pub mod laws;
mod logout_claims;
mod logout_tokens;
mod session;
mod session_map;
mod sessions;
mod store;
mod token_ids;

pub use crate::errors::{LogoutError, OpenError};
pub use crate::logout_tokens::LogoutVerifier;
pub use crate::session::{
    ProviderSession, ProviderSessionMarker, Session, SessionId, SessionIdMarker,
};
pub use crate::sessions::Sessions;
