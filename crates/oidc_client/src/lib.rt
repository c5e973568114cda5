//! A client of one provider, the requests that it makes, and the URL to which it sends its users.
//!
//! - [`Client`] is a client whose type says which endpoints are set: what needs an endpoint stands on the clients
//!   that have it, and gives it without a test. [`Client::new`] makes one without endpoints,
//!   [`Client::from_provider_metadata`] one of what a provider says of itself, [`ProviderMetadata`].
//! - [`AuthorizationRequest`] asks the authorization endpoint for an [`AuthenticationFlow`]. `url` gives the URL
//!   to which the user is sent, with the state and the nonce that the answer has to match.
//! - `exchange_code`, `user_info` and `id_token_verifier` of a client make the request for tokens, the request for
//!   user info, and what the client expects of an ID token. Its other exchanges, `introspect` and `revoke_token` make
//!   the requests of `oidc_oauth2_requests`.
//! - `set_reading` says how ID tokens and user info are read, for a provider that writes booleans or moments as texts;
//!   `require_code_hash` that the ID token beside a code has to have its hash, for a site that exchanges the codes of
//!   hybrid answers. At first a client reads strictly and demands none.
//!
//! What it promises. A client whose type says `EndpointSet` has that URL, and one whose type says
//! `EndpointNotSet` has none. A setter changes its own field and no other. A new request has the client's values,
//! and the state and nonce that the two functions answered. The URL is the endpoint with the form text of the
//! list `auth_list` behind its query, and all else of it as it was; `TooLong` comes exactly where it has more
//! than 1,048,576 bytes. Requests and verifiers are those of the crates below, for the client's own values. Want
//! of memory is a variant `Memory` of its own, or the one error of a call that answers an `AllocError`, and no
//! clause says when it comes.
//!
//! The standards: RFC 6749 (sections 2.2, 3.1, 3.3 and 4.1.1), RFC 7636 section 4.3, OpenID Connect Core 1.0
//! (sections 3.1.2.1, 3.2.2.1 and 3.3.2.1), OAuth 2.0 Multiple Response Type Encoding Practices.
#![tactic(auto)]

mod authorization;
mod client;
mod provider_metadata;

pub use crate::authorization::{AuthenticationFlow, AuthorizationRequest, CoreAuthenticationFlow};
pub use crate::client::{Client, CoreClient};
pub use crate::provider_metadata::{
    CoreProviderMetadata, ProviderMetadata, ProviderMetadataWithLogout,
};
