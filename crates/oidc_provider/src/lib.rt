//! A provider double, for tests of sites that sign users in.
//!
//! A site's tests run without a provider: [`Provider`] plays one, over this library's own writers and signers. It is made
//! of its issuer and endpoints ([`ProviderSettings`]) and of its clients ([`Registration`]). [`Provider::authorize`] takes
//! the authorization URL of a login, as a user's browser would, and gives the query with which the user comes back;
//! as a transport (`oidc_oauth2::SyncHttpClient`) it then answers the token request and the user info request of
//! that login. It signs with HS256 under the client's secret.
//!
//! It serves tests alone: its codes and access tokens are what the test hands in, and it keeps secrets, claims and all
//! requests in memory for as long as it lives. The facade `oidc` doesn't pass it on.
//!
//! What is promised: `authorize` answers the table `authorization` of `specs/Authorization.antt`, whose refusals have
//! each its cause and leave the provider as it was; a call answers the table `provider_answer` of `specs/Answers.antt`, each
//! answer with its cause and each cause with its answer, or want of memory, which leaves all as it was. It never fails
//! otherwise: its error type has no values. An honest login that was granted signs in with the claims that were handed in, or
//! a text is too long, or there was no memory ([`sign_in`], [`call_back`]).
//!
//! The standards: RFC 6749 (sections 2.3.1, 4.1, 5.1 and 5.2), RFC 6750 (sections 2.1 and 3.1), RFC 7636 (section 4),
//! and OpenID Connect Core 1.0 (sections 2, 3.1.2, 3.1.3 and 5.3).
#![tactic(auto)]

mod answers;
mod authorization;
mod errors;
mod grants;
mod issuing;
pub mod laws;
mod logins;
mod provider;
mod settings;
mod texts;
mod transport;

pub use errors::{AuthorizeError, NewProviderError, SignInError};
pub use logins::{call_back, sign_in};
pub use provider::Provider;
pub use settings::{ProviderSettings, Registration};
