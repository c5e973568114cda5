//! User info: its claims, answers that are signed, and the request for it (OpenID Connect Core 1.0 section
//! 5.3).
//!
//! - [`UserInfoClaims`] are the claims of an answer: issuer and audience, where they are said, the standard
//!   claims, and additional claims of a caller's type. [`UserInfoClaims::from_json`] reads an answer that is
//!   an object, and [`UserInfoClaims::from_json_with`] does so under a [`Reading`](oidc_members::Reading): a text
//!   may be a boolean or a moment where it says so. The calls without one read strictly, and so does a request
//!   without [`UserInfoRequest::set_reading`].
//! - [`UserInfoJsonWebToken`] is an answer that is a JSON Web Token. It gives its claims where a
//!   [`UserInfoVerifier`](oidc_tokens::UserInfoVerifier) accepts it, else the first check that fails.
//! - [`UserInfoRequest`] asks for user info with an access token, over a transport that the caller hands in.
//!   [`UserInfoError`] is why there are no claims.
//! - [`QueryPairs`] are pairs that stand after the query of a URL to which a site sends its users.
//!   [`BuildUrlError`] is why there is no such URL.
//! - [`laws`] says what holds of claims as a whole.
//! - [`LogoutRequest`] asks a provider to sign a user out: it is the URL to which the user is sent (OpenID Connect
//!   RP-Initiated Logout 1.0 section 2).
//! - [`AdditionalProviderMetadata`] is what a provider may say of itself beside its own metadata, and
//!   [`LogoutProviderMetadata`] where its users sign out.
//!
//! What it promises. Claims are read as `user_info_claims_of` says, each member judged against all that stand
//! before it; what is written in range is read back. A request is the one of its definition, a GET of the
//! endpoint's text as it was given, or none; its answer is that of the table `info_answer` for the response that
//! came, and each refusal has its cause. That nothing else was handed over shows where a transport keeps a log. The subject of the ID
//! token that a site expects is compared for both kinds of answers (section 5.3.2). All of this holds for
//! every lawful type of keys, algorithms, claims and transports. Want of memory is a variant `Memory` of its
//! own, or the one error of a call that answers an `AllocError`, and no clause says when it comes.
//!
//! What holds tokens or claims has no `Debug`; that of an error shows no body.
#![tactic(auto)]

mod answers;
mod claims;
mod core_user_info;
mod errors;
pub mod laws;
mod logout;
mod provider_metadata;
mod query_pairs;
mod requests;
mod token;

pub use crate::claims::UserInfoClaims;
pub use crate::core_user_info::{CoreUserInfoClaims, CoreUserInfoJsonWebToken};
pub use crate::errors::{InfoOther, PrepareInfoError, ResponseCause, UserInfoError};
pub use crate::logout::{LogoutProviderMetadata, LogoutRequest};
pub use crate::provider_metadata::{AdditionalProviderMetadata, EmptyAdditionalProviderMetadata};
pub use crate::query_pairs::{
    BuildUrlError, MAX_URL, QueryPairs, spaced_texts, spaced_texts_if, spaced_words,
    spaced_words_if,
};
pub use crate::requests::{UserInfoRequest, UserInfoResponseType};
pub use crate::token::UserInfoJsonWebToken;
