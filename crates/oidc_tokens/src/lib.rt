//! ID tokens: read, issued and verified.
//!
//! - [`IdToken`] is a [`JsonWebToken`] whose payload is [`IdTokenClaims`] (OpenID Connect Core 1.0 section 2).
//!   Tokens over any payload are those of `oidc_jwt`, and the claims those of `oidc_id_token_claims`; both are
//!   passed on here. [`IdToken::from_str_with`] reads the claims under a [`Reading`](oidc_members::Reading): a text
//!   may be a boolean or a moment where it says so; [`IdToken::from_str`] reads them strictly.
//! - [`IdTokenVerifier`] is what a client expects of an ID token. [`IdToken::claims`] gives the claims
//!   where the verifier accepts the token (section 3.1.3.7), else the first check that fails.
//! - [`IdToken::refreshed_claims`] gives those of an ID token that came with refreshed tokens, where it is accepted
//!   beside the first ID token of the sign-in and the access token that came with it (section 12.2).
//! - [`UserInfoVerifier`] is what it expects of a user info answer that is a token (sections 5.3.2 and 5.3.4).
//! - [`IdToken::new`] issues a token. [`from_token`] and [`from_code`] are the hashes of an access token
//!   and of a code that it may hold (sections 3.1.3.6 and 3.3.2.11).
//! - [`IdTokenFields`] are the fields of a token response that may hold an ID token, which is read under the
//!   reading of the response's members, and [`TokenResponse`] is such a response (section 3.1.3.3).
//! - [`laws`] says what holds of ID tokens as a whole.
//!
//! What it promises. A text is read exactly as `token_of` says, over claims as `id_token_claims_of` says.
//! `IdToken::claims` is Ok only for tokens that `Accepts` holds of, and for each
//! of them, want of memory aside; a refusal is the first check that fails. A token that is issued with
//! claims in range, by an algorithm that is read back from its own text, is read back as it is; and whoever
//! expects its claims accepts it. All of this holds of
//! every lawful type of keys, algorithms and claims. Want of memory is a variant `Memory` of its own, or
//! the one error of a call that answers an `AllocError`, and no clause says when it comes.
//!
//! Nothing is promised of time, nor that a signature can't be forged: acceptance rests on the key's own
//! verdict. What holds tokens or claims has no `Debug`.
#![tactic(auto)]

mod core_tokens;
mod hashes;
mod id_token;
pub mod laws;
mod refreshed;
mod token;
mod verification;

pub use crate::core_tokens::{
    CoreIdToken, CoreIdTokenClaims, CoreIdTokenFields, CoreIdTokenVerifier, CoreTokenResponse,
    CoreUserInfoVerifier,
};
pub use crate::hashes::{from_code, from_token};
pub use crate::id_token::{IdToken, IdTokenClaims, IdTokenFields};
pub use crate::refreshed::RefreshedClaimsError;
pub use crate::token::TokenResponse;
pub use crate::verification::{
    AudiencesClaim, ClaimsVerificationError, IdTokenVerifier, IssuerClaim, NonceVerifier,
    UserInfoVerifier, is_expected_subject,
};
pub use oidc_id_token_claims::additional_copies;
pub use oidc_jwt::{JsonWebToken, JsonWebTokenAlgorithm, JsonWebTokenError, Payload, TokenHeader};
