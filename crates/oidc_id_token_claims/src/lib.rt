//! The claims of an ID token, read from the members of a JSON object and written as members again (OpenID
//! Connect Core 1.0 sections 2, 5.1 and 5.1.2).
//!
//! - [`IdTokenClaims`] are fields of the token's own, the standard claims, and additional claims of a caller's
//!   type. They are a [`Payload`](oidc_jwt::Payload) of a JSON Web Token, and are read under the
//!   [`Reading`](oidc_members::Reading) of their members: a text may be a boolean or a moment where it says so.
//! - [`additional_copies`] are the members that are neither a field nor a standard claim.
//! - [`laws`] says what holds of the claims as a whole.
//!
//! What it promises. Claims are read as `id_token_claims_of` says: each member is judged against all that stand
//! before it, and has exactly one home. Claims in range are read back from what they are written as. A setter
//! changes its claim alone. All of this holds of every lawful type of genders and additional claims. Want of
//! memory is a variant `Memory` of its own, or the one error of a call that answers an `AllocError`, and no
//! clause says when it comes.
//!
//! Nothing of the claims is verified here, and nothing is promised of time. What holds claims has no `Debug`.
#![tactic(auto)]

mod additional;
mod claims;
pub mod laws;
mod standard;
mod token_fields;
mod written_fields;

pub use crate::additional::additional_copies;
pub use crate::claims::IdTokenClaims;
