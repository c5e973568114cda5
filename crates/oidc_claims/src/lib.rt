//! The claims of an end user: standard claims, the address, and the claims beside them, read from the
//! members of a JSON object and written as members again.
//!
//! - [`StandardClaims`] are the claims of OpenID Connect Core 1.0 section 5.1, and [`AddressClaim`] is
//!   the address among them (section 5.1.1).
//!   [`read_standard`] reads them, [`write_standard`] writes them. They are read under the
//!   [`Reading`](oidc_members::Reading) of their members: a text may be a boolean or a moment where it says so.
//! - [`GenderClaim`] is the type of the claim `gender`. A caller may bring one of its own: what it
//!   writes isn't null and reads back, and a copy equals its source. `CoreGenderClaim` is a plain text.
//! - [`AdditionalClaims`] is the type of the claims beside the standard ones (section 5.1.2):
//!   [`EmptyAdditionalClaims`] keeps none, [`AllOtherClaims`] all. [`belongs`] says to which of them a
//!   member belongs.
//!
//! What it promises. `read_standard` answers the claims that the definition `claims_of` of the member
//! list has, or refuses the first faulty member with its place, kind and field: each member is judged
//! against all that stand before it (`fault_at`), so a repeated claim is refused whatever its values
//! are. A missing `sub` refuses where no member is faulty. A setter changes its claim alone, and a
//! copy equals its source. Want of memory is an answer of its own, and no clause says when it comes.
#![tactic(auto)]

mod additional;
mod all_other_claims;
mod claim;
mod claims;
mod gender;
mod home;
pub mod laws;
mod name;
mod same;
mod write;

pub use crate::additional::{AdditionalClaims, EmptyAdditionalClaims};
pub use crate::all_other_claims::AllOtherClaims;
pub use crate::claims::{AddressClaim, ClaimsReader, StandardClaims, read_standard};
pub use crate::gender::GenderClaim;
pub use crate::home::{Home, ID_TOKEN_FIELDS, USER_INFO_FIELDS, belongs};
pub use crate::write::write_standard;
pub use oidc_readers::PlacedError;
