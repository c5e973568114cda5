//! The types of this crate at the program's own algorithms and claims.

use crate::claims::UserInfoClaims;
use crate::token::UserInfoJsonWebToken;
use oidc_claims::EmptyAdditionalClaims;
use oidc_types::{CoreGenderClaim, CoreJweContentEncryptionAlgorithm, CoreJwsSigningAlgorithm};

/// User info without additional claims.
pub type CoreUserInfoClaims = UserInfoClaims<EmptyAdditionalClaims, CoreGenderClaim>;

/// A token of such claims.
pub type CoreUserInfoJsonWebToken = UserInfoJsonWebToken<
    EmptyAdditionalClaims,
    CoreGenderClaim,
    CoreJweContentEncryptionAlgorithm,
    CoreJwsSigningAlgorithm,
>;
