//! The types of this crate at the program's own keys, algorithms and claims.

use crate::id_token::{IdToken, IdTokenClaims, IdTokenFields};
use crate::verification::{IdTokenVerifier, UserInfoVerifier};
use oidc_claims::EmptyAdditionalClaims;
use oidc_keys::CoreJsonWebKey;
use oidc_oauth2::{CoreTokenType, EmptyExtraTokenFields, StandardTokenResponse};
use oidc_types::{CoreGenderClaim, CoreJweContentEncryptionAlgorithm, CoreJwsSigningAlgorithm};

/// An ID token without additional claims.
pub type CoreIdToken = IdToken<
    EmptyAdditionalClaims,
    CoreGenderClaim,
    CoreJweContentEncryptionAlgorithm,
    CoreJwsSigningAlgorithm,
>;

/// The claims of such a token.
pub type CoreIdTokenClaims = IdTokenClaims<EmptyAdditionalClaims, CoreGenderClaim>;

/// The ID token of a token response without further fields.
pub type CoreIdTokenFields = IdTokenFields<
    // No additional claims, and no fields beside the ID token.
    EmptyAdditionalClaims,
    EmptyExtraTokenFields,
    CoreGenderClaim,
    CoreJweContentEncryptionAlgorithm,
    CoreJwsSigningAlgorithm,
>;

/// A verifier over symmetric keys.
pub type CoreIdTokenVerifier<'a> = IdTokenVerifier<'a, CoreJsonWebKey>;

/// A verifier of user info over such keys.
pub type CoreUserInfoVerifier<'a> = UserInfoVerifier<
    'a,
    CoreJweContentEncryptionAlgorithm,
    CoreJsonWebKey,
>;

/// A token response with such an ID token.
pub type CoreTokenResponse = StandardTokenResponse<CoreIdTokenFields, CoreTokenType>;
