//! The vocabularies of the standards, and the aliases over them: OpenID Connect Core 1.0, RFC 6749 and RFC 7518.

pub use oidc_client::{CoreAuthenticationFlow, CoreClient, CoreProviderMetadata};
pub use oidc_keys::{CoreHmacKey, CoreJsonWebKey, CoreJsonWebKeySet, CoreJsonWebKeyUse};
pub use oidc_oauth2::{
    CoreDeviceAuthorizationResponse, CoreErrorResponseType, CoreRequestTokenError,
    CoreRevocableToken, CoreRevocationErrorResponse, CoreTokenIntrospectionResponse, CoreTokenType,
};
pub use oidc_tokens::{
    CoreIdToken, CoreIdTokenClaims, CoreIdTokenFields, CoreIdTokenVerifier, CoreTokenResponse,
    CoreUserInfoVerifier,
};
pub use oidc_types::{
    CoreApplicationType, CoreAuthDisplay, CoreAuthErrorResponseType, CoreAuthPrompt, CoreClaimName,
    CoreClaimType, CoreClientAuthMethod, CoreGenderClaim, CoreGrantType, CoreJsonWebKeyType,
    CoreJweContentEncryptionAlgorithm, CoreJweKeyManagementAlgorithm, CoreJwsSigningAlgorithm,
    CoreRegisterErrorResponseType, CoreResponseMode, CoreResponseType, CoreSubjectIdentifierType,
};
pub use oidc_user_info::{CoreUserInfoClaims, CoreUserInfoJsonWebToken};
