//! The client of a device login.

use oidc_claims::AllOtherClaims;
use oidc_client::Client;
use oidc_keys::CoreJsonWebKey;
use oidc_oauth2::{
    CoreErrorResponseType, CoreRevocableToken, CoreRevocationErrorResponse,
    CoreTokenIntrospectionResponse, CoreTokenType, EmptyExtraTokenFields, StandardErrorResponse,
    StandardTokenResponse,
};
use oidc_tokens::IdTokenFields;
use oidc_types::{
    CoreAuthDisplay, CoreAuthPrompt, CoreGenderClaim, CoreJweContentEncryptionAlgorithm,
    CoreJwsSigningAlgorithm, EndpointMaybeSet, EndpointNotSet, EndpointSet,
};

/// The client that `Client::from_provider_metadata` makes, after `set_device_authorization_url` and `set_token_uri`: both
/// endpoints of a device login are set. `AC` is the type of additional claims, `GC` that of genders, and `K` that of keys.
pub type DeviceClient<AC, GC, K> = Client<
    AC,
    CoreAuthDisplay,
    GC,
    CoreJweContentEncryptionAlgorithm,
    K,
    CoreAuthPrompt,
    StandardErrorResponse<CoreErrorResponseType>,
    StandardTokenResponse<
        IdTokenFields<
            AC,
            EmptyExtraTokenFields,
            GC,
            CoreJweContentEncryptionAlgorithm,
            CoreJwsSigningAlgorithm,
        >,
        CoreTokenType,
    >,
    CoreTokenIntrospectionResponse,
    // Access and refresh tokens.
    CoreRevocableToken,
    CoreRevocationErrorResponse,
    EndpointSet,
    EndpointSet,
    EndpointNotSet,
    EndpointNotSet,
    EndpointSet,
    EndpointMaybeSet,
>;

/// Such a client that keeps all additional claims, takes any text as a gender, and has symmetric keys alone: it takes ID
/// tokens by HMAC under its secret. A public client takes a key type for its provider's signatures: `ProviderKey` of
/// `oidc_rsa`, or one of its own.
pub type CoreDeviceClient = DeviceClient<AllOtherClaims, CoreGenderClaim, CoreJsonWebKey>;
