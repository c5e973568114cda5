//! What a site hands to a store of logins: the client, its authorization requests, and what a login demands of user
//! info.

use oidc_claims::AllOtherClaims;
use oidc_client::{AuthorizationRequest, Client};
use oidc_keys::CoreJsonWebKey;
use oidc_oauth2::{
    CoreErrorResponseType, CoreRevocableToken, CoreRevocationErrorResponse,
    CoreTokenIntrospectionResponse, CoreTokenType, EmptyExtraTokenFields, StandardErrorResponse,
    StandardTokenResponse,
};
use oidc_tokens::IdTokenFields;
use oidc_types::{
    CoreAuthDisplay, CoreAuthPrompt, CoreGenderClaim, CoreJweContentEncryptionAlgorithm,
    CoreJwsSigningAlgorithm, CoreResponseType, EndpointMaybeSet, EndpointNotSet, EndpointSet,
};
use oidc_user_info::UserInfoResponseType;

/// The client that `Client::from_provider_metadata` makes, over the vocabularies of the standards: its
/// authorization endpoint is set, its token endpoint and its user info endpoint may be. `AC` is the type of
/// additional claims, `GC` that of genders, and `K` that of keys.
pub type MetadataClient<AC, GC, K> = Client<
    AC,
    CoreAuthDisplay,
    GC,
    CoreJweContentEncryptionAlgorithm,
    K,
    CoreAuthPrompt,
    StandardErrorResponse<CoreErrorResponseType>,
    StandardTokenResponse<
        IdTokenFields<
            AC,
            EmptyExtraTokenFields,
            GC,
            CoreJweContentEncryptionAlgorithm,
            CoreJwsSigningAlgorithm,
        >,
        CoreTokenType,
    >,
    CoreTokenIntrospectionResponse,
    // Access and refresh tokens.
    CoreRevocableToken,
    CoreRevocationErrorResponse,
    EndpointSet,
    EndpointNotSet,
    EndpointNotSet,
    EndpointNotSet,
    EndpointMaybeSet,
    EndpointMaybeSet,
>;

/// Such a client that keeps all additional claims, takes any text as a gender, and has symmetric keys.
pub type LoginClient = MetadataClient<AllOtherClaims, CoreGenderClaim, CoreJsonWebKey>;

/// An authorization request, in the words of the standards.
pub type LoginRequest<'a> = AuthorizationRequest<
    'a,
    CoreAuthDisplay,
    CoreAuthPrompt,
    CoreResponseType,
>;

/// What a login demands of user info (OpenID Connect Core 1.0 section 5.3). Its subject is always that of the ID
/// token.
#[derive(Clone, Copy, Debug, Drop, PartialEq, Eq)]
pub struct UserInfoDemand {
    /// Whether the answer has to be signed.
    pub signed: bool,
    /// Whether the claims of a signed answer have to name the issuer.
    pub issuer_match: bool,
    /// Whether the claims of a signed answer have to name the client, and nobody else, as their audience.
    pub audience_match: bool,
    /// The media type that is asked for.
    pub response_type: UserInfoResponseType,
}
