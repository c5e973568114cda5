//! The relying party side of OpenID Connect, for a site: what it needs of the crates below, by the names of the Rust
//! crate `openidconnect`, and what a login starts from.
//!
//! - At the root stand the types of the protocol: texts and URLs, claims, keys, tokens, the client and its requests,
//!   user info, the request to a provider's logout, and the transport.
//! - [`core_types`] has the types of the standards' own vocabularies, and the aliases over them. It is `core` in the
//!   Rust crate, a name that stands here for the language's own library.
//! - [`login`] has what that crate leaves to its callers: pending logins, from the URL that sends a user to the
//!   provider to the claims that sign the user in, [`login::LoginSecrets`], drawn from a generator, and
//!   [`login::front_channel`], which judges the answer of an implicit or a hybrid flow; and [`login::Sessions`], the
//!   sessions that a site keeps after logins, which a logout token of the provider ends.
//! - [`discovery`] has what a provider says of itself, from its issuer's text on, and the keys that it publishes.
//! - [`device`] has the login of a device: a command-line tool or a television, whose user signs in elsewhere.
//!
//! What each item promises stands in the page of its crate. The words of `oidc_login` and of `oidc_session` that their
//! contracts cite are passed on by `specs/Lib.antt`; a contract that speaks of device logins or of the crates below
//! logins lists the crate that it speaks of.
#![tactic(auto)]

pub mod core_types;
pub mod device;
pub mod discovery;
pub mod login;

// Texts, URLs and vocabularies.
pub use oidc_types::{
    AccessToken, AccessTokenHash, AddressCountry, AddressLocality, AddressPostalCode,
    AddressRegion, ApplicationType, Audience, AuthDisplay, AuthPrompt, AuthUrl,
    AuthenticationContextClass, AuthenticationMethodReference, AuthorizationCode,
    AuthorizationCodeHash, ClaimName, ClaimType, ClientAuthMethod, ClientConfigUrl,
    ClientContactEmail, ClientId, ClientName, ClientSecret, ClientUrl, ClosedVocabulary, CsrfToken,
    DeviceAuthorizationUrl, DeviceCode, EndSessionUrl, EndUserBirthday, EndUserEmail,
    EndUserFamilyName, EndUserGivenName, EndUserMiddleName, EndUserName, EndUserNickname,
    EndUserPhoneNumber, EndUserPictureUrl, EndUserProfileUrl, EndUserTimezone, EndUserUsername,
    EndUserVerificationUrl, EndUserWebsiteUrl, EndpointMaybeSet, EndpointNotSet, EndpointSet,
    EndpointState, ErrorResponseType, FormattedAddress, GrantType, InitiateLoginUrl,
    IntrospectionUrl, IssuerUrl, JsonWebKeyId, JsonWebKeySetUrl, JweContentEncryptionAlgorithm,
    JweKeyManagementAlgorithm, JwsSigningAlgorithm, LanguageTag, LocalizedClaim, LocalizedIter,
    LoginHint, LogoUrl, LogoutHint, Nonce, OAuth2ResponseType, OpPolicyUrl, OpTosUrl,
    PkceCodeChallengeMethod, PkceCodeVerifier, PolicyUrl, PostLogoutRedirectUrl, Presence,
    RedirectUrl, RefreshToken, RegistrationAccessToken, RegistrationUrl, RequestUrl,
    ResourceOwnerPassword, ResourceOwnerUsername, ResponseMode, ResponseType, ResponseTypes,
    RevocationUrl, Scope, SectorIdentifierUrl, ServiceDocUrl, SigningError, StreetAddress,
    SubjectIdentifier, SubjectIdentifierType, ToSUrl, TokenUrl, UrlTextError, UserCode,
    UserInfoUrl, VerificationUriComplete, Vocabulary,
};

// Why a text doesn't read, and the members of an object.
pub use oidc_members::{
    FieldName, Member, MemberName, Members, OutMember, ParseError, ParseKind, Reading, Refusal,
};

// Claims.
pub use oidc_claims::{
    AdditionalClaims, AddressClaim, AllOtherClaims, EmptyAdditionalClaims, GenderClaim,
    StandardClaims,
};

// Keys.
pub use oidc_keys::{
    HashError, JsonWebKey, JsonWebKeySet, JsonWebKeyUse, PrivateSigningKey,
    SignatureVerificationError,
};

// The token layer, and the transport that a site hands in.
pub use oidc_oauth2::{
    Adapter, Answer, AuthType, Body, CallError, ClientAuth, CodeTokenRequest, ConfigurationError,
    DeviceAuthorizationResponse, DeviceCodeErrorResponse, DeviceCodeErrorResponseType,
    EmptyExtraDeviceAuthorizationFields, EmptyExtraTokenFields, ErrorResponse,
    ExtraDeviceAuthorizationFields, ExtraTokenFields, Fault, HttpRequest, HttpResponse,
    OAuth2TokenResponse, OtherCause, PkceCodeChallenge, PkceError, PrepareError, Recorded,
    RequestTokenError, RevocableToken, RevocationErrorResponseType, StandardErrorResponse,
    StandardTokenIntrospectionResponse, StandardTokenResponse, SyncHttpClient,
    TokenIntrospectionResponse, TokenType,
};

// Its requests beside the one for a code.
pub use oidc_oauth2_requests::{
    ClientCredentialsTokenRequest, DeviceAccessTokenRequest, DeviceAuthorizationRequest,
    IntrospectionRequest, PasswordTokenRequest, PollStep, RefreshTokenRequest, RevocationRequest,
};

// Tokens.
pub use oidc_tokens::{
    AudiencesClaim, ClaimsVerificationError, IdToken, IdTokenClaims, IdTokenFields,
    IdTokenVerifier, IssuerClaim, JsonWebToken, JsonWebTokenAlgorithm, JsonWebTokenError,
    NonceVerifier, Payload, RefreshedClaimsError, TokenHeader, TokenResponse, UserInfoVerifier,
    from_code, from_token,
};

// User info and logout.
pub use oidc_user_info::{
    AdditionalProviderMetadata, BuildUrlError, EmptyAdditionalProviderMetadata, InfoOther,
    LogoutProviderMetadata, LogoutRequest, PrepareInfoError, ResponseCause, UserInfoClaims,
    UserInfoError, UserInfoJsonWebToken, UserInfoRequest, UserInfoResponseType,
};

// The client.
pub use oidc_client::{
    AuthenticationFlow, AuthorizationRequest, Client, ProviderMetadata, ProviderMetadataWithLogout,
};
