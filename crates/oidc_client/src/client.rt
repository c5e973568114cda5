//! A client of one provider, whose type says which endpoints are set (RFC 6749 sections 2.2 and 3, OpenID Connect
//! Core 1.0 sections 3.1.3.7 and 5.3).

ghost use Rattle.std.specs.Prelude.{◌≡◌};
ghost use Rattle.oidc_client.specs.Client.{new_client};
ghost use Rattle.oidc_client.specs.ProviderMetadata.{client_of_provider};

mod endpoints;
mod requests;
mod settings;

use crate::provider_metadata::ProviderMetadata;
use oidc_claims::EmptyAdditionalClaims;
use oidc_keys::{CoreJsonWebKey, JsonWebKey, JsonWebKeySet};
use oidc_members::Reading;
use oidc_oauth2::{
    AuthType, CoreErrorResponseType, CoreRevocableToken, CoreRevocationErrorResponse,
    CoreTokenIntrospectionResponse, StandardErrorResponse,
};
use oidc_tokens::CoreTokenResponse;
use oidc_types::{
    AuthUrl, ClientId, ClientSecret, CoreAuthDisplay, CoreAuthPrompt, CoreGenderClaim,
    CoreJweContentEncryptionAlgorithm, DeviceAuthorizationUrl, EndpointMaybeSet, EndpointNotSet,
    EndpointSet, EndpointState, IntrospectionUrl, IssuerUrl, RedirectUrl, RevocationUrl, TokenUrl,
    UserInfoUrl,
};
use oidc_user_info::AdditionalProviderMetadata;
use std::marker::{Model, PhantomData};

// The client's own values, and what it knows of its provider beside the endpoints.
#[derive(Drop)]
struct OwnValues<K: JsonWebKey> {
    client_id: ClientId,
    client_secret: Option<ClientSecret>,
    auth_type: AuthType,
    redirect_uri: Option<RedirectUrl>,
    openid_scope: bool,
    reading: Reading,
    code_hash_required: bool,
    issuer: IssuerUrl,
    jwks: JsonWebKeySet<K>,
    allowed_algs: Option<Vec<K::SigningAlgorithm>>,
}

// The endpoints, each where it is set.
#[derive(Drop)]
struct EndpointUrls {
    auth_uri: Option<AuthUrl>,
    device_authorization_url: Option<DeviceAuthorizationUrl>,
    introspection_url: Option<IntrospectionUrl>,
    revocation_url: Option<RevocationUrl>,
    token_uri: Option<TokenUrl>,
    user_info_url: Option<UserInfoUrl>,
}

/// A client of one provider: a confidential one, which has a secret, or a public one. Contracts see its values
/// and its endpoints.
///
/// The first eleven parameters say of which types its requests and answers are: additional claims of ID tokens and
/// user info, displays, genders, content encryption, keys, prompts; the error response and the token response of
/// the token endpoint, the introspection response, the tokens that may be revoked, and the error response where
/// they can't be. Each of the last six says whether an endpoint is set: what needs the endpoint stands on the
/// clients that have it.
///
/// It has no `Debug`, since it holds a secret.
#[derive(Drop)]
pub struct Client<
    AC,
    AD,
    GC,
    JE,
    K: JsonWebKey,
    P,
    TE,
    TR,
    TIR,
    RT,
    TRE,
    Auth: EndpointState,
    Device: EndpointState,
    Introspection: EndpointState,
    Revocation: EndpointState,
    Token: EndpointState,
    UserInfo: EndpointState,
> {
    own: OwnValues<K>,
    endpoints: EndpointUrls,
    answers: PhantomData<(AC, AD, GC, JE, P, TE, TR, TIR, RT, TRE)>,
    states: PhantomData<(Auth, Device, Introspection, Revocation, Token, UserInfo)>,
}

/// A client of the program's own keys and vocabularies, without additional claims.
pub type CoreClient<
    Auth = EndpointNotSet,
    Device = EndpointNotSet,
    Introspection = EndpointNotSet,
    Revocation = EndpointNotSet,
    Token = EndpointNotSet,
    UserInfo = EndpointNotSet,
> = Client<
    EmptyAdditionalClaims,
    CoreAuthDisplay,
    // Any text is a gender.
    CoreGenderClaim,
    CoreJweContentEncryptionAlgorithm,
    // Symmetric keys.
    CoreJsonWebKey,
    CoreAuthPrompt,
    StandardErrorResponse<CoreErrorResponseType>,
    CoreTokenResponse,
    CoreTokenIntrospectionResponse,
    // Access and refresh tokens.
    CoreRevocableToken,
    CoreRevocationErrorResponse,
    Auth,
    Device,
    Introspection,
    Revocation,
    Token,
    UserInfo,
>;

impl<
    AC,
    AD,
    GC,
    JE,
    K: JsonWebKey,
    P,
    TE,
    TR,
    TIR,
    RT,
    TRE,
    Auth: EndpointState,
    Device: EndpointState,
    Introspection: EndpointState,
    Revocation: EndpointState,
    Token: EndpointState,
    UserInfo: EndpointState,
> Model
    for Client<
        AC,
        AD,
        GC,
        JE,
        K,
        P,
        TE,
        TR,
        TIR,
        RT,
        TRE,
        Auth,
        Device,
        Introspection,
        Revocation,
        Token,
        UserInfo,
    > {
    ghost use Rattle.std.specs.Prelude.{IsTrue, option_map};
    ghost use Rattle.oidc_client.specs.Client.{SeenClient, fits};

    ghost Value = { SeenClient K K.SigningAlgorithm };

    ghost view = { λ c. record {
      client_id = c.own.client_id;
      client_secret = c.own.client_secret;
      auth_type = c.own.auth_type;
      redirect_uri = c.own.redirect_uri;
      openid_scope = c.own.openid_scope;
      reading = c.own.reading;
      code_hash_required = c.own.code_hash_required;
      issuer = c.own.issuer;
      keys = c.own.jwks;
      allowed = option_map (λ algs. algs.items) c.own.allowed_algs;
      auth_uri = c.endpoints.auth_uri;
      device_authorization_url = c.endpoints.device_authorization_url;
      introspection_url = c.endpoints.introspection_url;
      revocation_url = c.endpoints.revocation_url;
      token_uri = c.endpoints.token_uri;
      user_info_url = c.endpoints.user_info_url;
    } };

    // Each endpoint is set as its state says.
    ghost invariant = { λ c. IsTrue (fits Auth.REQUIRED c.endpoints.auth_uri)
        × IsTrue (fits Device.REQUIRED c.endpoints.device_authorization_url)
        × IsTrue (fits Introspection.REQUIRED c.endpoints.introspection_url)
        × IsTrue (fits Revocation.REQUIRED c.endpoints.revocation_url)
        × IsTrue (fits Token.REQUIRED c.endpoints.token_uri)
        × IsTrue (fits UserInfo.REQUIRED c.endpoints.user_info_url) };
}

impl<AC, AD, GC, JE, K: JsonWebKey, P, TE, TR, TIR, RT, TRE> Client<
    AC,
    AD,
    GC,
    JE,
    K,
    P,
    TE,
    TR,
    TIR,
    RT,
    TRE,
    EndpointNotSet,
    EndpointNotSet,
    EndpointNotSet,
    EndpointNotSet,
    EndpointNotSet,
    EndpointNotSet,
> {
    /// A client with this ID of the provider with this issuer and these keys. It has no secret, no redirect, no
    /// list of algorithms and no endpoint; it authenticates as `AuthType::BasicAuth` says once it has a secret,
    /// its requests ask for the scope `openid`, it reads strictly and demands no hash of a code. It takes no memory.
    pub fn new(client_id: ClientId, issuer: IssuerUrl, jwks: JsonWebKeySet<K>) -> Self
        ensures kept { result ≡ new_client client_id issuer jwks }
    {
        Client {
            own: OwnValues {
                client_id,
                client_secret: None,
                auth_type: AuthType::BasicAuth,
                redirect_uri: None,
                openid_scope: true,
                reading: Reading::STRICT,
                code_hash_required: false,
                issuer,
                jwks,
                allowed_algs: None,
            },
            endpoints: EndpointUrls {
                auth_uri: None,
                device_authorization_url: None,
                introspection_url: None,
                revocation_url: None,
                token_uri: None,
                user_info_url: None,
            },
            answers: PhantomData,
            states: PhantomData,
        }
    }
}

impl<AC, AD, GC, JE, K: JsonWebKey, P, TE, TR, TIR, RT, TRE> Client<
    AC,
    AD,
    GC,
    JE,
    K,
    P,
    TE,
    TR,
    TIR,
    RT,
    TRE,
    EndpointSet,
    EndpointNotSet,
    EndpointNotSet,
    EndpointNotSet,
    EndpointMaybeSet,
    EndpointMaybeSet,
> {
    /// A client with this ID and, where it is confidential, this secret, of the provider that says this of itself:
    /// its issuer, keys and endpoints are the provider's, and it allows the provider's algorithms. It takes no
    /// memory.
    pub fn from_provider_metadata<A: AdditionalProviderMetadata>(
        metadata: ProviderMetadata<A, K>,
        client_id: ClientId,
        client_secret: Option<ClientSecret>,
    ) -> Self
        ensures kept { result ≡ client_of_provider metadata client_id client_secret }
    {
        Client {
            own: OwnValues {
                client_id,
                client_secret,
                auth_type: AuthType::BasicAuth,
                redirect_uri: None,
                openid_scope: true,
                reading: Reading::STRICT,
                code_hash_required: false,
                issuer: metadata.issuer,
                jwks: metadata.jwks,
                allowed_algs: Some(metadata.signing_algorithms),
            },
            endpoints: EndpointUrls {
                auth_uri: Some(metadata.authorization_endpoint),
                device_authorization_url: None,
                introspection_url: None,
                revocation_url: None,
                token_uri: metadata.token_endpoint,
                user_info_url: metadata.userinfo_endpoint,
            },
            answers: PhantomData,
            states: PhantomData,
        }
    }
}
