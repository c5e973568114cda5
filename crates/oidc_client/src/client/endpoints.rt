// What needs an endpoint, on the clients whose type says that it is set, or that it may be: the endpoint itself, and
// the request that is made of it.

ghost use Rattle.std.specs.Prelude.{◌≡◌, ◌≢◌, ◌↔◌, None, Some, IfOk, IfErr, IsSomeAnd, IsTrue, codes};
ghost use Rattle.std.specs.Option.{option_copied};
ghost use Rattle.oidc_types.specs.declared.endpoint.Presence.TheVariants.{Set};
ghost use Rattle.oidc_oauth2_requests.specs.FormRequests.{client_credentials_pairs, device_code_pairs, password_pairs, refresh_pairs, token_pairs};
ghost use Rattle.oidc_client.specs.Client.{code_request_at, device_request_at, fits, form_request_at, info_request_at, introspection_at, token_request_at, IsInsecure, IsMissing, IsSecure};
ghost use Rattle.oidc_client.specs.Authorization.{new_request, seen_flow};

use crate::authorization::{AuthenticationFlow, AuthorizationRequest, Parties, openid_scopes};
use crate::client::Client;
use oidc_claims::{AdditionalClaims, GenderClaim};
use oidc_keys::JsonWebKey;
use oidc_oauth2::{
    CodeTokenRequest, ConfigurationError, DeviceAuthorizationResponse, ErrorResponse,
    ExtraDeviceAuthorizationFields, RevocableToken, TokenIntrospectionResponse,
};
use oidc_oauth2_requests::{
    ClientCredentialsTokenRequest, DeviceAccessTokenRequest, DeviceAuthorizationRequest,
    IntrospectionRequest, PasswordTokenRequest, RefreshTokenRequest, RevocationRequest,
};
use oidc_tokens::TokenResponse;
use oidc_types::{
    AccessToken, AuthDisplay, AuthPrompt, AuthUrl, AuthorizationCode, CsrfToken,
    DeviceAuthorizationUrl, EndpointMaybeSet, EndpointSet, EndpointState, IntrospectionUrl,
    JweContentEncryptionAlgorithm, Nonce, RefreshToken, ResourceOwnerPassword,
    ResourceOwnerUsername, ResponseType, RevocationUrl, SubjectIdentifier, TokenUrl, UserInfoUrl,
};
use oidc_user_info::UserInfoRequest;
use std::alloc::{AllocError, Global};
use url::Url;

// An endpoint that is set.
fn set_endpoint<U>(endpoint: &Option<U>) -> &U
    requires { IsTrue (fits Set endpoint.now) }
    ensures { Some result.now ≡ endpoint.now }
{
    match endpoint {
        Some(url) => url,
        None => unreachable!(),
    }
}

// Whether a URL's scheme is `https`.
fn is_https(url: &Url) -> bool
    ensures { IsTrue result ↔ url.now.scheme ≡ codes "https" }
{
    url.scheme() == "https"
}

impl<
    AC,
    AD,
    GC,
    JE,
    K: JsonWebKey,
    P,
    TE,
    TR,
    TIR,
    RT,
    TRE,
    Device: EndpointState,
    Introspection: EndpointState,
    Revocation: EndpointState,
    Token: EndpointState,
    UserInfo: EndpointState,
> Client<
    AC,
    AD,
    GC,
    JE,
    K,
    P,
    TE,
    TR,
    TIR,
    RT,
    TRE,
    EndpointSet,
    Device,
    Introspection,
    Revocation,
    Token,
    UserInfo,
> {
    /// The authorization endpoint.
    pub fn auth_uri(&self) -> &AuthUrl
        ensures endpoint { Some result.now ≡ self.now.auth_uri }
    {
        set_endpoint(&self.endpoints.auth_uri)
    }

    /// A request of this flow, whose state and nonce the two functions answer (RFC 6749 section 10.12, OpenID
    /// Connect Core 1.0 section 3.1.2.1). It has the client's redirect, and asks for the scope `openid` where
    /// the client does. Memory is taken first; then each function is called once, that of the state before
    /// that of the nonce: the body shows this order, and no clause. `AllocError` is want of memory, the one error.
    pub fn authorize_url<NF: FnOnce() -> Nonce, RS: ResponseType, SF: FnOnce() -> CsrfToken>(
        &self,
        alloc: Global,
        flow: AuthenticationFlow<RS>,
        state_fn: SF,
        nonce_fn: NF,
    ) -> Result<AuthorizationRequest<'_, AD, P, RS>, AllocError>
    where
        AD: AuthDisplay,
        P: AuthPrompt,
        NF: Drop,
        SF: Drop,
        requires state_fn { SF.pre state_fn }
        requires nonce_fn { NF.pre nonce_fn }
        ensures state { IfOk result (λ request. SF.post state_fn request.state) }
        ensures nonce { IfOk result (λ request. NF.post nonce_fn request.nonce) }
        ensures endpoint { IfOk result (λ request. Some request.endpoint ≡ self.now.auth_uri) }
        ensures rest { IfOk result (λ request. request ≡ new_request self.now request.endpoint
            (seen_flow flow) request.state request.nonce) }
    {
        let scopes = openid_scopes(alloc, self.own.openid_scope)?;
        let state = state_fn();
        let nonce = nonce_fn();
        let own = &self.own;
        let parties = Parties {
            endpoint: self.auth_uri(),
            client_id: &own.client_id,
            redirect_uri: own.redirect_uri.as_ref(),
        };
        Ok(AuthorizationRequest::new(alloc, parties, flow, state, nonce, scopes))
    }
}

impl<
    AC,
    AD,
    GC,
    JE,
    K: JsonWebKey,
    P,
    TE,
    TR,
    TIR,
    RT,
    TRE,
    Auth: EndpointState,
    Introspection: EndpointState,
    Revocation: EndpointState,
    Token: EndpointState,
    UserInfo: EndpointState,
> Client<
    AC,
    AD,
    GC,
    JE,
    K,
    P,
    TE,
    TR,
    TIR,
    RT,
    TRE,
    Auth,
    EndpointSet,
    Introspection,
    Revocation,
    Token,
    UserInfo,
> {
    /// The device authorization endpoint.
    pub fn device_authorization_url(&self) -> &DeviceAuthorizationUrl
        ensures endpoint { Some result.now ≡ self.now.device_authorization_url }
    {
        set_endpoint(&self.endpoints.device_authorization_url)
    }

    /// The request for the codes of a device (RFC 8628 section 3.1). It asks for the scope `openid` where the client
    /// does. `AllocError` is want of memory, the one error.
    pub fn exchange_device_code(
        &self,
        alloc: Global,
    ) -> Result<DeviceAuthorizationRequest<'_, TE>, AllocError>
    where
        TE: ErrorResponse,
        ensures request { IfOk result (λ request. IsSomeAnd self.now.device_authorization_url
            (λ endpoint. request ≡ device_request_at self.now endpoint)) }
    {
        let first = openid_scopes(alloc, self.own.openid_scope)?;
        let endpoint = self.device_authorization_url();
        let request = DeviceAuthorizationRequest::new(alloc, endpoint, self.client_auth());
        request.add_scopes(first)
    }
}

impl<
    AC,
    AD,
    GC,
    JE,
    K: JsonWebKey,
    P,
    TE,
    TR,
    TIR,
    RT,
    TRE,
    Auth: EndpointState,
    Device: EndpointState,
    Revocation: EndpointState,
    Token: EndpointState,
    UserInfo: EndpointState,
> Client<
    AC,
    AD,
    GC,
    JE,
    K,
    P,
    TE,
    TR,
    TIR,
    RT,
    TRE,
    Auth,
    Device,
    EndpointSet,
    Revocation,
    Token,
    UserInfo,
> {
    /// The introspection endpoint.
    pub fn introspection_url(&self) -> &IntrospectionUrl
        ensures endpoint { Some result.now ≡ self.now.introspection_url }
    {
        set_endpoint(&self.endpoints.introspection_url)
    }

    /// The request about an access token (RFC 7662 section 2.1), without a hint. It takes no memory.
    pub fn introspect<'a>(
        &'a self,
        alloc: Global,
        token: &'a AccessToken,
    ) -> IntrospectionRequest<'a, TE, TIR>
    where
        TE: ErrorResponse,
        TIR: TokenIntrospectionResponse,
        ensures request { IsSomeAnd self.now.introspection_url
            (λ endpoint. result ≡ introspection_at self.now token.now endpoint) }
    {
        IntrospectionRequest::new(alloc, self.introspection_url(), self.client_auth(), token)
    }
}

impl<
    AC,
    AD,
    GC,
    JE,
    K: JsonWebKey,
    P,
    TE,
    TR,
    TIR,
    RT,
    TRE,
    Auth: EndpointState,
    Device: EndpointState,
    Introspection: EndpointState,
    Token: EndpointState,
    UserInfo: EndpointState,
> Client<
    AC,
    AD,
    GC,
    JE,
    K,
    P,
    TE,
    TR,
    TIR,
    RT,
    TRE,
    Auth,
    Device,
    Introspection,
    EndpointSet,
    Token,
    UserInfo,
> {
    /// The revocation endpoint.
    pub fn revocation_url(&self) -> &RevocationUrl
        ensures endpoint { Some result.now ≡ self.now.revocation_url }
    {
        set_endpoint(&self.endpoints.revocation_url)
    }

    /// The request that revokes a token (RFC 7009 section 2.1). `InsecureUrl("revocation")` exactly where the
    /// endpoint's scheme isn't `https`. It takes no memory.
    pub fn revoke_token(
        &self,
        alloc: Global,
        token: RT,
    ) -> Result<RevocationRequest<'_, RT, TRE>, ConfigurationError>
    where
        RT: RevocableToken,
        TRE: ErrorResponse,
        ensures request { let own = token_pairs (RT.secret token) (RT.type_hint token) in
            IfOk result (λ request. IsSomeAnd self.now.revocation_url
            (λ endpoint. request ≡ form_request_at self.now own endpoint)) }
        ensures secure { IfOk result (λ request. IsSomeAnd self.now.revocation_url IsSecure) }
        ensures insecure { IfErr result (λ error. IsSomeAnd self.now.revocation_url
            (λ endpoint. IsSecure endpoint → ⊥)) }
        ensures named { IfErr result (IsInsecure (codes "revocation")) }
    {
        let endpoint = self.revocation_url();
        if is_https(endpoint.url()) {
            Ok(RevocationRequest::new(alloc, endpoint, self.client_auth(), token))
        } else {
            Err(ConfigurationError::InsecureUrl("revocation"))
        }
    }
}

impl<
    AC,
    AD,
    GC,
    JE,
    K: JsonWebKey,
    P,
    TE,
    TR,
    TIR,
    RT,
    TRE,
    Auth: EndpointState,
    Device: EndpointState,
    Introspection: EndpointState,
    Revocation: EndpointState,
    UserInfo: EndpointState,
> Client<
    AC,
    AD,
    GC,
    JE,
    K,
    P,
    TE,
    TR,
    TIR,
    RT,
    TRE,
    Auth,
    Device,
    Introspection,
    Revocation,
    EndpointSet,
    UserInfo,
> {
    /// The token endpoint.
    pub fn token_uri(&self) -> &TokenUrl
        ensures endpoint { Some result.now ≡ self.now.token_uri }
    {
        set_endpoint(&self.endpoints.token_uri)
    }

    /// The request that exchanges a code at the token endpoint (RFC 6749 section 4.1.3), with the client's
    /// redirect, where it has one. It takes no memory.
    pub fn exchange_code(
        &self,
        alloc: Global,
        code: AuthorizationCode,
    ) -> CodeTokenRequest<'_, TE, TR>
    where
        AC: AdditionalClaims,
        GC: GenderClaim,
        JE: JweContentEncryptionAlgorithm,
        TE: ErrorResponse,
        TR: TokenResponse<AC, GC, JE, K::SigningAlgorithm>,
        ensures request { IsSomeAnd self.now.token_uri
            (λ endpoint. result ≡ code_request_at self.now code endpoint) }
    {
        self.code_request_at(alloc, self.token_uri(), code)
    }

    /// The request for tokens by the client for itself (RFC 6749 section 4.4.2). It takes no
    /// memory.
    pub fn exchange_client_credentials(
        &self,
        alloc: Global,
    ) -> ClientCredentialsTokenRequest<'_, TE, TR>
    where
        AC: AdditionalClaims,
        GC: GenderClaim,
        JE: JweContentEncryptionAlgorithm,
        TE: ErrorResponse,
        TR: TokenResponse<AC, GC, JE, K::SigningAlgorithm>,
        ensures request { let own = client_credentials_pairs in
            IsSomeAnd self.now.token_uri
            (λ endpoint. result ≡ token_request_at self.now own endpoint) }
    {
        self.client_credentials_request_at(alloc, self.token_uri())
    }

    /// The request for tokens by a person's name and password (RFC 6749 section 4.3.2). It takes no
    /// memory.
    pub fn exchange_password<'a>(
        &'a self,
        alloc: Global,
        username: &'a ResourceOwnerUsername,
        password: &'a ResourceOwnerPassword,
    ) -> PasswordTokenRequest<'a, TE, TR>
    where
        AC: AdditionalClaims,
        GC: GenderClaim,
        JE: JweContentEncryptionAlgorithm,
        TE: ErrorResponse,
        TR: TokenResponse<AC, GC, JE, K::SigningAlgorithm>,
        ensures request { let own = password_pairs username.now password.now in
            IsSomeAnd self.now.token_uri
            (λ endpoint. result ≡ token_request_at self.now own endpoint) }
    {
        self.password_request_at(alloc, self.token_uri(), username, password)
    }

    /// The request for new tokens by a refresh token (RFC 6749 section 6). It takes no
    /// memory.
    pub fn exchange_refresh_token<'a>(
        &'a self,
        alloc: Global,
        token: &'a RefreshToken,
    ) -> RefreshTokenRequest<'a, TE, TR>
    where
        AC: AdditionalClaims,
        GC: GenderClaim,
        JE: JweContentEncryptionAlgorithm,
        TE: ErrorResponse,
        TR: TokenResponse<AC, GC, JE, K::SigningAlgorithm>,
        ensures request { let own = refresh_pairs token.now in
            IsSomeAnd self.now.token_uri
            (λ endpoint. result ≡ token_request_at self.now own endpoint) }
    {
        self.refresh_request_at(alloc, self.token_uri(), token)
    }

    /// The request of a device for its tokens (RFC 8628 section 3.4), by the device code of a response. It takes no
    /// memory.
    pub fn exchange_device_access_token<'a, EF>(
        &'a self,
        alloc: Global,
        response: &'a DeviceAuthorizationResponse<EF>,
    ) -> DeviceAccessTokenRequest<'a, TR, EF>
    where
        EF: ExtraDeviceAuthorizationFields,
        AC: AdditionalClaims,
        GC: GenderClaim,
        JE: JweContentEncryptionAlgorithm,
        TR: TokenResponse<AC, GC, JE, K::SigningAlgorithm>,
        ensures request { let own = device_code_pairs response.now.device_code in
            IsSomeAnd self.now.token_uri
            (λ endpoint. result ≡ token_request_at self.now own endpoint) }
    {
        self.device_token_request_at(alloc, self.token_uri(), response)
    }
}

impl<
    AC,
    AD,
    GC,
    JE,
    K: JsonWebKey,
    P,
    TE,
    TR,
    TIR,
    RT,
    TRE,
    Auth: EndpointState,
    Device: EndpointState,
    Introspection: EndpointState,
    Revocation: EndpointState,
    UserInfo: EndpointState,
> Client<
    AC,
    AD,
    GC,
    JE,
    K,
    P,
    TE,
    TR,
    TIR,
    RT,
    TRE,
    Auth,
    Device,
    Introspection,
    Revocation,
    EndpointMaybeSet,
    UserInfo,
> {
    /// The token endpoint, where it is set.
    pub fn token_uri(&self) -> Option<&TokenUrl>
        ensures endpoint { option_copied result ≡ self.now.token_uri }
    {
        self.endpoints.token_uri.as_ref()
    }

    /// The request that exchanges a code at the token endpoint (RFC 6749 section 4.1.3), with the client's
    /// redirect, where it has one. `MissingUrl("token")` exactly where that endpoint isn't set. It takes no
    /// memory.
    pub fn exchange_code(
        &self,
        alloc: Global,
        code: AuthorizationCode,
    ) -> Result<CodeTokenRequest<'_, TE, TR>, ConfigurationError>
    where
        AC: AdditionalClaims,
        GC: GenderClaim,
        JE: JweContentEncryptionAlgorithm,
        TE: ErrorResponse,
        TR: TokenResponse<AC, GC, JE, K::SigningAlgorithm>,
        ensures request { IfOk result (λ request. IsSomeAnd self.now.token_uri
            (λ endpoint. request ≡ code_request_at self.now code endpoint)) }
        ensures unset { IfErr result (λ error. self.now.token_uri ≡ None) }
        ensures missing { IfErr result (IsMissing (codes "token")) }
    {
        match self.token_uri() {
            Some(endpoint) => Ok(self.code_request_at(alloc, endpoint, code)),
            None => Err(ConfigurationError::MissingUrl("token")),
        }
    }

    /// The request for tokens by the client for itself (RFC 6749 section 4.4.2).
    /// `MissingUrl("token")` exactly where the token endpoint isn't set. It takes no memory.
    pub fn exchange_client_credentials(
        &self,
        alloc: Global,
    ) -> Result<ClientCredentialsTokenRequest<'_, TE, TR>, ConfigurationError>
    where
        AC: AdditionalClaims,
        GC: GenderClaim,
        JE: JweContentEncryptionAlgorithm,
        TE: ErrorResponse,
        TR: TokenResponse<AC, GC, JE, K::SigningAlgorithm>,
        ensures request { IfOk result (λ request. IsSomeAnd self.now.token_uri
            (λ endpoint. request ≡ token_request_at self.now client_credentials_pairs endpoint)) }
        ensures unset { IfErr result (λ error. self.now.token_uri ≡ None) }
        ensures missing { IfErr result (IsMissing (codes "token")) }
    {
        match self.token_uri() {
            Some(endpoint) => Ok(self.client_credentials_request_at(alloc, endpoint)),
            None => Err(ConfigurationError::MissingUrl("token")),
        }
    }

    /// The request for tokens by a person's name and password (RFC 6749 section 4.3.2).
    /// `MissingUrl("token")` exactly where the token endpoint isn't set. It takes no memory.
    pub fn exchange_password<'a>(
        &'a self,
        alloc: Global,
        username: &'a ResourceOwnerUsername,
        password: &'a ResourceOwnerPassword,
    ) -> Result<PasswordTokenRequest<'a, TE, TR>, ConfigurationError>
    where
        AC: AdditionalClaims,
        GC: GenderClaim,
        JE: JweContentEncryptionAlgorithm,
        TE: ErrorResponse,
        TR: TokenResponse<AC, GC, JE, K::SigningAlgorithm>,
        ensures request { let own = password_pairs username.now password.now in
            IfOk result (λ request. IsSomeAnd self.now.token_uri
            (λ endpoint. request ≡ token_request_at self.now own endpoint)) }
        ensures unset { IfErr result (λ error. self.now.token_uri ≡ None) }
        ensures missing { IfErr result (IsMissing (codes "token")) }
    {
        match self.token_uri() {
            Some(endpoint) => Ok(self.password_request_at(alloc, endpoint, username, password)),
            None => Err(ConfigurationError::MissingUrl("token")),
        }
    }

    /// The request for new tokens by a refresh token (RFC 6749 section 6).
    /// `MissingUrl("token")` exactly where the token endpoint isn't set. It takes no memory.
    pub fn exchange_refresh_token<'a>(
        &'a self,
        alloc: Global,
        token: &'a RefreshToken,
    ) -> Result<RefreshTokenRequest<'a, TE, TR>, ConfigurationError>
    where
        AC: AdditionalClaims,
        GC: GenderClaim,
        JE: JweContentEncryptionAlgorithm,
        TE: ErrorResponse,
        TR: TokenResponse<AC, GC, JE, K::SigningAlgorithm>,
        ensures request { let own = refresh_pairs token.now in
            IfOk result (λ request. IsSomeAnd self.now.token_uri
            (λ endpoint. request ≡ token_request_at self.now own endpoint)) }
        ensures unset { IfErr result (λ error. self.now.token_uri ≡ None) }
        ensures missing { IfErr result (IsMissing (codes "token")) }
    {
        match self.token_uri() {
            Some(endpoint) => Ok(self.refresh_request_at(alloc, endpoint, token)),
            None => Err(ConfigurationError::MissingUrl("token")),
        }
    }

    /// The request of a device for its tokens (RFC 8628 section 3.4), by the device code of a response.
    /// `MissingUrl("token")` exactly where the token endpoint isn't set. It takes no memory.
    pub fn exchange_device_access_token<'a, EF>(
        &'a self,
        alloc: Global,
        response: &'a DeviceAuthorizationResponse<EF>,
    ) -> Result<DeviceAccessTokenRequest<'a, TR, EF>, ConfigurationError>
    where
        EF: ExtraDeviceAuthorizationFields,
        AC: AdditionalClaims,
        GC: GenderClaim,
        JE: JweContentEncryptionAlgorithm,
        TR: TokenResponse<AC, GC, JE, K::SigningAlgorithm>,
        ensures request { let own = device_code_pairs response.now.device_code in
            IfOk result (λ request. IsSomeAnd self.now.token_uri
            (λ endpoint. request ≡ token_request_at self.now own endpoint)) }
        ensures unset { IfErr result (λ error. self.now.token_uri ≡ None) }
        ensures missing { IfErr result (IsMissing (codes "token")) }
    {
        match self.token_uri() {
            Some(endpoint) => Ok(self.device_token_request_at(alloc, endpoint, response)),
            None => Err(ConfigurationError::MissingUrl("token")),
        }
    }
}

impl<
    AC,
    AD,
    GC,
    JE,
    K: JsonWebKey,
    P,
    TE,
    TR,
    TIR,
    RT,
    TRE,
    Auth: EndpointState,
    Device: EndpointState,
    Introspection: EndpointState,
    Revocation: EndpointState,
    Token: EndpointState,
> Client<
    AC,
    AD,
    GC,
    JE,
    K,
    P,
    TE,
    TR,
    TIR,
    RT,
    TRE,
    Auth,
    Device,
    Introspection,
    Revocation,
    Token,
    EndpointSet,
> {
    /// The user info endpoint.
    pub fn user_info_url(&self) -> &UserInfoUrl
        ensures endpoint { Some result.now ≡ self.now.user_info_url }
    {
        set_endpoint(&self.endpoints.user_info_url)
    }

    /// The request for user info (OpenID Connect Core 1.0 section 5.3.1) with an access token, for answers that
    /// needn't be signed and are about the expected subject, where there is one. It takes no memory.
    pub fn user_info(
        &self,
        access_token: AccessToken,
        expected_subject: Option<SubjectIdentifier>,
    ) -> UserInfoRequest<'_, JE, K>
    where
        JE: JweContentEncryptionAlgorithm,
        ensures request { IsSomeAnd self.now.user_info_url
            (λ url. result ≡ info_request_at self.now access_token expected_subject url) }
    {
        self.info_request_at(self.user_info_url(), access_token, expected_subject)
    }
}

impl<
    AC,
    AD,
    GC,
    JE,
    K: JsonWebKey,
    P,
    TE,
    TR,
    TIR,
    RT,
    TRE,
    Auth: EndpointState,
    Device: EndpointState,
    Introspection: EndpointState,
    Revocation: EndpointState,
    Token: EndpointState,
> Client<
    AC,
    AD,
    GC,
    JE,
    K,
    P,
    TE,
    TR,
    TIR,
    RT,
    TRE,
    Auth,
    Device,
    Introspection,
    Revocation,
    Token,
    EndpointMaybeSet,
> {
    /// The user info endpoint, where it is set.
    pub fn user_info_url(&self) -> Option<&UserInfoUrl>
        ensures endpoint { option_copied result ≡ self.now.user_info_url }
    {
        self.endpoints.user_info_url.as_ref()
    }

    /// The request for user info (OpenID Connect Core 1.0 section 5.3.1) with an access token, for answers that
    /// needn't be signed and are about the expected subject, where there is one. `MissingUrl("user info")`
    /// exactly where that endpoint isn't set. It takes no memory.
    pub fn user_info(
        &self,
        access_token: AccessToken,
        expected_subject: Option<SubjectIdentifier>,
    ) -> Result<UserInfoRequest<'_, JE, K>, ConfigurationError>
    where
        JE: JweContentEncryptionAlgorithm,
        ensures request { IfOk result (λ request. IsSomeAnd self.now.user_info_url
            (λ url. request ≡ info_request_at self.now access_token expected_subject url)) }
        ensures unset { IfErr result (λ error. self.now.user_info_url ≡ None) }
        ensures missing { IfErr result (IsMissing (codes "user info")) }
    {
        match self.user_info_url() {
            Some(endpoint) => { Ok(self.info_request_at(endpoint, access_token, expected_subject)) }
            None => Err(ConfigurationError::MissingUrl("user info")),
        }
    }
}
