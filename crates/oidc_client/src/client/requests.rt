// What any client makes: what it expects of an ID token, and its requests at an endpoint that is given.

ghost use Rattle.std.specs.Prelude.{◌≡◌, None, IfOk};
ghost use Rattle.oidc_oauth2.specs.ClientAuth.{seen_client};
ghost use Rattle.oidc_oauth2_requests.specs.FormRequests.{client_credentials_pairs, device_code_pairs, password_pairs, refresh_pairs};
ghost use Rattle.oidc_client.specs.Client.{client_auth_of, code_request_at, info_request_at, token_request_at, verifier_of};

use crate::client::Client;
use oidc_keys::JsonWebKey;
use oidc_oauth2::{
    ClientAuth, CodeTokenRequest, DeviceAuthorizationResponse, ExtraDeviceAuthorizationFields,
};
use oidc_oauth2_requests::{
    ClientCredentialsTokenRequest, DeviceAccessTokenRequest, PasswordTokenRequest,
    RefreshTokenRequest,
};
use oidc_tokens::{IdTokenVerifier, UserInfoVerifier};
use oidc_types::{
    AccessToken, AuthorizationCode, EndpointState, RefreshToken, ResourceOwnerPassword,
    ResourceOwnerUsername, SubjectIdentifier, TokenUrl, UserInfoUrl,
};
use oidc_user_info::UserInfoRequest;
use std::alloc::{AllocError, Global};

impl<
    AC,
    AD,
    GC,
    JE,
    K: JsonWebKey,
    P,
    TE,
    TR,
    TIR,
    RT,
    TRE,
    Auth: EndpointState,
    Device: EndpointState,
    Introspection: EndpointState,
    Revocation: EndpointState,
    Token: EndpointState,
    UserInfo: EndpointState,
> Client<
    AC,
    AD,
    GC,
    JE,
    K,
    P,
    TE,
    TR,
    TIR,
    RT,
    TRE,
    Auth,
    Device,
    Introspection,
    Revocation,
    Token,
    UserInfo,
> {
    /// What this client expects of an ID token (OpenID Connect Core 1.0 section 3.1.3.7): itself as the one
    /// audience, the issuer, and a signature under its own secret or a key of the issuer, by an algorithm of its
    /// list, where it has one. `AllocError` is want of memory, the one error.
    pub fn id_token_verifier(&self, alloc: Global) -> Result<IdTokenVerifier<'_, K>, AllocError>
        ensures verifier { IfOk result
            (λ verifier. verifier ≡ verifier_of K.symmetric_of self.now) }
    {
        let verifier = self.verifier_without_list(alloc)?;
        match &self.own.allowed_algs {
            None => Ok(verifier),
            Some(algs) => {
                let algs = Vec::from_slice(alloc, algs.as_slice())?;
                Ok(verifier.set_allowed_algs(algs))
            }
        }
    }

    // The same, which allows RS256 alone.
    fn verifier_without_list(&self, alloc: Global) -> Result<IdTokenVerifier<'_, K>, AllocError>
        ensures { IfOk result (λ verifier. verifier
            ≡ verifier_of K.symmetric_of (record self.now { allowed = None })) }
    {
        let own = &self.own;
        match &own.client_secret {
            None => Ok(IdTokenVerifier::new_public_client(&own.client_id, &own.issuer, &own.jwks)),
            Some(secret) => IdTokenVerifier::new_confidential_client(
                alloc,
                &own.client_id,
                secret,
                &own.issuer,
                &own.jwks,
            ),
        }
    }

    // How it names itself to an endpoint.
    pub(super) fn client_auth(&self) -> ClientAuth<'_>
        ensures { seen_client result ≡ client_auth_of self.now }
    {
        ClientAuth {
            client_id: &self.own.client_id,
            client_secret: self.own.client_secret.as_ref(),
            auth_type: self.own.auth_type,
        }
    }

    // The exchange of a code at an endpoint.
    pub(super) fn code_request_at<'a, E, R>(
        &'a self,
        alloc: Global,
        endpoint: &'a TokenUrl,
        code: AuthorizationCode,
    ) -> CodeTokenRequest<'a, E, R>
        ensures { result ≡ code_request_at self.now code endpoint.now }
    {
        let request = CodeTokenRequest::new(alloc, endpoint, self.client_auth(), code);
        let request = request.set_reading(self.own.reading);
        match &self.own.redirect_uri {
            None => request,
            Some(redirect) => request.set_redirect_uri(redirect),
        }
    }

    // The request for tokens by the client for itself at an endpoint.
    pub(super) fn client_credentials_request_at<'a, E, R>(
        &'a self,
        alloc: Global,
        endpoint: &'a TokenUrl,
    ) -> ClientCredentialsTokenRequest<'a, E, R>
        ensures { result ≡ token_request_at self.now client_credentials_pairs endpoint.now }
    {
        let request = ClientCredentialsTokenRequest::new(alloc, endpoint, self.client_auth());
        request.set_reading(self.own.reading)
    }

    // The request for tokens by a person's name and password at an endpoint.
    pub(super) fn password_request_at<'a, E, R>(
        &'a self,
        alloc: Global,
        endpoint: &'a TokenUrl,
        username: &'a ResourceOwnerUsername,
        password: &'a ResourceOwnerPassword,
    ) -> PasswordTokenRequest<'a, E, R>
        ensures { let own = password_pairs username.now password.now in
            result ≡ token_request_at self.now own endpoint.now }
    {
        let auth = self.client_auth();
        let request = PasswordTokenRequest::new(alloc, endpoint, auth, username, password);
        request.set_reading(self.own.reading)
    }

    // The request for new tokens by a refresh token at an endpoint.
    pub(super) fn refresh_request_at<'a, E, R>(
        &'a self,
        alloc: Global,
        endpoint: &'a TokenUrl,
        token: &'a RefreshToken,
    ) -> RefreshTokenRequest<'a, E, R>
        ensures { result ≡ token_request_at self.now (refresh_pairs token.now) endpoint.now }
    {
        let request = RefreshTokenRequest::new(alloc, endpoint, self.client_auth(), token);
        request.set_reading(self.own.reading)
    }

    // The request of a device for its tokens at an endpoint.
    pub(super) fn device_token_request_at<'a, R, EF: ExtraDeviceAuthorizationFields>(
        &'a self,
        alloc: Global,
        endpoint: &'a TokenUrl,
        response: &'a DeviceAuthorizationResponse<EF>,
    ) -> DeviceAccessTokenRequest<'a, R, EF>
        ensures { let own = device_code_pairs response.now.device_code in
            result ≡ token_request_at self.now own endpoint.now }
    {
        let request = DeviceAccessTokenRequest::new(alloc, endpoint, self.client_auth(), response);
        request.set_reading(self.own.reading)
    }

    // The request for user info at an endpoint.
    pub(super) fn info_request_at<'a, J>(
        &'a self,
        endpoint: &'a UserInfoUrl,
        access_token: AccessToken,
        expected_subject: Option<SubjectIdentifier>,
    ) -> UserInfoRequest<'a, J, K>
        ensures { result ≡ info_request_at self.now access_token expected_subject endpoint.now }
    {
        let verifier = UserInfoVerifier::new(
            &self.own.client_id,
            &self.own.issuer,
            &self.own.jwks,
            expected_subject,
        );
        UserInfoRequest::new(endpoint, access_token, verifier).set_reading(self.own.reading)
    }
}
