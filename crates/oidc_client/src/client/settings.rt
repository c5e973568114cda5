// What may be said of any client, whatever endpoints it has.

ghost use Rattle.std.specs.Prelude.{◌≡◌, IsTrue, Some, true, false};
ghost use Rattle.std.specs.Option.{option_copied};
ghost use Rattle.oidc_client.specs.Client.{fits};

use crate::client::Client;
use oidc_keys::JsonWebKey;
use oidc_members::Reading;
use oidc_oauth2::AuthType;
use oidc_types::{
    AuthUrl, ClientId, ClientSecret, DeviceAuthorizationUrl, EndpointSet, EndpointState,
    IntrospectionUrl, IssuerUrl, RedirectUrl, RevocationUrl, TokenUrl, UserInfoUrl,
};
use std::marker::PhantomData;

impl<
    AC,
    AD,
    GC,
    JE,
    K: JsonWebKey,
    P,
    TE,
    TR,
    TIR,
    RT,
    TRE,
    Auth: EndpointState,
    Device: EndpointState,
    Introspection: EndpointState,
    Revocation: EndpointState,
    Token: EndpointState,
    UserInfo: EndpointState,
> Client<
    AC,
    AD,
    GC,
    JE,
    K,
    P,
    TE,
    TR,
    TIR,
    RT,
    TRE,
    Auth,
    Device,
    Introspection,
    Revocation,
    Token,
    UserInfo,
> {
    /// With this way to send its secret (RFC 6749 section 2.3.1).
    pub fn set_auth_type(mut self, auth_type: AuthType) -> Self
        ensures set { result ≡ record self { auth_type = auth_type } }
    {
        self.own.auth_type = auth_type;
        self
    }

    /// How it sends its secret, where it has one.
    pub fn auth_type(&self) -> &AuthType
        ensures auth_type { result.now ≡ self.now.auth_type }
    {
        &self.own.auth_type
    }

    /// The client ID.
    pub fn client_id(&self) -> &ClientId
        ensures id { result.now ≡ self.now.client_id }
    {
        &self.own.client_id
    }

    /// The issuer of its provider (OpenID Connect Core 1.0 section 2).
    pub fn issuer(&self) -> &IssuerUrl
        ensures issuer { result.now ≡ self.now.issuer }
    {
        &self.own.issuer
    }

    /// As a confidential client with this secret.
    pub fn set_client_secret(mut self, secret: ClientSecret) -> Self
        ensures set { result ≡ record self { client_secret = Some secret } }
    {
        self.own.client_secret = Some(secret);
        self
    }

    /// The secret, where the client is confidential.
    pub fn client_secret(&self) -> Option<&ClientSecret>
        ensures secret { option_copied result ≡ self.now.client_secret }
    {
        self.own.client_secret.as_ref()
    }

    /// With this redirect of its authorization requests (RFC 6749 section 3.1.2).
    pub fn set_redirect_uri(mut self, redirect: RedirectUrl) -> Self
        ensures set { result ≡ record self { redirect_uri = Some redirect } }
    {
        self.own.redirect_uri = Some(redirect);
        self
    }

    /// The redirect, where there is one.
    pub fn redirect_uri(&self) -> Option<&RedirectUrl>
        ensures redirect { option_copied result ≡ self.now.redirect_uri }
    {
        self.own.redirect_uri.as_ref()
    }

    /// Its requests ask for the scope `openid`, as at first (OpenID Connect Core 1.0 section 3.1.2.1).
    pub fn enable_openid_scope(mut self) -> Self
        ensures set { result ≡ record self { openid_scope = true } }
    {
        self.own.openid_scope = true;
        self
    }

    /// Its requests don't ask for the scope `openid` by themselves.
    pub fn disable_openid_scope(mut self) -> Self
        ensures set { result ≡ record self { openid_scope = false } }
    {
        self.own.openid_scope = false;
        self
    }

    /// With this reading of ID tokens and user info, at first `Reading::STRICT`: the requests that it makes for tokens
    /// and for user info have it, and a callback and an answer of an implicit or a hybrid flow are read under it.
    pub fn set_reading(mut self, reading: Reading) -> Self
        ensures set { result ≡ record self { reading = reading } }
    {
        self.own.reading = reading;
        self
    }

    /// How it reads ID tokens and user info.
    pub fn reading(&self) -> Reading
        ensures reading { result ≡ self.now.reading }
    {
        self.own.reading
    }

    /// Whether the ID token of a hybrid answer that has a code has to have the hash of that code, `c_hash` (OpenID
    /// Connect Core 1.0 section 3.3.2.11). At first it needn't.
    pub fn require_code_hash(mut self, required: bool) -> Self
        ensures set { result ≡ record self { code_hash_required = required } }
    {
        self.own.code_hash_required = required;
        self
    }

    /// Whether the ID token of a hybrid answer that has a code has to have the hash of that code.
    pub fn code_hash_required(&self) -> bool
        ensures required { result ≡ self.now.code_hash_required }
    {
        self.own.code_hash_required
    }

    /// The token endpoint, where it is set. Whether it is follows from `Token`, but for `EndpointMaybeSet`.
    pub fn token_endpoint(&self) -> Option<&TokenUrl>
        ensures endpoint { option_copied result ≡ self.now.token_uri }
        ensures fits { IsTrue (fits Token.REQUIRED self.now.token_uri) }
    {
        self.endpoints.token_uri.as_ref()
    }

    /// The user info endpoint, where it is set. Whether it is follows from `UserInfo`, but for
    /// `EndpointMaybeSet`.
    pub fn user_info_endpoint(&self) -> Option<&UserInfoUrl>
        ensures endpoint { option_copied result ≡ self.now.user_info_url }
        ensures fits { IsTrue (fits UserInfo.REQUIRED self.now.user_info_url) }
    {
        self.endpoints.user_info_url.as_ref()
    }

    /// The same client with this authorization endpoint (RFC 6749 section 3.1).
    pub fn set_auth_uri(
        self,
        url: AuthUrl,
    ) -> Client<
        AC,
        AD,
        GC,
        JE,
        K,
        P,
        TE,
        TR,
        TIR,
        RT,
        TRE,
        EndpointSet,
        Device,
        Introspection,
        Revocation,
        Token,
        UserInfo,
    >
        ensures set { result ≡ record self { auth_uri = Some url } }
    {
        let mut endpoints = self.endpoints;
        endpoints.auth_uri = Some(url);
        Client {
            own: self.own,
            endpoints,
            answers: PhantomData,
            states: PhantomData,
        }
    }

    /// The same client with this device authorization endpoint (RFC 8628 section 3.1).
    pub fn set_device_authorization_url(
        self,
        url: DeviceAuthorizationUrl,
    ) -> Client<
        AC,
        AD,
        GC,
        JE,
        K,
        P,
        TE,
        TR,
        TIR,
        RT,
        TRE,
        Auth,
        EndpointSet,
        Introspection,
        Revocation,
        Token,
        UserInfo,
    >
        ensures set { result ≡ record self { device_authorization_url = Some url } }
    {
        let mut endpoints = self.endpoints;
        endpoints.device_authorization_url = Some(url);
        Client {
            own: self.own,
            endpoints,
            answers: PhantomData,
            states: PhantomData,
        }
    }

    /// The same client with this introspection endpoint (RFC 7662 section 2).
    pub fn set_introspection_url(
        self,
        url: IntrospectionUrl,
    ) -> Client<
        AC,
        AD,
        GC,
        JE,
        K,
        P,
        TE,
        TR,
        TIR,
        RT,
        TRE,
        Auth,
        Device,
        EndpointSet,
        Revocation,
        Token,
        UserInfo,
    >
        ensures set { result ≡ record self { introspection_url = Some url } }
    {
        let mut endpoints = self.endpoints;
        endpoints.introspection_url = Some(url);
        Client {
            own: self.own,
            endpoints,
            answers: PhantomData,
            states: PhantomData,
        }
    }

    /// The same client with this revocation endpoint (RFC 7009 section 2).
    pub fn set_revocation_url(
        self,
        url: RevocationUrl,
    ) -> Client<
        AC,
        AD,
        GC,
        JE,
        K,
        P,
        TE,
        TR,
        TIR,
        RT,
        TRE,
        Auth,
        Device,
        Introspection,
        EndpointSet,
        Token,
        UserInfo,
    >
        ensures set { result ≡ record self { revocation_url = Some url } }
    {
        let mut endpoints = self.endpoints;
        endpoints.revocation_url = Some(url);
        Client {
            own: self.own,
            endpoints,
            answers: PhantomData,
            states: PhantomData,
        }
    }

    /// The same client with this token endpoint (RFC 6749 section 3.2).
    pub fn set_token_uri(
        self,
        url: TokenUrl,
    ) -> Client<
        AC,
        AD,
        GC,
        JE,
        K,
        P,
        TE,
        TR,
        TIR,
        RT,
        TRE,
        Auth,
        Device,
        Introspection,
        Revocation,
        EndpointSet,
        UserInfo,
    >
        ensures set { result ≡ record self { token_uri = Some url } }
    {
        let mut endpoints = self.endpoints;
        endpoints.token_uri = Some(url);
        Client {
            own: self.own,
            endpoints,
            answers: PhantomData,
            states: PhantomData,
        }
    }

    /// The same client with this user info endpoint (OpenID Connect Core 1.0 section 5.3).
    pub fn set_user_info_url(
        self,
        url: UserInfoUrl,
    ) -> Client<
        AC,
        AD,
        GC,
        JE,
        K,
        P,
        TE,
        TR,
        TIR,
        RT,
        TRE,
        Auth,
        Device,
        Introspection,
        Revocation,
        Token,
        EndpointSet,
    >
        ensures set { result ≡ record self { user_info_url = Some url } }
    {
        let mut endpoints = self.endpoints;
        endpoints.user_info_url = Some(url);
        Client {
            own: self.own,
            endpoints,
            answers: PhantomData,
            states: PhantomData,
        }
    }
}
