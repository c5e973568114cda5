//! The requests for tokens to a token endpoint.

ghost use Rattle.std.specs.Prelude.{◌≡◌, ◌≤◌, ◌++◌, ◌∷◌, [], IfOk};
ghost use Rattle.std.specs.String.{string_bytes};
ghost use Rattle.url.specs.Parts.{serialize};
ghost use Rattle.oidc_oauth2.specs.ClientAuth.{seen_client};
ghost use Rattle.oidc_oauth2.specs.Requests.{Prepares};
ghost use Rattle.oidc_oauth2.specs.TokenAnswers.{token_errors};
ghost use Rattle.oidc_oauth2.specs.Exchanges.{known, IsRequestBlamed};
ghost use Rattle.oidc_oauth2_requests.specs.FormRequests.{new_request, form_request, refresh_pairs, password_pairs, client_credentials_pairs};
ghost use Rattle.oidc_oauth2_requests.specs.RequestRuns.{RanForRecord};

use crate::form_request::FormRequest;
use crate::sending::tokens_over;
use oidc_members::Reading;
use oidc_oauth2::{
    ClientAuth, ErrorResponse, HttpRequest, OAuth2TokenResponse, PrepareError, RequestTokenError,
    SyncHttpClient,
};
use oidc_pairs::FormText;
use oidc_types::{RefreshToken, ResourceOwnerPassword, ResourceOwnerUsername, Scope, TokenUrl};
use std::alloc::{AllocError, Global};
use std::marker::{Model, PhantomData};

/// The request for new tokens by a refresh token (RFC 6749 section 6). `TE` is the error response, `TR` the token
/// response. Contracts see what it is made of.
#[derive(Drop)]
pub struct RefreshTokenRequest<'a, TE, TR> {
    token: &'a RefreshToken,
    form: FormRequest<'a>,
    of: PhantomData<(TE, TR)>,
}

impl<'a, TE, TR> Model for RefreshTokenRequest<'a, TE, TR> {
    ghost use Rattle.oidc_oauth2_requests.specs.FormRequests.{SeenFormRequest, refresh_pairs};

    ghost Value = { SeenFormRequest };

    ghost view = { λ r. record r.form { own = refresh_pairs r.token.now } };
}

impl<'a, TE, TR> RefreshTokenRequest<'a, TE, TR> {
    /// The request by a refresh token, without scopes and extra pairs, under the strict
    /// reading. It takes no memory.
    pub fn new(
        alloc: Global,
        endpoint: &'a TokenUrl,
        auth: ClientAuth<'a>,
        token: &'a RefreshToken,
    ) -> Self
        ensures kept { let client = seen_client auth.entry in
            result ≡ new_request (serialize endpoint.now.url) client (refresh_pairs token.now) }
    {
        RefreshTokenRequest {
            token,
            form: FormRequest::new(alloc, endpoint.url().as_str(), auth),
            of: PhantomData,
        }
    }

    /// With one more scope behind all others. `AllocError` is want of memory, the one error.
    pub fn add_scope(mut self, scope: Scope) -> Result<Self, AllocError>
        ensures added { IfOk result
            (λ r. r ≡ record self.entry { scopes = self.entry.scopes ++ scope ∷ [] }) }
    {
        self.form.push_scope(scope)?;
        Ok(self)
    }

    /// With these scopes behind all others. `AllocError` is want of memory, the one error.
    pub fn add_scopes(mut self, scopes: Vec<Scope>) -> Result<Self, AllocError>
        ensures added { IfOk result
            (λ r. r ≡ record self.entry { scopes = self.entry.scopes ++ scopes.items }) }
    {
        self.form.push_scopes(scopes)?;
        Ok(self)
    }

    /// With this reading of the answer's extra fields, of which an ID token is one. At first it is strict. The response's
    /// own fields are always read strictly.
    pub fn set_reading(mut self, reading: Reading) -> Self
        ensures set { result ≡ record self.entry { reading = reading } }
    {
        self.form.set_reading(reading);
        self
    }

    /// With one more pair behind all others. `AllocError` is want of memory, the one error.
    pub fn add_extra_param(mut self, name: String, value: String) -> Result<Self, AllocError>
        ensures added { IfOk result (λ r. r ≡ record self.entry {
          extra = self.entry.extra ++ (string_bytes name, string_bytes value) ∷ [];
        }) }
    {
        self.form.push_pair(name, value)?;
        Ok(self)
    }

    // Its own pairs.
    fn own(&self, alloc: Global) -> Result<FormText, AllocError>
        ensures { IfOk result (λ own. own ≡ self.now.own) }
    {
        let mut own = FormText::new(alloc);
        own.push("grant_type", "refresh_token")?;
        own.push("refresh_token", self.token.secret())?;
        Ok(own)
    }

    /// The request as it is handed over: a POST to the endpoint. `Uri` exactly where its address has
    /// more than 65,534 bytes, or one that isn't from 0x21 to 0x7E.
    pub fn prepare(&self, alloc: Global) -> Result<HttpRequest, PrepareError>
        ensures prepared { Prepares result (form_request self.now) }
    {
        let own = self.own(alloc)?;
        self.form.prepare(alloc, own)
    }
}

impl<'a, TE: ErrorResponse, TR: OAuth2TokenResponse> RefreshTokenRequest<'a, TE, TR> {
    /// Hands the request of `prepare` over, and answers what the response is worth. `Request` comes only
    /// where the transport failed. On `Uri` a transport that keeps a log has nothing new in it.
    pub fn request<C: SyncHttpClient>(
        self,
        alloc: Global,
        http: &mut C,
    ) -> Result<TR, RequestTokenError<C::Error, TE>>
        requires { C.ready http.old }
        ensures again { C.ready http.new }
        ensures ran { let before = known (C.log http.old) (C.script http.old) in
            let after = known (C.log http.new) (C.script http.new) in
            let read_of = TR.read_of self.entry.reading in
            RanForRecord self.entry before after TE.read_of read_of result }
        ensures never_falls { C.faults http.old ≤ C.faults http.new }
        ensures blamed { let before = C.faults http.old in
            IsRequestBlamed token_errors before (C.faults http.new) result }
    {
        let made = self.prepare(alloc);
        tokens_over(alloc, http, made, self.form.reading())
    }
}

/// The request for tokens by a person's name and password (RFC 6749 section 4.3.2). `TE` is the error response, `TR`
/// the token response. Contracts see what it is made of.
#[derive(Drop)]
pub struct PasswordTokenRequest<'a, TE, TR> {
    username: &'a ResourceOwnerUsername,
    password: &'a ResourceOwnerPassword,
    form: FormRequest<'a>,
    of: PhantomData<(TE, TR)>,
}

impl<'a, TE, TR> Model for PasswordTokenRequest<'a, TE, TR> {
    ghost use Rattle.oidc_oauth2_requests.specs.FormRequests.{SeenFormRequest, password_pairs};

    ghost Value = { SeenFormRequest };

    ghost view = { λ r. record r.form { own = password_pairs r.username.now r.password.now } };
}

impl<'a, TE, TR> PasswordTokenRequest<'a, TE, TR> {
    /// The request by a name and a password, without scopes and extra pairs, under the strict
    /// reading. It takes no memory.
    pub fn new(
        alloc: Global,
        endpoint: &'a TokenUrl,
        auth: ClientAuth<'a>,
        username: &'a ResourceOwnerUsername,
        password: &'a ResourceOwnerPassword,
    ) -> Self
        ensures kept { let client = seen_client auth.entry in
            let own = password_pairs username.now password.now in
            result ≡ new_request (serialize endpoint.now.url) client own }
    {
        PasswordTokenRequest {
            username,
            password,
            form: FormRequest::new(alloc, endpoint.url().as_str(), auth),
            of: PhantomData,
        }
    }

    /// With one more scope behind all others. `AllocError` is want of memory, the one error.
    pub fn add_scope(mut self, scope: Scope) -> Result<Self, AllocError>
        ensures added { IfOk result
            (λ r. r ≡ record self.entry { scopes = self.entry.scopes ++ scope ∷ [] }) }
    {
        self.form.push_scope(scope)?;
        Ok(self)
    }

    /// With these scopes behind all others. `AllocError` is want of memory, the one error.
    pub fn add_scopes(mut self, scopes: Vec<Scope>) -> Result<Self, AllocError>
        ensures added { IfOk result
            (λ r. r ≡ record self.entry { scopes = self.entry.scopes ++ scopes.items }) }
    {
        self.form.push_scopes(scopes)?;
        Ok(self)
    }

    /// With this reading of the answer's extra fields, of which an ID token is one. At first it is strict. The response's
    /// own fields are always read strictly.
    pub fn set_reading(mut self, reading: Reading) -> Self
        ensures set { result ≡ record self.entry { reading = reading } }
    {
        self.form.set_reading(reading);
        self
    }

    /// With one more pair behind all others. `AllocError` is want of memory, the one error.
    pub fn add_extra_param(mut self, name: String, value: String) -> Result<Self, AllocError>
        ensures added { IfOk result (λ r. r ≡ record self.entry {
          extra = self.entry.extra ++ (string_bytes name, string_bytes value) ∷ [];
        }) }
    {
        self.form.push_pair(name, value)?;
        Ok(self)
    }

    // Its own pairs.
    fn own(&self, alloc: Global) -> Result<FormText, AllocError>
        ensures { IfOk result (λ own. own ≡ self.now.own) }
    {
        let mut own = FormText::new(alloc);
        own.push("grant_type", "password")?;
        own.push("username", self.username.as_str())?;
        own.push("password", self.password.secret())?;
        Ok(own)
    }

    /// The request as it is handed over: a POST to the endpoint. `Uri` exactly where its address has
    /// more than 65,534 bytes, or one that isn't from 0x21 to 0x7E.
    pub fn prepare(&self, alloc: Global) -> Result<HttpRequest, PrepareError>
        ensures prepared { Prepares result (form_request self.now) }
    {
        let own = self.own(alloc)?;
        self.form.prepare(alloc, own)
    }
}

impl<'a, TE: ErrorResponse, TR: OAuth2TokenResponse> PasswordTokenRequest<'a, TE, TR> {
    /// Hands the request of `prepare` over, and answers what the response is worth. `Request` comes only
    /// where the transport failed. On `Uri` a transport that keeps a log has nothing new in it.
    pub fn request<C: SyncHttpClient>(
        self,
        alloc: Global,
        http: &mut C,
    ) -> Result<TR, RequestTokenError<C::Error, TE>>
        requires { C.ready http.old }
        ensures again { C.ready http.new }
        ensures ran { let before = known (C.log http.old) (C.script http.old) in
            let after = known (C.log http.new) (C.script http.new) in
            let read_of = TR.read_of self.entry.reading in
            RanForRecord self.entry before after TE.read_of read_of result }
        ensures never_falls { C.faults http.old ≤ C.faults http.new }
        ensures blamed { let before = C.faults http.old in
            IsRequestBlamed token_errors before (C.faults http.new) result }
    {
        let made = self.prepare(alloc);
        tokens_over(alloc, http, made, self.form.reading())
    }
}

/// The request for tokens by the client for itself (RFC 6749 section 4.4.2). `TE` is the error response, `TR` the
/// token response. Contracts see what it is made of.
#[derive(Drop)]
pub struct ClientCredentialsTokenRequest<'a, TE, TR> {
    form: FormRequest<'a>,
    of: PhantomData<(TE, TR)>,
}

impl<'a, TE, TR> Model for ClientCredentialsTokenRequest<'a, TE, TR> {
    ghost use Rattle.oidc_oauth2_requests.specs.FormRequests.{SeenFormRequest, client_credentials_pairs};

    ghost Value = { SeenFormRequest };

    ghost view = { λ r. record r.form { own = client_credentials_pairs } };
}

// Its own pairs, which are those of every such request.
fn client_credentials_form(alloc: Global) -> Result<FormText, AllocError>
    ensures { IfOk result (λ own. own ≡ client_credentials_pairs) }
{
    let mut own = FormText::new(alloc);
    own.push("grant_type", "client_credentials")?;
    Ok(own)
}

impl<'a, TE, TR> ClientCredentialsTokenRequest<'a, TE, TR> {
    /// The request of a client, without scopes and extra pairs, under the strict
    /// reading. It takes no memory.
    pub fn new(alloc: Global, endpoint: &'a TokenUrl, auth: ClientAuth<'a>) -> Self
        ensures kept { let client = seen_client auth.entry in
            result ≡ new_request (serialize endpoint.now.url) client client_credentials_pairs }
    {
        ClientCredentialsTokenRequest {
            form: FormRequest::new(alloc, endpoint.url().as_str(), auth),
            of: PhantomData,
        }
    }

    /// With one more scope behind all others. `AllocError` is want of memory, the one error.
    pub fn add_scope(mut self, scope: Scope) -> Result<Self, AllocError>
        ensures added { IfOk result
            (λ r. r ≡ record self.entry { scopes = self.entry.scopes ++ scope ∷ [] }) }
    {
        self.form.push_scope(scope)?;
        Ok(self)
    }

    /// With these scopes behind all others. `AllocError` is want of memory, the one error.
    pub fn add_scopes(mut self, scopes: Vec<Scope>) -> Result<Self, AllocError>
        ensures added { IfOk result
            (λ r. r ≡ record self.entry { scopes = self.entry.scopes ++ scopes.items }) }
    {
        self.form.push_scopes(scopes)?;
        Ok(self)
    }

    /// With this reading of the answer's extra fields, of which an ID token is one. At first it is strict. The response's
    /// own fields are always read strictly.
    pub fn set_reading(mut self, reading: Reading) -> Self
        ensures set { result ≡ record self.entry { reading = reading } }
    {
        self.form.set_reading(reading);
        self
    }

    /// With one more pair behind all others. `AllocError` is want of memory, the one error.
    pub fn add_extra_param(mut self, name: String, value: String) -> Result<Self, AllocError>
        ensures added { IfOk result (λ r. r ≡ record self.entry {
          extra = self.entry.extra ++ (string_bytes name, string_bytes value) ∷ [];
        }) }
    {
        self.form.push_pair(name, value)?;
        Ok(self)
    }

    /// The request as it is handed over: a POST to the endpoint. `Uri` exactly where its address has
    /// more than 65,534 bytes, or one that isn't from 0x21 to 0x7E.
    pub fn prepare(&self, alloc: Global) -> Result<HttpRequest, PrepareError>
        ensures prepared { Prepares result (form_request self.now) }
    {
        let own = client_credentials_form(alloc)?;
        self.form.prepare(alloc, own)
    }
}

impl<'a, TE: ErrorResponse, TR: OAuth2TokenResponse> ClientCredentialsTokenRequest<'a, TE, TR> {
    /// Hands the request of `prepare` over, and answers what the response is worth. `Request` comes only
    /// where the transport failed. On `Uri` a transport that keeps a log has nothing new in it.
    pub fn request<C: SyncHttpClient>(
        self,
        alloc: Global,
        http: &mut C,
    ) -> Result<TR, RequestTokenError<C::Error, TE>>
        requires { C.ready http.old }
        ensures again { C.ready http.new }
        ensures ran { let before = known (C.log http.old) (C.script http.old) in
            let after = known (C.log http.new) (C.script http.new) in
            let read_of = TR.read_of self.entry.reading in
            RanForRecord self.entry before after TE.read_of read_of result }
        ensures never_falls { C.faults http.old ≤ C.faults http.new }
        ensures blamed { let before = C.faults http.old in
            IsRequestBlamed token_errors before (C.faults http.new) result }
    {
        let made = self.prepare(alloc);
        tokens_over(alloc, http, made, self.form.reading())
    }
}
