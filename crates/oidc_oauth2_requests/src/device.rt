//! The requests of a device that its user signs in elsewhere (RFC 8628).

ghost use Rattle.std.specs.Prelude.{◌≡◌, ◌≤◌, ◌++◌, ◌∷◌, [], IfOk};
ghost use Rattle.std.specs.String.{string_bytes};
ghost use Rattle.url.specs.Parts.{serialize};
ghost use Rattle.oidc_oauth2.specs.ClientAuth.{seen_client};
ghost use Rattle.oidc_oauth2.specs.Requests.{Prepares};
ghost use Rattle.oidc_oauth2.specs.TokenAnswers.{token_errors};
ghost use Rattle.oidc_oauth2.specs.Exchanges.{known, IsRequestBlamed};
ghost use Rattle.oidc_oauth2.specs.DeviceResponse.{device_of};
ghost use Rattle.oidc_oauth2_requests.specs.FormRequests.{new_request, form_request, device_pairs, device_code_pairs};
ghost use Rattle.oidc_oauth2_requests.specs.RequestRuns.{RanForRecord, RanForStep};

use crate::form_request::FormRequest;
use crate::sending::{codes_over, step_over};
use oidc_members::Reading;
use oidc_oauth2::{
    ClientAuth, DeviceAuthorizationResponse, DeviceCodeErrorResponse, ErrorResponse,
    ExtraDeviceAuthorizationFields, HttpRequest, OAuth2TokenResponse, PrepareError,
    RequestTokenError, SyncHttpClient,
};
use oidc_pairs::FormText;
use oidc_types::{DeviceAuthorizationUrl, DeviceCode, Scope, TokenUrl};
use std::alloc::{AllocError, Global};
use std::marker::{Model, PhantomData};

/// What came of polling once. It has no `Debug`, since it may hold tokens.
#[derive(Drop)]
pub enum PollStep<TR> {
    /// The tokens: the user has agreed.
    Done(TR),
    /// The user hasn't agreed yet: `authorization_pending`.
    Pending,
    /// The same, and the device polls too often: `slow_down`. Its interval grows by five seconds.
    SlowDown,
}

/// The request for the codes of a device (RFC 8628 section 3.1). `TE` is the error response. Contracts see what it is
/// made of.
#[derive(Drop)]
pub struct DeviceAuthorizationRequest<'a, TE> {
    form: FormRequest<'a>,
    of: PhantomData<TE>,
}

impl<'a, TE> Model for DeviceAuthorizationRequest<'a, TE> {
    ghost use Rattle.oidc_oauth2_requests.specs.FormRequests.{SeenFormRequest, device_pairs};

    ghost Value = { SeenFormRequest };

    ghost view = { λ r. record r.form { own = device_pairs } };
}

impl<'a, TE> DeviceAuthorizationRequest<'a, TE> {
    /// The request, without scopes and extra pairs. It takes no memory.
    pub fn new(alloc: Global, endpoint: &'a DeviceAuthorizationUrl, auth: ClientAuth<'a>) -> Self
        ensures kept { let client = seen_client auth.entry in
            result ≡ new_request (serialize endpoint.now.url) client device_pairs }
    {
        DeviceAuthorizationRequest {
            form: FormRequest::new(alloc, endpoint.url().as_str(), auth),
            of: PhantomData,
        }
    }

    /// With one more scope behind all others. `AllocError` is want of memory, the one error.
    pub fn add_scope(mut self, scope: Scope) -> Result<Self, AllocError>
        ensures added { IfOk result
            (λ r. r ≡ record self.entry { scopes = self.entry.scopes ++ scope ∷ [] }) }
    {
        self.form.push_scope(scope)?;
        Ok(self)
    }

    /// With these scopes behind all others. `AllocError` is want of memory, the one error.
    pub fn add_scopes(mut self, scopes: Vec<Scope>) -> Result<Self, AllocError>
        ensures added { IfOk result
            (λ r. r ≡ record self.entry { scopes = self.entry.scopes ++ scopes.items }) }
    {
        self.form.push_scopes(scopes)?;
        Ok(self)
    }

    /// With one more pair behind all others. `AllocError` is want of memory, the one error.
    pub fn add_extra_param(mut self, name: String, value: String) -> Result<Self, AllocError>
        ensures added { IfOk result (λ r. r ≡ record self.entry {
          extra = self.entry.extra ++ (string_bytes name, string_bytes value) ∷ [];
        }) }
    {
        self.form.push_pair(name, value)?;
        Ok(self)
    }

    /// The request as it is handed over: a POST to the endpoint. `Uri` exactly where its address has
    /// more than 65,534 bytes, or one that isn't from 0x21 to 0x7E.
    pub fn prepare(&self, alloc: Global) -> Result<HttpRequest, PrepareError>
        ensures prepared { Prepares result (form_request self.now) }
    {
        self.form.prepare(alloc, FormText::new(alloc))
    }
}

impl<'a, TE: ErrorResponse> DeviceAuthorizationRequest<'a, TE> {
    /// Hands the request of `prepare` over, and answers what the response is worth. `Request` comes only
    /// where the transport failed. On `Uri` a transport that keeps a log has nothing new in it.
    pub fn request<C: SyncHttpClient, EF: ExtraDeviceAuthorizationFields>(
        self,
        alloc: Global,
        http: &mut C,
    ) -> Result<DeviceAuthorizationResponse<EF>, RequestTokenError<C::Error, TE>>
        requires { C.ready http.old }
        ensures again { C.ready http.new }
        ensures ran { let before = known (C.log http.old) (C.script http.old) in
            let after = known (C.log http.new) (C.script http.new) in
            RanForRecord self.entry before after TE.read_of (device_of EF.read_of) result }
        ensures never_falls { C.faults http.old ≤ C.faults http.new }
        ensures blamed { let before = C.faults http.old in
            IsRequestBlamed token_errors before (C.faults http.new) result }
    {
        let made = self.prepare(alloc);
        codes_over(alloc, http, made)
    }
}

/// The request of a device for its tokens (RFC 8628 section 3.4). `TR` is the token response, `EF` the extra fields of
/// the response that had the codes. Contracts see what it is made of.
#[derive(Drop)]
pub struct DeviceAccessTokenRequest<'a, TR, EF> {
    device_code: &'a DeviceCode,
    form: FormRequest<'a>,
    of: PhantomData<(TR, EF)>,
}

impl<'a, TR, EF> Model for DeviceAccessTokenRequest<'a, TR, EF> {
    ghost use Rattle.oidc_oauth2_requests.specs.FormRequests.{SeenFormRequest, device_code_pairs};

    ghost Value = { SeenFormRequest };

    ghost view = { λ r. record r.form { own = device_code_pairs r.device_code.now } };
}

impl<'a, TR, EF: ExtraDeviceAuthorizationFields> DeviceAccessTokenRequest<'a, TR, EF> {
    /// The request by the device code of a response, without extra pairs, under the strict reading. It takes no memory.
    pub fn new(
        alloc: Global,
        endpoint: &'a TokenUrl,
        auth: ClientAuth<'a>,
        response: &'a DeviceAuthorizationResponse<EF>,
    ) -> Self
        ensures kept { let client = seen_client auth.entry in
            let own = device_code_pairs response.now.device_code in
            result ≡ new_request (serialize endpoint.now.url) client own }
    {
        DeviceAccessTokenRequest {
            device_code: response.device_code(),
            form: FormRequest::new(alloc, endpoint.url().as_str(), auth),
            of: PhantomData,
        }
    }
}

impl<'a, TR, EF> DeviceAccessTokenRequest<'a, TR, EF> {
    /// With this reading of the answer's extra fields, of which an ID token is one. At first it is strict. The response's
    /// own fields are always read strictly.
    pub fn set_reading(mut self, reading: Reading) -> Self
        ensures set { result ≡ record self.entry { reading = reading } }
    {
        self.form.set_reading(reading);
        self
    }

    /// With one more pair behind all others. `AllocError` is want of memory, the one error.
    pub fn add_extra_param(mut self, name: String, value: String) -> Result<Self, AllocError>
        ensures added { IfOk result (λ r. r ≡ record self.entry {
          extra = self.entry.extra ++ (string_bytes name, string_bytes value) ∷ [];
        }) }
    {
        self.form.push_pair(name, value)?;
        Ok(self)
    }

    // Its own pairs.
    fn own(&self, alloc: Global) -> Result<FormText, AllocError>
        ensures { IfOk result (λ own. own ≡ self.now.own) }
    {
        let mut own = FormText::new(alloc);
        own.push("grant_type", "urn:ietf:params:oauth:grant-type:device_code")?;
        own.push("device_code", self.device_code.secret())?;
        Ok(own)
    }

    /// The request as it is handed over: a POST to the endpoint. `Uri` exactly where its address has
    /// more than 65,534 bytes, or one that isn't from 0x21 to 0x7E.
    pub fn prepare(&self, alloc: Global) -> Result<HttpRequest, PrepareError>
        ensures prepared { Prepares result (form_request self.now) }
    {
        let own = self.own(alloc)?;
        self.form.prepare(alloc, own)
    }
}

impl<'a, TR: OAuth2TokenResponse, EF> DeviceAccessTokenRequest<'a, TR, EF> {
    /// Polls once: hands the request of `prepare` over, and answers what the response is worth. `Pending` and
    /// `SlowDown` come exactly where it is that error response. `Request` comes only where the transport failed. On
    /// `Uri` a transport that keeps a log has nothing new in it.
    pub fn poll_once<C: SyncHttpClient>(
        &self,
        alloc: Global,
        http: &mut C,
    ) -> Result<PollStep<TR>, RequestTokenError<C::Error, DeviceCodeErrorResponse>>
        requires { C.ready http.old }
        ensures again { C.ready http.new }
        ensures ran { let before = known (C.log http.old) (C.script http.old) in
            let after = known (C.log http.new) (C.script http.new) in
            RanForStep self.now before after (TR.read_of self.now.reading) result }
        ensures never_falls { C.faults http.old ≤ C.faults http.new }
        ensures blamed { let before = C.faults http.old in
            IsRequestBlamed token_errors before (C.faults http.new) result }
    {
        let made = self.prepare(alloc);
        step_over(alloc, http, made, self.form.reading())
    }
}
