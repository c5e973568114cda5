//! The request about a token (RFC 7662 section 2.1).

ghost use Rattle.std.specs.Prelude.{◌≡◌, ◌≤◌, ◌++◌, ◌∷◌, [], None, Some, IfOk, option_map};
ghost use Rattle.std.specs.Option.{option_copied};
ghost use Rattle.std.specs.String.{string_bytes};
ghost use Rattle.url.specs.Parts.{serialize};
ghost use Rattle.oidc_members.specs.declared.reading.TheConstants.Reading.{STRICT};
ghost use Rattle.oidc_oauth2.specs.ClientAuth.{seen_client};
ghost use Rattle.oidc_oauth2.specs.Requests.{Prepares};
ghost use Rattle.oidc_oauth2.specs.TokenAnswers.{token_errors};
ghost use Rattle.oidc_oauth2.specs.Exchanges.{known, IsRequestBlamed};
ghost use Rattle.oidc_oauth2_requests.specs.FormRequests.{new_request, form_request, of_introspection};
ghost use Rattle.oidc_oauth2_requests.specs.RequestRuns.{RanForRecord};

use crate::form_request::{FormRequest, token_form};
use crate::sending::introspection_over;
use oidc_oauth2::{
    ClientAuth, ErrorResponse, HttpRequest, PrepareError, RequestTokenError, SyncHttpClient,
    TokenIntrospectionResponse,
};
use oidc_types::{AccessToken, IntrospectionUrl};
use std::alloc::{AllocError, Global};
use std::marker::{Model, PhantomData};

/// The request about a token. `TE` is the error response, `TIR` the response about it. Contracts see the token, the
/// word for its kind, and what else the request is made of.
#[derive(Drop)]
pub struct IntrospectionRequest<'a, TE, TIR> {
    token: &'a AccessToken,
    hint: Option<String>,
    form: FormRequest<'a>,
    of: PhantomData<(TE, TIR)>,
}

impl<'a, TE, TIR> Model for IntrospectionRequest<'a, TE, TIR> {
    ghost use Rattle.std.specs.Prelude.{option_map};
    ghost use Rattle.std.specs.String.{string_bytes};
    ghost use Rattle.oidc_oauth2_requests.specs.FormRequests.{SeenIntrospectionRequest};

    ghost Value = { SeenIntrospectionRequest };

    ghost view = { λ r. record {
      token = r.token.now;
      hint = option_map string_bytes r.hint;
      form = r.form;
    } };
}

impl<'a, TE, TIR> IntrospectionRequest<'a, TE, TIR> {
    /// The request about an access token, without a hint and extra pairs. It takes no memory.
    pub fn new(
        alloc: Global,
        endpoint: &'a IntrospectionUrl,
        auth: ClientAuth<'a>,
        token: &'a AccessToken,
    ) -> Self
        ensures kept { let client = seen_client auth.entry in
            result ≡ record {
              token = token.now;
              hint = None;
              form = new_request (serialize endpoint.now.url) client [];
            } }
    {
        IntrospectionRequest {
            token,
            hint: None,
            form: FormRequest::new(alloc, endpoint.url().as_str(), auth),
            of: PhantomData,
        }
    }

    /// With this word for the token's kind, `token_type_hint`.
    pub fn set_token_type_hint(mut self, hint: String) -> Self
        ensures set { result ≡ record self.entry { hint = Some (string_bytes hint) } }
    {
        self.hint = Some(hint);
        self
    }

    /// With one more pair behind all others. `AllocError` is want of memory, the one error.
    pub fn add_extra_param(mut self, name: String, value: String) -> Result<Self, AllocError>
        ensures added { IfOk result (λ r. r ≡ record self.entry {
          form = record self.entry.form {
            extra = self.entry.form.extra ++ (string_bytes name, string_bytes value) ∷ [];
          };
        }) }
    {
        self.form.push_pair(name, value)?;
        Ok(self)
    }

    // The word for the token's kind.
    fn hint(&self) -> Option<&str>
        ensures { option_copied result ≡ self.now.hint }
    {
        match &self.hint {
            None => None,
            Some(hint) => Some(hint.as_str()),
        }
    }

    /// The request as it is handed over: a POST to the endpoint. `Uri` exactly where its address has
    /// more than 65,534 bytes, or one that isn't from 0x21 to 0x7E.
    pub fn prepare(&self, alloc: Global) -> Result<HttpRequest, PrepareError>
        ensures prepared { Prepares result (form_request (of_introspection self.now)) }
    {
        let own = token_form(alloc, self.token.secret(), self.hint())?;
        self.form.prepare(alloc, own)
    }
}

impl<'a, TE: ErrorResponse, TIR: TokenIntrospectionResponse> IntrospectionRequest<'a, TE, TIR> {
    /// Hands the request of `prepare` over, and answers what the response is worth. `Request` comes only
    /// where the transport failed. On `Uri` a transport that keeps a log has nothing new in it.
    pub fn request<C: SyncHttpClient>(
        self,
        alloc: Global,
        http: &mut C,
    ) -> Result<TIR, RequestTokenError<C::Error, TE>>
        requires { C.ready http.old }
        ensures again { C.ready http.new }
        ensures ran { let ask = of_introspection self.entry in
            let before = known (C.log http.old) (C.script http.old) in
            let after = known (C.log http.new) (C.script http.new) in
            RanForRecord ask before after TE.read_of (TIR.read_of STRICT) result }
        ensures never_falls { C.faults http.old ≤ C.faults http.new }
        ensures blamed { let before = C.faults http.old in
            IsRequestBlamed token_errors before (C.faults http.new) result }
    {
        let made = self.prepare(alloc);
        introspection_over(alloc, http, made)
    }
}
