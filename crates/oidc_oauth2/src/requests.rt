//! The request that exchanges a code for tokens (RFC 6749 section 4.1.3).

ghost use Rattle.std.specs.Prelude.{◌≡◌, ◌≤◌, ◌++◌, ◌∷◌, [], true, None, Some, IfErr, IfOk, OnOk, map};
ghost use Rattle.std.specs.List.{list_all};
ghost use Rattle.std.specs.Option.{option_copied};
ghost use Rattle.std.specs.String.{string_bytes};
ghost use Rattle.url.specs.Parts.{serialize};
ghost use Rattle.http_header.specs.FieldValue.{plain_value};
ghost use Rattle.oidc_oauth2.specs.ClientAuth.{seen_client};
ghost use Rattle.oidc_oauth2.specs.Replies.{Gives};
ghost use Rattle.oidc_oauth2.specs.TokenAnswers.{is_fault, token_errors};
ghost use Rattle.oidc_oauth2.specs.Exchanges.{answer_of, Follows, IsRequestBlamed, known};
ghost use Rattle.oidc_oauth2.specs.AnswerCauses.{code_reply, code_run, RanTokenRequest};
ghost use Rattle.oidc_oauth2.specs.Requests as spec;

use crate::client_auth::{ClientAuth, authorization, push_client, push_optional};
use crate::error_response::ErrorResponse;
use crate::exchanges::exchange;
use crate::http_utils::MIME_TYPE_JSON;
use crate::token::OAuth2TokenResponse;
use crate::token_answers::{OtherCause, RequestTokenError, token_answer};
use crate::transport::{HttpRequest, HttpResponse, SyncHttpClient};
use http::Method;
use http_header::{ACCEPT, AUTHORIZATION, CONTENT_TYPE, HeaderMap, HeaderMapError, HeaderValue};
use oidc_members::Reading;
use oidc_pairs::FormText;
use oidc_types::{AuthorizationCode, Body, PkceCodeVerifier, RedirectUrl, TokenUrl};
use std::alloc::{AllocError, Global};
use std::marker::{Model, PhantomData};
use thiserror::Error;

/// The most bytes that an address may have.
const MAX_ADDRESS: usize = 65_534;

/// Why a request isn't made.
#[derive(Clone, Copy, Debug, Error, PartialEq, Eq)]
pub enum PrepareError {
    /// The endpoint's address is too long, or has other bytes than visible ASCII.
    #[error("an address that is not sent to")]
    Uri,
    /// There was no memory.
    #[error("out of memory")]
    Memory,
}

impl From<AllocError> for PrepareError {
    ghost use Rattle.std.specs.Prelude.{◌≡◌};
    ghost use Rattle.oidc_oauth2.specs.declared.requests.PrepareError.TheVariants.{Memory};

    ghost from_gives = { λ _ error. error ≡ Memory };

    fn from(_refused: AllocError) -> PrepareError {
        PrepareError::Memory
    }
}

fn is_visible_byte(byte: u8) -> bool
    ensures { result ≡ spec.is_visible_byte byte }
{
    0x21 <= byte && byte <= 0x7E
}

// Whether bytes are visible ASCII.
fn is_visible(bytes: &[u8]) -> bool
    ensures { result ≡ list_all spec.is_visible_byte bytes.now }
{
    bytes.iter().all(|byte| is_visible_byte(*byte))
}

/// Whether requests are sent to an address: it has at most 65,534 bytes, each from 0x21 to 0x7E.
pub fn is_address(address: &str) -> bool
    ensures fits { result ≡ spec.is_address address.now }
{
    address.len() <= MAX_ADDRESS && is_visible(address.as_bytes())
}

// How many bytes of a body there is room for at once. Most have fewer.
const ROOM: usize = 256;

// The headers of a request, with any credentials.
fn headers_with(
    alloc: Global,
    authorization: Option<HeaderValue>,
) -> Result<HeaderMap, HeaderMapError>
    ensures { IfOk result (λ headers. headers ≡ spec.headers_with authorization) }
{
    let mut headers = HeaderMap::new(alloc);
    headers.insert(ACCEPT, HeaderValue::from_static(MIME_TYPE_JSON))?;
    headers.insert(
        CONTENT_TYPE,
        HeaderValue::from_static("application/x-www-form-urlencoded"),
    )?;
    if let Some(credentials) = authorization {
        headers.insert(AUTHORIZATION, credentials)?;
    }
    Ok(headers)
}

// The headers of a client's request.
fn headers_for(alloc: Global, auth: &ClientAuth<'_>) -> Result<HeaderMap, AllocError>
    ensures { IfOk result (λ headers. headers ≡ spec.request_headers (seen_client auth.now)) }
{
    let authorization = authorization(alloc, auth)?;
    match headers_with(alloc, authorization) {
        Ok(headers) => Ok(headers),
        Err(_) => Err(AllocError),
    }
}

/// The POST of a client's form to an address, which is every request of a client to its authorization server.
/// `Uri` exactly where the address has more than 65,534 bytes, or one that isn't from 0x21 to 0x7E.
pub fn post_form(
    alloc: Global,
    address: &str,
    auth: &ClientAuth<'_>,
    form: FormText,
) -> Result<HttpRequest, PrepareError>
    ensures prepared { spec.Prepares result
        (spec.posted address.now (seen_client auth.now) form) }
{
    if !is_address(address) {
        return Err(PrepareError::Uri);
    }
    let request = post(alloc, address, auth, form)?;
    Ok(request)
}

// The POST of a form to an address.
fn post(
    alloc: Global,
    address: &str,
    auth: &ClientAuth<'_>,
    form: FormText,
) -> Result<HttpRequest, AllocError>
    ensures { IfOk result
        (λ request. request ≡ spec.post_of address.now (seen_client auth.now) form) }
{
    let address = String::from_str(alloc, address)?;
    let headers = headers_for(alloc, auth)?;
    let body = Body::new(form.into_string().into_bytes());
    Ok(HttpRequest::new(Method::POST, address, headers, body))
}

/// Adds each of these pairs, in their order.
pub fn push_all(form: &mut FormText, pairs: &[(String, String)]) -> Result<(), AllocError>
    ensures added { OnOk result
        (form.new ≡ form.old ++ map (λ p. (string_bytes p.0, string_bytes p.1)) pairs.now) }
{
    for (name, value) in pairs {
        form.push(name.as_str(), value.as_str())?;
    }
    Ok(())
}

/// The request that exchanges a code for tokens. `TE` is the error response, `TR` the token
/// response. Contracts see its address, which is the text of the endpoint's parsed URL, the client,
/// the code, its verifier, the text of the redirect, the extra pairs, and the reading.
#[derive(Drop)]
pub struct CodeTokenRequest<'a, TE, TR> {
    endpoint: &'a TokenUrl,
    auth: ClientAuth<'a>,
    code: AuthorizationCode,
    verifier: Option<PkceCodeVerifier>,
    redirect_uri: Option<&'a RedirectUrl>,
    extra_params: Vec<(String, String)>,
    reading: Reading,
    of: PhantomData<(TE, TR)>,
}

impl<'a, TE, TR> Model for CodeTokenRequest<'a, TE, TR> {
    ghost use Rattle.std.specs.Prelude.{map, option_map};
    ghost use Rattle.std.specs.Option.{option_copied};
    ghost use Rattle.std.specs.String.{string_bytes};
    ghost use Rattle.url.specs.Parts.{serialize};
    ghost use Rattle.oidc_oauth2.specs.ClientAuth.{seen_client};
    ghost use Rattle.oidc_oauth2.specs.Requests.{SeenCodeRequest};

    ghost Value = { SeenCodeRequest };

    ghost view = { λ r. record {
      address = serialize r.endpoint.now.url;
      client = seen_client r.auth;
      code = r.code;
      verifier = r.verifier;
      redirect_uri = option_map (λ u. u.text) (option_copied r.redirect_uri);
      extra = map (λ p. (string_bytes p.0, string_bytes p.1)) r.extra_params.items;
      reading = r.reading;
    } };
}

impl<'a, TE, TR> CodeTokenRequest<'a, TE, TR> {
    /// The request for a code, without verifier, redirect and extra pairs, under the strict reading. It takes no
    /// memory.
    pub fn new(
        alloc: Global,
        endpoint: &'a TokenUrl,
        auth: ClientAuth<'a>,
        code: AuthorizationCode,
    ) -> Self
        ensures kept { result ≡ record {
          address = serialize endpoint.now.url;
          client = seen_client auth.entry;
          code = code;
          verifier = None;
          redirect_uri = None;
          extra = [];
          reading = Reading.STRICT;
        } }
    {
        CodeTokenRequest {
            endpoint,
            auth,
            code,
            verifier: None,
            redirect_uri: None,
            extra_params: Vec::new(alloc),
            reading: Reading::STRICT,
            of: PhantomData,
        }
    }

    /// With this verifier of the authorization request's challenge (RFC 7636 section 4.5).
    pub fn set_pkce_verifier(mut self, verifier: PkceCodeVerifier) -> Self
        ensures set { result ≡ record self.entry { verifier = Some verifier } }
    {
        self.verifier = Some(verifier);
        self
    }

    /// With the redirect of the authorization request, which is sent as its text was given.
    pub fn set_redirect_uri(mut self, redirect: &'a RedirectUrl) -> Self
        ensures set { result ≡ record self.entry { redirect_uri = Some redirect.now.text } }
    {
        self.redirect_uri = Some(redirect);
        self
    }

    /// With no redirect, for an authorization request that named none (RFC 6749 section 4.1.3).
    pub fn without_redirect_uri(mut self) -> Self
        ensures set { result ≡ record self.entry { redirect_uri = None } }
    {
        self.redirect_uri = None;
        self
    }

    /// With this reading of an ID token in the answer.
    pub fn set_reading(mut self, reading: Reading) -> Self
        ensures set { result ≡ record self.entry { reading = reading } }
    {
        self.reading = reading;
        self
    }

    /// With one more pair behind all others. `AllocError` is want of memory, the one error.
    pub fn add_extra_param(mut self, name: String, value: String) -> Result<Self, AllocError>
        ensures added { IfOk result (λ request. request ≡ record self.entry {
          extra = self.entry.extra ++ (string_bytes name, string_bytes value) ∷ [];
        }) }
    {
        self.extra_params.push((name, value))?;
        Ok(self)
    }

    // The pairs of the request.
    fn form(&self, alloc: Global) -> Result<FormText, AllocError>
        ensures { IfOk result (λ form. form ≡ spec.code_pairs self.now) }
    {
        let mut form = FormText::with_capacity(alloc, ROOM)?;
        form.push("grant_type", "authorization_code")?;
        form.push("code", self.code.secret())?;
        push_optional(&mut form, "code_verifier", self.verifier_text())?;
        push_client(&mut form, &self.auth)?;
        push_optional(&mut form, "redirect_uri", self.redirect_text())?;
        push_all(&mut form, &self.extra_params)?;
        Ok(form)
    }

    fn verifier_text(&self) -> Option<&str>
        ensures { option_copied result ≡ self.now.verifier }
    {
        match &self.verifier {
            None => None,
            Some(verifier) => Some(verifier.secret()),
        }
    }

    fn redirect_text(&self) -> Option<&str>
        ensures { option_copied result ≡ self.now.redirect_uri }
    {
        match self.redirect_uri {
            None => None,
            Some(redirect) => Some(redirect.as_str()),
        }
    }

    /// The request as it is handed over: a POST to the endpoint. `Uri` exactly where its address has
    /// more than 65,534 bytes, or one that isn't from 0x21 to 0x7E.
    #[tactic(auto, unfolding(crate::specs::Requests::code_request))]
    pub fn prepare(&self, alloc: Global) -> Result<HttpRequest, PrepareError>
        ensures prepared { spec.Prepares result (spec.code_request self.now) }
    {
        let form = self.form(alloc)?;
        post_form(alloc, self.endpoint.url().as_str(), &self.auth, form)
    }
}

impl<'a, TE: ErrorResponse, TR: OAuth2TokenResponse> CodeTokenRequest<'a, TE, TR> {
    // The reply by what came of a request.
    fn judge_answer<RE>(
        &self,
        alloc: Global,
        answer: Result<HttpResponse, RE>,
    ) -> Result<TR, RequestTokenError<RE, TE>>
        ensures gives { let reply = code_reply TE.read_of (TR.read_of self.now.reading) in
            Gives token_errors result (reply (answer_of answer)) }
        ensures fault { IfErr result (λ e. is_fault e ≡ true → answer_of answer ≡ None) }
    {
        match answer {
            Err(error) => Err(RequestTokenError::Request(error)),
            Ok(response) => token_answer(alloc, response, self.reading),
        }
    }

    // Hands the request over, and judges the response.
    fn exchange<C: SyncHttpClient>(
        self,
        alloc: Global,
        http: &mut C,
    ) -> Result<TR, RequestTokenError<C::Error, TE>>
        requires { C.ready http.old }
        ensures again { C.ready http.new }
        ensures follows { let run = code_run TE.read_of (TR.read_of self.entry.reading) self.entry in
            let before = known (C.log http.old) (C.script http.old) in
            let after = known (C.log http.new) (C.script http.new) in
            Follows token_errors run before after result }
        ensures never_falls { C.faults http.old ≤ C.faults http.new }
        ensures blamed { let before = C.faults http.old in
            IsRequestBlamed token_errors before (C.faults http.new) result }
    {
        match self.prepare(alloc) {
            Err(PrepareError::Uri) => Err(RequestTokenError::Other(OtherCause::Uri)),
            Err(PrepareError::Memory) => Err(RequestTokenError::Memory),
            Ok(request) => {
                let answer = exchange(alloc, http, request)?;
                self.judge_answer(alloc, answer)
            }
        }
    }

    /// Hands the request of `prepare` over, and answers what the response is worth. `Request` comes only
    /// where the transport failed. On `Uri` a transport that keeps a log has nothing new in it.
    pub fn request<C: SyncHttpClient>(
        self,
        alloc: Global,
        http: &mut C,
    ) -> Result<TR, RequestTokenError<C::Error, TE>>
        requires { C.ready http.old }
        ensures again { C.ready http.new }
        ensures ran { let before = known (C.log http.old) (C.script http.old) in
            let after = known (C.log http.new) (C.script http.new) in
            RanTokenRequest TE.read_of (TR.read_of self.entry.reading) self.entry before after result }
        ensures never_falls { C.faults http.old ≤ C.faults http.new }
        ensures blamed { let before = C.faults http.old in
            IsRequestBlamed token_errors before (C.faults http.new) result }
    {
        self.exchange(alloc, http)
    }
}
