//! Authorization requests and their URLs.

use case_lines::{Case, CaseError, extra_in, number, ok_pair, refused_word, url_of};
use oidc_client::{AuthenticationFlow, AuthorizationRequest, CoreAuthenticationFlow, CoreClient};
use oidc_keys::JsonWebKeySet;
use oidc_members::ParseError;
use oidc_oauth2::{PkceCodeChallenge, PkceError};
use oidc_tokens::CoreIdToken;
use oidc_types::{
    AuthUrl, AuthenticationContextClass, ClientId, CoreAuthDisplay, CoreAuthPrompt,
    CoreResponseType, CsrfToken, EndpointSet, IssuerUrl, LanguageTag, LoginHint, Nonce,
    PkceCodeVerifier, RedirectUrl, Scope, Vocabulary,
};
use oidc_user_info::BuildUrlError;
use std::alloc::Global;
use std::time::Duration;

/// A client with an authorization endpoint.
type Client = CoreClient<EndpointSet>;

type Request<'a> = AuthorizationRequest<'a, CoreAuthDisplay, CoreAuthPrompt, CoreResponseType>;

/// `authorize`: the URL of a request, to which the pairs of the line are added in their order.
pub(crate) fn authorize(alloc: Global, case: &Case) -> Result<String, CaseError> {
    let required = ["endpoint", "id", "flow", "state", "nonce"];
    let optional = [
        "client_redirect",
        "redirect",
        "verifier",
        "display",
        "id_token_hint",
        "login_hint",
        "max_age",
    ];
    let repeated = [
        "scope",
        "scopes",
        "extra",
        "acr",
        "claims_locale",
        "prompt",
        "ui_locale",
        "openid",
    ];
    case.check_all(&required, &optional, &repeated)?;
    let client = client_in(alloc, case)?;
    let line = url_line(alloc, &client, case);
    drop(client);
    line
}

fn url_line(alloc: Global, client: &Client, case: &Case) -> Result<String, CaseError> {
    let request = request_in(alloc, client, case)?;
    match request.url(alloc) {
        Ok((url, _, _)) => ok_pair(alloc, "url", url.as_str()),
        Err(BuildUrlError::TooLong) => refused_word(alloc, "too_long"),
        Err(BuildUrlError::Memory) => Err(CaseError::Memory),
    }
}

// ---- the client

fn client_in(alloc: Global, case: &Case) -> Result<Client, CaseError> {
    let id = ClientId::new(String::from_str(alloc, case.value("id"))?);
    let issuer: IssuerUrl = url_of(alloc, "https://example")?;
    let endpoint: AuthUrl = url_of(alloc, case.value("endpoint"))?;
    let keys = JsonWebKeySet::new(Vec::new(alloc));
    let client = CoreClient::new(id, issuer, keys).set_auth_uri(endpoint);
    let client = with_redirect(alloc, client, case)?;
    with_switches(client, case)
}

fn with_redirect(alloc: Global, client: Client, case: &Case) -> Result<Client, CaseError> {
    match case.optional("client_redirect") {
        Some(redirect) => redirected_client(alloc, client, redirect),
        None => Ok(client),
    }
}

fn redirected_client(alloc: Global, client: Client, text: &str) -> Result<Client, CaseError> {
    match url_of(alloc, text) {
        Ok(redirect) => {
            let redirect: RedirectUrl = redirect;
            Ok(client.set_redirect_uri(redirect))
        }
        Err(error) => {
            drop(client);
            Err(error)
        }
    }
}

// With each switch of the scope `openid`.
fn with_switches(mut client: Client, case: &Case) -> Result<Client, CaseError> {
    for pair in case.pairs() {
        if pair.name() == "openid" {
            client = switched(client, pair.value())?;
        }
    }
    Ok(client)
}

fn switched(client: Client, switch: &str) -> Result<Client, CaseError> {
    match switch {
        "on" => Ok(client.enable_openid_scope()),
        "off" => Ok(client.disable_openid_scope()),
        _ => {
            drop(client);
            Err(CaseError::NoCase)
        }
    }
}

// ---- the request

fn request_in<'a>(
    alloc: Global,
    client: &'a Client,
    case: &Case,
) -> Result<Request<'a>, CaseError> {
    let flow = flow_of(alloc, case.value("flow"))?;
    let state = CsrfToken::new(String::from_str(alloc, case.value("state"))?);
    let nonce = Nonce::new(String::from_str(alloc, case.value("nonce"))?);
    let mut request = client.authorize_url(alloc, flow, move || state, move || nonce)?;
    for pair in case.pairs() {
        request = with(alloc, request, pair.name(), pair.value())?;
    }
    Ok(request)
}

fn flow_of(alloc: Global, text: &str) -> Result<CoreAuthenticationFlow, CaseError> {
    match text {
        "code" => Ok(AuthenticationFlow::AuthorizationCode),
        "id_token" => Ok(AuthenticationFlow::Implicit(false)),
        "id_token token" => Ok(AuthenticationFlow::Implicit(true)),
        _ => match text.strip_prefix("hybrid ") {
            Some(types) => Ok(AuthenticationFlow::Hybrid(response_types(alloc, types)?)),
            None => Err(CaseError::NoCase),
        },
    }
}

// The response types of a text, with a space between each two.
fn response_types(alloc: Global, text: &str) -> Result<Vec<CoreResponseType>, CaseError> {
    let mut types = Vec::new(alloc);
    if text.is_empty() {
        return Ok(types);
    }
    for word in text.split(' ') {
        types.push(CoreResponseType::from_str(String::from_str(alloc, word)?))?;
    }
    Ok(types)
}

// One call on the request, where the name is that of one.
fn with<'a>(
    alloc: Global,
    request: Request<'a>,
    name: &str,
    value: &str,
) -> Result<Request<'a>, CaseError> {
    match name {
        "redirect" => redirected(alloc, request, value),
        "verifier" => challenged(alloc, request, value),
        "display" => displayed(alloc, request, value),
        "id_token_hint" => hinted_by_token(alloc, request, value),
        "login_hint" => hinted(alloc, request, value),
        "max_age" => aged(request, value),
        _ => with_one_more(alloc, request, name, value),
    }
}

// The same, where the name is that of a list.
fn with_one_more<'a>(
    alloc: Global,
    request: Request<'a>,
    name: &str,
    value: &str,
) -> Result<Request<'a>, CaseError> {
    match name {
        "scope" => with_scope(alloc, request, value),
        "scopes" => with_scopes(alloc, request, value),
        "extra" => with_extra(alloc, request, value),
        "acr" => with_acr(alloc, request, value),
        "claims_locale" => with_claims_locale(alloc, request, value),
        "prompt" => with_prompt(alloc, request, value),
        "ui_locale" => with_ui_locale(alloc, request, value),
        _ => Ok(request),
    }
}

// One function a call. What it adds is read first, and the request is let go by a call where that fails: else the proof
// carries its state to where the ways out meet.

fn redirected<'a>(
    alloc: Global,
    request: Request<'a>,
    value: &str,
) -> Result<Request<'a>, CaseError> {
    match url_of(alloc, value) {
        Ok(value) => Ok(request.set_redirect_uri(value)),
        Err(error) => {
            drop(request);
            Err(error)
        }
    }
}

fn challenged<'a>(
    alloc: Global,
    request: Request<'a>,
    value: &str,
) -> Result<Request<'a>, CaseError> {
    match challenge_of(alloc, value) {
        Ok(value) => Ok(request.set_pkce_challenge(value)),
        Err(error) => {
            drop(request);
            Err(error)
        }
    }
}

fn displayed<'a>(
    alloc: Global,
    request: Request<'a>,
    value: &str,
) -> Result<Request<'a>, CaseError> {
    match text_in(alloc, value) {
        Ok(value) => Ok(request.set_display(CoreAuthDisplay::from_str(value))),
        Err(error) => {
            drop(request);
            Err(error)
        }
    }
}

fn hinted_by_token<'a>(
    alloc: Global,
    request: Request<'a>,
    value: &str,
) -> Result<Request<'a>, CaseError> {
    match token_of(alloc, value) {
        Ok(token) => {
            let hinted = request.set_id_token_hint(alloc, &token);
            drop(token);
            Ok(hinted?)
        }
        Err(error) => {
            drop(request);
            Err(error)
        }
    }
}

fn hinted<'a>(alloc: Global, request: Request<'a>, value: &str) -> Result<Request<'a>, CaseError> {
    match text_in(alloc, value) {
        Ok(value) => Ok(request.set_login_hint(LoginHint::new(value))),
        Err(error) => {
            drop(request);
            Err(error)
        }
    }
}

fn aged<'a>(request: Request<'a>, value: &str) -> Result<Request<'a>, CaseError> {
    match seconds_of(value) {
        Ok(value) => Ok(request.set_max_age(value)),
        Err(error) => {
            drop(request);
            Err(error)
        }
    }
}

fn with_scope<'a>(
    alloc: Global,
    request: Request<'a>,
    value: &str,
) -> Result<Request<'a>, CaseError> {
    match text_in(alloc, value) {
        Ok(value) => Ok(request.add_scope(Scope::new(value))?),
        Err(error) => {
            drop(request);
            Err(error)
        }
    }
}

fn with_scopes<'a>(
    alloc: Global,
    request: Request<'a>,
    value: &str,
) -> Result<Request<'a>, CaseError> {
    match scopes_of(alloc, value) {
        Ok(value) => Ok(request.add_scopes(value)?),
        Err(error) => {
            drop(request);
            Err(error)
        }
    }
}

fn with_extra<'a>(
    alloc: Global,
    request: Request<'a>,
    value: &str,
) -> Result<Request<'a>, CaseError> {
    match extra_in(alloc, value) {
        Ok((name, value)) => Ok(request.add_extra_param(name, value)?),
        Err(error) => {
            drop(request);
            Err(error)
        }
    }
}

fn with_acr<'a>(
    alloc: Global,
    request: Request<'a>,
    value: &str,
) -> Result<Request<'a>, CaseError> {
    match text_in(alloc, value) {
        Ok(value) => Ok(request.add_auth_context_value(AuthenticationContextClass::new(value))?),
        Err(error) => {
            drop(request);
            Err(error)
        }
    }
}

fn with_claims_locale<'a>(
    alloc: Global,
    request: Request<'a>,
    value: &str,
) -> Result<Request<'a>, CaseError> {
    match text_in(alloc, value) {
        Ok(value) => Ok(request.add_claims_locale(LanguageTag::new(value))?),
        Err(error) => {
            drop(request);
            Err(error)
        }
    }
}

fn with_prompt<'a>(
    alloc: Global,
    request: Request<'a>,
    value: &str,
) -> Result<Request<'a>, CaseError> {
    match text_in(alloc, value) {
        Ok(value) => Ok(request.add_prompt(CoreAuthPrompt::from_str(value))?),
        Err(error) => {
            drop(request);
            Err(error)
        }
    }
}

fn with_ui_locale<'a>(
    alloc: Global,
    request: Request<'a>,
    value: &str,
) -> Result<Request<'a>, CaseError> {
    match text_in(alloc, value) {
        Ok(value) => Ok(request.add_ui_locale(LanguageTag::new(value))?),
        Err(error) => {
            drop(request);
            Err(error)
        }
    }
}

// A copy of a text.
pub(crate) fn text_in(alloc: Global, text: &str) -> Result<String, CaseError> {
    Ok(String::from_str(alloc, text)?)
}

// The scopes of a text, with a space between each two; the empty text is none.
fn scopes_of(alloc: Global, text: &str) -> Result<Vec<Scope>, CaseError> {
    let mut scopes = Vec::new(alloc);
    if text.is_empty() {
        return Ok(scopes);
    }
    for word in text.split(' ') {
        scopes.push(Scope::new(String::from_str(alloc, word)?))?;
    }
    Ok(scopes)
}

fn challenge_of(alloc: Global, verifier: &str) -> Result<PkceCodeChallenge, CaseError> {
    let verifier = PkceCodeVerifier::new(String::from_str(alloc, verifier)?);
    match PkceCodeChallenge::from_code_verifier_sha256(alloc, &verifier) {
        Ok(challenge) => Ok(challenge),
        Err(PkceError::Length) => Err(CaseError::NoCase),
        Err(PkceError::Memory) => Err(CaseError::Memory),
    }
}

pub(crate) fn token_of(alloc: Global, text: &str) -> Result<CoreIdToken, CaseError> {
    match CoreIdToken::from_str(alloc, text) {
        Ok(token) => Ok(token),
        Err(ParseError::Refused(_)) => Err(CaseError::NoCase),
        Err(ParseError::Memory) => Err(CaseError::Memory),
    }
}

// A span of whole seconds. Rust reads a number behind a `+`, which no line has.
fn seconds_of(text: &str) -> Result<Duration, CaseError> {
    if text.as_bytes().first() == Some(&b'+') {
        return Err(CaseError::NoCase);
    }
    Ok(Duration::from_secs(number::<u64>(text)?))
}
