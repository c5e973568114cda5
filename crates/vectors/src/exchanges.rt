//! The request that exchanges a code for tokens, and what its answer is worth.

use case_lines::{
    Case, CaseError, Refused, Tokens, extra_in, refused_word, request_line, response_in,
    token_answer_line, url_of,
};
use oidc_members::Reading;
use oidc_oauth2::{AuthType, ClientAuth, CodeTokenRequest, EmptyExtraTokenFields, PrepareError};
use oidc_types::{
    AuthorizationCode, ClientId, ClientSecret, PkceCodeVerifier, RedirectUrl, TokenUrl,
};
use std::alloc::{AllocError, Global};

/// The request that exchanges a code.
type Request<'a> = CodeTokenRequest<'a, Refused, Tokens<EmptyExtraTokenFields>>;

// ---- the request

/// `code_request`: the request that exchanges a code.
pub(crate) fn code_request(alloc: Global, case: &Case) -> Result<String, CaseError> {
    let required = ["endpoint", "id", "auth", "code"];
    let optional = ["secret", "verifier", "redirect"];
    case.check_all(&required, &optional, &["extra"])?;
    let sender = sender_in(alloc, case)?;
    let request = request_in(alloc, case, &sender)?;
    prepared_line(alloc, request)
}

// Who asks where, and the redirect of the login.
#[derive(Drop)]
struct Sender {
    endpoint: TokenUrl,
    id: ClientId,
    secret: Option<ClientSecret>,
    redirect: Option<RedirectUrl>,
}

fn sender_in(alloc: Global, case: &Case) -> Result<Sender, CaseError> {
    let endpoint = url_of(alloc, case.value("endpoint"))?;
    let id = ClientId::new(String::from_str(alloc, case.value("id"))?);
    let secret = secret_in(alloc, case)?;
    let redirect = redirect_in(alloc, case)?;
    Ok(Sender {
        endpoint,
        id,
        secret,
        redirect,
    })
}

fn request_in<'a>(
    alloc: Global,
    case: &Case,
    sender: &'a Sender,
) -> Result<Request<'a>, CaseError> {
    let auth = ClientAuth {
        client_id: &sender.id,
        client_secret: sender.secret.as_ref(),
        auth_type: auth_type(case.value("auth"))?,
    };
    let code = AuthorizationCode::new(String::from_str(alloc, case.value("code"))?);
    let request = Request::new(alloc, &sender.endpoint, auth, code);
    let request = with_redirect(request, sender.redirect.as_ref());
    with_extra(alloc, with_verifier(alloc, request, case)?, case)
}

fn prepared_line(alloc: Global, request: Request<'_>) -> Result<String, CaseError> {
    match request.prepare(alloc) {
        Ok(request) => request_line(alloc, &request),
        Err(PrepareError::Uri) => refused_word(alloc, "uri"),
        Err(PrepareError::Memory) => Err(CaseError::Memory),
    }
}

fn secret_in(alloc: Global, case: &Case) -> Result<Option<ClientSecret>, AllocError> {
    match case.optional("secret") {
        Some(secret) => Ok(Some(ClientSecret::new(String::from_str(alloc, secret)?))),
        None => Ok(None),
    }
}

fn redirect_in(alloc: Global, case: &Case) -> Result<Option<RedirectUrl>, CaseError> {
    match case.optional("redirect") {
        Some(redirect) => Ok(Some(url_of(alloc, redirect)?)),
        None => Ok(None),
    }
}

fn auth_type(text: &str) -> Result<AuthType, CaseError> {
    match text {
        "basic" => Ok(AuthType::BasicAuth),
        "body" => Ok(AuthType::RequestBody),
        _ => Err(CaseError::NoCase),
    }
}

fn with_redirect<'a>(request: Request<'a>, redirect: Option<&'a RedirectUrl>) -> Request<'a> {
    match redirect {
        Some(redirect) => request.set_redirect_uri(redirect),
        None => request,
    }
}

fn with_verifier<'a>(
    alloc: Global,
    request: Request<'a>,
    case: &Case,
) -> Result<Request<'a>, AllocError> {
    match case.optional("verifier") {
        Some(verifier) => {
            let verifier = PkceCodeVerifier::new(String::from_str(alloc, verifier)?);
            Ok(request.set_pkce_verifier(verifier))
        }
        None => Ok(request),
    }
}

// With each pair that is `extra`.
fn with_extra<'a>(
    alloc: Global,
    mut request: Request<'a>,
    case: &Case,
) -> Result<Request<'a>, CaseError> {
    for pair in case.pairs() {
        if pair.name() == "extra" {
            let (name, value) = extra_in(alloc, pair.value())?;
            request = request.add_extra_param(name, value)?;
        }
    }
    Ok(request)
}

// ---- the answer

/// `token_answer`: what an answer to that request is worth.
pub(crate) fn token_answer(alloc: Global, case: &Case) -> Result<String, CaseError> {
    case.check_with(&["status", "body"], &["type"])?;
    token_answer_line::<EmptyExtraTokenFields>(alloc, response_in(alloc, case)?, Reading::STRICT)
}
