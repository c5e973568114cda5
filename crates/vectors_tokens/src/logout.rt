//! Requests to a provider's logout and their URLs.

use crate::authorization::{text_in, token_of};
use case_lines::{Case, CaseError, ok_pair, refused_word, url_of};
use oidc_types::{
    ClientId, CsrfToken, EndSessionUrl, LanguageTag, LogoutHint, PostLogoutRedirectUrl,
};
use oidc_user_info::{BuildUrlError, LogoutRequest};
use std::alloc::Global;

/// `logout`: the URL of a request, to which the pairs of the line are added in their order.
pub(crate) fn logout(alloc: Global, case: &Case) -> Result<String, CaseError> {
    let optional = [
        "id_token_hint",
        "logout_hint",
        "client_id",
        "redirect",
        "state",
    ];
    case.check_all(&["endpoint"], &optional, &["ui_locale"])?;
    let request = request_in(alloc, case)?;
    match request.http_get_url(alloc) {
        Ok(url) => ok_pair(alloc, "url", url.as_str()),
        Err(BuildUrlError::TooLong) => refused_word(alloc, "too_long"),
        Err(BuildUrlError::Memory) => Err(CaseError::Memory),
    }
}

fn request_in(alloc: Global, case: &Case) -> Result<LogoutRequest, CaseError> {
    let endpoint: EndSessionUrl = url_of(alloc, case.value("endpoint"))?;
    let mut request = LogoutRequest::from(endpoint);
    for pair in case.pairs() {
        request = with(alloc, request, pair.name(), pair.value())?;
    }
    Ok(request)
}

// One call on the request, where the name is that of one. What it adds is read first, and the request is let go by a
// call where that fails.
fn with(
    alloc: Global,
    request: LogoutRequest,
    name: &str,
    value: &str,
) -> Result<LogoutRequest, CaseError> {
    match name {
        "id_token_hint" => hinted_by_token(alloc, request, value),
        "redirect" => redirected(alloc, request, value),
        _ => match text_in(alloc, value) {
            Ok(text) => with_text(alloc, request, name, text),
            Err(error) => {
                drop(request);
                Err(error)
            }
        },
    }
}

fn with_text(
    alloc: Global,
    request: LogoutRequest,
    name: &str,
    text: String,
) -> Result<LogoutRequest, CaseError> {
    match name {
        "logout_hint" => Ok(request.set_logout_hint(LogoutHint::new(text))),
        "client_id" => Ok(request.set_client_id(ClientId::new(text))),
        "state" => Ok(request.set_state(CsrfToken::new(text))),
        "ui_locale" => Ok(request.add_ui_locale(alloc, LanguageTag::new(text))?),
        _ => Ok(request),
    }
}

fn hinted_by_token(
    alloc: Global,
    request: LogoutRequest,
    value: &str,
) -> Result<LogoutRequest, CaseError> {
    match token_of(alloc, value) {
        Ok(token) => {
            let hinted = request.set_id_token_hint(alloc, &token);
            drop(token);
            Ok(hinted?)
        }
        Err(error) => {
            drop(request);
            Err(error)
        }
    }
}

fn redirected(
    alloc: Global,
    request: LogoutRequest,
    value: &str,
) -> Result<LogoutRequest, CaseError> {
    match url_of(alloc, value) {
        Ok(value) => {
            let redirect: PostLogoutRedirectUrl = value;
            Ok(request.set_post_logout_redirect_uri(redirect))
        }
        Err(error) => {
            drop(request);
            Err(error)
        }
    }
}
