//! The calls of a run: pairs whose value is the form text of the call's own pairs.

use case_lines::{Case, CaseError, header_of, header_text, text_of, url_of};
use http::Method;
use http_header::{AUTHORIZATION, HeaderMap, HeaderMapError};
use oidc_claims::AllOtherClaims;
use oidc_members::{Members, ParseError};
use oidc_oauth2::{Body, HttpRequest, HttpResponse};
use oidc_pairs::FormText;
use oidc_provider::{AuthorizeError, Provider, ProviderSettings, Registration};
use oidc_tokens::{IdTokenClaims, Payload};
use oidc_types::{
    AccessToken, AuthUrl, AuthorizationCode, ClientId, ClientSecret, CoreGenderClaim, IssuerUrl,
    RedirectUrl, TokenUrl, UserInfoUrl,
};
use oidc_user_info::UserInfoClaims;
use std::alloc::{AllocError, Global};

/// A provider that grants tokens with all claims that it is handed.
pub(crate) type Double = Provider<AllOtherClaims, CoreGenderClaim>;

pub(crate) type Claims = IdTokenClaims<AllOtherClaims, CoreGenderClaim>;

pub(crate) type Info = UserInfoClaims<AllOtherClaims, CoreGenderClaim>;

/// A call's own pairs, as a case.
pub(crate) fn call_in(alloc: Global, text: &str) -> Result<Case, CaseError> {
    let line = format!(in alloc; "op=call&{text}")?;
    Case::read(alloc, line.as_str())
}

// ---- the provider

/// The settings of a line.
pub(crate) fn settings_in(alloc: Global, case: &Case) -> Result<ProviderSettings, CaseError> {
    let issuer: IssuerUrl = url_of(alloc, case.value("issuer"))?;
    let token: TokenUrl = url_of(alloc, case.value("token"))?;
    let user_info: UserInfoUrl = url_of(alloc, case.value("user_info"))?;
    Ok(ProviderSettings {
        issuer,
        token,
        user_info,
    })
}

fn registration(alloc: Global, text: &str) -> Result<Registration, CaseError> {
    let case = call_in(alloc, text)?;
    case.check(&["id", "secret", "redirect"])?;
    let client_id = ClientId::new(String::from_str(alloc, case.value("id"))?);
    let secret = ClientSecret::new(String::from_str(alloc, case.value("secret"))?);
    let redirect: RedirectUrl = url_of(alloc, case.value("redirect"))?;
    Ok(Registration {
        client_id,
        secret,
        redirect,
    })
}

/// The registrations of a line.
pub(crate) fn registrations_in(alloc: Global, case: &Case) -> Result<Vec<Registration>, CaseError> {
    let mut registrations = Vec::new(alloc);
    for pair in case.pairs() {
        if pair.name() == "registration" {
            registrations.push(registration(alloc, pair.value())?)?;
        }
    }
    Ok(registrations)
}

// ---- authorize

/// What an authorization is asked with.
#[derive(Drop)]
pub(crate) struct Authorization {
    pub(crate) url: AuthUrl,
    pub(crate) claims: Claims,
    pub(crate) user_info: Info,
    pub(crate) code: AuthorizationCode,
    pub(crate) token: AccessToken,
}

fn members_in(alloc: Global, text: &str) -> Result<Members, CaseError> {
    match Members::split(alloc, text.as_bytes()) {
        Ok(members) => Ok(members),
        Err(ParseError::Refused(_)) => Err(CaseError::NoCase),
        Err(ParseError::Memory) => Err(CaseError::Memory),
    }
}

fn payload_in<P: Payload>(alloc: Global, text: &str) -> Result<P, CaseError> {
    let members = members_in(alloc, text)?;
    match P::read(alloc, &members) {
        Ok(payload) => Ok(payload),
        Err(ParseError::Refused(_)) => Err(CaseError::NoCase),
        Err(ParseError::Memory) => Err(CaseError::Memory),
    }
}

/// The call `authorize`.
pub(crate) fn authorization_in(alloc: Global, text: &str) -> Result<Authorization, CaseError> {
    let case = call_in(alloc, text)?;
    case.check(&["url", "claims", "user_info", "code", "token"])?;
    authorization_of(alloc, &case)
}

/// What stands in a call of an authorization.
pub(crate) fn authorization_of(alloc: Global, case: &Case) -> Result<Authorization, CaseError> {
    let code = AuthorizationCode::new(String::from_str(alloc, case.value("code"))?);
    let token = AccessToken::new(String::from_str(alloc, case.value("token"))?);
    let url: AuthUrl = url_of(alloc, case.value("url"))?;
    let claims: Claims = payload_in(alloc, case.value("claims"))?;
    let user_info: Info = payload_in(alloc, case.value("user_info"))?;
    Ok(Authorization {
        url,
        claims,
        user_info,
        code,
        token,
    })
}

/// The words of a refusal.
pub(crate) fn refusal_words(refusal: AuthorizeError) -> Result<&'static str, CaseError> {
    match refusal {
        AuthorizeError::Client => Ok("refused client"),
        AuthorizeError::Redirect => Ok("refused redirect"),
        AuthorizeError::Request => Ok("refused request"),
        AuthorizeError::Subject => Ok("refused subject"),
        AuthorizeError::CodeUsed => Ok("refused code_used"),
        AuthorizeError::TokenUsed => Ok("refused token_used"),
        AuthorizeError::TokenText => Ok("refused token_text"),
        AuthorizeError::Memory => Err(CaseError::Memory),
    }
}

/// What a provider answers to it.
pub(crate) fn authorized_line(
    alloc: Global,
    provider: &mut Double,
    asked: Authorization,
) -> Result<String, CaseError> {
    let Authorization {
        url,
        claims,
        user_info,
        code,
        token,
    } = asked;
    match provider.authorize(url.url(), claims, user_info, code, token) {
        Ok(query) => {
            let mut form = FormText::new(alloc);
            form.push("query", query.as_str())?;
            case_lines::ok_form(alloc, form)
        }
        Err(refusal) => Ok(String::from_str(alloc, refusal_words(refusal)?)?),
    }
}

// ---- requests

fn method_in(text: &str) -> Result<Method, CaseError> {
    match text {
        "GET" => Ok(Method::GET),
        "POST" => Ok(Method::POST),
        "PUT" => Ok(Method::PUT),
        _ => Err(CaseError::NoCase),
    }
}

fn headers_in(alloc: Global, case: &Case) -> Result<HeaderMap, CaseError> {
    let mut headers = HeaderMap::new(alloc);
    for pair in case.pairs() {
        if pair.name() == "authorization" {
            let value = header_of(Vec::from_slice(alloc, pair.value().as_bytes())?)?;
            let _ = header_text(&value)?;
            let put: Result<bool, HeaderMapError> = headers.append(AUTHORIZATION, value);
            if put.is_err() {
                return Err(CaseError::Memory);
            }
        }
    }
    Ok(headers)
}

/// The call `call`: a request.
pub(crate) fn request_in(alloc: Global, text: &str) -> Result<HttpRequest, CaseError> {
    let case = call_in(alloc, text)?;
    case.check_all(&["method", "address"], &["body"], &["authorization"])?;
    let method = method_in(case.value("method"))?;
    let headers = headers_in(alloc, &case)?;
    let address = String::from_str(alloc, case.value("address"))?;
    let body = Body::new(Vec::from_slice(alloc, case.value("body").as_bytes())?);
    Ok(HttpRequest::new(method, address, headers, body))
}

/// The answer to a request: its status, and its media type and body, where it has a body.
pub(crate) fn response_line(alloc: Global, response: &HttpResponse) -> Result<String, CaseError> {
    let status = format!(in alloc; "{}", response.status().as_u16())?;
    let mut form = FormText::new(alloc);
    form.push("status", status.as_str())?;
    if !response.body().as_slice().is_empty() {
        push_body(alloc, &mut form, response)?;
    }
    case_lines::ok_form(alloc, form)
}

fn push_body(alloc: Global, form: &mut FormText, response: &HttpResponse) -> Result<(), CaseError> {
    let body = text_of(Vec::from_slice(alloc, response.body().as_slice())?)?;
    if let Some(value) = response.headers().get("content-type") {
        form.push("type", header_text(value)?)?;
    }
    form.push("body", body.as_str())?;
    Ok(())
}
