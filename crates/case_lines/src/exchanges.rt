//! Requests, and what the answers to requests for tokens are worth.

use crate::answers::{ok_form, ok_pair, refused_word};
use crate::case::{Case, CaseError};
use crate::headers::{content_type, header_text};
use crate::records::{Tokens, written};
use crate::words::kind_word;
use http::{Response, StatusCode};
use http_header::{CONTENT_TYPE, HeaderMap};
use oidc_members::{Reading, Refusal};
use oidc_oauth2::{
    Body, CoreErrorResponseType, ExtraTokenFields, Fault, HttpRequest, HttpResponse, OtherCause,
    RequestTokenError, StandardErrorResponse,
};
use oidc_pairs::{FormText, escaped_text};
use oidc_types::ErrorResponseType;
use std::alloc::Global;

/// An error response of a token endpoint.
pub type Refused = StandardErrorResponse<CoreErrorResponseType>;

/// The pairs that a report has of a request. Only a POST shows its body.
pub fn request_line(alloc: Global, request: &HttpRequest) -> Result<String, CaseError> {
    let body = str::from_utf8(request.body().as_slice()).map_err(|_| CaseError::NoCase)?;
    let headers = request.headers();
    let mut form = FormText::new(alloc);
    form.push("method", request.method().as_str())?;
    form.push("address", request.address())?;
    push_header(&mut form, "accept", headers, "accept")?;
    push_header(&mut form, "content_type", headers, "content-type")?;
    push_header(&mut form, "authorization", headers, "authorization")?;
    if request.method().as_str() == "POST" {
        form.push("body", body)?;
    }
    ok_form(alloc, form)
}

fn push_header(
    form: &mut FormText,
    name: &str,
    headers: &HeaderMap,
    header: &str,
) -> Result<(), CaseError> {
    match headers.get(header) {
        Some(value) => Ok(form.push(name, header_text(value)?)?),
        None => Ok(()),
    }
}

/// What an answer to a request for tokens is worth where these extra fields are read under a reading.
pub fn token_answer_line<EF: ExtraTokenFields>(
    alloc: Global,
    response: HttpResponse,
    reading: Reading,
) -> Result<String, CaseError> {
    match oidc_oauth2::token_answer::<Fault, Refused, Tokens<EF>>(alloc, response, reading) {
        Ok(tokens) => ok_pair(alloc, "written", written(alloc, &tokens)?.as_str()),
        Err(refusal) => refused_line(alloc, &refusal),
    }
}

/// The response that a line gives by `status`, `type` and `body`.
pub fn response_in(alloc: Global, case: &Case) -> Result<HttpResponse, CaseError> {
    let status = status(case.value("status"))?;
    let body = Body::new(Vec::from_slice(alloc, case.value("body").as_bytes())?);
    let mut response = Response::new(alloc, body);
    *response.status_mut() = status;
    if let Some(text) = case.optional("type") {
        let value = content_type(alloc, text)?;
        if response.headers_mut().insert(CONTENT_TYPE, value).is_err() {
            return Err(CaseError::Memory);
        }
    }
    Ok(response)
}

fn status(text: &str) -> Result<StatusCode, CaseError> {
    StatusCode::from_bytes(text.as_bytes()).map_err(|_| CaseError::NoCase)
}

/// The words that a report has of a refusal.
pub fn refused_line<T: ErrorResponseType>(
    alloc: Global,
    refusal: &RequestTokenError<Fault, StandardErrorResponse<T>>,
) -> Result<String, CaseError> {
    match refusal {
        RequestTokenError::ServerResponse(error) => server_line(alloc, error),
        RequestTokenError::Request(_) => refused_word(alloc, "request"),
        RequestTokenError::Parse(refusal, _) => parse_line(alloc, refusal),
        RequestTokenError::Other(OtherCause::Uri) => refused_word(alloc, "uri"),
        RequestTokenError::Other(OtherCause::EmptyBody) => refused_word(alloc, "empty_body"),
        RequestTokenError::Other(OtherCause::MediaType) => refused_word(alloc, "media_type"),
        RequestTokenError::TooLong(_) => refused_word(alloc, "too_long"),
        RequestTokenError::Memory => Err(CaseError::Memory),
    }
}

fn server_line<T: ErrorResponseType>(
    alloc: Global,
    error: &StandardErrorResponse<T>,
) -> Result<String, CaseError> {
    let error = escaped_text(alloc, error.error().as_ref())?;
    let words = format!(in alloc; "server {}", error.as_str())?;
    refused_word(alloc, words.as_str())
}

/// `refused parse`, and the kind and the field.
pub fn parse_line(alloc: Global, refusal: &Refusal) -> Result<String, CaseError> {
    let mut form = FormText::new(alloc);
    form.push("kind", kind_word(refusal.kind))?;
    form.push("field", refusal.field.as_str())?;
    let form = form.into_string();
    let words = format!(in alloc; "parse {}", form.as_str())?;
    refused_word(alloc, words.as_str())
}
