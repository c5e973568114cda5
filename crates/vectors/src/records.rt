//! Records of answers.

use case_lines::{
    Case, CaseError, Refused, device_line, introspection_line, ok_form, push_some, refused_reading,
    token_response_line, variant_name,
};
use oidc_members::{Members, ParseError, Reading};
use oidc_oauth2::{
    CoreDeviceAuthorizationResponse, CoreRevocationErrorResponse, CoreTokenIntrospectionResponse,
    DeviceCodeErrorResponse, EmptyExtraTokenFields, ErrorResponse, StandardErrorResponse,
    TokenIntrospectionResponse,
};
use oidc_pairs::FormText;
use oidc_types::ErrorResponseType;
use std::alloc::Global;
use std::fmt;

// ---- token responses

/// `token_response`: a token response, written again.
pub(crate) fn token_response(alloc: Global, case: &Case) -> Result<String, CaseError> {
    case.check(&["text"])?;
    token_response_line::<EmptyExtraTokenFields>(alloc, case.value("text"), Reading::STRICT)
}

// ---- error responses

/// `error_response`: an error response of a token endpoint.
pub(crate) fn error_response(alloc: Global, case: &Case) -> Result<String, CaseError> {
    case.check(&["text"])?;
    error_line(alloc, &error_in::<Refused>(alloc, case.value("text")))
}

/// `device_error`: an error response while a device waits.
pub(crate) fn device_error(alloc: Global, case: &Case) -> Result<String, CaseError> {
    case.check(&["text"])?;
    error_line(
        alloc,
        &error_in::<DeviceCodeErrorResponse>(alloc, case.value("text")),
    )
}

/// `revocation_error`: an error response of a revocation endpoint.
pub(crate) fn revocation_error(alloc: Global, case: &Case) -> Result<String, CaseError> {
    case.check(&["text"])?;
    error_line(
        alloc,
        &error_in::<CoreRevocationErrorResponse>(alloc, case.value("text")),
    )
}

fn error_in<R: ErrorResponse>(alloc: Global, text: &str) -> Result<R, ParseError> {
    let members = Members::split(alloc, text.as_bytes())?;
    R::read(alloc, &members)
}

fn error_line<T: ErrorResponseType + fmt::Debug>(
    alloc: Global,
    read: &Result<StandardErrorResponse<T>, ParseError>,
) -> Result<String, CaseError> {
    match read {
        Ok(response) => shown_error(alloc, response),
        Err(error) => refused_reading(alloc, error),
    }
}

fn shown_error<T: ErrorResponseType + fmt::Debug>(
    alloc: Global,
    response: &StandardErrorResponse<T>,
) -> Result<String, CaseError> {
    let error = response.error();
    let shown = format!(in alloc; "{error:?}")?;
    let mut form = FormText::new(alloc);
    form.push("error", error.as_ref())?;
    form.push("variant", variant_name(shown.as_str()))?;
    push_some(&mut form, "description", response.error_description())?;
    push_some(&mut form, "uri", response.error_uri())?;
    ok_form(alloc, form)
}

// ---- device authorization responses

/// `device_response`: a device authorization response.
pub(crate) fn device_response(alloc: Global, case: &Case) -> Result<String, CaseError> {
    case.check(&["text"])?;
    match device_in(alloc, case.value("text")) {
        Ok(device) => device_line(alloc, &device),
        Err(error) => refused_reading(alloc, &error),
    }
}

fn device_in(alloc: Global, text: &str) -> Result<CoreDeviceAuthorizationResponse, ParseError> {
    let members = Members::split(alloc, text.as_bytes())?;
    CoreDeviceAuthorizationResponse::read(alloc, &members)
}

// ---- introspection responses

/// `introspection`: an introspection response.
pub(crate) fn introspection(alloc: Global, case: &Case) -> Result<String, CaseError> {
    case.check(&["text"])?;
    match introspection_in(alloc, case.value("text")) {
        Ok(response) => introspection_line(alloc, &response),
        Err(error) => refused_reading(alloc, &error),
    }
}

fn introspection_in(
    alloc: Global,
    text: &str,
) -> Result<CoreTokenIntrospectionResponse, ParseError> {
    let members = Members::split(alloc, text.as_bytes())?;
    CoreTokenIntrospectionResponse::read(alloc, &members)
}
