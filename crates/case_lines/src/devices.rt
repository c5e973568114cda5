//! Answers of devices and introspections as pairs.

use crate::answers::{ok_form, push_some};
use crate::case::CaseError;
use crate::records::{push_scopes, push_seconds};
use jiff::Timestamp;
use oidc_members::FieldName;
use oidc_oauth2::{
    CoreDeviceAuthorizationResponse, CoreTokenIntrospectionResponse, TokenIntrospectionResponse,
    TokenType,
};
use oidc_pairs::FormText;
use std::alloc::{AllocError, Global};

/// The pairs of a device authorization response.
pub fn device_line(
    alloc: Global,
    device: &CoreDeviceAuthorizationResponse,
) -> Result<String, CaseError> {
    let mut form = FormText::new(alloc);
    form.push("device_code", device.device_code().secret())?;
    form.push("user_code", device.user_code().secret())?;
    form.push("verification_uri", device.verification_uri().as_str())?;
    push_seconds(
        alloc,
        &mut form,
        "expires_in",
        device.expires_in().as_secs(),
    )?;
    if let Some(complete) = device.verification_uri_complete() {
        form.push("verification_uri_complete", complete.secret())?;
    }
    push_seconds(alloc, &mut form, "interval", device.interval().as_secs())?;
    ok_form(alloc, form)
}

/// The pairs of an introspection response.
pub fn introspection_line(
    alloc: Global,
    response: &CoreTokenIntrospectionResponse,
) -> Result<String, CaseError> {
    let mut form = FormText::new(alloc);
    form.push("active", if response.active() { "true" } else { "false" })?;
    push_scopes(alloc, &mut form, response.scopes())?;
    push_names(&mut form, response)?;
    push_moment(alloc, &mut form, "exp", response.exp())?;
    push_moment(alloc, &mut form, "nbf", response.nbf())?;
    push_moment(alloc, &mut form, "iat", response.iat())?;
    push_audiences(alloc, &mut form, response.aud())?;
    ok_form(alloc, form)
}

// Adds the texts that are there.
fn push_names(
    form: &mut FormText,
    response: &CoreTokenIntrospectionResponse,
) -> Result<(), AllocError> {
    if let Some(id) = response.client_id() {
        form.push("client_id", id.as_str())?;
    }
    push_some(form, "username", response.username())?;
    if let Some(kind) = response.token_type() {
        form.push("token_type", kind.as_ref())?;
    }
    push_some(form, "sub", response.sub())?;
    push_some(form, "iss", response.iss())?;
    push_some(form, "jti", response.jti())
}

fn push_moment(
    alloc: Global,
    form: &mut FormText,
    name: &str,
    moment: Option<Timestamp>,
) -> Result<(), AllocError> {
    let Some(moment) = moment else {
        return Ok(());
    };
    let seconds = moment.as_second();
    let text = format!(in alloc; "{seconds}")?;
    form.push(name, text.as_str())
}

// Adds the names in `aud`, joined by line feeds, where they are there.
fn push_audiences(
    alloc: Global,
    form: &mut FormText,
    names: Option<&[FieldName]>,
) -> Result<(), AllocError> {
    let Some(names) = names else {
        return Ok(());
    };
    let mut texts = Vec::new(alloc);
    for name in names {
        texts.push(name.as_str())?;
    }
    form.push("aud", texts.join(alloc, "\n")?.as_str())
}
