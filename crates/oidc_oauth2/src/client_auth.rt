//! How a client names itself to a token endpoint (RFC 6749 section 2.3.1).

ghost use Rattle.std.specs.Prelude.{◌≡◌, ◌++◌, IfOk, OnOk, codes, option_map};
ghost use Rattle.std.specs.Option.{option_copied};
ghost use Rattle.std.specs.String.{string_bytes};
ghost use Rattle.http_header.specs.FieldValue.{plain_value, IsFieldValue};
ghost use Rattle.oidc_pairs.specs.Form.{escaped};
ghost use Rattle.oidc_oauth2.specs.ClientAuth as spec;

use base64::engine::general_purpose::STANDARD;
use http_header::{HeaderValue, HeaderValueError};
use oidc_pairs::{FormText, push_escaped};
use oidc_types::{ClientId, ClientSecret};
use std::alloc::{AllocError, Global};
use thiserror::Error;

/// How a client that has a secret sends it.
#[derive(Clone, Copy, Debug, PartialEq, Eq)]
pub enum AuthType {
    /// As Basic credentials, each part form-coded. This is the usual way.
    BasicAuth,
    /// In the body of the request.
    RequestBody,
}

/// As Basic credentials.
impl Default for AuthType {
    ghost use Rattle.std.specs.Prelude.{◌≡◌};
    ghost use Rattle.oidc_oauth2.specs.declared.client_auth.AuthType.TheVariants.{BasicAuth};

    ghost is_default = { λ kind. kind ≡ BasicAuth };

    fn default() -> AuthType {
        AuthType::BasicAuth
    }
}

/// A client and how it authenticates. A public client has no secret: it sends no credentials, and its
/// ID in the body, whatever `auth_type` is.
#[derive(Clone, Copy)]
pub struct ClientAuth<'a> {
    /// The client's ID.
    pub client_id: &'a ClientId,
    /// The client's secret, where it has one.
    pub client_secret: Option<&'a ClientSecret>,
    /// How the secret is sent.
    pub auth_type: AuthType,
}

/// Why a client makes no request.
#[derive(Clone, Copy, Debug, Error, PartialEq, Eq)]
pub enum ConfigurationError {
    /// The endpoint of that name isn't set.
    #[error("no {0} endpoint is set")]
    MissingUrl(&'static str),
    /// The URL of the endpoint of that name isn't `https`.
    #[error("the {0} endpoint is not https")]
    InsecureUrl(&'static str),
}

// How many bytes of credentials there is room for at once. Most have fewer.
const ROOM: usize = 128;

// Client ID and secret, form-coded, with a colon between them.
fn plain_credentials(
    alloc: Global,
    id: &ClientId,
    secret: &ClientSecret,
) -> Result<String, AllocError>
    ensures { IfOk result
        (λ plain. string_bytes plain ≡ escaped id.now ++ codes ":" ++ escaped secret.now) }
{
    let mut plain = String::with_capacity(alloc, ROOM)?;
    push_escaped(&mut plain, id.as_str().as_bytes())?;
    plain.push_str(":")?;
    push_escaped(&mut plain, secret.secret().as_bytes())?;
    Ok(plain)
}

// The scheme and its space, with room for credentials.
fn scheme_text(alloc: Global) -> Result<String, AllocError>
    ensures ok { IfOk result (λ text. string_bytes text ≡ codes "Basic ") }
{
    let mut text = String::with_capacity(alloc, ROOM)?;
    text.push_str("Basic ")?;
    Ok(text)
}

// The Basic credentials of a client, which are a header's value.
fn credentials_text(
    alloc: Global,
    id: &ClientId,
    secret: &ClientSecret,
) -> Result<String, AllocError>
    ensures text { IfOk result (λ text. string_bytes text ≡ spec.basic_credentials id.now secret.now) }
    ensures valid { IfOk result (λ text. IsFieldValue (string_bytes text)) }
{
    let plain = plain_credentials(alloc, id, secret)?;
    let mut text = scheme_text(alloc)?;
    STANDARD.encode_string(plain.as_str().as_bytes(), &mut text)?;
    Ok(text)
}

// The header's value that these credentials are.
fn basic(alloc: Global, id: &ClientId, secret: &ClientSecret) -> Result<HeaderValue, AllocError>
    ensures { IfOk result (λ value. value ≡ plain_value (spec.basic_credentials id.now secret.now)) }
{
    let text = credentials_text(alloc, id, secret)?;
    match HeaderValue::from_string(text) {
        Ok(value) => Ok(value),
        Err(HeaderValueError::OutOfMemory) => Err(AllocError),
        Err(HeaderValueError::Invalid) => unreachable!(),
    }
}

// The credentials that a client sends in a header, where it sends any there.
pub(crate) fn authorization(
    alloc: Global,
    auth: &ClientAuth<'_>,
) -> Result<Option<HeaderValue>, AllocError>
    ensures { let credentials = spec.authorization_of (spec.seen_client auth.now) in
        IfOk result (λ value. value ≡ option_map plain_value credentials) }
{
    match auth.auth_type {
        AuthType::RequestBody => Ok(None),
        AuthType::BasicAuth => match auth.client_secret {
            None => Ok(None),
            Some(secret) => Ok(Some(basic(alloc, auth.client_id, secret)?)),
        },
    }
}

/// Adds a pair, where there is a value.
pub fn push_optional(form: &mut FormText, name: &str, value: Option<&str>) -> Result<(), AllocError>
    ensures added { let pairs = spec.pair_if name.now (option_copied value.entry) in
        OnOk result (form.new ≡ form.old ++ pairs) }
{
    match value {
        None => Ok(()),
        Some(value) => form.push(name, value),
    }
}

// The text of a secret, where there is one.
fn text_of(secret: Option<&ClientSecret>) -> Option<&str>
    ensures { option_copied result ≡ option_copied secret.entry }
{
    match secret {
        None => None,
        Some(secret) => Some(secret.secret()),
    }
}

// Adds ID and any secret of a client.
fn push_own(
    form: &mut FormText,
    id: &ClientId,
    secret: Option<&ClientSecret>,
) -> Result<(), AllocError>
    ensures { let pairs = spec.credential_pairs id.now (option_copied secret.entry) in
        OnOk result (form.new ≡ form.old ++ pairs) }
{
    form.push("client_id", id.as_str())?;
    push_optional(form, "client_secret", text_of(secret))
}

/// Adds the pairs that name a client, where no header does.
pub fn push_client(form: &mut FormText, auth: &ClientAuth<'_>) -> Result<(), AllocError>
    ensures added { let pairs = spec.client_pairs (spec.seen_client auth.now) in
        OnOk result (form.new ≡ form.old ++ pairs) }
{
    match auth.auth_type {
        AuthType::RequestBody => push_own(form, auth.client_id, auth.client_secret),
        AuthType::BasicAuth => match auth.client_secret {
            None => push_own(form, auth.client_id, None),
            Some(_) => Ok(()),
        },
    }
}
