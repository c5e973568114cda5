//! Header fields of requests and responses (RFC 9110, RFC 6750).

ghost use Rattle.std.specs.Prelude.{◌≡◌, ◌==◌, ◌++◌, ◌↔◌, false, true, IfOk, IsErrOf, IsOk, IsTrue, codes};
ghost use Rattle.std.specs.List.{before_first, position};
ghost use Rattle.std.specs.String.{string_bytes};
ghost use Rattle.http_header.specs.Token.{is_visible_or_blank as visible_or_blank};
ghost use Rattle.http_header.specs.FieldValue.{plain_value, is_visible_text, IsFieldValue};
ghost use Rattle.oidc_oauth2.specs.HttpUtils as spec;

use http_header::{
    AUTHORIZATION, CONTENT_TYPE, HeaderMap, HeaderName, HeaderValue, HeaderValueError,
};
use oidc_types::AccessToken;
use std::alloc::{AllocError, Global};
use thiserror::Error;

/// The media type of JSON texts (RFC 8259 section 11).
pub const MIME_TYPE_JSON: &str = "application/json";

/// The media type of key sets (RFC 7517 section 8.5).
pub const MIME_TYPE_JWKS: &str = "application/jwk-set+json";

/// The media type of JSON Web Tokens (RFC 7519 section 10.3).
pub const MIME_TYPE_JWT: &str = "application/jwt";

/// The scheme of bearer tokens (RFC 6750 section 2.1).
pub const BEARER: &str = "Bearer";

/// A media type is there and isn't the expected one.
#[derive(Clone, Copy, Debug, Error, PartialEq, Eq)]
#[error("another media type")]
pub struct UnexpectedType;

/// Why no header is made of an access token.
#[derive(Clone, Copy, Debug, Error, PartialEq, Eq)]
pub enum BearerError {
    /// The token has bytes that are neither visible ASCII nor spaces or tabs.
    #[error("an access token that may not stand in a header")]
    Value,
    /// There was no memory.
    #[error("out of memory")]
    Memory,
}

impl From<AllocError> for BearerError {
    ghost use Rattle.std.specs.Prelude.{◌≡◌};
    ghost use Rattle.oidc_oauth2.specs.declared.http_utils.BearerError.TheVariants.{Memory};

    ghost from_gives = { λ _ error. error ≡ Memory };

    fn from(_refused: AllocError) -> BearerError {
        BearerError::Memory
    }
}

fn is_visible_or_blank(byte: u8) -> bool
    ensures { result ≡ visible_or_blank byte }
{
    byte == b'\t' || (b' ' <= byte && byte < 0x7F)
}

// Whether bytes are visible ASCII, spaces and tabs alone.
fn is_visible(bytes: &[u8]) -> bool
    ensures { result ≡ is_visible_text bytes.now }
{
    bytes.iter().all(|byte| is_visible_or_blank(*byte))
}

// The place of the first `;`.
fn semicolon_in(value: &[u8]) -> Option<usize>
    ensures { result ≡ position (λ b. b == 59) value.now }
{
    value.iter().position(|byte| *byte == b';')
}

// What stands before the first `;`.
#[tactic(auto, using(crate::proofs::Cuts::cut_at, crate::proofs::Cuts::uncut, crate::proofs::Cuts::within))]
fn before_parameters(value: &[u8]) -> &[u8]
    ensures { result.now ≡ before_first (λ b. b == 59) value.now }
{
    match semicolon_in(value) {
        Some(end) => &value[..end],
        None => value,
    }
}

// The essence of a media type.
fn essence(value: &[u8]) -> &[u8]
    requires { is_visible_text value.now ≡ true }
    ensures { result.now ≡ spec.essence value.now }
{
    before_parameters(value).trim_ascii()
}

/// Whether a header's value is visible ASCII, spaces and tabs alone, and what stands before its
/// first `;`, without spaces and tabs around it, is the expected media type in upper or lower case (RFC
/// 9110 section 8.3.1).
pub fn content_type_has_essence(value: &HeaderValue, expected: &str) -> bool
    ensures essence { result ≡ spec.has_essence value.now.bytes expected.now }
{
    let bytes = value.as_bytes();
    if !is_visible(bytes) {
        return false;
    }
    essence(bytes).eq_ignore_ascii_case(expected.as_bytes())
}

/// Refuses exactly where a `content-type` is there, and the first one hasn't the expected essence.
pub fn check_content_type(headers: &HeaderMap, expected: &str) -> Result<(), UnexpectedType>
    ensures accepts { let found = spec.content_type_in headers.now in
        IsOk result ↔ IsTrue (spec.may_be found expected.now) }
{
    match headers.get(CONTENT_TYPE) {
        None => Ok(()),
        Some(value) => {
            if content_type_has_essence(value, expected) {
                Ok(())
            } else {
                Err(UnexpectedType)
            }
        }
    }
}

// How many bytes of a header's value there is room for at once. Many tokens have fewer.
const ROOM: usize = 64;

// The text `Bearer`, a space and the token.
fn bearer_text(alloc: Global, token: &str) -> Result<String, AllocError>
    ensures { IfOk result (λ text. string_bytes text ≡ spec.bearer_of token.now) }
{
    let mut text = String::with_capacity(alloc, ROOM)?;
    text.push_str(BEARER)?;
    text.push_str(" ")?;
    text.push_str(token)?;
    Ok(text)
}

// The header's value that is this text.
fn value_of(text: String) -> Result<HeaderValue, AllocError>
    requires { IsFieldValue (string_bytes text) }
    ensures { IfOk result (λ value. value ≡ plain_value (string_bytes text)) }
{
    match HeaderValue::from_string(text) {
        Ok(value) => Ok(value),
        Err(HeaderValueError::OutOfMemory) => Err(AllocError),
        Err(HeaderValueError::Invalid) => unreachable!(),
    }
}

/// The header that sends an access token: `authorization` with `Bearer`, one space and the token.
/// `Value` exactly where the token has a byte outside 0x09 and 0x20 to 0x7E.
pub fn auth_bearer(
    alloc: Global,
    token: &AccessToken,
) -> Result<(HeaderName, HeaderValue), BearerError>
    ensures name { IfOk result (λ header. header.0 ≡ codes "authorization") }
    ensures value { IfOk result (λ header. header.1 ≡ plain_value (spec.bearer_of token.now)) }
    ensures refused { IsErrOf result BearerError.Value ↔ (is_visible_text token.now ≡ false) }
{
    if !is_visible(token.secret().as_bytes()) {
        return Err(BearerError::Value);
    }
    let text = bearer_text(alloc, token.secret())?;
    let value = value_of(text)?;
    Ok((AUTHORIZATION, value))
}
