//! Header fields.

use crate::case::CaseError;
use http_header::{HeaderValue, HeaderValueError};
use std::alloc::Global;

/// The header's value that these bytes are.
pub fn header_of(bytes: Vec<u8>) -> Result<HeaderValue, CaseError> {
    match HeaderValue::from_vec(bytes) {
        Ok(value) => Ok(value),
        Err(HeaderValueError::OutOfMemory) => Err(CaseError::Memory),
        Err(HeaderValueError::Invalid) => Err(CaseError::NoCase),
    }
}

/// The text of a header's value.
pub fn header_text(value: &HeaderValue) -> Result<&str, CaseError> {
    value.to_str().map_err(|_| CaseError::NoCase)
}

/// The content type of a text.
pub fn content_type(alloc: Global, text: &str) -> Result<HeaderValue, CaseError> {
    let value = header_of(Vec::from_slice(alloc, text.as_bytes())?)?;
    let _ = header_text(&value)?;
    Ok(value)
}
