//! The lines that answer cases.

use crate::case::CaseError;
use crate::words::kind_word;
use oidc_members::{OutMember, ParseError, Refusal, write_object};
use oidc_pairs::FormText;
use std::alloc::{AllocError, Global};

/// A word, and behind a space the form text of these pairs, where there are some.
fn line(alloc: Global, word: &str, form: &str) -> Result<String, AllocError> {
    let mut text = String::from_str(alloc, word)?;
    if !form.is_empty() {
        text.push(' ')?;
        text.push_str(form)?;
    }
    Ok(text)
}

/// `ok`.
pub fn ok(alloc: Global) -> Result<String, CaseError> {
    Ok(line(alloc, "ok", "")?)
}

/// `ok` and a pair.
pub fn ok_pair(alloc: Global, name: &str, value: &str) -> Result<String, CaseError> {
    let mut form = FormText::new(alloc);
    form.push(name, value)?;
    ok_form(alloc, form)
}

/// `ok` and the pairs of a form text.
pub fn ok_form(alloc: Global, form: FormText) -> Result<String, CaseError> {
    Ok(line(alloc, "ok", form.into_string().as_str())?)
}

/// `refused`.
pub fn refused(alloc: Global) -> Result<String, CaseError> {
    Ok(line(alloc, "refused", "")?)
}

/// `refused` and a word.
pub fn refused_word(alloc: Global, word: &str) -> Result<String, CaseError> {
    Ok(line(alloc, "refused", word)?)
}

/// `refused`, the pairs of a form text, and the kind and the field of a refusal.
pub fn refused_as(
    alloc: Global,
    mut form: FormText,
    refusal: &Refusal,
) -> Result<String, CaseError> {
    form.push("kind", kind_word(refusal.kind))?;
    form.push("field", refusal.field.as_str())?;
    Ok(line(alloc, "refused", form.into_string().as_str())?)
}

/// Why a text doesn't read: `refused`, and the kind and the field.
pub fn refused_reading(alloc: Global, error: &ParseError) -> Result<String, CaseError> {
    match error {
        ParseError::Refused(refusal) => refused_as(alloc, FormText::new(alloc), refusal),
        ParseError::Memory => Err(CaseError::Memory),
    }
}

/// Adds a pair, where there is a value.
pub fn push_some(form: &mut FormText, name: &str, value: Option<&str>) -> Result<(), AllocError> {
    match value {
        Some(value) => form.push(name, value),
        None => Ok(()),
    }
}

/// Bytes that are UTF-8, as text.
pub fn text_of(bytes: Vec<u8>) -> Result<String, CaseError> {
    String::from_utf8(bytes).map_err(|_| CaseError::NoCase)
}

/// The text of the object that has these members.
pub fn object(alloc: Global, members: &[OutMember]) -> Result<String, CaseError> {
    text_of(write_object(alloc, members)?)
}
