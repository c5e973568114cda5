//! The words of vocabularies.

use case_lines::{Case, CaseError, ok_form, variant_name};
use oidc_oauth2::{
    CoreErrorResponseType, CoreTokenType, DeviceCodeErrorResponseType, RevocationErrorResponseType,
    TokenType,
};
use oidc_pairs::FormText;
use oidc_types::{
    ClosedVocabulary, CoreApplicationType, CoreAuthDisplay, CoreAuthErrorResponseType,
    CoreAuthPrompt, CoreClaimType, CoreClientAuthMethod, CoreGrantType, CoreJsonWebKeyType,
    CoreJweContentEncryptionAlgorithm, CoreJweKeyManagementAlgorithm, CoreJwsSigningAlgorithm,
    CoreRegisterErrorResponseType, CoreResponseMode, CoreResponseType, CoreSubjectIdentifierType,
    Vocabulary,
};
use std::alloc::Global;
use std::fmt;

/// `word`: the word of a text.
pub(crate) fn word(alloc: Global, case: &Case) -> Result<String, CaseError> {
    case.check(&["type", "text"])?;
    let text = case.value("text");
    match case.value("type") {
        "CoreApplicationType" => open_word::<CoreApplicationType>(alloc, text),
        "CoreAuthDisplay" => open_word::<CoreAuthDisplay>(alloc, text),
        "CoreAuthErrorResponseType" => open_word::<CoreAuthErrorResponseType>(alloc, text),
        "CoreAuthPrompt" => open_word::<CoreAuthPrompt>(alloc, text),
        "CoreClaimType" => open_word::<CoreClaimType>(alloc, text),
        "CoreClientAuthMethod" => open_word::<CoreClientAuthMethod>(alloc, text),
        "CoreGrantType" => open_word::<CoreGrantType>(alloc, text),
        "CoreRegisterErrorResponseType" => open_word::<CoreRegisterErrorResponseType>(alloc, text),
        "CoreResponseMode" => open_word::<CoreResponseMode>(alloc, text),
        "CoreResponseType" => open_word::<CoreResponseType>(alloc, text),
        "CoreSubjectIdentifierType" => open_word::<CoreSubjectIdentifierType>(alloc, text),
        kind => error_kind(alloc, kind, text),
    }
}

fn error_kind(alloc: Global, kind: &str, text: &str) -> Result<String, CaseError> {
    match kind {
        "CoreErrorResponseType" => open_word::<CoreErrorResponseType>(alloc, text),
        "DeviceCodeErrorResponseType" => open_word::<DeviceCodeErrorResponseType>(alloc, text),
        "RevocationErrorResponseType" => open_word::<RevocationErrorResponseType>(alloc, text),
        kind => closed_kind(alloc, kind, text),
    }
}

fn closed_kind(alloc: Global, kind: &str, text: &str) -> Result<String, CaseError> {
    match kind {
        "CoreJsonWebKeyType" => closed_word::<CoreJsonWebKeyType>(alloc, text),
        "CoreJweContentEncryptionAlgorithm" => {
            closed_word::<CoreJweContentEncryptionAlgorithm>(alloc, text)
        }
        "CoreJweKeyManagementAlgorithm" => {
            closed_word::<CoreJweKeyManagementAlgorithm>(alloc, text)
        }
        "CoreJwsSigningAlgorithm" => closed_word::<CoreJwsSigningAlgorithm>(alloc, text),
        _ => Err(CaseError::NoCase),
    }
}

fn open_word<V: Vocabulary + fmt::Debug>(alloc: Global, text: &str) -> Result<String, CaseError> {
    let word = V::from_str(String::from_str(alloc, text)?);
    named(alloc, &word, word.as_ref())
}

fn closed_word<V: ClosedVocabulary + fmt::Debug>(
    alloc: Global,
    text: &str,
) -> Result<String, CaseError> {
    match V::from_str(text) {
        Some(word) => named(alloc, &word, word.as_ref()),
        None => Ok(String::from_str(alloc, "none")?),
    }
}

/// `token_type`: the type of tokens of a text.
pub(crate) fn token_type(alloc: Global, case: &Case) -> Result<String, CaseError> {
    case.check(&["text"])?;
    let kind = CoreTokenType::read(alloc, case.value("text"))?;
    named(alloc, &kind, kind.as_ref())
}

// The name of a word's variant, and its text.
fn named<V: fmt::Debug>(alloc: Global, word: &V, text: &str) -> Result<String, CaseError> {
    let shown = format!(in alloc; "{word:?}")?;
    let variant = variant_name(shown.as_str());
    let mut form = FormText::new(alloc);
    form.push("variant", variant)?;
    form.push("text", text)?;
    ok_form(alloc, form)
}
