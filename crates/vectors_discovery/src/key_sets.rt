//! Key sets, read, written, and as the keys that check signatures.

use case_lines::{Case, CaseError, ok_form, ok_pair, refused_word, text_of};
use hex::encode;
use oidc_key_sets::{
    KeyError, KeyMember, KeySetError, PublishedKeySet, RsaJsonWebKey, SigningKeyError,
};
use oidc_keys::{CoreJsonWebKeyUse, JsonWebKey, JsonWebKeySet};
use oidc_pairs::FormText;
use oidc_rsa::ProviderKey;
use std::alloc::{AllocError, Global};

// A refusal of a kind, at a field.
pub(crate) fn refused_at(alloc: Global, kind: &str, field: &str) -> Result<String, CaseError> {
    let mut form = FormText::new(alloc);
    form.push("kind", kind)?;
    form.push("field", field)?;
    refused_word(alloc, form.into_string().as_str())
}

fn refused_member(alloc: Global, kind: &str, member: KeyMember) -> Result<String, CaseError> {
    refused_at(alloc, kind, member.name())
}

fn refused_key(alloc: Global, error: KeyError) -> Result<String, CaseError> {
    match error {
        KeyError::NoObject => refused_at(alloc, "type", "keys"),
        KeyError::Missing(member) => refused_member(alloc, "missing", member),
        KeyError::WrongType(member) => refused_member(alloc, "type", member),
        KeyError::Number(member) => refused_member(alloc, "integer", member),
        KeyError::Private(member) => refused_member(alloc, "private", member),
        KeyError::Symmetric => refused_word(alloc, "symmetric"),
    }
}

// Why a set isn't read.
pub(crate) fn refused_set(alloc: Global, error: KeySetError) -> Result<String, CaseError> {
    match error {
        KeySetError::NoJson | KeySetError::NoObject => refused_at(alloc, "syntax", ""),
        KeySetError::DoubledName => refused_at(alloc, "duplicate", ""),
        KeySetError::NoKeys => refused_at(alloc, "missing", "keys"),
        KeySetError::NoArray => refused_at(alloc, "type", "keys"),
        KeySetError::TooMany => refused_word(alloc, "too_many"),
        KeySetError::Key { place: _, error } => refused_key(alloc, error),
        KeySetError::Memory => Err(CaseError::Memory),
    }
}

// Appends a text, where there is one, behind a colon.
fn push_part(line: &mut String, part: Option<&str>) -> Result<(), AllocError> {
    line.push(':')?;
    match part {
        Some(part) => line.push_str(part),
        None => Ok(()),
    }
}

fn key_line(alloc: Global, key: &RsaJsonWebKey) -> Result<String, AllocError> {
    let mut line = String::from_str(alloc, "RSA")?;
    push_part(&mut line, key.purpose())?;
    push_part(&mut line, key.id())?;
    push_part(&mut line, key.algorithm())?;
    push_part(&mut line, Some(encode(alloc, key.modulus())?.as_str()))?;
    push_part(&mut line, Some(encode(alloc, key.exponent())?.as_str()))?;
    Ok(line)
}

// The keys of a set.
pub(crate) fn keys_line(alloc: Global, set: &PublishedKeySet) -> Result<String, CaseError> {
    let mut form = FormText::new(alloc);
    for key in set.keys() {
        form.push("key", key_line(alloc, key)?.as_str())?;
    }
    ok_form(alloc, form)
}

/// `key_set`: the keys of a set that are kept.
pub(crate) fn key_set(alloc: Global, case: &Case) -> Result<String, CaseError> {
    case.check(&["text"])?;
    match PublishedKeySet::read(alloc, case.value("text").as_bytes()) {
        Ok(set) => keys_line(alloc, &set),
        Err(error) => refused_set(alloc, error),
    }
}

// What a key is for.
fn use_text(key: &ProviderKey) -> Option<&str> {
    match key.key_use() {
        Some(CoreJsonWebKeyUse::Signature) => Some("sig"),
        Some(CoreJsonWebKeyUse::Encryption) => Some("enc"),
        Some(CoreJsonWebKeyUse::Other(name)) => Some(name.as_str()),
        None => None,
    }
}

fn id_text(key: &ProviderKey) -> Option<&str> {
    match key.key_id() {
        Some(id) => Some(id.as_str()),
        None => None,
    }
}

fn signing_key_line(alloc: Global, key: &ProviderKey) -> Result<String, AllocError> {
    let mut line = String::from_str(alloc, "RSA")?;
    push_part(&mut line, use_text(key))?;
    push_part(&mut line, id_text(key))?;
    Ok(line)
}

fn refused_signing_key(alloc: Global, error: SigningKeyError) -> Result<String, CaseError> {
    match error {
        SigningKeyError::Modulus(_) => refused_word(alloc, "modulus"),
        SigningKeyError::Exponent(_) => refused_word(alloc, "exponent"),
        SigningKeyError::Memory => Err(CaseError::Memory),
    }
}

fn signing_keys_line(
    alloc: Global,
    keys: &JsonWebKeySet<ProviderKey>,
) -> Result<String, CaseError> {
    let mut form = FormText::new(alloc);
    for key in keys.keys() {
        form.push("key", signing_key_line(alloc, key)?.as_str())?;
    }
    ok_form(alloc, form)
}

fn signing_keys_of(alloc: Global, set: &PublishedKeySet) -> Result<String, CaseError> {
    match set.signing_keys(alloc) {
        Ok(keys) => signing_keys_line(alloc, &keys),
        Err(error) => refused_signing_key(alloc, error),
    }
}

/// `signing_keys`: the keys of a set that check signatures.
pub(crate) fn signing_keys(alloc: Global, case: &Case) -> Result<String, CaseError> {
    case.check(&["text"])?;
    match PublishedKeySet::read(alloc, case.value("text").as_bytes()) {
        Ok(set) => signing_keys_of(alloc, &set),
        Err(error) => refused_set(alloc, error),
    }
}

/// `written_key_set`: the text of a set that was read.
pub(crate) fn written_key_set(alloc: Global, case: &Case) -> Result<String, CaseError> {
    case.check(&["text"])?;
    match PublishedKeySet::read(alloc, case.value("text").as_bytes()) {
        Ok(set) => ok_pair(alloc, "text", text_of(set.write(alloc)?)?.as_str()),
        Err(error) => refused_set(alloc, error),
    }
}
