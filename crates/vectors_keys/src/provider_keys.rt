//! Keys of a provider's set.

use case_lines::{
    Case, CaseError, algorithm, bytes_of, ok, ok_form, ok_pair, push_some, refused_word,
    signature_word,
};
use oidc_keys::{CoreJsonWebKeyUse, HashError, JsonWebKey};
use oidc_members::FieldName;
use oidc_pairs::FormText;
use oidc_rsa::{KeyOperation, ProviderKey, RsaKeyError, RsaPublicKey};
use oidc_types::{ClosedVocabulary, JsonWebKeyId};
use std::alloc::Global;

// The names that say what a key is made of, and what it says of itself.
const KEY_NAMES: [&str; 7] = ["n", "e", "secret", "kid", "use", "key_ops", "own_alg"];

// ---- keys of a line

fn rsa_key(alloc: Global, modulus: &str, exponent: &str) -> Result<ProviderKey, CaseError> {
    let modulus = bytes_of(alloc, modulus)?;
    let exponent = bytes_of(alloc, exponent)?;
    match RsaPublicKey::new(alloc, modulus.as_slice(), exponent.as_slice()) {
        Ok(key) => Ok(ProviderKey::new_rsa(key)),
        Err(RsaKeyError::Memory) => Err(CaseError::Memory),
        Err(_) => Err(CaseError::NoCase),
    }
}

// What a key is made of: a modulus and an exponent, or a secret.
fn bare_key(alloc: Global, case: &Case) -> Result<ProviderKey, CaseError> {
    match (
        case.optional("n"),
        case.optional("e"),
        case.optional("secret"),
    ) {
        (Some(modulus), Some(exponent), None) => rsa_key(alloc, modulus, exponent),
        (None, None, Some(secret)) => Ok(ProviderKey::new_symmetric(bytes_of(alloc, secret)?)),
        _ => Err(CaseError::NoCase),
    }
}

fn with_kid(alloc: Global, key: ProviderKey, case: &Case) -> Result<ProviderKey, CaseError> {
    match case.optional("kid") {
        Some(id) => Ok(key.with_key_id(JsonWebKeyId::new(String::from_str(alloc, id)?))),
        None => Ok(key),
    }
}

fn use_of(alloc: Global, text: &str) -> Result<CoreJsonWebKeyUse, CaseError> {
    match text {
        "sig" => Ok(CoreJsonWebKeyUse::Signature),
        "enc" => Ok(CoreJsonWebKeyUse::Encryption),
        other => Ok(CoreJsonWebKeyUse::Other(FieldName::new(String::from_str(alloc, other)?))),
    }
}

fn with_use(alloc: Global, key: ProviderKey, case: &Case) -> Result<ProviderKey, CaseError> {
    match case.optional("use") {
        Some(text) => Ok(key.with_key_use(use_of(alloc, text)?)),
        None => Ok(key),
    }
}

fn operation_of(text: &str) -> Result<KeyOperation, CaseError> {
    match text {
        "sign" => Ok(KeyOperation::Sign),
        "verify" => Ok(KeyOperation::Verify),
        "encrypt" => Ok(KeyOperation::Encrypt),
        "decrypt" => Ok(KeyOperation::Decrypt),
        "wrapKey" => Ok(KeyOperation::WrapKey),
        "unwrapKey" => Ok(KeyOperation::UnwrapKey),
        "deriveKey" => Ok(KeyOperation::DeriveKey),
        "deriveBits" => Ok(KeyOperation::DeriveBits),
        _ => Err(CaseError::NoCase),
    }
}

// The operations of a list, with a space between each two, or of an empty text.
fn operations_of(alloc: Global, text: &str) -> Result<Vec<KeyOperation>, CaseError> {
    let mut operations = Vec::new(alloc);
    if text.is_empty() {
        return Ok(operations);
    }
    for word in text.split(' ') {
        operations.push(operation_of(word)?)?;
    }
    Ok(operations)
}

fn with_operations(alloc: Global, key: ProviderKey, case: &Case) -> Result<ProviderKey, CaseError> {
    match case.optional("key_ops") {
        Some(text) => Ok(key.with_operations(operations_of(alloc, text)?)),
        None => Ok(key),
    }
}

fn with_own_alg(key: ProviderKey, case: &Case) -> Result<ProviderKey, CaseError> {
    match case.optional("own_alg") {
        Some(text) => Ok(key.with_algorithm(algorithm(text)?)),
        None => Ok(key),
    }
}

// The key that a line gives.
fn key_in(alloc: Global, case: &Case) -> Result<ProviderKey, CaseError> {
    let key = bare_key(alloc, case)?;
    let key = with_kid(alloc, key, case)?;
    let key = with_use(alloc, key, case)?;
    let key = with_operations(alloc, key, case)?;
    with_own_alg(key, case)
}

// ---- what is asked

/// `provider_verdict`: what the key of a line says of a signature.
pub(crate) fn provider_verdict(alloc: Global, case: &Case) -> Result<String, CaseError> {
    case.check_with(&["alg", "message", "signature"], &KEY_NAMES)?;
    let alg = algorithm(case.value("alg"))?;
    let message = bytes_of(alloc, case.value("message"))?;
    let signature = bytes_of(alloc, case.value("signature"))?;
    let key = key_in(alloc, case)?;
    match key.verify_signature(&alg, message.as_slice(), signature.as_slice()) {
        Ok(()) => ok(alloc),
        Err(refusal) => refused_word(alloc, signature_word(refusal)),
    }
}

fn use_text(purpose: &CoreJsonWebKeyUse) -> &str {
    match purpose {
        CoreJsonWebKeyUse::Signature => "sig",
        CoreJsonWebKeyUse::Encryption => "enc",
        CoreJsonWebKeyUse::Other(name) => name.as_str(),
    }
}

/// `provider_key`: what the key of a line is to a verifier, and what it prints.
pub(crate) fn provider_key(alloc: Global, case: &Case) -> Result<String, CaseError> {
    case.check_with(&[], &KEY_NAMES)?;
    let key = key_in(alloc, case)?;
    let shown = format!(in alloc; "{key:?}")?;
    let mut form = FormText::new(alloc);
    form.push("kty", key.key_type().as_ref())?;
    push_some(&mut form, "kid", key.key_id().map(|id| id.as_str()))?;
    push_some(
        &mut form,
        "use",
        key.key_use().map(|purpose| use_text(purpose)),
    )?;
    form.push("debug", shown.as_str())?;
    ok_form(alloc, form)
}

/// `provider_digest`: the digest of a text by the hash function that goes with an algorithm.
pub(crate) fn provider_digest(alloc: Global, case: &Case) -> Result<String, CaseError> {
    case.check_with(&["alg", "text"], &KEY_NAMES)?;
    let alg = algorithm(case.value("alg"))?;
    let key = key_in(alloc, case)?;
    match key.hash_bytes(alloc, case.value("text").as_bytes(), &alg) {
        Ok(digest) => {
            let digest = hex::encode(alloc, digest.as_slice())?;
            ok_pair(alloc, "digest", digest.as_str())
        }
        Err(HashError::Unsupported) => refused_word(alloc, "unsupported"),
        Err(HashError::Memory) => Err(CaseError::Memory),
    }
}
