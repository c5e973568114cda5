//! MACs, signatures and digests.

use case_lines::{Case, CaseError, algorithm, bytes_of, ok, ok_pair, refused_word, signature_word};
use oidc_keys::{CoreJsonWebKey, HashError, HmacAlgorithm, JsonWebKey};
use std::alloc::Global;

// The hash function of an HMAC's text.
fn hmac_algorithm(text: &str) -> Result<HmacAlgorithm, CaseError> {
    match text {
        "HS256" => Ok(HmacAlgorithm::Sha256),
        "HS384" => Ok(HmacAlgorithm::Sha384),
        "HS512" => Ok(HmacAlgorithm::Sha512),
        _ => Err(CaseError::NoCase),
    }
}

/// `hmac`: the MAC of a message.
pub(crate) fn hmac(alloc: Global, case: &Case) -> Result<String, CaseError> {
    case.check(&["alg", "key", "message"])?;
    let alg = hmac_algorithm(case.value("alg"))?;
    let key = bytes_of(alloc, case.value("key"))?;
    let message = bytes_of(alloc, case.value("message"))?;
    let mac = oidc_keys::hmac(alloc, alg, key.as_slice(), message.as_slice())?;
    let mac = hex::encode(alloc, mac.as_slice())?;
    ok_pair(alloc, "mac", mac.as_str())
}

/// `verdict`: what a symmetric key says of a signature.
pub(crate) fn verdict(alloc: Global, case: &Case) -> Result<String, CaseError> {
    case.check(&["key", "alg", "message", "signature"])?;
    let key = CoreJsonWebKey::new_symmetric(bytes_of(alloc, case.value("key"))?);
    let alg = algorithm(case.value("alg"))?;
    let message = bytes_of(alloc, case.value("message"))?;
    let signature = bytes_of(alloc, case.value("signature"))?;
    match key.verify_signature(&alg, message.as_slice(), signature.as_slice()) {
        Ok(()) => ok(alloc),
        Err(refusal) => refused_word(alloc, signature_word(refusal)),
    }
}

/// `digest`: the digest of a text by the hash function that goes with an algorithm.
pub(crate) fn digest(alloc: Global, case: &Case) -> Result<String, CaseError> {
    case.check(&["alg", "text"])?;
    let alg = algorithm(case.value("alg"))?;
    let key = CoreJsonWebKey::new_symmetric(Vec::new(alloc));
    match key.hash_bytes(alloc, case.value("text").as_bytes(), &alg) {
        Ok(digest) => {
            let digest = hex::encode(alloc, digest.as_slice())?;
            ok_pair(alloc, "digest", digest.as_str())
        }
        Err(HashError::Unsupported) => refused_word(alloc, "unsupported"),
        Err(HashError::Memory) => Err(CaseError::Memory),
    }
}
