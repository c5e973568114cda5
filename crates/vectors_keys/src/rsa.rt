//! RSA signatures.

use case_lines::{Case, CaseError, bytes_of, ok, refused_word};
use oidc_rsa::{RsaAlgorithm, RsaKeyError, RsaPublicKey, RsaSignatureError};
use std::alloc::Global;

fn algorithm(text: &str) -> Result<RsaAlgorithm, CaseError> {
    match text {
        "RS256" => Ok(RsaAlgorithm::Rs256),
        "RS384" => Ok(RsaAlgorithm::Rs384),
        "RS512" => Ok(RsaAlgorithm::Rs512),
        "PS256" => Ok(RsaAlgorithm::Ps256),
        "PS384" => Ok(RsaAlgorithm::Ps384),
        "PS512" => Ok(RsaAlgorithm::Ps512),
        _ => Err(CaseError::NoCase),
    }
}

/// `rsa`: what the key of a modulus and an exponent says of a signature.
pub(crate) fn rsa(alloc: Global, case: &Case) -> Result<String, CaseError> {
    case.check(&["n", "e", "alg", "message", "signature"])?;
    let modulus = bytes_of(alloc, case.value("n"))?;
    let exponent = bytes_of(alloc, case.value("e"))?;
    let alg = algorithm(case.value("alg"))?;
    let message = bytes_of(alloc, case.value("message"))?;
    let signature = bytes_of(alloc, case.value("signature"))?;
    match RsaPublicKey::new(alloc, modulus.as_slice(), exponent.as_slice()) {
        Ok(key) => match key.verify(alg, message.as_slice(), signature.as_slice()) {
            Ok(()) => ok(alloc),
            Err(RsaSignatureError::CryptoError) => refused_word(alloc, "crypto_error"),
        },
        Err(RsaKeyError::Modulus) => refused_word(alloc, "modulus"),
        Err(RsaKeyError::Exponent) => refused_word(alloc, "exponent"),
        Err(RsaKeyError::Memory) => Err(CaseError::Memory),
    }
}
