//! The words of refusals, as a report has them.

use oidc_keys::SignatureVerificationError;
use oidc_members::ParseKind;

/// The word of what a text was refused for.
pub fn kind_word(kind: ParseKind) -> &'static str {
    match kind {
        ParseKind::Syntax => "syntax",
        ParseKind::Number => "number",
        ParseKind::Duplicate => "duplicate",
        ParseKind::UnexpectedTag => "tag",
        ParseKind::WrongType => "type",
        ParseKind::Missing => "missing",
        ParseKind::Url => "url",
        ParseKind::Moment => "moment",
        ParseKind::Token => "token",
        ParseKind::Algorithm => "algorithm",
        ParseKind::Additional => "additional",
    }
}

/// The word of why a signature isn't accepted.
pub fn signature_word(kind: SignatureVerificationError) -> &'static str {
    match kind {
        SignatureVerificationError::AmbiguousKeyId => "ambiguous_key",
        SignatureVerificationError::CryptoError => "crypto_error",
        SignatureVerificationError::DisallowedAlg => "disallowed_alg",
        SignatureVerificationError::InvalidKey => "invalid_key",
        SignatureVerificationError::NoMatchingKey => "no_matching_key",
        SignatureVerificationError::NoSignature => "no_signature",
        SignatureVerificationError::UnsupportedAlg => "unsupported_alg",
        SignatureVerificationError::Memory => "memory",
    }
}
