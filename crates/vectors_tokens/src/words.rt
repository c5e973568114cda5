//! The words of refusals of claims, as a report has them.

use case_lines::signature_word;
use oidc_tokens::ClaimsVerificationError;

/// The word of why claims aren't accepted.
pub(crate) fn claims_word(kind: ClaimsVerificationError) -> &'static str {
    match kind {
        ClaimsVerificationError::Unsupported => "unsupported",
        ClaimsVerificationError::InvalidIssuer => "invalid_issuer",
        ClaimsVerificationError::InvalidAudience => "invalid_audience",
        ClaimsVerificationError::SignatureVerification(kind) => signature_word(kind),
        ClaimsVerificationError::Expired => "expired",
        ClaimsVerificationError::InvalidNonce => "invalid_nonce",
        ClaimsVerificationError::InvalidSubject => "invalid_subject",
        ClaimsVerificationError::Memory => "memory",
    }
}
