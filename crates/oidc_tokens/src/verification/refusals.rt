// Why an ID token, or a user info answer that is a token, isn't accepted.

use oidc_keys::SignatureVerificationError;
use thiserror::Error;

/// Why claims aren't accepted: the first check that fails.
#[derive(Clone, Copy, Debug, PartialEq, Eq, Error)]
pub enum ClaimsVerificationError {
    /// The header asks for what is not supported: extensions, a token in the token, another type of
    /// token, or encryption.
    #[error("unsupported token")]
    Unsupported,
    /// The issuer's text isn't the expected one.
    #[error("invalid issuer")]
    InvalidIssuer,
    /// The client isn't in the audience, or somebody else is.
    #[error("invalid audience")]
    InvalidAudience,
    /// The token isn't signed, its algorithm isn't allowed, there is no one key for it, or the key
    /// doesn't verify the signature.
    #[error("invalid signature: {0}")]
    SignatureVerification(SignatureVerificationError),
    /// The moment isn't before the token's expiration.
    #[error("token expired")]
    Expired,
    /// The nonce isn't one that is allowed.
    #[error("invalid nonce")]
    InvalidNonce,
    /// The subject isn't the expected one.
    #[error("invalid subject")]
    InvalidSubject,
    /// There was no memory.
    #[error("out of memory")]
    Memory,
}

/// Want of memory is the outermost error, never one inside another.
impl From<SignatureVerificationError> for ClaimsVerificationError {
    ghost use Rattle.std.specs.Prelude.{◌≡◌};
    ghost use Rattle.oidc_tokens.specs.Verification.{claims_error};

    ghost from_gives = { λ refusal error. error ≡ claims_error refusal };

    fn from(refusal: SignatureVerificationError) -> ClaimsVerificationError {
        match refusal {
            SignatureVerificationError::Memory => ClaimsVerificationError::Memory,
            refusal => ClaimsVerificationError::SignatureVerification(refusal),
        }
    }
}
