//! Why something was not signed or hashed.

use oidc_members::FieldName;

/// Why something was not signed or hashed.
#[derive(Debug, Drop, PartialEq, Eq, thiserror::Error)]
pub enum SigningError {
    /// The key does not sign so.
    #[error("crypto error")]
    CryptoError,
    /// There is no such algorithm, or none for this key; here is its text.
    #[error("unsupported signature algorithm: {0}")]
    UnsupportedAlg(FieldName),
    /// Another cause, in the key's words.
    #[error("other error: {0}")]
    Other(FieldName),
    /// There was no memory.
    #[error("out of memory")]
    Memory,
}
