//! What checking a signature and hashing refuse.

/// Why a signature isn't accepted.
#[derive(Clone, Copy, Debug, PartialEq, Eq, thiserror::Error)]
pub enum SignatureVerificationError {
    /// Several keys of a set fit the token's header.
    #[error("ambiguous key identification")]
    AmbiguousKeyId,
    /// The signature isn't one of that message under that key.
    #[error("crypto error")]
    CryptoError,
    /// The algorithm isn't in the list of those that are allowed.
    #[error("disallowed signature algorithm")]
    DisallowedAlg,
    /// The key is of another type than the algorithm asks for, or its own use, operations or algorithm
    /// allow no such check (RFC 7517 sections 4.2 to 4.4).
    #[error("invalid cryptographic key")]
    InvalidKey,
    /// No key of a set fits the token's header.
    #[error("no matching key found")]
    NoMatchingKey,
    /// The token is not signed.
    #[error("no signature found")]
    NoSignature,
    /// The algorithm signs nothing that this key can check.
    #[error("unsupported signature algorithm")]
    UnsupportedAlg,
    /// There was no memory.
    #[error("out of memory")]
    Memory,
}

/// Why there is no hash.
#[derive(Clone, Copy, Debug, PartialEq, Eq, thiserror::Error)]
pub enum HashError {
    /// The key has no hash function for that algorithm.
    #[error("unsupported hash algorithm")]
    Unsupported,
    /// There was no memory.
    #[error("out of memory")]
    Memory,
}
