//! What code that is generic over algorithms knows of them.

ghost use Rattle.std.specs.Prelude.{◌≡◌, Bool, Option};

use crate::vocabulary::ClosedVocabulary;

/// Algorithms that sign (RFC 7518 section 3.1).
pub trait JwsSigningAlgorithm: ClosedVocabulary {
    /// Types of the keys that they take.
    type KeyType: ClosedVocabulary;

    /// The type of an algorithm's keys.
    ghost key_type: { Self → Option Self.KeyType };

    /// Whether an algorithm's key is a secret that both sides have.
    ghost uses_shared_secret: { Self → Bool };

    /// The one algorithm that a client takes where nothing else is said.
    ghost rsa_sha_256: { Self };

    /// The type of this algorithm's keys. `None` where it takes no key.
    fn key_type(&self) -> Option<Self::KeyType>
        ensures key_type { result ≡ key_type self.now };

    /// Whether this algorithm's key is a secret that both sides have.
    fn uses_shared_secret(&self) -> bool
        ensures shared { result ≡ uses_shared_secret self.now };

    /// RS256, the algorithm of ID tokens where nothing else is said (OpenID Connect Core 1.0
    /// section 3.1.3.7).
    fn rsa_sha_256() -> Self
        ensures fixed { result ≡ rsa_sha_256 };
}

/// Algorithms that encrypt content (RFC 7518 section 5.1).
pub trait JweContentEncryptionAlgorithm: ClosedVocabulary {
    /// Types of the keys that they take.
    type KeyType: ClosedVocabulary;

    /// The type of an algorithm's keys.
    ghost key_type: { Self → Self.KeyType };

    /// The type of this algorithm's keys.
    fn key_type(&self) -> Self::KeyType
        ensures key_type { result ≡ key_type self.now };
}

/// Algorithms that encrypt or agree on a key (RFC 7518 section 4.1).
pub trait JweKeyManagementAlgorithm: ClosedVocabulary {}
