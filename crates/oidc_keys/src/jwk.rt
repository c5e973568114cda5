//! Keys that check signatures and keys that make them, by their meanings and laws.
ghost use Rattle.std.specs.Prelude.{◌≡◌, ◌≢◌, List, ℕ, Bool, Option, Some, None, Err, IfOk};
ghost use Rattle.std.specs.Option.{option_copied};
ghost use Rattle.oidc_keys.specs.declared.refusals.SignatureVerificationError.TheVariants.{Memory};
ghost use Rattle.oidc_keys.specs.Jwk.{Verdict, GivesVerdict, digest_by};

use crate::refusals::{HashError, SignatureVerificationError};
use oidc_types::{JsonWebKeyId, JwsSigningAlgorithm, SigningError};
use std::alloc::{AllocError, Global};

/// What a key is for (the member `use` of RFC 7517 section 4.2).
pub trait JsonWebKeyUse {
    // Whether the key may check signatures.
    ghost allows_signature: { Self → Bool };

    // Whether the key may encrypt.
    ghost allows_encryption: { Self → Bool };

    /// Whether the key may check signatures.
    fn allows_signature(&self) -> bool
        ensures signature { result ≡ allows_signature self.now };

    /// Whether the key may encrypt.
    fn allows_encryption(&self) -> bool
        ensures encryption { result ≡ allows_encryption self.now };
}

/// A key that checks signatures (RFC 7517).
///
/// It may be let go, so that code which is generic over keys can make one of a secret and drop it.
pub trait JsonWebKey: Drop {
    /// What keys may be for.
    type KeyUse: JsonWebKeyUse;

    /// The algorithms of signatures.
    type SigningAlgorithm: JwsSigningAlgorithm;

    // The key's id, where it has one.
    ghost key_id: { Self → Option (List ℕ) };

    // The type of key.
    ghost key_type: { Self → Self.SigningAlgorithm.KeyType };

    // What the key is for, where it says so.
    ghost key_use: { Self → Option Self.KeyUse };

    // What the key says of an algorithm, a message and a signature: that it is one, or a refusal.
    ghost verdict: { Self → Self.SigningAlgorithm → List ℕ → List ℕ → Verdict };

    // The hash function that goes with an algorithm, where the key has one.
    ghost hash_of: { Self → Self.SigningAlgorithm → Option (List ℕ → List ℕ) };

    // The symmetric key of these bytes.
    ghost symmetric_of: { List ℕ → Self };

    /// The key's id, where it has one (`kid`, RFC 7517 section 4.5).
    fn key_id(&self) -> Option<&JsonWebKeyId>
        ensures id { option_copied result ≡ key_id self.now };

    /// The type of key (`kty`, RFC 7517 section 4.1).
    fn key_type(&self) -> <Self::SigningAlgorithm as JwsSigningAlgorithm>::KeyType
        ensures kind { result ≡ key_type self.now };

    /// What the key is for, where it says so (`use`, RFC 7517 section 4.2).
    fn key_use(&self) -> Option<&Self::KeyUse>
        ensures purpose { option_copied result ≡ key_use self.now };

    /// The symmetric key of these bytes.
    fn new_symmetric(key: Vec<u8>) -> Self
        ensures key { result ≡ symmetric_of key.items };

    /// Whether `signature` is one of `message` under this key by `alg`. The answer is the key's
    /// verdict, or `Memory`.
    fn verify_signature(
        &self,
        alg: &Self::SigningAlgorithm,
        message: &[u8],
        signature: &[u8],
    ) -> Result<(), SignatureVerificationError>
        ensures verdict { GivesVerdict
            (verdict self.now alg.now message.now signature.now) result };

    /// The digest of `bytes` by the hash function that goes with `alg`. It is refused as
    /// `Unsupported` exactly where the key has none, or as `Memory`.
    fn hash_bytes(
        &self,
        alloc: Global,
        bytes: &[u8],
        alg: &Self::SigningAlgorithm,
    ) -> Result<Vec<u8>, HashError>
        ensures digest { IfOk result (λ digest.
            digest_by (hash_of self.now alg.now) bytes.now ≡ Some digest.items) }
        ensures unsupported { result ≡ Err HashError.Unsupported
            → hash_of self.now alg.now ≡ None };

    // A verdict is never want of memory.
    ghost verdict_is_never_memory: { (key : Self) (alg : Self.SigningAlgorithm)
        (message signature : List ℕ)
        → verdict key alg message signature ≢ Err Memory };
}

/// A key that makes signatures, whose verification key checks them.
pub trait PrivateSigningKey {
    ghost use Rattle.std.specs.Prelude.{◌≡◌, List, ℕ, Result, IfOk, IfErr};
    ghost use Rattle.oidc_types.specs.declared.signing_error.SigningError.{SigningError};
    ghost use Rattle.oidc_keys.specs.Jwk.{GivesRefusal};
    ghost use Rattle.oidc_keys.specs.Signing.{SignsTruly, NeverMemory};

    /// The keys that check what these sign.
    type VerificationKey: JsonWebKey;

    // The key that checks what this one signs.
    ghost verification_key: { Self → Self.VerificationKey };

    // The signature of a message by an algorithm, or a refusal other than want of memory.
    ghost signs: { Self → Self.VerificationKey.SigningAlgorithm → List ℕ
        → Result (List ℕ) SigningError };

    /// The signature of `message` by `alg`. The answer is what the key signs, or `Memory`.
    fn sign(
        &self,
        alloc: Global,
        alg: &<Self::VerificationKey as JsonWebKey>::SigningAlgorithm,
        message: &[u8],
    ) -> Result<Vec<u8>, SigningError>
        ensures signature { IfOk result (λ made.
            signs self.now alg.now message.now ≡ Ok made.items) }
        ensures refusal { IfErr result (λ refusal.
            GivesRefusal (signs self.now alg.now message.now) refusal) };

    /// The key that checks what this one signs. The only refusal is want of memory.
    fn as_verification_key(&self, alloc: Global) -> Result<Self::VerificationKey, AllocError>
        ensures key { IfOk result (λ key. key ≡ verification_key self.now) };

    // What is signed is verified under the verification key.
    ghost signs_truly: { SignsTruly Self.VerificationKey.JsonWebKey verification_key signs };

    // No refusal of `signs` is want of memory.
    ghost refusal_is_never_memory: { NeverMemory signs };
}
