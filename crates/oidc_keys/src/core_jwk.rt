//! The program's own keys: symmetric ones, which sign and verify by HMAC.
ghost use Rattle.std.specs.Prelude.{◌≡◌, ◌↔◌, ◌⊎◌, ℕ, List, Option, None, Some, Ok, Err, IfOk, IfErr};
ghost use Rattle.std.specs.Cmp.{nat_eq_equiv};
ghost use Rattle.std.specs.Cmp.Lexicographic.{lists_equiv};
ghost use Rattle.std.proofs.Common.{arith};
ghost use Rattle.oidc_types.specs.declared.core_algorithms.CoreJsonWebKeyType.TheVariants.{Symmetric};
ghost use Rattle.oidc_types.specs.{signing_key_type, signing_text};
ghost use Rattle.oidc_keys.specs.Jwk.{GivesRefusal};
ghost use Rattle.oidc_keys.specs.CoreJwk as spec;
ghost use Rattle.oidc_keys.specs.declared.refusals.SignatureVerificationError.TheVariants as cause;

use crate::jwk::{JsonWebKey, JsonWebKeyUse, PrivateSigningKey};
use crate::mac::{HmacAlgorithm, hmac, is_mac};
use crate::refusals::{HashError, SignatureVerificationError};
use oidc_members::FieldName;
use oidc_types::{
    ClosedVocabulary, CoreJsonWebKeyType, CoreJwsSigningAlgorithm, JsonWebKeyId,
    JwsSigningAlgorithm, SigningError,
};
use sha2::{Digest, Sha256, Sha384, Sha512};
use std::alloc::{AllocError, Global};
use std::marker::Model;

/// What a key is for (RFC 7517 section 4.2).
#[derive(Debug, PartialEq, Eq, Drop)]
pub enum CoreJsonWebKeyUse {
    /// `sig`: the key checks signatures.
    Signature,
    /// `enc`: the key encrypts.
    Encryption,
    /// Any other text, which allows neither.
    Other(FieldName),
}

impl JsonWebKeyUse for CoreJsonWebKeyUse {
    ghost allows_signature = { spec.is_for_signature };

    ghost allows_encryption = { spec.is_for_encryption };

    fn allows_signature(&self) -> bool {
        match self {
            CoreJsonWebKeyUse::Signature => true,
            CoreJsonWebKeyUse::Encryption | CoreJsonWebKeyUse::Other(_) => false,
        }
    }

    fn allows_encryption(&self) -> bool {
        match self {
            CoreJsonWebKeyUse::Encryption => true,
            CoreJsonWebKeyUse::Signature | CoreJsonWebKeyUse::Other(_) => false,
        }
    }
}

/// A symmetric key without a use (`oct`, RFC 7518 section 6.4). It verifies by HMAC.
#[derive(Drop)]
pub struct CoreJsonWebKey {
    secret: Vec<u8>,
    id: Option<JsonWebKeyId>,
}

impl Model for CoreJsonWebKey {
    ghost use Rattle.oidc_keys.specs.CoreJwk.{SymmetricKey};

    ghost Value = { SymmetricKey };

    ghost view = { λ key. record { secret = key.secret.items; id = key.id } };
}

impl CoreJsonWebKey {
    /// This key under the given id.
    pub fn with_key_id(self, id: JsonWebKeyId) -> Self
        ensures named { result ≡ record self { id = Some id } }
    {
        CoreJsonWebKey {
            secret: self.secret,
            id: Some(id),
        }
    }
}

impl JsonWebKey for CoreJsonWebKey {
    type KeyUse = CoreJsonWebKeyUse;

    type SigningAlgorithm = CoreJwsSigningAlgorithm;

    ghost key_id = { λ key. key.id };

    ghost key_type = { λ key. Symmetric };

    ghost key_use = { λ key. None };

    ghost verdict = { λ key. spec.symmetric_verdict key.secret };

    ghost hash_of = { λ key. spec.hash_function };

    ghost symmetric_of = { λ bytes. record { secret = bytes; id = None } };

    fn key_id(&self) -> Option<&JsonWebKeyId> {
        self.id.as_ref()
    }

    fn key_type(&self) -> CoreJsonWebKeyType {
        CoreJsonWebKeyType::Symmetric
    }

    fn key_use(&self) -> Option<&CoreJsonWebKeyUse> {
        None
    }

    fn new_symmetric(key: Vec<u8>) -> Self {
        CoreJsonWebKey {
            secret: key,
            id: None,
        }
    }

    /// Whether `signature` is the whole MAC of `message` under this key. It takes no memory.
    ///
    /// `InvalidKey` where `alg` has a type of key that isn't `Symmetric`, `UnsupportedAlg` where it
    /// has none, and `CryptoError` where the signature isn't the MAC. How long the comparison takes
    /// is promised nowhere.
    fn verify_signature(
        &self,
        alg: &CoreJwsSigningAlgorithm,
        message: &[u8],
        signature: &[u8],
    ) -> Result<(), SignatureVerificationError>
        ensures verdict { result
            ≡ spec.symmetric_verdict self.now.secret alg.now message.now signature.now }

        // What each refusal says.
        ensures invalid_key { (result ≡ Err cause.InvalidKey) ↔ spec.NeedsOtherKey alg.now }
        ensures unsupported_alg { (result ≡ Err cause.UnsupportedAlg)
            ↔ (signing_key_type alg.now ≡ None) }
        ensures crypto_error { (result ≡ Err cause.CryptoError)
            ↔ spec.IsOtherThanMac self.now.secret alg.now message.now signature.now }
        ensures ok { (result ≡ Ok tt)
            ↔ spec.IsMac self.now.secret alg.now message.now signature.now }
    {
        match (hmac_algorithm(*alg), alg.key_type()) {
            (Some(hash), _) => {
                if is_mac(hash, self.secret.as_slice(), message, signature) {
                    Ok(())
                } else {
                    Err(SignatureVerificationError::CryptoError)
                }
            }
            (None, Some(_)) => Err(SignatureVerificationError::InvalidKey),
            (None, None) => Err(SignatureVerificationError::UnsupportedAlg),
        }
    }

    fn hash_bytes(
        &self,
        alloc: Global,
        bytes: &[u8],
        alg: &CoreJwsSigningAlgorithm,
    ) -> Result<Vec<u8>, HashError> {
        let digest = match alg {
            CoreJwsSigningAlgorithm::HmacSha256
            | CoreJwsSigningAlgorithm::RsaSsaPkcs1V15Sha256
            | CoreJwsSigningAlgorithm::RsaSsaPssSha256
            | CoreJwsSigningAlgorithm::EcdsaP256Sha256 => Sha256::digest(bytes).to_vec(alloc),
            CoreJwsSigningAlgorithm::HmacSha384
            | CoreJwsSigningAlgorithm::RsaSsaPkcs1V15Sha384
            | CoreJwsSigningAlgorithm::RsaSsaPssSha384
            | CoreJwsSigningAlgorithm::EcdsaP384Sha384 => Sha384::digest(bytes).to_vec(alloc),
            CoreJwsSigningAlgorithm::HmacSha512
            | CoreJwsSigningAlgorithm::RsaSsaPkcs1V15Sha512
            | CoreJwsSigningAlgorithm::RsaSsaPssSha512
            | CoreJwsSigningAlgorithm::EcdsaP521Sha512 => Sha512::digest(bytes).to_vec(alloc),
            CoreJwsSigningAlgorithm::EdDsa | CoreJwsSigningAlgorithm::None => {
                return Err(HashError::Unsupported);
            }
        };
        match digest {
            Ok(digest) => Ok(digest),
            Err(_) => Err(HashError::Memory),
        }
    }

    ghost verdict_is_never_memory = { λ key algorithm message signature h. Prim.grind (arith) };
}

// The HMAC that an algorithm is, where it is one.
fn hmac_algorithm(alg: CoreJwsSigningAlgorithm) -> Option<HmacAlgorithm>
    ensures { result ≡ spec.hmac_of alg }
{
    match alg {
        CoreJwsSigningAlgorithm::HmacSha256 => Some(HmacAlgorithm::Sha256),
        CoreJwsSigningAlgorithm::HmacSha384 => Some(HmacAlgorithm::Sha384),
        CoreJwsSigningAlgorithm::HmacSha512 => Some(HmacAlgorithm::Sha512),
        _ => None,
    }
}

/// A secret that signs by HMAC.
#[derive(Drop)]
pub struct CoreHmacKey {
    secret: Vec<u8>,
}

impl Model for CoreHmacKey {
    ghost use Rattle.std.specs.Prelude.{List, ℕ};

    ghost Value = { List ℕ };

    ghost view = { λ key. key.secret.items };
}

impl CoreHmacKey {
    /// The signing key of these bytes.
    pub fn new(secret: Vec<u8>) -> Self
        ensures secret { result ≡ secret.items }
    {
        CoreHmacKey { secret }
    }
}

impl PrivateSigningKey for CoreHmacKey {
    type VerificationKey = CoreJsonWebKey;

    ghost verification_key = { λ secret. record { secret = secret; id = None } };

    ghost signs = { spec.symmetric_signature };

    fn sign(
        &self,
        alloc: Global,
        alg: &CoreJwsSigningAlgorithm,
        message: &[u8],
    ) -> Result<Vec<u8>, SigningError>
        ensures signature { IfOk result (λ made.
            spec.symmetric_signature self.now alg.now message.now ≡ Ok made.items) }
        ensures refusal { IfErr result (λ refusal.
            GivesRefusal (spec.symmetric_signature self.now alg.now message.now) refusal) }

        // By algorithm.
        ensures mac { IfOk result (λ made. spec.IsMac self.now alg.now message.now made.items) }
        ensures unsupported_alg { IfErr result (λ refusal. (refusal ≡ SigningError.Memory)
            ⊎ ((spec.hmac_of alg.now ≡ None)
            × (refusal ≡ SigningError.UnsupportedAlg (signing_text alg.now)))) }
    {
        match hmac_algorithm(*alg) {
            Some(hash) => match hmac(alloc, hash, self.secret.as_slice(), message) {
                Ok(signature) => Ok(signature),
                Err(_) => Err(SigningError::Memory),
            },
            None => match String::from_str(alloc, alg.as_ref()) {
                Ok(text) => Err(SigningError::UnsupportedAlg(FieldName::new(text))),
                Err(_) => Err(SigningError::Memory),
            },
        }
    }

    fn as_verification_key(&self, alloc: Global) -> Result<CoreJsonWebKey, AllocError> {
        let secret = self.secret.to_vec(alloc)?;
        Ok(CoreJsonWebKey::new_symmetric(secret))
    }

    ghost signs_truly = { λ secret algorithm message signature h.
        Prim.grind (arith, (lists_equiv nat_eq_equiv).refl) };

    ghost refusal_is_never_memory = { λ secret algorithm message h. Prim.grind (arith) };
}
