//! Keys of a provider's set and of a client's secret, of one type.
ghost use Rattle.std.specs.Prelude.{◌≡◌, ◌↔◌, Option, Some, None, Ok, Err, option_map};
ghost use Rattle.std.specs.List.{list_any};
ghost use Rattle.oidc_types.specs.{signing_key_type};
ghost use Rattle.oidc_keys.specs.CoreJwk.{hash_function};
ghost use Rattle.oidc_keys.specs.declared.refusals.SignatureVerificationError.TheVariants as cause;
ghost use Rattle.oidc_rsa.specs.Hash.{hash_of};
ghost use Rattle.oidc_rsa.specs.ProviderKey as spec;
ghost use Rattle.oidc_rsa.specs.NeverMemory.{never_memory};

use crate::algorithm::RsaAlgorithm;
use crate::hash::HashFunction;
use crate::key_operation::KeyOperation;
use crate::public_key::{RsaPublicKey, RsaSignatureError};
use oidc_keys::{
    CoreJsonWebKey, CoreJsonWebKeyUse, HashError, JsonWebKey, JsonWebKeyUse,
    SignatureVerificationError,
};
use oidc_types::{ClosedVocabulary, CoreJsonWebKeyType, CoreJwsSigningAlgorithm, JsonWebKeyId};
use std::alloc::Global;
use std::fmt;
use std::marker::Model;

// What a key is made of.
#[derive(Drop)]
enum Material {
    Rsa(RsaPublicKey),
    Secret(CoreJsonWebKey),
}

/// A key that checks signatures by RSA, or by HMAC: those of a provider's set, and that which a
/// client's secret is (RFC 7517, RFC 7518 sections 6.3 and 6.4).
///
/// Each checks by the algorithms of its own type alone, so that no public key is taken for a secret.
/// What it says of itself (`use`, `key_ops`, `alg`) holds too: a key that is for something else
/// accepts nothing.
#[derive(Drop)]
pub struct ProviderKey {
    material: Material,
    id: Option<JsonWebKeyId>,
    purpose: Option<CoreJsonWebKeyUse>,
    alg: Option<CoreJwsSigningAlgorithm>,
    operations: Option<Vec<KeyOperation>>,
}

impl Model for ProviderKey {
    ghost use Rattle.std.specs.Prelude.{option_map};
    ghost use Rattle.oidc_rsa.specs.ProviderKey.{SeenProviderKey};
    ghost use Rattle.oidc_rsa.specs.Materials.{seen_material};

    ghost Value = { SeenProviderKey };

    ghost view = { λ key. record {
      material = seen_material key.material;
      id = key.id;
      purpose = key.purpose;
      alg = key.alg;
      operations = option_map (λ operations. operations.items) key.operations;
    } };
}

impl ProviderKey {
    ghost use Rattle.oidc_rsa.specs.Materials.{seen_material};

    /// A public key of RSA, that says nothing of itself.
    pub fn new_rsa(key: RsaPublicKey) -> ProviderKey
        ensures rsa { result ≡ spec.bare (spec.Rsa key) }
    {
        ProviderKey::of_material(Material::Rsa(key))
    }

    fn of_material(material: Material) -> ProviderKey
        ensures { result ≡ spec.bare (seen_material material) }
    {
        ProviderKey {
            material,
            id: None,
            purpose: None,
            alg: None,
            operations: None,
        }
    }

    /// This key under the given id (`kid`, RFC 7517 section 4.5).
    pub fn with_key_id(mut self, id: JsonWebKeyId) -> ProviderKey
        ensures named { result ≡ record self { id = Some id } }
    {
        self.id = Some(id);
        self
    }

    /// This key for the given use alone (`use`, RFC 7517 section 4.2).
    pub fn with_key_use(mut self, purpose: CoreJsonWebKeyUse) -> ProviderKey
        ensures purpose { result ≡ record self { purpose = Some purpose } }
    {
        self.purpose = Some(purpose);
        self
    }

    /// This key for the given algorithm alone (`alg`, RFC 7517 section 4.4).
    pub fn with_algorithm(mut self, alg: CoreJwsSigningAlgorithm) -> ProviderKey
        ensures alg { result ≡ record self { alg = Some alg } }
    {
        self.alg = Some(alg);
        self
    }

    /// This key for the given operations alone (`key_ops`, RFC 7517 section 4.3).
    pub fn with_operations(mut self, operations: Vec<KeyOperation>) -> ProviderKey
        ensures operations { result ≡ record self { operations = Some operations.items } }
    {
        self.operations = Some(operations);
        self
    }

    // Whether its use, where it has one, is for signatures.
    fn may_check(&self) -> bool
        ensures { result ≡ spec.may_check self.now.purpose }
    {
        match &self.purpose {
            Some(purpose) => purpose.allows_signature(),
            None => true,
        }
    }

    // Whether its operations, where it has them, have the check of signatures among them.
    fn may_verify(&self) -> bool
        ensures { result ≡ spec.may_verify self.now.operations }
    {
        match &self.operations {
            Some(operations) => has_verify(operations.as_slice()),
            None => true,
        }
    }

    // Whether its algorithm, where it has one, is this one.
    fn may_take(&self, alg: CoreJwsSigningAlgorithm) -> bool
        ensures { result ≡ spec.may_take self.now.alg alg }
    {
        match &self.alg {
            Some(own) => own.as_ref() == alg.as_ref(),
            None => true,
        }
    }

    // Whether what it says of itself lets it check signatures by an algorithm.
    fn permits(&self, alg: CoreJwsSigningAlgorithm) -> bool
        ensures { result ≡ spec.permits self.now alg }
    {
        self.may_check() && self.may_verify() && self.may_take(alg)
    }

    // By what the key is made of.
    fn verify_by_material(
        &self,
        alg: CoreJwsSigningAlgorithm,
        message: &[u8],
        signature: &[u8],
    ) -> Result<(), SignatureVerificationError>
        ensures { result ≡ spec.material_verdict self.now.material alg message.now signature.now }
    {
        match &self.material {
            Material::Rsa(key) => verify_by_rsa(key, alg, message, signature),
            Material::Secret(key) => key.verify_signature(&alg, message, signature),
        }
    }

    // What the key says of a signature.
    #[tactic(auto, unfolding(crate::specs::ProviderKey::provider_verdict))]
    fn judge(
        &self,
        alg: CoreJwsSigningAlgorithm,
        message: &[u8],
        signature: &[u8],
    ) -> Result<(), SignatureVerificationError>
        ensures { result ≡ spec.provider_verdict self.now alg message.now signature.now }
    {
        if self.permits(alg) {
            self.verify_by_material(alg, message, signature)
        } else {
            refused(alg)
        }
    }
}

// Whether the check of signatures is among some operations.
fn has_verify(operations: &[KeyOperation]) -> bool
    ensures { result ≡ list_any spec.is_verify operations.now }
{
    operations.iter().any(|operation| operation.is_verify())
}

// The RSA algorithm that a signing algorithm is, where it is one.
fn rsa_algorithm(alg: CoreJwsSigningAlgorithm) -> Option<RsaAlgorithm>
    ensures { result ≡ spec.rsa_algorithm_of alg }
{
    match alg {
        CoreJwsSigningAlgorithm::RsaSsaPkcs1V15Sha256 => Some(RsaAlgorithm::Rs256),
        CoreJwsSigningAlgorithm::RsaSsaPkcs1V15Sha384 => Some(RsaAlgorithm::Rs384),
        CoreJwsSigningAlgorithm::RsaSsaPkcs1V15Sha512 => Some(RsaAlgorithm::Rs512),
        CoreJwsSigningAlgorithm::RsaSsaPssSha256 => Some(RsaAlgorithm::Ps256),
        CoreJwsSigningAlgorithm::RsaSsaPssSha384 => Some(RsaAlgorithm::Ps384),
        CoreJwsSigningAlgorithm::RsaSsaPssSha512 => Some(RsaAlgorithm::Ps512),
        _ => None,
    }
}

// Why a key has no word on an algorithm.
fn refused(alg: CoreJwsSigningAlgorithm) -> Result<(), SignatureVerificationError>
    ensures { result ≡ spec.refused alg }
{
    match alg {
        CoreJwsSigningAlgorithm::None => Err(SignatureVerificationError::UnsupportedAlg),
        _ => Err(SignatureVerificationError::InvalidKey),
    }
}

// What a public key says of a signature.
fn verify_by_rsa(
    key: &RsaPublicKey,
    alg: CoreJwsSigningAlgorithm,
    message: &[u8],
    signature: &[u8],
) -> Result<(), SignatureVerificationError>
    ensures { result ≡ spec.rsa_verdict key.now alg message.now signature.now }
{
    match rsa_algorithm(alg) {
        Some(algorithm) => match key.verify(algorithm, message, signature) {
            Ok(()) => Ok(()),
            Err(RsaSignatureError::CryptoError) => Err(SignatureVerificationError::CryptoError),
        },
        None => refused(alg),
    }
}

// The hash function that goes with an algorithm, which is the same for every key.
fn hash_function(alg: CoreJwsSigningAlgorithm) -> Option<HashFunction>
    ensures { option_map hash_of result ≡ hash_function alg }
{
    match alg {
        CoreJwsSigningAlgorithm::HmacSha256
        | CoreJwsSigningAlgorithm::RsaSsaPkcs1V15Sha256
        | CoreJwsSigningAlgorithm::RsaSsaPssSha256
        | CoreJwsSigningAlgorithm::EcdsaP256Sha256 => Some(HashFunction::Sha256),
        CoreJwsSigningAlgorithm::HmacSha384
        | CoreJwsSigningAlgorithm::RsaSsaPkcs1V15Sha384
        | CoreJwsSigningAlgorithm::RsaSsaPssSha384
        | CoreJwsSigningAlgorithm::EcdsaP384Sha384 => Some(HashFunction::Sha384),
        CoreJwsSigningAlgorithm::HmacSha512
        | CoreJwsSigningAlgorithm::RsaSsaPkcs1V15Sha512
        | CoreJwsSigningAlgorithm::RsaSsaPssSha512
        | CoreJwsSigningAlgorithm::EcdsaP521Sha512 => Some(HashFunction::Sha512),
        CoreJwsSigningAlgorithm::EdDsa | CoreJwsSigningAlgorithm::None => None,
    }
}

impl JsonWebKey for ProviderKey {
    type KeyUse = CoreJsonWebKeyUse;

    type SigningAlgorithm = CoreJwsSigningAlgorithm;

    ghost key_id = { λ key. key.id };

    ghost key_type = { λ key. spec.type_of key.material };

    ghost key_use = { λ key. key.purpose };

    ghost verdict = { spec.provider_verdict };

    ghost hash_of = { λ key. hash_function };

    ghost symmetric_of = { λ bytes. spec.bare (spec.Secret bytes) };

    fn key_id(&self) -> Option<&JsonWebKeyId> {
        self.id.as_ref()
    }

    fn key_type(&self) -> CoreJsonWebKeyType {
        match &self.material {
            Material::Rsa(_) => CoreJsonWebKeyType::RSA,
            Material::Secret(_) => CoreJsonWebKeyType::Symmetric,
        }
    }

    fn key_use(&self) -> Option<&CoreJsonWebKeyUse> {
        self.purpose.as_ref()
    }

    fn new_symmetric(key: Vec<u8>) -> Self {
        ProviderKey::of_material(Material::Secret(CoreJsonWebKey::new_symmetric(key)))
    }

    /// Whether `signature` is one of `message` under this key by `alg`. It takes no memory.
    ///
    /// `InvalidKey` where `alg` has a type of key that isn't this key's, or where the key's own
    /// `use`, `key_ops` or `alg` doesn't let it check signatures by `alg`; `UnsupportedAlg` where
    /// `alg` has no type of key; and `CryptoError` where the signature isn't one.
    fn verify_signature(
        &self,
        alg: &CoreJwsSigningAlgorithm,
        message: &[u8],
        signature: &[u8],
    ) -> Result<(), SignatureVerificationError>
        ensures verdict { result
            ≡ spec.provider_verdict self.now alg.now message.now signature.now }

        // What each refusal says.
        ensures invalid_key { (result ≡ Err cause.InvalidKey)
            ↔ spec.NeedsOtherKey self.now alg.now }
        ensures unsupported_alg { (result ≡ Err cause.UnsupportedAlg)
            ↔ (signing_key_type alg.now ≡ None) }
        ensures crypto_error { (result ≡ Err cause.CryptoError)
            ↔ spec.Disproves self.now alg.now message.now signature.now }
        ensures ok { (result ≡ Ok tt)
            ↔ spec.Verifies self.now alg.now message.now signature.now }
    {
        self.judge(*alg, message, signature)
    }

    fn hash_bytes(
        &self,
        alloc: Global,
        bytes: &[u8],
        alg: &CoreJwsSigningAlgorithm,
    ) -> Result<Vec<u8>, HashError> {
        match hash_function(*alg) {
            Some(hash) => match hash.hash(bytes).as_slice().to_vec(alloc) {
                Ok(digest) => Ok(digest),
                Err(_) => Err(HashError::Memory),
            },
            None => Err(HashError::Unsupported),
        }
    }

    ghost verdict_is_never_memory = { never_memory };
}

/// Prints `ProviderKey([redacted])`, since a key may be a secret.
impl fmt::Debug for ProviderKey {
    ghost use Rattle.std.specs.Prelude.{Some, codes};

    ghost debug_output = { λ _. Some (codes "ProviderKey([redacted])") };

    fn fmt<W: fmt::Write>(&self, f: &mut fmt::Formatter<W>) -> fmt::Result {
        f.write_str("ProviderKey([redacted])")
    }
}
