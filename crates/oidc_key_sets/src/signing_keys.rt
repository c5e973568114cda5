//! The keys that check signatures, of a set as it is published.

ghost use Rattle.std.specs.Prelude.{◌≡◌, All, filter, codes, Err, IfOk, IfErr, option_map, option_and_then};
ghost use Rattle.std.specs.List.{list_any};
ghost use Rattle.std.specs.Option.{option_copied, option_or};
ghost use Rattle.std.specs.Str.{bytes_eq};
ghost use Rattle.oidc_rsa.specs.Key.{IsModulus, IsExponent};
ghost use Rattle.oidc_rsa.specs.ProviderKey.{KeyMaterial, bare};
ghost use Rattle.oidc_key_sets.specs.SigningKeys as spec;

use crate::errors::SigningKeyError;
use crate::key::RsaJsonWebKey;
use crate::key_set::PublishedKeySet;
use oidc_keys::{CoreJsonWebKeyUse, JsonWebKeySet};
use oidc_members::FieldName;
use oidc_rsa::{KeyOperation, ProviderKey, RsaKeyError, RsaPublicKey};
use oidc_types::{ClosedVocabulary, CoreJwsSigningAlgorithm, JsonWebKeyId};
use std::alloc::{AllocError, AllocFailed, Global};

impl<T: Drop> From<AllocFailed<T>> for SigningKeyError {
    ghost use Rattle.std.specs.Prelude.{◌≡◌};
    ghost use Rattle.oidc_key_sets.specs.declared.errors.SigningKeyError.TheVariants.{Memory};

    ghost from_gives = { λ _ error. error ≡ Memory };

    fn from(_refused: AllocFailed<T>) -> SigningKeyError {
        SigningKeyError::Memory
    }
}

// What a text says that a key is for.
fn purpose_named(alloc: Global, text: &str) -> Result<CoreJsonWebKeyUse, AllocError>
    ensures { IfOk result (λ purpose. purpose ≡ spec.purpose_named text.now) }
{
    match text {
        "sig" => Ok(CoreJsonWebKeyUse::Signature),
        "enc" => Ok(CoreJsonWebKeyUse::Encryption),
        _ => {
            let name = FieldName::new(String::from_str(alloc, text)?);
            Ok(CoreJsonWebKeyUse::Other(name))
        }
    }
}

// The operation of that name.
fn operation_named(text: &str) -> Option<KeyOperation>
    ensures { result ≡ spec.operation_named text.now }
{
    match text {
        "sign" => Some(KeyOperation::Sign),
        "verify" => Some(KeyOperation::Verify),
        "encrypt" => Some(KeyOperation::Encrypt),
        "decrypt" => Some(KeyOperation::Decrypt),
        "wrapKey" => Some(KeyOperation::WrapKey),
        "unwrapKey" => Some(KeyOperation::UnwrapKey),
        "deriveKey" => Some(KeyOperation::DeriveKey),
        "deriveBits" => Some(KeyOperation::DeriveBits),
        _ => None,
    }
}

// The operations of those names; other names are left out.
fn operations_named(alloc: Global, texts: &[FieldName]) -> Result<Vec<KeyOperation>, AllocError>
    ensures { IfOk result
        (λ operations. operations.items ≡ spec.operations_named texts.now) }
{
    let mut operations = Vec::new(alloc);
    for text in texts {
        if let Some(operation) = operation_named(text.as_str()) {
            operations.push(operation)?;
        }
    }
    Ok(operations)
}

// A key under its id, where it has one.
fn with_id(alloc: Global, key: ProviderKey, id: Option<&str>) -> Result<ProviderKey, AllocError>
    ensures { let id = option_or (option_copied id.entry) key.id in
        IfOk result (λ made. made ≡ record key { id = id }) }
{
    match id {
        None => Ok(key),
        Some(id) => {
            let id = JsonWebKeyId::new(String::from_str(alloc, id)?);
            Ok(key.with_key_id(id))
        }
    }
}

// A key with what it is for, where that is said.
fn with_purpose(
    alloc: Global,
    key: ProviderKey,
    purpose: Option<&str>,
) -> Result<ProviderKey, AllocError>
    ensures { let said = option_map spec.purpose_named (option_copied purpose.entry) in
        IfOk result (λ made. made ≡ record key { purpose = option_or said key.purpose }) }
{
    match purpose {
        None => Ok(key),
        Some(purpose) => Ok(key.with_key_use(purpose_named(alloc, purpose)?)),
    }
}

// A key with its operations, where they are said.
fn with_operations(
    alloc: Global,
    key: ProviderKey,
    operations: Option<&[FieldName]>,
) -> Result<ProviderKey, AllocError>
    ensures { let said = option_map spec.operations_named (option_copied operations.entry) in
        IfOk result (λ made. made ≡ record key { operations = option_or said key.operations }) }
{
    match operations {
        None => Ok(key),
        Some(operations) => Ok(key.with_operations(operations_named(alloc, operations)?)),
    }
}

// A key with its algorithm, where it has one that signs.
fn with_algorithm(key: ProviderKey, algorithm: Option<CoreJwsSigningAlgorithm>) -> ProviderKey
    ensures { result ≡ record key { alg = option_or algorithm key.alg } }
{
    match algorithm {
        None => key,
        Some(algorithm) => key.with_algorithm(algorithm),
    }
}

// The algorithm that signs which a text names.
fn algorithm_named(text: Option<&str>) -> Option<CoreJwsSigningAlgorithm>
    ensures { result ≡ option_and_then spec.algorithm_named (option_copied text.entry) }
{
    match text {
        None => None,
        Some(text) => CoreJwsSigningAlgorithm::from_str(text),
    }
}

// Whether a key's use lets it check signatures.
fn is_for_signatures(purpose: Option<&str>) -> bool
    ensures { result ≡ spec.is_for_signatures (option_copied purpose.entry) }
{
    match purpose {
        None => true,
        Some(text) => text == "sig",
    }
}

// Whether `verify` is among these operations.
fn names_verify(texts: &[FieldName]) -> bool
    ensures { result ≡ list_any (λ text. bytes_eq text (codes "verify")) texts.now }
{
    match texts {
        [] => false,
        [first, later @ ..] => {
            if first.as_str() == "verify" {
                return true;
            }
            names_verify(later)
        }
    }
}

// Whether a key's operations let it check signatures.
fn has_verify(operations: Option<&[FieldName]>) -> bool
    ensures { result ≡ spec.has_verify (option_copied operations.entry) }
{
    match operations {
        None => true,
        Some(texts) => names_verify(texts),
    }
}

// Whether a key's algorithm lets it check signatures.
fn signs_by_rsa(algorithm: Option<&str>) -> bool
    ensures { result ≡ spec.signs_by_rsa (option_copied algorithm.entry) }
{
    match algorithm {
        None => true,
        Some(text) => matches!(
            text,
            "RS256" | "RS384" | "RS512" | "PS256" | "PS384" | "PS512"
        ),
    }
}

// Whether a key checks signatures.
fn checks_signatures(said: &RsaJsonWebKey) -> bool
    ensures { result ≡ spec.checks_signatures said.now }
{
    is_for_signatures(said.purpose())
        && has_verify(said.operations())
        && signs_by_rsa(said.algorithm())
}

// A key with what the set says of it.
fn described(
    alloc: Global,
    key: ProviderKey,
    said: &RsaJsonWebKey,
) -> Result<ProviderKey, AllocError>
    requires { (material : KeyMaterial) × (key ≡ bare material) }
    ensures { IfOk result (λ made. spec.IsDescribed said.now key.material made) }
{
    let key = with_id(alloc, key, said.id())?;
    let key = with_purpose(alloc, key, said.purpose())?;
    let key = with_operations(alloc, key, said.operations())?;
    Ok(with_algorithm(key, algorithm_named(said.algorithm())))
}

// The key that checks signatures, which the set says.
fn signing_key(alloc: Global, said: &RsaJsonWebKey) -> Result<ProviderKey, RsaKeyError>
    ensures key { IfOk result (spec.IsSaidKey said.now) }
    ensures allowed { IfOk result (λ _. spec.IsAllowed said.now) }
    ensures modulus { result ≡ Err RsaKeyError.Modulus → ¬ IsModulus said.now.modulus }
    ensures exponent { result ≡ Err RsaKeyError.Exponent
        → IsModulus said.now.modulus × (¬ IsExponent said.now.exponent) }
{
    let key = RsaPublicKey::new(alloc, said.modulus(), said.exponent())?;
    match described(alloc, ProviderKey::new_rsa(key), said) {
        Ok(key) => Ok(key),
        Err(AllocError) => Err(RsaKeyError::Memory),
    }
}

impl PublishedKeySet {
    /// The keys that check signatures, in the order of the set (RFC 7517 sections 4.2 to 4.4). A key is left out whose
    /// use isn't for signatures, whose operations lack `verify`, or whose algorithm is none of RSA's that sign: what
    /// its numbers are refuses nothing. Operations that no standard names are left out of a key's own.
    ///
    /// `Modulus` and `Exponent` refuse the first key whose numbers aren't allowed
    /// ([`RsaPublicKey::new`]).
    pub fn signing_keys(&self, alloc: Global) -> Result<JsonWebKeySet<ProviderKey>, SigningKeyError>
        ensures keys { IfOk result (spec.AreSigningKeysOf self.now) }
        ensures allowed { IfOk result (λ _. All spec.IsAllowed (filter spec.checks_signatures self.now)) }
        ensures cause { IfErr result (spec.Cause self.now) }
    {
        let mut keys = Vec::new(alloc);
        let set = self.keys();
        for (place, said) in set.iter().enumerate() {
            if checks_signatures(said) {
                match signing_key(alloc, said) {
                    Ok(key) => keys.push(key)?,
                    Err(RsaKeyError::Modulus) => return Err(SigningKeyError::Modulus(place)),
                    Err(RsaKeyError::Exponent) => return Err(SigningKeyError::Exponent(place)),
                    Err(RsaKeyError::Memory) => return Err(SigningKeyError::Memory),
                }
            }
        }
        Ok(JsonWebKeySet::new(keys))
    }
}
