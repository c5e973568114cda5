//! The keys of verifiers: a client's secret, and keys of an issuer that know one signature.

ghost use Rattle.std.specs.Prelude.{◌≡◌, None, Some, Err, IfOk};
ghost use Rattle.std.proofs.Common.{arith};
ghost use Rattle.oidc_keys.specs.Jwk.{digest_by};
ghost use Rattle.oidc_keys.specs.CoreJwk.{hash_function};
ghost use Rattle.case_lines.specs.VerifierKeys as spec;
ghost use Rattle.case_lines.specs.declared.verifier_keys.VerifierKey.TheVariants.{Secret};

use crate::case::{Case, CaseError, bytes_of};
use oidc_keys::{
    CoreJsonWebKey, CoreJsonWebKeyUse, HashError, JsonWebKey, JsonWebKeySet,
    SignatureVerificationError,
};
use oidc_members::FieldName;
use oidc_oauth2::Body;
use oidc_types::{ClosedVocabulary, CoreJsonWebKeyType, CoreJwsSigningAlgorithm, JsonWebKeyId};
use std::alloc::{AllocError, Global};

/// A key of an issuer. It takes its own signature for one of every message, and no other.
#[derive(Drop)]
pub struct IssuerKey {
    /// Its type.
    pub kind: CoreJsonWebKeyType,
    /// What it is for, where that is said.
    pub purpose: Option<CoreJsonWebKeyUse>,
    /// Its ID, where it has one.
    pub id: Option<JsonWebKeyId>,
    /// The signature that it takes.
    pub signature: Body,
}

/// A key of a verifier.
#[derive(Drop)]
pub enum VerifierKey {
    /// The key that a client's secret is.
    Secret(CoreJsonWebKey),
    /// A key of the issuer.
    Given(IssuerKey),
}

impl JsonWebKey for VerifierKey {
    type KeyUse = CoreJsonWebKeyUse;

    type SigningAlgorithm = CoreJwsSigningAlgorithm;

    ghost key_id = { spec.id_of };

    ghost key_type = { spec.type_of };

    ghost key_use = { spec.use_of };

    ghost verdict = { spec.verdict_of };

    ghost hash_of = { spec.hash_of };

    ghost symmetric_of = { λ bytes. Secret (record { secret = bytes; id = None }) };

    fn key_id(&self) -> Option<&JsonWebKeyId> {
        match self {
            VerifierKey::Secret(key) => key.key_id(),
            VerifierKey::Given(key) => key.id.as_ref(),
        }
    }

    fn key_type(&self) -> CoreJsonWebKeyType {
        match self {
            VerifierKey::Secret(key) => key.key_type(),
            VerifierKey::Given(key) => key.kind,
        }
    }

    fn key_use(&self) -> Option<&CoreJsonWebKeyUse> {
        match self {
            VerifierKey::Secret(key) => key.key_use(),
            VerifierKey::Given(key) => key.purpose.as_ref(),
        }
    }

    fn new_symmetric(key: Vec<u8>) -> Self {
        VerifierKey::Secret(CoreJsonWebKey::new_symmetric(key))
    }

    fn verify_signature(
        &self,
        alg: &CoreJwsSigningAlgorithm,
        message: &[u8],
        signature: &[u8],
    ) -> Result<(), SignatureVerificationError> {
        match self {
            VerifierKey::Secret(key) => key.verify_signature(alg, message, signature),
            VerifierKey::Given(key) => {
                if signature == key.signature.as_slice() {
                    Ok(())
                } else {
                    Err(SignatureVerificationError::CryptoError)
                }
            }
        }
    }

    fn hash_bytes(
        &self,
        alloc: Global,
        bytes: &[u8],
        alg: &CoreJwsSigningAlgorithm,
    ) -> Result<Vec<u8>, HashError> {
        match self {
            VerifierKey::Secret(key) => key.hash_bytes(alloc, bytes, alg),
            VerifierKey::Given(_) => hash_by(alloc, bytes, alg),
        }
    }

    ghost verdict_is_never_memory = { λ key algorithm message signature h. Prim.grind (arith) };
}

// The digest by the hash function of an algorithm, which is that of any secret.
fn hash_by(alloc: Global, bytes: &[u8], alg: &CoreJwsSigningAlgorithm) -> Result<Vec<u8>, HashError>
    ensures digest { IfOk result (λ digest.
        digest_by (hash_function alg.now) bytes.now ≡ Some digest.items) }
    ensures unsupported { result ≡ Err HashError.Unsupported → hash_function alg.now ≡ None }
{
    let secret = CoreJsonWebKey::new_symmetric(Vec::new(alloc));
    let digest = secret.hash_bytes(alloc, bytes, alg);
    drop(secret);
    digest
}

// ---- keys of a line

/// The keys of the issuer that a line gives, each by `key`, in their order.
pub fn keys_in(alloc: Global, case: &Case) -> Result<JsonWebKeySet<VerifierKey>, CaseError> {
    let mut keys = Vec::new(alloc);
    for pair in case.pairs() {
        if pair.name() == "key" {
            keys.push(key_of(alloc, pair.value())?)?;
        }
    }
    Ok(JsonWebKeySet::new(keys))
}

// The key that a line gives as `kty:use:kid:hex`.
fn key_of(alloc: Global, text: &str) -> Result<VerifierKey, CaseError> {
    let (kind, rest) = cut(text)?;
    let (purpose, rest) = cut(rest)?;
    let (id, signature) = cut(rest)?;
    Ok(VerifierKey::Given(IssuerKey {
        kind: kind_of(kind)?,
        purpose: purpose_of(alloc, purpose)?,
        id: id_of(alloc, id)?,
        signature: Body::new(bytes_of(alloc, signature)?),
    }))
}

// What stands before the first colon of a text, and behind it.
fn cut(text: &str) -> Result<(&str, &str), CaseError> {
    text.split_once(':').ok_or(CaseError::NoCase)
}

// An empty type is that of a secret, which no algorithm looks for among an issuer's keys.
fn kind_of(text: &str) -> Result<CoreJsonWebKeyType, CaseError> {
    if text.is_empty() {
        return Ok(CoreJsonWebKeyType::Symmetric);
    }
    CoreJsonWebKeyType::from_str(text).ok_or(CaseError::NoCase)
}

fn purpose_of(alloc: Global, text: &str) -> Result<Option<CoreJsonWebKeyUse>, AllocError> {
    match text {
        "" => Ok(None),
        "sig" => Ok(Some(CoreJsonWebKeyUse::Signature)),
        "enc" => Ok(Some(CoreJsonWebKeyUse::Encryption)),
        other => {
            let other = FieldName::new(String::from_str(alloc, other)?);
            Ok(Some(CoreJsonWebKeyUse::Other(other)))
        }
    }
}

fn id_of(alloc: Global, text: &str) -> Result<Option<JsonWebKeyId>, AllocError> {
    if text.is_empty() {
        return Ok(None);
    }
    Ok(Some(JsonWebKeyId::new(String::from_str(alloc, text)?)))
}
