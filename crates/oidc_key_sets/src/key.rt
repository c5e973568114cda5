//! A public key of RSA, as a set says it.

ghost use Rattle.std.specs.Prelude.{◌≡◌, Ok, None};
ghost use Rattle.std.specs.Option.{option_copied};
ghost use Rattle.json.specs.Value.{value_view};
ghost use Rattle.oidc_key_sets.specs.Keys as spec;
ghost use Rattle.oidc_key_sets.specs.Codes.{GivesKey};
ghost use Rattle.oidc_key_sets.specs.Numbers.{IsNumber};

use crate::errors::{KeyError, KeyMember};
use crate::members::{
    KeyFault, TextList, optional_text, optional_texts, private_in, required_number, required_text,
};
use crate::numbers::Octets;
use json::Value;
use oidc_members::FieldName;
use oidc_types::{ClosedVocabulary, CoreJsonWebKeyType};
use std::alloc::Global;
use std::marker::Model;

/// What a set says of a public key of RSA (RFC 7517 section 4, RFC 7518 section 6.3.1). Contracts see
/// its fields.
#[derive(Drop)]
pub struct RsaJsonWebKey {
    pub(crate) modulus: Octets,
    pub(crate) exponent: Octets,
    pub(crate) purpose: Option<FieldName>,
    pub(crate) operations: Option<TextList>,
    pub(crate) algorithm: Option<FieldName>,
    pub(crate) id: Option<FieldName>,
}

impl Model for RsaJsonWebKey {
    ghost use Rattle.oidc_key_sets.specs.Keys.{SeenRsaKey};
    ghost use Rattle.oidc_key_sets.specs.Codes.{rsa_key_code};

    ghost Value = { SeenRsaKey };

    ghost coded = { rsa_key_code };

    ghost view = { λ k. record {
      modulus = k.modulus;
      exponent = k.exponent;
      purpose = k.purpose;
      operations = k.operations;
      algorithm = k.algorithm;
      id = k.id;
    } };
}

fn text_of(name: &Option<FieldName>) -> Option<&str>
    ensures { option_copied result ≡ name.now }
{
    match name {
        None => None,
        Some(name) => Some(name.as_str()),
    }
}

impl RsaJsonWebKey {
    /// The octets of the modulus, the highest first (`n`).
    pub fn modulus(&self) -> &[u8]
        ensures modulus { result.now ≡ self.now.modulus }
        ensures number { IsNumber self.now.modulus }
    {
        self.modulus.as_slice()
    }

    /// The octets of the exponent, the highest first (`e`).
    pub fn exponent(&self) -> &[u8]
        ensures exponent { result.now ≡ self.now.exponent }
        ensures number { IsNumber self.now.exponent }
    {
        self.exponent.as_slice()
    }

    /// What the key is for (`use`).
    pub fn purpose(&self) -> Option<&str>
        ensures purpose { option_copied result ≡ self.now.purpose }
    {
        text_of(&self.purpose)
    }

    /// The operations that it is for (`key_ops`).
    pub fn operations(&self) -> Option<&[FieldName]>
        ensures operations { option_copied result ≡ self.now.operations }
    {
        match &self.operations {
            None => None,
            Some(operations) => Some(operations.texts.as_slice()),
        }
    }

    /// The algorithm that it is for (`alg`).
    pub fn algorithm(&self) -> Option<&str>
        ensures algorithm { option_copied result ≡ self.now.algorithm }
    {
        text_of(&self.algorithm)
    }

    /// Its id (`kid`).
    pub fn id(&self) -> Option<&str>
        ensures id { option_copied result ≡ self.now.id }
    {
        text_of(&self.id)
    }
}

// The public key of RSA that an object says.
#[tactic(auto, unfolding(crate::specs::Keys::rsa_key_in))]
fn rsa_key_in(alloc: Global, key: &Value<'_>) -> Result<RsaJsonWebKey, KeyFault>
    ensures { GivesKey (spec.rsa_key_in (value_view key.now)) result }
{
    let modulus = required_number(alloc, key, KeyMember::N)?;
    let exponent = required_number(alloc, key, KeyMember::E)?;
    let purpose = optional_text(alloc, key, KeyMember::Use)?;
    let operations = optional_texts(alloc, key, KeyMember::KeyOps)?;
    let algorithm = optional_text(alloc, key, KeyMember::Alg)?;
    let id = optional_text(alloc, key, KeyMember::Kid)?;
    Ok(RsaJsonWebKey {
        modulus,
        exponent,
        purpose,
        operations,
        algorithm,
        id,
    })
}

// A public key of RSA.
fn public_rsa_key(alloc: Global, key: &Value<'_>) -> Result<Option<RsaJsonWebKey>, KeyFault>
    ensures { let key = value_view key.now in
        GivesKey (spec.unless_private (spec.private_in key) (spec.there (spec.rsa_key_in key)))
        result }
{
    match private_in(key) {
        Some(member) => Err(KeyFault::Refused(KeyError::Private(member))),
        None => Ok(Some(rsa_key_in(alloc, key)?)),
    }
}

// A public key of another type, which is left out.
fn public_other_key(key: &Value<'_>) -> Result<Option<RsaJsonWebKey>, KeyFault>
    ensures { GivesKey (spec.unless_private (spec.private_in (value_view key.now)) (Ok None))
        result }
{
    match private_in(key) {
        Some(member) => Err(KeyFault::Refused(KeyError::Private(member))),
        None => Ok(None),
    }
}

// By the type of the key, where that is a known one.
fn by_type(
    alloc: Global,
    kind: Option<CoreJsonWebKeyType>,
    key: &Value<'_>,
) -> Result<Option<RsaJsonWebKey>, KeyFault>
    ensures { GivesKey (spec.by_type kind (value_view key.now)) result }
{
    match kind {
        None => Ok(None),
        Some(CoreJsonWebKeyType::RSA) => public_rsa_key(alloc, key),
        Some(CoreJsonWebKeyType::EllipticCurve) => public_other_key(key),
        Some(CoreJsonWebKeyType::OctetKeyPair) => public_other_key(key),
        Some(CoreJsonWebKeyType::Symmetric) => Err(KeyFault::Refused(KeyError::Symmetric)),
    }
}

fn is_object(value: &Value<'_>) -> bool
    ensures { result ≡ spec.is_object (value_view value.now) }
{
    matches!(value, Value::Object(_))
}

// The key of RSA that a value is, or none where it is left out.
#[tactic(auto, unfolding(crate::specs::Keys::key_in))]
pub(crate) fn key_in(alloc: Global, value: &Value<'_>) -> Result<Option<RsaJsonWebKey>, KeyFault>
    ensures { GivesKey (spec.key_in (value_view value.now)) result }
{
    if !is_object(value) {
        return Err(KeyFault::Refused(KeyError::NoObject));
    }
    let kind = required_text(alloc, value, KeyMember::Kty)?;
    by_type(alloc, CoreJsonWebKeyType::from_str(kind.as_str()), value)
}
