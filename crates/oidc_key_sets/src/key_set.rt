//! A set of keys as it is published, and its reading.

ghost use Rattle.std.specs.Prelude.{◌≡◌, ◌≤◌, length, List, Result};
ghost use Rattle.json.specs.Value.{value_view, items_view};
ghost use Rattle.oidc_key_sets.specs.declared.errors.KeySetError.{KeySetError};
ghost use Rattle.oidc_key_sets.specs.Keys.{SeenRsaKey};
ghost use Rattle.oidc_key_sets.specs.KeySets as spec;

use crate::errors::KeySetError;
use crate::key::{RsaJsonWebKey, key_in};
use crate::members::KeyFault;
use json::{Error, Scratch, Value};
use std::alloc::{AllocFailed, Global};
use std::marker::Model;

/// The most keys that a set may have, those that are left out among them.
pub const MAX_KEYS: usize = 256;

/// The public keys of RSA of a set as it is published (RFC 7517 section 5), in its order. Contracts see
/// their list.
#[derive(Drop)]
pub struct PublishedKeySet {
    keys: Vec<RsaJsonWebKey>,
}

impl Model for PublishedKeySet {
    ghost use Rattle.std.specs.Prelude.{◌≤◌, length, List};
    ghost use Rattle.oidc_key_sets.specs.Keys.{SeenRsaKey};

    ghost Value = { List SeenRsaKey };

    ghost view = { λ set. set.keys.items };

    ghost invariant = { λ set. length set.keys.items ≤ 256 };
}

impl<T: Drop> From<AllocFailed<T>> for KeySetError {
    ghost use Rattle.std.specs.Prelude.{◌≡◌};
    ghost use Rattle.oidc_key_sets.specs.declared.errors.KeySetError.TheVariants.{Memory};

    ghost from_gives = { λ _ error. error ≡ Memory };

    fn from(_refused: AllocFailed<T>) -> KeySetError {
        KeySetError::Memory
    }
}

impl PublishedKeySet {
    /// Reads the text of a set. Keys of other types than RSA are left out; of a key of RSA, `n` and `e`
    /// have to be there. A null member of a key counts as absent. Refused is, by the first of these that holds:
    /// `NoJson` a text that isn't JSON in UTF-8; `DoubledName` one in which some object has a name
    /// twice; `NoObject`, `NoKeys`, `NoArray` and `TooMany` one that is no object with an array `keys`
    /// of at most 256 items; `Key` one with a key that is refused, the first of them: one that is no
    /// object, that has no `kty`, that is a secret (`oct`), that is private, or, of RSA, whose members
    /// aren't of their kinds.
    pub fn read(alloc: Global, text: &[u8]) -> Result<PublishedKeySet, KeySetError>
        // The result is what the text is read as, want of memory aside.
        ensures read { spec.IsRead text.now result }
        ensures caused { (meant : Result (List SeenRsaKey) KeySetError)
            → spec.IsReadAs text.now meant → spec.UnlessMemory result (result ≡ meant) }
    {
        read_text(alloc, text)
    }

    /// The keys, of which there are at most 256.
    pub fn keys(&self) -> &[RsaJsonWebKey]
        ensures keys { result.now ≡ self.now }
        ensures count { length self.now ≤ 256 }
    {
        self.keys.as_slice()
    }
}

// What a text is read as.
fn read_text(alloc: Global, text: &[u8]) -> Result<PublishedKeySet, KeySetError>
    ensures { spec.IsRead text.now result }
{
    let Ok(text) = str::from_utf8(text) else {
        return Err(KeySetError::NoJson);
    };
    let mut scratch = Scratch::new(alloc);
    match Value::parse_strict(alloc, text, &mut scratch) {
        Ok(value) => set_in(alloc, &value),
        Err(Error::Invalid) => Err(KeySetError::NoJson),
        Err(Error::DuplicateKey) => Err(KeySetError::DoubledName),
        Err(Error::OutOfMemory) => Err(KeySetError::Memory),
        Err(Error::TooLong) => unreachable!(),
    }
}

// The keys of RSA that values are, the first that is refused refusing them.
fn keys_of(alloc: Global, values: &[Value<'_>]) -> Result<PublishedKeySet, KeySetError>
    requires { length values.now ≤ 256 }
    ensures { spec.UnlessMemory result (spec.keys_from 0 (items_view values.now) ≡ result) }
{
    let mut keys = Vec::new(alloc);
    for (place, value) in values.iter().enumerate() {
        match key_in(alloc, value) {
            Ok(Some(key)) => keys.push(key)?,
            Ok(None) => {}
            Err(KeyFault::Refused(error)) => return Err(KeySetError::Key { place, error }),
            Err(KeyFault::Memory) => return Err(KeySetError::Memory),
        }
    }
    Ok(PublishedKeySet { keys })
}

// The keys of RSA that an array has.
fn keys_among(alloc: Global, keys: &Value<'_>) -> Result<PublishedKeySet, KeySetError>
    ensures { spec.UnlessMemory result (spec.array_in (value_view keys.now) ≡ result) }
{
    match keys {
        Value::Array(values) => {
            if values.len() > MAX_KEYS {
                Err(KeySetError::TooMany)
            } else {
                keys_of(alloc, values)
            }
        }
        _ => Err(KeySetError::NoArray),
    }
}

// The keys of RSA that a set has.
#[tactic(auto, unfolding(crate::specs::KeySets::set_in))]
fn set_in(alloc: Global, set: &Value<'_>) -> Result<PublishedKeySet, KeySetError>
    ensures { spec.UnlessMemory result (spec.set_in (value_view set.now) ≡ result) }
{
    match set {
        Value::Object(_) => match set.get("keys") {
            Some(keys) => keys_among(alloc, keys),
            None => Err(KeySetError::NoKeys),
        },
        _ => Err(KeySetError::NoObject),
    }
}
