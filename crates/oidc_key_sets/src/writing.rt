//! A set of keys as it is written.

ghost use Rattle.std.specs.Prelude.{◌≡◌, ◌++◌, ◌∷◌, [], All, Some, Ok, IfOk, OnOk, map};
ghost use Rattle.std.specs.Option.{option_copied};
ghost use Rattle.std.specs.Str.{IsUtf8};
ghost use Rattle.json.specs.Json.{document, array, object as json_object};
ghost use Rattle.json.specs.Value.{value_view, items_of};
ghost use Rattle.oidc_key_sets.specs.Codes.{HasNumbers};
ghost use Rattle.oidc_key_sets.specs.KeySets.{IsReadAs};
ghost use Rattle.oidc_key_sets.specs.Numbers.{encoded};
ghost use Rattle.oidc_key_sets.specs.Written as spec;
ghost use Rattle.oidc_key_sets.specs.WrittenSeen.{named_values};

use crate::errors::KeyMember;
use crate::key::RsaJsonWebKey;
use crate::key_set::PublishedKeySet;
use base64::engine::general_purpose::URL_SAFE_NO_PAD;
use json::{Value, to_vec};
use oidc_members::FieldName;
use std::alloc::{AllocError, Global};
use std::marker::Model;

// The members of an object that is written.
type OutMembers<'t> = Vec<(&'t str, Value<'t>)>;

// A key with the texts of its numbers. Contracts see the key.
#[derive(Drop)]
struct EncodedKey<'k> {
    key: &'k RsaJsonWebKey,
    modulus: String,
    exponent: String,
}

impl<'k> Model for EncodedKey<'k> {
    ghost use Rattle.std.specs.Prelude.{◌≡◌, string_bytes};
    ghost use Rattle.oidc_key_sets.specs.Keys.{SeenRsaKey};
    ghost use Rattle.oidc_key_sets.specs.Codes.{rsa_key_code};
    ghost use Rattle.oidc_key_sets.specs.Numbers.{encoded};

    ghost Value = { SeenRsaKey };

    ghost coded = { rsa_key_code };

    ghost view = { λ e. e.key.now };

    ghost invariant = { λ e. (string_bytes e.modulus ≡ encoded e.key.now.modulus)
        × (string_bytes e.exponent ≡ encoded e.key.now.exponent) };
}

fn encoded_key(alloc: Global, key: &RsaJsonWebKey) -> Result<EncodedKey<'_>, AllocError>
    ensures key { IfOk result (λ made. made ≡ key.now) }
    ensures numbers { HasNumbers key.now }
{
    let modulus = key.modulus();
    let exponent = key.exponent();
    Ok(EncodedKey {
        key,
        modulus: URL_SAFE_NO_PAD.encode(alloc, modulus)?,
        exponent: URL_SAFE_NO_PAD.encode(alloc, exponent)?,
    })
}

impl<'k> EncodedKey<'k> {
    fn key(&self) -> &'k RsaJsonWebKey
        ensures { result.now ≡ self.now }
    {
        self.key
    }

    fn modulus(&self) -> &str
        ensures { result.now ≡ encoded self.now.modulus }
    {
        self.modulus.as_str()
    }

    fn exponent(&self) -> &str
        ensures { result.now ≡ encoded self.now.exponent }
    {
        self.exponent.as_str()
    }
}

// Appends the text of a member.
fn put_text<'t>(
    members: &mut OutMembers<'t>,
    member: KeyMember,
    text: &'t str,
) -> Result<(), AllocError>
    ensures { OnOk result (named_values members.new.items
        ≡ named_values members.old.items ++ spec.text_member member text.now) }
{
    members.push((member.name(), Value::String(text)))?;
    Ok(())
}

// Appends the text of a member, where there is one.
fn put_text_if<'t>(
    members: &mut OutMembers<'t>,
    member: KeyMember,
    text: Option<&'t str>,
) -> Result<(), AllocError>
    ensures { OnOk result (named_values members.new.items
        ≡ named_values members.old.items ++ spec.text_member_if member (option_copied text.entry)) }
{
    match text {
        None => Ok(()),
        Some(text) => put_text(members, member, text),
    }
}

// An array of texts.
fn texts_value(alloc: Global, texts: &[FieldName]) -> Result<Value<'_>, AllocError>
    ensures { IfOk result (λ value. value_view value ≡ spec.texts_array texts.now) }
{
    let mut values = Vec::with_capacity(alloc, texts.len())?;
    for text in texts {
        values.push(Value::String(text.as_str()))?;
    }
    Ok(Value::Array(values))
}

// Appends the texts of a member, where there are some.
fn put_texts_if<'t>(
    alloc: Global,
    members: &mut OutMembers<'t>,
    member: KeyMember,
    texts: Option<&'t [FieldName]>,
) -> Result<(), AllocError>
    ensures { OnOk result (named_values members.new.items
        ≡ named_values members.old.items ++ spec.texts_member_if member (option_copied texts.entry)) }
{
    match texts {
        None => Ok(()),
        Some(texts) => {
            let value = texts_value(alloc, texts)?;
            members.push((member.name(), value))?;
            Ok(())
        }
    }
}

// The members of a key.
fn key_members<'t>(alloc: Global, encoded: &'t EncodedKey<'t>) -> Result<OutMembers<'t>, AllocError>
    ensures { IfOk result (λ members. named_values members.items ≡ spec.key_members encoded.now) }
{
    let key = encoded.key();
    let mut members = Vec::with_capacity(alloc, 7)?;
    put_text(&mut members, KeyMember::Kty, "RSA")?;
    put_text_if(&mut members, KeyMember::Use, key.purpose())?;
    put_texts_if(alloc, &mut members, KeyMember::KeyOps, key.operations())?;
    put_text_if(&mut members, KeyMember::Alg, key.algorithm())?;
    put_text_if(&mut members, KeyMember::Kid, key.id())?;
    put_text(&mut members, KeyMember::N, encoded.modulus())?;
    put_text(&mut members, KeyMember::E, encoded.exponent())?;
    Ok(members)
}

// An object of these members.
fn object(members: OutMembers<'_>) -> Value<'_>
    ensures { value_view result ≡ json_object (spec.members_of (named_values members.entry.items)) }
{
    Value::Object(members)
}

fn encoded_keys(alloc: Global, keys: &[RsaJsonWebKey]) -> Result<Vec<EncodedKey<'_>>, AllocError>
    ensures keys { IfOk result (λ encoded. encoded.items ≡ keys.now) }
    ensures numbers { IfOk result (λ _. All HasNumbers keys.now) }
{
    let mut encoded = Vec::with_capacity(alloc, keys.len())?;
    for key in keys {
        encoded.push(encoded_key(alloc, key)?)?;
    }
    Ok(encoded)
}

// The keys, as an array.
#[tactic(auto, unfolding(crate::specs::Written::written_key))]
fn keys_value<'t>(alloc: Global, keys: &'t [EncodedKey<'t>]) -> Result<Value<'t>, AllocError>
    ensures { IfOk result (λ value.
        value_view value ≡ array (items_of (map spec.written_key keys.now))) }
{
    let mut values = Vec::with_capacity(alloc, keys.len())?;
    for key in keys {
        values.push(object(key_members(alloc, key)?))?;
    }
    Ok(Value::Array(values))
}

// The set of these keys, as its value.
fn set_value<'t>(alloc: Global, keys: &'t [EncodedKey<'t>]) -> Result<Value<'t>, AllocError>
    ensures { IfOk result (λ value. value_view value ≡ spec.written_set keys.now) }
{
    let keys = keys_value(alloc, keys)?;
    let mut members = Vec::with_capacity(alloc, 1)?;
    members.push(("keys", keys))?;
    Ok(object(members))
}

impl PublishedKeySet {
    /// The text of a set of these keys, each with the members that it has, in the order of RFC 7517
    /// sections 4.1 to 4.5, and then `n` and `e`. `AllocError` is want of memory, the one error.
    pub fn write(&self, alloc: Global) -> Result<Vec<u8>, AllocError>
        ensures text { IfOk result (λ text.
            document text.items ≡ Some (spec.written_set self.now)) }
        ensures utf8 { IfOk result (λ text. IsUtf8 text.items) }
        // It is read as the same set.
        ensures reads_back { IfOk result (λ text. IsReadAs text.items (Ok self.now)) }
    {
        let encoded = encoded_keys(alloc, self.keys())?;
        let value = set_value(alloc, &encoded)?;
        to_vec(alloc, &value)
    }
}
