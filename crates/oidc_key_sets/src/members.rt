// The members of a key, and the kinds of their values.

ghost use Rattle.std.specs.Prelude.{◌≡◌, ◌∷◌, [], is_some, find, IfOk, option_map, option_and_then};
ghost use Rattle.json.specs.Value.{value_view, items_view};
ghost use Rattle.oidc_key_sets.specs.Keys as spec;
ghost use Rattle.oidc_key_sets.specs.Codes.{GivesKey};

use crate::errors::{KeyError, KeyMember};
use crate::numbers::{Octets, octets_of};
use json::Value;
use oidc_members::FieldName;
use std::alloc::{AllocError, Global};
use std::marker::Model;

// Why there is no key: a refusal, or want of memory.
#[derive(Drop)]
pub(crate) enum KeyFault {
    Refused(KeyError),
    Memory,
}

impl From<KeyError> for KeyFault {
    ghost use Rattle.std.specs.Prelude.{◌≡◌};
    ghost use Rattle.oidc_key_sets.specs.declared.members.KeyFault.TheVariants.{Refused};

    ghost from_gives = { λ error fault. fault ≡ Refused error };

    fn from(error: KeyError) -> KeyFault {
        KeyFault::Refused(error)
    }
}

impl From<AllocError> for KeyFault {
    ghost use Rattle.std.specs.Prelude.{◌≡◌};
    ghost use Rattle.oidc_key_sets.specs.declared.members.KeyFault.TheVariants.{Memory};

    ghost from_gives = { λ _ fault. fault ≡ Memory };

    fn from(_refused: AllocError) -> KeyFault {
        KeyFault::Memory
    }
}

// The texts of an array. Contracts see their list.
#[derive(Drop)]
pub(crate) struct TextList {
    pub(crate) texts: Vec<FieldName>,
}

impl Model for TextList {
    ghost use Rattle.std.specs.Prelude.{List, ℕ};

    ghost Value = { List (List ℕ) };

    ghost view = { λ t. t.texts.items };
}

// What only a private key has.
const PRIVATE: [KeyMember; 8] = [
    KeyMember::D,
    KeyMember::P,
    KeyMember::Q,
    KeyMember::Dp,
    KeyMember::Dq,
    KeyMember::Qi,
    KeyMember::Oth,
    KeyMember::K,
];

// What a member holds, where it is there and no null.
fn found<'v, 'a>(key: &'v Value<'a>, member: KeyMember) -> Option<&'v Value<'a>>
    ensures { option_map (λ v. value_view v.now) result
        ≡ spec.found member (value_view key.now) }
{
    match key.get(member.name()) {
        Some(value) => { if value.is_null() { None } else { Some(value) } }
        None => None,
    }
}

// Whether a member is there.
fn has(key: &Value<'_>, member: KeyMember) -> bool
    ensures { result ≡ is_some (spec.found member (value_view key.now)) }
{
    found(key, member).is_some()
}

// The first member of a private key that is there.
pub(crate) fn private_in(key: &Value<'_>) -> Option<KeyMember>
    ensures { result ≡ spec.private_in (value_view key.now) }
{
    PRIVATE.iter().copied().find(|member| has(key, *member))
}

// The text that a value is.
fn text_of(alloc: Global, value: &Value<'_>, member: KeyMember) -> Result<FieldName, KeyFault>
    ensures { GivesKey (spec.text_kind member (value_view value.now)) result }
{
    match value.as_str() {
        Some(text) => Ok(FieldName::new(String::from_str(alloc, text)?)),
        None => Err(KeyFault::Refused(KeyError::WrongType(member))),
    }
}

// The number that a value writes.
fn number_of(alloc: Global, value: &Value<'_>, member: KeyMember) -> Result<Octets, KeyFault>
    ensures { GivesKey (spec.number_kind member (value_view value.now)) result }
{
    match value.as_str() {
        Some(text) => match octets_of(alloc, text)? {
            Some(octets) => Ok(octets),
            None => Err(KeyFault::Refused(KeyError::Number(member))),
        },
        None => Err(KeyFault::Refused(KeyError::WrongType(member))),
    }
}

// The texts that values are, where each is one.
fn texts_in(alloc: Global, values: &[Value<'_>]) -> Result<Option<TextList>, AllocError>
    ensures { IfOk result (λ texts. texts ≡ spec.texts_in (items_view values.now)) }
{
    let mut texts = Vec::new(alloc);
    for value in values {
        let Some(text) = value.as_str() else {
            return Ok(None);
        };
        texts.push(FieldName::new(String::from_str(alloc, text)?))?;
    }
    Ok(Some(TextList { texts }))
}

// The texts that an array holds.
fn texts_of(alloc: Global, value: &Value<'_>, member: KeyMember) -> Result<TextList, KeyFault>
    ensures { GivesKey (spec.texts_kind member (value_view value.now)) result }
{
    let Value::Array(values) = value else {
        return Err(KeyFault::Refused(KeyError::WrongType(member)));
    };
    match texts_in(alloc, values)? {
        Some(texts) => Ok(texts),
        None => Err(KeyFault::Refused(KeyError::WrongType(member))),
    }
}

// The text of a member that has to be there.
pub(crate) fn required_text(
    alloc: Global,
    key: &Value<'_>,
    member: KeyMember,
) -> Result<FieldName, KeyFault>
    ensures { GivesKey (spec.required member (spec.text_kind member) (value_view key.now)) result }
{
    match found(key, member) {
        Some(value) => text_of(alloc, value, member),
        None => Err(KeyFault::Refused(KeyError::Missing(member))),
    }
}

// The number of a member that has to be there.
pub(crate) fn required_number(
    alloc: Global,
    key: &Value<'_>,
    member: KeyMember,
) -> Result<Octets, KeyFault>
    ensures { GivesKey (spec.required member (spec.number_kind member) (value_view key.now))
        result }
{
    match found(key, member) {
        Some(value) => number_of(alloc, value, member),
        None => Err(KeyFault::Refused(KeyError::Missing(member))),
    }
}

// The text of a member that may be absent.
pub(crate) fn optional_text(
    alloc: Global,
    key: &Value<'_>,
    member: KeyMember,
) -> Result<Option<FieldName>, KeyFault>
    ensures { GivesKey (spec.optional member (spec.text_kind member) (value_view key.now)) result }
{
    match found(key, member) {
        Some(value) => Ok(Some(text_of(alloc, value, member)?)),
        None => Ok(None),
    }
}

// The texts of a member that may be absent.
pub(crate) fn optional_texts(
    alloc: Global,
    key: &Value<'_>,
    member: KeyMember,
) -> Result<Option<TextList>, KeyFault>
    ensures { GivesKey (spec.optional member (spec.texts_kind member) (value_view key.now))
        result }
{
    match found(key, member) {
        Some(value) => Ok(Some(texts_of(alloc, value, member)?)),
        None => Ok(None),
    }
}
