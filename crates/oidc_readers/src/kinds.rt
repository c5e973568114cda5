//! Kinds of values, each read from its member. Two of them depend on the reading.

ghost use Rattle.std.specs.Prelude.{◌≡◌, ◌∷◌, [], Result, Ok, Err, IfOk, IfErr};
ghost use Rattle.std.specs.Option.{ok_or};
ghost use Rattle.serde_json.specs.Find.{as_integer};
ghost use Rattle.serde_json.specs.View.{items_view, number_view, view};
ghost use Rattle.oidc_readers.specs.Answers.{Answers, Refuses};
ghost use Rattle.std.specs.String.{string_bytes};
ghost use Rattle.oidc_readers.specs.Seen.{SeenMember};
ghost use Rattle.oidc_members.specs.declared.reading.Reading.{Reading};
ghost use Rattle.oidc_members.specs.declared.refusal.Refusal.{Refusal};
ghost use Rattle.oidc_members.specs.declared.refusal.ParseKind.TheVariants.{WrongType};
ghost use Rattle.oidc_readers.specs.Kinds as kinds;

use crate::moment_texts::moment_in;
use crate::moments::Moment;
use oidc_members::{FieldName, Member, ParseError, ParseKind, Reading, Refusal};
use oidc_types::{Marker, Secret, Text, UrlText, UrlTextError};
use serde_json::{Number, Value};
use std::alloc::Global;
use std::marker::Model;

/// The error that refuses a field, or `Memory` where there is none for its name.
pub fn refused(alloc: Global, kind: ParseKind, field: &str) -> ParseError
    ensures refusal { Refuses (record { kind = kind; field = field.now }) result }
{
    match Refusal::of_field(alloc, kind, field) {
        Ok(refusal) => ParseError::Refused(refusal),
        Err(_) => ParseError::Memory,
    }
}

/// A kind of values: what a member of it reads as.
pub trait FieldValue: Drop {
    /// What a member reads as under a reading, or why it is refused.
    ghost read_of: { Reading → SeenMember → Result Self Refusal };

    /// The value of the member, where it is of this kind.
    fn read(alloc: Global, member: &Member, reading: Reading) -> Result<Self, ParseError>
        ensures { Answers (read_of reading member.now) result };
}

// The text that a member is.
fn text_of(alloc: Global, member: &Member) -> Result<String, ParseError>
    ensures text { IfOk result (λ text. kinds.text_kind member.now ≡ Ok (string_bytes text)) }
    ensures refused { IfErr result (λ error. Answers (kinds.text_kind member.now) (Err error)) }
{
    match member.value().as_str() {
        None => Err(refused(alloc, ParseKind::WrongType, member.name())),
        Some(text) => Ok(String::from_str(alloc, text)?),
    }
}

/// A text.
impl<M: Marker> FieldValue for Text<M> {
    ghost read_of = { λ _. kinds.text_kind };

    fn read(alloc: Global, member: &Member, _reading: Reading) -> Result<Text<M>, ParseError> {
        Ok(Text::new(text_of(alloc, member)?))
    }
}

/// A text that isn't shown.
impl<M: Marker> FieldValue for Secret<M> {
    ghost read_of = { λ _. kinds.text_kind };

    fn read(alloc: Global, member: &Member, _reading: Reading) -> Result<Secret<M>, ParseError> {
        Ok(Secret::new(text_of(alloc, member)?))
    }
}

/// A plain text.
impl FieldValue for FieldName {
    ghost read_of = { λ _. kinds.text_kind };

    fn read(alloc: Global, member: &Member, _reading: Reading) -> Result<FieldName, ParseError> {
        Ok(FieldName::new(text_of(alloc, member)?))
    }
}

// The boolean that a text names.
fn flag_named(text: &str) -> Option<bool>
    ensures { result ≡ kinds.flag_named text.now }
{
    match text {
        "true" => Some(true),
        "false" => Some(false),
        _ => None,
    }
}

// The boolean that a value is.
fn flag_in(value: &Value, reading: Reading) -> Option<bool>
    ensures { result ≡ kinds.flag_in reading (view value.now) }
{
    match value {
        Value::Bool(flag) => Some(*flag),
        Value::String(text) if reading.string_booleans => flag_named(text.as_str()),
        _ => None,
    }
}

/// True or false. Where the reading takes string booleans, the texts `true` and `false` are these.
impl FieldValue for bool {
    ghost read_of = { kinds.flag_kind };

    fn read(alloc: Global, member: &Member, reading: Reading) -> Result<bool, ParseError> {
        match flag_in(member.value(), reading) {
            None => Err(refused(alloc, ParseKind::WrongType, member.name())),
            Some(flag) => Ok(flag),
        }
    }
}

/// A whole number from 0 to 2^64 - 1.
impl FieldValue for u64 {
    ghost read_of = { λ _. kinds.whole_kind };

    fn read(alloc: Global, member: &Member, _reading: Reading) -> Result<u64, ParseError> {
        match member.value().as_u64() {
            None => Err(refused(alloc, ParseKind::WrongType, member.name())),
            Some(number) => Ok(number),
        }
    }
}

/// A text that the URL Standard takes.
impl<M: Marker> FieldValue for UrlText<M> {
    ghost read_of = { λ _. kinds.url_kind };

    fn read(alloc: Global, member: &Member, _reading: Reading) -> Result<UrlText<M>, ParseError> {
        let text = text_of(alloc, member)?;
        match UrlText::new(alloc, text) {
            Ok(url) => Ok(url),
            Err(UrlTextError::Refused(_)) => Err(refused(alloc, ParseKind::Url, member.name())),
            Err(UrlTextError::Memory) => Err(ParseError::Memory),
        }
    }
}

// The moment of so many seconds, where the number is whole and the moment in range.
fn moment_of(alloc: Global, number: &Number, member: &Member) -> Result<Moment, ParseError>
    ensures { let second = as_integer (number_view number.now) in
        Answers (kinds.seconds_read member.now second) result }
{
    match number.as_i64() {
        Some(second) => match Moment::at(second) {
            Some(moment) => Ok(moment),
            None => Err(refused(alloc, ParseKind::Moment, member.name())),
        },
        // A whole number from 2^63 on is beyond every moment.
        None if number.is_u64() => Err(refused(alloc, ParseKind::Moment, member.name())),
        None => Err(refused(alloc, ParseKind::WrongType, member.name())),
    }
}

// The moment of a text, where the reading takes texts.
fn moment_of_text(
    alloc: Global,
    text: &str,
    member: &Member,
    reading: Reading,
) -> Result<Moment, ParseError>
    ensures { Answers (kinds.text_read reading member.now text.now) result }
{
    if !reading.rfc3339_moments {
        return Err(refused(alloc, ParseKind::WrongType, member.name()));
    }
    match moment_in(text) {
        Some(moment) => Ok(moment),
        None => Err(refused(alloc, ParseKind::Moment, member.name())),
    }
}

/// A moment: a whole number of seconds in range. Where the reading takes RFC 3339 moments, a text of
/// that grammar is one too, and another text is refused as `Moment`.
impl FieldValue for Moment {
    ghost read_of = { kinds.moment_kind };

    fn read(alloc: Global, member: &Member, reading: Reading) -> Result<Moment, ParseError> {
        match member.value() {
            Value::Number(number) => moment_of(alloc, number, member),
            Value::String(text) => moment_of_text(alloc, text.as_str(), member, reading),
            _ => Err(refused(alloc, ParseKind::WrongType, member.name())),
        }
    }
}

/// An array of texts. Contracts see their list.
#[derive(Drop)]
pub struct Texts<M> {
    texts: Vec<Text<M>>,
}

impl<M> Model for Texts<M> {
    ghost use Rattle.std.specs.Prelude.{List, ℕ};

    ghost Value = { List (List ℕ) };

    ghost view = { λ t. t.texts.items };
}

impl<M: Marker> Texts<M> {
    /// The texts.
    pub fn into_vec(self) -> Vec<Text<M>>
        ensures texts { result.items ≡ self }
    {
        self.texts
    }
}

impl<M: Marker> FieldValue for Texts<M> {
    ghost read_of = { λ _. kinds.texts_kind };

    fn read(alloc: Global, member: &Member, _reading: Reading) -> Result<Texts<M>, ParseError> {
        match member.value().as_array() {
            Some(values) => texts_of(alloc, values, member),
            None => Err(refused(alloc, ParseKind::WrongType, member.name())),
        }
    }
}

// The texts that these values of the member are, where each is one.
fn texts_of<M: Marker>(
    alloc: Global,
    values: &[Value],
    member: &Member,
) -> Result<Texts<M>, ParseError>
    ensures { let texts = kinds.texts_in (items_view values.now) in
        Answers (ok_or texts (kinds.of_member WrongType member.now)) result }
{
    let mut texts = Vec::new(alloc);
    for value in values {
        let Some(text) = value.as_str() else {
            return Err(refused(alloc, ParseKind::WrongType, member.name()));
        };
        texts.push(Text::new(String::from_str(alloc, text)?))?;
    }
    Ok(Texts { texts })
}

/// A text or an array of texts. Contracts see their list.
#[derive(Drop)]
pub struct TextOrTexts<M> {
    texts: Vec<Text<M>>,
}

impl<M> Model for TextOrTexts<M> {
    ghost use Rattle.std.specs.Prelude.{List, ℕ};

    ghost Value = { List (List ℕ) };

    ghost view = { λ t. t.texts.items };
}

impl<M: Marker> TextOrTexts<M> {
    /// No text.
    pub fn none(alloc: Global) -> Self
        ensures none { result ≡ [] }
    {
        TextOrTexts {
            texts: Vec::new(alloc),
        }
    }

    /// The texts.
    pub fn into_vec(self) -> Vec<Text<M>>
        ensures texts { result.items ≡ self }
    {
        self.texts
    }
}

impl<M: Marker> FieldValue for TextOrTexts<M> {
    ghost read_of = { λ _. kinds.text_or_texts_kind };

    fn read(
        alloc: Global,
        member: &Member,
        _reading: Reading,
    ) -> Result<TextOrTexts<M>, ParseError> {
        match member.value() {
            Value::String(text) => {
                let mut texts = Vec::new(alloc);
                texts.push(Text::new(String::from_str(alloc, text.as_str())?))?;
                Ok(TextOrTexts { texts })
            }
            Value::Array(values) => {
                let texts = texts_of(alloc, values, member)?.into_vec();
                Ok(TextOrTexts { texts })
            }
            _ => Err(refused(alloc, ParseKind::WrongType, member.name())),
        }
    }
}

/// That a member stands there; its value may be any.
#[derive(Clone, Copy, Drop)]
pub struct Present;

impl FieldValue for Present {
    ghost read_of = { λ _. kinds.any_kind (record {}) };

    fn read(_alloc: Global, _member: &Member, _reading: Reading) -> Result<Present, ParseError> {
        Ok(Present)
    }
}

/// A null is an absent value, and another value is of the kind `T`.
impl<T: FieldValue> FieldValue for Option<T> {
    ghost read_of = { λ reading. kinds.or_null (T.read_of reading) };

    fn read(alloc: Global, member: &Member, reading: Reading) -> Result<Option<T>, ParseError> {
        if member.value().is_null() {
            return Ok(None);
        }
        Ok(Some(T::read(alloc, member, reading)?))
    }
}
