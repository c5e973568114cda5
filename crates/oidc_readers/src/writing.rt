//! Members that a record is written as.
//!
//! Each function appends a member, or nothing where there is no value. What it appends is UTF-8, as a
//! `MemberName` and the texts of a `Value` are. `AllocError` is want of memory, the one error, after which
//! the members are as they were.

ghost use Rattle.std.specs.Prelude.{◌≡◌, ◌++◌, IfOk, OnOk, OnErr, option_map};
ghost use Rattle.std.specs.Option.{option_copied};
ghost use Rattle.serde_json.specs.View.{view};
ghost use Rattle.serde_json.specs.Data.{string};
ghost use Rattle.oidc_readers.specs.Writing as spec;
ghost use Rattle.oidc_readers.specs.WrittenBack.{KeepsUtf8};

use crate::moments::seconds_value;
use jiff::Timestamp;
use oidc_members::{MemberName, OutMember};
use oidc_types::{Marker, Text};
use serde_json::Value;
use std::alloc::{AllocError, Global};

/// The name of a member that is a word of the program. It takes no memory.
pub fn named(word: &'static str) -> MemberName
    ensures { result ≡ word.now }
{
    MemberName::of_word(word)
}

/// Appends a member.
pub fn put(members: &mut Vec<OutMember>, name: MemberName, value: Value) -> Result<(), AllocError>
    ensures put { OnOk result
        (members.new.items ≡ members.old.items ++ spec.one_member name (view value)) }
    ensures err { OnErr result (members.new.items ≡ members.old.items) }
    ensures texts { OnOk result (KeepsUtf8 members.old.items members.new.items) }
{
    // Read, since a text is UTF-8.
    let _text = name.as_str();
    members.push(OutMember { name, value })?;
    Ok(())
}

/// Appends a text.
pub fn put_text(
    alloc: Global,
    members: &mut Vec<OutMember>,
    name: MemberName,
    text: &str,
) -> Result<(), AllocError>
    ensures put { OnOk result
        (members.new.items ≡ members.old.items ++ spec.one_member name (string text.now)) }
    ensures err { OnErr result (members.new.items ≡ members.old.items) }
    ensures texts { OnOk result (KeepsUtf8 members.old.items members.new.items) }
{
    let text = String::from_str(alloc, text)?;
    put(members, name, Value::String(text))
}

/// Appends a text, where there is one.
pub fn put_optional_text(
    alloc: Global,
    members: &mut Vec<OutMember>,
    name: MemberName,
    text: Option<&str>,
) -> Result<(), AllocError>
    ensures put { let text = option_copied text.entry in OnOk result
        (members.new.items ≡ members.old.items ++ spec.text_member name text) }
    ensures err { OnErr result (members.new.items ≡ members.old.items) }
    ensures texts { OnOk result (KeepsUtf8 members.old.items members.new.items) }
{
    match text {
        None => Ok(()),
        Some(text) => put_text(alloc, members, name, text),
    }
}

/// Appends a whole number, where there is one.
pub fn put_optional_whole(
    alloc: Global,
    members: &mut Vec<OutMember>,
    name: MemberName,
    number: Option<u64>,
) -> Result<(), AllocError>
    ensures put { OnOk result
        (members.new.items ≡ members.old.items ++ spec.whole_member name number) }
    ensures err { OnErr result (members.new.items ≡ members.old.items) }
    ensures texts { OnOk result (KeepsUtf8 members.old.items members.new.items) }
{
    match number {
        None => Ok(()),
        Some(number) => put(members, name, Value::from(number)),
    }
}

/// Appends a moment as its whole seconds, rounded down, where there is one.
pub fn put_optional_moment(
    alloc: Global,
    members: &mut Vec<OutMember>,
    name: MemberName,
    moment: Option<Timestamp>,
) -> Result<(), AllocError>
    ensures put { let moment = option_map (λ t. t.nanosecond) moment in OnOk result
        (members.new.items ≡ members.old.items ++ spec.moment_member name moment) }
    ensures err { OnErr result (members.new.items ≡ members.old.items) }
    ensures texts { OnOk result (KeepsUtf8 members.old.items members.new.items) }
{
    match moment {
        None => Ok(()),
        Some(moment) => put(members, name, seconds_value(moment)),
    }
}

/// Appends an array of texts, where there is one.
pub fn put_texts<M: Marker>(
    alloc: Global,
    members: &mut Vec<OutMember>,
    name: MemberName,
    texts: Option<&[Text<M>]>,
) -> Result<(), AllocError>
    ensures put { let texts = option_copied texts.entry in OnOk result
        (members.new.items ≡ members.old.items ++ spec.texts_member name texts) }
    ensures err { OnErr result (members.new.items ≡ members.old.items) }
    ensures texts { OnOk result (KeepsUtf8 members.old.items members.new.items) }
{
    match texts {
        None => Ok(()),
        Some(texts) => put(members, name, texts_value(alloc, texts)?),
    }
}

fn texts_value<M: Marker>(alloc: Global, texts: &[Text<M>]) -> Result<Value, AllocError>
    ensures { IfOk result (λ value. view value ≡ spec.texts_data texts.now) }
{
    let mut values = Vec::with_capacity(alloc, texts.len())?;
    for text in texts {
        values.push(Value::String(String::from_str(alloc, text.as_str())?))?;
    }
    Ok(Value::Array(values))
}
