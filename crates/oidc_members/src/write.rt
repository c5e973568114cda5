// Members that are written.
ghost use Rattle.std.specs.Prelude.{◌≡◌, ◌∷◌, ◌++◌, true, false, IfOk, IfSome, OnOk};
ghost use Rattle.std.specs.List.{list_all};
ghost use Rattle.serde_json.specs.Data.{array, boolean, item, no_items, number, string, unsigned};
ghost use Rattle.serde_json.specs.Written.{comma_if, compact_text, has_float};
ghost use Rattle.serde_json.specs.View.{items_view, view};
ghost use Rattle.oidc_members.specs.Sight.{is_plain};
ghost use Rattle.oidc_members.specs.Write.{any_float, object_text};

use crate::member_name::MemberName;
use crate::sight::is_plain_text;
use itoa::Buffer;
use serde_json::Value;
use std::alloc::{AllocError, Global};
use std::marker::Model;

/// A member that is written: a name and its value. A contract sees it as the record of these.
#[derive(Drop)]
pub struct OutMember {
    /// The member's name.
    pub name: MemberName,
    /// The member's value.
    pub value: Value,
}

impl Model for OutMember {
    ghost use Rattle.serde_json.specs.View.{view as data_of};
    ghost use Rattle.oidc_members.specs.Seen.{OutSeen};
    ghost use Rattle.oidc_members.specs.Codes.{out_seen_code};

    ghost Value = { OutSeen };

    ghost coded = { out_seen_code };

    ghost view = { λ m. record { name = m.name; value = data_of m.value } };
}

// The name in quotes, with its escapes.
fn quoted_name(alloc: Global, name: &str) -> Result<Vec<u8>, AllocError>
    ensures { IfOk result (λ text. text.items ≡ compact_text (string name.now)) }
{
    Value::String(String::from_str(alloc, name)?).to_vec(alloc)
}

// Adds a text in quotes that needs no escape.
fn push_plain(out: &mut Vec<u8>, text: &[u8]) -> Result<(), AllocError>
    requires { list_all is_plain text.now ≡ true }
    ensures { OnOk result (out.new.items ≡ out.old.items ++ compact_text (string text.now)) }
{
    out.push(b'"')?;
    out.extend_from_slice(text)?;
    out.push(b'"')?;
    Ok(())
}

// Adds a text in quotes, with its escapes.
fn push_quoted(alloc: Global, out: &mut Vec<u8>, text: &str) -> Result<(), AllocError>
    ensures { OnOk result (out.new.items ≡ out.old.items ++ compact_text (string text.now)) }
{
    out.extend_from_slice(&quoted_name(alloc, text)?)?;
    Ok(())
}

// The same. A text that needs no escape is copied as it is.
fn push_text(alloc: Global, out: &mut Vec<u8>, text: &str) -> Result<(), AllocError>
    ensures { OnOk result (out.new.items ≡ out.old.items ++ compact_text (string text.now)) }
{
    if is_plain_text(text.as_bytes()) {
        push_plain(out, text.as_bytes())
    } else {
        push_quoted(alloc, out, text)
    }
}

// Adds the text of any value.
fn push_other(alloc: Global, out: &mut Vec<u8>, value: &Value) -> Result<(), AllocError>
    ensures { OnOk result (has_float (view value.now) ≡ false
        → out.new.items ≡ out.old.items ++ compact_text (view value.now)) }
{
    out.extend_from_slice(&value.to_vec(alloc)?)?;
    Ok(())
}

// Adds a boolean.
fn push_flag(out: &mut Vec<u8>, flag: bool) -> Result<(), AllocError>
    ensures { OnOk result (out.new.items ≡ out.old.items ++ compact_text (boolean flag)) }
{
    if flag {
        out.extend_from_slice(b"true")?;
    } else {
        out.extend_from_slice(b"false")?;
    }
    Ok(())
}

// Adds a whole number.
fn push_whole(out: &mut Vec<u8>, n: u64) -> Result<(), AllocError>
    ensures { OnOk result (out.new.items ≡ out.old.items ++ compact_text (number (unsigned n))) }
{
    let mut digits = Buffer::new();
    out.extend_from_slice(digits.format(n).as_bytes())?;
    Ok(())
}

// The text of an array that holds one text and nothing else.
fn lone_text(items: &[Value]) -> Option<&str>
    ensures { IfSome result (λ text. items_view items.now ≡ item (string text.now) no_items) }
{
    match items {
        [Value::String(text)] => Some(text.as_str()),
        _ => None,
    }
}

// Adds an array of one text.
fn push_lone(alloc: Global, out: &mut Vec<u8>, text: &str) -> Result<(), AllocError>
    ensures { OnOk result (out.new.items
        ≡ out.old.items ++ compact_text (array (item (string text.now) no_items))) }
{
    out.push(b'[')?;
    push_text(alloc, out, text)?;
    out.push(b']')?;
    Ok(())
}

// Adds the text of any value. Texts, booleans, whole numbers and an array of one text, of which most
// members are, are written in place; `serde_json` writes each value into memory of its own.
fn push_value(alloc: Global, out: &mut Vec<u8>, value: &Value) -> Result<(), AllocError>
    ensures { OnOk result (has_float (view value.now) ≡ false
        → out.new.items ≡ out.old.items ++ compact_text (view value.now)) }
{
    match value {
        Value::String(text) => push_text(alloc, out, text.as_str()),
        Value::Bool(flag) => push_flag(out, *flag),
        Value::Number(number) => match number.as_u64() {
            Some(n) => push_whole(out, n),
            None => push_other(alloc, out, value),
        },
        Value::Array(items) => match lone_text(items) {
            Some(text) => push_lone(alloc, out, text),
            None => push_other(alloc, out, value),
        },
        _ => push_other(alloc, out, value),
    }
}

// Appends a member, behind a comma where another stands before it.
fn push_member(
    alloc: Global,
    text: &mut Vec<u8>,
    later: bool,
    member: &OutMember,
) -> Result<(), AllocError>
    ensures { OnOk result (has_float member.now.value ≡ false → text.new.items
        ≡ text.old.items ++ (comma_if later ++ (compact_text (string member.now.name)
        ++ 58 ∷ compact_text member.now.value))) }
{
    if later {
        text.push(b',')?;
    }
    push_text(alloc, text, member.name.as_str())?;
    text.push(b':')?;
    push_value(alloc, text, &member.value)
}

// How many bytes there is room for at once. The claims of most tokens have fewer.
const ROOM: usize = 384;

/// The compact text of the object that has these members, in the order of the list, where no value
/// holds a float. Where one does, nothing is said of the text.
pub fn write_object(alloc: Global, members: &[OutMember]) -> Result<Vec<u8>, AllocError>
    ensures { IfOk result (λ text. any_float members.now ≡ false
        → text.items ≡ object_text members.now) }
{
    let mut text = Vec::with_capacity(alloc, ROOM)?;
    text.push(b'{')?;
    let mut later = false;
    for member in members {
        push_member(alloc, &mut text, later, member)?;
        later = true;
    }
    text.push(b'}')?;
    Ok(text)
}
