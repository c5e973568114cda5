// The values that the bytes of names and values are.
ghost use Rattle.std.specs.Prelude.{◌≡◌, IfOk, option_and_then, option_map};
ghost use Rattle.std.specs.Cow.{cow_str_bytes};
ghost use Rattle.serde_json.specs.Data.{array, item, no_items, string};
ghost use Rattle.serde_json.specs.Find.{as_str};
ghost use Rattle.serde_json.specs.View.{view};
ghost use Rattle.oidc_members.specs.Objects.{read_bytes, trimmed};

use crate::sight::{Scalar, at_sight, lone_text, plain_text};
use serde_json::{Number, Value};
use std::alloc::{AllocError, Global};
use std::borrow::CowStr;

// Any value. `serde_json` zeroes some 16 KB for each read, so it stands in a function of its own.
#[inline(never)]
fn read_whole(alloc: Global, bytes: &[u8]) -> Result<Option<Value>, AllocError>
    ensures { IfOk result (λ found. option_map view found ≡ read_bytes bytes.now) }
{
    match Value::from_slice(alloc, bytes) {
        Ok(value) => Ok(Some(value)),
        Err(error) if error.is_memory() => Err(AllocError),
        Err(_) => Ok(None),
    }
}

// An array of one text.
fn array_of_one(alloc: Global, text: &str) -> Result<Value, AllocError>
    ensures { IfOk result (λ value. view value ≡ array (item (string text.now) no_items)) }
{
    let mut items = Vec::with_capacity(alloc, 1)?;
    items.push(Value::String(String::from_str(alloc, text)?))?;
    Ok(Value::Array(items))
}

// A value that is no scalar known at sight.
fn other_value(alloc: Global, bytes: &[u8], text: &[u8]) -> Result<Option<Value>, AllocError>
    requires { text.now ≡ trimmed bytes.now }
    ensures { IfOk result (λ found. option_map view found ≡ read_bytes bytes.now) }
{
    match lone_text(text) {
        Some(text) => Ok(Some(array_of_one(alloc, text)?)),
        None => read_whole(alloc, bytes),
    }
}

// The value that bytes are: `text` is those bytes without the white space around them.
pub(crate) fn value_of(
    alloc: Global,
    bytes: &[u8],
    text: &[u8],
) -> Result<Option<Value>, AllocError>
    requires { text.now ≡ trimmed bytes.now }
    ensures { IfOk result (λ found. option_map view found ≡ read_bytes bytes.now) }
{
    match at_sight(text) {
        Some(Scalar::Text(text)) => Ok(Some(Value::String(String::from_str(alloc, text)?))),
        Some(Scalar::Whole(n)) => Ok(Some(Value::Number(Number::from(n)))),
        Some(Scalar::Bool(b)) => Ok(Some(Value::Bool(b))),
        Some(Scalar::Null) => Ok(Some(Value::Null)),
        None => other_value(alloc, bytes, text),
    }
}

// The same of a name, which is a text: it is borrowed where it has no escapes.
pub(crate) fn name_of<'a>(
    alloc: Global,
    bytes: &'a [u8],
    text: &'a [u8],
) -> Result<Option<CowStr<'a, Global>>, AllocError>
    requires { text.now ≡ trimmed bytes.now }
    ensures { IfOk result (λ found. option_map cow_str_bytes found
        ≡ option_and_then as_str (read_bytes bytes.now)) }
{
    if let Some(text) = plain_text(text) {
        return Ok(Some(CowStr::Borrowed(text)));
    }
    match read_whole(alloc, bytes)? {
        Some(Value::String(name)) => Ok(Some(CowStr::Owned(name))),
        _ => Ok(None),
    }
}
