//! The values of one name in a form text, of whose other pairs nothing is kept.
ghost use Rattle.std.specs.Prelude.{◌≡◌, IfOk, option_map};
ghost use Rattle.std.specs.Cow.{cow_str_bytes};
ghost use Rattle.std.specs.Option.{option_copied};
ghost use Rattle.std.specs.Str.{bytes_eq};
ghost use Rattle.oidc_pairs.specs.Pairs.{text_of, values, first_of, only_of};

use crate::decoding::text_of as decode;
use crate::front::first_pair;
use std::alloc::{AllocError, Global};
use std::borrow::CowStr;

// Whether an encoded name stands for this one.
fn stands_for(alloc: Global, encoded: &[u8], name: &str) -> Result<bool, AllocError>
    ensures { IfOk result (λ same. same ≡ bytes_eq (text_of encoded.now) name.now) }
{
    let decoded = decode(alloc, encoded)?;
    Ok(decoded.as_str() == name)
}

// The text that an encoded value stands for, where there is one.
fn decoded(alloc: Global, value: Option<&[u8]>) -> Result<Option<CowStr<'_, Global>>, AllocError>
    ensures { IfOk result (λ text. option_map cow_str_bytes text
        ≡ option_map text_of (option_copied value.entry)) }
{
    match value {
        Some(encoded) => Ok(Some(decode(alloc, encoded)?)),
        None => Ok(None),
    }
}

/// The value of the first pair with this name in a form text, where there is one. It is borrowed from the text
/// where decoding changes nothing, and no other pair is kept.
pub fn first_value<'a>(
    alloc: Global,
    text: &'a [u8],
    name: &str,
) -> Result<Option<CowStr<'a, Global>>, AllocError>
    ensures { IfOk result (λ found. option_map cow_str_bytes found
        ≡ first_of (values text.now name.now)) }
{
    let mut rest = text;
    while let Some((encoded, value, later)) = first_pair(rest) {
        if stands_for(alloc, encoded, name)? {
            return decoded(alloc, Some(value));
        }
        rest = later;
    }
    Ok(None)
}

/// The value of the pair with this name in a form text, where there is exactly one such pair. It is borrowed from
/// the text where decoding changes nothing, and no other pair is kept.
pub fn only_value<'a>(
    alloc: Global,
    text: &'a [u8],
    name: &str,
) -> Result<Option<CowStr<'a, Global>>, AllocError>
    ensures { IfOk result (λ found. option_map cow_str_bytes found
        ≡ only_of (values text.now name.now)) }
{
    let mut found = None;
    let mut rest = text;
    while let Some((encoded, value, later)) = first_pair(rest) {
        if stands_for(alloc, encoded, name)? {
            if found.is_some() {
                return Ok(None);
            }
            found = Some(value);
        }
        rest = later;
    }
    decoded(alloc, found)
}
