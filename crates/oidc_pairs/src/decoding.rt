//! The texts that encoded names and values stand for.
ghost use Rattle.std.specs.Prelude.{◌≡◌, ◌++◌, ◌∷◌, ◌<◌, ◌≤◌, [], length, take, true, IfOk, IsTrue, MatchOption};
ghost use Rattle.std.specs.Char.{digit_value};
ghost use Rattle.std.specs.Cow.{cow_str_bytes};
ghost use Rattle.std.specs.List.{list_all};
ghost use Rattle.std.specs.Option.{SomeIff};
ghost use Rattle.form_urlencoded.specs.Form.{decode};
ghost use Rattle.oidc_pairs.specs.Pairs.{text_of as text_of_bytes};
ghost use Rattle.oidc_pairs.specs.Decoding as plain;
ghost use Rattle.oidc_pairs.specs.Decoding.{IsEscape};

use memchr::memchr2;
use percent_encoding::{ascii_str, decode_utf8_lossy};
use std::alloc::{AllocError, Global};
use std::borrow::{CowSlice, CowStr};

// How many bytes are decoded one by one before plain ones are looked for again.
const ROOM: usize = 32;

// The value of a hexadecimal digit.
fn hex_digit(byte: u8) -> Option<u8>
    ensures { SomeIff result (digit_value byte < 16) (digit_value byte) }
{
    match byte {
        b'0'..=b'9' => Some(byte - b'0'),
        b'A'..=b'F' => Some(byte - b'A' + 10),
        b'a'..=b'f' => Some(byte - b'a' + 10),
        _ => None,
    }
}

// The byte of an escape whose percent sign stands before these bytes, and what stands behind it.
fn escape(later: &[u8]) -> Option<(u8, &[u8])>
    ensures { IsEscape later.now result }
{
    let [high, low, behind @ ..] = later else {
        return None;
    };
    let high = hex_digit(*high)?;
    let low = hex_digit(*low)?;
    Some((high * 16 + low, behind))
}

// The first byte that encoded bytes stand for, and the bytes that the others stand for.
fn first_byte(first: u8, later: &[u8]) -> (u8, &[u8])
    ensures bytes { decode (first ∷ later.now) ≡ result.0 ∷ decode result.1.now }
    ensures shorter { length result.1.now ≤ length later.now }
{
    if first == b'+' {
        return (b' ', later);
    }
    if first != b'%' {
        return (first, later);
    }
    match escape(later) {
        Some(byte) => byte,
        None => (b'%', later),
    }
}

// Fills a room with bytes that encoded ones stand for: how many they are, and what is left.
fn fill<'a>(room: &mut [u8; ROOM], encoded: &'a [u8]) -> (usize, &'a [u8])
    ensures room { result.0 ≤ 32 }
    ensures bytes { take result.0 room.new ++ decode result.1.now ≡ decode encoded.now }
    ensures within { length result.1.now ≤ length encoded.now }
    ensures shorter { 0 < length encoded.now → length result.1.now < length encoded.now }
{
    let mut used = 0;
    let mut rest = encoded;
    while used < ROOM {
        let [first, later @ ..] = rest else {
            return (used, rest);
        };
        let (byte, behind) = first_byte(*first, later);
        room[used] = byte;
        used += 1;
        rest = behind;
    }
    (used, rest)
}

// The bytes up to the first percent sign or plus sign, which stand for themselves, and those from there on.
fn plain_front(encoded: &[u8]) -> (&[u8], &[u8])
    ensures bytes { result.0.now ++ decode result.1.now ≡ decode encoded.now }
    ensures within { length result.1.now ≤ length encoded.now }
{
    match memchr2(b'%', b'+', encoded) {
        Some(i) => encoded.split_at(i),
        None => (encoded, &[]),
    }
}

// The bytes that encoded ones stand for: plain ones are copied at once, and those behind them in a room.
fn decoded_bytes(alloc: Global, encoded: &[u8]) -> Result<Vec<u8>, AllocError>
    ensures { IfOk result (λ bytes. bytes.items ≡ decode encoded.now) }
{
    let mut bytes = Vec::with_capacity(alloc, encoded.len())?;
    let mut room = [0u8; ROOM];
    let mut rest = encoded;
    while !rest.is_empty() {
        let (plain, behind) = plain_front(rest);
        bytes.extend_from_slice(plain)?;
        let (used, later) = fill(&mut room, behind);
        bytes.extend_from_slice(&room[..used])?;
        rest = later;
    }
    Ok(bytes)
}

// How many bytes are looked at one by one for whether they are plain. Names and many values have fewer.
const SHORT: usize = 16;

fn is_plain_byte(byte: u8) -> bool
    ensures { result ≡ plain.is_plain_byte byte }
{
    byte < 0x80 && byte != b'%' && byte != b'+'
}

// Whether bytes are ASCII and stand for themselves.
fn is_plain(bytes: &[u8]) -> bool
    ensures { result ≡ list_all plain.is_plain_byte bytes.now }
{
    bytes.iter().all(|byte| is_plain_byte(*byte))
}

// The same of bytes that are few.
fn is_short_and_plain(bytes: &[u8]) -> bool
    ensures plain { IsTrue result → list_all plain.is_plain_byte bytes.now ≡ true }
{
    bytes.len() <= SHORT && is_plain(bytes)
}

// The text that encoded bytes stand for, borrowed from them where decoding changes nothing.
pub(crate) fn text_of(alloc: Global, encoded: &[u8]) -> Result<CowStr<'_, Global>, AllocError>
    ensures { IfOk result (λ text. cow_str_bytes text ≡ text_of_bytes encoded.now) }
{
    if is_short_and_plain(encoded) {
        return Ok(CowStr::Borrowed(ascii_str(encoded)));
    }
    match memchr2(b'%', b'+', encoded) {
        Some(_) => {
            let bytes = decoded_bytes(alloc, encoded)?;
            decode_utf8_lossy(alloc, CowSlice::Owned(bytes))
        }
        None => decode_utf8_lossy(alloc, CowSlice::Borrowed(encoded)),
    }
}
