// Values that are known at sight, scalars and an array of one text: their bytes say what they are, and nothing need be
// unescaped.
ghost use Rattle.std.specs.Prelude.{◌≡◌, ◌==◌, ◌&&◌, ◌<◌, IfSome, IsUtf8, Some, false, true, length, nat_lt, slice_index};
ghost use Rattle.std.specs.Char.{is_ascii_digit};
ghost use Rattle.std.specs.List.{list_all};
ghost use Rattle.serde_json.specs.Data.{array, item, no_items, number, string, unsigned};
ghost use Rattle.serde_json.specs.Read.{number_from};
ghost use Rattle.oidc_members.specs.Sight.{is_plain as is_plain_byte, is_plain_ascii as is_plain_ascii_byte, data_of, IsQuoted, ReadsAs};

use fast_float::Numeral;
use percent_encoding::ascii_str;

// A string of plain bytes, a whole number without a sign, true, false or null.
#[derive(Clone, Copy, Drop)]
pub(crate) enum Scalar<'a> {
    Text(&'a str),
    Whole(u64),
    Bool(bool),
    Null,
}

fn is_plain(byte: u8) -> bool
    ensures { result ≡ is_plain_byte byte }
{
    (byte >= 0x20) & (byte != b'"') & (byte != b'\\')
}

// Whether all bytes are plain. It goes on to the end, so that LLVM tests many at once.
pub(crate) fn is_plain_text(bytes: &[u8]) -> bool
    ensures { result ≡ list_all is_plain_byte bytes.now }
{
    let mut plain = true;
    for byte in bytes {
        plain = plain & is_plain(*byte);
    }
    plain
}

// The same of bytes that are ASCII too.
fn is_plain_ascii(bytes: &[u8]) -> bool
    ensures { result ≡ list_all is_plain_ascii_byte bytes.now }
{
    let mut plain = true;
    for byte in bytes {
        plain = plain & (is_plain(*byte) & (*byte < 0x80));
    }
    plain
}

// The text that bytes are, where they are plain. Most are ASCII, and are gone over once.
fn content_text(bytes: &[u8]) -> Option<&str>
    ensures same { IfSome result (λ text. text.now ≡ bytes.now) }
    ensures plain { IfSome result (λ text. list_all is_plain_byte bytes.now ≡ true) }
    ensures utf8 { IfSome result (λ text. IsUtf8 bytes.now) }
{
    if is_plain_ascii(bytes) {
        return Some(ascii_str(bytes));
    }
    if !is_plain_text(bytes) {
        return None;
    }
    str::from_utf8(bytes).ok()
}

// The text of a string without escapes, where the bytes are one.
pub(crate) fn plain_text(bytes: &[u8]) -> Option<&str>
    ensures reads { IfSome result (λ text. ReadsAs bytes.now (string text.now)) }
    ensures quoted { IfSome result (λ text. IsQuoted bytes.now text.now) }
{
    if bytes.len() < 2 || bytes[0] != b'"' || bytes[bytes.len() - 1] != b'"' {
        return None;
    }
    let text = content_text(&bytes[1..bytes.len() - 1])?;
    Some(text)
}

// The text of an array of one such string, where the bytes are one and no white space stands in it.
pub(crate) fn lone_text(bytes: &[u8]) -> Option<&str>
    ensures { IfSome result
        (λ text. ReadsAs bytes.now (array (item (string text.now) no_items))) }
{
    if bytes.len() < 2 || bytes[0] != b'[' || bytes[bytes.len() - 1] != b']' {
        return None;
    }
    let text = plain_text(&bytes[1..bytes.len() - 1])?;
    Some(text)
}

fn are_digits(bytes: &[u8]) -> bool
    ensures { result ≡ list_all is_ascii_digit bytes.now }
{
    bytes.iter().all(|byte| byte.is_ascii_digit())
}

fn integer(numeral: &Numeral<'_>) -> Option<u64>
    ensures { IfSome result (λ n. number_from false numeral.now ≡ Some (unsigned n)) }
{
    numeral.to_u64()
}

fn has_leading_zero(bytes: &[u8]) -> bool
    requires { 0 < length bytes.now }
    ensures { result ≡ (slice_index bytes.now 0 == 48 && nat_lt 1 (length bytes.now)) }
{
    bytes[0] == b'0' && bytes.len() > 1
}

// The number that decimal digits are, where no zero stands before another digit.
fn whole_number(bytes: &[u8]) -> Option<u64>
    ensures { IfSome result (λ n. ReadsAs bytes.now (number (unsigned n))) }
{
    if bytes.is_empty() || !are_digits(bytes) || has_leading_zero(bytes) {
        return None;
    }
    let n = integer(&Numeral::scan(bytes))?;
    Some(n)
}

fn word(bytes: &[u8]) -> Option<Scalar<'static>>
    ensures { IfSome result (λ scalar. ReadsAs bytes.now (data_of scalar)) }
{
    match bytes {
        b"true" => Some(Scalar::Bool(true)),
        b"false" => Some(Scalar::Bool(false)),
        b"null" => Some(Scalar::Null),
        _ => None,
    }
}

// The scalar that the bytes are, where it is known at sight.
pub(crate) fn at_sight(bytes: &[u8]) -> Option<Scalar<'_>>
    ensures { IfSome result (λ scalar. ReadsAs bytes.now (data_of scalar)) }
{
    if let Some(text) = plain_text(bytes) {
        return Some(Scalar::Text(text));
    }
    if let Some(n) = whole_number(bytes) {
        return Some(Scalar::Whole(n));
    }
    word(bytes)
}
