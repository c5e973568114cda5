//! The first pair of a form text, still encoded.
ghost use Rattle.std.specs.Prelude.{◌≡◌, ◌∷◌, ◌<◌, [], length, MatchOption};
ghost use Rattle.form_urlencoded.specs.Form.{split_once, raw_pairs};

use memchr::memchr;

// The bytes before the first separator, and those behind it.
fn cut(bytes: &[u8], separator: u8) -> (&[u8], &[u8])
    ensures before { result.0.now ≡ (split_once separator bytes.now).0 }
    ensures behind { result.1.now ≡ (split_once separator bytes.now).1 }
    ensures shorter { 0 < length bytes.now → length result.1.now < length bytes.now }
{
    match memchr(separator, bytes) {
        Some(i) => (&bytes[..i], &bytes[i + 1..]),
        None => (bytes, &[]),
    }
}

// The name and the value of the first pair of a text, and what stands behind it.
pub(crate) fn first_pair(text: &[u8]) -> Option<(&[u8], &[u8], &[u8])>
    ensures { MatchOption result (raw_pairs text.now ≡ [])
        (λ first. (raw_pairs text.now ≡ (first.0.now, first.1.now) ∷ raw_pairs first.2.now)
        × (length first.2.now < length text.now)) }
{
    let mut rest = text;
    while !rest.is_empty() {
        let (piece, later) = cut(rest, b'&');
        if !piece.is_empty() {
            let (name, value) = cut(piece, b'=');
            return Some((name, value, later));
        }
        rest = later;
    }
    None
}
