// Where a place of a text stands, as one pass over its bytes finds it.
ghost use Rattle.std.specs.Prelude.{◌≡◌, ◌==◌, ◌||◌, ◌+◌, ◌<◌, ◌≤◌, length, not, slice_index};
ghost use Rattle.oidc_members.specs.Places.{open_brace, quote, backslash, is_outside, is_at_level_one, is_even, backslashes, opened, closed};
ghost use Rattle.oidc_members.specs.Scan.{IsAt, IsPassed, ArePlain};

use memchr::memchr2;

// What stands before a place.
#[derive(Clone, Copy, Debug, Drop)]
pub(crate) struct Scan {
    // an odd number of unescaped quotes
    pub(crate) in_string: bool,
    // directly before it, an odd number of backslashes
    pub(crate) escaped: bool,
    // how many more braces and brackets were opened than closed, outside strings
    pub(crate) level: usize,
}

// How many bytes of a string are looked at one by one before the others are searched. Most names and values have
// fewer.
const NEAR: usize = 16;

fn is_mark(byte: u8) -> bool
    ensures { result ≡ (byte == quote || byte == backslash) }
{
    byte == b'"' || byte == b'\\'
}

// The first quote or backslash from a place on, or the last place where none stands before it.
fn plain_end(text: &[u8], from: usize, last: usize) -> usize
    requires range { from ≤ last }
    requires within { last ≤ length text.now }
    ensures range { (from ≤ result) × (result ≤ last) }
    ensures plain { ArePlain text.now from result }
{
    let near = if last - from <= NEAR {
        last
    } else {
        from + NEAR
    };
    for i in from..near {
        if is_mark(text[i]) {
            return i;
        }
    }
    far_end(text, near, last)
}

// The same, by a search.
fn far_end(text: &[u8], from: usize, last: usize) -> usize
    requires range { from ≤ last }
    requires within { last ≤ length text.now }
    ensures range { (from ≤ result) × (result ≤ last) }
    ensures plain { ArePlain text.now from result }
{
    match memchr2(b'"', b'\\', &text[from..last]) {
        Some(plain) => from + plain,
        None => last,
    }
}

impl Scan {
    // The state behind the brace that a text starts with.
    pub(crate) fn behind_brace(text: &[u8]) -> Scan
        requires some { 0 < length text.now }
        requires brace { slice_index text.now 0 ≡ open_brace }
        ensures at { IsAt text.now 1 result }
        ensures inside { 0 < result.level }
    {
        Scan {
            in_string: false,
            escaped: false,
            level: 1,
        }
    }

    #[tactic(auto, using(crate::proofs::Steps::outside_behind))]
    fn in_string_behind(&self, text: &[u8], i: usize) -> bool
        requires within { i < length text.now }
        requires at { IsAt text.now i self.now }
        ensures { is_outside text.now (i + 1) ≡ not result }
    {
        if text[i] == b'"' && !self.escaped {
            !self.in_string
        } else {
            self.in_string
        }
    }

    #[tactic(auto, using(crate::proofs::Steps::escapes_more))]
    fn escaped_behind(&self, text: &[u8], i: usize) -> bool
        requires within { i < length text.now }
        requires at { IsAt text.now i self.now }
        ensures { is_even (backslashes text.now (i + 1)) ≡ not result }
    {
        text[i] == b'\\' && !self.escaped
    }

    #[tactic(auto, using(crate::proofs::Steps::opened_more, crate::proofs::Steps::closed_more))]
    fn level_behind(&self, text: &[u8], i: usize) -> usize
        requires within { i < length text.now }
        requires at { IsAt text.now i self.now }
        requires open { 0 < self.now.level }
        ensures level { closed text.now (i + 1) + result ≡ opened text.now (i + 1) }
        ensures bound { result ≤ i + 1 }
    {
        if self.in_string {
            return self.level;
        }
        match text[i] {
            b'{' | b'[' => self.level + 1,
            b'}' | b']' => self.level - 1,
            _ => self.level,
        }
    }

    // The state one place on.
    pub(crate) fn step(&self, text: &[u8], i: usize) -> Scan
        requires within { i < length text.now }
        requires at { IsAt text.now i self.now }
        requires open { 0 < self.now.level }
        ensures { IsAt text.now (i + 1) result }
    {
        Scan {
            in_string: self.in_string_behind(text, i),
            escaped: self.escaped_behind(text, i),
            level: self.level_behind(text, i),
        }
    }

    // The next place that may change the state: the plain bytes of a string are passed over.
    pub(crate) fn skip(&self, text: &[u8], i: usize, last: usize) -> usize
        requires at { IsAt text.now i self.now }
        requires range { i ≤ last }
        requires within { last ≤ length text.now }
        ensures range { (i ≤ result) × (result ≤ last) }
        ensures passed { IsPassed text.now i result self.now }
    {
        if self.in_string && !self.escaped {
            plain_end(text, i, last)
        } else {
            i
        }
    }

    // Whether the byte stands at this place, outside strings and of level 1.
    pub(crate) fn is_at_level_one(&self, text: &[u8], byte: u8, i: usize) -> bool
        requires within { i < length text.now }
        requires at { IsAt text.now i self.now }
        ensures { result ≡ is_at_level_one text.now byte i }
    {
        !self.in_string && self.level == 1 && text[i] == byte
    }
}
