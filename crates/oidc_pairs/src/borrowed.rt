//! Pairs that are borrowed from their text, and their reader.
ghost use Rattle.std.specs.Prelude.{◌≡◌, IfOk};
ghost use Rattle.std.specs.Option.{option_copied};
ghost use Rattle.oidc_pairs.specs.Pairs.{pairs, values_in, first_of, only_of};

use crate::decoding::text_of;
use crate::front::first_pair;
use std::alloc::{AllocError, Global};
use std::borrow::CowStr;
use std::marker::Model;

// How many pairs there is room for at once. Lines of scripts have at most as many.
const ROOM: usize = 12;

/// A name and its value, both decoded, each borrowed from its text where decoding changes nothing. Contracts see it
/// as the pair of the two texts.
#[derive(Drop)]
pub struct BorrowedPair<'a> {
    name: CowStr<'a, Global>,
    value: CowStr<'a, Global>,
}

impl<'a> Model for BorrowedPair<'a> {
    ghost use Rattle.std.specs.Prelude.{List, ℕ};
    ghost use Rattle.std.specs.Cow.{cow_str_bytes};

    ghost Value = { List ℕ × List ℕ };

    ghost view = { λ p. (cow_str_bytes p.name, cow_str_bytes p.value) };
}

impl<'a> BorrowedPair<'a> {
    /// The name.
    pub fn name(&self) -> &str
        ensures { result.now ≡ self.now.0 }
    {
        self.name.as_str()
    }

    /// The value, empty where the text had none.
    pub fn value(&self) -> &str
        ensures { result.now ≡ self.now.1 }
    {
        self.value.as_str()
    }
}

/// The pairs of a text, in their order, each borrowed from it where decoding changes nothing. Contracts see them as
/// the list of the pairs.
#[derive(Drop)]
pub struct BorrowedPairs<'a> {
    items: Vec<BorrowedPair<'a>>,
}

impl<'a> Model for BorrowedPairs<'a> {
    ghost use Rattle.std.specs.Prelude.{List, ℕ};

    ghost Value = { List (List ℕ × List ℕ) };

    ghost view = { λ p. p.items.items };
}

impl<'a> BorrowedPairs<'a> {
    /// The pairs of a form text, as [`Pairs::parse`](crate::Pairs::parse) reads them.
    pub fn parse(alloc: Global, text: &'a [u8]) -> Result<Self, AllocError>
        ensures { IfOk result (λ read. read ≡ pairs text.now) }
    {
        let mut items = Vec::with_capacity(alloc, ROOM)?;
        let mut rest = text;
        while let Some((name, value, later)) = first_pair(rest) {
            let name = text_of(alloc, name)?;
            let value = text_of(alloc, value)?;
            items.push(BorrowedPair { name, value })?;
            rest = later;
        }
        Ok(BorrowedPairs { items })
    }

    /// The pairs as a slice.
    pub fn as_slice(&self) -> &[BorrowedPair<'a>]
        ensures { result.now ≡ self.now }
    {
        self.items.as_slice()
    }

    /// The value of the first pair with this name, where there is one.
    pub fn first(&self, name: &str) -> Option<&str>
        ensures { option_copied result ≡ first_of (values_in self.now name.now) }
    {
        for pair in self.items.iter() {
            if pair.name() == name {
                return Some(pair.value());
            }
        }
        None
    }

    /// The value of the pair with this name, where there is exactly one such pair.
    pub fn only(&self, name: &str) -> Option<&str>
        ensures { option_copied result ≡ only_of (values_in self.now name.now) }
    {
        let mut found = None;
        for pair in self.items.iter() {
            if pair.name() == name {
                if found.is_some() {
                    return None;
                }
                found = Some(pair.value());
            }
        }
        found
    }
}
