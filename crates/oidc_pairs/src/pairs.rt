//! Pairs, and their reader.
ghost use Rattle.std.specs.Prelude.{◌≡◌, length, IfOk, IsTrue, ◌↔◌, []};
ghost use Rattle.std.specs.Option.{option_copied};
ghost use Rattle.std.specs.String.{string_bytes};
ghost use Rattle.oidc_pairs.specs.Pairs.{pairs, values_in, first_of, only_of};

use crate::decoding::text_of;
use crate::front::first_pair;
use std::alloc::{AllocError, Global};
use std::marker::Model;

/// A name and its value, both decoded. Contracts see it as the pair of the two texts.
#[derive(Drop)]
pub struct Pair {
    name: String,
    value: String,
}

impl Model for Pair {
    ghost use Rattle.std.specs.Prelude.{List, ℕ};
    ghost use Rattle.std.specs.String.{string_bytes};

    ghost Value = { List ℕ × List ℕ };

    ghost view = { λ p. (string_bytes p.name, string_bytes p.value) };
}

impl Pair {
    /// A pair of these texts.
    pub fn new(name: String, value: String) -> Self
        ensures { result ≡ (string_bytes name, string_bytes value) }
    {
        Pair { name, value }
    }

    /// The name.
    pub fn name(&self) -> &str
        ensures { result.now ≡ self.now.0 }
    {
        self.name.as_str()
    }

    /// The value, empty where the text had none.
    pub fn value(&self) -> &str
        ensures { result.now ≡ self.now.1 }
    {
        self.value.as_str()
    }

    /// The value itself, with no copy.
    pub fn into_value(self) -> String
        ensures { string_bytes result ≡ self.1 }
    {
        self.value
    }
}

/// The pairs of a text, in their order. Contracts see them as the list of the pairs.
#[derive(Drop)]
pub struct Pairs {
    items: Vec<Pair>,
}

impl Model for Pairs {
    ghost use Rattle.std.specs.Prelude.{List, ℕ};

    ghost Value = { List (List ℕ × List ℕ) };

    ghost view = { λ p. p.items.items };
}

impl Pairs {
    /// The pairs of a form text (URL Standard, section 5.1). No text is refused: what isn't UTF-8
    /// is read as U+FFFD, and a `%` that begins no escape stands for itself.
    pub fn parse(alloc: Global, text: &[u8]) -> Result<Self, AllocError>
        ensures { IfOk result (λ read. read ≡ pairs text.now) }
    {
        let mut items = Vec::new(alloc);
        let mut rest = text;
        while let Some((name, value, later)) = first_pair(rest) {
            let name = text_of(alloc, name)?.into_owned(alloc)?;
            let value = text_of(alloc, value)?.into_owned(alloc)?;
            items.push(Pair::new(name, value))?;
            rest = later;
        }
        Ok(Pairs { items })
    }

    /// The pairs as a slice.
    pub fn as_slice(&self) -> &[Pair]
        ensures { result.now ≡ self.now }
    {
        self.items.as_slice()
    }

    /// The pairs, to be moved out of.
    pub fn into_vec(self) -> Vec<Pair>
        ensures { result.items ≡ self }
    {
        self.items
    }

    /// How many pairs there are.
    pub fn len(&self) -> usize
        ensures { result ≡ length self.now }
    {
        self.items.len()
    }

    /// Whether there is no pair.
    pub fn is_empty(&self) -> bool
        ensures { IsTrue result ↔ (self.now ≡ []) }
    {
        self.items.is_empty()
    }

    /// The value of the first pair with this name, where there is one.
    pub fn first(&self, name: &str) -> Option<&str>
        ensures { option_copied result ≡ first_of (values_in self.now name.now) }
    {
        for pair in self.items.iter() {
            if pair.name() == name {
                return Some(pair.value());
            }
        }
        None
    }

    /// The value of the pair with this name, where there is exactly one such pair.
    pub fn only(&self, name: &str) -> Option<&str>
        ensures { option_copied result ≡ only_of (values_in self.now name.now) }
    {
        let mut found = None;
        for pair in self.items.iter() {
            if pair.name() == name {
                if found.is_some() {
                    return None;
                }
                found = Some(pair.value());
            }
        }
        found
    }
}
