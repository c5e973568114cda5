//! A text of one kind.

ghost use Rattle.std.specs.Prelude.{◌≡◌, IfOk, nat_eq, Some};
ghost use Rattle.std.specs.String.{string_bytes};
ghost use Rattle.std.specs.Cmp.{partial_order_from_own_ties};
ghost use Rattle.std.specs.Cmp.Lexicographic.{pointwise, slice_cmp};
ghost use Rattle.std.specs.Cmp.Rules.{comparing, hashing};
ghost use Rattle.std.specs.Hash as fed;
ghost use Rattle.std.specs.Ordering.{nat_cmp, as_partial_cmp};
ghost use Rattle.std.proofs.Common.{rules};

use std::alloc::{AllocError, Global};
use std::cmp::Ordering;
use std::fmt;
use std::hash::{Hash, Hasher};
use std::marker::{Model, PhantomData};

/// A kind of text, with the name that `Debug` prints.
pub trait Marker: Drop {
    ghost use Rattle.std.specs.Prelude.{◌≡◌, List, ℕ};

    /// The name.
    ghost name: { List ℕ };

    /// The name, as `ClientId`.
    fn name() -> &'static str
        ensures text { result.now ≡ name };
}

/// A text of the kind `M`, kept as it was given. Contracts see it as its bytes.
#[derive(Drop)]
pub struct Text<M> {
    text: String,
    of: PhantomData<M>,
}

impl<M> Model for Text<M> {
    ghost use Rattle.std.specs.Prelude.{List, ℕ};
    ghost use Rattle.std.specs.String.{string_bytes};

    ghost Value = { List ℕ };

    ghost view = { λ t. string_bytes t.text };
}

impl<M: Marker> Text<M> {
    /// The text as it is given.
    pub fn new(text: String) -> Self
        ensures kept { result ≡ string_bytes text }
    {
        Text {
            text,
            of: PhantomData,
        }
    }

    /// The text.
    pub fn as_str(&self) -> &str
        ensures text { result.now ≡ self.now }
    {
        self.text.as_str()
    }

    /// The text, taken out.
    pub fn into_string(self) -> String
        ensures text { string_bytes result ≡ self }
    {
        self.text
    }

    /// A copy of this text. `AllocError` is want of memory, the one error.
    pub fn clone_in(&self, alloc: Global) -> Result<Self, AllocError>
        ensures copy { IfOk result (λ copy. copy ≡ self.now) }
    {
        let text = String::from_str(alloc, self.text.as_str())?;
        Ok(Text::new(text))
    }
}

impl<M: Marker> PartialEq for Text<M> {
    ghost eq = { λ a b. pointwise nat_eq a b };

    ghost laws = { Prim.search (comparing, rules) };

    fn eq(&self, other: &Text<M>) -> bool {
        self.text == other.text
    }
}

impl<M: Marker> Eq for Text<M> {
    ghost laws = { Prim.search (comparing, rules) };
}

impl<M: Marker> Ord for Text<M> {
    ghost cmp = { λ a b. slice_cmp nat_cmp a b };

    ghost total = { Prim.search (comparing, rules) };

    ghost matches_partial_cmp = { Prim.search (comparing, rules) };

    ghost matches_eq = { Prim.search (comparing, rules) };

    fn cmp(&self, other: &Text<M>) -> Ordering {
        self.text.cmp(&other.text)
    }
}

impl<M: Marker> PartialOrd for Text<M> {
    ghost partial_cmp = { as_partial_cmp (λ a b. slice_cmp nat_cmp a b) };

    ghost laws = { partial_order_from_own_ties
        (Prim.search (comparing, rules)) (Prim.search (comparing, rules)) };

    fn partial_cmp(&self, other: &Text<M>) -> Option<Ordering> {
        Some(self.cmp(other))
    }
}

impl<M: Marker> Hash for Text<M> {
    ghost hash_input = { λ a. fed.str a };

    ghost respects_eq = { Prim.search (hashing, rules) };

    fn hash<H: Hasher>(&self, state: &mut H) {
        self.text.hash(state);
    }
}

/// Prints the text.
impl<M: Marker> fmt::Display for Text<M> {
    ghost output = { λ t. Some t };

    fn fmt<W: fmt::Write>(&self, f: &mut fmt::Formatter<W>) -> fmt::Result {
        fmt::Display::fmt(&self.text, f)
    }
}

/// Prints the kind and the text, as `ClientId("aaa")`.
impl<M: Marker> fmt::Debug for Text<M> {
    ghost use Rattle.std.specs.Fmt.{debug_str};
    ghost use Rattle.oidc_types.specs.Text.{debug_text};

    ghost debug_output = { λ t. debug_text M.name (debug_str t) };

    fn fmt<W: fmt::Write>(&self, f: &mut fmt::Formatter<W>) -> fmt::Result {
        write!(f, "{}({:?})", M::name(), self.text)
    }
}
