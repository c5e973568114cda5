// The name of a field, as a small type of its own: contracts see it as its text.
ghost use Rattle.std.specs.Prelude.{◌≡◌, Some, nat_eq};
ghost use Rattle.std.specs.String.{string_bytes};
ghost use Rattle.std.specs.Cmp.Lexicographic.{pointwise};
ghost use Rattle.std.specs.Cmp.Rules.{comparing};
ghost use Rattle.std.proofs.Common.{rules};

use std::fmt;
use std::marker::Model;

/// The name of the field that a refusal speaks of. A contract sees it as its text, and it is equal to another where
/// the texts are.
#[derive(Debug, Drop)]
pub struct FieldName {
    text: String,
}

impl Model for FieldName {
    ghost use Rattle.std.specs.Prelude.{List, ℕ};
    ghost use Rattle.std.specs.String.{string_bytes};

    ghost Value = { List ℕ };

    ghost view = { λ name. string_bytes name.text };
}

impl FieldName {
    /// The name that is this text. It takes no memory.
    pub fn new(text: String) -> Self
        ensures { result ≡ string_bytes text }
    {
        FieldName { text }
    }

    /// The name's text.
    pub fn as_str(&self) -> &str
        ensures { result.now ≡ self.now }
    {
        self.text.as_str()
    }
}

impl PartialEq for FieldName {
    ghost eq = { λ a b. pointwise nat_eq a b };

    ghost laws = { Prim.search (comparing, rules) };

    fn eq(&self, other: &FieldName) -> bool {
        self.text == other.text
    }
}

impl Eq for FieldName {
    ghost laws = { Prim.search (comparing, rules) };
}

/// Prints the text.
impl fmt::Display for FieldName {
    ghost output = { λ name. Some name };

    fn fmt<W: fmt::Write>(&self, f: &mut fmt::Formatter<W>) -> fmt::Result {
        fmt::Display::fmt(&self.text, f)
    }
}
