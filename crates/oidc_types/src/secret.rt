//! A text of one kind that is not shown.

ghost use Rattle.std.specs.Prelude.{◌≡◌, IfOk};
ghost use Rattle.std.specs.String.{string_bytes};

use crate::text::{Marker, Text};
use std::alloc::{AllocError, Global};
use std::fmt;
use std::marker::Model;

/// A text of the kind `M` that `Debug` does not show. It has no equality, order or hash, so that none
/// is compared in passing. Contracts see it as its bytes.
#[derive(Drop)]
pub struct Secret<M> {
    text: Text<M>,
}

impl<M> Model for Secret<M> {
    ghost use Rattle.std.specs.Prelude.{List, ℕ};

    ghost Value = { List ℕ };

    ghost view = { λ s. s.text };
}

impl<M: Marker> Secret<M> {
    /// The text as it is given.
    pub fn new(text: String) -> Self
        ensures kept { result ≡ string_bytes text }
    {
        Secret {
            text: Text::new(text),
        }
    }

    /// The text.
    pub fn secret(&self) -> &str
        ensures text { result.now ≡ self.now }
    {
        self.text.as_str()
    }

    /// The text, taken out.
    pub fn into_string(self) -> String
        ensures text { string_bytes result ≡ self }
    {
        self.text.into_string()
    }

    /// A copy of this text. `AllocError` is want of memory, the one error.
    pub fn clone_in(&self, alloc: Global) -> Result<Self, AllocError>
        ensures copy { IfOk result (λ copy. copy ≡ self.now) }
    {
        let text = self.text.clone_in(alloc)?;
        Ok(Secret { text })
    }
}

/// Prints the kind alone, as `ClientSecret([redacted])`.
impl<M: Marker> fmt::Debug for Secret<M> {
    ghost use Rattle.std.specs.Prelude.{◌++◌, Some, codes};

    ghost debug_output = { λ _. Some (M.name ++ codes "([redacted])") };

    fn fmt<W: fmt::Write>(&self, f: &mut fmt::Formatter<W>) -> fmt::Result {
        write!(f, "{}([redacted])", M::name())
    }
}
