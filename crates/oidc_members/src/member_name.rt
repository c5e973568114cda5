// The name of a member that is written, as a small type of its own: contracts see it as its text.
ghost use Rattle.std.specs.Prelude.{◌≡◌};
ghost use Rattle.std.specs.String.{string_bytes};

use std::alloc::Global;
use std::borrow::CowStr;
use std::marker::Model;

/// The name of a member that is written. A contract sees it as its text. A name that is a word of the program is no
/// copy of it.
#[derive(Drop)]
pub struct MemberName {
    text: CowStr<'static, Global>,
}

impl Model for MemberName {
    ghost use Rattle.std.specs.Prelude.{List, ℕ};
    ghost use Rattle.std.specs.Cow.{cow_str_bytes};

    ghost Value = { List ℕ };

    ghost view = { λ name. cow_str_bytes name.text };
}

impl MemberName {
    /// The name that is this text. It takes no memory.
    pub fn new(text: String) -> Self
        ensures { result ≡ string_bytes text }
    {
        MemberName {
            text: CowStr::Owned(text),
        }
    }

    /// The name that is this word of the program. It takes no memory.
    pub fn of_word(word: &'static str) -> Self
        ensures { result ≡ word.now }
    {
        MemberName {
            text: CowStr::Borrowed(word),
        }
    }

    /// The name's text.
    pub fn as_str(&self) -> &str
        ensures { result.now ≡ self.now }
    {
        self.text.as_str()
    }
}
