//! Form texts.
ghost use Rattle.std.specs.Prelude.{◌≡◌, ℕ, List, [], ◌∷◌, ◌++◌, length, map, take, All, IfOk, OnOk, OnErr};
ghost use Rattle.std.specs.String.{string_bytes};
ghost use Rattle.form_urlencoded.specs.Form.{append_pair, pair_text};
ghost use Rattle.oidc_pairs.specs.Pairs.{pairs, IsTextPair};
ghost use Rattle.oidc_pairs.specs.Form.{form};

use crate::escape::push_bytes;
use std::alloc::{AllocError, Global};
use std::marker::Model;

// Adds a pair behind a form text. After an error some of it may have been added.
fn add_pair(text: &mut String, name: &str, value: &str) -> Result<(), AllocError>
    ensures ok { OnOk result
        (string_bytes text.new ≡ append_pair (string_bytes text.old) name.now value.now) }
    ensures begun { take (length (string_bytes text.old)) (string_bytes text.new)
        ≡ string_bytes text.old }
{
    if !text.is_empty() {
        text.push_str("&")?;
    }
    push_bytes(text, name.as_bytes())?;
    text.push_str("=")?;
    push_bytes(text, value.as_bytes())
}

/// Adds a pair behind a form text, or into an empty text (URL Standard, section 5.2). After an error some of it may
/// have been added.
pub fn push_pair(text: &mut String, name: &str, value: &str) -> Result<(), AllocError>
    ensures { OnOk result
        (string_bytes text.new ≡ append_pair (string_bytes text.old) name.now value.now) }
{
    add_pair(text, name, value)
}

/// A form text that pairs are added to. Contracts see it as the list of its pairs.
#[derive(Drop)]
pub struct FormText {
    text: String,
}

impl Model for FormText {
    ghost use Rattle.std.specs.Prelude.{List, ℕ};
    ghost use Rattle.oidc_pairs.specs.Pairs.{pairs};
    ghost use Rattle.std.specs.String.{string_bytes};
    ghost use Rattle.oidc_pairs.specs.Form.{IsWritten};

    ghost Value = { List (List ℕ × List ℕ) };

    ghost view = { λ f. pairs (string_bytes f.text) };

    ghost invariant = { λ f. IsWritten (string_bytes f.text) };
}

impl FormText {
    // The form text without pairs, over an empty text.
    fn over(text: String) -> Self
        requires { string_bytes text ≡ [] }
        ensures { result ≡ [] }
    {
        FormText { text }
    }

    /// The form text without pairs, which is empty.
    pub fn new(alloc: Global) -> Self
        ensures { result ≡ [] }
    {
        Self::over(String::new(alloc))
    }

    /// The same, with room for so many bytes. `AllocError` is want of memory, the one error.
    pub fn with_capacity(alloc: Global, capacity: usize) -> Result<Self, AllocError>
        ensures empty { IfOk result (λ form. form ≡ []) }
    {
        let text = String::with_capacity(alloc, capacity)?;
        Ok(Self::over(text))
    }

    /// Adds a pair at the end. After an error nothing is added.
    pub fn push(&mut self, name: &str, value: &str) -> Result<(), AllocError>
        ensures ok { OnOk result (self.new ≡ self.old ++ (name.now, value.now) ∷ []) }
        ensures err { OnErr result (self.new ≡ self.old) }
    {
        let end = self.text.len();
        match add_pair(&mut self.text, name, value) {
            Ok(()) => Ok(()),
            Err(error) => {
                self.text.truncate(end);
                Err(error)
            }
        }
    }

    /// The form text of the pairs (URL Standard, section 5.2).
    pub fn into_string(self) -> String
        ensures { string_bytes result ≡ form self }
    {
        let FormText { text } = self;
        text
    }
}

/// The form text of these pairs (URL Standard, section 5.2).
pub fn form_text(alloc: Global, list: &[(&str, &str)]) -> Result<String, AllocError>
    ensures { IfOk result (λ text. string_bytes text ≡ form (map pair_text list.now)) }
{
    let mut text = String::new(alloc);
    for (name, value) in list {
        push_pair(&mut text, name, value)?;
    }
    Ok(text)
}

/// The law that what was written is read as it was: the pairs of the form text of a list of texts
/// are that list.
pub fn form_reads_back()
    ensures { (list : List (List ℕ × List ℕ)) → All IsTextPair list → pairs (form list) ≡ list }
{}
