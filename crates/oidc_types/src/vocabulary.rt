//! Vocabularies: types whose values are named by texts.

ghost use Rattle.std.specs.Prelude.{◌≡◌, List, ℕ, Option};
ghost use Rattle.std.specs.String.{string_bytes};

/// A vocabulary that takes any text: the words that it knows, and one word for each other text.
pub trait Vocabulary: Drop {
    /// The text of a word.
    ghost as_ref: { Self → List ℕ };

    /// The word of a text.
    ghost from_str: { List ℕ → Self };

    /// The word of this text.
    fn from_str(text: String) -> Self
        ensures word { result ≡ from_str (string_bytes text) };

    /// The text of this word.
    fn as_ref(&self) -> &str
        ensures text { result.now ≡ as_ref self.now };

    // the word of a text has that text
    ghost keeps_text: { (text : List ℕ) → as_ref (from_str text) ≡ text };
}

/// A vocabulary that takes its own texts alone. Two words count as equal where their texts are.
pub trait ClosedVocabulary: Copy {
    /// The text of a word.
    ghost as_ref: { Self → List ℕ };

    /// The word of a text, if it has one.
    ghost from_str: { List ℕ → Option Self };

    /// The word of this text. `None` where there is none.
    fn from_str(text: &str) -> Option<Self>
        ensures word { result ≡ from_str text.now };

    /// The text of this word.
    fn as_ref(&self) -> &'static str
        ensures text { result.now ≡ as_ref self.now };
}

// A vocabulary's table is a macro of its own, `table!(then, values)`, which hands its rows to one of
// these.

/// The word that has this text among a table's rows.
macro_rules! word_of_text {
    ([$text:expr], $vocabulary:ident, $($word:ident = $name:literal),+) => {
        match $text {
            $($name => Some($vocabulary::$word),)+
            _ => None,
        }
    };
}

/// The text of a word of a closed vocabulary.
macro_rules! text_of_word {
    ([$word:expr], $vocabulary:ident, $($known:ident = $name:literal),+) => {
        match $word {
            $($vocabulary::$known => $name,)+
        }
    };
}

/// The text of a word of an open vocabulary.
macro_rules! text_of_any {
    ([$word:expr], $vocabulary:ident, $($known:ident = $name:literal),+) => {
        match $word {
            $($vocabulary::$known => $name,)+
            $vocabulary::Extension(text) => text.as_str(),
        }
    };
}

/// A copy of a word of an open vocabulary.
macro_rules! copy_of_word {
    ([$word:expr, $alloc:expr], $vocabulary:ident, $($known:ident = $name:literal),+) => {
        match $word {
            $($vocabulary::$known => Ok($vocabulary::$known),)+
            $vocabulary::Extension(text) => Ok($vocabulary::Extension(text.clone_in($alloc)?)),
        }
    };
}

pub(crate) use copy_of_word;
pub(crate) use text_of_any;
pub(crate) use text_of_word;
pub(crate) use word_of_text;
