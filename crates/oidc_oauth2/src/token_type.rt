//! The types of access tokens.

ghost use Rattle.std.specs.Prelude.{◌≡◌, List, ℕ, IfOk};
ghost use Rattle.std.specs.String.{string_bytes};
ghost use Rattle.std.specs.Str.{str_to_ascii_lowercase};
ghost use Rattle.oidc_types.specs.Vocabulary.{word_or};
ghost use Rattle.oidc_oauth2.specs.Words.{token_type_text, token_types};
ghost use Rattle.oidc_oauth2.specs.declared.token_type.CoreTokenType.TheVariants.{Extension};

use oidc_types::{ExtensionText, Text};
use std::alloc::{AllocError, Global};

/// The type of an access token, which says how it is used (RFC 6749 section 7.1).
pub trait TokenType: Drop {
    /// The type of a text.
    ghost read_of: { List ℕ → Self };

    /// The text of a type.
    ghost as_ref: { Self → List ℕ };

    /// The type of this text. `AllocError` is want of memory, the one error.
    fn read(alloc: Global, text: &str) -> Result<Self, AllocError>
        ensures kind { IfOk result (λ kind. kind ≡ read_of text.now) };

    /// The text of this type.
    fn as_ref(&self) -> &str
        ensures text { result.now ≡ as_ref self.now };
}

/// The types of RFC 6749 section 7.1. A text is brought to ASCII lower case before it is read, since
/// types are compared without regard to case (section 5.1).
#[derive(Debug, Drop, PartialEq, Eq)]
pub enum CoreTokenType {
    /// Whoever has the token may use it (RFC 6750).
    Bearer,
    /// The token is used with a key.
    Mac,
    /// Any other text, in lower case.
    Extension(ExtensionText),
}

impl CoreTokenType {
    // The type of a text in lower case.
    fn of_lowercase(text: String) -> CoreTokenType
        ensures { result ≡ word_or token_type_text token_types Extension (string_bytes text) }
    {
        match text.as_str() {
            "bearer" => CoreTokenType::Bearer,
            "mac" => CoreTokenType::Mac,
            _ => CoreTokenType::Extension(Text::new(text)),
        }
    }
}

impl TokenType for CoreTokenType {
    ghost use Rattle.oidc_oauth2.specs.Words.{token_type_text, token_type_of};

    ghost read_of = { token_type_of };

    ghost as_ref = { token_type_text };

    #[tactic(auto, unfolding(crate::specs::Words::token_type_of))]
    fn read(alloc: Global, text: &str) -> Result<CoreTokenType, AllocError> {
        let mut lower = String::from_str(alloc, text)?;
        lower.make_ascii_lowercase();
        Ok(CoreTokenType::of_lowercase(lower))
    }

    fn as_ref(&self) -> &str {
        match self {
            CoreTokenType::Bearer => "bearer",
            CoreTokenType::Mac => "mac",
            CoreTokenType::Extension(text) => text.as_str(),
        }
    }
}
