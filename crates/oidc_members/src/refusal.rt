// Why a text is refused.
ghost use Rattle.std.specs.Prelude.{◌≡◌, [], IfOk};

use crate::field_name::FieldName;
use std::alloc::{AllocError, AllocFailed, Global};
use std::fmt;
use thiserror::Error;

/// What a text was refused for.
#[derive(Clone, Copy, Debug, Drop, Error, PartialEq, Eq)]
pub enum ParseKind {
    /// The text isn't a JSON object, for a reason that isn't a float alone.
    #[error("no JSON object")]
    Syntax,
    /// The text is a JSON object, but a number in it isn't a whole one in range.
    #[error("a number that isn't a whole one in range")]
    Number,
    /// A member stands twice.
    #[error("a member that stands twice")]
    Duplicate,
    /// A name has a language tag where none may stand.
    #[error("a language tag where none may stand")]
    UnexpectedTag,
    /// A value isn't of the kind that its member asks for.
    #[error("a value of the wrong type")]
    WrongType,
    /// A member that must be there isn't.
    #[error("a missing member")]
    Missing,
    /// A text isn't a URL of the URL Standard.
    #[error("a text that is no URL")]
    Url,
    /// A number or a text is no moment in range.
    #[error("no moment in range")]
    Moment,
    /// A text isn't a token of three base64url parts.
    #[error("no token of three parts")]
    Token,
    /// A token's algorithm is unknown.
    #[error("an unknown algorithm")]
    Algorithm,
    /// A reader that the caller brought refuses. No reader of this project answers it.
    #[error("an additional claim that was refused")]
    Additional,
}

/// Why a text was refused, and the field that is at fault.
#[derive(Debug, Drop, PartialEq, Eq)]
pub struct Refusal {
    /// What it was refused for.
    pub kind: ParseKind,
    /// The member's name as it was read, or the missing one. It is empty for a refusal of a whole
    /// text, as `Syntax`, `Number` and `Token` are, and `alg` for `Algorithm`.
    pub field: FieldName,
}

impl Refusal {
    /// A refusal of a whole text, which names no field. It takes no memory.
    pub fn of_text(alloc: Global, kind: ParseKind) -> Self
        ensures { result ≡ record { kind = kind; field = [] } }
    {
        Refusal {
            kind,
            field: FieldName::new(String::new(alloc)),
        }
    }

    /// A refusal of the field of that name.
    pub fn of_field(alloc: Global, kind: ParseKind, field: &str) -> Result<Self, AllocError>
        ensures { IfOk result (λ refusal. refusal ≡ record { kind = kind; field = field.now }) }
    {
        let field = FieldName::new(String::from_str(alloc, field)?);
        Ok(Refusal { kind, field })
    }
}

/// Prints the kind in words and, where there is one, the field.
impl fmt::Display for Refusal {
    fn fmt<W: fmt::Write>(&self, f: &mut fmt::Formatter<W>) -> fmt::Result {
        match self.field.as_str() {
            "" => write!(f, "{}", self.kind),
            field => write!(f, "{}: `{field}`", self.kind),
        }
    }
}

/// Why a text was not read: it was refused, or there was no memory.
#[derive(Debug, Drop, Error, PartialEq, Eq)]
pub enum ParseError {
    /// The text is refused.
    #[error("{0}")]
    Refused(Refusal),
    /// There was no memory to read it.
    #[error("out of memory")]
    Memory,
}

impl From<Refusal> for ParseError {
    ghost use Rattle.std.specs.Prelude.{◌≡◌};
    ghost use Rattle.oidc_members.specs.declared.refusal.ParseError.TheVariants.{Refused};

    ghost from_gives = { λ refusal error. error ≡ Refused refusal };

    fn from(refusal: Refusal) -> ParseError {
        ParseError::Refused(refusal)
    }
}

impl From<AllocError> for ParseError {
    ghost use Rattle.std.specs.Prelude.{◌≡◌};
    ghost use Rattle.oidc_members.specs.declared.refusal.ParseError.TheVariants.{Memory};

    ghost from_gives = { λ _ error. error ≡ Memory };

    fn from(_refused: AllocError) -> ParseError {
        ParseError::Memory
    }
}

impl<T: Drop> From<AllocFailed<T>> for ParseError {
    ghost use Rattle.std.specs.Prelude.{◌≡◌};
    ghost use Rattle.oidc_members.specs.declared.refusal.ParseError.TheVariants.{Memory};

    ghost from_gives = { λ _ error. error ≡ Memory };

    fn from(_refused: AllocFailed<T>) -> ParseError {
        ParseError::Memory
    }
}
