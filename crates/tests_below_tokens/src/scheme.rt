//! A type of tokens in one case of its letters.

use oidc_oauth2::TokenType;
use std::alloc::{AllocError, Global};

/// Whether the type of a token is `Bearer`, in this case of its letters.
#[derive(Clone, Copy, Debug, Drop)]
pub struct Scheme {
    /// Whether it is that.
    pub is_bearer: bool,
}

impl TokenType for Scheme {
    ghost use Rattle.std.specs.Prelude.{codes, if◌then◌else◌};
    ghost use Rattle.std.specs.Str.{bytes_eq};

    ghost read_of = { λ text. record { is_bearer = bytes_eq text (codes "Bearer") } };

    ghost as_ref = { λ scheme. if scheme.is_bearer then codes "Bearer" else codes "other" };

    fn read(_alloc: Global, text: &str) -> Result<Scheme, AllocError> {
        Ok(Scheme {
            is_bearer: text == "Bearer",
        })
    }

    fn as_ref(&self) -> &str {
        if self.is_bearer { "Bearer" } else { "other" }
    }
}
