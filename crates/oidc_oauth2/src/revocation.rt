//! Tokens that can be revoked (RFC 7009).

ghost use Rattle.std.specs.Prelude.{◌≡◌, List, ℕ, Option, Some};
ghost use Rattle.std.specs.Option.{option_copied};

use oidc_types::{AccessToken, RefreshToken};

/// A token that can be revoked.
pub trait RevocableToken: Drop {
    /// The token's text.
    ghost secret: { Self → List ℕ };

    /// The word for the kind of the token, where there is one.
    ghost type_hint: { Self → Option (List ℕ) };

    /// The token's text.
    fn secret(&self) -> &str
        ensures text { result.now ≡ secret self.now };

    /// The word for the token's kind (RFC 7009 section 2.1).
    fn type_hint(&self) -> Option<&str>
        ensures hint { option_copied result ≡ type_hint self.now };
}

/// An access token or a refresh token. It has no `Debug`, since it is a secret.
#[derive(Drop)]
pub enum CoreRevocableToken {
    /// An access token.
    AccessToken(AccessToken),
    /// A refresh token.
    RefreshToken(RefreshToken),
}

impl RevocableToken for CoreRevocableToken {
    ghost use Rattle.oidc_oauth2.specs.Revocation.{revocable_secret, revocable_hint};

    ghost secret = { revocable_secret };

    ghost type_hint = { revocable_hint };

    fn secret(&self) -> &str {
        match self {
            CoreRevocableToken::AccessToken(token) => token.secret(),
            CoreRevocableToken::RefreshToken(token) => token.secret(),
        }
    }

    fn type_hint(&self) -> Option<&str> {
        match self {
            CoreRevocableToken::AccessToken(_) => Some("access_token"),
            CoreRevocableToken::RefreshToken(_) => Some("refresh_token"),
        }
    }
}
