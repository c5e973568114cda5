//! Why a session isn't opened, and why a logout token isn't accepted.

use oidc_keys::SignatureVerificationError;
use oidc_members::Refusal;
use std::alloc::AllocError;
use thiserror::Error;

/// Why a session isn't opened.
#[derive(Clone, Copy, Debug, PartialEq, Eq, Error)]
pub enum OpenError {
    /// The moment isn't before the session's end.
    #[error("the session has ended")]
    Ended,
    /// A session of that id is there, which hasn't ended.
    #[error("a session of that id is open")]
    Taken,
    /// There was no memory.
    #[error("out of memory")]
    Memory,
}

impl From<AllocError> for OpenError {
    ghost use Rattle.std.specs.Prelude.{◌≡◌};
    ghost use Rattle.oidc_session.specs.declared.errors.OpenError.TheVariants.{Memory};

    ghost from_gives = { λ _ e. e ≡ Memory };

    fn from(_refused: AllocError) -> OpenError {
        OpenError::Memory
    }
}

/// Why a text isn't a logout token that is accepted (OpenID Connect Back-Channel Logout 1.0 sections 2.4 and 2.6).
#[derive(Debug, Drop, Error)]
pub enum LogoutError {
    /// The text is no logout token.
    #[error("the logout token doesn't read: {0}")]
    Parse(Refusal),
    /// The header asks for what is not supported: extensions, a token in the token, or another type of token.
    #[error("unsupported token")]
    Unsupported,
    /// The issuer's text isn't the expected one.
    #[error("invalid issuer")]
    InvalidIssuer,
    /// The client isn't in the audience, or somebody else is.
    #[error("invalid audience")]
    InvalidAudience,
    /// The token isn't signed by the verifier's algorithm.
    #[error("another algorithm than the verifier's")]
    WrongAlgorithm,
    /// The key doesn't verify the signature. `Memory` never stands inside it.
    #[error("invalid signature: {0}")]
    Signature(SignatureVerificationError),
    /// The moment isn't before the token's expiration.
    #[error("token expired")]
    Expired,
    /// The token's events don't hold that of a logout.
    #[error("no event of a logout")]
    Events,
    /// The token names neither a subject nor a session of the provider.
    #[error("neither a subject nor a session is named")]
    NoName,
    /// The token has a nonce that isn't null.
    #[error("a nonce, which no logout token has")]
    Nonce,
    /// A token of that id was accepted before.
    #[error("a token that was accepted before")]
    Replayed,
    /// There was no memory.
    #[error("out of memory")]
    Memory,
}

impl From<AllocError> for LogoutError {
    ghost use Rattle.std.specs.Prelude.{◌≡◌};
    ghost use Rattle.oidc_session.specs.declared.errors.LogoutError.TheVariants.{Memory};

    ghost from_gives = { λ _ e. e ≡ Memory };

    fn from(_refused: AllocError) -> LogoutError {
        LogoutError::Memory
    }
}
