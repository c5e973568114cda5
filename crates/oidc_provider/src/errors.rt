//! Why there is no provider double, why it grants nothing, and why a login over it signs nobody in.

use oidc_login::LoginError;
use std::alloc::AllocError;
use std::convert::Infallible;
use thiserror::Error;

/// Why a provider isn't made.
#[derive(Clone, Copy, Debug, Error, PartialEq, Eq)]
pub enum NewProviderError {
    /// Two registrations have one client ID.
    #[error("two registrations of one client")]
    SameClient,
    /// There was no memory.
    #[error("out of memory")]
    Memory,
}

/// Why an authorization request is granted nothing, in the order in which it is looked at.
#[derive(Clone, Copy, Debug, Error, PartialEq, Eq)]
pub enum AuthorizeError {
    /// It doesn't name one client, or one that isn't registered.
    #[error("the request names no registered client")]
    Client,
    /// It doesn't name one redirect, or another than the registered one.
    #[error("the request names another redirect")]
    Redirect,
    /// It isn't a request for a code, with one state, one nonce and one S256 challenge.
    #[error("the request isn't one for a code")]
    Request,
    /// The two claims are about two subjects.
    #[error("the claims are about two subjects")]
    Subject,
    /// The code was granted before.
    #[error("the code is in use")]
    CodeUsed,
    /// The access token was granted before.
    #[error("the access token is in use")]
    TokenUsed,
    /// The access token may not stand in a header.
    #[error("an access token that may not stand in a header")]
    TokenText,
    /// There was no memory.
    #[error("out of memory")]
    Memory,
}

impl From<AllocError> for AuthorizeError {
    ghost use Rattle.std.specs.Prelude.{◌≡◌};
    ghost use Rattle.oidc_provider.specs.declared.errors.AuthorizeError.TheVariants.{Memory};

    ghost from_gives = { λ _ e. e ≡ Memory };

    fn from(_refused: AllocError) -> AuthorizeError {
        AuthorizeError::Memory
    }
}

/// Why a login over a provider double signs nobody in. It isn't printed, since a type without values isn't.
#[derive(Drop)]
pub enum SignInError {
    /// The provider grants nothing.
    Authorize(AuthorizeError),
    /// The callback is refused.
    Login(LoginError<Infallible>),
}
