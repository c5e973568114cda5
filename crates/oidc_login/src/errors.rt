//! Why a store isn't made, a login doesn't begin, or a callback signs nobody in.

ghost use Rattle.std.specs.Prelude.{◌≡◌};
ghost use Rattle.oidc_login.specs.Errors.{spent_of};
ghost use Rattle.oidc_login.specs.Steps.{of_token, of_check, of_info};

use oidc_oauth2::{CoreRequestTokenError, RequestTokenError};
use oidc_tokens::ClaimsVerificationError;
use oidc_types::{CoreAuthErrorResponseType, SigningError};
use oidc_user_info::UserInfoError;
use std::alloc::AllocError;
use thiserror::Error;

/// Why there is no store of logins.
#[derive(Clone, Copy, Debug, PartialEq, Eq, Error)]
pub enum NewLoginsError {
    /// The client has no token endpoint.
    #[error("the client has no token endpoint")]
    TokenEndpoint,
}

/// Why a login doesn't begin.
#[derive(Clone, Copy, Debug, PartialEq, Eq, Error)]
pub enum BeginError {
    /// The request's flow isn't `AuthenticationFlow::AuthorizationCode`.
    #[error("the request isn't for a code alone")]
    Flow,
    /// The request has another client ID than the store's client.
    #[error("the request is another client's")]
    ClientId,
    /// The verifier hasn't 43 to 128 bytes (RFC 7636 section 4.1).
    #[error("the verifier hasn't 43 to 128 bytes")]
    Verifier,
    /// User info is demanded, and the client has no endpoint for it.
    #[error("the client has no user info endpoint")]
    UserInfoEndpoint,
    /// A login of this state is pending.
    #[error("the state is pending")]
    Pending,
    /// The URL would have more than 1,048,576 bytes.
    #[error("a URL that is too long")]
    TooLong,
    /// There was no memory.
    #[error("out of memory")]
    Memory,
}

impl From<AllocError> for BeginError {
    ghost use Rattle.std.specs.Prelude.{◌≡◌};
    ghost use Rattle.oidc_login.specs.declared.errors.BeginError.TheVariants.{Memory};

    ghost from_gives = { λ _ e. e ≡ Memory };

    fn from(_refused: AllocError) -> BeginError {
        BeginError::Memory
    }
}

/// Why a store doesn't go on with another client: what differs first from the client that it has.
#[derive(Clone, Copy, Debug, PartialEq, Eq, Error)]
pub enum ChangeError {
    /// The client ID.
    #[error("another client ID")]
    ClientId,
    /// The text of the issuer.
    #[error("another issuer")]
    Issuer,
    /// The text of the authorization endpoint.
    #[error("another authorization endpoint")]
    AuthorizationEndpoint,
    /// The token endpoint: another text, or only one of the two has one.
    #[error("another token endpoint")]
    TokenEndpoint,
    /// The user info endpoint: another text, or only one of the two has one.
    #[error("another user info endpoint")]
    UserInfoEndpoint,
}

/// What was too long: it has more than 1,048,576 bytes.
#[derive(Clone, Copy, Debug, PartialEq, Eq, Error)]
pub enum TooLong {
    /// The query.
    #[error("the query")]
    Callback,
    /// The body of the answer to the token request.
    #[error("the answer to the token request")]
    TokenAnswer,
    /// The body of the answer to the user info request.
    #[error("the answer to the user info request")]
    UserInfoAnswer,
}

/// Why a callback signs nobody in. `E` is the transport's error. `Debug` shows neither a body nor
/// an error response of the token endpoint.
#[derive(Debug, Drop, Error)]
pub enum LoginError<E> {
    /// The query, or an answer, is too long. For the query nothing is done.
    #[error("too long: {0}")]
    TooLong(TooLong),
    /// The query hasn't one `state`, or it names no pending login.
    #[error("the query names no pending login")]
    State,
    /// The query has an `error`; the first is here (RFC 6749 section 4.1.2.1, OpenID Connect Core 1.0 section
    /// 3.1.2.6).
    #[error("the provider refused: {0}")]
    Provider(CoreAuthErrorResponseType),
    /// The query hasn't one `code`.
    #[error("the query hasn't one code")]
    Callback,
    /// The token request has no answer that holds tokens: an ID token that doesn't read is a
    /// refusal of the whole answer. `TooLong` and `Memory` never stand inside it.
    #[error("no tokens: {0}")]
    Token(CoreRequestTokenError<E>),
    /// The answer has no ID token.
    #[error("no ID token")]
    NoIdToken,
    /// The ID token isn't accepted. `Memory` never stands inside it.
    #[error("the ID token isn't accepted: {0}")]
    Claims(ClaimsVerificationError),
    /// The ID token has the hash of an access token, and no hash goes with its algorithm. `Memory`
    /// never stands inside it.
    #[error("no hash of the access token: {0}")]
    Signing(SigningError),
    /// The hash in the ID token isn't that of the access token beside it.
    #[error("another access token than the ID token's")]
    TokenHash,
    /// User info was demanded, and there is none, though the ID token is accepted. `TooLong` and `Memory` never
    /// stand inside it.
    #[error("no user info: {0}")]
    UserInfo(UserInfoError<E>),
    /// There was no memory.
    #[error("out of memory")]
    Memory {
        /// Whether the login was removed. Where it wasn't, the transport is as it was too.
        spent: bool,
    },
}

impl<E> LoginError<E> {
    /// Whether the login that the query names was removed from the store.
    pub fn spent(&self) -> bool
        ensures { result ≡ spent_of self.now }
    {
        match self {
            LoginError::TooLong(TooLong::Callback) | LoginError::State => false,
            LoginError::Memory { spent } => *spent,
            _ => true,
        }
    }

    // The refusal of a login by that of its token request.
    pub(crate) fn of_token(error: CoreRequestTokenError<E>) -> Self
        ensures { result ≡ of_token error }
    {
        match error {
            RequestTokenError::TooLong(_) => LoginError::TooLong(TooLong::TokenAnswer),
            RequestTokenError::Memory => LoginError::Memory { spent: true },
            error => LoginError::Token(error),
        }
    }

    // The refusal of a login by that of the checks of its ID token.
    pub(crate) fn of_check(error: ClaimsVerificationError) -> Self
        ensures { result ≡ of_check error }
    {
        match error {
            ClaimsVerificationError::Memory => LoginError::Memory { spent: true },
            error => LoginError::Claims(error),
        }
    }

    // The refusal of a login by that of its user info request.
    pub(crate) fn of_info(error: UserInfoError<E>) -> Self
        ensures { result ≡ of_info error }
    {
        match error {
            UserInfoError::TooLong(_) => LoginError::TooLong(TooLong::UserInfoAnswer),
            UserInfoError::Memory => LoginError::Memory { spent: true },
            error => LoginError::UserInfo(error),
        }
    }
}
