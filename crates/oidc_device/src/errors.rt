//! Why a device login doesn't start, and why a step of it signs nobody in.

ghost use Rattle.std.specs.Prelude.{◌≡◌};
ghost use Rattle.oidc_device.specs.Steps.{start_of, of_poll, check_refusal};

use oidc_oauth2::{CoreRequestTokenError, DeviceCodeErrorResponse, RequestTokenError};
use oidc_tokens::ClaimsVerificationError;
use oidc_types::SigningError;
use thiserror::Error;

/// Why a device login doesn't start. `E` is the transport's error. `Debug` shows neither a body nor an error response.
#[derive(Debug, Drop, Error)]
pub enum StartError<E> {
    /// The request for the codes of the device has no answer that holds them. `Memory` never stands inside it.
    #[error("no device codes: {0}")]
    Device(CoreRequestTokenError<E>),
    /// There was no memory.
    #[error("out of memory")]
    Memory,
}

impl<E> StartError<E> {
    // The refusal of a start by that of its request.
    pub(crate) fn of_request(error: CoreRequestTokenError<E>) -> Self
        ensures { result ≡ start_of error }
    {
        match error {
            RequestTokenError::Memory => StartError::Memory,
            error => StartError::Device(error),
        }
    }
}

/// Why a step signs nobody in. `E` is the transport's error. `Debug` shows neither a body nor an error response.
#[derive(Debug, Drop, Error)]
pub enum DeviceError<E> {
    /// An earlier step ended the login. Nothing is sent.
    #[error("the device login is over")]
    Over,
    /// The device code has expired. Nothing is sent, and the login is over.
    #[error("the device code has expired")]
    Expired,
    /// The poll has no answer that holds tokens. On `Request`, where the transport fails, the login goes on; on all others
    /// it is over. `Memory` never stands inside it.
    #[error("no tokens: {0}")]
    Token(RequestTokenError<E, DeviceCodeErrorResponse>),
    /// The answer has no ID token. The login is over.
    #[error("no ID token")]
    NoIdToken,
    /// The ID token isn't accepted. The login is over. `Memory` never stands inside it.
    #[error("the ID token isn't accepted: {0}")]
    Claims(ClaimsVerificationError),
    /// The ID token has the hash of an access token, and no hash goes with its algorithm. The login is over. `Memory`
    /// never stands inside it.
    #[error("no hash of the access token: {0}")]
    Signing(SigningError),
    /// The hash in the ID token isn't that of the access token beside it. The login is over.
    #[error("another access token than the ID token's")]
    TokenHash,
    /// There was no memory, at a poll that was due. The login goes on.
    #[error("out of memory")]
    Memory,
}

impl<E> DeviceError<E> {
    // The refusal of a step by that of its poll.
    pub(crate) fn of_poll(error: RequestTokenError<E, DeviceCodeErrorResponse>) -> Self
        ensures { result ≡ of_poll error }
    {
        match error {
            RequestTokenError::Memory => DeviceError::Memory,
            error => DeviceError::Token(error),
        }
    }

    // The refusal of a step by that of the checks of its ID token.
    pub(crate) fn of_check(error: ClaimsVerificationError) -> Self
        ensures { result ≡ check_refusal error }
    {
        match error {
            ClaimsVerificationError::Memory => DeviceError::Memory,
            error => DeviceError::Claims(error),
        }
    }
}
