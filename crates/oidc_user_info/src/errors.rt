//! Why there is no user info.

use http::StatusCode;
use oidc_members::Refusal;
use oidc_tokens::ClaimsVerificationError;
use oidc_types::Body;
use std::alloc::AllocError;
use thiserror::Error;

/// What of a response stands against it, before its body is read.
#[derive(Clone, Copy, Debug, Error, PartialEq, Eq)]
pub enum ResponseCause {
    /// Its status isn't 200.
    #[error("another status than 200")]
    Status,
    /// Its media type is neither that of JSON nor that of a JSON Web Token.
    #[error("another media type than JSON or JWT")]
    MediaType,
}

/// Other causes for which there is no user info.
#[derive(Clone, Copy, Debug, Error, PartialEq, Eq)]
pub enum InfoOther {
    /// The access token has bytes that are neither visible ASCII nor spaces or tabs. There is no request.
    #[error("an access token that may not stand in a header")]
    Bearer,
    /// The endpoint's text is too long, or has other bytes than visible ASCII. There is no request.
    #[error("an address that is not sent to")]
    Uri,
    /// The body of a token isn't UTF-8.
    #[error("a body that is not UTF-8")]
    Utf8,
}

/// Why there is no user info. `RE` is the transport's error. `Debug` shows no body.
#[derive(Debug, Drop, Error)]
pub enum UserInfoError<RE> {
    /// The claims aren't accepted.
    #[error("the claims are not accepted: {0}")]
    ClaimsVerification(ClaimsVerificationError),
    /// The body doesn't read, for this reason.
    #[error("the response does not read: {0}")]
    Parse(Refusal),
    /// The request, or its response, failed on its way.
    #[error("the request failed")]
    Request(RE),
    /// The response has this status and this body, and one of the two causes stands against it.
    #[error("the response is of no use: {2}")]
    Response(StatusCode, Body, ResponseCause),
    /// Another cause.
    #[error("{0}")]
    Other(InfoOther),
    /// The body has more than 1,048,576 bytes.
    #[error("the response is too long")]
    TooLong(Body),
    /// There was no memory.
    #[error("out of memory")]
    Memory,
}

impl<RE> From<AllocError> for UserInfoError<RE> {
    ghost use Rattle.std.specs.Prelude.{◌≡◌};
    ghost use Rattle.oidc_user_info.specs.declared.errors.UserInfoError.TheVariants.{Memory};

    ghost from_gives = { λ _ error. error ≡ Memory };

    fn from(_refused: AllocError) -> UserInfoError<RE> {
        UserInfoError::Memory
    }
}

/// Why a request for user info isn't made.
#[derive(Clone, Copy, Debug, Error, PartialEq, Eq)]
pub enum PrepareInfoError {
    /// The access token has bytes that are neither visible ASCII nor spaces or tabs.
    #[error("an access token that may not stand in a header")]
    Bearer,
    /// The endpoint's text is too long, or has other bytes than visible ASCII.
    #[error("an address that is not sent to")]
    Uri,
    /// There was no memory.
    #[error("out of memory")]
    Memory,
}

impl From<AllocError> for PrepareInfoError {
    ghost use Rattle.std.specs.Prelude.{◌≡◌};
    ghost use Rattle.oidc_user_info.specs.declared.errors.PrepareInfoError.TheVariants.{Memory};

    ghost from_gives = { λ _ error. error ≡ Memory };

    fn from(_refused: AllocError) -> PrepareInfoError {
        PrepareInfoError::Memory
    }
}
