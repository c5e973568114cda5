//! What a response to a token request is worth (RFC 6749 sections 5.1 and 5.2).

ghost use Rattle.std.specs.Prelude.{◌≡◌, ◌==◌, Err, IfErr, IfOk, Result};
ghost use Rattle.oidc_members.specs.declared.reading.TheConstants.Reading.{STRICT};
ghost use Rattle.oidc_members.specs.declared.refusal.Refusal.{Refusal};
ghost use Rattle.oidc_members.specs.Answers.{Answers};
ghost use Rattle.oidc_oauth2.specs.Messages.{seen_response};
ghost use Rattle.oidc_oauth2.specs.Replies.{Gives, Unless};
ghost use Rattle.oidc_oauth2.specs.TokenAnswers as spec;
ghost use Rattle.oidc_oauth2.specs.TokenAnswers.{token_errors, seen_refusal, wants_memory, GivesResponse};
ghost use Rattle.oidc_oauth2.specs.AnswerCauses.{AnswerCause, Because};

use crate::error_response::{ErrorResponse, StandardErrorResponse};
use crate::error_types::CoreErrorResponseType;
use crate::http_utils::{MIME_TYPE_JSON, check_content_type};
use crate::token::OAuth2TokenResponse;
use crate::transport::HttpResponse;
use oidc_members::{Members, ParseError, Reading, Refusal};
use oidc_types::Body;
use std::alloc::{AllocError, Global};
use thiserror::Error;

/// The most bytes that the body of an answer may have.
pub const MAX_BODY: usize = 1_048_576;

/// Other causes for which there is no answer.
#[derive(Clone, Copy, Debug, Error, PartialEq, Eq)]
pub enum OtherCause {
    /// The endpoint's address is too long, or has other bytes than visible ASCII. The log of the
    /// transport, where it is known, is as it was.
    #[error("an address that is not sent to")]
    Uri,
    /// The body is empty.
    #[error("an empty body")]
    EmptyBody,
    /// The media type of a response of status 200 isn't that of JSON.
    #[error("another media type than JSON")]
    MediaType,
}

/// Why a request has no answer. `RE` is the transport's error, `T` the error response. `Debug` shows
/// neither a body nor an error response of this crate.
#[derive(Debug, Drop, Error)]
pub enum RequestTokenError<RE, T> {
    /// The server refused the request, and says why.
    #[error("the server refused the request")]
    ServerResponse(T),
    /// The request, or its response, failed on its way.
    #[error("the request failed")]
    Request(RE),
    /// The body doesn't read, for this reason.
    #[error("the response does not read: {0}")]
    Parse(Refusal, Body),
    /// Another cause.
    #[error("{0}")]
    Other(OtherCause),
    /// The body has more than 1,048,576 bytes.
    #[error("the response is too long")]
    TooLong(Body),
    /// There was no memory.
    #[error("out of memory")]
    Memory,
}

/// Why a request to a token endpoint has no answer.
pub type CoreRequestTokenError<RE> = RequestTokenError<
    RE,
    StandardErrorResponse<CoreErrorResponseType>,
>;

impl<RE, T> From<AllocError> for RequestTokenError<RE, T> {
    ghost use Rattle.std.specs.Prelude.{◌≡◌};
    ghost use Rattle.oidc_oauth2.specs.declared.token_answers.RequestTokenError.TheVariants.{Memory};

    ghost from_gives = { λ _ error. error ≡ Memory };

    fn from(_refused: AllocError) -> RequestTokenError<RE, T> {
        RequestTokenError::Memory
    }
}

// Whether a response has no media type, or that of JSON.
fn may_be_json(response: &HttpResponse) -> bool
    ensures { result ≡ spec.may_be_json (seen_response response.now) }
{
    check_content_type(response.headers(), MIME_TYPE_JSON).is_ok()
}

// The error response that a body holds.
fn error_response_in<TE: ErrorResponse>(alloc: Global, body: &Body) -> Result<TE, ParseError>
    ensures { Answers (spec.record_in TE.read_of body.now) result }
{
    let members = Members::split(alloc, body.as_slice())?;
    TE::read(alloc, &members)
}

// The refusal that an answer of another status than 200 is worth.
#[tactic(auto, unfolding(crate::specs::TokenAnswers::refusal_in))]
fn refusal_in<RE, TE: ErrorResponse>(
    alloc: Global,
    response: HttpResponse,
) -> RequestTokenError<RE, TE>
    ensures { Unless (wants_memory result)
        (spec.refusal_in TE.read_of (seen_response response) ≡ seen_refusal result) }
{
    let body = response.into_body();
    if body.as_slice().is_empty() {
        return RequestTokenError::Other(OtherCause::EmptyBody);
    }
    match error_response_in::<TE>(alloc, &body) {
        Ok(error) => RequestTokenError::ServerResponse(error),
        Err(ParseError::Refused(refusal)) => RequestTokenError::Parse(refusal, body),
        Err(ParseError::Memory) => RequestTokenError::Memory,
    }
}

/// The response, where its body isn't too long and its status is 200; else why it is refused, by the rows that
/// answers to all requests share.
#[tactic(auto, unfolding(crate::specs::TokenAnswers::success_in))]
pub fn success_in<RE, TE: ErrorResponse>(
    alloc: Global,
    response: HttpResponse,
) -> Result<HttpResponse, RequestTokenError<RE, TE>>
    ensures success { GivesResponse result (spec.success_in TE.read_of (seen_response response)) }
{
    if response.body().as_slice().len() > MAX_BODY {
        return Err(RequestTokenError::TooLong(response.into_body()));
    }
    if response.status().as_u16() == 200 {
        Ok(response)
    } else {
        Err(refusal_in(alloc, response))
    }
}

// The members of the object that a body is.
fn members_in<RE, TE>(
    alloc: Global,
    body: Body,
) -> Result<(Members, Body), RequestTokenError<RE, TE>>
    ensures object { Gives token_errors (spec.listed_with_body result) (spec.members_in body) }
    ensures strict { IfOk result (λ object. object.0.reading ≡ STRICT) }
{
    match Members::split(alloc, body.as_slice()) {
        Ok(members) => Ok((members, body)),
        Err(ParseError::Refused(refusal)) => Err(RequestTokenError::Parse(refusal, body)),
        Err(ParseError::Memory) => Err(RequestTokenError::Memory),
    }
}

// The members of the object that a response of status 200 is, and its body; else why it is none.
#[tactic(auto, unfolding(crate::specs::TokenAnswers::object_in))]
fn object_in<RE, TE>(
    alloc: Global,
    response: HttpResponse,
) -> Result<(Members, Body), RequestTokenError<RE, TE>>
    ensures object { Gives token_errors (spec.listed_with_body result)
        (spec.object_in (seen_response response)) }
    ensures strict { IfOk result (λ object. object.0.reading ≡ STRICT) }
{
    let may_be_json = may_be_json(&response);
    let body = response.into_body();
    if !may_be_json {
        return Err(RequestTokenError::Other(OtherCause::MediaType));
    }
    if body.as_slice().is_empty() {
        return Err(RequestTokenError::Other(OtherCause::EmptyBody));
    }
    members_in(alloc, body)
}

/// The members of the object that a response holds, and its body; else why it is refused: by the rows that all answers
/// share, or since a response of status 200 is no object. The members are read strictly.
pub fn object_answer<RE, TE: ErrorResponse>(
    alloc: Global,
    response: HttpResponse,
) -> Result<(Members, Body), RequestTokenError<RE, TE>>
    ensures object { Gives token_errors (spec.listed_with_body result)
        (spec.object_answer TE.read_of (seen_response response)) }
    ensures strict { IfOk result (λ object. object.0.reading ≡ STRICT) }
{
    match success_in(alloc, response) {
        Ok(response) => object_in(alloc, response),
        Err(error) => Err(error),
    }
}

/// The record that was read of a body, or the refusal beside that body.
pub fn record_or_refusal<RE, TE, A>(
    read: Result<A, ParseError>,
    body: Body,
) -> Result<A, RequestTokenError<RE, TE>>
    ensures record { (meant : Result A Refusal) → Answers meant read
        → Gives token_errors result (spec.read_in body meant) }
{
    match read {
        Ok(record) => Ok(record),
        Err(ParseError::Refused(refusal)) => Err(RequestTokenError::Parse(refusal, body)),
        Err(ParseError::Memory) => Err(RequestTokenError::Memory),
    }
}

// What a response is worth, by the rows.
fn judge<RE, TE: ErrorResponse, TR: OAuth2TokenResponse>(
    alloc: Global,
    response: HttpResponse,
    reading: Reading,
) -> Result<TR, RequestTokenError<RE, TE>>
    ensures { let worth = spec.token_answer TE.read_of (TR.read_of reading) in
        Gives token_errors result (worth (seen_response response)) }
{
    let (members, body) = object_answer(alloc, response)?;
    let members = members.with_reading(reading);
    record_or_refusal(TR::read(alloc, &members), body)
}

/// What a response to a token request is worth: the token response, whose ID token is read under `reading`, or the
/// first of these that holds.
/// `TooLong`: the body has more than 1,048,576 bytes. On another status than 200: `EmptyBody`; then
/// `ServerResponse`, where the body reads as an error response; else `Parse`. On status 200:
/// `MediaType`, where a media type is there and isn't `application/json`; `EmptyBody`; `Parse`.
pub fn token_answer<RE, TE: ErrorResponse, TR: OAuth2TokenResponse>(
    alloc: Global,
    response: HttpResponse,
    reading: Reading,
) -> Result<TR, RequestTokenError<RE, TE>>
    ensures answer { let worth = spec.token_answer TE.read_of (TR.read_of reading) in
        Gives token_errors result (worth (seen_response response)) }
    // Each refusal has its cause, want of memory aside, and each cause its refusal.
    ensures cause { let seen = seen_response response in
        IfErr result (Because TE.read_of (TR.read_of reading) seen) }
    ensures refused { let Caused = AnswerCause TE.read_of (TR.read_of reading) in
        (e : spec.TokenRefusal TE) → Caused (seen_response response) e
        → Gives token_errors result (Err e) }
{
    judge(alloc, response, reading)
}
