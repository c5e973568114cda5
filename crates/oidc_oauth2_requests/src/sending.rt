// A request that was made, if one was, over any transport, and what its response is worth.

ghost use Rattle.std.specs.Prelude.{◌≡◌, ◌≤◌, Option, Result};
ghost use Rattle.oidc_members.specs.declared.reading.TheConstants.Reading.{STRICT};
ghost use Rattle.oidc_oauth2.specs.Messages.{SeenRequest, seen_response};
ghost use Rattle.oidc_oauth2.specs.Replies.{Gives};
ghost use Rattle.oidc_oauth2.specs.Requests.{Prepares};
ghost use Rattle.oidc_oauth2.specs.DeviceResponse.{device_of};
ghost use Rattle.oidc_oauth2.specs.TokenAnswers.{TokenRefusal, token_errors, token_answer as worth};
ghost use Rattle.oidc_oauth2.specs.Exchanges.{known, IsRequestBlamed};
ghost use Rattle.oidc_oauth2_requests.specs.FormRequests.{SeenFormRequest, form_request};
ghost use Rattle.oidc_oauth2_requests.specs.RequestAnswers as spec;
ghost use Rattle.oidc_oauth2_requests.specs.RequestAnswers.{DeviceError, revocation_answer, poll_answer};
ghost use Rattle.oidc_oauth2_requests.specs.RequestRuns as run;
ghost use Rattle.oidc_oauth2_requests.specs.Sending.{Sent};

use crate::device::PollStep;
use oidc_members::Reading;
use oidc_oauth2::{
    DeviceAuthorizationResponse, DeviceCodeErrorResponse, DeviceCodeErrorResponseType,
    ErrorResponse, ExtraDeviceAuthorizationFields, HttpRequest, HttpResponse, OAuth2TokenResponse,
    OtherCause, PrepareError, RequestTokenError, SyncHttpClient, TokenIntrospectionResponse,
    exchange, object_answer, record_or_refusal, success_in, token_answer,
};
use std::alloc::Global;

// Hands the request over, if one was made, and gives the response.
pub(crate) fn send<C: SyncHttpClient, TE>(
    alloc: Global,
    http: &mut C,
    made: Result<HttpRequest, PrepareError>,
) -> Result<HttpResponse, RequestTokenError<C::Error, TE>>
    requires { C.ready http.old }
    ensures again { C.ready http.new }
    ensures sent { let before = known (C.log http.old) (C.script http.old) in
        let after = known (C.log http.new) (C.script http.new) in
        (meant : Option SeenRequest) → Prepares made meant → Sent meant before after result }
    ensures never_falls { C.faults http.old ≤ C.faults http.new }
    ensures blamed { let before = C.faults http.old in
        IsRequestBlamed token_errors before (C.faults http.new) result }
{
    match made {
        Err(PrepareError::Uri) => Err(RequestTokenError::Other(OtherCause::Uri)),
        Err(PrepareError::Memory) => Err(RequestTokenError::Memory),
        Ok(request) => match exchange(alloc, http, request) {
            Ok(Ok(response)) => Ok(response),
            Ok(Err(error)) => Err(RequestTokenError::Request(error)),
            Err(_) => Err(RequestTokenError::Memory),
        },
    }
}

// Tokens, by a request that was made, if one was.
pub(crate) fn tokens_over<C: SyncHttpClient, TE: ErrorResponse, TR: OAuth2TokenResponse>(
    alloc: Global,
    http: &mut C,
    made: Result<HttpRequest, PrepareError>,
    reading: Reading,
) -> Result<TR, RequestTokenError<C::Error, TE>>
    requires { C.ready http.old }
    ensures again { C.ready http.new }
    ensures ran { let before = known (C.log http.old) (C.script http.old) in
        let after = known (C.log http.new) (C.script http.new) in
        (ask : SeenFormRequest) → Prepares made (form_request ask)
        → (read : Reading) → reading ≡ read
        → run.RanForRecord ask before after TE.read_of (TR.read_of read) result }
    ensures never_falls { C.faults http.old ≤ C.faults http.new }
    ensures blamed { let before = C.faults http.old in
        IsRequestBlamed token_errors before (C.faults http.new) result }
{
    let response = send(alloc, http, made)?;
    token_answer(alloc, response, reading)
}

// The codes that a response holds.
fn codes_in<RE, TE: ErrorResponse, EF: ExtraDeviceAuthorizationFields>(
    alloc: Global,
    response: HttpResponse,
) -> Result<DeviceAuthorizationResponse<EF>, RequestTokenError<RE, TE>>
    ensures { let reply = worth TE.read_of (device_of EF.read_of) (seen_response response) in
        Gives token_errors result reply }
{
    let (members, body) = object_answer(alloc, response)?;
    record_or_refusal(DeviceAuthorizationResponse::read(alloc, &members), body)
}

// The codes of a device, by a request that was made, if one was.
pub(crate) fn codes_over<C: SyncHttpClient, TE: ErrorResponse, EF: ExtraDeviceAuthorizationFields>(
    alloc: Global,
    http: &mut C,
    made: Result<HttpRequest, PrepareError>,
) -> Result<DeviceAuthorizationResponse<EF>, RequestTokenError<C::Error, TE>>
    requires { C.ready http.old }
    ensures again { C.ready http.new }
    ensures ran { let before = known (C.log http.old) (C.script http.old) in
        let after = known (C.log http.new) (C.script http.new) in
        (ask : SeenFormRequest) → Prepares made (form_request ask)
        → run.RanForRecord ask before after TE.read_of (device_of EF.read_of) result }
    ensures never_falls { C.faults http.old ≤ C.faults http.new }
    ensures blamed { let before = C.faults http.old in
        IsRequestBlamed token_errors before (C.faults http.new) result }
{
    let response = send(alloc, http, made)?;
    codes_in(alloc, response)
}

// What a response says of a token.
fn introspection_in<RE, TE: ErrorResponse, TIR: TokenIntrospectionResponse>(
    alloc: Global,
    response: HttpResponse,
) -> Result<TIR, RequestTokenError<RE, TE>>
    ensures { let reply = worth TE.read_of (TIR.read_of STRICT) (seen_response response) in
        Gives token_errors result reply }
{
    let (members, body) = object_answer(alloc, response)?;
    record_or_refusal(TIR::read(alloc, &members), body)
}

// What is said of a token, by a request that was made, if one was.
pub(crate) fn introspection_over<
    C: SyncHttpClient,
    TE: ErrorResponse,
    TIR: TokenIntrospectionResponse,
>(
    alloc: Global,
    http: &mut C,
    made: Result<HttpRequest, PrepareError>,
) -> Result<TIR, RequestTokenError<C::Error, TE>>
    requires { C.ready http.old }
    ensures again { C.ready http.new }
    ensures ran { let before = known (C.log http.old) (C.script http.old) in
        let after = known (C.log http.new) (C.script http.new) in
        (ask : SeenFormRequest) → Prepares made (form_request ask)
        → run.RanForRecord ask before after TE.read_of (TIR.read_of STRICT) result }
    ensures never_falls { C.faults http.old ≤ C.faults http.new }
    ensures blamed { let before = C.faults http.old in
        IsRequestBlamed token_errors before (C.faults http.new) result }
{
    let response = send(alloc, http, made)?;
    introspection_in(alloc, response)
}

// Whether a response says that a token is revoked.
#[tactic(auto, unfolding(crate::specs::RequestAnswers::revocation_answer))]
fn revocation_in<RE, TRE: ErrorResponse>(
    alloc: Global,
    response: HttpResponse,
) -> Result<(), RequestTokenError<RE, TRE>>
    ensures { let reply = revocation_answer TRE.read_of (seen_response response) in
        Gives token_errors result reply }
{
    success_in(alloc, response)?;
    Ok(())
}

// A revocation, by a request that was made, if one was.
pub(crate) fn revocation_over<C: SyncHttpClient, TRE: ErrorResponse>(
    alloc: Global,
    http: &mut C,
    made: Result<HttpRequest, PrepareError>,
) -> Result<(), RequestTokenError<C::Error, TRE>>
    requires { C.ready http.old }
    ensures again { C.ready http.new }
    ensures ran { let before = known (C.log http.old) (C.script http.old) in
        let after = known (C.log http.new) (C.script http.new) in
        (ask : SeenFormRequest) → Prepares made (form_request ask)
        → run.RanForRevocation ask before after TRE.read_of result }
    ensures never_falls { C.faults http.old ≤ C.faults http.new }
    ensures blamed { let before = C.faults http.old in
        IsRequestBlamed token_errors before (C.faults http.new) result }
{
    let response = send(alloc, http, made)?;
    revocation_in(alloc, response)
}

// ---- a device that asks for its tokens

// The step by what the server says.
fn step_on<RE, TR>(
    error: DeviceCodeErrorResponse,
) -> Result<PollStep<TR>, RequestTokenError<RE, DeviceCodeErrorResponse>>
    ensures { Gives token_errors result (spec.step_on error.error error) }
{
    match error.error() {
        DeviceCodeErrorResponseType::AuthorizationPending => Ok(PollStep::Pending),
        DeviceCodeErrorResponseType::SlowDown => Ok(PollStep::SlowDown),
        _ => Err(RequestTokenError::ServerResponse(error)),
    }
}

// The step by what a response is worth.
fn step_of<RE, TR>(
    answer: Result<TR, RequestTokenError<RE, DeviceCodeErrorResponse>>,
) -> Result<PollStep<TR>, RequestTokenError<RE, DeviceCodeErrorResponse>>
    ensures { (reply : Result TR (TokenRefusal DeviceError)) → Gives token_errors answer reply
        → Gives token_errors result (spec.step_of reply) }
{
    match answer {
        Ok(tokens) => Ok(PollStep::Done(tokens)),
        Err(RequestTokenError::ServerResponse(error)) => step_on(error),
        Err(error) => Err(error),
    }
}

// The step that a response is worth.
#[tactic(auto, unfolding(crate::specs::RequestAnswers::poll_answer))]
fn step_in<RE, TR: OAuth2TokenResponse>(
    alloc: Global,
    response: HttpResponse,
    reading: Reading,
) -> Result<PollStep<TR>, RequestTokenError<RE, DeviceCodeErrorResponse>>
    ensures { let reply = poll_answer (TR.read_of reading) (seen_response response) in
        Gives token_errors result reply }
{
    let answer = token_answer(alloc, response, reading);
    step_of(answer)
}

// A step of polling, by a request that was made, if one was.
pub(crate) fn step_over<C: SyncHttpClient, TR: OAuth2TokenResponse>(
    alloc: Global,
    http: &mut C,
    made: Result<HttpRequest, PrepareError>,
    reading: Reading,
) -> Result<PollStep<TR>, RequestTokenError<C::Error, DeviceCodeErrorResponse>>
    requires { C.ready http.old }
    ensures again { C.ready http.new }
    ensures ran { let before = known (C.log http.old) (C.script http.old) in
        let after = known (C.log http.new) (C.script http.new) in
        (ask : SeenFormRequest) → Prepares made (form_request ask)
        → (read : Reading) → reading ≡ read
        → run.RanForStep ask before after (TR.read_of read) result }
    ensures never_falls { C.faults http.old ≤ C.faults http.new }
    ensures blamed { let before = C.faults http.old in
        IsRequestBlamed token_errors before (C.faults http.new) result }
{
    let response = send(alloc, http, made)?;
    step_in(alloc, response, reading)
}
