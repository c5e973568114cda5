//! What the answers to the requests are worth, each request by a call of a client whose endpoint is set.

use crate::asked::refusal_line;
use crate::clients::{
    DeviceClient, IntrospectionClient, RevocationClient, TokenClient, device_client,
    introspection_client, revocation_client, token_client,
};
use crate::requests::device_response_in;
use case_lines::{
    Case, CaseError, Tokens, device_line, introspection_line, ok, ok_form, ok_pair, reading_in,
    refused_line, response_in, written,
};
use oidc_oauth2::{
    Answer, ClientAuth, CoreDeviceAuthorizationResponse, CoreRequestTokenError, CoreRevocableToken,
    CoreRevocationErrorResponse, DeviceCodeErrorResponse, EmptyExtraDeviceAuthorizationFields,
    EmptyExtraTokenFields, ExtraTokenFields, Fault, Recorded, RequestTokenError,
};
use oidc_oauth2_requests::{DeviceAccessTokenRequest, PollStep};
use oidc_pairs::FormText;
use oidc_types::{
    AccessToken, AuthorizationCode, RefreshToken, ResourceOwnerPassword, ResourceOwnerUsername,
};
use std::alloc::Global;

// The line of the client that asks.
const ASKING: &str = "op=&endpoint=https://example/&id=aaa&secret=bbb&auth=basic";

// A transport that gives the response of a case.
fn transport(alloc: Global, case: &Case) -> Result<Recorded, CaseError> {
    let mut answers = Vec::new(alloc);
    answers.push(Answer::Response(response_in(alloc, case)?))?;
    Ok(Recorded::new(alloc, answers))
}

// ---- tokens

/// `tokens_answer`
pub(crate) fn tokens_answer(alloc: Global, case: &Case) -> Result<String, CaseError> {
    case.check_with(&["request", "status", "body"], &["type", "reading"])?;
    let reading = reading_in(case)?;
    let asking = Case::read(alloc, ASKING)?;
    let client = token_client(alloc, &asking)?.set_reading(reading);
    let line = tokens_by(alloc, &client, case);
    drop(client);
    line
}

fn tokens_by(alloc: Global, client: &TokenClient, case: &Case) -> Result<String, CaseError> {
    let mut http = transport(alloc, case)?;
    match case.value("request") {
        "code" => code_line(alloc, client, &mut http),
        "refresh" => refresh_line(alloc, client, &mut http),
        "password" => password_line(alloc, client, &mut http),
        "client_credentials" => client_credentials_line(alloc, client, &mut http),
        _ => Err(CaseError::NoCase),
    }
}

// What came of a request for tokens.
fn tokens_line<EF: ExtraTokenFields>(
    alloc: Global,
    answer: Result<Tokens<EF>, CoreRequestTokenError<Fault>>,
) -> Result<String, CaseError> {
    match answer {
        Ok(tokens) => ok_pair(alloc, "written", written(alloc, &tokens)?.as_str()),
        Err(refusal) => refused_line(alloc, &refusal),
    }
}

fn code_line(
    alloc: Global,
    client: &TokenClient,
    http: &mut Recorded,
) -> Result<String, CaseError> {
    let code = AuthorizationCode::new(String::from_str(alloc, "c1")?);
    let request = client.exchange_code(alloc, code);
    tokens_line(alloc, request.request(alloc, http))
}

fn refresh_line(
    alloc: Global,
    client: &TokenClient,
    http: &mut Recorded,
) -> Result<String, CaseError> {
    let token = RefreshToken::new(String::from_str(alloc, "r1")?);
    let request = client.exchange_refresh_token(alloc, &token);
    tokens_line(alloc, request.request(alloc, http))
}

fn password_line(
    alloc: Global,
    client: &TokenClient,
    http: &mut Recorded,
) -> Result<String, CaseError> {
    let username = ResourceOwnerUsername::new(String::from_str(alloc, "u1")?);
    let password = ResourceOwnerPassword::new(String::from_str(alloc, "p1")?);
    let request = client.exchange_password(alloc, &username, &password);
    tokens_line(alloc, request.request(alloc, http))
}

fn client_credentials_line(
    alloc: Global,
    client: &TokenClient,
    http: &mut Recorded,
) -> Result<String, CaseError> {
    let request = client.exchange_client_credentials(alloc);
    tokens_line(alloc, request.request(alloc, http))
}

// ---- a poll

// The response that the device has its code of.
const CODES: &str =
    "{\"device_code\":\"d1\",\"user_code\":\"u1\",\"verification_uri\":\"https://example/\",\"expires_in\":1}";

/// `poll_answer`
pub(crate) fn poll_answer(alloc: Global, case: &Case) -> Result<String, CaseError> {
    case.check_with(&["status", "body"], &["type", "extra", "reading"])?;
    let reading = reading_in(case)?;
    let asking = Case::read(alloc, ASKING)?;
    let client = token_client(alloc, &asking)?.set_reading(reading);
    let line = polled_by(alloc, &client, case);
    drop(client);
    line
}

fn polled_by(alloc: Global, client: &TokenClient, case: &Case) -> Result<String, CaseError> {
    let codes = device_response_in(alloc, CODES)?;
    let line = polled_line(alloc, client, &codes, case);
    drop(codes);
    line
}

fn polled_line(
    alloc: Global,
    client: &TokenClient,
    codes: &CoreDeviceAuthorizationResponse,
    case: &Case,
) -> Result<String, CaseError> {
    let mut http = transport(alloc, case)?;
    match (case.optional("extra"), case.optional("reading")) {
        (None, None) => plain_line(alloc, client, codes, &mut http),
        (Some("id_token"), _) => id_token_line(alloc, client, codes, &mut http),
        _ => Err(CaseError::NoCase),
    }
}

type PlainPoll<'a> = DeviceAccessTokenRequest<
    'a,
    Tokens<EmptyExtraTokenFields>,
    EmptyExtraDeviceAuthorizationFields,
>;

// The answer without an ID token, which no client asks for.
fn plain_line(
    alloc: Global,
    client: &TokenClient,
    codes: &CoreDeviceAuthorizationResponse,
    http: &mut Recorded,
) -> Result<String, CaseError> {
    let auth = ClientAuth {
        client_id: client.client_id(),
        client_secret: client.client_secret(),
        auth_type: *client.auth_type(),
    };
    let request: PlainPoll<'_> = DeviceAccessTokenRequest::new(
        alloc,
        client.token_uri(),
        auth,
        codes,
    );
    step_line(alloc, request.poll_once(alloc, http))
}

fn id_token_line(
    alloc: Global,
    client: &TokenClient,
    codes: &CoreDeviceAuthorizationResponse,
    http: &mut Recorded,
) -> Result<String, CaseError> {
    let request = client.exchange_device_access_token(alloc, codes);
    step_line(alloc, request.poll_once(alloc, http))
}

// What came of a poll.
fn step_line<EF: ExtraTokenFields>(
    alloc: Global,
    step: Result<PollStep<Tokens<EF>>, RequestTokenError<Fault, DeviceCodeErrorResponse>>,
) -> Result<String, CaseError> {
    match step {
        Ok(PollStep::Done(tokens)) => done_line(alloc, &tokens),
        Ok(PollStep::Pending) => ok_pair(alloc, "step", "pending"),
        Ok(PollStep::SlowDown) => ok_pair(alloc, "step", "slow_down"),
        Err(refusal) => refused_line(alloc, &refusal),
    }
}

fn done_line<EF: ExtraTokenFields>(
    alloc: Global,
    tokens: &Tokens<EF>,
) -> Result<String, CaseError> {
    let mut form = FormText::new(alloc);
    form.push("step", "done")?;
    form.push("written", written(alloc, tokens)?.as_str())?;
    ok_form(alloc, form)
}

// ---- the other answers

/// `device_answer`
pub(crate) fn device_answer(alloc: Global, case: &Case) -> Result<String, CaseError> {
    case.check_with(&["status", "body"], &["type"])?;
    let asking = Case::read(alloc, ASKING)?;
    let client = device_client(alloc, &asking)?;
    let line = codes_line(alloc, &client, case);
    drop(client);
    line
}

fn codes_line(alloc: Global, client: &DeviceClient, case: &Case) -> Result<String, CaseError> {
    let request = client.exchange_device_code(alloc)?;
    let mut http = transport(alloc, case)?;
    match request.request::<Recorded, EmptyExtraDeviceAuthorizationFields>(alloc, &mut http) {
        Ok(codes) => device_line(alloc, &codes),
        Err(refusal) => refused_line(alloc, &refusal),
    }
}

/// `introspection_answer`
pub(crate) fn introspection_answer(alloc: Global, case: &Case) -> Result<String, CaseError> {
    case.check_with(&["status", "body"], &["type"])?;
    let asking = Case::read(alloc, ASKING)?;
    let client = introspection_client(alloc, &asking)?;
    let line = introspected_line(alloc, &client, case);
    drop(client);
    line
}

fn introspected_line(
    alloc: Global,
    client: &IntrospectionClient,
    case: &Case,
) -> Result<String, CaseError> {
    let mut http = transport(alloc, case)?;
    let token = AccessToken::new(String::from_str(alloc, "abc")?);
    let request = client.introspect(alloc, &token);
    match request.request(alloc, &mut http) {
        Ok(response) => introspection_line(alloc, &response),
        Err(refusal) => refused_line(alloc, &refusal),
    }
}

/// `revocation_answer`
pub(crate) fn revocation_answer(alloc: Global, case: &Case) -> Result<String, CaseError> {
    case.check_with(&["status", "body"], &["type"])?;
    let asking = Case::read(alloc, ASKING)?;
    let client = revocation_client(alloc, &asking)?;
    let line = revoked_by(alloc, &client, case);
    drop(client);
    line
}

fn revoked_by(alloc: Global, client: &RevocationClient, case: &Case) -> Result<String, CaseError> {
    let mut http = transport(alloc, case)?;
    let token = AccessToken::new(String::from_str(alloc, "abc")?);
    match client.revoke_token(alloc, CoreRevocableToken::AccessToken(token)) {
        Ok(request) => revoked_line(alloc, request.request(alloc, &mut http)),
        Err(error) => refusal_line(alloc, error),
    }
}

fn revoked_line(
    alloc: Global,
    revoked: Result<(), RequestTokenError<Fault, CoreRevocationErrorResponse>>,
) -> Result<String, CaseError> {
    match revoked {
        Ok(()) => ok(alloc),
        Err(refusal) => refused_line(alloc, &refusal),
    }
}
