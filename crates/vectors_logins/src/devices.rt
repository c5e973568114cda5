//! Device logins.

use crate::front::report_line;
use case_lines::{
    Case, CaseError, VerifierKey, algorithms, keys_in, moment, number, object, ok_form, ok_pair,
    reading_in, refused_line, refused_word, request_line, response_in, url_of,
};
use jiff::Timestamp;
use oidc_claims::AllOtherClaims;
use oidc_client::{Client, ProviderMetadata};
use oidc_device::{DeviceClient, DeviceError, DeviceLogin, DeviceSignedIn, DeviceStep, StartError};
use oidc_login::{LoginError, MetadataClient};
use oidc_oauth2::{Answer, AuthType, DeviceCodeErrorResponse, Fault, Recorded, RequestTokenError};
use oidc_pairs::FormText;
use oidc_tokens::Payload;
use oidc_types::{
    AuthUrl, ClientId, ClientSecret, CoreGenderClaim, DeviceAuthorizationUrl, IssuerUrl,
    JsonWebKeySetUrl, TokenUrl,
};
use oidc_user_info::EmptyAdditionalProviderMetadata;
use std::alloc::Global;

/// A client whose issuer has the keys of a line.
type PlainClient = MetadataClient<AllOtherClaims, CoreGenderClaim, VerifierKey>;

/// The same with both endpoints of a device login.
type EndpointsClient = DeviceClient<AllOtherClaims, CoreGenderClaim, VerifierKey>;

type Login<'c> = DeviceLogin<'c, AllOtherClaims, CoreGenderClaim, VerifierKey>;

type User = DeviceSignedIn<AllOtherClaims, CoreGenderClaim>;

type Step = DeviceStep<AllOtherClaims, CoreGenderClaim>;

type Metadata = ProviderMetadata<EmptyAdditionalProviderMetadata, VerifierKey>;

/// `device_login`: what the start and each step answer, in the order in which they stand.
pub(crate) fn device_login(alloc: Global, case: &Case) -> Result<String, CaseError> {
    let required = ["id", "auth", "issuer", "algs", "device", "token", "start"];
    case.check_all(
        &required,
        &["secret", "reading"],
        &["key", "openid", "step"],
    )?;
    let start = call_in(alloc, "start", case.value("start"))?;
    let steps = steps_in(alloc, case)?;
    let client = client_in(alloc, case)?;
    let line = login_line(alloc, &client, start, steps);
    drop(client);
    line
}

// ---- the client

fn auth_type_of(text: &str) -> Result<AuthType, CaseError> {
    match text {
        "basic" => Ok(AuthType::BasicAuth),
        "body" => Ok(AuthType::RequestBody),
        _ => Err(CaseError::NoCase),
    }
}

// What a provider says of itself that signs by these algorithms, and has these keys.
fn metadata_in(alloc: Global, case: &Case) -> Result<Metadata, CaseError> {
    let issuer: IssuerUrl = url_of(alloc, case.value("issuer"))?;
    let auth: AuthUrl = url_of(alloc, "https://example/authorize")?;
    let jwks_uri: JsonWebKeySetUrl = url_of(alloc, "https://example/keys")?;
    let algorithms = algorithms(alloc, case.value("algs"))?;
    let keys = keys_in(alloc, case)?;
    let more = EmptyAdditionalProviderMetadata {};
    let metadata = Metadata::new(alloc, issuer, auth, jwks_uri, algorithms, more);
    Ok(metadata.set_jwks(keys))
}

fn secret_in(alloc: Global, case: &Case) -> Result<Option<ClientSecret>, CaseError> {
    match case.optional("secret") {
        Some(secret) => Ok(Some(ClientSecret::new(String::from_str(alloc, secret)?))),
        None => Ok(None),
    }
}

fn plain_client(alloc: Global, case: &Case) -> Result<PlainClient, CaseError> {
    let id = ClientId::new(String::from_str(alloc, case.value("id"))?);
    let secret = secret_in(alloc, case)?;
    let auth_type = auth_type_of(case.value("auth"))?;
    let reading = reading_in(case)?;
    let metadata = metadata_in(alloc, case)?;
    let client: PlainClient = Client::from_provider_metadata(metadata, id, secret);
    Ok(client.set_auth_type(auth_type).set_reading(reading))
}

// With each switch of the scope `openid`.
fn switched_client(alloc: Global, case: &Case) -> Result<PlainClient, CaseError> {
    let mut client = plain_client(alloc, case)?;
    for pair in case.pairs() {
        if pair.name() == "openid" {
            client = switched(client, pair.value())?;
        }
    }
    Ok(client)
}

fn switched(client: PlainClient, switch: &str) -> Result<PlainClient, CaseError> {
    match switch {
        "on" => Ok(client.enable_openid_scope()),
        "off" => Ok(client.disable_openid_scope()),
        _ => {
            drop(client);
            Err(CaseError::NoCase)
        }
    }
}

fn client_in(alloc: Global, case: &Case) -> Result<EndpointsClient, CaseError> {
    let device: DeviceAuthorizationUrl = url_of(alloc, case.value("device"))?;
    let token: TokenUrl = url_of(alloc, case.value("token"))?;
    let client = switched_client(alloc, case)?;
    Ok(
        client
            .set_device_authorization_url(device)
            .set_token_uri(token),
    )
}

// ---- the calls

/// A call: its moment, and the answer to its request.
#[derive(Drop)]
struct Call {
    now: Timestamp,
    answer: Answer,
}

// The moment of a call: whole seconds, and nanoseconds behind them.
fn moment_in(call: &Case) -> Result<Timestamp, CaseError> {
    let seconds = moment(call.value("now"))?;
    let Some(text) = call.optional("nanos") else {
        return Ok(seconds);
    };
    if text.len() > 9 || text.as_bytes().first() == Some(&b'+') {
        return Err(CaseError::NoCase);
    }
    let nanoseconds = number::<u32>(text)?;
    match Timestamp::from_nanosecond(seconds.as_nanosecond() + nanoseconds as i128) {
        Ok(moment) => Ok(moment),
        Err(_) => Err(CaseError::NoCase),
    }
}

// The answer of a call. One that says nothing is a fault.
fn answer_in(alloc: Global, call: &Case) -> Result<Answer, CaseError> {
    match call.optional("status") {
        Some(_) => {
            call.check_with(&["now", "status"], &["nanos", "type", "body"])?;
            Ok(Answer::Response(response_in(alloc, call)?))
        }
        None => {
            call.check_with(&["now"], &["nanos", "fault"])?;
            match call.optional("fault") {
                Some("1") | None => Ok(Answer::Fault),
                Some(_) => Err(CaseError::NoCase),
            }
        }
    }
}

// The pairs of a call, read as those of a case of its name.
fn call_in(alloc: Global, name: &str, text: &str) -> Result<Call, CaseError> {
    let line = format!(in alloc; "op={name}&{text}")?;
    let call = Case::read(alloc, line.as_str())?;
    let now = moment_in(&call)?;
    let answer = answer_in(alloc, &call)?;
    Ok(Call { now, answer })
}

fn steps_in(alloc: Global, case: &Case) -> Result<Vec<Call>, CaseError> {
    let mut steps = Vec::new(alloc);
    for pair in case.pairs() {
        if pair.name() == "step" {
            steps.push(call_in(alloc, "step", pair.value())?)?;
        }
    }
    Ok(steps)
}

// A transport that gives this answer.
fn transport(alloc: Global, answer: Answer) -> Result<Recorded, CaseError> {
    let mut answers = Vec::new(alloc);
    answers.push(answer)?;
    Ok(Recorded::new(alloc, answers))
}

// What stands behind the first word of a line.
fn behind<'t>(line: &'t str, word: &str) -> &'t str {
    match line.strip_prefix(word) {
        Some(rest) => rest,
        None => line,
    }
}

// Puts the requests that were sent.
fn push_requests(alloc: Global, form: &mut FormText, http: &Recorded) -> Result<(), CaseError> {
    for request in http.requests() {
        let line = request_line(alloc, request)?;
        form.push("request", behind(line.as_str(), "ok "))?;
    }
    Ok(())
}

// ---- the answers

fn login_line(
    alloc: Global,
    client: &EndpointsClient,
    start: Call,
    steps: Vec<Call>,
) -> Result<String, CaseError> {
    let Call { now, answer } = start;
    let mut http = transport(alloc, answer)?;
    match DeviceLogin::start(alloc, client, &mut http, now) {
        Ok(mut login) => {
            let line = steps_line(alloc, &http, &mut login, steps);
            drop(login);
            line
        }
        Err(error) => refused_start_line(alloc, &http, error),
    }
}

// The pairs of a start: the request that was sent, and these words.
fn start_form(alloc: Global, http: &Recorded, words: &str) -> Result<FormText, CaseError> {
    let mut form = FormText::new(alloc);
    push_requests(alloc, &mut form, http)?;
    form.push("start", words)?;
    Ok(form)
}

fn refused_start_line(
    alloc: Global,
    http: &Recorded,
    error: StartError<Fault>,
) -> Result<String, CaseError> {
    let words = start_line(alloc, error)?;
    let form = start_form(alloc, http, words.as_str())?;
    ok_form(alloc, form)
}

fn steps_line(
    alloc: Global,
    http: &Recorded,
    login: &mut Login<'_>,
    steps: Vec<Call>,
) -> Result<String, CaseError> {
    let codes = codes_line(alloc, login)?;
    let mut form = start_form(alloc, http, codes.as_str())?;
    for step in steps {
        push_step(alloc, &mut form, login, step)?;
    }
    ok_form(alloc, form)
}

fn codes_line(alloc: Global, login: &Login<'_>) -> Result<String, CaseError> {
    let mut form = FormText::new(alloc);
    form.push("user_code", login.user_code().secret())?;
    form.push("verification_uri", login.verification_uri().as_str())?;
    if let Some(complete) = login.verification_uri_complete() {
        form.push("verification_uri_complete", complete.secret())?;
    }
    ok_form(alloc, form)
}

fn start_line(alloc: Global, error: StartError<Fault>) -> Result<String, CaseError> {
    match error {
        StartError::Device(refusal) => refused_line(alloc, &refusal),
        StartError::Memory => Err(CaseError::Memory),
    }
}

// The request of a step, where it sends one, and what it answers. The words are made first, so that the answer, which may
// hold a user, is let go at once.
fn push_step(
    alloc: Global,
    form: &mut FormText,
    login: &mut Login<'_>,
    step: Call,
) -> Result<(), CaseError> {
    let Call { now, answer } = step;
    let mut http = transport(alloc, answer)?;
    let reply = login.step(&mut http, now);
    let words = reply_line(alloc, reply)?;
    push_requests(alloc, form, &http)?;
    Ok(form.push("step", words.as_str())?)
}

fn reply_line(alloc: Global, reply: Result<Step, DeviceError<Fault>>) -> Result<String, CaseError> {
    match reply {
        Ok(step) => step_line(alloc, step),
        Err(error) => refusal_line(alloc, error),
    }
}

fn step_line(alloc: Global, step: Step) -> Result<String, CaseError> {
    match step {
        DeviceStep::Wait(seconds) => {
            let seconds = format!(in alloc; "{seconds}")?;
            let mut form = FormText::new(alloc);
            form.push("step", "wait")?;
            form.push("seconds", seconds.as_str())?;
            ok_form(alloc, form)
        }
        DeviceStep::Pending => ok_pair(alloc, "step", "pending"),
        DeviceStep::SlowDown => ok_pair(alloc, "step", "slow_down"),
        DeviceStep::Done(user) => done_line(alloc, &user),
    }
}

fn done_line(alloc: Global, user: &User) -> Result<String, CaseError> {
    let members = user.claims().write(alloc)?;
    let claims = object(alloc, members.as_slice())?;
    let mut form = FormText::new(alloc);
    form.push("step", "done")?;
    form.push("access_token", user.access_token().secret())?;
    if let Some(token) = user.refresh_token() {
        form.push("refresh_token", token.secret())?;
    }
    form.push("claims", claims.as_str())?;
    ok_form(alloc, form)
}

// ---- refusals

fn refusal_line(alloc: Global, error: DeviceError<Fault>) -> Result<String, CaseError> {
    match error {
        DeviceError::Over => refused_word(alloc, "over"),
        DeviceError::Expired => refused_word(alloc, "expired"),
        DeviceError::Token(refusal) => token_line(alloc, &refusal),
        DeviceError::NoIdToken => refused_word(alloc, "no_id_token"),
        DeviceError::Claims(kind) => report_line(alloc, LoginError::Claims(kind)),
        DeviceError::Signing(refusal) => report_line(alloc, LoginError::Signing(refusal)),
        DeviceError::TokenHash => refused_word(alloc, "token_hash"),
        DeviceError::Memory => Err(CaseError::Memory),
    }
}

// A report's words that begin with `token`; those of an answer that is too long stand alone.
fn token_line(
    alloc: Global,
    refusal: &RequestTokenError<Fault, DeviceCodeErrorResponse>,
) -> Result<String, CaseError> {
    let line = refused_line(alloc, refusal)?;
    if line.as_str() == "refused too_long" {
        return Ok(line);
    }
    let words = format!(in alloc; "token {}", behind(line.as_str(), "refused "))?;
    refused_word(alloc, words.as_str())
}
