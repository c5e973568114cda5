//! Whole logins over one provider double.

use crate::calls::{
    Authorization, Double, authorization_in, authorization_of, authorized_line, call_in,
    refusal_words, registrations_in, settings_in,
};
use case_lines::{
    Case, CaseError, algorithms, moment, ok_form, ok_pair, refused_word, request_line, url_of,
};
use jiff::Timestamp;
use oidc_claims::AllOtherClaims;
use oidc_cli::verdict_line;
use oidc_client::{AuthenticationFlow, Client, ProviderMetadata};
use oidc_keys::CoreJsonWebKey;
use oidc_login::{
    BeginError, LoginClient, LoginError, LoginRequest, Logins, SignedIn, UserInfoDemand,
};
use oidc_members::Reading;
use oidc_oauth2::{CoreRequestTokenError, Fault, RequestTokenError};
use oidc_pairs::FormText;
use oidc_provider::{NewProviderError, SignInError, sign_in};
use oidc_types::{
    AuthUrl, ClientId, ClientSecret, CoreGenderClaim, CsrfToken, IssuerUrl, JsonWebKeySetUrl,
    Nonce, PkceCodeVerifier, RedirectUrl, TokenUrl, UserInfoUrl,
};
use oidc_user_info::{EmptyAdditionalProviderMetadata, UserInfoError, UserInfoResponseType};
use std::alloc::{AllocError, Global};
use std::convert::Infallible;
use url::Url;

type Metadata = ProviderMetadata<EmptyAdditionalProviderMetadata, CoreJsonWebKey>;

type User = SignedIn<AllOtherClaims, CoreGenderClaim>;

type Pending<'c> = Logins<'c, AllOtherClaims, CoreGenderClaim, CoreJsonWebKey>;

// ---- the client

fn metadata_in(alloc: Global, case: &Case) -> Result<Metadata, CaseError> {
    let issuer: IssuerUrl = url_of(alloc, case.value("issuer"))?;
    let auth: AuthUrl = url_of(alloc, case.value("auth"))?;
    let token: TokenUrl = url_of(alloc, case.value("token"))?;
    let jwks_uri: JsonWebKeySetUrl = url_of(alloc, case.value("issuer"))?;
    let algorithms = algorithms(alloc, case.value("algs"))?;
    let user_info = match case.optional("userinfo") {
        Some(text) => {
            let url: UserInfoUrl = url_of(alloc, text)?;
            Some(url)
        }
        None => None,
    };
    let more = EmptyAdditionalProviderMetadata {};
    let metadata = Metadata::new(alloc, issuer, auth, jwks_uri, algorithms, more);
    Ok(
        metadata
            .set_token_endpoint(Some(token))
            .set_userinfo_endpoint(user_info),
    )
}

fn secret_in(alloc: Global, case: &Case) -> Result<Option<ClientSecret>, AllocError> {
    match case.optional("secret") {
        Some(secret) => Ok(Some(ClientSecret::new(String::from_str(alloc, secret)?))),
        None => Ok(None),
    }
}

fn redirect_in(alloc: Global, case: &Case) -> Result<Option<RedirectUrl>, CaseError> {
    match case.optional("redirect") {
        Some(redirect) => {
            let url: RedirectUrl = url_of(alloc, redirect)?;
            Ok(Some(url))
        }
        None => Ok(None),
    }
}

// A client line knows one reading by name.
fn reading_on(case: &Case) -> Result<Reading, CaseError> {
    match case.optional("reading") {
        None => Ok(Reading::STRICT),
        Some("lenient") => Ok(Reading {
            string_booleans: true,
            rfc3339_moments: true,
        }),
        Some(_) => Err(CaseError::NoCase),
    }
}

fn client_in(alloc: Global, text: &str) -> Result<LoginClient, CaseError> {
    let case = call_in(alloc, text)?;
    let optional = ["secret", "userinfo", "redirect", "reading"];
    case.check_with(&["id", "issuer", "auth", "token", "algs"], &optional)?;
    let id = ClientId::new(String::from_str(alloc, case.value("id"))?);
    let secret = secret_in(alloc, &case)?;
    let redirect = redirect_in(alloc, &case)?;
    let metadata = metadata_in(alloc, &case)?;
    let reading = reading_on(&case)?;
    let client: LoginClient = Client::from_provider_metadata(metadata, id, secret);
    let client = client.set_reading(reading);
    Ok(match redirect {
        Some(redirect) => client.set_redirect_uri(redirect),
        None => client,
    })
}

// ---- the calls

// A begin, as it stands on a line of a script.
#[derive(Drop)]
struct Begin {
    state: CsrfToken,
    nonce: Nonce,
    verifier: PkceCodeVerifier,
    redirect: Option<RedirectUrl>,
    user_info: Option<UserInfoDemand>,
}

fn demand_in(case: &Case) -> Result<Option<UserInfoDemand>, CaseError> {
    let (signed, response_type) = match case.optional("userinfo") {
        None => return Ok(None),
        Some("json") => (false, UserInfoResponseType::Json),
        Some("jwt") => (true, UserInfoResponseType::Jwt),
        Some(_) => return Err(CaseError::NoCase),
    };
    Ok(Some(UserInfoDemand {
        signed,
        issuer_match: true,
        audience_match: true,
        response_type,
    }))
}

fn begin_in(alloc: Global, text: &str) -> Result<Begin, CaseError> {
    let case = call_in(alloc, text)?;
    case.check_with(&["state", "nonce", "verifier"], &["redirect", "userinfo"])?;
    Ok(Begin {
        state: CsrfToken::new(String::from_str(alloc, case.value("state"))?),
        nonce: Nonce::new(String::from_str(alloc, case.value("nonce"))?),
        verifier: PkceCodeVerifier::new(String::from_str(alloc, case.value("verifier"))?),
        redirect: redirect_in(alloc, &case)?,
        user_info: demand_in(&case)?,
    })
}

// A callback.
#[derive(Drop)]
struct Callback {
    now: Timestamp,
    query: String,
}

fn callback_in(alloc: Global, text: &str) -> Result<Callback, CaseError> {
    let case = call_in(alloc, text)?;
    case.check(&["now", "query"])?;
    Ok(Callback {
        now: moment(case.value("now"))?,
        query: String::from_str(alloc, case.value("query"))?,
    })
}

// An authorization, and a callback with the query that comes of it.
#[derive(Drop)]
struct SignIn {
    asked: Authorization,
    now: Timestamp,
}

fn sign_in_in(alloc: Global, text: &str) -> Result<SignIn, CaseError> {
    let case = call_in(alloc, text)?;
    case.check(&["url", "claims", "user_info", "code", "token", "now"])?;
    let now = moment(case.value("now"))?;
    let asked = authorization_of(alloc, &case)?;
    Ok(SignIn { asked, now })
}

#[derive(Drop)]
enum Step {
    Begin(Begin),
    Authorize(Authorization),
    Callback(Callback),
    SignIn(SignIn),
}

fn steps_in(alloc: Global, case: &Case) -> Result<Vec<Step>, CaseError> {
    let mut steps = Vec::new(alloc);
    for pair in case.pairs() {
        match pair.name() {
            "begin" => steps.push(Step::Begin(begin_in(alloc, pair.value())?))?,
            "authorize" => {
                steps.push(Step::Authorize(authorization_in(alloc, pair.value())?))?;
            }
            "callback" => steps.push(Step::Callback(callback_in(alloc, pair.value())?))?,
            "sign_in" => steps.push(Step::SignIn(sign_in_in(alloc, pair.value())?))?,
            _ => {}
        }
    }
    Ok(steps)
}

// ---- begin

fn request_of<'c>(
    alloc: Global,
    client: &'c LoginClient,
    state: CsrfToken,
    nonce: Nonce,
    redirect: Option<RedirectUrl>,
) -> Result<LoginRequest<'c>, AllocError> {
    let flow = AuthenticationFlow::AuthorizationCode;
    let request: LoginRequest<'c> = client.authorize_url(alloc, flow, || state, || nonce)?;
    Ok(match redirect {
        Some(redirect) => request.set_redirect_uri(redirect),
        None => request,
    })
}

fn begun<'c>(
    alloc: Global,
    client: &'c LoginClient,
    logins: &mut Pending<'c>,
    begin: Begin,
) -> Result<Url, BeginError> {
    let Begin {
        state,
        nonce,
        verifier,
        redirect,
        user_info,
    } = begin;
    let request = request_of(alloc, client, state, nonce, redirect)?;
    logins.begin(request, verifier, user_info)
}

fn begin_line<'c>(
    alloc: Global,
    client: &'c LoginClient,
    logins: &mut Pending<'c>,
    begin: Begin,
) -> Result<String, CaseError> {
    match begun(alloc, client, logins, begin) {
        Ok(url) => ok_pair(alloc, "url", url.as_str()),
        Err(BeginError::Flow) => refused_word(alloc, "flow"),
        Err(BeginError::ClientId) => refused_word(alloc, "client_id"),
        Err(BeginError::Verifier) => refused_word(alloc, "verifier"),
        Err(BeginError::UserInfoEndpoint) => refused_word(alloc, "user_info_endpoint"),
        Err(BeginError::Pending) => refused_word(alloc, "pending"),
        Err(BeginError::TooLong) => refused_word(alloc, "too_long"),
        Err(BeginError::Memory) => Err(CaseError::Memory),
    }
}

// ---- callback

// A refusal of a token request over a transport that never fails, in the words of one that may.
fn token_refusal(refusal: CoreRequestTokenError<Infallible>) -> CoreRequestTokenError<Fault> {
    match refusal {
        RequestTokenError::ServerResponse(error) => RequestTokenError::ServerResponse(error),
        RequestTokenError::Request(never) => match never {},
        RequestTokenError::Parse(refusal, body) => RequestTokenError::Parse(refusal, body),
        RequestTokenError::Other(cause) => RequestTokenError::Other(cause),
        RequestTokenError::TooLong(body) => RequestTokenError::TooLong(body),
        RequestTokenError::Memory => RequestTokenError::Memory,
    }
}

// The same of a request for user info.
fn info_refusal(refusal: UserInfoError<Infallible>) -> UserInfoError<Fault> {
    match refusal {
        UserInfoError::ClaimsVerification(kind) => UserInfoError::ClaimsVerification(kind),
        UserInfoError::Parse(refusal) => UserInfoError::Parse(refusal),
        UserInfoError::Request(never) => match never {},
        UserInfoError::Response(status, body, cause) => {
            UserInfoError::Response(status, body, cause)
        }
        UserInfoError::Other(cause) => UserInfoError::Other(cause),
        UserInfoError::TooLong(body) => UserInfoError::TooLong(body),
        UserInfoError::Memory => UserInfoError::Memory,
    }
}

// The same of a login.
fn login_refusal(refusal: LoginError<Infallible>) -> LoginError<Fault> {
    match refusal {
        LoginError::TooLong(place) => LoginError::TooLong(place),
        LoginError::State => LoginError::State,
        LoginError::Provider(code) => LoginError::Provider(code),
        LoginError::Callback => LoginError::Callback,
        LoginError::Token(refusal) => LoginError::Token(token_refusal(refusal)),
        LoginError::NoIdToken => LoginError::NoIdToken,
        LoginError::Claims(kind) => LoginError::Claims(kind),
        LoginError::Signing(refusal) => LoginError::Signing(refusal),
        LoginError::TokenHash => LoginError::TokenHash,
        LoginError::UserInfo(refusal) => LoginError::UserInfo(info_refusal(refusal)),
        LoginError::Memory { spent } => LoginError::Memory { spent },
    }
}

// What the report says of a callback, behind its first word.
fn reported(
    alloc: Global,
    reply: Result<User, LoginError<Infallible>>,
) -> Result<String, CaseError> {
    let line = verdict_line(alloc, &reply.map_err(login_refusal))?;
    match line.as_str().strip_prefix("callback ") {
        Some(words) => Ok(String::from_str(alloc, words.trim_end_matches('\n'))?),
        None => Err(CaseError::NoCase),
    }
}

fn callback_line(
    alloc: Global,
    logins: &mut Pending<'_>,
    provider: &mut Double,
    callback: Callback,
) -> Result<String, CaseError> {
    let reply = logins.callback(callback.query.as_str().as_bytes(), provider, callback.now);
    reported(alloc, reply)
}

// The same of a whole login, or why nothing was granted.
fn sign_in_line(
    alloc: Global,
    logins: &mut Pending<'_>,
    provider: &mut Double,
    call: SignIn,
) -> Result<String, CaseError> {
    let SignIn { asked, now } = call;
    let Authorization {
        url,
        claims,
        user_info,
        code,
        token,
    } = asked;
    match sign_in(
        provider,
        logins,
        url.url(),
        claims,
        user_info,
        code,
        token,
        now,
    ) {
        Ok(user) => reported(alloc, Ok(user)),
        Err(SignInError::Login(refusal)) => reported(alloc, Err(refusal)),
        Err(SignInError::Authorize(refusal)) => {
            Ok(String::from_str(alloc, refusal_words(refusal)?)?)
        }
    }
}

// The requests that a provider got behind the first ones.
fn push_requests(
    alloc: Global,
    form: &mut FormText,
    provider: &Double,
    before: usize,
) -> Result<(), CaseError> {
    for request in provider.requests().iter().skip(before) {
        let line = request_line(alloc, request)?;
        match line.as_str().strip_prefix("ok ") {
            Some(pairs) => form.push("request", pairs)?,
            None => return Err(CaseError::NoCase),
        }
    }
    Ok(())
}

// ---- the run

fn push_callback(
    alloc: Global,
    form: &mut FormText,
    logins: &mut Pending<'_>,
    provider: &mut Double,
    callback: Callback,
) -> Result<(), CaseError> {
    let before = provider.requests().len();
    let line = callback_line(alloc, logins, provider, callback)?;
    push_requests(alloc, form, provider, before)?;
    Ok(form.push("callback", line.as_str())?)
}

fn push_sign_in(
    alloc: Global,
    form: &mut FormText,
    logins: &mut Pending<'_>,
    provider: &mut Double,
    call: SignIn,
) -> Result<(), CaseError> {
    let before = provider.requests().len();
    let line = sign_in_line(alloc, logins, provider, call)?;
    push_requests(alloc, form, provider, before)?;
    Ok(form.push("sign_in", line.as_str())?)
}

fn push_step<'c>(
    alloc: Global,
    form: &mut FormText,
    client: &'c LoginClient,
    logins: &mut Pending<'c>,
    provider: &mut Double,
    step: Step,
) -> Result<(), CaseError> {
    match step {
        Step::Begin(begin) => {
            let line = begin_line(alloc, client, logins, begin)?;
            Ok(form.push("begin", line.as_str())?)
        }
        Step::Authorize(asked) => {
            let line = authorized_line(alloc, provider, asked)?;
            Ok(form.push("authorize", line.as_str())?)
        }
        Step::Callback(callback) => push_callback(alloc, form, logins, provider, callback),
        Step::SignIn(call) => push_sign_in(alloc, form, logins, provider, call),
    }
}

fn run_line(
    alloc: Global,
    client: &LoginClient,
    provider: &mut Double,
    steps: Vec<Step>,
) -> Result<String, CaseError> {
    let Ok(mut logins) = Logins::new(alloc, client) else {
        return Err(CaseError::NoCase);
    };
    let mut form = FormText::new(alloc);
    for step in steps {
        push_step(alloc, &mut form, client, &mut logins, provider, step)?;
    }
    drop(logins);
    ok_form(alloc, form)
}

/// `provider_logins`: logins of one client, from their begin to their callback, over one provider.
pub(crate) fn provider_logins(alloc: Global, case: &Case) -> Result<String, CaseError> {
    let repeated = ["registration", "begin", "authorize", "callback", "sign_in"];
    case.check_all(&["issuer", "token", "user_info", "client"], &[], &repeated)?;
    let settings = settings_in(alloc, case)?;
    let registrations = registrations_in(alloc, case)?;
    let steps = steps_in(alloc, case)?;
    let client = client_in(alloc, case.value("client"))?;
    let made: Result<Double, NewProviderError> = Double::new(alloc, settings, registrations);
    match made {
        Ok(mut provider) => run_line(alloc, &client, &mut provider, steps),
        Err(NewProviderError::SameClient) => refused_word(alloc, "same_client"),
        Err(NewProviderError::Memory) => Err(CaseError::Memory),
    }
}
