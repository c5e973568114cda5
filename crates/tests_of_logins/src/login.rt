//! Logins over transports of the test's own and one in memory that fail, and begins with requests of other clients and
//! flows. The verifier is that of RFC 7636, appendix B.

use crate::transports::{Down, Fleeting, TOKEN, echo};
use jiff::Timestamp;
use oidc_claims::{AllOtherClaims, EmptyAdditionalClaims};
use oidc_client::{
    AuthenticationFlow, Client, CoreAuthenticationFlow, CoreClient, CoreProviderMetadata,
};
use oidc_keys::CoreJsonWebKey;
use oidc_login::{
    BeginError, LoginClient, LoginError, LoginRequest, Logins, MetadataClient, SignedIn,
    UserInfoDemand,
};
use oidc_oauth2::{
    Adapter, Answer, Body, HttpRequest, HttpResponse, Recorded, RequestTokenError, SyncHttpClient,
};
use oidc_types::{
    ClientId, ClientSecret, CoreGenderClaim, CoreJwsSigningAlgorithm, CsrfToken, EndpointMaybeSet,
    EndpointNotSet, EndpointSet, Marker, Nonce, PkceCodeVerifier, UrlText,
};
use oidc_user_info::{EmptyAdditionalProviderMetadata, UserInfoError, UserInfoResponseType};
use std::alloc::Global;
use std::fmt::Display;
use std::process::Abort;

/// Logins that keep all claims.
pub(crate) type CoreLogins<'c> = Logins<'c, AllOtherClaims, CoreGenderClaim, CoreJsonWebKey>;

type User = SignedIn<AllOtherClaims, CoreGenderClaim>;

fn text(rt: &impl Abort, alloc: Global, text: &str) -> String {
    String::from_str(alloc, text).expect(rt, "memory")
}

/// A URL of this text.
pub(crate) fn url<M: Marker>(rt: &impl Abort, alloc: Global, address: &str) -> UrlText<M> {
    UrlText::new(alloc, text(rt, alloc, address)).expect(rt, "a URL")
}

// ---- clients and their requests

// A client of a provider's metadata, with the keys and claims of a core client: the two are one type.
fn as_core(
    client: &MetadataClient<EmptyAdditionalClaims, CoreGenderClaim, CoreJsonWebKey>,
) -> &CoreClient<
    EndpointSet,
    EndpointNotSet,
    EndpointNotSet,
    EndpointNotSet,
    EndpointMaybeSet,
    EndpointMaybeSet,
> {
    client
}

fn provider(rt: &impl Abort, alloc: Global) -> CoreProviderMetadata {
    let algorithms = [CoreJwsSigningAlgorithm::HmacSha256].to_vec(alloc);
    CoreProviderMetadata::new(
        alloc,
        url(rt, alloc, "https://example"),
        url(rt, alloc, "https://example/authorize"),
        url(rt, alloc, "https://example/keys"),
        algorithms.expect(rt, "memory"),
        EmptyAdditionalProviderMetadata {},
    )
    .set_token_endpoint(Some(url(rt, alloc, "https://example/token")))
    .set_userinfo_endpoint(Some(url(rt, alloc, "https://example/userinfo")))
}

/// A client of this ID, without a redirect.
pub(crate) fn client_of(rt: &impl Abort, alloc: Global, id: &str) -> LoginClient {
    let id = ClientId::new(text(rt, alloc, id));
    let secret = ClientSecret::new(text(rt, alloc, "bbb"));
    Client::from_provider_metadata(provider(rt, alloc), id, Some(secret))
}

// The client `aaa` with this redirect.
fn redirected(rt: &impl Abort, alloc: Global, redirect: &str) -> LoginClient {
    client_of(rt, alloc, "aaa").set_redirect_uri(url(rt, alloc, redirect))
}

/// A client's request of a flow, with this state.
pub(crate) fn request_of<'c>(
    rt: &impl Abort,
    alloc: Global,
    client: &'c LoginClient,
    flow: CoreAuthenticationFlow,
    state: String,
) -> LoginRequest<'c> {
    let nonce = Nonce::new(text(rt, alloc, "NONCE456"));
    client
        .authorize_url(alloc, flow, move || CsrfToken::new(state), move || nonce)
        .expect(rt, "memory")
}

/// A verifier of so many letters, the first of that of RFC 7636.
pub(crate) fn verifier(rt: &impl Abort, alloc: Global, letters: usize) -> PkceCodeVerifier {
    let whole = "dBjftJeZ4CVP-mB92K27uhbUJU1p1r_wW1gFWFOEjXk";
    let letters = whole.get(..letters).expect(rt, "at most 43 letters");
    PkceCodeVerifier::new(text(rt, alloc, letters))
}

// Begins a login in a store with a request of this client.
fn begin<'c>(
    rt: &impl Abort,
    alloc: Global,
    client: &'c LoginClient,
    logins: &mut CoreLogins<'c>,
    user_info: Option<UserInfoDemand>,
) {
    let state = text(rt, alloc, "CSRF123");
    let flow = AuthenticationFlow::AuthorizationCode;
    let request = request_of(rt, alloc, client, flow, state);
    let _ = logins
        .begin(request, verifier(rt, alloc, 43), user_info)
        .expect(rt, "a login");
}

// ---- over a closure, and over a transport of the test's own

// What a refusal prints, the transport's own error where it carries one, and whether the login is gone.
fn refusal<E: Drop + Display>(rt: &impl Abort, alloc: Global, error: &LoginError<E>) -> String {
    let spent = error.spent();
    let line = match error {
        LoginError::Token(RequestTokenError::Request(own)) => {
            format!(in alloc; "{error}: {own}; {spent}")
        }
        LoginError::UserInfo(UserInfoError::Request(own)) => {
            format!(in alloc; "{error}: {own}; {spent}")
        }
        _ => format!(in alloc; "{error}; {spent}"),
    };
    line.expect(rt, "memory")
}

// What a callback answers, in words.
fn answer<E: Drop + Display>(
    rt: &impl Abort,
    alloc: Global,
    reply: &Result<User, LoginError<E>>,
) -> String {
    match reply {
        Ok(signed) => {
            let subject = signed.claims().subject().as_str();
            let own = signed.id_token().token().as_str() == TOKEN;
            let access = signed.access_token().secret();
            format!(in alloc; "{subject} {access} {own}").expect(rt, "memory")
        }
        Err(error) => refusal(rt, alloc, error),
    }
}

// A demand of user info that needs no signature.
const UNSIGNED: UserInfoDemand = UserInfoDemand {
    signed: false,
    issuer_match: true,
    audience_match: true,
    response_type: UserInfoResponseType::Json,
};

// A login at this client over any transport, in one line: whether its state alone is pending before its callback,
// whether it is pending after it, and what the callback answers.
fn login<E: Drop + Display, H: SyncHttpClient<Error = E>>(
    rt: &impl Abort,
    alloc: Global,
    client: &LoginClient,
    http: &mut H,
    user_info: Option<UserInfoDemand>,
) -> String
    requires { H.ready http.old }
    ensures { H.ready http.new }
{
    let mut logins = Logins::new(alloc, client).expect(rt, "a token endpoint");
    begin(rt, alloc, client, &mut logins, user_info);
    let before = logins.is_pending("CSRF123") && !logins.is_pending("CSRF12");
    let now = Timestamp::from_second(1999).expect(rt, "a moment");
    let reply = logins.callback(b"code=c1&state=CSRF123".as_slice(), http, now);
    let answered = answer(rt, alloc, &reply);
    drop(reply);
    let after = logins.is_pending("CSRF123");
    drop(logins);
    format!(in alloc; "{before} {after} {answered}").expect(rt, "memory")
}

// A login over a closure that always answers, or never does, and how often it has failed.
fn login_over_closure(rt: &impl Abort, alloc: Global, is_up: bool) -> String {
    let client = client_of(rt, alloc, "aaa");
    let mut http = Adapter::new(move |request: HttpRequest| -> Result<HttpResponse, Down> {
        if !is_up {
            return Err(Down(0));
        }
        echo(alloc, &request).map_err(|_| Down(1))
    });
    let line = login(rt, alloc, &client, &mut http, None);
    drop(client);
    format!(in alloc; "{line} {}", http.faults()).expect(rt, "memory")
}

// Whether the closure answers, and the line.
static CLOSURES: [(bool, &str); 2] = [
    (true, "true false u1 POST https://example/token true 0"),
    (
        false,
        "true false no tokens: the request failed: down since 0; true 1",
    ),
];

#[test]
fn callbacks_over_closures(rt: HostRuntime) {
    for (is_up, want) in &CLOSURES {
        assert_eq!(rt; login_over_closure(&rt, rt.alloc(), *is_up).as_str(), *want);
    }
}

// Logins at this client over a transport that answers one request alone, the first of which may demand user info, and
// the counts of the transport.
fn logins_over_own(rt: &impl Abort, alloc: Global, user_info: Option<UserInfoDemand>) -> String {
    let client = client_of(rt, alloc, "aaa");
    let mut http = Fleeting::new();
    let first = login(rt, alloc, &client, &mut http, user_info);
    let second = login(rt, alloc, &client, &mut http, None);
    drop(client);
    format!(in alloc; "{first}, {second}, {:?}", http.counts()).expect(rt, "memory")
}

// What is demanded, and the line. The transport counts its requests, and those that failed.
static OWN: [(Option<UserInfoDemand>, &str); 2] = [
    (
        None,
        "true false u1 POST https://example/token true, true false no tokens: the request failed: down since 1; true, (2, 1)",
    ),
    (
        Some(UNSIGNED),
        "true false no user info: the request failed: down since 1; true, true false no tokens: the request failed: down since 2; true, (3, 2)",
    ),
];

#[test]
fn callbacks_over_a_transport_of_ones_own(rt: HostRuntime) {
    for (user_info, want) in &OWN {
        assert_eq!(rt;
            logins_over_own(&rt, rt.alloc(), *user_info).as_str(),
            *want
        );
    }
}

// ---- over a transport in memory

// A response with tokens, of which the access token is `abc`.
fn tokens(rt: &impl Abort, alloc: Global) -> HttpResponse {
    let body = format!(in alloc;
        "{{\"access_token\":\"abc\",\"token_type\":\"Bearer\",\"id_token\":\"{TOKEN}\"}}"
    ).expect(rt, "memory");
    http::Response::new(alloc, Body::new(body.into_bytes()))
}

// Answers by their letters: `t` for tokens, and another for a fault.
fn answers(rt: &impl Abort, alloc: Global, letters: &str) -> Vec<Answer> {
    let mut answers = Vec::new(alloc);
    for letter in letters.as_bytes() {
        let answer = match *letter {
            b't' => Answer::Response(tokens(rt, alloc)),
            _ => Answer::Fault,
        };
        answers.push(answer).expect(rt, "memory");
    }
    answers
}

// A login over a transport that gives these answers, and how many requests were handed over.
fn login_over_recorded(
    rt: &impl Abort,
    alloc: Global,
    letters: &str,
    user_info: Option<UserInfoDemand>,
) -> String {
    let client = client_of(rt, alloc, "aaa");
    let mut http = Recorded::new(alloc, answers(rt, alloc, letters));
    let line = login(rt, alloc, &client, &mut http, user_info);
    drop(client);
    format!(in alloc; "{line} {}", http.requests().len()).expect(rt, "memory")
}

const NO_TOKENS: &str = "true false no tokens: the request failed: no response; true 1";

const NO_USER_INFO: &str = "true false no user info: the request failed: no response; true 2";

// The answers, what is demanded, and the line. A fault, or no answer any more, spends the login, at the first request as at
// the second.
static RECORDED: [(&str, Option<UserInfoDemand>, &str); 7] = [
    ("f", None, NO_TOKENS),
    ("f", Some(UNSIGNED), NO_TOKENS),
    ("ft", Some(UNSIGNED), NO_TOKENS),
    ("", Some(UNSIGNED), NO_TOKENS),
    ("tf", Some(UNSIGNED), NO_USER_INFO),
    ("t", Some(UNSIGNED), NO_USER_INFO),
    ("tf", None, "true false u1 abc true 1"),
];

#[test]
fn callbacks_over_a_transport_in_memory(rt: HostRuntime) {
    for (letters, user_info, want) in &RECORDED {
        let line = login_over_recorded(&rt, rt.alloc(), letters, *user_info);
        assert_eq!(rt; line.as_str(), *want, "{letters}");
    }
}

// ---- begins with requests of other clients and flows

fn flow_of(alloc: Global, flow: &str) -> CoreAuthenticationFlow {
    match flow {
        "id_token" => AuthenticationFlow::Implicit(false),
        "id_token token" => AuthenticationFlow::Implicit(true),
        "hybrid" => AuthenticationFlow::Hybrid(Vec::new(alloc)),
        _ => AuthenticationFlow::AuthorizationCode,
    }
}

// What a begin answers, in words.
fn begin_word<U>(rt: &impl Abort, alloc: Global, reply: &Result<U, BeginError>) -> String {
    match reply {
        Ok(_) => text(rt, alloc, "ok"),
        Err(error) => format!(in alloc; "{error}").expect(rt, "memory"),
    }
}

// What the store of a client answers to a begin with a request of another client and a verifier of so many letters, and
// how many logins are pending after it.
fn begin_words<'c>(
    rt: &impl Abort,
    alloc: Global,
    own: &'c LoginClient,
    other: &'c LoginClient,
    flow: &str,
    letters: usize,
) -> String {
    let mut logins = Logins::new(alloc, own).expect(rt, "a token endpoint");
    let state = text(rt, alloc, "CSRF123");
    let request = request_of(rt, alloc, other, flow_of(alloc, flow), state);
    let reply = logins.begin(request, verifier(rt, alloc, letters), None);
    let word = begin_word(rt, alloc, &reply);
    drop(reply);
    let count = logins.pending();
    drop(logins);
    format!(in alloc; "{word} {count}").expect(rt, "memory")
}

// The same of the store of the client `aaa` and a client of this ID.
fn begin_line(rt: &impl Abort, alloc: Global, id: &str, flow: &str, letters: usize) -> String {
    let client = client_of(rt, alloc, "aaa");
    let other = client_of(rt, alloc, id);
    let line = begin_words(rt, alloc, &client, &other, flow, letters);
    drop(other);
    drop(client);
    line
}

// The ID of the client that makes the request, the flow, the letters of the verifier, and the line: the first
// refusal is answered.
static BEGINS: [(&str, &str, usize, &str); 8] = [
    ("aaa", "code", 43, "ok 1"),
    (
        "aaa",
        "id_token",
        43,
        "the request isn't for a code alone 0",
    ),
    (
        "aaa",
        "id_token token",
        43,
        "the request isn't for a code alone 0",
    ),
    ("aaa", "hybrid", 43, "the request isn't for a code alone 0"),
    ("aab", "hybrid", 42, "the request isn't for a code alone 0"),
    ("aab", "code", 43, "the request is another client's 0"),
    ("aab", "code", 42, "the request is another client's 0"),
    ("aaa", "code", 42, "the verifier hasn't 43 to 128 bytes 0"),
];

#[test]
fn begins_with_requests_of_other_clients_and_flows(rt: HostRuntime) {
    for (id, flow, letters, want) in &BEGINS {
        let line = begin_line(&rt, rt.alloc(), id, flow, *letters);
        assert_eq!(rt; line.as_str(), *want);
    }
}

// The body of the token request of a login in the store of this client, which began with a request of the other.
fn body_sent<'c>(
    rt: &impl Abort,
    alloc: Global,
    own: &'c LoginClient,
    other: &'c LoginClient,
) -> String {
    let mut logins = Logins::new(alloc, own).expect(rt, "a token endpoint");
    begin(rt, alloc, other, &mut logins, None);
    let mut http = Recorded::new(alloc, Vec::new(alloc));
    let now = Timestamp::from_second(1999).expect(rt, "a moment");
    drop(logins.callback(b"code=c1&state=CSRF123".as_slice(), &mut http, now));
    drop(logins);
    let request = http.requests().first().expect(rt, "a request");
    text(
        rt,
        alloc,
        str::from_utf8(request.body().as_slice()).unwrap_or("no text"),
    )
}

const WITHOUT_REDIRECT: &str =
    "grant_type=authorization_code&code=c1&code_verifier=dBjftJeZ4CVP-mB92K27uhbUJU1p1r_wW1gFWFOEjXk";

const WITH_REDIRECT: &str =
    "grant_type=authorization_code&code=c1&code_verifier=dBjftJeZ4CVP-mB92K27uhbUJU1p1r_wW1gFWFOEjXk&redirect_uri=https%3A%2F%2Fother%2F";

// The body for a store's client and another, each with a redirect where one is given.
fn body_between(rt: &impl Abort, alloc: Global, own: LoginClient, other: LoginClient) -> String {
    let body = body_sent(rt, alloc, &own, &other);
    drop(own);
    drop(other);
    body
}

// The client `aaa` without a redirect.
fn bare(rt: &impl Abort, alloc: Global) -> LoginClient {
    client_of(rt, alloc, "aaa")
}

#[test]
fn a_store_with_a_redirect_sends_none_of_its_own(rt: HostRuntime) {
    let own = redirected(&rt, rt.alloc(), "https://own/");
    let body = body_between(&rt, rt.alloc(), own, bare(&rt, rt.alloc()));
    assert_eq!(rt; body.as_str(), WITHOUT_REDIRECT);
}

#[test]
fn a_store_without_a_redirect_sends_that_of_the_request(rt: HostRuntime) {
    let other = redirected(&rt, rt.alloc(), "https://other/");
    let body = body_between(&rt, rt.alloc(), bare(&rt, rt.alloc()), other);
    assert_eq!(rt; body.as_str(), WITH_REDIRECT);
}

#[test]
fn a_store_with_a_redirect_sends_that_of_the_request(rt: HostRuntime) {
    let own = redirected(&rt, rt.alloc(), "https://own/");
    let other = redirected(&rt, rt.alloc(), "https://other/");
    let body = body_between(&rt, rt.alloc(), own, other);
    assert_eq!(rt; body.as_str(), WITH_REDIRECT);
}
