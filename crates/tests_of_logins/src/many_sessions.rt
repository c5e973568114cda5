//! Very many sessions at once, and logouts among them.

use crate::login::{CoreLogins, client_of, request_of, verifier};
use base64::engine::general_purpose::URL_SAFE_NO_PAD;
use jiff::Timestamp;
use oidc_claims::{AllOtherClaims, EmptyAdditionalClaims, StandardClaims};
use oidc_client::AuthenticationFlow;
use oidc_keys::{CoreHmacKey, CoreJsonWebKey, HmacAlgorithm, JsonWebKey, hmac};
use oidc_login::{LoginClient, Logins, SignedIn};
use oidc_oauth2::{Answer, Body, HttpResponse, Recorded};
use oidc_session::{LogoutVerifier, ProviderSession, SessionId, Sessions};
use oidc_tokens::{CoreIdToken, CoreIdTokenClaims, IdTokenClaims};
use oidc_types::{
    Audience, ClientId, CoreGenderClaim, CoreJwsSigningAlgorithm, IssuerUrl, Nonce,
    SubjectIdentifier,
};
use std::alloc::Global;
use std::process::Abort;

type User = SignedIn<AllOtherClaims, CoreGenderClaim>;

// So many subjects, with two sessions each, and so many logouts.
const SUBJECTS: usize = 50_000;

const LOGOUTS: usize = 1_000;

fn text(rt: &impl Abort, alloc: Global, text: &str) -> String {
    String::from_str(alloc, text).expect(rt, "memory")
}

fn issuer(rt: &impl Abort, alloc: Global) -> IssuerUrl {
    IssuerUrl::new(alloc, text(rt, alloc, "https://example")).expect(rt, "a URL")
}

fn at_second(rt: &impl Abort, second: i64) -> Timestamp {
    Timestamp::from_second(second).expect(rt, "a moment")
}

// ---- users

// The text of an ID token of the subject with this number.
fn id_token(rt: &impl Abort, alloc: Global, number: usize) -> String {
    let mut audiences = Vec::new(alloc);
    let client = Audience::new(text(rt, alloc, "aaa"));
    audiences.push(client).expect(rt, "memory");
    let subject = format!(in alloc; "u{number}").expect(rt, "memory");
    let claims: CoreIdTokenClaims = IdTokenClaims::new(
        issuer(rt, alloc),
        audiences,
        at_second(rt, 2000),
        at_second(rt, 900),
        StandardClaims::new(SubjectIdentifier::new(subject)),
        EmptyAdditionalClaims {},
    );
    let claims = claims.set_nonce(Some(Nonce::new(text(rt, alloc, "NONCE456"))));
    let key = CoreHmacKey::new(Vec::from_slice(alloc, b"bbb").expect(rt, "memory"));
    let alg = CoreJwsSigningAlgorithm::HmacSha256;
    let token = CoreIdToken::new(alloc, claims, &key, alg, None, None).expect(rt, "a token");
    text(rt, alloc, token.token().as_str())
}

fn tokens(rt: &impl Abort, alloc: Global, number: usize) -> HttpResponse {
    let token = id_token(rt, alloc, number);
    let body = format!(in alloc;
        "{{\"access_token\":\"abc\",\"token_type\":\"Bearer\",\"id_token\":\"{token}\"}}"
    ).expect(rt, "memory");
    http::Response::new(alloc, Body::new(body.into_bytes()))
}

// The user with this number, who signs in.
fn user<'c>(
    rt: &impl Abort,
    alloc: Global,
    client: &'c LoginClient,
    logins: &mut CoreLogins<'c>,
    number: usize,
) -> User {
    let state = text(rt, alloc, "CSRF123");
    let flow = AuthenticationFlow::AuthorizationCode;
    let request = request_of(rt, alloc, client, flow, state);
    let _ = logins
        .begin(request, verifier(rt, alloc, 43), None)
        .expect(rt, "a login");
    let mut answers = Vec::new(alloc);
    let answer = Answer::Response(tokens(rt, alloc, number));
    answers.push(answer).expect(rt, "memory");
    let mut http = Recorded::new(alloc, answers);
    let query = b"code=c1&state=CSRF123".as_slice();
    logins
        .callback(query, &mut http, at_second(rt, 1000))
        .expect(rt, "a user")
}

// ---- sessions

type CoreSessions<'v> = Sessions<'v, CoreJsonWebKey>;

// Opens the session with this number: that user's, behind the provider's session of the same number.
fn open(
    rt: &impl Abort,
    alloc: Global,
    sessions: &mut CoreSessions<'_>,
    user: &User,
    number: usize,
) {
    let id = SessionId::new(format!(in alloc; "s{number}").expect(rt, "memory"));
    let sid = ProviderSession::new(format!(in alloc; "p{number}").expect(rt, "memory"));
    let (end, now) = (at_second(rt, 2000), at_second(rt, 1000));
    sessions
        .open(id, user, Some(sid), end, now)
        .expect(rt, "a session");
}

fn open_all(rt: &impl Abort, alloc: Global, client: &LoginClient, sessions: &mut CoreSessions<'_>) {
    let mut logins = Logins::new(alloc, client).expect(rt, "a token endpoint");
    for number in 0..SUBJECTS {
        let user = user(rt, alloc, client, &mut logins, number);
        open(rt, alloc, sessions, &user, 2 * number);
        open(rt, alloc, sessions, &user, 2 * number + 1);
        drop(user);
    }
    drop(logins);
}

// ---- logouts

fn encoded(rt: &impl Abort, alloc: Global, bytes: &[u8]) -> String {
    URL_SAFE_NO_PAD.encode(alloc, bytes).expect(rt, "memory")
}

// What the logout with this number names: a subject, the second of its two sessions, or both.
fn names(rt: &impl Abort, alloc: Global, number: usize, second: usize) -> String {
    let names = match number % 3 {
        0 => format!(in alloc; "\"sub\":\"u{number}\""),
        1 => format!(in alloc; "\"sid\":\"p{second}\""),
        _ => format!(in alloc; "\"sub\":\"u{number}\",\"sid\":\"p{second}\""),
    };
    names.expect(rt, "memory")
}

// The logout token with this number, of the subject with it, whose second session has that number.
fn logout_token(rt: &impl Abort, alloc: Global, number: usize, second: usize) -> String {
    let names = names(rt, alloc, number, second);
    let event = "\"events\":{\"http://schemas.openid.net/event/backchannel-logout\":{}}";
    let claims = format!(in alloc;
        "{{\"iss\":\"https://example\",\"aud\":\"aaa\",\"iat\":900,\"exp\":2000,\"jti\":\"j{number}\",{event},{names}}}"
    ).expect(rt, "memory");
    let head = encoded(rt, alloc, b"{\"alg\":\"HS256\"}");
    let body = encoded(rt, alloc, claims.as_bytes());
    let message = format!(in alloc; "{head}.{body}").expect(rt, "memory");
    let mac = hmac(alloc, HmacAlgorithm::Sha256, b"bbb", message.as_bytes()).expect(rt, "memory");
    let mac = encoded(rt, alloc, mac.as_slice());
    format!(in alloc; "{message}.{mac}").expect(rt, "memory")
}

// How many sessions all logouts end.
fn log_out_all(rt: &impl Abort, alloc: Global, sessions: &mut CoreSessions<'_>) -> usize {
    let mut ended = 0usize;
    for number in 0..LOGOUTS {
        let token = logout_token(rt, alloc, number, 2 * number + 1);
        let count = sessions.provider_logout(token.as_str(), at_second(rt, 1000));
        ended = ended.saturating_add(count.expect(rt, "a logout"));
    }
    ended
}

// How many of the first sessions are found, two for each logout.
fn found_first(rt: &impl Abort, alloc: Global, sessions: &CoreSessions<'_>) -> usize {
    let mut found = 0usize;
    for number in 0..2 * LOGOUTS {
        let id = SessionId::new(format!(in alloc; "s{number}").expect(rt, "memory"));
        if sessions.look(&id, at_second(rt, 1999)).is_some() {
            found = found.saturating_add(1);
        }
    }
    found
}

// How many sessions the logouts end, how many of the first are left, and how many a sweep finds in the end.
fn many_sessions(rt: &impl Abort, alloc: Global) -> String {
    let client_id = ClientId::new(text(rt, alloc, "aaa"));
    let issuer = issuer(rt, alloc);
    let key = CoreJsonWebKey::new_symmetric(Vec::from_slice(alloc, b"bbb").expect(rt, "memory"));
    let alg = CoreJwsSigningAlgorithm::HmacSha256;
    let verifier = LogoutVerifier {
        client_id: &client_id,
        issuer: &issuer,
        key: &key,
        alg: &alg,
    };
    let client = client_of(rt, alloc, "aaa");
    let mut sessions = Sessions::new(alloc, verifier);
    open_all(rt, alloc, &client, &mut sessions);
    let ended = log_out_all(rt, alloc, &mut sessions);
    let left = found_first(rt, alloc, &sessions);
    let swept = sessions.sweep(at_second(rt, 2000));
    drop(sessions);
    drop(client);
    format!(in alloc; "{ended} {left} {swept}").expect(rt, "memory")
}

// Of the thousand logouts 334 name a subject alone, which has two sessions, and 666 one session each.
#[test]
fn a_hundred_thousand_sessions(rt: HostRuntime) {
    assert_eq!(rt; many_sessions(&rt, rt.alloc()).as_str(), "1334 666 98666");
}
