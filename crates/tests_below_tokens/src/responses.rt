//! Responses with extra fields and a type of tokens of the test's own, and tokens that can be revoked.

use crate::few::Few;
use crate::scheme::Scheme;
use oidc_members::{Members, ParseError};
use oidc_oauth2::{
    CoreRevocableToken, DeviceAuthorizationResponse, OAuth2TokenResponse, RevocableToken,
    StandardTokenResponse,
};
use oidc_types::{AccessToken, RefreshToken};
use std::alloc::Global;
use std::process::Abort;

fn members_in(rt: &impl Abort, alloc: Global, text: &str) -> Members {
    Members::split(alloc, text.as_bytes()).expect(rt, "an object")
}

// The kind and the field of a refusal.
fn refusal_line(rt: &impl Abort, alloc: Global, error: &ParseError) -> String {
    match error {
        ParseError::Refused(refusal) => {
            let (kind, field) = (refusal.kind, &refusal.field);
            format!(in alloc; "{kind:?} {field}").expect(rt, "memory")
        }
        ParseError::Memory => panic!(rt; "memory"),
    }
}

// ---- token responses

type Tokens = StandardTokenResponse<Few, Scheme>;

// How many members were read, and the response, written.
fn written(rt: &impl Abort, alloc: Global, tokens: &Tokens) -> String {
    let text = tokens.write(alloc).expect(rt, "memory");
    let text = String::from_utf8(text).expect(rt, "a text");
    format!(in alloc; "{} {text}", tokens.extra_fields().members).expect(rt, "memory")
}

fn tokens_line(rt: &impl Abort, alloc: Global, members: &Members) -> String {
    match Tokens::read(alloc, members) {
        Ok(tokens) => written(rt, alloc, &tokens),
        Err(error) => refusal_line(rt, alloc, &error),
    }
}

// The extra fields see every member, and refuse behind the fields of the standard.
static TOKEN_LINES: [(&str, &str); 5] = [
    (
        r#"{"x":1,"access_token":"a","token_type":"Bearer"}"#,
        r#"3 {"access_token":"a","token_type":"Bearer","few":true}"#,
    ),
    (
        r#"{"access_token":"a","token_type":"bearer"}"#,
        r#"2 {"access_token":"a","token_type":"other","few":true}"#,
    ),
    (
        r#"{"access_token":"a","token_type":"Bearer","b":1,"c":1,"d":1,"e":1}"#,
        "Additional members",
    ),
    (
        r#"{"access_token":"a","a":1,"b":1,"c":1,"d":1,"e":1}"#,
        "Missing token_type",
    ),
    (
        r#"{"expires_in":"1","a":1,"b":1,"c":1,"d":1,"e":1}"#,
        "WrongType expires_in",
    ),
];

#[test]
fn a_caller_may_bring_token_fields_of_its_own(rt: HostRuntime) {
    for (text, want) in &TOKEN_LINES {
        let members = members_in(&rt, rt.alloc(), text);
        assert_eq!(rt;
            tokens_line(&rt, rt.alloc(), &members).as_str(),
            *want,
            "{text}"
        );
    }
}

// ---- device authorization responses

type Device = DeviceAuthorizationResponse<Few>;

// How many members were read, the page and the interval.
fn device_line(rt: &impl Abort, alloc: Global, members: &Members) -> String {
    match Device::read(alloc, members) {
        Ok(device) => {
            let page = device.verification_uri().as_str();
            let interval = device.interval().as_secs();
            let count = device.extra_fields().members;
            format!(in alloc; "{count} {page} {interval}").expect(rt, "memory")
        }
        Err(error) => refusal_line(rt, alloc, &error),
    }
}

// The texts are those of RFC 8628 section 3.2, and variations of it.
static DEVICE_LINES: [(&str, &str); 4] = [
    (
        r#"{"device_code":"G","user_code":"W","verification_uri":"https://example.com/device","expires_in":1800}"#,
        "4 https://example.com/device 5",
    ),
    (
        r#"{"device_code":"G","user_code":"W","verification_url":"https://example.com/device","expires_in":1800,"interval":7}"#,
        "5 https://example.com/device 7",
    ),
    (
        r#"{"device_code":"G","user_code":"W","verification_uri":"https://example.com/device","expires_in":1800,"a":1,"b":1}"#,
        "Additional members",
    ),
    (
        r#"{"device_code":"G","user_code":"W","expires_in":1800,"a":1,"b":1,"c":1}"#,
        "Missing verification_uri",
    ),
];

#[test]
fn a_caller_may_bring_device_fields_of_its_own(rt: HostRuntime) {
    for (text, want) in &DEVICE_LINES {
        let members = members_in(&rt, rt.alloc(), text);
        assert_eq!(rt;
            device_line(&rt, rt.alloc(), &members).as_str(),
            *want,
            "{text}"
        );
    }
}

// ---- tokens that can be revoked

// A token's hint and text.
fn revocable_line(rt: &impl Abort, alloc: Global, token: &CoreRevocableToken) -> String {
    let hint = token.type_hint().unwrap_or("none");
    format!(in alloc; "{hint} {}", token.secret()).expect(rt, "memory")
}

// RFC 7009 section 2.1
#[test]
fn revocable_tokens_have_their_hints(rt: HostRuntime) {
    let text = String::from_str(rt.alloc(), "a").expect(&rt, "memory");
    let access = CoreRevocableToken::AccessToken(AccessToken::new(text));
    let text = String::from_str(rt.alloc(), "r").expect(&rt, "memory");
    let refresh = CoreRevocableToken::RefreshToken(RefreshToken::new(text));
    let access = revocable_line(&rt, rt.alloc(), &access);
    let refresh = revocable_line(&rt, rt.alloc(), &refresh);
    assert_eq!(rt;
        (access.as_str(), refresh.as_str()),
        ("access_token a", "refresh_token r")
    );
}
