//! Very many logins that pend at once.

use crate::login::{CoreLogins, client_of, request_of, verifier};
use oidc_client::AuthenticationFlow;
use oidc_login::{BeginError, LoginClient, Logins};
use std::alloc::Global;
use std::process::Abort;

// Begins the login with this number: none, or the refusal.
fn begin_numbered<'c>(
    rt: &impl Abort,
    alloc: Global,
    client: &'c LoginClient,
    logins: &mut CoreLogins<'c>,
    number: usize,
) -> Option<BeginError> {
    let state = format!(in alloc; "s{number}").expect(rt, "memory");
    let flow = AuthenticationFlow::AuthorizationCode;
    let request = request_of(rt, alloc, client, flow, state);
    match logins.begin(request, verifier(rt, alloc, 43), None) {
        Ok(_) => None,
        Err(refusal) => Some(refusal),
    }
}

fn begin_many<'c>(
    rt: &impl Abort,
    alloc: Global,
    client: &'c LoginClient,
    logins: &mut CoreLogins<'c>,
) {
    for number in 1..300_001usize {
        let refusal = begin_numbered(rt, alloc, client, logins, number);
        assert!(rt; refusal.is_none());
    }
}

// How many logins pend after three hundred thousand begins, what of some of them is pending, and what the first of
// them gets once more.
fn many_pending(rt: &impl Abort, alloc: Global) -> String {
    let client = client_of(rt, alloc, "aaa");
    let mut logins = Logins::new(alloc, &client).expect(rt, "a token endpoint");
    begin_many(rt, alloc, &client, &mut logins);
    let again = begin_numbered(rt, alloc, &client, &mut logins, 1);
    let count = logins.pending();
    let (last, none) = (logins.is_pending("s300000"), logins.is_pending("s0"));
    drop(logins);
    drop(client);
    format!(in alloc; "{count} {last} {none} {again:?}").expect(rt, "memory")
}

#[test]
fn three_hundred_thousand_logins_pend(rt: HostRuntime) {
    let line = many_pending(&rt, rt.alloc());
    assert_eq!(rt; line.as_str(), "300000 true false Some(Pending)");
}
