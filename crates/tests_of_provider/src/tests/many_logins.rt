//! Very many logins over one provider.

use crate::literals::{Double, OwnClient, OwnLogins};
use crate::tests::parties::{begin, client_of, come_back, grant, provider_at};
use oidc_login::Logins;
use std::alloc::Global;
use std::process::Abort;

// Begins these logins, and has them granted: their queries.
fn granted<'c>(
    rt: &impl Abort,
    alloc: Global,
    client: &'c OwnClient,
    logins: &mut OwnLogins<'c>,
    provider: &mut Double,
) -> Vec<String> {
    let mut queries = Vec::new(alloc);
    for number in 0..10_000usize {
        let url = begin(rt, alloc, client, logins, number);
        let query = grant(rt, alloc, provider, &url, number);
        queries.push(query).expect(rt, "memory");
    }
    queries
}

// How many sign in, each as its own user.
fn signed_in(
    rt: &impl Abort,
    alloc: Global,
    logins: &mut OwnLogins<'_>,
    provider: &mut Double,
    queries: &[String],
) -> usize {
    let mut count: usize = 0;
    for (number, query) in queries.iter().enumerate() {
        let own = format!(in alloc; "u{number} u{number}").expect(rt, "memory");
        if come_back(rt, alloc, provider, logins, query.as_str()) == own {
            count = count.saturating_add(1);
        }
    }
    count
}

// Who of ten thousand signs in, what pends then, and what the provider was asked.
fn many(rt: &impl Abort, alloc: Global) -> String {
    let client = client_of(rt, alloc, "https://example", "bbb");
    let mut logins = Logins::new(alloc, &client).expect(rt, "a token endpoint");
    let mut provider = provider_at(rt, alloc, "https://example", "bbb");
    let queries = granted(rt, alloc, &client, &mut logins, &mut provider);
    let before = logins.pending();
    let count = signed_in(rt, alloc, &mut logins, &mut provider, queries.as_slice());
    let (left, requests) = (logins.pending(), provider.requests().len());
    drop(logins);
    drop(client);
    format!(in alloc; "{before} {count} {left} {requests}").expect(rt, "memory")
}

// All are granted before the first comes back, so that each callback finds its own among all.
#[test]
fn ten_thousand_logins_sign_in(rt: HostRuntime) {
    let line = many(&rt, rt.alloc());
    assert_eq!(rt; line.as_str(), "10000 10000 0 20000");
}
