//! A site with two providers, of which one hands the other's code on (RFC 9700 section 4.4).

use crate::literals::{Double, OwnClient, OwnLogins};
use crate::tests::parties::{begin, client_of, come_back, grant, provider_at};
use oidc_login::Logins;
use std::alloc::Global;
use std::process::Abort;

// A provider's client with a login that pends, its double, and the query that it granted.
#[derive(Drop)]
struct Granted<'c> {
    logins: OwnLogins<'c>,
    provider: Double,
    query: String,
}

fn begin_and_grant<'c>(
    rt: &impl Abort,
    alloc: Global,
    client: &'c OwnClient,
    provider: Double,
    number: usize,
) -> Granted<'c> {
    let (mut logins, mut provider) = (
        Logins::new(alloc, client).expect(rt, "a token endpoint"),
        provider,
    );
    let url = begin(rt, alloc, client, &mut logins, number);
    let query = grant(rt, alloc, &mut provider, &url, number);
    Granted {
        logins,
        provider,
        query,
    }
}

// Comes back to a store over its own provider.
fn back(rt: &impl Abort, alloc: Global, own: &mut Granted<'_>, query: &str) -> String {
    come_back(rt, alloc, &mut own.provider, &mut own.logins, query)
}

// What a store says of the first provider's code under the second one's state, and of the first one's whole query; and what
// the first one's login then comes to, with what either provider was asked.
fn handed_on(
    rt: &impl Abort,
    alloc: Global,
    first: &mut Granted<'_>,
    second: &mut Granted<'_>,
) -> String {
    let mixed = back(rt, alloc, second, "code=c1&state=s2");
    let whole = back(rt, alloc, second, first.query.as_str());
    let own = String::from_str(alloc, first.query.as_str()).expect(rt, "memory");
    let user = back(rt, alloc, first, own.as_str());
    let (asked, asked_second) = (
        first.provider.requests().len(),
        second.provider.requests().len(),
    );
    format!(in alloc; "{mixed}; {whole}; {user}; {asked} {asked_second}").expect(rt, "memory")
}

fn mixed_up(rt: &impl Abort, alloc: Global) -> String {
    let one = client_of(rt, alloc, "https://one.example", "bbb");
    let other = client_of(rt, alloc, "https://two.example", "ccc");
    let double = provider_at(rt, alloc, "https://one.example", "bbb");
    let mut first = begin_and_grant(rt, alloc, &one, double, 1);
    let double = provider_at(rt, alloc, "https://two.example", "ccc");
    let mut second = begin_and_grant(rt, alloc, &other, double, 2);
    let line = handed_on(rt, alloc, &mut first, &mut second);
    drop(first);
    drop(second);
    drop(one);
    drop(other);
    line
}

// The second provider never granted the first one's code, and the second one's store knows no state of the first one.
#[test]
fn a_code_of_another_provider_signs_nobody_in(rt: HostRuntime) {
    let line = mixed_up(&rt, rt.alloc());
    let expected = "refused by the provider; no such login; u1 u1; 2 1";
    assert_eq!(rt; line.as_str(), expected);
}
