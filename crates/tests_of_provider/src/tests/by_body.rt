//! A login whose client names itself in the body of its token request (RFC 6749 section 2.3.1).

use crate::literals::Double;
use crate::tests::parties::{begin, client_of, come_back, grant, provider_at};
use http_header::AUTHORIZATION;
use oidc_login::Logins;
use oidc_oauth2::AuthType;
use oidc_pairs::only_value;
use std::alloc::Global;
use std::process::Abort;

// By which secret in its body, and whether by a header, the provider was asked first.
fn credentials(rt: &impl Abort, alloc: Global, provider: &Double) -> String {
    let request = provider.requests().first().expect(rt, "a request");
    let body = request.body().as_slice();
    let secret = only_value(alloc, body, "client_secret").expect(rt, "memory");
    let by_header = request.headers().get(AUTHORIZATION).is_some();
    format!(in alloc; "{secret:?} {by_header}").expect(rt, "memory")
}

fn login(rt: &impl Abort, alloc: Global) -> String {
    let client = client_of(rt, alloc, "https://example", "bbb").set_auth_type(
        AuthType::RequestBody,
    );
    let mut logins = Logins::new(alloc, &client).expect(rt, "a token endpoint");
    let mut provider = provider_at(rt, alloc, "https://example", "bbb");
    let url = begin(rt, alloc, &client, &mut logins, 1);
    let query = grant(rt, alloc, &mut provider, &url, 1);
    let user = come_back(rt, alloc, &mut provider, &mut logins, query.as_str());
    let credentials = credentials(rt, alloc, &provider);
    drop(logins);
    drop(client);
    format!(in alloc; "{user} {credentials}").expect(rt, "memory")
}

#[test]
fn a_login_by_request_body_signs_in(rt: HostRuntime) {
    let line = login(&rt, rt.alloc());
    assert_eq!(rt; line.as_str(), "u1 u1 Some(\"bbb\") false");
}
