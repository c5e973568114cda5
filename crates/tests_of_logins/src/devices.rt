//! A device login over a transport of the test's own, which keeps no log, has no memory at the first poll, and is down at
//! the second.

use crate::login::{client_of, url};
use crate::transports::{Down, Faltering};
use jiff::Timestamp;
use oidc_claims::AllOtherClaims;
use oidc_device::{CoreDeviceClient, DeviceError, DeviceLogin, DeviceStep};
use oidc_oauth2::RequestTokenError;
use oidc_types::CoreGenderClaim;
use std::alloc::Global;
use std::process::Abort;

type Reply = Result<DeviceStep<AllOtherClaims, CoreGenderClaim>, DeviceError<Down>>;

// The client `aaa` with both endpoints of a device login.
fn device_client(rt: &impl Abort, alloc: Global) -> CoreDeviceClient {
    client_of(rt, alloc, "aaa")
        .set_device_authorization_url(url(rt, alloc, "https://example/device"))
        .set_token_uri(url(rt, alloc, "https://example/token"))
}

// What a step answers, in words: of a fault what the transport itself says.
fn words(rt: &impl Abort, alloc: Global, reply: &Reply) -> String {
    let line = match reply {
        Ok(DeviceStep::Wait(seconds)) => format!(in alloc; "wait {seconds}"),
        Ok(DeviceStep::Pending) => format!(in alloc; "pending"),
        Ok(DeviceStep::SlowDown) => format!(in alloc; "slow down"),
        Ok(DeviceStep::Done(user)) => {
            let subject = user.claims().subject().as_str();
            format!(in alloc; "{subject} {}", user.access_token().secret())
        }
        Err(DeviceError::Token(RequestTokenError::Request(own))) => format!(in alloc; "{own}"),
        Err(error) => format!(in alloc; "{error}"),
    };
    line.expect(rt, "memory")
}

static MOMENTS: [i64; 6] = [1005, 1009, 1010, 1019, 1020, 1021];

// A login that starts at 1000: each step after its moment, and the counts of the transport.
fn login_in_words(rt: &impl Abort, alloc: Global, client: &CoreDeviceClient) -> String {
    let mut http = Faltering::new();
    let start = Timestamp::from_second(1000).expect(rt, "a moment");
    let mut login = DeviceLogin::start(alloc, client, &mut http, start).expect(rt, "codes");
    let mut line = String::new(alloc);
    for seconds in &MOMENTS {
        let now = Timestamp::from_second(*seconds).expect(rt, "a moment");
        let reply = login.step(&mut http, now);
        let said = words(rt, alloc, &reply);
        drop(reply);
        let said = format!(in alloc; "{seconds} {said}, ").expect(rt, "memory");
        line.push_str(said.as_str()).expect(rt, "memory");
    }
    drop(login);
    format!(in alloc; "{line}{:?}", http.counts()).expect(rt, "memory")
}

// Want of memory leaves the interval at five seconds, a fault makes it ten, and each waits from that poll on. Of the four
// requests the start sent one; the steps that wait, and the one after the end, sent none.
const STEPS: &str =
    "1005 out of memory, 1009 wait 1, 1010 down since 2, 1019 wait 1, 1020 u1 POST https://example/token, 1021 the device login is over, (4, 1)";

#[test]
fn a_poll_without_memory_and_one_that_fails(rt: HostRuntime) {
    let client = device_client(&rt, rt.alloc());
    let line = login_in_words(&rt, rt.alloc(), &client);
    drop(client);
    assert_eq!(rt; line.as_str(), STEPS);
}
