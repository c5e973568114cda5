//! A command-line tool that signs its user in on another device, over the crate `oidc`: what its author writes.
//!
//! The transport and the clock are the tool's own. Here the provider is played by `Recorded`, which answers from a list, and
//! the tool doesn't sleep: it adds what it would wait to the moment, so that the program ends at once and always prints the
//! same.
//!
//! What a provider says is shown without control bytes, since a terminal obeys them, and of addresses those of `https`
//! alone. The address and the code are the provider's, and so is what stands at the address: whoever sends somebody else a
//! code of a device of his own, and has it typed in, is signed in as that person (RFC 8628 section 5.4). So the tool says
//! what the code is for, and to go on only where the user started it.
#![tactic(auto)]

ghost use Rattle.std.specs.Prelude.{◌≡◌, ◌≤◌, ◌↔◌, IfOk, IfSome, IsTrue, codes, is_some};
ghost use Rattle.std.specs.List.{filter};
ghost use Rattle.std.specs.String.{string_bytes};
ghost use Rattle.url.specs.Parts.{serialize};
ghost use Rattle.device_tool.specs.Shown.{is_shown};

mod provider;

use crate::provider::{answers, client, print_requests};
use jiff::Timestamp;
use oidc::core_types::{CoreGenderClaim, CoreJsonWebKey};
use oidc::device::{CoreDeviceClient, DeviceError, DeviceLogin, DeviceSignedIn, DeviceStep};
use oidc::{AllOtherClaims, EndUserVerificationUrl, Recorded, RequestTokenError, SyncHttpClient};
use std::alloc::{AllocError, Global};

type Login<'c> = DeviceLogin<'c, AllOtherClaims, CoreGenderClaim, CoreJsonWebKey>;

type User = DeviceSignedIn<AllOtherClaims, CoreGenderClaim>;

type Step = DeviceStep<AllOtherClaims, CoreGenderClaim>;

// A text of the provider's as it is shown: its visible ASCII characters and its spaces, and no others.
fn shown(alloc: Global, text: &str) -> Result<String, AllocError>
    ensures { IfOk result (λ line. string_bytes line ≡ filter is_shown text.now) }
{
    let mut line = String::new(alloc);
    for byte in text.as_bytes() {
        if matches!(*byte, b' '..=b'~') {
            line.push(char::from(*byte))?;
        }
    }
    Ok(line)
}

// An address as it is shown: none where it isn't `https`.
fn shown_address(alloc: Global, address: &EndUserVerificationUrl) -> anyhow::Result<Option<String>>
    ensures https { let is_https = address.now.url.scheme ≡ codes "https" in
        IfOk result (λ line. IsTrue (is_some line) ↔ is_https) }
    ensures text { IfOk result (λ line.
        IfSome line (λ shown. string_bytes shown ≡ filter is_shown (serialize address.now.url))) }
{
    if address.url().scheme() != "https" {
        return Ok(None);
    }
    Ok(Some(shown(alloc, address.url().as_str())?))
}

// Tells the user where to go, and what to type in. Whether there is a page to go to.
fn invite(rt: &impl Print, alloc: Global, login: &Login<'_>) -> anyhow::Result<bool> {
    let Some(address) = shown_address(alloc, login.verification_uri())? else {
        println!(rt; "not signed in: the provider names no page that is safe to open")?;
        return Ok(false);
    };
    let code = shown(alloc, login.user_code().secret())?;
    println!(rt; "To sign in to this tool, open {address} and type in the code {code}")?;
    println!(rt; "Go on there only if you started this tool yourself.")?;
    Ok(true)
}

// What comes of a step: the login goes on at a later moment, or it is over, with this line for the user.
enum Outcome {
    Later(i64),
    Over(String),
}

// The longest sleep between two steps. `Wait` may lie behind the expiry, and is as long as the provider says: a tool that
// steps again in time learns of the expiry, and a step that comes too early sends nothing.
const LONGEST_SLEEP: u64 = 60;

// How long the tool sleeps where it has to wait for so many seconds.
fn sleep_for(seconds: u128) -> u64
    ensures longest { result ≤ LONGEST_SLEEP }
    ensures no_longer { result ≤ seconds }
    ensures whole { seconds ≤ LONGEST_SLEEP → result ≡ seconds }
{
    seconds.min(LONGEST_SLEEP as u128) as u64
}

fn greeting(alloc: Global, user: &User) -> anyhow::Result<Outcome> {
    let subject = shown(alloc, user.claims().subject().as_str())?;
    Ok(Outcome::Over(format!(in alloc; "{subject} is signed in")?))
}

fn after_step(rt: &impl Print, alloc: Global, now: i64, step: Step) -> anyhow::Result<Outcome> {
    match step {
        DeviceStep::Wait(seconds) => {
            let sleep = sleep_for(seconds);
            println!(rt; "waits {sleep} seconds")?;
            Ok(Outcome::Later(now.saturating_add(sleep as i64)))
        }
        DeviceStep::Pending | DeviceStep::SlowDown => Ok(Outcome::Later(now)),
        DeviceStep::Done(user) => greeting(alloc, &user),
    }
}

fn after_error<E>(alloc: Global, now: i64, error: &DeviceError<E>) -> anyhow::Result<Outcome> {
    let line = match error {
        DeviceError::Token(RequestTokenError::Request(_)) | DeviceError::Memory => {
            return Ok(Outcome::Later(now));
        }
        DeviceError::Expired => "not signed in: the code has expired",
        DeviceError::Token(RequestTokenError::ServerResponse(_)) => {
            "not signed in: the provider refused"
        }
        DeviceError::Token(_) => "not signed in: no tokens came",
        _ => "not signed in: the provider's answer isn't accepted",
    };
    Ok(Outcome::Over(String::from_str(alloc, line)?))
}

// One step, at this moment.
fn step<H: SyncHttpClient<Error: Drop>>(
    rt: &impl Print,
    alloc: Global,
    login: &mut Login<'_>,
    http: &mut H,
    now: i64,
) -> anyhow::Result<Outcome>
    requires { H.ready http.old }
    ensures { H.ready http.new }
{
    let moment = Timestamp::from_second(now)?;
    match login.step(http, moment) {
        Ok(step) => after_step(rt, alloc, now, step),
        Err(error) => after_error(alloc, now, &error),
    }
}

// Steps on until the login is over, a thousand times at most. A tool would sleep where this only counts.
fn wait_for_user<H: SyncHttpClient<Error: Drop>>(
    rt: &impl Print,
    alloc: Global,
    login: &mut Login<'_>,
    http: &mut H,
    start: i64,
) -> anyhow::Result<()>
    requires { H.ready http.old }
{
    let mut now = start;
    for _ in 0..1_000 {
        match step(rt, alloc, login, http, now)? {
            Outcome::Later(moment) => now = moment,
            Outcome::Over(line) => {
                println!(rt; "{line}")?;
                return Ok(());
            }
        }
    }
    println!(rt; "not signed in: it took too long")?;
    Ok(())
}

fn sign_in<H: SyncHttpClient<Error: Drop>>(
    rt: &impl Print,
    alloc: Global,
    client: &CoreDeviceClient,
    http: &mut H,
    start: i64,
) -> anyhow::Result<()>
    requires { H.ready http.old }
{
    let moment = Timestamp::from_second(start)?;
    let Ok(mut login) = DeviceLogin::start(alloc, client, http, moment) else {
        println!(rt; "not signed in: the provider gives no codes")?;
        return Ok(());
    };
    if invite(rt, alloc, &login)? {
        wait_for_user(rt, alloc, &mut login, http, start)?;
    }
    Ok(())
}

fn main(rt: HostRuntime) -> anyhow::Result<()> {
    let alloc = rt.alloc();
    let mut http = Recorded::new(alloc, answers(alloc)?);
    let client = client(alloc)?;
    let signed_in = sign_in(&rt, alloc, &client, &mut http, 1000);
    drop(client);
    signed_in?;
    print_requests(&rt, &http)
}
