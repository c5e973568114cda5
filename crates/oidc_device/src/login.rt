//! A device login: its start and its steps.

ghost use Rattle.std.specs.Prelude.{◌≡◌, ◌≤◌, ℕ, ℤ, IfOk, IfErr, true, false};
ghost use Rattle.std.specs.Option.{option_copied};
ghost use Rattle.oidc_oauth2.specs.Replies.{Gives};
ghost use Rattle.oidc_oauth2.specs.Exchanges.{known, IsRequestBlamed};
ghost use Rattle.oidc_device.specs.Types.{device_types};
ghost use Rattle.oidc_device.specs.Token.{IsAcceptedBy, HasOwnHash};
ghost use Rattle.oidc_device.specs.Errors.{start_errors, start_hides_memory, device_errors, hides_memory, seen_reply};
ghost use Rattle.oidc_device.specs.Logins.{Polling, first_login, codes_ask, poll_ask};
ghost use Rattle.oidc_device.specs.DeviceStep.{login_after};
ghost use Rattle.oidc_device.specs.Causes.{HasExpired, Waits, IsDue, HasNoAddress, IfDone};
ghost use Rattle.oidc_device.specs.Runs.{Started, Stepped};
ghost use Rattle.oidc_device.specs.Steps.{codes_or_refusal, polling_of, login_at, login_by, started_by};
ghost use Rattle.oidc_oauth2.specs.declared.token_answers.OtherCause.TheVariants as other;
ghost use Rattle.oidc_oauth2.specs.declared.token_answers.RequestTokenError.TheVariants as token;

use crate::client::DeviceClient;
use crate::clock::{Clock, Turn};
use crate::errors::{DeviceError, StartError};
use crate::step::DeviceStep;
use crate::token::step_of_poll;
use jiff::Timestamp;
use oidc_claims::{AdditionalClaims, GenderClaim};
use oidc_keys::JsonWebKey;
use oidc_oauth2::{CoreDeviceAuthorizationResponse, CoreRequestTokenError, SyncHttpClient};
use oidc_types::{
    CoreJwsSigningAlgorithm, EndUserVerificationUrl, UserCode, VerificationUriComplete,
};
use std::alloc::Global;
use std::marker::Model;

// The codes, by what came of the request.
fn codes_of<E>(
    asked: Result<CoreDeviceAuthorizationResponse, CoreRequestTokenError<E>>,
) -> Result<CoreDeviceAuthorizationResponse, StartError<E>>
    ensures { result ≡ codes_or_refusal asked }
{
    match asked {
        Ok(codes) => Ok(codes),
        Err(error) => Err(StartError::of_request(error)),
    }
}

// The codes of a device.
fn codes_for<
    AC: AdditionalClaims,
    GC: GenderClaim,
    K: JsonWebKey<SigningAlgorithm = CoreJwsSigningAlgorithm>,
    C: SyncHttpClient,
>(
    alloc: Global,
    client: &DeviceClient<AC, GC, K>,
    http: &mut C,
) -> Result<CoreDeviceAuthorizationResponse, StartError<C::Error>>
    requires { C.ready http.old }
    ensures again { C.ready http.new }
    ensures ran { let before = known (C.log http.old) (C.script http.old) in
        let after = known (C.log http.new) (C.script http.new) in
        (start : ℤ) → Started client.now start before after (started_by client.now start result) }
    ensures never_falls { C.faults http.old ≤ C.faults http.new }
    ensures blamed { IsRequestBlamed start_errors (C.faults http.old) (C.faults http.new) result }
    ensures no_inner_memory { IfErr result (λ e. start_hides_memory e ≡ false) }
{
    match client.exchange_device_code(alloc) {
        Ok(request) => {
            let asked = request.request(alloc, http);
            codes_of(asked)
        }
        Err(_) => Err(StartError::Memory),
    }
}

// A poll now.
fn polled<
    AC: AdditionalClaims,
    GC: GenderClaim,
    K: JsonWebKey<SigningAlgorithm = CoreJwsSigningAlgorithm>,
    C: SyncHttpClient,
>(
    alloc: Global,
    client: &DeviceClient<AC, GC, K>,
    codes: &CoreDeviceAuthorizationResponse,
    http: &mut C,
    now: Timestamp,
) -> Result<DeviceStep<AC, GC>, DeviceError<C::Error>>
    requires { C.ready http.old }
    ensures again { C.ready http.new }
    ensures ran { let types = device_types AC.read_of GC.read_of
        K.JsonWebKey K.KeyUse.JsonWebKeyUse in
        let before = known (C.log http.old) (C.script http.old) in
        let after = known (C.log http.new) (C.script http.new) in
        (p : Polling) → IsDue p now.nanosecond
        → Stepped types (login_at client.now codes.now p) now.nanosecond before after result }
    ensures never_falls { C.faults http.old ≤ C.faults http.new }
    ensures blamed { IsRequestBlamed device_errors (C.faults http.old) (C.faults http.new) result }
{
    let request = client.exchange_device_access_token(alloc, codes);
    let polled = request.poll_once(alloc, http);
    step_of_poll(alloc, client, now, polled)
}

// A step now, on the parts of a login.
fn stepped<
    AC: AdditionalClaims,
    GC: GenderClaim,
    K: JsonWebKey<SigningAlgorithm = CoreJwsSigningAlgorithm>,
    C: SyncHttpClient,
>(
    alloc: Global,
    client: &DeviceClient<AC, GC, K>,
    codes: &CoreDeviceAuthorizationResponse,
    clock: Clock,
    http: &mut C,
    now: Timestamp,
) -> Result<DeviceStep<AC, GC>, DeviceError<C::Error>>
    requires { C.ready http.old }
    ensures again { C.ready http.new }
    ensures ran { let types = device_types AC.read_of GC.read_of
        K.JsonWebKey K.KeyUse.JsonWebKeyUse in
        let before = known (C.log http.old) (C.script http.old) in
        let after = known (C.log http.new) (C.script http.new) in
        let login = login_by client.now codes.now clock in
        Stepped types login now.nanosecond before after result }
    ensures idle { (IsDue (polling_of clock) now.nanosecond → ⊥) → http.new ≡ http.old }
    ensures memory { result ≡ Err DeviceError.Memory → IsDue (polling_of clock) now.nanosecond }
    ensures never_falls { C.faults http.old ≤ C.faults http.new }
    ensures blamed { IsRequestBlamed device_errors (C.faults http.old) (C.faults http.new) result }
{
    match clock.turn(now) {
        Turn::Over => Err(DeviceError::Over),
        Turn::Expired => Err(DeviceError::Expired),
        Turn::Wait(seconds) => Ok(DeviceStep::Wait(seconds)),
        Turn::Poll => polled(alloc, client, codes, http, now),
    }
}

/// A login of a device: a command-line tool, a television. Its user types a short code elsewhere, at
/// [`DeviceLogin::verification_uri`], and the device asks from time to time whether the user has agreed (RFC 8628).
///
/// It never sleeps: the program calls [`DeviceLogin::step`] whenever it likes, with the moment, and a step before a poll is
/// due sends nothing. Contracts see the client, the codes, and when the device may poll. It has no `Debug`, since it holds
/// codes.
#[derive(Drop)]
pub struct DeviceLogin<
    'c,
    AC: AdditionalClaims,
    GC: GenderClaim,
    K: JsonWebKey<SigningAlgorithm = CoreJwsSigningAlgorithm>,
> {
    alloc: Global,
    client: &'c DeviceClient<AC, GC, K>,
    device: CoreDeviceAuthorizationResponse,
    clock: Clock,
}

impl<
    'c,
    AC: AdditionalClaims,
    GC: GenderClaim,
    K: JsonWebKey<SigningAlgorithm = CoreJwsSigningAlgorithm>,
> Model for DeviceLogin<'c, AC, GC, K> {
    ghost use Rattle.std.specs.Coded.{codes};
    ghost use Rattle.oidc_device.specs.Logins.{SeenDeviceLogin, polling_code};
    ghost use Rattle.oidc_device.specs.Steps.{polling_of};

    ghost Value = { SeenDeviceLogin K };

    ghost coded = { Prim.hlevel (codes, polling_code) };

    ghost view = { λ l. record { client = l.client.now; codes = l.device; polling = polling_of l.clock } };
}

impl<
    'c,
    AC: AdditionalClaims,
    GC: GenderClaim,
    K: JsonWebKey<SigningAlgorithm = CoreJwsSigningAlgorithm>,
> DeviceLogin<'c, AC, GC, K> {
    /// Starts a login now: sends the client's request for the codes of a device, and keeps what came. `Device` says why
    /// there are no codes; it holds what the request answered. `Memory` may come at any point.
    pub fn start<C: SyncHttpClient>(
        alloc: Global,
        client: &'c DeviceClient<AC, GC, K>,
        http: &mut C,
        now: Timestamp,
    ) -> Result<Self, StartError<C::Error>>
        requires { C.ready http.old }
        ensures again { C.ready http.new }

        // For some answers, which are those that came where the transport keeps a log: the one request was sent, or
        // nothing; an Ok is the first state by the codes that came, each refusal has its cause, and each cause its
        // refusal.
        ensures ran { let before = known (C.log http.old) (C.script http.old) in
            let after = known (C.log http.new) (C.script http.new) in
            Started client.now now.nanosecond before after result }

        // An Ok, whatever the transport.
        ensures first { IfOk result (λ login. login ≡ first_login client.now now.nanosecond login.codes) }

        // Where the address isn't one that is sent to, whatever the transport.
        ensures uri { result ≡ Err (StartError.Device (token.Other other.Uri))
            → HasNoAddress (codes_ask client.now) }
        ensures no_address { HasNoAddress (codes_ask client.now)
            → Gives start_errors result (Err (StartError.Device (token.Other other.Uri))) }

        // A fault of the transport comes only where its count has risen, or stands at its last value.
        ensures blamed { IsRequestBlamed start_errors (C.faults http.old) (C.faults http.new) result }
        ensures never_falls { C.faults http.old ≤ C.faults http.new }

        // Want of memory is `Memory`, and never stands inside another refusal.
        ensures no_inner_memory { IfErr result (λ e. start_hides_memory e ≡ false) }
    {
        let codes = codes_for(alloc, client, http);
        DeviceLogin::of_codes(alloc, client, codes, now)
    }

    // The login that starts now, by its codes.
    fn of_codes<E>(
        alloc: Global,
        client: &'c DeviceClient<AC, GC, K>,
        codes: Result<CoreDeviceAuthorizationResponse, StartError<E>>,
        now: Timestamp,
    ) -> Result<Self, StartError<E>>
        ensures { result ≡ started_by client.now now.nanosecond codes }
    {
        match codes {
            Ok(codes) => {
                let clock = Clock::new(now, codes.expires_in(), codes.interval());
                Ok(DeviceLogin {
                    alloc,
                    client,
                    device: codes,
                    clock,
                })
            }
            Err(error) => Err(error),
        }
    }

    /// The code that the user types in.
    pub fn user_code(&self) -> &UserCode
        ensures code { result.now ≡ self.now.codes.user_code }
    {
        self.device.user_code()
    }

    /// The page at which the user types it in. It is the provider's text: a program that prints it shows no control bytes of
    /// it, and only an `https` address.
    pub fn verification_uri(&self) -> &EndUserVerificationUrl
        ensures url { result.now ≡ self.now.codes.verification_uri }
    {
        self.device.verification_uri()
    }

    /// The page with the code in its address, where there is one: a plain text, neither parsed nor checked. Show it only
    /// where it starts with `https://`, without control bytes, and beside the code (RFC 8628 sections 3.3.1 and 5.4).
    pub fn verification_uri_complete(&self) -> Option<&VerificationUriComplete>
        ensures text { option_copied result ≡ self.now.codes.verification_uri_complete }
    {
        self.device.verification_uri_complete()
    }

    /// Steps on now: polls where a poll is due, and says what came of it. `Wait` says in how many whole seconds the next one
    /// is due, rounded up, and sends nothing.
    ///
    /// The errors are, in this order: `Over`, where an earlier step has ended the login; `Expired`, where the moment isn't
    /// before the start plus the span for which the codes are good; nothing is sent for these. At a poll: `Token(Other(Uri))`,
    /// where the token endpoint's address isn't one that is sent to; `Token(Request)`, where the transport fails; the other
    /// `Token`, where the answer holds no tokens, in the order of `DeviceAccessTokenRequest::poll_once`; `NoIdToken`, where
    /// these have no ID token among them; `Claims`, where a check of it fails; `Signing`, where it has an `at_hash` and no
    /// hash goes with its algorithm; `TokenHash`, where the `at_hash` isn't the hash of the access token. `Memory` may come
    /// at any poll, and only there.
    ///
    /// The login goes on after `Wait`, `Pending`, `SlowDown`, `Token(Request)` and `Memory`. `SlowDown` raises the interval
    /// by five seconds, and `Token(Request)` doubles it, to five seconds at least.
    pub fn step<C: SyncHttpClient>(
        &mut self,
        http: &mut C,
        now: Timestamp,
    ) -> Result<DeviceStep<AC, GC>, DeviceError<C::Error>>
        requires { C.ready http.old }
        ensures again { C.ready http.new }

        // For some answers, which are those that came where the transport keeps a log: answer and requests are those of
        // the table, or there was no memory. Each refusal has its cause, and each cause its refusal, and so has each Ok.
        ensures ran { let types = device_types AC.read_of GC.read_of
            K.JsonWebKey K.KeyUse.JsonWebKeyUse in
            let before = known (C.log http.old) (C.script http.old) in
            let after = known (C.log http.new) (C.script http.new) in
            Stepped types self.old now.nanosecond before after result }

        // The state after it, by what was answered, want of memory included.
        ensures state { self.new ≡ login_after now.nanosecond self.old (seen_reply result) }

        // These rest on the state and the moment alone. Where no poll is due the transport is as it was.
        ensures over { result ≡ Err DeviceError.Over → self.old.polling.is_over ≡ true }
        ensures is_over { self.old.polling.is_over ≡ true → result ≡ Err DeviceError.Over }
        ensures expired { result ≡ Err DeviceError.Expired → HasExpired self.old.polling now.nanosecond }
        ensures has_expired { HasExpired self.old.polling now.nanosecond → result ≡ Err DeviceError.Expired }
        ensures wait { (seconds : ℕ) → result ≡ Ok (DeviceStep.Wait seconds)
            → Waits self.old.polling now.nanosecond seconds }
        ensures waits { (seconds : ℕ) → Waits self.old.polling now.nanosecond seconds
            → result ≡ Ok (DeviceStep.Wait seconds) }
        ensures memory { result ≡ Err DeviceError.Memory → IsDue self.old.polling now.nanosecond }
        ensures idle { (IsDue self.old.polling now.nanosecond → ⊥) → http.new ≡ http.old }

        // So does this, with the client.
        ensures uri { result ≡ Err (DeviceError.Token (token.Other other.Uri))
            → IsDue self.old.polling now.nanosecond × HasNoAddress (poll_ask self.old) }
        ensures no_address { IsDue self.old.polling now.nanosecond → HasNoAddress (poll_ask self.old)
            → Gives device_errors result (Err (DeviceError.Token (token.Other other.Uri))) }

        // A user who is signed in, whatever the transport: the ID token is accepted at this moment, and any `at_hash` in it
        // is the hash of the access token.
        ensures accepted { let types = device_types AC.read_of GC.read_of
            K.JsonWebKey K.KeyUse.JsonWebKeyUse in
            IfDone result (λ user.
            IsAcceptedBy types self.old.client now.nanosecond user.id_token) }
        ensures hash { let types = device_types AC.read_of GC.read_of
            K.JsonWebKey K.KeyUse.JsonWebKeyUse in
            IfDone result (λ user.
            HasOwnHash types self.old.client user.id_token user.access_token) }

        // A fault of the transport comes only where its count has risen, or stands at its last value.
        ensures blamed { IsRequestBlamed device_errors (C.faults http.old) (C.faults http.new) result }
        ensures never_falls { C.faults http.old ≤ C.faults http.new }

        // Want of memory is `Memory`, and never stands inside another refusal.
        ensures no_inner_memory { IfErr result (λ e. hides_memory e ≡ false) }
    {
        let reply = stepped(self.alloc, self.client, &self.device, self.clock, http, now);
        self.clock = self.clock.after(now, &reply);
        reply
    }
}
