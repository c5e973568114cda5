//! The turns of a drill: each login begun, called back, and called back once more; and what they count.
ghost use Rattle.std.specs.Prelude.{◌≡◌, ◌+◌, ◌*◌, ◌≤◌, ◌<◌, ◌^◌, length, IfOk, OnOk};
ghost use Rattle.oidc_login.specs.Events.{step};
ghost use Rattle.oidc_cli.specs.Types.{types};
ghost use Rattle.oidc_cli.specs.Drill as spec;
ghost use Rattle.oidc_cli.specs.Drill.{drill_client, issuer as drill_issuer, event_of_turn, added_by, plus, tally_of, numbers, begin_turns, callback_turns, no_counts};
ghost use Rattle.oidc_cli.specs.Steps as steps;
ghost use Rattle.oidc_cli.specs.Steps.{steps_of_turns, store_after_turns, IsWithin};

use crate::drill::provider::{again_line, drill_begin, first_line};
use crate::logins::{Replied, begin, call_back};
use crate::user::PendingLogins;
use oidc_login::{LoginClient, LoginError};
use oidc_types::IssuerUrl;
use std::alloc::{AllocError, Global};

/// One turn of a drill, of the login with this number.
#[derive(Clone, Copy, Debug, PartialEq, Eq)]
pub enum Turn {
    /// It is begun.
    Begin(u16),
    /// It is called back.
    First(u16),
    /// It is called back once more.
    Again(u16),
}

/// What a drill counts.
#[derive(Clone, Copy, Debug, PartialEq, Eq)]
pub struct Tally {
    /// The begins that were Ok.
    pub begun: u64,
    /// The first callbacks that signed in.
    pub signed: u64,
    /// The second callbacks that were refused as `State`.
    pub repeated: u64,
    /// The requests that were sent.
    pub sent: u64,
}

fn one_if(holds: bool) -> u64
    ensures { result ≡ spec.one_if holds }
{
    if holds { 1 } else { 0 }
}

// The sum of two tallies.
pub(crate) fn added(tally: Tally, more: Tally) -> Tally
    requires counted { IsWithin 1_000_000 tally }
    requires more { IsWithin 1_000_000 more }
    ensures { result ≡ plus tally more }
{
    Tally {
        begun: tally.begun + more.begun,
        signed: tally.signed + more.signed,
        repeated: tally.repeated + more.repeated,
        sent: tally.sent + more.sent,
    }
}

// ---- turns

// A login is begun.
fn take_begin<'c>(
    alloc: Global,
    client: &'c LoginClient,
    logins: &mut PendingLogins<'c>,
    i: u16,
) -> Result<Tally, AllocError>
    requires same { logins.old.client ≡ client.now }
    requires own { client.now ≡ drill_client }
    ensures counts { let event = event_of_turn (Turn.Begin i) in
        let taken = step types drill_client logins.old.pending event in
        IfOk result (λ more. more ≡ added_by (Turn.Begin i) taken) }
    ensures client { logins.new.client ≡ logins.old.client }
    ensures store { let event = event_of_turn (Turn.Begin i) in
        let taken = step types drill_client logins.old.pending event in
        OnOk result (logins.new.pending ≡ taken.pending) }
{
    let line = drill_begin(alloc, i)?;
    let reply = begin(alloc, client, logins, line)?;
    Ok(Tally {
        begun: one_if(reply.is_ok()),
        signed: 0,
        repeated: 0,
        sent: 0,
    })
}

// It is called back.
fn take_first(
    alloc: Global,
    issuer: &IssuerUrl,
    logins: &mut PendingLogins<'_>,
    i: u16,
) -> Result<Tally, AllocError>
    requires own { logins.old.client ≡ drill_client }
    requires issuer { issuer.now ≡ drill_issuer }
    ensures counts { let event = event_of_turn (Turn.First i) in
        let taken = step types drill_client logins.old.pending event in
        IfOk result (λ more. more ≡ added_by (Turn.First i) taken) }
    ensures client { logins.new.client ≡ logins.old.client }
    ensures store { let event = event_of_turn (Turn.First i) in
        let taken = step types drill_client logins.old.pending event in
        OnOk result (logins.new.pending ≡ taken.pending) }
{
    let line = first_line(alloc, issuer, i)?;
    let replied = call_back(alloc, logins, line)?;
    let signed = one_if(replied.reply.is_ok());
    let sent = replied.http.requests().len() as u64;
    drop(replied);
    Ok(Tally {
        begun: 0,
        signed,
        repeated: 0,
        sent,
    })
}

// It is called back once more.
fn take_again(alloc: Global, logins: &mut PendingLogins<'_>, i: u16) -> Result<Tally, AllocError>
    requires own { logins.old.client ≡ drill_client }
    ensures counts { let event = event_of_turn (Turn.Again i) in
        let taken = step types drill_client logins.old.pending event in
        IfOk result (λ more. more ≡ added_by (Turn.Again i) taken) }
    ensures client { logins.new.client ≡ logins.old.client }
    ensures store { let event = event_of_turn (Turn.Again i) in
        let taken = step types drill_client logins.old.pending event in
        OnOk result (logins.new.pending ≡ taken.pending) }
{
    let line = again_line(alloc, i)?;
    let replied = call_back(alloc, logins, line)?;
    let repeated = one_if(is_state(&replied));
    let sent = replied.http.requests().len() as u64;
    drop(replied);
    Ok(Tally {
        begun: 0,
        signed: 0,
        repeated,
        sent,
    })
}

// Whether a callback was refused as `State`.
fn is_state(replied: &Replied) -> bool
    ensures { result ≡ steps.is_state replied.now.reply }
{
    match &replied.reply {
        Err(LoginError::State) => true,
        _ => false,
    }
}

// Takes a turn: what it adds to the counts.
fn take_turn<'c>(
    alloc: Global,
    client: &'c LoginClient,
    issuer: &IssuerUrl,
    logins: &mut PendingLogins<'c>,
    turn: Turn,
) -> Result<Tally, AllocError>
    requires same { logins.old.client ≡ client.now }
    requires own { client.now ≡ drill_client }
    requires issuer { issuer.now ≡ drill_issuer }
    ensures counts { let taken = step types drill_client logins.old.pending (event_of_turn turn) in
        IfOk result (λ more. more ≡ added_by turn taken) }
    ensures few { IfOk result (IsWithin 2) }
    ensures client { logins.new.client ≡ logins.old.client }
    ensures store { let taken = step types drill_client logins.old.pending (event_of_turn turn) in
        OnOk result (logins.new.pending ≡ taken.pending) }
{
    match turn {
        Turn::Begin(i) => take_begin(alloc, client, logins, i),
        Turn::First(i) => take_first(alloc, issuer, logins, i),
        Turn::Again(i) => take_again(alloc, logins, i),
    }
}

// ---- all turns

// All logins are begun, in order.
pub(crate) fn begin_all<'c>(
    alloc: Global,
    client: &'c LoginClient,
    issuer: &IssuerUrl,
    logins: &mut PendingLogins<'c>,
    count: u16,
) -> Result<Tally, AllocError>
    requires same { logins.old.client ≡ client.now }
    requires own { client.now ≡ drill_client }
    requires issuer { issuer.now ≡ drill_issuer }
    ensures counts { let taken = begin_turns (numbers 1 count) in
        IfOk result (λ tally.
        tally ≡ tally_of (steps_of_turns drill_client logins.old.pending taken)) }
    ensures few { IfOk result (IsWithin (2 * count)) }
    ensures client { logins.new.client ≡ logins.old.client }
    ensures store { let taken = begin_turns (numbers 1 count) in
        OnOk result
        (logins.new.pending ≡ store_after_turns drill_client logins.old.pending taken) }
{
    let mut tally = nothing();
    for place in 0..count {
        let more = take_turn(alloc, client, issuer, logins, Turn::Begin(place + 1))?;
        tally = added(tally, more);
    }
    Ok(tally)
}

// Each is called back twice, in order.
pub(crate) fn call_all<'c>(
    alloc: Global,
    client: &'c LoginClient,
    issuer: &IssuerUrl,
    logins: &mut PendingLogins<'c>,
    count: u16,
) -> Result<Tally, AllocError>
    requires same { logins.old.client ≡ client.now }
    requires own { client.now ≡ drill_client }
    requires issuer { issuer.now ≡ drill_issuer }
    ensures counts { let taken = callback_turns (numbers 1 count) in
        IfOk result (λ tally.
        tally ≡ tally_of (steps_of_turns drill_client logins.old.pending taken)) }
    ensures few { IfOk result (IsWithin (4 * count)) }
    ensures client { logins.new.client ≡ logins.old.client }
    ensures store { let taken = callback_turns (numbers 1 count) in
        OnOk result
        (logins.new.pending ≡ store_after_turns drill_client logins.old.pending taken) }
{
    let mut tally = nothing();
    for place in 0..count {
        let more = take_turn(alloc, client, issuer, logins, Turn::First(place + 1))?;
        let once = added(tally, more);
        let more = take_turn(alloc, client, issuer, logins, Turn::Again(place + 1))?;
        tally = added(once, more);
    }
    Ok(tally)
}

// No counts yet.
fn nothing() -> Tally
    ensures { result ≡ no_counts }
{
    Tally {
        begun: 0,
        signed: 0,
        repeated: 0,
        sent: 0,
    }
}
