//! The drill: a given number of logins of one client, from end to end, by the library alone.
ghost use Rattle.std.specs.Prelude.{◌≡◌, ◌*◌, ◌≤◌, ◌<◌, ◌^◌, IfOk, OnOk, OnErr, IsErrOf, IsSome, codes, decimal};
ghost use Rattle.std.specs.FinMap as finite;
ghost use Rattle.std.specs.String.{string_bytes};
ghost use Rattle.oidc_cli.specs.Calls.{HasRisen};
ghost use Rattle.oidc_cli.specs.Sinks.{Puts, PutsPrefix};
ghost use Rattle.oidc_cli.specs.Drill as spec;
ghost use Rattle.oidc_cli.specs.Drill.{drill_client, issuer as drill_issuer, drill_tally, drill_store, drill_text, line_of_drill};

mod provider;
mod turns;

use crate::Sink;
use crate::beside::beside;
use crate::drill::provider::{client, issuer};
use crate::drill::turns::{Tally, added, begin_all, call_all};
use crate::replay::{Halt, put_line};
use crate::user::PendingLogins;
use oidc_login::{LoginClient, Logins};
use oidc_types::IssuerUrl;
use std::alloc::{AllocError, Global};

/// What came of a drill: its counts, and how many logins it left.
#[derive(Clone, Copy, Debug, PartialEq, Eq)]
pub struct Drilled {
    pub tally: Tally,
    pub pending: usize,
}

// Runs the drill of this number of logins, from the empty store.
fn drill(alloc: Global, count: u16) -> Result<Drilled, AllocError>
    ensures tally { IfOk result (λ drilled. drilled.tally ≡ drill_tally count) }
    ensures pending { IfOk result (λ drilled. drilled.pending ≡ finite.len (drill_store count)) }
{
    let issuer = issuer(alloc)?;
    let both = beside(issuer, client(alloc))?;
    let (issuer, client) = both;
    let drilled = run_on(alloc, &client, &issuer, count);
    drop(client);
    drop(issuer);
    drilled
}

// Its turns, over a store that is empty.
fn run_over<'c>(
    alloc: Global,
    client: &'c LoginClient,
    issuer: &IssuerUrl,
    logins: &mut PendingLogins<'c>,
    count: u16,
) -> Result<Drilled, AllocError>
    requires same { logins.old.client ≡ client.now }
    requires own { client.now ≡ drill_client }
    requires issuer { issuer.now ≡ drill_issuer }
    requires empty { logins.old.pending ≡ finite.empty }
    ensures tally { IfOk result (λ drilled. drilled.tally ≡ drill_tally count) }
    ensures pending { IfOk result (λ drilled. drilled.pending ≡ finite.len (drill_store count)) }
{
    let begun = begin_all(alloc, client, issuer, logins, count)?;
    let called = call_all(alloc, client, issuer, logins, count)?;
    Ok(Drilled {
        tally: added(begun, called),
        pending: logins.pending(),
    })
}

// The drill over its client and the issuer of its tokens.
fn run_on(
    alloc: Global,
    client: &LoginClient,
    issuer: &IssuerUrl,
    count: u16,
) -> Result<Drilled, AllocError>
    requires own { client.now ≡ drill_client }
    requires issuer { issuer.now ≡ drill_issuer }
    ensures tally { IfOk result (λ drilled. drilled.tally ≡ drill_tally count) }
    ensures pending { IfOk result (λ drilled. drilled.pending ≡ finite.len (drill_store count)) }
{
    let Ok(mut logins) = Logins::new(alloc, client) else {
        unreachable!()
    };
    let drilled = run_over(alloc, client, issuer, &mut logins, count);
    drop(logins);
    drilled
}

// ---- the line

// A name and its number, before what follows.
fn counted(alloc: Global, name: &str, count: u64, later: &str) -> Result<String, AllocError>
    ensures { IfOk result
        (λ text. string_bytes text ≡ spec.counted name.now count later.now) }
{
    let first = format!(in alloc; "{name}{count}")?;
    format!(in alloc; "{first}{later}")
}

// The line of a drill.
fn drill_line(alloc: Global, count: u16, drilled: Drilled) -> Result<String, AllocError>
    ensures { IfOk result
        (λ text. string_bytes text ≡ line_of_drill count drilled.tally drilled.pending) }
{
    let tally = drilled.tally;
    let left = counted(alloc, " pending=", drilled.pending as u64, "\n")?;
    let sent = counted(alloc, " sent=", tally.sent, left.as_str())?;
    let repeated = counted(alloc, " repeated=", tally.repeated, sent.as_str())?;
    let signed = counted(alloc, " signed=", tally.signed, repeated.as_str())?;
    let begun = counted(alloc, " begun=", tally.begun, signed.as_str())?;
    counted(alloc, "drill ", count as u64, begun.as_str())
}

/// Runs the drill of this number of logins and puts its line.
#[tactic(auto, using(crate::proofs::Passing::prefix_none), unfolding(crate::specs::Drill::drill_text))]
pub fn put_drill<O: Sink>(alloc: Global, count: u16, sink: &mut O) -> Result<(), Halt>
    ensures whole { OnOk result
        (Puts (O.written sink.old) (O.written sink.new) (drill_text count)) }
    ensures begun { OnErr result
        (PutsPrefix (O.written sink.old) (O.written sink.new) (drill_text count)) }
    ensures blamed { IsErrOf result Halt.Sink → HasRisen (O.faults sink.old) (O.faults sink.new) }
    ensures counts { O.faults sink.old ≤ O.faults sink.new }
{
    let drilled = drill(alloc, count)?;
    let line = drill_line(alloc, count, drilled)?;
    put_line(line.as_str(), sink)
}
