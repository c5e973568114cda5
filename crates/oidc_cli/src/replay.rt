//! The lines of a script, one after another, and their report.
ghost use Rattle.std.specs.Prelude.{◌≡◌, ◌++◌, ◌+◌, ◌≤◌, ◌<◌, ◌^◌, codes, IfOk, OnOk, OnErr, IsErrOf, IfSome, IsSome, IsNone, Some, None, false};
ghost use Rattle.std.specs.FinMap as finite;
ghost use Rattle.std.specs.String.{string_bytes};
ghost use Rattle.oidc_login.specs.Errors.{seen_reply};
ghost use Rattle.oidc_cli.specs.Calls.{HasRisen};
ghost use Rattle.oidc_cli.specs.Sinks.{Puts, PutsPrefix, PutsSoFar};
ghost use Rattle.oidc_cli.specs.Script.{lines, is_client, is_step, fault_from, fault_of};
ghost use Rattle.oidc_cli.specs.Report.{HasNoFloats, request_lines, verdict_line as line_of_verdict, fault_line as line_of_fault, pending_line as line_of_pending, report};
ghost use Rattle.oidc_cli.specs.Steps.{event_lines, store_after, rest_of_report, ending_of};

use crate::events::{BeginLine, CallbackLine, ClientLine, Event};
use crate::logins::{Replied, begin, call_back, client_of};
use crate::reading::LIMIT;
use crate::report::{fault_line, pending_line, push_begin, push_request, push_verdict};
use crate::script::{first_line, read_line};
use crate::user::PendingLogins;
use crate::{Failed, Sink};
use oidc_login::{LoginClient, Logins};
use oidc_oauth2::HttpRequest;
use std::alloc::{AllocError, Global};

/// Why a report stops before its end.
#[derive(Clone, Copy, Debug, PartialEq, Eq)]
pub enum Halt {
    /// The sink failed.
    Sink,
    /// There was no memory.
    Memory,
}

impl From<Failed> for Halt {
    ghost use Rattle.std.specs.Prelude.{◌≡◌};
    ghost use Rattle.oidc_cli.specs.declared.replay.Halt.TheVariants.{Sink};

    ghost from_gives = { λ _ e. e ≡ Sink };

    fn from(_failed: Failed) -> Halt {
        Halt::Sink
    }
}

impl From<AllocError> for Halt {
    ghost use Rattle.std.specs.Prelude.{◌≡◌};
    ghost use Rattle.oidc_cli.specs.declared.replay.Halt.TheVariants.{Memory};

    ghost from_gives = { λ _ e. e ≡ Memory };

    fn from(_refused: AllocError) -> Halt {
        Halt::Memory
    }
}

/// How a report ends that was written to its end.
#[derive(Clone, Copy, Debug, PartialEq, Eq)]
pub enum Ending {
    /// With the number of pending logins.
    Pending,
    /// With the line of the script's first fault.
    Fault,
}

// The client line of an event, where it is one.
fn client_line_of(event: Option<Event>) -> Option<ClientLine>
    ensures found { IfSome result (λ line. event ≡ Some (Event.Client line)) }
    ensures none { IsNone result → is_client event ≡ false }
{
    match event {
        Some(Event::Client(line)) => Some(line),
        Some(Event::Begin(line)) => {
            drop(line);
            None
        }
        Some(Event::Callback(line)) => {
            drop(line);
            None
        }
        None => None,
    }
}

// ---- the lines of an event

// Runs a begin line and adds its line.
fn push_begun<'c>(
    alloc: Global,
    client: &'c LoginClient,
    logins: &mut PendingLogins<'c>,
    line: BeginLine,
    text: &mut String,
) -> Result<(), AllocError>
    requires same { logins.old.client ≡ client.now }
    ensures lines { let event = Some (Event.Begin line) in OnOk result (string_bytes text.new
        ≡ string_bytes text.old ++ event_lines logins.old.client logins.old.pending event) }
    ensures client { logins.new.client ≡ logins.old.client }
    ensures store { OnOk result
        (logins.new.pending
        ≡ store_after logins.old.client logins.old.pending (Some (Event.Begin line))) }
{
    let reply = begin(alloc, client, logins, line)?;
    // The URL is let go by a call on each way out.
    match push_begin(text, &reply) {
        Ok(()) => {
            drop(reply);
            Ok(())
        }
        Err(refused) => {
            drop(reply);
            Err(refused)
        }
    }
}

// Adds the lines of requests.
fn push_requests(requests: &[HttpRequest], text: &mut String) -> Result<(), AllocError>
    ensures { OnOk result (string_bytes text.new
        ≡ string_bytes text.old ++ request_lines requests.now) }
{
    for request in requests {
        push_request(text, request)?;
    }
    Ok(())
}

// Adds the lines of a callback, whose claims hold no float.
fn push_replied(alloc: Global, replied: &Replied, text: &mut String) -> Result<(), AllocError>
    ensures { let reply = seen_reply replied.now.reply in
        HasNoFloats reply → OnOk result (string_bytes text.new ≡ string_bytes text.old
        ++ (request_lines replied.now.http.requests ++ line_of_verdict reply)) }
{
    push_requests(replied.http.requests(), text)?;
    push_verdict(text, alloc, &replied.reply)
}

// Runs a callback line and adds its lines.
fn push_called(
    alloc: Global,
    logins: &mut PendingLogins<'_>,
    line: CallbackLine,
    text: &mut String,
) -> Result<(), AllocError>
    ensures lines { let event = Some (Event.Callback line) in OnOk result (string_bytes text.new
        ≡ string_bytes text.old ++ event_lines logins.old.client logins.old.pending event) }
    ensures client { logins.new.client ≡ logins.old.client }
    ensures store { OnOk result
        (logins.new.pending
        ≡ store_after logins.old.client logins.old.pending (Some (Event.Callback line))) }
{
    // What came is large: it is let go once, by a call, and not on each way out.
    let Ok(replied) = call_back(alloc, logins, line) else {
        return Err(AllocError);
    };
    let pushed = push_replied(alloc, &replied, text);
    drop(replied);
    pushed
}

// Runs a begin or a callback and adds its lines. The result is whether the event is one.
fn push_step<'c>(
    alloc: Global,
    client: &'c LoginClient,
    logins: &mut PendingLogins<'c>,
    event: Option<Event>,
    text: &mut String,
) -> Result<bool, AllocError>
    requires same { logins.old.client ≡ client.now }
    ensures placed { IfOk result (λ placed. placed ≡ is_step event) }
    ensures lines { OnOk result (string_bytes text.new
        ≡ string_bytes text.old ++ event_lines logins.old.client logins.old.pending event) }
    ensures client { logins.new.client ≡ logins.old.client }
    ensures store { OnOk result
        (logins.new.pending ≡ store_after logins.old.client logins.old.pending event) }
{
    match event {
        Some(Event::Begin(line)) => {
            push_begun(alloc, client, logins, line, text)?;
            Ok(true)
        }
        Some(Event::Callback(line)) => {
            push_called(alloc, logins, line, text)?;
            Ok(true)
        }
        Some(Event::Client(line)) => {
            drop(line);
            Ok(false)
        }
        None => Ok(false),
    }
}

// ---- the report

// How many bytes of a report are put at once, at least, but for its end.
const BLOCK: usize = 65_536;

// Puts a text that fills a block, which is empty then, and its room is used again.
#[tactic(auto, using(crate::proofs::Passing::begun))]
fn put_block<O: Sink>(text: &mut String, sink: &mut O) -> Result<(), Halt>
    ensures part { OnOk result (PutsSoFar (O.written sink.old) (O.written sink.new)
        (string_bytes text.new) (string_bytes text.old)) }
    ensures begun { OnErr result
        (PutsPrefix (O.written sink.old) (O.written sink.new) (string_bytes text.old)) }
    ensures blamed { IsErrOf result Halt.Sink → HasRisen (O.faults sink.old) (O.faults sink.new) }
    ensures counts { O.faults sink.old ≤ O.faults sink.new }
{
    if text.len() < BLOCK {
        return Ok(());
    }
    sink.put(text.as_str().as_bytes())?;
    text.clear();
    Ok(())
}

// Puts a text and its last line.
#[tactic(auto, using(crate::proofs::Passing::prefix_none))]
fn put_end<O: Sink>(text: &mut String, last: &str, sink: &mut O) -> Result<(), Halt>
    ensures whole { OnOk result (Puts (O.written sink.old) (O.written sink.new)
        (string_bytes text.old ++ last.now)) }
    ensures begun { OnErr result (PutsPrefix (O.written sink.old) (O.written sink.new)
        (string_bytes text.old ++ last.now)) }
    ensures blamed { IsErrOf result Halt.Sink → HasRisen (O.faults sink.old) (O.faults sink.new) }
    ensures counts { O.faults sink.old ≤ O.faults sink.new }
{
    text.push_str(last)?;
    sink.put(text.as_str().as_bytes())?;
    Ok(())
}

// Puts a line.
pub(crate) fn put_line<O: Sink>(line: &str, sink: &mut O) -> Result<(), Halt>
    ensures whole { OnOk result (Puts (O.written sink.old) (O.written sink.new) line.now) }
    ensures begun { OnErr result (PutsPrefix (O.written sink.old) (O.written sink.new) line.now) }
    ensures blamed { IsErrOf result Halt.Sink → HasRisen (O.faults sink.old) (O.faults sink.new) }
    ensures counts { O.faults sink.old ≤ O.faults sink.new }
{
    sink.put(line.as_bytes())?;
    Ok(())
}

// Puts the line of the script's first fault, where it has no line before it.
#[tactic(auto, using(crate::proofs::Passing::prefix_none))]
fn put_fault<O: Sink>(alloc: Global, number: usize, sink: &mut O) -> Result<Ending, Halt>
    ensures ending { IfOk result (λ ending. ending ≡ Ending.Fault) }
    ensures whole { OnOk result
        (Puts (O.written sink.old) (O.written sink.new) (line_of_fault number)) }
    ensures begun { OnErr result
        (PutsPrefix (O.written sink.old) (O.written sink.new) (line_of_fault number)) }
    ensures blamed { IsErrOf result Halt.Sink → HasRisen (O.faults sink.old) (O.faults sink.new) }
    ensures counts { O.faults sink.old ≤ O.faults sink.new }
{
    let line = fault_line(alloc, number)?;
    put_line(line.as_str(), sink)?;
    Ok(Ending::Fault)
}

// Puts a text and the line of the script's first fault.
#[tactic(auto, using(crate::proofs::Passing::prefix_none))]
fn put_fault_behind<O: Sink>(
    alloc: Global,
    text: &mut String,
    number: usize,
    sink: &mut O,
) -> Result<Ending, Halt>
    ensures ending { IfOk result (λ ending. ending ≡ Ending.Fault) }
    ensures whole { OnOk result (Puts (O.written sink.old) (O.written sink.new)
        (string_bytes text.old ++ line_of_fault number)) }
    ensures begun { OnErr result (PutsPrefix (O.written sink.old) (O.written sink.new)
        (string_bytes text.old ++ line_of_fault number)) }
    ensures blamed { IsErrOf result Halt.Sink → HasRisen (O.faults sink.old) (O.faults sink.new) }
    ensures counts { O.faults sink.old ≤ O.faults sink.new }
{
    let line = fault_line(alloc, number)?;
    put_end(text, line.as_str(), sink)?;
    Ok(Ending::Fault)
}

// Puts a text and the line of the pending logins.
#[tactic(auto, using(crate::proofs::Passing::prefix_none))]
fn put_pending<O: Sink>(
    alloc: Global,
    text: &mut String,
    logins: &PendingLogins<'_>,
    sink: &mut O,
) -> Result<Ending, Halt>
    ensures ending { IfOk result (λ ending. ending ≡ Ending.Pending) }
    ensures whole { OnOk result (Puts (O.written sink.old) (O.written sink.new)
        (string_bytes text.old ++ line_of_pending logins.now.pending)) }
    ensures begun { OnErr result (PutsPrefix (O.written sink.old) (O.written sink.new)
        (string_bytes text.old ++ line_of_pending logins.now.pending)) }
    ensures blamed { IsErrOf result Halt.Sink → HasRisen (O.faults sink.old) (O.faults sink.new) }
    ensures counts { O.faults sink.old ≤ O.faults sink.new }
{
    let line = pending_line(alloc, logins.pending())?;
    put_end(text, line.as_str(), sink)?;
    Ok(Ending::Pending)
}

// Puts a text and the report of the lines behind the client line, over the logins of that client, block by block.
fn put_lines<'c, O: Sink>(
    alloc: Global,
    client: &'c LoginClient,
    logins: &mut PendingLogins<'c>,
    script: &[u8],
    text: &mut String,
    sink: &mut O,
) -> Result<Ending, Halt>
    requires same { logins.old.client ≡ client.now }
    ensures ending { IfOk result
        (λ ending. ending ≡ ending_of (fault_from 2 (lines script.now))) }
    ensures whole { OnOk result
        (Puts (O.written sink.old) (O.written sink.new)
        (let all = lines script.now in string_bytes text.old
        ++ rest_of_report logins.old.client logins.old.pending 2 all (fault_from 2 all))) }
    ensures begun { OnErr result
        (PutsPrefix (O.written sink.old) (O.written sink.new)
        (let all = lines script.now in string_bytes text.old
        ++ rest_of_report logins.old.client logins.old.pending 2 all (fault_from 2 all))) }
    ensures blamed { IsErrOf result Halt.Sink → HasRisen (O.faults sink.old) (O.faults sink.new) }
    ensures counts { O.faults sink.old ≤ O.faults sink.new }
{
    let mut number = 2usize;
    let mut left = script;
    while let Some((line, rest)) = first_line(left) {
        let event = read_line(alloc, line)?;
        if !push_step(alloc, client, logins, event, text)? {
            return put_fault_behind(alloc, text, number, sink);
        }
        put_block(text, sink)?;
        number += 1;
        left = rest;
    }
    put_pending(alloc, text, logins, sink)
}

// The same, from no pending logins.
fn put_steps<O: Sink>(
    alloc: Global,
    client: &LoginClient,
    script: &[u8],
    text: &mut String,
    sink: &mut O,
) -> Result<Ending, Halt>
    requires endpoint { IsSome client.now.token_uri }
    ensures ending { IfOk result
        (λ ending. ending ≡ ending_of (fault_from 2 (lines script.now))) }
    ensures whole { OnOk result
        (Puts (O.written sink.old) (O.written sink.new)
        (let all = lines script.now in string_bytes text.old
        ++ rest_of_report client.now finite.empty 2 all (fault_from 2 all))) }
    ensures begun { OnErr result
        (PutsPrefix (O.written sink.old) (O.written sink.new)
        (let all = lines script.now in string_bytes text.old
        ++ rest_of_report client.now finite.empty 2 all (fault_from 2 all))) }
    ensures blamed { IsErrOf result Halt.Sink → HasRisen (O.faults sink.old) (O.faults sink.new) }
    ensures counts { O.faults sink.old ≤ O.faults sink.new }
{
    let Ok(mut logins) = Logins::new(alloc, client) else {
        unreachable!()
    };
    let put = put_lines(alloc, client, &mut logins, script, text, sink);
    drop(logins);
    put
}

// Puts the line of a client, and the report of the lines behind it.
#[tactic(auto, using(crate::proofs::Passing::prefix_none))]
fn put_client<O: Sink>(
    alloc: Global,
    client: &LoginClient,
    script: &[u8],
    sink: &mut O,
) -> Result<Ending, Halt>
    requires endpoint { IsSome client.now.token_uri }
    ensures ending { IfOk result
        (λ ending. ending ≡ ending_of (fault_from 2 (lines script.now))) }
    ensures whole { OnOk result
        (Puts (O.written sink.old) (O.written sink.new)
        (let all = lines script.now in
        codes "client ok\n" ++ rest_of_report client.now finite.empty 2 all (fault_from 2 all))) }
    ensures begun { OnErr result
        (PutsPrefix (O.written sink.old) (O.written sink.new)
        (let all = lines script.now in
        codes "client ok\n" ++ rest_of_report client.now finite.empty 2 all (fault_from 2 all))) }
    ensures blamed { IsErrOf result Halt.Sink → HasRisen (O.faults sink.old) (O.faults sink.new) }
    ensures counts { O.faults sink.old ≤ O.faults sink.new }
{
    let mut text = String::from_str(alloc, "client ok\n")?;
    put_steps(alloc, client, script, &mut text, sink)
}

/// Runs a script and puts its report.
pub fn put_report<O: Sink>(alloc: Global, script: &[u8], sink: &mut O) -> Result<Ending, Halt>
    ensures ending { IfOk result (λ ending. ending ≡ ending_of (fault_of script.now)) }
    ensures whole { OnOk result
        (Puts (O.written sink.old) (O.written sink.new) (report script.now)) }
    ensures begun { OnErr result
        (PutsPrefix (O.written sink.old) (O.written sink.new) (report script.now)) }
    ensures blamed { IsErrOf result Halt.Sink → HasRisen (O.faults sink.old) (O.faults sink.new) }
    ensures counts { O.faults sink.old ≤ O.faults sink.new }
{
    if script.len() > LIMIT {
        return put_fault(alloc, 0, sink);
    }
    let Some((line, rest)) = first_line(script) else {
        return put_fault(alloc, 1, sink);
    };
    let Some(client) = client_line_of(read_line(alloc, line)?) else {
        return put_fault(alloc, 1, sink);
    };
    let client = client_of(alloc, client);
    let put = put_client(alloc, &client, rest, sink);
    drop(client);
    put
}
