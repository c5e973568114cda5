//! The lines of a script, and what they say.
ghost use Rattle.std.specs.Prelude.{◌≡◌, ◌==◌, ◌∷◌, ◌<◌, ◌≤◌, [], length, position, codes, IfOk, IfSome, IsNone, Some, ◌↔◌, ◌&&◌, is_some};
ghost use Rattle.oidc_cli.specs.Values.{optional_value, pair_text as text_of_pair};
ghost use Rattle.oidc_cli.specs.Readers.{Reads};
ghost use Rattle.oidc_cli.specs.Script as spec;
ghost use Rattle.oidc_cli.specs.Script.{lines, kind_of as kind_in, provider_urls, client_values, begin_values, callback_values, event_of_pairs, event_of};

pub(crate) mod answers;
pub(crate) mod values;

use crate::beside::beside;
use crate::events::{
    BeginLine, CallbackLine, ClientLine, Event, LineError, LineKind, ProviderUrls,
};
use crate::script::answers::read_answers;
use crate::script::values::{
    optional_demand, optional_text, optional_url, pair_algorithms, pair_moment, pair_text,
    pair_url, reading_on,
};
use memchr::memchr;
use oidc_pairs::BorrowedPairs;
use oidc_types::{ClientId, ClientSecret, CsrfToken, Nonce, PkceCodeVerifier};
use std::alloc::{AllocError, Global};

/// The first line of a script, and the script behind its line feed. `None` where there is no line.
pub fn first_line(script: &[u8]) -> Option<(&[u8], &[u8])>
    ensures none { IsNone result ↔ (script.now ≡ []) }
    ensures first { IfSome result (λ cut. lines script.now ≡ cut.0.now ∷ lines cut.1.now) }
    ensures shorter { IfSome result (λ cut. length cut.1.now < length script.now) }
{
    if script.is_empty() {
        return None;
    }
    match line_feed(script) {
        Some(at) => Some((&script[..at], &script[at + 1..])),
        None => Some((script, &script[script.len()..])),
    }
}

// Where the first line feed of a script is.
fn line_feed(script: &[u8]) -> Option<usize>
    ensures { result ≡ position (λ b. b == 10) script.now }
{
    memchr(b'\n', script)
}

/// What a line says, where it is an event. The only error is want of memory.
pub fn read_line(alloc: Global, line: &[u8]) -> Result<Option<Event>, AllocError>
    ensures { IfOk result (λ event. event ≡ event_of line.now) }
{
    let pairs = BorrowedPairs::parse(alloc, line)?;
    match read_event(alloc, &pairs) {
        Ok(event) => Ok(Some(event)),
        Err(LineError::NoEvent) => Ok(None),
        Err(LineError::Memory) => Err(AllocError),
    }
}

// The kind that a text names.
fn kind_named(text: &str) -> Option<LineKind>
    ensures { result ≡ spec.kind_named text.now }
{
    match text {
        "client" => Some(LineKind::Client),
        "begin" => Some(LineKind::Begin),
        "callback" => Some(LineKind::Callback),
        _ => None,
    }
}

// The kind that the first pair names, where that is named `op`.
fn kind_of(line: &BorrowedPairs<'_>) -> Option<LineKind>
    ensures { result ≡ kind_in line.now }
{
    let first = line.as_slice().first()?;
    if first.name() == "op" {
        kind_named(first.value())
    } else {
        None
    }
}

// ---- the names on a line

fn is_client_name(name: &str) -> bool
    ensures { result ≡ spec.is_name_of LineKind.Client name.now }
{
    matches!(
        name,
        "op" | "id"
            | "secret"
            | "issuer"
            | "auth"
            | "token"
            | "userinfo"
            | "algs"
            | "redirect"
            | "reading"
    )
}

fn is_begin_name(name: &str) -> bool
    ensures { result ≡ spec.is_name_of LineKind.Begin name.now }
{
    matches!(
        name,
        "op" | "state" | "nonce" | "verifier" | "redirect" | "userinfo"
    )
}

fn is_callback_name(name: &str) -> bool
    ensures { result ≡ spec.is_name_of LineKind.Callback name.now }
{
    matches!(
        name,
        "op" | "now"
            | "query"
            | "token_status"
            | "token_type"
            | "token_body"
            | "token_fault"
            | "info_status"
            | "info_type"
            | "info_body"
            | "info_fault"
    )
}

// Whether a line of this kind may have a name.
fn is_name_of(kind: LineKind, name: &str) -> bool
    ensures { result ≡ spec.is_name_of kind name.now }
{
    match kind {
        LineKind::Client => is_client_name(name),
        LineKind::Begin => is_begin_name(name),
        LineKind::Callback => is_callback_name(name),
    }
}

// Whether a line of this kind may have a name, and this line has it once.
fn is_name_once(kind: LineKind, line: &BorrowedPairs<'_>, name: &str) -> bool
    ensures { result ≡ (spec.is_name_of kind name.now && is_some (text_of_pair line.now name.now)) }
{
    is_name_of(kind, name) && line.only(name).is_some()
}

// Whether each name of a line is one that its kind may have, and none stands twice.
fn has_each_name_once(kind: LineKind, line: &BorrowedPairs<'_>) -> bool
    ensures { result ≡ spec.has_each_name_once kind line.now }
{
    line.as_slice()
        .iter()
        .all(|pair| is_name_once(kind, line, pair.name()))
}

// ---- events

#[tactic(auto, unfolding(crate::specs::Script::event_of_pairs))]
fn read_event(alloc: Global, line: &BorrowedPairs<'_>) -> Result<Event, LineError>
    ensures { Reads (λ event. event) result (event_of_pairs line.now) }
{
    let Some(kind) = kind_of(line) else {
        return Err(LineError::NoEvent);
    };
    if !has_each_name_once(kind, line) {
        return Err(LineError::NoEvent);
    }
    read_values(alloc, kind, line)
}

// The secret on a client line, where it has one.
fn read_secret(alloc: Global, line: &BorrowedPairs<'_>) -> Result<Option<ClientSecret>, LineError>
    ensures { Reads (λ secret. secret) result (optional_value Some line.now (codes "secret")) }
{
    match optional_text(alloc, line, "secret")? {
        Some(secret) => Ok(Some(ClientSecret::new(secret))),
        None => Ok(None),
    }
}

#[tactic(auto, unfolding(crate::specs::Script::provider_urls))]
fn read_urls(alloc: Global, line: &BorrowedPairs<'_>) -> Result<ProviderUrls, LineError>
    ensures { Reads (λ read. read) result (provider_urls line.now) }
{
    let issuer = pair_url(alloc, line, "issuer")?;
    let issuers = beside(issuer, pair_url(alloc, line, "issuer"))?;
    let with_auth = beside(issuers, pair_url(alloc, line, "auth"))?;
    let with_token = beside(with_auth, pair_url(alloc, line, "token"))?;
    let all = beside(with_token, optional_url(alloc, line, "userinfo"))?;
    let ((((issuer, jwks_uri), auth), token), user_info) = all;
    Ok(ProviderUrls {
        issuer,
        jwks_uri,
        auth,
        token,
        user_info,
    })
}

fn read_client(alloc: Global, line: &BorrowedPairs<'_>) -> Result<ClientLine, LineError>
    ensures { Reads (λ read. read) result (client_values line.now) }
{
    let reading = reading_on(line)?;
    let id = pair_text(alloc, line, "id")?;
    let with_secret = beside(id, read_secret(alloc, line))?;
    let with_redirect = beside(with_secret, optional_url(alloc, line, "redirect"))?;
    let with_algorithms = beside(with_redirect, pair_algorithms(alloc, line, "algs"))?;
    let all = beside(with_algorithms, read_urls(alloc, line))?;
    let ((((id, secret), redirect), algorithms), provider) = all;
    Ok(ClientLine {
        id: ClientId::new(id),
        secret,
        provider,
        redirect,
        algorithms,
        reading,
    })
}

fn read_begin(alloc: Global, line: &BorrowedPairs<'_>) -> Result<BeginLine, LineError>
    ensures { Reads (λ read. read) result (begin_values line.now) }
{
    let state = pair_text(alloc, line, "state")?;
    let nonce = pair_text(alloc, line, "nonce")?;
    let redirect = optional_url(alloc, line, "redirect")?;
    let with_verifier = beside(redirect, pair_text(alloc, line, "verifier"))?;
    let all = beside(with_verifier, optional_demand(line, "userinfo"))?;
    let ((redirect, verifier), user_info) = all;
    Ok(BeginLine {
        state: CsrfToken::new(state),
        nonce: Nonce::new(nonce),
        redirect,
        verifier: PkceCodeVerifier::new(verifier),
        user_info,
    })
}

fn read_callback(alloc: Global, line: &BorrowedPairs<'_>) -> Result<CallbackLine, LineError>
    ensures { Reads (λ read. read) result (callback_values line.now) }
{
    let now = pair_moment(line, "now")?;
    let query = pair_text(alloc, line, "query")?;
    let answers = read_answers(alloc, line)?;
    Ok(CallbackLine {
        now,
        query,
        answers,
    })
}

// The event of a line of this kind, whose names are right.
fn read_values(alloc: Global, kind: LineKind, line: &BorrowedPairs<'_>) -> Result<Event, LineError>
    ensures { Reads (λ event. event) result (spec.event_values kind line.now) }
{
    match kind {
        LineKind::Client => Ok(Event::Client(read_client(alloc, line)?)),
        LineKind::Begin => Ok(Event::Begin(read_begin(alloc, line)?)),
        LineKind::Callback => Ok(Event::Callback(read_callback(alloc, line)?)),
    }
}
