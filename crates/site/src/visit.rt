//! What the two browsers of the example do once their users are signed in: tokens are refreshed, one user signs out,
//! the other one has to sign in again, and the provider ends a session.

ghost use Rattle.std.specs.Prelude.{IsNone};

use crate::keep::{PostError, SiteSessions, end, look, take_post};
use crate::provider::text;
use crate::session::{Session, Visit};
use crate::sign_out::{comes_back, provider_logout, sign_out};
use crate::tokens::{RefreshError, RevocationClient, RevokeError, refresh_session, revoke};
use crate::{Browsers, Queries, Site};
use jiff::Timestamp;
use oidc::login::LoginClient;
use oidc::{EndSessionUrl, PostLogoutRedirectUrl, RefreshToken, SyncHttpClient};
use rand_core::Rng;
use std::alloc::Global;

// What a site makes of a refresh.
fn refreshed<E>(reply: &Result<(), RefreshError<E>>) -> &'static str {
    match reply {
        Ok(()) => "refreshed",
        Err(refusal) if refusal.ends_session() => "not refreshed: the user signs in again",
        Err(_) => "not refreshed: the site tries again later",
    }
}

// What it makes of a revocation.
fn revoked<E>(reply: &Result<(), RevokeError<E>>) -> &'static str {
    match reply {
        Ok(()) => "revoked",
        Err(_) => "not revoked: the site tries again later",
    }
}

// Refreshes, as a site does once an access token has expired, and says what came of it.
fn refresh_once<H: SyncHttpClient<Error: Drop>>(
    rt: &impl Print,
    alloc: Global,
    client: &LoginClient,
    sessions: &mut SiteSessions<'_>,
    session: &mut Session,
    http: &mut H,
    now: Timestamp,
) -> anyhow::Result<()>
    requires { H.ready http.old }
    ensures { H.ready http.new }
{
    look(sessions, session, now);
    let reply = refresh_session(alloc, client, sessions, session, http, now);
    let words = refreshed(&reply);
    drop(reply);
    println!(rt; "{words}")?;
    Ok(())
}

// Gives a refresh token up, where one is left, and says what came of it.
fn give_up<H: SyncHttpClient<Error: Drop>>(
    rt: &impl Print,
    alloc: Global,
    client: &RevocationClient,
    kept: &mut Option<RefreshToken>,
    http: &mut H,
) -> anyhow::Result<()>
    requires { H.ready http.old }
    ensures { H.ready http.new }
{
    if kept.is_none() {
        return Ok(());
    }
    let reply = revoke(alloc, client, kept, http);
    let words = revoked(&reply);
    drop(reply);
    println!(rt; "{words}")?;
    Ok(())
}

// The browser is sent to the provider's logout, once its session is ended. The URL is printed for the reader of the
// example: a site prints none, since it holds the user's ID token.
fn send_away<R: Rng>(
    rt: &impl Print,
    alloc: Global,
    client: &LoginClient,
    endpoint: EndSessionUrl,
    rng: &mut R,
    session: &mut Session,
    visit: &Visit,
) -> anyhow::Result<()>
    requires ended { IsNone session.old.visit }
{
    let page = PostLogoutRedirectUrl::new(alloc, text(alloc, "http://localhost:8888/bye")?)?;
    let (url, kept) = sign_out(alloc, client, endpoint, page, visit.user.id_token(), rng)?;
    session.logout = Some(kept);
    println!(rt; "{url}")?;
    Ok(())
}

// What follows the end of a session: the refresh token is given up, at the second try here, and the browser is sent to
// the provider's logout, where there is one.
fn part<H: SyncHttpClient<Error: Drop>, R: Rng>(
    rt: &impl Print,
    alloc: Global,
    site: &Site,
    rng: &mut R,
    session: &mut Session,
    visit: &mut Visit,
    http: &mut H,
) -> anyhow::Result<()>
    requires ended { IsNone session.old.visit }
    requires ready { H.ready http.old }
    ensures { H.ready http.new }
{
    give_up(
        rt,
        alloc,
        &site.revocation,
        &mut visit.tokens.refresh_token,
        http,
    )?;
    give_up(
        rt,
        alloc,
        &site.revocation,
        &mut visit.tokens.refresh_token,
        http,
    )?;
    match provider_logout(alloc)? {
        Some(endpoint) => send_away(rt, alloc, &site.client, endpoint, rng, session, visit),
        None => {
            println!(rt; "signed out of this site alone")?;
            Ok(())
        }
    }
}

/// The user signs out. The site's own session is ended first, whatever comes of the rest.
pub(crate) fn leave<H: SyncHttpClient<Error: Drop>, R: Rng>(
    rt: &impl Print,
    alloc: Global,
    site: &Site,
    sessions: &mut SiteSessions<'_>,
    rng: &mut R,
    session: &mut Session,
    http: &mut H,
    now: Timestamp,
) -> anyhow::Result<()>
    requires { H.ready http.old }
    ensures { H.ready http.new }
{
    look(sessions, session, now);
    let Some(mut visit) = end(sessions, session) else {
        println!(rt; "nobody is signed in")?;
        return Ok(());
    };
    let parted = part(rt, alloc, site, rng, session, &mut visit, http);
    drop(visit);
    parted
}

// A browser comes to the page behind the logout.
fn behind(
    rt: &impl Print,
    alloc: Global,
    session: &mut Session,
    query: &str,
) -> anyhow::Result<()> {
    if comes_back(alloc, &mut session.logout, query.as_bytes())? {
        println!(rt; "signed out")?;
    } else {
        println!(rt; "this browser was not signing out")?;
    }
    Ok(())
}

// Comes there with a query that somebody else made, with its own, and with its own again.
fn return_to(
    rt: &impl Print,
    alloc: Global,
    session: &mut Session,
    queries: &Queries,
) -> anyhow::Result<()> {
    behind(rt, alloc, session, queries.forged.as_str())?;
    behind(rt, alloc, session, queries.signed_out.as_str())?;
    behind(rt, alloc, session, queries.signed_out.as_str())
}

// What it makes of a post to its page for logout tokens.
fn posted(alloc: Global, reply: &Result<usize, PostError>) -> anyhow::Result<String> {
    match reply {
        Ok(count) => Ok(format!(in alloc; "sessions ended by the provider: {count}")?),
        Err(_) => text(alloc, "no logout token that is accepted"),
    }
}

/// Takes what was posted to the page for logout tokens, and says what came of it.
pub(crate) fn answer_post(
    rt: &impl Print,
    alloc: Global,
    sessions: &mut SiteSessions<'_>,
    body: &str,
    now: Timestamp,
) -> anyhow::Result<()> {
    let reply = take_post(alloc, sessions, body.as_bytes(), now);
    let line = posted(alloc, &reply);
    drop(reply);
    let line = line?;
    println!(rt; "{line}")?;
    Ok(())
}

/// What the two browsers do once their users are signed in.
pub(crate) fn visits<H: SyncHttpClient<Error: Drop>, R: Rng>(
    rt: &impl Print,
    alloc: Global,
    site: &Site,
    sessions: &mut SiteSessions<'_>,
    rng: &mut R,
    queries: &Queries,
    browsers: &mut Browsers,
    http: &mut H,
    now: Timestamp,
) -> anyhow::Result<()>
    requires { H.ready http.old }
    ensures { H.ready http.new }
{
    let (client, first, second) = (&site.client, &mut browsers.first, &mut browsers.second);
    refresh_once(rt, alloc, client, sessions, first, http, now)?;
    refresh_once(rt, alloc, client, sessions, first, http, now)?;
    leave(rt, alloc, site, sessions, rng, first, http, now)?;
    return_to(rt, alloc, first, queries)?;
    refresh_once(rt, alloc, client, sessions, second, http, now)?;
    leave(rt, alloc, site, sessions, rng, second, http, now)
}
