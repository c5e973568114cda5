//! The sessions that the site keeps of the users who are signed in, and their end by a logout token that the provider
//! posts (OpenID Connect Back-Channel Logout 1.0).
//!
//! Who has the id of a session has the session: a cookie holds it, which goes over `https` alone and which no script
//! reads. The sessions, and the ids of the tokens that ended some, are those of this process and lost with it.

ghost use Rattle.std.specs.Prelude.{◌≡◌, ◌<◌, None, Err, IfErr, IfOk, IfSome, IsSome, OnErr, OnOk, codes, length};
ghost use Rattle.std.specs.Str.{bytes_eq};
ghost use Rattle.std.specs.FinMap as finite;
ghost use Rattle.std.specs.Option.{option_copied};
ghost use Rattle.oidc_claims.specs.Others.{list_of};
ghost use Rattle.oidc.specs.LogoutTokens.{logout_verifier};
ghost use Rattle.oidc.specs.Sessions.{nothing, session_at, with_session};
ghost use Rattle.site.specs.Sessions as spec;
ghost use Rattle.site.specs.Sessions.{opening_of, posted_token, Ends, PostCause};
ghost use Rattle.site.specs.declared.keep.PostError.TheVariants as refusal;

use crate::provider::metadata;
use crate::session::{Session, Visit};
use crate::{Site, User};
use jiff::Timestamp;
use oidc::core_types::{CoreJsonWebKey, CoreJwsSigningAlgorithm};
use oidc::login::{LogoutError, LogoutVerifier, OpenError, ProviderSession, Sessions};
use oidc::{AllOtherClaims, IssuerUrl, JsonWebKey, OutMember};
use oidc_pairs::only_value;
use std::alloc::{AllocError, Global};

/// The sessions of a site whose provider signs logout tokens by a key of this type.
pub(crate) type SiteSessions<'v> = Sessions<'v, CoreJsonWebKey>;

// ---- the store

/// By what a logout token is known to be the provider's: key and algorithm go together.
#[derive(Drop)]
pub(crate) struct LogoutKey {
    issuer: IssuerUrl,
    key: CoreJsonWebKey,
    alg: CoreJwsSigningAlgorithm,
}

/// What the provider of the example signs by: the client's secret, as it does ID tokens.
pub(crate) fn logout_key(alloc: Global) -> anyhow::Result<LogoutKey> {
    let known = metadata(alloc)?;
    let issuer = known.issuer().clone_in(alloc);
    drop(known);
    let (issuer, secret) = (issuer?, Vec::from_slice(alloc, b"bbb")?);
    Ok(LogoutKey {
        issuer,
        key: CoreJsonWebKey::new_symmetric(secret),
        alg: CoreJwsSigningAlgorithm::HmacSha256,
    })
}

/// No session yet.
pub(crate) fn new_sessions(alloc: Global, site: &Site) -> SiteSessions<'_>
    ensures verifier { let k = site.now.logout_key in
        result.verifier ≡ logout_verifier site.now.client.client_id k.issuer k.key k.alg }
    ensures empty { result.kept ≡ nothing }
{
    let verifier = LogoutVerifier {
        client_id: site.client.client_id(),
        issuer: &site.logout_key.issuer,
        key: &site.logout_key.key,
        alg: &site.logout_key.alg,
    };
    Sessions::new(alloc, verifier)
}

// ---- a session

fn is_sid(claim: &OutMember) -> bool
    ensures { result ≡ bytes_eq claim.now.name (codes "sid") }
{
    claim.name.as_str() == "sid"
}

// The text of the claim `sid`, where there is one.
fn sid_in(claims: &AllOtherClaims) -> Option<&str>
    ensures { option_copied result ≡ spec.sid_in (list_of claims.now) }
{
    for claim in claims.as_slice() {
        if is_sid(claim) {
            return claim.value.as_str();
        }
    }
    None
}

// The provider's session behind a sign-in, where the ID token names it.
fn sid_of(alloc: Global, user: &User) -> Result<Option<ProviderSession>, AllocError>
    ensures { IfOk result (λ sid. sid ≡ spec.sid_of user.now) }
{
    match sid_in(user.claims().additional_claims()) {
        Some(sid) => Ok(Some(ProviderSession::new(String::from_str(alloc, sid)?))),
        None => Ok(None),
    }
}

/// Opens the session of a user who has just signed in, until `end`.
pub(crate) fn open(
    alloc: Global,
    sessions: &mut SiteSessions<'_>,
    visit: &Visit,
    end: Timestamp,
    now: Timestamp,
) -> Result<(), OpenError>
    ensures opened { let o = opening_of visit.now.id visit.now.user end.nanosecond now.nanosecond in
        OnOk result (sessions.new.kept ≡ record sessions.old.kept {
          sessions = with_session sessions.old.kept.sessions o;
        }) }
    ensures found { OnOk result (IsSome
        (session_at sessions.new.kept.sessions visit.now.id now.nanosecond)) }
    ensures unchanged { OnErr result (sessions.new ≡ sessions.old) }
{
    let sid = sid_of(alloc, &visit.user)?;
    let id = visit.id.clone_in(alloc)?;
    sessions.open(id, &visit.user, sid, end, now)
}

/// Lets the user of a browser go whose session isn't kept any more: it has ended, or the provider has ended it. A site
/// asks this before all else, at each request.
pub(crate) fn look(sessions: &SiteSessions<'_>, session: &mut Session, now: Timestamp)
    ensures stays { IfSome session.old.visit (λ visit.
        IsSome (session_at sessions.now.kept.sessions visit.id now.nanosecond))
        → session.new ≡ session.old }
    ensures gone { IfSome session.old.visit (λ visit.
        session_at sessions.now.kept.sessions visit.id now.nanosecond ≡ None
        → session.new ≡ record session.old { visit = None }) }
{
    if let Some(visit) = &session.visit {
        if sessions.look(&visit.id, now).is_none() {
            session.visit = None;
        }
    }
}

/// Ends the session of the user who is signed in: from here on the browser is nobody's. What it kept is handed out.
pub(crate) fn end(sessions: &mut SiteSessions<'_>, session: &mut Session) -> Option<Visit>
    ensures visit { result ≡ session.old.visit }
    ensures ended { session.new ≡ record session.old { visit = None } }
    ensures closed { IfSome session.old.visit (λ visit. sessions.new.kept
        ≡ record sessions.old.kept {
          sessions = finite.remove sessions.old.kept.sessions visit.id;
        }) }
    ensures nobody { session.old.visit ≡ None → sessions.new ≡ sessions.old }
{
    let visit = session.visit.take()?;
    let _ = sessions.close(&visit.id);
    Some(visit)
}

// ---- a logout token that is posted

/// Why what was posted ends no session. A site answers it by the status 400.
#[derive(Drop)]
pub(crate) enum PostError {
    /// It is longer than any logout token: it wasn't read.
    TooLong,
    /// It hasn't exactly one `logout_token`.
    NoToken,
    /// Its token isn't accepted, or there was no memory.
    LogoutToken(LogoutError),
}

// Anybody may post here, so a site reads no more than this.
const LONGEST_POST: usize = 65_536;

/// Takes what was posted to the site's page for logout tokens (section 2.5), and ends the sessions that its token names.
/// It tells how many, which is nobody's business: a site answers the status 200, whatever the number.
pub(crate) fn take_post(
    alloc: Global,
    sessions: &mut SiteSessions<'_>,
    body: &[u8],
    now: Timestamp,
) -> Result<usize, PostError>
    ensures long { 65536 < length body.now → result ≡ Err refusal.TooLong }
    ensures token { OnOk result (IsSome (posted_token body.now)) }
    ensures ended { IfSome (posted_token body.now) (λ token.
        IfOk result (λ count. Ends sessions.old now.nanosecond token count sessions.new.kept)) }
    ensures cause { IfErr result (PostCause sessions.old now.nanosecond body.now) }
    ensures stays { OnErr result (sessions.new ≡ sessions.old) }
{
    if body.len() > LONGEST_POST {
        return Err(PostError::TooLong);
    }
    match only_value(alloc, body, "logout_token") {
        Ok(Some(token)) => sessions
            .provider_logout(&token, now)
            .map_err(PostError::LogoutToken),
        Ok(None) => Err(PostError::NoToken),
        Err(AllocError) => Err(PostError::LogoutToken(LogoutError::Memory)),
    }
}
