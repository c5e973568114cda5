//! A site that signs users in and out, over the crate `oidc` and the crates whose words its contracts cite: what its
//! author writes.
//!
//! The site's transport, its generator and its clock are its own. Here the provider is played by `Recorded`, which
//! answers from a list, and the generator begins at a fixed number, so that the program always prints the same. Two
//! browsers begin a login. The program reads the query with which the first one comes back from standard input, and
//! shows that the second one, which was handed that query, is refused. Then both sign in, each with its own. The tokens
//! of the first one's user are refreshed (`src/tokens.rt`), and the user signs out (`src/sign_out.rt`); a refresh of
//! the second one's brings the ID token of somebody else, so that user signs in again, and then the provider ends that
//! session by a logout token (`src/keep.rt`).
#![tactic(auto)]

ghost use Rattle.std.specs.Prelude.{◌≡◌, ◌↔◌, true, false, None, Some, IfOk, IfSome, IsSome, IsSomeAnd, IsTrue, OnErr, OnOk, option_and_then};
ghost use Rattle.std.specs.FinMap as finite;
ghost use Rattle.std.specs.Option.{option_copied};
ghost use Rattle.oidc_types.specs.Random.{random_text};
ghost use Rattle.oidc.specs.Pairs.{pairs};
ghost use Rattle.oidc.specs.Token.{subject_of};
ghost use Rattle.oidc.specs.Errors.{is_spent_by};
ghost use Rattle.oidc.specs.BeforeRequest.{login_named_by, state_in};
ghost use Rattle.oidc.specs.Sessions.{session_at};

mod keep;
mod provider;
mod session;
mod sign_out;
#[cfg(test)]
mod tests;
mod tokens;
mod visit;

use crate::keep::{LogoutKey, SiteSessions, end, logout_key, new_sessions, open};
use crate::provider::{answers, metadata, print_requests, text};
use crate::session::{Session, Visit};
use crate::tokens::{RevocationClient, revocation_client};
use crate::visit::{answer_post, leave, visits};
use jiff::Timestamp;
use oidc::core_types::{CoreGenderClaim, CoreJsonWebKey};
use oidc::login::{LoginClient, LoginError, LoginSecrets, Logins, SignedIn, UserInfoDemand};
use oidc::{
    AllOtherClaims, AuthenticationFlow, Client, ClientId, ClientSecret, CsrfToken, EndUserName,
    Recorded, RedirectUrl, Scope, SyncHttpClient, UserInfoResponseType,
};
use oidc_pairs::only_value;
use rand_core::Rng;
use rand_pcg::Pcg32;
use std::alloc::{AllocError, Global};
use std::time::Duration;
use url::Url;

/// The logins of a site that keeps all additional claims, and whose keys are symmetric.
type SiteLogins<'c> = Logins<'c, AllOtherClaims, CoreGenderClaim, CoreJsonWebKey>;

/// A user of it.
pub(crate) type User = SignedIn<AllOtherClaims, CoreGenderClaim>;

// The site as the provider knows it: made once, and borrowed by its logins. Where a provider sends `"true"` for a boolean
// or a date for a moment, which is refused otherwise, `set_reading` has its place here; and `require_code_hash` where a
// site exchanges the codes of hybrid answers.
fn client(alloc: Global) -> anyhow::Result<LoginClient> {
    let id = ClientId::new(text(alloc, "aaa")?);
    let secret = ClientSecret::new(text(alloc, "bbb")?);
    let redirect = RedirectUrl::new(alloc, text(alloc, "http://localhost:8888/")?)?;
    let client: LoginClient = Client::from_provider_metadata(metadata(alloc)?, id, Some(secret));
    Ok(client.set_redirect_uri(redirect))
}

// What each login asks for beside the ID token: user info, in an answer that may be unsigned.
const USER_INFO: UserInfoDemand = UserInfoDemand {
    signed: false,
    issuer_match: true,
    audience_match: true,
    response_type: UserInfoResponseType::Json,
};

// The user asks to sign in: the browser is sent to the URL, and the site keeps the state in the browser's session.
fn begin<'c, R: Rng>(
    alloc: Global,
    client: &'c LoginClient,
    logins: &mut SiteLogins<'c>,
    rng: &mut R,
) -> anyhow::Result<(Url, CsrfToken)>
    ensures { IfOk result (λ sent. sent.1 ≡ random_text 16 (R.stream rng.old)) }
{
    let LoginSecrets {
        state,
        nonce,
        verifier,
    } = LoginSecrets::new_random(alloc, rng)?;
    let kept = state.clone_in(alloc)?;
    let flow = AuthenticationFlow::AuthorizationCode;
    let request = client.authorize_url(alloc, flow, move || state, move || nonce)?;
    let request = request.add_scope(Scope::new(text(alloc, "email")?))?;
    let url = logins.begin(request, verifier, Some(USER_INFO))?;
    Ok((url, kept))
}

// Whether the query's one `state` is the one that the browser's session keeps.
pub(crate) fn is_own(alloc: Global, kept: &CsrfToken, query: &[u8]) -> Result<bool, AllocError>
    ensures { IfOk result (λ own. IsTrue own ↔ (state_in (pairs query.now) ≡ Some kept.now)) }
{
    Ok(only_value(alloc, query, "state")?.as_deref() == Some(kept.secret()))
}

// The browser comes back. `kept` is the state that its session keeps: the login of another browser is refused.
fn come_back<H: SyncHttpClient>(
    alloc: Global,
    logins: &mut SiteLogins<'_>,
    kept: &CsrfToken,
    query: &[u8],
    http: &mut H,
    now: Timestamp,
) -> Result<User, LoginError<H::Error>>
    requires { H.ready http.old }
    ensures again { H.ready http.new }
    ensures own { is_spent_by result ≡ true → state_in (pairs query.now) ≡ Some kept.now }
    ensures named { OnOk result (IsSome (login_named_by logins.old.pending (pairs query.now))) }
    ensures about_the_user { IfOk result (λ user. IfSome user.user_info
        (λ found. found.standard_claims.subject ≡ subject_of user.id_token)) }
    ensures used_up { is_spent_by result ≡ true
        → IsSome (login_named_by logins.old.pending (pairs query.now)) }
    ensures unspent { is_spent_by result ≡ false
        → (http.new ≡ http.old) × (logins.new.pending ≡ logins.old.pending) }
{
    match is_own(alloc, kept, query) {
        Ok(true) => logins.callback(query, http, now),
        Ok(false) => Err(LoginError::State),
        Err(AllocError) => Err(LoginError::Memory { spent: false }),
    }
}

// The name in the user info, in no language of its own.
fn name_of(user: &User) -> Option<&EndUserName>
    ensures { option_copied result ≡ option_and_then (λ found.
        option_and_then (λ names. finite.get names None) found.standard_claims.name)
        user.now.user_info }
{
    user.user_info()?.name()?.get(None)
}

// What a site learns of a user: whom the ID token is about, and the name.
fn greeting(alloc: Global, user: &User) -> anyhow::Result<String> {
    let subject = user.claims().subject().as_str();
    match name_of(user) {
        Some(name) => Ok(format!(in alloc; "{subject} is signed in: {}", name.as_str())?),
        None => Ok(format!(in alloc; "{subject} is signed in")?),
    }
}

// What a site says to who isn't signed in. `LoginError` says why.
fn said<E>(refusal: &LoginError<E>) -> &'static str {
    match refusal {
        LoginError::State => "not signed in: this browser began no such login",
        _ => "not signed in",
    }
}

// Opens the session of a user who has just signed in, and says who that is.
fn welcome(
    alloc: Global,
    sessions: &mut SiteSessions<'_>,
    visit: &Visit,
    now: Timestamp,
) -> anyhow::Result<String>
    ensures found { OnOk result (IsSome
        (session_at sessions.new.kept.sessions visit.now.id now.nanosecond)) }
    ensures stays { OnErr result (sessions.new ≡ sessions.old) }
{
    let line = greeting(alloc, &visit.user)?;
    let end = now.checked_add(Duration::from_secs(LENGTH))?;
    open(alloc, sessions, visit, end, now)?;
    Ok(line)
}

// Puts a user into the session, in the place of any other, under a new id.
fn admit<R: Rng>(
    alloc: Global,
    sessions: &mut SiteSessions<'_>,
    session: &mut Session,
    user: User,
    rng: &mut R,
    now: Timestamp,
) -> anyhow::Result<String>
    ensures user { OnOk result (IsSomeAnd session.new.visit (λ visit. visit.user ≡ user)) }
    ensures id { OnOk result (IsSomeAnd session.new.visit
        (λ visit. visit.id ≡ random_text 16 (R.stream rng.old))) }
    ensures found { OnOk result (IsSomeAnd session.new.visit (λ visit.
        IsSome (session_at sessions.new.kept.sessions visit.id now.nanosecond))) }
    ensures nobody { OnErr result (session.new.visit ≡ None) }
{
    drop(end(sessions, session));
    let visit = Visit::new(alloc, user, rng)?;
    match welcome(alloc, sessions, &visit, now) {
        Ok(line) => {
            session.visit = Some(visit);
            Ok(line)
        }
        Err(error) => {
            drop(visit);
            Err(error)
        }
    }
}

// What it makes of the reply to a callback.
fn admit_any<E: Drop, R: Rng>(
    alloc: Global,
    sessions: &mut SiteSessions<'_>,
    session: &mut Session,
    reply: Result<User, LoginError<E>>,
    rng: &mut R,
    now: Timestamp,
) -> anyhow::Result<String> {
    match reply {
        Ok(user) => admit(alloc, sessions, session, user, rng, now),
        Err(refusal) => {
            let line = said(&refusal);
            drop(refusal);
            text(alloc, line)
        }
    }
}

// What it answers the browser that comes back: the state counts until its login is gone, and no longer.
fn answered<H: SyncHttpClient<Error: Drop>, R: Rng>(
    alloc: Global,
    stores: &mut Stores<'_>,
    session: &mut Session,
    query: &[u8],
    rng: &mut R,
    http: &mut H,
    now: Timestamp,
) -> anyhow::Result<String>
    requires { H.ready http.old }
    ensures { H.ready http.new }
{
    let Some(kept) = &session.login else {
        return text(alloc, "not signed in: this browser began no login");
    };
    let reply = come_back(alloc, &mut stores.logins, kept, query, http, now);
    session.forget_login(&reply);
    admit_any(alloc, &mut stores.sessions, session, reply, rng, now)
}

// A browser comes back.
fn answer<H: SyncHttpClient<Error: Drop>, R: Rng>(
    rt: &impl Print,
    alloc: Global,
    stores: &mut Stores<'_>,
    session: &mut Session,
    query: &str,
    rng: &mut R,
    http: &mut H,
    now: Timestamp,
) -> anyhow::Result<()>
    requires { H.ready http.old }
    ensures { H.ready http.new }
{
    let line = answered(alloc, stores, session, query.as_bytes(), rng, http, now)?;
    println!(rt; "{line}")?;
    Ok(())
}

// Sends a browser to the provider. Its session keeps the state. The URL is printed for the reader of the example: a
// site prints none, since it holds the state and the nonce.
fn send<'c, R: Rng>(
    rt: &impl Print,
    alloc: Global,
    client: &'c LoginClient,
    logins: &mut SiteLogins<'c>,
    rng: &mut R,
    session: &mut Session,
) -> anyhow::Result<()> {
    let (url, kept) = begin(alloc, client, logins, rng)?;
    session.login = Some(kept);
    println!(rt; "{url}")?;
    Ok(())
}

/// The site's clients, made once, and its provider's key.
#[derive(Drop)]
pub(crate) struct Site {
    // That of the logins, which refreshes too.
    pub(crate) client: LoginClient,
    // The one that revokes.
    pub(crate) revocation: RevocationClient,
    // By what the provider's logout tokens are judged.
    pub(crate) logout_key: LogoutKey,
}

/// What the site keeps of all browsers together.
#[derive(Drop)]
struct Stores<'c> {
    logins: SiteLogins<'c>,
    sessions: SiteSessions<'c>,
}

// How long a session lasts, in seconds, where nothing ends it before.
const LENGTH: u64 = 28_800;

/// The sessions of two browsers.
#[derive(Drop)]
pub(crate) struct Browsers {
    pub(crate) first: Session,
    pub(crate) second: Session,
}

/// The queries with which browsers come to the site.
#[derive(Drop)]
pub(crate) struct Queries {
    // The callbacks of the two logins.
    pub(crate) first: String,
    pub(crate) second: String,
    // One that somebody else made, at the page behind the logout.
    pub(crate) forged: String,
    // The return from the provider's logout.
    pub(crate) signed_out: String,
    // The callback of the second user's next login.
    pub(crate) again: String,
    // What the provider posts to the page for logout tokens.
    pub(crate) posted: String,
}

// Two browsers begin. The second one comes back with the query of the first one's callback, and then each with its own.
fn sign_in<'c, H: SyncHttpClient<Error: Drop>, R: Rng>(
    rt: &impl Print,
    alloc: Global,
    client: &'c LoginClient,
    stores: &mut Stores<'c>,
    rng: &mut R,
    queries: &Queries,
    browsers: &mut Browsers,
    http: &mut H,
    now: Timestamp,
) -> anyhow::Result<()>
    requires { H.ready http.old }
    ensures { H.ready http.new }
{
    let (first, second) = (&mut browsers.first, &mut browsers.second);
    let (own, others) = (queries.second.as_str(), queries.first.as_str());
    send(rt, alloc, client, &mut stores.logins, rng, first)?;
    send(rt, alloc, client, &mut stores.logins, rng, second)?;
    answer(rt, alloc, stores, second, others, rng, http, now)?;
    answer(rt, alloc, stores, first, others, rng, http, now)?;
    answer(rt, alloc, stores, second, own, rng, http, now)
}

// The second user signs in again. The provider ends that session, and its token counts once.
fn sign_in_again<'c, H: SyncHttpClient<Error: Drop>, R: Rng>(
    rt: &impl Print,
    alloc: Global,
    site: &'c Site,
    stores: &mut Stores<'c>,
    rng: &mut R,
    queries: &Queries,
    session: &mut Session,
    http: &mut H,
    now: Timestamp,
) -> anyhow::Result<()>
    requires { H.ready http.old }
{
    let (again, posted) = (queries.again.as_str(), queries.posted.as_str());
    send(rt, alloc, &site.client, &mut stores.logins, rng, session)?;
    answer(rt, alloc, stores, session, again, rng, http, now)?;
    answer_post(rt, alloc, &mut stores.sessions, posted, now)?;
    answer_post(rt, alloc, &mut stores.sessions, posted, now)?;
    leave(
        rt,
        alloc,
        site,
        &mut stores.sessions,
        rng,
        session,
        http,
        now,
    )
}

// From signing in to signing out, at one moment.
fn stay<'c, H: SyncHttpClient<Error: Drop>, R: Rng>(
    rt: &impl Print,
    alloc: Global,
    site: &'c Site,
    stores: &mut Stores<'c>,
    rng: &mut R,
    queries: &Queries,
    browsers: &mut Browsers,
    http: &mut H,
) -> anyhow::Result<()>
    requires { H.ready http.old }
{
    let now = Timestamp::from_second(1000)?;
    let client = &site.client;
    sign_in(rt, alloc, client, stores, rng, queries, browsers, http, now)?;
    visits(
        rt,
        alloc,
        site,
        &mut stores.sessions,
        rng,
        queries,
        browsers,
        http,
        now,
    )?;
    let second = &mut browsers.second;
    sign_in_again(rt, alloc, site, stores, rng, queries, second, http, now)
}

fn new_site(alloc: Global) -> anyhow::Result<Site> {
    let logout_key = logout_key(alloc)?;
    let client = client(alloc)?;
    match revocation_client(alloc) {
        Ok(revocation) => Ok(Site {
            client,
            revocation,
            logout_key,
        }),
        Err(error) => {
            drop(client);
            Err(error)
        }
    }
}

// The site's stores, and two browsers.
fn serve<H: SyncHttpClient<Error: Drop>, R: Rng>(
    rt: &impl Print,
    alloc: Global,
    site: &Site,
    rng: &mut R,
    queries: &Queries,
    http: &mut H,
) -> anyhow::Result<()>
    requires { H.ready http.old }
{
    let mut stores = Stores {
        logins: Logins::new(alloc, &site.client)?,
        sessions: new_sessions(alloc, site),
    };
    let mut browsers = Browsers {
        first: Session::new(),
        second: Session::new(),
    };
    let stayed = stay(
        rt,
        alloc,
        site,
        &mut stores,
        rng,
        queries,
        &mut browsers,
        http,
    );
    drop(browsers);
    drop(stores);
    stayed
}

// A line of the input.
fn line(rt: &impl Input, alloc: Global) -> anyhow::Result<String> {
    let mut line = String::new(alloc);
    let _ = rt.read_line(&mut line)?;
    Ok(String::from_str(alloc, line.as_str().trim())?)
}

fn read_queries(rt: &impl Input, alloc: Global) -> anyhow::Result<Queries> {
    Ok(Queries {
        first: line(rt, alloc)?,
        second: line(rt, alloc)?,
        forged: line(rt, alloc)?,
        signed_out: line(rt, alloc)?,
        again: line(rt, alloc)?,
        posted: line(rt, alloc)?,
    })
}

fn main(rt: HostRuntime) -> anyhow::Result<()> {
    let alloc = rt.alloc();
    let queries = read_queries(&rt, alloc)?;
    let mut http = Recorded::new(alloc, answers(alloc)?);
    // This generator can be guessed. A site takes one for secrets: `StdRng` of the kit's `rand`, by `make_rng(&rt)`.
    let mut rng = Pcg32::new(42, 54);
    let site = new_site(alloc)?;
    let served = serve(&rt, alloc, &site, &mut rng, &queries, &mut http);
    drop(site);
    served?;
    print_requests(&rt, &http)
}
