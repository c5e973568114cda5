//! A site that knows two things of its provider, the issuer's text and the algorithm of its ID tokens, and asks for the
//! rest, over the crate `oidc`: what its author writes.
//!
//! The site's transport, its generator and its clock are its own. Here the provider is played by `Recorded`, which answers
//! from a list, and the generator begins at a fixed number, so that the program always prints the same. The site fetches
//! the provider's document and its keys, and two browsers begin a login. Meanwhile the provider signs by a new key: the
//! first login is refused, since no key that the site has goes with its ID token. So the site fetches both again, which it
//! does at most once a minute, and its store goes on with a client of the new keys: the second login, which was pending
//! all the while, signs in. Where nothing is fetched, or what comes isn't taken, it goes on with the keys that it has.
#![tactic(auto)]

ghost use Rattle.std.specs.Prelude.{◌≡◌, ◌∷◌, [], ◌↔◌, pos, ◌+ℤ◌, ◌≤ℤ◌, true, Some, IfOk, IfErr, IsSome, IsTrue, OnOk};
ghost use Rattle.oidc_types.specs.Random.{random_text};
ghost use Rattle.oidc.specs.Pairs.{pairs};
ghost use Rattle.oidc.specs.Errors.{is_spent_by};
ghost use Rattle.oidc.specs.BeforeRequest.{login_named_by, state_in};
ghost use Rattle.oidc.specs.Changes.{IsSameClient};

mod provider;

use crate::provider::{answers, print_requests};
use jiff::Timestamp;
use oidc::core_types::{CoreGenderClaim, CoreJwsSigningAlgorithm};
use oidc::discovery::{DocumentRequest, ProviderDocument, ProviderKey};
use oidc::login::{LoginError, LoginSecrets, Logins, MetadataClient, SignedIn};
use oidc::{
    AllOtherClaims, AuthenticationFlow, ClaimsVerificationError, Client, ClientId, ClientSecret,
    CsrfToken, HttpRequest, HttpResponse, IssuerUrl, JsonWebKeySet, Recorded, RedirectUrl,
    SignatureVerificationError, SyncHttpClient,
};
use oidc_pairs::only_value;
use rand_core::Rng;
use rand_pcg::Pcg32;
use std::alloc::{AllocError, Global};
use url::Url;

// What the site knows of its provider: the issuer, as the provider's page has it, and the algorithm by which its ID
// tokens are signed. No document changes either.
const ISSUER: &str = "https://example";

const ALGORITHM: CoreJwsSigningAlgorithm = CoreJwsSigningAlgorithm::RsaSsaPkcs1V15Sha256;

type SiteClient = MetadataClient<AllOtherClaims, CoreGenderClaim, ProviderKey>;

type SiteLogins<'c> = Logins<'c, AllOtherClaims, CoreGenderClaim, ProviderKey>;

type User = SignedIn<AllOtherClaims, CoreGenderClaim>;

pub(crate) fn text(alloc: Global, text: &str) -> anyhow::Result<String> {
    Ok(String::from_str(alloc, text)?)
}

// ---- what the provider says of itself

// The answer to one request.
fn fetch<H: SyncHttpClient<Error: Drop>>(
    alloc: Global,
    http: &mut H,
    request: HttpRequest,
) -> anyhow::Result<HttpResponse>
    requires { H.ready http.old }
    ensures { H.ready http.new }
{
    match http.call(alloc, request) {
        Ok(response) => Ok(response),
        Err(error) => {
            drop(error);
            anyhow::bail!("the provider gives no answer")
        }
    }
}

// Its document.
fn fetch_document<H: SyncHttpClient<Error: Drop>>(
    alloc: Global,
    http: &mut H,
    issuer: &IssuerUrl,
) -> anyhow::Result<ProviderDocument>
    requires { H.ready http.old }
    ensures { H.ready http.new }
{
    let asked = DocumentRequest::new(issuer);
    let response = fetch(alloc, http, asked.prepare(alloc)?)?;
    Ok(asked.answer(alloc, response)?)
}

// The keys by which it signs, of the set that its document names.
fn fetch_keys<H: SyncHttpClient<Error: Drop>>(
    alloc: Global,
    http: &mut H,
    document: &ProviderDocument,
) -> anyhow::Result<JsonWebKeySet<ProviderKey>>
    requires { H.ready http.old }
    ensures { H.ready http.new }
{
    let asked = document.key_set_request();
    let response = fetch(alloc, http, asked.prepare(alloc)?)?;
    let set = asked.answer(alloc, response)?;
    Ok(set.signing_keys(alloc)?)
}

// The site as the provider knows it, which takes ID tokens by its own algorithm alone.
fn client_of(
    alloc: Global,
    document: ProviderDocument,
    keys: JsonWebKeySet<ProviderKey>,
) -> anyhow::Result<SiteClient>
    ensures pinned { IfOk result (λ client. client.allowed ≡ Some (ALGORITHM ∷ [])) }
{
    let id = ClientId::new(text(alloc, "aaa")?);
    let secret = ClientSecret::new(text(alloc, "bbb")?);
    let redirect = RedirectUrl::new(alloc, text(alloc, "http://localhost:8888/")?)?;
    let metadata = document.into_metadata(alloc, ALGORITHM, keys)?;
    let client: SiteClient = Client::from_provider_metadata(metadata, id, Some(secret));
    Ok(client.set_redirect_uri(redirect))
}

// The same of what the provider says of itself now.
fn fetch_client<H: SyncHttpClient<Error: Drop>>(
    alloc: Global,
    http: &mut H,
) -> anyhow::Result<SiteClient>
    requires { H.ready http.old }
    ensures again { H.ready http.new }
    ensures pinned { IfOk result (λ client. client.allowed ≡ Some (ALGORITHM ∷ [])) }
{
    let issuer = IssuerUrl::new(alloc, text(alloc, ISSUER)?)?;
    let document = fetch_document(alloc, http, &issuer)?;
    match fetch_keys(alloc, http, &document) {
        Ok(keys) => client_of(alloc, document, keys),
        Err(error) => {
            drop(document);
            Err(error)
        }
    }
}

// ---- logins

// The user asks to sign in: the browser is sent to the URL, and the site keeps the state in the browser's session.
fn begin<'c, R: Rng>(
    alloc: Global,
    client: &'c SiteClient,
    logins: &mut SiteLogins<'c>,
    rng: &mut R,
) -> anyhow::Result<(Url, CsrfToken)>
    ensures { IfOk result (λ sent. sent.1 ≡ random_text 16 (R.stream rng.old)) }
{
    let LoginSecrets {
        state,
        nonce,
        verifier,
    } = LoginSecrets::new_random(alloc, rng)?;
    let kept = state.clone_in(alloc)?;
    let flow = AuthenticationFlow::AuthorizationCode;
    let request = client.authorize_url(alloc, flow, move || state, move || nonce)?;
    let url = logins.begin(request, verifier, None)?;
    Ok((url, kept))
}

// The URL is printed for the reader of the example: a site prints none, since it holds the state and the nonce.
fn send<'c, R: Rng>(
    rt: &impl Print,
    alloc: Global,
    client: &'c SiteClient,
    logins: &mut SiteLogins<'c>,
    rng: &mut R,
) -> anyhow::Result<CsrfToken> {
    let (url, kept) = begin(alloc, client, logins, rng)?;
    println!(rt; "{url}")?;
    Ok(kept)
}

// Whether the query's one `state` is the one that the browser's session keeps.
fn is_own(alloc: Global, kept: &CsrfToken, query: &[u8]) -> Result<bool, AllocError>
    ensures { IfOk result (λ own. IsTrue own ↔ (state_in (pairs query.now) ≡ Some kept.now)) }
{
    Ok(only_value(alloc, query, "state")?.as_deref() == Some(kept.secret()))
}

// The browser comes back. `kept` is the state that its session keeps: the login of another browser is refused.
fn come_back<H: SyncHttpClient>(
    alloc: Global,
    logins: &mut SiteLogins<'_>,
    kept: &CsrfToken,
    query: &[u8],
    http: &mut H,
    now: Timestamp,
) -> Result<User, LoginError<H::Error>>
    requires { H.ready http.old }
    ensures again { H.ready http.new }
    ensures own { is_spent_by result ≡ true → state_in (pairs query.now) ≡ Some kept.now }
    ensures named { OnOk result (IsSome (login_named_by logins.old.pending (pairs query.now))) }
{
    match is_own(alloc, kept, query) {
        Ok(true) => logins.callback(query, http, now),
        Ok(false) => Err(LoginError::State),
        Err(AllocError) => Err(LoginError::Memory { spent: false }),
    }
}

// Whether the ID token names a key that the site hasn't: its provider may have new ones.
fn names_unknown_key<E>(refusal: &LoginError<E>) -> bool {
    let unknown = SignatureVerificationError::NoMatchingKey;
    match refusal {
        LoginError::Claims(ClaimsVerificationError::SignatureVerification(kind)) => *kind
            == unknown,
        _ => false,
    }
}

// What a site says of the reply to a callback, and whether the provider's keys may be new.
fn said<E: Drop>(
    alloc: Global,
    reply: Result<User, LoginError<E>>,
) -> anyhow::Result<(String, bool)> {
    match reply {
        Ok(user) => {
            let line = format!(in alloc; "{} is signed in", user.claims().subject().as_str());
            drop(user);
            Ok((line?, false))
        }
        Err(refusal) => {
            let new_keys = names_unknown_key(&refusal);
            drop(refusal);
            let line = if new_keys {
                "not signed in: the provider's keys may be new"
            } else {
                "not signed in"
            };
            Ok((text(alloc, line)?, new_keys))
        }
    }
}

// A browser comes back: the answer is printed. Whether the provider's keys may be new.
fn answer<H: SyncHttpClient<Error: Drop>>(
    rt: &impl Print,
    alloc: Global,
    logins: &mut SiteLogins<'_>,
    kept: &CsrfToken,
    query: &str,
    http: &mut H,
    now: Timestamp,
) -> anyhow::Result<bool>
    requires { H.ready http.old }
    ensures { H.ready http.new }
{
    let reply = come_back(alloc, logins, kept, query.as_bytes(), http, now);
    let (line, new_keys) = said(alloc, reply)?;
    println!(rt; "{line}")?;
    Ok(new_keys)
}

// ---- keys that change

// Whether a minute has gone by since the site last asked: a provider at fault may name unknown keys again and again, so
// it asks no more often.
fn may_ask(asked: Timestamp, now: Timestamp) -> bool
    ensures { IsTrue result ↔ ((asked.nanosecond +ℤ pos 60_000_000_000) ≤ℤ now.nanosecond) }
{
    asked.as_nanosecond() + 60_000_000_000 <= now.as_nanosecond()
}

// The same pending logins under the client of the new keys; where that is no longer the same client, the store as it was.
fn under_new_keys<'c, 'd>(
    logins: SiteLogins<'c>,
    client: &'d SiteClient,
) -> Result<SiteLogins<'d>, SiteLogins<'c>>
    ensures pending { let pending = logins.entry.pending in
        IfOk result (λ new. new.pending ≡ pending) }
    ensures same { OnOk result (IsSameClient logins.entry.client client.now) }
    ensures unchanged { IfErr result (λ old. old ≡ logins.entry) }
{
    match logins.with_client(client) {
        Ok(logins) => Ok(logins),
        Err((_, logins)) => Err(logins),
    }
}

// The second browser comes back: under the new keys, or else under those that its login began with.
fn answer_under<H: SyncHttpClient<Error: Drop>>(
    rt: &impl Print,
    alloc: Global,
    logins: SiteLogins<'_>,
    client: &SiteClient,
    kept: &CsrfToken,
    query: &str,
    http: &mut H,
    now: Timestamp,
) -> anyhow::Result<bool>
    requires { H.ready http.old }
    ensures { H.ready http.new }
{
    match under_new_keys(logins, client) {
        Ok(mut logins) => answer(rt, alloc, &mut logins, kept, query, http, now),
        Err(mut logins) => answer(rt, alloc, &mut logins, kept, query, http, now),
    }
}

// What the provider says of itself is fetched again. Where nothing comes that is taken, the site goes on with the keys
// that it has.
fn answer_anew<H: SyncHttpClient<Error: Drop>>(
    rt: &impl Print,
    alloc: Global,
    mut logins: SiteLogins<'_>,
    kept: &CsrfToken,
    query: &str,
    http: &mut H,
    now: Timestamp,
) -> anyhow::Result<bool>
    requires { H.ready http.old }
    ensures { H.ready http.new }
{
    match fetch_client(alloc, http) {
        Ok(client) => {
            let answered = answer_under(rt, alloc, logins, &client, kept, query, http, now);
            drop(client);
            answered
        }
        Err(error) => {
            drop(error);
            answer(rt, alloc, &mut logins, kept, query, http, now)
        }
    }
}

/// The queries with which the two browsers come back.
#[derive(Drop)]
struct Queries {
    first: String,
    second: String,
}

/// When the site asked its provider, and when the browsers come back.
#[derive(Clone, Copy)]
struct Moments {
    asked: Timestamp,
    now: Timestamp,
}

// Two browsers begin a login, and come back one after another.
fn serve<H: SyncHttpClient<Error: Drop>, R: Rng>(
    rt: &impl Print,
    alloc: Global,
    client: &SiteClient,
    rng: &mut R,
    queries: &Queries,
    http: &mut H,
    moments: Moments,
) -> anyhow::Result<bool>
    requires { H.ready http.old }
    ensures { H.ready http.new }
{
    let Moments { asked, now } = moments;
    let mut logins = Logins::new(alloc, client)?;
    let first = send(rt, alloc, client, &mut logins, rng)?;
    let second = send(rt, alloc, client, &mut logins, rng)?;
    let (query, later) = (queries.first.as_str(), queries.second.as_str());
    let new_keys = answer(rt, alloc, &mut logins, &first, query, http, now)?;
    if new_keys && may_ask(asked, now) {
        answer_anew(rt, alloc, logins, &second, later, http, now)
    } else {
        answer(rt, alloc, &mut logins, &second, later, http, now)
    }
}

// The site asks at second 900, and the browsers come back at second 1000.
fn start<H: SyncHttpClient<Error: Drop>>(
    rt: &impl Print,
    alloc: Global,
    queries: &Queries,
    http: &mut H,
) -> anyhow::Result<bool>
    requires { H.ready http.old }
    ensures { H.ready http.new }
{
    let moments = Moments {
        asked: Timestamp::from_second(900)?,
        now: Timestamp::from_second(1000)?,
    };
    let client = fetch_client(alloc, http)?;
    // This generator can be guessed. A site takes one for secrets: `StdRng` of the kit's `rand`, by `make_rng(&rt)`.
    let mut rng = Pcg32::new(42, 54);
    let served = serve(rt, alloc, &client, &mut rng, queries, http, moments);
    drop(client);
    served
}

// A line of the input.
fn line(rt: &impl Input, alloc: Global) -> anyhow::Result<String> {
    let mut line = String::new(alloc);
    let _ = rt.read_line(&mut line)?;
    Ok(String::from_str(alloc, line.as_str().trim())?)
}

fn main(rt: HostRuntime) -> anyhow::Result<()> {
    let alloc = rt.alloc();
    let queries = Queries {
        first: line(&rt, alloc)?,
        second: line(&rt, alloc)?,
    };
    let mut http = Recorded::new(alloc, answers(alloc)?);
    let _ = start(&rt, alloc, &queries, &mut http)?;
    print_requests(&rt, &http)
}
