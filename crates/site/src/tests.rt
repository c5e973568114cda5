//! The site over a provider double: browsers sign in without a provider, each by its own login alone.

use crate::keep::new_sessions;
use crate::provider::text;
use crate::session::Session;
use crate::{Site, SiteLogins, Stores, answered, begin, new_site};
use jiff::Timestamp;
use oidc::core_types::CoreGenderClaim;
use oidc::login::{LoginClient, Logins};
use oidc::{
    AccessToken, AllOtherClaims, AuthorizationCode, ClientId, ClientSecret, IdTokenClaims,
    IssuerUrl, RedirectUrl, StandardClaims, SubjectIdentifier, TokenUrl, UserInfoClaims,
    UserInfoUrl,
};
use oidc_claims::AdditionalClaims;
use oidc_provider::{Provider, ProviderSettings, Registration};
use rand_pcg::Pcg32;
use std::alloc::Global;
use url::Url;

type Double = Provider<AllOtherClaims, CoreGenderClaim>;

// The provider's double has the site's own settings: a login names its redirect byte for byte.
fn settings(alloc: Global) -> anyhow::Result<ProviderSettings> {
    Ok(ProviderSettings {
        issuer: IssuerUrl::new(alloc, text(alloc, "https://example")?)?,
        token: TokenUrl::new(alloc, text(alloc, "https://example/token")?)?,
        user_info: UserInfoUrl::new(alloc, text(alloc, "https://example/userinfo")?)?,
    })
}

fn registrations(alloc: Global) -> anyhow::Result<Vec<Registration>> {
    let mut registrations = Vec::new(alloc);
    registrations.push(Registration {
        client_id: ClientId::new(text(alloc, "aaa")?),
        secret: ClientSecret::new(text(alloc, "bbb")?),
        redirect: RedirectUrl::new(alloc, text(alloc, "http://localhost:8888/")?)?,
    })?;
    Ok(registrations)
}

fn provider(alloc: Global) -> anyhow::Result<Double> {
    let registrations = registrations(alloc)?;
    Ok(Double::new(alloc, settings(alloc)?, registrations)?)
}

// What a user is, from second 900 to second 2000. The provider sets audience, nonce and hash.
fn claims(
    alloc: Global,
    subject: &str,
) -> anyhow::Result<IdTokenClaims<AllOtherClaims, CoreGenderClaim>> {
    let (end, issued) = (Timestamp::from_second(2000)?, Timestamp::from_second(900)?);
    let standard = StandardClaims::new(SubjectIdentifier::new(text(alloc, subject)?));
    let issuer = IssuerUrl::new(alloc, text(alloc, "https://example")?)?;
    let more = AllOtherClaims::read(alloc, &[])?;
    Ok(IdTokenClaims::new(issuer, Vec::new(alloc), end, issued, standard, more))
}

fn user_info(
    alloc: Global,
    subject: &str,
) -> anyhow::Result<UserInfoClaims<AllOtherClaims, CoreGenderClaim>> {
    let standard = StandardClaims::new(SubjectIdentifier::new(text(alloc, subject)?));
    let more = AllOtherClaims::read(alloc, &[])?;
    Ok(UserInfoClaims::new(standard, more))
}

// The provider signs this user in: the query with which the browser comes back.
fn granted(
    alloc: Global,
    provider: &mut Double,
    url: &Url,
    subject: &str,
) -> anyhow::Result<String> {
    let code = AuthorizationCode::new(format!(in alloc; "code-of-{subject}")?);
    let token = AccessToken::new(format!(in alloc; "token-of-{subject}")?);
    let claims = claims(alloc, subject)?;
    match user_info(alloc, subject) {
        Ok(user_info) => Ok(provider.authorize(url, claims, user_info, code, token)?),
        Err(error) => {
            drop(claims);
            Err(error)
        }
    }
}

// A browser is sent to the provider, where this user signs in.
fn sent<'c>(
    alloc: Global,
    client: &'c LoginClient,
    logins: &mut SiteLogins<'c>,
    rng: &mut Pcg32,
    session: &mut Session,
    provider: &mut Double,
    subject: &str,
) -> anyhow::Result<String> {
    let (url, kept) = begin(alloc, client, logins, rng)?;
    session.login = Some(kept);
    granted(alloc, provider, &url, subject)
}

// What the site answers a browser that comes back with a query.
fn back(
    alloc: Global,
    stores: &mut Stores<'_>,
    session: &mut Session,
    query: &str,
    rng: &mut Pcg32,
    provider: &mut Double,
) -> anyhow::Result<String> {
    let now = Timestamp::from_second(1000)?;
    answered(alloc, stores, session, query.as_bytes(), rng, provider, now)
}

// Two browsers are sent to the provider. The second one comes back with the first one's query, and then each with its own:
// what the site answers, and what it asked the provider at the first of these.
fn visit<'c>(
    alloc: Global,
    client: &'c LoginClient,
    stores: &mut Stores<'c>,
    provider: &mut Double,
    first: &mut Session,
    second: &mut Session,
) -> anyhow::Result<String> {
    let mut rng = Pcg32::new(42, 54);
    let own = sent(
        alloc,
        client,
        &mut stores.logins,
        &mut rng,
        first,
        provider,
        "u1",
    )?;
    let others = sent(
        alloc,
        client,
        &mut stores.logins,
        &mut rng,
        second,
        provider,
        "u2",
    )?;
    let stranger = back(alloc, stores, second, own.as_str(), &mut rng, provider)?;
    let asked = provider.requests().len();
    let one = back(alloc, stores, first, own.as_str(), &mut rng, provider)?;
    let other = back(alloc, stores, second, others.as_str(), &mut rng, provider)?;
    Ok(format!(in alloc; "{stranger}; {asked}; {one}; {other}")?)
}

fn visits(alloc: Global, site: &Site, provider: &mut Double) -> anyhow::Result<String> {
    let mut stores = Stores {
        logins: Logins::new(alloc, &site.client)?,
        sessions: new_sessions(alloc, site),
    };
    let (mut first, mut second) = (Session::new(), Session::new());
    let line = visit(
        alloc,
        &site.client,
        &mut stores,
        provider,
        &mut first,
        &mut second,
    );
    drop(first);
    drop(second);
    drop(stores);
    line
}

fn lines(alloc: Global) -> anyhow::Result<String> {
    let site = new_site(alloc)?;
    match provider(alloc) {
        Ok(mut provider) => {
            let lines = visits(alloc, &site, &mut provider);
            drop(provider);
            drop(site);
            lines
        }
        Err(error) => {
            drop(site);
            Err(error)
        }
    }
}

#[test]
fn each_browser_signs_in_by_its_own_login(rt: HostRuntime) {
    let lines = lines(rt.alloc()).expect(&rt, "memory");
    let expected =
        "not signed in: this browser began no such login; 0; u1 is signed in; u2 is signed in";
    assert_eq!(rt; lines.as_str(), expected);
}
