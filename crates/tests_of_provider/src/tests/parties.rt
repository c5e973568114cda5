//! Clients, doubles of their providers, and logins between them, made of texts. Each provider stands at an origin of its own.
//! The verifier is that of RFC 7636, appendix B.

use crate::literals::{Claims, Double, Info, Metadata, OwnClient, OwnLogins, User};
use jiff::Timestamp;
use oidc_claims::{EmptyAdditionalClaims, StandardClaims};
use oidc_client::{AuthenticationFlow, Client, CoreAuthenticationFlow};
use oidc_login::{LoginError, UserInfoDemand};
use oidc_oauth2::RequestTokenError;
use oidc_provider::{ProviderSettings, Registration, call_back};
use oidc_types::{
    AccessToken, AuthorizationCode, ClientId, ClientSecret, CoreJwsSigningAlgorithm, CsrfToken,
    Marker, Nonce, PkceCodeVerifier, RedirectUrl, SubjectIdentifier, UrlText,
};
use oidc_user_info::{EmptyAdditionalProviderMetadata, UserInfoResponseType};
use std::alloc::Global;
use std::convert::Infallible;
use std::process::Abort;
use url::Url;

fn text(rt: &impl Abort, alloc: Global, text: &str) -> String {
    String::from_str(alloc, text).expect(rt, "memory")
}

// A text of a login's own, by its number.
fn numbered(rt: &impl Abort, alloc: Global, word: &str, number: usize) -> String {
    format!(in alloc; "{word}{number}").expect(rt, "memory")
}

// An address of an origin.
fn url<M: Marker>(rt: &impl Abort, alloc: Global, origin: &str, path: &str) -> UrlText<M> {
    let address = format!(in alloc; "{origin}{path}").expect(rt, "memory");
    UrlText::new(alloc, address).expect(rt, "a URL")
}

fn redirect(rt: &impl Abort, alloc: Global) -> RedirectUrl {
    url(rt, alloc, "https://site", "/back")
}

// ---- a provider, and a client of it

fn registrations(rt: &impl Abort, alloc: Global, secret: &str) -> Vec<Registration> {
    let mut registrations = Vec::new(alloc);
    registrations
        .push(Registration {
            client_id: ClientId::new(text(rt, alloc, "aaa")),
            secret: ClientSecret::new(text(rt, alloc, secret)),
            redirect: redirect(rt, alloc),
        })
        .expect(rt, "memory");
    registrations
}

/// The double of the provider at this origin, which knows the client `aaa` by this secret.
pub(crate) fn provider_at(rt: &impl Abort, alloc: Global, origin: &str, secret: &str) -> Double {
    let settings = ProviderSettings {
        issuer: url(rt, alloc, origin, ""),
        token: url(rt, alloc, origin, "/token"),
        user_info: url(rt, alloc, origin, "/info"),
    };
    Double::new(alloc, settings, registrations(rt, alloc, secret)).expect(rt, "one client")
}

fn metadata(rt: &impl Abort, alloc: Global, origin: &str) -> Metadata {
    let algorithms = [CoreJwsSigningAlgorithm::HmacSha256].to_vec(alloc);
    Metadata::new(
        alloc,
        url(rt, alloc, origin, ""),
        url(rt, alloc, origin, "/authorize"),
        url(rt, alloc, origin, "/keys"),
        algorithms.expect(rt, "memory"),
        EmptyAdditionalProviderMetadata {},
    )
    .set_token_endpoint(Some(url(rt, alloc, origin, "/token")))
    .set_userinfo_endpoint(Some(url(rt, alloc, origin, "/info")))
}

/// The client `aaa` of that provider.
pub(crate) fn client_of(rt: &impl Abort, alloc: Global, origin: &str, secret: &str) -> OwnClient {
    let id = ClientId::new(text(rt, alloc, "aaa"));
    let secret = ClientSecret::new(text(rt, alloc, secret));
    Client::from_provider_metadata(metadata(rt, alloc, origin), id, Some(secret)).set_redirect_uri(
        redirect(rt, alloc),
    )
}

// ---- a login, which has a number

/// Begins it, with user info demanded: the URL that its user is sent to.
pub(crate) fn begin<'c>(
    rt: &impl Abort,
    alloc: Global,
    client: &'c OwnClient,
    logins: &mut OwnLogins<'c>,
    number: usize,
) -> Url {
    let state = CsrfToken::new(numbered(rt, alloc, "s", number));
    let nonce = Nonce::new(numbered(rt, alloc, "n", number));
    let flow: CoreAuthenticationFlow = AuthenticationFlow::AuthorizationCode;
    let request = client
        .authorize_url(alloc, flow, move || state, move || nonce)
        .expect(rt, "memory");
    let verifier = text(rt, alloc, "dBjftJeZ4CVP-mB92K27uhbUJU1p1r_wW1gFWFOEjXk");
    let demand = UserInfoDemand {
        signed: false,
        issuer_match: false,
        audience_match: false,
        response_type: UserInfoResponseType::Json,
    };
    logins
        .begin(request, PkceCodeVerifier::new(verifier), Some(demand))
        .expect(rt, "a login")
}

fn at(rt: &impl Abort, second: i64) -> Timestamp {
    Timestamp::from_second(second).expect(rt, "a moment")
}

fn subject(rt: &impl Abort, alloc: Global, number: usize) -> SubjectIdentifier {
    SubjectIdentifier::new(numbered(rt, alloc, "u", number))
}

// What its user is, from second 900 to second 2000. The provider names itself as issuer and the client as audience.
fn claims(rt: &impl Abort, alloc: Global, number: usize) -> Claims {
    let standard = StandardClaims::new(subject(rt, alloc, number));
    let issuer = url(rt, alloc, "https://example", "");
    let nobody = Vec::new(alloc);
    Claims::new(
        issuer,
        nobody,
        at(rt, 2000),
        at(rt, 900),
        standard,
        EmptyAdditionalClaims,
    )
}

/// Grants it to the user of its number: the query with which that user comes back.
pub(crate) fn grant(
    rt: &impl Abort,
    alloc: Global,
    provider: &mut Double,
    url: &Url,
    number: usize,
) -> String {
    let claims = claims(rt, alloc, number);
    let standard = StandardClaims::new(subject(rt, alloc, number));
    let info = Info::new(standard, EmptyAdditionalClaims);
    let code = AuthorizationCode::new(numbered(rt, alloc, "c", number));
    let token = AccessToken::new(numbered(rt, alloc, "t", number));
    provider
        .authorize(url, claims, info, code, token)
        .expect(rt, "a grant")
}

// Who is signed in: the subjects of the ID token and of user info.
fn subjects(rt: &impl Abort, alloc: Global, user: &User) -> String {
    let subject = user.claims().subject().as_str();
    let info = user.user_info().expect(rt, "user info").subject().as_str();
    format!(in alloc; "{subject} {info}").expect(rt, "memory")
}

// Why nobody is.
fn refusal(error: &LoginError<Infallible>) -> &'static str {
    match error {
        LoginError::State => "no such login",
        LoginError::Token(RequestTokenError::ServerResponse(_)) => "refused by the provider",
        _ => "refused otherwise",
    }
}

/// A user comes back with a query, at second 1000: who is signed in, or why nobody is.
pub(crate) fn come_back(
    rt: &impl Abort,
    alloc: Global,
    provider: &mut Double,
    logins: &mut OwnLogins<'_>,
    query: &str,
) -> String {
    match call_back(provider, logins, query, at(rt, 1000)) {
        Ok(user) => subjects(rt, alloc, &user),
        Err(error) => text(rt, alloc, refusal(&error)),
    }
}
