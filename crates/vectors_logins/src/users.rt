//! Users of a subject, who are signed in by a whole login over a provider in memory.

use case_lines::{CaseError, url_of};
use jiff::Timestamp;
use oidc_claims::{AllOtherClaims, EmptyAdditionalClaims, StandardClaims};
use oidc_client::{AuthenticationFlow, Client, ProviderMetadata};
use oidc_keys::{CoreHmacKey, CoreJsonWebKey};
use oidc_login::{LoginClient, Logins, SignedIn};
use oidc_oauth2::{Answer, Body, HttpResponse, Recorded};
use oidc_tokens::{CoreIdToken, CoreIdTokenClaims, IdTokenClaims};
use oidc_types::{
    Audience, ClientId, ClientSecret, CoreGenderClaim, CoreJwsSigningAlgorithm, CsrfToken,
    IssuerUrl, Nonce, PkceCodeVerifier, SubjectIdentifier,
};
use oidc_user_info::EmptyAdditionalProviderMetadata;
use std::alloc::Global;

/// Who is signed in.
pub(crate) type User = SignedIn<AllOtherClaims, CoreGenderClaim>;

type Metadata = ProviderMetadata<EmptyAdditionalProviderMetadata, CoreJsonWebKey>;

// A moment of whole seconds.
fn at_second(second: i64) -> Result<Timestamp, CaseError> {
    Timestamp::from_second(second).map_err(|_| CaseError::NoCase)
}

fn client(alloc: Global) -> Result<LoginClient, CaseError> {
    let algorithms = [CoreJwsSigningAlgorithm::HmacSha256].to_vec(alloc)?;
    let metadata = Metadata::new(
        alloc,
        url_of(alloc, "https://example")?,
        url_of(alloc, "https://example/authorize")?,
        url_of(alloc, "https://example/keys")?,
        algorithms,
        EmptyAdditionalProviderMetadata {},
    )
    .set_token_endpoint(Some(url_of(alloc, "https://example/token")?));
    let id = ClientId::new(String::from_str(alloc, "aaa")?);
    let secret = ClientSecret::new(String::from_str(alloc, "bbb")?);
    Ok(Client::from_provider_metadata(metadata, id, Some(secret)))
}

// The text of an ID token of this subject.
fn token(alloc: Global, subject: &str) -> Result<String, CaseError> {
    let issuer: IssuerUrl = url_of(alloc, "https://example")?;
    let mut audiences = Vec::new(alloc);
    audiences.push(Audience::new(String::from_str(alloc, "aaa")?))?;
    let claims: CoreIdTokenClaims = IdTokenClaims::new(
        issuer,
        audiences,
        at_second(2000)?,
        at_second(900)?,
        StandardClaims::new(SubjectIdentifier::new(String::from_str(alloc, subject)?)),
        EmptyAdditionalClaims {},
    );
    let claims = claims.set_nonce(Some(Nonce::new(String::from_str(alloc, "n")?)));
    let key = CoreHmacKey::new(Vec::from_slice(alloc, b"bbb")?);
    match CoreIdToken::new(
        alloc,
        claims,
        &key,
        CoreJwsSigningAlgorithm::HmacSha256,
        None,
        None,
    ) {
        Ok(token) => Ok(String::from_str(alloc, token.token().as_str())?),
        Err(_) => Err(CaseError::Memory),
    }
}

// The response of the token endpoint, with an ID token of this subject.
fn response(alloc: Global, subject: &str) -> Result<HttpResponse, CaseError> {
    let token = token(alloc, subject)?;
    let body = format!(in alloc;
        "{{\"access_token\":\"a\",\"token_type\":\"Bearer\",\"id_token\":\"{token}\"}}"
    )?;
    Ok(http::Response::new(alloc, Body::new(body.into_bytes())))
}

/// A user of this subject.
pub(crate) fn user_of(alloc: Global, subject: &str) -> Result<User, CaseError> {
    let client = client(alloc)?;
    let user = user_at(alloc, &client, subject);
    drop(client);
    user
}

fn user_at(alloc: Global, client: &LoginClient, subject: &str) -> Result<User, CaseError> {
    let mut logins = Logins::new(alloc, client).map_err(|_| CaseError::NoCase)?;
    let state = CsrfToken::new(String::from_str(alloc, "s")?);
    let nonce = Nonce::new(String::from_str(alloc, "n")?);
    let flow = AuthenticationFlow::AuthorizationCode;
    let request = client.authorize_url(alloc, flow, move || state, move || nonce)?;
    let verifier = "dBjftJeZ4CVP-mB92K27uhbUJU1p1r_wW1gFWFOEjXk";
    let verifier = PkceCodeVerifier::new(String::from_str(alloc, verifier)?);
    logins
        .begin(request, verifier, None)
        .map_err(|_| CaseError::NoCase)?;
    let mut answers = Vec::new(alloc);
    answers.push(Answer::Response(response(alloc, subject)?))?;
    let mut http = Recorded::new(alloc, answers);
    let query = b"code=c&state=s".as_slice();
    logins
        .callback(query, &mut http, at_second(1000)?)
        .map_err(|_| CaseError::NoCase)
}
