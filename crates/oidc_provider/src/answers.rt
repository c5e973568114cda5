// Which row of the table a request falls under, and the response of each.

ghost use Rattle.std.specs.Prelude.{◌≡◌, IfOk, option_map};
ghost use Rattle.std.specs.Option.{option_copied};
ghost use Rattle.std.specs.String.{string_bytes};
ghost use Rattle.oidc_oauth2.specs.ClientAuth.{basic_credentials as credentials_of};
ghost use Rattle.oidc_oauth2.specs.Messages.{seen_response};
ghost use Rattle.oidc_oauth2.specs.Pkce.{s256};
ghost use Rattle.oidc_pairs.specs.Pairs.{pairs};
ghost use Rattle.oidc_provider.specs.Answers as spec;
ghost use Rattle.oidc_provider.specs.Rows as rows;

use crate::authorization::says;
use crate::grants::{Grant, Grants};
use crate::settings::{ProviderSettings, Registration};
use base64::engine::general_purpose::{STANDARD, URL_SAFE_NO_PAD};
use http::response::Parts;
use http::{Response, StatusCode, Version};
use http_header::{AUTHORIZATION, CONTENT_TYPE, HeaderMap, HeaderValue};
use oidc_oauth2::{Body, HttpRequest, HttpResponse};
use oidc_pairs::{BorrowedPairs, escaped_text, push_escaped};
use sha2::{Digest, Sha256};
use std::alloc::{AllocError, Global};

// ---- who asks

// The first `authorization` of a request.
fn credentials_in(request: &HttpRequest) -> Option<&HeaderValue>
    ensures { rows.bytes_of result ≡ spec.credentials_in request.now }
{
    request.headers().get(AUTHORIZATION)
}

// The Basic credentials of a client.
fn basic_credentials(alloc: Global, registration: &Registration) -> Result<String, AllocError>
    ensures { let r = registration.now in
        IfOk result (λ text. string_bytes text ≡ credentials_of r.client_id r.secret) }
{
    let mut plain = escaped_text(alloc, registration.client_id.as_str())?;
    plain.push_str(":")?;
    push_escaped(&mut plain, registration.secret.secret().as_bytes())?;
    let mut text = String::from_str(alloc, "Basic ")?;
    STANDARD.encode_string(plain.as_str().as_bytes(), &mut text)?;
    Ok(text)
}

// Whether a client authenticates so.
fn authenticates(
    alloc: Global,
    credentials: Option<&HeaderValue>,
    body: &BorrowedPairs<'_>,
    registration: &Registration,
) -> Result<bool, AllocError>
    ensures { IfOk result (λ authenticated. authenticated
        ≡ spec.authenticates_by (rows.bytes_of credentials.entry) body.now registration.now) }
{
    match credentials {
        Some(value) => {
            let own = basic_credentials(alloc, registration)?;
            Ok(value.as_bytes() == own.as_str().as_bytes())
        }
        None => Ok(
            says(body, "client_id", registration.client_id.as_str())
                && says(body, "client_secret", registration.secret.secret()),
        ),
    }
}

// Whether some client does.
fn is_authenticated(
    alloc: Global,
    credentials: Option<&HeaderValue>,
    body: &BorrowedPairs<'_>,
    registrations: &[Registration],
) -> Result<bool, AllocError>
    ensures { IfOk result (λ authenticated. authenticated
        ≡ rows.is_authenticated_by (rows.bytes_of credentials.entry) body.now registrations.now) }
{
    match registrations {
        [] => Ok(false),
        [first, later @ ..] => {
            if authenticates(alloc, credentials, body, first)? {
                return Ok(true);
            }
            is_authenticated(alloc, credentials, body, later)
        }
    }
}

// Whether the client of this ID does.
fn is_of_client(
    alloc: Global,
    credentials: Option<&HeaderValue>,
    body: &BorrowedPairs<'_>,
    registrations: &[Registration],
    id: &str,
) -> Result<bool, AllocError>
    ensures { IfOk result (λ authenticated. authenticated ≡ rows.is_of_client_by
        (rows.bytes_of credentials.entry) body.now registrations.now id.now) }
{
    match registrations {
        [] => Ok(false),
        [first, later @ ..] => {
            if first.client_id.as_str() == id && authenticates(alloc, credentials, body, first)? {
                return Ok(true);
            }
            is_of_client(alloc, credentials, body, later, id)
        }
    }
}

// ---- for what

// The S256 challenge of a text.
#[tactic(auto, unfolding(oidc_oauth2::specs::Pkce::s256))]
fn challenge_of(alloc: Global, verifier: &str) -> Result<String, AllocError>
    ensures { IfOk result (λ text. string_bytes text ≡ s256 verifier.now) }
{
    let digest = Sha256::digest(verifier.as_bytes());
    URL_SAFE_NO_PAD.encode(alloc, &digest)
}

// Whether the body has a verifier of this challenge.
fn proves(alloc: Global, body: &BorrowedPairs<'_>, challenge: &str) -> Result<bool, AllocError>
    ensures { IfOk result (λ proved. proved ≡ rows.proves_by body.now challenge.now) }
{
    match body.only("code_verifier") {
        None => Ok(false),
        Some(verifier) => {
            let made = challenge_of(alloc, verifier)?;
            Ok(made.as_str() == challenge)
        }
    }
}

// Whether a request redeems a grant.
fn may_redeem(
    alloc: Global,
    credentials: Option<&HeaderValue>,
    body: &BorrowedPairs<'_>,
    registrations: &[Registration],
    grant: &Grant,
) -> Result<bool, AllocError>
    ensures { IfOk result (λ allowed. allowed ≡ rows.may_redeem_by
        (rows.bytes_of credentials.entry) body.now registrations.now grant.now) }
{
    if grant.redeemed {
        return Ok(false);
    }
    if !is_of_client(
        alloc,
        credentials,
        body,
        registrations,
        grant.client.as_str(),
    )? {
        return Ok(false);
    }
    if !says(body, "redirect_uri", grant.redirect.as_str()) {
        return Ok(false);
    }
    proves(alloc, body, grant.challenge.as_str())
}

// The token of bearer credentials.
fn bearer_in(credentials: &HeaderValue) -> Option<&str>
    ensures { option_copied result ≡ spec.bearer_in credentials.now.bytes }
{
    match credentials.to_str() {
        Ok(text) => text.strip_prefix("Bearer "),
        Err(_) => None,
    }
}

// The redeemed grant whose access token a request bears.
fn borne_grant<'g>(grants: &'g Grants, credentials: Option<&HeaderValue>) -> Option<&'g Grant>
    ensures { option_copied result
        ≡ rows.borne_by grants.now (rows.bytes_of credentials.entry) }
{
    let token = bearer_in(credentials?)?;
    let grant = grants.of_token(token)?;
    if !grant.redeemed {
        return None;
    }
    Some(grant)
}

// ---- the rows

// A row of the table.
#[derive(Clone, Copy)]
pub(crate) enum Row<'g> {
    InvalidClient,
    UnsupportedGrantType,
    InvalidGrant,
    Tokens(&'g Grant),
    UserInfo(&'g Grant),
    Unauthorized,
    NotFound,
}

// The row of a request for tokens from a client that authenticates, for the grant of its code.
fn redeeming_row<'g>(
    alloc: Global,
    credentials: Option<&HeaderValue>,
    body: &BorrowedPairs<'_>,
    registrations: &[Registration],
    grants: &'g Grants,
) -> Result<Row<'g>, AllocError>
    ensures { IfOk result (λ row. rows.row_answer row ≡ rows.redeeming
        (rows.grant_asked_by (rows.bytes_of credentials.entry) body.now registrations.now grants.now)) }
{
    let Some(code) = body.only("code") else {
        return Ok(Row::InvalidGrant);
    };
    let Some(grant) = grants.of_code(code) else {
        return Ok(Row::InvalidGrant);
    };
    if may_redeem(alloc, credentials, body, registrations, grant)? {
        Ok(Row::Tokens(grant))
    } else {
        Ok(Row::InvalidGrant)
    }
}

// The row of a request for tokens.
fn token_row<'g>(
    alloc: Global,
    credentials: Option<&HeaderValue>,
    body: &BorrowedPairs<'_>,
    registrations: &[Registration],
    grants: &'g Grants,
) -> Result<Row<'g>, AllocError>
    ensures { IfOk result (λ row. rows.row_answer row ≡ rows.token_row_answer
        (rows.bytes_of credentials.entry) body.now registrations.now grants.now) }
{
    if !is_authenticated(alloc, credentials, body, registrations)? {
        return Ok(Row::InvalidClient);
    }
    if !says(body, "grant_type", "authorization_code") {
        return Ok(Row::UnsupportedGrantType);
    }
    redeeming_row(alloc, credentials, body, registrations, grants)
}

// The row of a request for user info.
fn info_row<'g>(grants: &'g Grants, credentials: Option<&HeaderValue>) -> Row<'g>
    ensures { rows.row_answer result
        ≡ rows.info_row_answer (rows.borne_by grants.now (rows.bytes_of credentials.entry)) }
{
    match borne_grant(grants, credentials) {
        Some(grant) => Row::UserInfo(grant),
        None => Row::Unauthorized,
    }
}

// Whether a request is a POST to the token endpoint.
fn asks_for_tokens(settings: &ProviderSettings, request: &HttpRequest) -> bool
    ensures { result ≡ rows.is_post settings.now request.now }
{
    request.method().as_str() == "POST" && request.address() == settings.token.url().as_str()
}

// Whether it is a GET of the user info endpoint.
fn asks_for_info(settings: &ProviderSettings, request: &HttpRequest) -> bool
    ensures { result ≡ rows.is_get settings.now request.now }
{
    request.method().as_str() == "GET" && request.address() == settings.user_info.as_str()
}

// The same, by the request itself.
fn posted_row<'g>(
    alloc: Global,
    credentials: Option<&HeaderValue>,
    registrations: &[Registration],
    grants: &'g Grants,
    request: &HttpRequest,
) -> Result<Row<'g>, AllocError>
    ensures { IfOk result (λ row. rows.row_answer row ≡ rows.token_row_answer
        (rows.bytes_of credentials.entry) (pairs request.now.body) registrations.now grants.now) }
{
    let body = BorrowedPairs::parse(alloc, request.body().as_slice())?;
    token_row(alloc, credentials, &body, registrations, grants)
}

// The row of a request.
pub(crate) fn row_of<'g>(
    alloc: Global,
    settings: &ProviderSettings,
    registrations: &[Registration],
    grants: &'g Grants,
    request: &HttpRequest,
) -> Result<Row<'g>, AllocError>
    ensures { let p = rows.provider_of settings.now registrations.now grants.now in
        IfOk result (λ row. rows.row_answer row ≡ spec.provider_answer p request.now) }
{
    let credentials = credentials_in(request);
    if asks_for_tokens(settings, request) {
        return posted_row(alloc, credentials, registrations, grants, request);
    }
    if asks_for_info(settings, request) {
        return Ok(info_row(grants, credentials));
    }
    Ok(Row::NotFound)
}

// ---- the responses

// A response of these parts.
fn response_with(status: StatusCode, headers: HeaderMap, body: Vec<u8>) -> HttpResponse
    ensures { seen_response result ≡ rows.seen_with status headers body.items }
{
    let head = Parts {
        status,
        version: Version::HTTP_11,
        headers,
    };
    Response::from_parts(head, Body::new(body))
}

// A response of JSON.
fn json_response(alloc: Global, status: StatusCode, body: &[u8]) -> Result<HttpResponse, AllocError>
    ensures { IfOk result (λ response. seen_response response ≡ spec.json status body.now) }
{
    let body = Vec::from_slice(alloc, body)?;
    let mut headers = HeaderMap::new(alloc);
    match headers.insert(CONTENT_TYPE, HeaderValue::from_static("application/json")) {
        Ok(_) => Ok(response_with(status, headers, body)),
        Err(_) => Err(AllocError),
    }
}

// A response without a body.
fn empty_response(alloc: Global, status: StatusCode) -> HttpResponse
    ensures { seen_response result ≡ (spec.empty status).response }
{
    response_with(status, HeaderMap::new(alloc), Vec::new(alloc))
}

// The response of a row.
pub(crate) fn response_of(alloc: Global, row: Row<'_>) -> Result<HttpResponse, AllocError>
    ensures { IfOk result (λ response. seen_response response ≡ (rows.row_answer row.entry).response) }
{
    match row {
        Row::InvalidClient => {
            let body = "{\"error\":\"invalid_client\"}";
            json_response(alloc, StatusCode::UNAUTHORIZED, body.as_bytes())
        }
        Row::UnsupportedGrantType => {
            let body = "{\"error\":\"unsupported_grant_type\"}";
            json_response(alloc, StatusCode::BAD_REQUEST, body.as_bytes())
        }
        Row::InvalidGrant => {
            let body = "{\"error\":\"invalid_grant\"}";
            json_response(alloc, StatusCode::BAD_REQUEST, body.as_bytes())
        }
        Row::Tokens(grant) => json_response(alloc, StatusCode::OK, grant.token_body.as_slice()),
        Row::UserInfo(grant) => json_response(alloc, StatusCode::OK, grant.info_body.as_slice()),
        Row::Unauthorized => Ok(empty_response(alloc, StatusCode::UNAUTHORIZED)),
        Row::NotFound => Ok(empty_response(alloc, StatusCode::NOT_FOUND)),
    }
}

// The code that a row redeems.
pub(crate) fn redeemed_of(alloc: Global, row: Row<'_>) -> Result<Option<String>, AllocError>
    ensures { IfOk result
        (λ code. option_map string_bytes code ≡ (rows.row_answer row.entry).redeems) }
{
    match row {
        Row::Tokens(grant) => Ok(Some(String::from_str(alloc, grant.code.as_str())?)),
        _ => Ok(None),
    }
}
