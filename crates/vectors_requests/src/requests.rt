//! The requests, each by a call of its client.

use crate::asked::{Introspection, line_of, scoped_line};
use crate::clients::{
    DeviceClient, IntrospectionClient, MetadataClient, RevocationClient, device_client,
    introspection_client, metadata_client, revocation_client,
};
use case_lines::{Case, CaseError};
use oidc_members::{Members, ParseError};
use oidc_oauth2::{CoreDeviceAuthorizationResponse, CoreRevocableToken};
use oidc_types::{AccessToken, RefreshToken, ResourceOwnerPassword, ResourceOwnerUsername};
use std::alloc::{AllocError, Global};

// What a request with scopes may repeat.
const SCOPED: [&str; 3] = ["scope", "scopes", "extra"];

// ---- at a token endpoint that may be set

/// `refresh_request`
pub(crate) fn refresh_request(alloc: Global, case: &Case) -> Result<String, CaseError> {
    case.check_all(&["id", "auth", "token"], &["endpoint", "secret"], &SCOPED)?;
    let client = metadata_client(alloc, case)?;
    let line = refresh_line(alloc, &client, case);
    drop(client);
    line
}

fn refresh_line(alloc: Global, client: &MetadataClient, case: &Case) -> Result<String, CaseError> {
    let token = RefreshToken::new(String::from_str(alloc, case.value("token"))?);
    scoped_line(alloc, client.exchange_refresh_token(alloc, &token), case)
}

/// `password_request`
pub(crate) fn password_request(alloc: Global, case: &Case) -> Result<String, CaseError> {
    let required = ["id", "auth", "username", "password"];
    case.check_all(&required, &["endpoint", "secret"], &SCOPED)?;
    let client = metadata_client(alloc, case)?;
    let line = password_line(alloc, &client, case);
    drop(client);
    line
}

fn password_line(alloc: Global, client: &MetadataClient, case: &Case) -> Result<String, CaseError> {
    let username = ResourceOwnerUsername::new(String::from_str(alloc, case.value("username"))?);
    let password = ResourceOwnerPassword::new(String::from_str(alloc, case.value("password"))?);
    scoped_line(
        alloc,
        client.exchange_password(alloc, &username, &password),
        case,
    )
}

/// `client_credentials_request`
pub(crate) fn client_credentials_request(alloc: Global, case: &Case) -> Result<String, CaseError> {
    case.check_all(&["id", "auth"], &["endpoint", "secret"], &SCOPED)?;
    let client = metadata_client(alloc, case)?;
    let line = client_credentials_line(alloc, &client, case);
    drop(client);
    line
}

fn client_credentials_line(
    alloc: Global,
    client: &MetadataClient,
    case: &Case,
) -> Result<String, CaseError> {
    scoped_line(alloc, client.exchange_client_credentials(alloc), case)
}

/// `device_token_request`
pub(crate) fn device_token_request(alloc: Global, case: &Case) -> Result<String, CaseError> {
    case.check_all(
        &["id", "auth", "response"],
        &["endpoint", "secret"],
        &["extra"],
    )?;
    let client = metadata_client(alloc, case)?;
    let line = device_token_line(alloc, &client, case);
    drop(client);
    line
}

fn device_token_line(
    alloc: Global,
    client: &MetadataClient,
    case: &Case,
) -> Result<String, CaseError> {
    let codes = device_response_in(alloc, case.value("response"))?;
    line_of(
        alloc,
        client.exchange_device_access_token(alloc, &codes),
        case,
    )
}

/// The device authorization response that a text is.
pub(crate) fn device_response_in(
    alloc: Global,
    text: &str,
) -> Result<CoreDeviceAuthorizationResponse, CaseError> {
    let read = match Members::split(alloc, text.as_bytes()) {
        Ok(members) => CoreDeviceAuthorizationResponse::read(alloc, &members),
        Err(error) => Err(error),
    };
    match read {
        Ok(response) => Ok(response),
        Err(ParseError::Refused(_)) => Err(CaseError::NoCase),
        Err(ParseError::Memory) => Err(CaseError::Memory),
    }
}

// ---- at the other endpoints

/// `device_request`
pub(crate) fn device_request(alloc: Global, case: &Case) -> Result<String, CaseError> {
    let repeated = ["scope", "scopes", "extra", "openid"];
    case.check_all(&["endpoint", "id", "auth"], &["secret"], &repeated)?;
    let client = device_client(alloc, case)?;
    let line = device_line(alloc, &client, case);
    drop(client);
    line
}

fn device_line(alloc: Global, client: &DeviceClient, case: &Case) -> Result<String, CaseError> {
    let request = client.exchange_device_code(alloc)?;
    scoped_line(alloc, Ok(request), case)
}

/// `introspection_request`
pub(crate) fn introspection_request(alloc: Global, case: &Case) -> Result<String, CaseError> {
    case.check_all(
        &["endpoint", "id", "auth", "token"],
        &["secret", "hint"],
        &["extra"],
    )?;
    let client = introspection_client(alloc, case)?;
    let line = introspection_line(alloc, &client, case);
    drop(client);
    line
}

fn introspection_line(
    alloc: Global,
    client: &IntrospectionClient,
    case: &Case,
) -> Result<String, CaseError> {
    let token = AccessToken::new(String::from_str(alloc, case.value("token"))?);
    let request = with_hint(alloc, client.introspect(alloc, &token), case)?;
    line_of(alloc, Ok(request), case)
}

fn with_hint<'a>(
    alloc: Global,
    request: Introspection<'a>,
    case: &Case,
) -> Result<Introspection<'a>, AllocError> {
    match case.optional("hint") {
        Some(hint) => Ok(request.set_token_type_hint(String::from_str(alloc, hint)?)),
        None => Ok(request),
    }
}

/// `revocation_request`
pub(crate) fn revocation_request(alloc: Global, case: &Case) -> Result<String, CaseError> {
    case.check_all(
        &["endpoint", "id", "auth", "token", "kind"],
        &["secret"],
        &["extra"],
    )?;
    let client = revocation_client(alloc, case)?;
    let line = revocation_line(alloc, &client, case);
    drop(client);
    line
}

fn revocation_line(
    alloc: Global,
    client: &RevocationClient,
    case: &Case,
) -> Result<String, CaseError> {
    let token = revocable_in(alloc, case)?;
    line_of(alloc, client.revoke_token(alloc, token), case)
}

fn revocable_in(alloc: Global, case: &Case) -> Result<CoreRevocableToken, CaseError> {
    let text = String::from_str(alloc, case.value("token"))?;
    match case.value("kind") {
        "access" => Ok(CoreRevocableToken::AccessToken(AccessToken::new(text))),
        "refresh" => Ok(CoreRevocableToken::RefreshToken(RefreshToken::new(text))),
        _ => Err(CaseError::NoCase),
    }
}
