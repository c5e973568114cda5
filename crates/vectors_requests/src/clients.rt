//! Clients of a line, each with the one endpoint that it asks.

use case_lines::{Case, CaseError, url_of};
use oidc_client::{CoreClient, CoreProviderMetadata};
use oidc_keys::JsonWebKeySet;
use oidc_oauth2::AuthType;
use oidc_types::{
    ClientId, ClientSecret, DeviceAuthorizationUrl, EndpointMaybeSet, EndpointNotSet, EndpointSet,
    IntrospectionUrl, IssuerUrl, RevocationUrl, TokenUrl,
};
use oidc_user_info::EmptyAdditionalProviderMetadata;
use std::alloc::Global;

/// A client without endpoints.
type PlainClient = CoreClient;

/// A client whose token endpoint may be set: it is made of what its provider says of itself.
pub(crate) type MetadataClient = CoreClient<
    EndpointSet,
    EndpointNotSet,
    EndpointNotSet,
    EndpointNotSet,
    EndpointMaybeSet,
    EndpointMaybeSet,
>;

/// A client with a token endpoint.
pub(crate) type TokenClient = CoreClient<
    EndpointNotSet,
    EndpointNotSet,
    EndpointNotSet,
    EndpointNotSet,
    EndpointSet,
    EndpointNotSet,
>;

/// A client with a device authorization endpoint.
pub(crate) type DeviceClient = CoreClient<EndpointNotSet, EndpointSet>;

/// A client with an introspection endpoint.
pub(crate) type IntrospectionClient = CoreClient<EndpointNotSet, EndpointNotSet, EndpointSet>;

/// A client with a revocation endpoint.
pub(crate) type RevocationClient = CoreClient<
    EndpointNotSet,
    EndpointNotSet,
    EndpointNotSet,
    EndpointSet,
>;

// A value, and the one that came beside it. Where none came the first is let go here, by one call.
fn beside<A: Drop, B, E>(first: A, second: Result<B, E>) -> Result<(A, B), E> {
    match second {
        Ok(second) => Ok((first, second)),
        Err(error) => {
            drop(first);
            Err(error)
        }
    }
}

// ---- what a line says of a client

fn auth_type_of(text: &str) -> Result<AuthType, CaseError> {
    match text {
        "basic" => Ok(AuthType::BasicAuth),
        "body" => Ok(AuthType::RequestBody),
        _ => Err(CaseError::NoCase),
    }
}

// Its ID and its secret, where it has one.
fn credentials_in(
    alloc: Global,
    case: &Case,
) -> Result<(ClientId, Option<ClientSecret>), CaseError> {
    let id = ClientId::new(String::from_str(alloc, case.value("id"))?);
    match case.optional("secret") {
        Some(secret) => Ok((
            id,
            Some(ClientSecret::new(String::from_str(alloc, secret)?)),
        )),
        None => Ok((id, None)),
    }
}

fn token_endpoint_in(alloc: Global, case: &Case) -> Result<Option<TokenUrl>, CaseError> {
    match case.optional("endpoint") {
        Some(endpoint) => Ok(Some(url_of(alloc, endpoint)?)),
        None => Ok(None),
    }
}

// ---- a client that is made of its provider's metadata

// What a provider says of itself that names no endpoint but that for authorization.
fn provider_metadata(alloc: Global) -> Result<CoreProviderMetadata, CaseError> {
    let issuer: IssuerUrl = url_of(alloc, "https://example")?;
    let with_auth = beside(issuer, url_of(alloc, "https://example/authorize"))?;
    let ((issuer, auth), keys) = beside(with_auth, url_of(alloc, "https://example/keys"))?;
    let more = EmptyAdditionalProviderMetadata {};
    Ok(CoreProviderMetadata::new(alloc, issuer, auth, keys, Vec::new(alloc), more))
}

/// The client of a line whose token endpoint is that of the line, where it has one.
pub(crate) fn metadata_client(alloc: Global, case: &Case) -> Result<MetadataClient, CaseError> {
    let auth_type = auth_type_of(case.value("auth"))?;
    let endpoint = token_endpoint_in(alloc, case)?;
    let own = beside(endpoint, credentials_in(alloc, case))?;
    let ((endpoint, (id, secret)), metadata) = beside(own, provider_metadata(alloc))?;
    let metadata = metadata.set_token_endpoint(endpoint);
    let client = MetadataClient::from_provider_metadata(metadata, id, secret);
    Ok(client.set_auth_type(auth_type))
}

// ---- clients whose endpoint is set

fn with_secret(client: PlainClient, secret: Option<ClientSecret>) -> PlainClient {
    match secret {
        Some(secret) => client.set_client_secret(secret),
        None => client,
    }
}

fn plain_client(alloc: Global, case: &Case) -> Result<PlainClient, CaseError> {
    let auth_type = auth_type_of(case.value("auth"))?;
    let issuer: IssuerUrl = url_of(alloc, "https://example")?;
    let (issuer, (id, secret)) = beside(issuer, credentials_in(alloc, case))?;
    let keys = JsonWebKeySet::new(Vec::new(alloc));
    let client = CoreClient::new(id, issuer, keys).set_auth_type(auth_type);
    Ok(with_secret(client, secret))
}

/// The client of a line whose endpoint is that for tokens.
pub(crate) fn token_client(alloc: Global, case: &Case) -> Result<TokenClient, CaseError> {
    let endpoint: TokenUrl = url_of(alloc, case.value("endpoint"))?;
    let (endpoint, client) = beside(endpoint, plain_client(alloc, case))?;
    Ok(client.set_token_uri(endpoint))
}

/// The client of a line whose endpoint is that for introspection.
pub(crate) fn introspection_client(
    alloc: Global,
    case: &Case,
) -> Result<IntrospectionClient, CaseError> {
    let endpoint: IntrospectionUrl = url_of(alloc, case.value("endpoint"))?;
    let (endpoint, client) = beside(endpoint, plain_client(alloc, case))?;
    Ok(client.set_introspection_url(endpoint))
}

/// The client of a line whose endpoint is that for revocation.
pub(crate) fn revocation_client(alloc: Global, case: &Case) -> Result<RevocationClient, CaseError> {
    let endpoint: RevocationUrl = url_of(alloc, case.value("endpoint"))?;
    let (endpoint, client) = beside(endpoint, plain_client(alloc, case))?;
    Ok(client.set_revocation_url(endpoint))
}

/// The client of a line whose endpoint is that for device authorization, with each switch of the scope `openid`.
pub(crate) fn device_client(alloc: Global, case: &Case) -> Result<DeviceClient, CaseError> {
    let endpoint: DeviceAuthorizationUrl = url_of(alloc, case.value("endpoint"))?;
    let (endpoint, client) = beside(endpoint, switched_client(alloc, case))?;
    Ok(client.set_device_authorization_url(endpoint))
}

fn switched_client(alloc: Global, case: &Case) -> Result<PlainClient, CaseError> {
    let mut client = plain_client(alloc, case)?;
    for pair in case.pairs() {
        if pair.name() == "openid" {
            client = switched(client, pair.value())?;
        }
    }
    Ok(client)
}

fn switched(client: PlainClient, switch: &str) -> Result<PlainClient, CaseError> {
    match switch {
        "on" => Ok(client.enable_openid_scope()),
        "off" => Ok(client.disable_openid_scope()),
        _ => {
            drop(client);
            Err(CaseError::NoCase)
        }
    }
}
