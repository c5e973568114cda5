//! The metadata of a provider, under the one algorithm that a site pins.

ghost use Rattle.std.specs.Prelude.{◌≡◌, ◌∷◌, [], false, Err, IfOk};
ghost use Rattle.oidc_discovery.specs.Pinned as spec;

use crate::documents::ProviderDocument;
use crate::errors::PinError;
use crate::metadata::Metadata;
use oidc_client::ProviderMetadata;
use oidc_keys::JsonWebKeySet;
use oidc_rsa::ProviderKey;
use oidc_types::CoreJwsSigningAlgorithm;
use oidc_user_info::{EmptyAdditionalProviderMetadata, LogoutProviderMetadata};
use std::alloc::{AllocError, Global};

/// The metadata of a provider that was asked, with the endpoint where its users sign out.
pub type FetchedMetadata = ProviderMetadata<
    LogoutProviderMetadata<EmptyAdditionalProviderMetadata>,
    ProviderKey,
>;

// The list of one algorithm.
fn alone(
    alloc: Global,
    algorithm: CoreJwsSigningAlgorithm,
) -> Result<Vec<CoreJwsSigningAlgorithm>, AllocError>
    ensures { IfOk result (λ list. list.items ≡ algorithm ∷ []) }
{
    let mut list = Vec::with_capacity(alloc, 1)?;
    list.push(algorithm)?;
    Ok(list)
}

// The metadata with this list of algorithms.
fn metadata_with(
    alloc: Global,
    said: Metadata,
    algorithms: Vec<CoreJwsSigningAlgorithm>,
    keys: JsonWebKeySet<ProviderKey>,
) -> FetchedMetadata
    ensures { result ≡ spec.metadata_with said algorithms.items keys }
{
    let logout = LogoutProviderMetadata {
        end_session_endpoint: said.end_session_endpoint,
        additional_metadata: EmptyAdditionalProviderMetadata {},
    };
    let needed = said.needed;
    ProviderMetadata::new(
        alloc,
        needed.issuer,
        needed.authorization_endpoint,
        needed.jwks_uri,
        algorithms,
        logout,
    )
    .set_token_endpoint(said.token_endpoint)
    .set_userinfo_endpoint(said.userinfo_endpoint)
    .set_jwks(keys)
}

impl ProviderDocument {
    /// The metadata of a provider with these keys, that a client is made of
    /// (`Client::from_provider_metadata`). The client allows ID tokens by `algorithm`, and by no other one that the
    /// document lists. The keys are those that [`ProviderDocument::key_set_request`] asks for. `NotListed` exactly
    /// where the document doesn't list the algorithm. A client that pins `none` accepts no ID token.
    pub fn into_metadata(
        self,
        alloc: Global,
        algorithm: CoreJwsSigningAlgorithm,
        keys: JsonWebKeySet<ProviderKey>,
    ) -> Result<FetchedMetadata, PinError>
        ensures metadata { spec.UnlessMemory result (spec.pinned self algorithm keys ≡ result) }
        ensures not_listed { result ≡ Err PinError.NotListed → spec.lists self algorithm ≡ false }
        ensures refused { spec.lists self algorithm ≡ false → result ≡ Err PinError.NotListed }
        // Whatever the document lists.
        ensures alone { IfOk result (λ made. made.signing_algorithms ≡ algorithm ∷ []) }
    {
        if !self.lists(algorithm) {
            return Err(PinError::NotListed);
        }
        match alone(alloc, algorithm) {
            Ok(algorithms) => Ok(metadata_with(alloc, self.said, algorithms, keys)),
            Err(AllocError) => Err(PinError::Memory),
        }
    }
}
