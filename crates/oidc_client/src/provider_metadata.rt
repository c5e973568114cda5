//! What a provider says of itself (OpenID Connect Discovery 1.0 section 3).

ghost use Rattle.std.specs.Prelude.{◌≡◌, None, []};
ghost use Rattle.std.specs.Option.{option_copied};

use oidc_keys::{CoreJsonWebKey, JsonWebKey, JsonWebKeySet};
use oidc_types::{AuthUrl, IssuerUrl, JsonWebKeySetUrl, TokenUrl, UserInfoUrl};
use oidc_user_info::{
    AdditionalProviderMetadata, EmptyAdditionalProviderMetadata, LogoutProviderMetadata,
};
use std::alloc::Global;
use std::marker::Model;

/// What a provider says of itself, with further metadata `A` and the keys that were found at its `jwks_uri`.
/// Contracts see its fields.
///
/// It has no `Debug`, since keys may be secrets.
#[derive(Drop)]
pub struct ProviderMetadata<A: AdditionalProviderMetadata, K: JsonWebKey> {
    pub(crate) issuer: IssuerUrl,
    pub(crate) authorization_endpoint: AuthUrl,
    pub(crate) token_endpoint: Option<TokenUrl>,
    pub(crate) userinfo_endpoint: Option<UserInfoUrl>,
    pub(crate) jwks_uri: JsonWebKeySetUrl,
    pub(crate) jwks: JsonWebKeySet<K>,
    pub(crate) signing_algorithms: Vec<K::SigningAlgorithm>,
    pub(crate) additional_metadata: A,
}

/// What a provider says of itself over the program's own keys, without further metadata.
pub type CoreProviderMetadata = ProviderMetadata<EmptyAdditionalProviderMetadata, CoreJsonWebKey>;

/// The same, with the endpoint where its users sign out.
pub type ProviderMetadataWithLogout = ProviderMetadata<
    LogoutProviderMetadata<EmptyAdditionalProviderMetadata>,
    CoreJsonWebKey,
>;

impl<A: AdditionalProviderMetadata, K: JsonWebKey> Model for ProviderMetadata<A, K> {
    ghost use Rattle.oidc_client.specs.ProviderMetadata.{SeenProviderMetadata};

    ghost Value = { SeenProviderMetadata A K K.SigningAlgorithm };

    ghost view = { λ p. record {
      issuer = p.issuer;
      authorization_endpoint = p.authorization_endpoint;
      token_endpoint = p.token_endpoint;
      userinfo_endpoint = p.userinfo_endpoint;
      jwks_uri = p.jwks_uri;
      jwks = p.jwks;
      signing_algorithms = p.signing_algorithms.items;
      additional_metadata = p.additional_metadata;
    } };
}

impl<A: AdditionalProviderMetadata, K: JsonWebKey> ProviderMetadata<A, K> {
    /// The metadata of a provider without token and user info endpoints, whose keys aren't known. It takes no
    /// memory.
    pub fn new(
        alloc: Global,
        issuer: IssuerUrl,
        authorization_endpoint: AuthUrl,
        jwks_uri: JsonWebKeySetUrl,
        id_token_signing_alg_values_supported: Vec<K::SigningAlgorithm>,
        additional_metadata: A,
    ) -> Self
        ensures kept { result ≡ record {
          issuer = issuer;
          authorization_endpoint = authorization_endpoint;
          token_endpoint = None;
          userinfo_endpoint = None;
          jwks_uri = jwks_uri;
          jwks = [];
          signing_algorithms = id_token_signing_alg_values_supported.items;
          additional_metadata = additional_metadata;
        } }
    {
        ProviderMetadata {
            issuer,
            authorization_endpoint,
            token_endpoint: None,
            userinfo_endpoint: None,
            jwks_uri,
            jwks: JsonWebKeySet::new(Vec::new(alloc)),
            signing_algorithms: id_token_signing_alg_values_supported,
            additional_metadata,
        }
    }

    /// The issuer.
    pub fn issuer(&self) -> &IssuerUrl
        ensures issuer { result.now ≡ self.now.issuer }
    {
        &self.issuer
    }

    /// The authorization endpoint.
    pub fn authorization_endpoint(&self) -> &AuthUrl
        ensures endpoint { result.now ≡ self.now.authorization_endpoint }
    {
        &self.authorization_endpoint
    }

    /// The token endpoint, where there is one.
    pub fn token_endpoint(&self) -> Option<&TokenUrl>
        ensures endpoint { option_copied result ≡ self.now.token_endpoint }
    {
        self.token_endpoint.as_ref()
    }

    /// With this token endpoint, or none.
    pub fn set_token_endpoint(mut self, endpoint: Option<TokenUrl>) -> Self
        ensures set { result ≡ record self { token_endpoint = endpoint } }
    {
        self.token_endpoint = endpoint;
        self
    }

    /// The user info endpoint, where there is one.
    pub fn userinfo_endpoint(&self) -> Option<&UserInfoUrl>
        ensures endpoint { option_copied result ≡ self.now.userinfo_endpoint }
    {
        self.userinfo_endpoint.as_ref()
    }

    /// With this user info endpoint, or none.
    pub fn set_userinfo_endpoint(mut self, endpoint: Option<UserInfoUrl>) -> Self
        ensures set { result ≡ record self { userinfo_endpoint = endpoint } }
    {
        self.userinfo_endpoint = endpoint;
        self
    }

    /// Where the provider's keys are found.
    pub fn jwks_uri(&self) -> &JsonWebKeySetUrl
        ensures uri { result.now ≡ self.now.jwks_uri }
    {
        &self.jwks_uri
    }

    /// The keys that were found there.
    pub fn jwks(&self) -> &JsonWebKeySet<K>
        ensures keys { result.now ≡ self.now.jwks }
    {
        &self.jwks
    }

    /// With these keys.
    pub fn set_jwks(mut self, jwks: JsonWebKeySet<K>) -> Self
        ensures set { result ≡ record self { jwks = jwks } }
    {
        self.jwks = jwks;
        self
    }

    /// The algorithms by which the provider signs ID tokens.
    pub fn id_token_signing_alg_values_supported(&self) -> &[K::SigningAlgorithm]
        ensures algorithms { result.now ≡ self.now.signing_algorithms }
    {
        self.signing_algorithms.as_slice()
    }

    /// The further metadata.
    pub fn additional_metadata(&self) -> &A
        ensures additional { result.now ≡ self.now.additional_metadata }
    {
        &self.additional_metadata
    }
}
