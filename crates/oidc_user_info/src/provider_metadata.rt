//! What a provider may say of itself beside its own metadata (OpenID Connect Discovery 1.0 section 3).

/// Further metadata of a provider. It may be let go, so that code which is generic over it can take the rest.
pub trait AdditionalProviderMetadata: Drop {}

/// No further metadata.
#[derive(Clone, Copy, Debug, Default, PartialEq, Eq)]
pub struct EmptyAdditionalProviderMetadata {}

impl AdditionalProviderMetadata for EmptyAdditionalProviderMetadata {}
