//! What a provider says of itself, from its issuer's text on (OpenID Connect Discovery 1.0): its document, and its keys
//! (RFC 7517). Of both a client is made, whose keys are [`ProviderKey`]: public keys of RSA, and the client's secret. Its
//! pages are those of `oidc_discovery`, `oidc_key_sets` and `oidc_rsa`.

pub use oidc_discovery::{
    AnswerError, DocumentError, DocumentRequest, FetchError, FetchedMetadata, KeySetRequest,
    MetadataUrl, PinError, ProviderDocument, UrlFault,
};
pub use oidc_key_sets::{
    KeyError, KeyMember, KeySetError, PublishedKeySet, RsaJsonWebKey, SigningKeyError,
};
pub use oidc_rsa::{ProviderKey, RsaKeyError, RsaPublicKey};
