//! Verification of RSA signatures (RFC 8017): RSASSA-PKCS1-v1_5 and RSASSA-PSS with SHA-256,
//! SHA-384 and SHA-512, as JSON Web Algorithms has them (RFC 7518 sections 3.3 and 3.5).
//!
//! - [`RsaPublicKey`] is made from the octets of a modulus and of an exponent, as a JSON Web Key has
//!   them. A modulus or an exponent that isn't allowed is refused by name.
//! - [`RsaPublicKey::verify`] says whether a signature is one of a message, by one of the six
//!   algorithms of [`RsaAlgorithm`]. It takes no memory.
//! - [`ProviderKey`] is a key of a set (RFC 7517): a public key of RSA or a secret, with what it says
//!   of itself (`kid`, `use`, `alg`, `key_ops`). It implements `JsonWebKey` of `oidc_keys`, so that
//!   logins and sessions judge signatures by RSA and by HMAC alike. `laws::no_algorithm_confusion`
//!   says that a public key is never taken for a secret.
//!
//! The definitions in `specs/` speak of natural numbers and octets, in the words of RFC 8017. The
//! arithmetic stands in `limbs` and `montgomery`, and no public clause speaks of it.
//!
//! Nothing is promised of time: of RSA public values alone are handled, and MACs are compared by
//! `oidc_keys`. Nor is it promised that a signature can't be forged: the verdict is the RFC's, and no
//! more is known of RSA.
#![tactic(auto)]

mod algorithm;
mod hash;
mod key_operation;
pub mod laws;
mod limbs;
mod montgomery;
mod octets;
mod pkcs1;
mod provider_key;
mod pss;
mod public_key;

pub use algorithm::RsaAlgorithm;
// For the definitions, which speak of it; no public function takes one.
pub use hash::HashFunction;
pub use key_operation::KeyOperation;
pub use provider_key::ProviderKey;
pub use public_key::{RsaKeyError, RsaPublicKey, RsaSignatureError};
