//! Keys that check and make signatures, with laws: what the rest of the relying party knows of a
//! key, and the program's own symmetric keys.
//!
//! - [`JsonWebKey`] is a key that checks signatures (RFC 7517). Code above is generic over it, so a
//!   caller's own RSA or elliptic curve keys can take part. A contract knows a key by its
//!   meanings: its id, type and use, its verdict on an algorithm, a message and a signature, its
//!   hash function for an algorithm, and the symmetric key of given bytes. Each call answers its
//!   meaning, or want of memory.
//! - [`PrivateSigningKey`] is a key that makes signatures. Its law: what it signs verifies under
//!   its verification key, for that algorithm and message.
//! - [`CoreJsonWebKey`] and [`CoreHmacKey`] are the symmetric keys of the program. They verify and
//!   sign by HMAC with SHA-256, SHA-384 or SHA-512 (RFC 7518 section 3.2).
//! - [`hmac`] is the MAC of RFC 2104 section 2, stated over the hash functions of FIPS 180-4.
//! - [`JsonWebKeySet`] is a list of keys (RFC 7517 section 5).
//!
//! The standard of each: RFC 7517 for keys, RFC 7518 for algorithms and key types, RFC 2104 for the
//! MAC, OpenID Connect Core 1.0 section 3.1.3.6 for the hash function of an algorithm.
//!
//! Nothing is promised of time: a signature is compared byte by byte up to the first that differs.
//! Nor is it promised that a signature can't be forged: the verdict of a symmetric key is equality
//! with the MAC, and no more is known of SHA-2 than its definition.
//!
//! Keys hold secrets, so [`CoreJsonWebKey`] and [`CoreHmacKey`] have no `Debug`. `README.md` says
//! what is proved and by which clause, `CALLING.md` how to call it.
#![tactic(auto)]

mod core_jwk;
mod jwk;
mod jwks;
mod mac;
mod refusals;

pub use core_jwk::{CoreHmacKey, CoreJsonWebKey, CoreJsonWebKeyUse};
pub use jwk::{JsonWebKey, JsonWebKeyUse, PrivateSigningKey};
pub use jwks::{CoreJsonWebKeySet, JsonWebKeySet};
pub use mac::{HmacAlgorithm, hmac};
pub use refusals::{HashError, SignatureVerificationError};
