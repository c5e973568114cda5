//! Sets of keys as providers publish them (RFC 7517, RFC 7518 section 6.3), read and written.
//!
//! - [`PublishedKeySet`] is what the text of a set says: its public keys of RSA, each a
//!   [`RsaJsonWebKey`]. Keys of other types are left out (RFC 7517 section 5). Whatever else stands
//!   against a text refuses it by name ([`KeySetError`], [`KeyError`]), a private key and a secret
//!   too: neither has a place in a set that anybody can fetch.
//! - [`PublishedKeySet::signing_keys`] makes the keys that check signatures, which a client takes.
//!
//! What it promises. A text is read as what the definition `IsReadAs` says, in both directions, but
//! for want of memory, which no clause foretells; what is written is read as the same.
//!
//! Nothing is fetched here: requests and the judgement of answers stand in `oidc_discovery`.
#![tactic(auto)]

mod errors;
mod key;
mod key_set;
mod members;
mod numbers;
mod signing_keys;
mod writing;

pub use crate::errors::{KeyError, KeyMember, KeySetError, SigningKeyError};
pub use crate::key::RsaJsonWebKey;
pub use crate::key_set::PublishedKeySet;
pub use crate::numbers::Octets;
