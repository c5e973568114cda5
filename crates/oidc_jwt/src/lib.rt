//! JSON Web Tokens: read and issued (RFC 7515, RFC 7519).
//!
//! - [`JsonWebToken`] is a token in the compact serialization (RFC 7515 section 7.1, RFC 7519 section
//!   3), over any [`Payload`]. [`TokenHeader`] is its header. [`JsonWebToken::read`] is the token that a text is,
//!   and [`JsonWebToken::new`] issues one. [`JsonWebToken::read_with`] reads the payload under a
//!   [`Reading`](oidc_members::Reading): a text may be a boolean or a moment where it says so; `read` reads it strictly.
//! - A payload is written by the writers of `oidc_readers`, `put` and those beside it.
//!
//! What it promises. A text is read exactly as `token_of` says, with the refusal that comes first: the
//! text's, the header's, the payload's. The message that is signed is the first two parts as they stand. What is
//! issued says how it is signed, and is read back as it is where its payload is and its algorithm is read back
//! from its own text. All of this holds of every
//! lawful type of keys, algorithms and payloads. Want of memory is a variant `Memory` of its own, or the one
//! error of a call that answers an `AllocError`, and no clause says when it comes.
//!
//! Nothing of a token is verified here, and nothing is promised of time. What holds a token has no `Debug`.
#![tactic(auto)]

mod header;
mod jwt;
mod parts;
mod payload;

pub use crate::header::{JsonWebTokenAlgorithm, TokenHeader};
pub use crate::jwt::{JsonWebToken, JsonWebTokenError};
pub use crate::payload::Payload;
