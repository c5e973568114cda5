//! What a provider says of itself, from its issuer's text on (OpenID Connect Discovery 1.0, RFC 8414, RFC 9207).
//!
//! - [`DocumentRequest`] is the request for a provider's document, [`KeySetRequest`] that for its set of
//!   keys, as values that any transport can send. Each judges its own answer: status, media type and
//!   size, and then the text.
//! - [`ProviderDocument`] is what the document says, where the issuer is the one that was asked for and
//!   each URL is `https` without user, password, fragment and backslash.
//! - [`ProviderDocument::into_metadata`] makes the metadata that a client is made of, under the one
//!   algorithm of ID tokens that a site pins. No document can widen that.
//!
//! What it promises. Requests, answers and documents are those of the definitions in `specs/`: each
//! refusal has its cause, and each cause its refusal, but for want of memory, which no clause
//! foretells.
#![tactic(auto)]

mod answers;
mod documents;
mod errors;
pub mod laws;
mod metadata;
mod pinned;
mod requests;
mod urls;

pub use crate::documents::ProviderDocument;
pub use crate::errors::{AnswerError, DocumentError, FetchError, MetadataUrl, PinError};
pub use crate::metadata::ListedMarker;
pub use crate::pinned::FetchedMetadata;
pub use crate::requests::{DocumentRequest, KeySetRequest};
pub use crate::urls::UrlFault;
