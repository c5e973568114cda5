//! The token layer of OAuth 2.0, as an OpenID Connect relying party uses it.
//!
//! - [`SyncHttpClient`] is a transport, which the caller hands in: it takes an [`HttpRequest`] and gives
//!   an [`HttpResponse`]. [`Recorded`] plays a list of answers and keeps the requests, [`Adapter`] wraps
//!   a closure. The meanings of a transport are its log and its script, where they are known, and the
//!   count of its faults.
//! - [`CodeTokenRequest`] exchanges a code for tokens (RFC 6749 section 4.1.3, RFC 7636 section 4.5),
//!   for a client that authenticates by [`ClientAuth`] (section 2.3.1).
//! - [`token_answer`] is what a response to it is worth (RFC 6749 sections 5.1 and 5.2).
//! - [`post_form`], and [`success_in`] and [`object_answer`], are the steps by which every request of form pairs is made
//!   and every answer to one is judged, for the requests of the crate above, `oidc_oauth2_requests`.
//! - The records of answers are read by their tables: [`StandardTokenResponse`],
//!   [`StandardErrorResponse`], [`DeviceAuthorizationResponse`] (RFC 8628 section 3.2) and
//!   [`StandardTokenIntrospectionResponse`] (RFC 7662 section 2.2).
//! - [`PkceCodeChallenge`] is the challenge of a verifier (RFC 7636). [`auth_bearer`] and
//!   [`check_content_type`] make and judge header fields (RFC 6750, RFC 9110).
//!
//! What it promises. Over a transport that knows its log, a request hands over exactly the one request of
//! its definition, or nothing, and its answer is that of the definition for the response that came. Over
//! any other its answer is what some response is worth, or a fault of the transport; each refusal has its
//! cause. Want of memory is a variant `Memory` of its own, or the one error of a call that
//! answers an `AllocError`, and no clause says when it comes. What holds tokens has no `Debug`.
#![tactic(auto)]

mod adapter;
mod client_auth;
mod device;
mod error_response;
mod error_types;
mod exchanges;
mod extra_fields;
mod http_utils;
mod introspection;
pub mod laws;
mod pkce;
mod recorded;
mod requests;
mod revocation;
mod scopes;
mod token;
mod token_answers;
mod token_type;
mod transport;

pub use crate::adapter::Adapter;
pub use crate::client_auth::{
    AuthType, ClientAuth, ConfigurationError, push_client, push_optional,
};
pub use crate::device::{CoreDeviceAuthorizationResponse, DeviceAuthorizationResponse};
pub use crate::error_response::{
    CoreRevocationErrorResponse, DeviceCodeErrorResponse, ErrorResponse, StandardErrorResponse,
};
pub use crate::error_types::{
    CoreErrorResponseType, DeviceCodeErrorResponseType, RevocationErrorResponseType,
};
pub use crate::exchanges::exchange;
pub use crate::extra_fields::{
    EmptyExtraDeviceAuthorizationFields, EmptyExtraTokenFields, ExtraDeviceAuthorizationFields,
    ExtraTokenFields,
};
pub use crate::http_utils::{
    BEARER, BearerError, MIME_TYPE_JSON, MIME_TYPE_JWKS, MIME_TYPE_JWT, UnexpectedType,
    auth_bearer, check_content_type, content_type_has_essence,
};
pub use crate::introspection::{
    CoreTokenIntrospectionResponse, StandardTokenIntrospectionResponse, TokenIntrospectionResponse,
};
pub use crate::pkce::{PkceCodeChallenge, PkceError};
pub use crate::recorded::{Answer, Fault, Recorded};
pub use crate::requests::{CodeTokenRequest, PrepareError, is_address, post_form, push_all};
pub use crate::revocation::{CoreRevocableToken, RevocableToken};
pub use crate::scopes::joined_scopes;
pub use crate::token::{OAuth2TokenResponse, StandardTokenResponse};
pub use crate::token_answers::{
    CoreRequestTokenError, MAX_BODY, OtherCause, RequestTokenError, object_answer,
    record_or_refusal, success_in, token_answer,
};
pub use crate::token_type::{CoreTokenType, TokenType};
pub use crate::transport::{CallError, HttpRequest, HttpResponse, SyncHttpClient};
pub use oidc_types::Body;
