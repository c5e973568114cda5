//! The requests of a client to its authorization server, beside the one that exchanges a code.
//!
//! - [`RefreshTokenRequest`], [`PasswordTokenRequest`] and [`ClientCredentialsTokenRequest`] ask a token endpoint for
//!   tokens (RFC 6749 sections 6, 4.3.2 and 4.4.2).
//! - [`DeviceAuthorizationRequest`] asks for the codes of a device, and [`DeviceAccessTokenRequest`] polls once for its
//!   tokens (RFC 8628 sections 3.1 and 3.4); a [`PollStep`] says whether they are there.
//! - [`IntrospectionRequest`] asks about a token (RFC 7662 section 2.1), and [`RevocationRequest`] revokes one (RFC
//!   7009 section 2.1).
//!
//! A request for tokens reads an ID token in the answer under the [`Reading`](oidc_members::Reading) of its
//! `set_reading`, strictly at first. The fields that belong to OAuth 2.0 itself are always read strictly.
//!
//! What it promises. Each request is the POST of one description, `form_request`: an address, a client, the request's
//! own pairs, scopes and further pairs. Over a transport that knows its log, it hands over exactly that one request, or
//! nothing, and its answer is that of one judge for the response that came. Over any other its answer is what some
//! response is worth, or a fault of the transport; each refusal has its cause. Want of memory is a variant `Memory` of
//! its own, or the one error of a call that answers an `AllocError`, and no clause says when it comes. No request has a
//! `Debug`, since each holds secrets.
#![tactic(auto)]

mod device;
mod form_request;
mod introspection;
pub mod laws;
mod revocation;
mod sending;
mod token_requests;

pub use crate::device::{DeviceAccessTokenRequest, DeviceAuthorizationRequest, PollStep};
pub use crate::introspection::IntrospectionRequest;
pub use crate::revocation::RevocationRequest;
pub use crate::token_requests::{
    ClientCredentialsTokenRequest, PasswordTokenRequest, RefreshTokenRequest,
};
