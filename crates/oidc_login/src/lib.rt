//! The pending logins of one client, from the URL that sends a user to the provider to the claims
//! that sign the user in.
//!
//! - [`MetadataClient`] is the client of a provider's metadata, of `oidc_client`, whatever the site's types of
//!   additional claims, genders and keys; [`LoginClient`] is that of the standards' keys which keeps all claims, and
//!   [`LoginRequest`] its request.
//! - [`Logins`] is the store. [`Logins::begin`] gives the authorization URL of a login and keeps its nonce, its PKCE
//!   verifier and what it demands of user info ([`UserInfoDemand`]); [`Logins::callback`] takes the login that a
//!   callback names, exchanges its code, asks for user info where the login demands it, and signs the user in.
//! - [`front_channel`] judges the answer of an implicit or a hybrid flow, which comes in the query itself: without a
//!   store, a transport or a request, with the state and the nonce that the site kept. [`FrontAnswer`] is an answer
//!   that is accepted, [`FrontError`] why one isn't.
//! - [`laws`] has what holds of whole runs of begins and callbacks.
//!
//! The transport is the caller's: anything that implements `oidc_oauth2::SyncHttpClient`, as
//! `oidc_oauth2::Adapter` over a closure or `oidc_oauth2::Recorded`, which plays a list of answers.
//!
//! What is promised: a callback signs in only with the claims of the ID token in the answer to its
//! own token request, accepted at the given moment with the named login's nonce, and whose
//! `at_hash`, where it has one, is the hash of the access token that came beside it. User info is there
//! exactly where the login demands it, about the ID token's subject. It sends at most two requests, its own:
//! that for the code, and behind an accepted ID token that for user info. Unless the named login is gone
//! afterwards, the transport is as it was. A callback leaves every other login as it was. Every refusal but want of
//! memory has its cause, and a valid login is signed in, or the answer is want of memory. The contracts of `begin` and
//! `callback` say so by the definitions in `specs/`: the table of a callback in `specs/Callback.antt`, what each reply
//! rests on in `specs/Causes.antt`, a valid login in `specs/ValidLogin.antt`, and all together as `Ran` in
//! `specs/Runs.antt`; whole runs in `specs/Events.antt`, and each login's among others and alone, in one store and in
//! several, in `specs/Isolation.antt`.
//!
//! Of `front_channel` each refusal but want of memory has its cause too, and each cause its refusal: its table stands in
//! `specs/FrontChannel.antt`, what each of its answers rests on in `specs/FrontCauses.antt`. An answer is accepted only
//! with the state and the nonce that are handed in. An `at_hash` that is absent binds nothing, nor does a `c_hash`, unless
//! the client demands it beside a code (`Client::require_code_hash`).
//!
//! The claims of ID tokens and of user info are read under the client's reading (`Client::set_reading`), which is strict
//! at first.
//!
//! `Ran` says all this for some answers. Where the transport keeps a log, they are those that came.
//! Of one that keeps none, as over a network, a contract can't say what came; `callback` is one
//! function for every transport, and nothing that it may call says which of the two it was handed.
//!
//! No contract says in which order things are done. That the login is removed before anything is
//! sent, the body of `callback` shows: it takes the login out first, and hands the request over
//! then.
//!
//! The standards: RFC 6749 (section 4.1), RFC 6750 section 2.1, RFC 7636, RFC 7515 section 7.1, and OpenID Connect
//! Core 1.0 (sections 2, 3.1.2.1, 3.1.3.3, 3.1.3.6, 3.1.3.7, 3.2.2, 3.3.2, 5.3.2 and 5.3.4).
#![tactic(auto)]

mod begin;
mod callback;
mod changes;
mod errors;
mod front;
mod hashes;
pub mod laws;
mod logins;
mod query;
mod signed_in;
mod store;
mod types;

pub use errors::{BeginError, ChangeError, LoginError, NewLoginsError, TooLong};
pub use front::{FrontAnswer, FrontError, front_channel};
pub use logins::Logins;
pub use signed_in::{LoginIdToken, SignedIn};
pub use types::{LoginClient, LoginRequest, MetadataClient, UserInfoDemand};
