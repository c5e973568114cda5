//! The login of a device whose user signs in elsewhere (RFC 8628): a command-line tool, a television.
//!
//! - [`DeviceClient`] is the client of a provider's metadata with both endpoints of a device login, whatever the types of
//!   additional claims, genders and keys; [`CoreDeviceClient`] keeps all claims and has symmetric keys alone.
//! - [`DeviceLogin::start`] asks for the codes of the device, which the user types in at a page of the provider.
//!   [`DeviceLogin::step`] is called whenever the program likes, with the moment: it sends a poll where one is due, and says
//!   what came of it, a [`DeviceStep`] or a [`DeviceError`]. It never sleeps and reads no clock.
//! - [`DeviceSignedIn`] is the user who is signed in.
//! - [`laws`] has what holds of whole runs of steps.
//!
//! The transport is the caller's: anything that implements `oidc_oauth2::SyncHttpClient`.
//!
//! What is promised: a step polls exactly where the interval has gone by since the last poll, or the start, and the codes
//! haven't expired, whatever it is answered; `slow_down` raises the interval by five seconds, and a fault of the transport
//! doubles it, to five seconds at least. A user is signed in only with the claims of the ID token in the answer to that
//! poll, accepted at the given moment, and whose `at_hash`, where it has one, is the hash of the access token that came
//! beside it. After the one answer that ends the login nothing is sent. Every refusal but want of memory has its cause, and
//! each cause its refusal. The contracts of `start` and `step` say so by the definitions in `specs/`: the table of a step in
//! `specs/DeviceStep.antt`, what each answer rests on in `specs/Causes.antt`, and all together in `specs/Runs.antt`; whole
//! runs in `specs/Polite.antt`.
//!
//! `Done` binds no nonce: a device login sends none, so the ID token may have any, and none. Nothing in the ID token says
//! that it was issued for this login. It is tied to it only by where it came from: the token endpoint's answer to a poll with
//! this device code.
//!
//! Whoever has somebody else type in the code of a device of his own is signed in as that person (phishing, RFC 8628 section
//! 5.4): say what the code is for, and to go on only where the user started it.
//!
//! The standards: RFC 8628 (sections 3.1 to 3.5), RFC 6749 (sections 5.1 and 5.2), and OpenID Connect Core 1.0 (sections 2,
//! 3.1.3.3, 3.1.3.6 and 3.1.3.7).
#![tactic(auto)]

mod client;
mod clock;
mod errors;
pub mod laws;
mod login;
mod signed_in;
mod step;
mod token;

pub use crate::client::{CoreDeviceClient, DeviceClient};
pub use crate::errors::{DeviceError, StartError};
pub use crate::login::DeviceLogin;
pub use crate::signed_in::{DeviceIdToken, DeviceSignedIn};
pub use crate::step::DeviceStep;
