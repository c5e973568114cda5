//! What a step of a device login answers.

use crate::signed_in::DeviceSignedIn;
use oidc_claims::{AdditionalClaims, GenderClaim};

/// What a step of a device login answers that isn't refused (RFC 8628 section 3.5). It has no `Debug`, since it may hold
/// tokens.
#[derive(Drop)]
pub enum DeviceStep<AC: AdditionalClaims, GC: GenderClaim> {
    /// No poll is due yet, and nothing was sent: one is due once so many whole seconds have gone by, rounded up.
    Wait(u128),
    /// A poll was sent, and the user hasn't agreed yet.
    Pending,
    /// The same, and the device polls too often: its interval grows by five seconds.
    SlowDown,
    /// The user is signed in, and the login is over. No nonce is bound: none was sent.
    Done(DeviceSignedIn<AC, GC>),
}
