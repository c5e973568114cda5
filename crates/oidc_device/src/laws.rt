//! A law of whole runs, the contract of a function that does nothing.

ghost use Rattle.oidc_device.specs.Types.{device_types};
ghost use Rattle.oidc_device.specs.Polite.{Polite};

use oidc_claims::{AdditionalClaims, GenderClaim};
use oidc_keys::JsonWebKey;
use oidc_types::CoreJwsSigningAlgorithm;

/// No device polls too fast, and each polls in time. In the run of every list of steps, whenever they are made, whatever the
/// polls are answered, and wherever memory is wanted, of every client and for all codes: a poll comes exactly where no answer
/// so far has ended the login, the interval that is then in force has gone by since the poll before it, or since the start,
/// and the codes haven't expired. That interval is the first one with five seconds added for each `slow_down`, and doubled,
/// to five seconds at least, for each fault of the transport, in their order, up to 2^64-1. A poll sends the one request for
/// tokens, and nothing only where memory is wanted before it or its address isn't one that is sent to; no other step sends
/// anything. A step waits, for the whole seconds that are left, rounded up, where the interval hasn't gone by; it is
/// `Expired` where the codes have expired. After the one answer that ends the login every step is `Over`; before it none is.
pub fn polite<
    AC: AdditionalClaims,
    GC: GenderClaim,
    K: JsonWebKey<SigningAlgorithm = CoreJwsSigningAlgorithm>,
>()
    ensures { let types = device_types AC.read_of GC.read_of
        K.JsonWebKey K.KeyUse.JsonWebKeyUse in
        Polite types }
{}
