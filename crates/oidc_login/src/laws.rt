//! Laws of whole runs, each the contract of a function that does nothing; and the laws on the claims of ID tokens and
//! of user info, passed on.

ghost use Rattle.oidc_login.specs.Types.{site_types};
ghost use Rattle.oidc_login.specs.Events.{SpentOnce, ValidSignsIn};
ghost use Rattle.oidc_login.specs.Isolation.{RunsAsAlone, RunsAsOneStore};

use oidc_claims::{AdditionalClaims, GenderClaim};
use oidc_keys::JsonWebKey;
pub use oidc_tokens::laws::claims_one_home;
use oidc_types::CoreJwsSigningAlgorithm;
pub use oidc_user_info::laws::info_claims_one_home;

/// Of the callbacks of one begin, which are those of its state up to the next accepted begin of that, at most one sends
/// anything: in the run of every list of begins and callbacks, over every client, and in that of the begin and these
/// alone.
pub fn spent_once<
    AC: AdditionalClaims,
    GC: GenderClaim,
    K: JsonWebKey<SigningAlgorithm = CoreJwsSigningAlgorithm>,
>()
    ensures { let types = site_types AC.read_of GC.read_of
        K.JsonWebKey K.KeyUse.JsonWebKeyUse in
        SpentOnce types }
{}

/// A callback that is a valid login signs in, whatever begins and callbacks came before and come behind.
pub fn valid_signs_in<
    AC: AdditionalClaims,
    GC: GenderClaim,
    K: JsonWebKey<SigningAlgorithm = CoreJwsSigningAlgorithm>,
>()
    ensures { let types = site_types AC.read_of GC.read_of
        K.JsonWebKey K.KeyUse.JsonWebKeyUse in
        ValidSignsIn types }
{}

/// Each login's run is the run of its own events. Whatever other begins and callbacks of other states come before an
/// accepted begin, between its callbacks and behind them, repeated, mixed up or hostile: in the run of it and its
/// callbacks alone, with the same answers and moments, it is accepted too, each callback gets the same reply and sends
/// the same requests, and behind each its state is pending in both runs or in neither. No run here wants for memory.
pub fn isolation<
    AC: AdditionalClaims,
    GC: GenderClaim,
    K: JsonWebKey<SigningAlgorithm = CoreJwsSigningAlgorithm>,
>()
    ensures { let types = site_types AC.read_of GC.read_of
        K.JsonWebKey K.KeyUse.JsonWebKeyUse in
        RunsAsAlone types }
{}

/// A site may run many processes, each with a store of its own, behind a balancer that routes by state: where all events
/// of one state go to one store, each event gets the reply and sends the requests that it would, with the same answers
/// and moments, in one store that gets all events, and behind it its state is pending in both or in neither. A callback
/// that hasn't one state may go to any. No run here wants for memory.
pub fn shards<
    AC: AdditionalClaims,
    GC: GenderClaim,
    K: JsonWebKey<SigningAlgorithm = CoreJwsSigningAlgorithm>,
>()
    ensures { let types = site_types AC.read_of GC.read_of
        K.JsonWebKey K.KeyUse.JsonWebKeyUse in
        RunsAsOneStore types }
{}
