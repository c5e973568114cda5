//! Laws of whole runs of calls, and of tokens, each the contract of a function that does nothing.

ghost use Rattle.oidc_login.specs.Types.{site_types};
ghost use Rattle.oidc_session.specs.Apart.{NeverBoth};
ghost use Rattle.oidc_session.specs.Events.{AnswersUntilEnd, RunsAsAlone};
ghost use Rattle.oidc_session.specs.LogoutTokens.{SeenLogoutVerifier, logout_keys};

use oidc_claims::{AdditionalClaims, GenderClaim};
use oidc_keys::JsonWebKey;
use oidc_types::CoreJwsSigningAlgorithm;

/// After every list of calls a session is found exactly where an accepted open of its id, which ends later, stands
/// among them, and behind it no further accepted open and no close of that id, no sweep at its end or later, and no
/// accepted logout that names it. What is found is what it was opened with. No run here wants for memory.
pub fn answers_until_end<K: JsonWebKey>()
    ensures { let keys = logout_keys K.SigningAlgorithm.ClosedVocabulary K.verdict in
        (v : SeenLogoutVerifier K K.SigningAlgorithm) → AnswersUntilEnd keys v }
{}

/// The replies to the calls that open one id, look at it and close it are those of the run with its calls, the logouts
/// and the sweeps alone. No run here wants for memory.
pub fn session_isolation<K: JsonWebKey>()
    ensures { let keys = logout_keys K.SigningAlgorithm.ClosedVocabulary K.verdict in
        (v : SeenLogoutVerifier K K.SigningAlgorithm) → RunsAsAlone keys v }
{}

/// No text is both accepted as a login's ID token with its nonce and accepted as a logout token, whatever the clients,
/// the verifiers, the moments and the reading of ID tokens: the one has a nonce, and the other has none.
pub fn logout_is_no_login<
    AC: AdditionalClaims,
    GC: GenderClaim,
    K: JsonWebKey<SigningAlgorithm = CoreJwsSigningAlgorithm>,
    L: JsonWebKey,
>()
    ensures { let types = site_types AC.read_of GC.read_of
        K.JsonWebKey K.KeyUse.JsonWebKeyUse in
        NeverBoth types (logout_keys L.SigningAlgorithm.ClosedVocabulary L.verdict) }
{}
