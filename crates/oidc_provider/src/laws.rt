//! What holds of logins over a provider double, as contracts of functions that do nothing.

ghost use Rattle.oidc_login.specs.Types.{site_types};
ghost use Rattle.oidc_provider.specs.Honest.{HonestSignsIn};
ghost use Rattle.oidc_provider.specs.SignIn.{GrantSignsIn, KeptGrantStands};

use oidc_claims::{AdditionalClaims, GenderClaim};
use oidc_keys::JsonWebKey;
use oidc_types::CoreJwsSigningAlgorithm;

/// What `Provider::authorize` kept for the URL of a begin is a grant for that begin, as long as the provider has it.
pub fn kept_grant_stands<AC: AdditionalClaims, GC: GenderClaim>()
    ensures { KeptGrantStands AC.read_of GC.read_of AC.write_of GC.write_of }
{}

/// Of a login over the client's own provider, with claims in range that expire later (`IsLoginOver`): a callback by the query
/// of its grant signs in with the claims that were to be issued, as long as the provider has that grant unredeemed and the
/// store has the login of its begin pending, whatever else was granted, answered and begun before, between and behind. Only a
/// text that is too long refuses it.
pub fn grant_signs_in<AC: AdditionalClaims, GC: GenderClaim>()
    ensures { GrantSignsIn AC.read_of GC.read_of AC.write_of GC.write_of }
{}

/// A login over a provider that behaves signs in with the ID token, the access token and any user info that its grant holds,
/// or a text is too long: whatever the keys, and whoever made the grant.
pub fn honest_provider_signs_in<
    AC: AdditionalClaims,
    GC: GenderClaim,
    K: JsonWebKey<SigningAlgorithm = CoreJwsSigningAlgorithm>,
>()
    ensures { let types = site_types AC.read_of GC.read_of
        K.JsonWebKey K.KeyUse.JsonWebKeyUse in
        HonestSignsIn types }
{}
