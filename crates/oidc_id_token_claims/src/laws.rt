//! What holds of the claims of an ID token as a whole. Each function here says a law in its contract, and does
//! nothing.

ghost use Rattle.oidc_id_token_claims.specs.Homes.{AcceptedHaveOneHome};
ghost use Rattle.oidc_id_token_claims.specs.RoundTrip.{WrittenReadBack};

use oidc_claims::{AdditionalClaims, GenderClaim};

/// Every member of accepted claims has exactly one home: it is a field of the token, or a standard claim's,
/// or additional. The lists by home are filters of the list of members, and each part of the claims is what
/// the members of its own home say.
pub fn claims_one_home<AC: AdditionalClaims, GC: GenderClaim>()
    ensures { AcceptedHaveOneHome AC.read_of GC.read_of }
{}

/// Claims of an ID token that are in range, and whose written texts are UTF-8, are read back from the object's
/// text as equal claims. That the texts are UTF-8 is a clause of [`IdTokenClaims`](crate::IdTokenClaims)'s
/// `write`, which carries the whole round trip too.
pub fn written_claims_read_back<AC: AdditionalClaims, GC: GenderClaim>()
    ensures { WrittenReadBack AC.read_of AC.write_of GC.read_of GC.write_of }
{}
