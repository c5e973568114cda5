//! What holds of the claims of user info as a whole. Each function here says a law in its contract, and does
//! nothing.

ghost use Rattle.oidc_user_info.specs.Homes.{AcceptedHaveOneHome};

use oidc_claims::{AdditionalClaims, GenderClaim};

/// Every member of accepted claims has exactly one home: it is a field of user info, or a standard claim's, or
/// additional. The lists by home are filters of the list of members, and each part of the claims is what the
/// members of its own home say.
pub fn info_claims_one_home<AC: AdditionalClaims, GC: GenderClaim>()
    ensures { AcceptedHaveOneHome AC.read_of GC.read_of }
{}
