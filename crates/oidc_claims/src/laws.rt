//! What holds of the claims as a whole. Each function here says a law in its contract, and does
//! nothing.

ghost use Rattle.std.specs.Prelude.{◌≡◌, List, Ok, IsTrue, map};
ghost use Rattle.std.specs.List.{All};
ghost use Rattle.oidc_members.specs.Seen.{SeenMember};
ghost use Rattle.oidc_readers.specs.WrittenBack.{IsUtf8Member};
ghost use Rattle.oidc_claims.specs.Additional.{are_additional, out_of};
ghost use Rattle.oidc_claims.specs.Others.{Others, list_of, read_others};
ghost use Rattle.oidc_claims.specs.Seen.{SeenClaims};
ghost use Rattle.oidc_claims.specs.Write.{written, IsInRange, GivesClaims};

use crate::gender::GenderClaim;

/// Claims that are written as an object's text are read back from it as equal claims, where no claim
/// in several languages is without a value, no tag is empty, `updated_at` is at a whole second, and the
/// written texts are UTF-8. That they are is a clause of [`write_standard`](crate::write_standard),
/// which carries the whole round trip too (`reads_back`).
pub fn written_claims_read_back<GC: GenderClaim>()
    ensures { (claims : SeenClaims GC) → let members = written GC.write_of claims in
        IsInRange claims → All IsUtf8Member members → GivesClaims GC.read_of members claims }
{}

/// [`AllOtherClaims`](crate::AllOtherClaims) refuses no additional members, and keeps exactly their
/// names and values, in their order.
pub fn others_keep_all()
    ensures { (members : List SeenMember) → IsTrue (are_additional members)
        → (claims : Others) × (read_others members ≡ Ok claims)
        × (list_of claims ≡ map out_of members) }
{}
