// A gender as a kind of values; the other kinds are those of every record.
ghost use Rattle.std.specs.Prelude.{◌≡◌};

use crate::gender::GenderClaim;
use oidc_members::{Member, ParseError, Reading};
use oidc_readers::FieldValue;
use std::alloc::Global;
use std::marker::Model;

/// A gender that was read. Contracts see it as the gender itself.
#[derive(Drop)]
pub(crate) struct GenderOf<GC: GenderClaim> {
    gender: GC,
}

impl<GC: GenderClaim> Model for GenderOf<GC> {
    ghost Value = { GC };

    ghost coded = { GC.code };

    ghost view = { λ g. g.gender };
}

/// The gender that was read, where there is one.
pub(crate) fn gender_of<GC: GenderClaim>(gender: Option<GenderOf<GC>>) -> Option<GC>
    ensures { result ≡ gender }
{
    match gender {
        None => None,
        Some(gender) => Some(gender.gender),
    }
}

impl<GC: GenderClaim> FieldValue for GenderOf<GC> {
    ghost read_of = { λ _. GC.read_of };

    fn read(alloc: Global, member: &Member, _reading: Reading) -> Result<GenderOf<GC>, ParseError> {
        match GC::read(alloc, member) {
            Ok(gender) => Ok(GenderOf { gender }),
            Err(error) => Err(error),
        }
    }
}
