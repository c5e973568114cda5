// The trait of readers, and the one loop.
ghost use Rattle.std.specs.Prelude.{◌≡◌, List, [], ◌∷◌, ◌++◌, Option};
ghost use Rattle.oidc_members.specs.Seen.{SeenMember};
ghost use Rattle.oidc_members.specs.declared.reading.Reading.{Reading};
ghost use Rattle.oidc_members.specs.declared.refusal.Refusal.{Refusal};
ghost use Rattle.oidc_readers.specs.Passes.{Took, PlacedAnswers, read_by, placed_at};

use oidc_members::{Member, ParseError, Reading, Refusal};
use std::alloc::Global;
use thiserror::Error;

/// Why a list of members was not read: a member at a place was refused, or there was no memory.
#[derive(Debug, Drop, Error, PartialEq, Eq)]
pub enum PlacedError {
    /// The member at that place, counted from 0, is refused. A missing member is refused at the
    /// place behind the last one.
    #[error("member {place}: {refusal}")]
    Refused {
        /// The place, counted from 0.
        place: usize,
        /// Why it is refused.
        refusal: Refusal,
    },
    /// There was no memory to read them.
    #[error("out of memory")]
    Memory,
}

impl PlacedError {
    /// The error at a place. It takes no memory.
    pub fn at(place: usize, error: ParseError) -> PlacedError
        ensures placed { result ≡ placed_at place error }
    {
        match error {
            ParseError::Refused(refusal) => PlacedError::Refused { place, refusal },
            ParseError::Memory => PlacedError::Memory,
        }
    }
}

/// The error without its place.
impl From<PlacedError> for ParseError {
    ghost use Rattle.std.specs.Prelude.{◌≡◌};
    ghost use Rattle.oidc_readers.specs.Passes.{unplaced};

    ghost from_gives = { λ placed error. error ≡ unplaced placed };

    fn from(placed: PlacedError) -> ParseError {
        match placed {
            PlacedError::Refused { place: _, refusal } => ParseError::Refused(refusal),
            PlacedError::Memory => ParseError::Memory,
        }
    }
}

/// What is kept of members that are taken one by one.
pub trait MemberReader: Drop {
    /// Why a member is refused under a reading, after those that stand before it.
    ghost fault: { Reading → List SeenMember → SeenMember → Option Refusal };

    /// What is kept of the members that came, none of them faulty under that reading.
    ghost state: { Reading → List SeenMember → Self };

    /// Takes the next member. It refuses exactly a faulty one; after an error nothing is said of
    /// what is kept, and the pass ends.
    fn take(&mut self, alloc: Global, member: &Member, reading: Reading) -> Result<(), ParseError>
        ensures { (before : List SeenMember) → self.old ≡ state reading before
            → Took (fault reading before member.now) result
            (self.new ≡ state reading (before ++ member.now ∷ [])) };
}

/// Takes each member in order under that reading, up to the first faulty one. The answer is that place
/// with its refusal, or the reader with all of them.
pub fn read_members<R: MemberReader>(
    alloc: Global,
    mut reader: R,
    members: &[Member],
    reading: Reading,
) -> Result<R, PlacedError>
    requires { reader ≡ R.state reading [] }
    ensures answer { let read = read_by (R.fault reading) (R.state reading) in
        PlacedAnswers (read members.now) result }
{
    for (place, member) in members.iter().enumerate() {
        match reader.take(alloc, member, reading) {
            Ok(()) => {}
            Err(error) => return Err(PlacedError::at(place, error)),
        }
    }
    Ok(reader)
}
