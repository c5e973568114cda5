//! Records that are read by a table of their fields.

ghost use Rattle.std.specs.Prelude.{◌≡◌, [], Ok, Err, IfOk, IfErr};
ghost use Rattle.oidc_readers.specs.Answers.{Answers};
ghost use Rattle.oidc_readers.specs.Records.{faultless, either_rule};

use crate::passes::{MemberReader, read_members};
use oidc_members::{Member, Members, ParseError, Reading};
use std::alloc::Global;

/// Shows the members to a reader one after another, under their own reading, up to the first faulty
/// one.
pub fn read_fields<R: MemberReader>(
    alloc: Global,
    reader: R,
    members: &Members,
) -> Result<R, ParseError>
    requires { reader ≡ R.state members.now.reading [] }
    ensures kept { let rule = R.fault members.now.reading in
        IfOk result (λ reader. (faultless rule members.now.list ≡ Ok tt)
        × (reader ≡ R.state members.now.reading members.now.list)) }
    ensures refused { let rule = R.fault members.now.reading in
        IfErr result (λ error. Answers (faultless rule members.now.list) (Err error)) }
{
    Ok(read_members(alloc, reader, members.as_slice(), members.reading())?)
}

/// Two readers of the same members, each of which leaves aside what isn't its own. The first faulty
/// member of either refuses the list.
#[derive(Drop)]
pub struct Both<A, B> {
    /// One reader.
    pub first: A,
    /// The other.
    pub second: B,
}

impl<A: MemberReader, B: MemberReader> MemberReader for Both<A, B> {
    ghost fault = { λ reading. either_rule (A.fault reading) (B.fault reading) };

    ghost state = { λ reading members. record {
      first = A.state reading members;
      second = B.state reading members;
    } };

    fn take(&mut self, alloc: Global, member: &Member, reading: Reading) -> Result<(), ParseError> {
        self.first.take(alloc, member, reading)?;
        self.second.take(alloc, member, reading)
    }
}
