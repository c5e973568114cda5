//! What a token holds.

ghost use Rattle.std.specs.Prelude.{◌≡◌, List, Result, IfOk};
ghost use Rattle.std.specs.List.{All};
ghost use Rattle.oidc_members.specs.Answers.{Answers};
ghost use Rattle.oidc_members.specs.Seen.{SeenMember, OutSeen};
ghost use Rattle.oidc_members.specs.declared.reading.Reading.{Reading};
ghost use Rattle.oidc_members.specs.declared.refusal.Refusal.{Refusal};
ghost use Rattle.oidc_readers.specs.WrittenBack.{IsUtf8Member};

use oidc_members::{Members, OutMember, ParseError};
use std::alloc::{AllocError, Global};

/// What a token holds: claims that are read from the members of an object, and written as members
/// again (RFC 7519 section 4).
pub trait Payload: Drop {
    /// What a list of members reads as under a reading, or why it is refused.
    ghost read_of: { Reading → List SeenMember → Result Self Refusal };

    /// The members that are written.
    ghost write_of: { Self → List OutSeen };

    /// Reads the members of an object, under their reading. The answer is the meaning, or `Memory`.
    fn read(alloc: Global, members: &Members) -> Result<Self, ParseError>
        ensures answer { Answers (read_of members.now.reading members.now.list) result };

    /// The members that stand for this payload. Their names and texts are UTF-8. `AllocError` is want
    /// of memory, the one error.
    fn write(&self, alloc: Global) -> Result<Vec<OutMember>, AllocError>
        ensures members { IfOk result (λ members. members.items ≡ write_of self.now) }
        ensures texts { IfOk result (λ members. All IsUtf8Member members.items) };
}
