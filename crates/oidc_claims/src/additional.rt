//! The claims beside the standard ones (OpenID Connect Core 1.0 section 5.1.2).

ghost use Rattle.std.specs.Prelude.{◌≡◌, List, Result, IfOk, IsTrue, refl};
ghost use Rattle.std.specs.List.{All};
ghost use Rattle.oidc_members.specs.Answers.{Answers};
ghost use Rattle.oidc_members.specs.Seen.{SeenMember, OutSeen};
ghost use Rattle.oidc_members.specs.declared.refusal.Refusal.{Refusal};
ghost use Rattle.oidc_readers.specs.WrittenBack.{IsUtf8Member};
ghost use Rattle.oidc_claims.specs.Additional.{are_additional, ReadsBack, StaysAdditional};

use oidc_members::{Member, OutMember, ParseError};
use std::alloc::{AllocError, Global};

/// What is kept of the claims beside the standard ones. A value's meanings are what a list of members
/// reads as, and what the value is written as.
///
/// It may be let go, so that code which is generic over it can drop what it read.
pub trait AdditionalClaims: Drop {
    // What a list of members reads as, or why it is refused.
    ghost read_of: { List SeenMember → Result Self Refusal };

    // The members that are written.
    ghost write_of: { Self → List OutSeen };

    /// Reads the additional members of an object, in their order. It is asked only about members that
    /// are neither a user info field nor a standard claim. The answer is the meaning, with the kind
    /// and the field that it names, or `Memory`.
    fn read(alloc: Global, members: &[Member]) -> Result<Self, ParseError>
        requires { IsTrue (are_additional members.now) }
        ensures answer { Answers (read_of members.now) result };

    /// The members that stand for this value, in their order. Their names and texts are UTF-8.
    /// `AllocError` is want of memory, the one error.
    fn write(&self, alloc: Global) -> Result<Vec<OutMember>, AllocError>
        ensures members { IfOk result (λ members. members.items ≡ write_of self.now) }
        ensures texts { IfOk result (λ members. All IsUtf8Member members.items) };

    // What is written reads back, from every list with those names and values.
    ghost reads_back: { ReadsBack read_of write_of };

    // What is written has no name of a user info field, and none whose base is a standard claim.
    ghost stays_additional: { StaysAdditional write_of };
}

/// No additional claims: each is left aside, and none is written.
#[derive(Clone, Copy, Debug, Default, Drop, PartialEq)]
pub struct EmptyAdditionalClaims;

impl AdditionalClaims for EmptyAdditionalClaims {
    ghost use Rattle.std.specs.Prelude.{◌≡◌, [], Result, refl};

    ghost read_of = { λ _. Result.Ok (record {}) };

    ghost write_of = { λ _. [] };

    ghost reads_back = { λ _ _ _. refl };

    ghost stays_additional = { λ _. refl };

    fn read(_alloc: Global, _members: &[Member]) -> Result<EmptyAdditionalClaims, ParseError> {
        Ok(EmptyAdditionalClaims)
    }

    fn write(&self, alloc: Global) -> Result<Vec<OutMember>, AllocError> {
        Ok(Vec::new(alloc))
    }
}
