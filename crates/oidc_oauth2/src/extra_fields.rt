//! What a caller brings to the answers: fields beside those of the standards (RFC 6749 section 8.2).

ghost use Rattle.std.specs.Prelude.{◌≡◌, List, Result, IfOk};
ghost use Rattle.oidc_members.specs.Answers.{Answers};
ghost use Rattle.oidc_members.specs.Seen.{SeenMember, OutSeen};
ghost use Rattle.oidc_members.specs.declared.reading.Reading.{Reading};
ghost use Rattle.oidc_members.specs.declared.refusal.Refusal.{Refusal};

use oidc_members::{Members, OutMember, ParseError};
use std::alloc::{AllocError, Global};

/// Fields of a token response beside those of the standard.
pub trait ExtraTokenFields: Drop {
    /// What a list of members reads as under a reading, or why it is refused.
    ghost read_of: { Reading → List SeenMember → Result Self Refusal };

    /// The members that are written.
    ghost write_of: { Self → List OutSeen };

    /// Reads the fields of all the members of the response. A refusal may have the kind `Additional`.
    fn read(alloc: Global, members: &Members) -> Result<Self, ParseError>
        ensures fields { Answers (read_of members.now.reading members.now.list) result };

    /// The members that stand for these fields, behind those of the standard. `AllocError` is want of
    /// memory, the one error.
    fn write(&self, alloc: Global) -> Result<Vec<OutMember>, AllocError>
        ensures members { IfOk result (λ members. members.items ≡ write_of self.now) };
}

/// No fields beside those of the standard.
#[derive(Clone, Copy, Debug, Default)]
pub struct EmptyExtraTokenFields;

impl ExtraTokenFields for EmptyExtraTokenFields {
    ghost use Rattle.std.specs.Prelude.{[], Result};

    ghost read_of = { λ _ _. Result.Ok (record {}) };

    ghost write_of = { λ _. [] };

    fn read(_alloc: Global, _members: &Members) -> Result<EmptyExtraTokenFields, ParseError> {
        Ok(EmptyExtraTokenFields)
    }

    fn write(&self, alloc: Global) -> Result<Vec<OutMember>, AllocError> {
        Ok(Vec::new(alloc))
    }
}

/// Fields of a device authorization response beside those of the standard.
pub trait ExtraDeviceAuthorizationFields: Drop {
    /// What a list of members reads as, or why it is refused.
    ghost read_of: { List SeenMember → Result Self Refusal };

    /// Reads the fields of all the members of the response. A refusal may have the kind `Additional`.
    fn read(alloc: Global, members: &Members) -> Result<Self, ParseError>
        ensures fields { Answers (read_of members.now.list) result };
}

/// No fields beside those of the standard.
#[derive(Clone, Copy, Debug, Default)]
pub struct EmptyExtraDeviceAuthorizationFields;

impl ExtraDeviceAuthorizationFields for EmptyExtraDeviceAuthorizationFields {
    ghost use Rattle.std.specs.Prelude.{Result};

    ghost read_of = { λ _. Result.Ok (record {}) };

    fn read(
        _alloc: Global,
        _members: &Members,
    ) -> Result<EmptyExtraDeviceAuthorizationFields, ParseError> {
        Ok(EmptyExtraDeviceAuthorizationFields)
    }
}
