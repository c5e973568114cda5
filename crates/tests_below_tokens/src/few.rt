//! Extra fields of a response, which refuse where it has many members.
ghost use Rattle.std.specs.Prelude.{◌≡◌, List, Err, Ok, IfOk, length, nat_lt, codes, if◌then◌else◌};
ghost use Rattle.oidc_members.specs.Answers.{Answers};
ghost use Rattle.oidc_members.specs.Seen.{SeenMember};
ghost use Rattle.oidc_members.specs.declared.refusal.ParseKind.TheVariants.{Additional};

use oidc_members::{MemberName, Members, OutMember, ParseError, ParseKind, Refusal};
use oidc_oauth2::{ExtraDeviceAuthorizationFields, ExtraTokenFields};
use serde_json::Value;
use std::alloc::{AllocError, Global};

/// How many members a response has, those of the standard too. More than five are refused.
#[derive(Clone, Copy, Debug, Drop)]
pub struct Few {
    /// The number.
    pub members: usize,
}

fn few_of(alloc: Global, members: &Members) -> Result<Few, ParseError>
    ensures { Answers (if nat_lt 5 (length members.now.list)
        then Err (record { kind = Additional; field = codes "members" })
        else Ok (record { members = length members.now.list })) result }
{
    if members.len() > 5 {
        return Err(Refusal::of_field(alloc, ParseKind::Additional, "members")?.into());
    }
    Ok(Few {
        members: members.len(),
    })
}

impl ExtraTokenFields for Few {
    ghost use Rattle.std.specs.Prelude.{[], ◌∷◌, Err, Ok, length, nat_lt, codes, if◌then◌else◌, true};
    ghost use Rattle.serde_json.specs.Data.{boolean};
    ghost use Rattle.oidc_members.specs.declared.refusal.ParseKind.TheVariants.{Additional};

    ghost read_of = { λ _ members. if nat_lt 5 (length members)
        then Err (record { kind = Additional; field = codes "members" })
        else Ok (record { members = length members }) };

    ghost write_of = { λ _. record { name = codes "few"; value = boolean true } ∷ [] };

    fn read(alloc: Global, members: &Members) -> Result<Few, ParseError> {
        few_of(alloc, members)
    }

    fn write(&self, alloc: Global) -> Result<Vec<OutMember>, AllocError> {
        let name = MemberName::of_word("few");
        let value = Value::Bool(true);
        let mut members = Vec::new(alloc);
        members.push(OutMember { name, value })?;
        Ok(members)
    }
}

impl ExtraDeviceAuthorizationFields for Few {
    ghost use Rattle.std.specs.Prelude.{Err, Ok, length, nat_lt, codes, if◌then◌else◌};
    ghost use Rattle.oidc_members.specs.declared.refusal.ParseKind.TheVariants.{Additional};

    ghost read_of = { λ members. if nat_lt 5 (length members)
        then Err (record { kind = Additional; field = codes "members" })
        else Ok (record { members = length members }) };

    fn read(alloc: Global, members: &Members) -> Result<Few, ParseError> {
        few_of(alloc, members)
    }
}
