//! Additional claims that have to be there.

ghost use Rattle.std.specs.Prelude.{◌≡◌, map, option_and_then, slice_get};
ghost use Rattle.std.specs.Option.{option_copied};
ghost use Rattle.serde_json.specs.Find.{as_str};
ghost use Rattle.oidc_claims.specs.Additional.{out_of};

use oidc_claims::AdditionalClaims;
use oidc_members::{FieldName, Member, MemberName, OutMember, ParseError, ParseKind, Refusal};
use serde_json::Value;
use std::alloc::{AllocError, Global};

/// The tenant that a user belongs to: the first additional member, whatever its name.
#[derive(Debug, Drop)]
pub struct Tenant {
    /// Its name.
    pub name: FieldName,
}

// The text that the first member has.
fn first_text(members: &[Member]) -> Option<&str>
    ensures { option_copied result
        ≡ option_and_then (λ m. as_str m.value) (slice_get (map out_of members.now) 0) }
{
    members.first()?.value().as_str()
}

impl AdditionalClaims for Tenant {
    ghost use Rattle.std.specs.Prelude.{[], ◌∷◌, codes, map, option_map, option_and_then, slice_get};
    ghost use Rattle.std.specs.Option.{ok_or};
    ghost use Rattle.std.proofs.Common.{ap, refl};
    ghost use Rattle.serde_json.specs.Data.{string};
    ghost use Rattle.serde_json.specs.Find.{as_str};
    ghost use Rattle.oidc_members.specs.declared.refusal.ParseKind.TheVariants.{Additional};
    ghost use Rattle.oidc_claims.specs.Additional.{out_of};

    ghost read_of = { λ members. ok_or
        (option_map (λ text. record { name = text })
        (option_and_then (λ m. as_str m.value) (slice_get (map out_of members) 0)))
        (record { kind = Additional; field = codes "tenant name" }) };

    ghost write_of = { λ tenant. record { name = codes "tenant"; value = string tenant.name } ∷ [] };

    ghost reads_back = { λ tenant members is. ap (λ outs. ok_or
        (option_map (λ text. record { name = text })
        (option_and_then (λ m. as_str m.value) (slice_get outs 0)))
        (record { kind = Additional; field = codes "tenant name" })) is };

    ghost stays_additional = { λ _. refl };

    fn read(alloc: Global, members: &[Member]) -> Result<Tenant, ParseError> {
        match first_text(members) {
            Some(text) => {
                let name = FieldName::new(String::from_str(alloc, text)?);
                Ok(Tenant { name })
            }
            None => Err(Refusal::of_field(alloc, ParseKind::Additional, "tenant name")?.into()),
        }
    }

    fn write(&self, alloc: Global) -> Result<Vec<OutMember>, AllocError> {
        let name = MemberName::of_word("tenant");
        let value = Value::String(String::from_str(alloc, self.name.as_str())?);
        let mut members = Vec::new(alloc);
        members.push(OutMember { name, value })?;
        Ok(members)
    }
}
