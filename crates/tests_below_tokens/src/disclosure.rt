//! A gender that is no text, and is refused by a kind and a field of its own.

use oidc_claims::GenderClaim;
use oidc_members::{Member, ParseError, ParseKind, Refusal};
use serde_json::Value;
use std::alloc::{AllocError, Global};

/// Whether a user has disclosed a gender. It is no text, and is refused by a kind and a field of its own.
#[derive(Clone, Copy, Debug, Drop, PartialEq)]
pub struct Disclosure {
    /// Whether there is one to be disclosed.
    pub is_disclosed: bool,
}

impl GenderClaim for Disclosure {
    ghost use Rattle.std.specs.Prelude.{codes, option_map};
    ghost use Rattle.std.specs.Option.{ok_or};
    ghost use Rattle.std.proofs.Common.{ap, lit≤};
    ghost use Rattle.serde_json.specs.Data.{boolean};
    ghost use Rattle.serde_json.specs.Find.{as_bool};
    ghost use Rattle.oidc_members.specs.declared.refusal.ParseKind.TheVariants.{Additional};

    ghost read_of = { λ member. ok_or
        (option_map (λ disclosed. record { is_disclosed = disclosed }) (as_bool member.value))
        (record { kind = Additional; field = codes "disclosure" }) };

    ghost write_of = { λ gender. boolean gender.is_disclosed };

    ghost reads_back = { λ gender member is. ap (λ value. ok_or
        (option_map (λ disclosed. record { is_disclosed = disclosed }) (as_bool value))
        (record { kind = Additional; field = codes "disclosure" })) is };

    ghost written_is_value = { λ _. (λ e. Prim.cc, (tt, lit≤ tt)) };

    fn read(alloc: Global, member: &Member) -> Result<Disclosure, ParseError> {
        match member.value() {
            Value::Bool(is_disclosed) => Ok(Disclosure {
                is_disclosed: *is_disclosed,
            }),
            _ => Err(Refusal::of_field(alloc, ParseKind::Additional, "disclosure")?.into()),
        }
    }

    fn write(&self, _alloc: Global) -> Result<Value, AllocError> {
        Ok(Value::Bool(self.is_disclosed))
    }

    fn clone_in(&self, _alloc: Global) -> Result<Disclosure, AllocError> {
        Ok(*self)
    }
}
