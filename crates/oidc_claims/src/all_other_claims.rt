//! All additional claims, kept as they came.

ghost use Rattle.std.specs.Prelude.{◌≡◌, [], ◌∷◌, ◌++◌, map, Bool, IfOk, OnOk};
ghost use Rattle.std.specs.List.{All};
ghost use Rattle.oidc_readers.specs.WrittenBack.{IsUtf8Member, KeepsUtf8};
ghost use Rattle.oidc_claims.specs.Additional.{are_written_additional, out_of};
ghost use Rattle.oidc_claims.specs.Others.{list_of};

use crate::additional::AdditionalClaims;
use crate::same::is_same_list;
use oidc_members::{Member, MemberName, OutMember, ParseError};
use oidc_readers::put;
use std::alloc::{AllocError, Global};
use std::marker::Model;

/// All additional members, with their names and values in their order. Nothing is refused, and they
/// are written as they were read.
///
/// Two are equal where their names and values are, one by one. A float is equal to none, not even to
/// itself; `Members::split` lets none in.
#[derive(Drop)]
pub struct AllOtherClaims {
    members: Vec<OutMember>,
    ghost additional: { are_written_additional members.items ≡ Bool.true },
}

impl Model for AllOtherClaims {
    ghost use Rattle.oidc_claims.specs.Others.{Others, others_code};

    ghost Value = { Others };

    ghost coded = { others_code };

    ghost view = { λ a. record { list = a.members.items; additional = a.additional } };
}

impl AllOtherClaims {
    /// The members, in their order.
    pub fn as_slice(&self) -> &[OutMember]
        ensures { result.now ≡ list_of self.now }
    {
        self.members.as_slice()
    }
}

// The name that is this text.
fn name_of(alloc: Global, text: &str) -> Result<MemberName, AllocError>
    ensures { IfOk result (λ name. name ≡ text.now) }
{
    Ok(MemberName::new(String::from_str(alloc, text)?))
}

// The names and values of members.
fn outs_of(alloc: Global, members: &[Member]) -> Result<Vec<OutMember>, AllocError>
    ensures { IfOk result (λ outs. outs.items ≡ map out_of members.now) }
{
    let mut outs = Vec::with_capacity(alloc, members.len())?;
    for member in members {
        put(
            &mut outs,
            name_of(alloc, member.name())?,
            member.value().clone()?,
        )?;
    }
    Ok(outs)
}

// Appends a copy of a member.
fn push_copy(
    alloc: Global,
    copies: &mut Vec<OutMember>,
    member: &OutMember,
) -> Result<(), AllocError>
    ensures members { OnOk result (copies.new.items ≡ copies.old.items ++ member.now ∷ []) }
    ensures texts { OnOk result (KeepsUtf8 copies.old.items copies.new.items) }
{
    put(
        copies,
        name_of(alloc, member.name.as_str())?,
        member.value.clone()?,
    )
}

fn copies_of(alloc: Global, members: &[OutMember]) -> Result<Vec<OutMember>, AllocError>
    ensures copies { IfOk result (λ copies. copies.items ≡ members.now) }
    ensures texts { IfOk result (λ copies. All IsUtf8Member copies.items) }
{
    let mut copies = Vec::with_capacity(alloc, members.len())?;
    for member in members {
        push_copy(alloc, &mut copies, member)?;
    }
    Ok(copies)
}

impl AdditionalClaims for AllOtherClaims {
    ghost use Rattle.std.specs.Prelude.{Ok};
    ghost use Rattle.std.proofs.Common.{ap, ◌∙◌};
    ghost use Rattle.oidc_claims.specs.Others.{read_others, list_of, others_of, others_of-list};

    ghost read_of = { read_others };

    ghost write_of = { list_of };

    ghost reads_back = { λ claims _ is. ap Ok (ap others_of is ∙ others_of-list claims) };

    ghost stays_additional = { λ claims. claims.additional };

    fn read(alloc: Global, members: &[Member]) -> Result<AllOtherClaims, ParseError> {
        match outs_of(alloc, members) {
            Ok(members) => Ok(AllOtherClaims { members }),
            Err(_) => Err(ParseError::Memory),
        }
    }

    fn write(&self, alloc: Global) -> Result<Vec<OutMember>, AllocError> {
        copies_of(alloc, self.members.as_slice())
    }
}

impl PartialEq for AllOtherClaims {
    ghost use Rattle.std.specs.Cmp.{on_per};
    ghost use Rattle.oidc_claims.specs.Same.{same_list};
    ghost use Rattle.oidc_claims.specs.Others.{list_of};
    ghost use Rattle.oidc_claims.specs.Same.{partly_equal, list_sound};

    ghost eq = { λ a b. same_list a.list b.list };

    ghost laws = { on_per list_of (partly_equal same_list list_sound) };

    fn eq(&self, other: &AllOtherClaims) -> bool {
        is_same_list(self.members.as_slice(), other.members.as_slice())
    }
}
