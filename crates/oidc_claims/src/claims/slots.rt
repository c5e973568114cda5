// What is kept of one claim while the members are read.
ghost use Rattle.std.specs.Prelude.{◌≡◌, ◌∷◌, ◌++◌, List, [], IfOk, OnOk};
ghost use Rattle.std.specs.Option.{option_copied};
ghost use Rattle.std.specs.Result.{result_err};
ghost use Rattle.std.specs.FinMap as finite;
ghost use Rattle.oidc_members.specs.Seen.{SeenMember};
ghost use Rattle.oidc_readers.specs.Fields.{is_nil};
ghost use Rattle.oidc_readers.specs.Kinds.{or_null};
ghost use Rattle.oidc_readers.specs.Passes.{Took};
ghost use Rattle.oidc_readers.specs.Slots.{slot_among};
ghost use Rattle.oidc_claims.specs.Claims.{once_fault, localized_fault, variants, unless_empty};
ghost use Rattle.oidc_claims.specs.Slots.{languages_slot};

use crate::name::tag_of_name;
use oidc_members::{Member, ParseError, ParseKind, Reading};
use oidc_readers::{FieldValue, Once, refused};
use oidc_types::{LanguageTag, LocalizedClaim};
use std::alloc::{AllocError, Global};

/// Takes a member of a claim that may stand once and under no tag, after those that came.
pub(crate) fn take_once<T: FieldValue>(
    slot: &mut Once<T>,
    alloc: Global,
    member: &Member,
    reading: Reading,
) -> Result<(), ParseError>
    ensures { let kind = T.read_of reading in
        (before : List SeenMember) → slot.old ≡ slot_among kind before
        → Took (once_fault kind before member.now) result
        (slot.new ≡ slot_among kind (before ++ member.now ∷ [])) }
{
    if !slot.seen && tag_of_name(member.name()).is_some() {
        return Err(refused(alloc, ParseKind::UnexpectedTag, member.name()));
    }
    slot.take_own(alloc, member, reading)
}

/// A claim in several languages: the tags that came, nulls included, and the values.
#[derive(Drop)]
pub(crate) struct Languages<T> {
    pub(crate) seen: LocalizedClaim<()>,
    pub(crate) values: LocalizedClaim<T>,
}

/// A copy of a tag.
fn owned_tag(alloc: Global, tag: Option<&str>) -> Result<Option<LanguageTag>, AllocError>
    ensures { IfOk result (λ owned. owned ≡ option_copied tag.entry) }
{
    match tag {
        None => Ok(None),
        Some(tag) => {
            let text = String::from_str(alloc, tag)?;
            Ok(Some(LanguageTag::new(text)))
        }
    }
}

/// Notes a tag, and answers whether it came before.
fn came_before(seen: &mut LocalizedClaim<()>, tag: Option<LanguageTag>) -> Result<bool, AllocError>
    ensures before { IfOk result (λ before. before ≡ finite.contains_key seen.old tag) }
    ensures noted { OnOk result (seen.new ≡ finite.insert seen.old tag tt) }
{
    Ok(seen.insert(tag, ())?.is_some())
}

/// Whether a claim has no value in any language.
fn is_empty<T>(values: &LocalizedClaim<T>) -> bool
    ensures { result ≡ is_nil (finite.entries values.now) }
{
    values.iter().next().is_none()
}

impl<T: FieldValue> Languages<T> {
    pub(crate) fn new(alloc: Global) -> Self
        ensures { result ≡ record { seen = finite.empty; values = finite.empty } }
    {
        Languages {
            seen: LocalizedClaim::new(alloc),
            values: LocalizedClaim::new(alloc),
        }
    }

    /// The values, where there are any.
    pub(crate) fn into_values(self) -> Option<LocalizedClaim<T>>
        ensures { result ≡ unless_empty self.values }
    {
        if is_empty(&self.values) {
            None
        } else {
            Some(self.values)
        }
    }

    /// Takes a member of the claim, after those that came.
    #[tactic(auto, using(crate::proofs::Tags::seen_any, crate::proofs::Tags::tags_push))]
    pub(crate) fn take(
        &mut self,
        alloc: Global,
        member: &Member,
        reading: Reading,
    ) -> Result<(), ParseError>
        ensures { let kind = T.read_of reading in
            (before : List SeenMember) → self.old ≡ languages_slot kind before
            → Took (localized_fault (or_null kind) before member.now) result
            (self.new ≡ languages_slot kind (before ++ member.now ∷ [])) }
    {
        let tag = match owned_tag(alloc, tag_of_name(member.name())) {
            Err(_) => return Err(ParseError::Memory),
            Ok(owned) => owned,
        };
        match came_before(&mut self.seen, tag) {
            Err(_) => return Err(ParseError::Memory),
            Ok(true) => return Err(refused(alloc, ParseKind::Duplicate, member.name())),
            Ok(false) => {}
        }
        add_value(&mut self.values, alloc, member, reading)?;
        Ok(())
    }
}

/// Adds the value of a member under its tag, where it is no null.
#[tactic(auto, using(crate::proofs::Tags::variants_push))]
fn add_value<T: FieldValue>(
    values: &mut LocalizedClaim<T>,
    alloc: Global,
    member: &Member,
    reading: Reading,
) -> Result<(), ParseError>
    ensures { let kind = T.read_of reading in
        (before : List SeenMember) → values.old ≡ variants kind before
        → Took (result_err (or_null kind member.now)) result
        (values.new ≡ variants kind (before ++ member.now ∷ [])) }
{
    match <Option<T> as FieldValue>::read(alloc, member, reading) {
        Err(error) => Err(error),
        Ok(None) => Ok(()),
        Ok(Some(value)) => match owned_tag(alloc, tag_of_name(member.name())) {
            Err(_) => Err(ParseError::Memory),
            Ok(owned) => match values.insert(owned, value) {
                Err(_) => Err(ParseError::Memory),
                Ok(_) => Ok(()),
            },
        },
    }
}
