//! The slot of a field.

ghost use Rattle.std.specs.Prelude.{◌≡◌, ◌∷◌, ◌++◌, List, [], None, false, unwrap_or};
ghost use Rattle.std.specs.Option.{ok_or, option_flatten};
ghost use Rattle.oidc_readers.specs.Answers.{Answers};
ghost use Rattle.oidc_readers.specs.Seen.{SeenMember};
ghost use Rattle.oidc_readers.specs.Passes.{Took};
ghost use Rattle.oidc_readers.specs.Fields.{field, field_or, judged_among, judged};
ghost use Rattle.oidc_readers.specs.Slots.{slot_among, slot, slot_value};
ghost use Rattle.oidc_readers.specs.Records.{missing};

use crate::kinds::{FieldValue, refused};
use oidc_members::{Member, ParseError, ParseKind, Reading};
use std::alloc::Global;

/// A field that may stand once: whether its member came, and its value.
#[derive(Drop)]
pub struct Once<T> {
    /// Whether a member of the field came.
    pub seen: bool,
    /// The value of the first one.
    pub value: Option<T>,
}

impl<T: FieldValue> Once<T> {
    /// The slot before any member came.
    pub fn new() -> Self
        ensures empty { result ≡ record { seen = false; value = None } }
    {
        Once {
            seen: false,
            value: None,
        }
    }

    /// Takes the member where it has that name, under the strict reading. The fields of an answer of a
    /// token server and of a header are read so, whatever the reading of their members is.
    pub fn take(&mut self, alloc: Global, name: &str, member: &Member) -> Result<(), ParseError>
        ensures { let f = field name.now (T.read_of Reading.STRICT) in
            (before : List SeenMember) → self.old ≡ slot f before
            → Took (judged f before member.now) result
            (self.new ≡ slot f (before ++ member.now ∷ [])) }
    {
        self.take_under(alloc, name, member, Reading::STRICT)
    }

    /// Takes the member where it has that name, under a reading.
    #[tactic(auto, unfolding(crate::specs::Fields::judged, crate::specs::Slots::slot))]
    pub fn take_under(
        &mut self,
        alloc: Global,
        name: &str,
        member: &Member,
        reading: Reading,
    ) -> Result<(), ParseError>
        ensures { let f = field name.now (T.read_of reading) in
            (before : List SeenMember) → self.old ≡ slot f before
            → Took (judged f before member.now) result
            (self.new ≡ slot f (before ++ member.now ∷ [])) }
    {
        if member.is_named(name) {
            self.take_own(alloc, member, reading)
        } else {
            Ok(())
        }
    }

    /// Takes the member where it has one of these two names, under the strict reading.
    #[tactic(auto, unfolding(crate::specs::Fields::judged, crate::specs::Slots::slot))]
    pub fn take_either(
        &mut self,
        alloc: Global,
        name: &str,
        alias: &str,
        member: &Member,
    ) -> Result<(), ParseError>
        ensures { let f = field_or name.now alias.now (T.read_of Reading.STRICT) in
            (before : List SeenMember) → self.old ≡ slot f before
            → Took (judged f before member.now) result
            (self.new ≡ slot f (before ++ member.now ∷ [])) }
    {
        if member.is_named(name) || member.is_named(alias) {
            self.take_own(alloc, member, Reading::STRICT)
        } else {
            Ok(())
        }
    }

    /// Takes a member that is known to be the field's own, after those of the field that came.
    pub fn take_own(
        &mut self,
        alloc: Global,
        member: &Member,
        reading: Reading,
    ) -> Result<(), ParseError>
        ensures { let kind = T.read_of reading in
            (came : List SeenMember) → self.old ≡ slot_among kind came
            → Took (judged_among kind came member.now) result
            (self.new ≡ slot_among kind (came ++ member.now ∷ [])) }
    {
        if self.seen {
            return Err(refused(alloc, ParseKind::Duplicate, member.name()));
        }
        self.seen = true;
        self.value = Some(T::read(alloc, member, reading)?);
        Ok(())
    }

    /// The value, which has to be there; else the field of that name is missing. It is asked of
    /// members that were all taken: then a slot that has seen one holds its value.
    pub fn required(self, alloc: Global, name: &str) -> Result<T, ParseError>
        ensures value { Answers (ok_or (slot_value self) (missing name.now)) result }
    {
        match self.value {
            Some(value) => Ok(value),
            None => Err(refused(alloc, ParseKind::Missing, name)),
        }
    }

    /// The value, or this one where the field is missing.
    pub fn or(self, other: T) -> T
        ensures value { result ≡ unwrap_or (slot_value self) other }
    {
        match self.value {
            Some(value) => value,
            None => other,
        }
    }
}

impl<T: FieldValue> Once<Option<T>> {
    /// The value, where there is one and it is no null.
    pub fn optional(self) -> Option<T>
        ensures value { result ≡ option_flatten (slot_value self) }
    {
        match self.value {
            Some(value) => value,
            None => None,
        }
    }
}
