// The members of an object.
ghost use Rattle.std.specs.Prelude.{◌≡◌, ◌==◌, Some, None, IsSome, IfOk, length, option_and_then, option_map, slice_get};
ghost use Rattle.std.specs.List.{list_any};
ghost use Rattle.serde_json.specs.Written.{has_float as value_has_float};
ghost use Rattle.oidc_members.specs.Answers.{Answers, OnRefused, listed};
ghost use Rattle.oidc_members.specs.Cut.{items_seen};
ghost use Rattle.oidc_members.specs.Objects.{member_of, all_some, loose_members_of, members_of, split_of};
ghost use Rattle.oidc_members.specs.declared.refusal.ParseKind.TheVariants.{Syntax, Number};

use crate::cut::{Item, items_of};
use crate::float::has_float;
use crate::member::Member;
use crate::reading::Reading;
use crate::refusal::{ParseError, ParseKind, Refusal};
use crate::space::trim;
use std::alloc::{AllocError, Global};
use std::marker::Model;

/// The members of an object, in order and with duplicates kept, and how their values are to be read.
/// A contract sees it as the record of their list and that reading.
#[derive(Drop)]
pub struct Members {
    members: Vec<Member>,
    reading: Reading,
}

impl Model for Members {
    ghost use Rattle.oidc_members.specs.Seen.{SeenMembers};
    ghost use Rattle.oidc_members.specs.Codes.{seen_members_code};

    ghost Value = { SeenMembers };

    ghost coded = { seen_members_code };

    ghost view = { λ object. record {
      list = object.members.items;
      reading = object.reading;
    } };
}

// The members that the items are, if each of them is one.
fn members_in(alloc: Global, items: &[Option<Item<'_>>]) -> Result<Option<Vec<Member>>, AllocError>
    ensures { IfOk result (λ found. option_map (λ members. members.items) found
        ≡ all_some (option_and_then member_of) (items_seen items.now)) }
{
    let mut members = Vec::with_capacity(alloc, items.len())?;
    for item in items {
        let Some(item) = item else {
            return Ok(None);
        };
        let Some(member) = Member::of_item(alloc, item)? else {
            return Ok(None);
        };
        members.push(member)?;
    }
    Ok(Some(members))
}

// The members of the object that the text is, where a value may hold floats.
#[tactic(auto, unfolding(crate::specs::Objects::loose_members_of))]
fn loose_members(alloc: Global, text: &[u8]) -> Result<Option<Vec<Member>>, AllocError>
    ensures { IfOk result (λ found. option_map (λ members. members.items) found
        ≡ loose_members_of text.now) }
{
    match items_of(alloc, trim(text))? {
        Some(items) => members_in(alloc, &items),
        None => Ok(None),
    }
}

fn holds_float(members: &[Member]) -> bool
    ensures { result ≡ list_any (λ member. value_has_float member.value) members.now }
{
    members.iter().any(|member| has_float(member.value()))
}

impl Members {
    /// The members of the object that the text is, white space around it left aside, under the
    /// strict reading.
    ///
    /// It refuses `Number` exactly where floats alone stand against the text, and `Syntax` exactly
    /// where it is no such object for another reason; the field is empty. A value may nest 127
    /// deep, and a float is a number that is no whole one from -2^63 to 2^64 - 1.
    #[tactic(auto, unfolding(crate::specs::Objects::members_of, crate::specs::Objects::split_of))]
    pub fn split(alloc: Global, text: &[u8]) -> Result<Members, ParseError>
        ensures members { IfOk result (λ members. members_of text.now ≡ Some members.list) }
        ensures reading { IfOk result (λ members. members.reading ≡ Reading.STRICT) }
        ensures number { OnRefused Number result (IsSome (loose_members_of text.now)
            × (members_of text.now ≡ None)) }
        ensures syntax { OnRefused Syntax result (loose_members_of text.now ≡ None) }

        // The same as one equation, for readers that go on from here.
        ensures answer { Answers (split_of text.now) (listed result) }
    {
        let Some(members) = loose_members(alloc, text)? else {
            return Err(Refusal::of_text(alloc, ParseKind::Syntax).into());
        };
        if holds_float(&members) {
            return Err(Refusal::of_text(alloc, ParseKind::Number).into());
        }
        Ok(Members {
            members,
            reading: Reading::STRICT,
        })
    }

    /// The same members, whose values are to be read in this way.
    pub fn with_reading(self, reading: Reading) -> Self
        ensures { result ≡ record self { reading = reading } }
    {
        Members {
            members: self.members,
            reading,
        }
    }

    /// How the values are to be read.
    pub fn reading(&self) -> Reading
        ensures { result ≡ self.now.reading }
    {
        self.reading
    }

    /// How many members there are, duplicates counted.
    pub fn len(&self) -> usize
        ensures { result ≡ length self.now.list }
    {
        self.members.len()
    }

    /// Whether there are none.
    pub fn is_empty(&self) -> bool
        ensures { result ≡ (length self.now.list == 0) }
    {
        self.members.is_empty()
    }

    /// The member at a place, counted from 0.
    pub fn get(&self, place: usize) -> Option<&Member>
        ensures { option_map (λ member. member.now) result ≡ slice_get self.now.list place }
    {
        self.members.get(place)
    }

    /// The members in order.
    pub fn as_slice(&self) -> &[Member]
        ensures { result.now ≡ self.now.list }
    {
        self.members.as_slice()
    }
}
