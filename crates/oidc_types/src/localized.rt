//! Claims in several languages and scripts (OpenID Connect Core 1.0 section 5.2).

ghost use Rattle.std.specs.Prelude.{◌≡◌, OnErr, OnOk, IfOk};
ghost use Rattle.std.specs.Option.{option_copied};
ghost use Rattle.std.specs.FinMap as finite;
ghost use Rattle.oidc_types.specs.Localized.{entries_left, entry_shown, same_entry};

use crate::text::{Marker, Text};
use crate::texts::LanguageTag;
use std::alloc::{AllocError, Global};
use std::collections::BTreeMap;
use std::collections::btree_map::Iter;
use std::marker::Model;

/// A claim's values by their optional language tags. Contracts see a finite map, whose order puts
/// the value without a tag first, and then the tags by their bytes.
#[derive(Drop)]
pub struct LocalizedClaim<T> {
    untagged: Option<T>,
    tagged: BTreeMap<LanguageTag, T>,
}

impl<T> Model for LocalizedClaim<T> {
    ghost use Rattle.oidc_types.specs.Localized.{Variants, variants_code, variants_of};

    ghost Value = { Variants T };

    ghost coded = { variants_code T.code };

    ghost view = { λ c. variants_of c.untagged c.tagged.entries };
}

impl<T> LocalizedClaim<T> {
    /// No value. It takes no memory.
    pub fn new(alloc: Global) -> Self
        ensures empty { result ≡ finite.empty }
    {
        LocalizedClaim {
            untagged: None,
            tagged: BTreeMap::new(alloc),
        }
    }

    /// The value at a tag.
    pub fn get(&self, tag: Option<&LanguageTag>) -> Option<&T>
        ensures value { option_copied result ≡ finite.get self.now (option_copied tag.entry) }
    {
        match tag {
            None => self.untagged.as_ref(),
            Some(tag) => self.tagged.get(tag),
        }
    }

    /// Whether a value stands at a tag.
    pub fn contains_key(&self, tag: Option<&LanguageTag>) -> bool
        ensures has { result ≡ finite.contains_key self.now (option_copied tag.entry) }
    {
        self.get(tag).is_some()
    }

    /// Takes the value at a tag out.
    pub fn remove(&mut self, tag: Option<&LanguageTag>) -> Option<T>
        ensures value { result ≡ finite.get self.old (option_copied tag.entry) }
        ensures rest { self.new ≡ finite.remove self.old (option_copied tag.entry) }
    {
        match tag {
            None => self.untagged.take(),
            Some(tag) => self.tagged.remove(tag),
        }
    }

    /// The tags with their values, in order.
    pub fn iter(&self) -> LocalizedIter<'_, T>
        ensures all { entries_left result ≡ finite.entries self.now }
    {
        LocalizedIter {
            untagged: self.untagged.as_ref(),
            tagged: self.tagged.iter(),
        }
    }
}

impl<T: Drop> LocalizedClaim<T> {
    /// Puts a value at a tag, in place of the value that stood there, which is the answer. Where
    /// there is no memory, the one error, nothing changes.
    pub fn insert(&mut self, tag: Option<LanguageTag>, value: T) -> Result<Option<T>, AllocError>
        ensures before { IfOk result (λ before. before ≡ finite.get self.old tag) }
        ensures ok { OnOk result (self.new ≡ finite.insert self.old tag value) }
        ensures err { OnErr result (self.new ≡ self.old) }
    {
        match tag {
            None => {
                let before = self.untagged.take();
                self.untagged = Some(value);
                Ok(before)
            }
            Some(tag) => Ok(self.tagged.insert(tag, value)?),
        }
    }
}

impl<M: Marker> LocalizedClaim<Text<M>> {
    /// A copy of each tag and value. `AllocError` is want of memory, the one error.
    pub fn clone_in(&self, alloc: Global) -> Result<Self, AllocError>
        ensures copy { IfOk result (λ copy. copy ≡ self.now) }
    {
        let mut copy = LocalizedClaim::new(alloc);
        for (tag, value) in self.iter() {
            let tag = tag_in(alloc, tag)?;
            let value = value.clone_in(alloc)?;
            copy.insert(tag, value)?;
        }
        Ok(copy)
    }
}

/// A copy of a tag.
fn tag_in(alloc: Global, tag: Option<&LanguageTag>) -> Result<Option<LanguageTag>, AllocError>
    ensures { IfOk result (λ copy. copy ≡ option_copied tag.entry) }
{
    match tag {
        None => Ok(None),
        Some(tag) => Ok(Some(tag.clone_in(alloc)?)),
    }
}

/// Whether two entries have the same tag and equal values.
fn is_same_entry<T: PartialEq>(
    mine: (Option<&LanguageTag>, &T),
    theirs: (Option<&LanguageTag>, &T),
) -> bool
    ensures { result ≡ same_entry T.eq (entry_shown mine.entry) (entry_shown theirs.entry) }
{
    mine.0 == theirs.0 && mine.1 == theirs.1
}

impl<T: PartialEq> PartialEq for LocalizedClaim<T> {
    ghost use Rattle.oidc_types.specs.Localized.{same_variants};
    ghost use Rattle.std.specs.Cmp.{nat_eq_equiv, partial_equiv_from_equiv, and_per, on_per};
    ghost use Rattle.std.specs.Cmp.Lexicographic.{lists_per, lists_equiv, options_equiv};
    ghost use Rattle.std.specs.FinMap as finite;

    ghost eq = { λ a b. same_variants T.eq a b };

    ghost laws = { on_per finite.entries
        (lists_per (and_per
        (on_per (λ e. e.0) (partial_equiv_from_equiv (options_equiv (lists_equiv nat_eq_equiv))))
        (on_per (λ e. e.1) T.laws))) };

    fn eq(&self, other: &LocalizedClaim<T>) -> bool {
        let mut theirs = other.iter();
        for mine in self.iter() {
            match theirs.next() {
                None => return false,
                Some(their) => {
                    if !is_same_entry(mine, their) {
                        return false;
                    }
                }
            }
        }
        theirs.next().is_none()
    }
}

impl<T: Eq> Eq for LocalizedClaim<T> {
    ghost use Rattle.std.specs.Cmp.{nat_eq_equiv, and_equiv, on_equiv};
    ghost use Rattle.std.specs.Cmp.Lexicographic.{lists_equiv, options_equiv};
    ghost use Rattle.std.specs.FinMap as finite;

    ghost laws = { on_equiv finite.entries
        (lists_equiv (and_equiv
        (on_equiv (λ e. e.0) (options_equiv (lists_equiv nat_eq_equiv)))
        (on_equiv (λ e. e.1) T.Eq.laws))) };
}

/// Goes over a claim's tags with their values: the value without a tag first, and then by byte
/// order of the tags.
#[derive(Drop)]
pub struct LocalizedIter<'a, T> {
    untagged: Option<&'a T>,
    tagged: Iter<'a, LanguageTag, T>,
}

impl<'a, T> Iterator for LocalizedIter<'a, T> {
    type Item = (Option<&'a LanguageTag>, &'a T);

    ghost use Rattle.std.specs.Iterator.{YieldsFirstBy, item_count};
    ghost use Rattle.oidc_types.specs.Localized.{entries_left, entry_shown};

    ghost next_gives = { YieldsFirstBy entry_shown entries_left };

    ghost remaining = { item_count entries_left };

    fn next(&mut self) -> Option<(Option<&'a LanguageTag>, &'a T)> {
        match self.untagged.take() {
            Some(value) => Some((None, value)),
            None => match self.tagged.next() {
                Some((tag, value)) => Some((Some(tag), value)),
                None => None,
            },
        }
    }
}
