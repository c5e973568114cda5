// Where the items of an object are cut.
ghost use Rattle.std.specs.Prelude.{◌≡◌, ◌+◌, ◌-◌, ◌<◌, ◌≤◌, length, true, false, map, IfOk, OnOk, MatchOption};
ghost use Rattle.std.specs.List.{slice_split};
ghost use Rattle.oidc_members.specs.Places.{places, is_at_level_one, comma, colon as colon_byte};
ghost use Rattle.oidc_members.specs.Objects.{is_braced, pieces, halves, between};
ghost use Rattle.oidc_members.specs.Scan.{IsAt};
ghost use Rattle.oidc_members.specs.Cut.{IsFirst, IsCutUpTo, item_seen, items_seen};

use crate::scan::Scan;
use crate::space::is_blank;
use std::alloc::{AllocError, Global};

// The bytes before and behind an item's colon.
#[derive(Clone, Copy, Drop)]
pub(crate) struct Item<'a> {
    pub(crate) name: &'a [u8],
    pub(crate) value: &'a [u8],
}

// The items so far, where the next one starts, and its first colon. An item without a colon is
// `None`: it has no name and no value.
#[derive(Drop)]
pub(crate) struct Cuts<'a> {
    items: Vec<Option<Item<'a>>>,
    start: usize,
    colon: Option<usize>,
}

impl<'a> Item<'a> {
    // The item from one place up to another, by its first colon.
    fn cut(text: &'a [u8], start: usize, colon: Option<usize>, end: usize) -> Option<Item<'a>>
        requires range { start ≤ end }
        requires end { end ≤ length text.now }
        requires first { IsFirst (is_at_level_one text.now colon_byte) start end colon }
        ensures { item_seen result ≡ halves text.now (places start end) }
    {
        match colon {
            Some(colon) => Some(Item {
                name: &text[start..colon],
                value: &text[colon + 1..end],
            }),
            None => None,
        }
    }
}

impl<'a> Cuts<'a> {
    // There is room for a dozen items at once: claims and answers seldom have more.
    fn new(alloc: Global, text: &[u8]) -> Result<Cuts<'a>, AllocError>
        ensures { IfOk result (λ cuts. IsCutUpTo text.now (length text.now - 1) 1 cuts) }
    {
        let items = Vec::with_capacity(alloc, 12)?;
        Ok(Cuts {
            items,
            start: 1,
            colon: None,
        })
    }

    // Takes the byte at a place.
    fn take(&mut self, text: &'a [u8], scan: &Scan, i: usize) -> Result<(), AllocError>
        requires at { IsAt text.now i scan.now }
        requires within { i < length text.now - 1 }
        requires cut { IsCutUpTo text.now (length text.now - 1) i self.old }
        ensures { OnOk result (IsCutUpTo text.now (length text.now - 1) (i + 1) self.new) }
    {
        if scan.is_at_level_one(text, b',', i) {
            self.items.push(Item::cut(text, self.start, self.colon, i))?;
            self.start = i + 1;
            self.colon = None;
        } else if self.colon.is_none() && scan.is_at_level_one(text, b':', i) {
            self.colon = Some(i);
        }
        Ok(())
    }

    // The items, the last of which ends with the object.
    fn finish(self, text: &'a [u8]) -> Result<Vec<Option<Item<'a>>>, AllocError>
        requires some { 1 < length text.now }
        requires cut { IsCutUpTo text.now (length text.now - 1) (length text.now - 1) self }
        ensures { IfOk result (λ items. items_seen items.items
            ≡ map (halves text.now)
            (slice_split (is_at_level_one text.now comma) (between text.now))) }
    {
        let Cuts {
            mut items,
            start,
            colon,
        } = self;
        items.push(Item::cut(text, start, colon, text.len() - 1))?;
        Ok(items)
    }
}

// The items of an object, where the text is one: it goes over the text once.
pub(crate) fn items_of<'a>(
    alloc: Global,
    text: &'a [u8],
) -> Result<Option<Vec<Option<Item<'a>>>>, AllocError>
    ensures { IfOk result (λ found. MatchOption found (is_braced text.now ≡ false)
        (λ items. (is_braced text.now ≡ true)
        × (items_seen items.items ≡ map (halves text.now) (pieces text.now)))) }
{
    if text.len() < 2 || text[0] != b'{' {
        return Ok(None);
    }
    let last = text.len() - 1;
    let mut scan = Scan::behind_brace(text);
    let mut cuts = Cuts::new(alloc, text)?;
    let mut i = 1;
    while i < last {
        cuts.take(text, &scan, i)?;
        scan = scan.step(text, i);
        if scan.level == 0 {
            return Ok(None);
        }
        i = scan.skip(text, i + 1, last);
    }
    if !scan.is_at_level_one(text, b'}', last) {
        return Ok(None);
    }
    if is_blank(&text[1..last]) {
        return Ok(Some(Vec::new(alloc)));
    }
    Ok(Some(cuts.finish(text)?))
}
