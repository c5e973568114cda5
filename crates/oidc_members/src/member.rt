// One member of an object.
ghost use Rattle.std.specs.Prelude.{◌≡◌, IfOk};
ghost use Rattle.std.specs.Str.{bytes_eq};
ghost use Rattle.serde_json.specs.View.{view};
ghost use Rattle.oidc_members.specs.Objects.{member_of};

use crate::cut::Item;
use crate::read::{name_of, value_of};
use crate::space::trim;
use serde_json::Value;
use std::alloc::{AllocError, Global};
use std::marker::Model;

/// A member of an object: its name, its value, and the bytes of the value as they stood, without
/// the white space around them. A contract sees it as the record of these three.
#[derive(Drop)]
pub struct Member {
    value: Value,
    // the bytes of the value, and behind them those of the name: one piece of memory for both
    bytes: Vec<u8>,
    text_len: usize,
}

impl Model for Member {
    ghost use Rattle.std.specs.Prelude.{◌≤◌, length, take, drop};
    ghost use Rattle.std.specs.Str.{IsUtf8};
    ghost use Rattle.serde_json.specs.View.{view as data_of};
    ghost use Rattle.oidc_members.specs.Seen.{SeenMember};
    ghost use Rattle.oidc_members.specs.Codes.{seen_member_code};

    ghost Value = { SeenMember };

    ghost coded = { seen_member_code };

    ghost view = { λ m. record {
      name = drop m.text_len m.bytes.items;
      value = data_of m.value;
      text = take m.text_len m.bytes.items;
    } };

    ghost invariant = { λ m. (m.text_len ≤ length m.bytes.items)
        × IsUtf8 (drop m.text_len m.bytes.items) };
}

impl Member {
    // The member that an item is, if its name reads as a text and its value reads.
    #[tactic(auto, unfolding(crate::specs::Objects::member_of))]
    pub(crate) fn of_item(alloc: Global, item: &Item<'_>) -> Result<Option<Member>, AllocError>
        ensures { IfOk result (λ found. found ≡ member_of (item.now.name.now, item.now.value.now)) }
    {
        let Some(name) = name_of(alloc, item.name, trim(item.name))? else {
            return Ok(None);
        };
        let text = trim(item.value);
        let Some(value) = value_of(alloc, item.value, text)? else {
            return Ok(None);
        };
        Ok(Some(Member::of_parts(alloc, name.as_str(), value, text)?))
    }

    // The member of these parts.
    fn of_parts(alloc: Global, name: &str, value: Value, text: &[u8]) -> Result<Member, AllocError>
        ensures { IfOk result (λ member. member
            ≡ record { name = name.now; value = view value; text = text.now }) }
    {
        let mut bytes = Vec::with_capacity(alloc, text.len() + name.len())?;
        bytes.extend_from_slice(text)?;
        bytes.extend_from_slice(name.as_bytes())?;
        Ok(Member {
            value,
            bytes,
            text_len: text.len(),
        })
    }

    /// The name, with its escapes read.
    pub fn name(&self) -> &str
        ensures { result.now ≡ self.now.name }
    {
        match str::from_utf8(&self.bytes[self.text_len..]) {
            Ok(name) => name,
            Err(_) => unreachable!(),
        }
    }

    /// Whether this is the name. It is asked of each member for each field of a record, and looks at the name's bytes
    /// as they stand.
    pub fn is_named(&self, name: &str) -> bool
        ensures { result ≡ bytes_eq self.now.name name.now }
    {
        &self.bytes[self.text_len..] == name.as_bytes()
    }

    /// The value that `serde_json` reads.
    pub fn value(&self) -> &Value
        ensures { view result.now ≡ self.now.value }
    {
        &self.value
    }

    /// The bytes of the value as they stood, without the white space around them.
    pub fn text(&self) -> &[u8]
        ensures { result.now ≡ self.now.text }
    {
        &self.bytes[..self.text_len]
    }

    /// A copy of the member, which equals it.
    pub fn clone_in(&self, alloc: Global) -> Result<Self, AllocError>
        ensures { IfOk result (λ copy. copy ≡ self.now) }
    {
        let value = self.value.clone()?;
        let bytes = Vec::from_slice(alloc, self.bytes.as_slice())?;
        Ok(Member {
            value,
            bytes,
            text_len: self.text_len,
        })
    }
}
