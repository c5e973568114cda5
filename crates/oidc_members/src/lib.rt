//! A JSON object as the list of its members, in order and with duplicates kept.
//!
//! Claims, token answers and headers are JSON objects whose readers must see every member: a
//! repeated name refuses a token, and of two faults the first in the text counts. A map would keep
//! one member of each name, so `Members::split` cuts the text itself. Each name and each value is
//! what `serde_json` reads. Strings without escapes, whole numbers without a sign, `true`, `false`
//! and `null` are known at sight; all others it is asked for.
//!
//! - `Members` is the list, `Member` one name with its value and the bytes of the value.
//! - `Reading` says which spellings of booleans and moments the readers of a list take. The list
//!   carries it; what it means for a value stands in `oidc_readers`. [`laws`] says what the strict
//!   one is.
//! - `OutMember`, whose name is a `MemberName`, and `write_object` go the other way: the compact text
//!   of a list of members.
//! - `ParseError`, `Refusal` and `ParseKind` say why a text was refused, and at which field; each
//!   reader of this project answers with them. `FieldName` is that field's name.
//!
//! What it promises. `split` gives exactly the members that the definition `members_of` of the
//! text has, and refuses exactly where it has none: as `Number` where floats alone stand against
//! it, as `Syntax` otherwise. `write_object` gives the compact text in list order where no value
//! holds a float, and says nothing of a text where one does. A copy of a member equals it. Want of
//! memory is an answer of its own, and no clause says when it comes.
//!
//! An object is one of RFC 8259 section 4, with two limits: a value nests at most 127 deep, and
//! its numbers are whole, from -2^63 to 2^64 - 1 (section 6 lets a reader set such a range).
//!
//! Members may hold secrets, as a token answer's do, so none of these types has a `Debug`.
//! `README.md` says what is proved and by which clause, `CALLING.md` how to call it.
#![tactic(auto)]

mod cut;
mod field_name;
mod float;
pub mod laws;
mod member;
mod member_name;
mod objects;
mod read;
mod reading;
mod refusal;
mod scan;
mod sight;
mod space;
mod write;

pub use crate::field_name::FieldName;
pub use crate::member::Member;
pub use crate::member_name::MemberName;
pub use crate::objects::Members;
pub use crate::reading::Reading;
pub use crate::refusal::{ParseError, ParseKind, Refusal};
pub use crate::write::{OutMember, write_object};
