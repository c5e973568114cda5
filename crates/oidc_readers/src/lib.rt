//! Records that are read from the members of a JSON object, and what is written of them.
//!
//! Claims, ID tokens, headers and answers of a token server are read alike: each is a table of
//! fields, the members are judged in order, each after those that stand before it, and the first
//! faulty one refuses the object.
//!
//! - [`FieldValue`] is a kind of values: what a member of it reads as. Texts, secrets, flags, whole
//!   numbers, [`Moment`]s, URLs, [`Texts`], [`TextOrTexts`], [`Present`] and `Option`s are such kinds.
//!   What flags and moments are depends on the reading: it may take texts for them.
//! - [`Once`] is the slot of a field that may stand once.
//! - [`MemberReader`] is what a reader keeps. Its meanings are `fault`, the refusal of a member after
//!   those before it, and `state`, what is kept of the members that came. [`Both`] joins two.
//! - [`read_fields`] is the pass, and [`read_members`] the same with the place of a refusal.
//! - [`put`] and its like append the members that a record is written as, which are UTF-8.
//! - [`laws`] says that what is written is read back as it was, where its names and texts are UTF-8 and
//!   it holds no float, and that no text is a boolean or a moment under the strict reading.
//!
//! What it promises. A field's member is refused where one of its names stood before, or where its
//! value isn't of the field's kind. A pass over the members answers the first faulty member's refusal, by looking back
//! from each member over all that stand before it, and where no member is faulty it answers what is
//! kept of them all; then a missing field refuses, in the order of the table. Want of memory is an
//! answer of its own, and no clause says when it comes.
#![tactic(auto)]

mod kinds;
pub mod laws;
mod moment_texts;
mod moments;
mod passes;
mod records;
mod slots;
mod writing;

pub use crate::kinds::{FieldValue, Present, TextOrTexts, Texts, refused};
pub use crate::moments::{Moment, seconds_value, timestamp_of};
pub use crate::passes::{MemberReader, PlacedError, read_members};
pub use crate::records::{Both, read_fields};
pub use crate::slots::Once;
pub use crate::writing::{
    named, put, put_optional_moment, put_optional_text, put_optional_whole, put_text, put_texts,
};
