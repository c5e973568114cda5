//! Form pairs: the names and values of a query, a form body or a line of a script.
//!
//! The format is `application/x-www-form-urlencoded` of the URL Standard (section 5), which RFC
//! 6749 (appendix B) takes for its requests and answers. Several layers read and write it, so its
//! definitions stand here, at the bottom.
//!
//! - [`Pairs::parse`] reads any bytes at all: they are the list of pairs that the definition
//!   `pairs` gives. [`Pairs::first`] and [`Pairs::only`] look names up in it.
//! - [`first_value`] and [`only_value`] look one name up in a form text and keep none of its pairs;
//!   [`BorrowedPairs`] are the pairs, borrowed from the text where decoding changes nothing.
//! - [`FormText`] writes pairs one by one, and [`form_text`] writes a list of them; the text is the
//!   definition `form` of the list. [`push_pair`] adds a pair behind any form text, [`escaped_text`]
//!   writes one name or value alone, [`push_escaped`] behind a text.
//! - [`form_reads_back`] says that a list of pairs that was written is read as the same list.
//!
//! `README.md` says what is proved and by which clause, `CALLING.md` how to call it.
#![tactic(auto)]

mod borrowed;
mod decoding;
mod escape;
mod form;
mod front;
mod pairs;
mod scan;

pub use crate::borrowed::{BorrowedPair, BorrowedPairs};
pub use crate::escape::{escaped_text, push_escaped};
pub use crate::form::{FormText, form_reads_back, form_text, push_pair};
pub use crate::pairs::{Pair, Pairs};
pub use crate::scan::{first_value, only_value};
