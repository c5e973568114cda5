//! The program `replay` as a library: a script of logins is read, run, and reported; or a number of logins is
//! made, run from end to end, and counted.
//!
//! - [`run`] is the whole program but for its words and its adapters. On [`Command::Replay`] it reads a
//!   script of a [`Source`], runs its events through a store of pending logins of `oidc_login`, and puts
//!   the report into a [`Sink`]; on [`Command::Drill`] it leaves the source as it is, makes that number of logins
//!   itself, and puts a line of counts. Its contract says that 2 comes exactly for wrong words, that on
//!   1 and 4 the count of faults of sink and source rose, or stands at its last value, and, where the
//!   source's bytes are known, that on 0 of `replay` the script has no fault and on 3 it has one. 5 is
//!   free. Where the bytes of both are known, what it wrote is the report of the script, or the drill's
//!   line, or begins it.
//! - [`Source`] gives the bytes of a script and [`Sink`] takes those of a report. The bytes of each
//!   are known, or are not, and each counts its faults. [`MemorySource`] and [`MemorySink`] are in
//!   memory and fail at the calls that they are given; [`ReadSource`] and [`WriteSink`] are [`Counted`], over a
//!   reader and a writer of std.
//! - [`verdict_line`] is the line of a report for what a callback answered about a [`User`].
//!
//! # Scripts
//!
//! A script is cut into lines at line feeds. Each line is form pairs (URL Standard, section 5.1), of
//! which the first is `op`; no name stands twice, and the order of the others is free. The first line is a client
//! line, and each later one a begin or a callback line. A name with a `?` may be left out.
//!
//! - `op=client`: `id`, `secret?`, and the URL texts `issuer`, `auth`, `token`, `userinfo?` and `redirect?`; `algs`,
//!   the texts of signing algorithms with one space between them; `reading?`, which is `lenient`, where texts are taken
//!   for booleans and moments of ID tokens and user info.
//! - `op=begin`: `state`, `nonce` and `verifier`; `redirect?`, a URL text; `userinfo?`, which is `json` or `jwt`, where
//!   user info is asked for.
//! - `op=callback`: `now`, whole seconds since the Unix epoch; `query`; and the answer to the token
//!   request, where there is one: `token_fault`, which is `1`, or `token_status`, three digits from
//!   100 on, and with it `token_type?`, a content type, and `token_body?`; and behind it the answer to the user info
//!   request, where there is one, under the same names with `info_` in the place of `token_`.
//!
//! # Reports
//!
//! Each line ends in a line feed: `client ok`; `begin ok` and the URL, or `begin refused` and why;
//! for a callback a line `request` for each request that was sent, and then `callback ok` with access
//! token, any refresh token, claims, and user info where it was asked for, or `callback refused` and why; at last
//! `pending` and the number of pending logins, or `script fault line` and the number of the first line that is no
//! event in its place.
#![tactic(auto)]

mod beside;
mod calls;
mod commands;
mod drill;
mod events;
mod logins;
mod program;
mod reading;
mod replay;
mod report;
mod script;
mod sinks;
mod sources;
mod user;

pub use crate::calls::{Counted, Failed};
pub use crate::commands::Command;
pub use crate::program::{
    DONE, NO_MEMORY, SCRIPT_FAULT, SINK_FAULT, SOURCE_FAULT, WRONG_WORDS, run,
};
pub use crate::report::verdict_line;
pub use crate::sinks::{MemorySink, Sink, WriteSink};
pub use crate::sources::{MemorySource, ReadSource, Source};
pub use crate::user::User;
