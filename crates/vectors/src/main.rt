//! The program `vectors`: cases of the lower layers as lines of text.
//!
//! The layers are those below ID tokens: form pairs, members, types, claims, keys, and the requests and
//! answers of OAuth 2.0. The page of `case_lines` has the rules of lines, README.md the operations.
#![tactic(auto)]

mod claims;
mod displays;
mod exchanges;
mod headers;
mod keys;
mod members;
mod operations;
mod pkce;
mod records;
mod types;
mod vocabularies;

use crate::operations::Operation;
use case_lines::{answer_lines, exit_code};
use std::process::ExitCode;

fn main(rt: HostRuntime) -> ExitCode {
    exit_code(answer_lines::<Operation, HostRuntime>(&rt))
}
