//! The program `vectors_tokens`: cases of ID tokens, user info and the typed client as lines of text.
//!
//! The page of `case_lines` has the rules of lines, README.md the operations.
#![tactic(auto)]

mod authorization;
mod displays;
mod logout;
mod operations;
mod refreshed;
mod responses;
mod tokens;
mod user_info;
mod verifiers;
mod words;

use crate::operations::Operation;
use case_lines::{answer_lines, exit_code};
use std::process::ExitCode;

fn main(rt: HostRuntime) -> ExitCode {
    exit_code(answer_lines::<Operation, HostRuntime>(&rt))
}
