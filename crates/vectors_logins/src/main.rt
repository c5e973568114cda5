//! The program `vectors_logins`: cases of whole logins, and of the answers of other flows, as lines of text.
//!
//! The page of `case_lines` has the rules of lines, README.md the operations.
#![tactic(auto)]

mod devices;
mod displays;
mod front;
mod operations;
mod scripts;
mod sessions;
mod users;

use crate::operations::Operation;
use case_lines::{answer_lines, exit_code};
use std::process::ExitCode;

fn main(rt: HostRuntime) -> ExitCode {
    exit_code(answer_lines::<Operation, HostRuntime>(&rt))
}
