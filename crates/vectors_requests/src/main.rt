//! The program `vectors_requests`: cases of the requests that the typed client makes beside the one that exchanges a
//! code, and of their answers, as lines of text.
//!
//! The page of `case_lines` has the rules of lines, README.md the operations.
#![tactic(auto)]

mod answers;
mod asked;
mod clients;
mod operations;
mod requests;

use crate::operations::Operation;
use case_lines::{answer_lines, exit_code};
use std::process::ExitCode;

fn main(rt: HostRuntime) -> ExitCode {
    exit_code(answer_lines::<Operation, HostRuntime>(&rt))
}
