//! The program `vectors_discovery`: cases of key sets and of provider metadata as lines of text.
//!
//! The page of `case_lines` has the rules of lines, README.md the operations.
#![tactic(auto)]

mod documents;
mod key_sets;
mod operations;

use crate::operations::Operation;
use case_lines::{answer_lines, exit_code};
use std::process::ExitCode;

fn main(rt: HostRuntime) -> ExitCode {
    exit_code(answer_lines::<Operation, HostRuntime>(&rt))
}
