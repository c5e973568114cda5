//! The program `vectors_keys`: cases of RSA signatures and of the keys of a provider, as lines of text.
//!
//! The page of `case_lines` has the rules of lines, README.md the operations.
#![tactic(auto)]

mod operations;
mod provider_keys;
mod rsa;

use crate::operations::Operation;
use case_lines::{answer_lines, exit_code};
use std::process::ExitCode;

fn main(rt: HostRuntime) -> ExitCode {
    exit_code(answer_lines::<Operation, HostRuntime>(&rt))
}
