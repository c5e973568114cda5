//! From the lines of standard input to those of standard output.

ghost use Rattle.std.specs.Prelude.{◌≡◌, ◌↔◌, ◌⊎◌, ◌≢◌, None, Some, Ok, Err, IfOk, IsErr, IsTrue};
ghost use Rattle.std.specs.Prelude.{codes, slice_get, ℕ, List, Option};
ghost use Rattle.std.specs.String.{string_bytes};
ghost use Rattle.std.specs.IoError.{error_kind};

use crate::case::{Case, CaseError};
use std::alloc::{AllocError, Global};
use std::io;
use std::io::{BufRead, BufReader, BufWriter, ErrorKind, Write};
use std::process::ExitCode;

/// The exit status for want of memory.
const NO_MEMORY: u8 = 5;

/// The exit status where input or output failed.
const NO_INPUT_OR_OUTPUT: u8 = 1;

/// What the cases of a program ask for.
pub trait CaseOperation: Sized {
    // The operation of a name, where there is one.
    ghost operation_of: { List ℕ → Option Self };

    /// The operation of that name.
    fn named(name: &str) -> Option<Self>
        ensures name { result ≡ operation_of name.now };

    /// The answer of a case.
    fn answer(self, alloc: Global, case: &Case) -> Result<String, CaseError>;
}

// Whether a line groups cases: it is empty or begins with `#`.
fn is_comment(line: &str) -> bool
    ensures { IsTrue result ↔ ((slice_get line.now 0 ≡ None) ⊎ (slice_get line.now 0 ≡ Some 35)) }
{
    line.is_empty() || line.as_bytes()[0] == b'#'
}

// The answer of a case.
fn answer_case<O: CaseOperation>(alloc: Global, line: &str) -> Result<String, CaseError> {
    let case = Case::read(alloc, line)?;
    answer_operation(alloc, O::named(case.op()), &case)
}

// The answer of a case by its operation.
fn answer_operation<O: CaseOperation>(
    alloc: Global,
    operation: Option<O>,
    case: &Case,
) -> Result<String, CaseError>
    ensures unknown { operation ≡ None → result ≡ Err CaseError.NoCase }
{
    match operation {
        Some(operation) => operation.answer(alloc, case),
        None => Err(CaseError::NoCase),
    }
}

// The line of a case: its answer, or that it is none.
fn case_line(alloc: Global, answered: Result<String, CaseError>) -> Result<String, AllocError>
    ensures answered { IfOk answered (λ text. result ≡ Ok text) }
    ensures no_case { answered ≡ Err CaseError.NoCase
        → IfOk result (λ text. string_bytes text ≡ codes "no case") }
    ensures memory { answered ≡ Err CaseError.Memory → IsErr result }
{
    match answered {
        Ok(text) => Ok(text),
        Err(CaseError::NoCase) => String::from_str(alloc, "no case"),
        Err(CaseError::Memory) => Err(AllocError),
    }
}

// The line that answers this one.
fn answer<O: CaseOperation>(alloc: Global, line: &str) -> Result<String, AllocError>
    ensures empty { slice_get line.now 0 ≡ None
        → IfOk result (λ text. string_bytes text ≡ line.now) }
    ensures comment { slice_get line.now 0 ≡ Some 35
        → IfOk result (λ text. string_bytes text ≡ line.now) }
{
    if is_comment(line) {
        return String::from_str(alloc, line);
    }
    case_line(alloc, answer_case::<O>(alloc, line))
}

/// Writes a line for each line of the input.
pub fn answer_lines<O: CaseOperation, R: Input + Alloc<A = Global> + Print>(
    rt: &R,
) -> io::Result<()> {
    let mut output = BufWriter::new(rt.alloc(), io::writer(rt))?;
    for line in BufReader::new(rt.alloc(), rt.reader())?.lines(rt.alloc()) {
        let text = answer::<O>(rt.alloc(), line?.as_str())?;
        writeln!(output, "{text}")?;
    }
    output.flush()
}

// The exit status for an error.
fn status_of(error: &io::Error) -> u8
    ensures memory { (result ≡ 5) ↔ (error_kind error.now ≡ ErrorKind.OutOfMemory) }
    ensures failed { error_kind error.now ≢ ErrorKind.OutOfMemory → result ≡ 1 }
{
    if error.kind() == ErrorKind::OutOfMemory {
        NO_MEMORY
    } else {
        NO_INPUT_OR_OUTPUT
    }
}

/// The exit code of a program whose lines were written, or not.
pub fn exit_code(written: io::Result<()>) -> ExitCode {
    match written {
        Ok(()) => ExitCode::from(0),
        Err(error) => ExitCode::from(status_of(&error)),
    }
}
