//! The program `replay`: the words after its name, and the adapters over standard input and output.
//!
//! `replay replay` reads a script from standard input and writes its report to standard output.
//! `replay drill N` reads nothing, makes N logins itself, runs them from end to end, and writes a line of
//! counts. The exit status is that of `exit_status` over the arguments and the two adapters: that of [`oidc_cli::run`]
//! for all words behind the program's name. Words that can't be read as text are wrong words, and where there is no memory
//! for the words the status is that of want of memory; nothing is read or written then. Nothing is written to standard
//! error.
#![tactic(auto)]

#[cfg(test)]
mod tests;

ghost use Rattle.std.specs.Prelude.{◌≡◌, ◌≢◌, ◌↔◌, ◌⊎◌, ◌≤◌, List, ℕ, length, map, Some, None, IfOk, IfErr};
ghost use Rattle.std.specs.String.{string_bytes};
ghost use Rattle.std.specs.IoError.{error_kind};
ghost use Rattle.std.specs.Io.KnownBytes.{IsAtEnd};
ghost use Rattle.oidc_cli.specs.{HasRisen, Takes, Puts, PutsPrefix, fault_of, report, drill_text, command_of, Asks, EndsInFault};
ghost use Rattle.replay.specs.Words.{words_in};

use oidc_cli::{Command, NO_MEMORY, ReadSource, Sink, Source, WRONG_WORDS, WriteSink, run};
use std::alloc::{AllocError, Global};
use std::env::Args;
use std::io::ErrorKind;
use std::process::ExitCode;
use std::{env, io};

// The words behind the program's name.
fn words_of(alloc: Global, arguments: Args) -> Result<Vec<String>, AllocError>
    ensures { IfOk result (λ words. words.items ≡ words_in arguments) }
{
    arguments.skip(1).collect(alloc)
}

// The status where there are no arguments.
fn status_without_arguments(error: &io::Error) -> u8
    ensures memory { error_kind error.now ≡ ErrorKind.OutOfMemory → result ≡ 5 }
    ensures unreadable { error_kind error.now ≢ ErrorKind.OutOfMemory → result ≡ 2 }
{
    if error.kind() == ErrorKind::OutOfMemory {
        NO_MEMORY
    } else {
        WRONG_WORDS
    }
}

// Runs the program for these arguments, of which the first is its name, or for none.
fn exit_status<S: Source, O: Sink>(
    alloc: Global,
    arguments: io::Result<Args>,
    source: &mut S,
    sink: &mut O,
) -> u8
    ensures status { result ≤ 5 }

    // Without arguments: why there are none.
    ensures memory { IfErr arguments
        (λ error. error_kind error ≡ ErrorKind.OutOfMemory → result ≡ 5) }
    ensures unreadable { IfErr arguments
        (λ error. error_kind error ≢ ErrorKind.OutOfMemory → result ≡ 2) }
    ensures untouched { IfErr arguments
        (λ error. (source.new ≡ source.old) × (sink.new ≡ sink.old)) }

    // With arguments: what `run` promises of the words behind the first, but that 5 may come for want of memory for them.
    ensures words { IfOk arguments (λ all. result ≢ 5
        → (result ≡ 2) ↔ (command_of (map string_bytes (words_in all)) ≡ None)) }
    ensures asked { IfOk arguments (λ all. result ≢ 2 → result ≢ 5
        → (command : Command) × Asks (words_in all) command) }
    ensures idle { result ≡ 2 → (source.new ≡ source.old) × (sink.new ≡ sink.old) }
    ensures unwritten { result ≡ 4 → sink.new ≡ sink.old }
    ensures sink_fault { result ≡ 1 → HasRisen (O.faults sink.old) (O.faults sink.new) }
    ensures source_fault { result ≡ 4 → HasRisen (S.faults source.old) (S.faults source.new) }
    ensures of_a_script { IfOk arguments
        (λ all. (result ≡ 3) ⊎ (result ≡ 4) → Asks (words_in all) Command.Replay) }
    ensures counts { IfOk arguments (λ all. (S.faults source.old ≤ S.faults source.new)
        × (O.faults sink.old ≤ O.faults sink.new)) }
    ensures bounded { IfOk arguments (λ all. (read : List ℕ)
        × Takes (S.remaining source.old) (S.remaining source.new) read
        × (length read ≤ 67_108_865)) }

    // Where they are `replay`.
    ensures ended { IfOk arguments (λ all. Asks (words_in all) Command.Replay
        → result ≡ 0 → IsAtEnd (S.remaining source.new)) }
    ensures whole { IfOk arguments (λ all. (script : List ℕ) → Asks (words_in all) Command.Replay
        → S.remaining source.old ≡ Some script → result ≡ 0 → fault_of script ≡ None) }
    ensures fault { (script : List ℕ) → S.remaining source.old ≡ Some script → result ≡ 3
        → EndsInFault script }
    ensures reported { IfOk arguments (λ all. (script : List ℕ) → Asks (words_in all) Command.Replay
        → S.remaining source.old ≡ Some script → result ≡ 0
        → Puts (O.written sink.old) (O.written sink.new) (report script)) }
    ensures fault_reported { (script : List ℕ) → S.remaining source.old ≡ Some script → result ≡ 3
        → Puts (O.written sink.old) (O.written sink.new) (report script) }
    ensures begun { IfOk arguments (λ all. (script : List ℕ) → Asks (words_in all) Command.Replay
        → S.remaining source.old ≡ Some script → (result ≡ 1) ⊎ (result ≡ 5)
        → PutsPrefix (O.written sink.old) (O.written sink.new) (report script)) }
    ensures completes { IfOk arguments (λ all. (script : List ℕ) → Asks (words_in all) Command.Replay
        → S.remaining source.old ≡ Some script → fault_of script ≡ None
        → ¬ (HasRisen (S.faults source.old) (S.faults source.new))
        → ¬ (HasRisen (O.faults sink.old) (O.faults sink.new))
        → (result ≡ 0) ⊎ (result ≡ 5)) }

    // Where they are `drill` and a number.
    ensures drill_unread { IfOk arguments (λ all. (count : ℕ) → Asks (words_in all) (Command.Drill count)
        → source.new ≡ source.old) }
    ensures drilled { IfOk arguments (λ all. (count : ℕ) → Asks (words_in all) (Command.Drill count)
        → result ≡ 0 → Puts (O.written sink.old) (O.written sink.new) (drill_text count)) }
    ensures drill_begun { IfOk arguments (λ all. (count : ℕ) → Asks (words_in all) (Command.Drill count)
        → (result ≡ 1) ⊎ (result ≡ 5)
        → PutsPrefix (O.written sink.old) (O.written sink.new) (drill_text count)) }
    ensures drill_completes { IfOk arguments (λ all. (count : ℕ) → Asks (words_in all) (Command.Drill count)
        → ¬ (HasRisen (O.faults sink.old) (O.faults sink.new))
        → (result ≡ 0) ⊎ (result ≡ 5)) }
{
    match arguments {
        Ok(arguments) => match words_of(alloc, arguments) {
            Ok(words) => run(alloc, words.as_slice(), source, sink),
            Err(_) => NO_MEMORY,
        },
        Err(error) => status_without_arguments(&error),
    }
}

fn main(rt: HostRuntime) -> ExitCode {
    let mut source = ReadSource::new(rt.reader());
    let mut sink = WriteSink::new(io::writer(&rt));
    ExitCode::from(exit_status(rt.alloc(), env::args(&rt), &mut source, &mut sink))
}
