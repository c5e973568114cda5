//! The whole program, but for its words and its adapters.
ghost use Rattle.std.specs.Prelude.{◌≡◌, ◌≢◌, ◌↔◌, ◌⊎◌, ◌≤◌, ◌<◌, ◌+◌, ℕ, List, [], ◌∷◌, map, length, Some, None, IsSome, codes};
ghost use Rattle.std.specs.String.{string_bytes};
ghost use Rattle.std.specs.Io.KnownBytes.{IsAtEnd};
ghost use Rattle.oidc_cli.specs.{HasRisen, Takes, Puts, PutsPrefix, fault_of, report, drill_text, command_of, Asks, EndsInFault};
ghost use Rattle.oidc_cli.specs.Steps.{status_after, status_after_drill};

use crate::commands::{Command, command_of};
use crate::drill::put_drill;
use crate::reading::{ReadError, read_script};
use crate::replay::{Ending, Halt, put_report};
use crate::{Sink, Source};
use std::alloc::Global;

/// The script was read to its end, each of its lines was an event in its place, and the report was
/// written; or the drill's line was.
pub const DONE: u8 = 0;

/// The sink failed: its count of faults rose, or stands at its last value.
pub const SINK_FAULT: u8 = 1;

/// The words are neither the one word `replay`, nor `drill` and a decimal from 1 to 4,096 without sign and
/// without leading zero.
pub const WRONG_WORDS: u8 = 2;

/// The script has a fault, and the report that ends in its line was written.
pub const SCRIPT_FAULT: u8 = 3;

/// The source failed: its count of faults rose, or stands at its last value.
pub const SOURCE_FAULT: u8 = 4;

/// There was no memory.
pub const NO_MEMORY: u8 = 5;

/// Runs the program. On the one word `replay` it reads a script of the source, runs it through a store of
/// pending logins, and writes the report to the sink. On `drill` and a number it leaves the source as it is, makes
/// that number of logins itself, runs them from end to end, and writes one line of counts. The result is the
/// exit status.
///
/// On `replay` the body reads first, to the end of the source or one byte past 67,108,864, and then writes, block by
/// block: the lines of the report wait until they have 65,536 bytes behind an event, and what waits then, or with the
/// report's last line, is one call of the sink. So on 5 lines that waited are not written. No clause says in which order
/// it reads and writes, nor in which pieces. What the clauses
/// say of bytes, they say of a source whose bytes are known; a sink whose bytes aren't known is not known
/// after the call either. For want of memory the status may be 5 wherever the words are right.
pub fn run<S: Source, O: Sink>(alloc: Global, words: &[String], source: &mut S, sink: &mut O) -> u8
    ensures status { result ≤ 5 }

    // 2 exactly where the words are wrong. Source and sink are as they were then.
    ensures words { (result ≡ 2) ↔ (command_of (map string_bytes words.now) ≡ None) }
    ensures asked { result ≢ 2 → (command : Command) × Asks words.now command }
    ensures unread { result ≡ 2 → source.new ≡ source.old }
    ensures unwritten { (result ≡ 2) ⊎ (result ≡ 4) → sink.new ≡ sink.old }

    // 1 and 4 only where that object's count of faults rose, or stands at its last value; 3 and 4 on `replay` alone.
    ensures sink_fault { result ≡ 1 → HasRisen (O.faults sink.old) (O.faults sink.new) }
    ensures source_fault { result ≡ 4 → HasRisen (S.faults source.old) (S.faults source.new) }
    ensures of_a_script { (result ≡ 3) ⊎ (result ≡ 4) → Asks words.now Command.Replay }
    ensures counts { (S.faults source.old ≤ S.faults source.new)
        × (O.faults sink.old ≤ O.faults sink.new) }

    // On `replay`. On 0 the source was read to its end, and the whole report stands behind what the sink held.
    ensures ended { Asks words.now Command.Replay → result ≡ 0 → IsAtEnd (S.remaining source.new) }
    ensures whole { (script : List ℕ) → Asks words.now Command.Replay
        → S.remaining source.old ≡ Some script → result ≡ 0 → fault_of script ≡ None }
    ensures reported { (script : List ℕ) → Asks words.now Command.Replay
        → S.remaining source.old ≡ Some script → result ≡ 0
        → Puts (O.written sink.old) (O.written sink.new) (report script) }

    // On 3 the script has a fault, and its report ends in the line of the first. An over-long script has
    // that line alone.
    ensures fault { (script : List ℕ) → S.remaining source.old ≡ Some script → result ≡ 3
        → EndsInFault script }
    ensures fault_reported { (script : List ℕ) → S.remaining source.old ≡ Some script → result ≡ 3
        → Puts (O.written sink.old) (O.written sink.new) (report script) }

    // On 1 and 5 what was written begins the report, on `replay`.
    ensures begun { (script : List ℕ) → Asks words.now Command.Replay
        → S.remaining source.old ≡ Some script → (result ≡ 1) ⊎ (result ≡ 5)
        → PutsPrefix (O.written sink.old) (O.written sink.new) (report script) }

    // Reading stops at one byte more than 67,108,864.
    ensures bounded { (read : List ℕ) × Takes (S.remaining source.old) (S.remaining source.new) read
        × (length read ≤ 67_108_865) }

    // A script without a fault is reported, where nothing fails and there is memory.
    ensures completes { (script : List ℕ) → Asks words.now Command.Replay
        → S.remaining source.old ≡ Some script → fault_of script ≡ None
        → ¬ (HasRisen (S.faults source.old) (S.faults source.new))
        → ¬ (HasRisen (O.faults sink.old) (O.faults sink.new))
        → (result ≡ 0) ⊎ (result ≡ 5) }

    // On a drill the source is as it was. On 0 its line stands behind what the sink held, on 1 and 5 a beginning
    // of it. It comes to its end, where the sink doesn't fail and there is memory.
    ensures drill_unread { (count : ℕ) → Asks words.now (Command.Drill count)
        → source.new ≡ source.old }
    ensures drilled { (count : ℕ) → Asks words.now (Command.Drill count) → result ≡ 0
        → Puts (O.written sink.old) (O.written sink.new) (drill_text count) }
    ensures drill_begun { (count : ℕ) → Asks words.now (Command.Drill count)
        → (result ≡ 1) ⊎ (result ≡ 5)
        → PutsPrefix (O.written sink.old) (O.written sink.new) (drill_text count) }
    ensures drill_completes { (count : ℕ) → Asks words.now (Command.Drill count)
        → ¬ (HasRisen (O.faults sink.old) (O.faults sink.new))
        → (result ≡ 0) ⊎ (result ≡ 5) }
{
    match command_of(words) {
        None => WRONG_WORDS,
        Some(Command::Replay) => replay(alloc, source, sink),
        Some(Command::Drill(count)) => status_of_drill(put_drill(alloc, count, sink)),
    }
}

// Reads a script and reports it.
fn replay<S: Source, O: Sink>(alloc: Global, source: &mut S, sink: &mut O) -> u8
    ensures status { (result ≤ 5) × (result ≢ 2) }
    ensures unwritten { result ≡ 4 → sink.new ≡ sink.old }
    ensures sink_fault { result ≡ 1 → HasRisen (O.faults sink.old) (O.faults sink.new) }
    ensures source_fault { result ≡ 4 → HasRisen (S.faults source.old) (S.faults source.new) }
    ensures counts { (S.faults source.old ≤ S.faults source.new)
        × (O.faults sink.old ≤ O.faults sink.new) }
    ensures ended { result ≡ 0 → IsAtEnd (S.remaining source.new) }
    ensures whole { (script : List ℕ) → S.remaining source.old ≡ Some script → result ≡ 0
        → fault_of script ≡ None }
    ensures reported { (script : List ℕ) → S.remaining source.old ≡ Some script → result ≡ 0
        → Puts (O.written sink.old) (O.written sink.new) (report script) }
    ensures fault { (script : List ℕ) → S.remaining source.old ≡ Some script → result ≡ 3
        → EndsInFault script }
    ensures fault_reported { (script : List ℕ) → S.remaining source.old ≡ Some script → result ≡ 3
        → Puts (O.written sink.old) (O.written sink.new) (report script) }
    ensures begun { (script : List ℕ) → S.remaining source.old ≡ Some script
        → (result ≡ 1) ⊎ (result ≡ 5)
        → PutsPrefix (O.written sink.old) (O.written sink.new) (report script) }
    ensures bounded { (read : List ℕ) × Takes (S.remaining source.old) (S.remaining source.new) read
        × (length read ≤ 67_108_865) }
    ensures completes { (script : List ℕ) → S.remaining source.old ≡ Some script
        → fault_of script ≡ None
        → ¬ (HasRisen (S.faults source.old) (S.faults source.new))
        → ¬ (HasRisen (O.faults sink.old) (O.faults sink.new))
        → (result ≡ 0) ⊎ (result ≡ 5) }
{
    match read_script(alloc, source) {
        Ok(script) => status_of_run(put_report(alloc, script.as_slice(), sink)),
        Err(ReadError::Source) => SOURCE_FAULT,
        Err(ReadError::Memory) => NO_MEMORY,
    }
}

// The status of a run whose script was read.
fn status_of_run(ended: Result<Ending, Halt>) -> u8
    ensures { result ≡ status_after ended }
{
    match ended {
        Ok(Ending::Pending) => DONE,
        Ok(Ending::Fault) => SCRIPT_FAULT,
        Err(Halt::Sink) => SINK_FAULT,
        Err(Halt::Memory) => NO_MEMORY,
    }
}

// The status of a drill.
fn status_of_drill(ended: Result<(), Halt>) -> u8
    ensures { result ≡ status_after_drill ended }
{
    match ended {
        Ok(()) => DONE,
        Err(Halt::Sink) => SINK_FAULT,
        Err(Halt::Memory) => NO_MEMORY,
    }
}
