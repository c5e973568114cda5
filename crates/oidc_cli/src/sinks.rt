//! Where a report goes.
ghost use Rattle.std.specs.Prelude.{◌≡◌, ℕ, ◌<◌, ◌≤◌, List, length, Option, is_err, IfOk, OnOk, OnErr, []};
ghost use Rattle.oidc_cli.specs.Calls.{HasRisen, no_calls};
ghost use Rattle.oidc_cli.specs.Sinks.{Puts, PutsPrefix, fails_at, after_putting, after_failing};

use crate::Failed;
use crate::calls::{Calls, Counted};
use std::alloc::{AllocError, Global};
use std::io::Write;
use std::marker::Model;

/// Bytes that pieces are put after.
pub trait Sink {
    /// The bytes that it holds, where they are known.
    ghost written: { Self → Option (List ℕ) };

    /// How often it has failed.
    ghost faults: { Self → ℕ };

    /// Puts a piece after the bytes that it holds. A call that failed put some of its first bytes, or
    /// none, or all.
    fn put(&mut self, piece: &[u8]) -> Result<(), Failed>
        ensures puts { OnOk result (Puts (written self.old) (written self.new) piece.now) }
        ensures keeps { OnErr result (PutsPrefix (written self.old) (written self.new) piece.now) }
        ensures blamed { OnErr result (HasRisen (faults self.old) (faults self.new)) }
        ensures counts { faults self.old ≤ faults self.new };
}

/// Bytes in memory, up to a room that is taken first. They are known, and it fails exactly at the calls
/// that it was given, and at a piece that goes past its room.
#[derive(Drop)]
pub struct MemorySink {
    held: Vec<u8>,
    room: usize,
    calls: Calls,
}

impl Model for MemorySink {
    ghost use Rattle.std.specs.Prelude.{◌≤◌, length, vec_capacity};
    ghost use Rattle.oidc_cli.specs.Sinks.{SeenSink, sink_code};

    ghost Value = { SeenSink };

    ghost coded = { sink_code };

    ghost view = { λ s. record { held = s.held.items; room = s.room; calls = s.calls } };

    ghost invariant = { λ s. (length s.held.items ≤ s.room) × (s.room ≤ vec_capacity s.held) };
}

impl MemorySink {
    /// An empty sink with this room that fails at the calls with these numbers, counted from 1. The only
    /// error is want of memory for the room.
    pub fn new(alloc: Global, room: usize, failing: Vec<u64>) -> Result<Self, AllocError>
        ensures held { IfOk result (λ sink. sink.held ≡ []) }
        ensures room { IfOk result (λ sink. sink.room ≡ room) }
        ensures failing { IfOk result (λ sink. sink.calls ≡ no_calls failing.items) }

        // Its bytes are known, and it has no fault yet.
        ensures written { IfOk result
            (λ sink. ⟦<MemorySink as Sink>⟧.written sink ≡ Option.Some []) }
        ensures faults { IfOk result (λ sink. ⟦<MemorySink as Sink>⟧.faults sink ≡ 0) }
    {
        let held = Vec::with_capacity(alloc, room)?;
        Ok(MemorySink {
            held,
            room,
            calls: Calls::new(failing),
        })
    }

    /// The bytes that it holds.
    pub fn bytes(&self) -> &[u8]
        ensures { result.now ≡ self.now.held }
    {
        self.held.as_slice()
    }
}

impl Sink for MemorySink {
    ghost written = { λ s. Option.Some s.held };

    ghost faults = { λ s. s.calls.faults };

    fn put(&mut self, piece: &[u8]) -> Result<(), Failed>
        ensures puts { OnOk result
            (Puts (Option.Some self.old.held) (Option.Some self.new.held) piece.now) }
        ensures keeps { OnErr result
            (PutsPrefix (Option.Some self.old.held) (Option.Some self.new.held) piece.now) }
        ensures blamed { OnErr result (HasRisen self.old.calls.faults self.new.calls.faults) }
        ensures counts { self.old.calls.faults ≤ self.new.calls.faults }

        // It fails exactly where it was made to, and where there is no room.
        ensures fails { is_err result ≡ fails_at self.old piece.now }
        ensures ok { OnOk result (self.new ≡ after_putting self.old piece.now) }
        ensures err { OnErr result (self.new ≡ after_failing self.old) }
    {
        if self.calls.fails_next() || self.room - self.held.len() < piece.len() {
            self.calls.count_fault();
            return Err(Failed);
        }
        // It has the room, so this takes no memory and doesn't fail.
        let _ = self.held.extend_from_slice(piece);
        self.calls.count_success();
        Ok(())
    }
}

/// A writer of std. Each error of the writer, and a write of no byte, is a fault. Its bytes are not
/// known to the program, but where the writer's are, `put` says what was written.
pub type WriteSink<W> = Counted<W>;

impl<W: Write> Sink for Counted<W> {
    ghost use Rattle.std.specs.Prelude.{◌≡◌, ℕ, ◌≤◌, Option, IsOk, OnOk, OnErr, []};
    ghost use Rattle.std.specs.Io.KnownBytes.{Appends};
    ghost use Rattle.oidc_cli.specs.Calls.{HasRisen, risen};
    ghost use Rattle.oidc_cli.specs.Sinks.{Puts, PutsPrefix, AppendsPrefix};

    ghost written = { λ _. Option.None };

    ghost faults = { λ s. s.faults };

    fn put(&mut self, piece: &[u8]) -> Result<(), Failed>
        ensures puts { OnOk result (Puts Option.None Option.None piece.now) }
        ensures keeps { OnErr result (PutsPrefix Option.None Option.None piece.now) }
        ensures blamed { OnErr result (HasRisen self.old.faults self.new.faults) }
        ensures counts { self.old.faults ≤ self.new.faults }

        // What it says of the writer.
        ensures written { OnOk result
            (Appends (W.contents self.old.inner) (W.contents self.new.inner) piece.now) }
        ensures begun { OnErr result
            (AppendsPrefix (W.contents self.old.inner) (W.contents self.new.inner) piece.now) }
        ensures counted { OnErr result (self.new.faults ≡ risen self.old.faults) }
        ensures uncounted { OnOk result (self.new.faults ≡ self.old.faults) }

        // Without a byte there is nothing to write, and no fault.
        ensures empty { piece.now ≡ [] → IsOk result }
    {
        let mut rest = piece;
        while !rest.is_empty() {
            let answer = self.inner.write(rest);
            let count = self.faults.answered(answer)?;
            if count == 0 {
                self.faults.count();
                return Err(Failed);
            }
            rest = &rest[count..];
        }
        Ok(())
    }
}
