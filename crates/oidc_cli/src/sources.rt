//! Where a script comes from.
ghost use Rattle.std.specs.Prelude.{◌≡◌, ℕ, ◌<◌, ◌≤◌, List, length, take, min, Option, is_err, IfOk, OnErr, []};
ghost use Rattle.std.specs.Io.KnownBytes.{IsAtEnd};
ghost use Rattle.oidc_cli.specs.Calls.{HasRisen, no_calls, fails_next};
ghost use Rattle.oidc_cli.specs.Sources.{Takes, after_taking, after_failing};

use crate::Failed;
use crate::calls::{Calls, Counted};
use std::io::Read;
use std::marker::Model;

/// Bytes that are taken one after another.
pub trait Source {
    /// The bytes that are left, where they are known.
    ghost remaining: { Self → Option (List ℕ) };

    /// How often it has failed.
    ghost faults: { Self → ℕ };

    /// Moves the first bytes that are left into the front of `buf`, and answers how many. None for a
    /// buffer that isn't empty is the end. A call that failed took nothing.
    fn take(&mut self, buf: &mut [u8]) -> Result<usize, Failed>
        ensures within { IfOk result (λ n. n ≤ length buf.new) }
        ensures takes { IfOk result
            (λ n. Takes (remaining self.old) (remaining self.new) (take n buf.new)) }
        ensures ended { IfOk result (λ n. n ≡ 0 → 0 < length buf.new
            → IsAtEnd (remaining self.new)) }
        ensures keeps { OnErr result (Takes (remaining self.old) (remaining self.new) []) }
        ensures blamed { OnErr result (HasRisen (faults self.old) (faults self.new)) }
        ensures counts { faults self.old ≤ faults self.new };
}

/// Bytes in memory. They are known, and it fails exactly at the calls that it was given.
#[derive(Drop)]
pub struct MemorySource {
    bytes: Vec<u8>,
    taken: usize,
    calls: Calls,
}

impl Model for MemorySource {
    ghost use Rattle.std.specs.Prelude.{◌≤◌, drop, length};
    ghost use Rattle.oidc_cli.specs.Sources.{SeenSource, source_code};

    ghost Value = { SeenSource };

    ghost coded = { source_code };

    ghost view = { λ s. record { left = drop s.taken s.bytes.items; calls = s.calls } };

    ghost invariant = { λ s. s.taken ≤ length s.bytes.items };
}

impl MemorySource {
    /// A source of these bytes that fails at the calls with these numbers, counted from 1.
    pub fn new(bytes: Vec<u8>, failing: Vec<u64>) -> Self
        ensures left { result.left ≡ bytes.items }
        ensures failing { result.calls ≡ no_calls failing.items }

        // Its bytes are known, and it has no fault yet.
        ensures remaining { ⟦<MemorySource as Source>⟧.remaining result ≡ Option.Some bytes.items }
        ensures faults { ⟦<MemorySource as Source>⟧.faults result ≡ 0 }
    {
        MemorySource {
            bytes,
            taken: 0,
            calls: Calls::new(failing),
        }
    }
}

impl Source for MemorySource {
    ghost remaining = { λ s. Option.Some s.left };

    ghost faults = { λ s. s.calls.faults };

    fn take(&mut self, buf: &mut [u8]) -> Result<usize, Failed>
        ensures within { IfOk result (λ n. n ≤ length buf.new) }
        ensures takes { IfOk result
            (λ n. Takes (Option.Some self.old.left) (Option.Some self.new.left) (take n buf.new)) }
        ensures ended { IfOk result (λ n. n ≡ 0 → 0 < length buf.new
            → IsAtEnd (Option.Some self.new.left)) }
        ensures keeps { OnErr result
            (Takes (Option.Some self.old.left) (Option.Some self.new.left) []) }
        ensures blamed { OnErr result (HasRisen self.old.calls.faults self.new.calls.faults) }
        ensures counts { self.old.calls.faults ≤ self.new.calls.faults }

        // It fails exactly where it was made to, and gives as much as it can.
        ensures fails { is_err result ≡ fails_next self.old.calls }
        ensures amount { IfOk result (λ n. n ≡ min (length buf.old) (length self.old.left)) }
        ensures ok { IfOk result (λ n. self.new ≡ after_taking self.old n) }
        ensures err { OnErr result (self.new ≡ after_failing self.old) }
    {
        if self.calls.fails_next() {
            self.calls.count_fault();
            return Err(Failed);
        }
        self.calls.count_success();
        let left = &self.bytes[self.taken..];
        let n = buf.len().min(left.len());
        buf[..n].copy_from_slice(&left[..n]);
        self.taken += n;
        Ok(n)
    }
}

/// A reader of std. Each error of the reader is a fault. Its bytes are not known to the program, but
/// where the reader's are, `take` says what was read.
pub type ReadSource<R> = Counted<R>;

impl<R: Read> Source for Counted<R> {
    ghost use Rattle.std.specs.Prelude.{◌≡◌, ℕ, ◌<◌, ◌≤◌, length, take, Option, IfOk, OnOk, OnErr, []};
    ghost use Rattle.std.specs.Io.KnownBytes.{IsAtEnd, ReadConsumes};
    ghost use Rattle.oidc_cli.specs.Calls.{HasRisen, risen};
    ghost use Rattle.oidc_cli.specs.Sources.{Takes};

    ghost remaining = { λ _. Option.None };

    ghost faults = { λ s. s.faults };

    fn take(&mut self, buf: &mut [u8]) -> Result<usize, Failed>
        ensures within { IfOk result (λ n. n ≤ length buf.new) }
        ensures takes { IfOk result (λ n. Takes Option.None Option.None (take n buf.new)) }
        ensures ended { IfOk result (λ n. n ≡ 0 → 0 < length buf.new
            → IsAtEnd Option.None) }
        ensures keeps { OnErr result (Takes Option.None Option.None []) }
        ensures blamed { OnErr result (HasRisen self.old.faults self.new.faults) }
        ensures counts { self.old.faults ≤ self.new.faults }

        // What it says of the reader.
        ensures bytes { ReadConsumes (R.remaining self.old.inner) (R.remaining self.new.inner)
            result buf.new }
        ensures counted { OnErr result (self.new.faults ≡ risen self.old.faults) }
        ensures uncounted { OnOk result (self.new.faults ≡ self.old.faults) }
    {
        let read = self.inner.read(buf);
        self.faults.answered(read)
    }
}
