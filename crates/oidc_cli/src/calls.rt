//! The calls of an object outside the program: which of them fail, and how often they did.
ghost use Rattle.std.specs.Prelude.{◌≡◌, ◌==◌, ◌+◌, ◌≤◌, Ok, IfOk, OnOk, OnErr, IsErr};
ghost use Rattle.std.specs.List.{list_any};
ghost use Rattle.oidc_cli.specs.Calls.{HasRisen, risen, no_calls, fails_next, after_success, after_fault};

use std::io;
use std::marker::Model;
use thiserror::Error;

/// A call of a source or a sink failed. Nothing more is known of it: the object counts it.
#[derive(Clone, Copy, Debug, PartialEq, Eq, Error)]
#[error("the call failed")]
pub struct Failed;

/// How often an object over std has failed. The count stops at `u64::MAX`.
#[derive(Drop)]
pub struct Faults {
    count: u64,
}

impl Model for Faults {
    ghost use Rattle.std.specs.Prelude.{ℕ};

    ghost Value = { ℕ };

    ghost view = { λ f. f.count };
}

impl Faults {
    /// No fault yet.
    pub fn new() -> Self
        ensures { result ≡ 0 }
    {
        Faults { count: 0 }
    }

    /// Counts a fault.
    pub fn count(&mut self)
        ensures counted { self.new ≡ risen self.old }
        ensures blamed { HasRisen self.old self.new }
        ensures counts { self.old ≤ self.new }
    {
        self.count = self.count.saturating_add(1);
    }

    /// What std answered, as a source or a sink answers it: its error is a fault, and nothing else is.
    pub fn answered<T: Drop>(&mut self, answer: io::Result<T>) -> Result<T, Failed>
        ensures ok { IfOk result (λ value. answer ≡ Ok value) }
        ensures err { OnErr result (IsErr answer) }
        ensures uncounted { OnOk result (self.new ≡ self.old) }
        ensures counted { OnErr result (self.new ≡ risen self.old) }
        ensures blamed { OnErr result (HasRisen self.old self.new) }
        ensures counts { self.old ≤ self.new }
    {
        match answer {
            Ok(value) => Ok(value),
            Err(_) => {
                self.count();
                Err(Failed)
            }
        }
    }
}

/// An object of std, and how often it has failed.
#[derive(Drop)]
pub struct Counted<T> {
    pub(crate) inner: T,
    pub(crate) faults: Faults,
}

impl<T> Model for Counted<T> {
    ghost use Rattle.oidc_cli.specs.Calls.{SeenCounted};

    ghost Value = { SeenCounted T };

    ghost view = { λ c. record { inner = c.inner; faults = c.faults } };
}

impl<T> Counted<T> {
    /// This object, without a fault yet.
    pub fn new(inner: T) -> Self
        ensures { result ≡ record { inner = inner; faults = 0 } }
    {
        Counted {
            inner,
            faults: Faults::new(),
        }
    }
}

/// Which calls fail, how many were made, and how many of them failed. Both counts stop at `u64::MAX`.
#[derive(Drop)]
pub struct Calls {
    failing: Vec<u64>,
    made: u64,
    faults: u64,
}

impl Model for Calls {
    ghost use Rattle.oidc_cli.specs.Calls.{SeenCalls, calls_code};

    ghost Value = { SeenCalls };

    ghost coded = { calls_code };

    ghost view = { λ c. record { failing = c.failing.items; made = c.made; faults = c.faults } };
}

impl Calls {
    /// No call yet, and the numbers of those that are to fail, from 1.
    pub fn new(failing: Vec<u64>) -> Self
        ensures { result ≡ no_calls failing.items }
    {
        Calls {
            failing,
            made: 0,
            faults: 0,
        }
    }

    /// Whether the next call is one that fails.
    pub fn fails_next(&self) -> bool
        ensures { result ≡ fails_next self.now }
    {
        has_next(self.failing.as_slice(), self.made)
    }

    /// Counts a call that succeeds.
    pub fn count_success(&mut self)
        ensures { self.new ≡ after_success self.old }
    {
        self.made = self.made.saturating_add(1);
    }

    /// Counts a call that fails.
    pub fn count_fault(&mut self)
        ensures counted { self.new ≡ after_fault self.old }
        ensures blamed { HasRisen self.old.faults self.new.faults }
        ensures counts { self.old.faults ≤ self.new.faults }
    {
        self.made = self.made.saturating_add(1);
        self.faults = self.faults.saturating_add(1);
    }
}

// Whether the number after `made` is listed. The one after `u64::MAX` is no `u64`, so it isn't.
fn has_next(numbers: &[u64], made: u64) -> bool
    ensures { result ≡ list_any (λ number. number == made + 1) numbers.now }
{
    match made.checked_add(1) {
        Some(next) => numbers.contains(&next),
        None => false,
    }
}
