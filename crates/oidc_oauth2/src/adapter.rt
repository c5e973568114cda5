//! A transport over a closure.

ghost use Rattle.std.specs.Prelude.{◌≡◌};
ghost use Rattle.oidc_oauth2.specs.Adapter.{closure_of, fault_count_of};

use crate::transport::{CallError, HttpRequest, HttpResponse, SyncHttpClient};
use std::alloc::Global;

/// A transport that hands each request to a closure, once, and gives the closure's answer. Nothing is
/// known of what went over it; it counts the closure's errors.
#[derive(Drop)]
pub struct Adapter<F> {
    call: F,
    faults: u64,
}

impl<F> Adapter<F> {
    /// A transport over this closure, which has not failed yet.
    pub fn new(call: F) -> Self
        ensures closure { closure_of result ≡ call }
        ensures faults { fault_count_of result ≡ 0 }
    {
        Adapter { call, faults: 0 }
    }

    /// How often the closure has failed. The count stays at its last value.
    pub fn faults(&self) -> u64
        ensures faults { result ≡ fault_count_of self.now }
    {
        self.faults
    }
}

impl<E, F: FnMut(HttpRequest) -> Result<HttpResponse, E>> SyncHttpClient for Adapter<F> {
    ghost use Rattle.std.specs.Prelude.{◌≡◌, ◌≤◌, Option, OnOk, OnErr};
    ghost use Rattle.oidc_oauth2.specs.Transport.{IsLogged, Plays, requests_in, answers_in, IsBlamed};
    ghost use Rattle.oidc_oauth2.specs.Adapter.{closure_of, fault_count_of, answered, risen};

    type Error = E;

    ghost log = { λ _. Option.None };

    ghost faults = { fault_count_of };

    ghost ready = { λ a. F.IsAlwaysCallable (closure_of a) };

    fn call(&mut self, _alloc: Global, request: HttpRequest) -> Result<HttpResponse, CallError<E>>
        requires { F.IsAlwaysCallable (closure_of self.old) }
        ensures again { F.IsAlwaysCallable (closure_of self.new) }
        ensures logged { IsLogged Option.None Option.None request result }
        ensures plays { Plays Option.None (requests_in request result) (answers_in result) Option.None }
        ensures never_falls { fault_count_of self.old ≤ fault_count_of self.new }
        ensures blamed { IsBlamed (fault_count_of self.old) (fault_count_of self.new) result }

        // What it says of the closure: it is called once, with this request, and its answer is given.
        ensures called { (answer : _)
            × (F.step (closure_of self.old) request answer (closure_of self.new)
            × (result ≡ answered answer)) }
        ensures counted { OnErr result (fault_count_of self.new ≡ risen (fault_count_of self.old)) }
        ensures uncounted { OnOk result (fault_count_of self.new ≡ fault_count_of self.old) }
    {
        match (self.call)(request) {
            Ok(response) => Ok(response),
            Err(error) => {
                self.faults = self.faults.saturating_add(1);
                Err(CallError::Transport(error))
            }
        }
    }
}
