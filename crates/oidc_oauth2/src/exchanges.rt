//! One request over any transport.

ghost use Rattle.std.specs.Prelude.{◌≡◌, ◌≤◌, MatchResult, None};
ghost use Rattle.oidc_oauth2.specs.Transport.{HasRisen};
ghost use Rattle.oidc_oauth2.specs.Exchanges.{answer_of, known, Exchanged, Untouched};

use crate::transport::{CallError, HttpRequest, HttpResponse, SyncHttpClient};
use std::alloc::{AllocError, Global};

/// Hands one request over, and gives what came of it: the response, or the transport's own error.
/// `AllocError` is want of memory, and then a transport that keeps a log has nothing new in it.
pub fn exchange<C: SyncHttpClient>(
    alloc: Global,
    http: &mut C,
    request: HttpRequest,
) -> Result<Result<HttpResponse, C::Error>, AllocError>
    requires { C.ready http.old }
    ensures again { C.ready http.new }
    ensures exchanged { let before = known (C.log http.old) (C.script http.old) in
        let after = known (C.log http.new) (C.script http.new) in
        MatchResult result
        (λ answer. Exchanged before after request (answer_of answer))
        (λ e. Untouched before after) }
    ensures never_falls { C.faults http.old ≤ C.faults http.new }
    ensures blamed { MatchResult result
        (λ answer. answer_of answer ≡ None → HasRisen (C.faults http.old) (C.faults http.new))
        (λ e. Unit {0}) }
{
    match http.call(alloc, request) {
        Ok(response) => Ok(Ok(response)),
        Err(CallError::Transport(error)) => Ok(Err(error)),
        Err(CallError::Memory) => Err(AllocError),
    }
}
