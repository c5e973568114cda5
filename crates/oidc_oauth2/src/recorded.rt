//! A transport in memory.

ghost use Rattle.std.specs.Prelude.{◌≡◌, [], ◌∷◌, ◌++◌, Some, map, drop, option_map, IfOk, OnOk, OnErr};
ghost use Rattle.oidc_oauth2.specs.Messages.{seen_response};
ghost use Rattle.oidc_oauth2.specs.Transport.{first_answer, in_order};
ghost use Rattle.oidc_oauth2.specs.Recorded.{seen_answer, left_of};

use crate::transport::{CallError, HttpRequest, HttpResponse, SyncHttpClient};
use http_header::CONTENT_TYPE;
use oidc_types::Body;
use std::alloc::{AllocError, Global};
use std::fmt;
use std::marker::Model;
use std::vec::IntoIter;

/// What a transport in memory gives for a request.
#[derive(Drop)]
pub enum Answer {
    /// A response.
    Response(HttpResponse),
    /// The request failed on its way.
    Fault,
}

/// The error of a transport in memory: the next answer was a fault, or none was left.
#[derive(Clone, Copy, Debug, PartialEq, Eq)]
pub struct Fault;

/// Prints why there is no response.
impl fmt::Display for Fault {
    ghost use Rattle.std.specs.Prelude.{Option, codes};

    ghost output = { λ _. Option.Some (codes "no response") };

    fn fmt<W: fmt::Write>(&self, f: &mut fmt::Formatter<W>) -> fmt::Result {
        f.write_str("no response")
    }
}

// What is kept of a response that was given.
#[derive(Drop)]
pub(crate) struct Kept {
    status: u16,
    content_type: Option<Body>,
    body: Body,
}

impl Model for Kept {
    ghost use Rattle.oidc_oauth2.specs.Messages.{SeenResponse, seen_response_code};

    ghost Value = { SeenResponse };

    ghost coded = { seen_response_code };

    ghost view = { λ k. record { status = k.status; content_type = k.content_type; body = k.body } };
}

fn body_of(alloc: Global, bytes: &[u8]) -> Result<Body, AllocError>
    ensures { IfOk result (λ body. body ≡ bytes.now) }
{
    Ok(Body::new(Vec::from_slice(alloc, bytes)?))
}

fn content_type_of(alloc: Global, response: &HttpResponse) -> Result<Option<Body>, AllocError>
    ensures { IfOk result (λ found. found ≡ (seen_response response.now).content_type) }
{
    match response.headers().get(CONTENT_TYPE) {
        None => Ok(None),
        Some(value) => Ok(Some(body_of(alloc, value.as_bytes())?)),
    }
}

impl Kept {
    fn of(alloc: Global, response: &HttpResponse) -> Result<Self, AllocError>
        ensures { IfOk result (λ kept. kept ≡ seen_response response.now) }
    {
        Ok(Kept {
            status: response.status().as_u16(),
            content_type: content_type_of(alloc, response)?,
            body: body_of(alloc, response.body().as_slice())?,
        })
    }
}

/// A transport in memory: it gives its answers in their order, and then faults. It keeps each
/// request that was handed over, and of each response the three parts that are read.
#[derive(Drop)]
pub struct Recorded {
    next: Option<Answer>,
    later: IntoIter<Answer>,
    requests: Vec<HttpRequest>,
    given: Vec<Option<Kept>>,
}

impl Model for Recorded {
    ghost use Rattle.std.specs.Vec.Iter.{into_iter_items};
    ghost use Rattle.oidc_oauth2.specs.Recorded.{SeenRecorded, seen_recorded_code, left_of};

    ghost Value = { SeenRecorded };

    ghost coded = { seen_recorded_code };

    ghost view = { λ r. record {
      requests = r.requests.items;
      given = r.given.items;
      left = left_of r.next (into_iter_items r.later);
    } };
}

impl Recorded {
    /// A transport that will give these answers, to which nothing was handed over yet. It takes no
    /// memory.
    #[tactic(auto, unfolding(crate::specs::Recorded::fault_count))]
    pub fn new(alloc: Global, answers: Vec<Answer>) -> Self
        ensures requests { result.requests ≡ [] }
        ensures given { result.given ≡ [] }
        ensures left { result.left ≡ map seen_answer answers.items }

        // What goes over it is known, and it has no fault yet.
        ensures log { ⟦<Recorded as SyncHttpClient>⟧.log result
            ≡ Some (record { requests = []; answers = [] }) }
        ensures script { ⟦<Recorded as SyncHttpClient>⟧.script result
            ≡ Some (in_order (map seen_answer answers.items)) }
        ensures faults { ⟦<Recorded as SyncHttpClient>⟧.faults result ≡ 0 }
    {
        let mut later = answers.into_iter();
        let next = later.next();
        Recorded {
            next,
            later,
            requests: Vec::new(alloc),
            given: Vec::new(alloc),
        }
    }

    // Keeps the request, and what will be read of the next answer; or nothing, where there is no
    // memory.
    fn keep(&mut self, alloc: Global, request: HttpRequest) -> Result<(), AllocError>
        ensures requests { OnOk result (self.new.requests ≡ self.old.requests ++ request ∷ []) }
        ensures given { OnOk result
            (self.new.given ≡ self.old.given ++ first_answer self.old.left ∷ []) }
        ensures left { OnOk result (self.new.left ≡ self.old.left) }
        ensures err { OnErr result (self.new ≡ self.old) }
    {
        let kept = kept_of(alloc, &self.next)?;
        self.given.reserve(1)?;
        self.requests.push(request)?;
        let _ = self.given.push(kept);
        Ok(())
    }

    // The next answer, which is a fault where none is left.
    fn give(&mut self) -> Option<HttpResponse>
        ensures answer { option_map seen_response result ≡ first_answer self.old.left }
        ensures left { self.new.left ≡ drop 1 self.old.left }
        ensures requests { self.new.requests ≡ self.old.requests }
        ensures given { self.new.given ≡ self.old.given }
    {
        let answer = self.next.take()?;
        self.next = self.later.next();
        match answer {
            Answer::Response(response) => Some(response),
            Answer::Fault => None,
        }
    }

    /// The requests that were handed over, in their order.
    pub fn requests(&self) -> &[HttpRequest]
        ensures requests { result.now ≡ self.now.requests }
    {
        self.requests.as_slice()
    }
}

fn kept_of(alloc: Global, next: &Option<Answer>) -> Result<Option<Kept>, AllocError>
    ensures { IfOk result (λ kept. kept ≡ first_answer (left_of next.now [])) }
{
    match next {
        Some(Answer::Response(response)) => Ok(Some(Kept::of(alloc, response)?)),
        Some(Answer::Fault) | None => Ok(None),
    }
}

/// A call is a fault exactly where the next answer is one or none is left.
impl SyncHttpClient for Recorded {
    ghost use Rattle.std.specs.Prelude.{Option};
    ghost use Rattle.oidc_oauth2.specs.Recorded.{fault_count};
    ghost use Rattle.oidc_oauth2.specs.Transport.{in_order};

    type Error = Fault;

    ghost log = { λ r. Option.Some (record { requests = r.requests; answers = r.given }) };

    ghost script = { λ r. Option.Some (in_order r.left) };

    ghost faults = { λ r. fault_count r.given };

    #[tactic(auto, using(crate::proofs::FaultCounts::fault_more, crate::proofs::FaultCounts::answer_more))]
    fn call(
        &mut self,
        alloc: Global,
        request: HttpRequest,
    ) -> Result<HttpResponse, CallError<Fault>> {
        match self.keep(alloc, request) {
            Err(_) => Err(CallError::Memory),
            Ok(()) => match self.give() {
                Some(response) => Ok(response),
                None => Err(CallError::Transport(Fault)),
            },
        }
    }
}
