//! Requests, responses, and what a transport promises (RFC 9110).

ghost use Rattle.std.specs.Prelude.{◌≡◌, ◌≤◌, ℕ, List, Option};
ghost use Rattle.std.specs.String.{string_bytes};

use http::Method;
use http_header::HeaderMap;
use oidc_types::Body;
use std::alloc::Global;
use std::marker::Model;

/// A request: a method, the text of an address, headers and a body. A transport builds what its own
/// client needs from these four. It has no `Debug`, since it carries a client's credentials.
#[derive(Drop)]
pub struct HttpRequest {
    method: Method,
    address: String,
    headers: HeaderMap,
    body: Body,
}

impl Model for HttpRequest {
    ghost use Rattle.std.specs.String.{string_bytes};
    ghost use Rattle.oidc_oauth2.specs.Messages.{SeenRequest, seen_request_code};

    ghost Value = { SeenRequest };

    ghost coded = { seen_request_code };

    ghost view = { λ r. record {
      method = r.method;
      address = string_bytes r.address;
      headers = r.headers;
      body = r.body;
    } };
}

impl HttpRequest {
    /// A request of these four parts.
    pub fn new(method: Method, address: String, headers: HeaderMap, body: Body) -> Self
        ensures method { result.method ≡ method }
        ensures address { result.address ≡ string_bytes address }
        ensures headers { result.headers ≡ headers }
        ensures body { result.body ≡ body }
    {
        HttpRequest {
            method,
            address,
            headers,
            body,
        }
    }

    /// The method.
    pub fn method(&self) -> &Method
        ensures method { result.now ≡ self.now.method }
    {
        &self.method
    }

    /// The text of the address.
    pub fn address(&self) -> &str
        ensures address { result.now ≡ self.now.address }
    {
        self.address.as_str()
    }

    /// The headers.
    pub fn headers(&self) -> &HeaderMap
        ensures headers { result.now ≡ self.now.headers }
    {
        &self.headers
    }

    /// The body.
    pub fn body(&self) -> &Body
        ensures body { result.now ≡ self.now.body }
    {
        &self.body
    }
}

/// A response. Its status, its first `content-type` and its body are all that is read of it.
pub type HttpResponse = http::Response<Body>;

/// Why a call of a transport gave no response.
#[derive(Debug, Drop)]
pub enum CallError<E> {
    /// The request was handed over and failed on its way, or its response did.
    Transport(E),
    /// There was no memory. The log of the transport, where it is known, is as it was.
    Memory,
}

/// A transport: it hands a request over to its server and gives the answer.
///
/// Its meanings are the log of what went over it, the script of what it will answer, and the count
/// of its faults. A transport over a network knows neither log nor script, and says `None` of both. No
/// call changes whether they are known.
pub trait SyncHttpClient {
    ghost use Rattle.std.specs.Prelude.{◌≡◌, ◌≤◌, ℕ, List, Option};
    ghost use Rattle.oidc_oauth2.specs.Transport.{Log, Script, IsLogged, Plays, requests_in, answers_in, IsBlamed};

    /// What a request fails with on its way.
    type Error;

    /// The requests that were handed over and the answers that were given, where they are known.
    ghost log: { Self → Option Log };

    /// What it answers to the requests to come, where that is known.
    ghost script: { Self → Option Script } = { λ _. Option.None };

    /// How often it has failed.
    ghost faults: { Self → ℕ };

    /// Whether it may be called. By default it may. An `Adapter` may, where its closure has no
    /// `requires`.
    ghost ready: { Self → Type 0 } = { λ _. Unit {0} };

    /// Hands the request over and gives the answer. `Transport` comes only where the count of faults
    /// has risen or stands at its last value. On `Memory` a log that is known is as it was.
    fn call(
        &mut self,
        alloc: Global,
        request: HttpRequest,
    ) -> Result<HttpResponse, CallError<Self::Error>>
        requires { ready self.old }
        ensures again { ready self.new }
        ensures logged { IsLogged (log self.old) (log self.new) request result }
        ensures plays { Plays (script self.old) (requests_in request result) (answers_in result)
            (script self.new) }
        ensures never_falls { faults self.old ≤ faults self.new }
        ensures blamed { IsBlamed (faults self.old) (faults self.new) result };
}
