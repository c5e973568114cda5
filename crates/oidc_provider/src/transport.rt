// A provider double as a transport.

ghost use Rattle.std.specs.Prelude.{◌≡◌, ◌∷◌, ◌++◌, [], Some, IfOk, OnOk, OnErr, option_map};
ghost use Rattle.std.specs.String.{string_bytes};
ghost use Rattle.oidc_oauth2.specs.Messages.{seen_response};
ghost use Rattle.oidc_provider.specs.Grants.{redeemed_by};
ghost use Rattle.oidc_provider.specs.Answers.{provider_answer};
ghost use Rattle.oidc_provider.specs.Rows.{row_answer};

use crate::answers::{Row, redeemed_of, response_of, row_of};
use crate::provider::Provider;
use http_header::CONTENT_TYPE;
use oidc_oauth2::{Body, CallError, HttpRequest, HttpResponse, SyncHttpClient};
use std::alloc::{AllocError, Global};
use std::convert::Infallible;
use std::marker::Model;

// What is kept of a response that was given.
#[derive(Drop)]
pub(crate) struct KeptResponse {
    status: u16,
    content_type: Option<Body>,
    body: Body,
}

impl Model for KeptResponse {
    ghost use Rattle.oidc_oauth2.specs.Messages.{SeenResponse, seen_response_code};

    ghost Value = { SeenResponse };

    ghost coded = { seen_response_code };

    ghost view = { λ k. record { status = k.status; content_type = k.content_type; body = k.body } };
}

fn body_of(alloc: Global, bytes: &[u8]) -> Result<Body, AllocError>
    ensures { IfOk result (λ body. body ≡ bytes.now) }
{
    Ok(Body::new(Vec::from_slice(alloc, bytes)?))
}

fn content_type_of(alloc: Global, response: &HttpResponse) -> Result<Option<Body>, AllocError>
    ensures { IfOk result (λ found. found ≡ (seen_response response.now).content_type) }
{
    match response.headers().get(CONTENT_TYPE) {
        None => Ok(None),
        Some(value) => Ok(Some(body_of(alloc, value.as_bytes())?)),
    }
}

impl KeptResponse {
    fn of(alloc: Global, response: &HttpResponse) -> Result<Self, AllocError>
        ensures { IfOk result (λ kept. kept ≡ seen_response response.now) }
    {
        Ok(KeptResponse {
            status: response.status().as_u16(),
            content_type: content_type_of(alloc, response)?,
            body: body_of(alloc, response.body().as_slice())?,
        })
    }
}

// The answer to a request, what is kept of it, and the code that it redeems.
#[derive(Drop)]
struct Reply {
    response: HttpResponse,
    kept: KeptResponse,
    redeems: Option<String>,
}

// The reply of a row of the table.
fn reply_of(alloc: Global, row: Row<'_>) -> Result<Reply, AllocError>
    ensures response { let answer = row_answer row.entry in
        IfOk result (λ reply. seen_response reply.response ≡ answer.response) }
    ensures kept { let answer = row_answer row.entry in
        IfOk result (λ reply. reply.kept ≡ answer.response) }
    ensures redeems { let answer = row_answer row.entry in
        IfOk result (λ reply. option_map string_bytes reply.redeems ≡ answer.redeems) }
{
    let redeems = redeemed_of(alloc, row)?;
    let response = response_of(alloc, row)?;
    let kept = KeptResponse::of(alloc, &response)?;
    Ok(Reply {
        response,
        kept,
        redeems,
    })
}

impl<AC, GC> Provider<AC, GC> {
    // The reply to a request.
    fn reply_to(&self, alloc: Global, request: &HttpRequest) -> Result<Reply, AllocError>
        ensures response { let answer = provider_answer self.now request.now in
            IfOk result (λ reply. seen_response reply.response ≡ answer.response) }
        ensures kept { let answer = provider_answer self.now request.now in
            IfOk result (λ reply. reply.kept ≡ answer.response) }
        ensures redeems { let answer = provider_answer self.now request.now in
            IfOk result (λ reply. option_map string_bytes reply.redeems ≡ answer.redeems) }
    {
        match row_of(
            alloc,
            &self.settings,
            &self.registrations,
            &self.grants,
            request,
        ) {
            Ok(row) => reply_of(alloc, row),
            Err(error) => Err(error),
        }
    }

    // Keeps a request and its answer, and redeems a code; or does nothing, where there is no memory.
    fn keep(
        &mut self,
        request: HttpRequest,
        kept: KeptResponse,
        redeems: Option<String>,
    ) -> Result<(), AllocError>
        ensures ok { OnOk result (self.new ≡ record self.old {
          grants = redeemed_by self.old.grants (option_map string_bytes redeems);
          requests = self.old.requests ++ request ∷ [];
          answers = self.old.answers ++ Some kept ∷ [];
        }) }
        ensures err { OnErr result (self.new ≡ self.old) }
    {
        self.given.reserve(1)?;
        self.requests.push(request)?;
        let _ = self.given.push(kept);
        if let Some(code) = redeems {
            self.grants.redeem(code.as_str());
        }
        Ok(())
    }
}

/// A call answers the table of answers, or `Memory`, which leaves all as it was. It never fails otherwise: its error
/// type has no values.
impl<AC, GC> SyncHttpClient for Provider<AC, GC> {
    ghost use Rattle.std.specs.Prelude.{◌≡◌, ◌≤◌, Option, IfOk, IfErr, OnOk, OnErr};
    ghost use Rattle.oidc_oauth2.specs.Messages.{seen_response};
    ghost use Rattle.oidc_oauth2.specs.Transport.{IsLogged, Plays, requests_in, answers_in, IsBlamed};
    ghost use Rattle.oidc_oauth2.specs.declared.transport.CallError.TheVariants.{Memory};
    ghost use Rattle.oidc_provider.specs.Answers.{provider_answer, after, log_of, served};
    ghost use Rattle.oidc_provider.specs.AnswerCauses.{Reason, Cause, IsAnswered, HasCause};

    type Error = Infallible;

    ghost log = { log_of };

    ghost script = { λ p. Option.Some (served p) };

    ghost faults = { λ _. 0 };

    #[tactic(auto, using(crate::proofs::Calls::calls))]
    fn call(
        &mut self,
        alloc: Global,
        request: HttpRequest,
    ) -> Result<HttpResponse, CallError<Infallible>>
        ensures again { Unit {0} }
        ensures logged { IsLogged (log_of self.old) (log_of self.new) request result }
        ensures plays { Plays (Option.Some (served self.old)) (requests_in request result)
            (answers_in result) (Option.Some (served self.new)) }
        ensures never_falls { 0 ≤ 0 }
        ensures blamed { IsBlamed 0 0 result }

        // Its answer is that of the table, and it is then what the table leaves; or it is as it was.
        ensures answered { IfOk result (λ response.
            seen_response response ≡ (provider_answer self.old request).response) }
        ensures after { OnOk result (self.new ≡ after self.old request) }
        ensures memory { IfErr result (λ error. error ≡ Memory) }
        ensures unchanged { OnErr result (self.new ≡ self.old) }

        // Each answer has its cause, and each cause its answer.
        ensures caused { IfOk result (λ response.
            HasCause self.old request self.new (seen_response response)) }
        ensures answers { (reason : Reason) → Cause self.old request reason
            → IfOk result (λ response. IsAnswered self.old request reason self.new (seen_response response)) }
    {
        let Ok(reply) = self.reply_to(alloc, &request) else {
            return Err(CallError::Memory);
        };
        let Reply {
            response,
            kept,
            redeems,
        } = reply;
        match self.keep(request, kept, redeems) {
            Ok(()) => Ok(response),
            Err(_) => Err(CallError::Memory),
        }
    }
}
