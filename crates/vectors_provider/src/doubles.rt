//! The provider double by itself.

use crate::calls::{
    Authorization, Double, authorization_in, authorized_line, registrations_in, request_in,
    response_line, settings_in,
};
use case_lines::{Case, CaseError, ok_form, one_of, refused_word};
use oidc_oauth2::{CallError, HttpRequest, SyncHttpClient};
use oidc_pairs::FormText;
use oidc_provider::{AuthorizeError, NewProviderError};
use std::alloc::Global;

// A call of a run.
#[derive(Drop)]
enum Step {
    Authorize(Authorization),
    Call(HttpRequest),
}

// The calls of a line, in their order.
fn steps_in(alloc: Global, case: &Case) -> Result<Vec<Step>, CaseError> {
    let mut steps = Vec::new(alloc);
    for pair in case.pairs() {
        match pair.name() {
            "authorize" => {
                steps.push(Step::Authorize(authorization_in(alloc, pair.value())?))?;
            }
            "call" => steps.push(Step::Call(request_in(alloc, pair.value())?))?,
            _ => {}
        }
    }
    Ok(steps)
}

// The name of a call and its answer.
fn push_step(
    alloc: Global,
    form: &mut FormText,
    provider: &mut Double,
    step: Step,
) -> Result<(), CaseError> {
    match step {
        Step::Authorize(asked) => {
            let line = authorized_line(alloc, provider, asked)?;
            Ok(form.push("authorize", line.as_str())?)
        }
        Step::Call(request) => {
            let line = call_line(alloc, provider, request)?;
            Ok(form.push("call", line.as_str())?)
        }
    }
}

fn call_line(
    alloc: Global,
    provider: &mut Double,
    request: HttpRequest,
) -> Result<String, CaseError> {
    match provider.call(alloc, request) {
        Ok(response) => response_line(alloc, &response),
        Err(CallError::Memory) => Err(CaseError::Memory),
        Err(CallError::Transport(never)) => match never {},
    }
}

fn run_line(alloc: Global, provider: &mut Double, steps: Vec<Step>) -> Result<String, CaseError> {
    let mut form = FormText::new(alloc);
    for step in steps {
        push_step(alloc, &mut form, provider, step)?;
    }
    ok_form(alloc, form)
}

/// `provider`: calls of one provider, and what it answers.
pub(crate) fn provider(alloc: Global, case: &Case) -> Result<String, CaseError> {
    let repeated = ["registration", "authorize", "call"];
    case.check_all(&["issuer", "token", "user_info"], &[], &repeated)?;
    let settings = settings_in(alloc, case)?;
    let registrations = registrations_in(alloc, case)?;
    let steps = steps_in(alloc, case)?;
    let made: Result<Double, NewProviderError> = Double::new(alloc, settings, registrations);
    match made {
        Ok(mut provider) => run_line(alloc, &mut provider, steps),
        Err(NewProviderError::SameClient) => refused_word(alloc, "same_client"),
        Err(NewProviderError::Memory) => Err(CaseError::Memory),
    }
}

// ---- what errors print

const REFUSALS: [AuthorizeError; 8] = [
    AuthorizeError::Client,
    AuthorizeError::Redirect,
    AuthorizeError::Request,
    AuthorizeError::Subject,
    AuthorizeError::CodeUsed,
    AuthorizeError::TokenUsed,
    AuthorizeError::TokenText,
    AuthorizeError::Memory,
];

const UNMADE: [NewProviderError; 2] = [NewProviderError::SameClient, NewProviderError::Memory];

/// `display`: what the value of a variant prints.
pub(crate) fn display(alloc: Global, case: &Case) -> Result<String, CaseError> {
    case.check(&["type", "variant"])?;
    let variant = case.value("variant");
    match case.value("type") {
        "AuthorizeError" => one_of(alloc, &REFUSALS, variant),
        "NewProviderError" => one_of(alloc, &UNMADE, variant),
        _ => Err(CaseError::NoCase),
    }
}
