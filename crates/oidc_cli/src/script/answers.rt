//! The answers on a callback line.
ghost use Rattle.std.specs.Prelude.{◌≡◌, [], Some, map, option_map, unwrap_or, IfOk};
ghost use Rattle.std.specs.String.{string_bytes};
ghost use Rattle.oidc_oauth2.specs.Messages.{seen_response};
ghost use Rattle.oidc_oauth2.specs.Recorded.{seen_answer};
ghost use Rattle.oidc_cli.specs.Values.{pair_value};
ghost use Rattle.oidc_cli.specs.Readers.{Reads};
ghost use Rattle.oidc_cli.specs.Script as spec;

use crate::beside::beside;
use crate::events::{AnswerTo, LineError};
use crate::script::values::{lacks, only_text, optional_content_type, optional_text, pair_status};
use http::response::Parts;
use http::{Response, StatusCode, Version};
use http_header::{CONTENT_TYPE, HeaderMap, HeaderMapError, HeaderValue};
use oidc_oauth2::{Answer, Body, HttpResponse};
use oidc_pairs::BorrowedPairs;
use std::alloc::{AllocError, Global};

// The names under which an answer stands.

fn status_name(to: AnswerTo) -> &'static str
    ensures { result.now ≡ spec.status_name to }
{
    match to {
        AnswerTo::Token => "token_status",
        AnswerTo::UserInfo => "info_status",
    }
}

fn type_name(to: AnswerTo) -> &'static str
    ensures { result.now ≡ spec.type_name to }
{
    match to {
        AnswerTo::Token => "token_type",
        AnswerTo::UserInfo => "info_type",
    }
}

fn body_name(to: AnswerTo) -> &'static str
    ensures { result.now ≡ spec.body_name to }
{
    match to {
        AnswerTo::Token => "token_body",
        AnswerTo::UserInfo => "info_body",
    }
}

fn fault_name(to: AnswerTo) -> &'static str
    ensures { result.now ≡ spec.fault_name to }
{
    match to {
        AnswerTo::Token => "token_fault",
        AnswerTo::UserInfo => "info_fault",
    }
}

// The fault of the one pair with this name.
fn pair_fault(line: &BorrowedPairs<'_>, name: &str) -> Result<Answer, LineError>
    ensures { Reads seen_answer result (pair_value spec.fault_of_text line.now name.now) }
{
    if only_text(line, name)? != "1" {
        return Err(LineError::NoEvent);
    }
    Ok(Answer::Fault)
}

// The answer without a status, where there is one.
#[tactic(auto, unfolding(crate::specs::Script::answer_without_status))]
fn answer_without_status(
    line: &BorrowedPairs<'_>,
    to: AnswerTo,
) -> Result<Option<Answer>, LineError>
    ensures { Reads (λ answer. option_map seen_answer answer) result
        (spec.answer_without_status to line.now) }
{
    if !lacks(line, type_name(to)) {
        return Err(LineError::NoEvent);
    }
    if !lacks(line, body_name(to)) {
        return Err(LineError::NoEvent);
    }
    if lacks(line, fault_name(to)) {
        return Ok(None);
    }
    Ok(Some(pair_fault(line, fault_name(to))?))
}

// A response of these parts.
pub(crate) fn response_with(
    alloc: Global,
    status: StatusCode,
    content_type: Option<HeaderValue>,
    body: Vec<u8>,
) -> Result<HttpResponse, HeaderMapError>
    ensures { IfOk result (λ response. seen_response response
        ≡ record {
          status = status;
          content_type = option_map (λ v. v.bytes) content_type;
          body = body.items;
        }) }
{
    let mut headers = HeaderMap::new(alloc);
    if let Some(content_type) = content_type {
        headers.insert(CONTENT_TYPE, content_type)?;
    }
    let head = Parts {
        status,
        version: Version::HTTP_11,
        headers,
    };
    Ok(Response::from_parts(head, Body::new(body)))
}

// A text, or the empty one where there is none.
fn or_empty(alloc: Global, text: Option<String>) -> String
    ensures { string_bytes result ≡ unwrap_or (option_map string_bytes text) [] }
{
    match text {
        Some(text) => text,
        None => String::new(alloc),
    }
}

// The response with a status.
#[tactic(auto, unfolding(crate::specs::Script::response_of))]
fn read_response(
    alloc: Global,
    line: &BorrowedPairs<'_>,
    to: AnswerTo,
) -> Result<HttpResponse, LineError>
    ensures { Reads (λ response. seen_response response) result (spec.response_of to line.now) }
{
    let status = pair_status(line, status_name(to))?;
    let content_type = optional_content_type(alloc, line, type_name(to))?;
    let body = optional_text(alloc, line, body_name(to))?;
    let body = or_empty(alloc, body).into_bytes();
    match response_with(alloc, status, content_type, body) {
        Ok(response) => Ok(response),
        Err(_) => Err(LineError::Memory),
    }
}

// The answer to a request, where there is one.
#[tactic(auto, unfolding(crate::specs::Script::answer_of))]
fn read_answer(
    alloc: Global,
    line: &BorrowedPairs<'_>,
    to: AnswerTo,
) -> Result<Option<Answer>, LineError>
    ensures { Reads (λ answer. option_map seen_answer answer) result (spec.answer_of to line.now) }
{
    if lacks(line, status_name(to)) {
        return answer_without_status(line, to);
    }
    if !lacks(line, fault_name(to)) {
        return Err(LineError::NoEvent);
    }
    let response = read_response(alloc, line, to)?;
    Ok(Some(Answer::Response(response)))
}

// A list of an answer, and of another behind it where there is one.
fn listed(alloc: Global, first: Answer, second: Option<Answer>) -> Result<Vec<Answer>, AllocError>
    ensures { let given = option_map seen_answer second in
        IfOk result (λ answers. Some (map seen_answer answers.items)
        ≡ spec.in_order (Some (seen_answer first)) given) }
{
    let mut answers = Vec::new(alloc);
    answers.push(first)?;
    if let Some(second) = second {
        answers.push(second)?;
    }
    Ok(answers)
}

// The answers in the order of their requests.
fn in_order(
    alloc: Global,
    token: Option<Answer>,
    info: Option<Answer>,
) -> Result<Vec<Answer>, LineError>
    ensures { Reads (λ answers. map seen_answer answers.items) result
        (spec.in_order (option_map seen_answer token) (option_map seen_answer info)) }
{
    match (token, info) {
        (Some(token), info) => Ok(listed(alloc, token, info)?),
        (None, None) => Ok(Vec::new(alloc)),
        (None, Some(info)) => {
            drop(info);
            Err(LineError::NoEvent)
        }
    }
}

/// What the provider answers on a callback line.
#[tactic(auto, unfolding(crate::specs::Script::answers_of))]
pub fn read_answers(alloc: Global, line: &BorrowedPairs<'_>) -> Result<Vec<Answer>, LineError>
    ensures { Reads (λ answers. map seen_answer answers.items) result (spec.answers_of line.now) }
{
    let token = read_answer(alloc, line, AnswerTo::Token)?;
    let (token, info) = beside(token, read_answer(alloc, line, AnswerTo::UserInfo))?;
    in_order(alloc, token, info)
}
