//! Token responses with an ID token, and what answers with one are worth.

use crate::tokens::TokenFields;
use case_lines::{
    Case, CaseError, reading_in, response_in, token_answer_line, token_response_line,
};
use std::alloc::Global;

/// `token_response`: a token response with the fields of ID tokens, whose claims are read under a reading, written
/// again.
pub(crate) fn token_response(alloc: Global, case: &Case) -> Result<String, CaseError> {
    case.check_with(&["text", "extra"], &["reading"])?;
    check_extra(case)?;
    token_response_line::<TokenFields>(alloc, case.value("text"), reading_in(case)?)
}

/// `token_answer`: what an answer to a request for tokens is worth, with the fields of ID tokens, under a reading.
pub(crate) fn token_answer(alloc: Global, case: &Case) -> Result<String, CaseError> {
    case.check_with(&["status", "body", "extra"], &["type", "reading"])?;
    check_extra(case)?;
    let reading = reading_in(case)?;
    token_answer_line::<TokenFields>(alloc, response_in(alloc, case)?, reading)
}

// Whether the extra fields are those of ID tokens.
fn check_extra(case: &Case) -> Result<(), CaseError> {
    if case.value("extra") == "id_token" {
        Ok(())
    } else {
        Err(CaseError::NoCase)
    }
}
