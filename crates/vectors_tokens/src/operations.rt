//! The operations.

ghost use Rattle.std.specs.Prelude.{◌≡◌};
ghost use Rattle.vectors_tokens.specs.Operations as spec;

use crate::{authorization, displays, logout, refreshed, responses, tokens, user_info, verifiers};
use case_lines::{Case, CaseError, CaseOperation};
use std::alloc::Global;

/// What a case asks for.
#[derive(Clone, Copy, Debug, PartialEq, Eq)]
pub(crate) enum Operation {
    Display,
    TokenResponse,
    TokenAnswer,
    Header,
    IdClaims,
    IdToken,
    Verify,
    VerifyRefreshed,
    Hash,
    Issue,
    InfoClaims,
    InfoRequest,
    InfoAnswer,
    InfoIssue,
    Authorize,
    Logout,
}

impl Operation {
    /// Every operation.
    const ALL: [Operation; 16] = [
        Operation::Display,
        Operation::TokenResponse,
        Operation::TokenAnswer,
        Operation::Header,
        Operation::IdClaims,
        Operation::IdToken,
        Operation::Verify,
        Operation::VerifyRefreshed,
        Operation::Hash,
        Operation::Issue,
        Operation::InfoClaims,
        Operation::InfoRequest,
        Operation::InfoAnswer,
        Operation::InfoIssue,
        Operation::Authorize,
        Operation::Logout,
    ];

    // Its name, the value of `op`.
    fn name(self) -> &'static str
        ensures { result.now ≡ spec.operation_name self }
    {
        match self {
            Operation::Display => "display",
            Operation::TokenResponse => "token_response",
            Operation::TokenAnswer => "token_answer",
            Operation::Header => "header",
            Operation::IdClaims => "id_claims",
            Operation::IdToken => "token",
            Operation::Verify => "verify",
            Operation::VerifyRefreshed => "verify_refreshed",
            Operation::Hash => "hash",
            Operation::Issue => "issue",
            Operation::InfoClaims => "info_claims",
            Operation::InfoRequest => "info_request",
            Operation::InfoAnswer => "info_answer",
            Operation::InfoIssue => "info_issue",
            Operation::Authorize => "authorize",
            Operation::Logout => "logout",
        }
    }

    // The operation of that name.
    fn of_name(name: &str) -> Option<Operation>
        ensures { result ≡ spec.operation_of name.now }
    {
        Operation::ALL
            .iter()
            .copied()
            .find(|operation| operation.name() == name)
    }
}

impl CaseOperation for Operation {
    ghost operation_of = { spec.operation_of };

    fn named(name: &str) -> Option<Operation> {
        Operation::of_name(name)
    }

    fn answer(self, alloc: Global, case: &Case) -> Result<String, CaseError> {
        match self {
            Operation::Display => displays::display(alloc, case),
            Operation::TokenResponse => responses::token_response(alloc, case),
            Operation::TokenAnswer => responses::token_answer(alloc, case),
            Operation::Header => tokens::header(alloc, case),
            Operation::IdClaims => tokens::id_claims(alloc, case),
            Operation::IdToken => tokens::token(alloc, case),
            Operation::Verify => verifiers::verify(alloc, case),
            Operation::VerifyRefreshed => refreshed::verify_refreshed(alloc, case),
            Operation::Hash => tokens::hash(alloc, case),
            Operation::Issue => tokens::issue(alloc, case),
            Operation::InfoClaims => user_info::info_claims(alloc, case),
            Operation::InfoRequest => user_info::info_request(alloc, case),
            Operation::InfoAnswer => user_info::info_answer(alloc, case),
            Operation::InfoIssue => user_info::info_issue(alloc, case),
            Operation::Authorize => authorization::authorize(alloc, case),
            Operation::Logout => logout::logout(alloc, case),
        }
    }
}
