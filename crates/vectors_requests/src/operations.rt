//! The operations.

ghost use Rattle.std.specs.Prelude.{◌≡◌};
ghost use Rattle.vectors_requests.specs.Operations as spec;

use crate::{answers, requests};
use case_lines::{Case, CaseError, CaseOperation};
use std::alloc::Global;

/// What a case asks for.
#[derive(Clone, Copy, Debug, PartialEq, Eq)]
pub(crate) enum Operation {
    RefreshRequest,
    PasswordRequest,
    ClientCredentialsRequest,
    DeviceTokenRequest,
    DeviceRequest,
    IntrospectionRequest,
    RevocationRequest,
    TokensAnswer,
    DeviceAnswer,
    IntrospectionAnswer,
    PollAnswer,
    RevocationAnswer,
}

impl Operation {
    /// Every operation.
    const ALL: [Operation; 12] = [
        Operation::RefreshRequest,
        Operation::PasswordRequest,
        Operation::ClientCredentialsRequest,
        Operation::DeviceTokenRequest,
        Operation::DeviceRequest,
        Operation::IntrospectionRequest,
        Operation::RevocationRequest,
        Operation::TokensAnswer,
        Operation::DeviceAnswer,
        Operation::IntrospectionAnswer,
        Operation::PollAnswer,
        Operation::RevocationAnswer,
    ];

    // Its name, the value of `op`.
    fn name(self) -> &'static str
        ensures { result.now ≡ spec.operation_name self }
    {
        match self {
            Operation::RefreshRequest => "refresh_request",
            Operation::PasswordRequest => "password_request",
            Operation::ClientCredentialsRequest => "client_credentials_request",
            Operation::DeviceTokenRequest => "device_token_request",
            Operation::DeviceRequest => "device_request",
            Operation::IntrospectionRequest => "introspection_request",
            Operation::RevocationRequest => "revocation_request",
            Operation::TokensAnswer => "tokens_answer",
            Operation::DeviceAnswer => "device_answer",
            Operation::IntrospectionAnswer => "introspection_answer",
            Operation::PollAnswer => "poll_answer",
            Operation::RevocationAnswer => "revocation_answer",
        }
    }

    // The operation of that name.
    fn of_name(name: &str) -> Option<Operation>
        ensures { result ≡ spec.operation_of name.now }
    {
        Operation::ALL
            .iter()
            .copied()
            .find(|operation| operation.name() == name)
    }
}

impl CaseOperation for Operation {
    ghost operation_of = { spec.operation_of };

    fn named(name: &str) -> Option<Operation> {
        Operation::of_name(name)
    }

    fn answer(self, alloc: Global, case: &Case) -> Result<String, CaseError> {
        match self {
            Operation::RefreshRequest => requests::refresh_request(alloc, case),
            Operation::PasswordRequest => requests::password_request(alloc, case),
            Operation::ClientCredentialsRequest => requests::client_credentials_request(
                alloc, case,
            ),
            Operation::DeviceTokenRequest => requests::device_token_request(alloc, case),
            Operation::DeviceRequest => requests::device_request(alloc, case),
            Operation::IntrospectionRequest => requests::introspection_request(alloc, case),
            Operation::RevocationRequest => requests::revocation_request(alloc, case),
            Operation::TokensAnswer => answers::tokens_answer(alloc, case),
            Operation::DeviceAnswer => answers::device_answer(alloc, case),
            Operation::IntrospectionAnswer => answers::introspection_answer(alloc, case),
            Operation::PollAnswer => answers::poll_answer(alloc, case),
            Operation::RevocationAnswer => answers::revocation_answer(alloc, case),
        }
    }
}
