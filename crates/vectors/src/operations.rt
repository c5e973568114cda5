//! The operations.

ghost use Rattle.std.specs.Prelude.{◌≡◌};
ghost use Rattle.vectors.specs.Operations as spec;

use crate::{
    claims, displays, exchanges, headers, keys, members, pkce, records, types, vocabularies,
};
use case_lines::{Case, CaseError, CaseOperation};
use std::alloc::Global;

/// What a case asks for.
#[derive(Clone, Copy, Debug, PartialEq, Eq)]
pub(crate) enum Operation {
    Pairs,
    Members,
    Standard,
    Url,
    Join,
    Word,
    Localized,
    Random,
    Hmac,
    Verdict,
    Digest,
    Challenge,
    Display,
    TokenResponse,
    ErrorResponse,
    DeviceError,
    RevocationError,
    DeviceResponse,
    Introspection,
    TokenType,
    Essence,
    Bearer,
    CodeRequest,
    TokenAnswer,
}

impl Operation {
    /// Every operation.
    const ALL: [Operation; 24] = [
        Operation::Pairs,
        Operation::Members,
        Operation::Standard,
        Operation::Url,
        Operation::Join,
        Operation::Word,
        Operation::Localized,
        Operation::Random,
        Operation::Hmac,
        Operation::Verdict,
        Operation::Digest,
        Operation::Challenge,
        Operation::Display,
        Operation::TokenResponse,
        Operation::ErrorResponse,
        Operation::DeviceError,
        Operation::RevocationError,
        Operation::DeviceResponse,
        Operation::Introspection,
        Operation::TokenType,
        Operation::Essence,
        Operation::Bearer,
        Operation::CodeRequest,
        Operation::TokenAnswer,
    ];

    // Its name, the value of `op`.
    fn name(self) -> &'static str
        ensures { result.now ≡ spec.operation_name self }
    {
        match self {
            Operation::Pairs => "pairs",
            Operation::Members => "members",
            Operation::Standard => "standard",
            Operation::Url => "url",
            Operation::Join => "join",
            Operation::Word => "word",
            Operation::Localized => "localized",
            Operation::Random => "random",
            Operation::Hmac => "hmac",
            Operation::Verdict => "verdict",
            Operation::Digest => "digest",
            Operation::Challenge => "challenge",
            Operation::Display => "display",
            Operation::TokenResponse => "token_response",
            Operation::ErrorResponse => "error_response",
            Operation::DeviceError => "device_error",
            Operation::RevocationError => "revocation_error",
            Operation::DeviceResponse => "device_response",
            Operation::Introspection => "introspection",
            Operation::TokenType => "token_type",
            Operation::Essence => "essence",
            Operation::Bearer => "bearer",
            Operation::CodeRequest => "code_request",
            Operation::TokenAnswer => "token_answer",
        }
    }

    // The operation of that name.
    fn of_name(name: &str) -> Option<Operation>
        ensures { result ≡ spec.operation_of name.now }
    {
        Operation::ALL
            .iter()
            .copied()
            .find(|operation| operation.name() == name)
    }
}

impl CaseOperation for Operation {
    ghost operation_of = { spec.operation_of };

    fn named(name: &str) -> Option<Operation> {
        Operation::of_name(name)
    }

    fn answer(self, alloc: Global, case: &Case) -> Result<String, CaseError> {
        match self {
            Operation::Pairs => members::pairs(alloc, case),
            Operation::Members => members::members(alloc, case),
            Operation::Standard => claims::standard(alloc, case),
            Operation::Url => types::url(alloc, case),
            Operation::Join => types::join(alloc, case),
            Operation::Word => vocabularies::word(alloc, case),
            Operation::Localized => types::localized(alloc, case),
            Operation::Random => types::random(alloc, case),
            Operation::Hmac => keys::hmac(alloc, case),
            Operation::Verdict => keys::verdict(alloc, case),
            Operation::Digest => keys::digest(alloc, case),
            Operation::Challenge => pkce::challenge(alloc, case),
            Operation::Display => displays::display(alloc, case),
            Operation::TokenResponse => records::token_response(alloc, case),
            Operation::ErrorResponse => records::error_response(alloc, case),
            Operation::DeviceError => records::device_error(alloc, case),
            Operation::RevocationError => records::revocation_error(alloc, case),
            Operation::DeviceResponse => records::device_response(alloc, case),
            Operation::Introspection => records::introspection(alloc, case),
            Operation::TokenType => vocabularies::token_type(alloc, case),
            Operation::Essence => headers::essence(alloc, case),
            Operation::Bearer => headers::bearer(alloc, case),
            Operation::CodeRequest => exchanges::code_request(alloc, case),
            Operation::TokenAnswer => exchanges::token_answer(alloc, case),
        }
    }
}
