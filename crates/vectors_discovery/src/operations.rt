//! The operations.

ghost use Rattle.std.specs.Prelude.{◌≡◌};
ghost use Rattle.vectors_discovery.specs.Operations as spec;

use crate::{documents, key_sets};
use case_lines::{Case, CaseError, CaseOperation};
use std::alloc::Global;

/// What a case asks for.
#[derive(Clone, Copy, Debug, PartialEq, Eq)]
pub(crate) enum Operation {
    KeySet,
    SigningKeys,
    WrittenKeySet,
    Metadata,
    Pinned,
    DocumentRequest,
    DocumentAnswer,
    KeySetRequest,
    KeySetAnswer,
}

impl Operation {
    /// Every operation.
    const ALL: [Operation; 9] = [
        Operation::KeySet,
        Operation::SigningKeys,
        Operation::WrittenKeySet,
        Operation::Metadata,
        Operation::Pinned,
        Operation::DocumentRequest,
        Operation::DocumentAnswer,
        Operation::KeySetRequest,
        Operation::KeySetAnswer,
    ];

    // Its name, the value of `op`.
    fn name(self) -> &'static str
        ensures { result.now ≡ spec.operation_name self }
    {
        match self {
            Operation::KeySet => "key_set",
            Operation::SigningKeys => "signing_keys",
            Operation::WrittenKeySet => "written_key_set",
            Operation::Metadata => "metadata",
            Operation::Pinned => "pinned",
            Operation::DocumentRequest => "document_request",
            Operation::DocumentAnswer => "document_answer",
            Operation::KeySetRequest => "key_set_request",
            Operation::KeySetAnswer => "key_set_answer",
        }
    }

    // The operation of that name.
    fn of_name(name: &str) -> Option<Operation>
        ensures { result ≡ spec.operation_of name.now }
    {
        Operation::ALL
            .iter()
            .copied()
            .find(|operation| operation.name() == name)
    }
}

impl CaseOperation for Operation {
    ghost operation_of = { spec.operation_of };

    fn named(name: &str) -> Option<Operation> {
        Operation::of_name(name)
    }

    fn answer(self, alloc: Global, case: &Case) -> Result<String, CaseError> {
        match self {
            Operation::KeySet => key_sets::key_set(alloc, case),
            Operation::SigningKeys => key_sets::signing_keys(alloc, case),
            Operation::WrittenKeySet => key_sets::written_key_set(alloc, case),
            Operation::Metadata => documents::metadata(alloc, case),
            Operation::Pinned => documents::pinned(alloc, case),
            Operation::DocumentRequest => documents::document_request(alloc, case),
            Operation::DocumentAnswer => documents::document_answer(alloc, case),
            Operation::KeySetRequest => documents::key_set_request(alloc, case),
            Operation::KeySetAnswer => documents::key_set_answer(alloc, case),
        }
    }
}
