//! The operations.

ghost use Rattle.std.specs.Prelude.{◌≡◌};
ghost use Rattle.vectors_keys.specs.Operations as spec;

use crate::{provider_keys, rsa};
use case_lines::{Case, CaseError, CaseOperation};
use std::alloc::Global;

/// What a case asks for.
#[derive(Clone, Copy, Debug, PartialEq, Eq)]
pub(crate) enum Operation {
    Rsa,
    ProviderVerdict,
    ProviderKey,
    ProviderDigest,
}

impl Operation {
    /// Every operation.
    const ALL: [Operation; 4] = [
        Operation::Rsa,
        Operation::ProviderVerdict,
        Operation::ProviderKey,
        Operation::ProviderDigest,
    ];

    // Its name, the value of `op`.
    fn name(self) -> &'static str
        ensures { result.now ≡ spec.operation_name self }
    {
        match self {
            Operation::Rsa => "rsa",
            Operation::ProviderVerdict => "provider_verdict",
            Operation::ProviderKey => "provider_key",
            Operation::ProviderDigest => "provider_digest",
        }
    }

    // The operation of that name.
    fn of_name(name: &str) -> Option<Operation>
        ensures { result ≡ spec.operation_of name.now }
    {
        Operation::ALL
            .iter()
            .copied()
            .find(|operation| operation.name() == name)
    }
}

impl CaseOperation for Operation {
    ghost operation_of = { spec.operation_of };

    fn named(name: &str) -> Option<Operation> {
        Operation::of_name(name)
    }

    fn answer(self, alloc: Global, case: &Case) -> Result<String, CaseError> {
        match self {
            Operation::Rsa => rsa::rsa(alloc, case),
            Operation::ProviderVerdict => provider_keys::provider_verdict(alloc, case),
            Operation::ProviderKey => provider_keys::provider_key(alloc, case),
            Operation::ProviderDigest => provider_keys::provider_digest(alloc, case),
        }
    }
}
