//! The operations.

ghost use Rattle.std.specs.Prelude.{◌≡◌};
ghost use Rattle.vectors_provider.specs.Operations as spec;

use crate::{doubles, logins};
use case_lines::{Case, CaseError, CaseOperation};
use std::alloc::Global;

/// What a case asks for.
#[derive(Clone, Copy, Debug, PartialEq, Eq)]
pub(crate) enum Operation {
    Provider,
    ProviderLogins,
    Display,
}

impl Operation {
    /// Every operation.
    const ALL: [Operation; 3] = [
        Operation::Provider,
        Operation::ProviderLogins,
        Operation::Display,
    ];

    // Its name, the value of `op`.
    fn name(self) -> &'static str
        ensures { result.now ≡ spec.operation_name self }
    {
        match self {
            Operation::Provider => "provider",
            Operation::ProviderLogins => "provider_logins",
            Operation::Display => "display",
        }
    }

    // The operation of that name.
    fn of_name(name: &str) -> Option<Operation>
        ensures { result ≡ spec.operation_of name.now }
    {
        Operation::ALL
            .iter()
            .copied()
            .find(|operation| operation.name() == name)
    }
}

impl CaseOperation for Operation {
    ghost operation_of = { spec.operation_of };

    fn named(name: &str) -> Option<Operation> {
        Operation::of_name(name)
    }

    fn answer(self, alloc: Global, case: &Case) -> Result<String, CaseError> {
        match self {
            Operation::Provider => doubles::provider(alloc, case),
            Operation::ProviderLogins => logins::provider_logins(alloc, case),
            Operation::Display => doubles::display(alloc, case),
        }
    }
}
