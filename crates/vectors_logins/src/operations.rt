//! The operations.

ghost use Rattle.std.specs.Prelude.{◌≡◌};
ghost use Rattle.vectors_logins.specs.Operations as spec;

use crate::{devices, displays, front, scripts, sessions};
use case_lines::{Case, CaseError, CaseOperation};
use std::alloc::Global;

/// What a case asks for.
#[derive(Clone, Copy, Debug, PartialEq, Eq)]
pub(crate) enum Operation {
    Run,
    Front,
    Sessions,
    DeviceLogin,
    Display,
}

impl Operation {
    /// Every operation.
    const ALL: [Operation; 5] = [
        Operation::Run,
        Operation::Front,
        Operation::Sessions,
        Operation::DeviceLogin,
        Operation::Display,
    ];

    // Its name, the value of `op`.
    fn name(self) -> &'static str
        ensures { result.now ≡ spec.operation_name self }
    {
        match self {
            Operation::Run => "run",
            Operation::Front => "front",
            Operation::Sessions => "sessions",
            Operation::DeviceLogin => "device_login",
            Operation::Display => "display",
        }
    }

    // The operation of that name.
    fn of_name(name: &str) -> Option<Operation>
        ensures { result ≡ spec.operation_of name.now }
    {
        Operation::ALL
            .iter()
            .copied()
            .find(|operation| operation.name() == name)
    }
}

impl CaseOperation for Operation {
    ghost operation_of = { spec.operation_of };

    fn named(name: &str) -> Option<Operation> {
        Operation::of_name(name)
    }

    fn answer(self, alloc: Global, case: &Case) -> Result<String, CaseError> {
        match self {
            Operation::Run => scripts::run(alloc, case),
            Operation::Front => front::front(alloc, case),
            Operation::Sessions => sessions::sessions(alloc, case),
            Operation::DeviceLogin => devices::device_login(alloc, case),
            Operation::Display => displays::display(alloc, case),
        }
    }
}
