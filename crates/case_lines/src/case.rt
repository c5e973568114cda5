//! A line that is a case: form pairs, the first of them `op`.

use hex::FromHexError;
use oidc_pairs::{Pair, Pairs};
use std::alloc::{AllocError, AllocFailed, Global};

/// Why a case has no answer.
#[derive(Clone, Copy, Debug, PartialEq, Eq)]
pub enum CaseError {
    /// The line isn't a case.
    NoCase,
    /// There was no memory.
    Memory,
}

impl From<AllocError> for CaseError {
    fn from(_refused: AllocError) -> CaseError {
        CaseError::Memory
    }
}

impl<T: Drop> From<AllocFailed<T>> for CaseError {
    fn from(_refused: AllocFailed<T>) -> CaseError {
        CaseError::Memory
    }
}

/// The pairs of a line whose first pair is `op`.
#[derive(Drop)]
pub struct Case {
    pairs: Pairs,
}

impl Case {
    /// The case that a line is. It is none where its first pair isn't `op`.
    pub fn read(alloc: Global, line: &str) -> Result<Case, CaseError> {
        let pairs = Pairs::parse(alloc, line.as_bytes())?;
        match pairs.as_slice().first() {
            Some(first) if first.name() == "op" => Ok(Case { pairs }),
            _ => Err(CaseError::NoCase),
        }
    }

    /// The operation.
    pub fn op(&self) -> &str {
        match self.pairs.as_slice().first() {
            Some(first) => first.value(),
            None => "",
        }
    }

    /// The pairs behind `op`.
    pub fn pairs(&self) -> &[Pair] {
        match self.pairs.as_slice() {
            [_, later @ ..] => later,
            [] => &[],
        }
    }

    /// Whether each of these names stands once behind `op`, and no other name does.
    pub fn check(&self, names: &[&str]) -> Result<(), CaseError> {
        self.check_with(names, &[])
    }

    /// The same, where each of `optional` may stand once too.
    pub fn check_with(&self, names: &[&str], optional: &[&str]) -> Result<(), CaseError> {
        self.check_all(names, optional, &[])
    }

    /// The same, where each of `repeated` may stand too, as often as it likes.
    pub fn check_all(
        &self,
        names: &[&str],
        optional: &[&str],
        repeated: &[&str],
    ) -> Result<(), CaseError> {
        for pair in self.pairs() {
            if !is_one_of(pair.name(), repeated) {
                self.check_name(pair.name(), names, optional)?;
            }
        }
        self.check_required(names)
    }

    // Whether a name is one of these, and stands once.
    fn check_name(&self, name: &str, names: &[&str], optional: &[&str]) -> Result<(), CaseError> {
        if !is_one_of(name, names) && !is_one_of(name, optional) {
            return Err(CaseError::NoCase);
        }
        self.check_once(name)
    }

    // Whether each of these names stands once.
    fn check_required(&self, names: &[&str]) -> Result<(), CaseError> {
        for name in names {
            self.check_once(name)?;
        }
        Ok(())
    }

    // Whether a name stands once.
    fn check_once(&self, name: &str) -> Result<(), CaseError> {
        match self.pairs.only(name) {
            Some(_) => Ok(()),
            None => Err(CaseError::NoCase),
        }
    }

    /// The first value of a name, where there is one.
    pub fn optional(&self, name: &str) -> Option<&str> {
        self.pairs.first(name)
    }

    /// The first value of a name, which is empty where there is none.
    pub fn value(&self, name: &str) -> &str {
        match self.pairs.first(name) {
            Some(value) => value,
            None => "",
        }
    }
}

// Whether a name is one of these.
fn is_one_of(name: &str, names: &[&str]) -> bool {
    names.contains(&name)
}

/// The bytes that hexadecimal digits are.
pub fn bytes_of(alloc: Global, text: &str) -> Result<Vec<u8>, CaseError> {
    match hex::decode(alloc, text) {
        Ok(bytes) => Ok(bytes),
        Err(FromHexError::OutOfMemory) => Err(CaseError::Memory),
        Err(_) => Err(CaseError::NoCase),
    }
}
