//! What values print.

use crate::answers::ok_pair;
use crate::case::CaseError;
use std::alloc::Global;
use std::fmt::{Debug, Display};

/// The name of a variant as `Debug` prints its value: what it holds stands behind `(` or a space.
pub fn variant_name(shown: &str) -> &str {
    match shown.split_once(['(', ' ']) {
        Some((variant, _)) => variant,
        None => shown,
    }
}

/// What the one of these prints that has this variant.
pub fn one_of<E: Debug + Display>(
    alloc: Global,
    all: &[E],
    variant: &str,
) -> Result<String, CaseError> {
    for error in all {
        let shown = format!(in alloc; "{error:?}")?;
        if variant_name(shown.as_str()) == variant {
            let text = format!(in alloc; "{error}")?;
            return ok_pair(alloc, "text", text.as_str());
        }
    }
    Err(CaseError::NoCase)
}
