//! Form pairs and the members of objects.

use case_lines::{Case, CaseError, ok_form, refused_as};
use oidc_members::{Member, Members, ParseError};
use oidc_pairs::{FormText, Pairs};
use std::alloc::Global;

/// `pairs`: the pairs of a form text.
pub(crate) fn pairs(alloc: Global, case: &Case) -> Result<String, CaseError> {
    case.check(&["text"])?;
    let read = Pairs::parse(alloc, case.value("text").as_bytes())?;
    let mut form = FormText::new(alloc);
    for pair in read.as_slice() {
        form.push(pair.name(), pair.value())?;
    }
    ok_form(alloc, form)
}

/// `members`: the members of an object.
pub(crate) fn members(alloc: Global, case: &Case) -> Result<String, CaseError> {
    case.check(&["text"])?;
    match Members::split(alloc, case.value("text").as_bytes()) {
        Ok(members) => listed(alloc, members.as_slice()),
        Err(ParseError::Refused(refusal)) => refused_as(alloc, FormText::new(alloc), &refusal),
        Err(ParseError::Memory) => Err(CaseError::Memory),
    }
}

// The names and texts of members.
fn listed(alloc: Global, members: &[Member]) -> Result<String, CaseError> {
    let mut form = FormText::new(alloc);
    for member in members {
        let text = str::from_utf8(member.text()).map_err(|_| CaseError::NoCase)?;
        form.push("name", member.name())?;
        form.push("text", text)?;
    }
    ok_form(alloc, form)
}
