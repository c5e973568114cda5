//! Scripts of logins.

use case_lines::{Case, CaseError, ok_form};
use oidc_cli::{MemorySink, MemorySource};
use oidc_pairs::FormText;
use std::alloc::{AllocError, Global};

/// The room for a report.
const ROOM: usize = 1_048_576;

/// `run`: the exit status and the report of a script.
pub(crate) fn run(alloc: Global, case: &Case) -> Result<String, CaseError> {
    case.check(&["script"])?;
    let words = words(alloc)?;
    let script = Vec::from_slice(alloc, case.value("script").as_bytes())?;
    let mut source = MemorySource::new(script, Vec::new(alloc));
    let mut sink = MemorySink::new(alloc, ROOM, Vec::new(alloc))?;
    let status = oidc_cli::run(alloc, words.as_slice(), &mut source, &mut sink);
    ran(alloc, status, &sink)
}

// The word that runs a script.
fn words(alloc: Global) -> Result<Vec<String>, AllocError> {
    let mut words = Vec::new(alloc);
    words.push(String::from_str(alloc, "replay")?)?;
    Ok(words)
}

fn ran(alloc: Global, status: u8, sink: &MemorySink) -> Result<String, CaseError> {
    if status == oidc_cli::NO_MEMORY {
        return Err(CaseError::Memory);
    }
    let status = format!(in alloc; "{status}")?;
    let report = str::from_utf8(sink.bytes()).map_err(|_| CaseError::NoCase)?;
    let mut form = FormText::new(alloc);
    form.push("status", status.as_str())?;
    form.push("report", report)?;
    ok_form(alloc, form)
}
