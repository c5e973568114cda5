//! Proof Key for Code Exchange.

use case_lines::{Case, CaseError, ok_form, refused_word};
use oidc_oauth2::{PkceCodeChallenge, PkceError};
use oidc_pairs::FormText;
use oidc_types::PkceCodeVerifier;
use std::alloc::Global;

/// `challenge`: the challenge of a verifier.
pub(crate) fn challenge(alloc: Global, case: &Case) -> Result<String, CaseError> {
    case.check(&["verifier"])?;
    let verifier = PkceCodeVerifier::new(String::from_str(alloc, case.value("verifier"))?);
    match PkceCodeChallenge::from_code_verifier_sha256(alloc, &verifier) {
        Ok(challenge) => challenge_line(alloc, &challenge),
        Err(PkceError::Length) => refused_word(alloc, "length"),
        Err(PkceError::Memory) => Err(CaseError::Memory),
    }
}

fn challenge_line(alloc: Global, challenge: &PkceCodeChallenge) -> Result<String, CaseError> {
    let mut form = FormText::new(alloc);
    form.push("challenge", challenge.as_str())?;
    form.push("method", challenge.method().as_str())?;
    ok_form(alloc, form)
}
