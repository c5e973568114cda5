//! The verdict of a client on an ID token that came with refreshed tokens.

use crate::tokens::{Claims, Token, claims_of, token_of};
use crate::verifiers::{Parties, parties_in, verifier_in, written_line};
use crate::words::claims_word;
use case_lines::{Case, CaseError, VerifierKey, moment, refused_word};
use oidc_members::Reading;
use oidc_tokens::{IdTokenVerifier, RefreshedClaimsError};
use oidc_types::{AccessToken, SigningError};
use std::alloc::Global;

/// `verify_refreshed`: the claims of an ID token that a client accepts beside the claims of the first one and an
/// access token, or the first row that fails.
pub(crate) fn verify_refreshed(alloc: Global, case: &Case) -> Result<String, CaseError> {
    let required = ["token", "first", "access_token", "id", "issuer", "now"];
    case.check_all(&required, &["secret", "algs"], &["key"])?;
    let parties = parties_in(alloc, case)?;
    let line = verdict_of(alloc, case, &parties);
    drop(parties);
    line
}

fn verdict_of(alloc: Global, case: &Case, parties: &Parties) -> Result<String, CaseError> {
    let token = token_of(alloc, case.value("token"), Reading::STRICT)?;
    let line = verdict_on(alloc, case, parties, &token);
    drop(token);
    line
}

fn verdict_on(
    alloc: Global,
    case: &Case,
    parties: &Parties,
    token: &Token,
) -> Result<String, CaseError> {
    let first = claims_of(alloc, case.value("first"), Reading::STRICT)?;
    let line = verdict_beside(alloc, case, parties, token, &first);
    drop(first);
    line
}

fn verdict_beside(
    alloc: Global,
    case: &Case,
    parties: &Parties,
    token: &Token,
    first: &Claims,
) -> Result<String, CaseError> {
    let verifier = verifier_in(alloc, case, parties)?;
    let line = verdict_line(alloc, case, &verifier, token, first);
    drop(verifier);
    line
}

fn verdict_line(
    alloc: Global,
    case: &Case,
    verifier: &IdTokenVerifier<'_, VerifierKey>,
    token: &Token,
    first: &Claims,
) -> Result<String, CaseError> {
    let access_token = AccessToken::new(String::from_str(alloc, case.value("access_token"))?);
    let now = moment(case.value("now"))?;
    match token.refreshed_claims(alloc, verifier, first, &access_token, now) {
        Ok(claims) => written_line(alloc, claims),
        Err(refusal) => refusal_line(alloc, &refusal),
    }
}

// Want of memory is no answer. No call of the product makes the last two of `SigningError`.
fn refusal_line(alloc: Global, refusal: &RefreshedClaimsError) -> Result<String, CaseError> {
    match refusal {
        RefreshedClaimsError::Claims(kind) => refused_word(alloc, claims_word(*kind)),
        RefreshedClaimsError::OtherIssuer => refused_word(alloc, "other_issuer"),
        RefreshedClaimsError::OtherSubject => refused_word(alloc, "other_subject"),
        RefreshedClaimsError::OtherAudience => refused_word(alloc, "other_audience"),
        RefreshedClaimsError::OtherAuthTime => refused_word(alloc, "other_auth_time"),
        RefreshedClaimsError::OtherNonce => refused_word(alloc, "other_nonce"),
        RefreshedClaimsError::OtherAuthorizedParty => refused_word(alloc, "other_authorized_party"),
        RefreshedClaimsError::Signing(refusal) => signing_line(alloc, refusal),
        RefreshedClaimsError::TokenHash => refused_word(alloc, "token_hash"),
        RefreshedClaimsError::Memory => Err(CaseError::Memory),
    }
}

fn signing_line(alloc: Global, refusal: &SigningError) -> Result<String, CaseError> {
    match refusal {
        SigningError::UnsupportedAlg(_) => refused_word(alloc, "signing unsupported_alg"),
        SigningError::Memory => Err(CaseError::Memory),
        SigningError::CryptoError | SigningError::Other(_) => Err(CaseError::NoCase),
    }
}
