//! The verdict of a client on an ID token.

use crate::tokens::{Claims, Token, token_of, written_claims};
use crate::words::claims_word;
use case_lines::{
    Case, CaseError, VerifierKey, algorithms, keys_in, moment, ok_pair, reading_in, refused_word,
    url_of,
};
use oidc_keys::JsonWebKeySet;
use oidc_tokens::{ClaimsVerificationError, IdTokenVerifier};
use oidc_types::{ClientId, ClientSecret, CoreJwsSigningAlgorithm, IssuerUrl, Nonce};
use std::alloc::{AllocError, Global};

/// `verify`: the claims of an ID token that a client accepts, or the first check that fails.
pub(crate) fn verify(alloc: Global, case: &Case) -> Result<String, CaseError> {
    let required = ["token", "id", "issuer", "nonce", "now"];
    case.check_all(&required, &["secret", "algs", "reading"], &["key"])?;
    let parties = parties_in(alloc, case)?;
    let line = verdict_of(alloc, case, &parties);
    drop(parties);
    line
}

fn verdict_of(alloc: Global, case: &Case, parties: &Parties) -> Result<String, CaseError> {
    let token = token_of(alloc, case.value("token"), reading_in(case)?)?;
    let line = verdict_on(alloc, case, parties, &token);
    drop(token);
    line
}

fn verdict_on(
    alloc: Global,
    case: &Case,
    parties: &Parties,
    token: &Token,
) -> Result<String, CaseError> {
    let verifier = verifier_in(alloc, case, parties)?;
    let line = verdict_line(alloc, case, &verifier, token);
    drop(verifier);
    line
}

/// Whom a token is for, who issues it, and by which keys.
#[derive(Drop)]
pub(crate) struct Parties {
    pub(crate) id: ClientId,
    pub(crate) issuer: IssuerUrl,
    pub(crate) keys: JsonWebKeySet<VerifierKey>,
}

/// The parties that a line names by `id`, `issuer` and any `key`.
pub(crate) fn parties_in(alloc: Global, case: &Case) -> Result<Parties, CaseError> {
    let keys = keys_in(alloc, case)?;
    let id = ClientId::new(String::from_str(alloc, case.value("id"))?);
    let issuer = url_of(alloc, case.value("issuer"))?;
    Ok(Parties { id, issuer, keys })
}

/// The verifier of a client with a list of algorithms, or without.
pub(crate) fn verifier_in<'a>(
    alloc: Global,
    case: &Case,
    parties: &'a Parties,
) -> Result<IdTokenVerifier<'a, VerifierKey>, CaseError> {
    let algs = algorithms_in(alloc, case)?;
    let verifier = client_verifier(alloc, case.optional("secret"), parties)?;
    match algs {
        Some(algs) => Ok(verifier.set_allowed_algs(algs)),
        None => Ok(verifier),
    }
}

// The list of algorithms of a line, where it has one.
fn algorithms_in(
    alloc: Global,
    case: &Case,
) -> Result<Option<Vec<CoreJwsSigningAlgorithm>>, CaseError> {
    match case.optional("algs") {
        Some(algs) => Ok(Some(algorithms(alloc, algs)?)),
        None => Ok(None),
    }
}

// The verifier of a client with a secret, or without.
fn client_verifier<'a>(
    alloc: Global,
    secret: Option<&str>,
    parties: &'a Parties,
) -> Result<IdTokenVerifier<'a, VerifierKey>, AllocError> {
    let (id, issuer, keys) = (&parties.id, &parties.issuer, &parties.keys);
    match secret {
        Some(secret) => {
            let secret = ClientSecret::new(String::from_str(alloc, secret)?);
            IdTokenVerifier::new_confidential_client(alloc, id, &secret, issuer, keys)
        }
        None => Ok(IdTokenVerifier::new_public_client(id, issuer, keys)),
    }
}

fn verdict_line(
    alloc: Global,
    case: &Case,
    verifier: &IdTokenVerifier<'_, VerifierKey>,
    token: &Token,
) -> Result<String, CaseError> {
    let nonce = Nonce::new(String::from_str(alloc, case.value("nonce"))?);
    let now = moment(case.value("now"))?;
    match token.claims(alloc, verifier, &nonce, now) {
        Ok(claims) => written_line(alloc, claims),
        Err(ClaimsVerificationError::Memory) => Err(CaseError::Memory),
        Err(refusal) => refused_word(alloc, claims_word(refusal)),
    }
}

/// The claims of a token that is accepted.
pub(crate) fn written_line(alloc: Global, claims: &Claims) -> Result<String, CaseError> {
    let written = written_claims(alloc, claims)?;
    ok_pair(alloc, "written", written.as_str())
}
