// The hashes of an access token and of a code that the ID token beside them may hold.

ghost use Rattle.std.specs.Prelude.{◌≡◌, ◌||◌, [], None, not, IfErr, IfOk, MatchOption, OnOk};
ghost use Rattle.std.specs.Option.{option_copied};
ghost use Rattle.oidc_types.specs.{signing_text};
ghost use Rattle.oidc_types.specs.declared.signing_error.SigningError.TheVariants.{UnsupportedAlg};
ghost use Rattle.oidc_tokens.specs.Hashes.{hashing, GivesHash};
ghost use Rattle.oidc_login.specs.Types.{site_types};
ghost use Rattle.oidc_login.specs.Token as hashes;
ghost use Rattle.oidc_login.specs.Token.{claimed_hash, claimed_code_hash, hashing_found, or_no_hash, refusal_beside, is_another_beside, lacks_claim};
ghost use Rattle.oidc_login.specs.Steps.{RefusesAs};

use crate::signed_in::LoginIdToken;
use oidc_claims::{AdditionalClaims, GenderClaim};
use oidc_keys::JsonWebKey;
use oidc_members::FieldName;
use oidc_tokens::{IdTokenVerifier, from_code, from_token};
use oidc_types::{
    AccessToken, AccessTokenHash, AuthorizationCode, AuthorizationCodeHash,
    CoreJwsSigningAlgorithm, SigningError,
};
use std::alloc::Global;
use std::marker::Model;

// The refusal of a token that no key checks. None that is accepted is one.
fn no_hash(alloc: Global) -> SigningError
    ensures { result ≡ UnsupportedAlg [] }
{
    SigningError::UnsupportedAlg(FieldName::new(String::new(alloc)))
}

// The algorithm that an ID token is signed by, and the key that checks it, where there are both.
fn signer<
    's,
    AC: AdditionalClaims,
    GC: GenderClaim,
    K: JsonWebKey<SigningAlgorithm = CoreJwsSigningAlgorithm>,
>(
    verifier: &'s IdTokenVerifier<'s, K>,
    token: &'s LoginIdToken<AC, GC>,
) -> Option<(&'s CoreJwsSigningAlgorithm, &'s K)>
    ensures { let types = site_types AC.read_of GC.read_of
        K.JsonWebKey K.KeyUse.JsonWebKeyUse in
        let by = or_no_hash (hashing_found types verifier.now token.now) in
        MatchOption result (by ≡ hashing [] None)
        (λ s. by ≡ hashing (signing_text s.0.now) (K.hash_of s.1.now s.0.now)) }
{
    let Ok(alg) = token.signing_alg() else {
        return None;
    };
    let Ok(key) = token.signing_key(verifier) else {
        return None;
    };
    Some((alg, key))
}

// The hash of an access token beside an ID token.
#[tactic(auto, unfolding(crate::specs::Token::hash_beside))]
fn token_hash_beside<
    AC: AdditionalClaims,
    GC: GenderClaim,
    K: JsonWebKey<SigningAlgorithm = CoreJwsSigningAlgorithm>,
>(
    alloc: Global,
    verifier: &IdTokenVerifier<'_, K>,
    token: &LoginIdToken<AC, GC>,
    access_token: &AccessToken,
) -> Result<AccessTokenHash, SigningError>
    ensures { let types = site_types AC.read_of GC.read_of
        K.JsonWebKey K.KeyUse.JsonWebKeyUse in
        GivesHash (hashes.hash_beside types verifier.now token.now access_token.now) result }
{
    match signer(verifier, token) {
        Some((alg, key)) => from_token(alloc, access_token, alg, key),
        None => Err(no_hash(alloc)),
    }
}

// The hash of a code beside an ID token.
#[tactic(auto, unfolding(crate::specs::Token::hash_beside))]
fn code_hash_beside<
    AC: AdditionalClaims,
    GC: GenderClaim,
    K: JsonWebKey<SigningAlgorithm = CoreJwsSigningAlgorithm>,
>(
    alloc: Global,
    verifier: &IdTokenVerifier<'_, K>,
    token: &LoginIdToken<AC, GC>,
    code: &AuthorizationCode,
) -> Result<AuthorizationCodeHash, SigningError>
    ensures { let types = site_types AC.read_of GC.read_of
        K.JsonWebKey K.KeyUse.JsonWebKeyUse in
        GivesHash (hashes.hash_beside types verifier.now token.now code.now) result }
{
    match signer(verifier, token) {
        Some((alg, key)) => from_code(alloc, code, alg, key),
        None => Err(no_hash(alloc)),
    }
}

// Whether the `at_hash` of an ID token is the hash of the access token beside it, where both are there.
pub(crate) fn token_fits<
    AC: AdditionalClaims,
    GC: GenderClaim,
    K: JsonWebKey<SigningAlgorithm = CoreJwsSigningAlgorithm>,
>(
    alloc: Global,
    verifier: &IdTokenVerifier<'_, K>,
    token: &LoginIdToken<AC, GC>,
    access_token: Option<&AccessToken>,
) -> Result<bool, SigningError>
    ensures hash { let types = site_types AC.read_of GC.read_of
        K.JsonWebKey K.KeyUse.JsonWebKeyUse in
        let text = option_copied access_token.entry in
        let claim = claimed_hash token.now in
        OnOk result (refusal_beside types verifier.now token.now claim text ≡ None) }
    ensures fits { let types = site_types AC.read_of GC.read_of
        K.JsonWebKey K.KeyUse.JsonWebKeyUse in
        let text = option_copied access_token.entry in
        let claim = claimed_hash token.now in
        let another = is_another_beside types verifier.now token.now claim text in
        IfOk result (λ fits. another ≡ not fits) }
    ensures refused { let types = site_types AC.read_of GC.read_of
        K.JsonWebKey K.KeyUse.JsonWebKeyUse in
        let text = option_copied access_token.entry in
        let claim = claimed_hash token.now in
        IfErr result (RefusesAs (refusal_beside types verifier.now token.now claim text)) }
{
    let Some(access_token) = access_token else {
        return Ok(true);
    };
    let Some(claim) = token.token().unverified_payload().access_token_hash() else {
        return Ok(true);
    };
    match token_hash_beside(alloc, verifier, token, access_token) {
        Ok(hash) => Ok(hash.as_str() == claim.as_str()),
        Err(SigningError::Memory) => Err(SigningError::Memory),
        Err(refusal) => Err(refusal),
    }
}

// Whether the `c_hash` of an ID token is the hash of the code beside it, where both are there. One that is absent beside a
// code fits unless it is demanded.
pub(crate) fn code_fits<
    AC: AdditionalClaims,
    GC: GenderClaim,
    K: JsonWebKey<SigningAlgorithm = CoreJwsSigningAlgorithm>,
>(
    alloc: Global,
    verifier: &IdTokenVerifier<'_, K>,
    token: &LoginIdToken<AC, GC>,
    code: Option<&AuthorizationCode>,
    demanded: bool,
) -> Result<bool, SigningError>
    ensures hash { let types = site_types AC.read_of GC.read_of
        K.JsonWebKey K.KeyUse.JsonWebKeyUse in
        let text = option_copied code.entry in
        let claim = claimed_code_hash token.now in
        OnOk result (refusal_beside types verifier.now token.now claim text ≡ None) }
    ensures fits { let types = site_types AC.read_of GC.read_of
        K.JsonWebKey K.KeyUse.JsonWebKeyUse in
        let text = option_copied code.entry in
        let claim = claimed_code_hash token.now in
        let another = is_another_beside types verifier.now token.now claim text in
        IfOk result (λ fits. (another || lacks_claim demanded claim text) ≡ not fits) }
    ensures refused { let types = site_types AC.read_of GC.read_of
        K.JsonWebKey K.KeyUse.JsonWebKeyUse in
        let text = option_copied code.entry in
        let claim = claimed_code_hash token.now in
        IfErr result (RefusesAs (refusal_beside types verifier.now token.now claim text)) }
{
    let Some(code) = code else {
        return Ok(true);
    };
    let Some(claim) = token.token().unverified_payload().code_hash() else {
        return Ok(!demanded);
    };
    match code_hash_beside(alloc, verifier, token, code) {
        Ok(hash) => Ok(hash.as_str() == claim.as_str()),
        Err(SigningError::Memory) => Err(SigningError::Memory),
        Err(refusal) => Err(refusal),
    }
}
