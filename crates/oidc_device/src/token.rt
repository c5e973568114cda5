// What a poll that was answered is worth: the ID token among its tokens, and the `at_hash` in that.

ghost use Rattle.std.specs.Prelude.{◌≡◌, [], is_some, not, true, false, Err, IfErr, IfOk, IsErrAnd, MatchOption, OnOk, Result};
ghost use Rattle.oidc_types.specs.{signing_text};
ghost use Rattle.oidc_types.specs.declared.signing_error.SigningError.TheVariants.{UnsupportedAlg};
ghost use Rattle.oidc_oauth2.specs.Replies.{Gives, Unless};
ghost use Rattle.oidc_oauth2.specs.TokenAnswers.{TokenRefusal, token_errors, wants_memory as poll_wants_memory, is_fault};
ghost use Rattle.oidc_oauth2_requests.specs.RequestAnswers as requests;
ghost use Rattle.oidc_oauth2_requests.specs.declared.device.PollStep.{PollStep as Answered};
ghost use Rattle.oidc_tokens.specs.Hashes.{hashing, GivesHash};
ghost use Rattle.oidc_device.specs.Types.{device_types};
ghost use Rattle.oidc_device.specs.Errors.{device_errors, faulted, seen, step_wants_memory};
ghost use Rattle.oidc_device.specs.Token as tokens;
ghost use Rattle.oidc_device.specs.Token.{Tokens, claimed_hash, hashing_found, or_no_hash, refusal_of_claim, claims_another};
ghost use Rattle.oidc_device.specs.DeviceStep as steps;
ghost use Rattle.oidc_device.specs.DeviceStep.{poll_reply, judged_step};
ghost use Rattle.oidc_device.specs.Steps.{RefusesAs, PassesChecks, checked_hash, accepted_token};

use crate::client::DeviceClient;
use crate::errors::DeviceError;
use crate::signed_in::{DeviceIdToken, DeviceSignedIn, TokenResponse};
use crate::step::DeviceStep;
use jiff::Timestamp;
use oidc_claims::{AdditionalClaims, GenderClaim};
use oidc_keys::JsonWebKey;
use oidc_members::FieldName;
use oidc_oauth2::{DeviceCodeErrorResponse, OAuth2TokenResponse, RequestTokenError};
use oidc_oauth2_requests::PollStep;
use oidc_tokens::{IdTokenVerifier, NonceVerifier, from_token};
use oidc_types::{AccessToken, AccessTokenHash, CoreJwsSigningAlgorithm, Nonce, SigningError};
use std::alloc::Global;
use std::marker::Model;

// Allows any nonce, and none: a device login sends none.
#[derive(Drop)]
struct AnyNonce;

impl NonceVerifier for AnyNonce {
    ghost use Rattle.oidc_tokens.specs.Refreshed.{any_nonce};

    ghost allows = { λ _. any_nonce };

    fn verify(&self, _nonce: Option<&Nonce>) -> bool {
        true
    }
}

// The refusal of a token that no key checks. None that is accepted is one.
fn no_hash(alloc: Global) -> SigningError
    ensures { result ≡ UnsupportedAlg [] }
{
    SigningError::UnsupportedAlg(FieldName::new(String::new(alloc)))
}

// The algorithm that an ID token is signed by, and the key that checks it, where there are both.
fn signer<
    's,
    AC: AdditionalClaims,
    GC: GenderClaim,
    K: JsonWebKey<SigningAlgorithm = CoreJwsSigningAlgorithm>,
>(
    verifier: &'s IdTokenVerifier<'s, K>,
    token: &'s DeviceIdToken<AC, GC>,
) -> Option<(&'s CoreJwsSigningAlgorithm, &'s K)>
    ensures { let types = device_types AC.read_of GC.read_of
        K.JsonWebKey K.KeyUse.JsonWebKeyUse in
        let by = or_no_hash (hashing_found types verifier.now token.now) in
        MatchOption result (by ≡ hashing [] None)
        (λ s. by ≡ hashing (signing_text s.0.now) (K.hash_of s.1.now s.0.now)) }
{
    let Ok(alg) = token.signing_alg() else {
        return None;
    };
    let Ok(key) = token.signing_key(verifier) else {
        return None;
    };
    Some((alg, key))
}

// The hash of the access token beside an ID token.
#[tactic(auto, unfolding(crate::specs::Token::hash_beside))]
fn token_hash_beside<
    AC: AdditionalClaims,
    GC: GenderClaim,
    K: JsonWebKey<SigningAlgorithm = CoreJwsSigningAlgorithm>,
>(
    alloc: Global,
    verifier: &IdTokenVerifier<'_, K>,
    token: &DeviceIdToken<AC, GC>,
    access_token: &AccessToken,
) -> Result<AccessTokenHash, SigningError>
    ensures { let types = device_types AC.read_of GC.read_of
        K.JsonWebKey K.KeyUse.JsonWebKeyUse in
        GivesHash (tokens.hash_beside types verifier.now token.now access_token.now) result }
{
    match signer(verifier, token) {
        Some((alg, key)) => from_token(alloc, access_token, alg, key),
        None => Err(no_hash(alloc)),
    }
}

// Whether the `at_hash` of an ID token, where it has one, is the hash of the access token beside it.
fn token_fits<
    AC: AdditionalClaims,
    GC: GenderClaim,
    K: JsonWebKey<SigningAlgorithm = CoreJwsSigningAlgorithm>,
>(
    alloc: Global,
    verifier: &IdTokenVerifier<'_, K>,
    token: &DeviceIdToken<AC, GC>,
    access_token: &AccessToken,
) -> Result<bool, SigningError>
    ensures hash { let types = device_types AC.read_of GC.read_of
        K.JsonWebKey K.KeyUse.JsonWebKeyUse in
        let hash = tokens.hash_beside types verifier.now token.now access_token.now in
        OnOk result (refusal_of_claim (claimed_hash token.now) hash ≡ None) }
    ensures fits { let types = device_types AC.read_of GC.read_of
        K.JsonWebKey K.KeyUse.JsonWebKeyUse in
        let hash = tokens.hash_beside types verifier.now token.now access_token.now in
        IfOk result (λ fits. claims_another (claimed_hash token.now) hash ≡ not fits) }
    ensures refused { let types = device_types AC.read_of GC.read_of
        K.JsonWebKey K.KeyUse.JsonWebKeyUse in
        let hash = tokens.hash_beside types verifier.now token.now access_token.now in
        IfErr result (RefusesAs (refusal_of_claim (claimed_hash token.now) hash)) }
{
    let Some(claim) = token.token().unverified_payload().access_token_hash() else {
        return Ok(true);
    };
    match token_hash_beside(alloc, verifier, token, access_token) {
        Ok(hash) => Ok(hash.as_str() == claim.as_str()),
        Err(SigningError::Memory) => Err(SigningError::Memory),
        Err(refusal) => Err(refusal),
    }
}

// The checks of the hash that an ID token may hold of the access token beside it.
fn checked_hash<
    AC: AdditionalClaims,
    GC: GenderClaim,
    K: JsonWebKey<SigningAlgorithm = CoreJwsSigningAlgorithm>,
    E,
>(
    alloc: Global,
    verifier: &IdTokenVerifier<'_, K>,
    token: &DeviceIdToken<AC, GC>,
    access_token: &AccessToken,
) -> Result<(), DeviceError<E>>
    ensures gives { let types = device_types AC.read_of GC.read_of
        K.JsonWebKey K.KeyUse.JsonWebKeyUse in
        let hash = tokens.hash_beside types verifier.now token.now access_token.now in
        Gives device_errors result (checked_hash (claimed_hash token.now) hash) }
    ensures no_fault { IfErr result (λ e. faulted e ≡ false) }
{
    match token_fits(alloc, verifier, token, access_token) {
        Ok(fits) => {
            if fits {
                Ok(())
            } else {
                Err(DeviceError::TokenHash)
            }
        }
        Err(SigningError::Memory) => Err(DeviceError::Memory),
        Err(refusal) => Err(DeviceError::Signing(refusal)),
    }
}

// The checks of an ID token, which came beside this access token.
fn accepted_token<
    AC: AdditionalClaims,
    GC: GenderClaim,
    K: JsonWebKey<SigningAlgorithm = CoreJwsSigningAlgorithm>,
    E,
>(
    alloc: Global,
    client: &DeviceClient<AC, GC, K>,
    now: Timestamp,
    token: &DeviceIdToken<AC, GC>,
    access_token: &AccessToken,
) -> Result<(), DeviceError<E>>
    ensures gives { let types = device_types AC.read_of GC.read_of
        K.JsonWebKey K.KeyUse.JsonWebKeyUse in
        let meant = accepted_token types client.now now.nanosecond in
        Gives device_errors result (meant token.now access_token.now) }
    ensures no_fault { IfErr result (λ e. faulted e ≡ false) }
{
    let Ok(verifier) = client.id_token_verifier(alloc) else {
        return Err(DeviceError::Memory);
    };
    match token.claims(alloc, &verifier, AnyNonce, now) {
        Ok(_) => checked_hash(alloc, &verifier, token, access_token),
        Err(error) => Err(DeviceError::of_check(error)),
    }
}

// The checks of tokens that are lent.
fn checked_tokens<
    AC: AdditionalClaims,
    GC: GenderClaim,
    K: JsonWebKey<SigningAlgorithm = CoreJwsSigningAlgorithm>,
    E,
>(
    alloc: Global,
    client: &DeviceClient<AC, GC, K>,
    now: Timestamp,
    tokens: &TokenResponse<AC, GC>,
) -> Result<(), DeviceError<E>>
    ensures there { IfOk result (λ u. is_some tokens.now.extra_fields.id_token ≡ true) }
    ensures passed { let types = device_types AC.read_of GC.read_of
        K.JsonWebKey K.KeyUse.JsonWebKeyUse in
        IfOk result (λ u. PassesChecks types client.now now.nanosecond tokens.now) }
    ensures refused { let types = device_types AC.read_of GC.read_of
        K.JsonWebKey K.KeyUse.JsonWebKeyUse in
        let meant = steps.user_of_tokens types client.now now.nanosecond tokens.now in
        IfErr result (λ e. Unless (step_wants_memory e) (meant ≡ Err (seen e))) }
    ensures no_fault { IfErr result (λ e. faulted e ≡ false) }
{
    let Some(token) = tokens.extra_fields().id_token() else {
        return Err(DeviceError::NoIdToken);
    };
    accepted_token(alloc, client, now, token, tokens.access_token())
}

// The step that tokens are worth.
fn step_of_tokens<
    AC: AdditionalClaims,
    GC: GenderClaim,
    K: JsonWebKey<SigningAlgorithm = CoreJwsSigningAlgorithm>,
    E,
>(
    alloc: Global,
    client: &DeviceClient<AC, GC, K>,
    now: Timestamp,
    tokens: TokenResponse<AC, GC>,
) -> Result<DeviceStep<AC, GC>, DeviceError<E>>
    ensures gives { let types = device_types AC.read_of GC.read_of
        K.JsonWebKey K.KeyUse.JsonWebKeyUse in
        let meant = judged_step types client.now now.nanosecond (Answered.Done tokens) in
        Gives device_errors result meant }
    ensures no_fault { IfErr result (λ e. faulted e ≡ false) }
{
    match checked_tokens(alloc, client, now, &tokens) {
        Ok(()) => Ok(DeviceStep::Done(DeviceSignedIn::new(tokens))),
        Err(error) => {
            drop(tokens);
            Err(error)
        }
    }
}

// The step that a poll is worth, by what came of it.
pub(crate) fn step_of_poll<
    AC: AdditionalClaims,
    GC: GenderClaim,
    K: JsonWebKey<SigningAlgorithm = CoreJwsSigningAlgorithm>,
    E,
>(
    alloc: Global,
    client: &DeviceClient<AC, GC, K>,
    now: Timestamp,
    polled: Result<PollStep<TokenResponse<AC, GC>>, RequestTokenError<E, DeviceCodeErrorResponse>>,
) -> Result<DeviceStep<AC, GC>, DeviceError<E>>
    ensures gives { let types = device_types AC.read_of GC.read_of
        K.JsonWebKey K.KeyUse.JsonWebKeyUse in
        (reply : Result (Answered (Tokens AC GC)) (TokenRefusal requests.DeviceError))
        → Gives token_errors polled reply
        → Gives device_errors result (poll_reply types client.now now.nanosecond reply) }
    ensures memory { IfErr polled (λ e. poll_wants_memory e ≡ true → result ≡ Err DeviceError.Memory) }
    ensures fault { IfErr result (λ e. faulted e ≡ true → IsErrAnd polled (λ p. is_fault p ≡ true)) }
{
    match polled {
        Ok(PollStep::Pending) => Ok(DeviceStep::Pending),
        Ok(PollStep::SlowDown) => Ok(DeviceStep::SlowDown),
        Ok(PollStep::Done(tokens)) => step_of_tokens(alloc, client, now, tokens),
        Err(error) => Err(DeviceError::of_poll(error)),
    }
}
