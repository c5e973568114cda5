// The step behind the answer to the token request: its tokens, the ID token among them, and the `at_hash` in that.

ghost use Rattle.std.specs.Prelude.{◌≡◌, is_some, Err, IfErr, IfOk, false, true};
ghost use Rattle.oidc_oauth2.specs.Messages.{seen_response};
ghost use Rattle.oidc_oauth2.specs.Replies.{Gives, Unless};
ghost use Rattle.oidc_oauth2.specs.Exchanges.{answer_of};
ghost use Rattle.oidc_login.specs.Errors.{faulted, is_spent_by, login_errors, seen, wants_memory};
ghost use Rattle.oidc_login.specs.Types.{site_types};
ghost use Rattle.oidc_login.specs.Token as hashes;
ghost use Rattle.oidc_login.specs.Token.{claimed_hash};
ghost use Rattle.oidc_login.specs.Callback as rows;
ghost use Rattle.oidc_login.specs.Steps as steps;
ghost use Rattle.oidc_login.specs.Steps.{Faults, IsPassed};

use crate::errors::LoginError;
use crate::hashes::token_fits;
use crate::signed_in::{LoginIdToken, SignedIn, TokenResponse};
use crate::store::Login;
use crate::types::MetadataClient;
use jiff::Timestamp;
use oidc_claims::{AdditionalClaims, GenderClaim};
use oidc_keys::JsonWebKey;
use oidc_members::Reading;
use oidc_oauth2::{HttpResponse, OAuth2TokenResponse, RequestTokenError, token_answer};
use oidc_tokens::IdTokenVerifier;
use oidc_types::{AccessToken, CoreJwsSigningAlgorithm, SigningError};
use std::alloc::Global;
use std::marker::Model;

// The rows on the response to the token request.
#[tactic(auto, unfolding(crate::specs::Token::tokens_or_refusal))]
fn tokens_of<
    AC: AdditionalClaims,
    GC: GenderClaim,
    K: JsonWebKey<SigningAlgorithm = CoreJwsSigningAlgorithm>,
    E,
>(
    alloc: Global,
    response: HttpResponse,
    reading: Reading,
) -> Result<TokenResponse<AC, GC>, LoginError<E>>
    ensures gives { let types = site_types AC.read_of GC.read_of
        K.JsonWebKey K.KeyUse.JsonWebKeyUse in
        Gives login_errors result (steps.tokens_of types reading (seen_response response)) }
    ensures no_fault { IfErr result (λ e. faulted e ≡ false) }
    ensures spent { is_spent_by result ≡ true }
{
    match token_answer(alloc, response, reading) {
        Ok(tokens) => Ok(tokens),
        Err(error) => Err(LoginError::of_token(error)),
    }
}

// The rows on the hash that an ID token may claim of the access token beside it.
fn checked_hash<
    AC: AdditionalClaims,
    GC: GenderClaim,
    K: JsonWebKey<SigningAlgorithm = CoreJwsSigningAlgorithm>,
    E,
>(
    alloc: Global,
    verifier: &IdTokenVerifier<'_, K>,
    token: &LoginIdToken<AC, GC>,
    access_token: &AccessToken,
) -> Result<(), LoginError<E>>
    ensures gives { let types = site_types AC.read_of GC.read_of
        K.JsonWebKey K.KeyUse.JsonWebKeyUse in
        let hash = hashes.hash_beside types verifier.now token.now access_token.now in
        Gives login_errors result (steps.checked_hash (claimed_hash token.now) hash) }
    ensures no_fault { IfErr result (λ e. faulted e ≡ false) }
    ensures spent { is_spent_by result ≡ true }
{
    match token_fits(alloc, verifier, token, Some(access_token)) {
        Ok(fits) => {
            if fits {
                Ok(())
            } else {
                Err(LoginError::TokenHash)
            }
        }
        Err(SigningError::Memory) => Err(LoginError::Memory { spent: true }),
        Err(refusal) => Err(LoginError::Signing(refusal)),
    }
}

// The rows on the ID token, which came beside this access token.
fn accepted_token<
    AC: AdditionalClaims,
    GC: GenderClaim,
    K: JsonWebKey<SigningAlgorithm = CoreJwsSigningAlgorithm>,
    E,
>(
    alloc: Global,
    client: &MetadataClient<AC, GC, K>,
    now: Timestamp,
    login: &Login,
    token: &LoginIdToken<AC, GC>,
    access_token: &AccessToken,
) -> Result<(), LoginError<E>>
    ensures gives { let types = site_types AC.read_of GC.read_of
        K.JsonWebKey K.KeyUse.JsonWebKeyUse in
        let meant = steps.accepted_token types client.now now.nanosecond login.now in
        Gives login_errors result (meant token.now access_token.now) }
    ensures no_fault { IfErr result (λ e. faulted e ≡ false) }
    ensures spent { is_spent_by result ≡ true }
{
    let Ok(verifier) = client.id_token_verifier(alloc) else {
        return Err(LoginError::Memory { spent: true });
    };
    match token.claims(alloc, &verifier, &login.nonce, now) {
        Ok(_) => checked_hash(alloc, &verifier, token, access_token),
        Err(error) => Err(LoginError::of_check(error)),
    }
}

// The rows on tokens that are lent.
fn checked_tokens<
    AC: AdditionalClaims,
    GC: GenderClaim,
    K: JsonWebKey<SigningAlgorithm = CoreJwsSigningAlgorithm>,
    E,
>(
    alloc: Global,
    client: &MetadataClient<AC, GC, K>,
    now: Timestamp,
    login: &Login,
    tokens: &TokenResponse<AC, GC>,
) -> Result<(), LoginError<E>>
    ensures there { IfOk result (λ u. is_some tokens.now.extra_fields.id_token ≡ true) }
    ensures passed { let types = site_types AC.read_of GC.read_of
        K.JsonWebKey K.KeyUse.JsonWebKeyUse in
        IfOk result (λ u. IsPassed types client.now now.nanosecond login.now tokens.now) }
    ensures refused { let types = site_types AC.read_of GC.read_of
        K.JsonWebKey K.KeyUse.JsonWebKeyUse in
        let meant = steps.user_of_tokens types client.now now.nanosecond login.now tokens.now in
        IfErr result (λ e. Unless (wants_memory e) (meant ≡ Err (seen e))) }
    ensures no_fault { IfErr result (λ e. faulted e ≡ false) }
    ensures spent { is_spent_by result ≡ true }
{
    let Some(token) = tokens.extra_fields().id_token() else {
        return Err(LoginError::NoIdToken);
    };
    accepted_token(alloc, client, now, login, token, tokens.access_token())
}

// The rows on the tokens.
fn user_of_tokens<
    AC: AdditionalClaims,
    GC: GenderClaim,
    K: JsonWebKey<SigningAlgorithm = CoreJwsSigningAlgorithm>,
    E,
>(
    alloc: Global,
    client: &MetadataClient<AC, GC, K>,
    now: Timestamp,
    login: &Login,
    tokens: TokenResponse<AC, GC>,
) -> Result<SignedIn<AC, GC>, LoginError<E>>
    ensures gives { let types = site_types AC.read_of GC.read_of
        K.JsonWebKey K.KeyUse.JsonWebKeyUse in
        let meant = steps.user_of_tokens types client.now now.nanosecond login.now tokens in
        Gives login_errors result meant }
    ensures no_fault { IfErr result (λ e. faulted e ≡ false) }
    ensures spent { is_spent_by result ≡ true }
{
    match checked_tokens(alloc, client, now, login, &tokens) {
        Ok(()) => Ok(SignedIn::new(tokens)),
        Err(error) => {
            drop(tokens);
            Err(error)
        }
    }
}

// The rows after the token request, up to those on user info.
#[tactic(auto, unfolding(crate::specs::Callback::user_of_answer))]
pub(crate) fn user_of_answer<
    AC: AdditionalClaims,
    GC: GenderClaim,
    K: JsonWebKey<SigningAlgorithm = CoreJwsSigningAlgorithm>,
    E,
>(
    alloc: Global,
    client: &MetadataClient<AC, GC, K>,
    now: Timestamp,
    login: &Login,
    answer: Result<HttpResponse, E>,
) -> Result<SignedIn<AC, GC>, LoginError<E>>
    ensures gives { let types = site_types AC.read_of GC.read_of
        K.JsonWebKey K.KeyUse.JsonWebKeyUse in
        let meant = rows.user_of_answer types client.now now.nanosecond login.now in
        Gives login_errors result (meant (answer_of answer)) }
    ensures fault { Faults (answer_of answer) result }
    ensures spent { is_spent_by result ≡ true }
{
    let response = match answer {
        Ok(response) => response,
        Err(error) => return Err(LoginError::Token(RequestTokenError::Request(error))),
    };
    match tokens_of::<AC, GC, K, E>(alloc, response, client.reading()) {
        Ok(tokens) => user_of_tokens(alloc, client, now, login, tokens),
        Err(error) => Err(error),
    }
}
