//! The answer of an implicit or a hybrid flow, which comes in the query itself.

ghost use Rattle.std.specs.Prelude.{◌≡◌, false, true, Err, IfErr, IfOk, IfSome, IsSome, Ok, OnOk, Some};
ghost use Rattle.std.specs.Option.{option_copied};
ghost use Rattle.oidc_pairs.specs.Pairs.{pairs, values_in, first_of, only_of};
ghost use Rattle.oidc_oauth2.specs.TokenAnswers.{is_over_long};
ghost use Rattle.oidc_oauth2.specs.Replies.{Gives, Unless};
ghost use Rattle.oidc_login.specs.Types.{site_types};
ghost use Rattle.oidc_login.specs.BeforeRequest as request;
ghost use Rattle.oidc_login.specs.BeforeRequest.{state_in};
ghost use Rattle.oidc_login.specs.Token.{claimed_code_hash, is_sent, IsAcceptedBy, HasOwnHash, HasOwnCodeHash};
ghost use Rattle.oidc_login.specs.FrontChannel.{front, front_attempt, front_errors, is_memory, holds_memory, is_several, access_tokens_in, codes_in, SeenFrontAnswer};
ghost use Rattle.oidc_login.specs.FrontCauses.{FrontCause, IsFrontAnswer};
ghost use Rattle.oidc_login.specs.FrontSteps as steps;
ghost use Rattle.oidc_login.specs.declared.front.FrontError.{FrontError};

use crate::hashes::{code_fits, token_fits};
use crate::query::{error_code, is_too_long};
use crate::signed_in::LoginIdToken;
use crate::types::MetadataClient;
use jiff::Timestamp;
use oidc_claims::{AdditionalClaims, GenderClaim};
use oidc_keys::JsonWebKey;
use oidc_members::{ParseError, Reading, Refusal};
use oidc_pairs::Pairs;
use oidc_tokens::{ClaimsVerificationError, IdTokenVerifier};
use oidc_types::{
    AccessToken, AuthorizationCode, CoreAuthErrorResponseType, CoreJwsSigningAlgorithm, CsrfToken,
    Marker, Nonce, Secret, SigningError,
};
use std::alloc::{AllocError, Global};
use std::marker::Model;
use thiserror::Error;

/// Why a query is no answer of an implicit or a hybrid flow that is accepted. `Debug` shows no token and no
/// authorization code.
#[derive(Debug, Drop, Error)]
pub enum FrontError {
    /// The query has more than 1,048,576 bytes.
    #[error("too long: the query")]
    TooLong,
    /// The query hasn't one `state`, or it isn't that of the request.
    #[error("the query hasn't the state of the request")]
    State,
    /// The query has an `error`; the first is here (OpenID Connect Core 1.0 sections 3.2.2.6 and 3.3.2.6).
    #[error("the provider refused: {0}")]
    Provider(CoreAuthErrorResponseType),
    /// The query hasn't one `id_token`.
    #[error("the query hasn't one ID token")]
    NoIdToken,
    /// The text of the `id_token` is no ID token.
    #[error("the ID token doesn't read: {0}")]
    Parse(Refusal),
    /// The ID token isn't accepted. `Memory` never stands inside it.
    #[error("the ID token isn't accepted: {0}")]
    Claims(ClaimsVerificationError),
    /// The ID token has the hash of an access token or of a code, which is there, and no hash goes with its
    /// algorithm. `Memory` never stands inside it.
    #[error("no hash of the access token or of the code: {0}")]
    Signing(SigningError),
    /// There are several access tokens, or the hash in the ID token isn't that of the one.
    #[error("another access token than the ID token's")]
    TokenHash,
    /// There are several codes, or the hash in the ID token isn't that of the one, or is absent though the client
    /// demands it.
    #[error("another code than the ID token's")]
    CodeHash,
    /// There was no memory.
    #[error("out of memory")]
    Memory,
}

impl FrontError {
    // The refusal by that of the checks of an ID token.
    fn of_check(error: ClaimsVerificationError) -> Self
        ensures { result ≡ steps.of_check error }
    {
        match error {
            ClaimsVerificationError::Memory => FrontError::Memory,
            error => FrontError::Claims(error),
        }
    }

    // The refusal by that of a hash.
    fn of_signing(refusal: SigningError) -> Self
        ensures { result ≡ steps.of_signing refusal }
    {
        match refusal {
            SigningError::Memory => FrontError::Memory,
            refusal => FrontError::Signing(refusal),
        }
    }
}

// What stands beside the ID token of a query: its first access token and its first code, where it has some.
#[derive(Drop)]
struct Beside {
    access_token: Option<AccessToken>,
    code: Option<AuthorizationCode>,
}

/// An accepted answer of an implicit or a hybrid flow: the ID token, and the access token and the code that came
/// beside it, where there are some. `AC` is the type of additional claims, `GC` that of genders.
///
/// It has no `Debug`, since it holds tokens and what is known of a person.
#[derive(Drop)]
pub struct FrontAnswer<AC: AdditionalClaims, GC: GenderClaim> {
    id_token: LoginIdToken<AC, GC>,
    access_token: Option<AccessToken>,
    code: Option<AuthorizationCode>,
}

impl<AC: AdditionalClaims, GC: GenderClaim> Model for FrontAnswer<AC, GC> {
    ghost use Rattle.std.specs.Coded.{codes};
    ghost use Rattle.oidc_id_token_claims.specs.Codes.{id_token_claims_code};
    ghost use Rattle.oidc_login.specs.FrontChannel.{SeenFrontAnswer};

    ghost Value = { SeenFrontAnswer AC GC };

    ghost coded = { Prim.hlevel (codes, id_token_claims_code AC.code GC.code) };

    ghost view = { λ a. record {
      id_token = a.id_token;
      access_token = a.access_token;
      code = a.code;
    } };
}

impl<AC: AdditionalClaims, GC: GenderClaim> FrontAnswer<AC, GC> {
    // An ID token, and what came beside it.
    fn new(id_token: LoginIdToken<AC, GC>, beside: Beside) -> Self
        ensures token { result.id_token ≡ id_token }
        ensures access_token { result.access_token ≡ beside.access_token }
        ensures code { result.code ≡ beside.code }
    {
        let Beside { access_token, code } = beside;
        FrontAnswer {
            id_token,
            access_token,
            code,
        }
    }

    /// The ID token, which is accepted: its claims are those of `token().unverified_payload()`.
    pub fn id_token(&self) -> &LoginIdToken<AC, GC>
        ensures token { result.now ≡ self.now.id_token }
    {
        &self.id_token
    }

    /// The access token, where one came. The ID token may have no hash of it.
    pub fn access_token(&self) -> Option<&AccessToken>
        ensures { option_copied result ≡ self.now.access_token }
    {
        self.access_token.as_ref()
    }

    /// The code, where one came. The ID token may have no hash of it, unless the client demands one.
    pub fn code(&self) -> Option<&AuthorizationCode>
        ensures { option_copied result ≡ self.now.code }
    {
        self.code.as_ref()
    }
}

// ---- the state and the error of a query

// Whether a query has one state, and it is this one.
fn has_state(query: &Pairs, state: &CsrfToken) -> bool
    ensures { result ≡ is_sent state.now (state_in query.now) }
{
    match query.only("state") {
        Some(own) => own == state.secret(),
        None => false,
    }
}

// The refusal of a query by its first `error`.
fn provider_refusal(alloc: Global, text: &str) -> FrontError
    ensures { Gives front_errors {A = Unit {0}} (Err result)
        (Err (FrontError.Provider (request.error_word text.now))) }
{
    match error_code(alloc, text) {
        Ok(code) => FrontError::Provider(code),
        Err(_) => FrontError::Memory,
    }
}

// The rows on the state and the error of a query.
#[tactic(auto, unfolding(crate::specs::FrontSteps::checked_state))]
fn checked_state(alloc: Global, query: &Pairs, state: &CsrfToken) -> Result<(), FrontError>
    ensures { Gives front_errors result (steps.checked_state state.now query.now) }
{
    if !has_state(query, state) {
        return Err(FrontError::State);
    }
    match query.first("error") {
        Some(error) => Err(provider_refusal(alloc, error)),
        None => Ok(()),
    }
}

// ---- its ID token, its access tokens and its codes

// The rows on the ID token of a query.
#[tactic(auto, unfolding(crate::specs::FrontSteps::token_in))]
fn token_in<
    AC: AdditionalClaims,
    GC: GenderClaim,
    K: JsonWebKey<SigningAlgorithm = CoreJwsSigningAlgorithm>,
>(alloc: Global, query: &Pairs, reading: Reading) -> Result<LoginIdToken<AC, GC>, FrontError>
    ensures { let types = site_types AC.read_of GC.read_of
        K.JsonWebKey K.KeyUse.JsonWebKeyUse in
        Gives front_errors result (steps.token_in types reading query.now) }
{
    let Some(text) = query.only("id_token") else {
        return Err(FrontError::NoIdToken);
    };
    match LoginIdToken::<AC, GC>::from_str_with(alloc, text, reading) {
        Ok(token) => Ok(token),
        Err(ParseError::Refused(refusal)) => Err(FrontError::Parse(refusal)),
        Err(ParseError::Memory) => Err(FrontError::Memory),
    }
}

// A copy of the first value of a name, where there is one.
fn first_value<M: Marker>(
    alloc: Global,
    query: &Pairs,
    name: &str,
) -> Result<Option<Secret<M>>, AllocError>
    ensures { IfOk result (λ found. found ≡ first_of (values_in query.now name.now)) }
{
    match query.first(name) {
        None => Ok(None),
        Some(value) => Ok(Some(Secret::new(String::from_str(alloc, value)?))),
    }
}

// Copies of the first access token and the first code of a query.
fn beside_in(alloc: Global, query: &Pairs) -> Result<Beside, AllocError>
    ensures access_token { IfOk result
        (λ beside. beside.access_token ≡ first_of (access_tokens_in query.now)) }
    ensures code { IfOk result (λ beside. beside.code ≡ first_of (codes_in query.now)) }
{
    let access_token = first_value(alloc, query, "access_token")?;
    let code = first_value(alloc, query, "code")?;
    Ok(Beside { access_token, code })
}

// Whether a name has several values.
#[tactic(auto, using(crate::proofs::Fronts::one_alone))]
fn has_several(query: &Pairs, name: &str) -> bool
    ensures several { result ≡ is_several (values_in query.now name.now) }
    ensures alone { result ≡ false
        → only_of (values_in query.now name.now) ≡ first_of (values_in query.now name.now) }
{
    query.first(name).is_some() && query.only(name).is_none()
}

// ---- the checks

// The rows on access tokens and codes, by whether the first of each fits what the ID token claims.
fn checked_fits(query: &Pairs, token_fits: bool, code_fits: bool) -> Result<(), FrontError>
    ensures gives { Gives front_errors result (steps.checked_fits query.now token_fits code_fits) }
    ensures one_token { OnOk result
        (only_of (access_tokens_in query.now) ≡ first_of (access_tokens_in query.now)) }
    ensures one_code { OnOk result
        (only_of (codes_in query.now) ≡ first_of (codes_in query.now)) }
{
    if has_several(query, "access_token") || !token_fits {
        return Err(FrontError::TokenHash);
    }
    if has_several(query, "code") || !code_fits {
        return Err(FrontError::CodeHash);
    }
    Ok(())
}

// The rows on the hashes of what stands beside an ID token, where that of a code may be demanded.
fn checked_hashes<
    AC: AdditionalClaims,
    GC: GenderClaim,
    K: JsonWebKey<SigningAlgorithm = CoreJwsSigningAlgorithm>,
>(
    alloc: Global,
    verifier: &IdTokenVerifier<'_, K>,
    token: &LoginIdToken<AC, GC>,
    query: &Pairs,
    beside: &Beside,
    demanded: bool,
) -> Result<(), FrontError>
    requires access_token { beside.now.access_token ≡ first_of (access_tokens_in query.now) }
    requires code { beside.now.code ≡ first_of (codes_in query.now) }
    ensures gives { let types = site_types AC.read_of GC.read_of
        K.JsonWebKey K.KeyUse.JsonWebKeyUse in
        let meant = steps.checked_hashes types verifier.now demanded token.now in
        Gives front_errors result (meant query.now) }
    ensures one_token { OnOk result
        (only_of (access_tokens_in query.now) ≡ first_of (access_tokens_in query.now)) }
    ensures one_code { OnOk result
        (only_of (codes_in query.now) ≡ first_of (codes_in query.now)) }
{
    let of_token = match token_fits(alloc, verifier, token, beside.access_token.as_ref()) {
        Ok(fits) => fits,
        Err(refusal) => return Err(FrontError::of_signing(refusal)),
    };
    let of_code = match code_fits(alloc, verifier, token, beside.code.as_ref(), demanded) {
        Ok(fits) => fits,
        Err(refusal) => return Err(FrontError::of_signing(refusal)),
    };
    checked_fits(query, of_token, of_code)
}

// The rows on an ID token that was read.
fn checked_token<
    AC: AdditionalClaims,
    GC: GenderClaim,
    K: JsonWebKey<SigningAlgorithm = CoreJwsSigningAlgorithm>,
>(
    alloc: Global,
    client: &MetadataClient<AC, GC, K>,
    query: &Pairs,
    beside: &Beside,
    nonce: &Nonce,
    now: Timestamp,
    token: &LoginIdToken<AC, GC>,
) -> Result<(), FrontError>
    requires access_token { beside.now.access_token ≡ first_of (access_tokens_in query.now) }
    requires code { beside.now.code ≡ first_of (codes_in query.now) }
    ensures gives { let types = site_types AC.read_of GC.read_of
        K.JsonWebKey K.KeyUse.JsonWebKeyUse in
        let meant = steps.checked_token types client.now nonce.now now.nanosecond query.now in
        Gives front_errors result (meant token.now) }
    ensures one_token { OnOk result
        (only_of (access_tokens_in query.now) ≡ first_of (access_tokens_in query.now)) }
    ensures one_code { OnOk result
        (only_of (codes_in query.now) ≡ first_of (codes_in query.now)) }
{
    let Ok(verifier) = client.id_token_verifier(alloc) else {
        return Err(FrontError::Memory);
    };
    match token.claims(alloc, &verifier, nonce, now) {
        Ok(_) => {
            let demanded = client.code_hash_required();
            checked_hashes(alloc, &verifier, token, query, beside, demanded)
        }
        Err(error) => Err(FrontError::of_check(error)),
    }
}

// ---- the answer

// The rows on an ID token that was read, and the answer with it.
fn answer_with<
    AC: AdditionalClaims,
    GC: GenderClaim,
    K: JsonWebKey<SigningAlgorithm = CoreJwsSigningAlgorithm>,
>(
    alloc: Global,
    client: &MetadataClient<AC, GC, K>,
    query: &Pairs,
    nonce: &Nonce,
    now: Timestamp,
    token: LoginIdToken<AC, GC>,
) -> Result<FrontAnswer<AC, GC>, FrontError>
    ensures { let types = site_types AC.read_of GC.read_of
        K.JsonWebKey K.KeyUse.JsonWebKeyUse in
        let meant = steps.answer_with types client.now nonce.now now.nanosecond query.now in
        Gives front_errors result (meant token) }
{
    let Ok(beside) = beside_in(alloc, query) else {
        drop(token);
        return Err(FrontError::Memory);
    };
    match checked_token(alloc, client, query, &beside, nonce, now, &token) {
        Ok(()) => Ok(FrontAnswer::new(token, beside)),
        Err(error) => {
            drop(token);
            drop(beside);
            Err(error)
        }
    }
}

// The rows behind the state and the error of a query.
#[tactic(auto, unfolding(crate::specs::FrontSteps::answer_in))]
fn answer_in<
    AC: AdditionalClaims,
    GC: GenderClaim,
    K: JsonWebKey<SigningAlgorithm = CoreJwsSigningAlgorithm>,
>(
    alloc: Global,
    client: &MetadataClient<AC, GC, K>,
    query: &Pairs,
    nonce: &Nonce,
    now: Timestamp,
) -> Result<FrontAnswer<AC, GC>, FrontError>
    ensures { let types = site_types AC.read_of GC.read_of
        K.JsonWebKey K.KeyUse.JsonWebKeyUse in
        let meant = steps.answer_in types client.now nonce.now now.nanosecond in
        Gives front_errors result (meant query.now) }
{
    match token_in::<AC, GC, K>(alloc, query, client.reading()) {
        Ok(token) => answer_with(alloc, client, query, nonce, now, token),
        Err(error) => Err(error),
    }
}

// All rows.
fn front_reply<
    AC: AdditionalClaims,
    GC: GenderClaim,
    K: JsonWebKey<SigningAlgorithm = CoreJwsSigningAlgorithm>,
>(
    alloc: Global,
    client: &MetadataClient<AC, GC, K>,
    query: &[u8],
    state: &CsrfToken,
    nonce: &Nonce,
    now: Timestamp,
) -> Result<FrontAnswer<AC, GC>, FrontError>
    ensures reply { let types = site_types AC.read_of GC.read_of
        K.JsonWebKey K.KeyUse.JsonWebKeyUse in
        let a = front_attempt client.now query.now state.now nonce.now now.nanosecond in
        Gives front_errors result (front types a) }
    ensures over_long { is_over_long query.now ≡ true → result ≡ Err FrontError.TooLong }
{
    if is_too_long(query) {
        return Err(FrontError::TooLong);
    }
    let Ok(pairs) = Pairs::parse(alloc, query) else {
        return Err(FrontError::Memory);
    };
    match checked_state(alloc, &pairs, state) {
        Ok(()) => answer_in(alloc, client, &pairs, nonce, now),
        Err(error) => Err(error),
    }
}

/// Judges the answer of an implicit or a hybrid flow (OpenID Connect Core 1.0 sections 3.2.2.5 to 3.2.2.11 and 3.3.2.5
/// to 3.3.2.12). The query is the form text that came back from the authorization endpoint: what stands behind the `#`
/// or the `?` of the redirect, or the body of a form post. `state` and `nonce` are those of the authorization request,
/// which the site keeps in the browser's session. It takes one query by itself and remembers nothing: a site takes one
/// answer to a request, and forgets the state and the nonce then.
///
/// The errors are, in this order: `TooLong`, where the query has more than 1,048,576 bytes; `State`, where it hasn't
/// one `state`, or another than `state`; `Provider`, where it has an `error`, the first of which is carried;
/// `NoIdToken`, where it hasn't one `id_token`; `Parse`, where that is no ID token; `Claims`, where a check of it
/// fails, that of its nonce by `nonce`; `Signing`, where it has an `at_hash` and there is an `access_token`, or a
/// `c_hash` and there is a `code`, and no hash goes with its algorithm; `TokenHash`, where there are several access
/// tokens, or one whose hash isn't the `at_hash`; `CodeHash`, where there are several codes, or one whose hash isn't
/// the `c_hash`, or one without a `c_hash` where the client demands it. `Memory` may come at any point.
///
/// The ID token is read under the client's reading. An `at_hash` that isn't there binds nothing, though section 3.2.2.10
/// wants one beside an access token; nor does a `c_hash`, which section 3.3.2.11 wants beside a code, unless the client
/// demands it (`Client::require_code_hash`).
pub fn front_channel<
    AC: AdditionalClaims,
    GC: GenderClaim,
    K: JsonWebKey<SigningAlgorithm = CoreJwsSigningAlgorithm>,
>(
    alloc: Global,
    client: &MetadataClient<AC, GC, K>,
    query: &[u8],
    state: &CsrfToken,
    nonce: &Nonce,
    now: Timestamp,
) -> Result<FrontAnswer<AC, GC>, FrontError>
    // The answer is that of the table, or there was no memory.
    ensures reply { let types = site_types AC.read_of GC.read_of
        K.JsonWebKey K.KeyUse.JsonWebKeyUse in
        let a = front_attempt client.now query.now state.now nonce.now now.nanosecond in
        Gives front_errors result (front types a) }

    // Each refusal has its cause, and each cause its refusal, or there was no memory.
    ensures cause { let types = site_types AC.read_of GC.read_of
        K.JsonWebKey K.KeyUse.JsonWebKeyUse in
        let a = front_attempt client.now query.now state.now nonce.now now.nanosecond in
        IfErr result (λ e. Unless (is_memory e) (FrontCause types a e)) }
    ensures refused { let types = site_types AC.read_of GC.read_of
        K.JsonWebKey K.KeyUse.JsonWebKeyUse in
        let a = front_attempt client.now query.now state.now nonce.now now.nanosecond in
        (e : FrontError) → FrontCause types a e → Gives front_errors result (Err e) }
    ensures over_long { is_over_long query.now ≡ true → result ≡ Err FrontError.TooLong }
    ensures no_inner_memory { IfErr result (λ e. holds_memory e ≡ false) }

    // An Ok is an answer that is accepted, and such an answer is an Ok, or there was no memory.
    ensures answered { let types = site_types AC.read_of GC.read_of
        K.JsonWebKey K.KeyUse.JsonWebKeyUse in
        let a = front_attempt client.now query.now state.now nonce.now now.nanosecond in
        IfOk result (IsFrontAnswer types a) }
    ensures answers { let types = site_types AC.read_of GC.read_of
        K.JsonWebKey K.KeyUse.JsonWebKeyUse in
        let a = front_attempt client.now query.now state.now nonce.now now.nanosecond in
        (answer : SeenFrontAnswer AC GC) → IsFrontAnswer types a answer
        → Gives front_errors result (Ok answer) }

    // Of an Ok: the query has the state. The ID token is accepted at this moment with the nonce. Any `at_hash` in it
    // is the hash of the access token, where there is one, and any `c_hash` that of the code. A code has a `c_hash`
    // where the client demands it.
    ensures own_state { OnOk result (state_in (pairs query.now) ≡ Some state.now) }
    ensures accepted { let types = site_types AC.read_of GC.read_of
        K.JsonWebKey K.KeyUse.JsonWebKeyUse in
        IfOk result (λ answer.
        IsAcceptedBy types client.now nonce.now now.nanosecond answer.id_token) }
    ensures token_hash { let types = site_types AC.read_of GC.read_of
        K.JsonWebKey K.KeyUse.JsonWebKeyUse in
        IfOk result (λ answer. IfSome answer.access_token
        (HasOwnHash types client.now answer.id_token)) }
    ensures code_hash { let types = site_types AC.read_of GC.read_of
        K.JsonWebKey K.KeyUse.JsonWebKeyUse in
        IfOk result (λ answer. IfSome answer.code
        (HasOwnCodeHash types client.now answer.id_token)) }
    ensures demanded { client.now.code_hash_required ≡ true
        → IfOk result (λ answer. IsSome answer.code
        → IsSome (claimed_code_hash answer.id_token)) }
{
    front_reply(alloc, client, query, state, nonce, now)
}
