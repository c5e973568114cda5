//! The ID token that comes with refreshed tokens, judged beside the first ID token of the sign-in (OpenID Connect
//! Core 1.0 sections 12.2, 3.1.3.6 and 3.1.3.7).

ghost use Rattle.std.specs.Prelude.{◌≡◌, IfOk, IfErr, option_map};
ghost use Rattle.std.specs.List.{list_all};
ghost use Rattle.std.specs.Option.{option_copied};
ghost use Rattle.std.specs.Ordering.{int_eq};
ghost use Rattle.std.specs.Str.{bytes_eq};
ghost use Rattle.oidc_tokens.specs.Hashes.{hashing, hash_or_refusal};
ghost use Rattle.oidc_tokens.specs.Signatures.{meanings};
ghost use Rattle.oidc_tokens.specs.Refreshed as spec;
ghost use Rattle.oidc_tokens.specs.Refreshed.{AcceptsRefreshed, JudgesRefreshed, refreshed_failure};
ghost use Rattle.oidc_tokens.specs.RefreshedCauses.{RefreshedCause};
ghost use Rattle.oidc_tokens.specs.Verification.{first_failure};

use crate::hashes::from_token;
use crate::id_token::{IdToken, IdTokenClaims};
use crate::verification::{ClaimsVerificationError, IdTokenVerifier, NonceVerifier};
use jiff::Timestamp;
use oidc_claims::{AdditionalClaims, GenderClaim};
use oidc_keys::{JsonWebKey, SignatureVerificationError};
use oidc_types::{
    AccessToken, AccessTokenHash, Audience, ClientId, JweContentEncryptionAlgorithm,
    JwsSigningAlgorithm, Nonce, SigningError,
};
use std::alloc::Global;
use thiserror::Error;

/// Why an ID token that came with refreshed tokens isn't accepted: the first check that fails.
#[derive(Debug, Drop, PartialEq, Eq, Error)]
pub enum RefreshedClaimsError {
    /// The verifier doesn't accept the token. `InvalidNonce`, `InvalidSubject` and `Memory` never stand inside it.
    #[error("the ID token isn't accepted: {0}")]
    Claims(ClaimsVerificationError),
    /// `iss` isn't the first ID token's.
    #[error("another issuer than the first ID token's")]
    OtherIssuer,
    /// `sub` isn't the first ID token's: the token is about somebody else.
    #[error("another subject than the first ID token's")]
    OtherSubject,
    /// `aud` hasn't the same members as the first ID token's.
    #[error("another audience than the first ID token's")]
    OtherAudience,
    /// `auth_time` is there, and isn't the first ID token's.
    #[error("another time of authentication than the first ID token's")]
    OtherAuthTime,
    /// `nonce` is there, and isn't the first ID token's.
    #[error("another nonce than the first ID token's")]
    OtherNonce,
    /// `azp` isn't the first ID token's, or only one of the two has it.
    #[error("another authorized party than the first ID token's")]
    OtherAuthorizedParty,
    /// The token has the hash of an access token, and no hash goes with its algorithm. `Memory` never stands
    /// inside it.
    #[error("no hash of the access token: {0}")]
    Signing(SigningError),
    /// The hash in the token isn't that of the access token beside it.
    #[error("another access token than the ID token's")]
    TokenHash,
    /// There was no memory.
    #[error("out of memory")]
    Memory,
}

// Takes any nonce, and none.
#[derive(Drop)]
struct AnyNonce;

impl NonceVerifier for AnyNonce {
    ghost use Rattle.oidc_tokens.specs.Refreshed.{any_nonce};

    ghost allows = { λ _ nonce. any_nonce nonce };

    fn verify(&self, _nonce: Option<&Nonce>) -> bool {
        true
    }
}

// ---- what has to be as in the first ID token

fn is_among(audiences: &[Audience], audience: &Audience) -> bool
    ensures { result ≡ spec.is_among audiences.now audience.now }
{
    audiences.iter().any(|a| a.as_str() == audience.as_str())
}

fn are_among(audiences: &[Audience], others: &[Audience]) -> bool
    ensures { result ≡ list_all (spec.is_among audiences.now) others.now }
{
    others.iter().all(|a| is_among(audiences, a))
}

fn has_same_members(first: &[Audience], new: &[Audience]) -> bool
    ensures { result ≡ spec.has_same_members first.now new.now }
{
    are_among(new, first) && are_among(first, new)
}

fn is_kept_moment(first: Option<Timestamp>, new: Option<Timestamp>) -> bool
    ensures { let new = option_map (λ moment. moment.nanosecond) new in
        result ≡ spec.is_kept int_eq (option_map (λ moment. moment.nanosecond) first) new }
{
    let Some(new) = new else {
        return true;
    };
    match first {
        Some(first) => new == first,
        None => false,
    }
}

fn is_kept_nonce(first: Option<&Nonce>, new: Option<&Nonce>) -> bool
    ensures { let new = option_copied new.entry in
        result ≡ spec.is_kept bytes_eq (option_copied first.entry) new }
{
    let Some(new) = new else {
        return true;
    };
    match first {
        Some(first) => new.secret() == first.secret(),
        None => false,
    }
}

fn is_same_party(first: Option<&ClientId>, new: Option<&ClientId>) -> bool
    ensures { let new = option_copied new.entry in
        result ≡ spec.is_same_text (option_copied first.entry) new }
{
    let Some(new) = new else {
        return first.is_none();
    };
    match first {
        Some(first) => new.as_str() == first.as_str(),
        None => false,
    }
}

// The checks of section 12.2, in its order.
#[tactic(auto, unfolding(crate::specs::Refreshed::sign_in_failure))]
fn check_sign_in<AC: AdditionalClaims, GC: GenderClaim>(
    first: &IdTokenClaims<AC, GC>,
    new: &IdTokenClaims<AC, GC>,
) -> Result<(), RefreshedClaimsError>
    ensures { JudgesRefreshed (spec.sign_in_failure first.now new.now) result }
{
    if new.issuer().as_str() != first.issuer().as_str() {
        return Err(RefreshedClaimsError::OtherIssuer);
    }
    if new.subject().as_str() != first.subject().as_str() {
        return Err(RefreshedClaimsError::OtherSubject);
    }
    if !has_same_members(first.audiences(), new.audiences()) {
        return Err(RefreshedClaimsError::OtherAudience);
    }
    if !is_kept_moment(first.auth_time(), new.auth_time()) {
        return Err(RefreshedClaimsError::OtherAuthTime);
    }
    if !is_kept_nonce(first.nonce(), new.nonce()) {
        return Err(RefreshedClaimsError::OtherNonce);
    }
    if !is_same_party(first.authorized_party(), new.authorized_party()) {
        return Err(RefreshedClaimsError::OtherAuthorizedParty);
    }
    Ok(())
}

// ---- the hash of the access token

// The checks of a hash that is claimed.
fn check_claim<K: JsonWebKey>(
    alloc: Global,
    access_token: &AccessToken,
    alg: &K::SigningAlgorithm,
    key: &K,
    claim: &AccessTokenHash,
) -> Result<(), RefreshedClaimsError>
    ensures { let by = hashing (K.SigningAlgorithm.as_ref alg.now) (K.hash_of key.now alg.now) in
        let hash = hash_or_refusal by access_token.now in
        JudgesRefreshed (spec.claim_failure claim.now hash) result }
{
    match from_token(alloc, access_token, alg, key) {
        Ok(hash) => {
            if hash.as_str() == claim.as_str() {
                Ok(())
            } else {
                Err(RefreshedClaimsError::TokenHash)
            }
        }
        Err(SigningError::Memory) => Err(RefreshedClaimsError::Memory),
        Err(refusal) => Err(RefreshedClaimsError::Signing(refusal)),
    }
}

// The refusal of a token that no key checks. None that is accepted is one.
fn unsigned(refusal: SignatureVerificationError) -> RefreshedClaimsError
    ensures { let failure = ClaimsVerificationError.SignatureVerification refusal in
        result ≡ RefreshedClaimsError.Claims failure }
{
    RefreshedClaimsError::Claims(ClaimsVerificationError::SignatureVerification(refusal))
}

// The checks of the hash that a token may claim.
fn check_hash<
    AC: AdditionalClaims,
    GC: GenderClaim,
    JE: JweContentEncryptionAlgorithm,
    JS: JwsSigningAlgorithm,
    K: JsonWebKey<SigningAlgorithm = JS>,
>(
    alloc: Global,
    verifier: &IdTokenVerifier<'_, K>,
    token: &IdToken<AC, GC, JE, JS>,
    access_token: &AccessToken,
) -> Result<(), RefreshedClaimsError>
    ensures { let k = meanings K.JsonWebKey K.KeyUse.JsonWebKeyUse
        JS.JwsSigningAlgorithm.own JS.ClosedVocabulary JS.KeyType.ClosedVocabulary in
        let claim = token.now.payload.own.access_token_hash in
        let by = spec.hashing_of k verifier.now token.now in
        JudgesRefreshed (spec.hash_failure by access_token.now claim) result }
{
    let Some(claim) = token.token().unverified_payload().access_token_hash() else {
        return Ok(());
    };
    let alg = match token.signing_alg() {
        Ok(alg) => alg,
        Err(refusal) => return Err(unsigned(refusal)),
    };
    let key = match token.signing_key(verifier) {
        Ok(key) => key,
        Err(refusal) => return Err(unsigned(refusal)),
    };
    check_claim(alloc, access_token, alg, key, claim)
}

// ---- all of them

fn of_check(refusal: ClaimsVerificationError) -> RefreshedClaimsError
    ensures { result ≡ spec.of_check refusal }
{
    match refusal {
        ClaimsVerificationError::Memory => RefreshedClaimsError::Memory,
        refusal => RefreshedClaimsError::Claims(refusal),
    }
}

// The verifier's checks, which take any nonce.
fn check_token<
    AC: AdditionalClaims,
    GC: GenderClaim,
    JE: JweContentEncryptionAlgorithm,
    JS: JwsSigningAlgorithm,
    K: JsonWebKey<SigningAlgorithm = JS>,
>(
    verifier: &IdTokenVerifier<'_, K>,
    token: &IdToken<AC, GC, JE, JS>,
    now: Timestamp,
) -> Result<(), RefreshedClaimsError>
    ensures { let k = meanings K.JsonWebKey K.KeyUse.JsonWebKeyUse
        JS.JwsSigningAlgorithm.own JS.ClosedVocabulary JS.KeyType.ClosedVocabulary in
        let failure = first_failure k verifier.now spec.any_nonce now.nanosecond token.now in
        JudgesRefreshed (option_map RefreshedClaimsError.Claims failure) result }
{
    match verifier.check(token.token(), &AnyNonce, now) {
        Ok(()) => Ok(()),
        Err(refusal) => Err(of_check(refusal)),
    }
}

// All checks, in their order.
fn check_refreshed<
    AC: AdditionalClaims,
    GC: GenderClaim,
    JE: JweContentEncryptionAlgorithm,
    JS: JwsSigningAlgorithm,
    K: JsonWebKey<SigningAlgorithm = JS>,
>(
    alloc: Global,
    verifier: &IdTokenVerifier<'_, K>,
    token: &IdToken<AC, GC, JE, JS>,
    first: &IdTokenClaims<AC, GC>,
    access_token: &AccessToken,
    now: Timestamp,
) -> Result<(), RefreshedClaimsError>
    ensures { let k = meanings K.JsonWebKey K.KeyUse.JsonWebKeyUse
        JS.JwsSigningAlgorithm.own JS.ClosedVocabulary JS.KeyType.ClosedVocabulary in
        let failure = refreshed_failure k verifier.now now.nanosecond first.now access_token.now in
        JudgesRefreshed (failure token.now) result }
{
    match check_token(verifier, token, now) {
        Ok(()) => {}
        Err(refusal) => return Err(refusal),
    }
    match check_sign_in(first, token.token().unverified_payload()) {
        Ok(()) => {}
        Err(refusal) => return Err(refusal),
    }
    check_hash(alloc, verifier, token, access_token)
}

impl<
    AC: AdditionalClaims,
    GC: GenderClaim,
    JE: JweContentEncryptionAlgorithm,
    JS: JwsSigningAlgorithm,
> IdToken<AC, GC, JE, JS> {
    /// The claims of an ID token that came with refreshed tokens, where `verifier` accepts it at `now`, whatever
    /// its nonce, where they are of the sign-in whose first ID token had the claims `first`, and where an `at_hash`
    /// is that of the access token that came beside it. `first` are claims that were accepted when the user signed
    /// in. It is refused for the first check that fails, or as `Memory`.
    pub fn refreshed_claims<K: JsonWebKey<SigningAlgorithm = JS>>(
        &self,
        alloc: Global,
        verifier: &IdTokenVerifier<'_, K>,
        first: &IdTokenClaims<AC, GC>,
        access_token: &AccessToken,
        now: Timestamp,
    ) -> Result<&IdTokenClaims<AC, GC>, RefreshedClaimsError>
        ensures judged { let k = meanings K.JsonWebKey K.KeyUse.JsonWebKeyUse
            JS.JwsSigningAlgorithm.own JS.ClosedVocabulary JS.KeyType.ClosedVocabulary in
            let failure = refreshed_failure k verifier.now now.nanosecond first.now access_token.now
            in JudgesRefreshed (failure self.now) result }
        ensures accepted { let k = meanings K.JsonWebKey K.KeyUse.JsonWebKeyUse
            JS.JwsSigningAlgorithm.own JS.ClosedVocabulary JS.KeyType.ClosedVocabulary in
            let accepts = AcceptsRefreshed k verifier.now now.nanosecond first.now access_token.now
            in IfOk result (λ claims. accepts self.now) }
        ensures refused { let k = meanings K.JsonWebKey K.KeyUse.JsonWebKeyUse
            JS.JwsSigningAlgorithm.own JS.ClosedVocabulary JS.KeyType.ClosedVocabulary in
            let accepts = AcceptsRefreshed k verifier.now now.nanosecond first.now access_token.now
            in accepts self.now → IfErr result (λ error. error ≡ RefreshedClaimsError.Memory) }
        ensures claims { IfOk result (λ claims. claims.now ≡ self.now.payload) }
        ensures cause { let k = meanings K.JsonWebKey K.KeyUse.JsonWebKeyUse
            JS.JwsSigningAlgorithm.own JS.ClosedVocabulary JS.KeyType.ClosedVocabulary in
            let cause = RefreshedCause k verifier.now now.nanosecond first.now access_token.now
            in IfErr result (cause self.now) }
    {
        match check_refreshed(alloc, verifier, self, first, access_token, now) {
            Ok(()) => Ok(self.token().unverified_payload()),
            Err(refusal) => Err(refusal),
        }
    }
}
