//! ID tokens (OpenID Connect Core 1.0 section 2).

ghost use Rattle.std.specs.Prelude.{◌≡◌, IfOk, IfErr};
ghost use Rattle.std.specs.String.{string_bytes};
ghost use Rattle.oidc_members.specs.Answers.{Answers};
ghost use Rattle.oidc_jwt.specs.Tokens.{token_of};
ghost use Rattle.oidc_id_token_claims.specs.IdTokenClaims.{id_token_claims_of};
ghost use Rattle.oidc_tokens.specs.Verification as verification;
ghost use Rattle.oidc_tokens.specs.Verification.{Judges, Accepts};
ghost use Rattle.oidc_tokens.specs.Causes.{Cause};
ghost use Rattle.oidc_tokens.specs.Signatures as signatures;
ghost use Rattle.oidc_tokens.specs.Signatures.{behind, meanings};

mod fields;
mod issue;

pub use crate::id_token::fields::IdTokenFields;
use crate::verification::{ClaimsVerificationError, IdTokenVerifier, NonceVerifier, signing_alg};
use jiff::Timestamp;
use oidc_claims::{AdditionalClaims, GenderClaim};
pub use oidc_id_token_claims::IdTokenClaims;
use oidc_jwt::JsonWebToken;
use oidc_keys::{JsonWebKey, SignatureVerificationError};
use oidc_members::{ParseError, Reading};
use oidc_types::{JweContentEncryptionAlgorithm, JwsSigningAlgorithm};
use std::alloc::{AllocError, Global};
use std::marker::Model;

/// An ID token that was read or issued. Contracts see it as a JSON Web Token whose payload is claims.
///
/// It has no `Debug`, since its claims are about a person, and its text may serve as a hint. It stands behind a
/// pointer, so that it is moved as one word.
#[derive(Drop)]
pub struct IdToken<
    AC: AdditionalClaims,
    GC: GenderClaim,
    JE: JweContentEncryptionAlgorithm,
    JS: JwsSigningAlgorithm,
> {
    token: Box<JsonWebToken<JE, JS, IdTokenClaims<AC, GC>>>,
}

impl<
    AC: AdditionalClaims,
    GC: GenderClaim,
    JE: JweContentEncryptionAlgorithm,
    JS: JwsSigningAlgorithm,
> Model for IdToken<AC, GC, JE, JS> {
    ghost use Rattle.std.specs.Coded.{codes};
    ghost use Rattle.oidc_id_token_claims.specs.Codes.{id_token_claims_code};
    ghost use Rattle.oidc_jwt.specs.Tokens.{SeenToken};
    ghost use Rattle.oidc_id_token_claims.specs.IdTokenClaims.{SeenIdTokenClaims};

    ghost Value = { SeenToken JE JS (SeenIdTokenClaims AC GC) };

    ghost coded = { Prim.hlevel (codes, id_token_claims_code AC.code GC.code) };

    ghost view = { λ t. t.token.value };
}

impl<
    AC: AdditionalClaims,
    GC: GenderClaim,
    JE: JweContentEncryptionAlgorithm,
    JS: JwsSigningAlgorithm,
> IdToken<AC, GC, JE, JS> {
    /// The ID token that a text is. It is refused as a JSON Web Token is, its claims as
    /// [`IdTokenClaims`] are under the strict reading.
    pub fn from_str(alloc: Global, text: &str) -> Result<Self, ParseError>
        ensures answer { Answers (token_of JE.from_str JS.from_str
            (id_token_claims_of AC.read_of GC.read_of Reading.STRICT) text.now) result }
    {
        IdToken::from_str_with(alloc, text, Reading::STRICT)
    }

    /// The ID token that a text is, its claims read under this reading. It is refused as by
    /// [`IdToken::from_str`], the claims as they are under this reading.
    pub fn from_str_with(alloc: Global, text: &str, reading: Reading) -> Result<Self, ParseError>
        ensures answer { Answers (token_of JE.from_str JS.from_str
            (id_token_claims_of AC.read_of GC.read_of reading) text.now) result }
    {
        let token = JsonWebToken::read_with(alloc, text, reading)?;
        Ok(Self::of_token(alloc, token)?)
    }

    // The ID token that a JSON Web Token is.
    fn of_token(
        alloc: Global,
        token: JsonWebToken<JE, JS, IdTokenClaims<AC, GC>>,
    ) -> Result<Self, AllocError>
        ensures { IfOk result (λ made. made ≡ token) }
    {
        match Box::new(alloc, token) {
            Ok(token) => Ok(IdToken { token }),
            Err(_) => Err(AllocError),
        }
    }

    /// The text that was read or made. `AllocError` is want of memory, the one error.
    pub fn to_string(&self, alloc: Global) -> Result<String, AllocError>
        ensures text { IfOk result (λ text. string_bytes text ≡ self.now.text) }
    {
        String::from_str(alloc, self.token.as_str())
    }

    /// The JSON Web Token, whose claims are not verified.
    pub fn token(&self) -> &JsonWebToken<JE, JS, IdTokenClaims<AC, GC>>
        ensures token { result.now ≡ self.now }
    {
        &*self.token
    }

    /// The claims, where `verifier` accepts the token at `now` with a nonce that is allowed. It is refused
    /// for the first check that fails, or as `Memory`.
    pub fn claims<K: JsonWebKey<SigningAlgorithm = JS>, N: NonceVerifier>(
        &self,
        _alloc: Global,
        verifier: &IdTokenVerifier<'_, K>,
        nonce: N,
        now: Timestamp,
    ) -> Result<&IdTokenClaims<AC, GC>, ClaimsVerificationError>
        ensures judged { let k = meanings K.JsonWebKey K.KeyUse.JsonWebKeyUse
            JS.JwsSigningAlgorithm.own JS.ClosedVocabulary JS.KeyType.ClosedVocabulary in
            let failure = verification.first_failure k verifier.now (N.allows nonce) now.nanosecond
            in Judges (failure self.now) result }
        ensures accepted { let k = meanings K.JsonWebKey K.KeyUse.JsonWebKeyUse
            JS.JwsSigningAlgorithm.own JS.ClosedVocabulary JS.KeyType.ClosedVocabulary in
            let accepts = Accepts k verifier.now (N.allows nonce) now.nanosecond
            in IfOk result (λ claims. accepts self.now) }
        ensures refused { let k = meanings K.JsonWebKey K.KeyUse.JsonWebKeyUse
            JS.JwsSigningAlgorithm.own JS.ClosedVocabulary JS.KeyType.ClosedVocabulary in
            let accepts = Accepts k verifier.now (N.allows nonce) now.nanosecond
            in accepts self.now → IfErr result (λ error. error ≡ ClaimsVerificationError.Memory) }
        ensures claims { IfOk result (λ claims. claims.now ≡ self.now.payload) }
        ensures cause { let k = meanings K.JsonWebKey K.KeyUse.JsonWebKeyUse
            JS.JwsSigningAlgorithm.own JS.ClosedVocabulary JS.KeyType.ClosedVocabulary in
            IfErr result (Cause k verifier.now (N.allows nonce) now.nanosecond self.now) }
    {
        let token = self.token();
        match verifier.check(token, &nonce, now) {
            Ok(()) => Ok(token.unverified_payload()),
            Err(refusal) => Err(refusal),
        }
    }

    /// The claims as [`claims`](IdToken::claims) gives them, taken out.
    pub fn into_claims<K: JsonWebKey<SigningAlgorithm = JS>, N: NonceVerifier>(
        self,
        _alloc: Global,
        verifier: &IdTokenVerifier<'_, K>,
        nonce: N,
        now: Timestamp,
    ) -> Result<IdTokenClaims<AC, GC>, ClaimsVerificationError>
        ensures judged { let k = meanings K.JsonWebKey K.KeyUse.JsonWebKeyUse
            JS.JwsSigningAlgorithm.own JS.ClosedVocabulary JS.KeyType.ClosedVocabulary in
            let failure = verification.first_failure k verifier.now (N.allows nonce) now.nanosecond
            in Judges (failure self) result }
        ensures accepted { let k = meanings K.JsonWebKey K.KeyUse.JsonWebKeyUse
            JS.JwsSigningAlgorithm.own JS.ClosedVocabulary JS.KeyType.ClosedVocabulary in
            let accepts = Accepts k verifier.now (N.allows nonce) now.nanosecond
            in IfOk result (λ claims. accepts self) }
        ensures refused { let k = meanings K.JsonWebKey K.KeyUse.JsonWebKeyUse
            JS.JwsSigningAlgorithm.own JS.ClosedVocabulary JS.KeyType.ClosedVocabulary in
            let accepts = Accepts k verifier.now (N.allows nonce) now.nanosecond
            in accepts self → IfErr result (λ error. error ≡ ClaimsVerificationError.Memory) }
        ensures claims { IfOk result (λ claims. claims ≡ self.payload) }
        ensures cause { let k = meanings K.JsonWebKey K.KeyUse.JsonWebKeyUse
            JS.JwsSigningAlgorithm.own JS.ClosedVocabulary JS.KeyType.ClosedVocabulary in
            IfErr result (Cause k verifier.now (N.allows nonce) now.nanosecond self) }
    {
        match verifier.check(self.token(), &nonce, now) {
            Ok(()) => Ok(Box::into_inner(self.token).into_payload()),
            Err(refusal) => {
                drop(self);
                Err(refusal)
            }
        }
    }

    /// The algorithm that the token is signed by. `UnsupportedAlg` where it is encrypted, `NoSignature`
    /// where it is neither signed nor encrypted.
    pub fn signing_alg(&self) -> Result<&JS, SignatureVerificationError>
        ensures alg { behind result ≡ signatures.signing_alg self.now.header.alg }
    {
        signing_alg(&self.token.header().alg)
    }

    /// The key of the verifier that checks the token's signature. It is refused as
    /// [`signing_alg`](IdToken::signing_alg) is, as `DisallowedAlg` where the algorithm's key is a secret
    /// that the client hasn't, and as `NoMatchingKey` or `AmbiguousKeyId` where no key of the issuer fits,
    /// or several do.
    pub fn signing_key<'s, K: JsonWebKey<SigningAlgorithm = JS>>(
        &self,
        verifier: &'s IdTokenVerifier<'s, K>,
    ) -> Result<&'s K, SignatureVerificationError>
        ensures key { let k = meanings K.JsonWebKey K.KeyUse.JsonWebKeyUse
            JS.JwsSigningAlgorithm.own JS.ClosedVocabulary JS.KeyType.ClosedVocabulary in
            behind result ≡ signatures.checking_key k verifier.now self.now }
    {
        let alg = self.signing_alg()?;
        verifier.key_for(self.token.header().kid.as_ref(), alg)
    }
}
