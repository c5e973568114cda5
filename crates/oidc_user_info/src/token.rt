//! User info that is a JSON Web Token (OpenID Connect Core 1.0 section 5.3.2).

ghost use Rattle.std.specs.Prelude.{◌≡◌, Ok, IfOk, IfErr, false};
ghost use Rattle.oidc_members.specs.Answers.{Answers};
ghost use Rattle.oidc_members.specs.Write.{any_float};
ghost use Rattle.oidc_members.specs.declared.reading.Reading.{Reading};
ghost use Rattle.oidc_jwt.specs.Header.{written_header};
ghost use Rattle.oidc_jwt.specs.Tokens.{token_of};
ghost use Rattle.oidc_jwt.specs.Issuing as issuing;
ghost use Rattle.oidc_jwt.specs.Issuing.{Issues, IsRefusedBy, IsNamed};
ghost use Rattle.oidc_tokens.specs.Signatures.{meanings};
ghost use Rattle.oidc_tokens.specs.Verification.{Judges};
ghost use Rattle.oidc_tokens.specs.UserInfoVerification.{AcceptsInfo, first_info_failure};
ghost use Rattle.oidc_tokens.specs.UserInfoCauses.{InfoTokenCause};
ghost use Rattle.oidc_user_info.specs.RoundTrip.{IsInfoInRange};
ghost use Rattle.oidc_user_info.specs.UserInfoClaims.{user_info_claims_of, user_info_members, parties_of};

use crate::claims::UserInfoClaims;
use oidc_claims::{AdditionalClaims, GenderClaim};
use oidc_keys::{JsonWebKey, PrivateSigningKey};
use oidc_members::{ParseError, Reading};
use oidc_tokens::{ClaimsVerificationError, JsonWebToken, JsonWebTokenError, UserInfoVerifier};
use oidc_types::{JweContentEncryptionAlgorithm, JwsSigningAlgorithm};
use std::alloc::Global;
use std::marker::Model;

/// User info that is a JSON Web Token. Contracts see it as a token whose payload is claims.
///
/// It has no `Debug`, since its claims are about a person.
#[derive(Drop)]
pub struct UserInfoJsonWebToken<
    AC: AdditionalClaims,
    GC: GenderClaim,
    JE: JweContentEncryptionAlgorithm,
    JS: JwsSigningAlgorithm,
> {
    token: JsonWebToken<JE, JS, UserInfoClaims<AC, GC>>,
}

impl<
    AC: AdditionalClaims,
    GC: GenderClaim,
    JE: JweContentEncryptionAlgorithm,
    JS: JwsSigningAlgorithm,
> Model for UserInfoJsonWebToken<AC, GC, JE, JS> {
    ghost use Rattle.std.specs.Coded.{codes};
    ghost use Rattle.oidc_user_info.specs.Codes.{user_info_claims_code};
    ghost use Rattle.oidc_jwt.specs.Tokens.{SeenToken};
    ghost use Rattle.oidc_user_info.specs.UserInfoClaims.{SeenUserInfoClaims};

    ghost Value = { SeenToken JE JS (SeenUserInfoClaims AC GC) };

    ghost coded = { Prim.hlevel (codes, user_info_claims_code AC.code GC.code) };

    ghost view = { λ t. t.token };
}

impl<
    AC: AdditionalClaims,
    GC: GenderClaim,
    JE: JweContentEncryptionAlgorithm,
    JS: JwsSigningAlgorithm,
> UserInfoJsonWebToken<AC, GC, JE, JS> {
    /// The token that a text is. It is refused as a JSON Web Token is, its claims as
    /// [`UserInfoClaims`] are under the strict reading.
    pub fn read(alloc: Global, text: &str) -> Result<Self, ParseError>
        ensures answer { Answers (token_of JE.from_str JS.from_str
            (user_info_claims_of AC.read_of GC.read_of Reading.STRICT) text.now) result }
    {
        UserInfoJsonWebToken::read_with(alloc, text, Reading::STRICT)
    }

    /// The token that a text is, its claims read under this reading. It is refused as by
    /// [`UserInfoJsonWebToken::read`], the claims as they are under this reading.
    pub fn read_with(alloc: Global, text: &str, reading: Reading) -> Result<Self, ParseError>
        ensures answer { Answers (token_of JE.from_str JS.from_str
            (user_info_claims_of AC.read_of GC.read_of reading) text.now) result }
    {
        let token = JsonWebToken::read_with(alloc, text, reading)?;
        Ok(UserInfoJsonWebToken { token })
    }

    /// Issues a token of these claims, signed by `key`.
    ///
    /// Where the additional claims hold no float, the whole token or refusal is the one that the definitions
    /// say. Whatever they hold, it is refused as the signer refuses a message with the token's header, or as
    /// `Memory`.
    pub fn new<S: PrivateSigningKey>(
        alloc: Global,
        claims: UserInfoClaims<AC, GC>,
        key: &S,
        alg: JS,
    ) -> Result<Self, JsonWebTokenError>
    where
        S::VerificationKey: JsonWebKey<SigningAlgorithm = JS>,
        ensures issued { let key_id = S.VerificationKey.key_id (S.verification_key key.now) in
            let issue = issuing.issued JS.as_ref (user_info_members AC.write_of GC.write_of)
            (S.signs key.now alg) key_id alg in
            any_float (AC.write_of claims.additional_claims) ≡ false
            → Issues (issue claims) result }

        // Whatever the additional claims hold.
        ensures header { let key_id = S.VerificationKey.key_id (S.verification_key key.now) in
            IfOk result (λ token. token.header ≡ issuing.signed_with alg key_id) }
        ensures claims { IfOk result (λ token. token.payload ≡ claims) }
        ensures head { let key_id = S.VerificationKey.key_id (S.verification_key key.now) in
            let header = written_header (JS.as_ref alg) key_id in
            IfOk result (λ token. issuing.IsHeadedBy token.message header) }
        ensures signed { IfOk result (λ token.
            S.signs key.now alg token.message ≡ Ok token.signature) }
        ensures text { IfOk result (λ token.
            token.text ≡ issuing.compact token.message token.signature) }
        ensures refused { let key_id = S.VerificationKey.key_id (S.verification_key key.now) in
            let header = written_header (JS.as_ref alg) key_id in
            IfErr result (IsRefusedBy header (S.signs key.now alg)) }

        // What is issued is read back under every reading, where its algorithm is read back from
        // its own text.
        ensures reads_back { (reading : Reading)
            → IsNamed JS.as_ref JS.from_str alg → IsInfoInRange AC.write_of claims
            → IfOk result (λ token. token_of JE.from_str JS.from_str
            (user_info_claims_of AC.read_of GC.read_of reading) token.text ≡ Ok token) }
    {
        match JsonWebToken::new(alloc, claims, key, &alg) {
            Ok(token) => Ok(UserInfoJsonWebToken { token }),
            Err(error) => Err(error),
        }
    }

    /// The text that was read or made.
    pub fn as_str(&self) -> &str
        ensures text { result.now ≡ self.now.text }
    {
        self.token.as_str()
    }

    /// The claims, where `verifier` accepts the token. It is refused for the first check that fails, or as
    /// `Memory`.
    pub fn claims<K: JsonWebKey<SigningAlgorithm = JS>>(
        self,
        _alloc: Global,
        verifier: &UserInfoVerifier<'_, JE, K>,
    ) -> Result<UserInfoClaims<AC, GC>, ClaimsVerificationError>
        ensures judged { let k = meanings K.JsonWebKey K.KeyUse.JsonWebKeyUse
            JS.JwsSigningAlgorithm.own JS.ClosedVocabulary JS.KeyType.ClosedVocabulary in
            Judges (first_info_failure k verifier.now self (parties_of self.payload)) result }
        ensures accepted { let k = meanings K.JsonWebKey K.KeyUse.JsonWebKeyUse
            JS.JwsSigningAlgorithm.own JS.ClosedVocabulary JS.KeyType.ClosedVocabulary in
            let accepts = AcceptsInfo k verifier.now self (parties_of self.payload)
            in IfOk result (λ claims. accepts) }
        ensures refused { let k = meanings K.JsonWebKey K.KeyUse.JsonWebKeyUse
            JS.JwsSigningAlgorithm.own JS.ClosedVocabulary JS.KeyType.ClosedVocabulary in
            AcceptsInfo k verifier.now self (parties_of self.payload)
            → IfErr result (λ error. error ≡ ClaimsVerificationError.Memory) }
        ensures claims { IfOk result (λ claims. claims ≡ self.payload) }
        ensures cause { let k = meanings K.JsonWebKey K.KeyUse.JsonWebKeyUse
            JS.JwsSigningAlgorithm.own JS.ClosedVocabulary JS.KeyType.ClosedVocabulary in
            IfErr result (InfoTokenCause k verifier.now self (parties_of self.payload)) }
    {
        let subject = self.token.unverified_payload().subject();
        match verifier.check(&self.token, subject) {
            Ok(()) => Ok(self.token.into_payload()),
            Err(refusal) => {
                drop(self);
                Err(refusal)
            }
        }
    }
}
