//! What a user info answer is worth (OpenID Connect Core 1.0 sections 5.3.2 to 5.3.4).

ghost use Rattle.std.specs.Prelude.{◌≡◌};
ghost use Rattle.std.specs.Option.{option_copied};
ghost use Rattle.oidc_members.specs.Answers.{Answers};
ghost use Rattle.oidc_oauth2.specs.HttpUtils.{may_be as may_be_of};
ghost use Rattle.oidc_oauth2.specs.Messages.{seen_response};
ghost use Rattle.oidc_oauth2.specs.Replies.{Gives};
ghost use Rattle.oidc_tokens.specs.Signatures.{meanings};
ghost use Rattle.oidc_user_info.specs.InfoAnswers as spec;
ghost use Rattle.oidc_user_info.specs.InfoAnswers.{readers};
ghost use Rattle.oidc_user_info.specs.InfoErrors.{info_errors};

use crate::claims::UserInfoClaims;
use crate::errors::{InfoOther, ResponseCause, UserInfoError};
use crate::requests::UserInfoRequest;
use crate::token::UserInfoJsonWebToken;
use oidc_claims::{AdditionalClaims, GenderClaim};
use oidc_keys::{JsonWebKey, SignatureVerificationError};
use oidc_members::{Members, ParseError, Reading};
use oidc_oauth2::{HttpResponse, MAX_BODY, MIME_TYPE_JSON, MIME_TYPE_JWT, check_content_type};
use oidc_tokens::{ClaimsVerificationError, Payload, UserInfoVerifier, is_expected_subject};
use oidc_types::{Body, JweContentEncryptionAlgorithm, SubjectIdentifier};
use std::alloc::Global;

// The claims that an object's text holds, under a reading.
fn claims_in<AC: AdditionalClaims, GC: GenderClaim>(
    alloc: Global,
    json: &[u8],
    reading: Reading,
) -> Result<UserInfoClaims<AC, GC>, ParseError>
    ensures { Answers (spec.claims_in AC.read_of GC.read_of reading json.now) result }
{
    let members = Members::split(alloc, json)?.with_reading(reading);
    UserInfoClaims::read(alloc, &members)
}

impl<AC: AdditionalClaims, GC: GenderClaim> UserInfoClaims<AC, GC> {
    /// The claims that an object's text holds, read strictly, about the expected subject, where one
    /// is expected. It is refused as `Parse`, then as `InvalidSubject`, or as `Memory`.
    pub fn from_json<RE>(
        alloc: Global,
        json: &[u8],
        expected_subject: Option<&SubjectIdentifier>,
    ) -> Result<Self, UserInfoError<RE>>
        ensures answer { let expected = option_copied expected_subject.entry in
            let read = spec.from_json AC.read_of GC.read_of Reading.STRICT in
            Gives info_errors result (read expected json.now) }
    {
        UserInfoClaims::from_json_with(alloc, json, expected_subject, Reading::STRICT)
    }

    /// The claims that an object's text holds, read under this reading, about the expected subject,
    /// where one is expected. It is refused as by [`UserInfoClaims::from_json`].
    #[tactic(auto, unfolding(crate::specs::InfoAnswers::from_json))]
    pub fn from_json_with<RE>(
        alloc: Global,
        json: &[u8],
        expected_subject: Option<&SubjectIdentifier>,
        reading: Reading,
    ) -> Result<Self, UserInfoError<RE>>
        ensures answer { let expected = option_copied expected_subject.entry in
            let read = spec.from_json AC.read_of GC.read_of reading in
            Gives info_errors result (read expected json.now) }
    {
        match claims_in::<AC, GC>(alloc, json, reading) {
            Err(ParseError::Refused(refusal)) => Err(UserInfoError::Parse(refusal)),
            Err(ParseError::Memory) => Err(UserInfoError::Memory),
            Ok(claims) => {
                if is_expected_subject(expected_subject, claims.subject()) {
                    Ok(claims)
                } else {
                    drop(claims);
                    let refusal = ClaimsVerificationError::InvalidSubject;
                    Err(UserInfoError::ClaimsVerification(refusal))
                }
            }
        }
    }
}

// The claims of a token that is accepted.
fn accepted_claims<AC, GC, JE, K, RE>(
    alloc: Global,
    token: UserInfoJsonWebToken<AC, GC, JE, K::SigningAlgorithm>,
    verifier: &UserInfoVerifier<'_, JE, K>,
) -> Result<UserInfoClaims<AC, GC>, UserInfoError<RE>>
where
    AC: AdditionalClaims,
    GC: GenderClaim,
    JE: JweContentEncryptionAlgorithm,
    K: JsonWebKey,
    ensures { let k = meanings K.JsonWebKey K.KeyUse.JsonWebKeyUse
        K.SigningAlgorithm.JwsSigningAlgorithm.own K.SigningAlgorithm.ClosedVocabulary
        K.SigningAlgorithm.KeyType.ClosedVocabulary in
        let r = readers AC.read_of GC.read_of JE.from_str K.SigningAlgorithm.from_str k in
        Gives info_errors result (spec.accepted_claims r verifier.now token) }
{
    match token.claims(alloc, verifier) {
        Ok(claims) => Ok(claims),
        Err(ClaimsVerificationError::Memory) => Err(UserInfoError::Memory),
        Err(refusal) => Err(UserInfoError::ClaimsVerification(refusal)),
    }
}

// What a token's text is worth.
fn of_text<AC, GC, JE, K, RE>(
    alloc: Global,
    verifier: &UserInfoVerifier<'_, JE, K>,
    text: &str,
    reading: Reading,
) -> Result<UserInfoClaims<AC, GC>, UserInfoError<RE>>
where
    AC: AdditionalClaims,
    GC: GenderClaim,
    JE: JweContentEncryptionAlgorithm,
    K: JsonWebKey,
    ensures { let k = meanings K.JsonWebKey K.KeyUse.JsonWebKeyUse
        K.SigningAlgorithm.JwsSigningAlgorithm.own K.SigningAlgorithm.ClosedVocabulary
        K.SigningAlgorithm.KeyType.ClosedVocabulary in
        let r = readers AC.read_of GC.read_of JE.from_str K.SigningAlgorithm.from_str k in
        Gives info_errors result (spec.of_text r reading verifier.now text.now) }
{
    match UserInfoJsonWebToken::<AC, GC, JE, K::SigningAlgorithm>::read_with(alloc, text, reading) {
        Err(ParseError::Refused(refusal)) => Err(UserInfoError::Parse(refusal)),
        Err(ParseError::Memory) => Err(UserInfoError::Memory),
        Ok(token) => accepted_claims(alloc, token, verifier),
    }
}

// What an answer that is a token is worth.
fn of_token<AC, GC, JE, K, RE>(
    alloc: Global,
    verifier: &UserInfoVerifier<'_, JE, K>,
    body: &Body,
    reading: Reading,
) -> Result<UserInfoClaims<AC, GC>, UserInfoError<RE>>
where
    AC: AdditionalClaims,
    GC: GenderClaim,
    JE: JweContentEncryptionAlgorithm,
    K: JsonWebKey,
    ensures { let k = meanings K.JsonWebKey K.KeyUse.JsonWebKeyUse
        K.SigningAlgorithm.JwsSigningAlgorithm.own K.SigningAlgorithm.ClosedVocabulary
        K.SigningAlgorithm.KeyType.ClosedVocabulary in
        let r = readers AC.read_of GC.read_of JE.from_str K.SigningAlgorithm.from_str k in
        Gives info_errors result (spec.of_token r reading verifier.now body.now) }
{
    match str::from_utf8(body.as_slice()) {
        Err(_) => Err(UserInfoError::Other(InfoOther::Utf8)),
        Ok(text) => of_text(alloc, verifier, text, reading),
    }
}

// Whether a response has no media type, or this one.
fn may_be(response: &HttpResponse, media_type: &str) -> bool
    ensures { result ≡ may_be_of (seen_response response.now).content_type media_type.now }
{
    check_content_type(response.headers(), media_type).is_ok()
}

impl<'a, JE: JweContentEncryptionAlgorithm, K: JsonWebKey> UserInfoRequest<'a, JE, K> {
    // What an answer that is an object is worth.
    #[tactic(auto, unfolding(crate::specs::InfoAnswers::of_object))]
    fn of_object<AC: AdditionalClaims, GC: GenderClaim, RE>(
        &self,
        alloc: Global,
        body: &Body,
    ) -> Result<UserInfoClaims<AC, GC>, UserInfoError<RE>>
        ensures { Gives info_errors result (spec.of_object AC.read_of GC.read_of self.now.demand body.now) }
    {
        if self.is_signature_required() {
            let refusal = SignatureVerificationError::NoSignature;
            return Err(UserInfoError::ClaimsVerification(
                ClaimsVerificationError::SignatureVerification(refusal),
            ));
        }
        UserInfoClaims::from_json_with(
            alloc,
            body.as_slice(),
            self.verifier().expected_subject(),
            self.reading(),
        )
    }

    #[tactic(auto, unfolding(crate::specs::InfoAnswers::by_media_type, // in the order of the rows
    crate::specs::InfoAnswers::info_answer))]
    /// What a response to this request is worth: the claims that it holds, read under the request's reading, or the
    /// first of these that holds.
    /// `TooLong`: the body has more than 1,048,576 bytes. `Response` with `Status`: the status isn't 200.
    ///
    /// Where the media type is that of JSON, or absent: `NoSignature`, where a signature is asked for;
    /// `Parse`; `InvalidSubject`. Where it is that of a JSON Web Token: `Utf8`; `Parse`; the first check of
    /// the token that fails. Where it is another one: `Response` with `MediaType`.
    pub fn answer<AC: AdditionalClaims, GC: GenderClaim, RE>(
        &self,
        alloc: Global,
        response: HttpResponse,
    ) -> Result<UserInfoClaims<AC, GC>, UserInfoError<RE>>
        ensures answer { let k = meanings K.JsonWebKey K.KeyUse.JsonWebKeyUse
            K.SigningAlgorithm.JwsSigningAlgorithm.own K.SigningAlgorithm.ClosedVocabulary
            K.SigningAlgorithm.KeyType.ClosedVocabulary in
            let r = readers AC.read_of GC.read_of JE.from_str K.SigningAlgorithm.from_str k in
            Gives info_errors result (spec.info_answer r self.now.demand (seen_response response)) }
    {
        let status = response.status();
        let is_json = may_be(&response, MIME_TYPE_JSON);
        let is_token = may_be(&response, MIME_TYPE_JWT);
        let body = response.into_body();
        if body.as_slice().len() > MAX_BODY {
            return Err(UserInfoError::TooLong(body));
        }
        if status.as_u16() != 200 {
            return Err(UserInfoError::Response(status, body, ResponseCause::Status));
        }
        if is_json {
            return self.of_object(alloc, &body);
        }
        if is_token {
            return of_token(alloc, self.verifier(), &body, self.reading());
        }
        Err(UserInfoError::Response(status, body, ResponseCause::MediaType))
    }
}
