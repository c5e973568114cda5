// What a client expects of a user info answer that is a token (OpenID Connect Core 1.0 sections 5.3.2 and
// 5.3.4).

ghost use Rattle.std.specs.Prelude.{◌≡◌, true};
ghost use Rattle.std.specs.Option.{option_copied};
ghost use Rattle.oidc_tokens.specs.Signatures.{meanings};
ghost use Rattle.oidc_tokens.specs.Verification.{Judges};
ghost use Rattle.oidc_tokens.specs.UserInfoVerification as spec;
ghost use Rattle.oidc_tokens.specs.UserInfoVerification.{first_info_failure, parties};

use crate::verification::claims::{AudiencesClaim, IssuerClaim};
use crate::verification::refusals::ClaimsVerificationError;
use crate::verification::{IdTokenVerifier, is_alone_in, is_supported};
use oidc_jwt::JsonWebToken;
use oidc_keys::{JsonWebKey, JsonWebKeySet};
use oidc_types::{Audience, ClientId, IssuerUrl, SubjectIdentifier};
use std::marker::{Model, PhantomData};

/// What a client expects of a user info answer that is a token: the issuer and itself as the audience,
/// each where that is asked; RS256 under a key of the issuer; and the subject, where one is expected. No
/// secret of the client is ever a key. It borrows all but the subject.
#[derive(Drop)]
pub struct UserInfoVerifier<'a, JE, K: JsonWebKey> {
    client_id: &'a ClientId,
    issuer: &'a IssuerUrl,
    keys: &'a JsonWebKeySet<K>,
    expected_subject: Option<SubjectIdentifier>,
    issuer_match: bool,
    audience_match: bool,
    encrypts: PhantomData<JE>,
}

impl<'a, JE, K: JsonWebKey> Model for UserInfoVerifier<'a, JE, K> {
    ghost use Rattle.oidc_tokens.specs.UserInfoVerification.{SeenUserInfoVerifier};

    ghost Value = { SeenUserInfoVerifier K };

    ghost view = { λ v. record {
      client_id = v.client_id.now;
      issuer = v.issuer.now;
      keys = v.keys.now;
      expected_subject = v.expected_subject;
      issuer_match = v.issuer_match;
      audience_match = v.audience_match;
    } };
}

/// Whether a subject is the expected one. It is, where none is expected.
pub fn is_expected_subject(
    expected: Option<&SubjectIdentifier>,
    subject: &SubjectIdentifier,
) -> bool
    ensures expected { let expected = option_copied expected.entry in
        result ≡ spec.is_expected_subject expected subject.now }
{
    match expected {
        None => true,
        Some(expected) => subject.as_str() == expected.as_str(),
    }
}

impl<'a, JE, K: JsonWebKey> UserInfoVerifier<'a, JE, K> {
    /// The verifier that asks for the issuer and for the client as the audience. It takes no memory.
    pub fn new(
        client_id: &'a ClientId,
        issuer: &'a IssuerUrl,
        keys: &'a JsonWebKeySet<K>,
        expected_subject: Option<SubjectIdentifier>,
    ) -> Self
        ensures { result ≡ record {
          client_id = client_id.now;
          issuer = issuer.now;
          keys = keys.now;
          expected_subject = expected_subject;
          issuer_match = true;
          audience_match = true;
        } }
    {
        UserInfoVerifier {
            client_id,
            issuer,
            keys,
            expected_subject,
            issuer_match: true,
            audience_match: true,
            encrypts: PhantomData,
        }
    }

    /// Whether the claims have to name the issuer.
    pub fn require_issuer_match(mut self, required: bool) -> Self
        ensures { result ≡ record self.entry { issuer_match = required } }
    {
        self.issuer_match = required;
        self
    }

    /// Whether the claims have to name the client, and nobody else, as their audience.
    pub fn require_audience_match(mut self, required: bool) -> Self
        ensures { result ≡ record self.entry { audience_match = required } }
    {
        self.audience_match = required;
        self
    }

    /// Whom the claims have to be about, where that is known.
    pub fn expected_subject(&self) -> Option<&SubjectIdentifier>
        ensures { option_copied result ≡ self.now.expected_subject }
    {
        self.expected_subject.as_ref()
    }

    /// The client that the claims are for.
    pub fn client_id(&self) -> &ClientId
        ensures { result.now ≡ self.now.client_id }
    {
        self.client_id
    }

    /// The issuer.
    pub fn issuer(&self) -> &IssuerUrl
        ensures { result.now ≡ self.now.issuer }
    {
        self.issuer
    }

    /// The issuer's keys.
    pub fn keys(&self) -> &JsonWebKeySet<K>
        ensures { result.now ≡ self.now.keys }
    {
        self.keys
    }

    /// Whether the claims have to name the issuer.
    pub fn issuer_match(&self) -> bool
        ensures { result ≡ self.now.issuer_match }
    {
        self.issuer_match
    }

    /// Whether the claims have to name the client, and nobody else, as their audience.
    pub fn audience_match(&self) -> bool
        ensures { result ≡ self.now.audience_match }
    {
        self.audience_match
    }

    // Whether the issuer is the expected one, or isn't asked for.
    fn passes_issuer(&self, issuer: Option<&IssuerUrl>) -> bool
        ensures { result ≡ spec.passes_issuer self.now (option_copied issuer.entry) }
    {
        !self.issuer_match
            || match issuer {
                None => false,
                Some(issuer) => issuer.as_str() == self.issuer.as_str(),
            }
    }

    // Whether the audience is the client alone, or isn't asked for.
    fn passes_audience(&self, audiences: Option<&[Audience]>) -> bool
        ensures { result ≡ spec.passes_audience self.now (option_copied audiences.entry) }
    {
        !self.audience_match
            || match audiences {
                None => false,
                Some(audiences) => is_alone_in(self.client_id, audiences),
            }
    }

    /// The checks of a token whose claims are about `subject`, in their order. It is refused for the first
    /// that fails, or as `Memory`.
    #[tactic(auto, unfolding(crate::specs::UserInfoVerification::first_info_failure))]
    pub fn check<P: AudiencesClaim + IssuerClaim>(
        &self,
        token: &JsonWebToken<JE, K::SigningAlgorithm, P>,
        subject: &SubjectIdentifier,
    ) -> Result<(), ClaimsVerificationError>
        ensures judged { let k = meanings K.JsonWebKey K.KeyUse.JsonWebKeyUse
            K.SigningAlgorithm.JwsSigningAlgorithm.own K.SigningAlgorithm.ClosedVocabulary
            K.SigningAlgorithm.KeyType.ClosedVocabulary in
            let said = token.now.payload in
            let named = parties (P.issuer said) (P.audiences said) subject.now in
            Judges (first_info_failure k self.now token.now named) result }
    {
        let claims = token.unverified_payload();
        if !is_supported(token.header()) {
            return Err(ClaimsVerificationError::Unsupported);
        }
        if !self.passes_issuer(claims.issuer()) {
            return Err(ClaimsVerificationError::InvalidIssuer);
        }
        if !self.passes_audience(claims.audiences()) {
            return Err(ClaimsVerificationError::InvalidAudience);
        }
        let keys = IdTokenVerifier::new_public_client(self.client_id, self.issuer, self.keys);
        keys.check_signature(token)?;
        if !is_expected_subject(self.expected_subject(), subject) {
            return Err(ClaimsVerificationError::InvalidSubject);
        }
        Ok(())
    }
}
