//! The checks of an ID token, and of a user info answer that is a token (OpenID Connect Core 1.0 sections 2,
//! 3.1.3.7, 5.3.2, 5.3.4 and 10.1).

ghost use Rattle.std.specs.Prelude.{◌≡◌, None, Some, IfOk};
ghost use Rattle.std.specs.Option.{option_copied};
ghost use Rattle.std.specs.List.{list_any, list_all};
ghost use Rattle.std.specs.Str.{bytes_eq, str_eq_ignore_ascii_case};
ghost use Rattle.oidc_tokens.specs.Verification as spec;
ghost use Rattle.oidc_tokens.specs.Verification.{Judges, first_failure};
ghost use Rattle.oidc_tokens.specs.Signatures.{meanings};

mod claims;
mod keys;
mod refusals;
mod user_info;

pub use crate::verification::claims::{AudiencesClaim, IssuerClaim, NonceVerifier};
pub(crate) use crate::verification::keys::signing_alg;
pub use crate::verification::refusals::ClaimsVerificationError;
pub use crate::verification::user_info::{UserInfoVerifier, is_expected_subject};
use jiff::Timestamp;
use oidc_claims::{AdditionalClaims, GenderClaim};
use oidc_id_token_claims::IdTokenClaims;
use oidc_jwt::{JsonWebToken, JsonWebTokenAlgorithm, TokenHeader};
use oidc_keys::{JsonWebKey, JsonWebKeySet};
use oidc_members::FieldName;
use oidc_types::{Audience, ClientId, ClientSecret, IssuerUrl};
use std::alloc::{AllocError, Global};
use std::marker::Model;

/// What a client expects of an ID token: itself in the audience, the issuer, and whose signatures it
/// takes. It borrows all but the key of the client's secret, which is made once, when the verifier is.
#[derive(Drop)]
pub struct IdTokenVerifier<'a, K: JsonWebKey> {
    client_id: &'a ClientId,
    issuer: &'a IssuerUrl,
    secret_key: Option<K>,
    keys: &'a JsonWebKeySet<K>,
    allowed_algs: Option<Vec<K::SigningAlgorithm>>,
}

impl<'a, K: JsonWebKey> Model for IdTokenVerifier<'a, K> {
    ghost use Rattle.std.specs.Prelude.{option_map};
    ghost use Rattle.oidc_tokens.specs.Signatures.{SeenVerifier};

    ghost Value = { SeenVerifier K K.SigningAlgorithm };

    ghost view = { λ v. record {
      client_id = v.client_id.now;
      issuer = v.issuer.now;
      secret_key = v.secret_key;
      keys = v.keys.now;
      allowed = option_map (λ algs. algs.items) v.allowed_algs;
    } };
}

impl<'a, K: JsonWebKey> IdTokenVerifier<'a, K> {
    /// The verifier of a client without a secret. It allows RS256 alone. It takes no memory.
    pub fn new_public_client(
        client_id: &'a ClientId,
        issuer: &'a IssuerUrl,
        keys: &'a JsonWebKeySet<K>,
    ) -> Self
        ensures { result ≡ record {
          client_id = client_id.now;
          issuer = issuer.now;
          secret_key = None;
          keys = keys.now;
          allowed = None;
        } }
    {
        IdTokenVerifier {
            client_id,
            issuer,
            secret_key: None,
            keys,
            allowed_algs: None,
        }
    }

    /// The verifier of a client with a secret, whose bytes are the key of shared-secret
    /// algorithms. It allows RS256 alone. `AllocError` is want of memory, the one error.
    pub fn new_confidential_client(
        alloc: Global,
        client_id: &'a ClientId,
        secret: &ClientSecret,
        issuer: &'a IssuerUrl,
        keys: &'a JsonWebKeySet<K>,
    ) -> Result<Self, AllocError>
        ensures { IfOk result (λ verifier. verifier ≡ record {
          client_id = client_id.now;
          issuer = issuer.now;
          secret_key = Some (K.symmetric_of secret.now);
          keys = keys.now;
          allowed = None;
        }) }
    {
        let secret = Vec::from_slice(alloc, secret.secret().as_bytes())?;
        Ok(IdTokenVerifier {
            client_id,
            issuer,
            secret_key: Some(K::new_symmetric(secret)),
            keys,
            allowed_algs: None,
        })
    }

    /// Allows these algorithms alone.
    pub fn set_allowed_algs(mut self, algs: Vec<K::SigningAlgorithm>) -> Self
        ensures { result ≡ record self.entry { allowed = Some algs.items } }
    {
        self.allowed_algs = Some(algs);
        self
    }
}

// ---- the checks

// Whether a `typ`, where there is one, is that of a token.
fn is_token_type(typ: Option<&FieldName>) -> bool
    ensures { result ≡ spec.is_token_type (option_copied typ.entry) }
{
    match typ {
        None => true,
        Some(typ) => is_media_type_of_token(typ.as_str()),
    }
}

// The media types of tokens, with and without the prefix that may be left out (RFC 7515 section 4.1.9).
const TOKEN_TYPES: [&str; 6] = [
    "jwt",
    "jose",
    "jose+json",
    "application/jwt",
    "application/jose",
    "application/jose+json",
];

fn is_same_type(typ: &str, known: &str) -> bool
    ensures { result ≡ str_eq_ignore_ascii_case typ.now known.now }
{
    typ.eq_ignore_ascii_case(known)
}

fn is_among(typ: &str, known: &[&str]) -> bool
    ensures { result ≡ list_any (λ name. str_eq_ignore_ascii_case typ.now name.now) known.now }
{
    known.iter().any(|name| is_same_type(typ, name))
}

fn is_media_type_of_token(typ: &str) -> bool
    ensures { result ≡ spec.is_token_type (Some typ.now) }
{
    is_among(typ, &TOKEN_TYPES)
}

fn is_encrypted<JE, JS>(alg: &JsonWebTokenAlgorithm<JE, JS>) -> bool
    ensures { result ≡ spec.is_encrypted alg.now }
{
    match alg {
        JsonWebTokenAlgorithm::Encryption(_) => true,
        JsonWebTokenAlgorithm::Signature(_) | JsonWebTokenAlgorithm::None => false,
    }
}

fn is_supported<JE, JS>(header: &TokenHeader<JE, JS>) -> bool
    ensures { result ≡ spec.is_supported header.now }
{
    !header.crit
        && header.cty.is_none()
        && is_token_type(header.typ.as_ref())
        && !is_encrypted(&header.alg)
}

fn is_in(id: &ClientId, audiences: &[Audience]) -> bool
    ensures { result ≡ list_any (λ a. bytes_eq a id.now) audiences.now }
{
    audiences.iter().any(|a| a.as_str() == id.as_str())
}

fn has_no_other(id: &ClientId, audiences: &[Audience]) -> bool
    ensures { result ≡ list_all (λ a. bytes_eq a id.now) audiences.now }
{
    audiences.iter().all(|a| a.as_str() == id.as_str())
}

// Whether the client is in the audience, and nobody else.
fn is_alone_in(id: &ClientId, audiences: &[Audience]) -> bool
    ensures { result ≡ spec.is_alone_in id.now audiences.now }
{
    is_in(id, audiences) && has_no_other(id, audiences)
}

impl<'a, K: JsonWebKey> IdTokenVerifier<'a, K> {
    // The checks of a token, in their order.
    #[tactic(auto, unfolding(crate::specs::Verification::first_failure))]
    pub(crate) fn check<JE, AC: AdditionalClaims, GC: GenderClaim, N: NonceVerifier>(
        &self,
        token: &JsonWebToken<JE, K::SigningAlgorithm, IdTokenClaims<AC, GC>>,
        nonce: &N,
        now: Timestamp,
    ) -> Result<(), ClaimsVerificationError>
        ensures { let k = meanings K.JsonWebKey K.KeyUse.JsonWebKeyUse
            K.SigningAlgorithm.JwsSigningAlgorithm.own K.SigningAlgorithm.ClosedVocabulary
            K.SigningAlgorithm.KeyType.ClosedVocabulary in
            Judges (first_failure k self.now (N.allows nonce.now) now.nanosecond token.now) result }
    {
        let claims = token.unverified_payload();
        if !is_supported(token.header()) {
            return Err(ClaimsVerificationError::Unsupported);
        }
        if claims.issuer().as_str() != self.issuer.as_str() {
            return Err(ClaimsVerificationError::InvalidIssuer);
        }
        if !is_alone_in(self.client_id, claims.audiences()) {
            return Err(ClaimsVerificationError::InvalidAudience);
        }
        self.check_signature(token)?;
        if now >= claims.expiration() {
            return Err(ClaimsVerificationError::Expired);
        }
        if !nonce.verify(claims.nonce()) {
            return Err(ClaimsVerificationError::InvalidNonce);
        }
        Ok(())
    }
}
