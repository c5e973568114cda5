//! The checks of a logout token (OpenID Connect Back-Channel Logout 1.0 section 2.6).

ghost use Rattle.std.specs.Prelude.{◌≡◌, List, ℕ, Some, Ok};
ghost use Rattle.std.specs.Option.{option_copied};
ghost use Rattle.std.specs.List.{list_any, list_all};
ghost use Rattle.std.specs.Str.{bytes_eq, str_eq_ignore_ascii_case};
ghost use Rattle.oidc_oauth2.specs.Replies.{Gives, ◌for◌, ◌or_as◌};
ghost use Rattle.oidc_tokens.specs.Verification as checks;
ghost use Rattle.oidc_session.specs.LogoutTokens as spec;
ghost use Rattle.oidc_session.specs.LogoutTokens.{logout_errors, logout_keys, logout_verifier, checked_claims, checked_logout, accepted_logout, logout_token_of, signature_fault};
ghost use Rattle.oidc_session.specs.declared.errors.LogoutError.TheVariants as refusal;

use crate::errors::LogoutError;
use crate::logout_claims::{Logout, LogoutClaims};
use crate::token_ids::TokenIds;
use jiff::Timestamp;
use oidc_keys::{JsonWebKey, SignatureVerificationError};
use oidc_members::{FieldName, ParseError};
use oidc_tokens::{JsonWebToken, JsonWebTokenAlgorithm, TokenHeader};
use oidc_types::{
    Audience, ClientId, ClosedVocabulary, CoreJweContentEncryptionAlgorithm, IssuerUrl,
};
use std::alloc::Global;

/// What is expected of a logout token: the client as its audience, the issuer, and the key and the algorithm of its
/// signature. Key and algorithm go together, and it is the key that sees to it: no type of key is looked at here. A
/// `CoreJsonWebKey` answers `InvalidKey` to an algorithm of another type of key, so that no token is accepted; a key type
/// of the site's own has to do so too.
#[derive(Drop)]
pub struct LogoutVerifier<'v, K: JsonWebKey> {
    /// The client that the token has to be for, and for it alone.
    pub client_id: &'v ClientId,
    /// The issuer, whose text is compared byte for byte.
    pub issuer: &'v IssuerUrl,
    /// The key that checks signatures.
    pub key: &'v K,
    /// The one algorithm.
    pub alg: &'v K::SigningAlgorithm,
}

// A logout token that was read.
type LogoutToken<JS> = JsonWebToken<CoreJweContentEncryptionAlgorithm, JS, LogoutClaims>;

// ---- the checks

// The media types of logout tokens, with and without the prefix that may be left out (RFC 7515 section 4.1.9).
const LOGOUT_TYPES: [&str; 4] = [
    "logout+jwt",
    "jwt",
    "application/logout+jwt",
    "application/jwt",
];

fn is_same_type(typ: &str, known: &str) -> bool
    ensures { result ≡ str_eq_ignore_ascii_case typ.now known.now }
{
    typ.eq_ignore_ascii_case(known)
}

fn is_among(typ: &str, known: &[&str]) -> bool
    ensures { result ≡ list_any (λ name. str_eq_ignore_ascii_case typ.now name.now) known.now }
{
    known.iter().any(|name| is_same_type(typ, name))
}

fn is_media_type_of_logout(typ: &str) -> bool
    ensures { result ≡ spec.is_logout_type (Some typ.now) }
{
    is_among(typ, &LOGOUT_TYPES)
}

// Whether a `typ`, where there is one, is that of a logout token or of any token.
fn is_logout_type(typ: Option<&FieldName>) -> bool
    ensures { result ≡ spec.is_logout_type (option_copied typ.entry) }
{
    match typ {
        None => true,
        Some(typ) => is_media_type_of_logout(typ.as_str()),
    }
}

fn is_known_header<JE, JS>(header: &TokenHeader<JE, JS>) -> bool
    ensures { result ≡ spec.is_known_header header.now }
{
    !header.crit && header.cty.is_none() && is_logout_type(header.typ.as_ref())
}

fn is_in(id: &ClientId, audiences: &[Audience]) -> bool
    ensures { result ≡ list_any (λ a. bytes_eq a id.now) audiences.now }
{
    audiences.iter().any(|a| a.as_str() == id.as_str())
}

fn has_no_other(id: &ClientId, audiences: &[Audience]) -> bool
    ensures { result ≡ list_all (λ a. bytes_eq a id.now) audiences.now }
{
    audiences.iter().all(|a| a.as_str() == id.as_str())
}

// Whether the client is in the audience, and nobody else.
fn is_alone_in(id: &ClientId, audiences: &[Audience]) -> bool
    ensures { result ≡ checks.is_alone_in id.now audiences.now }
{
    is_in(id, audiences) && has_no_other(id, audiences)
}

// Whether an algorithm signs, and is this one.
fn is_signed_by<JE, JS: ClosedVocabulary>(own: &JS, alg: &JsonWebTokenAlgorithm<JE, JS>) -> bool
    ensures { result ≡ spec.is_signed_by JS.ClosedVocabulary own.now alg.now }
{
    match alg {
        JsonWebTokenAlgorithm::Signature(alg) => alg.as_ref() == own.as_ref(),
        JsonWebTokenAlgorithm::Encryption(_) | JsonWebTokenAlgorithm::None => false,
    }
}

// The logout token that a text is.
fn token_in<JS: ClosedVocabulary>(alloc: Global, text: &str) -> Result<LogoutToken<JS>, LogoutError>
    ensures { Gives logout_errors result
        (logout_token_of JS.ClosedVocabulary text.now or_as refusal.Parse) }
{
    match LogoutToken::<JS>::read(alloc, text) {
        Ok(token) => Ok(token),
        Err(ParseError::Refused(refusal)) => Err(LogoutError::Parse(refusal)),
        Err(ParseError::Memory) => Err(LogoutError::Memory),
    }
}

impl<'v, K: JsonWebKey> LogoutVerifier<'v, K> {
    // What the key says of a token's signature.
    fn signature_of(&self, token: &LogoutToken<K::SigningAlgorithm>) -> Result<(), LogoutError>
        ensures { let keys = logout_keys K.SigningAlgorithm.ClosedVocabulary K.verdict in
            let v = logout_verifier self.now.client_id.now self.now.issuer.now
            self.now.key.now self.now.alg.now in
            Gives logout_errors result (refusal.Signature for signature_fault keys v token.now) }
    {
        match self
            .key
            .verify_signature(self.alg, token.message().as_bytes(), token.signature())
        {
            Ok(()) => Ok(()),
            Err(SignatureVerificationError::Memory) => Err(LogoutError::Memory),
            Err(fault) => Err(LogoutError::Signature(fault)),
        }
    }

    // The checks of a token, in their order.
    #[tactic(auto, unfolding(crate::specs::LogoutTokens::checked_logout))]
    fn check(
        &self,
        token: &LogoutToken<K::SigningAlgorithm>,
        token_ids: &TokenIds,
        now: Timestamp,
    ) -> Result<(), LogoutError>
        ensures { let keys = logout_keys K.SigningAlgorithm.ClosedVocabulary K.verdict in
            let v = logout_verifier self.now.client_id.now self.now.issuer.now
            self.now.key.now self.now.alg.now in
            Gives logout_errors result
            (checked_logout keys v token_ids.now now.nanosecond token.now) }
    {
        let claims = token.unverified_payload();
        if !is_known_header(token.header()) {
            return Err(LogoutError::Unsupported);
        }
        if claims.issuer().as_str() != self.issuer.as_str() {
            return Err(LogoutError::InvalidIssuer);
        }
        if !is_alone_in(self.client_id, claims.audiences()) {
            return Err(LogoutError::InvalidAudience);
        }
        if !is_signed_by(self.alg, &token.header().alg) {
            return Err(LogoutError::WrongAlgorithm);
        }
        match self.signature_of(token) {
            Ok(()) => check_claims(claims, token_ids, now),
            Err(refusal) => Err(refusal),
        }
    }

    // The logout that a text is, where tokens of these ids were accepted.
    #[tactic(auto, unfolding(crate::specs::LogoutTokens::accepted_logout))]
    pub(crate) fn accept(
        &self,
        alloc: Global,
        text: &str,
        token_ids: &TokenIds,
        now: Timestamp,
    ) -> Result<Logout, LogoutError>
        ensures { let keys = logout_keys K.SigningAlgorithm.ClosedVocabulary K.verdict in
            let v = logout_verifier self.now.client_id.now self.now.issuer.now
            self.now.key.now self.now.alg.now in
            Gives logout_errors result
            (accepted_logout keys v token_ids.now now.nanosecond text.now) }
    {
        match token_in(alloc, text) {
            Ok(token) => match self.check(&token, token_ids, now) {
                Ok(()) => Ok(token.into_payload().into_logout()),
                Err(refusal) => {
                    drop(token);
                    Err(refusal)
                }
            },
            Err(refusal) => Err(refusal),
        }
    }
}

// The checks of a verified token's claims, in their order.
fn check_claims(
    claims: &LogoutClaims,
    token_ids: &TokenIds,
    now: Timestamp,
) -> Result<(), LogoutError>
    ensures { Gives logout_errors result
        (checked_claims token_ids.now now.nanosecond claims.now) }
{
    if now >= claims.expiration() {
        return Err(LogoutError::Expired);
    }
    if !claims.names_logout() {
        return Err(LogoutError::Events);
    }
    if !claims.names_somebody() {
        return Err(LogoutError::NoName);
    }
    if claims.has_nonce() {
        return Err(LogoutError::Nonce);
    }
    if token_ids.contains(claims.token_id().as_str()) {
        return Err(LogoutError::Replayed);
    }
    Ok(())
}
