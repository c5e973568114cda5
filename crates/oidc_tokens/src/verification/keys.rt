// Which key checks a signature, and what it says (OpenID Connect Core 1.0 sections 3.1.3.7 and 10.1).

ghost use Rattle.std.specs.Prelude.{◌≡◌, ◌&&◌};
ghost use Rattle.std.specs.Option.{option_copied};
ghost use Rattle.std.specs.Str.{bytes_eq};
ghost use Rattle.oidc_keys.specs.Jwk.{GivesVerdict};
ghost use Rattle.oidc_tokens.specs.Signatures as spec;
ghost use Rattle.oidc_tokens.specs.Signatures.{behind, IsTheOneOf, meanings, signing_alg as signing_alg_of, key_for as key_that_is_for, verdict_on};

use crate::verification::IdTokenVerifier;
use oidc_jwt::{JsonWebToken, JsonWebTokenAlgorithm};
use oidc_keys::{JsonWebKey, JsonWebKeyUse, SignatureVerificationError};
use oidc_types::{ClosedVocabulary, JsonWebKeyId, JwsSigningAlgorithm};

// The algorithm that a token is signed by.
pub(crate) fn signing_alg<JE, JS>(
    alg: &JsonWebTokenAlgorithm<JE, JS>,
) -> Result<&JS, SignatureVerificationError>
    ensures { behind result ≡ signing_alg_of alg.now }
{
    match alg {
        JsonWebTokenAlgorithm::Signature(alg) => Ok(alg),
        JsonWebTokenAlgorithm::Encryption(_) => Err(SignatureVerificationError::UnsupportedAlg),
        JsonWebTokenAlgorithm::None => Err(SignatureVerificationError::NoSignature),
    }
}

fn is_same_word<W: ClosedVocabulary>(a: &W, b: &W) -> bool
    ensures { result ≡ bytes_eq (W.as_ref a.now) (W.as_ref b.now) }
{
    a.as_ref() == b.as_ref()
}

fn has_id<K: JsonWebKey>(key: &K, kid: Option<&JsonWebKeyId>) -> bool
    ensures { result ≡ spec.has_id (option_copied kid.entry) (K.key_id key.now) }
{
    match kid {
        None => true,
        Some(kid) => match key.key_id() {
            None => false,
            Some(id) => id.as_str() == kid.as_str(),
        },
    }
}

fn may_verify<K: JsonWebKey>(key: &K) -> bool
    ensures { result ≡ spec.may_verify K.KeyUse.JsonWebKeyUse (K.key_use key.now) }
{
    match key.key_use() {
        None => true,
        Some(purpose) => purpose.allows_signature(),
    }
}

// Whether a key checks signatures by an algorithm that asks for keys of this type, and has the id that a
// header names.
fn fits<K: JsonWebKey>(
    key: &K,
    kind: Option<<K::SigningAlgorithm as JwsSigningAlgorithm>::KeyType>,
    kid: Option<&JsonWebKeyId>,
) -> bool
    ensures { result
        ≡ (spec.is_of_type K.SigningAlgorithm.KeyType.ClosedVocabulary kind (K.key_type key.now)
        && spec.may_verify K.KeyUse.JsonWebKeyUse (K.key_use key.now)
        && spec.has_id (option_copied kid.entry) (K.key_id key.now)) }
{
    match kind {
        None => false,
        Some(kind) => is_same_word(&key.key_type(), &kind) && may_verify(key) && has_id(key, kid),
    }
}

// The one key of a set that fits.
fn find<'a, K: JsonWebKey>(
    keys: &'a [K],
    alg: &K::SigningAlgorithm,
    kid: Option<&JsonWebKeyId>,
) -> Result<&'a K, SignatureVerificationError>
    ensures { let k = meanings K.JsonWebKey K.KeyUse.JsonWebKeyUse
        K.SigningAlgorithm.JwsSigningAlgorithm.own K.SigningAlgorithm.ClosedVocabulary
        K.SigningAlgorithm.KeyType.ClosedVocabulary in
        IsTheOneOf (spec.fits k alg.now (option_copied kid.entry)) keys.now (behind result) }
{
    let mut found: Option<&'a K> = None;
    for key in keys {
        if fits(key, alg.key_type(), kid) {
            if found.is_some() {
                return Err(SignatureVerificationError::AmbiguousKeyId);
            }
            found = Some(key);
        }
    }
    match found {
        Some(key) => Ok(key),
        None => Err(SignatureVerificationError::NoMatchingKey),
    }
}

impl<'a, K: JsonWebKey> IdTokenVerifier<'a, K> {
    // The key that checks signatures by an algorithm, for a header that names this id.
    pub(crate) fn key_for<'s>(
        &'s self,
        kid: Option<&JsonWebKeyId>,
        alg: &K::SigningAlgorithm,
    ) -> Result<&'s K, SignatureVerificationError>
        ensures { let k = meanings K.JsonWebKey K.KeyUse.JsonWebKeyUse
            K.SigningAlgorithm.JwsSigningAlgorithm.own K.SigningAlgorithm.ClosedVocabulary
            K.SigningAlgorithm.KeyType.ClosedVocabulary in
            behind result ≡ key_that_is_for k self.now (option_copied kid.entry) alg.now }
    {
        if alg.uses_shared_secret() {
            match &self.secret_key {
                Some(key) => Ok(key),
                None => Err(SignatureVerificationError::DisallowedAlg),
            }
        } else {
            find(self.keys.keys(), alg, kid)
        }
    }

    // Whether an algorithm is among those that are allowed.
    fn is_allowed(&self, alg: &K::SigningAlgorithm) -> bool
        ensures { let k = meanings K.JsonWebKey K.KeyUse.JsonWebKeyUse
            K.SigningAlgorithm.JwsSigningAlgorithm.own K.SigningAlgorithm.ClosedVocabulary
            K.SigningAlgorithm.KeyType.ClosedVocabulary in
            result ≡ spec.is_allowed k self.now alg.now }
    {
        match &self.allowed_algs {
            Some(algs) => algs.iter().any(|allowed| is_same_word(allowed, alg)),
            None => is_same_word(&K::SigningAlgorithm::rsa_sha_256(), alg),
        }
    }

    // What is said of a token's signature.
    #[tactic(auto, unfolding(crate::specs::Signatures::verdict_on))]
    pub(crate) fn check_signature<JE, P>(
        &self,
        token: &JsonWebToken<JE, K::SigningAlgorithm, P>,
    ) -> Result<(), SignatureVerificationError>
        ensures { let k = meanings K.JsonWebKey K.KeyUse.JsonWebKeyUse
            K.SigningAlgorithm.JwsSigningAlgorithm.own K.SigningAlgorithm.ClosedVocabulary
            K.SigningAlgorithm.KeyType.ClosedVocabulary in
            GivesVerdict (verdict_on k self.now token.now) result }
    {
        let alg = signing_alg(&token.header().alg)?;
        if !self.is_allowed(alg) {
            return Err(SignatureVerificationError::DisallowedAlg);
        }
        let key = self.key_for(token.header().kid.as_ref(), alg)?;
        key.verify_signature(alg, token.message().as_bytes(), token.signature())
    }
}
