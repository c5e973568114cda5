//! Hashes of access tokens and codes (OpenID Connect Core 1.0 sections 3.1.3.6 and 3.3.2.11).

ghost use Rattle.std.specs.Prelude.{◌≡◌, List, ℕ, Ok, Err, IfOk, IfErr};
ghost use Rattle.std.specs.String.{string_bytes};
ghost use Rattle.oidc_types.specs.declared.signing_error.SigningError.TheVariants.{UnsupportedAlg};
ghost use Rattle.oidc_jwt.specs.Issuing.{encoded};
ghost use Rattle.oidc_tokens.specs.Hashes.{GivesHash, hashing, hash_or_refusal, left_half};

use base64::engine::general_purpose::URL_SAFE_NO_PAD;
use oidc_keys::{HashError, JsonWebKey};
use oidc_members::FieldName;
use oidc_types::{
    AccessToken, AccessTokenHash, AuthorizationCode, AuthorizationCodeHash, ClosedVocabulary,
    SigningError,
};
use std::alloc::{AllocError, Global};

/// The hash of an access token, as an ID token signed by `alg` holds it in `at_hash` (OpenID Connect
/// Core 1.0 section 3.1.3.6): the base64url text of the first half of the token's digest by the hash
/// function that goes with `alg`. It is refused as `UnsupportedAlg`, with the algorithm's text, exactly
/// where `key` has no hash for it.
pub fn from_token<K: JsonWebKey>(
    alloc: Global,
    token: &AccessToken,
    alg: &K::SigningAlgorithm,
    key: &K,
) -> Result<AccessTokenHash, SigningError>
    ensures hash { let by = hashing (K.SigningAlgorithm.as_ref alg.now) (K.hash_of key.now alg.now)
        in GivesHash (hash_or_refusal by token.now) result }
{
    match hash_of(alloc, token.secret(), alg, key) {
        Ok(hash) => Ok(AccessTokenHash::new(hash)),
        Err(refusal) => Err(refusal),
    }
}

/// The hash of a code, as an ID token signed by `alg` holds it in `c_hash` (OpenID Connect Core 1.0
/// section 3.3.2.11), made as [`from_token`] makes that of a token.
pub fn from_code<K: JsonWebKey>(
    alloc: Global,
    code: &AuthorizationCode,
    alg: &K::SigningAlgorithm,
    key: &K,
) -> Result<AuthorizationCodeHash, SigningError>
    ensures hash { let by = hashing (K.SigningAlgorithm.as_ref alg.now) (K.hash_of key.now alg.now)
        in GivesHash (hash_or_refusal by code.now) result }
{
    match hash_of(alloc, code.secret(), alg, key) {
        Ok(hash) => Ok(AuthorizationCodeHash::new(hash)),
        Err(refusal) => Err(refusal),
    }
}

// The refusal of an algorithm that has no hash.
fn unsupported<A: ClosedVocabulary>(alloc: Global, alg: &A) -> SigningError
    ensures { GivesHash {T = List ℕ} (Err (UnsupportedAlg (A.as_ref alg.now))) (Err result) }
{
    match String::from_str(alloc, alg.as_ref()) {
        Ok(text) => SigningError::UnsupportedAlg(FieldName::new(text)),
        Err(_) => SigningError::Memory,
    }
}

fn half_encoded(alloc: Global, digest: &[u8]) -> Result<String, AllocError>
    ensures { IfOk result (λ text. string_bytes text ≡ encoded (left_half digest.now)) }
{
    URL_SAFE_NO_PAD.encode(alloc, &digest[..digest.len() / 2])
}

fn hash_of<K: JsonWebKey>(
    alloc: Global,
    text: &str,
    alg: &K::SigningAlgorithm,
    key: &K,
) -> Result<String, SigningError>
    ensures ok { let by = hashing (K.SigningAlgorithm.as_ref alg.now) (K.hash_of key.now alg.now)
        in IfOk result (λ hash. hash_or_refusal by text.now ≡ Ok (string_bytes hash)) }
    ensures refused { let by = hashing (K.SigningAlgorithm.as_ref alg.now)
        (K.hash_of key.now alg.now) in
        IfErr result (λ refusal. GivesHash (hash_or_refusal by text.now) (Err refusal)) }
{
    match key.hash_bytes(alloc, text.as_bytes(), alg) {
        Ok(digest) => match half_encoded(alloc, digest.as_slice()) {
            Ok(hash) => Ok(hash),
            Err(_) => Err(SigningError::Memory),
        },
        Err(HashError::Unsupported) => Err(unsupported(alloc, alg)),
        Err(HashError::Memory) => Err(SigningError::Memory),
    }
}
