// ID tokens that are issued (OpenID Connect Core 1.0 sections 2, 3.1.3.6 and 3.3.2.11).

ghost use Rattle.std.specs.Prelude.{◌≡◌, ℕ, ℤ, List, Bool, Option, Ok, IfOk, IfErr, false};
ghost use Rattle.std.specs.Option.{option_copied};
ghost use Rattle.oidc_members.specs.Write.{any_float};
ghost use Rattle.oidc_jwt.specs.Tokens.{token_of};
ghost use Rattle.oidc_tokens.specs.Steps.{and_then};
ghost use Rattle.oidc_jwt.specs.Header.{written_header};
ghost use Rattle.oidc_jwt.specs.Issuing.{Issues, IsNamed, IsHeadedBy};
ghost use Rattle.oidc_jwt.specs.Issuing.{issued, signed_with, compact};
ghost use Rattle.oidc_members.specs.declared.reading.Reading.{Reading};
ghost use Rattle.oidc_id_token_claims.specs.IdTokenClaims.{id_token_claims_of, id_token_members};
ghost use Rattle.oidc_tokens.specs.Hashes as spec;
ghost use Rattle.oidc_tokens.specs.Hashes.{GivesHash, hashing};
ghost use Rattle.oidc_tokens.specs.Verification.{Accepts};
ghost use Rattle.oidc_tokens.specs.Signatures.{SeenVerifier, meanings};
ghost use Rattle.oidc_id_token_claims.specs.RoundTrip.{IsTokenInRange};
ghost use Rattle.oidc_tokens.specs.Issuing.{IsUnissued, Expects};

use crate::hashes::{from_code, from_token};
use crate::id_token::{IdToken, IdTokenClaims};
use oidc_claims::{AdditionalClaims, GenderClaim};
use oidc_jwt::{JsonWebToken, JsonWebTokenError};
use oidc_keys::{JsonWebKey, PrivateSigningKey};
use oidc_types::{
    AccessToken, AuthorizationCode, JweContentEncryptionAlgorithm, JwsSigningAlgorithm,
    SigningError,
};
use std::alloc::Global;

impl<
    AC: AdditionalClaims,
    GC: GenderClaim,
    JE: JweContentEncryptionAlgorithm,
    JS: JwsSigningAlgorithm,
> IdToken<AC, GC, JE, JS> {
    /// Issues an ID token for these claims, signed by `key`. The hashes of the access token and of the
    /// code are those of what is given here; where nothing is given, the claims' own stay.
    ///
    /// Where the additional claims hold no float, the whole token or refusal is the one that the
    /// definitions say. Whatever they hold, it is refused as `UnsupportedAlg` where a hash is
    /// wanted that doesn't exist under the verification key, else as the signer refuses a message
    /// with the token's header, or as `Memory`. The text is read back as this token, under every
    /// reading, where the claims are in range and the algorithm is read back from its own text,
    /// which isn't `none`.
    pub fn new<S: PrivateSigningKey>(
        alloc: Global,
        claims: IdTokenClaims<AC, GC>,
        key: &S,
        alg: JS,
        access_token: Option<&AccessToken>,
        // The code of the same answer, in the hybrid flow.
        code: Option<&AuthorizationCode>,
    ) -> Result<Self, JsonWebTokenError>
    where
        S::VerificationKey: JsonWebKey<SigningAlgorithm = JS>,
        ensures issued { let checker = S.verification_key key.now in
            let by = hashing (JS.as_ref alg) (S.VerificationKey.hash_of checker alg) in
            let token = option_copied access_token.entry in
            let hashed = spec.with_hashes by token (option_copied code.entry) claims in
            let issue = issued JS.as_ref (id_token_members AC.write_of GC.write_of)
            (S.signs key.now alg) (S.VerificationKey.key_id checker) alg in
            any_float (AC.write_of claims.additional_claims) ≡ false
            → Issues (and_then hashed issue) result }

        // Whatever the additional claims hold.
        ensures claims { let checker = S.verification_key key.now in
            let by = hashing (JS.as_ref alg) (S.VerificationKey.hash_of checker alg) in
            let token = option_copied access_token.entry in
            let hashed = spec.with_hashes by token (option_copied code.entry) claims in
            IfOk result (λ token. hashed ≡ Ok token.payload) }
        ensures signed { IfOk result (λ token.
            S.signs key.now alg token.message ≡ Ok token.signature) }
        ensures header { let key_id = S.VerificationKey.key_id (S.verification_key key.now) in
            IfOk result (λ token. token.header ≡ signed_with alg key_id) }
        ensures head { let key_id = S.VerificationKey.key_id (S.verification_key key.now) in
            let header = written_header (JS.as_ref alg) key_id in
            IfOk result (λ token. IsHeadedBy token.message header) }
        ensures text { IfOk result (λ token.
            token.text ≡ compact token.message token.signature) }
        ensures refused { let checker = S.verification_key key.now in
            let by = hashing (JS.as_ref alg) (S.VerificationKey.hash_of checker alg) in
            let token = option_copied access_token.entry in
            let hashed = spec.with_hashes by token (option_copied code.entry) claims in
            let header = written_header (JS.as_ref alg) (S.VerificationKey.key_id checker) in
            IfErr result (IsUnissued hashed header (S.signs key.now alg)) }

        // What is issued is read back where its algorithm is, and whoever expects these claims
        // accepts it.
        ensures reads_back { (reading : Reading)
            → IsNamed JS.as_ref JS.from_str alg → IsTokenInRange AC.write_of claims
            → IfOk result (λ token. token_of JE.from_str JS.from_str
            (id_token_claims_of AC.read_of GC.read_of reading) token.text ≡ Ok token) }
        ensures accepted { let k = meanings S.VerificationKey.JsonWebKey
            S.VerificationKey.KeyUse.JsonWebKeyUse
            JS.JwsSigningAlgorithm.own JS.ClosedVocabulary JS.KeyType.ClosedVocabulary in
            (v : SeenVerifier S.VerificationKey JS) (allows : Option (List ℕ) → Bool) (now : ℤ)
            → Expects k v allows now alg (S.verification_key key.now) claims
            → IfOk result (λ token. Accepts k v allows now token) }
    {
        let checker = match key.as_verification_key(alloc) {
            Ok(checker) => checker,
            Err(_) => {
                drop(claims);
                return Err(JsonWebTokenError::Memory);
            }
        };
        let claims = with_hashes(alloc, claims, access_token, code, &alg, &checker)?;
        match JsonWebToken::new(alloc, claims, key, &alg) {
            Ok(token) => match IdToken::of_token(alloc, token) {
                Ok(token) => Ok(token),
                Err(_) => Err(JsonWebTokenError::Memory),
            },
            Err(error) => Err(error),
        }
    }
}

// The claims with the hash of the access token, where there is one.
fn with_token_hash<AC: AdditionalClaims, GC: GenderClaim, K: JsonWebKey>(
    alloc: Global,
    claims: IdTokenClaims<AC, GC>,
    access_token: Option<&AccessToken>,
    alg: &K::SigningAlgorithm,
    key: &K,
) -> Result<IdTokenClaims<AC, GC>, SigningError>
    ensures { let by = hashing (K.SigningAlgorithm.as_ref alg.now) (K.hash_of key.now alg.now) in
        GivesHash (spec.with_token_hash by (option_copied access_token.entry) claims) result }
{
    match access_token {
        None => Ok(claims),
        Some(token) => match from_token(alloc, token, alg, key) {
            Ok(hash) => Ok(claims.set_access_token_hash(Some(hash))),
            Err(refusal) => {
                drop(claims);
                Err(refusal)
            }
        },
    }
}

// The claims with the hash of the code, where there is one.
fn with_code_hash<AC: AdditionalClaims, GC: GenderClaim, K: JsonWebKey>(
    alloc: Global,
    claims: IdTokenClaims<AC, GC>,
    code: Option<&AuthorizationCode>,
    alg: &K::SigningAlgorithm,
    key: &K,
) -> Result<IdTokenClaims<AC, GC>, SigningError>
    ensures { let by = hashing (K.SigningAlgorithm.as_ref alg.now) (K.hash_of key.now alg.now) in
        GivesHash (spec.with_code_hash by (option_copied code.entry) claims) result }
{
    match code {
        None => Ok(claims),
        Some(code) => match from_code(alloc, code, alg, key) {
            Ok(hash) => Ok(claims.set_code_hash(Some(hash))),
            Err(refusal) => {
                drop(claims);
                Err(refusal)
            }
        },
    }
}

// The claims with both hashes.
#[tactic(auto, unfolding(crate::specs::Hashes::with_hashes))]
fn with_hashes<AC: AdditionalClaims, GC: GenderClaim, K: JsonWebKey>(
    alloc: Global,
    claims: IdTokenClaims<AC, GC>,
    access_token: Option<&AccessToken>,
    code: Option<&AuthorizationCode>,
    alg: &K::SigningAlgorithm,
    key: &K,
) -> Result<IdTokenClaims<AC, GC>, SigningError>
    ensures { let by = hashing (K.SigningAlgorithm.as_ref alg.now) (K.hash_of key.now alg.now) in
        GivesHash (spec.with_hashes by (option_copied access_token.entry)
        (option_copied code.entry) claims) result }
{
    let claims = with_token_hash(alloc, claims, access_token, alg, key)?;
    with_code_hash(alloc, claims, code, alg, key)
}
