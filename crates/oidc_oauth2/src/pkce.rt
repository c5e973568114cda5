//! Proof Key for Code Exchange (RFC 7636).

ghost use Rattle.std.specs.Prelude.{◌≡◌, ◌↔◌, false, IfOk, IsErrOf, OnOk, OnErr, codes};
ghost use Rattle.std.specs.String.{string_bytes};
ghost use Rattle.oidc_types.specs.Random.{random_text, stream_after, IsBeforeOrAfter};
ghost use Rattle.oidc_oauth2.specs.Pkce.{is_verifier, is_random_length, s256};

use base64::engine::general_purpose::URL_SAFE_NO_PAD;
use oidc_types::{Nonce, PkceCodeChallengeMethod, PkceCodeVerifier};
use rand_core::Rng;
use sha2::{Digest, Sha256};
use std::alloc::{AllocError, Global};
use std::marker::Model;
use thiserror::Error;

/// The challenge of a verifier by the method `S256`. Contracts see its text.
#[derive(Debug, Drop)]
pub struct PkceCodeChallenge {
    text: String,
    method: PkceCodeChallengeMethod,
}

impl Model for PkceCodeChallenge {
    ghost use Rattle.std.specs.Prelude.{◌≡◌, List, ℕ, codes};
    ghost use Rattle.std.specs.String.{string_bytes};

    ghost Value = { List ℕ };

    ghost view = { λ c. string_bytes c.text };

    ghost invariant = { λ c. c.method ≡ codes "S256" };
}

/// Why there is no challenge.
#[derive(Clone, Copy, Debug, Error, PartialEq, Eq)]
pub enum PkceError {
    /// The verifier hasn't 43 to 128 bytes, or not 32 to 96 random bytes are asked for.
    #[error("a code verifier of the wrong length")]
    Length,
    /// There was no memory.
    #[error("out of memory")]
    Memory,
}

impl From<AllocError> for PkceError {
    ghost use Rattle.std.specs.Prelude.{◌≡◌};
    ghost use Rattle.oidc_oauth2.specs.declared.pkce.PkceError.TheVariants.{Memory};

    ghost from_gives = { λ _ error. error ≡ Memory };

    fn from(_refused: AllocError) -> PkceError {
        PkceError::Memory
    }
}

// The S256 challenge of a text.
#[tactic(auto, unfolding(crate::specs::Pkce::s256))]
fn challenge_of(alloc: Global, verifier: &str) -> Result<PkceCodeChallenge, AllocError>
    ensures { IfOk result (λ challenge. challenge ≡ s256 verifier.now) }
{
    let digest = Sha256::digest(verifier.as_bytes());
    let text = URL_SAFE_NO_PAD.encode(alloc, &digest)?;
    let method = PkceCodeChallengeMethod::new(String::from_str(alloc, "S256")?);
    Ok(PkceCodeChallenge { text, method })
}

// A verifier of the next bytes of a generator, and its challenge.
fn random_pair<R: Rng>(
    alloc: Global,
    rng: &mut R,
    num_bytes: u32,
) -> Result<(PkceCodeChallenge, PkceCodeVerifier), AllocError>
    ensures verifier { IfOk result (λ pair. pair.1 ≡ random_text num_bytes (R.stream rng.old)) }
    ensures challenge { IfOk result (λ pair. pair.0 ≡ s256 pair.1) }
    ensures moved { OnOk result (R.stream rng.new ≡ stream_after num_bytes (R.stream rng.old)) }
    ensures err { OnErr result (IsBeforeOrAfter num_bytes (R.stream rng.old) (R.stream rng.new)) }
{
    let text = Nonce::new_random_len(alloc, rng, num_bytes)?.into_string();
    let challenge = challenge_of(alloc, text.as_str())?;
    Ok((challenge, PkceCodeVerifier::new(text)))
}

impl PkceCodeChallenge {
    /// The S256 challenge of a verifier (RFC 7636 section 4.2). `Length` exactly where the verifier
    /// hasn't 43 to 128 bytes (section 4.1), `Memory` where there was no memory.
    pub fn from_code_verifier_sha256(
        alloc: Global,
        verifier: &PkceCodeVerifier,
    ) -> Result<Self, PkceError>
        ensures challenge { IfOk result (λ challenge. challenge ≡ s256 verifier.now) }
        ensures length { IsErrOf result PkceError.Length ↔ (is_verifier verifier.now ≡ false) }
    {
        let length = verifier.secret().len();
        if length < 43 || length > 128 {
            return Err(PkceError::Length);
        }
        Ok(challenge_of(alloc, verifier.secret())?)
    }

    /// A verifier of 32 random bytes, and its challenge. `AllocError` is want of memory, the one
    /// error.
    pub fn new_random_sha256<R: Rng>(
        alloc: Global,
        rng: &mut R,
    ) -> Result<(Self, PkceCodeVerifier), AllocError>
        ensures verifier { IfOk result (λ pair. pair.1 ≡ random_text 32 (R.stream rng.old)) }
        ensures challenge { IfOk result (λ pair. pair.0 ≡ s256 pair.1) }
        ensures moved { OnOk result (R.stream rng.new ≡ stream_after 32 (R.stream rng.old)) }
        ensures err { OnErr result (IsBeforeOrAfter 32 (R.stream rng.old) (R.stream rng.new)) }
    {
        random_pair(alloc, rng, 32)
    }

    /// A random verifier, and its challenge. The verifier is the base64url text, without padding,
    /// of the next `num_bytes` bytes of the generator, each drawn by `random::<u8>()`. `Length`
    /// exactly where `num_bytes` isn't 32 to 96; the generator then stands where it stood. Where
    /// there is no memory, it stands there or behind these bytes.
    pub fn new_random_sha256_len<R: Rng>(
        alloc: Global,
        rng: &mut R,
        num_bytes: u32,
    ) -> Result<(Self, PkceCodeVerifier), PkceError>
        ensures verifier { IfOk result (λ pair. pair.1 ≡ random_text num_bytes (R.stream rng.old)) }
        ensures challenge { IfOk result (λ pair. pair.0 ≡ s256 pair.1) }
        ensures moved { OnOk result (R.stream rng.new ≡ stream_after num_bytes (R.stream rng.old)) }
        ensures length { IsErrOf result PkceError.Length ↔ (is_random_length num_bytes ≡ false) }
        ensures unmoved { IsErrOf result PkceError.Length → R.stream rng.new ≡ R.stream rng.old }
        ensures err { OnErr result
            (IsBeforeOrAfter num_bytes (R.stream rng.old) (R.stream rng.new)) }
    {
        if num_bytes < 32 || num_bytes > 96 {
            return Err(PkceError::Length);
        }
        Ok(random_pair(alloc, rng, num_bytes)?)
    }

    /// The text of the challenge.
    pub fn as_str(&self) -> &str
        ensures text { result.now ≡ self.now }
    {
        self.text.as_str()
    }

    /// The method, `S256`.
    pub fn method(&self) -> &PkceCodeChallengeMethod
        ensures method { result.now ≡ codes "S256" }
    {
        &self.method
    }
}
