//! Texts that no one can guess: nonces and states (OpenID Connect Core 1.0 section 15.5.2,
//! RFC 6749 section 10.10).

ghost use Rattle.std.specs.Prelude.{◌≡◌, length, IfOk, OnOk, OnErr};
ghost use Rattle.std.specs.String.{string_bytes};
ghost use Rattle.oidc_types.specs.Random.{next_bytes, stream_after, random_text, IsBeforeOrAfter};

use crate::secret::Secret;
use crate::secrets::{CsrfTokenMarker, NonceMarker};
use crate::text::Marker;
use base64::engine::general_purpose::URL_SAFE_NO_PAD;
use rand::RngExt;
use rand_core::Rng;
use std::alloc::{AllocError, Global};

/// The number of bytes of a random text where none is asked for.
const USUAL_BYTES: u32 = 16;

/// Draws each byte in its turn.
fn fill<R: Rng>(rng: &mut R, bytes: &mut [u8])
    ensures { next_bytes (length bytes.old) (R.stream rng.old) ≡ (bytes.new, R.stream rng.new) }
{
    for byte in bytes.iter_mut() {
        *byte = rng.random::<u8>();
    }
}

/// A kind of secret that no one can guess.
pub trait RandomMarker: Marker {}

impl RandomMarker for NonceMarker {}

impl RandomMarker for CsrfTokenMarker {}

impl<M: RandomMarker> Secret<M> {
    /// A new text of 16 random bytes. `AllocError` is want of memory, the one error.
    pub fn new_random<R: Rng>(alloc: Global, rng: &mut R) -> Result<Self, AllocError>
        ensures text { IfOk result (λ secret. secret ≡ random_text 16 (R.stream rng.old)) }
        ensures moved { OnOk result (R.stream rng.new ≡ stream_after 16 (R.stream rng.old)) }
        ensures err { OnErr result (IsBeforeOrAfter 16 (R.stream rng.old) (R.stream rng.new)) }
    {
        Self::new_random_len(alloc, rng, USUAL_BYTES)
    }

    /// A new text: the base64url text, without padding, of the next `num_bytes` bytes of the
    /// generator, each drawn by `random::<u8>()`. Where there is no memory, the one error, the
    /// generator stands where it stood or behind these bytes.
    pub fn new_random_len<R: Rng>(
        alloc: Global,
        rng: &mut R,
        num_bytes: u32,
    ) -> Result<Self, AllocError>
        ensures text { IfOk result (λ secret. secret ≡ random_text num_bytes (R.stream rng.old)) }
        ensures moved { OnOk result (R.stream rng.new ≡ stream_after num_bytes (R.stream rng.old)) }
        ensures err { OnErr result (IsBeforeOrAfter num_bytes (R.stream rng.old) (R.stream rng.new)) }
    {
        let mut bytes = vec![in alloc; 0u8; num_bytes as usize]?;
        fill(rng, bytes.as_mut_slice());
        let text = URL_SAFE_NO_PAD.encode(alloc, bytes.as_slice())?;
        Ok(Secret::new(text))
    }
}
