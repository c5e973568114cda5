//! A nonce verifier that asks for no nonce.

use oidc_tokens::NonceVerifier;
use oidc_types::Nonce;

/// Allows a token without a nonce, and no other.
#[derive(Drop)]
pub struct WithoutNonce;

impl NonceVerifier for WithoutNonce {
    ghost use Rattle.std.specs.Prelude.{is_none};

    ghost allows = { λ _ nonce. is_none nonce };

    fn verify(&self, nonce: Option<&Nonce>) -> bool {
        nonce.is_none()
    }
}
