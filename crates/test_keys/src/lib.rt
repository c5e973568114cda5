//! A lawful key whose type calls itself RSA, for tests alone: of tokens that the keys of `oidc_keys` don't check. It
//! guards nothing, since whoever knows a message can sign it.
#![tactic(auto)]

ghost use Rattle.std.specs.Prelude.{◌≡◌, ◌∷◌, nat_eq, None, Ok, Err, if◌then◌else◌};
ghost use Rattle.std.specs.Cmp.{nat_eq_equiv};
ghost use Rattle.std.specs.Cmp.Lexicographic.{pointwise, lists_equiv};
ghost use Rattle.std.proofs.Common.{arith};
ghost use Rattle.oidc_types.specs.declared.core_algorithms.CoreJsonWebKeyType.TheVariants.{RSA};
ghost use Rattle.oidc_keys.specs.declared.refusals.SignatureVerificationError.TheVariants.{CryptoError};

use oidc_keys::{
    CoreJsonWebKeyUse, HashError, JsonWebKey, PrivateSigningKey, SignatureVerificationError,
};
use oidc_types::{CoreJsonWebKeyType, CoreJwsSigningAlgorithm, JsonWebKeyId, SigningError};
use std::alloc::{AllocError, Global};

/// A toy: a signature of a message is the key's byte and then the message.
#[derive(Drop)]
pub struct ToyRsaKey {
    /// The first byte of its signatures.
    pub byte: u8,
    /// What it is for, where that is said.
    pub purpose: Option<CoreJsonWebKeyUse>,
    /// Its ID, where it has one.
    pub id: Option<JsonWebKeyId>,
}

impl JsonWebKey for ToyRsaKey {
    type KeyUse = CoreJsonWebKeyUse;

    type SigningAlgorithm = CoreJwsSigningAlgorithm;

    ghost key_id = { λ key. key.id };

    ghost key_type = { λ key. RSA };

    ghost key_use = { λ key. key.purpose };

    ghost verdict = { λ key algorithm message signature.
        if pointwise nat_eq signature (key.byte ∷ message) then Ok tt else Err CryptoError };

    ghost hash_of = { λ key algorithm. None };

    ghost symmetric_of = { λ bytes. record { byte = 0; purpose = None; id = None } };

    fn key_id(&self) -> Option<&JsonWebKeyId> {
        self.id.as_ref()
    }

    fn key_type(&self) -> CoreJsonWebKeyType {
        CoreJsonWebKeyType::RSA
    }

    fn key_use(&self) -> Option<&CoreJsonWebKeyUse> {
        self.purpose.as_ref()
    }

    fn new_symmetric(_key: Vec<u8>) -> Self {
        ToyRsaKey {
            byte: 0,
            purpose: None,
            id: None,
        }
    }

    fn verify_signature(
        &self,
        _alg: &CoreJwsSigningAlgorithm,
        message: &[u8],
        signature: &[u8],
    ) -> Result<(), SignatureVerificationError> {
        match signature {
            [byte, rest @ ..] if *byte == self.byte && rest == message => Ok(()),
            _ => Err(SignatureVerificationError::CryptoError),
        }
    }

    fn hash_bytes(
        &self,
        _alloc: Global,
        _bytes: &[u8],
        _alg: &CoreJwsSigningAlgorithm,
    ) -> Result<Vec<u8>, HashError> {
        Err(HashError::Unsupported)
    }

    ghost verdict_is_never_memory = { λ key algorithm message signature h. Prim.grind (arith) };
}

/// The signer that goes with it.
#[derive(Drop)]
pub struct ToyRsaSigner {
    /// The first byte of its signatures.
    pub byte: u8,
}

impl PrivateSigningKey for ToyRsaSigner {
    type VerificationKey = ToyRsaKey;

    ghost verification_key = { λ signer. record { byte = signer.byte; purpose = None; id = None } };

    ghost signs = { λ signer algorithm message. Ok (signer.byte ∷ message) };

    fn sign(
        &self,
        alloc: Global,
        _alg: &CoreJwsSigningAlgorithm,
        message: &[u8],
    ) -> Result<Vec<u8>, SigningError> {
        let mut signature = Vec::new(alloc);
        if signature.push(self.byte).is_err() || signature.extend_from_slice(message).is_err() {
            return Err(SigningError::Memory);
        }
        Ok(signature)
    }

    fn as_verification_key(&self, _alloc: Global) -> Result<ToyRsaKey, AllocError> {
        Ok(ToyRsaKey {
            byte: self.byte,
            purpose: None,
            id: None,
        })
    }

    ghost signs_truly = { λ signer algorithm message signature h.
        Prim.grind (arith, (lists_equiv nat_eq_equiv).refl) };

    ghost refusal_is_never_memory = { λ signer algorithm message h. Prim.grind (arith) };
}
