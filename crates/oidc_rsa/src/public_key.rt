//! RSA public keys: how they are made, and how they verify.
ghost use Rattle.std.specs.Prelude.{◌≡◌, ◌↔◌, ℕ, ◌+◌, ◌%◌, ◌^◌, ◌≤◌, ◌<◌, IsTrue, false, Ok, Err, IfOk, IfSome, IfNone, length, nat_lt};
ghost use Rattle.oidc_rsa.specs.Octets.{os2ip, i2osp};
ghost use Rattle.oidc_rsa.specs.Key.{IsModulus, IsExponent, IsKeyOf, HasBits, modulus_len, octets_for};
ghost use Rattle.oidc_rsa.specs.Signature as spec;

use crate::algorithm::RsaAlgorithm;
use crate::hash::HashFunction;
use crate::limbs::{MAX_LIMBS, compare, read_octets, write_octets};
use crate::montgomery::{power, r_squared};
use crate::octets::MAX_OCTETS;
use crate::pkcs1::is_pkcs1_encoding;
use crate::pss::is_pss_encoding;
use std::alloc::{AllocError, Global};
use std::marker::Model;

/// Why no key is made.
#[derive(Clone, Copy, Debug, PartialEq, Eq, thiserror::Error)]
pub enum RsaKeyError {
    /// The modulus is even, has zeros at its front, or is not of 2,048 to 8,192 bits.
    #[error("a modulus that isn't allowed")]
    Modulus,
    /// The exponent is even, below 3 or above 2^32.
    #[error("an exponent that isn't allowed")]
    Exponent,
    /// There was no memory.
    #[error("out of memory")]
    Memory,
}

/// Why a signature isn't accepted.
#[derive(Clone, Copy, Debug, PartialEq, Eq, thiserror::Error)]
pub enum RsaSignatureError {
    /// The signature isn't one of that message under that key by that algorithm.
    #[error("crypto error")]
    CryptoError,
}

// The fewest bits of a modulus, and the octets that they need.
const MIN_BITS: usize = 2048;

const MIN_OCTETS: usize = 256;

// The greatest exponent.
const MAX_EXPONENT: u64 = 0x1_0000_0000;

// How many bits a modulus has, where it is allowed.
fn modulus_bits(modulus: &[u8]) -> Option<usize>
    ensures allowed { IfSome result (λ bits. IsModulus modulus.now
        × HasBits bits (os2ip modulus.now) × (2048 ≤ bits) × (bits ≤ 8192)
        × (length modulus.now ≡ octets_for bits)) }
    ensures refused { IfNone result (¬ IsModulus modulus.now) }
{
    let len = modulus.len();
    if len < MIN_OCTETS || len > MAX_OCTETS {
        return None;
    }
    if modulus[0] == 0 || modulus[len - 1] % 2 == 0 {
        return None;
    }
    let bits = 8 * len - modulus[0].leading_zeros() as usize;
    if bits < MIN_BITS {
        return None;
    }
    Some(bits)
}

// The exponent, where it is allowed.
fn exponent_of(octets: &[u8]) -> Option<u64>
    ensures allowed { IfSome result (λ exponent. IsExponent octets.now
        × (exponent ≡ os2ip octets.now)) }
    ensures refused { IfNone result (¬ IsExponent octets.now) }
{
    let mut exponent: u64 = 0;
    for octet in octets {
        exponent = exponent * 256 + u64::from(*octet);
        if exponent > MAX_EXPONENT {
            return None;
        }
    }
    if exponent < 3 || exponent % 2 == 0 {
        return None;
    }
    Some(exponent)
}

// Whether the number of some octets can be written by `len`, which are as many or one less.
fn fits(octets: &[u8], len: usize) -> bool
    requires at_most { len ≤ length octets.now }
    requires at_least { length octets.now ≤ len + 1 }
    ensures { result ≡ nat_lt (os2ip octets.now) (256 ^ len) }
{
    if octets.len() == len {
        return true;
    }
    octets[0] == 0
}

/// A public key that verifies signatures (RFC 8017 section 3.1).
#[derive(Drop)]
pub struct RsaPublicKey {
    // The limbs of the modulus and of R^2 modulo it, which all verifications need.
    modulus: Vec<u64>,
    r_squared: Vec<u64>,
    bits: usize,
    exponent: u64,
}

impl Model for RsaPublicKey {
    ghost use Rattle.oidc_rsa.specs.Key.{PublicKey};

    ghost Value = { PublicKey };

    ghost use Rattle.oidc_rsa.specs.Limbs.{value};
    ghost use Rattle.oidc_rsa.specs.Sound.{IsSound};

    ghost view = { λ key. record {
      modulus = value key.modulus.items;
      bits = key.bits;
      exponent = key.exponent;
    } };

    ghost invariant = { λ key. IsSound key.modulus.items key.r_squared.items key.bits key.exponent };
}

impl RsaPublicKey {
    /// The key of a modulus and an exponent, each as octets, the highest first.
    pub fn new(alloc: Global, modulus: &[u8], exponent: &[u8]) -> Result<RsaPublicKey, RsaKeyError>
        ensures key { IfOk result (λ key. IsKeyOf modulus.now exponent.now key) }
        ensures ok { IfOk result (λ key. IsModulus modulus.now × IsExponent exponent.now) }
        ensures modulus { (result ≡ Err RsaKeyError.Modulus) ↔ ¬ IsModulus modulus.now }
        ensures exponent { (result ≡ Err RsaKeyError.Exponent)
            ↔ (IsModulus modulus.now × ¬ IsExponent exponent.now) }
    {
        let Some(bits) = modulus_bits(modulus) else {
            return Err(RsaKeyError::Modulus);
        };
        let Some(exponent) = exponent_of(exponent) else {
            return Err(RsaKeyError::Exponent);
        };
        match RsaPublicKey::of_parts(alloc, modulus, bits, exponent) {
            Ok(key) => Ok(key),
            Err(AllocError) => Err(RsaKeyError::Memory),
        }
    }

    // The key of parts that are allowed.
    fn of_parts(
        alloc: Global,
        octets: &[u8],
        bits: usize,
        exponent: u64,
    ) -> Result<RsaPublicKey, AllocError>
        requires bits { HasBits bits (os2ip octets.now) }
        requires at_least { 2048 ≤ bits }
        requires at_most { bits ≤ 8192 }
        requires octets { length octets.now ≡ octets_for bits }
        requires odd { os2ip octets.now % 2 ≡ 1 }
        requires exponent { 3 ≤ exponent }
        ensures modulus { IfOk result (λ key. key.modulus ≡ os2ip octets.now) }
        ensures bits { IfOk result (λ key. key.bits ≡ bits) }
        ensures exponent { IfOk result (λ key. key.exponent ≡ exponent) }
    {
        let len = bits.div_ceil(64);
        let mut modulus = vec![in alloc; 0; len]?;
        let mut square = vec![in alloc; 0; len]?;
        read_octets(modulus.as_mut_slice(), octets);
        r_squared(square.as_mut_slice(), modulus.as_slice());
        Ok(RsaPublicKey {
            modulus,
            r_squared: square,
            bits,
            exponent,
        })
    }

    /// Whether `signature` is one of `message` under this key, by that algorithm: `CryptoError`
    /// where it isn't, as where it is of another length than the modulus or not below it. It takes
    /// no memory.
    pub fn verify(
        &self,
        algorithm: RsaAlgorithm,
        message: &[u8],
        signature: &[u8],
    ) -> Result<(), RsaSignatureError>
        ensures ok { (result ≡ Ok tt)
            ↔ IsTrue (spec.is_signature self.now algorithm message.now signature.now) }
        ensures crypto_error { (result ≡ Err RsaSignatureError.CryptoError)
            ↔ (spec.is_signature self.now algorithm message.now signature.now ≡ false) }
    {
        if self.is_signature(algorithm, message, signature) {
            Ok(())
        } else {
            Err(RsaSignatureError::CryptoError)
        }
    }

    // By algorithm.
    fn is_signature(&self, algorithm: RsaAlgorithm, message: &[u8], signature: &[u8]) -> bool
        ensures { result ≡ spec.is_signature self.now algorithm message.now signature.now }
    {
        match algorithm {
            RsaAlgorithm::Rs256 => self.verifies_pkcs1(HashFunction::Sha256, message, signature),
            RsaAlgorithm::Rs384 => self.verifies_pkcs1(HashFunction::Sha384, message, signature),
            RsaAlgorithm::Rs512 => self.verifies_pkcs1(HashFunction::Sha512, message, signature),
            RsaAlgorithm::Ps256 => self.verifies_pss(HashFunction::Sha256, message, signature),
            RsaAlgorithm::Ps384 => self.verifies_pss(HashFunction::Sha384, message, signature),
            RsaAlgorithm::Ps512 => self.verifies_pss(HashFunction::Sha512, message, signature),
        }
    }

    // By RSASSA-PKCS1-v1_5.
    fn verifies_pkcs1(&self, hash: HashFunction, message: &[u8], signature: &[u8]) -> bool
        ensures { result ≡ spec.is_pkcs1_signature hash self.now message.now signature.now }
    {
        let mut buffer = [0; MAX_OCTETS];
        let encoded = &mut buffer[..self.bits.div_ceil(8)];
        if !self.recover(encoded, signature) {
            return false;
        }
        is_pkcs1_encoding(hash, message, encoded)
    }

    // By RSASSA-PSS. The encoded message has one bit less than the modulus, so it may be an octet
    // shorter; the octet above it is zero.
    fn verifies_pss(&self, hash: HashFunction, message: &[u8], signature: &[u8]) -> bool
        ensures { result ≡ spec.is_pss_signature hash self.now message.now signature.now }
    {
        let mut buffer = [0; MAX_OCTETS];
        let recovered = &mut buffer[..self.bits.div_ceil(8)];
        if !self.recover(recovered, signature) {
            return false;
        }
        let em_bits = self.bits - 1;
        let em_len = em_bits.div_ceil(8);
        let above = recovered.len() - em_len;
        if !fits(recovered, em_len) {
            return false;
        }
        is_pss_encoding(hash, message, &recovered[above..], em_bits)
    }

    // Whether a signature is a representative. Writes then what the key makes of it.
    fn recover(&self, out: &mut [u8], signature: &[u8]) -> bool
        requires { length out.old ≡ modulus_len self.now }
        ensures representative { result ≡ spec.is_in_range self.now signature.now }
        ensures recovered { IsTrue result
            → out.new ≡ i2osp (spec.message_representative self.now signature.now) (modulus_len self.now) }
    {
        if signature.len() != out.len() {
            return false;
        }
        let n = self.modulus.as_slice();
        let mut base_limbs = [0; MAX_LIMBS];
        let mut power_limbs = [0; MAX_LIMBS];
        let mut scratch_limbs = [0; MAX_LIMBS];
        let base = &mut base_limbs[..n.len()];
        let raised = &mut power_limbs[..n.len()];
        let scratch = &mut scratch_limbs[..n.len()];
        read_octets(base, signature);
        if !compare(base, n).is_lt() {
            return false;
        }
        power(
            raised,
            base,
            self.exponent,
            n,
            self.r_squared.as_slice(),
            scratch,
        );
        write_octets(out, raised);
        true
    }
}
