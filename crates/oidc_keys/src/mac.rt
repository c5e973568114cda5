//! HMAC (RFC 2104) over SHA-256, SHA-384 and SHA-512.
ghost use Rattle.std.specs.Prelude.{◌≡◌, ◌≤◌, ◌<◌, ◌++◌, IfOk, List, ℕ, length, nat_eq};
ghost use Rattle.std.specs.Cmp.Lexicographic.{pointwise};
ghost use Rattle.sha2.specs.Sha256.{sha256};
ghost use Rattle.sha2.specs.Sha512.{sha384, sha512};
ghost use Rattle.oidc_keys.specs.Mac.{masked, padded, hmac_over, mac_of};

use sha2::{Digest, Sha256, Sha384, Sha512};
use std::alloc::{AllocError, Global};

/// The hash function that an HMAC is made with.
#[derive(Clone, Copy, Debug, PartialEq, Eq)]
pub enum HmacAlgorithm {
    /// SHA-256, with blocks of 64 bytes.
    Sha256,
    /// SHA-384, with blocks of 128 bytes.
    Sha384,
    /// SHA-512, with blocks of 128 bytes.
    Sha512,
}

// The byte that each byte of the key is xored with for the inner hash.
const INNER_PAD: u8 = 0x36;

// The same for the outer hash.
const OUTER_PAD: u8 = 0x5C;

fn masked_block<const B: usize>(block: &[u8; B], pad: u8) -> [u8; B]
    ensures { result ≡ masked pad block.now }
{
    let mut out = *block;
    for byte in out.iter_mut() {
        *byte ^= pad;
    }
    out
}

fn padded_block<const B: usize>(key: &[u8]) -> [u8; B]
    requires { length key.now ≤ B }
    ensures { result ≡ padded B key.now }
{
    let mut out = [0u8; B];
    out[..key.len()].copy_from_slice(key);
    out
}

fn keyed_digest<D: Digest<Output = [u8; N]>, const B: usize, const N: usize>(
    key: &[u8; B],
    message: &[u8],
) -> [u8; N]
    ensures { (inner : List ℕ)
        × D.digest_of (masked 0x36 key.now ++ message.now) inner
        × D.digest_of (masked 0x5C key.now ++ inner) result }
{
    let mut inner = D::new();
    inner.update(masked_block(key, INNER_PAD).as_slice());
    inner.update(message);
    let inner = inner.finalize();
    let mut outer = D::new();
    outer.update(masked_block(key, OUTER_PAD).as_slice());
    outer.update(inner.as_slice());
    outer.finalize()
}

fn block_of<D: Digest<Output = [u8; N]>, const B: usize, const N: usize>(key: &[u8]) -> [u8; B]
    requires { N ≤ B }
    ensures short { length key.now ≤ B → result ≡ padded B key.now }
    ensures long { B < length key.now → (digest : List ℕ)
        × D.digest_of key.now digest × (result ≡ padded B digest) }
{
    if key.len() > B {
        padded_block(D::digest(key).as_slice())
    } else {
        padded_block(key)
    }
}

#[tactic(auto, unfolding(crate::specs::Mac::hmac_over))]
fn sha256_mac(key: &[u8], message: &[u8]) -> [u8; 32]
    ensures { result ≡ hmac_over sha256 64 key.now message.now }
{
    let block: [u8; 64] = block_of::<Sha256, 64, 32>(key);
    keyed_digest::<Sha256, 64, 32>(&block, message)
}

#[tactic(auto, unfolding(crate::specs::Mac::hmac_over))]
fn sha384_mac(key: &[u8], message: &[u8]) -> [u8; 48]
    ensures { result ≡ hmac_over sha384 128 key.now message.now }
{
    let block: [u8; 128] = block_of::<Sha384, 128, 48>(key);
    keyed_digest::<Sha384, 128, 48>(&block, message)
}

#[tactic(auto, unfolding(crate::specs::Mac::hmac_over))]
fn sha512_mac(key: &[u8], message: &[u8]) -> [u8; 64]
    ensures { result ≡ hmac_over sha512 128 key.now message.now }
{
    let block: [u8; 128] = block_of::<Sha512, 128, 64>(key);
    keyed_digest::<Sha512, 128, 64>(&block, message)
}

/// The MAC of `message` under `key` (RFC 2104): 32, 48 or 64 bytes, by the hash function.
pub fn hmac(
    alloc: Global,
    alg: HmacAlgorithm,
    key: &[u8],
    message: &[u8],
) -> Result<Vec<u8>, AllocError>
    ensures mac { IfOk result (λ tag. tag.items ≡ mac_of alg key.now message.now) }
{
    match alg {
        HmacAlgorithm::Sha256 => sha256_mac(key, message).to_vec(alloc),
        HmacAlgorithm::Sha384 => sha384_mac(key, message).to_vec(alloc),
        HmacAlgorithm::Sha512 => sha512_mac(key, message).to_vec(alloc),
    }
}

/// Whether `signature` is the whole MAC of `message` under `key`. It takes no memory.
///
/// The comparison stops at the first byte that differs: how long it takes is promised nowhere.
pub(crate) fn is_mac(alg: HmacAlgorithm, key: &[u8], message: &[u8], signature: &[u8]) -> bool
    ensures { result ≡ pointwise nat_eq signature.now (mac_of alg key.now message.now) }
{
    match alg {
        HmacAlgorithm::Sha256 => signature == sha256_mac(key, message).as_slice(),
        HmacAlgorithm::Sha384 => signature == sha384_mac(key, message).as_slice(),
        HmacAlgorithm::Sha512 => signature == sha512_mac(key, message).as_slice(),
    }
}
