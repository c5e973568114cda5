//! The check of an encoded message of RSASSA-PSS (RFC 8017 section 9.1.2).
ghost use Rattle.std.specs.Prelude.{◌≡◌, ◌+◌, ◌-◌, ◌*◌, ◌%◌, ◌^◌, ◌≤◌, ◌<◌, [], ◌∷◌, ◌++◌, length, replicate, nat_lt};
ghost use Rattle.oidc_rsa.specs.Octets.{i2osp};
ghost use Rattle.oidc_rsa.specs.Hash.{hash_of, hash_len};
ghost use Rattle.oidc_rsa.specs.Pss as spec;

use crate::hash::{HashFunction, MAX_HASH_LEN};
use crate::octets::{MAX_OCTETS, Octets, append, append_repeated};
use arrayvec::ArrayVec;

// The most octets of a mask: the last block may go beyond it.
const MAX_MASK_LEN: usize = MAX_OCTETS + MAX_HASH_LEN;

// The most octets of a seed and a counter.
const MAX_BLOCK_LEN: usize = MAX_HASH_LEN + 4;

// The most octets of a hash and a salt after eight zero octets.
const MAX_SALTED_LEN: usize = 8 + 2 * MAX_HASH_LEN;

// The octet that ends an encoded message.
const TRAILER: u8 = 0xbc;

// One block of a mask.
#[tactic(auto, unfolding(crate::specs::Octets::i2osp))]
fn mask_block(hash: HashFunction, seed: &[u8], counter: u32) -> ArrayVec<u8, MAX_HASH_LEN>
    requires { length seed.now ≤ 64 }
    ensures block { result.items ≡ hash_of hash (seed.now ++ i2osp counter 4) }
    ensures len { length result.items ≡ hash_len hash }
{
    let mut block: ArrayVec<u8, MAX_BLOCK_LEN> = ArrayVec::new();
    append(&mut block, seed);
    append(&mut block, counter.to_be_bytes().as_slice());
    hash.hash(block.as_slice())
}

// The first blocks of a mask (MGF1).
fn mask_blocks(hash: HashFunction, seed: &[u8], count: u32) -> ArrayVec<u8, MAX_MASK_LEN>
    requires seed { length seed.now ≤ 64 }
    requires room { count * hash_len hash ≤ 1088 }
    ensures blocks { result.items ≡ spec.mgf1_blocks hash seed.now count }
    ensures len { length result.items ≡ count * hash_len hash }
{
    let mut mask = ArrayVec::new();
    for counter in 0..count {
        append(&mut mask, mask_block(hash, seed, counter).as_slice());
    }
    mask
}

// The octets xored with those of a mask.
fn xored(octets: &[u8], mask: &[u8]) -> Octets
    requires same_length { length mask.now ≡ length octets.now }
    requires limit { length octets.now ≤ 1024 }
    ensures items { result.items ≡ spec.xored octets.now mask.now }
    ensures len { length result.items ≡ length octets.now }
{
    let mut out = ArrayVec::new();
    for i in 0..octets.len() {
        out.push(octets[i] ^ mask[i]);
    }
    out
}

// The octets xored with the mask of their length that a seed has.
#[tactic(auto, unfolding(crate::specs::Pss::mgf1))]
fn masked(hash: HashFunction, octets: &[u8], seed: &[u8]) -> Octets
    requires seed { length seed.now ≤ 64 }
    requires limit { length octets.now ≤ 1024 }
    ensures items { result.items
        ≡ spec.xored octets.now (spec.mgf1 hash seed.now (length octets.now)) }
    ensures len { length result.items ≡ length octets.now }
{
    let count = octets.len().div_ceil(hash.len());
    let mask = mask_blocks(hash, seed, count as u32);
    xored(octets, &mask.as_slice()[..octets.len()])
}

// Whether the leftmost bits of an octet are zero.
fn has_zeros(octet: u8, count: usize) -> bool
    requires { count < 8 }
    ensures { result ≡ nat_lt octet (2 ^ (8 - count)) }
{
    octet <= 0xff >> count
}

// The octet with its leftmost bits set to zero.
fn with_zeros(octet: u8, count: usize) -> u8
    requires { count < 8 }
    ensures { result ≡ octet % 2 ^ (8 - count) }
{
    octet & 0xff >> count
}

// The octets with the leftmost bits of the first one set to zero.
fn clear_leftmost(octets: &[u8], count: usize) -> Octets
    requires few { count < 8 }
    requires not_empty { 0 < length octets.now }
    requires limit { length octets.now ≤ 1024 }
    ensures items { result.items ≡ spec.clear_leftmost count octets.now }
    ensures len { length result.items ≡ length octets.now }
{
    let mut out = ArrayVec::new();
    out.push(with_zeros(octets[0], count));
    append(&mut out, &octets[1..]);
    out
}

// Zero octets and 0x01.
fn padding(zeros: usize) -> Octets
    requires { zeros < 1024 }
    ensures { result.items ≡ replicate zeros 0x00 ++ 0x01 ∷ [] }
{
    let mut padding = ArrayVec::new();
    append_repeated(&mut padding, 0x00, zeros);
    padding.push(0x01);
    padding
}

// The hash of a message's hash and a salt.
fn salted_hash(hash: HashFunction, message: &[u8], salt: &[u8]) -> ArrayVec<u8, MAX_HASH_LEN>
    requires { length salt.now ≤ 64 }
    ensures { result.items ≡ hash_of hash (spec.salted_message hash message.now salt.now) }
{
    let mut salted: ArrayVec<u8, MAX_SALTED_LEN> = ArrayVec::new();
    append_repeated(&mut salted, 0x00, 8);
    append(&mut salted, hash.hash(message).as_slice());
    append(&mut salted, salt);
    hash.hash(salted.as_slice())
}

// Whether DB ends a padding of zero octets with 0x01, and the salt behind it gives that hash.
fn is_consistent(hash: HashFunction, message: &[u8], db: &[u8], seed: &[u8]) -> bool
    requires room { hash_len hash + 1 ≤ length db.now }
    requires limit { length db.now ≤ 1024 }
    ensures { result ≡ spec.is_consistent hash message.now db.now seed.now }
{
    let zeros = db.len() - hash.len() - 1;
    let (front, salt) = db.split_at(zeros + 1);
    front == padding(zeros).as_slice() && seed == salted_hash(hash, message, salt).as_slice()
}

/// Whether octets that hold `em_bits` bits are consistent with `message`.
#[tactic(auto, unfolding(crate::specs::Pss::is_pss_encoding))]
pub(crate) fn is_pss_encoding(hash: HashFunction, message: &[u8], em: &[u8], em_bits: usize) -> bool
    requires room { 2 * hash_len hash + 2 ≤ length em.now }
    requires limit { length em.now ≤ 1024 }
    requires bits { em_bits ≤ 8 * length em.now }
    requires last_bits { 8 * length em.now < em_bits + 8 }
    ensures { result ≡ spec.is_pss_encoding hash message.now em.now em_bits }
{
    let unused = 8 * em.len() - em_bits;
    let db_len = em.len() - hash.len() - 1;
    let seed = &em[db_len..em.len() - 1];
    let db = clear_leftmost(masked(hash, &em[..db_len], seed).as_slice(), unused);
    em[em.len() - 1] == TRAILER
        && has_zeros(em[0], unused)
        && is_consistent(hash, message, db.as_slice(), seed)
}
