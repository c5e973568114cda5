//! The encoded message of RSASSA-PKCS1-v1_5 (RFC 8017 section 9.2).
ghost use Rattle.std.specs.Prelude.{◌≡◌, ◌+◌, ◌≤◌, length, bytes_eq};
ghost use Rattle.oidc_rsa.specs.Pkcs1.{digest_info_prefix, emsa_pkcs1};

use crate::hash::HashFunction;
use crate::octets::{Octets, append, append_repeated};
use arrayvec::ArrayVec;

// The octets of a DigestInfo before the hash: DER of the algorithm's name, without parameters but
// for a NULL, and the head of the hash.
static SHA256_PREFIX: [u8; 19] = [
    0x30, 0x31, 0x30, 0x0d, 0x06, 0x09, 0x60, 0x86, 0x48, 0x01, 0x65, 0x03, 0x04, 0x02, 0x01, 0x05,
    0x00, 0x04, 0x20,
];

static SHA384_PREFIX: [u8; 19] = [
    0x30, 0x41, 0x30, 0x0d, 0x06, 0x09, 0x60, 0x86, 0x48, 0x01, 0x65, 0x03, 0x04, 0x02, 0x02, 0x05,
    0x00, 0x04, 0x30,
];

static SHA512_PREFIX: [u8; 19] = [
    0x30, 0x51, 0x30, 0x0d, 0x06, 0x09, 0x60, 0x86, 0x48, 0x01, 0x65, 0x03, 0x04, 0x02, 0x03, 0x05,
    0x00, 0x04, 0x40,
];

fn prefix_of(hash: HashFunction) -> &'static [u8]
    ensures { result.now ≡ digest_info_prefix hash }
{
    match hash {
        HashFunction::Sha256 => &SHA256_PREFIX,
        HashFunction::Sha384 => &SHA384_PREFIX,
        HashFunction::Sha512 => &SHA512_PREFIX,
    }
}

// The encoded message of that length.
#[tactic(auto, unfolding(crate::specs::Pkcs1::emsa_pkcs1))]
fn encoded_message(hash: HashFunction, message: &[u8], len: usize) -> Octets
    requires room { 94 ≤ len }
    requires limit { len ≤ 1024 }
    ensures { result.items ≡ emsa_pkcs1 hash message.now len }
{
    let prefix = prefix_of(hash);
    let digest = hash.hash(message);
    let mut encoded = ArrayVec::new();
    encoded.push(0x00);
    encoded.push(0x01);
    append_repeated(&mut encoded, 0xff, len - prefix.len() - digest.len() - 3);
    encoded.push(0x00);
    append(&mut encoded, prefix);
    append(&mut encoded, digest.as_slice());
    encoded
}

/// Whether octets are the encoded message of `message`.
pub(crate) fn is_pkcs1_encoding(hash: HashFunction, message: &[u8], em: &[u8]) -> bool
    requires room { 94 ≤ length em.now }
    requires limit { length em.now ≤ 1024 }
    ensures { result ≡ bytes_eq em.now (emsa_pkcs1 hash message.now (length em.now)) }
{
    em == encoded_message(hash, message, em.len()).as_slice()
}
