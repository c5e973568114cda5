//! The hash functions that signatures are made with.
ghost use Rattle.std.specs.Prelude.{◌≡◌, ◌≤◌, length};
ghost use Rattle.oidc_rsa.specs.Hash.{hash_of, hash_len};

use crate::octets::append;
use arrayvec::ArrayVec;
use sha2::{Digest, Sha256, Sha384, Sha512};

/// A hash function of FIPS 180-4.
#[derive(Clone, Copy, Debug, PartialEq, Eq)]
pub enum HashFunction {
    /// SHA-256, of 32 octets.
    Sha256,
    /// SHA-384, of 48 octets.
    Sha384,
    /// SHA-512, of 64 octets.
    Sha512,
}

/// The most octets of a hash.
pub(crate) const MAX_HASH_LEN: usize = 64;

impl HashFunction {
    // How many octets a hash has.
    pub(crate) fn len(self) -> usize
        ensures { result ≡ hash_len self }
    {
        match self {
            HashFunction::Sha256 => 32,
            HashFunction::Sha384 => 48,
            HashFunction::Sha512 => 64,
        }
    }

    // The hash of a message.
    pub(crate) fn hash(self, message: &[u8]) -> ArrayVec<u8, MAX_HASH_LEN>
        ensures hash { result.items ≡ hash_of self message.now }
        ensures len { length result.items ≡ hash_len self }
    {
        match self {
            HashFunction::Sha256 => octets_of(Sha256::digest(message).as_slice()),
            HashFunction::Sha384 => octets_of(Sha384::digest(message).as_slice()),
            HashFunction::Sha512 => octets_of(Sha512::digest(message).as_slice()),
        }
    }
}

// The octets of a hash.
fn octets_of(hash: &[u8]) -> ArrayVec<u8, MAX_HASH_LEN>
    requires { length hash.now ≤ 64 }
    ensures { result.items ≡ hash.now }
{
    let mut octets = ArrayVec::new();
    append(&mut octets, hash);
    octets
}
