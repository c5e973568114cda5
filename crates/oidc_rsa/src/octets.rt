//! Octet strings of a limited length, made by appending.
ghost use Rattle.std.specs.Prelude.{◌≡◌, ◌+◌, ◌≤◌, ◌++◌, length, replicate};
ghost use Rattle.arrayvec.specs.ArrayVec.{array_vec_len};

use arrayvec::ArrayVec;

/// The most octets of a modulus: 8,192 bits.
pub(crate) const MAX_OCTETS: usize = 1024;

/// Octets of an encoded message, or of a part of one.
pub(crate) type Octets = ArrayVec<u8, MAX_OCTETS>;

/// Appends an octet `count` times.
pub(crate) fn append_repeated<const N: usize>(out: &mut ArrayVec<u8, N>, octet: u8, count: usize)
    requires { array_vec_len out.old + count ≤ N }
    ensures items { out.new.items ≡ out.old.items ++ replicate count octet }
    ensures len { array_vec_len out.new ≡ array_vec_len out.old + count }
{
    for _i in 0..count {
        out.push(octet);
    }
}

/// Appends octets.
pub(crate) fn append<const N: usize>(out: &mut ArrayVec<u8, N>, octets: &[u8])
    requires { array_vec_len out.old + length octets.now ≤ N }
    ensures items { out.new.items ≡ out.old.items ++ octets.now }
    ensures len { array_vec_len out.new ≡ array_vec_len out.old + length octets.now }
{
    for octet in octets {
        out.push(*octet);
    }
}
