//! Numbers of a fixed count of 64-bit limbs, the lowest first, in slices that the caller lends.
ghost use Rattle.std.specs.Prelude.{◌≡◌, ℕ, ◌+◌, ◌*◌, ◌^◌, ◌%◌, ◌<◌, ◌≤◌, length};
ghost use Rattle.std.specs.Ordering.{nat_cmp};
ghost use Rattle.oidc_rsa.specs.Octets.{os2ip, i2osp};
ghost use Rattle.oidc_rsa.specs.Limbs.{value, value_with_bit};

use std::cmp::Ordering;

/// The most limbs of a modulus: 8,192 bits.
pub(crate) const MAX_LIMBS: usize = 128;

/// The order of two numbers.
pub(crate) fn compare(left: &[u64], right: &[u64]) -> Ordering
    requires { length left.now ≡ length right.now }
    ensures { result ≡ nat_cmp (value left.now) (value right.now) }
{
    let mut order = Ordering::Equal;
    for i in 0..left.len() {
        order = left[i].cmp(&right[i]).then(order);
    }
    order
}

/// Subtracts `right` from `left`. The answer says whether one was borrowed from above the limbs.
pub(crate) fn subtract(left: &mut [u64], right: &[u64]) -> bool
    requires { length left.old ≡ length right.now }
    ensures { value left.new + value right.now ≡ value_with_bit left.old result }
{
    let mut borrow = false;
    for i in 0..left.len() {
        let (difference, more) = left[i].borrowing_sub(right[i], borrow);
        left[i] = difference;
        borrow = more;
    }
    borrow
}

/// Doubles a number. The answer is the bit above the limbs.
pub(crate) fn double(limbs: &mut [u64]) -> bool
    ensures { value_with_bit limbs.new result ≡ 2 * value limbs.old }
{
    let mut carry = false;
    for i in 0..limbs.len() {
        let (sum, more) = limbs[i].carrying_add(limbs[i], carry);
        limbs[i] = sum;
        carry = more;
    }
    carry
}

/// Writes 1.
pub(crate) fn set_one(limbs: &mut [u64])
    requires { 0 < length limbs.old }
    ensures { value limbs.new ≡ 1 }
{
    limbs.fill(0);
    limbs[0] = 1;
}

// The limb that at most eight octets write, the highest first.
fn limb_of(octets: &[u8]) -> u64
    requires { length octets.now ≤ 8 }
    ensures { result ≡ os2ip octets.now }
{
    let mut limb: u64 = 0;
    for octet in octets {
        limb = limb * 256 + u64::from(*octet);
    }
    limb
}

/// Reads a number from its octets, the highest first.
pub(crate) fn read_octets(limbs: &mut [u64], octets: &[u8])
    requires { length octets.now ≤ 8 * length limbs.old }
    ensures { value limbs.new ≡ os2ip octets.now }
{
    let mut end = octets.len();
    for i in 0..limbs.len() {
        let start = end.saturating_sub(8);
        limbs[i] = limb_of(&octets[start..end]);
        end = start;
    }
}

/// Writes the lowest octets of a number, the highest first.
pub(crate) fn write_octets(octets: &mut [u8], limbs: &[u64])
    requires { length octets.old ≤ 8 * length limbs.now }
    ensures { octets.new ≡ i2osp (value limbs.now) (length octets.old) }
{
    let len = octets.len();
    for i in 0..len {
        octets[len - 1 - i] = (limbs[i / 8] >> (8 * (i % 8)) & 0xff) as u8;
    }
}
