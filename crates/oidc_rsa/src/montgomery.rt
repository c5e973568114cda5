//! Arithmetic modulo an odd number n, by Montgomery's product: R is 2^64 to the count of limbs, and
//! a number x is held as x * R modulo n.
ghost use Rattle.std.specs.Prelude.{◌≡◌, ℕ, ◌+◌, ◌-◌, ◌*◌, ◌^◌, ◌%◌, ◌<◌, ◌≤◌, length, slice_index};
ghost use Rattle.oidc_rsa.specs.Limbs.{value, value_with_bit, weight, StandsFor};

use crate::limbs::{MAX_LIMBS, compare, double, set_one, subtract};

// Subtracts n once, where the number is not below it.
fn reduce_once(limbs: &mut [u64], top: bool, n: &[u64])
    requires same_length { length limbs.old ≡ length n.now }
    requires below_twice { value_with_bit limbs.old top < 2 * value n.now }
    ensures { value limbs.new ≡ value_with_bit limbs.old top % value n.now }
{
    let is_below = compare(limbs, n).is_lt();
    if top || !is_below {
        subtract(limbs, n);
    }
}

// What times n is -1 modulo 2^64, by Newton's method: each step doubles the bits that are right.
fn negated_inverse(n: u64) -> u64
    requires { n % 2 ≡ 1 }
    ensures { (n * result + 1) % 2 ^ 64 ≡ 0 }
{
    let mut inverse: u64 = 1;
    for _step in 0..6u32 {
        inverse = inverse.wrapping_mul(n.wrapping_mul(inverse).wrapping_add(2));
    }
    inverse
}

// Adds b * digit and the multiple of n that makes the lowest limb zero, and drops that limb. The
// answer is the bit above the limbs.
fn add_row(sum: &mut [u64], top: bool, b: &[u64], digit: u64, n: &[u64], inverse: u64) -> bool
    requires not_empty { 0 < length sum.old }
    requires length_of_b { length sum.old ≡ length b.now }
    requires length_of_n { length sum.old ≡ length n.now }
    requires inverse { (slice_index n.now 0 * inverse + 1) % 2 ^ 64 ≡ 0 }
    ensures { (m : ℕ) × (m < 2 ^ 64) × (2 ^ 64 * value_with_bit sum.new result
        ≡ value_with_bit sum.old top + value b.now * digit + value n.now * m) }
{
    let len = sum.len();
    let (lowest, mut product_carry) = b[0].carrying_mul_add(digit, sum[0], 0);
    let multiple = lowest.wrapping_mul(inverse);
    let cleared = n[0].carrying_mul_add(multiple, lowest, 0);
    let mut multiple_carry = cleared.1;
    for i in 1..len {
        let (added, product_more) = b[i].carrying_mul_add(digit, sum[i], product_carry);
        let (limb, multiple_more) = n[i].carrying_mul_add(multiple, added, multiple_carry);
        sum[i - 1] = limb;
        product_carry = product_more;
        multiple_carry = multiple_more;
    }
    let (last, carry) = product_carry.carrying_add(multiple_carry, top);
    sum[len - 1] = last;
    carry
}

// Montgomery's product: a * b / R modulo n.
fn multiply(out: &mut [u64], a: &[u64], b: &[u64], n: &[u64])
    requires length_of_out { length out.old ≡ length n.now }
    requires length_of_a { length a.now ≡ length n.now }
    requires length_of_b { length b.now ≡ length n.now }
    requires odd { value n.now % 2 ≡ 1 }
    requires reduced { value b.now < value n.now }
    ensures reduced { value out.new < value n.now }
    ensures product { value out.new * weight (length n.now) % value n.now
        ≡ value a.now * value b.now % value n.now }
{
    let inverse = negated_inverse(n[0]);
    out.fill(0);
    let mut top = false;
    for digit in a {
        top = add_row(out, top, b, *digit, n, inverse);
    }
    reduce_once(out, top, n);
}

// Montgomery's product, in the place of the first factor.
fn multiply_in_place(acc: &mut [u64], b: &[u64], n: &[u64], scratch: &mut [u64])
    requires length_of_acc { length acc.old ≡ length n.now }
    requires length_of_b { length b.now ≡ length n.now }
    requires length_of_scratch { length scratch.old ≡ length n.now }
    requires odd { value n.now % 2 ≡ 1 }
    requires reduced { value b.now < value n.now }
    ensures reduced { value acc.new < value n.now }
    ensures product { value acc.new * weight (length n.now) % value n.now
        ≡ value acc.old * value b.now % value n.now }
{
    multiply(scratch, acc, b, n);
    acc.copy_from_slice(scratch);
}

// Montgomery's square, in place.
fn square_in_place(acc: &mut [u64], n: &[u64], scratch: &mut [u64])
    requires length_of_acc { length acc.old ≡ length n.now }
    requires length_of_scratch { length scratch.old ≡ length n.now }
    requires odd { value n.now % 2 ≡ 1 }
    requires reduced { value acc.old < value n.now }
    ensures reduced { value acc.new < value n.now }
    ensures product { value acc.new * weight (length n.now) % value n.now
        ≡ value acc.old * value acc.old % value n.now }
{
    multiply(scratch, acc, acc, n);
    acc.copy_from_slice(scratch);
}

// Doubles modulo n.
fn double_modulo(limbs: &mut [u64], n: &[u64])
    requires same_length { length limbs.old ≡ length n.now }
    requires reduced { value limbs.old < value n.now }
    ensures { value limbs.new ≡ 2 * value limbs.old % value n.now }
{
    let top = double(limbs);
    reduce_once(limbs, top, n);
}

/// R^2 modulo `n`, by doubling 1 as often as R^2 has zero bits. A key keeps it.
pub(crate) fn r_squared(out: &mut [u64], n: &[u64])
    requires same_length { length out.old ≡ length n.now }
    requires not_too_long { length n.now ≤ 128 }
    requires above_one { 1 < value n.now }
    ensures { value out.new ≡ weight (2 * length n.now) % value n.now }
{
    set_one(out);
    for _i in 0..128 * n.len() {
        double_modulo(out, n);
    }
}

// Raises to a power what acc stands for: squares for each bit of the exponent after the first, and
// multiplies where the bit is set.
fn raise(acc: &mut [u64], base: &[u64], exponent: u64, n: &[u64], scratch: &mut [u64])
    requires length_of_acc { length acc.old ≡ length n.now }
    requires length_of_base { length base.now ≡ length n.now }
    requires length_of_scratch { length scratch.old ≡ length n.now }
    requires odd { value n.now % 2 ≡ 1 }
    requires reduced { value base.now < value n.now }
    requires not_zero { 0 < exponent }
    requires acc { value acc.old ≡ value base.now }
    ensures reduced { value acc.new < value n.now }
    ensures power { (x : ℕ) → StandsFor (value n.now) (weight (length n.now)) (value base.now) x
        → StandsFor (value n.now) (weight (length n.now)) (value acc.new) (x ^ exponent) }
{
    for i in (0..exponent.ilog2()).rev() {
        square_in_place(acc, n, scratch);
        if exponent >> i & 1 == 1 {
            multiply_in_place(acc, base, n, scratch);
        }
    }
}

/// `base ^ exponent` modulo `n`, of which R^2 is at hand. The last product, by `base` itself, leaves
/// Montgomery's form.
pub(crate) fn power(
    out: &mut [u64],
    base: &[u64],
    exponent: u64,
    n: &[u64],
    r_squared: &[u64],
    scratch: &mut [u64],
)
    requires length_of_out { length out.old ≡ length n.now }
    requires length_of_base { length base.now ≡ length n.now }
    requires length_of_r_squared { length r_squared.now ≡ length n.now }
    requires length_of_scratch { length scratch.old ≡ length n.now }
    requires not_too_long { length n.now ≤ 128 }
    requires odd { value n.now % 2 ≡ 1 }
    requires reduced { value base.now < value n.now }
    requires r_squared { value r_squared.now ≡ weight (2 * length n.now) % value n.now }
    requires above_one { 1 < exponent }
    ensures { value out.new ≡ value base.now ^ exponent % value n.now }
{
    let mut form_limbs = [0; MAX_LIMBS];
    let form = &mut form_limbs[..n.len()];
    multiply(form, base, r_squared, n);
    out.copy_from_slice(form);
    raise(out, form, exponent - 1, n, scratch);
    multiply_in_place(out, base, n, scratch);
}
