// The natural logarithm of x and of 1 + v, in u64 fixed point; no float is added, multiplied or divided.
// ln x: x = 2^k w with 2/3 <= w < 4/3, which is document 01's own way, so no seam stands between the two. With z = (w - 1) / (w + 1) the series 2 (z + z^3/3 + ..) has 11 terms here, all positive, and is worked relative to z; k ln 2 is added in units of 2^-54.
// ln (1 + v): below 2^-54 in size v is the answer; below 1/4 w is 1 + v, k is 0 and z = v / (2 + v); from 1/4 on 1 + v is a whole number of v's last places, and goes the way of ln.
// Error budget, relative, 2^-48 being allowed. k = 0: 111 units of at least 2^59 (terms left out 104, quotient, square, series and product 7), then one rounding: 2^-51.5. Else 4 units of at least 2^51 (k ln 2, w's part), then one rounding: 2^-48.9. v for ln (1 + v): 2^-55.
// r, sh and a sign stand beside each other: as a struct they took 1.019 of the instructions of ln, by the sources compiled as Rust. n, d and a significand m are plain numbers: what is known of n and d differs from function to function, and a struct of m alone would be taken apart in each of the two functions that read it.
#![tactic(auto)]

ghost use Rattle.std.specs.Prelude.{not, ◌≡◌, ◌+◌, ◌*◌, ◌/◌, ◌%◌, ◌^◌, ◌≤◌, ◌<◌, T};
ghost use Rattle.std.specs.Int.{from_bool};
ghost use Rattle.std.specs.Float.{binary64};
ghost use Rattle.std.specs.Float.Ieee.{is_nan, to_bits};
ghost use Rattle.number.specs.Answer.{answer};
ghost use Rattle.fixed_point.specs.Fields.{exponent_field};
ghost use Rattle.logarithm.specs.Logarithm.{core, multiple, far, join, signed, reduced, ln_bits, ln_of};
ghost use Rattle.logarithm.specs.Logarithm.{small1p, moved1p, large1p, bits1p, value1p, ln1p_of};

use fixed_point::{exponent_field, is_negative, significand};
use number::Refusal;

// 2^63 / (2i + 1), rounded down.
static COEFFICIENTS: [u64; 11] = [
    9223372036854775808,
    3074457345618258602,
    1844674407370955161,
    1317624576693539401,
    1024819115206086200,
    838488366986797800,
    709490156681136600,
    614891469123651720,
    542551296285575047,
    485440633518672410,
    439208192231179800,
];

// The series at z = n / (d 2^sh), in units of 2^-(63 + sh).
fn core(n: u64, d: u64, sh: u64) -> u64
    requires { (5 * 2 ^ 62 ≤ 3 * d) × (5 * d ≤ 14 * 2 ^ 62) × (10 * n ≤ 3 * d) × (5 * n ≤ d * 2 ^ sh) × (sh < 64) }
    ensures { result ≡ core n d sh }
{
    let zn = fixed_point::quot(n, d);
    let z = zn >> sh;
    let q = fixed_point::high_product(z, z);
    let b = fixed_point::polynomial_at(&COEFFICIENTS, q);
    fixed_point::high_product(zn, b)
}

// k ln 2 in units of 2^-54.
fn multiple(k: u64) -> u64
    requires { k ≤ 1025 }
    ensures { result ≡ multiple k }
{
    k * 12486629536330718 + ((k * 7525737178955839) >> 54)
}

// k ln 2 plus r / 2^(62 + sh), either of them negative or not. The first is the larger, so no difference wraps.
fn far(k_negative: bool, k: u64, r_negative: bool, r: u64, sh: u64) -> f64
    requires { (0 < k) × (k ≤ 1025) × (sh < 64) × (r / 2 ^ (sh + 8) ≤ 2 ^ 53) }
    ensures { result ≡ far (from_bool k_negative) k (from_bool r_negative) r sh }
{
    let a = multiple(k);
    let c = fixed_point::shift_right(r, sh + 8);
    if r_negative == k_negative {
        return fixed_point::pack(k_negative, a + c, 1031);
    }
    fixed_point::pack(k_negative, a - c, 1031)
}

// (k - 1023) ln 2 plus r / 2^(62 + sh), the latter negative or not.
fn join(k: u64, negative: bool, r: u64, sh: u64) -> f64
    requires { (k ≤ 2048) × (sh < 64) × (r / 2 ^ (sh + 8) ≤ 2 ^ 53) }
    ensures { result ≡ join k (from_bool negative) r sh }
{
    if k == 1023 {
        if r == 0 {
            return 0.0;
        }
        return fixed_point::pack(negative, r, 1023 - sh);
    }
    if k < 1023 {
        return far(true, 1023 - k, negative, r, sh);
    }
    far(false, k - 1023, negative, r, sh)
}

// The logarithm of 2^(k - 1023) w, n / d being the size of z, which may be negative.
fn signed(k: u64, negative: bool, n: u64, d: u64) -> f64
    requires { (k ≤ 2048) × (5 * 2 ^ 62 ≤ 3 * d) × (5 * d ≤ 14 * 2 ^ 62) × (5 * n ≤ d) × (n < 2 ^ 61) }
    ensures { result ≡ signed k (from_bool negative) n d }
{
    let sh = fixed_point::leading_zeros(n) - 3;
    let r = core(n << sh, d, sh);
    join(k, negative, r, sh)
}

// The logarithm of 2^(k - 1023) m, m from 1 up to 2 in units of 2^-63. The last two bits are 0, so w loses no digit.
fn reduced(k: u64, m: u64) -> f64
    requires { (k ≤ 2047) × (2 ^ 63 ≤ m) × (m % 4 ≡ 0) }
    ensures { result ≡ reduced k m }
{
    if m < 12297829382473034411 {
        let w = m / 2;
        return signed(k, false, w - 4611686018427387904, w + 4611686018427387904);
    }
    let w = m / 4;
    signed(
        k + 1,
        true,
        4611686018427387904 - w,
        w + 4611686018427387904,
    )
}

// The logarithm of a positive normal number by its bits.
fn ln_bits(b: u64) -> f64
    ensures { result ≡ ln_bits b }
{
    reduced(exponent_field(b), significand(b) * 2048)
}

// The natural logarithm, for a positive, normal, finite x.
pub fn ln(x: f64) -> Result<f64, Refusal>
    ensures { answer result ≡ ln_of x }
{
    if !number::within(f64::MIN_POSITIVE, f64::MAX, x) {
        return Err(Refusal::Domain);
    }
    Ok(ln_bits(f64::to_bits(x)))
}

// ln(1 + v) for |v| < 1/4, |v| = m 2^(f - 1075).
fn small_1p(negative: bool, f: u64, m: u64) -> f64
    requires { (969 ≤ f) × (f < 1021) × (2 ^ 52 ≤ m) × (m < 2 ^ 53) }
    ensures { result ≡ small1p (from_bool negative) f m }
{
    let sh = 1021 - f;
    let n = m * 256;
    let v = n >> sh;
    if negative {
        let r = core(n, 9223372036854775808 - v, sh);
        return join(1023, negative, r, sh);
    }
    let r = core(n, 9223372036854775808 + v, sh);
    join(1023, negative, r, sh)
}

// The logarithm of y 2^(f - 1075).
fn moved_1p(f: u64, y: u64) -> f64
    requires { (1021 ≤ f) × (f ≤ 1043) × (0 < y) × (y < 2 ^ 55) }
    ensures { result ≡ moved1p f y }
{
    let l = fixed_point::leading_zeros(y);
    reduced(f + 11 - l, y << l)
}

// ln(1 + v) for |v| from 1/4 on: 1 + v is a whole number of v's last places.
fn large_1p(negative: bool, f: u64, m: u64) -> f64
    requires { (1021 ≤ f) × (f + 21 * from_bool negative ≤ 1043) × (2 ^ 52 ≤ m) × (m < 2 ^ 53) }
    ensures { result ≡ large1p (from_bool negative) f m }
{
    let one = 1 << (1075 - f);
    if negative {
        return moved_1p(f, one - m);
    }
    moved_1p(f, one + m)
}

// ln(1 + v) by the bits of v, which is at least 2^-54 in size.
fn bits_1p(b: u64) -> f64
    requires { (969 ≤ exponent_field b) × (exponent_field b + 21 * (b / 2 ^ 63) ≤ 1043) }
    ensures { result ≡ bits1p b }
{
    let negative = is_negative(b);
    let f = exponent_field(b);
    let m = significand(b);
    if f < 1021 {
        return small_1p(negative, f, m);
    }
    large_1p(negative, f, m)
}

// ln(1 + v) for any v of the domain; the requires is what the tests of the domain say of the bits.
fn value_1p(v: f64) -> f64
    requires { (T (not (is_nan v))) × (exponent_field (to_bits binary64 v) + 21 * (to_bits binary64 v / 2 ^ 63) ≤ 1043) }
    ensures { result ≡ value1p v }
{
    let b = f64::to_bits(v);
    if exponent_field(b) < 969 {
        return v;
    }
    bits_1p(b)
}

// The natural logarithm of 1 + v, for a v above -1, up to 2^20.
pub fn ln_1p(v: f64) -> Result<f64, Refusal>
    ensures { answer result ≡ ln1p_of v }
{
    if !(-1.0 < v) {
        return Err(Refusal::Domain);
    }
    if !(v <= 1048576.0) {
        return Err(Refusal::Domain);
    }
    Ok(value_1p(v))
}
