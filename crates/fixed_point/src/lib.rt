// Fixed point in u64, for the elementary functions: products, quotients, Horner's rule, and the way back to f64. Each result is rounded down, so an error is at most one unit a step and has one sign.
#![tactic(auto)]

ghost use Rattle.std.specs.Prelude.{ℕ, drop, ◌≡◌, ◌+◌, ◌*◌, ◌/◌, ◌^◌, ◌≤◌, ◌<◌, leb};
ghost use Rattle.std.specs.Int.{from_bool};
ghost use Rattle.std.specs.Int.Count.{count_leading_zeros};
ghost use Rattle.fixed_point.specs.Fields.{exponent_field, significand};
ghost use Rattle.fixed_point.specs.Horner.{horner};
ghost use Rattle.fixed_point.specs.Quotient.{quotient};
ghost use Rattle.fixed_point.specs.Pack.{packed};

// The upper 64 bits of u * v. The cast is proved to lose no digit: u64::try_from would answer an error that cannot come.
pub fn high_product(u: u64, v: u64) -> u64
    ensures value { result ≡ u * v / 2 ^ 64 }
    ensures small { result ≤ v }
{
    ((u128::from(u) * u128::from(v)) >> 64) as u64
}

// The polynomial c₀ + q (c₁ + q (c₂ + ..)), q in units of 2^-64, by Horner's rule: from the last coefficient on. Each sum on the way fits.
pub fn polynomial_at(coefficients: &[u64], q: u64) -> u64
    requires { (i : ℕ) → horner (drop i coefficients.now) q < 2 ^ 64 }
    ensures { result ≡ horner coefficients.now q }
{
    let mut sum = 0;
    for c in coefficients.iter().rev() {
        sum = *c + high_product(sum, q);
    }
    sum
}

// The quotient n / d in units of 2^-64, from below, off by at most 17 units (7 for d from 5/3 * 2^62 on). No difference wraps for such n and d.
pub fn quot(n: u64, d: u64) -> u64
    requires { (2 ^ 62 ≤ d) × (5 * d ≤ 14 * 2 ^ 62) × (10 * n ≤ 3 * d) }
    ensures { result ≡ quotient n d }
{
    let d1 = d / 0x1_0000_0000;
    let d0 = d % 0x1_0000_0000;
    let dh = d1 + 1;
    let q1 = n / dh;
    let a = n - q1 * d1;
    let r = a * 0x1_0000_0000 - q1 * d0;
    q1 * 0x1_0000_0000 + r / dh
}

// y / 2^n, for any n. The library's unbounded_shr takes a u32: a caller's n, made of an exponent's field or of leading zeros, is a u64 and would be cast.
pub fn shift_right(y: u64, n: u64) -> u64
    ensures { result ≡ y / 2 ^ n }
{
    if n < 64 { y >> n } else { 0 }
}

// How many zeros stand above the highest bit of y.
pub fn leading_zeros(y: u64) -> u64
    ensures value { result ≡ count_leading_zeros 64 y }
    ensures small { result ≤ 64 }
{
    u64::from(u64::leading_zeros(y))
}

// Whether the sign's bit is set in an f64's bits.
pub fn is_negative(b: u64) -> bool
    ensures { result ≡ leb (2 ^ 63) b }
{
    0x8000_0000_0000_0000 <= b
}

// The exponent's field of an f64's bits.
pub fn exponent_field(b: u64) -> u64
    ensures { result ≡ exponent_field b }
{
    (b >> 52) % 2048
}

// The significand of a normal f64's bits, in units of 2^-52.
pub fn significand(b: u64) -> u64
    ensures { result ≡ significand b }
{
    b % 0x10_0000_0000_0000 + 0x10_0000_0000_0000
}

// The f64 nearest to y * 2^(e - 1085), or to its negative. It is a normal number for such e, so the exponent's field needs no case.
pub fn pack(negative: bool, y: u64, e: u64) -> f64
    requires { (0 < y) × (64 ≤ e) × (e ≤ 2044) }
    ensures { result ≡ packed (from_bool negative) y e }
{
    let l = leading_zeros(y);
    let m = ((y << l) / 1024 + 1) / 2;
    f64::from_bits(u64::from(negative) * 0x8000_0000_0000_0000 + (e - l) * 0x10_0000_0000_0000 + m)
}
