// powf(base, exponent), base 1/32 to 32, exponent -192 to 192, in stages: the base's binary logarithm (`log_base`), the exponent in fixed point (`exponent`), and `raise`, which multiplies the two and takes 2 to the product (`raise_core`). A caller that needs several powers of one base works its logarithm once; the bits stay those of `powf`.
// Error, as a part of the power: the logarithm's 17/16 units of 2^-61 by 192 ln 2, 2^-53.8; the exponent's and the product's floors, 13/8 units of 2^-53 by ln 2, 2^-52.8; the core's table and series, 2^-54.5, and the rounding to an f64, 2^-53. In all less than 2^-50. Exponent 1 gives the base itself; exponents 0 and base 1 come out as 1.
#![tactic(auto)]

ghost use Rattle.std.specs.Prelude.{◌≡◌, ◌*◌, ◌^◌, ◌≤◌, ◌<◌};
ghost use Rattle.number.specs.Answer.{answer};
ghost use Rattle.number.specs.Domain.{exponent_inside};
ghost use Rattle.power.specs.Power.{exponent_of, product_of, word_of, power_of, powf_of};

use binary_log::{Log, base_inside, log_base};
use exponential::raise_core;
use fixed_point::{exponent_field, high_product, is_negative, shift_right, significand};
use number::Refusal;

// An exponent in fixed point: the size in units of 2^-56, whether it is below 0, and whether it is 1. Both are flags: the size and the sign of 1 stand as any other's, and `word` takes them without asking for it.
#[derive(Clone, Copy)]
pub struct FixedExponent {
    pub size: u64,
    pub negative: bool,
    pub one: bool,
}

// -192 to 192, ends included.
pub fn exponent_inside(y: f64) -> bool
    ensures { result ≡ exponent_inside y }
{
    number::within(-192.0, 192.0, y)
}

// An exponent; outside the domain 0.
pub fn exponent(y: f64) -> FixedExponent
    ensures { result ≡ exponent_of y }
{
    if !exponent_inside(y) {
        return FixedExponent {
            size: 0,
            negative: false,
            one: false,
        };
    }
    let b = f64::to_bits(y);
    let size = shift_right(significand(b) * 2048, 1030 - exponent_field(b));
    FixedExponent {
        size,
        negative: is_negative(b),
        one: b == 0x3ff0_0000_0000_0000,
    }
}

// The size of the product, in units of 2^-53. The limit is for what no base and exponent give.
fn product(log: u64, exponent: u64) -> u64
    ensures value { result ≡ product_of log exponent }
    ensures small { result ≤ 1022 * 2 ^ 53 }
{
    high_product(exponent, log).min(0x7fc0_0000_0000_0000)
}

// The product plus 1023, as the core takes it.
fn word(log: Log, exponent: FixedExponent) -> u64
    ensures value { result ≡ word_of log exponent }
    ensures range { (2 ^ 53 ≤ result) × (result < 2046 * 2 ^ 53) }
{
    let v = product(log.size, exponent.size);
    if log.negative == exponent.negative {
        0x7fe0_0000_0000_0000 + v
    } else {
        0x7fe0_0000_0000_0000 - v
    }
}

// The power of a base by its logarithm.
pub fn raise(log: Log, exponent: FixedExponent) -> f64
    ensures { result ≡ power_of log exponent }
{
    if exponent.one {
        return log.base;
    }
    raise_core(word(log, exponent))
}

// The power; refuses with 6 where the base or the exponent is outside its domain.
pub fn powf(x: f64, y: f64) -> Result<f64, Refusal>
    ensures { answer result ≡ powf_of x y }
{
    if !base_inside(x) {
        return Err(Refusal::Domain);
    }
    if !exponent_inside(y) {
        return Err(Refusal::Domain);
    }
    Ok(raise(log_base(x), exponent(y)))
}
