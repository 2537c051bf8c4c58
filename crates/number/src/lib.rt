// Floats by their bits, the lesser and the greater of two, and the whole power.
#![tactic(auto)]

ghost use Rattle.std.specs.Prelude.{◌≡◌, ◌&&◌, ◌<◌, from_bits, to_bits};
ghost use Rattle.std.specs.Float.{binary64};
ghost use Rattle.std.specs.Float.Ieee.{le};
ghost use Rattle.std.specs.Float.Ieee.Scale.{finite};
ghost use Rattle.number.specs.Neighbour.{step_up, step_down, next_up, next_down, least, greatest, absolute};
ghost use Rattle.number.specs.Answer.{answer, if_finite};
ghost use Rattle.number.specs.Arith as Arith;
ghost use Rattle.number.specs.Arith.{floats};

mod arithmetic;
mod refusal;

pub use arithmetic::Arithmetic;
pub use refusal::Refusal;

// The float that a pattern stands for, of any pattern: all of a NaN's give the one NaN.
pub fn of_bits(n: u64) -> f64
    ensures { result ≡ from_bits binary64 n }
{
    if 0x7ff0_0000_0000_0000 < n % 0x8000_0000_0000_0000 {
        0.0 / 0.0
    } else {
        f64::from_bits(n)
    }
}

// The pattern of a float; of a NaN the one with only its highest digit set.
pub fn bits_of(x: f64) -> u64
    ensures { result ≡ to_bits binary64 x }
{
    if x == x {
        f64::to_bits(x)
    } else {
        0x7ff8_0000_0000_0000
    }
}

// Neither an infinity nor a NaN. By the library's test, x - x == 0, two ends take 1.02 times the instructions. The infinity by its bits: the library's is a quotient, 1.0 / 0.0.
pub fn is_finite(x: f64) -> bool
    ensures { result ≡ finite x }
{
    let inf = f64::from_bits(0x7ff0_0000_0000_0000);
    if x < inf { -inf < x } else { false }
}

// The number itself, for `?`. 7 where it is not finite.
pub fn if_finite(x: f64) -> Result<f64, Refusal>
    ensures { answer result ≡ if_finite x }
{
    if !is_finite(x) {
        return Err(Refusal::NotFinite);
    }
    Ok(x)
}

// The pattern of the next float up.
fn step_up(b: u64) -> u64
    ensures { result ≡ step_up b }
{
    if b < 0x8000_0000_0000_0000 {
        b + 1
    } else if b == 0x8000_0000_0000_0000 {
        1
    } else if b == 0x8000_0000_0000_0001 {
        0
    } else {
        b - 1
    }
}

// The pattern of the next float down; a finite float's is never the last of all. Beside step_up: a step onto zero gives +0 from either side, so the cases at zero differ.
fn step_down(b: u64) -> u64
    requires { b < 0xffff_ffff_ffff_ffff }
    ensures { result ≡ step_down b }
{
    if 0x8000_0000_0000_0000 < b {
        b + 1
    } else if b == 0x8000_0000_0000_0000 {
        0x8000_0000_0000_0001
    } else if b == 0 {
        0x8000_0000_0000_0001
    } else {
        b - 1
    }
}

// The least float above x; what is not finite is given back. The library's next_up goes on from -infinity and gives -0 below the least float, where document 01 has +0.
pub fn next_up(x: f64) -> f64
    ensures { result ≡ next_up x }
{
    if is_finite(x) {
        let b = f64::to_bits(x);
        f64::from_bits(step_up(b))
    } else {
        x
    }
}

// The greatest float below x; what is not finite is given back. Beside next_up the step's name alone differs: a function over the step would be called in as many lines.
pub fn next_down(x: f64) -> f64
    ensures { result ≡ next_down x }
{
    if is_finite(x) {
        let b = f64::to_bits(x);
        f64::from_bits(step_down(b))
    } else {
        x
    }
}

// Of equals x, as document 01 has it; of two zeros the library's min may give either.
pub fn least(x: f64, y: f64) -> f64
    ensures { result ≡ least x y }
{
    if y < x { y } else { x }
}

pub fn greatest(x: f64, y: f64) -> f64
    ensures { result ≡ greatest x y }
{
    if x < y { y } else { x }
}

// Ends belong, NaN never.
pub fn within(low: f64, high: f64, x: f64) -> bool
    ensures { result ≡ (le low x && le x high) }
{
    (low <= x) & (x <= high)
}

// x.abs() with the definition's word: the library's clause has another.
pub fn abs(x: f64) -> f64
    ensures { result ≡ absolute x }
{
    x.abs()
}

// The whole power n, by its binary digits from the lowest: what is left is halved, no index is counted.
pub fn pow_up(x: f64, n: u32) -> f64
    ensures { result ≡ floats.pow x n }
{
    let mut acc = 1.0;
    let mut sq = x;
    let mut left = n;
    while 0 < left {
        if left % 2 == 1 {
            acc = acc * sq;
        }
        left = left / 2;
        if 0 < left {
            sq = sq * sq;
        }
    }
    acc
}

// The whole power minus n: it ends with 1 divided by the power n.
pub fn pow_down(x: f64, n: u32) -> f64
    ensures { result ≡ floats.pow_down x n }
{
    1.0 / pow_up(x, n)
}

pub fn powi(x: f64, n: i32) -> f64
    ensures { result ≡ Arith.powi floats x n }
{
    if n < 0 {
        pow_down(x, n.unsigned_abs())
    } else {
        pow_up(x, n.unsigned_abs())
    }
}
