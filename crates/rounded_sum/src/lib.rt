// The sum of two floats, rounded, and what the rounding left as a second float.
#![tactic(auto)]

ghost use Rattle.std.specs.Prelude.{◌≡◌};
ghost use Rattle.std.specs.Float.{binary64};
ghost use Rattle.std.specs.Float.Ieee.{add, sub};
ghost use Rattle.number.specs.Arith.{zero64};
ghost use Rattle.rounded_sum.specs.RoundedSum.{rounded_sum};

#[derive(Clone, Copy)]
pub struct RoundedSum {
    pub sum: f64,
    pub remainder: f64,
}

// What is left of larger + smaller: both differences are exact where the sum is finite and `larger` is no less in magnitude. Adding +0 turns -0 into +0.
fn remainder(sum: f64, larger: f64, smaller: f64) -> f64
    ensures { result ≡ add binary64 (sub binary64 smaller (sub binary64 sum larger)) zero64 }
{
    smaller - (sum - larger) + 0.0
}

pub fn rounded_sum(x: f64, y: f64) -> RoundedSum
    ensures { result ≡ rounded_sum x y }
{
    let sum = x + y;
    if !number::is_finite(sum) {
        return RoundedSum {
            sum,
            remainder: 0.0,
        };
    }
    let remainder = if number::abs(x) < number::abs(y) {
        remainder(sum, y, x)
    } else {
        remainder(sum, x, y)
    };
    RoundedSum { sum, remainder }
}
