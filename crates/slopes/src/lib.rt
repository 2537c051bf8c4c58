// Numbers with a slope beside plain ones: a D with an f64, and the elementary functions of a D, by the slope rules of document 02's Slip 1.
#![tactic(auto)]

ghost use Rattle.std.specs.Prelude.{◌≡◌, false};
ghost use Rattle.number.specs.Arith.{floats, decimal};
ghost use Rattle.elementary.specs.Port.{port};
ghost use Rattle.dual.specs.Dual.{plain_d, add_d, sub_d, mul_d, div_d};
ghost use Rattle.dual.specs.Value.{dual_of};
ghost use Rattle.slopes.specs.Rules.{real_power, exp_d, ln1p_d, ln_d};
ghost use Rattle.slopes.specs.Staged.{slope_inside, slope_exponent_of, raised_of};
ghost use Rattle.number.specs.Answer.{answer_by};

use binary_log::Log;
use dual::Dual;
use number::Refusal;
use power::FixedExponent;

// An exponent, and in fixed point it and the exponent of its slope, which is one less.
#[derive(Clone, Copy)]
pub struct SlopeExponent {
    pub e: f64,
    pub at: FixedExponent,
    pub below: FixedExponent,
}

// 1 / x.
pub fn recip(x: Dual) -> Dual
    ensures { dual_of result ≡ div_d floats (plain_d floats (decimal false 1 0)) (dual_of x) }
{
    Dual {
        re: 1.0 / x.re,
        eps: (0.0 * x.re - 1.0 * x.eps) / (x.re * x.re),
    }
}

// Whether an exponent and the one below it lie within the power's domain.
pub fn exponent_inside(e: f64) -> bool
    ensures { result ≡ slope_inside e }
{
    power::exponent_inside(e) & power::exponent_inside(e - 1.0)
}

pub fn exponent(e: f64) -> SlopeExponent
    ensures { result ≡ slope_exponent_of e }
{
    SlopeExponent {
        e,
        at: power::exponent(e),
        below: power::exponent(e - 1.0),
    }
}

// The power of a base by its logarithm and its slope.
pub fn raise(log: Log, slope: f64, exponent: SlopeExponent) -> Dual
    ensures { dual_of result ≡ raised_of log slope exponent }
{
    let value = power::raise(log, exponent.at);
    let below = power::raise(log, exponent.below);
    Dual {
        re: value,
        eps: exponent.e * below * slope,
    }
}

// x.powf(e); refused where one of the two powers is outside its domain.
pub fn powf(x: Dual, e: f64) -> Result<Dual, Refusal>
    ensures { answer_by dual_of result ≡ real_power port (dual_of x) e }
{
    if !binary_log::base_inside(x.re) {
        return Err(Refusal::Domain);
    }
    if !exponent_inside(e) {
        return Err(Refusal::Domain);
    }
    Ok(raise(binary_log::log_base(x.re), x.eps, exponent(e)))
}

pub fn exp(x: Dual) -> Result<Dual, Refusal>
    ensures { answer_by dual_of result ≡ exp_d port (dual_of x) }
{
    let v = elementary::exp(x.re)?;
    Ok(Dual {
        re: v,
        eps: v * x.eps,
    })
}

pub fn ln_1p(x: Dual) -> Result<Dual, Refusal>
    ensures { answer_by dual_of result ≡ ln1p_d port (dual_of x) }
{
    let v = elementary::ln_1p(x.re)?;
    Ok(Dual {
        re: v,
        eps: x.eps / (1.0 + x.re),
    })
}

pub fn ln(x: Dual) -> Result<Dual, Refusal>
    ensures { answer_by dual_of result ≡ ln_d port (dual_of x) }
{
    let v = elementary::ln(x.re)?;
    Ok(Dual {
        re: v,
        eps: x.eps / x.re,
    })
}
