// Dual numbers in the two-ended run: a value and a slope, both enclosures, by document 01's slope rules.
#![tactic(auto)]

ghost use Rattle.std.specs.Prelude.{◌≡◌};
ghost use Rattle.number.specs.Arith.{zero64};
ghost use Rattle.enclosure.specs.Enclosure.{enclosures, mul_e, point};
ghost use Rattle.dual.specs.Dual.{plain_d, add_d, sub_d, mul_d, div_d, neg_d, pow_d, down_d, after_d};
ghost use Rattle.enclosure_dual.specs.Value.{dual_of, about_zero};

use enclosure::Enclosure;
use interval::Interval;
use std::ops::{Add, Div, Mul, Neg, Sub};

// `Dual` at enclosures, but for products with a plain number's slope: `times_zero` and `zero_times` know their ends, so it is not one struct over any arithmetic.
#[derive(Clone, Copy)]
pub struct EnclosureDual {
    pub re: Enclosure,
    pub eps: Enclosure,
}

// The floats next to zero.
fn about_zero(sound: bool) -> Interval
    ensures { result ≡ about_zero sound }
{
    Interval {
        lower: f64::from_bits(0x8000_0000_0000_0001),
        upper: f64::from_bits(1),
        sound,
    }
}

impl EnclosureDual {
    // A plain number: slope +0. Not From<Enclosure>: the name says which slope.
    pub fn plain(x: Enclosure) -> EnclosureDual
        ensures { dual_of result ≡ plain_d enclosures x }
    {
        EnclosureDual {
            re: x,
            eps: Enclosure::point(0.0),
        }
    }

    // The whole power n.
    pub fn pow_up(self, n: u16) -> EnclosureDual
        ensures { dual_of result ≡ pow_d enclosures (dual_of self) n }
    {
        if n == 0 {
            return EnclosureDual {
                re: self.re.pow_up(0),
                eps: Enclosure::point(0.0),
            };
        }
        let below = self.re.pow_up(u32::from(n) - 1);
        let factor = Enclosure::point(f64::from(n)) * below;
        EnclosureDual {
            re: self.re.pow_up(u32::from(n)),
            eps: factor * self.eps,
        }
    }

    // The whole power minus n. Beside pow_up it differs in the power's way, in the exponent next to n and in a sign: one text would take all three.
    pub fn pow_down(self, n: u16) -> EnclosureDual
        ensures { dual_of result ≡ down_d enclosures (dual_of self) n }
    {
        if n == 0 {
            return EnclosureDual {
                re: self.re.pow_down(0),
                eps: Enclosure::point(0.0),
            };
        }
        let beyond = self.re.pow_down(u32::from(n) + 1);
        let factor = Enclosure::point(-f64::from(n)) * beyond;
        EnclosureDual {
            re: self.re.pow_down(u32::from(n)),
            eps: factor * self.eps,
        }
    }

    // x, where both parts of u were worked on the way.
    pub fn after(self, u: EnclosureDual) -> EnclosureDual
        ensures { dual_of result ≡ after_d enclosures (dual_of u) (dual_of self) }
    {
        let worked = self.re.after(u.eps);
        let slope = self.eps;
        EnclosureDual {
            re: worked.after(u.re),
            eps: slope,
        }
    }
}

impl Add for EnclosureDual {
    type Output = EnclosureDual;

    ghost add_gives = { λ x y r. dual_of r ≡ add_d enclosures (dual_of x) (dual_of y) };

    #[inline(always)]
    fn add(self, y: EnclosureDual) -> EnclosureDual {
        EnclosureDual {
            re: self.re + y.re,
            eps: self.eps + y.eps,
        }
    }
}

impl Sub for EnclosureDual {
    type Output = EnclosureDual;

    ghost sub_gives = { λ x y r. dual_of r ≡ sub_d enclosures (dual_of x) (dual_of y) };

    #[inline(always)]
    fn sub(self, y: EnclosureDual) -> EnclosureDual {
        EnclosureDual {
            re: self.re - y.re,
            eps: self.eps - y.eps,
        }
    }
}

impl Neg for EnclosureDual {
    type Output = EnclosureDual;

    ghost neg_gives = { λ x r. dual_of r ≡ neg_d enclosures (dual_of x) };

    #[inline(always)]
    fn neg(self) -> EnclosureDual {
        EnclosureDual {
            re: -self.re,
            eps: -self.eps,
        }
    }
}

impl Mul for EnclosureDual {
    type Output = EnclosureDual;

    ghost mul_gives = { λ x y r. dual_of r ≡ mul_d enclosures (dual_of x) (dual_of y) };

    #[inline(always)]
    fn mul(self, y: EnclosureDual) -> EnclosureDual {
        let left = self.eps * y.re;
        let right = self.re * y.eps;
        EnclosureDual {
            re: self.re * y.re,
            eps: left + right,
        }
    }
}

impl Div for EnclosureDual {
    type Output = EnclosureDual;

    ghost div_gives = { λ x y r. dual_of r ≡ div_d enclosures (dual_of x) (dual_of y) };

    #[inline(always)]
    fn div(self, y: EnclosureDual) -> EnclosureDual {
        let left = self.eps * y.re;
        let right = self.re * y.eps;
        let square = y.re * y.re;
        EnclosureDual {
            re: self.re / y.re,
            eps: (left - right) / square,
        }
    }
}

// By +0, a plain number's slope. Finite ends give the least floats about zero.
pub fn times_zero(x: Enclosure) -> Enclosure
    ensures { result ≡ mul_e x (point zero64) }
{
    let ends = x.ends;
    if !ends.is_finite() {
        return x * Enclosure::point(0.0);
    }
    Enclosure {
        value: x.value * 0.0,
        ends: about_zero(ends.sound),
    }
}

// The same from the left. One function of both would be handed both products, the run's and the general way's, for the two lines that it saves.
pub fn zero_times(x: Enclosure) -> Enclosure
    ensures { result ≡ mul_e (point zero64) x }
{
    let ends = x.ends;
    if !ends.is_finite() {
        return Enclosure::point(0.0) * x;
    }
    Enclosure {
        value: 0.0 * x.value,
        ends: about_zero(ends.sound),
    }
}

// Beside a plain number, which is taken as one with slope +0.
impl Add<Enclosure> for EnclosureDual {
    type Output = EnclosureDual;

    ghost add_gives = { λ x c r. dual_of r ≡ add_d enclosures (dual_of x) (plain_d enclosures c) };

    #[inline(always)]
    fn add(self, c: Enclosure) -> EnclosureDual {
        self + EnclosureDual::plain(c)
    }
}

impl Sub<Enclosure> for EnclosureDual {
    type Output = EnclosureDual;

    ghost sub_gives = { λ x c r. dual_of r ≡ sub_d enclosures (dual_of x) (plain_d enclosures c) };

    #[inline(always)]
    fn sub(self, c: Enclosure) -> EnclosureDual {
        self - EnclosureDual::plain(c)
    }
}

impl Mul<Enclosure> for EnclosureDual {
    type Output = EnclosureDual;

    ghost mul_gives = { λ x c r. dual_of r ≡ mul_d enclosures (dual_of x) (plain_d enclosures c) };

    #[inline(always)]
    fn mul(self, c: Enclosure) -> EnclosureDual {
        let left = self.eps * c;
        EnclosureDual {
            re: self.re * c,
            eps: left + times_zero(self.re),
        }
    }
}

// A plain number from the left.
#[inline(always)]
pub fn plain_mul(c: Enclosure, x: EnclosureDual) -> EnclosureDual
    ensures { dual_of result ≡ mul_d enclosures (plain_d enclosures c) (dual_of x) }
{
    let right = c * x.eps;
    EnclosureDual {
        re: c * x.re,
        eps: zero_times(x.re) + right,
    }
}
