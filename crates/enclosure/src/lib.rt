// Enclosures: the float run's value beside its two ends, for branches and for the arguments of elementary calls.
#![tactic(auto)]

ghost use Rattle.std.specs.Prelude.{◌≡◌, get_or};
ghost use Rattle.std.proofs.Common.{rules};
ghost use Rattle.number.specs.Arith.{Constant, zero64};
ghost use Rattle.number.specs.Functions.{answered, answered₂};
ghost use Rattle.enclosure.specs.Enclosure.{point, constant_e, add_e, sub_e, mul_e, div_e, neg_e, pow_e, down_e, after_e, enclosures};
ghost use Rattle.number.specs.Answer.{answer};
ghost use Rattle.enclosure.specs.Ends.{ends_in, ends_alone};
ghost use Rattle.enclosure.specs.Enclosed.{IsEnclosed};

use interval::Interval;
use number::{Arithmetic, Refusal};
use std::ops::{Add, Div, Mul, Neg, Sub};

#[derive(Clone, Copy)]
pub struct Enclosure {
    pub value: f64,
    pub ends: Interval,
}

// A constant of the source: its float, the greatest f64 not above it, and the least not below it.
#[derive(Clone, Copy)]
pub struct Enclosed {
    pub value: f64,
    pub below: f64,
    pub above: f64,
}

// An entry of a table of decimals, 0 beyond it. The table is a static, which stands in memory once: a const would be built at every call.
#[inline(always)]
pub fn table_entry(t: &[Enclosed], k: usize) -> Enclosed
    ensures { result ≡ get_or t.now k (record { value = zero64; below = zero64; above = zero64 }) }
{
    t.get(k).copied().unwrap_or(Enclosed {
        value: 0.0,
        below: 0.0,
        above: 0.0,
    })
}

// Document 01's two ends, as a two-ended operation reports them.
#[derive(Clone, Copy)]
pub struct Ends {
    pub lower: f64,
    pub upper: f64,
}

impl From<Enclosure> for Ends {
    ghost from_gives = { λ b r. r ≡ ends_in b };

    fn from(b: Enclosure) -> Ends {
        Ends {
            lower: b.ends.lower,
            upper: b.ends.upper,
        }
    }
}

impl Enclosure {
    // Not From<f64>: the name says which enclosure of x it is.
    pub fn point(x: f64) -> Enclosure
        ensures { result ≡ point x }
    {
        Enclosure {
            value: x,
            ends: Interval::point(x),
        }
    }

    // A constant whose ends are finite.
    #[inline(always)]
    pub fn constant(e: Enclosed) -> Enclosure
        ensures { (c : Constant) → IsEnclosed c e → result ≡ constant_e c }
    {
        Enclosure {
            value: e.value,
            ends: Interval {
                lower: e.below,
                upper: e.above,
                sound: true,
            },
        }
    }

    pub fn pow_up(self, n: u32) -> Enclosure
        ensures { result ≡ pow_e self n }
    {
        Enclosure {
            value: number::pow_up(self.value, n),
            ends: self.ends.pow_up(n),
        }
    }

    pub fn pow_down(self, n: u32) -> Enclosure
        ensures { result ≡ down_e self n }
    {
        Enclosure {
            value: number::pow_down(self.value, n),
            ends: self.ends.pow_down(n),
        }
    }

    // x, where u was worked on the way.
    pub fn after(self, u: Enclosure) -> Enclosure
        ensures { result ≡ after_e u self }
    {
        Enclosure {
            value: self.value,
            ends: self.ends.after(u.ends),
        }
    }
}

impl Add for Enclosure {
    type Output = Enclosure;

    ghost add_gives = { λ x y r. r ≡ add_e x y };

    fn add(self, y: Enclosure) -> Enclosure {
        Enclosure {
            value: self.value + y.value,
            ends: self.ends + y.ends,
        }
    }
}

impl Sub for Enclosure {
    type Output = Enclosure;

    ghost sub_gives = { λ x y r. r ≡ sub_e x y };

    fn sub(self, y: Enclosure) -> Enclosure {
        Enclosure {
            value: self.value - y.value,
            ends: self.ends - y.ends,
        }
    }
}

impl Mul for Enclosure {
    type Output = Enclosure;

    ghost mul_gives = { λ x y r. r ≡ mul_e x y };

    fn mul(self, y: Enclosure) -> Enclosure {
        Enclosure {
            value: self.value * y.value,
            ends: self.ends * y.ends,
        }
    }
}

impl Div for Enclosure {
    type Output = Enclosure;

    ghost div_gives = { λ x y r. r ≡ div_e x y };

    fn div(self, y: Enclosure) -> Enclosure {
        Enclosure {
            value: self.value / y.value,
            ends: self.ends / y.ends,
        }
    }
}

impl Neg for Enclosure {
    type Output = Enclosure;

    ghost neg_gives = { λ x r. r ≡ neg_e x };

    fn neg(self) -> Enclosure {
        Enclosure {
            value: -self.value,
            ends: -self.ends,
        }
    }
}

// An elementary call: the float run's answer as a point, after its argument.
pub fn answered(a: Result<f64, Refusal>, x: Enclosure) -> Result<Enclosure, Refusal>
    ensures { answer result ≡ answered enclosures (answer a) x }
{
    let v = a?;
    Ok(Enclosure::point(v).after(x))
}

// The same after two arguments.
pub fn answered_two(
    a: Result<f64, Refusal>,
    x: Enclosure,
    y: Enclosure,
) -> Result<Enclosure, Refusal>
    ensures { answer result ≡ answered₂ enclosures (answer a) x y }
{
    let v = a?;
    Ok(Enclosure::point(v).after(y).after(x))
}

// What a two-ended operation answers once its formula has: 6, 7, 8, or the ends.
pub fn ends_of(a: Result<Enclosure, Refusal>) -> Result<Ends, Refusal>
    ensures { answer result ≡ ends_alone (answer a) }
{
    let b = a?;
    if !number::is_finite(b.value) {
        return Err(Refusal::NotFinite);
    }
    if !b.ends.sound {
        return Err(Refusal::Unsound);
    }
    Ok(Ends::from(b))
}

impl Arithmetic for Enclosure {
    ghost arith = { enclosures };

    ghost of = { λ x. x };

    fn lit(x: f64) -> Enclosure {
        Enclosure::point(x)
    }

    fn square(self) -> Enclosure {
        self.pow_up(2u32)
    }

    fn cube(self) -> Enclosure {
        self.pow_up(3u32)
    }

    ghost can_add_law = { Prim.search rules };

    ghost can_sub_law = { Prim.search rules };

    ghost can_mul_law = { Prim.search rules };

    ghost can_div_law = { Prim.search rules };

    ghost can_neg_law = { Prim.search rules };

    ghost add_law = { Prim.search rules };

    ghost sub_law = { Prim.search rules };

    ghost mul_law = { Prim.search rules };

    ghost div_law = { Prim.search rules };

    ghost neg_law = { Prim.search rules };
}
