// Dual numbers in floats: a value and a slope, by document 01's slope rules.
#![tactic(auto)]

ghost use Rattle.std.specs.Prelude.{◌≡◌};
ghost use Rattle.number.specs.Arith.{floats};
ghost use Rattle.dual.specs.Dual.{plain_d, add_d, sub_d, mul_d, div_d, neg_d, pow_d, down_d};
ghost use Rattle.dual.specs.Value.{dual_of};

use std::ops::{Add, Div, Mul, Neg, Sub};

// Document 01's Forms ask for a struct of two f64. `EnclosureDual` stands beside it: it knows the ends of a product with a plain number's slope, +0, which over any arithmetic would be worked.
#[derive(Clone, Copy)]
pub struct Dual {
    pub re: f64,
    pub eps: f64,
}

impl Dual {
    // A plain number: slope +0. Not From<f64>: the name says which slope.
    pub fn plain(x: f64) -> Dual
        ensures { dual_of result ≡ plain_d floats x }
    {
        Dual { re: x, eps: 0.0 }
    }

    // The whole power 3, written out.
    pub fn cube(self) -> Dual
        ensures { dual_of result ≡ pow_d floats (dual_of self) 3 }
    {
        let square = 1.0 * (self.re * self.re);
        Dual {
            re: 1.0 * self.re * (self.re * self.re),
            eps: 3.0 * square * self.eps,
        }
    }

    // The whole power n. (The formulas' exponents are small; a u16 leaves room for n + 1.)
    pub fn pow_up(self, n: u16) -> Dual
        ensures { dual_of result ≡ pow_d floats (dual_of self) n }
    {
        if n == 0 {
            return Dual {
                re: number::pow_up(self.re, 0),
                eps: 0.0,
            };
        }
        let below = number::pow_up(self.re, u32::from(n) - 1);
        Dual {
            re: number::pow_up(self.re, u32::from(n)),
            eps: f64::from(n) * below * self.eps,
        }
    }

    // The whole power minus n. Beside pow_up it differs in the power's way, in the exponent next to n and in a sign: one text would take all three.
    pub fn pow_down(self, n: u16) -> Dual
        ensures { dual_of result ≡ down_d floats (dual_of self) n }
    {
        if n == 0 {
            return Dual {
                re: number::pow_down(self.re, 0),
                eps: 0.0,
            };
        }
        let beyond = number::pow_down(self.re, u32::from(n) + 1);
        Dual {
            re: number::pow_down(self.re, u32::from(n)),
            eps: -f64::from(n) * beyond * self.eps,
        }
    }
}

impl Add for Dual {
    type Output = Dual;

    ghost add_gives = { λ x y r. dual_of r ≡ add_d floats (dual_of x) (dual_of y) };

    fn add(self, y: Dual) -> Dual {
        Dual {
            re: self.re + y.re,
            eps: self.eps + y.eps,
        }
    }
}

impl Sub for Dual {
    type Output = Dual;

    ghost sub_gives = { λ x y r. dual_of r ≡ sub_d floats (dual_of x) (dual_of y) };

    fn sub(self, y: Dual) -> Dual {
        Dual {
            re: self.re - y.re,
            eps: self.eps - y.eps,
        }
    }
}

impl Neg for Dual {
    type Output = Dual;

    ghost neg_gives = { λ x r. dual_of r ≡ neg_d floats (dual_of x) };

    fn neg(self) -> Dual {
        Dual {
            re: -self.re,
            eps: -self.eps,
        }
    }
}

impl Mul for Dual {
    type Output = Dual;

    ghost mul_gives = { λ x y r. dual_of r ≡ mul_d floats (dual_of x) (dual_of y) };

    fn mul(self, y: Dual) -> Dual {
        Dual {
            re: self.re * y.re,
            eps: self.eps * y.re + self.re * y.eps,
        }
    }
}

impl Div for Dual {
    type Output = Dual;

    ghost div_gives = { λ x y r. dual_of r ≡ div_d floats (dual_of x) (dual_of y) };

    fn div(self, y: Dual) -> Dual {
        Dual {
            re: self.re / y.re,
            eps: (self.eps * y.re - self.re * y.eps) / (y.re * y.re),
        }
    }
}

// Beside a plain number, which is taken as one with slope +0.
impl Add<f64> for Dual {
    type Output = Dual;

    ghost add_gives = { λ x c r. dual_of r ≡ add_d floats (dual_of x) (plain_d floats c) };

    fn add(self, c: f64) -> Dual {
        self + Dual::plain(c)
    }
}

impl Sub<f64> for Dual {
    type Output = Dual;

    ghost sub_gives = { λ x c r. dual_of r ≡ sub_d floats (dual_of x) (plain_d floats c) };

    fn sub(self, c: f64) -> Dual {
        self - Dual::plain(c)
    }
}

impl Mul<f64> for Dual {
    type Output = Dual;

    ghost mul_gives = { λ x c r. dual_of r ≡ mul_d floats (dual_of x) (plain_d floats c) };

    fn mul(self, c: f64) -> Dual {
        self * Dual::plain(c)
    }
}

impl Div<f64> for Dual {
    type Output = Dual;

    ghost div_gives = { λ x c r. dual_of r ≡ div_d floats (dual_of x) (plain_d floats c) };

    fn div(self, c: f64) -> Dual {
        self / Dual::plain(c)
    }
}
