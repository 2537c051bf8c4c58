// The numbers with a slope that the chain is written over (the Rust's Dual): a value and a slope, both plain numbers of one run.
#![tactic(auto)]

ghost use Rattle.std.specs.Prelude.{◌≡◌, Bool, ℕ};
ghost use Rattle.std.proofs.Common.{rules};
ghost use Rattle.dual.specs.Dual.{DualOf, plain_d, add_d, sub_d, mul_d, div_d, neg_d, pow_d, down_d};
ghost use Rattle.dual.specs.Value as FloatValue;
ghost use Rattle.enclosure.specs.Enclosure.{enclosures};
ghost use Rattle.enclosure_dual.specs.Value as EnclosureValue;
ghost use Rattle.number.specs.Arith.{floats};
ghost use Rattle.slope_num.specs.Value.{slope_by};
ghost use Rattle.slope_num.specs.Laws.{one, two, beside};

use dual::Dual;
use enclosure::Enclosure;
use enclosure_dual::EnclosureDual;
use plain_num::PlainNum;
use std::ops::{Add, Div, Mul, Neg, Sub};

// The powers 2, 3 and 4 of a number.
#[derive(Clone, Copy)]
pub struct Powers<S> {
    pub second: S,
    pub third: S,
    pub fourth: S,
}

pub trait SlopeNum: Copy
    + Drop
    + Add<Self, Output = Self>
    + Sub<Self, Output = Self>
    + Mul<Self, Output = Self>
    + Div<Self, Output = Self>
    + Neg<Output = Self>
    + Add<Self::Re, Output = Self>
    + Sub<Self::Re, Output = Self>
    + Mul<Self::Re, Output = Self> {
    // The run's plain numbers.
    type Re: PlainNum;

    // Value and slope; the formulas of specs/ see each as its run does.
    ghost parts: { Self → DualOf Self.Re };

    fn new(re: Self::Re, eps: Self::Re) -> Self
        ensures { parts result ≡ record { re = re; eps = eps } };

    // A plain number: slope +0.
    fn plain(c: Self::Re) -> Self
        ensures { (w : Bool) → slope_by parts (Self.Re.of w) result ≡ plain_d (Self.Re.beside w) (Self.Re.of w c) };

    fn re(self) -> Self::Re
        ensures { result ≡ (parts self).re };

    fn eps(self) -> Self::Re
        ensures { result ≡ (parts self).eps };

    // A plain number from the left.
    fn plain_mul(c: Self::Re, x: Self) -> Self
        ensures { (w : Bool) → slope_by parts (Self.Re.of w) result ≡ mul_d (Self.Re.beside w) (plain_d (Self.Re.beside w) (Self.Re.of w c)) (slope_by parts (Self.Re.of w) x) };

    // The whole power minus n.
    fn powi_down(self, n: u16) -> Self
        ensures { (w : Bool) → slope_by parts (Self.Re.of w) result ≡ down_d (Self.Re.beside w) (slope_by parts (Self.Re.of w) self) n };

    // The whole powers 3 and 4, written out.
    fn cube(self) -> Self
        ensures { (w : Bool) → slope_by parts (Self.Re.of w) result ≡ pow_d (Self.Re.beside w) (slope_by parts (Self.Re.of w) self) 3 };

    fn fourth(self) -> Self
        ensures { (w : Bool) → slope_by parts (Self.Re.of w) result ≡ pow_d (Self.Re.beside w) (slope_by parts (Self.Re.of w) self) 4 };

    // They share their products.
    fn powers(self) -> Powers<Self>
        ensures second { (w : Bool) → slope_by parts (Self.Re.of w) result.second ≡ pow_d (Self.Re.beside w) (slope_by parts (Self.Re.of w) self) 2 }
        ensures third { (w : Bool) → slope_by parts (Self.Re.of w) result.third ≡ pow_d (Self.Re.beside w) (slope_by parts (Self.Re.of w) self) 3 }
        ensures fourth { (w : Bool) → slope_by parts (Self.Re.of w) result.fourth ≡ pow_d (Self.Re.beside w) (slope_by parts (Self.Re.of w) self) 4 };

    ghost can_add_law: { (x y : Self) → ⟦<Self as Add<Self>>⟧.can_add x y };

    ghost can_sub_law: { (x y : Self) → ⟦<Self as Sub<Self>>⟧.can_sub x y };

    ghost can_mul_law: { (x y : Self) → ⟦<Self as Mul<Self>>⟧.can_mul x y };

    ghost can_div_law: { (x y : Self) → ⟦<Self as Div<Self>>⟧.can_div x y };

    ghost can_neg_law: { (x : Self) → Self.can_neg x };

    ghost can_add_plain_law: { (x : Self) (c : Self.Re) → ⟦<Self as Add<Self::Re>>⟧.can_add x c };

    ghost can_sub_plain_law: { (x : Self) (c : Self.Re) → ⟦<Self as Sub<Self::Re>>⟧.can_sub x c };

    ghost can_mul_plain_law: { (x : Self) (c : Self.Re) → ⟦<Self as Mul<Self::Re>>⟧.can_mul x c };

    ghost add_law: { (w : Bool) (x y r : Self) → ⟦<Self as Add<Self>>⟧.add_gives x y r → slope_by parts (Self.Re.of w) r ≡ add_d (Self.Re.beside w) (slope_by parts (Self.Re.of w) x) (slope_by parts (Self.Re.of w) y) };

    ghost sub_law: { (w : Bool) (x y r : Self) → ⟦<Self as Sub<Self>>⟧.sub_gives x y r → slope_by parts (Self.Re.of w) r ≡ sub_d (Self.Re.beside w) (slope_by parts (Self.Re.of w) x) (slope_by parts (Self.Re.of w) y) };

    ghost mul_law: { (w : Bool) (x y r : Self) → ⟦<Self as Mul<Self>>⟧.mul_gives x y r → slope_by parts (Self.Re.of w) r ≡ mul_d (Self.Re.beside w) (slope_by parts (Self.Re.of w) x) (slope_by parts (Self.Re.of w) y) };

    ghost div_law: { (w : Bool) (x y r : Self) → ⟦<Self as Div<Self>>⟧.div_gives x y r → slope_by parts (Self.Re.of w) r ≡ div_d (Self.Re.beside w) (slope_by parts (Self.Re.of w) x) (slope_by parts (Self.Re.of w) y) };

    ghost neg_law: { (w : Bool) (x r : Self) → Self.neg_gives x r → slope_by parts (Self.Re.of w) r ≡ neg_d (Self.Re.beside w) (slope_by parts (Self.Re.of w) x) };

    // Beside a plain number.
    ghost add_plain_law: { (w : Bool) (x r : Self) (c : Self.Re) → ⟦<Self as Add<Self::Re>>⟧.add_gives x c r → slope_by parts (Self.Re.of w) r ≡ add_d (Self.Re.beside w) (slope_by parts (Self.Re.of w) x) (plain_d (Self.Re.beside w) (Self.Re.of w c)) };

    ghost sub_plain_law: { (w : Bool) (x r : Self) (c : Self.Re) → ⟦<Self as Sub<Self::Re>>⟧.sub_gives x c r → slope_by parts (Self.Re.of w) r ≡ sub_d (Self.Re.beside w) (slope_by parts (Self.Re.of w) x) (plain_d (Self.Re.beside w) (Self.Re.of w c)) };

    ghost mul_plain_law: { (w : Bool) (x r : Self) (c : Self.Re) → ⟦<Self as Mul<Self::Re>>⟧.mul_gives x c r → slope_by parts (Self.Re.of w) r ≡ mul_d (Self.Re.beside w) (slope_by parts (Self.Re.of w) x) (plain_d (Self.Re.beside w) (Self.Re.of w c)) };
}

impl SlopeNum for Dual {
    type Re = f64;

    ghost parts = { FloatValue.dual_of };

    #[inline(always)]
    fn new(re: f64, eps: f64) -> Dual {
        Dual { re, eps }
    }

    #[inline(always)]
    fn plain(c: f64) -> Dual {
        Dual::plain(c)
    }

    #[inline(always)]
    fn re(self) -> f64 {
        self.re
    }

    #[inline(always)]
    fn eps(self) -> f64 {
        self.eps
    }

    #[inline(always)]
    fn plain_mul(c: f64, x: Dual) -> Dual {
        Dual::plain(c) * x
    }

    fn powi_down(self, n: u16) -> Dual {
        self.pow_down(n)
    }

    #[inline(always)]
    fn cube(self) -> Dual {
        Dual::cube(self)
    }

    #[inline(always)]
    fn fourth(self) -> Dual {
        let square = self.re * self.re;
        let cube = 1.0 * self.re * square;
        Dual {
            re: 1.0 * (square * square),
            eps: 4.0 * cube * self.eps,
        }
    }

    fn powers(self) -> Powers<Dual> {
        let times = self.re * self.re;
        let square = 1.0 * times;
        let cube = 1.0 * self.re * times;
        Powers {
            second: Dual {
                re: square,
                eps: 2.0 * (1.0 * self.re) * self.eps,
            },
            third: Dual {
                re: cube,
                eps: 3.0 * square * self.eps,
            },
            fourth: Dual {
                re: 1.0 * (times * times),
                eps: 4.0 * cube * self.eps,
            },
        }
    }

    ghost can_add_law = { Prim.search rules };

    ghost can_sub_law = { Prim.search rules };

    ghost can_mul_law = { Prim.search rules };

    ghost can_div_law = { Prim.search rules };

    ghost can_neg_law = { Prim.search rules };

    ghost can_add_plain_law = { Prim.search rules };

    ghost can_sub_plain_law = { Prim.search rules };

    ghost can_mul_plain_law = { Prim.search rules };

    ghost add_law = { λ w x y r h. two FloatValue.dual_of (add_d floats) x y r h };

    ghost sub_law = { λ w x y r h. two FloatValue.dual_of (sub_d floats) x y r h };

    ghost mul_law = { λ w x y r h. two FloatValue.dual_of (mul_d floats) x y r h };

    ghost div_law = { λ w x y r h. two FloatValue.dual_of (div_d floats) x y r h };

    ghost neg_law = { λ w x r h. one FloatValue.dual_of (neg_d floats) x r h };

    ghost add_plain_law = { λ w x r c h. beside FloatValue.dual_of (add_d floats) (plain_d floats) x r c h };

    ghost sub_plain_law = { λ w x r c h. beside FloatValue.dual_of (sub_d floats) (plain_d floats) x r c h };

    ghost mul_plain_law = { λ w x r c h. beside FloatValue.dual_of (mul_d floats) (plain_d floats) x r c h };
}

impl SlopeNum for EnclosureDual {
    type Re = Enclosure;

    ghost parts = { EnclosureValue.dual_of };

    #[inline(always)]
    fn new(re: Enclosure, eps: Enclosure) -> EnclosureDual {
        EnclosureDual { re, eps }
    }

    #[inline(always)]
    fn plain(c: Enclosure) -> EnclosureDual {
        EnclosureDual::plain(c)
    }

    #[inline(always)]
    fn re(self) -> Enclosure {
        self.re
    }

    #[inline(always)]
    fn eps(self) -> Enclosure {
        self.eps
    }

    #[inline(always)]
    fn plain_mul(c: Enclosure, x: EnclosureDual) -> EnclosureDual {
        enclosure_dual::plain_mul(c, x)
    }

    fn powi_down(self, n: u16) -> EnclosureDual {
        self.pow_down(n)
    }

    #[inline(always)]
    fn cube(self) -> EnclosureDual {
        let one = Enclosure::point(1.0);
        let square = self.re * self.re;
        let cube = one * self.re * square;
        let factor = Enclosure::point(3.0) * (one * square);
        EnclosureDual {
            re: cube,
            eps: factor * self.eps,
        }
    }

    #[inline(always)]
    fn fourth(self) -> EnclosureDual {
        let one = Enclosure::point(1.0);
        let square = self.re * self.re;
        let cube = one * self.re * square;
        let factor = Enclosure::point(4.0) * cube;
        EnclosureDual {
            re: one * (square * square),
            eps: factor * self.eps,
        }
    }

    fn powers(self) -> Powers<EnclosureDual> {
        let one = Enclosure::point(1.0);
        let itself = one * self.re;
        let times = self.re * self.re;
        let square = one * times;
        let cube = itself * times;
        let fourth = one * (times * times);
        let a = Enclosure::point(2.0) * itself;
        let b = Enclosure::point(3.0) * square;
        let c = Enclosure::point(4.0) * cube;
        Powers {
            second: EnclosureDual {
                re: square,
                eps: a * self.eps,
            },
            third: EnclosureDual {
                re: cube,
                eps: b * self.eps,
            },
            fourth: EnclosureDual {
                re: fourth,
                eps: c * self.eps,
            },
        }
    }

    ghost can_add_law = { Prim.search rules };

    ghost can_sub_law = { Prim.search rules };

    ghost can_mul_law = { Prim.search rules };

    ghost can_div_law = { Prim.search rules };

    ghost can_neg_law = { Prim.search rules };

    ghost can_add_plain_law = { Prim.search rules };

    ghost can_sub_plain_law = { Prim.search rules };

    ghost can_mul_plain_law = { Prim.search rules };

    ghost add_law = { λ w x y r h. two EnclosureValue.dual_of (add_d enclosures) x y r h };

    ghost sub_law = { λ w x y r h. two EnclosureValue.dual_of (sub_d enclosures) x y r h };

    ghost mul_law = { λ w x y r h. two EnclosureValue.dual_of (mul_d enclosures) x y r h };

    ghost div_law = { λ w x y r h. two EnclosureValue.dual_of (div_d enclosures) x y r h };

    ghost neg_law = { λ w x r h. one EnclosureValue.dual_of (neg_d enclosures) x r h };

    ghost add_plain_law = { λ w x r c h. beside EnclosureValue.dual_of (add_d enclosures) (plain_d enclosures) x r c h };

    ghost sub_plain_law = { λ w x r c h. beside EnclosureValue.dual_of (sub_d enclosures) (plain_d enclosures) x r c h };

    ghost mul_plain_law = { λ w x r c h. beside EnclosureValue.dual_of (mul_d enclosures) (plain_d enclosures) x r c h };
}
