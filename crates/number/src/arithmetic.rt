// The arithmetic that the formulas are written over: floats, their enclosures, and whatever else has its operations.
ghost use Rattle.std.specs.Prelude.{◌≡◌};
ghost use Rattle.std.proofs.Common.{rules};
ghost use Rattle.number.specs.Arith.{Arith, floats};

use std::ops::{Add, Div, Mul, Neg, Sub};

pub trait Arithmetic: Copy
    + Drop
    + Add<Self, Output = Self>
    + Sub<Self, Output = Self>
    + Mul<Self, Output = Self>
    + Div<Self, Output = Self>
    + Neg<Output = Self> {
    ghost arith: { Arith };

    // A number as the formulas of specs/ see it.
    ghost of: { Self → arith.Num };

    // An input, a number of the source or an elementary answer.
    fn lit(x: f64) -> Self
        ensures { of result ≡ arith.lit x };

    // The whole powers 2 and 3, written out.
    fn square(self) -> Self
        ensures { of result ≡ arith.pow (of self) 2 };

    fn cube(self) -> Self
        ensures { of result ≡ arith.pow (of self) 3 };

    ghost can_add_law: { (x y : Self) → Self.can_add x y };

    ghost can_sub_law: { (x y : Self) → Self.can_sub x y };

    ghost can_mul_law: { (x y : Self) → Self.can_mul x y };

    ghost can_div_law: { (x y : Self) → Self.can_div x y };

    ghost can_neg_law: { (x : Self) → Self.can_neg x };

    ghost add_law: { (x y r : Self) → Self.add_gives x y r → of r ≡ arith.add (of x) (of y) };

    ghost sub_law: { (x y r : Self) → Self.sub_gives x y r → of r ≡ arith.sub (of x) (of y) };

    ghost mul_law: { (x y r : Self) → Self.mul_gives x y r → of r ≡ arith.mul (of x) (of y) };

    ghost div_law: { (x y r : Self) → Self.div_gives x y r → of r ≡ arith.div (of x) (of y) };

    ghost neg_law: { (x r : Self) → Self.neg_gives x r → of r ≡ arith.neg (of x) };
}

impl Arithmetic for f64 {
    ghost arith = { floats };

    ghost of = { λ x. x };

    fn lit(x: f64) -> f64 {
        x
    }

    fn square(self) -> f64 {
        1.0 * (self * self)
    }

    fn cube(self) -> f64 {
        1.0 * self * (self * self)
    }

    ghost can_add_law = { Prim.search rules };

    ghost can_sub_law = { Prim.search rules };

    ghost can_mul_law = { Prim.search rules };

    ghost can_div_law = { Prim.search rules };

    ghost can_neg_law = { Prim.search rules };

    ghost add_law = { Prim.search rules };

    ghost sub_law = { Prim.search rules };

    ghost mul_law = { Prim.search rules };

    ghost div_law = { Prim.search rules };

    ghost neg_law = { Prim.search rules };
}
