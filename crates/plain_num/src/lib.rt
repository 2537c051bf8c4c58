// The numbers of a run without slopes: floats, enclosures. What the Rust has as D and what it has as f64 are the same there.
#![tactic(auto)]

ghost use Rattle.std.specs.Prelude.{◌≡◌, Bool};
ghost use Rattle.std.proofs.Common.{rules};
ghost use Rattle.number.specs.Answer.{answer_by};

use dual_num::DualNum;
use enclosure::Enclosure;
use number::Refusal;

// `entered` and `ln` are `lit` and `plain_ln` at `Plain` = Self: said of Self, no caller needs that equation of types.
pub trait PlainNum: DualNum {
    // An input.
    fn entered(x: f64) -> Self
        ensures { (w : Bool) → Self.of w result ≡ (Self.beside w).lit x };

    fn ln(self) -> Result<Self, Refusal>
        ensures { (w : Bool) → answer_by (Self.of w) result ≡ (Self.functions w).ln (Self.of w self) };

    fn exp_m1(self) -> Result<Self, Refusal>
        ensures { (w : Bool) → answer_by (Self.of w) result ≡ (Self.functions w).expm1 (Self.of w self) };

    fn tanh(self) -> Result<Self, Refusal>
        ensures { (w : Bool) → answer_by (Self.of w) result ≡ (Self.functions w).tanh (Self.of w self) };

    // A plain number taken as a D is the number itself.
    ghost taken_law: { (w : Bool) (m : (Self.beside w).Num) → Self.taken w m ≡ m };
}

impl PlainNum for f64 {
    fn entered(x: f64) -> f64 {
        x
    }

    fn ln(self) -> Result<f64, Refusal> {
        elementary::ln(self)
    }

    fn exp_m1(self) -> Result<f64, Refusal> {
        elementary::exp_m1(self)
    }

    fn tanh(self) -> Result<f64, Refusal> {
        elementary::tanh(self)
    }

    ghost taken_law = { Prim.search rules };
}

impl PlainNum for Enclosure {
    fn entered(x: f64) -> Enclosure {
        Enclosure::point(x)
    }

    fn ln(self) -> Result<Enclosure, Refusal> {
        elementary_ends::ln(self)
    }

    fn exp_m1(self) -> Result<Enclosure, Refusal> {
        elementary_ends::exp_m1(self)
    }

    fn tanh(self) -> Result<Enclosure, Refusal> {
        elementary_ends::tanh(self)
    }

    ghost taken_law = { Prim.search rules };
}
