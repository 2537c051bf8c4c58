// The numbers that the quantum formulas are written over (the Rust's DualNum beside f64): floats, enclosures, and floats with a slope beside plain ones.
#![tactic(auto)]

ghost use Rattle.std.specs.Prelude.{List, length, map, ◌<◌, ◌≡◌, ◌&&◌, Bool, true, false, cond, refl, ℕ, Float};
ghost use Rattle.std.proofs.Common.{rules};
ghost use Rattle.number.specs.Ans.{Ans, held, refused};
ghost use Rattle.number.specs.Answer.{answer_by};
ghost use Rattle.number.specs.Lists.{at, nth};
ghost use Rattle.number.specs.Arith.{Arith, Constant, floats, whole, epsilon64};
ghost use Rattle.number.specs.Functions.{Functions, calls};
ghost use Rattle.elementary.specs.Port.{port};
ghost use Rattle.enclosure.specs.Enclosure.{enclosures, point};
ghost use Rattle.dual.specs.Value.{dual_of};
ghost use Rattle.slopes.specs.Mixed.{plain, sloped, as_dual};
ghost use Rattle.slopes.specs.Rules.{mixed_functions};
ghost use Rattle.dual_num.specs.Way.{mixed_way};
ghost use Rattle.enclosure.specs.Enclosed.{IsEnclosed};
ghost use Rattle.dual_num.specs.Constants.{constant_of};
ghost use Rattle.dual_num.specs.declared.DualBase.{DualBase};
ghost use Rattle.dual_num.specs.Base.{float_base_of, enclosure_base_of, dual_base_of, float_power, enclosure_power, dual_power, float_exponent_of, enclosure_exponent_of, dual_exponent_of, float_raised, float_power_by, enclosure_raised, enclosure_power_by, dual_raised, dual_power_by};
ghost use Rattle.dual_num.specs.Laws.{float_is, enclosure_is, dual_base_is, float_power_is, enclosure_power_is, dual_power_is, float_six, enclosure_six, mixed_six, float_epsilon, enclosure_epsilon, mixed_epsilon};

use binary_log::Log;
use dual::Dual;
use enclosure::{Enclosed, Enclosure};
use number::{Arithmetic, Refusal};
use power::FixedExponent;
use slopes::SlopeExponent;
use std::ops::{Add, Div, Mul, Neg, Sub};

// A base of powers with its logarithm, which holds where the base is inside the power's domain.
// A flag, not an Option, here and in an exponent: with Options a quantum table takes 1.12 times the instructions.
#[derive(Clone, Copy)]
pub struct FloatBase {
    pub log: Log,
    pub inside: bool,
}

#[derive(Clone, Copy)]
pub struct EnclosureBase {
    pub x: Enclosure,
    pub base: FloatBase,
}

#[derive(Clone, Copy)]
pub struct DualBase {
    pub base: FloatBase,
    pub slope: f64,
}

// An exponent of powers in fixed point, and whether it is inside the power's domain: a flag, as of a base.
#[derive(Clone, Copy)]
pub struct FloatExponent {
    pub fixed: FixedExponent,
    pub inside: bool,
}

#[derive(Clone, Copy)]
pub struct EnclosureExponent {
    pub x: Enclosure,
    pub at: FloatExponent,
}

// Whether it and the exponent of its slope are: a flag, as of a float's.
#[derive(Clone, Copy)]
pub struct DualExponent {
    pub fixed: SlopeExponent,
    pub inside: bool,
}

// A list of numbers: floats, points, or floats with their slopes in the second, as the C call lends them.
#[derive(Clone, Copy)]
pub struct NumberList<'a> {
    pub values: &'a [f64],
    pub slopes: &'a [f64],
}

pub trait DualNum: Copy
    + Drop
    + Add<Self, Output = Self>
    + Sub<Self, Output = Self>
    + Mul<Self, Output = Self>
    + Div<Self, Output = Self>
    + Neg<Output = Self>
    + Add<Self::Plain, Output = Self>
    + Sub<Self::Plain, Output = Self>
    + Mul<Self::Plain, Output = Self>
    + Div<Self::Plain, Output = Self> {
    // What the Rust has as f64: numbers of the source and of a set.
    type Plain: Arithmetic;

    // A base of powers, its logarithm worked once.
    type Base: Copy + Drop;

    // An exponent of powers, its fixed point worked once.
    type Exponent: Copy + Drop;

    // Where a number is negated: whether it is a D (`mixed_one`) or stays plain (`mixed`).
    ghost beside: { Bool → Arith };

    ghost functions: { (w : Bool) → Functions (beside w).Num };

    // A number as the formulas of specs/ see it, and a plain one beside it.
    ghost of: { (w : Bool) → Self → (beside w).Num };

    ghost plain: { (w : Bool) → Self.Plain → (beside w).Num };

    ghost power_at: { (w : Bool) → Self.Base → (beside w).Num → Ans (beside w).Num };

    ghost power_by: { (w : Bool) → Self.Base → Self.Exponent → Ans (beside w).Num };

    // The base of a number, and the exponent of a plain one.
    ghost base_of: { Self → Self.Base };

    ghost exponent_of: { (w : Bool) → (beside w).Num → Self.Exponent };

    // Where a power is refused, and what it is elsewhere.
    ghost base_in: { Self.Base → Bool };

    ghost exponent_in: { Self.Exponent → Bool };

    ghost raised: { (w : Bool) → Self.Base → Self.Exponent → (beside w).Num };

    // Whether a list has an entry, and the entry.
    ghost has: { List Float → List Float → ℕ → Type 0 };

    ghost entry_of: { (w : Bool) → List Float → List Float → ℕ → (beside w).Num };

    // A number taken as a D: a plain one has slope +0.
    ghost taken: { (w : Bool) → (beside w).Num → (beside w).Num };

    // As From<Plain> it would be a bound and a law that each impl proves, where it is one clause.
    fn lift(c: Self::Plain) -> Self
        ensures { (w : Bool) → of w result ≡ taken w (plain w c) };

    fn base(self) -> Self::Base
        ensures power { (w : Bool) → power_at w result ≡ (functions w).powf (of w self) }
        ensures value { result ≡ base_of self };

    fn powf_at(base: Self::Base, e: Self::Plain) -> Result<Self, Refusal>
        ensures { (w : Bool) → answer_by (of w) result ≡ power_at w base (plain w e) }
    {
        Self::raise(base, Self::exponent(e))
    }

    fn exponent(e: Self::Plain) -> Self::Exponent
        ensures power { (w : Bool) (b : Self.Base) → power_by w b result ≡ power_at w b (plain w e) }
        ensures value { (w : Bool) → result ≡ exponent_of w (plain w e) };

    fn exponent_inside(n: Self::Exponent) -> bool
        ensures { result ≡ exponent_in n };

    fn raise(base: Self::Base, n: Self::Exponent) -> Result<Self, Refusal>
        ensures { (w : Bool) → answer_by (of w) result ≡ power_by w base n }
    {
        if !(Self::base_inside(base) & Self::exponent_inside(n)) {
            return Err(Refusal::Domain);
        }
        Ok(Self::raise_inside(base, n))
    }

    fn base_inside(b: Self::Base) -> bool
        ensures { result ≡ base_in b };

    // The power where base and exponent were tested: they are not tested again.
    fn raise_inside(base: Self::Base, n: Self::Exponent) -> Self
        ensures { (w : Bool) → of w result ≡ raised w base n };

    // A power of plain numbers, which stays plain. It and `plain_ln` hang on Plain alone; as members of a trait of plain numbers each would need a law here and in three impls, for one body less.
    fn plain_powf(a: Self::Plain, e: Self::Plain) -> Result<Self::Plain, Refusal>
        ensures { (w : Bool) → answer_by (plain w) result ≡ (functions w).powf (plain w a) (plain w e) };

    // The whole power n.
    fn powi(self, n: u16) -> Self
        ensures { (w : Bool) → of w result ≡ (beside w).pow (of w self) n };

    // The whole power minus n.
    fn powi_down(self, n: u16) -> Self
        ensures { (w : Bool) → of w result ≡ (beside w).pow_down (of w self) n };

    // The whole powers 2 and 3, written out.
    fn square(self) -> Self
        ensures { (w : Bool) → of w result ≡ (beside w).pow (of w self) 2 };

    fn cube(self) -> Self
        ensures { (w : Bool) → of w result ≡ (beside w).pow (of w self) 3 };

    // The number, where u was worked on the way.
    fn after(self, u: Self) -> Self
        ensures { (w : Bool) → of w result ≡ (beside w).after (of w u) (of w self) };

    fn after_plain(self, u: Self::Plain) -> Self
        ensures { (w : Bool) → of w result ≡ (beside w).after (plain w u) (of w self) };

    fn exp(self) -> Result<Self, Refusal>
        ensures { (w : Bool) → answer_by (of w) result ≡ (functions w).exp (of w self) };

    fn ln_1p(self) -> Result<Self, Refusal>
        ensures { (w : Bool) → answer_by (of w) result ≡ (functions w).ln1p (of w self) };

    // 1 / x.
    fn recip(self) -> Self
        ensures { (w : Bool) → of w result ≡ (beside w).div (whole (beside w) 1) (of w self) };

    fn entry(l: &NumberList, i: usize) -> Self
        requires { has l.now.values.now l.now.slopes.now i }
        ensures { (w : Bool) → of w result ≡ entry_of w l.now.values.now l.now.slopes.now i };

    // A constant, as a plain number.
    fn constant(e: Enclosed) -> Self::Plain
        ensures { (w : Bool) (c : Constant) → IsEnclosed c e → plain w result ≡ constant_of (functions w) c };

    // The Rust's PI, FRAC_PI_6 and TAU, each with the two neighbouring floats that enclose pi, pi / 6 and twice pi.
    fn pi() -> Self::Plain
        ensures { (w : Bool) → plain w result ≡ (functions w).pi }
    {
        Self::constant(Enclosed {
            value: 3.141592653589793,
            below: 3.141592653589793,
            above: 3.1415926535897936,
        })
    }

    fn frac_pi_6() -> Self::Plain
        ensures { (w : Bool) → plain w result ≡ (functions w).frac_pi_6 }
    {
        Self::constant(Enclosed {
            value: 0.5235987755982989,
            below: 0.5235987755982988,
            above: 0.5235987755982989,
        })
    }

    fn tau() -> Self::Plain
        ensures { (w : Bool) → plain w result ≡ (functions w).tau }
    {
        Self::constant(Enclosed {
            value: 6.283185307179586,
            below: 6.283185307179586,
            above: 6.283185307179587,
        })
    }

    // The float run's value, which branches look at.
    fn re(self) -> f64
        ensures { (w : Bool) → result ≡ (beside w).val (of w self) };

    // The logarithm of a plain number, which stays plain.
    fn plain_ln(a: Self::Plain) -> Result<Self::Plain, Refusal>
        ensures { (w : Bool) → answer_by (plain w) result ≡ (functions w).ln (plain w a) };

    ghost can_add_law: { (x y : Self) → ⟦<Self as Add<Self>>⟧.can_add x y };

    ghost can_sub_law: { (x y : Self) → ⟦<Self as Sub<Self>>⟧.can_sub x y };

    ghost can_mul_law: { (x y : Self) → ⟦<Self as Mul<Self>>⟧.can_mul x y };

    ghost can_div_law: { (x y : Self) → ⟦<Self as Div<Self>>⟧.can_div x y };

    ghost can_neg_law: { (x : Self) → Self.can_neg x };

    ghost can_add_plain_law: { (x : Self) (c : Self.Plain) → ⟦<Self as Add<Self::Plain>>⟧.can_add x c };

    ghost can_sub_plain_law: { (x : Self) (c : Self.Plain) → ⟦<Self as Sub<Self::Plain>>⟧.can_sub x c };

    ghost can_mul_plain_law: { (x : Self) (c : Self.Plain) → ⟦<Self as Mul<Self::Plain>>⟧.can_mul x c };

    ghost can_div_plain_law: { (x : Self) (c : Self.Plain) → ⟦<Self as Div<Self::Plain>>⟧.can_div x c };

    ghost add_law: { (w : Bool) (x y r : Self) → ⟦<Self as Add<Self>>⟧.add_gives x y r → of w r ≡ (beside w).add (of w x) (of w y) };

    ghost sub_law: { (w : Bool) (x y r : Self) → ⟦<Self as Sub<Self>>⟧.sub_gives x y r → of w r ≡ (beside w).sub (of w x) (of w y) };

    ghost mul_law: { (w : Bool) (x y r : Self) → ⟦<Self as Mul<Self>>⟧.mul_gives x y r → of w r ≡ (beside w).mul (of w x) (of w y) };

    ghost div_law: { (w : Bool) (x y r : Self) → ⟦<Self as Div<Self>>⟧.div_gives x y r → of w r ≡ (beside w).div (of w x) (of w y) };

    ghost neg_law: { (w : Bool) (x r : Self) → Self.neg_gives x r → of w r ≡ (beside w).neg (of w x) };

    // Beside a plain number.
    ghost add_plain_law: { (w : Bool) (x r : Self) (c : Self.Plain) → ⟦<Self as Add<Self::Plain>>⟧.add_gives x c r → of w r ≡ (beside w).add (of w x) (plain w c) };

    ghost sub_plain_law: { (w : Bool) (x r : Self) (c : Self.Plain) → ⟦<Self as Sub<Self::Plain>>⟧.sub_gives x c r → of w r ≡ (beside w).sub (of w x) (plain w c) };

    ghost mul_plain_law: { (w : Bool) (x r : Self) (c : Self.Plain) → ⟦<Self as Mul<Self::Plain>>⟧.mul_gives x c r → of w r ≡ (beside w).mul (of w x) (plain w c) };

    ghost div_plain_law: { (w : Bool) (x r : Self) (c : Self.Plain) → ⟦<Self as Div<Self::Plain>>⟧.div_gives x c r → of w r ≡ (beside w).div (of w x) (plain w c) };

    // Among plain numbers, which stay plain.
    ghost plain_lit_law: { (w : Bool) (x : Float) (c : Self.Plain) → Self.Plain.of c ≡ Self.Plain.arith.lit x → plain w c ≡ (beside w).lit x };

    ghost plain_add_law: { (w : Bool) (x y c : Self.Plain) → Self.Plain.add_gives x y c → plain w c ≡ (beside w).add (plain w x) (plain w y) };

    ghost plain_sub_law: { (w : Bool) (x y c : Self.Plain) → Self.Plain.sub_gives x y c → plain w c ≡ (beside w).sub (plain w x) (plain w y) };

    ghost plain_mul_law: { (w : Bool) (x y c : Self.Plain) → Self.Plain.mul_gives x y c → plain w c ≡ (beside w).mul (plain w x) (plain w y) };

    ghost plain_div_law: { (w : Bool) (x y c : Self.Plain) → Self.Plain.div_gives x y c → plain w c ≡ (beside w).div (plain w x) (plain w y) };

    // Where a number taken as a D does as the number itself.
    ghost taken_of_law: { (w : Bool) (x : Self) → taken w (of w x) ≡ of w x };

    ghost add_taken_law: { (w : Bool) (m : (beside w).Num) (x : Self) → (beside w).add (taken w m) (of w x) ≡ (beside w).add m (of w x) };

    ghost mul_taken_law: { (w : Bool) (x : Self) (m : (beside w).Num) → (beside w).mul (of w x) (taken w m) ≡ (beside w).mul (of w x) m };

    ghost div_taken_law: { (w : Bool) (m : (beside w).Num) (x : Self) → (beside w).div (taken w m) (of w x) ≡ (beside w).div m (of w x) };

    ghost neg_taken_law: { (m : (beside true).Num) → (beside true).neg (taken true m) ≡ (beside true).neg m };

    ghost plain_neg_law: { (x c : Self.Plain) → Self.Plain.neg_gives x c → plain false c ≡ (beside false).neg (plain false x) };

    ghost plain_pow_law: { (w : Bool) (x c : Self.Plain) (n : ℕ) → Self.Plain.of c ≡ Self.Plain.arith.pow (Self.Plain.of x) n → plain w c ≡ (beside w).pow (plain w x) n };

    // The power by the base of a number is its power.
    ghost base_law: { (w : Bool) (x : Self) → power_at w (base_of x) ≡ (functions w).powf (of w x) };

    // A power is refused with 6 alone: where its base or its exponent is outside.
    ghost power_law: { (w : Bool) (b : Self.Base) (n : Self.Exponent) → power_by w b n ≡ cond (base_in b && exponent_in n) (held (raised w b n)) (refused 6) };

    ghost powf_law: { (w : Bool) (x y : (beside w).Num) (n : ℕ) → (functions w).powf x y ≡ refused n → n ≡ 6 };

    // EPSILON has a logarithm.
    ghost epsilon_law: { (w : Bool) (n : ℕ) → (functions w).ln ((beside w).lit epsilon64) ≡ refused n → ⊥ };
}

// Entry i of a run's own list.
pub fn item<D: DualNum>(l: &[D], i: usize) -> D
    requires { i < length l.now }
    ensures { (w : Bool) → D.of w result ≡ nth (D.beside w) (map (D.of w) l.now) i }
{
    l[i]
}

fn float_base(x: f64) -> FloatBase
    ensures power { float_power result ≡ (calls floats port).powf x }
    ensures value { result ≡ float_base_of x }
{
    FloatBase {
        log: binary_log::log_base(x),
        inside: binary_log::base_inside(x),
    }
}

fn float_exponent(y: f64) -> FloatExponent
    ensures { result ≡ float_exponent_of y }
{
    FloatExponent {
        fixed: power::exponent(y),
        inside: power::exponent_inside(y),
    }
}

impl DualNum for f64 {
    type Plain = f64;

    type Base = FloatBase;

    type Exponent = FloatExponent;

    ghost beside = { λ w. floats };

    ghost functions = { λ w. calls floats port };

    ghost of = { λ w x. x };

    ghost plain = { λ w x. x };

    ghost power_at = { λ w b y. float_power b y };

    ghost power_by = { λ w b n. float_power_by b n };

    ghost base_of = { λ x. float_base_of x };

    ghost exponent_of = { λ w y. float_exponent_of y };

    ghost base_in = { λ b. b.inside };

    ghost exponent_in = { λ n. n.inside };

    ghost raised = { λ w b n. float_raised b n };

    ghost has = { λ l s i. i < length l };

    ghost entry_of = { λ w l s i. at l i };

    ghost taken = { λ w m. m };

    fn lift(c: f64) -> f64 {
        c
    }

    fn base(self) -> FloatBase {
        float_base(self)
    }

    fn exponent(e: f64) -> FloatExponent {
        float_exponent(e)
    }

    fn exponent_inside(n: FloatExponent) -> bool {
        n.inside
    }

    fn base_inside(b: FloatBase) -> bool {
        b.inside
    }

    fn raise_inside(base: FloatBase, n: FloatExponent) -> f64 {
        power::raise(base.log, n.fixed)
    }

    fn plain_powf(a: f64, e: f64) -> Result<f64, Refusal> {
        f64::powf_at(float_base(a), e)
    }

    fn powi(self, n: u16) -> f64 {
        number::pow_up(self, u32::from(n))
    }

    fn powi_down(self, n: u16) -> f64 {
        number::pow_down(self, u32::from(n))
    }

    fn square(self) -> f64 {
        Arithmetic::square(self)
    }

    fn cube(self) -> f64 {
        Arithmetic::cube(self)
    }

    // Without ends nothing that is worked on the way counts.
    fn after(self, _u: f64) -> f64 {
        self
    }

    fn after_plain(self, _u: f64) -> f64 {
        self
    }

    fn exp(self) -> Result<f64, Refusal> {
        elementary::exp(self)
    }

    fn ln_1p(self) -> Result<f64, Refusal> {
        elementary::ln_1p(self)
    }

    fn recip(self) -> f64 {
        1.0 / self
    }

    fn entry(l: &NumberList, i: usize) -> f64 {
        l.values[i]
    }

    #[inline(always)]
    fn constant(e: Enclosed) -> f64 {
        e.value
    }

    fn re(self) -> f64 {
        self
    }

    fn plain_ln(a: f64) -> Result<f64, Refusal> {
        elementary::ln(a)
    }

    ghost can_add_law = { Prim.search rules };

    ghost can_sub_law = { Prim.search rules };

    ghost can_mul_law = { Prim.search rules };

    ghost can_div_law = { Prim.search rules };

    ghost can_neg_law = { Prim.search rules };

    ghost can_add_plain_law = { Prim.search rules };

    ghost can_sub_plain_law = { Prim.search rules };

    ghost can_mul_plain_law = { Prim.search rules };

    ghost can_div_plain_law = { Prim.search rules };

    ghost add_law = { Prim.search rules };

    ghost sub_law = { Prim.search rules };

    ghost mul_law = { Prim.search rules };

    ghost div_law = { Prim.search rules };

    ghost neg_law = { Prim.search rules };

    ghost add_plain_law = { Prim.search rules };

    ghost sub_plain_law = { Prim.search rules };

    ghost mul_plain_law = { Prim.search rules };

    ghost div_plain_law = { Prim.search rules };

    ghost plain_lit_law = { Prim.search rules };

    ghost plain_add_law = { Prim.search rules };

    ghost plain_sub_law = { Prim.search rules };

    ghost plain_mul_law = { Prim.search rules };

    ghost plain_div_law = { Prim.search rules };

    ghost taken_of_law = { Prim.search rules };

    ghost add_taken_law = { Prim.search rules };

    ghost mul_taken_law = { Prim.search rules };

    ghost div_taken_law = { Prim.search rules };

    ghost neg_taken_law = { Prim.search rules };

    ghost plain_neg_law = { Prim.search rules };

    ghost plain_pow_law = { Prim.search rules };

    ghost base_law = { λ w x. float_is x };

    ghost power_law = { λ w b n. float_power_is b n };

    ghost powf_law = { λ w x y n. float_six x y n };

    ghost epsilon_law = { λ w n. float_epsilon n };
}

fn enclosure_base(x: Enclosure) -> EnclosureBase
    ensures power { enclosure_power result ≡ (calls enclosures port).powf x }
    ensures value { result ≡ enclosure_base_of x }
{
    EnclosureBase {
        x,
        base: float_base(x.value),
    }
}

fn enclosure_exponent(y: Enclosure) -> EnclosureExponent
    ensures { result ≡ enclosure_exponent_of y }
{
    EnclosureExponent {
        x: y,
        at: float_exponent(y.value),
    }
}

impl DualNum for Enclosure {
    type Plain = Enclosure;

    type Base = EnclosureBase;

    type Exponent = EnclosureExponent;

    ghost beside = { λ w. enclosures };

    ghost functions = { λ w. calls enclosures port };

    ghost of = { λ w x. x };

    ghost plain = { λ w x. x };

    ghost power_at = { λ w b y. enclosure_power b y };

    ghost power_by = { λ w b n. enclosure_power_by b n };

    ghost base_of = { λ x. enclosure_base_of x };

    ghost exponent_of = { λ w y. enclosure_exponent_of y };

    ghost base_in = { λ b. b.base.inside };

    ghost exponent_in = { λ n. n.at.inside };

    ghost raised = { λ w b n. enclosure_raised b n };

    ghost has = { λ l s i. i < length l };

    ghost entry_of = { λ w l s i. point (at l i) };

    ghost taken = { λ w m. m };

    fn lift(c: Enclosure) -> Enclosure {
        c
    }

    fn base(self) -> EnclosureBase {
        enclosure_base(self)
    }

    fn exponent(e: Enclosure) -> EnclosureExponent {
        enclosure_exponent(e)
    }

    fn exponent_inside(n: EnclosureExponent) -> bool {
        n.at.inside
    }

    fn base_inside(b: EnclosureBase) -> bool {
        b.base.inside
    }

    fn raise_inside(base: EnclosureBase, n: EnclosureExponent) -> Enclosure {
        let v = power::raise(base.base.log, n.at.fixed);
        Enclosure::point(v).after(n.x).after(base.x)
    }

    fn plain_powf(a: Enclosure, e: Enclosure) -> Result<Enclosure, Refusal> {
        Enclosure::powf_at(enclosure_base(a), e)
    }

    fn powi(self, n: u16) -> Enclosure {
        self.pow_up(u32::from(n))
    }

    fn powi_down(self, n: u16) -> Enclosure {
        self.pow_down(u32::from(n))
    }

    fn square(self) -> Enclosure {
        Enclosure::point(1.0) * (self * self)
    }

    fn cube(self) -> Enclosure {
        Enclosure::point(1.0) * self * (self * self)
    }

    fn after(self, u: Enclosure) -> Enclosure {
        self.after(u)
    }

    fn after_plain(self, u: Enclosure) -> Enclosure {
        self.after(u)
    }

    fn exp(self) -> Result<Enclosure, Refusal> {
        elementary_ends::exp(self)
    }

    fn ln_1p(self) -> Result<Enclosure, Refusal> {
        elementary_ends::ln_1p(self)
    }

    fn recip(self) -> Enclosure {
        Enclosure::point(1.0) / self
    }

    fn entry(l: &NumberList, i: usize) -> Enclosure {
        Enclosure::point(l.values[i])
    }

    #[inline(always)]
    fn constant(e: Enclosed) -> Enclosure {
        Enclosure::constant(e)
    }

    fn re(self) -> f64 {
        self.value
    }

    fn plain_ln(a: Enclosure) -> Result<Enclosure, Refusal> {
        elementary_ends::ln(a)
    }

    ghost can_add_law = { Prim.search rules };

    ghost can_sub_law = { Prim.search rules };

    ghost can_mul_law = { Prim.search rules };

    ghost can_div_law = { Prim.search rules };

    ghost can_neg_law = { Prim.search rules };

    ghost can_add_plain_law = { Prim.search rules };

    ghost can_sub_plain_law = { Prim.search rules };

    ghost can_mul_plain_law = { Prim.search rules };

    ghost can_div_plain_law = { Prim.search rules };

    ghost add_law = { Prim.search rules };

    ghost sub_law = { Prim.search rules };

    ghost mul_law = { Prim.search rules };

    ghost div_law = { Prim.search rules };

    ghost neg_law = { Prim.search rules };

    ghost add_plain_law = { Prim.search rules };

    ghost sub_plain_law = { Prim.search rules };

    ghost mul_plain_law = { Prim.search rules };

    ghost div_plain_law = { Prim.search rules };

    ghost plain_lit_law = { Prim.search rules };

    ghost plain_add_law = { Prim.search rules };

    ghost plain_sub_law = { Prim.search rules };

    ghost plain_mul_law = { Prim.search rules };

    ghost plain_div_law = { Prim.search rules };

    ghost taken_of_law = { Prim.search rules };

    ghost add_taken_law = { Prim.search rules };

    ghost mul_taken_law = { Prim.search rules };

    ghost div_taken_law = { Prim.search rules };

    ghost neg_taken_law = { Prim.search rules };

    ghost plain_neg_law = { Prim.search rules };

    ghost plain_pow_law = { Prim.search rules };

    ghost base_law = { λ w x. enclosure_is x };

    ghost power_law = { λ w b n. enclosure_power_is b n };

    ghost powf_law = { λ w x y n. enclosure_six x y n };

    ghost epsilon_law = { λ w n. enclosure_epsilon n };
}

fn dual_base(x: Dual) -> DualBase
    ensures power { dual_power result ≡ (mixed_functions port).powf (sloped (dual_of x)) }
    ensures value { result ≡ dual_base_of x }
{
    DualBase {
        base: float_base(x.re),
        slope: x.eps,
    }
}

fn dual_exponent(y: f64) -> DualExponent
    ensures power { (b : DualBase) → dual_power_by b result ≡ dual_power b (plain y) }
    ensures value { result ≡ dual_exponent_of (plain y) }
{
    DualExponent {
        fixed: slopes::exponent(y),
        inside: slopes::exponent_inside(y),
    }
}

impl DualNum for Dual {
    type Plain = f64;

    type Base = DualBase;

    type Exponent = DualExponent;

    ghost beside = { mixed_way };

    ghost functions = { λ w. mixed_functions port };

    ghost of = { λ w x. sloped (dual_of x) };

    ghost plain = { λ w c. plain c };

    ghost power_at = { λ w b y. dual_power b y };

    ghost power_by = { λ w b n. dual_power_by b n };

    ghost base_of = { λ x. dual_base_of x };

    ghost exponent_of = { λ w y. dual_exponent_of y };

    ghost base_in = { λ b. b.base.inside };

    ghost exponent_in = { λ n. n.inside };

    ghost raised = { λ w b n. dual_raised b n };

    ghost has = { λ l s i. (i < length l) × (i < length s) };

    ghost entry_of = { λ w l s i. sloped (record { re = at l i; eps = at s i }) };

    ghost taken = { λ w m. sloped (as_dual m) };

    fn lift(c: f64) -> Dual {
        Dual::plain(c)
    }

    fn base(self) -> DualBase {
        dual_base(self)
    }

    fn exponent(e: f64) -> DualExponent {
        dual_exponent(e)
    }

    fn exponent_inside(n: DualExponent) -> bool {
        n.inside
    }

    fn base_inside(b: DualBase) -> bool {
        b.base.inside
    }

    fn raise_inside(base: DualBase, n: DualExponent) -> Dual {
        slopes::raise(base.base.log, base.slope, n.fixed)
    }

    fn plain_powf(a: f64, e: f64) -> Result<f64, Refusal> {
        f64::plain_powf(a, e)
    }

    fn powi(self, n: u16) -> Dual {
        self.pow_up(n)
    }

    fn powi_down(self, n: u16) -> Dual {
        self.pow_down(n)
    }

    fn square(self) -> Dual {
        Dual {
            re: 1.0 * (self.re * self.re),
            eps: 2.0 * (1.0 * self.re) * self.eps,
        }
    }

    fn cube(self) -> Dual {
        Dual::cube(self)
    }

    // Without ends nothing that is worked on the way counts.
    fn after(self, _u: Dual) -> Dual {
        self
    }

    fn after_plain(self, _u: f64) -> Dual {
        self
    }

    fn exp(self) -> Result<Dual, Refusal> {
        slopes::exp(self)
    }

    fn ln_1p(self) -> Result<Dual, Refusal> {
        slopes::ln_1p(self)
    }

    fn recip(self) -> Dual {
        slopes::recip(self)
    }

    fn entry(l: &NumberList, i: usize) -> Dual {
        Dual {
            re: l.values[i],
            eps: l.slopes[i],
        }
    }

    #[inline(always)]
    fn constant(e: Enclosed) -> f64 {
        e.value
    }

    fn re(self) -> f64 {
        self.re
    }

    fn plain_ln(a: f64) -> Result<f64, Refusal> {
        elementary::ln(a)
    }

    ghost can_add_law = { Prim.search rules };

    ghost can_sub_law = { Prim.search rules };

    ghost can_mul_law = { Prim.search rules };

    ghost can_div_law = { Prim.search rules };

    ghost can_neg_law = { Prim.search rules };

    ghost can_add_plain_law = { Prim.search rules };

    ghost can_sub_plain_law = { Prim.search rules };

    ghost can_mul_plain_law = { Prim.search rules };

    ghost can_div_plain_law = { Prim.search rules };

    ghost add_law = { Prim.search rules };

    ghost sub_law = { Prim.search rules };

    ghost mul_law = { Prim.search rules };

    ghost div_law = { Prim.search rules };

    ghost neg_law = { elim [ true ↦ Prim.search rules | false ↦ Prim.search rules ] };

    ghost add_plain_law = { Prim.search rules };

    ghost sub_plain_law = { Prim.search rules };

    ghost mul_plain_law = { Prim.search rules };

    ghost div_plain_law = { Prim.search rules };

    ghost plain_lit_law = { Prim.search rules };

    ghost plain_add_law = { Prim.search rules };

    ghost plain_sub_law = { Prim.search rules };

    ghost plain_mul_law = { Prim.search rules };

    ghost plain_div_law = { Prim.search rules };

    ghost taken_of_law = { Prim.search rules };

    ghost add_taken_law = { λ w. elim [ plain c ↦ λ x. refl | sloped y ↦ λ x. refl ] };

    ghost mul_taken_law = { λ w x. elim [ plain c ↦ refl | sloped y ↦ refl ] };

    ghost div_taken_law = { λ w. elim [ plain c ↦ λ x. refl | sloped y ↦ λ x. refl ] };

    ghost neg_taken_law = { Prim.search rules };

    ghost plain_neg_law = { Prim.search rules };

    ghost plain_pow_law = { Prim.search rules };

    ghost base_law = { λ w x. dual_base_is x };

    ghost power_law = { λ w b n. dual_power_is b n };

    ghost powf_law = { λ w x y n. mixed_six x y n };

    ghost epsilon_law = { λ w n. mixed_epsilon n };
}
