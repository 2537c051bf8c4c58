// The Sutherland sums of a pair: k_hs, zeta_eff, a1s, b, and a1s_b at the five exponents. The powers of one x0 share its logarithm.
ghost use Rattle.std.specs.Prelude.{◌≡◌, Bool};
ghost use Rattle.number.specs.Answer.{answer_by};
ghost use Rattle.saftvrmie_dispersion.specs.Sutherland.{k_hs, fluid_of, c_row, b_of, a1s_b};
ghost use Rattle.saftvrmie_dispersion.specs.Terms.{five};
ghost use Rattle.saftvrmie_dispersion.specs.Answer.{fluid_by, five_by};
ghost use Rattle.saftvrmie_dispersion.specs.Staged.{powers_held, five_held};
ghost use Rattle.saftvrmie_dispersion.specs.Shared.{lambda_by, lambda_of, zeta_eff_by, a1s_by, a1s_b_by};

use crate::{Five, Fluid, Lambda};
use dual_num::DualNum;
use mie_parameters::LAM_COEFF;
use number::{Arithmetic, Refusal};
use plain_num::PlainNum;
use saftvrqmie_dispersion_terms::{ilambda_of, jlambda_of};

pub fn k_hs<D: DualNum>(zeta_x: D) -> D
    ensures { (w : Bool) → D.of w result ≡ k_hs (D.beside w) (D.of w zeta_x) }
{
    let one = D::Plain::lit(1.0);
    let four = D::Plain::lit(4.0);
    (zeta_x - one).powi(4)
        / ((zeta_x + zeta_x.square() - zeta_x.cube()) * four + zeta_x.powi(4) + one)
}

pub fn fluid_of<D: DualNum>(rho: D, zeta_x: D, k_hs: D) -> Fluid<D>
    ensures { (w : Bool) → fluid_by (D.of w) result ≡ fluid_of (D.beside w) (D.of w rho) (D.of w zeta_x) (D.of w k_hs) }
{
    let one = D::Plain::lit(1.0);
    Fluid {
        segment_density: rho,
        zeta_x,
        k_hs,
        b1: -zeta_x * D::Plain::lit(0.5) + one,
        b2: zeta_x * (zeta_x + one) * D::Plain::lit(4.5),
        b3: (-zeta_x + one).powi_down(3),
    }
}

// A row of C; inlined, so that its numbers are known where it is worked. The quantum model's lam_sum begins with the number that this sum ends with: other roundings.
#[inline(always)]
pub fn c_row<D: DualNum>(li: D::Plain, li2: D::Plain, li3: D::Plain, c: [f64; 4]) -> D::Plain
    ensures { (w : Bool) → D.plain w result ≡ c_row (D.beside w) (D.plain w li) (D.plain w li2) (D.plain w li3) c }
{
    li * D::Plain::lit(c[1])
        + li2 * D::Plain::lit(c[2])
        + li3 * D::Plain::lit(c[3])
        + D::Plain::lit(c[0])
}

pub fn lambda_of<D: DualNum>(lambda: D::Plain) -> Lambda<D::Plain>
    ensures { (w : Bool) → lambda_by (D.plain w) result ≡ lambda_of (D.beside w) (D.plain w lambda) }
{
    let li = D::Plain::lit(1.0) / lambda;
    let li2 = li * li;
    let li3 = li * li2;
    Lambda {
        l3: lambda - D::Plain::lit(3.0),
        l4: lambda - D::Plain::lit(4.0),
        c0: c_row::<D>(li, li2, li3, LAM_COEFF[0]),
        c1: c_row::<D>(li, li2, li3, LAM_COEFF[1]),
        c2: c_row::<D>(li, li2, li3, LAM_COEFF[2]),
        c3: c_row::<D>(li, li2, li3, LAM_COEFF[3]),
    }
}

pub fn zeta_eff<D: DualNum>(zeta: D, of: Lambda<D::Plain>) -> D
    ensures { (w : Bool) → D.of w result ≡ zeta_eff_by (D.beside w) (D.beside w) (λ x. x) (D.of w zeta) (lambda_by (D.plain w) of) }
{
    zeta * (zeta * (zeta * (zeta * of.c3 + of.c2) + of.c1) + of.c0)
}

pub fn a1s_ij<D: DualNum>(zeta_x: D, of: Lambda<D::Plain>) -> D
    ensures { (w : Bool) → D.of w result ≡ a1s_by (D.beside w) (D.beside w) (λ x. x) (D.of w zeta_x) (lambda_by (D.plain w) of) }
{
    let one = D::Plain::lit(1.0);
    let half = D::Plain::lit(0.5);
    let ze = zeta_eff(zeta_x, of);
    -(-ze * half + one) / ((-ze + one).cube() * of.l3)
}

fn b_of<D: DualNum>(fluid: &Fluid<D>, i: D, j: D) -> D
    ensures { (w : Bool) → D.of w result ≡ b_of (D.beside w) (D.beside w) (λ x. x) (fluid_by (D.of w) fluid.now) (D.of w i) (D.of w j) }
{
    (fluid.b1 * i - fluid.b2 * j) * fluid.b3
}

// `a1s_b_ij` from its powers of x0: p to lambda, p3 to 3 - lambda, p4 to 4 - lambda.
fn a1s_b_of<D: DualNum>(fluid: &Fluid<D>, of: Lambda<D::Plain>, p: D, p3: D, p4: D) -> D
    ensures { (w : Bool) → D.of w result ≡ a1s_b_by (D.beside w) (D.beside w) (λ x. x) (fluid_by (D.of w) fluid.now) (lambda_by (D.plain w) of) (D.of w p) (D.of w p3) (D.of w p4) }
{
    let b = b_of(
        fluid,
        ilambda_of(of.l3, p3),
        jlambda_of(of.l3, of.l4, p4, p3),
    );
    p * (a1s_ij(fluid.zeta_x, of) + b)
}

// Base and exponents are tested together: with a test and an answer in each power, dispersion in floats takes 1.16 times the instructions.
fn a1s_b_ij<D: DualNum>(x0: D::Base, fluid: &Fluid<D>, lambda: D::Plain) -> Result<D, Refusal>
    ensures { (w : Bool) → answer_by (D.of w) result ≡ a1s_b (D.beside w) (D.beside w) (λ x. x) (D.power_at w x0) (fluid_by (D.of w) fluid.now) (D.plain w lambda) }
{
    let n = D::exponent(lambda);
    let n3 = D::exponent(D::Plain::lit(3.0) - lambda);
    let n4 = D::exponent(D::Plain::lit(4.0) - lambda);
    let all = D::exponent_inside(n) & (D::exponent_inside(n3) & D::exponent_inside(n4));
    if !(D::base_inside(x0) & all) {
        return Err(Refusal::Domain);
    }
    let p = D::raise_inside(x0, n);
    let p3 = D::raise_inside(x0, n3);
    let p4 = D::raise_inside(x0, n4);
    Ok(a1s_b_of(fluid, lambda_of::<D>(lambda), p, p3, p4))
}

// The powers of x0 share its logarithm.
pub fn five_sums<D: DualNum>(
    x0: D,
    fluid: &Fluid<D>,
    la: D::Plain,
    lr: D::Plain,
) -> Result<Five<D>, Refusal>
    ensures { (w : Bool) → answer_by (five_by (D.of w)) result ≡ five (D.beside w) (D.beside w) (λ x. x) ((D.functions w).powf (D.of w x0)) (fluid_by (D.of w) fluid.now) (D.plain w la) (D.plain w lr) }
{
    let base = x0.base();
    let two = D::Plain::lit(2.0);
    let at_la = a1s_b_ij(base, fluid, la)?;
    let at_lr = a1s_b_ij(base, fluid, lr)?;
    let at_2la = a1s_b_ij(base, fluid, two * la)?;
    let at_lalr = a1s_b_ij(base, fluid, la + lr)?;
    let at_2lr = a1s_b_ij(base, fluid, two * lr)?;
    Ok(Five {
        at_la,
        at_lr,
        at_2la,
        at_lalr,
        at_2lr,
    })
}

// ---- for the sums with slopes

// A number of the source, plain.
pub fn lit<D: DualNum>(x: f64) -> D::Plain
    ensures { (w : Bool) → D.plain w result ≡ (D.beside w).lit x }
{
    D::Plain::lit(x)
}

// Whether x0 has its powers to lambda, 3 - lambda and 4 - lambda.
fn powers_held<D: DualNum>(x0: D::Base, lambda: D::Plain) -> bool
    ensures { (w : Bool) → result ≡ powers_held (D.beside w) (D.power_at w x0) (D.plain w lambda) }
{
    let n = D::exponent_inside(D::exponent(lambda));
    let n3 = D::exponent_inside(D::exponent(D::Plain::lit(3.0) - lambda));
    let n4 = D::exponent_inside(D::exponent(D::Plain::lit(4.0) - lambda));
    D::base_inside(x0) & (n & (n3 & n4))
}

// And those of all five sums, whose exponents stand in five_sums, here and in five_dual: a function of them would hand out five numbers.
pub fn five_held<D: DualNum>(x0: D::Base, la: D::Plain, lr: D::Plain) -> bool
    ensures { (w : Bool) → result ≡ five_held (D.beside w) (D.power_at w x0) (D.plain w la) (D.plain w lr) }
{
    let two = D::Plain::lit(2.0);
    let at_2la = powers_held::<D>(x0, two * la);
    let at_lalr = powers_held::<D>(x0, la + lr);
    let at_2lr = powers_held::<D>(x0, two * lr);
    powers_held::<D>(x0, la) & (powers_held::<D>(x0, lr) & (at_2la & (at_lalr & at_2lr)))
}

// What the sums work of an exponent alone, as numbers of the run.
pub fn lambda_in<D: PlainNum>(lambda: D::Plain) -> Lambda<D>
    ensures { (w : Bool) → lambda_by (D.of w) result ≡ lambda_of (D.beside w) (D.plain w lambda) }
{
    let of = lambda_of::<D>(lambda);
    Lambda {
        l3: D::lift(of.l3),
        l4: D::lift(of.l4),
        c0: D::lift(of.c0),
        c1: D::lift(of.c1),
        c2: D::lift(of.c2),
        c3: D::lift(of.c3),
    }
}
