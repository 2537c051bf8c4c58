// The Sutherland sums and the first two orders with slopes by the segment density. They stand beside sutherland and orders: a Dual is both a DualNum and a SlopeNum, with other laws in each, so that one trait below both would take four impls of some twenty laws for formulas of a line.
ghost use Rattle.std.specs.Prelude.{◌≡◌, Bool};
ghost use Rattle.number.specs.Ans.{held};
ghost use Rattle.number.specs.Answer.{answer_by};
ghost use Rattle.dual.specs.Dual.{duals, plain_d};
ghost use Rattle.saftvrmie_dispersion.specs.Sutherland.{k_hs, a1s_b};
ghost use Rattle.saftvrmie_dispersion.specs.Terms.{five, pref_of, a1_of, a2_of, term_orders_of};
ghost use Rattle.saftvrmie_dispersion.specs.Answer.{pair_in, fluid_by, five_by, orders_by};
ghost use Rattle.saftvrmie_dispersion.specs.Shared.{lambda_by, zeta_eff_by, a1s_by, a1s_b_by};
ghost use Rattle.slope_num.specs.Value.{slope_by};

use crate::sutherland::lit;
use crate::{ChainNum, Five, Fluid, Lambda, OrdersDual, orders, sutherland};
use dual_num::DualNum;
use number::Refusal;
use plain_num::PlainNum;
use saftvrmie_parameters::PairParameters;
use slope_num::SlopeNum;

pub fn k_hs_dual<S: SlopeNum>(zeta_x: S) -> S
    ensures { (w : Bool) → slope_by S.parts (S.Re.of w) result ≡ k_hs (duals (S.Re.beside w)) (slope_by S.parts (S.Re.of w) zeta_x) }
{
    let one = S::Re::entered(1.0);
    let p = zeta_x.powers();
    (zeta_x - one).fourth() / ((zeta_x + p.second - p.third) * S::Re::entered(4.0) + p.fourth + one)
}

pub fn zeta_eff_dual<S: SlopeNum>(zeta: S, of: Lambda<S::Re>) -> S
    ensures { (w : Bool) → let A = S.Re.beside w in
        slope_by S.parts (S.Re.of w) result ≡ zeta_eff_by A (duals A) (plain_d A) (slope_by S.parts (S.Re.of w) zeta) (lambda_by (S.Re.of w) of) }
{
    zeta * (zeta * (zeta * (zeta * of.c3 + of.c2) + of.c1) + of.c0)
}

pub fn a1s_ij_dual<S: SlopeNum>(zeta_x: S, of: Lambda<S::Re>) -> S
    ensures { (w : Bool) → let A = S.Re.beside w in
        slope_by S.parts (S.Re.of w) result ≡ a1s_by A (duals A) (plain_d A) (slope_by S.parts (S.Re.of w) zeta_x) (lambda_by (S.Re.of w) of) }
{
    let one = S::Re::entered(1.0);
    let minus = -zeta_eff_dual(zeta_x, of);
    -(minus * S::Re::entered(0.5) + one) / ((minus + one).cube() * of.l3)
}

// `a1s_b_ij` from its powers of x0: p to lambda, p3 to 3 - lambda, p4 to 4 - lambda.
fn a1s_b_of_dual<S: ChainNum>(
    fluid: &Fluid<S>,
    of: Lambda<S::Re>,
    p: S::Re,
    p3: S::Re,
    p4: S::Re,
) -> S
    ensures { (w : Bool) → let A = S.Re.beside w in
        slope_by S.parts (S.Re.of w) result ≡ a1s_b_by A (duals A) (plain_d A) (fluid_by (slope_by S.parts (S.Re.of w)) fluid.now) (lambda_by (S.Re.of w) of) (S.Re.of w p) (S.Re.of w p3) (S.Re.of w p4) }
{
    let i = fluid.b1.times_i(p3, of.l3);
    let j = fluid.b2.times_j(p4, p3, of.l3, of.l4);
    S::plain_mul(p, a1s_ij_dual(fluid.zeta_x, of) + (i - j) * fluid.b3)
}

// `a1s_b_ij`, where x0 has its powers: they are not tested again.
fn a1s_b_ij_dual<S: ChainNum>(
    x0: <S::Re as DualNum>::Base,
    fluid: &Fluid<S>,
    lambda: <S::Re as DualNum>::Plain,
) -> S
    ensures { (w : Bool) → let A = S.Re.beside w in
        let D = duals A in
        let sum = a1s_b A D (plain_d A) (S.Re.power_at w x0) (fluid_by (slope_by S.parts (S.Re.of w)) fluid.now) (S.Re.plain w lambda) in
        (u : D.Num) → sum ≡ held u → slope_by S.parts (S.Re.of w) result ≡ u }
{
    let n3 = S::Re::exponent(lit::<S::Re>(3.0) - lambda);
    let n4 = S::Re::exponent(lit::<S::Re>(4.0) - lambda);
    let p = S::Re::raise_inside(x0, S::Re::exponent(lambda));
    let p3 = S::Re::raise_inside(x0, n3);
    let p4 = S::Re::raise_inside(x0, n4);
    a1s_b_of_dual(fluid, sutherland::lambda_in(lambda), p, p3, p4)
}

// The powers of x0 share its logarithm. All are tested first: then none of the sums can refuse.
fn five_dual<S: ChainNum>(
    x0: S::Re,
    fluid: &Fluid<S>,
    la: <S::Re as DualNum>::Plain,
    lr: <S::Re as DualNum>::Plain,
) -> Result<Five<S>, Refusal>
    ensures { (w : Bool) → let A = S.Re.beside w in
        answer_by (five_by (slope_by S.parts (S.Re.of w))) result ≡ five A (duals A) (plain_d A) ((S.Re.functions w).powf (S.Re.of w x0)) (fluid_by (slope_by S.parts (S.Re.of w)) fluid.now) (S.Re.plain w la) (S.Re.plain w lr) }
{
    let base = x0.base();
    if !sutherland::five_held::<S::Re>(base, la, lr) {
        return Err(Refusal::Domain);
    }
    let two = lit::<S::Re>(2.0);
    Ok(Five {
        at_la: a1s_b_ij_dual(base, fluid, la),
        at_lr: a1s_b_ij_dual(base, fluid, lr),
        at_2la: a1s_b_ij_dual(base, fluid, two * la),
        at_lalr: a1s_b_ij_dual(base, fluid, la + lr),
        at_2lr: a1s_b_ij_dual(base, fluid, two * lr),
    })
}

fn pref_dual<S: SlopeNum>(rho: S, d3: S::Re, eps_k: S::Re, c: S::Re) -> S
    ensures { (w : Bool) → let A = S.Re.beside w in
        slope_by S.parts (S.Re.of w) result ≡ pref_of A (duals A) (plain_d A) (S.Re.functions w).pi (slope_by S.parts (S.Re.of w) rho) (S.Re.of w d3) (S.Re.of w eps_k) (S.Re.of w c) }
{
    rho * d3 * eps_k * S::Re::entered(2.0) * S::Re::lift(S::Re::pi()) * c
}

fn a1_dual<S: SlopeNum>(pref: S, s: &Five<S>) -> S
    ensures { (w : Bool) → let A = S.Re.beside w in
        slope_by S.parts (S.Re.of w) result ≡ a1_of A (duals A) (plain_d A) (slope_by S.parts (S.Re.of w) pref) (five_by (slope_by S.parts (S.Re.of w)) s.now) }
{
    pref * (s.at_la - s.at_lr)
}

fn a2_dual<S: SlopeNum>(pref: S, eps_k: S::Re, c: S::Re, k_hs: S, s: &Five<S>) -> S
    ensures { (w : Bool) → let A = S.Re.beside w in
        slope_by S.parts (S.Re.of w) result ≡ a2_of A (duals A) (plain_d A) (slope_by S.parts (S.Re.of w) pref) (S.Re.of w eps_k) (S.Re.of w c) (slope_by S.parts (S.Re.of w) k_hs) (five_by (slope_by S.parts (S.Re.of w)) s.now) }
{
    let half = S::Re::entered(0.5);
    let two = S::Re::entered(2.0);
    pref * eps_k * c * k_hs * half * (s.at_2la - s.at_lalr * two + s.at_2lr)
}

// The first two orders of a component, with slopes.
pub fn orders_dual<S: ChainNum>(
    fluid: &Fluid<S>,
    p: PairParameters,
    d: S::Re,
) -> Result<OrdersDual<S>, Refusal>
    ensures { (w : Bool) → let A = S.Re.beside w in
        answer_by (orders_by (slope_by S.parts (S.Re.of w))) result ≡ term_orders_of A (duals A) (plain_d A) (S.Re.functions w) (fluid_by (slope_by S.parts (S.Re.of w)) fluid.now) (pair_in A.lit p) (S.Re.of w d) }
{
    let eps_k = S::Re::entered(p.epsilon_k);
    let c = S::Re::entered(p.c);
    let x0 = orders::x0_of(d, lit::<S::Re>(p.sigma));
    let s = five_dual(x0, fluid, lit::<S::Re>(p.la), lit::<S::Re>(p.lr))?;
    let pref = pref_dual(fluid.segment_density, d.cube(), eps_k, c);
    Ok(OrdersDual {
        five: s,
        a1: a1_dual(pref, &s),
        a2: a2_dual(pref, eps_k, c, fluid.k_hs, &s),
    })
}
