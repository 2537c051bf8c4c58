// The chain: the hard spheres' k-values, the fluid with slopes, and what a component's link adds.
ghost use Rattle.std.specs.Prelude.{◌≡◌, Bool, false};
ghost use Rattle.number.specs.Answer.{answer_by};
ghost use Rattle.number.specs.Arith.{decimal, whole};
ghost use Rattle.saftvrmie_dispersion.specs.Chain.{k_of, rho_dual, zeta_dual, fluid_dual, g1_of, g2_of, link_pref, g_hs, gamma_of, ln_g_mie, link_of, add_link, chain_pure};
ghost use Rattle.saftvrmie_dispersion.specs.Answer.{pair_in, fluid_by, bar_by, orders_by, sums_by, k_by, link_by};
ghost use Rattle.slope_num.specs.Value.{slope_by};

use crate::sutherland::lit;
use crate::{
    ChainNum, ChainState, Fluid, KValues, Link, OrdersDual, Sums, Terms, orders, slope_sums,
};
use dual_num::DualNum;
use number::{Arithmetic, Refusal};
use plain_num::PlainNum;
use saftvrmie_parameters::PairParameters;
use slope_num::SlopeNum;

// k0's polynomial.
fn k0_sum<D: PlainNum>(z: D, z2: D, z3: D) -> D
    ensures { (w : Bool) → let A = D.beside w in
        let a = A.mul (A.neg (D.of w z)) (whole A 39) in
        let b = A.mul (D.of w z2) (whole A 9) in
        let c = A.mul (D.of w z3) (whole A 2) in
        D.of w result ≡ A.add (A.sub (A.add a b) c) (whole A 42) }
{
    -z * D::Plain::lit(39.0) + z2 * D::Plain::lit(9.0) - z3 * D::Plain::lit(2.0)
        + D::Plain::lit(42.0)
}

fn k0<D: PlainNum>(l: D, z: D, sum: D, frac: D) -> D
    ensures { (w : Bool) → let A = D.beside w in
        D.of w result ≡ A.add (A.neg (D.of w l)) (A.div (A.mul (A.mul (D.of w z) (D.of w sum)) (D.of w frac)) (whole A 6)) }
{
    -l + z * sum * frac / D::Plain::lit(6.0)
}

fn k1<D: PlainNum>(z: D, z3: D, frac: D) -> D
    ensures { (w : Bool) → let A = D.beside w in
        let a = A.mul (A.mul (D.of w z) (D.of w frac)) (A.lit (decimal false 5 1)) in
        D.of w result ≡ A.mul a (A.sub (A.add (D.of w z3) (A.mul (D.of w z) (whole A 6))) (whole A 12)) }
{
    z * frac * D::Plain::lit(0.5) * (z3 + z * D::Plain::lit(6.0) - D::Plain::lit(12.0))
}

// The last factor is -z + 1.
fn k2<D: PlainNum>(z2: D, frac: D, factor: D) -> D
    ensures { (w : Bool) → let A = D.beside w in
        D.of w result ≡ A.mul (A.mul (A.div (A.mul (A.neg (D.of w z2)) (whole A 3)) (whole A 8)) (D.of w frac)) (D.of w factor) }
{
    -z2 * D::Plain::lit(3.0) / D::Plain::lit(8.0) * frac * factor
}

fn k3<D: PlainNum>(z: D, z3: D, frac: D) -> D
    ensures { (w : Bool) → let A = D.beside w in
        let a = A.div (A.mul (D.of w z) (D.of w frac)) (whole A 6) in
        D.of w result ≡ A.mul a (A.add (A.add (A.neg (D.of w z3)) (A.mul (D.of w z) (whole A 3))) (whole A 3)) }
{
    let three = D::Plain::lit(3.0);
    z * frac / D::Plain::lit(6.0) * (-z3 + z * three + three)
}

// k0 to k3 of `Properties::new`; inlined, so that what a run leaves unused is not worked.
#[inline(always)]
pub fn k_values<D: PlainNum>(zeta_x: D) -> Result<KValues<D>, Refusal>
    ensures { (w : Bool) → answer_by (k_by (D.of w)) result ≡ k_of (D.beside w) (D.functions w) (D.of w zeta_x) }
{
    let z2 = zeta_x * zeta_x;
    let z3 = z2 * zeta_x;
    let factor = -zeta_x + D::Plain::lit(1.0);
    let frac = factor.cube().recip();
    let l = factor.ln()?;
    Ok(KValues {
        k0: k0(l, zeta_x, k0_sum(zeta_x, z2, z3), frac),
        k1: k1(zeta_x, z3, frac),
        k2: k2(z2, frac, factor),
        k3: k3(zeta_x, z3, frac),
    })
}

fn rho_dual<S: SlopeNum>(rho: S::Re) -> S
    ensures { (w : Bool) → slope_by S.parts (S.Re.of w) result ≡ rho_dual (S.Re.beside w) (S.Re.of w rho) }
{
    S::new(rho, S::Re::entered(1.0))
}

// The density is looked at in the float run.
fn zeta_dual<S: SlopeNum>(zeta_x: S::Re, rho: S::Re) -> S
    ensures { (w : Bool) → slope_by S.parts (S.Re.of w) result ≡ zeta_dual (S.Re.beside w) (S.Re.of w zeta_x) (S.Re.of w rho) }
{
    let rho_s = rho_dual::<S>(rho);
    if rho.re() == 0.0 {
        return rho_s * S::Re::entered(0.0);
    }
    S::plain_mul(zeta_x / rho, rho_s)
}

// The state with its slopes.
pub fn fluid_dual<S: SlopeNum>(zeta_x: S::Re, rho: S::Re) -> Fluid<S>
    ensures { (w : Bool) → fluid_by (slope_by S.parts (S.Re.of w)) result ≡ fluid_dual (S.Re.beside w) (S.Re.of w zeta_x) (S.Re.of w rho) }
{
    let z = zeta_dual::<S>(zeta_x, rho);
    let one = S::Re::entered(1.0);
    Fluid {
        segment_density: rho_dual::<S>(rho),
        zeta_x: z,
        k_hs: slope_sums::k_hs_dual(z),
        b1: -z * S::Re::entered(0.5) + one,
        b2: z * (z + one) * S::Re::entered(4.5),
        b3: (-z + one).powi_down(3),
    }
}

fn g1<S: SlopeNum>(o: &OrdersDual<S>, p: PairParameters, pref: S::Re) -> S::Re
    ensures { (w : Bool) → let A = S.Re.beside w in
        S.Re.of w result ≡ g1_of A (orders_by (slope_by S.parts (S.Re.of w)) o.now) (pair_in A.lit p) (S.Re.of w pref) }
{
    let at_la = o.five.at_la.re() * S::Re::entered(p.la);
    let at_lr = o.five.at_lr.re() * S::Re::entered(p.lr);
    o.a1.eps() * S::Re::entered(3.0) / pref - (at_la - at_lr) * S::Re::entered(p.c)
}

fn g2_mca<S: SlopeNum>(o: &OrdersDual<S>, p: PairParameters, pref: S::Re, k_hs: S::Re) -> S::Re
    ensures { (w : Bool) → let A = S.Re.beside w in
        S.Re.of w result ≡ g2_of A (orders_by (slope_by S.parts (S.Re.of w)) o.now) (pair_in A.lit p) (S.Re.of w pref) (S.Re.of w k_hs) }
{
    let la = S::Re::entered(p.la);
    let lr = S::Re::entered(p.lr);
    let five = o.five.at_2lr.re() * lr - o.five.at_lalr.re() * (la + lr);
    let sums = five + o.five.at_2la.re() * la;
    let slope = o.a2.eps() * S::Re::entered(3.0) / pref / S::Re::entered(p.epsilon_k);
    slope - sums * k_hs * S::Re::entered(p.c).square()
}

pub fn link_pref<D: PlainNum>(d3: D, eps_k: D) -> D
    ensures { (w : Bool) → D.of w result ≡ link_pref (D.beside w) (D.functions w).pi (D.of w d3) (D.of w eps_k) }
{
    d3 * eps_k * D::Plain::lit(2.0) * D::pi()
}

pub fn g_hs<D: PlainNum>(k: KValues<D>, x0: D) -> Result<D, Refusal>
    ensures { (w : Bool) → answer_by (D.of w) result ≡ g_hs (D.beside w) (D.functions w) (k_by (D.of w) k) (D.of w x0) }
{
    (k.k0 + k.k1 * x0 + k.k2 * x0.square() + k.k3 * x0.cube()).exp()
}

pub fn gamma<D: PlainNum>(zeta_x_bar: D, beta_eps: D, alpha: D) -> Result<D, Refusal>
    ensures { (w : Bool) → answer_by (D.of w) result ≡ gamma_of (D.beside w) (D.functions w) (D.of w zeta_x_bar) (D.of w beta_eps) (D.of w alpha) }
{
    let ten = D::entered(10.0);
    let e = beta_eps.exp_m1()?;
    let y = ten * (D::entered(0.57) - alpha);
    let t = y.tanh()?;
    let x = -zeta_x_bar * D::Plain::lit(6.7) - zeta_x_bar.square() * D::Plain::lit(8.0);
    let g = x.exp()?;
    Ok(zeta_x_bar * e * ten * (-t + D::Plain::lit(1.0)) * g)
}

pub fn ln_g_mie<D: PlainNum>(g_hs: D, beta_eps: D, g1: D, g2: D) -> Result<D, Refusal>
    ensures { (w : Bool) → answer_by (D.of w) result ≡ ln_g_mie (D.beside w) (D.functions w) (D.of w g_hs) (D.of w beta_eps) (D.of w g1) (D.of w g2) }
{
    let l = g_hs.ln()?;
    Ok(l + (beta_eps * g1 + beta_eps.square() * g2) / g_hs)
}

// What a component adds to a_chain.
fn link_term<S: SlopeNum>(
    of: &ChainState<S, S::Re>,
    o: &OrdersDual<S>,
    p: PairParameters,
    d: S::Re,
    link: Link<S::Re>,
) -> Result<S::Re, Refusal>
    ensures { (w : Bool) → let A = S.Re.beside w in
        let k = k_by (S.Re.of w) of.now.k in
        let bar = bar_by (S.Re.of w) of.now.bar in
        let k_hs = (slope_by S.parts (S.Re.of w) of.now.fluid.k_hs).re in
        answer_by (S.Re.of w) result ≡ link_of A (S.Re.functions w) k bar.zeta_x_bar (orders_by (slope_by S.parts (S.Re.of w)) o.now) k_hs (pair_in A.lit p) (S.Re.of w d) (link_by (S.Re.of w) link) }
{
    let eps_k = S::Re::entered(p.epsilon_k);
    let pref = link_pref(d.cube(), eps_k);
    let beta_eps = link.t_inv * eps_k;
    let g = g_hs(of.k, orders::x0_of(d, lit::<S::Re>(p.sigma)))?;
    let gamma = gamma(of.bar.zeta_x_bar, beta_eps, S::Re::entered(p.alpha))?;
    let one = S::Re::entered(1.0);
    let g2 = g2_mca(o, p, pref, of.fluid.k_hs.re()) * (gamma + one);
    let ln_g = ln_g_mie(g, beta_eps, g1(o, p, pref), g2)?;
    Ok(-link.fraction * (link.m - one) * ln_g)
}

pub fn add_link<D: PlainNum>(s: Sums<D>, l: D) -> Sums<D>
    ensures { (w : Bool) → sums_by (D.of w) result ≡ add_link (D.beside w) (sums_by (D.of w) s) (D.of w l) }
{
    Sums {
        a1: s.a1,
        a2: s.a2,
        a3: s.a3,
        a_chain: s.a_chain + l,
    }
}

// A component of the chain, added to the sums.
pub fn chain_pure<S: ChainNum>(
    of: &ChainState<S, S::Re>,
    p: PairParameters,
    d: S::Re,
    link: Link<S::Re>,
    xs: S::Re,
    s: Sums<S::Re>,
) -> Result<Sums<S::Re>, Refusal>
    ensures { (w : Bool) → let A = S.Re.beside w in
        let fluid = fluid_by (slope_by S.parts (S.Re.of w)) of.now.fluid in
        let bar = bar_by (S.Re.of w) of.now.bar in
        let k = k_by (S.Re.of w) of.now.k in
        answer_by (sums_by (S.Re.of w)) result ≡ chain_pure A (S.Re.functions w) fluid bar k (pair_in A.lit p) (S.Re.of w d) (link_by (S.Re.of w) link) (S.Re.of w xs) (sums_by (S.Re.of w) s) }
{
    let o = slope_sums::orders_dual(&of.fluid, p, d)?;
    let six = orders::six_of::<S::Re>(p.alpha);
    let a3 = orders::a3(of.bar.zeta_x_bar, six, lit::<S::Re>(p.epsilon_k))?;
    let terms = Terms {
        a1: o.a1.re(),
        a2: o.a2.re(),
        a3,
        xi: orders::xi(of.bar, six),
    };
    let t = orders::add_pure(xs, terms, s);
    let l = link_term(of, &o, p, d, link)?;
    Ok(add_link(t, l))
}
