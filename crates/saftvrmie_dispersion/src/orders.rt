// The three orders of a pair, and what they add to the sums.
ghost use Rattle.std.specs.Prelude.{◌≡◌, Bool};
ghost use Rattle.number.specs.Answer.{answer_by};
ghost use Rattle.mie_parameters.specs.Sums.{orders_sum, f_from};
ghost use Rattle.saftvrmie_dispersion.specs.Terms.{bar_of, x0_of, add_pure, add_pair, pref_of, a1_of, a2_of, terms_of};
ghost use Rattle.saftvrmie_dispersion.specs.Answer.{pair_in, fluid_by, bar_by, five_by, terms_by, sums_by};
ghost use Rattle.saftvrmie_dispersion.specs.Shared.{six_by, six_of, xi_by, a3_by};

use crate::{Bar, Five, Fluid, Six, Sums, Terms, sutherland};
use dual_num::DualNum;
use mie_parameters::PHI;
use number::{Arithmetic, Refusal};
use saftvrmie_parameters::PairParameters;

// `f` of a row of PHI; inlined, so that its numbers are known where it is worked. saftvrqmie_dispersion has it over D: numbers with slopes are no `Arithmetic`, as plain ones are, and a literal beside them stays plain.
#[inline(always)]
fn f<D: DualNum>(phi: [f64; 7], alpha: D::Plain, alpha2: D::Plain, alpha3: D::Plain) -> D::Plain
    ensures { (w : Bool) → D.plain w result ≡ f_from (D.beside w) phi (D.plain w alpha) (D.plain w alpha2) (D.plain w alpha3) }
{
    let over = alpha * D::Plain::lit(phi[1])
        + alpha2 * D::Plain::lit(phi[2])
        + alpha3 * D::Plain::lit(phi[3])
        + D::Plain::lit(phi[0]);
    let under = alpha * D::Plain::lit(phi[4])
        + alpha2 * D::Plain::lit(phi[5])
        + alpha3 * D::Plain::lit(phi[6])
        + D::Plain::lit(1.0);
    over / under
}

// Of an alpha of the source, so that both ends of its products are worked once.
pub fn six_of<D: DualNum>(x: f64) -> Six<D::Plain>
    ensures { (w : Bool) → six_by (D.plain w) result ≡ six_of (D.beside w) ((D.beside w).lit x) }
{
    let alpha = D::Plain::lit(x);
    let alpha2 = alpha * alpha;
    let alpha3 = alpha * alpha2;
    Six {
        f0: f::<D>(PHI[0], alpha, alpha2, alpha3),
        f1: f::<D>(PHI[1], alpha, alpha2, alpha3),
        f2: f::<D>(PHI[2], alpha, alpha2, alpha3),
        f3: f::<D>(PHI[3], alpha, alpha2, alpha3),
        f4: f::<D>(PHI[4], alpha, alpha2, alpha3),
        f5: f::<D>(PHI[5], alpha, alpha2, alpha3),
    }
}

pub fn bar_of<D: DualNum>(zeta_x_bar: D) -> Bar<D>
    ensures { (w : Bool) → bar_by (D.of w) result ≡ bar_of (D.beside w) (D.of w zeta_x_bar) }
{
    Bar {
        zeta_x_bar,
        zx5: zeta_x_bar.powi(5),
        zx8: zeta_x_bar.powi(8),
    }
}

pub fn xi<D: DualNum>(bar: Bar<D>, of: Six<D::Plain>) -> D
    ensures { (w : Bool) → D.of w result ≡ xi_by (D.beside w) (bar_by (D.of w) bar) (six_by (D.plain w) of) }
{
    bar.zeta_x_bar * of.f0 + bar.zx5 * of.f1 + bar.zx8 * of.f2
}

pub fn a3<D: DualNum>(zeta_x_bar: D, of: Six<D::Plain>, eps_k: D::Plain) -> Result<D, Refusal>
    ensures { (w : Bool) → answer_by (D.of w) result ≡ a3_by (D.beside w) (D.functions w) (D.of w zeta_x_bar) (six_by (D.plain w) of) (D.plain w eps_k) }
{
    let x = zeta_x_bar * (zeta_x_bar * of.f5 + of.f4);
    let e = x.exp()?;
    Ok(-zeta_x_bar * of.f3 * e * eps_k.cube())
}

pub fn x0_of<D: DualNum>(d: D, sigma: D::Plain) -> D
    ensures { (w : Bool) → D.of w result ≡ x0_of (D.beside w) (D.of w d) (D.plain w sigma) }
{
    d.recip() * sigma
}

fn pref<D: DualNum>(rho: D, d3: D, eps_k: D::Plain, c: D::Plain) -> D
    ensures { (w : Bool) → D.of w result ≡ pref_of (D.beside w) (D.beside w) (λ x. x) (D.functions w).pi (D.of w rho) (D.of w d3) (D.plain w eps_k) (D.plain w c) }
{
    rho * d3 * eps_k * D::Plain::lit(2.0) * D::pi() * c
}

fn a1<D: DualNum>(pref: D, s: Five<D>) -> D
    ensures { (w : Bool) → D.of w result ≡ a1_of (D.beside w) (D.beside w) (λ x. x) (D.of w pref) (five_by (D.of w) s) }
{
    pref * (s.at_la - s.at_lr)
}

fn a2<D: DualNum>(pref: D, eps_k: D::Plain, c: D::Plain, k_hs: D, s: Five<D>) -> D
    ensures { (w : Bool) → D.of w result ≡ a2_of (D.beside w) (D.beside w) (λ x. x) (D.of w pref) (D.plain w eps_k) (D.plain w c) (D.of w k_hs) (five_by (D.of w) s) }
{
    let half = D::Plain::lit(0.5);
    let two = D::Plain::lit(2.0);
    pref * eps_k * c * k_hs * half * (s.at_2la - s.at_lalr * two + s.at_2lr)
}

// The three orders of a pair, or of a component without chain, from its diameter.
pub fn pair_terms<D: DualNum>(
    fluid: Fluid<D>,
    bar: Bar<D>,
    p: PairParameters,
    d: D,
) -> Result<Terms<D>, Refusal>
    ensures { (w : Bool) → answer_by (terms_by (D.of w)) result ≡ terms_of (D.beside w) (D.functions w) (fluid_by (D.of w) fluid) (bar_by (D.of w) bar) (pair_in (D.beside w).lit p) (D.of w d) }
{
    let of = six_of::<D>(p.alpha);
    let eps_k = D::Plain::lit(p.epsilon_k);
    let c = D::Plain::lit(p.c);
    let x0 = x0_of(d, D::Plain::lit(p.sigma));
    let s = sutherland::five_sums(x0, &fluid, D::Plain::lit(p.la), D::Plain::lit(p.lr))?;
    let factor = pref(fluid.segment_density, d.cube(), eps_k, c);
    let third = a3(bar.zeta_x_bar, of, eps_k)?;
    Ok(Terms {
        a1: a1(factor, s),
        a2: a2(factor, eps_k, c, fluid.k_hs, s),
        a3: third,
        xi: xi(bar, of),
    })
}

pub fn add_pure<D: DualNum>(xs: D, t: Terms<D>, s: Sums<D>) -> Sums<D>
    ensures { (w : Bool) → sums_by (D.of w) result ≡ add_pure (D.beside w) (D.of w xs) (terms_by (D.of w) t) (sums_by (D.of w) s) }
{
    let one = D::Plain::lit(1.0);
    let xs_ii2 = xs * xs;
    Sums {
        a1: s.a1 + t.a1 * xs_ii2,
        a2: s.a2 + t.a2 * xs_ii2 * (t.xi + one),
        a3: s.a3 + t.a3 * xs_ii2,
        a_chain: s.a_chain,
    }
}

pub fn add_pair<D: DualNum>(xi: D, xj: D, t: Terms<D>, s: Sums<D>) -> Sums<D>
    ensures { (w : Bool) → sums_by (D.of w) result ≡ add_pair (D.beside w) (D.of w xi) (D.of w xj) (terms_by (D.of w) t) (sums_by (D.of w) s) }
{
    let one = D::Plain::lit(1.0);
    let two = D::Plain::lit(2.0);
    let xs_ij = xi * xj;
    Sums {
        a1: s.a1 + t.a1 * xs_ij * two,
        a2: s.a2 + t.a2 * xs_ij * (t.xi + one) * two,
        a3: s.a3 + t.a3 * xs_ij * two,
        a_chain: s.a_chain,
    }
}

// The quantum model's, in saftvrqmie_dispersion, takes the temperature and three sums. One function below both, of 1/T and three sums, would leave both, each to hand on its own.
pub fn orders_sum<D: DualNum>(s: Sums<D>, t_inv: D) -> D
    ensures { (w : Bool) → D.of w result ≡ orders_sum (D.beside w) (D.of w t_inv) (D.of w s.a1) (D.of w s.a2) (D.of w s.a3) }
{
    s.a1 * t_inv + s.a2 * t_inv.square() + s.a3 * t_inv.cube()
}
