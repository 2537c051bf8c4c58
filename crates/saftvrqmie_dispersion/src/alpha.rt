// `Alpha` of a pair, the functions f_k of it, and the third perturbation.
ghost use Rattle.std.specs.Prelude.{◌≡◌, Bool};
ghost use Rattle.number.specs.Answer.{answer_by};
ghost use Rattle.mie_parameters.specs.Sums.{f_from};
ghost use Rattle.saftvrqmie_potential.specs.Potential.{pair_by};
ghost use Rattle.saftvrqmie_dispersion.specs.Alpha.{dmt_of, alpha_mie, alpha_q1, alpha_q2, alpha_of, ratio, alpha, f, chi, third_order_ij};

use dual_num::DualNum;
use mie_parameters::PHI;
use number::{Arithmetic, Refusal};
use saftvrqmie_potential::Pair;

fn alpha_mie<D: DualNum>(la: D::Plain, lr: D::Plain, ra: D, rr: D) -> D
    ensures { (w : Bool) → D.of w result ≡ alpha_mie (D.beside w) (D.plain w la) (D.plain w lr) (D.of w ra) (D.of w rr) }
{
    let three = D::Plain::lit(3.0);
    ra / (la - three) - rr / (lr - three)
}

// The terms of the first and of the second order: in the second other powers and factors, so two formulas.
fn alpha_q1<D: DualNum>(l: D::Plain, s: D, r: D) -> D
    ensures { (w : Bool) → D.of w result ≡ alpha_q1 (D.beside w) (D.plain w l) (D.of w s) (D.of w r) }
{
    r * s.square() * l
}

fn alpha_q2<D: DualNum>(l: D::Plain, s: D, r: D) -> D
    ensures { (w : Bool) → D.of w result ≡ alpha_q2 (D.beside w) (D.plain w l) (D.of w s) (D.of w r) }
{
    let one = D::Plain::lit(1.0);
    let two = D::Plain::lit(2.0);
    let half = D::Plain::lit(0.5);
    r * s.powi(4) * (l + two) * l * (l - one) * half
}

fn dmt_of<D: DualNum>(p: &Pair<D, D::Plain>) -> D
    ensures { (w : Bool) → D.of w result ≡ dmt_of (D.beside w) (D.functions w) (pair_by (D.plain w) (D.of w) p.now) }
{
    saftvrqmie_potential::quantum_d(p.mass, p.temperature) / p.sigma.square()
}

// Alpha before its last factor.
fn alpha_of<D: DualNum>(p: &Pair<D, D::Plain>, dmt: D, s: D, ra: D, rr: D) -> D
    ensures { (w : Bool) → D.of w result ≡ alpha_of (D.beside w) (pair_by (D.plain w) (D.of w) p.now) (D.of w dmt) (D.of w s) (D.of w ra) (D.of w rr) }
{
    let v = alpha_mie(p.la, p.lr, ra, rr);
    if !saftvrqmie_potential::first_order(p.order) {
        return v;
    }
    let v1 = v + dmt * (alpha_q1(p.la, s, ra) - alpha_q1(p.lr, s, rr));
    if !saftvrqmie_potential::second_order(p.order) {
        return v1;
    }
    v1 + dmt.square() * (alpha_q2(p.la, s, ra) - alpha_q2(p.lr, s, rr))
}

// D::one() * x / y.
fn ratio<D: DualNum>(x: D::Plain, y: D) -> D
    ensures { (w : Bool) → D.of w result ≡ ratio (D.beside w) (D.plain w x) (D.of w y) }
{
    D::lift(D::Plain::lit(1.0) * x) / y
}

// Alpha of a pair, at its effective diameter and depth. Its dmt is worked at every order, used or not.
pub fn alpha_ij<D: DualNum>(
    p: &Pair<D, D::Plain>,
    sigma_eff: D,
    epsilon_k_eff: D,
) -> Result<D, Refusal>
    ensures { (w : Bool) → answer_by (D.of w) result ≡ alpha (D.beside w) (D.functions w) (pair_by (D.plain w) (D.of w) p.now) (D.of w sigma_eff) (D.of w epsilon_k_eff) }
{
    let s = ratio(p.sigma, sigma_eff);
    let base = s.base();
    let ra = D::powf_at(base, p.la)?;
    let rr = D::powf_at(base, p.lr)?;
    let dmt = dmt_of(p);
    let e = ratio(p.epsilon_k, epsilon_k_eff);
    let v = alpha_of(p, dmt, s, ra, rr) * (e * p.c);
    Ok(v.after(dmt))
}

// `f` of a row of PHI, from alpha and its powers 2 and 3.
fn f<D: DualNum>(phi: [f64; 7], a: D, a2: D, a3: D) -> D
    ensures { (w : Bool) → D.of w result ≡ f_from (D.beside w) phi (D.of w a) (D.of w a2) (D.of w a3) }
{
    let over = a * D::Plain::lit(phi[1])
        + a2 * D::Plain::lit(phi[2])
        + a3 * D::Plain::lit(phi[3])
        + D::Plain::lit(phi[0]);
    let under = a * D::Plain::lit(phi[4])
        + a2 * D::Plain::lit(phi[5])
        + a3 * D::Plain::lit(phi[6])
        + D::Plain::lit(1.0);
    over / under
}

pub fn chi<D: DualNum>(a: D, zeta_bar: D) -> D
    ensures { (w : Bool) → D.of w result ≡ chi (D.beside w) (D.of w a) (D.of w zeta_bar) }
{
    let a2 = a.square();
    let a3 = a.cube();
    let f0 = f(PHI[0], a, a2, a3);
    let f1 = f(PHI[1], a, a2, a3);
    let f2 = f(PHI[2], a, a2, a3);
    f0 * zeta_bar + f1 * zeta_bar.powi(5) + f2 * zeta_bar.powi(8)
}

pub fn third_order_perturbation_ij<D: DualNum>(
    epsilon_k_eff: D,
    a: D,
    zeta_bar: D,
) -> Result<D, Refusal>
    ensures { (w : Bool) → answer_by (D.of w) result ≡ third_order_ij (D.beside w) (D.functions w) (D.of w epsilon_k_eff) (D.of w a) (D.of w zeta_bar) }
{
    let a2 = a.square();
    let a3 = a.cube();
    let f3 = f(PHI[3], a, a2, a3);
    let f4 = f(PHI[4], a, a2, a3);
    let f5 = f(PHI[5], a, a2, a3);
    let x = f4 * zeta_bar + f5 * zeta_bar.square();
    let e = x.exp()?;
    Ok(-epsilon_k_eff.cube() * f3 * zeta_bar * e)
}
