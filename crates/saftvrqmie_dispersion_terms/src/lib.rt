// The Sutherland and B terms of a pair (saftvrqmie/eos/dispersion.rs, `eta_eff` to `combine_sutherland_and_b`).
// What all exponents of a pair share is worked once (`PairTerms`): the logarithms of the two bases, and what hangs on the packing fraction alone. Of the five powers of a term three differ; each is worked once.
#![tactic(auto)]

ghost use Rattle.std.specs.Prelude.{◌≡◌, Bool};
ghost use Rattle.number.specs.Answer.{answer_by};
ghost use Rattle.saftvrqmie_dispersion_terms.specs.Terms.{lam_sum, eta_eff, sutherland_from, ilambda_from, jlambda_from, factor_i, factor_j, b_of, combine_sutherland_and_b, terms_by};

use dual_num::DualNum;
use mie_parameters::LAM_COEFF;
use number::{Arithmetic, Refusal};

// What all exponents of a pair share. Its types are parameters, since a struct that holds an associated type cannot be Copy.
#[derive(Clone, Copy)]
pub struct PairTerms<D, P, B> {
    pub epsilon_k: P,
    pub zeta: D,
    pub factor_i: D,
    pub factor_j: D,
    pub x0: B,
    pub x0_eff: B,
}

// A row of LAM_COEFF with the inverse powers of lambda.
fn lam_sum<D: DualNum>(
    c: [f64; 4],
    inv0: D::Plain,
    inv1: D::Plain,
    inv2: D::Plain,
    inv3: D::Plain,
) -> D::Plain
    ensures { (w : Bool) → D.plain w result ≡ lam_sum (D.beside w) c (D.plain w inv0) (D.plain w inv1) (D.plain w inv2) (D.plain w inv3) }
{
    inv0 * D::Plain::lit(c[0])
        + inv1 * D::Plain::lit(c[1])
        + inv2 * D::Plain::lit(c[2])
        + inv3 * D::Plain::lit(c[3])
}

pub fn eta_eff<D: DualNum>(lambda: D::Plain, zeta: D) -> D
    ensures { (w : Bool) → D.of w result ≡ eta_eff (D.beside w) (D.plain w lambda) (D.of w zeta) }
{
    let one = D::Plain::lit(1.0);
    let inv1 = one / lambda;
    let inv2 = one / lambda.square();
    let inv3 = one / lambda.cube();
    let c0 = lam_sum::<D>(LAM_COEFF[0], one, inv1, inv2, inv3);
    let c1 = lam_sum::<D>(LAM_COEFF[1], one, inv1, inv2, inv3);
    let c2 = lam_sum::<D>(LAM_COEFF[2], one, inv1, inv2, inv3);
    let c3 = lam_sum::<D>(LAM_COEFF[3], one, inv1, inv2, inv3);
    zeta * (zeta * (zeta * (zeta * c3 + c2) + c1) + c0)
}

// l3 is lambda - 3, l4 is lambda - 4, here and below: worked once.
fn sutherland_of<D: DualNum>(l3: D::Plain, epsilon_k: D::Plain, ef: D, p: D) -> D
    ensures { (w : Bool) → D.of w result ≡ sutherland_from (D.beside w) (D.plain w l3) (D.plain w epsilon_k) (D.of w ef) (D.of w p) }
{
    let one = D::Plain::lit(1.0);
    let half = D::Plain::lit(0.5);
    let d = (-ef + one).cube();
    (-ef * half + one) * D::Plain::lit(-12.0) * p * epsilon_k / l3 / d
}

// The two integrals of b, of both models.
pub fn ilambda_of<D: DualNum>(l3: D::Plain, p3: D) -> D
    ensures { (w : Bool) → D.of w result ≡ ilambda_from (D.beside w) (D.plain w l3) (D.of w p3) }
{
    -(p3 - D::Plain::lit(1.0)) / l3
}

pub fn jlambda_of<D: DualNum>(l3: D::Plain, l4: D::Plain, p4: D, p3: D) -> D
    ensures { (w : Bool) → D.of w result ≡ jlambda_from (D.beside w) (D.plain w l3) (D.plain w l4) (D.of w p4) (D.of w p3) }
{
    -(p4 * l3 - p3 * l4 - D::Plain::lit(1.0)) / (l3 * l4)
}

fn factor_i<D: DualNum>(zeta: D) -> D
    ensures { (w : Bool) → D.of w result ≡ factor_i (D.beside w) (D.of w zeta) }
{
    (-zeta + D::Plain::lit(2.0)) / (-zeta + D::Plain::lit(1.0)).cube()
}

fn factor_j<D: DualNum>(zeta: D) -> D
    ensures { (w : Bool) → D.of w result ≡ factor_j (D.beside w) (D.of w zeta) }
{
    let one = D::Plain::lit(1.0);
    -zeta * D::Plain::lit(9.0) * (zeta + one) / (-zeta + one).cube()
}

fn b_of<D: DualNum>(epsilon_k: D::Plain, fi: D, fj: D, i: D, j: D, p: D) -> D
    ensures { (w : Bool) → D.of w result ≡ b_of (D.beside w) (D.plain w epsilon_k) (D.of w fi) (D.of w fj) (D.of w i) (D.of w j) (D.of w p) }
{
    p * (fi * i + fj * j) * D::Plain::lit(6.0) * epsilon_k
}

pub fn terms_of<D: DualNum>(
    epsilon_k: D::Plain,
    zeta: D,
    x0: D,
    x0_eff: D,
) -> PairTerms<D, D::Plain, D::Base>
    ensures formula { (w : Bool) → terms_by (D.beside w) (D.plain w) (D.of w) (D.power_at w) result
        ≡ combine_sutherland_and_b (D.beside w) (D.functions w) (D.plain w epsilon_k) (D.of w zeta) (D.of w x0) (D.of w x0_eff) }
    ensures handed { (result.epsilon_k ≡ epsilon_k) × (result.zeta ≡ zeta) }
    ensures factors { (w : Bool) → (D.of w result.factor_i ≡ factor_i (D.beside w) (D.of w zeta)) × (D.of w result.factor_j ≡ factor_j (D.beside w) (D.of w zeta)) }
    ensures bases { (result.x0 ≡ D.base_of x0) × (result.x0_eff ≡ D.base_of x0_eff) }
{
    PairTerms {
        epsilon_k,
        zeta,
        factor_i: factor_i(zeta),
        factor_j: factor_j(zeta),
        x0: x0.base(),
        x0_eff: x0_eff.base(),
    }
}

// The terms at an exponent.
pub fn combine_at<D: DualNum>(
    t: &PairTerms<D, D::Plain, D::Base>,
    lambda: D::Plain,
) -> Result<D, Refusal>
    ensures { (w : Bool) → answer_by (D.of w) result ≡ terms_by (D.beside w) (D.plain w) (D.of w) (D.power_at w) t.now (D.plain w lambda) }
{
    let p = D::powf_at(t.x0, lambda)?;
    let p3 = D::powf_at(t.x0_eff, D::Plain::lit(3.0) - lambda)?;
    let p4 = D::powf_at(t.x0_eff, D::Plain::lit(4.0) - lambda)?;
    let l3 = lambda - D::Plain::lit(3.0);
    let l4 = lambda - D::Plain::lit(4.0);
    let int_as = sutherland_of(l3, t.epsilon_k, eta_eff(lambda, t.zeta), p);
    let i = ilambda_of(l3, p3);
    let j = jlambda_of(l3, l4, p4, p3);
    let int_b = b_of(t.epsilon_k, t.factor_i, t.factor_j, i, j, p);
    Ok(int_as + int_b)
}

pub fn combine_sutherland_and_b<D: DualNum>(
    lambda: D::Plain,
    epsilon_k: D::Plain,
    zeta: D,
    x0: D,
    x0_eff: D,
) -> Result<D, Refusal>
    ensures { (w : Bool) → answer_by (D.of w) result ≡ combine_sutherland_and_b (D.beside w) (D.functions w) (D.plain w epsilon_k) (D.of w zeta) (D.of w x0) (D.of w x0_eff) (D.plain w lambda) }
{
    let t = terms_of(epsilon_k, zeta, x0, x0_eff);
    combine_at(&t, lambda)
}
