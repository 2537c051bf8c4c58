// The first and second perturbation of a pair, and the compressibility factor of the second.
ghost use Rattle.std.specs.Prelude.{◌≡◌, Bool, ◌+◌, ◌*◌};
ghost use Rattle.number.specs.Answer.{answer_by};
ghost use Rattle.saftvrqmie_potential.specs.Potential.{pair_by, order_number};
ghost use Rattle.saftvrqmie_dispersion_terms.specs.Terms.{terms_by};
ghost use Rattle.saftvrqmie_dispersion.specs.Perturbation.{dispersion_by, quantum_by, factors_by, taken_each, dispersion_pair, k_factor, quantum1, quantum2, quantum_of, first_mie, first_quantum, first_closed, first_order_by, first_order_ij, factors0, factors1, factors2, factors2_more, factors3, factors4, factors, second_turn, second_closed, second_order_by, second_order_ij};

use dual_num::DualNum;
use number::{Arithmetic, Refusal};
use saftvrqmie_dispersion_terms::PairTerms;
use saftvrqmie_parameters::FeynmanHibbsOrder;
use saftvrqmie_potential::Pair;

// What both perturbations of a pair take.
#[derive(Clone, Copy)]
pub struct DispersionPair<D, P> {
    pub la: P,
    pub lr: P,
    pub epsilon_k: P,
    pub c: P,
    pub zeta: D,
    pub x0: D,
    pub x0_eff: D,
    pub dq_div_sigma_2: D,
    pub order: FeynmanHibbsOrder,
}

// The quantum contributions of first and second order to the two exponents.
#[derive(Clone, Copy)]
pub struct Quantum<D> {
    pub qa1: D,
    pub qr1: D,
    pub qa2: D,
    pub qr2: D,
}

// The factors of a turn of the second order.
#[derive(Clone, Copy)]
pub struct Factors<D> {
    pub afac: D,
    pub rfac: D,
    pub arfac: D,
}

// The isothermal hard sphere compressibility factor of the second order.
pub fn k<D: DualNum>(zeta: D) -> D
    ensures { (w : Bool) → D.of w result ≡ k_factor (D.beside w) (D.of w zeta) }
{
    let one = D::Plain::lit(1.0);
    let four = D::Plain::lit(4.0);
    let under = zeta * four + zeta.square() * four - zeta.cube() * four + zeta.powi(4) + one;
    (-zeta + one).powi(4) / under
}

// What both sums over pairs work before their perturbation.
pub fn dispersion_pair<D: DualNum>(
    p: &Pair<D, D::Plain>,
    d_hs: D,
    s_eff: D,
    dq: D,
    zeta: D,
) -> DispersionPair<D, D::Plain>
    ensures { (w : Bool) → dispersion_by (D.plain w) (D.of w) result ≡ dispersion_pair (D.beside w) (pair_by (D.plain w) (D.of w) p.now) (D.of w d_hs) (D.of w s_eff) (D.of w dq) (D.of w zeta) }
{
    DispersionPair {
        la: p.la,
        lr: p.lr,
        epsilon_k: p.epsilon_k,
        c: p.c,
        zeta,
        x0: d_hs.recip() * p.sigma,
        x0_eff: s_eff / d_hs,
        dq_div_sigma_2: dq / p.sigma.square(),
        order: p.order,
    }
}

// The terms of the first and of the second order: in the second other powers and factors, so two formulas.
fn quantum_1<D: DualNum>(dq: D, l: D::Plain) -> D
    ensures { (w : Bool) → D.of w result ≡ quantum1 (D.beside w) (D.of w dq) (D.plain w l) }
{
    dq * saftvrqmie_potential::q1_of::<D>(l)
}

fn quantum_2<D: DualNum>(dq: D, l: D::Plain) -> D
    ensures { (w : Bool) → D.of w result ≡ quantum2 (D.beside w) (D.of w dq) (D.plain w l) }
{
    dq.square() * saftvrqmie_potential::q2_of::<D>(l)
}

fn quantum_of<D: DualNum>(p: &DispersionPair<D, D::Plain>) -> Quantum<D>
    ensures { (w : Bool) → quantum_by (D.of w) result ≡ quantum_of (D.beside w) (dispersion_by (D.plain w) (D.of w) p.now) }
{
    let dq = p.dq_div_sigma_2;
    Quantum {
        qa1: quantum_1(dq, p.la),
        qr1: quantum_1(dq, p.lr),
        qa2: quantum_2(dq, p.la),
        qr2: quantum_2(dq, p.lr),
    }
}

fn first_mie<D: DualNum>(
    p: &DispersionPair<D, D::Plain>,
    t: &PairTerms<D, D::Plain, D::Base>,
) -> Result<D, Refusal>
    ensures { (w : Bool) → answer_by (D.of w) result ≡ first_mie (D.beside w) (dispersion_by (D.plain w) (D.of w) p.now) (terms_by (D.beside w) (D.plain w) (D.of w) (D.power_at w) t.now) }
{
    let int_a = saftvrqmie_dispersion_terms::combine_at(t, p.la)?;
    let int_r = saftvrqmie_dispersion_terms::combine_at(t, p.lr)?;
    Ok(int_a - int_r)
}

// A quantum correction: `more` is what the exponents grow by, qa and qr are the factors of both.
fn first_quantum<D: DualNum>(
    p: &DispersionPair<D, D::Plain>,
    t: &PairTerms<D, D::Plain, D::Base>,
    v: D,
    more: f64,
    qa: D,
    qr: D,
) -> Result<D, Refusal>
    ensures { (w : Bool) → let A = D.beside w in
        let combine = terms_by A (D.plain w) (D.of w) (D.power_at w) t.now in
        answer_by (D.of w) result ≡ first_quantum A (dispersion_by (D.plain w) (D.of w) p.now) combine (A.lit more) (D.of w qa) (D.of w qr) (D.of w v) }
{
    let int_qa = saftvrqmie_dispersion_terms::combine_at(t, p.la + D::Plain::lit(more))?;
    let int_qr = saftvrqmie_dispersion_terms::combine_at(t, p.lr + D::Plain::lit(more))?;
    Ok(v + (int_qa * qa - int_qr * qr))
}

// The last product. dq_div_sigma_2 is worked at every order, used or not.
fn first_closed<D: DualNum>(p: &DispersionPair<D, D::Plain>, v: D) -> D
    ensures { (w : Bool) → D.of w result ≡ first_closed (D.beside w) (dispersion_by (D.plain w) (D.of w) p.now) (D.of w v) }
{
    (v * p.c).after(p.dq_div_sigma_2)
}

fn first_order_at<D: DualNum>(
    p: &DispersionPair<D, D::Plain>,
    t: &PairTerms<D, D::Plain, D::Base>,
) -> Result<D, Refusal>
    ensures { (w : Bool) → answer_by (D.of w) result ≡ first_order_by (D.beside w) (dispersion_by (D.plain w) (D.of w) p.now) (terms_by (D.beside w) (D.plain w) (D.of w) (D.power_at w) t.now) }
{
    let v = first_mie(p, t)?;
    if !saftvrqmie_potential::first_order(p.order) {
        return Ok(first_closed(p, v));
    }
    let dq = p.dq_div_sigma_2;
    let qa1 = quantum_1(dq, p.la);
    let qr1 = quantum_1(dq, p.lr);
    let v1 = first_quantum(p, t, v, 2.0, qa1, qr1)?;
    if !saftvrqmie_potential::second_order(p.order) {
        return Ok(first_closed(p, v1));
    }
    let qa2 = quantum_2(dq, p.la);
    let qr2 = quantum_2(dq, p.lr);
    let v2 = first_quantum(p, t, v1, 4.0, qa2, qr2)?;
    Ok(first_closed(p, v2))
}

pub fn first_order_perturbation_ij<D: DualNum>(
    p: &DispersionPair<D, D::Plain>,
) -> Result<D, Refusal>
    ensures { (w : Bool) → answer_by (D.of w) result ≡ first_order_ij (D.beside w) (D.functions w) (dispersion_by (D.plain w) (D.of w) p.now) }
{
    let t = saftvrqmie_dispersion_terms::terms_of(p.epsilon_k, p.zeta, p.x0, p.x0_eff);
    first_order_at(p, &t)
}

// ONE: in the energies the Rust negates D::one(), whose slope is then -0.
fn factors_0<D: DualNum, const ONE: bool>() -> Factors<D>
    ensures { factors_by (D.of ONE) result ≡ taken_each (D.taken ONE) (factors0 (D.beside ONE)) }
{
    let one = D::Plain::lit(1.0);
    let two = D::Plain::lit(2.0);
    let arfac = if ONE {
        -D::lift(one) * two
    } else {
        D::lift(-one * two)
    };
    Factors {
        afac: D::lift(one),
        rfac: D::lift(one),
        arfac,
    }
}

// The factors of each turn are formulas of their own, in the Rust one arm each; q counts turns, no kinds.
fn factors_1<D: DualNum>(g: Quantum<D>) -> Factors<D>
    ensures { (w : Bool) → factors_by (D.of w) result ≡ factors1 (D.beside w) (quantum_by (D.of w) g) }
{
    let rfac = g.qr1 * D::Plain::lit(2.0);
    let afac = g.qa1 * D::Plain::lit(2.0);
    Factors {
        afac,
        rfac,
        arfac: -(rfac + afac),
    }
}

fn factors_2<D: DualNum>(g: Quantum<D>) -> Factors<D>
    ensures { (w : Bool) → factors_by (D.of w) result ≡ factors2 (D.beside w) (quantum_by (D.of w) g) }
{
    Factors {
        afac: g.qa1 * g.qa1,
        rfac: g.qr1 * g.qr1,
        arfac: -g.qa1 * g.qr1 * D::Plain::lit(2.0),
    }
}

// What order 2 adds to them.
fn factors_2_more<D: DualNum>(g: Quantum<D>, h: Factors<D>) -> Factors<D>
    ensures { (w : Bool) → factors_by (D.of w) result ≡ factors2_more (D.beside w) (quantum_by (D.of w) g) (factors_by (D.of w) h) }
{
    let two = D::Plain::lit(2.0);
    Factors {
        afac: h.afac + g.qa2 * two,
        rfac: h.rfac + g.qr2 * two,
        arfac: h.arfac + -(g.qr2 + g.qa2) * two,
    }
}

fn factors_3<D: DualNum>(g: Quantum<D>) -> Factors<D>
    ensures { (w : Bool) → factors_by (D.of w) result ≡ factors3 (D.beside w) (quantum_by (D.of w) g) }
{
    let two = D::Plain::lit(2.0);
    Factors {
        afac: g.qa2 * g.qa1 * two,
        rfac: g.qr2 * g.qr1 * two,
        arfac: -(g.qr2 * g.qa1 + g.qa2 * g.qr1) * two,
    }
}

fn factors_4<D: DualNum>(g: Quantum<D>) -> Factors<D>
    ensures { (w : Bool) → factors_by (D.of w) result ≡ factors4 (D.beside w) (quantum_by (D.of w) g) }
{
    Factors {
        afac: g.qa2 * g.qa2,
        rfac: g.qr2 * g.qr2,
        arfac: -g.qr2 * g.qa2 * D::Plain::lit(2.0),
    }
}

fn factors_of<D: DualNum, const ONE: bool>(
    g: Quantum<D>,
    order: FeynmanHibbsOrder,
    q: u32,
) -> Factors<D>
    ensures { factors_by (D.of ONE) result ≡ taken_each (D.taken ONE) (factors (D.beside ONE) (quantum_by (D.of ONE) g) order q) }
{
    match q {
        0 => factors_0::<D, ONE>(),
        1 => factors_1(g),
        2 => {
            let h = factors_2(g);
            if saftvrqmie_potential::second_order(order) {
                factors_2_more(g, h)
            } else {
                h
            }
        }
        3 => factors_3(g),
        _ => factors_4(g),
    }
}

fn second_turn<D: DualNum, const ONE: bool>(
    p: &DispersionPair<D, D::Plain>,
    t: &PairTerms<D, D::Plain, D::Base>,
    g: Quantum<D>,
    q: u32,
    a2: D,
) -> Result<D, Refusal>
    ensures { (m : (D.beside ONE).Num) → D.taken ONE m ≡ D.of ONE a2 →
        answer_by (D.of ONE) result ≡ second_turn (D.beside ONE) (dispersion_by (D.plain ONE) (D.of ONE) p.now) (terms_by (D.beside ONE) (D.plain ONE) (D.of ONE) (D.power_at ONE) t.now) (quantum_by (D.of ONE) g) q m }
{
    let two = D::Plain::lit(2.0);
    let shift = two * D::Plain::lit(f64::from(q));
    let int_a = saftvrqmie_dispersion_terms::combine_at(t, two * p.la + shift)?;
    let int_r = saftvrqmie_dispersion_terms::combine_at(t, two * p.lr + shift)?;
    let int_ar = saftvrqmie_dispersion_terms::combine_at(t, p.la + p.lr + shift)?;
    let h = factors_of::<D, ONE>(g, p.order, q);
    Ok(a2 + (int_a * h.afac + int_ar * h.arfac + int_r * h.rfac))
}

// The turns of the second order: 2 * order + 1. An enum's number is read by `as`; it has no From.
fn turn_count(order: FeynmanHibbsOrder) -> u32
    ensures { result ≡ order_number order * 2 + 1 }
{
    order as u32 * 2 + 1
}

// The sum, scaled. The quantum contributions are worked at every order, used or not.
fn second_closed<D: DualNum>(p: &DispersionPair<D, D::Plain>, g: Quantum<D>, a2: D) -> D
    ensures { (w : Bool) → D.of w result ≡ second_closed (D.beside w) (dispersion_by (D.plain w) (D.of w) p.now) (quantum_by (D.of w) g) (D.of w a2) }
{
    let v = a2 * D::Plain::lit(0.5) * p.epsilon_k * p.c.square();
    v.after(g.qr2).after(g.qa2).after(g.qr1).after(g.qa1)
}

// The sum begins at a plain +0, which the first turn takes as a D; the hard sphere's `zero` stands in a crate beside this one.
fn second_order_at<D: DualNum, const ONE: bool>(
    p: &DispersionPair<D, D::Plain>,
    t: &PairTerms<D, D::Plain, D::Base>,
) -> Result<D, Refusal>
    ensures { answer_by (D.of ONE) result ≡ second_order_by (D.beside ONE) (dispersion_by (D.plain ONE) (D.of ONE) p.now) (terms_by (D.beside ONE) (D.plain ONE) (D.of ONE) (D.power_at ONE) t.now) }
{
    let g = quantum_of(p);
    let count = turn_count(p.order);
    let zero = D::lift(D::Plain::lit(0.0));
    let mut a2 = second_turn::<D, ONE>(p, t, g, 0, zero)?;
    for q in 1u32..count {
        a2 = second_turn::<D, ONE>(p, t, g, q, a2)?;
    }
    Ok(second_closed(p, g, a2))
}

// At ONE false it has no caller here: what landed promises mixed, and the energies stand on mixed_one.
pub fn second_order_perturbation_ij<D: DualNum, const ONE: bool>(
    p: &DispersionPair<D, D::Plain>,
) -> Result<D, Refusal>
    ensures { answer_by (D.of ONE) result ≡ second_order_ij (D.beside ONE) (D.functions ONE) (dispersion_by (D.plain ONE) (D.of ONE) p.now) }
{
    let t = saftvrqmie_dispersion_terms::terms_of(p.epsilon_k, p.zeta, p.x0, p.x0_eff);
    second_order_at::<D, ONE>(p, &t)
}
