// The quantum Mie potential of a pair with its two derivatives (saftvrqmie/eos/hard_sphere.rs).
// What all radii of a pair share is worked once (`Shared`): powers of sigma, exponents, factors. At a radius its logarithm is taken once, and each power of it once.
#![tactic(auto)]

ghost use Rattle.std.specs.Prelude.{◌≡◌, ◌<◌, false, Bool};
ghost use Rattle.number.specs.Answer.{answer_by};
ghost use Rattle.sizes.specs.Sizes.{sheet};
ghost use Rattle.saftvrqmie_potential.specs.Potential.{PairIn, prefactor, pair_by, pair_at_entry, potential_by, first_order, second_order, quantum_d, q1, q2, u_mie, u_quantum, potential};
ghost use Rattle.saftvrqmie_potential.specs.Shared.{alone, term_by, term_of, shared_by, shared_of, IsTerm, Sharing, Shares, powers_by, both_inside, exponents_inside, mie_from, first_from, second_from, after_factors, finished_from, potential_from};

use dual_num::DualNum;
use number::{Arithmetic, Refusal};
use saftvrqmie_parameters::{FeynmanHibbsOrder, OrderRecord};
use sizes::quantum_set::{C_IJ, EPSILON_K_IJ, LAMBDA_A_IJ, LAMBDA_R_IJ, MASS_IJ};
use sizes::{SHEET, SHEETS};

// The parameters of a pair, and the temperature.
#[derive(Clone, Copy)]
pub struct Pair<D, P> {
    pub sigma: P,
    pub epsilon_k: P,
    pub c: P,
    pub lr: P,
    pub la: P,
    pub mass: P,
    pub order: FeynmanHibbsOrder,
    pub temperature: D,
}

pub type FloatPair = Pair<f64, f64>;

// The potential and its two derivatives by the radius.
#[derive(Clone, Copy)]
pub struct QMiePotential<D> {
    pub u: D,
    pub u_r: D,
    pub u_rr: D,
}

// One of the two terms: its exponent, its factors, sigma to its exponent, and the exponents of its lines. Fields, not an array: each is worked by a text of its own and read by its name. Its types are parameters, since a struct that holds an associated type cannot be Copy.
#[derive(Clone, Copy)]
pub struct Term<P, E> {
    pub lambda: P,
    pub q1: P,
    pub q2: P,
    pub power: P,
    pub e0: E,
    pub e1: E,
    pub e2: E,
    pub e3: E,
    pub e4: E,
    pub e5: E,
    pub e6: E,
}

// What all radii of a pair share, and whether the exponents of its order lie within the power's domain. A flag: an Option of the exponents would say too much, as those that the order leaves out may lie outside. Sharing stands in the clause of each function that reads one: a ghost field cannot keep it, since numbers of any run need not have one proof of an equation.
#[derive(Clone, Copy)]
pub struct Shared<D, P, E> {
    pub r: Term<P, E>,
    pub a: Term<P, E>,
    pub d: D,
    pub d2: D,
    pub ce: P,
    pub order: FeynmanHibbsOrder,
    pub inside: bool,
}

// A line's two powers of the radius.
#[derive(Clone, Copy)]
pub struct LinePowers<D> {
    pub rr: D,
    pub ra: D,
}

// The pair at entry e of a set's sheets, at a temperature that may carry a slope. All that works pairs reads them here; an entry comes from indexes that were tested, or are turns of loops over a count that was.
pub fn pair_at<D: Copy>(
    s: &[f64; SHEETS],
    orders: [OrderRecord; SHEET],
    t: D,
    e: usize,
) -> Pair<D, f64>
    requires { e < sheet }
    ensures { result ≡ pair_at_entry s.now orders t e }
{
    let record = orders[e];
    let order = record.order;
    Pair {
        sigma: s[e],
        epsilon_k: s[EPSILON_K_IJ + e],
        c: s[C_IJ + e],
        lr: s[LAMBDA_R_IJ + e],
        la: s[LAMBDA_A_IJ + e],
        mass: s[MASS_IJ + e],
        order,
        temperature: t,
    }
}

// A set's pair in any run: each number as it is, beside the run's temperature.
pub fn points<D: DualNum>(p: Pair<D, f64>) -> Pair<D, D::Plain>
    ensures { (w : Bool) → pair_by (D.plain w) (D.of w) result ≡ pair_by (D.beside w).lit (D.of w) p }
{
    let order = p.order;
    Pair {
        sigma: D::Plain::lit(p.sigma),
        epsilon_k: D::Plain::lit(p.epsilon_k),
        c: D::Plain::lit(p.c),
        lr: D::Plain::lit(p.lr),
        la: D::Plain::lit(p.la),
        mass: D::Plain::lit(p.mass),
        order,
        temperature: p.temperature,
    }
}

// The pair at entry e in any run.
pub fn pair_of<D: DualNum>(
    s: &[f64; SHEETS],
    orders: [OrderRecord; SHEET],
    t: D,
    e: usize,
) -> Pair<D, D::Plain>
    requires { e < sheet }
    ensures { (w : Bool) → pair_by (D.plain w) (D.of w) result ≡ pair_by (D.beside w).lit (D.of w) (pair_at_entry s.now orders t e) }
{
    points(pair_at(s, orders, t, e))
}

// Whether the potential has a first-order correction. Arm by arm, as the second: read off the order's number, or by `matches!`, the sources compiled as Rust take 1.056 times the instructions for a table of four components of order 2.
pub fn first_order(order: FeynmanHibbsOrder) -> bool
    ensures { result ≡ first_order order }
{
    match order {
        FeynmanHibbsOrder::FH0 => false,
        FeynmanHibbsOrder::FH1 => true,
        FeynmanHibbsOrder::FH2 => true,
    }
}

pub fn second_order(order: FeynmanHibbsOrder) -> bool
    ensures { result ≡ second_order order }
{
    match order {
        FeynmanHibbsOrder::FH0 => false,
        FeynmanHibbsOrder::FH1 => false,
        FeynmanHibbsOrder::FH2 => true,
    }
}

// D_QM_PREFACTOR.
fn d_qm_prefactor<D: DualNum>() -> D::Plain
    ensures { (w : Bool) → D.plain w result ≡ prefactor (D.beside w) (D.functions w) }
{
    let planck = D::Plain::lit(6.62607015e-34);
    let kb = D::Plain::lit(1.380649e-23);
    let tau = D::tau();
    planck * planck / (tau * tau) / D::Plain::lit(12.0) * D::Plain::lit(1e20) / kb
}

// `quantum_d_mass`.
pub fn quantum_d<D: DualNum>(mass: D::Plain, temperature: D) -> D
    ensures { (w : Bool) → D.of w result ≡ quantum_d (D.beside w) (D.functions w) (D.plain w mass) (D.of w temperature) }
{
    temperature.recip() / mass * d_qm_prefactor::<D>()
}

pub fn q1_of<D: DualNum>(l: D::Plain) -> D::Plain
    ensures { (w : Bool) → D.plain w result ≡ q1 (D.beside w) (D.plain w l) }
{
    l * (l - D::Plain::lit(1.0))
}

pub fn q2_of<D: DualNum>(l: D::Plain) -> D::Plain
    ensures { (w : Bool) → D.plain w result ≡ q2 (D.beside w) (D.plain w l) }
{
    D::Plain::lit(0.5)
        * (l + D::Plain::lit(2.0))
        * (l + D::Plain::lit(1.0))
        * l
        * (l - D::Plain::lit(1.0))
}

// Refuses with 6 where sigma has no power.
fn term_of<D: DualNum>(sigma: D::Plain, l: D::Plain) -> Result<Term<D::Plain, D::Exponent>, Refusal>
    ensures stands { (w : Bool) → IsTerm (D.beside w) (D.functions w) (D.plain w) (D.power_at w) (D.power_by w) (D.plain w sigma) (D.plain w l) result }
    ensures value { (w : Bool) → answer_by (term_by (D.plain w)) result ≡ term_of (D.beside w) (D.functions w) (D.exponent_of w) (D.plain w sigma) (D.plain w l) }
{
    let power = D::plain_powf(sigma, l)?;
    Ok(Term {
        lambda: l,
        q1: q1_of::<D>(l),
        q2: q2_of::<D>(l),
        power,
        e0: D::exponent(l),
        e1: D::exponent(l + D::Plain::lit(1.0)),
        e2: D::exponent(l + D::Plain::lit(2.0)),
        e3: D::exponent(l + D::Plain::lit(3.0)),
        e4: D::exponent(l + D::Plain::lit(4.0)),
        e5: D::exponent(l + D::Plain::lit(5.0)),
        e6: D::exponent(l + D::Plain::lit(6.0)),
    })
}

// A line's two exponents.
fn both_inside<D: DualNum>(er: D::Exponent, ea: D::Exponent) -> bool
    ensures { result ≡ both_inside D.exponent_in er ea }
{
    D::exponent_inside(er) & D::exponent_inside(ea)
}

// Those of the lines that the order has.
fn exponents_inside<D: DualNum>(
    order: FeynmanHibbsOrder,
    r: &Term<D::Plain, D::Exponent>,
    a: &Term<D::Plain, D::Exponent>,
) -> bool
    ensures { result ≡ exponents_inside D.exponent_in order r.now a.now }
{
    let at2 = both_inside::<D>(r.e2, a.e2);
    let at4 = both_inside::<D>(r.e4, a.e4);
    let mie = both_inside::<D>(r.e0, a.e0) & (both_inside::<D>(r.e1, a.e1) & at2);
    let one = at2 & (both_inside::<D>(r.e3, a.e3) & at4);
    let two = at4 & (both_inside::<D>(r.e5, a.e5) & both_inside::<D>(r.e6, a.e6));
    mie & ((!first_order(order) | one) & (!second_order(order) | two))
}

// Refuses with 6 where sigma has no power or an exponent of the order is outside: then no radius of the run has a potential.
pub fn share<D: DualNum>(p: &Pair<D, D::Plain>) -> Result<Shared<D, D::Plain, D::Exponent>, Refusal>
    ensures shares { (w : Bool) → Shares (D.beside w) (D.functions w) (D.plain w) (D.power_at w) (D.power_by w) (D.of w) D.exponent_in (pair_by (D.plain w) (D.of w) p.now) result }
    ensures value { (w : Bool) → answer_by (shared_by (D.plain w) (D.of w)) result ≡ shared_of (D.beside w) (D.functions w) (D.exponent_of w) D.exponent_in (pair_by (D.plain w) (D.of w) p.now) }
{
    let r = term_of::<D>(p.sigma, p.lr)?;
    let a = term_of::<D>(p.sigma, p.la)?;
    let order = p.order;
    let inside = exponents_inside::<D>(order, &r, &a);
    let d = quantum_d(p.mass, p.temperature);
    let s = Shared {
        r,
        a,
        d,
        d2: d.powi(2),
        ce: p.c * p.epsilon_k,
        order,
        inside,
    };
    if inside { Ok(s) } else { Err(Refusal::Domain) }
}

// The base and the order's exponents were tested for the radius.
fn line_at<D: DualNum>(base: D::Base, er: D::Exponent, ea: D::Exponent) -> LinePowers<D>
    ensures { (w : Bool) → powers_by (D.of w) result ≡ (D.raised w base er, D.raised w base ea) }
{
    LinePowers {
        rr: D::raise_inside(base, er),
        ra: D::raise_inside(base, ea),
    }
}

// u of order 0, and what each further order adds to it, before d or its square.
fn u_mie<D: DualNum>(s: &Shared<D, D::Plain, D::Exponent>, l: LinePowers<D>) -> D
    ensures { (w : Bool) → D.of w result ≡ u_mie (D.beside w) (D.of w l.rr) (D.plain w s.now.r.power) (D.of w l.ra) (D.plain w s.now.a.power) }
{
    let sr = s.r.power;
    let sa = s.a.power;
    l.rr.recip() * sr - l.ra.recip() * sa
}

// u_mie is not this at factors of 1: each product is an operation, which counts.
fn u_quantum<D: DualNum>(
    s: &Shared<D, D::Plain, D::Exponent>,
    qr: D::Plain,
    qa: D::Plain,
    l: LinePowers<D>,
) -> D
    ensures { (w : Bool) → D.of w result ≡ u_quantum (D.beside w) (D.plain w qr) (D.plain w qa) (D.of w l.rr) (D.plain w s.now.r.power) (D.of w l.ra) (D.plain w s.now.a.power) }
{
    let sr = s.r.power;
    let sa = s.a.power;
    l.rr.recip() * qr * sr - l.ra.recip() * qa * sa
}

// The lines of order 0, from their powers.
fn mie<D: DualNum>(
    s: &Shared<D, D::Plain, D::Exponent>,
    l0: LinePowers<D>,
    l1: LinePowers<D>,
    l2: LinePowers<D>,
) -> QMiePotential<D>
    ensures { (w : Bool) → potential_by (D.of w) result ≡ mie_from (D.beside w) (D.plain w) (D.of w) s.now (powers_by (D.of w) l0) (powers_by (D.of w) l1) (powers_by (D.of w) l2) }
{
    let one = D::Plain::lit(1.0);
    let lr = s.r.lambda;
    let la = s.a.lambda;
    let sr = s.r.power;
    let sa = s.a.power;
    QMiePotential {
        u: u_mie(s, l0),
        u_r: -l1.rr.recip() * lr * sr + l1.ra.recip() * la * sa,
        u_rr: l2.rr.recip() * lr * (lr + one) * sr - l2.ra.recip() * la * (la + one) * sa,
    }
}

// The lines of the first order, added.
fn add_first<D: DualNum>(
    s: &Shared<D, D::Plain, D::Exponent>,
    l2: LinePowers<D>,
    l3: LinePowers<D>,
    l4: LinePowers<D>,
    v: QMiePotential<D>,
) -> QMiePotential<D>
    ensures { potential_by (D.of false) result ≡ first_from (D.beside false) (D.plain false) (D.of false) s.now (powers_by (D.of false) l2) (powers_by (D.of false) l3) (powers_by (D.of false) l4) (potential_by (D.of false) v) }
{
    let two = D::Plain::lit(2.0);
    let three = D::Plain::lit(3.0);
    let lr = s.r.lambda;
    let la = s.a.lambda;
    let sr = s.r.power;
    let sa = s.a.power;
    let qr = s.r.q1;
    let qa = s.a.q1;
    let d = s.d;
    QMiePotential {
        u: v.u + d * u_quantum(s, qr, qa, l2),
        u_r: v.u_r
            + d * (l3.rr.recip() * -qr * (lr + two) * sr + l3.ra.recip() * qa * (la + two) * sa),
        u_rr: v.u_rr
            + d * (l4.rr.recip() * qr * (lr + two) * (lr + three) * sr
                - l4.ra.recip() * qa * (la + two) * (la + three) * sa),
    }
}

// The lines of the second order, added. Beside the first order's they differ in two numbers and in where the first line's minus stands, which the roundings follow.
fn add_second<D: DualNum>(
    s: &Shared<D, D::Plain, D::Exponent>,
    l4: LinePowers<D>,
    l5: LinePowers<D>,
    l6: LinePowers<D>,
    v: QMiePotential<D>,
) -> QMiePotential<D>
    ensures { (w : Bool) → potential_by (D.of w) result ≡ second_from (D.beside w) (D.plain w) (D.of w) s.now (powers_by (D.of w) l4) (powers_by (D.of w) l5) (powers_by (D.of w) l6) (potential_by (D.of w) v) }
{
    let four = D::Plain::lit(4.0);
    let five = D::Plain::lit(5.0);
    let lr = s.r.lambda;
    let la = s.a.lambda;
    let sr = s.r.power;
    let sa = s.a.power;
    let qr = s.r.q2;
    let qa = s.a.q2;
    let d2 = s.d2;
    QMiePotential {
        u: v.u + d2 * u_quantum(s, qr, qa, l4),
        u_r: v.u_r
            + d2 * (-l5.rr.recip() * qr * (lr + four) * sr + l5.ra.recip() * qa * (la + four) * sa),
        u_rr: v.u_rr
            + d2 * (l6.rr.recip() * qr * (lr + four) * (lr + five) * sr
                - l6.ra.recip() * qa * (la + four) * (la + five) * sa),
    }
}

// The factors are worked at every order, whether used or not.
fn after_shared<D: DualNum>(s: &Shared<D, D::Plain, D::Exponent>, u: D) -> D
    ensures { (w : Bool) → D.of w result ≡ after_factors (D.beside w) (D.plain w) (D.of w) s.now (D.of w u) }
{
    let after_q2 = u.after(s.d).after_plain(s.a.q2).after_plain(s.r.q2);
    after_q2.after_plain(s.a.q1).after_plain(s.r.q1)
}

// What a radius ends with, at every order.
fn finished<D: DualNum>(
    s: &Shared<D, D::Plain, D::Exponent>,
    v: QMiePotential<D>,
) -> QMiePotential<D>
    ensures { (w : Bool) → potential_by (D.of w) result ≡ finished_from (D.beside w) (D.plain w) (D.of w) s.now (potential_by (D.of w) v) }
{
    let ce = s.ce;
    QMiePotential {
        u: after_shared(s, v.u * ce),
        u_r: v.u_r * ce,
        u_rr: v.u_rr * ce,
    }
}

// The potential at a radius, from what the pair's radii share. All that its powers refuse is tested once. Powers that two orders have are handed on.
pub fn potential_at<D: DualNum>(
    s: &Shared<D, D::Plain, D::Exponent>,
    r: D,
) -> Result<QMiePotential<D>, Refusal>
    ensures formula { (p : PairIn (D.beside false).Num) → Sharing (D.beside false) (D.functions false) (D.plain false) (D.power_at false) (D.power_by false) (D.of false) D.exponent_in p s.now
        → answer_by (potential_by (D.of false)) result ≡ potential (D.beside false) (D.functions false) p (D.of false r) }
    ensures staged { answer_by (potential_by (D.of false)) result ≡ potential_from (D.beside false) (D.plain false) (D.of false) D.base_in (D.raised false) s.now (D.base_of r) }
{
    let base = r.base();
    if !(D::base_inside(base) & s.inside) {
        return Err(Refusal::Domain);
    }
    let l0 = line_at::<D>(base, s.r.e0, s.a.e0);
    let l1 = line_at::<D>(base, s.r.e1, s.a.e1);
    let l2 = line_at::<D>(base, s.r.e2, s.a.e2);
    let v = mie(s, l0, l1, l2);
    if !first_order(s.order) {
        return Ok(finished(s, v));
    }
    let l3 = line_at::<D>(base, s.r.e3, s.a.e3);
    let l4 = line_at::<D>(base, s.r.e4, s.a.e4);
    let v1 = add_first(s, l2, l3, l4, v);
    if !second_order(s.order) {
        return Ok(finished(s, v1));
    }
    let l5 = line_at::<D>(base, s.r.e5, s.a.e5);
    let l6 = line_at::<D>(base, s.r.e6, s.a.e6);
    Ok(finished(s, add_second(s, l4, l5, l6, v1)))
}

// The potential alone, where nothing reads its derivatives. Their powers need not be worked: what they refuse was tested once for the pair.
pub fn u_at<D: DualNum>(s: &Shared<D, D::Plain, D::Exponent>, r: D) -> Result<D, Refusal>
    ensures formula { (w : Bool) (p : PairIn (D.beside w).Num) → Sharing (D.beside w) (D.functions w) (D.plain w) (D.power_at w) (D.power_by w) (D.of w) D.exponent_in p s.now
        → answer_by (D.of w) result ≡ alone (potential (D.beside w) (D.functions w) p (D.of w r)) }
    ensures staged { (w : Bool) → answer_by (D.of w) result ≡ alone (potential_from (D.beside w) (D.plain w) (D.of w) D.base_in (D.raised w) s.now (D.base_of r)) }
{
    let base = r.base();
    if !(D::base_inside(base) & s.inside) {
        return Err(Refusal::Domain);
    }
    let l0 = line_at::<D>(base, s.r.e0, s.a.e0);
    let u = u_mie(s, l0);
    if !first_order(s.order) {
        return Ok(after_shared(s, u * s.ce));
    }
    let l2 = line_at::<D>(base, s.r.e2, s.a.e2);
    let u1 = u + s.d * u_quantum(s, s.r.q1, s.a.q1, l2);
    if !second_order(s.order) {
        return Ok(after_shared(s, u1 * s.ce));
    }
    let l4 = line_at::<D>(base, s.r.e4, s.a.e4);
    let u2 = u1 + s.d2 * u_quantum(s, s.r.q2, s.a.q2, l4);
    Ok(after_shared(s, u2 * s.ce))
}

// `qmie_potential_ij`. Called by no code here: the Rust's function, whose promise docs/WRONG-ANSWERS.md lists.
pub fn qmie_potential<D: DualNum>(p: &Pair<D, D::Plain>, r: D) -> Result<QMiePotential<D>, Refusal>
    ensures { answer_by (potential_by (D.of false)) result ≡ potential (D.beside false) (D.functions false) (pair_by (D.plain false) (D.of false) p.now) (D.of false r) }
{
    let s = share(p)?;
    potential_at(&s, r)
}
