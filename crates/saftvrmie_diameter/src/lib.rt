// The temperature-dependent diameter of SAFT-VR Mie (saftvrmie/parameters.rs): lower limit by Halley's method, 10-node rule.
// A pair's numbers come one by one: PairParameters is of SAFT-VR Mie's set, which this crate does not need, and a struct of this crate would be filled from it field by field in each call.
#![tactic(auto)]

ghost use Rattle.std.specs.Prelude.{◌≡◌, Bool, ◌<◌, ℕ, slice_index_or};
ghost use Rattle.number.specs.Answer.{answer, answer_by};
ghost use Rattle.number.specs.Arith.{floats};
ghost use Rattle.number.specs.Functions.{calls};
ghost use Rattle.elementary.specs.Port.{port};
ghost use Rattle.dual_num.specs.Base.{float_power, float_power_by};
ghost use Rattle.saftvrmie_diameter.specs.Answer.{halley_answer};
ghost use Rattle.saftvrmie_diameter.specs.Diameter.{beta_u_from, c_eps_t, halley_step, halley, lower_limit, diameter_from, hs_diameter};
ghost use Rattle.saftvrmie_diameter.specs.Staged.{Fixed, inverse_at, node_at};

pub mod rule;

use crate::rule::{position, weight};
use binary_log::Log;
use dual_num::{DualNum, EnclosureBase, FloatBase, FloatExponent};
use enclosure::Enclosure;
use number::{Arithmetic, Refusal};
use plain_num::PlainNum;

// ln of f64::EPSILON.
const LN_EPSILON: f64 = -36.04365338911715;

// A pair's exponents, their fixed points worked once.
#[derive(Clone, Copy)]
pub struct Exponents<E> {
    pub lr: E,
    pub la: E,
}

// 10-point Gauss-Legendre quadrature: positions and weights.
pub const GLQ10: [[f64; 2]; 10] = [
    [-0.1488743389816312, 0.2955242247147529],
    [0.1488743389816312, 0.2955242247147529],
    [-0.4333953941292472, 0.2692667193099963],
    [0.4333953941292472, 0.2692667193099963],
    [-0.6794095682990244, 0.219086362515982],
    [0.6794095682990244, 0.219086362515982],
    [-0.8650633666889845, 0.1494513491505806],
    [0.8650633666889845, 0.1494513491505806],
    [-0.9739065285171717, 0.0666713443086881],
    [0.9739065285171717, 0.0666713443086881],
];

// A run whose inverse radii have a base of powers of their own.
pub trait InverseBase: PlainNum {
    // `base`, inlined for floats: where it is called, a diameter takes 1.16 times as long.
    fn inverse_base(self) -> Self::Base
        ensures { (w : Bool) → Self.power_at w result ≡ (Self.functions w).powf (Self.of w self) };
}

impl InverseBase for f64 {
    #[inline(always)]
    fn inverse_base(self) -> FloatBase {
        FloatBase {
            log: binary_log::log_base(self),
            inside: binary_log::base_inside(self),
        }
    }
}

impl InverseBase for Enclosure {
    fn inverse_base(self) -> EnclosureBase {
        self.base()
    }
}

// inverse_temperature * c_ij * epsilon_k_ij
pub fn c_eps_t<D: DualNum>(temperature: D, c: D::Plain, epsilon_k: D::Plain) -> D
    ensures { (w : Bool) → D.of w result ≡ c_eps_t (D.beside w) (D.of w temperature) (D.plain w c) (D.plain w epsilon_k) }
{
    temperature.recip() * c * epsilon_k
}

fn exponents_of<D: DualNum>(la: D::Plain, lr: D::Plain) -> Exponents<D::Exponent>
    ensures { (w : Bool) → Fixed (D.power_by w) (D.power_at w) result (D.plain w la) (D.plain w lr) }
{
    Exponents {
        lr: D::exponent(lr),
        la: D::exponent(la),
    }
}

// `mie_potential_halley`, and the step. Of floats alone: no two-ended operation works the limit.
fn halley_step(
    la: f64,
    lr: f64,
    e: Exponents<FloatExponent>,
    c_eps_t: f64,
    r: f64,
) -> Result<(f64, f64), Refusal>
    requires { Fixed float_power_by float_power e la lr }
    ensures { halley_answer result ≡ halley_step floats (calls floats port) la lr c_eps_t r }
{
    let ri = 1.0 / r;
    let base = ri.inverse_base();
    let plr = f64::raise(base, e.lr)?;
    let pla = f64::raise(base, e.la)?;
    let u = plr - pla;
    let dplr = plr * (-lr) * ri;
    let dpla = pla * (-la) * ri;
    let du = dplr - dpla;
    let d2u = (dplr * (-lr - 1.0) - dpla * (-la - 1.0)) * ri;
    let f = -c_eps_t * u - LN_EPSILON;
    let df = -c_eps_t * du;
    let d2f = -c_eps_t * d2u;
    let u_du = f / df;
    let du_d2u = df / d2f;
    Ok((f, u_du / (-u_du / du_d2u * 0.5 + 1.0)))
}

// At most 4 steps; a negative function value returns the radius as it is.
fn halley(
    la: f64,
    lr: f64,
    e: Exponents<FloatExponent>,
    c_eps_t: f64,
    start: f64,
) -> Result<f64, Refusal>
    requires { Fixed float_power_by float_power e la lr }
    ensures { answer result ≡ halley floats (calls floats port) la lr c_eps_t 4 start }
{
    let mut r = start;
    for _ in 0u8..4u8 {
        let (f, dr) = halley_step(la, lr, e, c_eps_t, r)?;
        if f < 0.0 {
            return Ok(r);
        }
        r = r - dr;
    }
    Ok(r)
}

// `lower_integratal_limit`, reduced.
pub fn lower_integratal_limit(la: f64, lr: f64, c_eps_t: f64) -> Result<f64, Refusal>
    ensures { answer result ≡ lower_limit floats (calls floats port) la lr c_eps_t }
{
    let k = elementary::ln(-(1.0 / c_eps_t) * LN_EPSILON)?;
    let r = elementary::exp(-k / lr)?;
    halley(la, lr, exponents_of::<f64>(la, lr), c_eps_t, r)
}

// The inverse radius of node k.
fn inverse_at<D: PlainNum>(r0: D, k: usize) -> D
    ensures { (w : Bool) → D.of w result ≡ inverse_at (D.beside w) (D.functions w) (D.of w r0) k }
{
    let one = D::Plain::lit(1.0);
    let width = (-r0 + one) * D::Plain::lit(0.5);
    (width * position::<D>(k) + width + r0).recip() * one
}

// `beta_u_mie`, from the inverse radius' base of powers: where base and exponents are inside.
fn beta_u_mie<D: DualNum>(e: Exponents<D::Exponent>, c_eps_t: D, base: D::Base) -> D
    ensures { (w : Bool) → D.of w result ≡ beta_u_from (D.beside w) (D.raised w base e.lr) (D.raised w base e.la) (D.of w c_eps_t) }
{
    (D::raise_inside(base, e.lr) - D::raise_inside(base, e.la)) * c_eps_t
}

// The nodes' work goes stage by stage, each stage for all ten: so it goes side by side. Node by node the diameter takes 29 % longer in floats.
// By index, here and below: k says which node, and of what an adapter of iter_mut writes a proof knows nothing.
fn bases_of<D: InverseBase>(r0: D, bases: &mut [D::Base; 10])
    ensures { (w : Bool) (k : ℕ) (b : D.Base) → k < 10 → let ri = inverse_at (D.beside w) (D.functions w) (D.of w r0) k in
        D.power_at w (slice_index_or bases.new k b) ≡ (D.functions w).powf ri }
{
    for k in 0usize..10usize {
        bases[k] = inverse_at(r0, k).inverse_base();
    }
}

fn betas_of<D: DualNum>(
    e: Exponents<D::Exponent>,
    c_eps_t: D,
    bases: &[D::Base; 10],
    betas: &mut [D; 10],
)
    ensures { (w : Bool) (k : ℕ) (b : D.Base) (u : D) → k < 10 → let b = slice_index_or bases.now k b in
        D.of w (slice_index_or betas.new k u) ≡ beta_u_from (D.beside w) (D.raised w b e.lr) (D.raised w b e.la) (D.of w c_eps_t) }
{
    for (k, base) in bases.iter().enumerate() {
        betas[k] = beta_u_mie(e, c_eps_t, *base);
    }
}

// Node k's part, added, from the base of its inverse radius and the potential there.
fn node<D: PlainNum>(r0: D, k: usize, base: D::Base, u: D, d: D) -> Result<D, Refusal>
    ensures { (w : Bool) → answer_by (D.of w) result ≡ node_at (D.beside w) (D.functions w) (D.of w r0) k (D.base_in base) (D.of w u) (D.of w d) }
{
    if !D::base_inside(base) {
        return Err(Refusal::Domain);
    }
    let e = (-u).exp_m1()?;
    let width = (-r0 + D::Plain::lit(1.0)) * D::Plain::lit(0.5);
    Ok(d + width * (-e) * weight::<D>(k))
}

// A pair's diameter from its reduced lower limit, in any run. Bases and betas are room: a run of any numbers cannot lend an array of its own, whose size below 2^63 bytes is known only where it is among the parameters or is the result.
pub fn diameter_staged<D: InverseBase>(
    la: D::Plain,
    lr: D::Plain,
    c_eps_t: D,
    sigma: D::Plain,
    r0: D,
    bases: &mut [D::Base; 10],
    betas: &mut [D; 10],
) -> Result<D, Refusal>
    ensures { (w : Bool) → let A = D.beside w in
        answer_by (D.of w) result ≡ diameter_from A (D.functions w) (D.plain w la) (D.plain w lr) (D.of w c_eps_t) (D.plain w sigma) (D.of w r0) }
{
    let e = exponents_of::<D>(la, lr);
    if !(D::exponent_inside(e.lr) & D::exponent_inside(e.la)) {
        // That a power is refused is told of a base: one, where the nodes take ten.
        let _ = inverse_at(r0, 0).inverse_base();
        return Err(Refusal::Domain);
    }
    bases_of(r0, bases);
    betas_of(e, c_eps_t, bases, betas);
    let mut d = r0;
    for (k, base) in bases.iter().enumerate() {
        d = node(r0, k, *base, betas[k], d)?;
    }
    Ok(d * sigma)
}

// What stands in a place of the room before it is filled.
pub const NO_BASE: FloatBase = FloatBase {
    log: Log {
        base: 0.0,
        size: 0,
        negative: false,
    },
    inside: false,
};

// A pair's diameter from its reduced lower limit.
pub fn diameter_from(la: f64, lr: f64, c_eps_t: f64, sigma: f64, r0: f64) -> Result<f64, Refusal>
    ensures { answer result ≡ diameter_from floats (calls floats port) la lr c_eps_t sigma r0 }
{
    let mut bases = [NO_BASE; 10];
    let mut betas = [0.0; 10];
    diameter_staged(la, lr, c_eps_t, sigma, r0, &mut bases, &mut betas)
}

// `hs_diameter_ij`.
pub fn hs_diameter_ij(
    la: f64,
    lr: f64,
    c: f64,
    epsilon_k: f64,
    sigma: f64,
    temperature: f64,
) -> Result<f64, Refusal>
    ensures { answer result ≡ hs_diameter floats (calls floats port) la lr c epsilon_k sigma temperature }
{
    let e = c_eps_t(temperature, c, epsilon_k);
    let r0 = lower_integratal_limit(la, lr, e)?;
    diameter_from(la, lr, e, sigma, r0)
}
