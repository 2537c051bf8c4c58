// The three radius searches of a pair and its diameter (saftvrqmie/eos/hard_sphere.rs), in the float run and in the run with slopes: a search leaves by the value alone and carries the slope through its steps (document 02, Slip 1).
#![tactic(auto)]

ghost use Rattle.std.specs.Prelude.{Bool, false, ◌≡◌, ◌<◌};
ghost use Rattle.std.proofs.Common.{rules};
ghost use Rattle.number.specs.Answer.{answer, answer_by};
ghost use Rattle.number.specs.Ans.{Ans, held};
ghost use Rattle.number.specs.Arith.{floats};
ghost use Rattle.number.specs.Functions.{calls};
ghost use Rattle.elementary.specs.Port.{port};
ghost use Rattle.saftvrqmie_potential.specs.Potential.{PairIn, PotentialIn, pair_in, potential_by, potential};
ghost use Rattle.saftvrqmie_potential.specs.Shared.{Sharing, Gives, Told, ToldAlone};
ghost use Rattle.saftvrqmie_searches.specs.Searches.{search_answer, counted_by, small, clamped, sigma_step, depth_step, zero_step, zero_value, searched, sigma_search, zero_search, depth_search, sigma_eff, zero_integrand, epsilon_k_eff};
ghost use Rattle.saftvrqmie_searches.specs.Steps.{Tests, Moves};
ghost use Rattle.saftvrqmie_searches.specs.Diameter.{node_turn, diameter_by, diameter};

pub mod rule;

use crate::rule::{abscissa, weight};
use dual::Dual;
use dual_num::DualNum;
use number::{Arithmetic, Refusal};
use saftvrqmie_potential::{FloatPair, QMiePotential, Shared};

// Abscissas and weights of the 21-node rule of QUADPACK.
pub const X_K21: [f64; 21] = [
    -0.995657163025808080735527280689003,
    -0.973906528517171720077964012084452,
    -0.930157491355708226001207180059508,
    -0.865063366688984510732096688423493,
    -0.780817726586416897063717578345042,
    -0.679409568299024406234327365114874,
    -0.562757134668604683339000099272694,
    -0.433395394129247190799265943165784,
    -0.294392862701460198131126603103866,
    -0.148874338981631210884826001129720,
    0.000000000000000000000000000000000,
    0.148874338981631210884826001129720,
    0.294392862701460198131126603103866,
    0.433395394129247190799265943165784,
    0.562757134668604683339000099272694,
    0.679409568299024406234327365114874,
    0.780817726586416897063717578345042,
    0.865063366688984510732096688423493,
    0.930157491355708226001207180059508,
    0.973906528517171720077964012084452,
    0.995657163025808080735527280689003,
];

pub const W_K21: [f64; 21] = [
    0.011694638867371874278064396062192,
    0.032558162307964727478818972459390,
    0.054755896574351996031381300244580,
    0.075039674810919952767043140916190,
    0.093125454583697605535065465083366,
    0.109387158802297641899210590325805,
    0.123491976262065851077958109831074,
    0.134709217311473325928054001771707,
    0.142775938577060080797094273138717,
    0.147739104901338491374841515972068,
    0.149445554002916905664936468389821,
    0.147739104901338491374841515972068,
    0.142775938577060080797094273138717,
    0.134709217311473325928054001771707,
    0.123491976262065851077958109831074,
    0.109387158802297641899210590325805,
    0.093125454583697605535065465083366,
    0.075039674810919952767043140916190,
    0.054755896574351996031381300244580,
    0.032558162307964727478818972459390,
    0.011694638867371874278064396062192,
];

// The radius and the last potential: two cases of two numbers, as document 01's Forms ask.
#[derive(Clone, Copy)]
pub enum Search<D> {
    Found(D, D),
    Spent(D, D),
}

pub type FloatSearch = Search<f64>;

// A run without ends: work that nothing uses does not count.
pub trait WithoutEnds: DualNum {
    ghost after_law: { (w : Bool) (u x : (Self.beside w).Num) → (Self.beside w).after u x ≡ x };
}

impl WithoutEnds for f64 {
    ghost after_law = { Prim.search rules };
}

impl WithoutEnds for Dual {
    ghost after_law = { Prim.search rules };
}

// Whether a search leaves: the tested value is below 1.0e-12 in size, whatever its slope.
fn is_small<D: DualNum>(x: D) -> bool
    ensures { (w : Bool) → result ≡ small (D.beside w) (D.of w x) }
{
    number::abs(x.re()) < 1.0e-12
}

// A step above 0.5 in size is multiplied by the plain number 0.5 / size, so that its size is 0.5 only to rounding.
fn clamp<D: DualNum>(dr: D) -> D
    ensures { (w : Bool) → D.of w result ≡ clamped (D.beside w) (D.of w dr) }
{
    let size = number::abs(dr.re());
    if 0.5 < size {
        return dr * D::Plain::lit(0.5 / size);
    }
    dr
}

// The three steps, each from a radius, its potential and the tested value, which the zero search alone reads; and what that tests. l is the logarithm of f64::EPSILON.
fn sigma_step<D: DualNum>(r: D, v: QMiePotential<D>, f: D) -> D
    ensures { (w : Bool) → D.of w result ≡ sigma_step (D.beside w) (D.of w r) (potential_by (D.of w) v) (D.of w f) }
{
    r + -v.u / v.u_r
}

fn depth_step<D: DualNum>(r: D, v: QMiePotential<D>, f: D) -> D
    ensures { (w : Bool) → D.of w result ≡ depth_step (D.beside w) (D.of w r) (potential_by (D.of w) v) (D.of w f) }
{
    r + -v.u_r / v.u_rr
}

fn zero_value<D: DualNum>(temperature: D, l: D::Plain, v: QMiePotential<D>) -> D
    ensures { (w : Bool) → D.of w result ≡ zero_value (D.beside w) (D.of w temperature) (D.plain w l) (potential_by (D.of w) v) }
{
    v.u / temperature + l
}

fn zero_step<D: DualNum>(temperature: D, r: D, v: QMiePotential<D>, f: D) -> D
    ensures { (w : Bool) → D.of w result ≡ zero_step (D.beside w) (D.of w temperature) (D.of w r) (potential_by (D.of w) v) (D.of w f) }
{
    r + clamp(-(f / (v.u_r / temperature)))
}

// One search and its count of evaluations: what is tested of a potential, and the next radius from the radius, its potential and the tested value. A pair, not a struct: each caller takes it apart at once.
fn radius_search<D: WithoutEnds, T: Fn(QMiePotential<D>) -> D, M: Fn(D, QMiePotential<D>, D) -> D>(
    w: &Shared<D, D::Plain, D::Exponent>,
    start: D,
    tested: T,
    moved: M,
) -> Result<(Search<D>, u8), Refusal>
    requires tested { T.IsAlwaysCallable tested }
    requires moved { M.IsAlwaysCallable moved }
    ensures { (U : (D.beside false).Num → Ans (PotentialIn (D.beside false).Num))
        (t : PotentialIn (D.beside false).Num → (D.beside false).Num)
        (m : (D.beside false).Num → PotentialIn (D.beside false).Num → (D.beside false).Num → (D.beside false).Num)
        → Told (D.beside false) (D.functions false) (D.plain false) (D.power_at false) (D.power_by false)
        (D.of false) D.exponent_in D.base_in (D.raised false) D.base_of w.now U
        → Tests (D.of false) (T.post tested) t → Moves (D.of false) (M.post moved) m
        → answer_by (counted_by (D.of false)) result ≡ searched (D.beside false) U (λ v. held (t v)) m (D.of false start) }
{
    let mut r = start;
    let mut u = start;
    // k counts the evaluations that came before, whose number is handed on; no list is walked.
    for k in 0u8..19u8 {
        let v = saftvrqmie_potential::potential_at(w, r)?;
        let f = tested(v);
        let count = k + 1;
        if is_small(f) {
            return Ok((Search::Found(r, v.u), count));
        }
        r = moved(r, v, f);
        u = v.u;
    }
    Ok((Search::Spent(r, u), 20))
}

// The three searches from what a pair's radii share.
pub fn sigma_search<D: WithoutEnds>(
    w: &Shared<D, D::Plain, D::Exponent>,
    sigma: D,
) -> Result<(Search<D>, u8), Refusal>
    ensures formula { (p : PairIn (D.beside false).Num) → Sharing (D.beside false) (D.functions false) (D.plain false) (D.power_at false) (D.power_by false) (D.of false) D.exponent_in p w.now
        → answer_by (counted_by (D.of false)) result ≡ sigma_search (D.beside false) (potential (D.beside false) (D.functions false) p) (D.of false sigma) }
    ensures staged { (U : (D.beside false).Num → Ans (PotentialIn (D.beside false).Num))
        → Gives (D.beside false) (D.functions false) (D.plain false) (D.power_at false) (D.power_by false)
        (D.of false) D.exponent_in D.base_in (D.raised false) D.base_of w.now U
        → answer_by (counted_by (D.of false)) result ≡ sigma_search (D.beside false) U (D.of false sigma) }
{
    radius_search(w, sigma, |v| v.u, sigma_step)
}

pub fn zero_search<D: WithoutEnds>(
    w: &Shared<D, D::Plain, D::Exponent>,
    temperature: D,
    sigma_eff: D,
) -> Result<(Search<D>, u8), Refusal>
    ensures formula { (p : PairIn (D.beside false).Num) → Sharing (D.beside false) (D.functions false) (D.plain false) (D.power_at false) (D.power_by false) (D.of false) D.exponent_in p w.now
        → answer_by (counted_by (D.of false)) result ≡ zero_search (D.beside false) (potential (D.beside false) (D.functions false) p) (D.functions false) (D.of false temperature) (D.of false sigma_eff) }
    ensures staged { (U : (D.beside false).Num → Ans (PotentialIn (D.beside false).Num))
        → Gives (D.beside false) (D.functions false) (D.plain false) (D.power_at false) (D.power_by false)
        (D.of false) D.exponent_in D.base_in (D.raised false) D.base_of w.now U
        → answer_by (counted_by (D.of false)) result ≡ zero_search (D.beside false) U (D.functions false) (D.of false temperature) (D.of false sigma_eff) }
{
    let l = D::plain_ln(D::Plain::lit(f64::EPSILON))?;
    let start = sigma_eff * D::Plain::lit(0.7);
    radius_search(
        w,
        start,
        |v| zero_value(temperature, l, v),
        |r, v, f| zero_step(temperature, r, v, f),
    )
}

pub fn depth_search<D: WithoutEnds>(
    w: &Shared<D, D::Plain, D::Exponent>,
    sigma: D,
) -> Result<(Search<D>, u8), Refusal>
    ensures formula { (p : PairIn (D.beside false).Num) → Sharing (D.beside false) (D.functions false) (D.plain false) (D.power_at false) (D.power_by false) (D.of false) D.exponent_in p w.now
        → answer_by (counted_by (D.of false)) result ≡ depth_search (D.beside false) (potential (D.beside false) (D.functions false) p) (D.of false sigma) }
    ensures staged { (U : (D.beside false).Num → Ans (PotentialIn (D.beside false).Num))
        → Gives (D.beside false) (D.functions false) (D.plain false) (D.power_at false) (D.power_by false)
        (D.of false) D.exponent_in D.base_in (D.raised false) D.base_of w.now U
        → answer_by (counted_by (D.of false)) result ≡ depth_search (D.beside false) U (D.of false sigma) }
{
    radius_search(w, sigma, |v| v.u_r, depth_step)
}

// `calc_sigma_eff_ij`. It and the three below are the Rust's functions of a pair, each with a share of its own: a function over a closure of Shared would be no shorter than their two lines.
pub fn calc_sigma_eff(pair: FloatPair) -> Result<(FloatSearch, u8), Refusal>
    ensures { search_answer result ≡ sigma_eff floats (calls floats port) (pair_in pair) }
{
    let w = saftvrqmie_potential::share(&pair)?;
    sigma_search(&w, 1.0 * pair.sigma)
}

// `zero_integrand`.
pub fn zero_integrand(pair: FloatPair, sigma_eff: f64) -> Result<(FloatSearch, u8), Refusal>
    ensures { search_answer result ≡ zero_integrand floats (calls floats port) (pair_in pair) sigma_eff }
{
    let w = saftvrqmie_potential::share(&pair)?;
    zero_search(&w, pair.temperature, sigma_eff)
}

// `calc_epsilon_k_eff_ij`; epsilon_k_eff is minus the last potential.
pub fn calc_epsilon_k_eff(pair: FloatPair) -> Result<(FloatSearch, u8), Refusal>
    ensures { search_answer result ≡ epsilon_k_eff floats (calls floats port) (pair_in pair) }
{
    let w = saftvrqmie_potential::share(&pair)?;
    depth_search(&w, 1.0 * pair.sigma)
}

// One node's part, added, by its index, at which the rule is read. Nothing reads the derivatives there.
fn node<D: WithoutEnds>(
    w: &Shared<D, D::Plain, D::Exponent>,
    temperature: D,
    sigma_eff: D,
    r0: D,
    k: usize,
    d_hs: D,
) -> Result<D, Refusal>
    ensures { (U : (D.beside false).Num → Ans (PotentialIn (D.beside false).Num))
        → ToldAlone (D.beside false) (D.functions false) (D.plain false) (D.power_at false) (D.power_by false)
        (D.of false) D.exponent_in D.base_in (D.raised false) D.base_of w.now U
        → answer_by (D.of false) result ≡ node_turn (D.beside false) (D.functions false) U (D.of false temperature) (D.of false sigma_eff) (D.of false r0) k (D.of false d_hs) }
{
    let width = (sigma_eff - r0) * D::Plain::lit(0.5);
    let r = width * abscissa::<D>(k) + width + r0;
    let u = saftvrqmie_potential::u_at(w, r)?;
    let e = D::exp(-u / temperature)?;
    Ok(d_hs + width * (-e + D::Plain::lit(1.0)) * weight::<D>(k))
}

pub fn diameter_by<D: WithoutEnds>(
    w: &Shared<D, D::Plain, D::Exponent>,
    temperature: D,
    sigma_eff: D,
    r0: D,
) -> Result<D, Refusal>
    ensures formula { (p : PairIn (D.beside false).Num) → Sharing (D.beside false) (D.functions false) (D.plain false) (D.power_at false) (D.power_by false) (D.of false) D.exponent_in p w.now
        → answer_by (D.of false) result ≡ diameter_by (D.beside false) (D.functions false) (potential (D.beside false) (D.functions false) p) (D.of false temperature) (D.of false sigma_eff) (D.of false r0) }
    ensures staged { (U : (D.beside false).Num → Ans (PotentialIn (D.beside false).Num))
        → Gives (D.beside false) (D.functions false) (D.plain false) (D.power_at false) (D.power_by false)
        (D.of false) D.exponent_in D.base_in (D.raised false) D.base_of w.now U
        → answer_by (D.of false) result ≡ diameter_by (D.beside false) (D.functions false) U (D.of false temperature) (D.of false sigma_eff) (D.of false r0) }
{
    let mut d_hs = r0;
    for k in 0usize..21usize {
        d_hs = node(w, temperature, sigma_eff, r0, k, d_hs)?;
    }
    Ok(d_hs)
}

// `hs_diameter_ij`, from the searched radii.
pub fn hs_diameter(pair: FloatPair, sigma_eff: f64, r0: f64) -> Result<f64, Refusal>
    ensures { answer result ≡ diameter floats (calls floats port) (pair_in pair) sigma_eff r0 }
{
    let w = saftvrqmie_potential::share(&pair)?;
    diameter_by(&w, pair.temperature, sigma_eff, r0)
}
