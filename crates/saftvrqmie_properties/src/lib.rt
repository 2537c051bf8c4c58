// The temperature-dependent properties of one pair (saftvrqmie/eos/mod.rs), in the float run and in the run with slopes (document 02, Slip 1): what all radii share is worked once.
#![tactic(auto)]

ghost use Rattle.std.specs.Prelude.{false, ◌≡◌};
ghost use Rattle.number.specs.Answer.{answer_by};
ghost use Rattle.number.specs.Arith.{whole};
ghost use Rattle.saftvrqmie_potential.specs.Potential.{pair_by, potential};
ghost use Rattle.saftvrqmie_searches.specs.Searches.{search_by};
ghost use Rattle.saftvrqmie_properties.specs.Properties.{pair_properties_by, radius_of, last_of, properties_from};

use dual_num::DualNum;
use number::{Arithmetic, Refusal};
use saftvrqmie_potential::Pair;
use saftvrqmie_searches::{Search, WithoutEnds};

// Values and counts go to a table's two lists: three structs of a value and its count would be taken apart there.
#[derive(Clone, Copy)]
pub struct PairProperties<D> {
    pub sigma_eff: D,
    pub hs_diameter: D,
    pub epsilon_k_eff: D,
    pub quantum_d: D,
    pub sigma_count: u8,
    pub zero_count: u8,
    pub depth_count: u8,
}

pub type FloatProperties = PairProperties<f64>;

pub fn radius<D: Copy>(s: Search<D>) -> D
    ensures { result ≡ radius_of (search_by (λ x. x) s) }
{
    match s {
        Search::Found(r, _) | Search::Spent(r, _) => r,
    }
}

pub fn last_potential<D: Copy>(s: Search<D>) -> D
    ensures { result ≡ last_of (search_by (λ x. x) s) }
{
    match s {
        Search::Found(_, u) | Search::Spent(_, u) => u,
    }
}

// The searches start from D::one() * sigma, a D.
pub fn pair_properties<D: WithoutEnds>(
    pair: Pair<D, D::Plain>,
) -> Result<PairProperties<D>, Refusal>
    ensures { let U = potential (D.beside false) (D.functions false) (pair_by (D.plain false) (D.of false) pair) in
        let start = (D.beside false).mul (D.taken false (whole (D.beside false) 1)) (D.plain false pair.sigma) in
        answer_by (pair_properties_by (D.of false)) result ≡ properties_from (D.beside false) (D.functions false) U start (D.plain false pair.mass) (D.of false pair.temperature) }
{
    let sigma = D::lift(D::Plain::lit(1.0)) * pair.sigma;
    let w = saftvrqmie_potential::share(&pair)?;
    let (s, sigma_count) = saftvrqmie_searches::sigma_search(&w, sigma)?;
    let t = pair.temperature;
    let sigma_eff = radius(s);
    let (z, zero_count) = saftvrqmie_searches::zero_search(&w, t, sigma_eff)?;
    let d = saftvrqmie_searches::diameter_by(&w, t, sigma_eff, radius(z))?;
    let (e, depth_count) = saftvrqmie_searches::depth_search(&w, sigma)?;
    Ok(PairProperties {
        sigma_eff,
        hs_diameter: d,
        epsilon_k_eff: -last_potential(e),
        quantum_d: saftvrqmie_potential::quantum_d(pair.mass, t),
        sigma_count,
        zero_count,
        depth_count,
    })
}
