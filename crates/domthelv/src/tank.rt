// A tank in layers at the C boundary.
ghost use Rattle.std.specs.Prelude.{◌≡◌};
ghost use Rattle.mie_parameters.specs.Answer.{status, stored};
ghost use Rattle.saftvrqmie_tank.specs.Tank.{TankLists};
ghost use Rattle.set_lists.specs.Sets.{QuantumLists};
ghost use Rattle.domthelv.specs.Tank.{vrq_tank, vrq_tank_ends};

use crate::functions::deliver_list;
use crate::{ends, quantum};
use saftvrqmie_tank::Layers;
use set_lists::QuantumSet;

// The two calls stand apart: one function over what is worked, `F: FnOnce() -> Result<[f64; N], Refusal>`, with the delivery, was refused: no proof is made where a bound of a closure names a const parameter.
// The energies of a tank: hard sphere, dispersion, non-additive. 14, 1, 4, then layer by layer 2, 6, 7, then 7 of the tank.
pub fn domthelv_vrq_tank(
    count: usize,
    m: &[f64],
    sheets: &[f64],
    orders: &[u8],
    layers: usize,
    temperatures: &[f64],
    fractions: &[f64],
    densities: &[f64],
    volumes: &[f64],
    non_additive: bool,
    out: &mut [f64],
) -> u8
    ensures { let s : QuantumLists = record { count = count; m = m.now; sheets = sheets.now; orders = orders.now } in
        let t : TankLists =
        record {
          layers = layers;
          temperatures = temperatures.now;
          fractions = fractions.now;
          densities = densities.now;
          volumes = volumes.now;
        } in
        let q = vrq_tank s t non_additive out.old in
        (result ≡ status q) × (out.new ≡ stored out.old q) }
{
    let set = QuantumSet {
        count,
        m,
        sheets,
        orders,
    };
    let q = Layers {
        layers,
        temperatures,
        fractions,
        densities,
        volumes,
        non_additive,
    };
    let worked = tank_lists::listed_tank(&set, &q, out.len() == 3);
    deliver_list(worked.map(quantum::energies_list), out)
}

// Two ends of a tank's energies: low and high end of each. 14, 1, 4, then layer by layer 2, 6, 7, then 7 of the tank, then 8.
pub fn domthelv_vrq_tank_ends(
    count: usize,
    m: &[f64],
    sheets: &[f64],
    orders: &[u8],
    layers: usize,
    temperatures: &[f64],
    fractions: &[f64],
    densities: &[f64],
    volumes: &[f64],
    non_additive: bool,
    out: &mut [f64],
) -> u8
    ensures { let s : QuantumLists = record { count = count; m = m.now; sheets = sheets.now; orders = orders.now } in
        let t : TankLists =
        record {
          layers = layers;
          temperatures = temperatures.now;
          fractions = fractions.now;
          densities = densities.now;
          volumes = volumes.now;
        } in
        let q = vrq_tank_ends s t non_additive out.old in
        (result ≡ status q) × (out.new ≡ stored out.old q) }
{
    let set = QuantumSet {
        count,
        m,
        sheets,
        orders,
    };
    let q = Layers {
        layers,
        temperatures,
        fractions,
        densities,
        volumes,
        non_additive,
    };
    let worked = tank_lists::listed_tank_ends(&set, &q, out.len() == 6);
    deliver_list(worked.map(ends::ends_list), out)
}
