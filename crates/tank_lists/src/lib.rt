// Slip 10 behind the C boundary: a tank over a quantum set that crosses as its lists.
#![tactic(auto)]

ghost use Rattle.std.specs.Prelude.{◌≡◌};
ghost use Rattle.number.specs.Answer.{answer};
ghost use Rattle.saftvrqmie_energies.specs.Energies.{energies_answer};
ghost use Rattle.saftvrqmie_tank.specs.Tank.{lists_of};
ghost use Rattle.set_lists.specs.Sets.{quantum_lists};
ghost use Rattle.tank_lists.specs.Lists.{tank_set, listed_tank, listed_tank_ends};

use number::Refusal;
use saftvrqmie_energies::QuantumEnergies;
use saftvrqmie_energies_ends::EnergiesEnds;
use saftvrqmie_parameters::SaftVRQMiePars;
use saftvrqmie_tank::Layers;
use set_lists::QuantumSet;

// The tank's set. `right`, here and below: whether the list that the answer is written into has its length. 14, 1, 4.
fn tank_set(s: &QuantumSet, q: &Layers, right: bool) -> Result<SaftVRQMiePars, Refusal>
    ensures { answer result ≡ tank_set (quantum_lists s.now) (lists_of q.now) right }
{
    if !saftvrqmie_tank::layers_within(q.layers) {
        return Err(Refusal::Layers);
    }
    let lengths = saftvrqmie_tank::tank_lengths(s.count, q);
    set_lists::quantum_answer(s, right & lengths)?;
    Ok(set_lists::quantum_set(s))
}

// 14, 1, 4, then layer by layer 2, 6, 7, then 7 of the tank.
// A function each, here and below: one over a closure for the last line would be longer than both.
pub fn listed_tank(s: &QuantumSet, q: &Layers, right: bool) -> Result<QuantumEnergies, Refusal>
    ensures { energies_answer result ≡ listed_tank (quantum_lists s.now) (lists_of q.now) q.now.non_additive right }
{
    let set = tank_set(s, q, right)?;
    saftvrqmie_tank::tank(&set, q)
}

// The same for the tank's ends. 14, 1, 4, then layer by layer 2, 6, 7, then 7 of the tank, then 8.
pub fn listed_tank_ends(s: &QuantumSet, q: &Layers, right: bool) -> Result<EnergiesEnds, Refusal>
    ensures { energies_answer result ≡ listed_tank_ends (quantum_lists s.now) (lists_of q.now) q.now.non_additive right }
{
    let set = tank_set(s, q, right)?;
    saftvrqmie_tank_ends::tank_ends(&set, q)
}
