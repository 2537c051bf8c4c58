// Slip 10: the two ends of a tank's energies, over one quantum set.
#![tactic(auto)]

ghost use Rattle.std.specs.Prelude.{◌≡◌};
ghost use Rattle.saftvrqmie_energies.specs.Energies.{energies_answer};
ghost use Rattle.saftvrqmie_tank.specs.Tank.{lists_of};
ghost use Rattle.saftvrqmie_tank_ends.specs.TankEnds.{tank_ends};

use enclosure::Enclosure;
use number::Refusal;
use saftvrqmie_energies_ends::EnergiesEnds;
use saftvrqmie_parameters::SaftVRQMiePars;
use saftvrqmie_tank::Layers;

// The two ends of the tank's energies. 14, 1, then layer by layer 2, 6, 7, then 7 of the tank, then 8.
pub fn tank_ends(set: &SaftVRQMiePars, q: &Layers) -> Result<EnergiesEnds, Refusal>
    ensures { energies_answer result ≡ tank_ends set.now (lists_of q.now) q.now.non_additive }
{
    let e = saftvrqmie_tank::tank_of::<Enclosure>(set, q)?;
    saftvrqmie_energies_ends::sound_ends(e)
}
