// Helmholtz energies of SAFT-VR Mie on a set in the two-ended run: dispersion, and dispersion with chain.
#![tactic(auto)]

ghost use Rattle.std.specs.Prelude.{◌≡◌};
ghost use Rattle.elementary.specs.Port.{port};
ghost use Rattle.number.specs.Answer.{answer};
ghost use Rattle.saftvrmie_energies.specs.Reads.{set_of};
ghost use Rattle.saftvrmie_energies_ends.specs.Operation.{dispersion_ends};

use enclosure::{Enclosure, Ends};
use enclosure_dual::EnclosureDual;
use number::Refusal;
use saftvrmie_energies::State;
use sizes::SIDE;

// The two ends of the Helmholtz energy density of dispersion, with or without chain, from a list of diameters. 1, 2, 6, 7, 8.
pub fn dispersion_ends(s: &State, chain: bool) -> Result<Ends, Refusal>
    ensures { let s = s.now in
        answer result ≡ dispersion_ends port (set_of s.set) s.temperature s.fractions.now s.densities.now s.diameters.now chain }
{
    saftvrmie_energies::tested(s)?;
    let mut xs = [Enclosure::point(0.0); SIDE];
    let a = saftvrmie_energies::energy_run::<EnclosureDual>(s, chain, &mut xs);
    enclosure::ends_of(a)
}
