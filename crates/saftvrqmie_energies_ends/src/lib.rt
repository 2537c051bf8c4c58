// The Helmholtz energy densities of SAFT-VRQ Mie (saftvrqmie/eos) in the two-ended run: hard sphere, dispersion, non-additive.
#![tactic(auto)]

ghost use Rattle.std.specs.Prelude.{◌≡◌};
ghost use Rattle.elementary.specs.Port.{port};
ghost use Rattle.saftvrqmie_energies.specs.Energies.{energies_in, energies_answer};
ghost use Rattle.saftvrqmie_energies.specs.Reads.{set_of, asked_at};
ghost use Rattle.saftvrqmie_energies_ends.specs.Operation.{all_sound, sound_ends, energies_enclosed, energies_ends};

use enclosure::{Enclosure, Ends};
use number::Refusal;
use saftvrqmie_energies::{Energies, Set, StateLists, energies_run};
use saftvrqmie_parameters::SaftVRQMiePars;
use sizes::{SHEET, SIDE};

// The two ends of each contribution.
pub type EnergiesEnds = Energies<Ends>;

// Each contribution of the two-ended run, sound or not.
pub type EnergiesEnclosures = Energies<Enclosure>;

fn all_sound(e: EnergiesEnclosures) -> bool
    ensures { result ≡ all_sound (energies_in e) }
{
    let h = e.hard_sphere;
    let d = e.dispersion;
    let a = e.non_additive;
    let x = h.ends;
    let y = d.ends;
    let z = a.ends;
    x.sound & y.sound & z.sound
}

// The enclosures of hard sphere, dispersion and, if wanted, non-additive, over a set's parts. 1, 2, 6, 7.
pub fn enclosures_of(set: &Set, q: &StateLists) -> Result<EnergiesEnclosures, Refusal>
    ensures { energies_answer result ≡ asked_at (energies_enclosed port (set_of set.now)) q.now }
{
    let zero = Enclosure::point(0.0);
    let mut xs = [zero; SIDE];
    let mut alphas = [zero; SHEET];
    energies_run(set, q, &mut xs, &mut alphas)
}

// 8 where a contribution's enclosure is not sound, else the ends of each.
pub fn sound_ends(e: EnergiesEnclosures) -> Result<EnergiesEnds, Refusal>
    ensures { energies_answer result ≡ sound_ends (energies_in e) }
{
    if !all_sound(e) {
        return Err(Refusal::Unsound);
    }
    Ok(Energies {
        hard_sphere: Ends::from(e.hard_sphere),
        dispersion: Ends::from(e.dispersion),
        non_additive: Ends::from(e.non_additive),
    })
}

// The two ends of each, over a set's parts. 1, 2, 6, 7, 8.
pub fn energies_ends_of(set: &Set, q: &StateLists) -> Result<EnergiesEnds, Refusal>
    ensures { energies_answer result ≡ asked_at (energies_ends port (set_of set.now)) q.now }
{
    let e = enclosures_of(set, q)?;
    sound_ends(e)
}

// The two ends of hard sphere, dispersion and, if wanted, non-additive. 1, 2, 6, 7, 8.
pub fn helmholtz_energy_densities_ends(
    set: SaftVRQMiePars,
    q: &StateLists,
) -> Result<EnergiesEnds, Refusal>
    ensures { energies_answer result ≡ asked_at (energies_ends port set) q.now }
{
    energies_ends_of(&Set::from(&set), q)
}
