// The energy stages of both models: from component lists to energies.
#![tactic(auto)]

ghost use Rattle.std.specs.Prelude.{◌≡◌};
ghost use Rattle.saftvrqmie_energies.specs.Energies.{energies_answer};
ghost use Rattle.number.specs.Answer.{answer};
ghost use Rattle.saftvrqmie_parameters.specs.Parameters as Quantum;
ghost use Rattle.saftvrmie_parameters.specs.Parameters as Mie;
ghost use Rattle.stages.specs.Stages.{quantum_stage, mie_energy, mie_stage};

use number::Refusal;
use saftvrmie_energies::{Set, State};
use saftvrmie_parameters::SaftVRMiePars;
use saftvrqmie_energies::{QuantumEnergies, StateLists};
use sizes::{COUNTS, SIDE, TABLE};

// Quantum: parameters (1 to 6), a table of its own (2, 6, 7), energies (1, 2, 6, 7); the first refusal on the way. A stage takes no state's lists as one: its table is worked here.
pub fn quantum_stage(
    lists: &saftvrqmie_parameters::ComponentLists,
    temperature: f64,
    fractions: &[f64],
    densities: &[f64],
    non_additive: bool,
) -> Result<QuantumEnergies, Refusal>
    ensures { let l = Quantum.lists_of lists.now in
        energies_answer result ≡ quantum_stage l temperature fractions.now densities.now non_additive }
{
    // Taken apart by let .. else, as document 01's Forms ask; a pattern of Ok names no refusal, so that its else asks for it.
    let given = saftvrqmie_parameters::parameters(lists);
    let Ok(()) = given.answer else {
        return Err(given.answer.unwrap_err());
    };
    let set = given.set;
    let mut table = [0.0; TABLE];
    let mut counts = [0u8; COUNTS];
    saftvrqmie::temperature_dependent_properties(set, temperature, &mut table, &mut counts)?;
    let q = StateLists {
        temperature,
        fractions,
        densities,
        table: &table,
        non_additive,
    };
    saftvrqmie_energies::helmholtz_energy_densities(set, &q)
}

// Diameters into a list of the stage's own, then the energy from them: there is a state once they are worked.
fn mie_energy(
    set: SaftVRMiePars,
    temperature: f64,
    fractions: &[f64],
    densities: &[f64],
    own: &mut [f64],
    chain: bool,
) -> Result<f64, Refusal>
    ensures { answer result ≡ mie_energy set temperature fractions.now densities.now own.old chain }
{
    saftvrmie::hs_diameter(set, temperature, own)?;
    let s = State {
        set: Set::from(&set),
        temperature,
        fractions,
        densities,
        diameters: own,
    };
    saftvrmie_energies::dispersion(&s, chain)
}

// SAFT-VR Mie: parameters (1, 2, 6), diameters of its own (2, 6, 7), dispersion with or without chain (1, 2, 6, 7); the first refusal on the way.
pub fn mie_stage(
    lists: &saftvrmie_parameters::ComponentLists,
    temperature: f64,
    fractions: &[f64],
    densities: &[f64],
    chain: bool,
) -> Result<f64, Refusal>
    ensures { let l = Mie.lists_of lists.now in
        answer result ≡ mie_stage l temperature fractions.now densities.now chain }
{
    // Taken apart by let .. else, as document 01's Forms ask; a pattern of Ok names no refusal, so that its else asks for it.
    let given = saftvrmie_parameters::parameters(lists);
    let Ok(()) = given.answer else {
        return Err(given.answer.unwrap_err());
    };
    let set = given.set;
    let mut own = [0.0; SIDE];
    let n = set.count;
    mie_energy(
        set,
        temperature,
        fractions,
        densities,
        &mut own[0..n],
        chain,
    )
}
