// Slip 1 behind the C boundary: the quantum chain with slopes over a set that crosses as its lists.
#![tactic(auto)]

ghost use Rattle.std.specs.Prelude.{◌≡◌, true, Float, List, length};
ghost use Rattle.mie_parameters.specs.Answer.{outcome, verdict, stored};
ghost use Rattle.set_lists.specs.Sets.{quantum_lists};
ghost use Rattle.slopes_lists.specs.Lists.{state_of};
ghost use Rattle.saftvrqmie_energies_slopes.specs.Energies.{energies_slopes_in};
ghost use Rattle.slopes_calls.specs.Calls.{slopes_written, vrq_energies_slopes};

use number::Refusal;
use saftvrqmie_energies_slopes::QuantumEnergiesSlopes;
use set_lists::QuantumSet;
use slopes_lists::SlopedState;

// What the definition writes into a list of six places. Not From for the array: the clause is this call's, which the struct's crate does not know.
fn slopes_list(e: QuantumEnergiesSlopes) -> [f64; 6]
    ensures { (l : List Float) → length l ≡ 6 → slopes_written (energies_slopes_in e) l ≡ result }
{
    let h = e.hard_sphere;
    let d = e.dispersion;
    let a = e.non_additive;
    [h.re, h.eps, d.re, d.eps, a.re, a.eps]
}

// Value and slope of each contribution by turns. 1, 4, then 2, 7 for a supplied slope, the table's 6 and 7, the energies' 6 and 7.
pub fn vrq_energies_slopes(
    s: &QuantumSet,
    q: &SlopedState,
    non_additive: bool,
    out: &mut [f64],
) -> Result<(), Refusal>
    ensures { let a = vrq_energies_slopes (quantum_lists s.now) (state_of q.now) non_additive out.old in
        (outcome result true ≡ verdict a) × (out.new ≡ stored out.old a) }
{
    if out.len() != 6 {
        return Err(Refusal::Length);
    }
    let right = slopes_lists::sloped_lengths(s.count, q);
    set_lists::quantum_answer(s, right)?;
    let set = set_lists::quantum_set(s);
    let e = saftvrqmie_slopes::energies_slopes(&set, q, non_additive)?;
    out.copy_from_slice(&slopes_list(e));
    Ok(())
}
