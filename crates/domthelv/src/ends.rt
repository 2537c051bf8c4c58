// The two-ended calls of both models at the C boundary.
ghost use Rattle.std.specs.Prelude.{◌≡◌, Float, List, length};
ghost use Rattle.number.specs.Answer.{answer};
ghost use Rattle.mie_parameters.specs.Answer.{status, stored};
ghost use Rattle.set_lists.specs.Sets.{QuantumLists, quantum_lists, MieLists};
ghost use Rattle.domthelv.specs.Operations.{ends_written, vrq_energies_ends, pair_written, vrq_diameter_ends, vr_dispersion_ends, vr_diameter_ends};
ghost use Rattle.domthelv.specs.Asked.{ends_asked, diameter_ends_asked};
ghost use Rattle.saftvrqmie_energies.specs.Energies.{energies_in, energies_answer};

use crate::functions::deliver_list;
use crate::mie::of_set;
use crate::quantum::{lent_set, pair_set};
use enclosure::Ends;
use number::Refusal;
use saftvrqmie_energies::StateLists;
use saftvrqmie_energies_ends::EnergiesEnds;
use set_lists::QuantumSet;

// What the definition writes into a list of as many places.
pub fn ends_list(e: EnergiesEnds) -> [f64; 6]
    ensures { (length result ≡ 6) × ((l : List Float) → length l ≡ 6 → ends_written (energies_in e) l ≡ result) }
{
    let h = e.hard_sphere;
    let d = e.dispersion;
    let a = e.non_additive;
    [h.lower, h.upper, d.lower, d.upper, a.lower, a.upper]
}

fn pair_list(e: Ends) -> [f64; 2]
    ensures { (length result ≡ 2) × ((l : List Float) → length l ≡ 2 → pair_written e l ≡ result) }
{
    [e.lower, e.upper]
}

// The ends of a set that crosses as its lists. 1, 4, then 2, 6, 7, 8.
#[inline(always)]
fn energies_ends(s: &QuantumSet, q: &StateLists) -> Result<EnergiesEnds, Refusal>
    ensures { energies_answer result ≡ ends_asked (quantum_lists s.now) q.now.temperature q.now.fractions.now q.now.densities.now q.now.table.now q.now.non_additive }
{
    let lent = lent_set(s, q)?;
    saftvrqmie_energies_ends::energies_ends_of(&lent.parts(), q)
}

// Two ends of the quantum energies: low and high end of each. 1, 4, then 2, 6, 7, 8.
pub fn domthelv_vrq_energies_ends(
    count: usize,
    m: &[f64],
    sheets: &[f64],
    orders: &[u8],
    temperature: f64,
    fractions: &[f64],
    densities: &[f64],
    table: &[f64],
    non_additive: bool,
    out: &mut [f64],
) -> u8
    ensures { let s : QuantumLists = record { count = count; m = m.now; sheets = sheets.now; orders = orders.now } in
        let q = vrq_energies_ends s temperature fractions.now densities.now table.now non_additive out.old in
        (result ≡ status q) × (out.new ≡ stored out.old q) }
{
    if out.len() != 6 {
        return Refusal::Length.code();
    }
    let lent = QuantumSet {
        count,
        m,
        sheets,
        orders,
    };
    let state = StateLists {
        temperature,
        fractions,
        densities,
        table,
        non_additive,
    };
    deliver_list(energies_ends(&lent, &state).map(ends_list), out)
}

// The same of a pair's diameter.
#[inline(always)]
fn diameter_ends(
    s: &QuantumSet,
    i: usize,
    j: usize,
    temperature: f64,
    sigma_eff: f64,
    r0: f64,
) -> Result<Ends, Refusal>
    ensures { answer result ≡ diameter_ends_asked (quantum_lists s.now) i j temperature sigma_eff r0 }
{
    let set = pair_set(s, i, j)?;
    saftvrqmie_diameter_ends::hs_diameter_ij_ends(set, i, j, temperature, sigma_eff, r0)
}

// Two ends of a pair's diameter from its searched radii. 1, 4, then 2, 6, 7, 8.
pub fn domthelv_vrq_diameter_ends(
    count: usize,
    m: &[f64],
    sheets: &[f64],
    orders: &[u8],
    i: usize,
    j: usize,
    temperature: f64,
    sigma_eff: f64,
    r0: f64,
    out: &mut [f64],
) -> u8
    ensures { let s : QuantumLists = record { count = count; m = m.now; sheets = sheets.now; orders = orders.now } in
        let q = vrq_diameter_ends s i j temperature sigma_eff r0 out.old in
        (result ≡ status q) × (out.new ≡ stored out.old q) }
{
    if out.len() != 2 {
        return Refusal::Length.code();
    }
    let lent = QuantumSet {
        count,
        m,
        sheets,
        orders,
    };
    let worked = diameter_ends(&lent, i, j, temperature, sigma_eff, r0);
    deliver_list(worked.map(pair_list), out)
}

// Two ends of dispersion, with the chain where it is wanted. 1, 2, 6, 7, 8.
pub fn domthelv_vr_dispersion_ends(
    count: usize,
    lists: &[f64],
    sheets: &[f64],
    temperature: f64,
    fractions: &[f64],
    densities: &[f64],
    diameters: &[f64],
    chain: bool,
    out: &mut [f64],
) -> u8
    ensures { let s : MieLists = record { count = count; lists = lists.now; sheets = sheets.now } in
        let q = vr_dispersion_ends s temperature fractions.now densities.now diameters.now chain out.old in
        (result ≡ status q) × (out.new ≡ stored out.old q) }
{
    if out.len() != 2 {
        return Refusal::Length.code();
    }
    let worked = of_set(count, lists, sheets, |set| {
        let state = saftvrmie_energies::State {
            set: saftvrmie_energies::Set::from(set),
            temperature,
            fractions,
            densities,
            diameters,
        };
        saftvrmie_energies_ends::dispersion_ends(&state, chain)
    });
    deliver_list(worked.map(pair_list), out)
}

// Two ends of a pair's diameter from its reduced lower limit. 1, 2, 6, 7, 8.
pub fn domthelv_vr_diameter_ends(
    count: usize,
    lists: &[f64],
    sheets: &[f64],
    i: usize,
    j: usize,
    temperature: f64,
    r0: f64,
    out: &mut [f64],
) -> u8
    ensures { let s : MieLists = record { count = count; lists = lists.now; sheets = sheets.now } in
        let q = vr_diameter_ends s i j temperature r0 out.old in
        (result ≡ status q) × (out.new ≡ stored out.old q) }
{
    if out.len() != 2 {
        return Refusal::Length.code();
    }
    let worked = of_set(count, lists, sheets, |set| {
        saftvrmie_diameter_ends::hs_diameter_ij_ends(*set, i, j, temperature, r0)
    });
    deliver_list(worked.map(pair_list), out)
}
