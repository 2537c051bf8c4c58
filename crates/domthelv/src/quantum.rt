// SAFT-VRQ Mie at the C boundary: parameters, table, a pair's searches and diameter, energies, the stage.
ghost use Rattle.std.specs.Prelude.{◌≡◌, true, ℕ, Float, List, length};
ghost use Rattle.number.specs.Answer.{answer, answer_by};
ghost use Rattle.mie_parameters.specs.Answer.{outcome, verdict, status, stored};
ghost use Rattle.limits.specs.Limits.{index_within};
ghost use Rattle.set_lists.specs.Sets.{QuantumLists, quantum_lists, quantum_set};
ghost use Rattle.set_lists.specs.Written.{QuantumLent};
ghost use Rattle.domthelv.specs.Operations.{counts_written, order_counts_out, vrq_parameters, vrq_table, radii_written, radii_lengths, vrq_radii, energies_written, vrq_energies, vrq_diameter, vrq_stage};
ghost use Rattle.domthelv.specs.Asked.{energies_asked, total_asked, radii_asked};
ghost use Rattle.domthelv.specs.Lent.{lent_read};
ghost use Rattle.domthelv.specs.Total.{total_written, vrq_total};
ghost use Rattle.saftvrqmie_parameters.specs.Parameters as Quantum;
ghost use Rattle.saftvrqmie.specs.Table.{Lent};
ghost use Rattle.saftvrqmie.specs.Pairs.{searches_in, searches_answer};
ghost use Rattle.saftvrqmie_energies.specs.Energies.{state_lengths, energies_in, energies_answer};
ghost use Rattle.saftvrqmie_energies.specs.Reads.{set_of};

use crate::functions::deliver_list;
use mie_parameters::deliver;
use number::Refusal;
use order_counts::OrderCounts;
use saftvrqmie::{PairSearches, PairsAt};
use saftvrqmie_energies::{QuantumEnergies, Set, StateLists};
use saftvrqmie_parameters::{ComponentLists, OrderRecord, SaftVRQMiePars};
use saftvrqmie_total::QuantumTotal;
use set_lists::QuantumSet;
use sizes::{SHEET, SHEETS, SIDE};

// `SaftVRQMieRecord::new`: 3 if m is not 1.
pub fn domthelv_vrq_record_m(m: f64) -> u8
    ensures { result ≡ status (Quantum.record_m m) }
{
    let answer = saftvrqmie_parameters::record_m(m);
    mie_parameters::number(answer)
}

// What the definition writes into a list of as many places: here and below. Not From for the array: the clause is this call's, which the struct's crate does not know.
fn counts_list(c: OrderCounts) -> [u64; 3]
    ensures { (length result ≡ 3) × ((l : List ℕ) → length l ≡ 3 → counts_written c l ≡ result) }
{
    [c.passing, c.meeting_4, c.meeting_5]
}

// Of all lists of orders 0 to 3, one for each component: how many pass the order walk, meet 4, meet 5. 1 for `out`, then for the count.
pub fn domthelv_order_counts(count: usize, out: &mut [u64]) -> u8
    ensures { let q = order_counts_out count out.old in
        (result ≡ status q) × (out.new ≡ stored out.old q) }
{
    if out.len() != 3 {
        return Refusal::Length.code();
    }
    let counted = order_counts::order_counts(count);
    deliver_list(counted.map(counts_list), out)
}

// Quantum parameters. 1, 2, 3, 4 or 5, 6.
// Here and in two calls more several lists are written, in a `match`: of a closure that wrote them nothing is known where it is not called, so the proof that a refusal leaves them did not close.
pub fn domthelv_vrq_parameters(
    count: usize,
    m: &[f64],
    sigma: &[f64],
    epsilon_k: &[f64],
    lr: &[f64],
    la: &[f64],
    mass: &[f64],
    order: &[u8],
    k_ij: &[f64],
    l_ij: &[f64],
    set_m: &mut [f64],
    set_sheets: &mut [f64],
    set_orders: &mut [u8],
) -> u8
    ensures { let x : Quantum.Lists =
        record {
          count = count;
          m = m.entry.now;
          sigma = sigma.now;
          epsilon_k = epsilon_k.now;
          lr = lr.now;
          la = la.now;
          mass = mass.now;
          fh = order.now;
          k_ij = k_ij.now;
          l_ij = l_ij.now;
        } in
        let l : QuantumLent = record { m = set_m.old; sheets = set_sheets.old; orders = set_orders.old } in
        let q = vrq_parameters x l in
        (result ≡ status q) × (set_m.new ≡ (stored l q).m) × (set_sheets.new ≡ (stored l q).sheets) × (set_orders.new ≡ (stored l q).orders) }
{
    if !set_lists::quantum_lengths(set_m, set_sheets, set_orders) {
        return Refusal::Length.code();
    }
    let lists = ComponentLists {
        count,
        m,
        sigma,
        epsilon_k,
        lr,
        la,
        mass,
        fh: order,
        k_ij,
        l_ij,
    };
    match saftvrqmie_parameters::saft_vrq_mie_pars(&lists) {
        Err(r) => r.code(),
        Ok(set) => {
            set_lists::write_quantum(set, set_m, set_sheets, set_orders);
            0
        }
    }
}

// The table of a set that crosses as its lists. 1, 4, then 2, 6, 7.
#[inline(always)]
fn table_of(
    s: &QuantumSet,
    temperature: f64,
    table: &mut [f64],
    counts: &mut [u8],
) -> Result<(), Refusal>
    ensures { let l : Lent = record { values = table.old; numbers = counts.old } in
        let q = vrq_table (quantum_lists s.now) temperature l in
        (outcome result true ≡ verdict q) × (table.new ≡ (stored l q).values) × (counts.new ≡ (stored l q).numbers) }
{
    let right = saftvrqmie::right_lists(s.count, table.len(), counts.len());
    set_lists::quantum_answer(s, right)?;
    let flat = set_lists::flat(s.sheets);
    let records = set_lists::order_records(s.orders);
    let pairs = PairsAt {
        n: s.count,
        sheets: &flat,
        orders: records,
        temperature,
    };
    saftvrqmie::table_of(&pairs, table, counts)
}

// Temperature table and counts. 1, 4, then 2, 6, 7.
pub fn domthelv_vrq_table(
    count: usize,
    m: &[f64],
    sheets: &[f64],
    orders: &[u8],
    temperature: f64,
    table: &mut [f64],
    counts: &mut [u8],
) -> u8
    ensures { let s : QuantumLists = record { count = count; m = m.now; sheets = sheets.now; orders = orders.now } in
        let l : Lent = record { values = table.old; numbers = counts.old } in
        let q = vrq_table s temperature l in
        (result ≡ status q) × (table.new ≡ (stored l q).values) × (counts.new ≡ (stored l q).numbers) }
{
    let lent = QuantumSet {
        count,
        m,
        sheets,
        orders,
    };
    mie_parameters::number(table_of(&lent, temperature, table, counts))
}

fn radii_lengths(out: &[f64], counts: &[u8]) -> bool
    ensures { result ≡ radii_lengths (record { values = out.now; numbers = counts.now }) }
{
    (out.len() == 6) & (counts.len() == 3)
}

// Two lists, whose lengths the call has tested.
fn write_searches(p: PairSearches, out: &mut [f64], counts: &mut [u8])
    requires { (length out.old ≡ 6) × (length counts.old ≡ 3) }
    ensures { record { values = out.new; numbers = counts.new } ≡ radii_written (searches_in p) (record { values = out.old; numbers = counts.old }) }
{
    let sigma = p.sigma;
    let zero = p.zero;
    let depth = p.depth;
    out[0] = saftvrqmie_properties::radius(sigma);
    out[1] = saftvrqmie_properties::last_potential(sigma);
    out[2] = saftvrqmie_properties::radius(zero);
    out[3] = saftvrqmie_properties::last_potential(zero);
    out[4] = saftvrqmie_properties::radius(depth);
    out[5] = saftvrqmie_properties::last_potential(depth);
    counts[0] = p.sigma_count;
    counts[1] = p.zero_count;
    counts[2] = p.depth_count;
}

// The set that a pair is asked of. 1, 4. Inlined, as what calls it: a set that is handed on is copied.
#[inline(always)]
pub fn pair_set(s: &QuantumSet, i: usize, j: usize) -> Result<SaftVRQMiePars, Refusal>
    ensures { let l = quantum_lists s.now in answer result ≡ quantum_set (index_within l.count i j) l }
{
    let right = limits::index_within(s.count, i, j);
    set_lists::quantum_answer(s, right)?;
    Ok(set_lists::quantum_set(s))
}

#[inline(always)]
fn radii(s: &QuantumSet, i: usize, j: usize, temperature: f64) -> Result<PairSearches, Refusal>
    ensures { searches_answer result ≡ radii_asked (quantum_lists s.now) i j temperature }
{
    let set = pair_set(s, i, j)?;
    saftvrqmie::radii_ij(set, i, j, temperature)
}

// One pair's three searches: radius and last potential of sigma, zero, depth; their counts. 1, 4, then 2, 6.
pub fn domthelv_vrq_radii(
    count: usize,
    m: &[f64],
    sheets: &[f64],
    orders: &[u8],
    i: usize,
    j: usize,
    temperature: f64,
    out: &mut [f64],
    counts: &mut [u8],
) -> u8
    ensures { let s : QuantumLists = record { count = count; m = m.now; sheets = sheets.now; orders = orders.now } in
        let l : Lent = record { values = out.old; numbers = counts.old } in
        let q = vrq_radii s i j temperature l in
        (result ≡ status q) × (out.new ≡ (stored l q).values) × (counts.new ≡ (stored l q).numbers) }
{
    if !radii_lengths(out, counts) {
        return Refusal::Length.code();
    }
    let lent = QuantumSet {
        count,
        m,
        sheets,
        orders,
    };
    match radii(&lent, i, j, temperature) {
        Err(r) => r.code(),
        Ok(p) => {
            write_searches(p, out, counts);
            0
        }
    }
}

pub fn energies_list(e: QuantumEnergies) -> [f64; 3]
    ensures { (length result ≡ 3) × ((l : List Float) → length l ≡ 3 → energies_written (energies_in e) l ≡ result) }
{
    [e.hard_sphere, e.dispersion, e.non_additive]
}

// A set as the energies' calls take it: its short lists are read, and its sheets stay where they lie, since a set of references to a copy would keep the copy.
#[derive(Clone, Copy)]
pub struct LentSet<'a> {
    pub count: usize,
    pub m: [f64; SIDE],
    pub sheets: &'a [f64; SHEETS],
    pub orders: [OrderRecord; SHEET],
}

impl<'a> LentSet<'a> {
    #[inline(always)]
    pub fn parts(&'a self) -> Set<'a>
        ensures { set_of result ≡ lent_read self.now }
    {
        Set {
            count: self.count,
            m: &self.m,
            sheets: self.sheets,
            orders: &self.orders,
        }
    }
}

// The set that energies are asked of. 1, 4.
#[inline(always)]
pub fn lent_set<'a>(s: &QuantumSet<'a>, q: &StateLists) -> Result<LentSet<'a>, Refusal>
    ensures { let l = quantum_lists s.now in answer_by lent_read result ≡ quantum_set (state_lengths l.count q.now.fractions.now q.now.densities.now q.now.table.now) l }
{
    let right = saftvrqmie_energies::right_lengths(s.count, q.fractions, q.densities, q.table);
    set_lists::quantum_answer(s, right)?;
    let sheets = <&[f64; SHEETS]>::try_from(s.sheets).map_err(|_| Refusal::Length)?;
    Ok(LentSet {
        count: s.count,
        m: set_lists::places(s.m, 0),
        sheets,
        orders: set_lists::order_records(s.orders),
    })
}

// The energies of a set that crosses as its lists. 1, 4, then 2, 6, 7.
#[inline(always)]
fn energies(s: &QuantumSet, q: &StateLists) -> Result<QuantumEnergies, Refusal>
    ensures { energies_answer result ≡ energies_asked (quantum_lists s.now) q.now.temperature q.now.fractions.now q.now.densities.now q.now.table.now q.now.non_additive }
{
    let lent = lent_set(s, q)?;
    saftvrqmie_energies::energies_of(&lent.parts(), q)
}

// Quantum energies: hard sphere, dispersion, non-additive (+0 where not wanted). 1, 4, then 2, 6, 7.
pub fn domthelv_vrq_energies(
    count: usize,
    m: &[f64],
    sheets: &[f64],
    orders: &[u8],
    temperature: f64,
    fractions: &[f64],
    densities: &[f64],
    table: &[f64],
    non_additive: bool,
    out: &mut [f64],
) -> u8
    ensures { let s : QuantumLists = record { count = count; m = m.now; sheets = sheets.now; orders = orders.now } in
        let q = vrq_energies s temperature fractions.now densities.now table.now non_additive out.old in
        (result ≡ status q) × (out.new ≡ stored out.old q) }
{
    if out.len() != 3 {
        return Refusal::Length.code();
    }
    let lent = QuantumSet {
        count,
        m,
        sheets,
        orders,
    };
    let state = StateLists {
        temperature,
        fractions,
        densities,
        table,
        non_additive,
    };
    deliver_list(energies(&lent, &state).map(energies_list), out)
}

fn total_list(w: QuantumTotal) -> [f64; 4]
    ensures { (length result ≡ 4) × ((l : List Float) → length l ≡ 4 → total_written w l ≡ result) }
{
    let first = w.first;
    let last = w.last;
    [first.sum, first.remainder, last.sum, last.remainder]
}

// Their total. 1, 4, then 2, 6, 7.
#[inline(always)]
fn total(s: &QuantumSet, q: &StateLists) -> Result<QuantumTotal, Refusal>
    ensures { answer result ≡ total_asked (quantum_lists s.now) q.now.temperature q.now.fractions.now q.now.densities.now q.now.table.now q.now.non_additive }
{
    let e = energies(s, q)?;
    saftvrqmie_total::contributions_total(e, q.non_additive)
}

// Quantum energies as one number: the sum of hard sphere and dispersion and its remainder, then that sum with the non-additive part and its remainder (where not wanted, the first sum again and +0). 1, 4, then 2, 6, 7.
pub fn domthelv_vrq_total(
    count: usize,
    m: &[f64],
    sheets: &[f64],
    orders: &[u8],
    temperature: f64,
    fractions: &[f64],
    densities: &[f64],
    table: &[f64],
    non_additive: bool,
    out: &mut [f64],
) -> u8
    ensures { let s : QuantumLists = record { count = count; m = m.now; sheets = sheets.now; orders = orders.now } in
        let q = vrq_total s temperature fractions.now densities.now table.now non_additive out.old in
        (result ≡ status q) × (out.new ≡ stored out.old q) }
{
    if out.len() != 4 {
        return Refusal::Length.code();
    }
    let lent = QuantumSet {
        count,
        m,
        sheets,
        orders,
    };
    let state = StateLists {
        temperature,
        fractions,
        densities,
        table,
        non_additive,
    };
    deliver_list(total(&lent, &state).map(total_list), out)
}

#[inline(always)]
fn diameter(
    s: &QuantumSet,
    i: usize,
    j: usize,
    temperature: f64,
    sigma_eff: f64,
    r0: f64,
) -> Result<f64, Refusal>
    ensures { answer result ≡ vrq_diameter (quantum_lists s.now) i j temperature sigma_eff r0 }
{
    let set = pair_set(s, i, j)?;
    saftvrqmie::hs_diameter_ij(set, i, j, temperature, sigma_eff, r0)
}

// A pair's diameter from its searched radii. 1, 4, then 2, 6, 7.
pub fn domthelv_vrq_diameter(
    count: usize,
    m: &[f64],
    sheets: &[f64],
    orders: &[u8],
    i: usize,
    j: usize,
    temperature: f64,
    sigma_eff: f64,
    r0: f64,
    out: &mut f64,
) -> u8
    ensures { let s : QuantumLists = record { count = count; m = m.now; sheets = sheets.now; orders = orders.now } in
        let q = vrq_diameter s i j temperature sigma_eff r0 in
        (result ≡ status q) × (out.new ≡ stored out.old q) }
{
    let lent = QuantumSet {
        count,
        m,
        sheets,
        orders,
    };
    deliver(diameter(&lent, i, j, temperature, sigma_eff, r0), out)
}

// From component lists to energies, with a table of its own. 1 for `out`, then the parameters' refusals, the table's, the energies'.
pub fn domthelv_vrq_stage(
    count: usize,
    m: &[f64],
    sigma: &[f64],
    epsilon_k: &[f64],
    lr: &[f64],
    la: &[f64],
    mass: &[f64],
    order: &[u8],
    k_ij: &[f64],
    l_ij: &[f64],
    temperature: f64,
    fractions: &[f64],
    densities: &[f64],
    non_additive: bool,
    out: &mut [f64],
) -> u8
    ensures { let x : Quantum.Lists =
        record {
          count = count;
          m = m.now;
          sigma = sigma.now;
          epsilon_k = epsilon_k.now;
          lr = lr.now;
          la = la.now;
          mass = mass.now;
          fh = order.now;
          k_ij = k_ij.now;
          l_ij = l_ij.now;
        } in
        let q = vrq_stage x temperature fractions.now densities.now non_additive out.old in
        (result ≡ status q) × (out.new ≡ stored out.old q) }
{
    if out.len() != 3 {
        return Refusal::Length.code();
    }
    let lists = ComponentLists {
        count,
        m,
        sigma,
        epsilon_k,
        lr,
        la,
        mass,
        fh: order,
        k_ij,
        l_ij,
    };
    let worked = stages::quantum_stage(&lists, temperature, fractions, densities, non_additive);
    deliver_list(worked.map(energies_list), out)
}
