// Operations of SAFT-VRQ Mie on a set: the temperature table (saftvrqmie/eos/mod.rs), and a pair's searches and diameter.
// Operations on a pair take its indexes and the temperature one by one, as the Rust's: pair_asked and pair_at read them once.
#![tactic(auto)]

mod walk;

ghost use Rattle.std.specs.Prelude.{true, ◌≡◌, ◌+◌, ◌*◌, ◌<◌, ◌≤◌, Float, length, take, drop};
ghost use Rattle.number.specs.Answer.{answer};
ghost use Rattle.number.specs.Arith.{floats};
ghost use Rattle.number.specs.Functions.{calls};
ghost use Rattle.sizes.specs.Sizes.{sheet};
ghost use Rattle.elementary.specs.Port.{port};
ghost use Rattle.mie_parameters.specs.Answer.{outcome, verdict, stored};
ghost use Rattle.saftvrqmie_potential.specs.Potential.{pair_in};
ghost use Rattle.saftvrqmie_properties.specs.Properties.{pair_properties_in, pair_properties};
ghost use Rattle.saftvrqmie.specs.Laws.{float_properties};
ghost use Rattle.saftvrqmie.specs.Table.{Lent, lent_of, store, table_finite, right_lists, temperature_table, pairs_of};
ghost use Rattle.saftvrqmie.specs.Pairs.{searches_answer, pair_searches, radii_ij, diameter_ij};

use number::Refusal;
use saftvrqmie_parameters::SaftVRQMiePars;
use saftvrqmie_potential::FloatPair;
use saftvrqmie_properties::FloatProperties;
use saftvrqmie_searches::FloatSearch;
use sizes::counts::{DEPTH, SIGMA, ZERO};
use sizes::table::{EPSILON_K_EFF, HS_DIAMETER, QUANTUM_D, SIGMA_EFF};
use sizes::{COUNTS, SHEET, SIDE, TABLE};
pub use walk::{PairStore, PairsAt, work_pairs};

// What the three searches of a pair give, each with its count. Values and counts apart: C's two lists take them so.
#[derive(Clone, Copy)]
pub struct PairSearches {
    pub sigma: FloatSearch,
    pub zero: FloatSearch,
    pub depth: FloatSearch,
    pub sigma_count: u8,
    pub zero_count: u8,
    pub depth_count: u8,
}

// The two lists that a table is made in.
#[derive(Drop)]
struct Room {
    values: [f64; TABLE],
    numbers: [u8; COUNTS],
}

impl PairStore for Room {
    type Num = f64;

    ghost kept = { record { Num = Float; Lists = Lent; stored = store } };

    ghost lists = { lent_of };

    ghost read = { λ x. x };

    ghost properties = { λ p. pair_properties floats (calls floats port) (pair_in p) };

    ghost properties_law = { float_properties };

    fn store(&mut self, e: usize, p: FloatProperties)
        requires { e < sheet }
        ensures { lent_of self.new ≡ store (lent_of self.old) e (pair_properties_in p) }
    {
        self.values[e] = p.sigma_eff;
        self.values[HS_DIAMETER + e] = p.hs_diameter;
        self.values[EPSILON_K_EFF + e] = p.epsilon_k_eff;
        self.values[QUANTUM_D + e] = p.quantum_d;
        self.numbers[e] = p.sigma_count;
        self.numbers[ZERO + e] = p.zero_count;
        self.numbers[DEPTH + e] = p.depth_count;
    }
}

// Of a list of the table's length; others are walked whole too. In the words of the definition that the clauses of three crates have: each would unfold it for the limits' test.
pub fn all_finite(values: &[f64]) -> bool
    ensures { length values.now ≡ 4 * sheet → result ≡ table_finite values.now }
{
    limits::all_finite(values)
}

// A sheet of the values, or of the counts, into its own part of the lent list.
fn write_sheet<T: Copy>(part: &mut [T], values: &[T], from: usize)
    requires { (length part.old ≡ sheet) × (from + sheet ≤ length values.now) }
    ensures { part.new ≡ take sheet (drop from values.now) }
{
    part.copy_from_slice(&values[from..from + SHEET]);
}

// Each sheet through its own part of the lent list.
fn write_table(table: &mut [f64], values: &[f64; TABLE])
    requires { length table.old ≡ 4 * sheet }
    ensures { table.new ≡ values.now }
{
    write_sheet(&mut table[SIGMA_EFF..HS_DIAMETER], values, SIGMA_EFF);
    write_sheet(&mut table[HS_DIAMETER..EPSILON_K_EFF], values, HS_DIAMETER);
    write_sheet(&mut table[EPSILON_K_EFF..QUANTUM_D], values, EPSILON_K_EFF);
    write_sheet(&mut table[QUANTUM_D..TABLE], values, QUANTUM_D);
}

fn write_numbers(counts: &mut [u8], numbers: &[u8; COUNTS])
    requires { length counts.old ≡ 3 * sheet }
    ensures { counts.new ≡ numbers.now }
{
    write_sheet(&mut counts[SIGMA..ZERO], numbers, SIGMA);
    write_sheet(&mut counts[ZERO..DEPTH], numbers, ZERO);
    write_sheet(&mut counts[DEPTH..COUNTS], numbers, DEPTH);
}

// 1: the count, and the length of each lent list.
pub fn right_lists(n: usize, a: usize, b: usize) -> bool
    ensures { result ≡ right_lists n a b }
{
    limits::count_within(n) & (a == TABLE) & (b == COUNTS)
}

// The table of a set's pairs: it reads no m. 1, 2, 6, 7.
pub fn table_of(p: &PairsAt<f64>, table: &mut [f64], counts: &mut [u8]) -> Result<(), Refusal>
    ensures { let set = pairs_of p.now.n p.now.sheets.now p.now.orders in
        let l : Lent = record { values = table.old; numbers = counts.old } in
        let q = temperature_table set p.now.temperature l in
        (outcome result true ≡ verdict q) × (table.new ≡ (stored l q).values) × (counts.new ≡ (stored l q).numbers) }
{
    if !right_lists(p.n, table.len(), counts.len()) {
        return Err(Refusal::Length);
    }
    if !limits::temperature_within(p.temperature) {
        return Err(Refusal::Limit);
    }
    let mut room = Room {
        values: [0.0; TABLE],
        numbers: [0; COUNTS],
    };
    work_pairs(p, &mut room)?;
    if !all_finite(&room.values) {
        return Err(Refusal::NotFinite);
    }
    write_table(table, &room.values);
    write_numbers(counts, &room.numbers);
    Ok(())
}

// The temperature table of a set and the counts of its searches. 1, 2, 6, 7.
pub fn temperature_dependent_properties(
    set: SaftVRQMiePars,
    temperature: f64,
    table: &mut [f64],
    counts: &mut [u8],
) -> Result<(), Refusal>
    ensures { let l : Lent = record { values = table.old; numbers = counts.old } in
        let q = temperature_table set temperature l in
        (outcome result true ≡ verdict q) × (table.new ≡ (stored l q).values) × (counts.new ≡ (stored l q).numbers) }
{
    let pairs = PairsAt {
        n: set.count,
        sheets: &set.sheets,
        orders: set.orders,
        temperature,
    };
    table_of(&pairs, table, counts)
}

fn pair_searches(pair: FloatPair) -> Result<PairSearches, Refusal>
    ensures { searches_answer result ≡ pair_searches floats (calls floats port) (pair_in pair) }
{
    let (sigma, sigma_count) = saftvrqmie_searches::calc_sigma_eff(pair)?;
    let sigma_eff = saftvrqmie_properties::radius(sigma);
    let (zero, zero_count) = saftvrqmie_searches::zero_integrand(pair, sigma_eff)?;
    let (depth, depth_count) = saftvrqmie_searches::calc_epsilon_k_eff(pair)?;
    Ok(PairSearches {
        sigma,
        zero,
        depth,
        sigma_count,
        zero_count,
        depth_count,
    })
}

// The three radius searches of the pair (i, j). 1, 2, 6.
pub fn radii_ij(
    set: SaftVRQMiePars,
    i: usize,
    j: usize,
    temperature: f64,
) -> Result<PairSearches, Refusal>
    ensures { searches_answer result ≡ radii_ij set i j temperature }
{
    limits::pair_asked(set.count, i, j, temperature)?;
    let sheets = set.sheets;
    let orders = set.orders;
    let pair = saftvrqmie_potential::pair_at(&sheets, orders, temperature, SIDE * i + j);
    pair_searches(pair)
}

// `hs_diameter_ij`: the diameter of the pair (i, j) from its searched radii. 1, 2, 6, 7.
pub fn hs_diameter_ij(
    set: SaftVRQMiePars,
    i: usize,
    j: usize,
    temperature: f64,
    sigma_eff: f64,
    r0: f64,
) -> Result<f64, Refusal>
    ensures { answer result ≡ diameter_ij set i j temperature sigma_eff r0 }
{
    limits::pair_asked(set.count, i, j, temperature)?;
    let sheets = set.sheets;
    let orders = set.orders;
    let pair = saftvrqmie_potential::pair_at(&sheets, orders, temperature, SIDE * i + j);
    let d = saftvrqmie_searches::hs_diameter(pair, sigma_eff, r0)?;
    number::if_finite(d)
}
