// A place of the desk: a query comes in, a pair is read and stored where it lies, the energies are worked from the whole table.
// Its floats and bytes are two lists, as the desk's are at the C boundary. A struct of both would be no plainer: of one that holds a `&mut`, clauses say what is left as `p.exit.0.now` and `p.exit.1.0.now`.
// Casts narrow, and are proved to lose no digit: TryFrom would answer a refusal that cannot come.
// n ≤ side and e < sheet stand plain: each bounds one number, and a name for it would be no shorter.
#![tactic(auto)]

ghost use Rattle.std.specs.Prelude.{◌≡◌, ◌++◌, [], ◌+◌, ◌*◌, ◌<◌, ◌≤◌, length, get_or, drop};
ghost use Rattle.number.specs.Lists.{at};
ghost use Rattle.sizes.specs.Sizes.{side, sheet};
ghost use Rattle.set_lists.specs.Sets.{QuantumLists, quantum_lengths};
ghost use Rattle.saftvrqmie_potential.specs.Potential.{pair_at_entry};
ghost use Rattle.saftvrqmie_properties.specs.Properties.{pair_properties_in};
ghost use Rattle.saftvrqmie.specs.Table.{store};
ghost use Rattle.saftvrqmie_energies.specs.Energies.{energies_answer};
ghost use Rattle.desk_place.specs.Layout.{Lists, place_floats, place_bytes, Waits, Waiting, Has, set_of, temperature_of, waits_in};
ghost use Rattle.desk_place.specs.Place.{floats_entered, bytes_entered, answer_of, settled, unit, place_left, step_told, unit_answer};

pub mod hand;
pub mod layout;

use crate::hand::InHand;
use crate::layout::{
    C_AT, COLUMN_AT, COUNT_AT, DENSITIES_AT, EPSILON_K_AT, FRACTIONS_AT, LAMBDA_A_AT, LAMBDA_R_AT,
    M_AT, MASS_AT, ORDERS_AT, PLACE_BYTES, PLACE_FLOATS, ROW_AT, SHEETS_AT, TABLE_AT,
    TEMPERATURE_AT, WANTED_AT,
};
use number::Refusal;
use saftvrqmie_energies::{QuantumEnergies, Set, StateLists};
use saftvrqmie_parameters::FeynmanHibbsOrder;
use saftvrqmie_potential::{FloatPair, Pair};
use saftvrqmie_properties::FloatProperties;
use sizes::SIDE;
use sizes::table::{EPSILON_K_EFF, HS_DIAMETER, QUANTUM_D};

// The places within the lists that `requires` asks for, here and below: the desk has tested its lists' lengths and a query's, once a call.
pub fn byte_at(bytes: &[u8], k: usize) -> usize
    requires { k < length bytes.now }
    ensures { result ≡ get_or bytes.now k 0 }
{
    usize::from(bytes[k])
}

// A list over the first places of a part.
pub fn lay<T: Copy>(part: &mut [T], x: &[T])
    requires { length x.now ≤ length part.old }
    ensures { part.new ≡ x.now ++ drop (length x.now) part.old }
{
    let n = x.len();
    // By index: a copy of the library's over a length that is not known asks for memmove from outside the archive.
    for k in 0usize..n {
        part[k] = x[k];
    }
}

// The pair in hand, at entry e of the sheets where they lie.
fn pair_here(floats: &[f64], bytes: &[u8], e: usize) -> FloatPair
    requires { (length floats.now ≡ place_floats) × (length bytes.now ≡ place_bytes) × (e < sheet) }
    ensures { let p : Lists = record { floats = floats.entry.now; bytes = bytes.now } in
        result ≡ pair_at_entry (set_of p).sheets (set_of p).orders (temperature_of p) e }
{
    let order = FeynmanHibbsOrder::from(bytes[ORDERS_AT + e]);
    Pair {
        sigma: floats[SHEETS_AT + e],
        epsilon_k: floats[EPSILON_K_AT + e],
        c: floats[C_AT + e],
        lr: floats[LAMBDA_R_AT + e],
        la: floats[LAMBDA_A_AT + e],
        mass: floats[MASS_AT + e],
        order,
        temperature: floats[TEMPERATURE_AT],
    }
}

// A pair's four numbers into the table, as saftvrqmie's Room stores them beside counts and the table with slopes twice: a function of all would be handed the four by name, in as many lines.
fn store(table: &mut [f64], e: usize, p: FloatProperties)
    requires { (length table.old ≡ 4 * sheet) × (e < sheet) }
    ensures { table.new ≡ (store (record { values = table.old; numbers = [] }) e (pair_properties_in p)).values }
{
    table[e] = p.sigma_eff;
    table[HS_DIAMETER + e] = p.hs_diameter;
    table[EPSILON_K_EFF + e] = p.epsilon_k_eff;
    table[QUANTUM_D + e] = p.quantum_d;
}

// The energies of the whole table, as the direct call works them.
fn answer(floats: &[f64], bytes: &[u8], hand: InHand) -> Result<QuantumEnergies, Refusal>
    requires { (length floats.now ≡ place_floats) × Has bytes.now hand }
    ensures { energies_answer result ≡ answer_of (record { floats = floats.entry.now; bytes = bytes.now }) }
{
    let table = &floats[TABLE_AT..PLACE_FLOATS];
    if !saftvrqmie::all_finite(table) {
        return Err(Refusal::NotFinite);
    }
    let n = hand.count;
    let wanted = byte_at(bytes, WANTED_AT) != 0;
    let m = set_lists::places(&floats[M_AT..FRACTIONS_AT], 0);
    let sheets = set_lists::flat(&floats[SHEETS_AT..TABLE_AT]);
    let orders = set_lists::order_records(&bytes[ORDERS_AT..PLACE_BYTES]);
    let x = &floats[FRACTIONS_AT..FRACTIONS_AT + n];
    let rho = &floats[DENSITIES_AT..DENSITIES_AT + n];
    let set = Set {
        count: n,
        m: &m,
        sheets: &sheets,
        orders: &orders,
    };
    let state = StateLists {
        temperature: floats[TEMPERATURE_AT],
        fractions: x,
        densities: rho,
        table,
        non_additive: wanted,
    };
    saftvrqmie_energies::energies_of(&set, &state)
}

// With a pair stored: the next pair comes in hand, of this row or the first of the next; after the last one the energies are worked and the place is freed. None: the query goes on.
fn settle(
    floats: &[f64],
    bytes: &mut [u8],
    hand: InHand,
) -> Option<Result<QuantumEnergies, Refusal>>
    requires { (length floats.now ≡ place_floats) × Has bytes.old hand }
    ensures { let s = settled (record { floats = floats.entry.now; bytes = bytes.old }) in
        (unit_answer result ≡ step_told s) × (record { floats = floats.entry.now; bytes = bytes.new } ≡ place_left s) }
{
    if hand.column + 1 < hand.count {
        bytes[COLUMN_AT] = (hand.column + 1) as u8;
        return None;
    }
    if hand.row + 1 < hand.count {
        bytes[ROW_AT] = (hand.row + 1) as u8;
        bytes[COLUMN_AT] = 0;
        return None;
    }
    let worked = answer(floats, bytes, hand);
    bytes[COUNT_AT] = 0;
    Some(worked)
}

fn in_hand(bytes: &[u8]) -> InHand
    requires { Waits bytes.now }
    ensures { Has bytes.now result }
{
    InHand {
        count: byte_at(bytes, COUNT_AT),
        row: byte_at(bytes, ROW_AT),
        column: byte_at(bytes, COLUMN_AT),
    }
}

// One unit of the query in a place: the pair in hand, and after the last one the energies. A 6 ends it here, a 7 at the last. None: the query goes on.
pub fn unit(floats: &mut [f64], bytes: &mut [u8]) -> Option<Result<QuantumEnergies, Refusal>>
    requires { Waiting floats.old bytes.old }
    ensures { let s = unit (record { floats = floats.entry.now; bytes = bytes.old }) in
        (unit_answer result ≡ step_told s) × (record { floats = floats.exit.now; bytes = bytes.new } ≡ place_left s) }
{
    let hand = in_hand(bytes);
    let e = SIDE * hand.row + hand.column;
    let pair = pair_here(floats, bytes, e);
    match saftvrqmie_properties::pair_properties(pair) {
        Err(r) => {
            bytes[COUNT_AT] = 0;
            Some(Err(r))
        }
        Ok(w) => {
            store(&mut floats[TABLE_AT..PLACE_FLOATS], e, w);
            settle(floats, bytes, hand)
        }
    }
}

// Whether a place has a query waiting. Its three bytes are read again: in_hand's struct says that they are within, which is asked here.
pub fn waits(bytes: &[u8]) -> bool
    requires { length bytes.now ≡ place_bytes }
    ensures { result ≡ waits_in bytes.now }
{
    let n = byte_at(bytes, COUNT_AT);
    let i = byte_at(bytes, ROW_AT);
    let j = byte_at(bytes, COLUMN_AT);
    limits::index_within(n, i, j)
}

// A query's floats over its place, with a blank table.
pub fn enter_floats(
    floats: &mut [f64],
    m: &[f64],
    sheets: &[f64],
    temperature: f64,
    fractions: &[f64],
    densities: &[f64],
)
    requires { (length floats.old ≡ place_floats) × (length m.now ≡ side) × (length sheets.now ≡ 6 * sheet) × (length fractions.now ≤ side) × (length densities.now ≤ side) }
    ensures { floats.new ≡ floats_entered m.now sheets.now temperature fractions.now densities.now floats.old }
{
    floats[TEMPERATURE_AT] = temperature;
    lay(&mut floats[M_AT..FRACTIONS_AT], m);
    lay(&mut floats[FRACTIONS_AT..DENSITIES_AT], fractions);
    lay(&mut floats[DENSITIES_AT..SHEETS_AT], densities);
    lay(&mut floats[SHEETS_AT..TABLE_AT], sheets);
    floats[TABLE_AT..PLACE_FLOATS].fill(0.0);
}

// Its orders, its count, the first pair in hand, and what is wanted.
pub fn enter_bytes(bytes: &mut [u8], count: usize, orders: &[u8], wanted: bool)
    requires { (length bytes.old ≡ place_bytes) × (length orders.now ≡ sheet) × (count ≤ side) }
    ensures { bytes.new ≡ bytes_entered count orders.now wanted bytes.old }
{
    bytes[COUNT_AT] = count as u8;
    bytes[ROW_AT] = 0;
    bytes[COLUMN_AT] = 0;
    bytes[WANTED_AT] = u8::from(wanted);
    lay(&mut bytes[ORDERS_AT..PLACE_BYTES], orders);
}
