// A set as it crosses the C boundary, as its count and lists: the tests for 1 and 4, the set that the lists hold, and a set written into them.
// n ≤ side and i < n stand plain: each bounds one number, and a name for it would be no shorter.
#![tactic(auto)]

mod written;

ghost use Rattle.std.specs.Prelude.{◌≡◌, true, ◌+◌, ◌*◌, ◌<◌, ◌≤◌, length};
ghost use Rattle.sizes.specs.Sizes.{side, sheet};
ghost use Rattle.mie_parameters.specs.Answer.{outcome, verdict};
ghost use Rattle.set_lists.specs.Sets.{taken, row_within, orders_within, orders_read, quantum_lists, quantum_lengths, quantum_read, quantum_set, mie_lists, mie_lengths, mie_read};

pub use crate::written::{write_mie, write_quantum};
use number::Refusal;
use saftvrmie_parameters::SaftVRMiePars;
use saftvrqmie_parameters::{FeynmanHibbsOrder, OrderRecord, SaftVRQMiePars};
use sizes::mie_lists::{EPSILON_K, LA, LR, M, SIGMA};
use sizes::{LISTS, SHEET, SHEETS, SIDE};
use std::array;

// A quantum set as it crosses the C boundary. The lists have as many places for every set; the count, which says how many are in use, is the call's own, and 1 tests it.
#[derive(Clone, Copy)]
pub struct QuantumSet<'a> {
    pub count: usize,
    pub m: &'a [f64],
    pub sheets: &'a [f64],
    pub orders: &'a [u8],
}

// A set of SAFT-VR Mie as it crosses the C boundary, whose component lists are one, one behind the other. The count stands beside them for the reason given at `QuantumSet`: each list has as many places for every set, and the C interface hands the count on its own.
#[derive(Clone, Copy)]
pub struct MieSet<'a> {
    pub count: usize,
    pub lists: &'a [f64],
    pub sheets: &'a [f64],
}

// A side of places of a list, which has them.
pub fn places(list: &[f64], from: usize) -> [f64; SIDE]
    requires { from + side ≤ length list.now }
    ensures { result ≡ taken side list.now from }
{
    let mut read = [0.0; SIDE];
    read.copy_from_slice(&list[from..from + SIDE]);
    read
}

// The six sheets of a set from a list of their length: a whole list, so that a caller names no part.
pub fn flat(sheets: &[f64]) -> [f64; SHEETS]
    requires { length sheets.now ≡ 6 * sheet }
    ensures { result ≡ taken (6 * sheet) sheets.now 0 }
{
    let mut read = [0.0; SHEETS];
    read.copy_from_slice(sheets);
    read
}

// The length stands in each clause, here and below: the lists are the C call's, whose lengths quantum_lengths tests.
fn row_within(n: usize, l: &[u8], i: usize) -> bool
    requires { (n ≤ side) × (i < n) × (length l.now ≡ sheet) }
    ensures { result ≡ row_within n l.now i }
{
    let from = SIDE * i;
    l[from..from + n].iter().all(|byte| *byte <= 2)
}

fn orders_within(n: usize, l: &[u8]) -> bool
    requires { (n ≤ side) × (length l.now ≡ sheet) }
    ensures { result ≡ orders_within n l.now }
{
    (0..n).all(|i| row_within(n, l, i))
}

// Orders from the bytes of a sheet. 4 tests the bytes of pairs in use alone, and here each byte has an order: above 2 the second, as `From` gives it.
pub fn order_records(l: &[u8]) -> [OrderRecord; SHEET]
    requires { length l.now ≡ sheet }
    ensures { result ≡ orders_read l.now }
{
    array::from_fn(|e| OrderRecord {
        order: FeynmanHibbsOrder::from(l[e]),
    })
}

pub fn quantum_lengths(m: &[f64], sheets: &[f64], orders: &[u8]) -> bool
    ensures { result ≡ quantum_lengths m.now sheets.now orders.now }
{
    (m.len() == SIDE) & (sheets.len() == SHEETS) & (orders.len() == SHEET)
}

// Whether a quantum set can be read: 1 where it cannot or the rest of the call is not `right`, then 4.
pub fn quantum_answer(s: &QuantumSet, right: bool) -> Result<(), Refusal>
    ensures { outcome result true ≡ verdict (quantum_set right (quantum_lists s.now)) }
{
    if !limits::count_within(s.count) {
        return Err(Refusal::Length);
    }
    if !quantum_lengths(s.m, s.sheets, s.orders) {
        return Err(Refusal::Length);
    }
    if !right {
        return Err(Refusal::Length);
    }
    if !orders_within(s.count, s.orders) {
        return Err(Refusal::Order);
    }
    Ok(())
}

// The quantum set of lists whose lengths were tested. Its callers ask quantum_answer in a line of their own: one function for both would hand the set on through one Result more, and a set that is handed on is copied.
pub fn quantum_set(s: &QuantumSet) -> SaftVRQMiePars
    requires { quantum_lengths s.now.m.now s.now.sheets.now s.now.orders.now ≡ true }
    ensures { result ≡ quantum_read (quantum_lists s.now) }
{
    let m = places(s.m, 0);
    let sheets = flat(s.sheets);
    let orders = order_records(s.orders);
    SaftVRQMiePars {
        count: s.count,
        m,
        sheets,
        orders,
    }
}

pub fn mie_lengths(lists: &[f64], sheets: &[f64]) -> bool
    ensures { result ≡ mie_lengths lists.now sheets.now }
{
    (lists.len() == LISTS) & (sheets.len() == SHEETS)
}

// The set of SAFT-VR Mie of lists whose lengths were tested.
pub fn mie_set(s: &MieSet) -> SaftVRMiePars
    requires { mie_lengths s.now.lists.now s.now.sheets.now ≡ true }
    ensures { result ≡ mie_read (mie_lists s.now) }
{
    let m = places(s.lists, M);
    let sigma = places(s.lists, SIGMA);
    let epsilon_k = places(s.lists, EPSILON_K);
    let lr = places(s.lists, LR);
    let la = places(s.lists, LA);
    let sheets = flat(s.sheets);
    SaftVRMiePars {
        count: s.count,
        m,
        sigma,
        epsilon_k,
        lr,
        la,
        sheets,
    }
}
