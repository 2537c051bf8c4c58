// One desk for quantum queries over two lent lists: begin, submit, serve. Any two lists are taken, and nothing outside them is touched.
// The lists stay two here, in desk_place, which says why, and in desk_calls. Casts narrow, and are proved to lose no digit: TryFrom would answer a refusal that cannot come.
#![tactic(auto)]

ghost use Rattle.std.specs.Prelude.{ℕ, Bool, ◌≡◌, true, ◌+◌, ◌*◌, ◌<◌, ◌≤◌, length};
ghost use Rattle.sizes.specs.Sizes.{side};
ghost use Rattle.set_lists.specs.Sets.{quantum_lengths};
ghost use Rattle.mie_parameters.specs.Answer.{outcome, verdict, stored};
ghost use Rattle.number.specs.Answer.{answer};
ghost use Rattle.round_robin.specs.Desk.{places, seek, leaves};
ghost use Rattle.desk_place.specs.Layout.{Lists, place_floats};
ghost use Rattle.desk_place.specs.Place.{enter, unit};
ghost use Rattle.desk.specs.Desk.{query_of, occupied_in, shelf, quantum, place_of, placed, right_desk, state_lengths, door, begun, submitted, served_once, served_told, found, desk_answer, told_of, desk_of, place_told, entered_of, last_at};

use desk_place::layout::{PLACE_BYTES, PLACE_FLOATS};
use number::Refusal;
use round_robin::PLACES;
use saftvrqmie_energies::QuantumEnergies;
use set_lists::QuantumSet;

// The places one behind the other, and behind the bytes the place served last.
pub const FLOATS: usize = PLACE_FLOATS * PLACES;

pub const LAST_AT: usize = PLACE_BYTES * PLACES;

pub const BYTES: usize = LAST_AT + 1;

// What a call of `serve` tells.
#[derive(Clone, Copy)]
pub enum Served {
    Idle,
    Worked,
    Finished(usize, Result<QuantumEnergies, Refusal>),
}

// A query as it comes in.
#[derive(Clone, Copy)]
pub struct DeskQuery<'a> {
    pub lists: QuantumSet<'a>,
    pub temperature: f64,
    pub fractions: &'a [f64],
    pub densities: &'a [f64],
    pub non_additive: bool,
}

fn right_desk(a: usize, b: usize) -> bool
    ensures { result ≡ right_desk a b }
{
    (a == FLOATS) & (b == BYTES)
}

fn occupied(bytes: &[u8], k: usize) -> bool
    requires { (length bytes.now ≡ last_at + 1) × (k < places) }
    ensures { result ≡ occupied_in bytes.now k }
{
    let from = PLACE_BYTES * k;
    let to = from + PLACE_BYTES;
    desk_place::waits(&bytes[from..to])
}

// The first place from `from` on, round the desk, that suits.
fn seek<F: Fn(usize) -> bool>(suits: F, from: usize) -> Option<usize>
    requires start { from < places }
    requires suits { (k : ℕ) → k < places → F.pre suits k }
    ensures { (test : ℕ → Bool) → ((k : ℕ) (b : Bool) → k < places → F.post suits k b → b ≡ test k) → result ≡ found (seek places test from) }
{
    (from..PLACES).chain(0..from).find(
        |k| -> bool
            requires { F.pre suits k.now }
            ensures { F.post suits k.now result }
        { suits(*k) },
    )
}

// A desk with no query, whose first place is served first. 1 for a list of another length.
pub fn begin(floats: &mut [f64], bytes: &mut [u8]) -> Result<(), Refusal>
    ensures { let l : Lists = record { floats = floats.entry.now; bytes = bytes.old } in
        (outcome result true ≡ verdict (begun l)) × (record { floats = floats.exit.now; bytes = bytes.new } ≡ stored l (begun l)) }
{
    if !right_desk(floats.len(), bytes.len()) {
        return Err(Refusal::Length);
    }
    bytes.fill(0);
    bytes[LAST_AT] = (PLACES - 1) as u8;
    Ok(())
}

// The lengths of the desk's 1: the direct call's has the table's too.
fn right_state(n: usize, fractions: &[f64], densities: &[f64]) -> bool
    ensures { result ≡ state_lengths n fractions.now densities.now }
{
    (fractions.len() == n) & (densities.len() == n)
}

// Whether a query may come in: all that is 1, then 4, then all that is 2.
fn door(q: &DeskQuery) -> Result<(), Refusal>
    ensures { outcome result true ≡ verdict (door (query_of q.now)) }
{
    let n = q.lists.count;
    let right = right_state(n, q.fractions, q.densities);
    set_lists::quantum_answer(&q.lists, right)?;
    if !limits::state_within(n, q.temperature, q.fractions, q.densities) {
        return Err(Refusal::Limit);
    }
    Ok(())
}

// A query into place k.
fn enter(floats: &mut [f64], bytes: &mut [u8], k: usize, q: &DeskQuery)
    requires { let x = query_of q.now in
        (length floats.old ≡ place_floats * places) × (length bytes.old ≡ last_at + 1) × (k < places) × (quantum_lengths x.lists.m x.lists.sheets x.lists.orders ≡ true) × (x.lists.count ≤ side) × (length x.fractions ≡ x.lists.count) × (length x.densities ≡ x.lists.count) }
    ensures { let l : Lists = record { floats = floats.entry.now; bytes = bytes.old } in
        record { floats = floats.exit.now; bytes = bytes.new } ≡ placed l k (enter (query_of q.now) (place_of l k)) }
{
    let a = PLACE_FLOATS * k;
    let b = a + PLACE_FLOATS;
    desk_place::enter_floats(
        &mut floats[a..b],
        q.lists.m,
        q.lists.sheets,
        q.temperature,
        q.fractions,
        q.densities,
    );
    let c = PLACE_BYTES * k;
    let d = c + PLACE_BYTES;
    desk_place::enter_bytes(
        &mut bytes[c..d],
        q.lists.count,
        q.lists.orders,
        q.non_additive,
    );
}

// A query takes the lowest free place and is told it. 1, 4, 2, then 17 where all are occupied.
pub fn submit(floats: &mut [f64], bytes: &mut [u8], q: &DeskQuery) -> Result<usize, Refusal>
    ensures { let l : Lists = record { floats = floats.entry.now; bytes = bytes.old } in
        let a = submitted l (query_of q.now) in
        (answer result ≡ place_told a) × (record { floats = floats.exit.now; bytes = bytes.new } ≡ entered_of l a) }
{
    if !right_desk(floats.len(), bytes.len()) {
        return Err(Refusal::Length);
    }
    door(q)?;
    let k = seek(|k| !occupied(bytes, k), 0).ok_or(Refusal::Occupied)?;
    enter(floats, bytes, k, q);
    Ok(k)
}

// One unit for the query in place k, which is served last then.
fn serve_at(floats: &mut [f64], bytes: &mut [u8], k: usize) -> Served
    requires { (length floats.old ≡ place_floats * places) × (length bytes.old ≡ last_at + 1) × (k < places) × (occupied_in bytes.old k ≡ true) }
    ensures { let l : Lists = record { floats = floats.entry.now; bytes = bytes.old } in
        let s = leaves shelf quantum l k (unit (place_of l k)) in
        (served_told result ≡ s.told) × (record { floats = floats.exit.now; bytes = bytes.new } ≡ s.desk) }
{
    let a = PLACE_FLOATS * k;
    let b = a + PLACE_FLOATS;
    let c = PLACE_BYTES * k;
    let d = c + PLACE_BYTES;
    let worked = desk_place::unit(&mut floats[a..b], &mut bytes[c..d]);
    bytes[LAST_AT] = k as u8;
    match worked {
        None => Served::Worked,
        Some(e) => Served::Finished(k, e),
    }
}

// One unit for the next occupied place above the one served last. 1 for a list of another length.
pub fn serve(floats: &mut [f64], bytes: &mut [u8]) -> Result<Served, Refusal>
    ensures { let l : Lists = record { floats = floats.entry.now; bytes = bytes.old } in
        (desk_answer result ≡ told_of (served_once l)) × (record { floats = floats.exit.now; bytes = bytes.new } ≡ desk_of l (served_once l)) }
{
    if !right_desk(floats.len(), bytes.len()) {
        return Err(Refusal::Length);
    }
    let last = desk_place::byte_at(bytes, LAST_AT);
    let first = round_robin::above(last);
    let Some(k) = seek(|k| occupied(bytes, k), first) else {
        return Ok(Served::Idle);
    };
    Ok(serve_at(floats, bytes, k))
}
