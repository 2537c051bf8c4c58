// Slip 12's desk at the C boundary: begin, submit, serve.
ghost use Rattle.std.specs.Prelude.{◌≡◌};
ghost use Rattle.mie_parameters.specs.Answer.{status, stored};
ghost use Rattle.set_lists.specs.Sets.{QuantumLists};
ghost use Rattle.round_robin.specs.Desk.{Entered};
ghost use Rattle.desk_place.specs.Layout.{Lists};
ghost use Rattle.desk_place.specs.Place.{Query};
ghost use Rattle.desk.specs.Desk.{begun, submitted};
ghost use Rattle.desk_calls.specs.Calls.{Lent, served_call};

use desk::DeskQuery;
use set_lists::QuantumSet;

// A desk with no query. 1 for a list of another length.
pub fn domthelv_desk_begin(floats: &mut [f64], bytes: &mut [u8]) -> u8
    ensures { let l : Lists = record { floats = floats.entry.now; bytes = bytes.old } in
        (result ≡ status (begun l)) × (record { floats = floats.exit.now; bytes = bytes.new } ≡ stored l (begun l)) }
{
    desk_calls::begin(floats, bytes)
}

// A query takes the lowest free place and is told it. 1, 4, 2, then 17 where all are occupied.
pub fn domthelv_desk_submit(
    floats: &mut [f64],
    bytes: &mut [u8],
    count: usize,
    m: &[f64],
    sheets: &[f64],
    orders: &[u8],
    temperature: f64,
    fractions: &[f64],
    densities: &[f64],
    non_additive: bool,
    place: &mut usize,
) -> u8
    ensures { let s : QuantumLists = record { count = count; m = m.now; sheets = sheets.now; orders = orders.now } in
        let q : Query = record { lists = s; temperature = temperature; fractions = fractions.now; densities = densities.now; wanted = non_additive } in
        let l : Entered Lists = record { desk = record { floats = floats.entry.now; bytes = bytes.old }; place = place.old } in
        let a = submitted l.desk q in
        (result ≡ status a) × (record { desk = record { floats = floats.exit.now; bytes = bytes.new }; place = place.new } ≡ stored l a) }
{
    let lists = QuantumSet {
        count,
        m,
        sheets,
        orders,
    };
    let query = DeskQuery {
        lists,
        temperature,
        fractions,
        densities,
        non_additive,
    };
    desk_calls::submit(floats, bytes, &query, place)
}

// One unit for the next occupied place above the one served last; `outcome` 0 where no query was waiting, 1 for a unit, 2 for a finished query with its place and number, 0 with energies. 1 for a list of another length.
pub fn domthelv_desk_serve(
    floats: &mut [f64],
    bytes: &mut [u8],
    outcome: &mut u8,
    place: &mut usize,
    number: &mut u8,
    out: &mut [f64],
) -> u8
    ensures { let l : Lent = record { desk = record { floats = floats.entry.now; bytes = bytes.old }; slip = record { outcome = outcome.entry.now; place = place.old; number = number.old; energies = out.old } } in
        let q = served_call l in
        (result ≡ status q) × (record { desk = record { floats = floats.exit.now; bytes = bytes.new }; slip = record { outcome = outcome.exit.now; place = place.new; number = number.new; energies = out.new } } ≡ stored l q) }
{
    desk_calls::serve(floats, bytes, outcome, place, number, out)
}
