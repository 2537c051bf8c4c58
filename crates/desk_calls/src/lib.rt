// The desk's calls as they cross the C boundary: a number for the answer, and what is told in places that the caller lends.
#![tactic(auto)]

ghost use Rattle.std.specs.Prelude.{◌≡◌, length};
ghost use Rattle.mie_parameters.specs.Answer.{status, stored};
ghost use Rattle.saftvrqmie_energies.specs.Energies.{energies_answer};
ghost use Rattle.round_robin.specs.Desk.{Entered};
ghost use Rattle.desk_place.specs.Layout.{Lists};
ghost use Rattle.desk.specs.Desk.{query_of, begun, submitted};
ghost use Rattle.desk_calls.specs.Calls.{Lent, handed, served_call};

use desk::{DeskQuery, Served};
use number::Refusal;
use saftvrqmie_energies::QuantumEnergies;

// A desk with no query. 1 for a list of another length.
pub fn begin(floats: &mut [f64], bytes: &mut [u8]) -> u8
    ensures { let l : Lists = record { floats = floats.entry.now; bytes = bytes.old } in
        (result ≡ status (begun l)) × (record { floats = floats.exit.now; bytes = bytes.new } ≡ stored l (begun l)) }
{
    let answer = desk::begin(floats, bytes);
    mie_parameters::number(answer)
}

// A query takes the lowest free place and is told it. 1, 4, 2, then 17 where all are occupied.
pub fn submit(floats: &mut [f64], bytes: &mut [u8], query: &DeskQuery, place: &mut usize) -> u8
    ensures { let l : Entered Lists = record { desk = record { floats = floats.entry.now; bytes = bytes.old }; place = place.old } in
        let a = submitted l.desk (query_of query.now) in
        (result ≡ status a) × (record { desk = record { floats = floats.exit.now; bytes = bytes.new }; place = place.new } ≡ stored l a) }
{
    let answer = desk::submit(floats, bytes, query);
    mie_parameters::deliver(answer, place)
}

// The answer of a finished query: its number, and energies where it is 0.
fn hand_out(e: Result<QuantumEnergies, Refusal>, number: &mut u8, out: &mut [f64])
    requires { length out.old ≡ 3 }
    ensures { let a = energies_answer e in
        (number.new ≡ status a) × (out.new ≡ handed a out.old) }
{
    match e {
        Err(r) => {
            *number = r.code();
        }
        Ok(x) => {
            *number = 0;
            out.copy_from_slice(&[x.hard_sphere, x.dispersion, x.non_additive]);
        }
    }
}

// One unit for the next occupied place above the one served last. 1 for a list of another length. The outcomes' numbers are C's, and stand in this match only: `Served` has values beside its cases, so no discriminant gives them.
pub fn serve(
    floats: &mut [f64],
    bytes: &mut [u8],
    outcome: &mut u8,
    place: &mut usize,
    number: &mut u8,
    out: &mut [f64],
) -> u8
    ensures { let l : Lent = record { desk = record { floats = floats.entry.now; bytes = bytes.old }; slip = record { outcome = outcome.entry.now; place = place.old; number = number.old; energies = out.old } } in
        let q = served_call l in
        (result ≡ status q) × (record { desk = record { floats = floats.exit.now; bytes = bytes.new }; slip = record { outcome = outcome.exit.now; place = place.new; number = number.new; energies = out.new } } ≡ stored l q) }
{
    if out.len() != 3 {
        return Refusal::Length.code();
    }
    let answer = desk::serve(floats, bytes);
    match answer {
        Err(r) => r.code(),
        Ok(told) => match told {
            Served::Idle => {
                *outcome = 0;
                0
            }
            Served::Worked => {
                *outcome = 1;
                0
            }
            Served::Finished(k, e) => {
                *outcome = 2;
                *place = k;
                hand_out(e, number, out);
                0
            }
        },
    }
}
