// A set into the lists that it crosses the C boundary as, whose lengths were tested.
ghost use Rattle.std.specs.Prelude.{◌≡◌, true, ◌+◌, ◌*◌, ◌≤◌, length};
ghost use Rattle.sizes.specs.Sizes.{side, sheet};
ghost use Rattle.saftvrqmie_potential.specs.Potential.{order_number};
ghost use Rattle.set_lists.specs.Sets.{quantum_lengths, mie_lengths};
ghost use Rattle.set_lists.specs.Written.{QuantumLent, MieLent, placed, orders_written, lists_written, set_written, mie_written};

use saftvrmie_parameters::SaftVRMiePars;
use saftvrqmie_parameters::{FeynmanHibbsOrder, OrderRecord, SaftVRQMiePars};
use sizes::SHEET;
use sizes::mie_lists::{EPSILON_K, LA, LR, M, SIGMA};

// Numbers of a set into their places of a list, which has them.
fn write(d: &[f64], l: &mut [f64], to: usize)
    requires { to + length d.now ≤ length l.old }
    ensures { l.new ≡ placed (length d.now) d.now to l.old }
{
    l[to..to + d.len()].copy_from_slice(d);
}

fn order_byte(order: FeynmanHibbsOrder) -> u8
    ensures { result ≡ order_number order }
{
    // An enum's number is read by as: it has no From.
    order as u8
}

// The place is counted: of what an adapter of iter_mut writes a proof knows nothing, and by an array's `map` this takes a hundred times the instructions.
fn orders_written(orders: [OrderRecord; SHEET], l: &mut [u8])
    requires { length l.old ≡ sheet }
    ensures { l.new ≡ orders_written orders l.old }
{
    for (e, record) in orders.iter().enumerate() {
        l[e] = order_byte(record.order);
    }
}

fn write_lists(set: SaftVRMiePars, lists: &mut [f64])
    requires { length lists.old ≡ 5 * side }
    ensures { lists.new ≡ lists_written set lists.old }
{
    let m = set.m;
    let sigma = set.sigma;
    let epsilon_k = set.epsilon_k;
    let lr = set.lr;
    let la = set.la;
    write(&m, lists, M);
    write(&sigma, lists, SIGMA);
    write(&epsilon_k, lists, EPSILON_K);
    write(&lr, lists, LR);
    write(&la, lists, LA);
}

// A quantum set into lists whose lengths were tested.
pub fn write_quantum(set: SaftVRQMiePars, m: &mut [f64], sheets: &mut [f64], orders: &mut [u8])
    requires { quantum_lengths m.old sheets.old orders.old ≡ true }
    ensures { let l : QuantumLent = record { m = m.entry.now; sheets = sheets.old; orders = orders.old } in
        (m.exit.now ≡ (set_written set l).m) × (sheets.new ≡ (set_written set l).sheets) × (orders.new ≡ (set_written set l).orders) }
{
    let places = set.m;
    write(&places, m, 0);
    let flat = set.sheets;
    write(&flat, sheets, 0);
    let records = set.orders;
    orders_written(records, orders);
}

// A set of SAFT-VR Mie likewise.
pub fn write_mie(set: SaftVRMiePars, lists: &mut [f64], sheets: &mut [f64])
    requires { mie_lengths lists.old sheets.old ≡ true }
    ensures { let l : MieLent = record { lists = lists.entry.now; sheets = sheets.old } in
        (lists.exit.now ≡ (mie_written set l).lists) × (sheets.new ≡ (mie_written set l).sheets) }
{
    let flat = set.sheets;
    write_lists(set, lists);
    write(&flat, sheets, 0);
}
