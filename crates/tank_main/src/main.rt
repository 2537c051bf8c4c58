// Works the tanks of data/tanks.bin on the C boundary and, layer by layer, on its single calls (docs/VECTORS.md has the layout of a record). Writes for each its name and number, and DIFFERS where what was lent does not hold what the layers give, or was touched by a refused call.
#![tactic(auto)]

ghost use Rattle.std.specs.Prelude.{◌<◌, ◌≤◌, ◌+◌};

use case_arguments::{number_at, whole_at};
use number::bits_of;
use records::{Records, floats, part};
use sizes::{COUNTS, SHEET, SHEETS, SIDE, TABLE};
use std::fs::File;
use std::{array, io};

// ---- records

// Numbers of a record, and its bytes, which end in a name.
const WORDS: usize = 176;

const NAME: usize = 8 * WORDS;

const RECORD: usize = NAME + 48;

// The most records that are read of the file.
const MOST: u64 = 100_000;

// The most components and layers of a record.
const COMPONENTS: usize = 5;

// What a record has room for, whatever a tank takes.
const LAYERS: usize = 32;

// Where the lists of components and of layers begin.
const M: usize = 12;

const SIGMA: usize = 17;

const EPSILON_K: usize = 22;

const LR: usize = 27;

const LA: usize = 32;

const MASS: usize = 37;

const ORDER: usize = 42;

const TEMPERATURES: usize = 48;

const FRACTIONS: usize = 80;

const DENSITIES: usize = 112;

const VOLUMES: usize = 144;

// A word that is a byte.
fn byte_at(f: &[f64], at: usize) -> u8 {
    bits_of(number_at(f, at)).to_le_bytes()[0]
}

// ---- the set

#[derive(Drop)]
struct Set {
    m: [f64; SIDE],
    sheets: [f64; SHEETS],
    orders: [u8; SHEET],
}

// The parameters' set, as it is left in what was lent.
fn parameters(f: &[f64], n: usize) -> Set {
    let mut set = Set {
        m: [0.0; SIDE],
        sheets: [0.0; SHEETS],
        orders: [0u8; SHEET],
    };
    let ones = [1.0; COMPONENTS];
    let zeros = [0.0; COMPONENTS * COMPONENTS];
    let order: [u8; COMPONENTS] = array::from_fn(|i| byte_at(f, ORDER + i));
    // More pairs than a record has are none.
    let pairs = n.saturating_mul(n);
    domthelv::domthelv_vrq_parameters(
        n,
        part(&ones, 0, n),
        part(f, SIGMA, n),
        part(f, EPSILON_K, n),
        part(f, LR, n),
        part(f, LA, n),
        part(f, MASS, n),
        part(&order, 0, n),
        part(&zeros, 0, pairs),
        part(&zeros, 0, pairs),
        &mut set.m,
        &mut set.sheets,
        &mut set.orders,
    );
    set
}

// The parameters' set, then its m, its first sigma and its first order as the record has them.
fn set_of(f: &[f64; WORDS]) -> Set {
    let mut set = parameters(f, whole_at(f, 1));
    set.m[..COMPONENTS].copy_from_slice(&f[M..M + COMPONENTS]);
    set.sheets[0] = f[11];
    set.orders[0] = byte_at(f, 10);
    set
}

// ---- calls

// The two differ in the call alone. One function of both would take it as a closure that writes its eleven parameters twice more: handed by its name it has no contract here, as its module is private.
fn tank(f: &[f64], set: &Set, out: &mut [f64]) -> u8 {
    domthelv::domthelv_vrq_tank(
        whole_at(f, 2),
        &set.m,
        &set.sheets,
        &set.orders,
        whole_at(f, 3),
        part(f, TEMPERATURES, whole_at(f, 4)),
        part(f, FRACTIONS, whole_at(f, 5)),
        part(f, DENSITIES, whole_at(f, 6)),
        part(f, VOLUMES, whole_at(f, 7)),
        byte_at(f, 9) == 1,
        out,
    )
}

fn tank_ends(f: &[f64], set: &Set, out: &mut [f64]) -> u8 {
    domthelv::domthelv_vrq_tank_ends(
        whole_at(f, 2),
        &set.m,
        &set.sheets,
        &set.orders,
        whole_at(f, 3),
        part(f, TEMPERATURES, whole_at(f, 4)),
        part(f, FRACTIONS, whole_at(f, 5)),
        part(f, DENSITIES, whole_at(f, 6)),
        part(f, VOLUMES, whole_at(f, 7)),
        byte_at(f, 9) == 1,
        out,
    )
}

// Layer k, whose components begin at a place of their lists: its energies by the single calls.
fn energies(f: &[f64], set: &Set, k: usize, at: usize) -> [f64; 3]
    requires { (k < 32) × (at < 1000) }
{
    let n = whole_at(f, 2);
    let t = number_at(f, TEMPERATURES + k);
    let mut table = [0.0; TABLE];
    let mut counts = [0u8; COUNTS];
    let mut e = [0.0; 3];
    domthelv::domthelv_vrq_table(
        n,
        &set.m,
        &set.sheets,
        &set.orders,
        t,
        &mut table,
        &mut counts,
    );
    domthelv::domthelv_vrq_energies(
        n,
        &set.m,
        &set.sheets,
        &set.orders,
        t,
        part(f, FRACTIONS + at, n),
        part(f, DENSITIES + at, n),
        &table,
        byte_at(f, 9) == 1,
        &mut e,
    );
    let v = number_at(f, VOLUMES + k);
    e.map(|x| x * v * t)
}

// The sums over the layers, from the bottom up from +0. By number: a layer's parts stand at its number in four lists of the record, and zipped they would be cut four times first.
fn layers(f: &[f64], set: &Set) -> [f64; 3] {
    let n = whole_at(f, 2);
    let most = whole_at(f, 3);
    let mut sum = [0.0; 3];
    if LAYERS < most || COMPONENTS < n {
        return sum;
    }
    for k in 0..most {
        let [a, b, c] = energies(f, set, k, n * k);
        sum = [sum[0] + a, sum[1] + b, sum[2] + c];
    }
    sum
}

// ---- what is said

fn same(x: f64, y: f64) -> bool {
    bits_of(x) == bits_of(y)
}

// Whether the tank's energies are the layers' sums.
fn equal(out: &[f64; 8], sum: &[f64; 3]) -> bool {
    out.iter().zip(sum).all(|(x, y)| same(*x, *y))
}

// Whether the ends lie around them.
fn around(out: &[f64; 8], sum: &[f64; 3]) -> bool {
    let pairs = out.as_chunks::<2>().0;
    pairs.iter().zip(sum).all(|(e, x)| e[0] <= *x && *x <= e[1])
}

fn told(rt: &impl Print, number: u8, ok: bool) -> io::Result<()> {
    let mark = if ok { "" } else { " DIFFERS" };
    println!(rt; "{number}{mark}")
}

// A call at the record's set, and whether what it gives is right beside the layers. A refused call leaves the halves that were lent.
fn tried<C, R>(rt: &impl Print, f: &[f64; WORDS], call: C, right: R) -> io::Result<()>
where
    C: FnOnce(&Set, &mut [f64]) -> u8,
    R: FnOnce(&[f64; 8], &[f64; 3]) -> bool,
    requires call { C.IsAlwaysCallable call }
    requires right { R.IsAlwaysCallable right }
{
    let set = set_of(f);
    let mut out = [0.5; 8];
    let Some(lent) = out.get_mut(..whole_at(f, 8)) else {
        return Ok(());
    };
    let n = call(&set, lent);
    if n != 0 {
        return told(rt, n, out.iter().all(|x| same(*x, 0.5)));
    }
    told(rt, n, right(&out, &layers(f, &set)))
}

fn main(rt: HostRuntime) -> io::Result<()> {
    let mut file = File::open(&rt, "tanks.bin")?;
    for record in Records::<_, RECORD>::new(&mut file, MOST) {
        let record = record?;
        rt.write_all(&record[NAME..])?;
        let f = floats(&record);
        if byte_at(&f, 0) == 1 {
            tried(&rt, &f, |set, out| tank_ends(&f, set, out), around)?;
        } else {
            tried(&rt, &f, |set, out| tank(&f, set, out), equal)?;
        }
    }
    Ok(())
}
