// Works the calls of data/calls.bin at one desk, through the operations behind the C boundary. A record is eight words, least significant byte first; docs/VECTORS.md says which. Writes for each call its answer and what it tells.
#![tactic(auto)]

use desk::{BYTES, DeskQuery, FLOATS};
use number::bits_of;
use records::{Records, part};
use set_lists::QuantumSet;
use sizes::{SHEET, SHEETS, SIDE};
use std::array;
use std::fs::File;
use std::io::{self, Read};

// The most records that are read of the file.
const MOST: u64 = 100_000;

// All pairs alike, but for one place of sigma; c is 4, the exponents 12 and 6. f is the record's words as floats. A sheet by its number: filled by their names, the six ranges of a list give goals that search gives up at.
fn entry(record: &[u8; 64], f: &[f64; 8], k: usize) -> f64 {
    match k / SHEET {
        0 => {
            if k == usize::from(record[6]) {
                return f[7];
            }
            f[4]
        }
        1 => f[5],
        2 => 4.0,
        3 => 12.0,
        4 => 6.0,
        _ => f[6],
    }
}

fn begin(rt: &impl Print, floats: &mut [f64], bytes: &mut [u8]) -> io::Result<()> {
    let answer = desk_calls::begin(floats, bytes);
    println!(rt; "begin {answer}")
}

// What is told of a refused query is what was lent, 99.
fn submit(
    rt: &impl Print,
    record: &[u8; 64],
    floats: &mut [f64],
    bytes: &mut [u8],
) -> io::Result<()> {
    let f: [f64; 8] = records::floats(record);
    let sheets: [f64; SHEETS] = array::from_fn(|k| entry(record, &f, k));
    let orders = [record[5]; SHEET];
    let m = [1.0; SIDE];
    let fractions = [f[2]; SIDE];
    let densities = [f[3]; SIDE];
    let mut place = 99;
    let lists = QuantumSet {
        count: usize::from(record[1]),
        m: &m,
        sheets: &sheets,
        orders: &orders,
    };
    let query = DeskQuery {
        lists,
        temperature: f[1],
        fractions: part(&fractions, 0, usize::from(record[2])),
        densities: part(&densities, 0, usize::from(record[3])),
        non_additive: record[4] != 0,
    };
    let answer = desk_calls::submit(floats, bytes, &query, &mut place);
    println!(rt; "submit {answer} {place}")
}

// What is not told is what was lent: 9, 99, 9 and zeros.
fn serve(rt: &impl Print, floats: &mut [f64], bytes: &mut [u8]) -> io::Result<()> {
    let mut outcome = 9;
    let mut place = 99;
    let mut number = 9;
    let mut out = [0.0; 3];
    let answer = desk_calls::serve(
        floats,
        bytes,
        &mut outcome,
        &mut place,
        &mut number,
        &mut out,
    );
    let [a, b, c] = out.map(bits_of);
    println!(rt; "serve {answer} {outcome} {place} {number} {a:016x} {b:016x} {c:016x}")
}

// 0 begins the desk, 1 submits, all else serves: the records' numbers are matched in this place only, so an enum would say them a second time.
fn called(
    rt: &impl Print,
    record: &[u8; 64],
    floats: &mut [f64],
    bytes: &mut [u8],
) -> io::Result<()> {
    match record[0] {
        0 => begin(rt, floats, bytes),
        1 => submit(rt, record, floats, bytes),
        _ => serve(rt, floats, bytes),
    }
}

// The desk is begun over other bits. The last byte of a record's first word says whether a call is on the whole desk, or without the first of its floats or bytes.
fn main(rt: HostRuntime) -> io::Result<()> {
    let mut file = File::open(&rt, "calls.bin")?;
    let mut floats = [1.5; FLOATS];
    let mut bytes = [1u8; BYTES];
    for record in Records::<_, 64>::new(&mut file, MOST) {
        let record = record?;
        let first_float = usize::from(record[7] == 1);
        let first_byte = usize::from(record[7] == 2);
        called(
            &rt,
            &record,
            &mut floats[first_float..],
            &mut bytes[first_byte..],
        )?;
    }
    Ok(())
}
