// Works the calls of data/cases.bin on the C boundary and compares the number and every bit of what was lent with the file's. The file is lines of four words, least significant byte first; docs/VECTORS.md says which. Writes each case's name and number, what differs, and how many.
#![tactic(auto)]

mod mie;
mod quantum;

use case_arguments::{number_at, signed, whole_at};
use number::{bits_of, of_bits};
use records::{Records, word};
use rounded_sum::rounded_sum;
use std::fs::File;
use std::io;

// ---- lines

// The most lines that are read of the file.
const MOST: u64 = 10_000_000;

// Places for floats and for bytes: what is read, and each list that is lent.
const FLOATS: usize = 2080;

const BYTES: usize = 448;

type Line = [u8; 32];

// The list whose places a line fills: one that is read, one that is lent, or what is to be left in one.
#[derive(Clone, Copy)]
enum Filled {
    Floats,
    Bytes,
    LentFirst,
    LentSecond,
    LentBytes,
    LeftFirst,
    LeftSecond,
    LeftBytes,
}

// What a line has: a case's name, what fills a list, or a call.
#[derive(Clone, Copy)]
enum Kind {
    Name,
    Fills(Filled),
    Call,
}

impl TryFrom<u64> for Kind {
    type Error = u64;

    // The number itself where no kind has it.
    fn try_from(number: u64) -> Result<Kind, u64> {
        Ok(match number {
            0 => Kind::Name,
            1 => Kind::Fills(Filled::Floats),
            2 => Kind::Fills(Filled::Bytes),
            3 => Kind::Fills(Filled::LentFirst),
            4 => Kind::Fills(Filled::LentSecond),
            5 => Kind::Fills(Filled::LentBytes),
            6 => Kind::Fills(Filled::LeftFirst),
            7 => Kind::Fills(Filled::LeftSecond),
            8 => Kind::Fills(Filled::LeftBytes),
            9 => Kind::Call,
            _ => return Err(number),
        })
    }
}

// A line's last word into its places of a list.
fn fill<T: Copy>(list: &mut [T], line: &Line, x: T) {
    let from = word(line, 1) as usize;
    let times = word(line, 2) as usize;
    for place in list.iter_mut().skip(from).take(times) {
        *place = x;
    }
}

// The lists that a call is lent, or what is to be left there.
#[derive(Clone, Copy)]
struct Lists {
    first: [f64; FLOATS],
    second: [f64; FLOATS],
    bytes: [u8; BYTES],
}

fn no_lists() -> Lists {
    Lists {
        first: [0.0; FLOATS],
        second: [0.0; FLOATS],
        bytes: [0u8; BYTES],
    }
}

#[derive(Drop)]
struct Case {
    floats: [f64; FLOATS],
    bytes: [u8; BYTES],
    lent: Lists,
    left: Lists,
}

// Fills a list by a line; what is lent is to be left so, until a line says what is.
fn put(case: &mut Case, filled: Filled, line: &Line) {
    let x = of_bits(word(line, 3));
    let byte = line[24];
    match filled {
        Filled::Floats => fill(&mut case.floats, line, x),
        Filled::Bytes => fill(&mut case.bytes, line, byte),
        Filled::LentFirst => {
            fill(&mut case.lent.first, line, x);
            fill(&mut case.left.first, line, x);
        }
        Filled::LentSecond => {
            fill(&mut case.lent.second, line, x);
            fill(&mut case.left.second, line, x);
        }
        Filled::LentBytes => {
            fill(&mut case.lent.bytes, line, byte);
            fill(&mut case.left.bytes, line, byte);
        }
        Filled::LeftFirst => fill(&mut case.left.first, line, x),
        Filled::LeftSecond => fill(&mut case.left.second, line, x),
        Filled::LeftBytes => fill(&mut case.left.bytes, line, byte),
    }
}

// ---- numbers

// A call that writes one number, to the first place of a list; nowhere where there is none.
fn at_first<F: FnOnce(&mut f64) -> u8>(list: &mut [f64], call: F) -> u8
    requires { F.IsAlwaysCallable call }
{
    let mut nowhere = 0.0;
    call(list.first_mut().unwrap_or(&mut nowhere))
}

// What cannot be refused.
fn plain(f: &[f64]) -> f64 {
    let a = number_at(f, 6);
    let b = number_at(f, 7);
    let n = whole_at(f, 7) as u64;
    match whole_at(f, 0) {
        1 => domthelv::domthelv_powi(a, signed(n)),
        2 => number::pow_up(a, u32::try_from(n).unwrap_or(0)),
        3 => number::next_up(a),
        4 => number::next_down(a),
        5 => number::least(a, b),
        6 => number::greatest(a, b),
        7 => number::abs(a),
        8 => rounded_sum(a, b).remainder,
        _ => a,
    }
}

// The number at the C boundary; None where no call has the case's number. That number is matched once, straight into its call: here by ranges, in each range's function by itself. An enum of the 27 calls between would say each a second time.
fn worked(f: &[f64], b: &[u8], x: &mut [f64], y: &mut [f64], z: &mut [u8]) -> Option<u8> {
    match whole_at(f, 0) {
        0..16 => {
            if let Some(x) = x.first_mut() {
                *x = plain(f);
            }
            Some(0)
        }
        16..32 => quantum::quantum(f, b, x, y, z),
        _ => mie::mie(f, x, y),
    }
}

// The call on the lists that are lent, cut to their lengths. Several fields lent at once behind a reference are not covered by the borrow checker's proof.
fn called(case: &mut Case) -> Option<u8> {
    let f = case.floats;
    let mut first = case.lent.first;
    let mut second = case.lent.second;
    let mut bytes = case.lent.bytes;
    let x = first.get_mut(..whole_at(&f, 25))?;
    let y = second.get_mut(..whole_at(&f, 26))?;
    let z = bytes.get_mut(..whole_at(&f, 27))?;
    let answer = worked(&f, &case.bytes, x, y, z);
    case.lent = Lists {
        first,
        second,
        bytes,
    };
    answer
}

// ---- a case

// Whether two lists are alike; writes the first place where they are not, with both patterns.
fn same<T, F: Fn(&T) -> u64>(
    rt: &impl Print,
    label: &str,
    given: &[T],
    expected: &[T],
    bits: F,
) -> io::Result<bool>
    requires { F.IsAlwaysCallable bits }
{
    for (k, (x, y)) in given.iter().zip(expected).enumerate() {
        let x = bits(x);
        let y = bits(y);
        if x != y {
            println!(rt; "\n    DIFFERS in the {label}, place {k}: {x:016x}, not {y:016x}")?;
            return Ok(false);
        }
    }
    Ok(true)
}

fn same_floats(rt: &impl Print, label: &str, given: &[f64], expected: &[f64]) -> io::Result<bool> {
    same(rt, label, given, expected, |x| bits_of(*x))
}

// Makes a case's call: whether it does what the case says. A number that no call has is 255.
fn is_right(rt: &impl Print, case: &mut Case, line: &Line) -> io::Result<bool> {
    let n = called(case).unwrap_or(255);
    let given = [u64::from(n)];
    let expected = [whole_at(&case.floats, 1) as u64];
    let lent = &case.lent;
    let left = &case.left;
    let right = same(rt, "number", &given, &expected, |n| *n)?
        & same_floats(rt, "first list", &lent.first, &left.first)?
        & same_floats(rt, "second list", &lent.second, &left.second)?
        & same(rt, "bytes", &lent.bytes, &left.bytes, |b| u64::from(*b))?;
    if word(line, 2) == 1 {
        println!(rt; "{n}")?;
    }
    Ok(right)
}

fn main(rt: HostRuntime) -> io::Result<()> {
    let mut file = File::open(&rt, "cases.bin")?;
    let mut case = Case {
        floats: [0.0; FLOATS],
        bytes: [0u8; BYTES],
        lent: no_lists(),
        left: no_lists(),
    };
    let mut calls = 0u64;
    let mut other = 0u64;
    for line in Records::<_, 32>::new(&mut file, MOST) {
        let line = line?;
        match Kind::try_from(word(&line, 0)) {
            Ok(Kind::Name) => rt.write_all(&line[8..])?,
            Ok(Kind::Fills(filled)) => put(&mut case, filled, &line),
            Ok(Kind::Call) => {
                calls = calls.saturating_add(1);
                if !is_right(&rt, &mut case, &line)? {
                    other = other.saturating_add(1);
                }
            }
            // A line of another kind says nothing.
            Err(_) => {}
        }
    }
    println!(rt; "{calls} calls, {other} differ")
}
