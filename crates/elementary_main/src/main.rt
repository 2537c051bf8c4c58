// Runs the vectors of data/vectors.bin through the elementary functions. A record is four words, least significant byte first: which function, two
// arguments' bits, and the answer's bits, or all ones for a refusal. Writes for each function how many answers were as they should be.
#![tactic(auto)]

use number::Refusal;
use records::{Records, word};
use std::fs::File;
use std::io::{self, Read};
use std::rt::Files;

// The most records that are read of the file.
const MOST: u64 = 100_000_000;

// In the order of the numbers that the records have for them.
#[derive(Clone, Copy)]
enum Function {
    Sqrt,
    Ln,
    Ln1p,
    Exp,
    ExpM1,
    Tanh,
    Powf,
}

impl Function {
    const ALL: [Function; 7] = [
        Function::Sqrt,
        Function::Ln,
        Function::Ln1p,
        Function::Exp,
        Function::ExpM1,
        Function::Tanh,
        Function::Powf,
    ];

    fn name(self) -> &'static str {
        match self {
            Function::Sqrt => "sqrt",
            Function::Ln => "ln",
            Function::Ln1p => "ln_1p",
            Function::Exp => "exp",
            Function::ExpM1 => "exp_m1",
            Function::Tanh => "tanh",
            Function::Powf => "powf",
        }
    }

    fn worked(self, x: f64, y: f64) -> Result<f64, Refusal> {
        match self {
            Function::Sqrt => elementary::sqrt(x),
            Function::Ln => elementary::ln(x),
            Function::Ln1p => elementary::ln_1p(x),
            Function::Exp => elementary::exp(x),
            Function::ExpM1 => elementary::exp_m1(x),
            Function::Tanh => elementary::tanh(x),
            Function::Powf => elementary::powf(x, y),
        }
    }

    // Whether the answer at a record's arguments has the record's bits.
    fn agrees(self, record: &[u8; 32]) -> bool {
        let x = number::of_bits(word(record, 1));
        let y = number::of_bits(word(record, 2));
        let bits = self.worked(x, y).map_or(u64::MAX, number::bits_of);
        bits == word(record, 3)
    }
}

#[derive(Drop)]
struct Tally {
    same: u64,
    other: u64,
}

// The records of one function.
fn tallied(file: &mut impl Read, function: Function) -> io::Result<Tally> {
    let mut tally = Tally { same: 0, other: 0 };
    for record in Records::<_, 32>::new(file, MOST) {
        let record = record?;
        if word(&record, 0) == function as u64 {
            if function.agrees(&record) {
                tally.same = tally.same.saturating_add(1);
            } else {
                tally.other = tally.other.saturating_add(1);
            }
        }
    }
    Ok(tally)
}

fn run(rt: &(impl Files + Print), function: Function) -> io::Result<()> {
    let mut file = File::open(rt, "vectors.bin")?;
    let t = tallied(&mut file, function)?;
    let name = function.name();
    println!(rt; "{name:<7}{} same, {} differ", t.same, t.other)
}

fn main(rt: HostRuntime) -> io::Result<()> {
    for function in Function::ALL {
        run(&rt, function)?;
    }
    Ok(())
}
