// Chains of calls in a file: what one model's calls work on, and the loop over a file, which is the same for both.
use crate::place::Place;
use crate::record::{Record, Step};
use crate::tally::{Operation, Tally};
use records::word;
use std::fs::File;
use std::io::{self, Read};
use std::rt::Files;

// The most records that are read of a file: of a reader of unknown bytes it is not known that it ends.
const MOST: usize = 1_000_000;

pub trait Chains: Drop {
    // Makes a record's call: whether it gave what the record has. None where it is one of the other model.
    fn call(&mut self, operation: Operation, record: &Record) -> Option<bool>;

    // A new chain.
    fn begin(&mut self);

    // A place of what the calls work on changed by hand.
    fn change(&mut self, place: Place, bits: u64);
}

pub fn run<C: Chains>(rt: &impl Files, name: &str, chain: C, tally: &mut Tally) -> io::Result<()> {
    let mut file = File::open(rt, name)?;
    worked(&mut file, chain, tally)
}

fn worked<C: Chains>(file: &mut impl Read, mut chain: C, tally: &mut Tally) -> io::Result<()> {
    let mut record = Record::new();
    for _ in 0..MOST {
        if !record.is_next(file)? {
            break;
        }
        match record.step() {
            Step::Call(operation) => match chain.call(operation, &record) {
                Some(same) => tally.note(operation, record.word(1), same),
                // In this file the number stands for no call, as any other that is none.
                None => changed(&mut chain, &record),
            },
            Step::Begin => chain.begin(),
            Step::Changes => changed(&mut chain, &record),
        }
    }
    Ok(())
}

fn changed<C: Chains>(chain: &mut C, record: &Record) {
    for pair in record.changes() {
        chain.change(Place::from(word(pair, 0)), word(pair, 1));
    }
}
