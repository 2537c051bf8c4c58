// A record: its head and its list. Words of the head go by docs/VECTORS.md's numbers, lengths by the word that has them.
ghost use Rattle.std.specs.Prelude.{◌<◌, ◌≤◌};

use crate::tally::Operation;
use number::Refusal;
use records::{is_read, part, word};
use std::io::{self, Read};

// A head in bytes, and the most words of a list.
const HEAD: usize = 192;

pub const WORDS: usize = 512;

pub const BYTES: usize = 8 * WORDS;

// The most changes by hand that a record makes.
const CHANGES: usize = 128;

// What a record asks: a call, a new chain, or changes by hand.
#[derive(Clone, Copy)]
pub enum Step {
    Call(Operation),
    Begin,
    Changes,
}

#[derive(Drop)]
pub struct Record {
    head: [u8; HEAD],
    pub list: [u8; BYTES],
}

impl Record {
    pub fn new() -> Record {
        Record {
            head: [0u8; HEAD],
            list: [0u8; BYTES],
        }
    }

    // Reads the next head and its list; false at the end.
    pub fn is_next(&mut self, file: &mut impl Read) -> io::Result<bool> {
        if !is_read(file, &mut self.head)? {
            return Ok(false);
        }
        let end = 8 * self.length(5);
        is_read(file, &mut self.list[..end])
    }

    pub fn step(&self) -> Step {
        match self.word(0) {
            1 => Step::Call(Operation::QuantumParameters),
            2 => Step::Call(Operation::QuantumTable),
            3 => Step::Call(Operation::QuantumEnergies),
            4 => Step::Call(Operation::MieParameters),
            5 => Step::Call(Operation::MieDiameters),
            6 => {
                Step::Call(if self.is_wanted() {
                    Operation::MieAndChain
                } else {
                    Operation::MieDispersion
                })
            }
            10 => Step::Begin,
            _ => Step::Changes,
        }
    }

    pub fn word(&self, k: usize) -> u64
        requires { k < 24 }
    {
        word(&self.head, k)
    }

    // A length at a word of the head.
    pub fn length(&self, k: usize) -> usize
        requires { k < 24 }
        ensures { result ≤ 512 }
    {
        let n = self.word(k);
        if n <= 512 { n as usize } else { 0 }
    }

    // The length of a list that is whole, one place shorter, or empty, by a word of the head.
    pub fn lent(&self, k: usize, whole: usize) -> usize
        requires { k < 24 }
        ensures { result ≤ whole }
    {
        match self.word(k) {
            0 => whole,
            1 => whole.saturating_sub(1),
            _ => 0,
        }
    }

    pub fn temperature(&self) -> f64 {
        number::of_bits(self.word(3))
    }

    // The non-additive part, or the chain.
    pub fn is_wanted(&self) -> bool {
        self.word(4) == 1
    }

    // Whether an answer's number is the head's.
    pub fn tells(&self, refusal: Option<Refusal>) -> bool {
        self.word(1) == refusal.map_or(0, |r| u64::from(r.code()))
    }

    // The pairs of a place and its bits that the list has, up to the most.
    pub fn changes(&self) -> &[[u8; 16]] {
        let end = 8 * self.length(5).min(2 * CHANGES);
        self.list[..end].as_chunks().0
    }
}

// A record's numbers, taken list by list.
#[derive(Drop)]
pub struct Lists<'a> {
    numbers: &'a [f64],
    at: usize,
}

impl<'a> Lists<'a> {
    pub fn new(numbers: &'a [f64]) -> Lists<'a> {
        Lists { numbers, at: 0 }
    }

    // Where the next list begins.
    pub fn at(&self) -> usize {
        self.at
    }

    // The next list; empty where fewer numbers are left, as are those behind it then.
    pub fn take(&mut self, n: usize) -> &'a [f64] {
        let list = part(self.numbers, self.at, n);
        self.at = self.at.saturating_add(n);
        list
    }
}
