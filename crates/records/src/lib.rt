// Files of records of one length: the records, the words in them, and parts of a list by places that a record names.
#![tactic(auto)]

ghost use Rattle.std.specs.Prelude.{◌≡◌, ℕ, ◌+◌, ◌*◌, ◌<◌, ◌≤◌, [], length, take, drop, true, Ok, IfSome, IfOk, from_bits};
ghost use Rattle.std.specs.Float.{binary64};
ghost use Rattle.std.specs.Iterator.{at_most};
ghost use Rattle.std.specs.Io.KnownBytes.{Consumes};
ghost use Rattle.number.specs.Lists.{at};
ghost use Rattle.records.specs.Words.{word_at};

use std::array;
use std::io::{self, ErrorKind, Read};

// Fills the bytes; false where the reader ends before.
pub fn is_read<R: Read>(reader: &mut R, bytes: &mut [u8]) -> io::Result<bool>
    ensures { result ≡ Ok true → Consumes (R.remaining reader.old) (R.remaining reader.new) bytes.new }
{
    match reader.read_exact(bytes) {
        Ok(()) => Ok(true),
        Err(e) => {
            if e.kind() == ErrorKind::UnexpectedEof {
                return Ok(false);
            }
            Err(e)
        }
    }
}

// A reader's records of N bytes, up to its end; fewer bytes at the end are no record.
#[derive(Drop)]
pub struct Records<'r, R, const N: usize> {
    reader: &'r mut R,
    // A reader of unknown bytes may never end, so this many records are the most that still come.
    left: u64,
}

impl<'r, R: Read, const N: usize> Records<'r, R, N> {
    pub fn new(reader: &'r mut R, most: u64) -> Self
        ensures { result.left ≡ most }
    {
        Records { reader, left: most }
    }
}

impl<'r, R: Read, const N: usize> Iterator for Records<'r, R, N> {
    type Item = io::Result<[u8; N]>;

    ghost remaining = { λ s. at_most s.left };

    ghost next_gives = { λ s r t. IfSome r (λ x. IfOk x (Consumes (R.remaining s.reader.now) (R.remaining t.reader.now))) };

    fn next(&mut self) -> Option<io::Result<[u8; N]>> {
        if self.left == 0 {
            return None;
        }
        self.left -= 1;
        let mut record = [0u8; N];
        match is_read(self.reader, &mut record) {
            Ok(true) => Some(Ok(record)),
            Ok(false) => None,
            Err(e) => Some(Err(e)),
        }
    }

    // The default is proved only of items that are known to be shorter than 2^63 bytes.
    fn size_hint(&self) -> (usize, Option<usize>) {
        (0, None)
    }
}

// The eight bytes at 8 * k as a number, least significant byte first.
pub fn word(bytes: &[u8], k: usize) -> u64
    requires { 8 * k + 8 ≤ length bytes.now }
    ensures { result ≡ word_at bytes.now k }
{
    let words = bytes.as_chunks().0;
    u64::from_le_bytes(words[k])
}

// The words of a record as the floats of their bits.
pub fn floats<const W: usize>(bytes: &[u8]) -> [f64; W]
    requires { 8 * W ≤ length bytes.now }
    ensures { (k : ℕ) → k < W → at result k ≡ from_bits binary64 (word_at bytes.now k) }
{
    array::from_fn(
        |k| -> f64
            requires { 8 * k + 8 ≤ length bytes.now }
            ensures { result ≡ from_bits binary64 (word_at bytes.entry.now k) }
        { number::of_bits(word(bytes, k)) },
    )
}

// So many places of a list from one on; none where they are not there. The empty list says so, not a None: each caller hands it on in the list's place.
pub fn part<T>(list: &[T], from: usize, n: usize) -> &[T]
    ensures held { from + n ≤ length list.now → result.now ≡ take n (drop from list.now) }
    ensures none { length list.now < from + n → result.now ≡ [] }
{
    if from <= list.len() {
        let rest = &list[from..];
        if n <= rest.len() {
            return &rest[..n];
        }
    }
    &list[..0]
}
