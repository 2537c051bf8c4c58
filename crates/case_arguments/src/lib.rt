// What a worked case hands to a call: numbers and lists at the fixed places of docs/VECTORS.md.
#![tactic(auto)]

use records::part;

pub fn number_at(f: &[f64], at: usize) -> f64 {
    f.get(at).copied().unwrap_or(0.0)
}

// usize has no From<u64>.
pub fn whole_at(f: &[f64], at: usize) -> usize {
    number::bits_of(number_at(f, at)) as usize
}

// The list whose length is at a place, and its start 32 places on.
pub fn list(f: &[f64], at: usize) -> &[f64] {
    if 32 <= at {
        return &[];
    }
    part(f, whole_at(f, at + 32), whole_at(f, at))
}

// A whole number: below 2^31 itself. Not a cast: from 2^31 on the file counts -1, -2 and so on.
pub fn signed(n: u64) -> i32 {
    i32::try_from(n).unwrap_or_else(|_| match i32::try_from(n.saturating_sub(0x8000_0000)) {
        Ok(k) => !k,
        Err(_) => 0,
    })
}
