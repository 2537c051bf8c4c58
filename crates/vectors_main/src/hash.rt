// FNV-1a over the places that are not +0, each as its number and its bits, over the bytes of the words.
use crate::place::{Of, Place};

#[derive(Clone, Copy)]
pub struct Hash(u64);

impl Hash {
    pub fn new() -> Hash {
        Hash(0xcbf2_9ce4_8422_2325)
    }

    pub fn value(self) -> u64 {
        self.0
    }

    fn word(&mut self, w: u64) {
        for byte in w.to_le_bytes() {
            self.0 = (self.0 ^ u64::from(byte)).wrapping_mul(0x100_0000_01b3);
        }
    }

    fn place(&mut self, of: Of, index: usize, bits: u64) {
        if bits != 0 {
            self.word(u64::from(Place::at(of, index)));
            self.word(bits);
        }
    }

    // A list's numbers, from a place on.
    pub fn list<T, F: Fn(&T) -> u64>(mut self, of: Of, from: usize, list: &[T], bits: F) -> Hash
        requires { F.IsAlwaysCallable bits }
    {
        for (i, x) in list.iter().enumerate() {
            self.place(of, from.wrapping_add(i), bits(x));
        }
        self
    }

    pub fn floats(self, of: Of, from: usize, list: &[f64]) -> Hash {
        self.list(of, from, list, |x| number::bits_of(*x))
    }
}
