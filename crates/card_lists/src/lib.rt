// A card's numbers as component lists: floats from patterns, and pairs in their square.
// n ≤ side and i < n stand plain: each bounds one index, and a name would be longer.
// The cast here narrows, and is proved to lose no digit: TryFrom would answer a refusal that cannot come.
#![tactic(auto)]

ghost use Rattle.std.specs.Prelude.{◌≡◌, [], ◌∷◌, ◌++◌, ◌+◌, ◌*◌, ◌-◌, ◌<◌, ◌≤◌, length, take};
ghost use Rattle.sizes.specs.Sizes.{side};
ghost use Rattle.card.specs.Fields.{joined};
ghost use Rattle.card_lists.specs.Lists.{column, orders, pairs_before, pair_entry, pair_list};

use card::quantum;
use sizes::{SHEET, SIDE};

// Number e of each component; the card's numbers reach to the last. By index, here and below: of what an adapter of iter_mut writes a proof knows nothing.
pub fn column(values: &[u64], size: usize, n: usize, e: usize) -> [f64; SIDE]
    requires { (n ≤ side) × (size ≤ 6) × (e < size) × (n * size ≤ length values.now) }
    ensures { take n result ≡ column values.now size n e }
{
    let mut list = [0.0; SIDE];
    for i in 0usize..n {
        list[i] = number::of_bits(values[i * size + e]);
    }
    list
}

// The orders of the quantum model's components; the count is a card's, and its numbers reach to the last.
pub fn orders(values: &[u64], n: usize) -> [u8; SIDE]
    requires { (n ≤ side) × (n * 6 ≤ length values.now) }
    ensures { take n result ≡ orders values.now n }
{
    let mut list = [0; SIDE];
    for i in 0usize..n {
        list[i] = (values[i * quantum::SIZE + quantum::ORDER] % 4) as u8;
    }
    list
}

// How many pairs stand before row i, which is one of at most twelve.
pub fn pairs_before(n: usize, i: usize) -> usize
    requires { (n ≤ side) × (i < n) }
    ensures { result ≡ pairs_before n i }
{
    i * (2 * n - 1 - i) / 2
}

// The numbers of the pairs of n components, which begin at `start` among a card's, behind at most twelve components, and which the card's numbers reach to the last of; a pair has two.
#[derive(Clone, Copy)]
pub struct PairNumbers<'a> {
    pub values: &'a [u64],
    pub start: usize,
    pub n: usize,
    pub ghost within: { (n ≤ side) × (start ≤ 72) × (start + n * (n - 1) ≤ length values.now) },
}

impl<'a> PairNumbers<'a> {
    // Number e of a pair.
    fn entry(self, e: usize, i: usize, j: usize) -> f64
        requires { (e < 2) × (i < self.n) × (j < self.n) }
        ensures { let p = self.entry in result ≡ pair_entry p.values.now p.start p.n e i j }
    {
        if i == j {
            return 0.0;
        }
        let low = i.min(j);
        let high = i.max(j);
        let pair = pairs_before(self.n, low) + (high - 1 - low);
        number::of_bits(self.values[self.start + 2 * pair + e])
    }

    fn row(self, e: usize, i: usize, list: &mut [f64; SHEET])
        requires { (e < 2) × (i < self.n) }
        ensures { let p = self.entry in
            let row = joined p.n (λ j. pair_entry p.values.now p.start p.n e i j ∷ []) in
            take (p.n * i + p.n) list.new ≡ take (p.n * i) list.old ++ row }
    {
        for j in 0usize..self.n {
            list[self.n * i + j] = self.entry(e, i, j);
        }
    }

    // Number e of all pairs, as a square.
    pub fn list(self, e: usize) -> [f64; SHEET]
        requires { e < 2 }
        ensures { let p = self.entry in take (p.n * p.n) result ≡ pair_list p.values.now p.start p.n e }
    {
        let mut list = [0.0; SHEET];
        for i in 0usize..self.n {
            self.row(e, i, &mut list);
        }
        list
    }
}
