// The six sheets of a set, filled pair by pair from component lists.
// In the contracts e < sheet, i < size and size ≤ side stand plain: each bounds one number, and a name would be longer.
#![tactic(auto)]

ghost use Rattle.std.specs.Prelude.{◌≡◌, ◌<◌, ◌≤◌, ℕ, List, Float};
ghost use Rattle.number.specs.Ans.{Ans};
ghost use Rattle.number.specs.Answer.{answer};
ghost use Rattle.number.specs.Walk.{walk};
ghost use Rattle.sizes.specs.Sizes.{side, sheet};
ghost use Rattle.mie_parameters.specs.Answer.{outcome};
ghost use Rattle.mie_parameters.specs.Sheets.{store_row, sheets_row};

use number::Refusal;
use sizes::{SHEET, SHEETS, SIDE};

// Component lists of a model.
pub trait PairLists {
    // What stands at a pair.
    type Pair: Copy + Drop;

    ghost size: { Self → ℕ };

    // What right lengths say.
    ghost fits: { Self → Type 0 };

    ghost pair_at: { Self → ℕ → ℕ → Ans Self.Pair };

    ghost row_of: { Self.Pair → List Float };

    fn count(&self) -> usize
        ensures { result ≡ size self.now };

    // The combining rules at a pair.
    fn pair(&self, i: usize, j: usize) -> Result<Self::Pair, Refusal>
        requires { (i < size self.now) × (j < size self.now) × fits self.now }
        ensures { answer result ≡ pair_at self.now i j };

    // Its numbers in the order of the sheets.
    fn row(p: Self::Pair) -> [f64; 6]
        ensures { result ≡ row_of p };
}

// Written out: inlined, each number is stored as it is worked.
#[inline(always)]
fn store_row(s: &mut [f64; SHEETS], e: usize, p: [f64; 6])
    requires { e < sheet }
    ensures { s.new ≡ store_row s.old e p }
{
    s[e] = p[0];
    s[SHEET + e] = p[1];
    s[2 * SHEET + e] = p[2];
    s[3 * SHEET + e] = p[3];
    s[4 * SHEET + e] = p[4];
    s[5 * SHEET + e] = p[5];
}

// Row i of the six sheets. By index, here and below: a pair is asked for by its indexes, and its entry is worked from them.
fn sheets_row<L: PairLists>(l: &L, i: usize, s: &mut [f64; SHEETS]) -> Result<(), Refusal>
    requires { (i < L.size l.now) × (L.size l.now ≤ side) × L.fits l.now }
    ensures { outcome result s.new ≡ sheets_row L.row_of (L.size l.now) (L.pair_at l.now) i s.old }
{
    let n = l.count();
    for j in 0usize..n {
        let p = l.pair(i, j)?;
        store_row(s, SIDE * i + j, L::row(p));
    }
    Ok(())
}

pub fn fill_sheets<L: PairLists>(l: &L, s: &mut [f64; SHEETS]) -> Result<(), Refusal>
    requires { (L.size l.now ≤ side) × L.fits l.now }
    ensures { outcome result s.new ≡ walk (L.size l.now) (sheets_row L.row_of (L.size l.now) (L.pair_at l.now)) s.old }
{
    let n = l.count();
    for i in 0usize..n {
        sheets_row(l, i, s)?;
    }
    Ok(())
}
