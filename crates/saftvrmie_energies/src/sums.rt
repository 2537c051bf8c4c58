// The sums of the three orders and of the chain over components and pairs (saftvrmie/eos/dispersion.rs). Indexes are turns of loops over the count, since a turn reads each of the state's lists, the segment fractions and the sheets at its index.
ghost use Rattle.std.specs.Prelude.{◌≡◌, ℕ, Bool, ◌<◌};
ghost use Rattle.number.specs.Ans.{Ans};
ghost use Rattle.number.specs.Walk.{walk};
ghost use Rattle.number.specs.Answer.{answer_by};
ghost use Rattle.slope_num.specs.Value.{slope_by};
ghost use Rattle.saftvrmie_dispersion.specs.Terms.{SumsIn};
ghost use Rattle.saftvrmie_dispersion.specs.Answer.{fluid_by, bar_by, sums_by, k_by};
ghost use Rattle.saftvrmie_energies.specs.Dispersion.{no_sums};
ghost use Rattle.saftvrmie_energies.specs.Reads.{Rows};
ghost use Rattle.saftvrmie_energies.specs.Sums.{turn_of, pairs_of, row_of, rows_of, chain_row_of, chain_rows_of};

use crate::mixture::Mixture;
use crate::properties::d_ij;
use crate::set::pure_at;
use dual_num::item;
use number::Refusal;
use plain_num::PlainNum;
use saftvrmie_dispersion::{Bar, ChainNum, ChainState, Link, Sums};
use saftvrmie_parameters::pair_at;

fn pair_turn<D: PlainNum>(
    m: &Mixture<D>,
    bar: &Bar<D>,
    i: usize,
    j: usize,
    sum: Sums<D>,
) -> Result<Sums<D>, Refusal>
    requires { (i < m.now.state.now.set.count) × (j < m.now.state.now.set.count) }
    ensures { (w : Bool) → answer_by (sums_by (D.of w)) result
        ≡ turn_of (D.beside w) (D.functions w) (D.of w) m.now (bar_by (D.of w) bar.now) i j (sums_by (D.of w) sum) }
{
    let s = m.state;
    let p = pair_at(s.set.sheets, i, j);
    let d = d_ij::<D>(s.diameters, i, j);
    let t = saftvrmie_dispersion::pair_terms(*m.fluid, *bar, p, d)?;
    Ok(saftvrmie_dispersion::add_pair(item(m.xs, i), item(m.xs, j), t, sum))
}

// The pairs (i, j) with j > i.
fn pair_row<D: PlainNum>(
    m: &Mixture<D>,
    bar: &Bar<D>,
    i: usize,
    start: Sums<D>,
) -> Result<Sums<D>, Refusal>
    requires { i < m.now.state.now.set.count }
    ensures { (w : Bool) → answer_by (sums_by (D.of w)) result
        ≡ pairs_of (D.beside w) (D.functions w) (D.of w) m.now (bar_by (D.of w) bar.now) i (sums_by (D.of w) start) }
{
    let mut sum = start;
    for j in i + 1..m.state.set.count {
        sum = pair_turn(m, bar, i, j, sum)?;
    }
    Ok(sum)
}

// Component i without chain, then its pairs.
fn disp_row<D: PlainNum>(
    m: &Mixture<D>,
    bar: &Bar<D>,
    i: usize,
    sum: Sums<D>,
) -> Result<Sums<D>, Refusal>
    requires { i < m.now.state.now.set.count }
    ensures { (w : Bool) → answer_by (sums_by (D.of w)) result
        ≡ row_of (D.beside w) (D.functions w) (D.of w) m.now (bar_by (D.of w) bar.now) i (sums_by (D.of w) sum) }
{
    let s = m.state;
    let p = pure_at(&s.set, i);
    let d = D::entered(s.diameters[i]);
    let t = saftvrmie_dispersion::pair_terms(*m.fluid, *bar, p, d)?;
    let next = saftvrmie_dispersion::add_pure(item(m.xs, i), t, sum);
    pair_row(m, bar, i, next)
}

fn no_sums<D: PlainNum>() -> Sums<D>
    ensures { (w : Bool) → sums_by (D.of w) result ≡ no_sums (D.beside w) (D.functions w) }
{
    let zero = D::entered(0.0);
    Sums {
        a1: zero,
        a2: zero,
        a3: zero,
        a_chain: zero,
    }
}

// A sum from nothing on, row by row, up to the first that refuses. The quantum dispersion's rows begins at a plain +0 that is taken as a D, which its clause carries.
fn rows<D: PlainNum, F: Fn(usize, Sums<D>) -> Result<Sums<D>, Refusal>>(
    n: usize,
    row: F,
) -> Result<Sums<D>, Refusal>
    requires { (i : ℕ) (sum : _) → i < n → F.pre row i sum }
    ensures { (w : Bool) (f : ℕ → SumsIn (D.beside w).Num → Ans (SumsIn (D.beside w).Num)) → Rows n (sums_by (D.of w)) (F.post row) f
        → answer_by (sums_by (D.of w)) result ≡ walk n f (no_sums (D.beside w) (D.functions w)) }
{
    let mut sum = no_sums::<D>();
    for i in 0usize..n {
        sum = row(i, sum)?;
    }
    Ok(sum)
}

pub fn disp_rows<D: PlainNum>(m: &Mixture<D>, bar: &Bar<D>) -> Result<Sums<D>, Refusal>
    ensures { (w : Bool) → answer_by (sums_by (D.of w)) result
        ≡ rows_of (D.beside w) (D.functions w) (D.of w) m.now (bar_by (D.of w) bar.now) }
{
    rows(m.state.set.count, |i, sum| disp_row(m, bar, i, sum))
}

// Component i with slopes and its link, then its pairs.
fn chain_row<S: ChainNum>(
    m: &Mixture<S::Re>,
    chain: &ChainState<S, S::Re>,
    t_inv: S::Re,
    i: usize,
    sum: Sums<S::Re>,
) -> Result<Sums<S::Re>, Refusal>
    requires { i < m.now.state.now.set.count }
    ensures { (w : Bool) → let of = S.Re.of w in
        let v = fluid_by (slope_by S.parts of) chain.now.fluid in
        answer_by (sums_by of) result
        ≡ chain_row_of (S.Re.beside w) (S.Re.functions w) of m.now (bar_by of chain.now.bar) v (k_by of chain.now.k) (of t_inv) i (sums_by of sum) }
{
    let s = m.state;
    let p = pure_at(&s.set, i);
    let link = Link {
        m: S::Re::entered(s.set.m[i]),
        fraction: S::Re::entered(s.fractions[i]),
        t_inv,
    };
    let xi = item(m.xs, i);
    let d = S::Re::entered(s.diameters[i]);
    let next = saftvrmie_dispersion::chain_pure(chain, p, d, link, xi, sum)?;
    pair_row(m, &chain.bar, i, next)
}

pub fn chain_rows<S: ChainNum>(
    m: &Mixture<S::Re>,
    chain: &ChainState<S, S::Re>,
    t_inv: S::Re,
) -> Result<Sums<S::Re>, Refusal>
    ensures { (w : Bool) → let of = S.Re.of w in
        let v = fluid_by (slope_by S.parts of) chain.now.fluid in
        answer_by (sums_by of) result
        ≡ chain_rows_of (S.Re.beside w) (S.Re.functions w) of m.now (bar_by of chain.now.bar) v (k_by of chain.now.k) (of t_inv) }
{
    rows(
        m.state.set.count,
        |i, sum| chain_row(m, chain, t_inv, i, sum),
    )
}
