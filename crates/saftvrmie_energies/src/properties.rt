// `Properties::new` (saftvrmie/eos/dispersion.rs): sums over components and pairs, of any run.
// Loops over pairs are by index: a pair's number is of two indices, and the sheets have it at SIDE i + j. What bounds them stands plain, n ≤ side and i < side: a name for a line of two numbers would hide which number the caller owes.
ghost use Rattle.std.specs.Prelude.{◌≡◌, ℕ, Bool, ◌<◌, ◌≤◌, length, map};
ghost use Rattle.number.specs.Answer.{answer_by};
ghost use Rattle.number.specs.Walk.{turns};
ghost use Rattle.sizes.specs.Sizes.{side};
ghost use Rattle.mie_parameters.specs.Sums.{weighted};
ghost use Rattle.saftvrmie_energies.specs.Properties.{total, xs_of, d_ij, d3_ij, s3_ij, zeta_row, zeta_sum, after_lower, properties};
ghost use Rattle.saftvrmie_energies.specs.Reads.{entries, pairs, read, Cubes, properties_by, state_of, Right};

use crate::set::State;
use dual_num::item;
use number::{Arithmetic, Refusal};
use plain_num::PlainNum;
use saftvrmie_dispersion::KValues;
use sizes::{SHEETS, SIDE};

#[derive(Clone, Copy)]
pub struct Properties<D> {
    pub segment_density: D,
    pub zeta_x: D,
    pub zeta_x_bar: D,
    pub k: KValues<D>,
}

pub fn total<D: PlainNum>(v: &[f64]) -> D
    ensures { (w : Bool) → D.of w result ≡ total (D.beside w) (length v.now) (entries (D.beside w) v.now) }
{
    let mut s = D::entered(0.0);
    for x in v {
        s = s + D::entered(*x);
    }
    s
}

// The hard sphere's segment_density begins at a number taken as a D and reads entries that may have slopes; of a plain list it would take empty slopes and the length beside it, and PlainNum would need two laws more: that such a list has its entries, and what `entry` reads there.
pub fn weighted<D: PlainNum>(v: &[f64], m: &[f64; SIDE]) -> D
    requires { length v.now ≤ side }
    ensures { (w : Bool) → D.of w result ≡ weighted (D.beside w) (length v.now) (entries (D.beside w) v.now) (entries (D.beside w) m.now) }
{
    let mut s = D::entered(0.0);
    // By index, here and below: m has a place for each component of the side, and the definition's turn is of an index.
    for (i, x) in v.iter().enumerate() {
        s = s + D::entered(*x) * D::Plain::lit(m[i]);
    }
    s
}

pub fn xs_of<D: PlainNum>(x: &[f64], m: &[f64; SIDE], mean: D) -> [D; SIDE]
    requires { length x.now ≤ side }
    ensures { (w : Bool) → map (D.of w) result ≡ xs_of (D.beside w) (length x.now) (entries (D.beside w) x.now) (entries (D.beside w) m.now) (D.of w mean) }
{
    let zero = D::entered(0.0);
    let mut xs = [zero; SIDE];
    for (i, fraction) in x.iter().enumerate() {
        let p = D::entered(*fraction) * D::Plain::lit(m[i]) / mean;
        xs[i] = p;
    }
    xs
}

pub fn d_ij<D: PlainNum>(d: &[f64], i: usize, j: usize) -> D
    requires { (i < length d.now) × (j < length d.now) }
    ensures { (w : Bool) → D.of w result ≡ d_ij (D.beside w) (entries (D.beside w) d.now) i j }
{
    (D::entered(d[i]) + D::entered(d[j])) * D::Plain::lit(0.5)
}

fn d3_ij<D: PlainNum>(d: &[f64], i: usize, j: usize) -> D
    requires { (i < length d.now) × (j < length d.now) }
    ensures { (w : Bool) → D.of w result ≡ d3_ij (D.beside w) (entries (D.beside w) d.now) i j }
{
    d_ij::<D>(d, i, j).cube()
}

fn s3_ij<D: PlainNum>(s: &[f64; SHEETS], i: usize, j: usize) -> D
    requires { (i < side) × (j < side) }
    ensures { (w : Bool) → D.of w result ≡ s3_ij (D.beside w) (pairs (D.beside w) s.now) i j }
{
    D::entered(s[SIDE * i + j]).cube()
}

// Row i of zeta_x or of zeta_x_bar: cube gives d³ or sigma³ of a pair.
fn zeta_row<D: PlainNum, F: Fn(usize, usize) -> D>(
    n: usize,
    xs: &[D; SIDE],
    cube: &F,
    i: usize,
    start: D,
) -> D
    requires inside { (n ≤ side) × (i < n) }
    requires callable { (j : ℕ) → j < n → F.pre cube.now i j }
    ensures { (w : Bool) (c : ℕ → ℕ → (D.beside w).Num) → Cubes n (D.of w) (F.post cube.now) c
        → D.of w result ≡ zeta_row (D.beside w) n (read (D.beside w) (D.of w) xs.now) c i (D.of w start) }
{
    let xi = item(xs, i);
    let two = D::Plain::lit(2.0);
    let mut s = start + xi.square() * cube(i, i);
    for j in i + 1..n {
        s = s + xi * item(xs, j) * cube(i, j) * two;
    }
    s
}

fn zeta_sum<D: PlainNum, F: Fn(usize, usize) -> D>(n: usize, xs: &[D; SIDE], cube: F) -> D
    requires inside { n ≤ side }
    requires callable { (i j : ℕ) → i < n → j < n → F.pre cube i j }
    ensures { (w : Bool) (c : ℕ → ℕ → (D.beside w).Num) → Cubes n (D.of w) (F.post cube) c
        → D.of w result ≡ zeta_sum (D.beside w) n (read (D.beside w) (D.of w) xs.now) c }
{
    let mut s = D::entered(0.0);
    for i in 0usize..n {
        s = zeta_row(n, xs, &cube, i, s);
    }
    s
}

// d_ij and d3_ij of the pairs (i, j) with j < i: worked, and nothing uses them.
fn after_row<D: PlainNum>(d: &[f64], i: usize, start: D) -> D
    requires { (i ≤ side) × (i < length d.now) }
    ensures { (w : Bool) → D.of w result ≡ turns i (λ j r. (D.beside w).after (d3_ij (D.beside w) (entries (D.beside w) d.now) i j) r) (D.of w start) }
{
    let mut s = start;
    for j in 0usize..i {
        s = s.after(d3_ij::<D>(d, i, j));
    }
    s
}

fn after_lower<D: PlainNum>(n: usize, d: &[f64], x: D) -> D
    requires { (n ≤ side) × (length d.now ≡ n) }
    ensures { (w : Bool) → D.of w result ≡ after_lower (D.beside w) n (d3_ij (D.beside w) (entries (D.beside w) d.now)) (D.of w x) }
{
    let mut s = x;
    for i in 0usize..n {
        s = after_row(d, i, s);
    }
    s
}

// Inlined, as `k_values` is: dispersion alone does not use k0 to k3, and floats then do not work them.
#[inline(always)]
pub fn properties_of<D: PlainNum>(s: &State, xs: &[D; SIDE]) -> Result<Properties<D>, Refusal>
    requires { Right s.now }
    ensures { (w : Bool) → let A = D.beside w in
        let t = state_of A s.now in
        answer_by (properties_by (D.of w)) result ≡ properties A (D.functions w) s.now.set.count (read A (D.of w) xs.now) t.density t.diameter t.m t.pair }
{
    let set = s.set;
    let n = set.count;
    let d = s.diameters;
    let segment_density = weighted::<D>(s.densities, set.m);
    let factor = segment_density * D::frac_pi_6();
    let sum = zeta_sum(n, xs, |i, j| d3_ij::<D>(d, i, j));
    let zeta_x = after_lower(n, d, sum * factor);
    let sheets = set.sheets;
    let sum_bar = zeta_sum(n, xs, |i, j| s3_ij::<D>(sheets, i, j));
    let zeta_x_bar = sum_bar * factor;
    let k = saftvrmie_dispersion::k_values(zeta_x)?;
    Ok(Properties {
        segment_density,
        zeta_x,
        zeta_x_bar,
        k,
    })
}

// The number, where k0 to k3 were worked on the way: `Properties::new` works them, dispersion alone does not use them.
pub fn after_ks<D: PlainNum>(k: KValues<D>, x: D) -> D
    ensures { (w : Bool) → let A = D.beside w in
        D.of w result ≡ A.after (D.of w k.k0) (A.after (D.of w k.k1) (A.after (D.of w k.k2) (A.after (D.of w k.k3) (D.of w x)))) }
{
    x.after(k.k3).after(k.k2).after(k.k1).after(k.k0)
}
