// The non-additive hard sphere's contribution (saftvrqmie/eos/non_additive_hs.rs).
// Loops go by index, as in hard_sphere.rt, which says why. One sum over the pairs: a walk over a closure, as the dispersion's three orders have it, would have the column's clauses twice.
ghost use Rattle.std.specs.Prelude.{◌≡◌, ◌<◌, ℕ, Bool, false, cond};
ghost use Rattle.number.specs.Arith.{whole};
ghost use Rattle.number.specs.Lists.{nth};
ghost use Rattle.saftvrqmie_hard_sphere.specs.State.{diagonal, points, sheet_in, entries, Listed, Reads};
ghost use Rattle.saftvrqmie_hard_sphere.specs.HardSphere.{zeta_by, zeta};
ghost use Rattle.saftvrqmie_hard_sphere.specs.NonAdditive.{g_hs, non_additive_ij, non_additive_column, non_additive_sum, density_shares, non_additive};

use crate::State;
use crate::hard_sphere::{Zetas, frac_1mz3, segment_density, zero};
use dual_num::{DualNum, item};
use number::Arithmetic;
use sizes::SIDE;
use sizes::table::HS_DIAMETER;

// What every pair takes: rho_s, zeta[2] and frac_1mz3.
#[derive(Clone, Copy)]
struct Shared<D> {
    rho_s: D,
    z2: D,
    f: D,
}

fn g_hs<D: DualNum>(di: D, dj: D, z2: D, f: D) -> D
    ensures { (w : Bool) → D.of w result ≡ g_hs (D.beside w) (D.of w di) (D.of w dj) (D.of w z2) (D.of w f) }
{
    let mu = di * dj / (di + dj);
    let v = mu * z2;
    f + v * f.square() * D::Plain::lit(3.0) + v.square() * f.cube() * D::Plain::lit(2.0)
}

// From the segment fractions and diameters of both, and the diameter of the pair.
fn non_additive_ij<D: DualNum>(s: Shared<D>, xi: D, xj: D, di: D, dj: D, dij: D) -> D
    ensures { (w : Bool) → D.of w result ≡ non_additive_ij (D.beside w) (D.functions w) (D.of w s.rho_s) (D.of w xi) (D.of w xj) (D.of w di) (D.of w dj) (D.of w dij) (D.of w s.z2) (D.of w s.f) }
{
    let a = (di + dj) * D::Plain::lit(0.5);
    let g = g_hs(di, dj, s.z2, s.f);
    -s.rho_s * xi * xj * a.square() * g * (a - dij) * D::Plain::lit(2.0) * D::pi()
}

// x_s of the non-additive part, in the first n places.
fn density_shares<D: DualNum>(s: &State<D>, rho_s: D, xs: &mut [D; SIDE])
    requires { Listed D.has s.now.n s.now.densities s.now.table }
    ensures { (w : Bool) → let A = D.beside w in
        let rho = entries (D.entry_of w) s.now.densities in
        Reads A (D.of w) s.now.n xs.new (nth A (density_shares A (D.functions w) s.now.n (D.of w rho_s) rho (points A s.now.m.now))) }
{
    for i in 0usize..s.n {
        let p = D::entry(&s.densities, i) * D::Plain::lit(s.m[i]) / rho_s;
        xs[i] = p;
    }
}

fn non_additive_column<D: DualNum>(
    s: &State<D>,
    xs: &[D; SIDE],
    shared: Shared<D>,
    j: usize,
    sum: D,
) -> D
    requires { Listed D.has s.now.n s.now.densities s.now.table × (j < s.now.n) }
    ensures { (w : Bool) (x : ℕ → (D.beside w).Num) (v : (D.beside w).Num) → Reads (D.beside w) (D.of w) s.now.n xs.now x → D.taken w v ≡ D.of w sum →
        let d = sheet_in (entries (D.entry_of w) s.now.table) 1 in
        D.of w result ≡ non_additive_column (D.beside w) (D.functions w) s.now.n x d (D.of w shared.rho_s) (D.of w shared.z2) (D.of w shared.f) j v }
{
    let mut r = sum;
    for i in 0usize..s.n {
        let di = D::entry(&s.table, HS_DIAMETER + (SIDE * i + i));
        let dj = D::entry(&s.table, HS_DIAMETER + (SIDE * j + j));
        let dij = D::entry(&s.table, HS_DIAMETER + (SIDE * i + j));
        let xi = item(xs, i);
        let xj = item(xs, j);
        r = r + non_additive_ij(shared, xi, xj, di, dj, dij);
    }
    r
}

fn non_additive_sum<D: DualNum>(s: &State<D>, xs: &[D; SIDE], shared: Shared<D>) -> D
    requires { Listed D.has s.now.n s.now.densities s.now.table }
    ensures { (w : Bool) (x : ℕ → (D.beside w).Num) → Reads (D.beside w) (D.of w) s.now.n xs.now x →
        let d = sheet_in (entries (D.entry_of w) s.now.table) 1 in
        D.of w result ≡ non_additive_sum (D.beside w) (D.functions w) s.now.n x d (D.of w shared.rho_s) (D.of w shared.z2) (D.of w shared.f) }
{
    let mut r = zero::<D>();
    for j in 0usize..s.n {
        r = non_additive_column(s, xs, shared, j, r);
    }
    r
}

pub fn non_additive<D: DualNum>(s: &State<D>, z: Zetas<D>, xs: &mut [D; SIDE]) -> D
    requires { Listed D.has s.now.n s.now.densities s.now.table }
    ensures { (w : Bool) → let A = D.beside w in
        let rho = entries (D.entry_of w) s.now.densities in
        let d = sheet_in (entries (D.entry_of w) s.now.table) 1 in
        zeta_by (D.of w) z ≡ zeta A (D.functions w) s.now.n rho (diagonal d) (points A s.now.m.now) →
        D.of w result ≡ non_additive A (D.functions w) s.now.n rho (points A s.now.m.now) d }
{
    let f = frac_1mz3(z.z3);
    let rho_s = segment_density(s.n, &s.densities, s.m);
    density_shares(s, rho_s, xs);
    let shared = Shared { rho_s, z2: z.z2, f };
    let sum = non_additive_sum(s, xs, shared);
    (rho_s * sum).after(z.z1).after(z.z0)
}

// Not wanted: +0, and nothing of it is worked. z is the zeta of these densities; xs is room.
// The operation has refused other counts and lists with 1.
pub fn wanted_part<D: DualNum>(s: &State<D>, z: Zetas<D>, xs: &mut [D; SIDE], wanted: bool) -> D
    requires { Listed D.has s.now.n s.now.densities s.now.table }
    ensures part { (w : Bool) → let A = D.beside w in
        let rho = entries (D.entry_of w) s.now.densities in
        let d = sheet_in (entries (D.entry_of w) s.now.table) 1 in
        zeta_by (D.of w) z ≡ zeta A (D.functions w) s.now.n rho (diagonal d) (points A s.now.m.now) →
        D.of w result ≡ cond wanted (non_additive A (D.functions w) s.now.n rho (points A s.now.m.now) d) (D.taken w (whole A 0)) }
    ensures unwanted { (w : Bool) → wanted ≡ false → D.of w result ≡ D.taken w (whole (D.beside w) 0) }
{
    if !wanted {
        return zero();
    }
    non_additive(s, z, xs)
}
