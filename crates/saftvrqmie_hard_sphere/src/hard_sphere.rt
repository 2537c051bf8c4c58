// The hard sphere's contribution (saftvrqmie/eos/hard_sphere.rs): the sums `zeta` and `zeta_23`, and the energy.
// All loops of this crate and of the dispersion's sums go by index: `entry` takes a place, since it reads a value alone or with its slope from a second list, and a table's places are computed.
ghost use Rattle.std.specs.Prelude.{◌≡◌, Bool};
ghost use Rattle.number.specs.Answer.{answer_by};
ghost use Rattle.number.specs.Arith.{whole};
ghost use Rattle.mie_parameters.specs.Sums.{weighted};
ghost use Rattle.saftvrqmie_hard_sphere.specs.State.{diagonal, points, sheet_in, entries, Components, Listed};
ghost use Rattle.saftvrqmie_hard_sphere.specs.HardSphere.{ZetaIn, Zeta23In, zeta_by, zeta_each, zeta23_by, zeta23_each, zeta_added, frac1mz3, zeta23_added, hard_sphere_of, zeta, zeta23, hard_sphere_from};

use crate::State;
use dual_num::{DualNum, NumberList};
use number::{Arithmetic, Refusal};
use sizes::SIDE;
use sizes::table::HS_DIAMETER;

// The four sums of `zeta`. Fields, not an array: each is worked by a text of its own and read by its name.
#[derive(Clone, Copy)]
pub struct Zetas<D> {
    pub z0: D,
    pub z1: D,
    pub z2: D,
    pub z3: D,
}

// The two sums of `zeta_23`.
#[derive(Clone, Copy)]
struct Zeta23<D> {
    y0: D,
    y1: D,
}

// What a sum begins at.
pub fn zero<D: DualNum>() -> D
    ensures { (w : Bool) → D.of w result ≡ D.taken w (whole (D.beside w) 0) }
{
    D::lift(D::Plain::lit(0.0))
}

// PI / 6.0 is an operation of the Rust, not one number.
fn zeta_added<D: DualNum>(rho: D, d: D, m: D::Plain, z: Zetas<D>) -> Zetas<D>
    ensures { (w : Bool) (v : ZetaIn (D.beside w).Num) → zeta_each (D.taken w) v ≡ zeta_by (D.of w) z →
        zeta_by (D.of w) result ≡ zeta_added (D.beside w) (D.functions w) (D.of w rho) (D.of w d) (D.plain w m) v }
{
    let share = D::pi() / D::Plain::lit(6.0) * m;
    Zetas {
        z0: z.z0 + rho * d.powi(0) * share,
        z1: z.z1 + rho * d.powi(1) * share,
        z2: z.z2 + rho * d.square() * share,
        z3: z.z3 + rho * d.cube() * share,
    }
}

// Here and in the energies below, counts and lists are asked for that an operation has let pass: it refuses others with 1 before it sums.
pub fn zeta<D: DualNum>(s: &State<D>) -> Zetas<D>
    requires { Listed D.has s.now.n s.now.densities s.now.table }
    ensures { (w : Bool) → let rho = entries (D.entry_of w) s.now.densities in
        let d = diagonal (sheet_in (entries (D.entry_of w) s.now.table) 1) in
        zeta_by (D.of w) result ≡ zeta (D.beside w) (D.functions w) s.now.n rho d (points (D.beside w) s.now.m.now) }
{
    let none = zero::<D>();
    let mut z = Zetas {
        z0: none,
        z1: none,
        z2: none,
        z3: none,
    };
    for i in 0usize..s.n {
        let a = D::entry(&s.densities, i);
        let d = D::entry(&s.table, HS_DIAMETER + (SIDE * i + i));
        z = zeta_added(a, d, D::Plain::lit(s.m[i]), z);
    }
    z
}

pub fn frac_1mz3<D: DualNum>(z3: D) -> D
    ensures { (w : Bool) → D.of w result ≡ frac1mz3 (D.beside w) (D.of w z3) }
{
    -(z3 - D::Plain::lit(1.0)).recip()
}

fn zeta_23_added<D: DualNum>(x: D, d: D, m: D::Plain, y: Zeta23<D>) -> Zeta23<D>
    ensures { (w : Bool) (v : Zeta23In (D.beside w).Num) → zeta23_each (D.taken w) v ≡ zeta23_by (D.of w) y →
        zeta23_by (D.of w) result ≡ zeta23_added (D.beside w) (D.of w x) (D.of w d) (D.plain w m) v }
{
    Zeta23 {
        y0: y.y0 + x * d.square() * m,
        y1: y.y1 + x * d.cube() * m,
    }
}

// Beside zeta's, two sums whose parts end with m and not with its share of pi: other roundings.
fn zeta_23<D: DualNum>(s: &State<D>) -> D
    requires { Listed D.has s.now.n s.now.fractions s.now.table }
    ensures { (w : Bool) → let x = entries (D.entry_of w) s.now.fractions in
        let d = diagonal (sheet_in (entries (D.entry_of w) s.now.table) 1) in
        D.of w result ≡ zeta23 (D.beside w) s.now.n x d (points (D.beside w) s.now.m.now) }
{
    let none = zero::<D>();
    let mut y = Zeta23 { y0: none, y1: none };
    for i in 0usize..s.n {
        let a = D::entry(&s.fractions, i);
        let d = D::entry(&s.table, HS_DIAMETER + (SIDE * i + i));
        y = zeta_23_added(a, d, D::Plain::lit(s.m[i]), y);
    }
    y.y0 / y.y1
}

// l is the logarithm of 1 - zeta[3].
fn hard_sphere_of<D: DualNum>(z: Zetas<D>, z23: D, l: D) -> D
    ensures { (w : Bool) → D.of w result ≡ hard_sphere_of (D.beside w) (D.functions w) (zeta_by (D.of w) z) (D.of w z23) (D.of w l) }
{
    let f = frac_1mz3(z.z3);
    (z.z1 * z.z2 * f * D::Plain::lit(3.0)
        + z.z2.square() * f.square() * z23
        + (z.z2 * z23.square() - z.z0) * l)
        * D::Plain::lit(6.0)
        / D::pi()
}

// From the zetas, which the non-additive part takes too.
pub fn helmholtz_energy_density<D: DualNum>(s: &State<D>, z: Zetas<D>) -> Result<D, Refusal>
    requires { Listed D.has s.now.n s.now.fractions s.now.table }
    ensures { (w : Bool) → let x = entries (D.entry_of w) s.now.fractions in
        let d = diagonal (sheet_in (entries (D.entry_of w) s.now.table) 1) in
        answer_by (D.of w) result ≡ hard_sphere_from (D.beside w) (D.functions w) s.now.n x d (points (D.beside w) s.now.m.now) (zeta_by (D.of w) z) }
{
    let v = z.z3 * D::Plain::lit(-1.0);
    let l = v.ln_1p()?;
    let z23 = zeta_23(s);
    Ok(hard_sphere_of(z, z23, l))
}

pub fn segment_density<D: DualNum>(n: usize, rho: &NumberList, m: &[f64; SIDE]) -> D
    requires { Components D.has n rho.now }
    ensures { (w : Bool) → let rho = entries (D.entry_of w) rho.now in
        D.of w result ≡ weighted (D.beside w) n rho (points (D.beside w) m.now) }
{
    let mut r = zero::<D>();
    for i in 0usize..n {
        r = r + D::entry(rho, i) * D::Plain::lit(m[i]);
    }
    r
}
