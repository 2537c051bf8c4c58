// The dispersion's contribution (saftvrqmie/eos/dispersion.rs), of any run: segment and packing fractions, alphas, the sums of the three orders.
// In `beside true`, where a negated number is a D.
// Loops count: `entry` takes a place, as saftvrqmie_hard_sphere says. Beside `rows` stand packing, whose rows do not refuse, and the alphas, whose rows hand on no number but a list written in place: over an FnMut `rows` would say of two states of a closure what it says of two numbers.
#![tactic(auto)]

ghost use Rattle.std.specs.Prelude.{◌≡◌, ◌+◌, ◌*◌, ◌<◌, ◌≤◌, ℕ, true, map, length};
ghost use Rattle.number.specs.Ans.{Ans};
ghost use Rattle.number.specs.Answer.{answer_by};
ghost use Rattle.number.specs.Arith.{whole};
ghost use Rattle.number.specs.Lists.{nth};
ghost use Rattle.number.specs.Walk.{walk};
ghost use Rattle.sizes.specs.Sizes.{side, sheet};
ghost use Rattle.mie_parameters.specs.Answer.{outcome};
ghost use Rattle.saftvrqmie_hard_sphere.specs.State.{points, sheet_in, entries, Right, Reads};
ghost use Rattle.saftvrqmie_dispersion.specs.Perturbation.{dispersion_by};
ghost use Rattle.saftvrqmie_dispersion.specs.Alpha.{alpha};
ghost use Rattle.saftvrqmie_dispersion_sums.specs.State.{sheets_read, Pairs, Rows};
ghost use Rattle.saftvrqmie_dispersion_sums.specs.Dispersion.{mixture_by, inv_xs_sum, segment_fractions, packing_row, packing, alpha_row, first_row, first, second_row, second, third_row, third, mixture, dispersion_pair_at, dispersion};

use dual_num::{DualNum, item};
use number::{Arithmetic, Refusal};
use saftvrqmie_dispersion::DispersionPair;
pub use saftvrqmie_hard_sphere::State;
use saftvrqmie_hard_sphere::{segment_density, zero};
use sizes::table::{EPSILON_K_EFF, HS_DIAMETER, QUANTUM_D, SIGMA_EFF};
use sizes::{SHEET, SIDE};

#[derive(Clone, Copy)]
pub struct SegmentState<D> {
    pub rho_s: D,
    pub zeta: D,
    pub zeta_bar: D,
}

// What the sums of the three orders read: a state, its segment fractions and what they share of them. xs and the alphas beside it are slices: of an array of a run's numbers behind a field or in a closure it is not proved that it fits in memory.
// That the state was tested is each function's premise: nothing shows that D.has has one proof at most, so no ghost field keeps it.
#[derive(Drop)]
struct Mixture<'a, D> {
    state: &'a State<'a, D>,
    xs: &'a [D],
    segment: SegmentState<D>,
    ghost long: { length xs.now ≡ side },
}

// x_s.sum().recip()
fn inv_x_s_sum<D: DualNum>(s: &State<D>) -> D
    requires { Right D.has s.now }
    ensures { let A = D.beside true in
        let x = entries (D.entry_of true) s.now.fractions in
        D.of true result ≡ inv_xs_sum A s.now.n x (points A s.now.m.now) }
{
    let sum = segment_density::<D>(s.n, &s.fractions, s.m);
    sum.recip()
}

// x_s, in the first n places.
fn segment_fractions<D: DualNum>(s: &State<D>, xs: &mut [D; SIDE])
    requires { Right D.has s.now }
    ensures { let A = D.beside true in
        let x = entries (D.entry_of true) s.now.fractions in
        Reads A (D.of true) s.now.n xs.new (nth A (segment_fractions A s.now.n x (points A s.now.m.now))) }
{
    let inv = inv_x_s_sum::<D>(s);
    for i in 0usize..s.n {
        let p = D::entry(&s.fractions, i) * D::Plain::lit(s.m[i]) * inv;
        xs[i] = p;
    }
}

fn packing_row<D: DualNum>(s: &State<D>, xs: &[D; SIDE], from: usize, i: usize, sum: D) -> D
    requires { Right D.has s.now × (from ≤ 3 * sheet) × (i < s.now.n) }
    ensures { let A = D.beside true in
        (x : ℕ → A.Num) (v : A.Num) → Reads A (D.of true) s.now.n xs.now x → D.taken true v ≡ D.of true sum →
        let d = λ (e : ℕ). entries (D.entry_of true) s.now.table (from + e) in
        D.of true result ≡ packing_row A (D.functions true) s.now.n x d i v }
{
    let mut r = sum;
    for j in 0usize..s.n {
        let d = D::entry(&s.table, from + (SIDE * i + j));
        let xi = item(xs, i);
        let xj = item(xs, j);
        r = r + xi * xj * d.cube();
    }
    r
}

// `zeta_saft_vrq_mie` of the sheet that starts at `from`, as sizes names it.
fn packing<D: DualNum>(s: &State<D>, xs: &[D; SIDE], from: usize, rho_s: D) -> D
    requires { Right D.has s.now × (from ≤ 3 * sheet) }
    ensures { let A = D.beside true in
        (x : ℕ → A.Num) → Reads A (D.of true) s.now.n xs.now x →
        let d = λ (e : ℕ). entries (D.entry_of true) s.now.table (from + e) in
        D.of true result ≡ packing A (D.functions true) s.now.n x d (D.of true rho_s) }
{
    let mut r = zero::<D>();
    for i in 0usize..s.n {
        r = packing_row(s, xs, from, i, r);
    }
    r * D::frac_pi_6() * rho_s
}

fn segment_state<D: DualNum>(s: &State<D>, xs: &[D; SIDE]) -> SegmentState<D>
    requires { Right D.has s.now }
    ensures { let A = D.beside true in
        (x : ℕ → A.Num) → Reads A (D.of true) s.now.n xs.now x →
        let of = sheet_in (entries (D.entry_of true) s.now.table) in
        let rho = entries (D.entry_of true) s.now.densities in
        mixture_by (D.of true) result ≡ mixture A (D.functions true) s.now.n (of 0) (of 1) x rho (points A s.now.m.now) }
{
    let rho_s = segment_density::<D>(s.n, &s.densities, s.m);
    let zeta = packing(s, xs, HS_DIAMETER, rho_s);
    let zeta_bar = packing(s, xs, SIGMA_EFF, rho_s);
    SegmentState {
        rho_s,
        zeta,
        zeta_bar,
    }
}

// The alpha of a pair.
fn alpha_at<D: DualNum>(s: &State<D>, e: usize) -> Result<D, Refusal>
    requires { Right D.has s.now × (e < sheet) }
    ensures { let A = D.beside true in
        let sheets = sheets_read A (D.of true) (D.entry_of true) s.now in
        answer_by (D.of true) result ≡ alpha A (D.functions true) (sheets.pair e) (sheets.sigma_eff e) (sheets.epsilon_k_eff e) }
{
    let p = saftvrqmie_potential::pair_at(s.sheets, s.orders, s.temperature, e);
    let pair = saftvrqmie_potential::points(p);
    let sigma = D::entry(&s.table, SIGMA_EFF + e);
    let depth = D::entry(&s.table, EPSILON_K_EFF + e);
    saftvrqmie_dispersion::alpha_ij(&pair, sigma, depth)
}

// `Alpha::new` of a row; 6 where a power is outside.
fn alpha_row<D: DualNum>(s: &State<D>, i: usize, alphas: &mut [D; SHEET]) -> Result<(), Refusal>
    requires { Right D.has s.now × (i < s.now.n) }
    ensures { let A = D.beside true in
        let sheets = sheets_read A (D.of true) (D.entry_of true) s.now in
        outcome result (map (D.of true) alphas.new) ≡ alpha_row A (D.functions true) sheets i (map (D.of true) alphas.old) }
{
    for j in i..s.n {
        let e = SIDE * i + j;
        let a = alpha_at(s, e)?;
        alphas[e] = a;
        alphas[SIDE * j + i] = a;
    }
    Ok(())
}

fn alphas_of<D: DualNum>(s: &State<D>, alphas: &mut [D; SHEET]) -> Result<(), Refusal>
    requires { Right D.has s.now }
    ensures { let A = D.beside true in
        let sheets = sheets_read A (D.of true) (D.entry_of true) s.now in
        outcome result (map (D.of true) alphas.new) ≡ walk s.now.n (alpha_row A (D.functions true) sheets) (map (D.of true) alphas.old) }
{
    for i in 0usize..s.n {
        alpha_row(s, i, alphas)?;
    }
    Ok(())
}

// What both perturbations of the pair at entry e take.
fn perturbed_pair<D: DualNum>(m: &Mixture<D>, e: usize) -> DispersionPair<D, D::Plain>
    requires { Right D.has m.now.state.now × (e < sheet) }
    ensures { let A = D.beside true in
        let sheets = sheets_read A (D.of true) (D.entry_of true) m.now.state.now in
        (x : ℕ → A.Num) → dispersion_by (D.plain true) (D.of true) result ≡ dispersion_pair_at A (D.functions true) sheets x (mixture_by (D.of true) m.now.segment) e }
{
    let s = m.state;
    let p = saftvrqmie_potential::pair_at(s.sheets, s.orders, s.temperature, e);
    let pair = saftvrqmie_potential::points(p);
    let d = D::entry(&s.table, HS_DIAMETER + e);
    let sigma = D::entry(&s.table, SIGMA_EFF + e);
    let q = D::entry(&s.table, QUANTUM_D + e);
    saftvrqmie_dispersion::dispersion_pair(&pair, d, sigma, q, m.segment.zeta)
}

// A sum from +0 on, row by row, up to the first that refuses. Of core's try_fold no clause says walk: it has the fold of a function of the closure's own numbers, where a row's clause is of what D.of reads of them, or a relation of turns over what a range yields.
fn rows<D: DualNum, F: Fn(usize, D) -> Result<D, Refusal>>(n: usize, row: F) -> Result<D, Refusal>
    requires begun { 0 < n }
    requires callable { (i : ℕ) (sum : D) → i < n → F.pre row i sum }
    ensures { let A = D.beside true in
        (f : ℕ → A.Num → Ans A.Num) → Rows n (D.of true) (D.taken true) (F.post row) f →
        answer_by (D.of true) result ≡ walk n f (whole A 0) }
{
    let mut sum = zero::<D>();
    for i in 0usize..n {
        sum = row(i, sum)?;
    }
    Ok(sum)
}

fn first_row<D: DualNum>(m: &Mixture<D>, i: usize, sum: D) -> Result<D, Refusal>
    requires { Right D.has m.now.state.now × (i < m.now.state.now.n) }
    ensures { let A = D.beside true in
        let sheets = sheets_read A (D.of true) (D.entry_of true) m.now.state.now in
        (x : ℕ → A.Num) (v : A.Num) → Reads A (D.of true) sheets.count m.now.xs.now x → D.taken true v ≡ D.of true sum →
        answer_by (D.of true) result ≡ first_row A (D.functions true) sheets x (mixture_by (D.of true) m.now.segment) i v }
{
    let s = m.state;
    let mut a1 = sum;
    for j in i..s.n {
        let e = SIDE * i + j;
        let pair = perturbed_pair(m, e);
        let v = saftvrqmie_dispersion::first_order_perturbation_ij(&pair)?;
        let d = D::entry(&s.table, HS_DIAMETER + e);
        let xi = item(m.xs, i);
        let xj = item(m.xs, j);
        a1 = a1 + saftvrqmie_dispersion::lead(i, j, xi, xj, m.segment.rho_s, d) * v;
    }
    Ok(a1)
}

fn first<D: DualNum>(m: &Mixture<D>) -> Result<D, Refusal>
    requires { Right D.has m.now.state.now }
    ensures { let A = D.beside true in
        let sheets = sheets_read A (D.of true) (D.entry_of true) m.now.state.now in
        (x : ℕ → A.Num) → Reads A (D.of true) sheets.count m.now.xs.now x →
        answer_by (D.of true) result ≡ first A (D.functions true) sheets x (mixture_by (D.of true) m.now.segment) }
{
    rows(m.state.n, |i, a1| first_row(m, i, a1))
}

fn second_row<D: DualNum>(m: &Mixture<D>, alphas: &[D], i: usize, sum: D) -> Result<D, Refusal>
    requires { Right D.has m.now.state.now × (i < m.now.state.now.n) × (length alphas.now ≡ sheet) }
    ensures { let A = D.beside true in
        let sheets = sheets_read A (D.of true) (D.entry_of true) m.now.state.now in
        (x : ℕ → A.Num) (a : ℕ → A.Num) (v : A.Num) → Reads A (D.of true) sheets.count m.now.xs.now x → Pairs A sheets.count (map (D.of true) alphas.now) a → D.taken true v ≡ D.of true sum →
        answer_by (D.of true) result ≡ second_row A (D.functions true) sheets x (mixture_by (D.of true) m.now.segment) a i v }
{
    let s = m.state;
    let mut a2 = sum;
    for j in i..s.n {
        let e = SIDE * i + j;
        let pair = perturbed_pair(m, e);
        let v = saftvrqmie_dispersion::second_order_perturbation_ij::<D, true>(&pair)?;
        let d = D::entry(&s.table, HS_DIAMETER + e);
        let a = item(alphas, e);
        let chi = saftvrqmie_dispersion::chi(a, m.segment.zeta_bar);
        let xi = item(m.xs, i);
        let xj = item(m.xs, j);
        let f = saftvrqmie_dispersion::lead(i, j, xi, xj, m.segment.rho_s, d);
        a2 = a2 + f * (chi + D::Plain::lit(1.0)) * v;
    }
    Ok(a2)
}

fn second<D: DualNum>(m: &Mixture<D>, alphas: &[D]) -> Result<D, Refusal>
    requires { Right D.has m.now.state.now × (length alphas.now ≡ sheet) }
    ensures { let A = D.beside true in
        let sheets = sheets_read A (D.of true) (D.entry_of true) m.now.state.now in
        (x : ℕ → A.Num) (a : ℕ → A.Num) → Reads A (D.of true) sheets.count m.now.xs.now x → Pairs A sheets.count (map (D.of true) alphas.now) a →
        answer_by (D.of true) result ≡ second A (D.functions true) sheets x (mixture_by (D.of true) m.now.segment) a }
{
    let a2 = rows(m.state.n, |i, a2| second_row(m, alphas, i, a2))?;
    let k = saftvrqmie_dispersion::k(m.segment.zeta);
    Ok(a2 * k)
}

fn third_row<D: DualNum>(m: &Mixture<D>, alphas: &[D], i: usize, sum: D) -> Result<D, Refusal>
    requires { Right D.has m.now.state.now × (i < m.now.state.now.n) × (length alphas.now ≡ sheet) }
    ensures { let A = D.beside true in
        let sheets = sheets_read A (D.of true) (D.entry_of true) m.now.state.now in
        (x : ℕ → A.Num) (a : ℕ → A.Num) (v : A.Num) → Reads A (D.of true) sheets.count m.now.xs.now x → Pairs A sheets.count (map (D.of true) alphas.now) a → D.taken true v ≡ D.of true sum →
        answer_by (D.of true) result ≡ third_row A (D.functions true) sheets.count sheets.epsilon_k_eff x (D.of true m.now.segment.zeta_bar) a i v }
{
    let s = m.state;
    let mut a3 = sum;
    for j in 0usize..s.n {
        let e = SIDE * i + j;
        let depth = D::entry(&s.table, EPSILON_K_EFF + e);
        let a = item(alphas, e);
        let v = saftvrqmie_dispersion::third_order_perturbation_ij(depth, a, m.segment.zeta_bar)?;
        let xi = item(m.xs, i);
        let xj = item(m.xs, j);
        a3 = a3 + xi * xj * v;
    }
    Ok(a3)
}

fn third<D: DualNum>(m: &Mixture<D>, alphas: &[D]) -> Result<D, Refusal>
    requires { Right D.has m.now.state.now × (length alphas.now ≡ sheet) }
    ensures { let A = D.beside true in
        let sheets = sheets_read A (D.of true) (D.entry_of true) m.now.state.now in
        (x : ℕ → A.Num) (a : ℕ → A.Num) → Reads A (D.of true) sheets.count m.now.xs.now x → Pairs A sheets.count (map (D.of true) alphas.now) a →
        answer_by (D.of true) result ≡ third A (D.functions true) sheets.count sheets.epsilon_k_eff x (D.of true m.now.segment.zeta_bar) a }
{
    rows(m.state.n, |i, a3| third_row(m, alphas, i, a3))
}

// n_s is summed anew, as in the Rust. xs and alphas are room: a run of any numbers has no array of its own.
// The operation has refused other counts and lists with 1.
pub fn helmholtz_energy_density<D: DualNum>(
    s: &State<D>,
    xs: &mut [D; SIDE],
    alphas: &mut [D; SHEET],
) -> Result<D, Refusal>
    requires { Right D.has s.now }
    ensures { let A = D.beside true in
        let sheets = sheets_read A (D.of true) (D.entry_of true) s.now in
        let x = entries (D.entry_of true) s.now.fractions in
        let rho = entries (D.entry_of true) s.now.densities in
        answer_by (D.of true) result ≡ dispersion A (D.functions true) sheets x rho (points A s.now.m.now) (D.of true s.now.temperature) }
{
    segment_fractions(s, xs);
    let segment = segment_state(s, xs);
    alphas_of(s, alphas)?;
    let m = Mixture {
        state: &*s,
        xs: &*xs,
        segment,
    };
    let a1 = first(&m)?;
    let a2 = second(&m, &*alphas)?;
    let a3 = third(&m, &*alphas)?;
    let n_s = segment_density::<D>(s.n, &s.densities, s.m);
    Ok(n_s * saftvrqmie_dispersion::orders_sum(s.temperature, a1, a2, a3))
}
