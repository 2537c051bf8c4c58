// The Helmholtz energy densities of SAFT-VRQ Mie: hard sphere, dispersion, non-additive (saftvrqmie/eos).
#![tactic(auto)]

ghost use Rattle.std.specs.Prelude.{◌≡◌, ◌<◌, true, ℕ, Float, List, [], length};
ghost use Rattle.number.specs.Answer.{answer_by};
ghost use Rattle.saftvrqmie_hard_sphere.specs.State.{points, entries, Right};
ghost use Rattle.saftvrqmie_dispersion_sums.specs.State.{sheets_by, sheets_read};
ghost use Rattle.saftvrqmie_energies.specs.Energies.{energies_answer, each_by, each_taken, contributions, energies_finite, state_lengths, tested, energies};
ghost use Rattle.saftvrqmie_energies.specs.Reads.{set_of, asked_at};

use dual_num::{DualNum, NumberList};
use number::Refusal;
use plain_num::PlainNum;
use saftvrqmie_dispersion_sums::State;
use saftvrqmie_parameters::{OrderRecord, SaftVRQMiePars};
use sizes::{SHEET, SHEETS, SIDE, TABLE};

// The three contributions, in a run's numbers.
#[derive(Clone, Copy)]
pub struct Energies<D> {
    pub hard_sphere: D,
    pub dispersion: D,
    pub non_additive: D,
}

pub type QuantumEnergies = Energies<f64>;

// A set's parts where they lie: the boundary has lists and no set. With a set made of them, copied and out of line, its energies took 27,704 bytes of stack; with these 6,856.
#[derive(Clone, Copy)]
pub struct Set<'a> {
    pub count: usize,
    pub m: &'a [f64; SIDE],
    pub sheets: &'a [f64; SHEETS],
    pub orders: &'a [OrderRecord; SHEET],
}

// What a set's energies are asked at.
#[derive(Clone, Copy)]
pub struct StateLists<'a> {
    pub temperature: f64,
    pub fractions: &'a [f64],
    pub densities: &'a [f64],
    pub table: &'a [f64],
    // A flag: the C call hands it so, and what is not wanted is +0, a number as any other.
    pub non_additive: bool,
}

impl<'a> From<&'a SaftVRQMiePars> for Set<'a> {
    ghost from_gives = { λ p s. set_of s ≡ p.now };

    fn from(set: &'a SaftVRQMiePars) -> Set<'a> {
        Set {
            count: set.count,
            m: &set.m,
            sheets: &set.sheets,
            orders: &set.orders,
        }
    }
}

// Of the float run's values, which the two-ended run has too. `limits::all_finite` is of a list, these are three fields.
pub fn all_finite<D: PlainNum>(e: Energies<D>) -> bool
    ensures { result ≡ energies_finite (each_by (λ x. (D.beside true).val (D.of true x)) e) }
{
    number::is_finite(e.hard_sphere.re())
        & number::is_finite(e.dispersion.re())
        & number::is_finite(e.non_additive.re())
}

pub fn right_lengths(n: usize, x: &[f64], rho: &[f64], table: &[f64]) -> bool
    ensures { result ≡ state_lengths n x.now rho.now table.now }
{
    limits::count_within(n) & (x.len() == n) & (rho.len() == n) & (table.len() == TABLE)
}

// The three contributions of a state, in any run; a part that is not wanted is +0, and nothing of it is worked. xs and alphas are room. 6.
// The operation has refused other counts and lists with 1.
pub fn contributions<D: DualNum>(
    s: &State<D>,
    wanted: bool,
    xs: &mut [D; SIDE],
    alphas: &mut [D; SHEET],
) -> Result<Energies<D>, Refusal>
    requires { Right D.has s.now }
    ensures { let A = D.beside true in
        let sheets = sheets_read A (D.of true) (D.entry_of true) s.now in
        let x = entries (D.entry_of true) s.now.fractions in
        let rho = entries (D.entry_of true) s.now.densities in
        answer_by (each_by (D.of true)) result ≡ each_taken (D.taken true) (contributions A (D.functions true) sheets x rho (points A s.now.m.now) (D.of true s.now.temperature) wanted) }
{
    let z = saftvrqmie_hard_sphere::zeta::<D>(s);
    let h = saftvrqmie_hard_sphere::helmholtz_energy_density(s, z)?;
    let d = saftvrqmie_dispersion_sums::helmholtz_energy_density(s, xs, alphas)?;
    let a = saftvrqmie_hard_sphere::wanted_part(s, z, xs, wanted);
    Ok(Energies {
        hard_sphere: h,
        dispersion: d,
        non_additive: a,
    })
}

// Hard sphere, dispersion and, if wanted, non-additive, of a run without slopes, which reads each entry of a list. xs and alphas are room. 1, 2, 6, 7.
pub fn energies_run<D: PlainNum>(
    set: &Set,
    q: &StateLists,
    xs: &mut [D; SIDE],
    alphas: &mut [D; SHEET],
) -> Result<Energies<D>, Refusal>
    requires { (l : List Float) (i : ℕ) → i < length l → D.has l [] i }
    ensures { let A = D.beside true in
        let s = set_of set.now in
        let t = A.lit q.now.temperature in
        let read = λ (l : List Float). D.entry_of true l [] in
        let sheets = sheets_by A s.count s.sheets s.orders t (read q.now.table.now) in
        let run = contributions A (D.functions true) sheets (read q.now.fractions.now) (read q.now.densities.now) (points A s.m) t q.now.non_additive in
        answer_by (each_by (D.of true)) result ≡ tested A s q.now.temperature q.now.fractions.now q.now.densities.now q.now.table.now run }
{
    let n = set.count;
    if !right_lengths(n, q.fractions, q.densities, q.table) {
        return Err(Refusal::Length);
    }
    if !limits::state_within(n, q.temperature, q.fractions, q.densities) {
        return Err(Refusal::Limit);
    }
    let s = State {
        n,
        m: set.m,
        sheets: set.sheets,
        orders: *set.orders,
        temperature: D::entered(q.temperature),
        table: NumberList {
            values: q.table,
            slopes: &[],
        },
        fractions: NumberList {
            values: q.fractions,
            slopes: &[],
        },
        densities: NumberList {
            values: q.densities,
            slopes: &[],
        },
    };
    let e = contributions(&s, q.non_additive, xs, alphas)?;
    if !all_finite(e) {
        return Err(Refusal::NotFinite);
    }
    Ok(e)
}

// Over a set's parts. 1, 2, 6, 7.
pub fn energies_of(set: &Set, q: &StateLists) -> Result<QuantumEnergies, Refusal>
    ensures { energies_answer result ≡ asked_at (energies (set_of set.now)) q.now }
{
    let mut xs = [0.0; SIDE];
    let mut alphas = [0.0; SHEET];
    energies_run(set, q, &mut xs, &mut alphas)
}

// Hard sphere, dispersion and, if wanted, non-additive. 1, 2, 6, 7.
pub fn helmholtz_energy_densities(
    set: SaftVRQMiePars,
    q: &StateLists,
) -> Result<QuantumEnergies, Refusal>
    ensures { energies_answer result ≡ asked_at (energies set) q.now }
{
    energies_of(&Set::from(&set), q)
}
