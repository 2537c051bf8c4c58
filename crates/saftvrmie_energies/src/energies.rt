// The energies (saftvrmie/eos/dispersion.rs), and the operation.
ghost use Rattle.std.specs.Prelude.{◌≡◌, Bool, false};
ghost use Rattle.number.specs.Answer.{answer, answer_by};
ghost use Rattle.number.specs.Arith.{decimal};
ghost use Rattle.saftvrmie_energies.specs.Dispersion.{dispersion, dispersion_chain};
ghost use Rattle.saftvrmie_energies.specs.Energies.{energy_run, energy};
ghost use Rattle.saftvrmie_energies.specs.Reads.{set_of, state_of, Right};

use crate::mixture::Mixture;
use crate::properties::{after_ks, properties_of, total, weighted, xs_of};
use crate::set::{State, tested};
use crate::sums::{chain_rows, disp_rows};
use dual::Dual;
use number::Refusal;
use plain_num::PlainNum;
use saftvrmie_dispersion::{ChainNum, ChainState};
use sizes::SIDE;

// 1 / T
fn inverse<D: PlainNum>(temperature: f64) -> D
    ensures { (w : Bool) → let A = D.beside w in
        D.of w result ≡ A.div (A.lit (decimal false 1 0)) (A.lit temperature) }
{
    D::entered(1.0) / D::entered(temperature)
}

fn helmholtz_energy_density_disp<D: PlainNum>(s: &State, xs: &mut [D; SIDE]) -> Result<D, Refusal>
    requires { Right s.now }
    ensures { (w : Bool) → let A = D.beside w in
        answer_by (D.of w) result ≡ dispersion A (D.functions w) s.now.set.count (state_of A s.now) }
{
    let mean = weighted::<D>(s.fractions, s.set.m);
    *xs = xs_of(s.fractions, s.set.m, mean);
    let q = properties_of(s, xs)?;
    let zeta_x = q.zeta_x;
    let k_hs = saftvrmie_dispersion::k_hs(zeta_x);
    let fluid = saftvrmie_dispersion::fluid_of(q.segment_density, zeta_x, k_hs);
    let bar = saftvrmie_dispersion::bar_of(q.zeta_x_bar);
    let m = Mixture {
        state: &*s,
        xs: &*xs,
        fluid: &fluid,
    };
    let a = disp_rows(&m, &bar)?;
    let orders = saftvrmie_dispersion::orders_sum(a, inverse(s.temperature));
    let all = total::<D>(s.densities);
    Ok(after_ks(q.k, all * mean * orders))
}

// What both begin with is the Rust's in each: a function of it would hand out six values.
fn helmholtz_energy_density_disp_chain<S: ChainNum>(
    s: &State,
    xs: &mut [S::Re; SIDE],
) -> Result<S::Re, Refusal>
    requires { Right s.now }
    ensures { (w : Bool) → let A = S.Re.beside w in
        answer_by (S.Re.of w) result ≡ dispersion_chain A (S.Re.functions w) s.now.set.count (state_of A s.now) }
{
    let mean = weighted::<S::Re>(s.fractions, s.set.m);
    *xs = xs_of(s.fractions, s.set.m, mean);
    let q = properties_of(s, xs)?;
    let rho_s = q.segment_density;
    let zeta_x = q.zeta_x;
    let v = saftvrmie_dispersion::fluid_dual::<S>(zeta_x, rho_s);
    let k_hs = v.k_hs;
    let fluid = saftvrmie_dispersion::fluid_of(rho_s, zeta_x, k_hs.re());
    let bar = saftvrmie_dispersion::bar_of(q.zeta_x_bar);
    let t_inv = inverse(s.temperature);
    let chain = ChainState {
        fluid: v,
        bar,
        k: q.k,
    };
    let m = Mixture {
        state: &*s,
        xs: &*xs,
        fluid: &fluid,
    };
    let a = chain_rows(&m, &chain, t_inv)?;
    let orders = saftvrmie_dispersion::orders_sum(a, t_inv);
    let all = total::<S::Re>(s.densities);
    Ok(all * (mean * orders + a.a_chain))
}

// ---- the operation

// With or without chain, in any run. The flag is the C call's, of one operation, and is asked here alone. xs is room: a run of any numbers cannot lend an array of its own, whose size below 2^63 bytes is known only where it is among the parameters or is the result.
pub fn energy_run<S: ChainNum>(
    s: &State,
    chain: bool,
    xs: &mut [S::Re; SIDE],
) -> Result<S::Re, Refusal>
    requires { Right s.now }
    ensures { (w : Bool) → let A = S.Re.beside w in
        answer_by (S.Re.of w) result ≡ energy_run A (S.Re.functions w) (set_of s.now.set) s.now.temperature s.now.fractions.now s.now.densities.now s.now.diameters.now chain }
{
    if chain {
        return helmholtz_energy_density_disp_chain::<S>(s, xs);
    }
    helmholtz_energy_density_disp(s, xs)
}

// The Helmholtz energy density of dispersion, with or without chain, from a list of diameters. 1, 2, 6, 7. Beside it dispersion_ends: the room and how it ends are each run's own.
pub fn dispersion(s: &State, chain: bool) -> Result<f64, Refusal>
    ensures { let s = s.now in
        answer result ≡ energy (set_of s.set) s.temperature s.fractions.now s.densities.now s.diameters.now chain }
{
    tested(s)?;
    let mut xs = [0.0; SIDE];
    let v = energy_run::<Dual>(s, chain, &mut xs)?;
    number::if_finite(v)
}
