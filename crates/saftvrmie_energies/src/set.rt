// A set's lists and a state by reference, and what the sums read of a component.
ghost use Rattle.std.specs.Prelude.{◌≡◌, ◌<◌, length, true, cond};
ghost use Rattle.mie_parameters.specs.Answer.{outcome};
ghost use Rattle.limits.specs.Limits.{state_within};
ghost use Rattle.number.specs.Ans.{held, refused};
ghost use Rattle.sizes.specs.Sizes.{side};
ghost use Rattle.saftvrmie_energies.specs.Energies.{pure_at, state_lengths};
ghost use Rattle.saftvrmie_energies.specs.Reads.{set_of};

use number::Refusal;
use saftvrmie_parameters::{PairParameters, SaftVRMiePars};
use sizes::mie_set::{ALPHA_IJ, C_IJ};
use sizes::{SHEETS, SIDE};

// The boundary has lists and no set; operations that have a set lend its lists. The count stands beside them: it is the caller's number, tested with 1, and each list has SIDE places, as document 01's Forms have the set.
#[derive(Clone, Copy)]
pub struct Set<'a> {
    pub count: usize,
    pub m: &'a [f64; SIDE],
    pub sigma: &'a [f64; SIDE],
    pub epsilon_k: &'a [f64; SIDE],
    pub lr: &'a [f64; SIDE],
    pub la: &'a [f64; SIDE],
    pub sheets: &'a [f64; SHEETS],
}

// What an energy is worked from. Two lifetimes: a set that a function owns is lent for less long than the lists that it was handed.
#[derive(Clone, Copy)]
pub struct State<'s, 'a> {
    pub set: Set<'s>,
    pub temperature: f64,
    pub fractions: &'a [f64],
    pub densities: &'a [f64],
    pub diameters: &'a [f64],
}

impl<'a> From<&'a SaftVRMiePars> for Set<'a> {
    ghost from_gives = { λ p s. set_of s ≡ p.now };

    fn from(set: &'a SaftVRMiePars) -> Set<'a> {
        Set {
            count: set.count,
            m: &set.m,
            sigma: &set.sigma,
            epsilon_k: &set.epsilon_k,
            lr: &set.lr,
            la: &set.la,
            sheets: &set.sheets,
        }
    }
}

fn right_lists(s: &State) -> bool
    ensures { result ≡ state_lengths s.now.set.count (length s.now.fractions.now) (length s.now.densities.now) (length s.now.diameters.now) }
{
    let n = s.set.count;
    limits::count_within(n)
        & (s.fractions.len() == n)
        & (s.densities.len() == n)
        & (s.diameters.len() == n)
}

// What the operation tests in any run: 1, then 2.
pub fn tested(s: &State) -> Result<(), Refusal>
    ensures { let s = s.now in
        let n = s.set.count in
        let lengths = state_lengths n (length s.fractions.now) (length s.densities.now) (length s.diameters.now) in
        let inside = state_within n s.temperature s.fractions.now s.densities.now in
        outcome result true ≡ cond lengths (cond inside (held true) (refused 2)) (refused 1) }
{
    if !right_lists(s) {
        return Err(Refusal::Length);
    }
    if !limits::state_within(s.set.count, s.temperature, s.fractions, s.densities) {
        return Err(Refusal::Limit);
    }
    Ok(())
}

// sigma, epsilon_k, lr and la of the component lists; c and alpha of the sheets' diagonal. The index is a turn of a loop over a count that was tested.
pub fn pure_at(set: &Set, i: usize) -> PairParameters
    requires { i < side }
    ensures { let s = set.now in
        result ≡ pure_at s.sigma.now s.epsilon_k.now s.lr.now s.la.now s.sheets.now i }
{
    let e = SIDE * i + i;
    PairParameters {
        sigma: set.sigma[i],
        epsilon_k: set.epsilon_k[i],
        lr: set.lr[i],
        la: set.la[i],
        c: set.sheets[C_IJ + e],
        alpha: set.sheets[ALPHA_IJ + e],
    }
}
