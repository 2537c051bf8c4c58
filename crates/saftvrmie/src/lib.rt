// Operations of SAFT-VR Mie on a set: the components' diameters, and a pair's lower limit and diameter.
// Operations on a pair take its indexes and the temperature one by one, as the Rust's: pair_asked and pair_at read them once.
// n ≤ side and i < side stand plain: each bounds an index into an array of that length, and a name for one comparison would be longer.
#![tactic(auto)]

ghost use Rattle.std.specs.Prelude.{true, ◌≡◌, ◌<◌, ◌≤◌, Bool};
ghost use Rattle.number.specs.Answer.{answer};
ghost use Rattle.sizes.specs.Sizes.{side};
ghost use Rattle.number.specs.Walk.{walk};
ghost use Rattle.mie_parameters.specs.Answer.{outcome, verdict, stored};
ghost use Rattle.saftvrmie_diameter.specs.Diameter.{c_eps_t};
ghost use Rattle.saftvrmie.specs.Diameters.{diameter_at, diameter_turn, diameters_finite, right_length, diameters};
ghost use Rattle.saftvrmie.specs.Pairs.{radius_ij, diameter_ij};

use number::{Arithmetic, Refusal};
use plain_num::PlainNum;
use saftvrmie_parameters::{PairParameters, SaftVRMiePars, pair_at};
use sizes::{SHEETS, SIDE};

fn diameter_at(sheets: &[f64; SHEETS], temperature: f64, i: usize) -> Result<f64, Refusal>
    requires { i < side }
    ensures { answer result ≡ diameter_at sheets.now temperature i }
{
    let p = pair_at(sheets, i, i);
    saftvrmie_diameter::hs_diameter_ij(p.la, p.lr, p.c, p.epsilon_k, p.sigma, temperature)
}

// By index: a turn reads the sheets at the pair (i, i).
fn work(
    n: usize,
    sheets: &[f64; SHEETS],
    temperature: f64,
    d: &mut [f64; SIDE],
) -> Result<(), Refusal>
    requires { n ≤ side }
    ensures { outcome result d.new ≡ walk n (diameter_turn sheets.now temperature) d.old }
{
    for i in 0usize..n {
        d[i] = diameter_at(sheets, temperature, i)?;
    }
    Ok(())
}

// Of the first n of the diameters, in the definition's words.
fn all_finite(n: usize, d: &[f64; SIDE]) -> bool
    requires { n ≤ side }
    ensures { result ≡ diameters_finite n d.now }
{
    limits::all_finite(&d[..n])
}

fn right_length(n: usize, len: usize) -> bool
    ensures { result ≡ right_length n len }
{
    limits::count_within(n) & (len == n)
}

// The diameters of a set's count and sheets: it reads nothing else. 1, 2, 6, 7.
pub fn diameters_of(
    n: usize,
    sheets: &[f64; SHEETS],
    temperature: f64,
    out: &mut [f64],
) -> Result<(), Refusal>
    ensures { let q = diameters n sheets.now temperature out.old in
        (outcome result true ≡ verdict q) × (out.new ≡ stored out.old q) }
{
    if !right_length(n, out.len()) {
        return Err(Refusal::Length);
    }
    if !limits::temperature_within(temperature) {
        return Err(Refusal::Limit);
    }
    let mut d = [0.0; SIDE];
    work(n, sheets, temperature, &mut d)?;
    if !all_finite(n, &d) {
        return Err(Refusal::NotFinite);
    }
    out.copy_from_slice(&d[..n]);
    Ok(())
}

// `hs_diameter`: the diameter of each component, into a list as long as the count. 1, 2, 6, 7.
pub fn hs_diameter(set: SaftVRMiePars, temperature: f64, out: &mut [f64]) -> Result<(), Refusal>
    ensures { let q = diameters set.count set.sheets temperature out.old in
        (outcome result true ≡ verdict q) × (out.new ≡ stored out.old q) }
{
    let sheets = set.sheets;
    diameters_of(set.count, &sheets, temperature, out)
}

// c epsilon / T of a pair, in any run.
pub fn c_eps_of<D: PlainNum>(p: PairParameters, temperature: f64) -> D
    ensures { (w : Bool) → let A = D.beside w in
        D.of w result ≡ c_eps_t A (A.lit temperature) (A.lit p.c) (A.lit p.epsilon_k) }
{
    saftvrmie_diameter::c_eps_t(
        D::entered(temperature),
        D::Plain::lit(p.c),
        D::Plain::lit(p.epsilon_k),
    )
}

// The reduced lower limit of the pair (i, j). 1, 2, 6.
pub fn radius_ij(set: SaftVRMiePars, i: usize, j: usize, temperature: f64) -> Result<f64, Refusal>
    ensures { answer result ≡ radius_ij set i j temperature }
{
    limits::pair_asked(set.count, i, j, temperature)?;
    let p = pair_at(&set.sheets, i, j);
    saftvrmie_diameter::lower_integratal_limit(p.la, p.lr, c_eps_of(p, temperature))
}

// The diameter of the pair (i, j) from its reduced lower limit. 1, 2, 6, 7.
pub fn diameter_ij(
    set: SaftVRMiePars,
    i: usize,
    j: usize,
    temperature: f64,
    r0: f64,
) -> Result<f64, Refusal>
    ensures { answer result ≡ diameter_ij set i j temperature r0 }
{
    limits::pair_asked(set.count, i, j, temperature)?;
    let p = pair_at(&set.sheets, i, j);
    let c_eps_t = c_eps_of(p, temperature);
    let d = saftvrmie_diameter::diameter_from(p.la, p.lr, c_eps_t, p.sigma, r0)?;
    number::if_finite(d)
}
