// SAFT-VR Mie parameters (saftvrmie/parameters.rs): from component lists to the set of pair values.
#![tactic(auto)]

ghost use Rattle.std.specs.Prelude.{Err, ◌≡◌, ◌*◌, ◌<◌, ◌≤◌, length};
ghost use Rattle.number.specs.Answer.{answer};
ghost use Rattle.number.specs.Functions.{calls};
ghost use Rattle.elementary.specs.Port.{port};
ghost use Rattle.number.specs.Arith.{floats};
ghost use Rattle.number.specs.Lists.{at};
ghost use Rattle.sizes.specs.Sizes.{side};
ghost use Rattle.limits.specs.Limits.{square, components};
ghost use Rattle.saftvrmie_parameters.specs.Combine.{sigma_ij, alpha_ij, lr_ij};
ghost use Rattle.saftvrmie_parameters.specs.Parameters.{empty_set, set_of, lists_of, Fitting, right_lengths, within_in, pair_parameters, pair_in, pair_at, row_of, saft_vr_mie_pars};
ghost use Rattle.mie_parameters.specs.Answer.{outcome};

use limits::Component;
use mie_parameters::set::Parameters;
use mie_parameters::sheets::PairLists;
use mie_parameters::{set, sheets};
use number::Refusal;
use sizes::mie_set::{ALPHA_IJ, C_IJ, EPSILON_K_IJ, LA_IJ, LR_IJ};
use sizes::{SHEETS, SIDE};

// Document 01's Forms ask for a struct by value with the count and the flat array: no list of its own length.
#[derive(Clone, Copy)]
pub struct SaftVRMiePars {
    pub count: usize,
    pub m: [f64; SIDE],
    pub sigma: [f64; SIDE],
    pub epsilon_k: [f64; SIDE],
    pub lr: [f64; SIDE],
    pub la: [f64; SIDE],
    pub sheets: [f64; SHEETS],
}

pub type ParameterSet = mie_parameters::set::ParameterSet<SaftVRMiePars>;

// The lists that a caller hands, and the caller's count, which 1 compares with them.
#[derive(Clone, Copy)]
pub struct ComponentLists<'a> {
    pub count: usize,
    pub m: &'a [f64],
    pub sigma: &'a [f64],
    pub epsilon_k: &'a [f64],
    pub lr: &'a [f64],
    pub la: &'a [f64],
    pub k_ij: &'a [f64],
    pub gamma_ij: &'a [f64],
}

#[derive(Clone, Copy)]
pub struct PairParameters {
    pub sigma: f64,
    pub epsilon_k: f64,
    pub lr: f64,
    pub la: f64,
    pub c: f64,
    pub alpha: f64,
}

// What the sheets hold of the pair (i, j). Inlined: most callers read some of the six.
#[inline(always)]
pub fn pair_at(sheets: &[f64; SHEETS], i: usize, j: usize) -> PairParameters
    requires { (i < side) × (j < side) }
    ensures { result ≡ pair_at sheets.now i j }
{
    let e = SIDE * i + j;
    PairParameters {
        sigma: sheets[e],
        epsilon_k: sheets[EPSILON_K_IJ + e],
        lr: sheets[LR_IJ + e],
        la: sheets[LA_IJ + e],
        c: sheets[C_IJ + e],
        alpha: sheets[ALPHA_IJ + e],
    }
}

impl Parameters for SaftVRMiePars {
    ghost empty_set = { empty_set };

    // Count 0, all +0.
    fn empty() -> SaftVRMiePars {
        let blank = [0.0; SIDE];
        SaftVRMiePars {
            count: 0,
            m: blank,
            sigma: blank,
            epsilon_k: blank,
            lr: blank,
            la: blank,
            sheets: [0.0; SHEETS],
        }
    }
}

// No l_ij: the quantum model alone has it.
fn sigma_ij(si: f64, sj: f64) -> f64
    ensures { result ≡ sigma_ij floats si sj }
{
    0.5 * (si + sj)
}

fn alpha_ij(c: f64, lr: f64, la: f64) -> f64
    ensures { result ≡ alpha_ij floats c lr la }
{
    c * (1.0 / (la - 3.0) - 1.0 / (lr - 3.0))
}

fn lr_ij(li: f64, lj: f64, gamma: f64) -> Result<f64, Refusal>
    ensures { answer result ≡ lr_ij floats (calls floats port) li lj gamma }
{
    let r = elementary::sqrt((li - 3.0) * (lj - 3.0))?;
    Ok((1.0 - gamma) * r + 3.0)
}

// gamma_ij and alpha are of this model alone, mass of the quantum one.
fn pair_parameters(
    a: Component,
    b: Component,
    k: f64,
    gamma: f64,
) -> Result<PairParameters, Refusal>
    ensures { answer result ≡ pair_parameters a b k gamma }
{
    let sigma = sigma_ij(a.sigma, b.sigma);
    let epsilon_k = mie_parameters::epsilon_k_ij(
        a.sigma,
        b.sigma,
        a.epsilon_k,
        b.epsilon_k,
        sigma,
        k,
    )?;
    let lr = lr_ij(a.lr, b.lr, gamma)?;
    let la = mie_parameters::lambda_ij(a.la, b.la)?;
    let c = mie_parameters::c_ij(lr, la)?;
    let alpha = alpha_ij(c, lr, la);
    Ok(PairParameters {
        sigma,
        epsilon_k,
        lr,
        la,
        c,
        alpha,
    })
}

impl<'a> PairLists for ComponentLists<'a> {
    type Pair = PairParameters;

    ghost size = { λ l. l.count };

    ghost fits = { λ l. Fitting (lists_of l) };

    ghost pair_at = { λ l. pair_in (lists_of l) };

    ghost row_of = { row_of };

    fn count(&self) -> usize {
        self.count
    }

    // Inlined with the row: a call a pair would hand the six numbers through memory.
    #[inline(always)]
    fn pair(&self, i: usize, j: usize) -> Result<PairParameters, Refusal> {
        let a = limits::component_at(self.sigma, self.epsilon_k, self.lr, self.la, i);
        let b = limits::component_at(self.sigma, self.epsilon_k, self.lr, self.la, j);
        let e = self.count * i + j;
        pair_parameters(a, b, self.k_ij[e], self.gamma_ij[e])
    }

    #[inline(always)]
    fn row(p: PairParameters) -> [f64; 6]
        ensures { result ≡ row_of p }
    {
        [p.sigma, p.epsilon_k, p.lr, p.la, p.c, p.alpha]
    }
}

// The models have other lists; the tests are the definition's, one by one.
fn right_lengths(l: &ComponentLists) -> bool
    ensures { result ≡ right_lengths (lists_of l.now) }
{
    if !limits::count_within(l.count) {
        return false;
    }
    let square = l.count * l.count;
    (l.m.len() == l.count)
        & (l.sigma.len() == l.count)
        & (l.epsilon_k.len() == l.count)
        & (l.lr.len() == l.count)
        & (l.la.len() == l.count)
        & (l.k_ij.len() == square)
        & (l.gamma_ij.len() == square)
}

// The numbers' limits; the quantum model limits masses where this one limits m.
fn within_limits(l: &ComponentLists) -> bool
    requires { (length l.now.m.now ≡ l.now.count) × Fitting (lists_of l.now) }
    ensures { result ≡ within_in (lists_of l.now) }
{
    limits::components_within(l.count, l.sigma, l.epsilon_k, l.lr, l.la)
        & limits::segments_within(l.m)
        & limits::pairs_within(l.count, l.k_ij)
        & limits::pairs_within(l.count, l.gamma_ij)
}

// `SaftVRMiePars::new`: the set, or the first refusal that applies.
pub fn saft_vr_mie_pars(l: &ComponentLists) -> Result<SaftVRMiePars, Refusal>
    ensures { answer result ≡ saft_vr_mie_pars (lists_of l.now) }
{
    if !right_lengths(l) {
        return Err(Refusal::Length);
    }
    if !within_limits(l) {
        return Err(Refusal::Limit);
    }
    let mut sheets = [0.0; SHEETS];
    sheets::fill_sheets(l, &mut sheets)?;
    let m = mie_parameters::in_places(l.count, l.m);
    let sigma = mie_parameters::in_places(l.count, l.sigma);
    let epsilon_k = mie_parameters::in_places(l.count, l.epsilon_k);
    let lr = mie_parameters::in_places(l.count, l.lr);
    let la = mie_parameters::in_places(l.count, l.la);
    Ok(SaftVRMiePars {
        count: l.count,
        m,
        sigma,
        epsilon_k,
        lr,
        la,
        sheets,
    })
}

// The same with the set beside the answer: of a refused call the empty set.
pub fn parameters(l: &ComponentLists) -> ParameterSet
    ensures answer { outcome result.answer result.set ≡ saft_vr_mie_pars (lists_of l.now) }
    ensures set { result.set ≡ set_of (saft_vr_mie_pars (lists_of l.now)) }
{
    set::beside_answer(saft_vr_mie_pars(l))
}
