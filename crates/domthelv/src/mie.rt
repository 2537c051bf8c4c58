// SAFT-VR Mie at the C boundary: parameters, diameters, a pair's lower limit and diameter, dispersion, the stage.
ghost use Rattle.std.specs.Prelude.{◌≡◌};
ghost use Rattle.std.specs.Fn.{FnOnceReturnsAt};
ghost use Rattle.mie_parameters.specs.Answer.{status, stored};
ghost use Rattle.set_lists.specs.Sets.{MieLists, mie_set};
ghost use Rattle.set_lists.specs.Written.{MieLent};
ghost use Rattle.domthelv.specs.Operations.{vr_parameters, vr_diameters, vr_radius, vr_diameter, vr_dispersion};
ghost use Rattle.domthelv.specs.Asked.{Worked};
ghost use Rattle.stages.specs.Stages.{mie_stage};
ghost use Rattle.saftvrmie_parameters.specs.Parameters as Mie;

use mie_parameters::deliver;
use number::Refusal;
use saftvrmie_energies::{Set, State};
use saftvrmie_parameters::{ComponentLists, SaftVRMiePars};
use set_lists::MieSet;
use sizes::SHEETS;
use sizes::mie_lists::{EPSILON_K, LA, LR, M, SIGMA};

// Parameters of SAFT-VR Mie. 1, 2, 6.
pub fn domthelv_vr_parameters(
    count: usize,
    m: &[f64],
    sigma: &[f64],
    epsilon_k: &[f64],
    lr: &[f64],
    la: &[f64],
    k_ij: &[f64],
    gamma_ij: &[f64],
    set_lists: &mut [f64],
    set_sheets: &mut [f64],
) -> u8
    ensures { let x : Mie.Lists =
        record {
          count = count;
          m = m.now;
          sigma = sigma.now;
          epsilon_k = epsilon_k.now;
          lr = lr.now;
          la = la.now;
          k_ij = k_ij.now;
          gamma_ij = gamma_ij.now;
        } in
        let l : MieLent = record { lists = set_lists.old; sheets = set_sheets.old } in
        let q = vr_parameters x l in
        (result ≡ status q) × (set_lists.new ≡ (stored l q).lists) × (set_sheets.new ≡ (stored l q).sheets) }
{
    if !set_lists::mie_lengths(set_lists, set_sheets) {
        return Refusal::Length.code();
    }
    let lists = ComponentLists {
        count,
        m,
        sigma,
        epsilon_k,
        lr,
        la,
        k_ij,
        gamma_ij,
    };
    match saftvrmie_parameters::saft_vr_mie_pars(&lists) {
        Err(r) => r.code(),
        Ok(set) => {
            set_lists::write_mie(set, set_lists, set_sheets);
            0
        }
    }
}

// The components' diameters. 1, 2, 6, 7.
pub fn domthelv_vr_diameters(
    count: usize,
    lists: &[f64],
    sheets: &[f64],
    temperature: f64,
    diameters: &mut [f64],
) -> u8
    ensures { let s : MieLists = record { count = count; lists = lists.now; sheets = sheets.now } in
        let q = vr_diameters s temperature diameters.old in
        (result ≡ status q) × (diameters.new ≡ stored diameters.old q) }
{
    if !set_lists::mie_lengths(lists, sheets) {
        return Refusal::Length.code();
    }
    let flat = set_lists::flat(sheets);
    let worked = saftvrmie::diameters_of(count, &flat, temperature, diameters);
    mie_parameters::number(worked)
}

// What a call works of a set that crosses as its lists: 1, then the call's own. The set goes into a closure: out in a Result it is copied, and compiled as Rust a pair's radius takes 14,888 bytes of stack for 7,480.
#[inline(always)]
pub fn of_set<T, F: FnOnce(&SaftVRMiePars) -> Result<T, Refusal>>(
    count: usize,
    lists: &[f64],
    sheets: &[f64],
    work: F,
) -> Result<T, Refusal>
    requires { F.IsAlwaysCallable work }
    ensures { let s : MieLists = record { count = count; lists = lists.now; sheets = sheets.now } in Worked (mie_set s) (λ p r. FnOnceReturnsAt F.FnOnce work p r) result }
{
    if !set_lists::mie_lengths(lists, sheets) {
        return Err(Refusal::Length);
    }
    let lent = MieSet {
        count,
        lists,
        sheets,
    };
    work(&set_lists::mie_set(&lent))
}

// One pair's reduced lower limit. 1, 2, 6.
pub fn domthelv_vr_radius(
    count: usize,
    lists: &[f64],
    sheets: &[f64],
    i: usize,
    j: usize,
    temperature: f64,
    out: &mut f64,
) -> u8
    ensures { let s : MieLists = record { count = count; lists = lists.now; sheets = sheets.now } in
        let q = vr_radius s i j temperature in
        (result ≡ status q) × (out.new ≡ stored out.old q) }
{
    let worked = of_set(count, lists, sheets, |set| {
        saftvrmie::radius_ij(*set, i, j, temperature)
    });
    deliver(worked, out)
}

// One pair's diameter from its reduced lower limit. 1, 2, 6, 7.
pub fn domthelv_vr_diameter(
    count: usize,
    lists: &[f64],
    sheets: &[f64],
    i: usize,
    j: usize,
    temperature: f64,
    r0: f64,
    out: &mut f64,
) -> u8
    ensures { let s : MieLists = record { count = count; lists = lists.now; sheets = sheets.now } in
        let q = vr_diameter s i j temperature r0 in
        (result ≡ status q) × (out.new ≡ stored out.old q) }
{
    let worked = of_set(count, lists, sheets, |set| {
        saftvrmie::diameter_ij(*set, i, j, temperature, r0)
    });
    deliver(worked, out)
}

// Dispersion, with the chain where it is wanted. 1, 2, 6, 7.
pub fn domthelv_vr_dispersion(
    count: usize,
    lists: &[f64],
    sheets: &[f64],
    temperature: f64,
    fractions: &[f64],
    densities: &[f64],
    diameters: &[f64],
    chain: bool,
    out: &mut f64,
) -> u8
    ensures { let s : MieLists = record { count = count; lists = lists.now; sheets = sheets.now } in
        let q = vr_dispersion s temperature fractions.now densities.now diameters.now chain in
        (result ≡ status q) × (out.new ≡ stored out.old q) }
{
    if !set_lists::mie_lengths(lists, sheets) {
        return Refusal::Length.code();
    }
    let m = set_lists::places(lists, M);
    let sigma = set_lists::places(lists, SIGMA);
    let epsilon_k = set_lists::places(lists, EPSILON_K);
    let lr = set_lists::places(lists, LR);
    let la = set_lists::places(lists, LA);
    // Where they lie: a set of references to a copy would keep the copy. A call gives a number, so `?` cannot stand here as in `quantum::lent_set`.
    let Ok(flat) = <&[f64; SHEETS]>::try_from(sheets) else {
        return Refusal::Length.code();
    };
    let set = Set {
        count,
        m: &m,
        sigma: &sigma,
        epsilon_k: &epsilon_k,
        lr: &lr,
        la: &la,
        sheets: flat,
    };
    let state = State {
        set,
        temperature,
        fractions,
        densities,
        diameters,
    };
    let worked = saftvrmie_energies::dispersion(&state, chain);
    deliver(worked, out)
}

// From component lists to dispersion, with the chain where it is wanted and diameters of its own. The parameters' refusals, the diameters', the energy's.
pub fn domthelv_vr_stage(
    count: usize,
    m: &[f64],
    sigma: &[f64],
    epsilon_k: &[f64],
    lr: &[f64],
    la: &[f64],
    k_ij: &[f64],
    gamma_ij: &[f64],
    temperature: f64,
    fractions: &[f64],
    densities: &[f64],
    chain: bool,
    out: &mut f64,
) -> u8
    ensures { let x : Mie.Lists =
        record {
          count = count;
          m = m.now;
          sigma = sigma.now;
          epsilon_k = epsilon_k.now;
          lr = lr.now;
          la = la.now;
          k_ij = k_ij.now;
          gamma_ij = gamma_ij.now;
        } in
        let q = mie_stage x temperature fractions.now densities.now chain in
        (result ≡ status q) × (out.new ≡ stored out.old q) }
{
    let lists = ComponentLists {
        count,
        m,
        sigma,
        epsilon_k,
        lr,
        la,
        k_ij,
        gamma_ij,
    };
    let worked = stages::mie_stage(&lists, temperature, fractions, densities, chain);
    deliver(worked, out)
}
