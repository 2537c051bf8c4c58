// The quantum chain with slopes at the C boundary.
ghost use Rattle.std.specs.Prelude.{◌≡◌};
ghost use Rattle.mie_parameters.specs.Answer.{status, stored};
ghost use Rattle.set_lists.specs.Sets.{QuantumLists};
ghost use Rattle.slopes_lists.specs.Lists.{SlopedList, SlopedState};
ghost use Rattle.slopes_calls.specs.Calls.{vrq_energies_slopes};

use dual::Dual;
use dual_num::NumberList;
use set_lists::QuantumSet;

// Quantum energies with slopes, by a table of the call's own: value and slope of hard sphere, dispersion, non-additive. 1, 4, then 2, 7 for a supplied slope, the table's 6 and 7, the energies' 6 and 7.
pub fn domthelv_vrq_energies_slopes(
    count: usize,
    m: &[f64],
    sheets: &[f64],
    orders: &[u8],
    temperature: f64,
    temperature_slope: f64,
    fractions: &[f64],
    fraction_slopes: &[f64],
    densities: &[f64],
    density_slopes: &[f64],
    non_additive: bool,
    out: &mut [f64],
) -> u8
    ensures { let s : QuantumLists = record { count = count; m = m.now; sheets = sheets.now; orders = orders.now } in
        let x : SlopedList = record { values = fractions.now; slopes = fraction_slopes.now } in
        let rho : SlopedList = record { values = densities.now; slopes = density_slopes.now } in
        let q : SlopedState = record { temperature = record { re = temperature; eps = temperature_slope }; fractions = x; densities = rho } in
        let a = vrq_energies_slopes s q non_additive out.old in
        (result ≡ status a) × (out.new ≡ stored out.old a) }
{
    let lent = QuantumSet {
        count,
        m,
        sheets,
        orders,
    };
    let q = slopes_lists::SlopedState {
        temperature: Dual {
            re: temperature,
            eps: temperature_slope,
        },
        fractions: NumberList {
            values: fractions,
            slopes: fraction_slopes,
        },
        densities: NumberList {
            values: densities,
            slopes: density_slopes,
        },
    };
    let answer = slopes_calls::vrq_energies_slopes(&lent, &q, non_additive, out);
    mie_parameters::number(answer)
}
