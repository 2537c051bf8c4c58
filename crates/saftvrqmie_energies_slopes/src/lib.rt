// The Helmholtz energy densities of SAFT-VRQ Mie with slopes (document 02, Slip 1): hard sphere, dispersion, non-additive, each a value and a slope.
#![tactic(auto)]

ghost use Rattle.std.specs.Prelude.{◌≡◌, ◌<◌, ◌≤◌, length};
ghost use Rattle.sizes.specs.Sizes.{side};
ghost use Rattle.elementary.specs.Port.{port};
ghost use Rattle.dual.specs.Value.{dual_of};
ghost use Rattle.slopes_lists.specs.Lists.{state_of};
ghost use Rattle.saftvrqmie_table_slopes.specs.Table.{sloped_of};
ghost use Rattle.saftvrqmie_energies_slopes.specs.Energies.{energies_slopes_in, energies_slopes_answer, finite_dual, slopes_finite, energies_slope_at};

use dual::Dual;
use dual_num::NumberList;
use number::Refusal;
use saftvrqmie_dispersion_sums::State;
use saftvrqmie_energies::{Energies, contributions};
use saftvrqmie_parameters::SaftVRQMiePars;
use saftvrqmie_table_slopes::SlopedTable;
use sizes::{SHEET, SIDE};
use slopes_lists::SlopedState;

pub type QuantumEnergiesSlopes = Energies<Dual>;

fn is_finite(x: Dual) -> bool
    ensures { result ≡ finite_dual (dual_of x) }
{
    number::is_finite(x.re) & number::is_finite(x.eps)
}

// Of values and slopes: `saftvrqmie_energies::all_finite` is of values alone, in runs without slopes.
fn all_finite(e: QuantumEnergiesSlopes) -> bool
    ensures { result ≡ slopes_finite (energies_slopes_in e) }
{
    is_finite(e.hard_sphere) & is_finite(e.dispersion) & is_finite(e.non_additive)
}

// Hard sphere, dispersion and, if wanted, non-additive. 6, 7; lengths and limits are the caller's.
pub fn energies_of(
    set: &SaftVRQMiePars,
    q: &SlopedState,
    table: &SlopedTable,
    non_additive: bool,
) -> Result<QuantumEnergiesSlopes, Refusal>
    requires { let n = set.now.count in
        let x = q.now.fractions in
        let rho = q.now.densities in
        (0 < n) × (n ≤ side) × (length x.values.now ≡ n) × (length x.slopes.now ≡ n) × (length rho.values.now ≡ n) × (length rho.slopes.now ≡ n) }
    ensures { energies_slopes_answer result ≡ energies_slope_at port set.now (state_of q.now) (sloped_of table.now) non_additive }
{
    let s = State {
        n: set.count,
        m: &set.m,
        sheets: &set.sheets,
        orders: set.orders,
        temperature: q.temperature,
        table: NumberList {
            values: &table.values,
            slopes: &table.slopes,
        },
        fractions: q.fractions,
        densities: q.densities,
    };
    let zero = Dual::plain(0.0);
    let mut xs = [zero; SIDE];
    let mut alphas = [zero; SHEET];
    let e = contributions(&s, non_additive, &mut xs, &mut alphas)?;
    if !all_finite(e) {
        return Err(Refusal::NotFinite);
    }
    Ok(e)
}
