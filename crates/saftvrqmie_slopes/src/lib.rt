// The quantum chain with slopes on a set: temperature, fractions and densities carry one, and so does each contribution (document 02, Slip 1).
#![tactic(auto)]

ghost use Rattle.std.specs.Prelude.{◌≡◌};
ghost use Rattle.slopes_lists.specs.Lists.{state_of};
ghost use Rattle.saftvrqmie_energies_slopes.specs.Energies.{energies_slopes_answer};
ghost use Rattle.saftvrqmie_slopes.specs.Operation.{energies_slopes};

use number::Refusal;
use saftvrqmie::PairsAt;
use saftvrqmie_energies_slopes::QuantumEnergiesSlopes;
use saftvrqmie_parameters::SaftVRQMiePars;
use saftvrqmie_table_slopes::SlopedTable;
use sizes::TABLE;
use slopes_lists::SlopedState;

// With a table of its own. 1, 2, 7 for a supplied slope, the table's 6 and 7, the energies' 6 and 7.
pub fn energies_slopes(
    set: &SaftVRQMiePars,
    q: &SlopedState,
    non_additive: bool,
) -> Result<QuantumEnergiesSlopes, Refusal>
    ensures { energies_slopes_answer result ≡ energies_slopes set.now (state_of q.now) non_additive }
{
    let n = set.count;
    if !slopes_lists::sloped_lengths(n, q) {
        return Err(Refusal::Length);
    }
    if !limits::state_within(n, q.temperature.re, q.fractions.values, q.densities.values) {
        return Err(Refusal::Limit);
    }
    if !slopes_lists::supplied_finite(n, q) {
        return Err(Refusal::NotFinite);
    }
    let pairs = PairsAt {
        n,
        sheets: &set.sheets,
        orders: set.orders,
        temperature: q.temperature,
    };
    let mut table = SlopedTable {
        values: [0.0; TABLE],
        slopes: [0.0; TABLE],
    };
    saftvrqmie_table_slopes::table_slopes(&pairs, &mut table)?;
    saftvrqmie_energies_slopes::energies_of(set, q, &table, non_additive)
}
