// The temperature table of a quantum set with slopes (saftvrqmie/eos/mod.rs; document 02, Slip 1): values in one list, their slopes in another.
#![tactic(auto)]

ghost use Rattle.std.specs.Prelude.{◌≡◌, ◌<◌, ◌≤◌, Float};
ghost use Rattle.number.specs.Arith.{floats};
ghost use Rattle.sizes.specs.Sizes.{side, sheet};
ghost use Rattle.elementary.specs.Port.{port};
ghost use Rattle.dual.specs.Dual.{DualOf};
ghost use Rattle.dual.specs.Value.{dual_of};
ghost use Rattle.mie_parameters.specs.Answer.{outcome};
ghost use Rattle.slopes_lists.specs.Lists.{SlopedList};
ghost use Rattle.saftvrqmie_properties.specs.Properties.{pair_properties_by};
ghost use Rattle.saftvrqmie_table_slopes.specs.Laws.{slope_properties};
ghost use Rattle.saftvrqmie_table_slopes.specs.Table.{store_slopes, properties_at, sloped_of, table_slopes_into};

use dual::Dual;
use number::Refusal;
use saftvrqmie::{PairStore, PairsAt, all_finite, work_pairs};
use saftvrqmie_properties::PairProperties;
use sizes::TABLE;
use sizes::table::{EPSILON_K_EFF, HS_DIAMETER, QUANTUM_D};

// A table's values and their slopes. Two arrays, not one of Duals: the energies read a table as a `NumberList`, whose two lists are those that the C call lends.
#[derive(Drop)]
pub struct SlopedTable {
    pub values: [f64; TABLE],
    pub slopes: [f64; TABLE],
}

impl PairStore for SlopedTable {
    type Num = Dual;

    ghost kept = { record { Num = DualOf Float; Lists = SlopedList; stored = store_slopes } };

    ghost lists = { sloped_of };

    ghost read = { dual_of };

    ghost properties = { properties_at port };

    ghost properties_law = { slope_properties };

    fn store(&mut self, e: usize, p: PairProperties<Dual>)
        requires { e < sheet }
        ensures { sloped_of self.new ≡ store_slopes (sloped_of self.old) e (pair_properties_by dual_of p) }
    {
        self.values[e] = p.sigma_eff.re;
        self.values[HS_DIAMETER + e] = p.hs_diameter.re;
        self.values[EPSILON_K_EFF + e] = p.epsilon_k_eff.re;
        self.values[QUANTUM_D + e] = p.quantum_d.re;
        self.slopes[e] = p.sigma_eff.eps;
        self.slopes[HS_DIAMETER + e] = p.hs_diameter.eps;
        self.slopes[EPSILON_K_EFF + e] = p.epsilon_k_eff.eps;
        self.slopes[QUANTUM_D + e] = p.quantum_d.eps;
    }
}

// The table into two lists of +0: values and slopes. 6 at the first pair that has one, then 7 where a value or a slope is not finite. The operation has tested the count (1): the table has 12 rows of places.
pub fn table_slopes(p: &PairsAt<Dual>, into: &mut SlopedTable) -> Result<(), Refusal>
    requires { p.now.n ≤ side }
    ensures { outcome result (sloped_of into.new) ≡ table_slopes_into port p.now.n p.now.sheets.now p.now.orders (dual_of p.now.temperature) (sloped_of into.old) }
{
    work_pairs(p, into)?;
    if !(all_finite(&into.values) & all_finite(&into.slopes)) {
        return Err(Refusal::NotFinite);
    }
    Ok(())
}
