// The walk over the pairs of a table, with slopes or without: each pair's properties are worked and stored.
ghost use Rattle.std.specs.Prelude.{◌≡◌, ◌<◌, ◌≤◌, ℕ, Float, Result, false};
ghost use Rattle.number.specs.declared.refusal.Refusal.{Refusal as Refused};
ghost use Rattle.number.specs.Ans.{Ans};
ghost use Rattle.number.specs.Answer.{answer_by};
ghost use Rattle.number.specs.Arith.{whole};
ghost use Rattle.sizes.specs.Sizes.{side, sheet};
ghost use Rattle.mie_parameters.specs.Answer.{outcome};
ghost use Rattle.saftvrqmie_potential.specs.declared.Pair.{Pair};
ghost use Rattle.saftvrqmie_potential.specs.Potential.{pair_by, pair_at_entry, potential};
ghost use Rattle.saftvrqmie_properties.specs.declared.PairProperties as declared;
ghost use Rattle.saftvrqmie_properties.specs.Properties.{PairPropertiesIn, pair_properties_by, properties_from};
ghost use Rattle.saftvrqmie.specs.Store.{Kept, row_stored, pairs_stored};

use number::Refusal;
use saftvrqmie_parameters::OrderRecord;
use saftvrqmie_properties::PairProperties;
use saftvrqmie_searches::WithoutEnds;
use sizes::{SHEET, SHEETS, SIDE};

// The pairs of a set's count, at a temperature that may carry a slope. n is not known to be within here: table_of refuses it with 1, so the walk's clauses ask for n ≤ side.
#[derive(Clone, Copy)]
pub struct PairsAt<'a, D> {
    pub n: usize,
    pub sheets: &'a [f64; SHEETS],
    pub orders: [OrderRecord; SHEET],
    pub temperature: D,
}

// Where the properties of pairs are stored: beside their counts, or beside their slopes.
pub trait PairStore {
    // The run's numbers.
    type Num: WithoutEnds;

    // Its lists and numbers, as the formulas of specs/ see them, and the properties of a pair by these.
    ghost kept: { Kept };

    ghost lists: { Self → kept.Lists };

    ghost read: { Self.Num → kept.Num };

    ghost properties: { Pair Self.Num Float → Ans (PairPropertiesIn kept.Num) };

    fn store(&mut self, e: usize, p: PairProperties<Self::Num>)
        requires { e < sheet }
        ensures { lists self.new ≡ kept.stored (lists self.old) e (pair_properties_by read p) };

    // What `pair_properties` answers, read so.
    ghost properties_law: { let A = Self.Num.beside false in
        let F = Self.Num.functions false in
        (p : Pair Self.Num Float) (a : Result (declared.PairProperties Self.Num) Refused) →
        let q = pair_by A.lit (Self.Num.of false) p in
        answer_by (pair_properties_by (Self.Num.of false)) a ≡ properties_from A F (potential A F q) (A.mul (Self.Num.taken false (whole A 1)) q.sigma) q.mass q.temperature →
        answer_by (pair_properties_by read) a ≡ properties p };
}

// By index, here and below: a pair's entry is worked from its indexes.
fn work_row<S: PairStore>(p: &PairsAt<S::Num>, i: usize, into: &mut S) -> Result<(), Refusal>
    requires { (p.now.n ≤ side) × (i < p.now.n) }
    ensures { let at = λ (e : ℕ). S.properties (pair_at_entry p.now.sheets.now p.now.orders p.now.temperature e) in
        outcome result (S.lists into.new) ≡ row_stored S.kept at p.now.n i (S.lists into.old) }
{
    for j in 0usize..p.n {
        let e = SIDE * i + j;
        let pair = saftvrqmie_potential::pair_at(p.sheets, p.orders, p.temperature, e);
        let q = saftvrqmie_properties::pair_properties(saftvrqmie_potential::points(pair))?;
        into.store(e, q);
    }
    Ok(())
}

// All ordered pairs, row by row. 6 at the first that has one; what was stored before it stays.
pub fn work_pairs<S: PairStore>(p: &PairsAt<S::Num>, into: &mut S) -> Result<(), Refusal>
    requires { p.now.n ≤ side }
    ensures { let at = λ (e : ℕ). S.properties (pair_at_entry p.now.sheets.now p.now.orders p.now.temperature e) in
        outcome result (S.lists into.new) ≡ pairs_stored S.kept at p.now.n (S.lists into.old) }
{
    for i in 0usize..p.n {
        work_row(p, i, into)?;
    }
    Ok(())
}
