// Component lists as a card's numbers, and the operations that write the card.
// i < n stands plain: it bounds one index, and a name would be longer.
#![tactic(auto)]

ghost use Rattle.std.specs.Prelude.{true, ◌≡◌, ◌++◌, ◌+◌, ◌*◌, ◌-◌, ◌<◌, ◌≤◌, leb, length, take};
ghost use Rattle.mie_parameters.specs.Answer.{outcome, verdict, stored};
ghost use Rattle.saftvrqmie_parameters.specs.Parameters as Quantum;
ghost use Rattle.saftvrmie_parameters.specs.Parameters as Mie;
ghost use Rattle.card.specs.Card.{Card, number_of, older, size, most_values};
ghost use Rattle.card.specs.Fields.{joined};
ghost use Rattle.card_writer.specs.Writing.{card_bytes, CardRoom, card_stored};
ghost use Rattle.number.specs.Ans.{◌>>=◌ as bound_to, demand};
ghost use Rattle.card_of_lists.specs.Squares.{Squares};
ghost use Rattle.card_of_lists.specs.Cards.{quantum_component_of, mie_component_of, pair_row, pair_rows, passed_by, vrq_card, vr_card};

use card::{Form, Heading, Kind, MOST, VALUES, mie, pair, quantum};
use number::Refusal;
use saftvrmie_parameters::ComponentLists as MieLists;
use saftvrqmie_parameters::ComponentLists as QuantumLists;

// The components' numbers. By index, here and below: it places the lists and the numbers both, and of what an adapter of iter_mut writes a proof knows nothing.
// A function each: one over a trait of both lists, with a component's numbers as an array, took 72 lines for 30, and the borrow checker does not cover one over a closure that gives them (`Fn(usize) -> [u64; N]`).
fn quantum_components(values: &mut [u64; VALUES], l: &QuantumLists)
    requires { (length l.now.fh.now ≡ l.now.count) × Quantum.Fitting (Quantum.lists_of l.now) }
    ensures { take (l.now.count * 6) values.new ≡ joined l.now.count (quantum_component_of (Quantum.lists_of l.now)) }
{
    for i in 0usize..l.count {
        let at = i * quantum::SIZE;
        values[at + quantum::SIGMA] = number::bits_of(l.sigma[i]);
        values[at + quantum::EPSILON_K] = number::bits_of(l.epsilon_k[i]);
        values[at + quantum::LR] = number::bits_of(l.lr[i]);
        values[at + quantum::LA] = number::bits_of(l.la[i]);
        values[at + quantum::MASS] = number::bits_of(l.mass[i]);
        values[at + quantum::ORDER] = u64::from(l.fh[i]);
    }
}

fn mie_components(values: &mut [u64; VALUES], l: &MieLists)
    requires { (length l.now.m.now ≡ l.now.count) × Mie.Fitting (Mie.lists_of l.now) }
    ensures { take (l.now.count * 5) values.new ≡ joined l.now.count (mie_component_of (Mie.lists_of l.now)) }
{
    for i in 0usize..l.count {
        let at = i * mie::SIZE;
        values[at + mie::M] = number::bits_of(l.m[i]);
        values[at + mie::SIGMA] = number::bits_of(l.sigma[i]);
        values[at + mie::EPSILON_K] = number::bits_of(l.epsilon_k[i]);
        values[at + mie::LR] = number::bits_of(l.lr[i]);
        values[at + mie::LA] = number::bits_of(l.la[i]);
    }
}

// The numbers of the pairs of n components, each kind of them in its square.
#[derive(Clone, Copy)]
struct Pairs<'a> {
    n: usize,
    k: &'a [f64],
    second: &'a [f64],
}

impl<'a> Pairs<'a> {
    // Those of row i, from index `at` on.
    fn row(self, i: usize, values: &mut [u64; VALUES], at: usize)
        requires { (i < self.n) × (at + 2 * (self.n - 1 - i) ≤ most_values) × Squares self.n self.k.now self.second.now }
        ensures { let p = self.entry in take (at + 2 * (p.n - 1 - i)) values.new ≡ take at values.old ++ pair_row p.n p.k.now p.second.now i }
    {
        for j in i + 1..self.n {
            let e = at + 2 * (j - i - 1);
            let cell = self.n * i + j;
            values[e + pair::K] = number::bits_of(self.k[cell]);
            values[e + pair::SECOND] = number::bits_of(self.second[cell]);
        }
    }

    // All of them, row by row, behind the components' numbers.
    fn rows(self, values: &mut [u64; VALUES], start: usize)
        requires { (start ≤ 72) × Squares self.n self.k.now self.second.now }
        ensures { let p = self.entry in take (start + p.n * (p.n - 1)) values.new ≡ take start values.old ++ pair_rows p.n p.k.now p.second.now }
    {
        for i in 0usize..self.n {
            self.row(i, values, start + 2 * card_lists::pairs_before(self.n, i));
        }
    }
}

// 6 is left to the parameters.
fn passed(refused: Option<Refusal>) -> Result<(), Refusal>
    ensures { outcome result true ≡ passed_by refused }
{
    match refused {
        None | Some(Refusal::Domain) => Ok(()),
        Some(r) => Err(r),
    }
}

// The card of components whose numbers are in place, with the pairs' behind them: 10, 12.
fn stored(
    kind: Kind,
    pairs: Pairs,
    values: &mut [u64; VALUES],
    card: &mut [u8],
    told: &mut usize,
) -> Result<(), Refusal>
    requires { (1 ≤ pairs.n) × Squares pairs.n pairs.k.now pairs.second.now }
    ensures { let p = pairs.entry in
        let c : Card =
        record {
          kind = number_of kind;
          count = p.n;
          values = take (p.n * size (number_of kind)) values.old ++ pair_rows p.n p.k.now p.second.now;
        } in
        let room : CardRoom = record { card = card.entry.now; length = told.old } in
        let q = bound_to (demand 10 (leb p.n older.most)) (λ _. card_stored (card_bytes older c) room) in
        (outcome result true ≡ verdict q) × (card.exit.now ≡ (stored room q).card) × (told.new ≡ (stored room q).length) }
{
    if MOST < pairs.n {
        return Err(Refusal::Heading);
    }
    let head = Heading {
        kind,
        count: pairs.n,
        form: Form::Older,
    };
    let total = head.value_count();
    pairs.rows(values, pairs.n * kind.size());
    card_writer::store(head, &values[0..total], card, told)
}

// The card of a quantum fluid into a lent list, and its length: the parameters' 1 to 5, 10, 12.
// A function each: they differ in the parameters, the numbers and the list beside k_ij; a closure for each would be the whole.
pub fn vrq_card(l: &QuantumLists, card: &mut [u8], told: &mut usize) -> Result<(), Refusal>
    ensures { let room : CardRoom = record { card = card.entry.now; length = told.old } in
        let q = vrq_card (Quantum.lists_of l.now) room in
        (outcome result true ≡ verdict q) × (card.exit.now ≡ (stored room q).card) × (told.new ≡ (stored room q).length) }
{
    passed(saftvrqmie_parameters::saft_vrq_mie_pars(l).err())?;
    let mut values = [0; VALUES];
    quantum_components(&mut values, l);
    let pairs = Pairs {
        n: l.count,
        k: l.k_ij,
        second: l.l_ij,
    };
    stored(Kind::Quantum, pairs, &mut values, card, told)
}

// The card of a fluid of SAFT-VR Mie likewise: the parameters' 1 and 2, 10, 12.
pub fn vr_card(l: &MieLists, card: &mut [u8], told: &mut usize) -> Result<(), Refusal>
    ensures { let room : CardRoom = record { card = card.entry.now; length = told.old } in
        let q = vr_card (Mie.lists_of l.now) room in
        (outcome result true ≡ verdict q) × (card.exit.now ≡ (stored room q).card) × (told.new ≡ (stored room q).length) }
{
    passed(saftvrmie_parameters::saft_vr_mie_pars(l).err())?;
    let mut values = [0; VALUES];
    mie_components(&mut values, l);
    let pairs = Pairs {
        n: l.count,
        k: l.k_ij,
        second: l.gamma_ij,
    };
    stored(Kind::Mie, pairs, &mut values, card, told)
}
