// The calls of the quantum model.
ghost use Rattle.std.specs.Prelude.{◌≤◌};

use crate::chains::Chains;
use crate::hash::Hash;
use crate::place::{Of, Place, put};
use crate::record::{Lists, Record, WORDS};
use crate::tally::Operation;
use mie_parameters::set::Parameters;
use number::{Refusal, bits_of};
use records::{floats, part};
use saftvrqmie_energies::StateLists;
use saftvrqmie_parameters::{ComponentLists, FeynmanHibbsOrder, OrderRecord, SaftVRQMiePars};
use sizes::{COUNTS, TABLE};

#[derive(Drop)]
pub struct Quantum {
    set: SaftVRQMiePars,
    table: [f64; TABLE],
    counts: [u8; COUNTS],
}

fn hash_of(set: SaftVRQMiePars) -> u64 {
    Hash::new()
        .floats(Of::Lists, 0, &set.m)
        .floats(Of::Sheets, 0, &set.sheets)
        .list(Of::Orders, 0, &set.orders, |r| r.order as u64)
        .value()
}

// The orders of a list of words from one on, as bytes; 0 past its end. Of the words themselves: as floats those of a NaN are all alike.
fn orders_from(words: &[[u8; 8]], from: usize) -> [u8; 16] {
    let mut orders = [0u8; 16];
    for (order, word) in orders.iter_mut().zip(words.iter().skip(from)) {
        *order = word[0];
    }
    orders
}

fn parameters(record: &Record) -> Result<SaftVRQMiePars, Refusal> {
    let numbers: [f64; WORDS] = floats(&record.list);
    let mut lists = Lists::new(&numbers);
    let m = lists.take(record.length(6));
    let sigma = lists.take(record.length(7));
    let epsilon_k = lists.take(record.length(8));
    let lr = lists.take(record.length(9));
    let la = lists.take(record.length(10));
    let mass = lists.take(record.length(11));
    let k_ij = lists.take(record.length(12));
    let l_ij = lists.take(record.length(13));
    let orders = orders_from(record.list.as_chunks().0, lists.at());
    saftvrqmie_parameters::saft_vrq_mie_pars(&ComponentLists {
        count: record.word(2) as usize,
        m,
        sigma,
        epsilon_k,
        lr,
        la,
        mass,
        fh: part(&orders, 0, record.length(14)),
        k_ij,
        l_ij,
    })
}

impl Quantum {
    pub fn new() -> Quantum {
        Quantum {
            set: SaftVRQMiePars::empty(),
            table: [0.0; TABLE],
            counts: [0u8; COUNTS],
        }
    }

    // As of SAFT-VR Mie; one function of both would take the empty set and the hash beside the answer, for three lines.
    fn parameters(&mut self, record: &Record) -> bool {
        let answer = parameters(record);
        self.set = answer.unwrap_or(SaftVRQMiePars::empty());
        record.tells(answer.err()) & (record.word(15) == hash_of(self.set))
    }

    fn table(&mut self, record: &Record) -> bool {
        let n = record.lent(6, TABLE);
        let m = record.lent(7, COUNTS);
        // Two fields lent at once behind a reference are not covered by the borrow checker's proof.
        let mut lent = self.table;
        let mut spent = self.counts;
        let answer = saftvrqmie::temperature_dependent_properties(
            self.set,
            record.temperature(),
            &mut lent[..n],
            &mut spent[..m],
        );
        self.table = lent;
        self.counts = spent;
        let table = Hash::new().floats(Of::Worked, 0, &self.table);
        let counts = Hash::new().list(Of::Spent, 0, &self.counts, |b| u64::from(*b));
        record.tells(answer.err())
            & (record.word(15) == table.value())
            & (record.word(16) == counts.value())
    }

    fn energies(&self, record: &Record) -> bool {
        let l: [f64; WORDS] = floats(&record.list);
        let n = record.length(6);
        let state = StateLists {
            temperature: record.temperature(),
            fractions: part(&l, 0, n),
            densities: part(&l, n, record.length(7)),
            table: part(&self.table, 0, record.lent(8, TABLE)),
            non_additive: record.is_wanted(),
        };
        let answer = saftvrqmie_energies::helmholtz_energy_densities(self.set, &state);
        match answer {
            Err(r) => record.tells(Some(r)),
            Ok(e) => {
                record.tells(None)
                    & (record.word(15) == bits_of(e.hard_sphere))
                    & (record.word(16) == bits_of(e.dispersion))
                    & (record.word(17) == bits_of(e.non_additive))
            }
        }
    }
}

impl Chains for Quantum {
    fn call(&mut self, operation: Operation, record: &Record) -> Option<bool> {
        match operation {
            Operation::QuantumParameters => Some(self.parameters(record)),
            Operation::QuantumTable => Some(self.table(record)),
            Operation::QuantumEnergies => Some(self.energies(record)),
            Operation::MieParameters
            | Operation::MieDiameters
            | Operation::MieDispersion
            | Operation::MieAndChain => None,
        }
    }

    fn begin(&mut self) {
        self.table = [0.0; TABLE];
        self.counts = [0u8; COUNTS];
    }

    fn change(&mut self, place: Place, bits: u64) {
        match place.of {
            Of::Count => {
                self.set.count = bits as usize;
            }
            Of::Lists => put(&mut self.set.m, place.index(), bits),
            Of::Sheets => put(&mut self.set.sheets, place.index(), bits),
            Of::Orders => {
                let order = FeynmanHibbsOrder::from((bits & 0xff) as u8);
                if let Some(record) = self.set.orders.get_mut(place.index()) {
                    *record = OrderRecord { order };
                }
            }
            Of::Worked => put(&mut self.table, place.index(), bits),
            Of::Spent => {}
        }
    }
}
