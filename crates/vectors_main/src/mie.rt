// The calls of SAFT-VR Mie.
ghost use Rattle.std.specs.Prelude.{◌≤◌};

use crate::chains::Chains;
use crate::hash::Hash;
use crate::place::{Of, Place, put};
use crate::record::{Lists, Record, WORDS};
use crate::tally::Operation;
use mie_parameters::set::Parameters;
use number::{Refusal, bits_of};
use records::{floats, part};
use saftvrmie_energies::{Set, State};
use saftvrmie_parameters::{ComponentLists, SaftVRMiePars};
use sizes::{SHEET, SIDE};

#[derive(Drop)]
pub struct Mie {
    set: SaftVRMiePars,
    diameters: [f64; SIDE],
}

// Each component list has the places of a sheet.
fn hash_of(set: SaftVRMiePars) -> u64 {
    Hash::new()
        .floats(Of::Lists, 0, &set.m)
        .floats(Of::Lists, SHEET, &set.sigma)
        .floats(Of::Lists, 2 * SHEET, &set.epsilon_k)
        .floats(Of::Lists, 3 * SHEET, &set.lr)
        .floats(Of::Lists, 4 * SHEET, &set.la)
        .floats(Of::Sheets, 0, &set.sheets)
        .value()
}

fn parameters(record: &Record) -> Result<SaftVRMiePars, Refusal> {
    let numbers: [f64; WORDS] = floats(&record.list);
    let mut lists = Lists::new(&numbers);
    saftvrmie_parameters::saft_vr_mie_pars(&ComponentLists {
        count: record.word(2) as usize,
        m: lists.take(record.length(6)),
        sigma: lists.take(record.length(7)),
        epsilon_k: lists.take(record.length(8)),
        lr: lists.take(record.length(9)),
        la: lists.take(record.length(10)),
        k_ij: lists.take(record.length(11)),
        gamma_ij: lists.take(record.length(12)),
    })
}

impl Mie {
    pub fn new() -> Mie {
        Mie {
            set: SaftVRMiePars::empty(),
            diameters: [0.0; SIDE],
        }
    }

    fn parameters(&mut self, record: &Record) -> bool {
        let answer = parameters(record);
        self.set = answer.unwrap_or(SaftVRMiePars::empty());
        record.tells(answer.err()) & (record.word(15) == hash_of(self.set))
    }

    // No call where the record lends more than there is: it has a 9 then.
    fn diameters(&mut self, record: &Record) -> bool {
        let is_told = match self.diameters.get_mut(..record.length(6)) {
            Some(lent) => {
                let answer = saftvrmie::hs_diameter(self.set, record.temperature(), lent);
                record.tells(answer.err())
            }
            None => record.word(1) == 9,
        };
        let diameters = Hash::new().floats(Of::Worked, 0, &self.diameters);
        is_told & (record.word(15) == diameters.value())
    }

    fn dispersion(&self, record: &Record) -> bool {
        let l: [f64; WORDS] = floats(&record.list);
        let n = record.length(6);
        let state = State {
            set: Set::from(&self.set),
            temperature: record.temperature(),
            fractions: part(&l, 0, n),
            densities: part(&l, n, record.length(7)),
            diameters: part(&self.diameters, 0, record.length(8)),
        };
        let answer = saftvrmie_energies::dispersion(&state, record.is_wanted());
        match answer {
            Err(r) => record.tells(Some(r)),
            Ok(x) => record.tells(None) & (record.word(15) == bits_of(x)),
        }
    }

    // A list goes by its sheet, which is matched in this place only, and has one row, whatever the place's is.
    fn change_list(&mut self, place: Place, bits: u64) {
        let i = usize::from(place.column);
        match place.sheet {
            0 => put(&mut self.set.m, i, bits),
            1 => put(&mut self.set.sigma, i, bits),
            2 => put(&mut self.set.epsilon_k, i, bits),
            3 => put(&mut self.set.lr, i, bits),
            4 => put(&mut self.set.la, i, bits),
            _ => {}
        }
    }
}

impl Chains for Mie {
    fn call(&mut self, operation: Operation, record: &Record) -> Option<bool> {
        match operation {
            Operation::MieParameters => Some(self.parameters(record)),
            Operation::MieDiameters => Some(self.diameters(record)),
            Operation::MieDispersion | Operation::MieAndChain => Some(self.dispersion(record)),
            Operation::QuantumParameters | Operation::QuantumTable | Operation::QuantumEnergies =>
                None,
        }
    }

    fn begin(&mut self) {
        self.diameters = [0.0; SIDE];
    }

    fn change(&mut self, place: Place, bits: u64) {
        match place.of {
            Of::Count => {
                self.set.count = bits as usize;
            }
            Of::Lists => self.change_list(place, bits),
            Of::Sheets => put(&mut self.set.sheets, place.index(), bits),
            Of::Worked => put(&mut self.diameters, place.index(), bits),
            Of::Orders | Of::Spent => {}
        }
    }
}
