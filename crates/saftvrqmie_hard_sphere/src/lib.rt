// The hard sphere (saftvrqmie/eos/hard_sphere.rs) and the non-additive part (non_additive_hs.rs), of any run.
#![tactic(auto)]

mod hard_sphere;
mod non_additive_hs;

use dual_num::NumberList;
pub use hard_sphere::{Zetas, helmholtz_energy_density, segment_density, zero, zeta};
pub use non_additive_hs::{non_additive, wanted_part};
use saftvrqmie_parameters::OrderRecord;
use sizes::{SHEET, SHEETS, SIDE};

// What the energies read: a set's parts, and a temperature with its table, fractions and densities.
#[derive(Clone, Copy)]
pub struct State<'a, D> {
    pub n: usize,
    pub m: &'a [f64; SIDE],
    pub sheets: &'a [f64; SHEETS],
    pub orders: [OrderRecord; SHEET],
    pub temperature: D,
    pub table: NumberList<'a>,
    pub fractions: NumberList<'a>,
    pub densities: NumberList<'a>,
}
