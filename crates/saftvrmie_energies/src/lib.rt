// Helmholtz energies of SAFT-VR Mie on a set (saftvrmie/eos/dispersion.rs): `Properties::new`, dispersion, and dispersion with chain.
#![tactic(auto)]

mod energies;
mod mixture;
mod properties;
mod set;
mod sums;

pub use energies::{dispersion, energy_run};
pub use properties::{Properties, d_ij, properties_of, total, weighted, xs_of};
pub use set::{Set, State, pure_at, tested};
