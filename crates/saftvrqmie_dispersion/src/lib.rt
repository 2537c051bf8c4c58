// Alpha, and the perturbations of a pair to third order (saftvrqmie/eos/dispersion.rs), with what the sums over pairs share of them.
#![tactic(auto)]

mod alpha;
mod perturbation;
mod sums;

pub use alpha::{alpha_ij, chi, third_order_perturbation_ij};
pub use perturbation::{
    DispersionPair, Factors, Quantum, dispersion_pair, first_order_perturbation_ij, k,
    second_order_perturbation_ij,
};
pub use sums::{lead, orders_sum};
