// The C boundary: each function takes lists apart, calls a proved operation and stores its result.
// Its parameters are those of the C call, one by one. A struct in their place would be no plainer: domthelv_c, which exports each function under the same clause, would make it of them, field by field, and its clause name them once more.
// Calls that take alike stand apart: what they share is the C call's parameters made into structs; what is left of each is the test of a list's length, where it writes one, its own call, and what it does with the answer.
#![tactic(auto)]

mod card_writing;
mod cards;
mod desks;
mod ends;
mod functions;
mod mie;
mod pressure;
mod quantum;
mod tank;

pub use crate::card_writing::{
    domthelv_card_to_newer, domthelv_card_to_older, domthelv_vr_card, domthelv_vrq_card,
};
pub use crate::cards::{domthelv_card_parameters, domthelv_newer_card_parameters};
pub use crate::desks::{domthelv_desk_begin, domthelv_desk_serve, domthelv_desk_submit};
pub use crate::ends::{
    domthelv_vr_diameter_ends, domthelv_vr_dispersion_ends, domthelv_vrq_diameter_ends,
    domthelv_vrq_energies_ends,
};
pub use crate::functions::{
    domthelv_exp, domthelv_exp_m1, domthelv_ln, domthelv_ln_1p, domthelv_powf, domthelv_powi,
    domthelv_sqrt, domthelv_tanh,
};
pub use crate::mie::{
    domthelv_vr_diameter, domthelv_vr_diameters, domthelv_vr_dispersion, domthelv_vr_parameters,
    domthelv_vr_radius, domthelv_vr_stage,
};
pub use crate::pressure::domthelv_vrq_energies_slopes;
pub use crate::quantum::{
    domthelv_order_counts, domthelv_vrq_diameter, domthelv_vrq_energies, domthelv_vrq_parameters,
    domthelv_vrq_radii, domthelv_vrq_record_m, domthelv_vrq_stage, domthelv_vrq_table,
    domthelv_vrq_total,
};
pub use crate::tank::{domthelv_vrq_tank, domthelv_vrq_tank_ends};
