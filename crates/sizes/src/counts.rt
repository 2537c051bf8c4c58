// Where each sheet of the counts starts: the searches for sigma_eff, for the integrand's zero and for the depth.
use crate::SHEET;

pub const SIGMA: usize = 0;

pub const ZERO: usize = SHEET;

pub const DEPTH: usize = 2 * SHEET;
