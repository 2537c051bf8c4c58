// Where each sheet of the temperature table starts.
use crate::SHEET;

pub const SIGMA_EFF: usize = 0;

pub const HS_DIAMETER: usize = SHEET;

pub const EPSILON_K_EFF: usize = 2 * SHEET;

pub const QUANTUM_D: usize = 3 * SHEET;
