// Where each sheet of a quantum set starts.
use crate::SHEET;

pub const SIGMA_IJ: usize = 0;

pub const EPSILON_K_IJ: usize = SHEET;

pub const C_IJ: usize = 2 * SHEET;

pub const LAMBDA_R_IJ: usize = 3 * SHEET;

pub const LAMBDA_A_IJ: usize = 4 * SHEET;

pub const MASS_IJ: usize = 5 * SHEET;
