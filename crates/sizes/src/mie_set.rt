// Where each sheet of a set of SAFT-VR Mie starts.
use crate::SHEET;

pub const SIGMA_IJ: usize = 0;

pub const EPSILON_K_IJ: usize = SHEET;

pub const LR_IJ: usize = 2 * SHEET;

pub const LA_IJ: usize = 3 * SHEET;

pub const C_IJ: usize = 4 * SHEET;

pub const ALPHA_IJ: usize = 5 * SHEET;
