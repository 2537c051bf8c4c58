// Where each component list of a set of SAFT-VR Mie starts in the one list that crosses the C boundary.
use crate::SIDE;

pub const M: usize = 0;

pub const SIGMA: usize = SIDE;

pub const EPSILON_K: usize = 2 * SIDE;

pub const LR: usize = 3 * SIDE;

pub const LA: usize = 4 * SIDE;
