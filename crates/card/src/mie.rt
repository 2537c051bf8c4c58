// The numbers of a component of SAFT-VR Mie, in their order on a card.
pub const M: usize = 0;

pub const SIGMA: usize = 1;

pub const EPSILON_K: usize = 2;

pub const LR: usize = 3;

pub const LA: usize = 4;

// How many they are.
pub const SIZE: usize = 5;
