// The numbers of a component of the quantum model, in their order on a card.
pub const SIGMA: usize = 0;

pub const EPSILON_K: usize = 1;

pub const LR: usize = 2;

pub const LA: usize = 3;

pub const MASS: usize = 4;

pub const ORDER: usize = 5;

// How many they are.
pub const SIZE: usize = 6;
