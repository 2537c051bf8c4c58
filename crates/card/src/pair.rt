// The two numbers of a pair, in their order on a card.
pub const K: usize = 0;
// l of the quantum model, gamma of SAFT-VR Mie.
pub const SECOND: usize = 1;
