// Slip 8's sizes, the one place that has them: how many components, how long each list, and where each sheet of a set or table starts.
#![tactic(auto)]

pub mod counts;
pub mod mie_lists;
pub mod mie_set;
pub mod quantum_set;
pub mod table;

// The side of a sheet: the most components. A sheet holds a number for each pair, entry (i, j) at SIDE * i + j.
pub const SIDE: usize = 12;

pub const SHEET: usize = SIDE * SIDE;

// The six sheets of a set, in one array.
pub const SHEETS: usize = 6 * SHEET;

// The four sheets of the temperature table.
pub const TABLE: usize = 4 * SHEET;

// The three sheets of the searches' counts.
pub const COUNTS: usize = 3 * SHEET;

// The five component lists of a set of SAFT-VR Mie, one behind the other.
pub const LISTS: usize = 5 * SIDE;
