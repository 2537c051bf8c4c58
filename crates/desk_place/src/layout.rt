// Where a place's numbers lie in its parts of the two lists, and how long these are.
use sizes::quantum_set::{C_IJ, EPSILON_K_IJ, LAMBDA_A_IJ, LAMBDA_R_IJ, MASS_IJ};
use sizes::{SHEET, SHEETS, SIDE, TABLE};

// Floats: the temperature, m, fractions, densities, the set's sheets, the table.
pub const TEMPERATURE_AT: usize = 0;

pub const M_AT: usize = 1;

pub const FRACTIONS_AT: usize = M_AT + SIDE;

pub const DENSITIES_AT: usize = FRACTIONS_AT + SIDE;

pub const SHEETS_AT: usize = DENSITIES_AT + SIDE;

pub const EPSILON_K_AT: usize = SHEETS_AT + EPSILON_K_IJ;

pub const C_AT: usize = SHEETS_AT + C_IJ;

pub const LAMBDA_R_AT: usize = SHEETS_AT + LAMBDA_R_IJ;

pub const LAMBDA_A_AT: usize = SHEETS_AT + LAMBDA_A_IJ;

pub const MASS_AT: usize = SHEETS_AT + MASS_IJ;

pub const TABLE_AT: usize = SHEETS_AT + SHEETS;

pub const PLACE_FLOATS: usize = TABLE_AT + TABLE;

// Bytes: the count, the row and the column of the pair in hand, whether the non-additive part is wanted, the orders.
pub const COUNT_AT: usize = 0;

pub const ROW_AT: usize = 1;

pub const COLUMN_AT: usize = 2;

pub const WANTED_AT: usize = 3;

pub const ORDERS_AT: usize = 4;

pub const PLACE_BYTES: usize = ORDERS_AT + SHEET;
