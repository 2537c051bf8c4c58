// The seven elementary functions, as the formulas call them: a value, or that an argument is outside its domain. Their contracts give the fields of `port`.
#![tactic(auto)]

pub use exponential::{exp, exp_m1, tanh};
pub use logarithm::{ln, ln_1p};
pub use power::powf;
pub use root::sqrt;
