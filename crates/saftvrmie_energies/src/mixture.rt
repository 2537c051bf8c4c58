// What the sums over components and pairs read.
ghost use Rattle.std.specs.Prelude.{◌≡◌, length};
ghost use Rattle.sizes.specs.Sizes.{side};
ghost use Rattle.saftvrmie_energies.specs.Reads.{Right};

use crate::set::State;
use saftvrmie_dispersion::Fluid;

// A state that was tested, its segment fractions and its fluid. xs is a slice: of a field `&[D; SIDE]` that is lent on it is not proved that 8 times the size of a D is below 2^63 (goal `shared_whole_as_slice`). What the sums read of zeta_x_bar stands beside it: the chain has it with what its components share, and `returns` of chain_row would want that the two are one.
#[derive(Drop)]
pub struct Mixture<'a, D> {
    pub state: &'a State<'a, 'a>,
    pub xs: &'a [D],
    pub fluid: &'a Fluid<D>,
    pub ghost right: { Right state.now × (length xs.now ≡ side) },
}
