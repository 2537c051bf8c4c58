// What a pair and a component add to the Helmholtz energies of SAFT-VR Mie (saftvrmie/eos/dispersion.rs), in any numbers; the chain's pure terms in numbers with a slope by the segment density. The powers of one x0 share its logarithm.
#![tactic(auto)]

mod chain;
mod chain_num;
mod lost_slopes;
mod orders;
mod slope_sums;
mod sutherland;

pub use crate::chain::{
    add_link, chain_pure, fluid_dual, g_hs, gamma, k_values, link_pref, ln_g_mie,
};
pub use crate::chain_num::ChainNum;
pub use crate::orders::{
    a3, add_pair, add_pure, bar_of, orders_sum, pair_terms, six_of, x0_of, xi,
};
pub use crate::slope_sums::{a1s_ij_dual, k_hs_dual, orders_dual, zeta_eff_dual};
pub use crate::sutherland::{a1s_ij, fluid_of, k_hs, lambda_of, zeta_eff};

// What all pairs, or the components of a chain, share in a state: b1, b2 and b3 are the factors of `b_ij` that hang on zeta_x alone.
#[derive(Clone, Copy)]
pub struct Fluid<D> {
    pub segment_density: D,
    pub zeta_x: D,
    pub k_hs: D,
    pub b1: D,
    pub b2: D,
    pub b3: D,
}

// zeta_x_bar and its powers 5 and 8.
#[derive(Clone, Copy)]
pub struct Bar<D> {
    pub zeta_x_bar: D,
    pub zx5: D,
    pub zx8: D,
}

// What the sums work of an exponent alone: lambda - 3, lambda - 4, and the rows of C at 1 / lambda. Fields with numbers, here and below, not an array: each is worked by a text of its own and read by its name.
#[derive(Clone, Copy)]
pub struct Lambda<P> {
    pub l3: P,
    pub l4: P,
    pub c0: P,
    pub c1: P,
    pub c2: P,
    pub c3: P,
}

// `f` of the six rows of PHI at one alpha.
#[derive(Clone, Copy)]
pub struct Six<P> {
    pub f0: P,
    pub f1: P,
    pub f2: P,
    pub f3: P,
    pub f4: P,
    pub f5: P,
}

// a1s_b at la, lr, 2 la, la + lr, 2 lr.
#[derive(Clone, Copy)]
pub struct Five<D> {
    pub at_la: D,
    pub at_lr: D,
    pub at_2la: D,
    pub at_lalr: D,
    pub at_2lr: D,
}

// The first and the second order of a component, with the sums that they are made of.
#[derive(Clone, Copy)]
pub struct OrdersDual<S> {
    pub five: Five<S>,
    pub a1: S,
    pub a2: S,
}

// The three orders of a pair, and the chi that corrects the second.
#[derive(Clone, Copy)]
pub struct Terms<D> {
    pub a1: D,
    pub a2: D,
    pub a3: D,
    pub xi: D,
}

#[derive(Clone, Copy)]
pub struct Sums<D> {
    pub a1: D,
    pub a2: D,
    pub a3: D,
    pub a_chain: D,
}

// The k-values of the hard spheres' pair correlation function.
#[derive(Clone, Copy)]
pub struct KValues<D> {
    pub k0: D,
    pub k1: D,
    pub k2: D,
    pub k3: D,
}

// What the components of a chain share: the fluid with slopes by the segment density, and the plain numbers R of its run.
#[derive(Clone, Copy)]
pub struct ChainState<S, R> {
    pub fluid: Fluid<S>,
    pub bar: Bar<R>,
    pub k: KValues<R>,
}

// What only the chain reads of a component and of the state; t_inv is 1/T.
#[derive(Clone, Copy)]
pub struct Link<R> {
    pub m: R,
    pub fraction: R,
    pub t_inv: R,
}
