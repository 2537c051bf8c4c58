// Document 01's limits of what is taken, shared by both models.
// In the contracts n ≤ side, i < n and j < n stand plain: each bounds one number, and a name would be longer.
#![tactic(auto)]

ghost use Rattle.std.specs.Prelude.{true, ◌≡◌, ◌*◌, ◌<◌, ◌≤◌, length};
ghost use Rattle.std.specs.Prelude.{OnOk};
ghost use Rattle.number.specs.Answer.{answer_by};
ghost use Rattle.number.specs.Lists.{at};
ghost use Rattle.sizes.specs.Sizes.{side};
ghost use Rattle.number.specs.Walk.{every};
ghost use Rattle.limits.specs.Limits.{square, components, in_limits, count_within, index_within, component_within, components_within, all_within, masses_within, segments_within, shares_within, temperature_within, pair_asked, state_within, same_bits, pair_within, pairs_within, all_one, all_finite};

use number::Refusal;

// The numbers of one component that both models take.
#[derive(Clone, Copy)]
pub struct Component {
    pub sigma: f64,
    pub epsilon_k: f64,
    pub lr: f64,
    pub la: f64,
}

pub fn count_within(n: usize) -> bool
    ensures { result ≡ count_within n }
{
    (1 <= n) & (n <= sizes::SIDE)
}

// Whether the count is within its limits and both indices of a pair are below it.
pub fn index_within(n: usize, i: usize, j: usize) -> bool
    ensures { result ≡ index_within n i j }
{
    count_within(n) & (i < n) & (j < n)
}

pub fn temperature_within(t: f64) -> bool
    ensures { result ≡ temperature_within t }
{
    number::within(1.0, 2000.0, t)
}

// What an operation on the pair (i, j) at a temperature tests, for `?`. 1, 2.
pub fn pair_asked(n: usize, i: usize, j: usize, t: f64) -> Result<(), Refusal>
    ensures asked { answer_by (λ _. true) result ≡ pair_asked n i j t }
    ensures inside { OnOk result ((i < side) × (j < side)) }
{
    if !index_within(n, i, j) {
        return Err(Refusal::Length);
    }
    if !temperature_within(t) {
        return Err(Refusal::Limit);
    }
    Ok(())
}

// Component i of lists that reach that far: for loops over the count, which the lists' lengths were tested against. Four lists, not a struct: both models' structs have them among others, as the C call lends them.
pub fn component_at(sigma: &[f64], epsilon_k: &[f64], lr: &[f64], la: &[f64], i: usize) -> Component
    requires { (i < length sigma.now) × (i < length epsilon_k.now) × (i < length lr.now) × (i < length la.now) }
    ensures { result ≡ components sigma.now epsilon_k.now lr.now la.now i }
{
    Component {
        sigma: sigma[i],
        epsilon_k: epsilon_k[i],
        lr: lr[i],
        la: la[i],
    }
}

fn component_within(c: Component) -> bool
    ensures { result ≡ component_within c }
{
    number::within(0.5, 16.0, c.sigma)
        & number::within(0.1, 5000.0, c.epsilon_k)
        & ((3.0 < c.la) & (c.la < c.lr) & (c.lr <= 64.0))
}

// The count stays beside the four lists: without it the clause would ask that they are equally long, which each caller has only by the count.
pub fn components_within(n: usize, sigma: &[f64], epsilon_k: &[f64], lr: &[f64], la: &[f64]) -> bool
    requires { (length sigma.now ≡ n) × (length epsilon_k.now ≡ n) × (length lr.now ≡ n) × (length la.now ≡ n) }
    ensures { result ≡ components_within n (components sigma.now epsilon_k.now lr.now la.now) }
{
    (0..n).all(|i| component_within(component_at(sigma, epsilon_k, lr, la, i)))
}

// The list tests below are of the whole list: an operation has refused one that is not as long as the count with 1 before it asks them.
fn all_within(low: f64, high: f64, l: &[f64]) -> bool
    ensures { result ≡ all_within low high (length l.now) (at l.now) }
{
    l.iter().all(|x| number::within(low, high, *x))
}

pub fn masses_within(mass: &[f64]) -> bool
    ensures { result ≡ masses_within (length mass.now) (at mass.now) }
{
    all_within(1.0e-27, 1.0e-23, mass)
}

pub fn segments_within(m: &[f64]) -> bool
    ensures { result ≡ segments_within (length m.now) (at m.now) }
{
    all_within(0.5, 64.0, m)
}

pub fn shares_within(x: &[f64]) -> bool
    ensures { result ≡ shares_within (length x.now) (at x.now) }
{
    all_within(0.0, 1.0, x)
}

// What energies take beside a set. n is for the clause alone, which says by it that the two lists are equally long: each caller has that only by the count.
pub fn state_within(n: usize, t: f64, x: &[f64], rho: &[f64]) -> bool
    requires { (length x.now ≡ n) × (length rho.now ≡ n) }
    ensures { result ≡ state_within n t x.now rho.now }
{
    temperature_within(t) & shares_within(x) & shares_within(rho)
}

pub fn same_bits(x: f64, y: f64) -> bool
    ensures { result ≡ same_bits x y }
{
    (x == x) & (y == y) & (number::bits_of(x) == number::bits_of(y))
}

fn pair_within(n: usize, k: &[f64], i: usize, j: usize) -> bool
    requires { (n ≤ side) × (i < n) × (j < n) × (length k.now ≡ n * n) }
    ensures { result ≡ pair_within (square n k.now) i j }
{
    let x = k[n * i + j];
    if i == j {
        return same_bits(x, 0.0);
    }
    number::within(-0.9, 0.9, x) & same_bits(x, k[n * j + i])
}

fn row_within(n: usize, k: &[f64], i: usize) -> bool
    requires { (n ≤ side) × (i < n) × (length k.now ≡ n * n) }
    ensures { result ≡ every n (λ j. pair_within (square n k.now) i j) }
{
    (0..n).all(|j| pair_within(n, k, i, j))
}

// Of a list as long as the count's square, tested likewise. No struct of both: it would be made here and taken apart in the two functions above, which alone take it.
pub fn pairs_within(n: usize, k: &[f64]) -> bool
    requires { (n ≤ side) × (length k.now ≡ n * n) }
    ensures { result ≡ pairs_within n (square n k.now) }
{
    (0..n).all(|i| row_within(n, k, i))
}

pub fn all_one(m: &[f64]) -> bool
    ensures { result ≡ all_one (length m.now) (at m.now) }
{
    m.iter().all(|x| *x == 1.0)
}

pub fn all_finite(l: &[f64]) -> bool
    ensures { result ≡ all_finite (length l.now) (at l.now) }
{
    l.iter().all(|x| number::is_finite(*x))
}
