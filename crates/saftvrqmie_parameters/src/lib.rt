// SAFT-VRQ Mie parameters (saftvrqmie/parameters.rs): from component lists to the set of pair values.
#![tactic(auto)]

ghost use Rattle.std.specs.Prelude.{Err, ◌≡◌, true, ◌*◌, ◌<◌, ◌≤◌, ℕ, max, length, get_or};
ghost use Rattle.number.specs.Answer.{answer};
ghost use Rattle.number.specs.Arith.{floats};
ghost use Rattle.number.specs.Lists.{at};
ghost use Rattle.sizes.specs.Sizes.{side};
ghost use Rattle.limits.specs.Limits.{square, components};
ghost use Rattle.saftvrqmie_parameters.specs.Combine.{sigma_ij, mass_ij};
ghost use Rattle.saftvrqmie_parameters.specs.Parameters.{empty_set, set_of, lists_of, Fitting, right_lengths, within_in, record_m, pair_orders, order_row, order_walk, pair_parameters, pair_in, row_of, order_of, orders_row, orders_of, saft_vrq_mie_pars};
ghost use Rattle.mie_parameters.specs.Answer.{outcome};

use limits::Component;
use mie_parameters::set::Parameters;
use mie_parameters::sheets::PairLists;
use mie_parameters::{set, sheets};
use number::Refusal;
use sizes::{SHEET, SHEETS, SIDE};

#[derive(Clone, Copy)]
pub enum FeynmanHibbsOrder {
    FH0,
    FH1,
    FH2,
}

// A record of one field: document 01's set has records that each hold an order.
#[derive(Clone, Copy)]
pub struct OrderRecord {
    pub order: FeynmanHibbsOrder,
}

// Document 01's Forms ask for a struct by value with the count and the flat array: no list of its own length.
#[derive(Clone, Copy)]
pub struct SaftVRQMiePars {
    pub count: usize,
    pub m: [f64; SIDE],
    pub sheets: [f64; SHEETS],
    pub orders: [OrderRecord; SHEET],
}

pub type ParameterSet = mie_parameters::set::ParameterSet<SaftVRQMiePars>;

// The lists that a caller hands, and the caller's count, which 1 compares with them; fh are the orders' bytes.
#[derive(Clone, Copy)]
pub struct ComponentLists<'a> {
    pub count: usize,
    pub m: &'a [f64],
    pub sigma: &'a [f64],
    pub epsilon_k: &'a [f64],
    pub lr: &'a [f64],
    pub la: &'a [f64],
    pub mass: &'a [f64],
    pub fh: &'a [u8],
    pub k_ij: &'a [f64],
    pub l_ij: &'a [f64],
}

#[derive(Clone, Copy)]
pub struct PairParameters {
    pub sigma: f64,
    pub epsilon_k: f64,
    pub c: f64,
    pub lr: f64,
    pub la: f64,
    pub mass: f64,
}

impl Parameters for SaftVRQMiePars {
    ghost empty_set = { empty_set };

    // Count 0, all +0, FH0.
    fn empty() -> SaftVRQMiePars {
        SaftVRQMiePars {
            count: 0,
            m: [0.0; SIDE],
            sheets: [0.0; SHEETS],
            orders: [OrderRecord {
                order: FeynmanHibbsOrder::FH0,
            }; SHEET],
        }
    }
}

fn pair_orders(a: u8, b: u8) -> Result<(), Refusal>
    ensures { outcome result true ≡ pair_orders a b }
{
    if 2 < a {
        return Err(Refusal::Order);
    }
    if 2 < b {
        return Err(Refusal::Order);
    }
    // By the bytes, as the definition: of two numbers up to 2 the product is 2 where 1 and 2 meet.
    if a * b == 2 {
        return Err(Refusal::MixedOrders);
    }
    Ok(())
}

// The order of one component beside each of the list.
fn order_row(a: u8, fh: &[u8]) -> Result<(), Refusal>
    ensures { (i : ℕ) → a ≡ get_or fh.now i 0 → outcome result true ≡ order_row (length fh.now) fh.now i }
{
    for b in fh {
        pair_orders(a, *b)?;
    }
    Ok(())
}

fn order_walk(fh: &[u8]) -> Result<(), Refusal>
    ensures { outcome result true ≡ order_walk (length fh.now) fh.now }
{
    for a in fh {
        order_row(*a, fh)?;
    }
    Ok(())
}

fn sigma_ij(si: f64, sj: f64, l: f64) -> f64
    ensures { result ≡ sigma_ij floats si sj l }
{
    (1.0 - l) * 0.5 * (si + sj)
}

fn mass_ij(mi: f64, mj: f64) -> f64
    ensures { result ≡ mass_ij floats mi mj }
{
    2.0 * mi * mj / (mi + mj)
}

fn pair_parameters(
    a: Component,
    b: Component,
    ma: f64,
    mb: f64,
    k: f64,
    l: f64,
) -> Result<PairParameters, Refusal>
    ensures { answer result ≡ pair_parameters a b ma mb k l }
{
    let sigma = sigma_ij(a.sigma, b.sigma, l);
    let epsilon_k = mie_parameters::epsilon_k_ij(
        a.sigma,
        b.sigma,
        a.epsilon_k,
        b.epsilon_k,
        sigma,
        k,
    )?;
    let lr = mie_parameters::lambda_ij(a.lr, b.lr)?;
    let la = mie_parameters::lambda_ij(a.la, b.la)?;
    let c = mie_parameters::c_ij(lr, la)?;
    let mass = mass_ij(ma, mb);
    Ok(PairParameters {
        sigma,
        epsilon_k,
        c,
        lr,
        la,
        mass,
    })
}

impl<'a> PairLists for ComponentLists<'a> {
    type Pair = PairParameters;

    ghost size = { λ l. l.count };

    ghost fits = { λ l. Fitting (lists_of l) };

    ghost pair_at = { λ l. pair_in (lists_of l) };

    ghost row_of = { row_of };

    fn count(&self) -> usize {
        self.count
    }

    // Inlined with the row: a call a pair would hand the six numbers through memory.
    #[inline(always)]
    fn pair(&self, i: usize, j: usize) -> Result<PairParameters, Refusal> {
        let a = limits::component_at(self.sigma, self.epsilon_k, self.lr, self.la, i);
        let b = limits::component_at(self.sigma, self.epsilon_k, self.lr, self.la, j);
        let e = self.count * i + j;
        pair_parameters(a, b, self.mass[i], self.mass[j], self.k_ij[e], self.l_ij[e])
    }

    #[inline(always)]
    fn row(p: PairParameters) -> [f64; 6]
        ensures { result ≡ row_of p }
    {
        [p.sigma, p.epsilon_k, p.c, p.lr, p.la, p.mass]
    }
}

// The order of a byte; above 2 the second. Beside it no TryFrom, which could answer 4: Rust, as which the sources are compiled too, has one for each From, and that one never fails.
impl From<u8> for FeynmanHibbsOrder {
    ghost from_gives = { λ n r. r ≡ order_of n };

    fn from(n: u8) -> FeynmanHibbsOrder {
        match n {
            0 => FeynmanHibbsOrder::FH0,
            1 => FeynmanHibbsOrder::FH1,
            _ => FeynmanHibbsOrder::FH2,
        }
    }
}

// By index: an entry is of a pair, and rows of the sheet are longer than the list.
fn orders_row(orders: &mut [OrderRecord; SHEET], fh: &[u8], i: usize)
    requires { (length fh.now ≤ side) × (i < length fh.now) }
    ensures { orders.new ≡ orders_row (length fh.now) fh.now i orders.old }
{
    for j in 0usize..fh.len() {
        let order = FeynmanHibbsOrder::from(fh[i].max(fh[j]));
        orders[SIDE * i + j] = OrderRecord { order };
    }
}

fn orders_of(fh: &[u8]) -> [OrderRecord; SHEET]
    requires { length fh.now ≤ side }
    ensures { result ≡ orders_of (length fh.now) fh.now }
{
    let mut orders = [OrderRecord {
        order: FeynmanHibbsOrder::FH0,
    }; SHEET];
    for i in 0usize..fh.len() {
        orders_row(&mut orders, fh, i);
    }
    orders
}

// The models have other lists; the tests are the definition's, one by one.
fn right_lengths(l: &ComponentLists) -> bool
    ensures { result ≡ right_lengths (lists_of l.now) }
{
    if !limits::count_within(l.count) {
        return false;
    }
    let square = l.count * l.count;
    (l.m.len() == l.count)
        & (l.sigma.len() == l.count)
        & (l.epsilon_k.len() == l.count)
        & (l.lr.len() == l.count)
        & (l.la.len() == l.count)
        & (l.mass.len() == l.count)
        & (l.fh.len() == l.count)
        & (l.k_ij.len() == square)
        & (l.l_ij.len() == square)
}

// The numbers' limits.
fn within_limits(l: &ComponentLists) -> bool
    requires { Fitting (lists_of l.now) }
    ensures { result ≡ within_in (lists_of l.now) }
{
    limits::components_within(l.count, l.sigma, l.epsilon_k, l.lr, l.la)
        & limits::masses_within(l.mass)
        & limits::pairs_within(l.count, l.k_ij)
        & limits::pairs_within(l.count, l.l_ij)
}

// `SaftVRQMieRecord::new`'s test of m.
pub fn record_m(m: f64) -> Result<(), Refusal>
    ensures { outcome result true ≡ record_m m }
{
    if m == 1.0 {
        Ok(())
    } else {
        Err(Refusal::Segments)
    }
}

// `SaftVRQMiePars::new`: the set, or the first refusal that applies.
pub fn saft_vrq_mie_pars(l: &ComponentLists) -> Result<SaftVRQMiePars, Refusal>
    ensures { answer result ≡ saft_vrq_mie_pars (lists_of l.now) }
{
    if !right_lengths(l) {
        return Err(Refusal::Length);
    }
    if !within_limits(l) {
        return Err(Refusal::Limit);
    }
    if !limits::all_one(l.m) {
        return Err(Refusal::Segments);
    }
    order_walk(l.fh)?;
    let mut sheets = [0.0; SHEETS];
    sheets::fill_sheets(l, &mut sheets)?;
    let m = mie_parameters::in_places(l.count, l.m);
    let orders = orders_of(l.fh);
    Ok(SaftVRQMiePars {
        count: l.count,
        m,
        sheets,
        orders,
    })
}

// The same with the set beside the answer: of a refused call the empty set.
pub fn parameters(l: &ComponentLists) -> ParameterSet
    ensures answer { outcome result.answer result.set ≡ saft_vrq_mie_pars (lists_of l.now) }
    ensures set { result.set ≡ set_of (saft_vrq_mie_pars (lists_of l.now)) }
{
    set::beside_answer(saft_vrq_mie_pars(l))
}
