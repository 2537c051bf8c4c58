// Slip 10: the energies of a tank in layers, over one quantum set; the walk over its layers, of the float and of the two-ended run.
#![tactic(auto)]

ghost use Rattle.std.specs.Prelude.{◌≡◌, true, cond, ◌<◌, ◌≤◌, length, Bool};
ghost use Rattle.number.specs.Answer.{answer_by};
ghost use Rattle.number.specs.Arith.{zero64};
ghost use Rattle.number.specs.Functions.{calls};
ghost use Rattle.elementary.specs.Port.{port};
ghost use Rattle.saftvrqmie_energies.specs.Energies.{each_by, energies_answer, contributions_of, energies};
ghost use Rattle.saftvrqmie_energies.specs.Reads.{set_of, asked_at};
ghost use Rattle.saftvrqmie_tank.specs.Tank.{most_layers, lists_of, layer_in, layer_at, layers_within, tank_lengths, volume_within, layer_within, piled, layer_piled, behind, layer_answer, layers_answer, tank_answer, tank};

use enclosure::Enclosure;
use number::Refusal;
use plain_num::PlainNum;
use saftvrqmie::PairsAt;
use saftvrqmie_energies::{Energies, QuantumEnergies, Set, StateLists};
use saftvrqmie_parameters::SaftVRQMiePars;
use sizes::{COUNTS, TABLE};

// The most layers of a tank.
pub const LAYERS: usize = 32;

// How many layers, and their lists, from the bottom up: a temperature and a volume each, a fraction and a density for each component; and whether the non-additive part is wanted. The count is the caller's, which 14 tests before any length.
#[derive(Clone, Copy)]
pub struct Layers<'a> {
    pub layers: usize,
    pub temperatures: &'a [f64],
    pub fractions: &'a [f64],
    pub densities: &'a [f64],
    pub volumes: &'a [f64],
    pub non_additive: bool,
}

// A layer of a tank, whose lists are parts of the tank's.
#[derive(Clone, Copy)]
pub struct Layer<'a> {
    pub temperature: f64,
    pub fractions: &'a [f64],
    pub densities: &'a [f64],
    pub volume: f64,
}

// A run that works a layer's energies from its table. 1, 2, 6, 7 of the float run.
pub trait LayerRun: PlainNum {
    fn energies(set: &Set, q: &StateLists) -> Result<Energies<Self>, Refusal>
        ensures { let s = set_of set.now in
            let A = Self.beside true in
            answer_by (each_by (Self.of true)) result ≡ behind (asked_at (energies s) q.now) (asked_at (contributions_of A (calls A port) s) q.now) };
}

impl LayerRun for f64 {
    fn energies(set: &Set, q: &StateLists) -> Result<Energies<f64>, Refusal> {
        saftvrqmie_energies::energies_of(set, q)
    }
}

impl LayerRun for Enclosure {
    fn energies(set: &Set, q: &StateLists) -> Result<Energies<Enclosure>, Refusal> {
        saftvrqmie_energies_ends::enclosures_of(set, q)
    }
}

// 14.
pub fn layers_within(layers: usize) -> bool
    ensures { result ≡ layers_within layers }
{
    (1 <= layers) & (layers <= LAYERS)
}

// 1: the count, and the length of each list. 14 goes before it, so that the layers are few and no product wraps.
pub fn tank_lengths(n: usize, q: &Layers) -> bool
    requires { q.now.layers ≤ most_layers }
    ensures { result ≡ tank_lengths n (lists_of q.now) }
{
    if !limits::count_within(n) {
        return false;
    }
    let places = n * q.layers;
    (q.temperatures.len() == q.layers)
        & (q.fractions.len() == places)
        & (q.densities.len() == places)
        & (q.volumes.len() == q.layers)
}

fn volume_within(v: f64) -> bool
    ensures { result ≡ volume_within v }
{
    (0.0 < v) & (v <= 1e30)
}

// 2 of a layer, whose lists `tank_lengths` has tested. n is for the clause alone, as in limits::state_within.
pub fn layer_within(n: usize, y: &Layer) -> bool
    requires { (length y.now.fractions.now ≡ n) × (length y.now.densities.now ≡ n) }
    ensures { result ≡ layer_within n (layer_in y.now) }
{
    limits::state_within(n, y.temperature, y.fractions, y.densities) & volume_within(y.volume)
}

// Layer l, from the bottom up, of a tank whose layer count and lists were tested with 14 and 1.
fn layer_at<'a>(n: usize, q: &Layers<'a>, l: usize) -> Layer<'a>
    requires { (l < q.now.layers) × (q.now.layers ≤ most_layers) × (tank_lengths n (lists_of q.now) ≡ true) }
    ensures { layer_in result ≡ layer_at n (lists_of q.now) l }
{
    let from = n * l;
    let to = from + n;
    Layer {
        temperature: q.temperatures[l],
        fractions: &q.fractions[from..to],
        densities: &q.densities[from..to],
        volume: q.volumes[l],
    }
}

// A layer's table and energies. 2 before all else of it, the table's 6 and 7, the energies' 6 and 7.
fn layer_of<D: LayerRun>(
    set: &SaftVRQMiePars,
    y: &Layer,
    non_additive: bool,
) -> Result<Energies<D>, Refusal>
    requires { (length y.now.fractions.now ≡ set.now.count) × (length y.now.densities.now ≡ set.now.count) }
    ensures { answer_by (each_by (D.of true)) result ≡ layer_answer (D.beside true) set.now (layer_in y.now) non_additive }
{
    let n = set.count;
    if !layer_within(n, y) {
        return Err(Refusal::Limit);
    }
    let mut table = [0.0; TABLE];
    let mut counts = [0u8; COUNTS];
    let pairs = PairsAt {
        n,
        sheets: &set.sheets,
        orders: set.orders,
        temperature: y.temperature,
    };
    saftvrqmie::table_of(&pairs, &mut table, &mut counts)?;
    let q = StateLists {
        temperature: y.temperature,
        fractions: y.fractions,
        densities: y.densities,
        table: &table,
        non_additive,
    };
    D::energies(&Set::from(set), &q)
}

fn piled<D: PlainNum>(y: &Layer, energy: D, below: D) -> D
    ensures { (w : Bool) → D.of w result ≡ piled (D.beside w) y.now.volume y.now.temperature (D.of w energy) (D.of w below) }
{
    let v = D::entered(y.volume);
    let t = D::entered(y.temperature);
    below + energy * v * t
}

// Not wanted: +0, and nothing of it is worked.
fn wanted_pile<D: PlainNum>(wanted: bool, y: &Layer, energy: D, below: D) -> D
    ensures { (w : Bool) → D.of w result ≡ cond wanted (piled (D.beside w) y.now.volume y.now.temperature (D.of w energy) (D.of w below)) ((D.beside w).lit zero64) }
{
    if !wanted {
        return D::entered(0.0);
    }
    piled(y, energy, below)
}

// A layer's energies on those of the layers below it.
fn layer_piled<D: PlainNum>(
    wanted: bool,
    y: &Layer,
    e: Energies<D>,
    below: Energies<D>,
) -> Energies<D>
    ensures { (w : Bool) → each_by (D.of w) result ≡ layer_piled (D.beside w) wanted y.now.volume y.now.temperature (each_by (D.of w) e) (each_by (D.of w) below) }
{
    let h = piled(y, e.hard_sphere, below.hard_sphere);
    let d = piled(y, e.dispersion, below.dispersion);
    let a = wanted_pile(wanted, y, e.non_additive, below.non_additive);
    Energies {
        hard_sphere: h,
        dispersion: d,
        non_additive: a,
    }
}

// From the bottom up, from +0. 2, 6, 7 of the first layer that is refused. The layer count and the lists were tested with 14 and 1.
pub fn layers_of<D: LayerRun>(set: &SaftVRQMiePars, q: &Layers) -> Result<Energies<D>, Refusal>
    requires { (q.now.layers ≤ most_layers) × (tank_lengths set.now.count (lists_of q.now) ≡ true) }
    ensures { answer_by (each_by (D.of true)) result ≡ layers_answer (D.beside true) set.now (lists_of q.now) q.now.non_additive }
{
    let n = set.count;
    let zero = D::entered(0.0);
    let mut below = Energies {
        hard_sphere: zero,
        dispersion: zero,
        non_additive: zero,
    };
    // By the layer's number: it places four lists, of which two are cut into a layer's parts.
    for l in 0usize..q.layers {
        let y = layer_at(n, q, l);
        let e = layer_of::<D>(set, &y, q.non_additive)?;
        below = layer_piled(q.non_additive, &y, e, below);
    }
    Ok(below)
}

// A tank's energies in a run. 14, 1, then layer by layer 2, 6, 7, then 7 of the tank, all of the float run.
pub fn tank_of<D: LayerRun>(set: &SaftVRQMiePars, q: &Layers) -> Result<Energies<D>, Refusal>
    ensures { answer_by (each_by (D.of true)) result ≡ tank_answer (D.beside true) set.now (lists_of q.now) q.now.non_additive }
{
    if !layers_within(q.layers) {
        return Err(Refusal::Layers);
    }
    if !tank_lengths(set.count, q) {
        return Err(Refusal::Length);
    }
    let e = layers_of::<D>(set, q)?;
    if !saftvrqmie_energies::all_finite(e) {
        return Err(Refusal::NotFinite);
    }
    Ok(e)
}

// The tank's hard sphere, dispersion and, if wanted, non-additive. 14, 1, then layer by layer 2, 6, 7, then 7 of the tank.
pub fn tank(set: &SaftVRQMiePars, q: &Layers) -> Result<QuantumEnergies, Refusal>
    ensures { energies_answer result ≡ tank set.now (lists_of q.now) q.now.non_additive }
{
    tank_of::<f64>(set, q)
}
