// The diameter of a pair from its two searched radii (saftvrqmie/eos/hard_sphere.rs, `hs_diameter_ij`) in the two-ended run, and as a two-ended operation.
// Operations on a pair take its indexes and the temperature one by one, as the Rust's: pair_asked and pair_at read them once.
#![tactic(auto)]

ghost use Rattle.std.specs.Prelude.{◌≡◌};
ghost use Rattle.number.specs.Functions.{calls};
ghost use Rattle.elementary.specs.Port.{port};
ghost use Rattle.number.specs.Answer.{answer};
ghost use Rattle.enclosure.specs.Enclosure.{enclosures};
ghost use Rattle.saftvrqmie_potential.specs.Potential.{pair_of};
ghost use Rattle.saftvrqmie_searches.specs.Diameter.{diameter};
ghost use Rattle.saftvrqmie_diameter_ends.specs.Operations.{diameter_ends};

use enclosure::{Enclosure, Ends};
use number::Refusal;
use saftvrqmie_parameters::SaftVRQMiePars;
use saftvrqmie_potential::Pair;
use saftvrqmie_searches::rule::{abscissa, weight};
use sizes::SIDE;

// From the searched radii. At each node both derivatives of the potential count, whether worked or not. One text with `diameter_by` would be no shorter: what u_after takes where u_at takes a Shared would be three members of a trait in each run (its type, how it is asked, u by it), for a loop of eight lines.
pub fn hs_diameter(
    p: Pair<Enclosure, Enclosure>,
    sigma_eff: Enclosure,
    r0: Enclosure,
) -> Result<Enclosure, Refusal>
    ensures { answer result ≡ diameter enclosures (calls enclosures port) (pair_of p) sigma_eff r0 }
{
    let s = saftvrqmie_potential::share(&p)?;
    let asked = saftvrqmie_alone_ends::ask(&s);
    let one = Enclosure::point(1.0);
    let half = Enclosure::point(0.5);
    let width = (sigma_eff - r0) * half;
    let mut d_hs = r0;
    // By index: `abscissa` and `weight` are asked at one, of two tables.
    for k in 0usize..21usize {
        let r = width * abscissa::<Enclosure>(k) + width + r0;
        let u = saftvrqmie_alone_ends::u_after(&asked, r)?;
        let e = elementary_ends::exp(-u / p.temperature)?;
        let f_u = -e + one;
        let part = width * f_u * weight::<Enclosure>(k);
        d_hs = d_hs + part;
    }
    Ok(d_hs)
}

// `hs_diameter_ij` with two ends. 1, 2, 6, 7, 8.
pub fn hs_diameter_ij_ends(
    set: SaftVRQMiePars,
    i: usize,
    j: usize,
    temperature: f64,
    sigma_eff: f64,
    r0: f64,
) -> Result<Ends, Refusal>
    ensures { answer result ≡ diameter_ends port set i j temperature sigma_eff r0 }
{
    limits::pair_asked(set.count, i, j, temperature)?;
    let sheets = set.sheets;
    let orders = set.orders;
    let t = Enclosure::point(temperature);
    let pair = saftvrqmie_potential::pair_at(&sheets, orders, t, SIDE * i + j);
    let s = Enclosure::point(sigma_eff);
    let r = Enclosure::point(r0);
    enclosure::ends_of(hs_diameter(saftvrqmie_potential::points(pair), s, r))
}
