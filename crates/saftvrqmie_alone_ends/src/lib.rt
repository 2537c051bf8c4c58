// The quantum Mie potential u (saftvrqmie/eos/hard_sphere.rs) in the two-ended run, where of its derivatives only counts whether they are sound.
// Of a tame pair they are, at each sound radius from 1 on: there u is worked alone.
#![tactic(auto)]

ghost use Rattle.std.specs.Prelude.{◌≡◌};
ghost use Rattle.number.specs.Functions.{calls};
ghost use Rattle.elementary.specs.Port.{port};
ghost use Rattle.number.specs.Answer.{answer};
ghost use Rattle.enclosure.specs.declared.Enclosure.{Enclosure};
ghost use Rattle.enclosure.specs.Enclosure.{enclosures};
ghost use Rattle.saftvrqmie_potential.specs.Potential.{PairIn, potential};
ghost use Rattle.saftvrqmie_alone_ends.specs.Alone.{EnclosureSharing, within_of, from_one, small_ends, plain_of, tame_term, tame_of, u_after};

use dual_num::EnclosureExponent;
use enclosure::Enclosure;
use number::Refusal;
use saftvrqmie_potential::{Shared, Term};

// What a pair's radii share, and whether the pair is tame: asked once for all radii.
#[derive(Drop)]
pub struct Asked<'a> {
    pub shared: &'a Shared<Enclosure, Enclosure, EnclosureExponent>,
    pub tame: bool,
    pub ghost told: { tame ≡ tame_of shared.now },
}

// No further from zero than 2^100.
fn within(a: f64) -> bool
    ensures { result ≡ within_of a }
{
    let big = 1267650600228229401496703205376.0;
    number::within(-big, big, a)
}

// No power of such a radius, its exponent being from 0 on, is below 1.
fn from_one(a: f64) -> bool
    ensures { result ≡ from_one a }
{
    1.0 <= a
}

// Sound, and both ends within.
fn small(x: Enclosure) -> bool
    ensures { result ≡ small_ends x }
{
    x.ends.sound & within(x.ends.lower) & within(x.ends.upper)
}

// A sound exponent of the power's domain, from 0 on and other than 1.
fn plain(n: EnclosureExponent) -> bool
    ensures { result ≡ plain_of n }
{
    n.x.ends.sound & n.at.inside & !n.at.fixed.negative & !n.at.fixed.one
}

fn is_tame_term(t: &Term<Enclosure, EnclosureExponent>) -> bool
    ensures { result ≡ tame_term t.now }
{
    let factors = small(t.lambda) & small(t.q1) & small(t.q2) & small(t.power);
    let upto3 = plain(t.e0) & plain(t.e1) & plain(t.e2) & plain(t.e3);
    factors & upto3 & plain(t.e4) & plain(t.e5) & plain(t.e6)
}

// Exponents, powers of sigma and factors so small that no derivative leaves the floats.
fn is_tame(s: &Shared<Enclosure, Enclosure, EnclosureExponent>) -> bool
    ensures { result ≡ tame_of s.now }
{
    is_tame_term(&s.r) & is_tame_term(&s.a) & small(s.d) & small(s.d2) & small(s.ce)
}

pub fn ask<'a>(s: &'a Shared<Enclosure, Enclosure, EnclosureExponent>) -> Asked<'a>
    ensures { result.shared.now ≡ s.now }
{
    let tame = is_tame(s);
    Asked { shared: s, tame }
}

// u after both derivatives, which are worked where they may be unsound.
pub fn u_after(a: &Asked, r: Enclosure) -> Result<Enclosure, Refusal>
    ensures { (p : PairIn Enclosure) → EnclosureSharing p a.now.shared.now → answer result ≡ u_after (potential enclosures (calls enclosures port) p r) }
{
    let s = a.shared;
    if a.tame & from_one(r.value) {
        return saftvrqmie_potential::u_at(s, r);
    }
    let v = saftvrqmie_potential::potential_at(s, r)?;
    Ok(v.u.after(v.u_rr).after(v.u_r))
}
