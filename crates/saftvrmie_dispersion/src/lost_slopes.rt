// What the slope of a quotient by a plain number, so near to zero, adds to a sum in the two-ended run: mostly nothing. The products of b with i and j.
ghost use Rattle.std.specs.Prelude.{◌≡◌};
ghost use Rattle.number.specs.Arith.{one64};
ghost use Rattle.enclosure.specs.Enclosure.{point, add_e, sub_e, mul_e, div_e, neg_e};
ghost use Rattle.saftvrmie_dispersion.specs.Slope.{finite_ends, i_slope, j_slope, quotient_slope, stays_of, moderate_of, tiny_of, tiny_slope, lost_in, lost_sum};

use crate::ChainNum;
use enclosure::Enclosure;
use enclosure_dual::EnclosureDual;
use interval::Interval;

fn finite_ends(x: Enclosure) -> bool
    ensures { result ≡ finite_ends x }
{
    x.ends.is_finite()
}

// The slope of j's dividend, all of whose numbers are plain: of finite ends it gives the eighth floats about zero.
fn j_slope(p4: Enclosure, p3: Enclosure, l3: Enclosure, l4: Enclosure) -> Enclosure
    ensures { result ≡ j_slope p4 p3 l3 l4 }
{
    let finite = finite_ends(p4) & (finite_ends(p3) & (finite_ends(l3) & finite_ends(l4)));
    if !finite {
        let zero = Enclosure::point(0.0);
        let a = zero * l3 + p4 * zero;
        let z = zero * l4 + p3 * zero;
        return -(a - z - zero);
    }
    let a = 0.0 * l3.value + p4.value * 0.0;
    let z = 0.0 * l4.value + p3.value * 0.0;
    Enclosure {
        value: -(a - z - 0.0),
        ends: Interval {
            lower: f64::from_bits(0x8000_0000_0000_0008),
            upper: f64::from_bits(8),
            sound: (l3.ends.sound & p4.ends.sound) & (l4.ends.sound & p3.ends.sound),
        },
    }
}

// The slope of i's dividend: a plain number's.
fn i_slope() -> Enclosure
    ensures { result ≡ i_slope }
{
    Enclosure {
        value: -0.0,
        ends: Interval {
            lower: f64::from_bits(0x8000_0000_0000_0001),
            upper: f64::from_bits(1),
            sound: true,
        },
    }
}

// 2^-800, added or taken away, leaves x as it is.
fn stays(x: f64) -> bool
    ensures { result ≡ stays_of x }
{
    let faint = f64::from_bits(0x0df0_0000_0000_0000);
    !(x < x + faint) & !(x - faint < x)
}

// Ends in order, from 0 to 2^100.
fn moderate(lower: f64, upper: f64) -> bool
    ensures { result ≡ moderate_of lower upper }
{
    (0.0 < lower) & !(upper < lower) & (upper < 1267650600228229401496703205376.0)
}

// Less than sixteen steps from zero.
fn tiny(x: f64) -> bool
    ensures { result ≡ tiny_of x }
{
    (f64::from_bits(0x8000_0000_0000_0010) < x) & (x < f64::from_bits(16))
}

fn is_tiny(t: Interval) -> bool
    ensures { result ≡ tiny_slope t }
{
    t.sound & tiny(t.lower) & tiny(t.upper)
}

// The slope of a tiny dividend's quotient by e, times b, is lost in a sum with x.
fn is_lost(x: Interval, b: Interval, e: Interval) -> bool
    ensures { result ≡ lost_in x b e }
{
    let firm = x.sound & stays(x.lower) & stays(x.upper);
    let factor = b.sound & moderate(b.lower, b.upper);
    firm & factor & moderate(e.lower, e.upper) & (1.0 < e.lower)
}

// The sum where it is lost.
fn lost_sum(x: Enclosure, b: f64, t: f64, c: f64, e: f64) -> Enclosure
    ensures { result ≡ lost_sum x b t c e }
{
    let nothing = Interval {
        lower: 0.0,
        upper: 0.0,
        sound: true,
    };
    x + Enclosure {
        value: b * ((t * e - c * 0.0) / (e * e)),
        ends: nothing,
    }
}

// The sum in full.
fn whole_sum(x: Enclosure, b: Enclosure, t: Enclosure, c: Enclosure, e: Enclosure) -> Enclosure
    ensures { result ≡ add_e x (mul_e b (quotient_slope t c e)) }
{
    let top = t * e - enclosure_dual::times_zero(c);
    let slope = top / (e * e);
    x + b * slope
}

// b by -(u - 1) / e, where u and e are worked of plain numbers alone; t is the slope of -(u - 1).
#[inline(always)]
fn times_quotient(b: EnclosureDual, u: Enclosure, e: Enclosure, t: Enclosure) -> EnclosureDual
    ensures { let c = neg_e (sub_e u (point one64)) in
        let q = div_e c e in
        (result.re ≡ mul_e b.re q) × (result.eps ≡ add_e (mul_e b.eps q) (mul_e b.re (quotient_slope t c e))) }
{
    let c = -(u - Enclosure::point(1.0));
    let q = c / e;
    let x = b.eps * q;
    let re = b.re * q;
    if is_lost(x.ends, b.re.ends, e.ends) & is_tiny(t.ends) {
        let eps = lost_sum(x, b.re.value, t.value, c.value, e.value);
        return EnclosureDual { re, eps };
    }
    let eps = whole_sum(x, b.re, t, c, e);
    EnclosureDual { re, eps }
}

impl ChainNum for EnclosureDual {
    fn times_i(self, p3: Enclosure, l3: Enclosure) -> EnclosureDual {
        times_quotient(self, p3, l3, i_slope())
    }

    fn times_j(self, p4: Enclosure, p3: Enclosure, l3: Enclosure, l4: Enclosure) -> EnclosureDual {
        let u = p4 * l3 - p3 * l4;
        times_quotient(self, u, l3 * l4, j_slope(p4, p3, l3, l4))
    }
}
