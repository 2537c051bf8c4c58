// Intervals: two ends in f64 that each operation moves one float outward, and whether all on the way was sound.
// The usual way of an operation is inlined: operands in order, a positive factor or divisor, results on one side of zero and away from it and from the largest f64. There two corners are the least and the greatest, and a step is one pattern further. Everything else goes out of line.
#![tactic(auto)]

ghost use Rattle.std.specs.Prelude.{◌≡◌, ◌&&◌, cond, Float, T, IfSome};
ghost use Rattle.std.specs.Float.{binary64};
ghost use Rattle.std.specs.Float.Ieee.{lt, neg, mul};
ghost use Rattle.std.specs.Float.Ieee.Scale.{finite};
ghost use Rattle.number.specs.Inside.{least_normal, largest, InsideAbove, InsideBelow};
ghost use Rattle.interval.specs.Interval.{point, outward, around, add_i, sub_i, mul_i, div_i, neg_i, pow_i, down_i, after_i};
ghost use Rattle.number.proofs.Order.{over, under};
ghost use Rattle.interval.specs.Usual.{InOrder};

use std::ops::{Add, Div, Mul, Neg, Sub};

// Document 01's two ends. `sound` is false once a divisor's ends touched zero or an end was not finite. It is a flag, since the ends go on being worked: an operation joins two flags by `&`, where it would take two Options apart.
#[derive(Clone, Copy)]
pub struct Interval {
    pub lower: f64,
    pub upper: f64,
    pub sound: bool,
}

// Here and below g, a and b are the flag and the ends before the outward step (in `around` four corners): they are no Interval yet.
fn outward(g: bool, a: f64, b: f64) -> Interval
    ensures { result ≡ outward g a b }
{
    let lower = number::next_down(a);
    let upper = number::next_up(b);
    let sound = g & number::is_finite(lower) & number::is_finite(upper);
    Interval {
        lower,
        upper,
        sound,
    }
}

fn around(g: bool, a: f64, b: f64, c: f64, d: f64) -> Interval
    ensures { result ≡ around g a b c d }
{
    let lower = number::least(number::least(a, b), number::least(c, d));
    let upper = number::greatest(number::greatest(a, b), number::greatest(c, d));
    outward(g, lower, upper)
}

// The general way of an operation: the least and the greatest of its four corners. It stands out of line, so that the usual way is inlined.
// The operators copy out the ends of what they get so: handed on as it is in all four, a usual difference takes 1.11 times as long; in `mul` alone, sums take 1.08 times.
#[inline(never)]
fn corners<F: Fn(f64, f64) -> f64>(worked: F, g: bool, x: Interval, y: Interval) -> Interval
    requires { F.IsAlwaysCallable worked }
    ensures { (a b c d : Float)
        × F.post worked x.lower y.lower a × F.post worked x.lower y.upper b
        × F.post worked x.upper y.lower c × F.post worked x.upper y.upper d
        × (result ≡ around g a b c d) }
{
    let a = worked(x.lower, y.lower);
    let b = worked(x.lower, y.upper);
    let c = worked(x.upper, y.lower);
    let d = worked(x.upper, y.upper);
    around(g, a, b, c, d)
}

// From a to b, both above zero: a step in the patterns.
fn above(a: f64, b: f64) -> bool
    ensures { result ≡ (lt least_normal a && lt b largest) }
{
    (f64::MIN_POSITIVE < a) & (b < f64::MAX)
}

fn rising(g: bool, a: f64, b: f64) -> Interval
    requires { InsideAbove a × InsideAbove b }
    ensures { result ≡ outward g a b }
{
    let p = f64::to_bits(a);
    let q = f64::to_bits(b);
    Interval {
        lower: f64::from_bits(p - 1),
        upper: f64::from_bits(q + 1),
        sound: g,
    }
}

// Both below zero.
fn below(a: f64, b: f64) -> bool
    ensures { result ≡ (lt (neg largest) a && lt b (neg least_normal)) }
{
    (-f64::MAX < a) & (b < -f64::MIN_POSITIVE)
}

// The same below zero, where a pattern grows with the size: the steps change sides, and the clause's premise with them.
fn falling(g: bool, a: f64, b: f64) -> Interval
    requires { InsideBelow a × InsideBelow b }
    ensures { result ≡ outward g a b }
{
    let p = f64::to_bits(a);
    let q = f64::to_bits(b);
    Interval {
        lower: f64::from_bits(p + 1),
        upper: f64::from_bits(q - 1),
        sound: g,
    }
}

// The ends one pattern outward, where both stand on one side of zero, away from it and from the largest.
fn stepped(g: bool, a: f64, b: f64) -> Option<Interval>
    requires { InOrder a b }
    ensures { IfSome result (λ r. T (over a) × T (under b) × (r ≡ outward g a b)) }
{
    if above(a, b) {
        return Some(rising(g, a, b));
    }
    if below(a, b) {
        return Some(falling(g, a, b));
    }
    None
}

// One of the two ends of a factor or divisor. As a call's answer it has one clause, which the lemmas of the usual way take; of an `if` the proof would join two arms at each of the six uses.
fn chosen(first: bool, x: f64, y: f64) -> f64
    ensures { result ≡ cond first x y }
{
    if first { x } else { y }
}

// A product that `mul` leaves: a positive right factor, then any. Its ends come one by one: of two intervals, two ends take 1.05 times the instructions.
fn product(g: bool, xl: f64, xu: f64, yl: f64, yu: f64) -> Interval
    ensures { result ≡ around g (mul binary64 xl yl) (mul binary64 xl yu) (mul binary64 xu yl) (mul binary64 xu yu) }
{
    if !(xu < xl) & (0.0 < yl) & !(yu < yl) & (yu < f64::MAX) {
        let a = xl * chosen(xl < 0.0, yu, yl);
        let b = xu * chosen(xu < 0.0, yl, yu);
        if let Some(ends) = stepped(g, a, b) {
            return ends;
        }
    }
    around(g, xl * yl, xl * yu, xu * yl, xu * yu)
}

impl Interval {
    pub fn point(x: f64) -> Interval
        ensures { result ≡ point x }
    {
        Interval {
            lower: x,
            upper: x,
            sound: number::is_finite(x),
        }
    }

    pub fn pow_up(self, n: u32) -> Interval
        ensures { result ≡ pow_i self n }
    {
        if n == 2 {
            return second(self);
        }
        if n == 3 {
            return third(self);
        }
        any_power(self, n)
    }

    // The whole power minus n.
    pub fn pow_down(self, n: u32) -> Interval
        ensures { result ≡ down_i self n }
    {
        Interval::point(1.0) / self.pow_up(n)
    }

    // Whether both ends are finite.
    pub fn is_finite(self) -> bool
        ensures { result ≡ (finite self.lower && finite self.upper) }
    {
        number::is_finite(self.lower) & number::is_finite(self.upper)
    }

    // x, where u was worked on the way.
    pub fn after(self, u: Interval) -> Interval
        ensures { result ≡ after_i u self }
    {
        Interval {
            lower: self.lower,
            upper: self.upper,
            sound: u.sound & self.sound,
        }
    }
}

impl Add for Interval {
    type Output = Interval;

    ghost add_gives = { λ x y r. r ≡ add_i x y };

    fn add(self, y: Interval) -> Interval {
        let g = self.sound & y.sound;
        if !(self.upper < self.lower) & !(y.upper < y.lower) {
            let a = self.lower + y.lower;
            let b = self.upper + y.upper;
            if let Some(ends) = stepped(g, a, b) {
                return ends;
            }
        }
        let q = corners(|a, b| a + b, g, self, y);
        Interval {
            lower: q.lower,
            upper: q.upper,
            sound: q.sound,
        }
    }
}

impl Sub for Interval {
    type Output = Interval;

    ghost sub_gives = { λ x y r. r ≡ sub_i x y };

    // Beside add it differs in the operation, three times, and in which end of y each end takes: one text would take both ends and the closure.
    fn sub(self, y: Interval) -> Interval {
        let g = self.sound & y.sound;
        if !(self.upper < self.lower) & !(y.upper < y.lower) {
            let a = self.lower - y.upper;
            let b = self.upper - y.lower;
            if let Some(ends) = stepped(g, a, b) {
                return ends;
            }
        }
        let q = corners(|a, b| a - b, g, self, y);
        Interval {
            lower: q.lower,
            upper: q.upper,
            sound: q.sound,
        }
    }
}

impl Mul for Interval {
    type Output = Interval;

    ghost mul_gives = { λ x y r. r ≡ mul_i x y };

    fn mul(self, y: Interval) -> Interval {
        let g = self.sound & y.sound;
        if (0.0 < self.lower)
            & !(self.upper < self.lower)
            & (self.upper < f64::MAX)
            & !(y.upper < y.lower)
        {
            let a = chosen(y.lower < 0.0, self.upper, self.lower) * y.lower;
            let b = chosen(y.upper < 0.0, self.lower, self.upper) * y.upper;
            if let Some(ends) = stepped(g, a, b) {
                return ends;
            }
        }
        let q = product(g, self.lower, self.upper, y.lower, y.upper);
        Interval {
            lower: q.lower,
            upper: q.upper,
            sound: q.sound,
        }
    }
}

impl Div for Interval {
    type Output = Interval;

    ghost div_gives = { λ x y r. r ≡ div_i x y };

    fn div(self, y: Interval) -> Interval {
        let g = self.sound & y.sound;
        if !(self.upper < self.lower)
            & (0.0 < y.lower)
            & !(y.upper < y.lower)
            & (y.upper < f64::MAX)
        {
            let a = self.lower / chosen(self.lower < 0.0, y.lower, y.upper);
            let b = self.upper / chosen(self.upper < 0.0, y.upper, y.lower);
            if let Some(ends) = stepped(g, a, b) {
                return ends;
            }
        }
        let one_sign = (0.0 < y.lower) | (y.upper < 0.0);
        let q = corners(|a, b| a / b, g & one_sign, self, y);
        Interval {
            lower: q.lower,
            upper: q.upper,
            sound: q.sound,
        }
    }
}

impl Neg for Interval {
    type Output = Interval;

    ghost neg_gives = { λ x r. r ≡ neg_i x };

    fn neg(self) -> Interval {
        Interval {
            lower: -self.upper,
            upper: -self.lower,
            sound: self.sound,
        }
    }
}

// 1 * x * x and 1 * x * (x * x): the whole powers 2 and 3.
fn second(x: Interval) -> Interval
    ensures { result ≡ pow_i x 2 }
{
    Interval::point(1.0) * (x * x)
}

fn third(x: Interval) -> Interval
    ensures { result ≡ pow_i x 3 }
{
    Interval::point(1.0) * x * (x * x)
}

// The whole power n, by its binary digits from the lowest: what is left is halved, no index is counted. number's pow_up walks so over floats; here a product takes five numbers, as `product` says.
fn any_power(x: Interval, n: u32) -> Interval
    ensures { result ≡ pow_i x n }
{
    let mut acc = Interval::point(1.0);
    let mut sq = x;
    let mut left = n;
    while 0 < left {
        if left % 2 == 1 {
            acc = product(
                acc.sound & sq.sound,
                acc.lower,
                acc.upper,
                sq.lower,
                sq.upper,
            );
        }
        left = left / 2;
        if 0 < left {
            sq = product(sq.sound & sq.sound, sq.lower, sq.upper, sq.lower, sq.upper);
        }
    }
    acc
}
