// The made-up formulas, one text for the float run and the two-ended run: over their numbers, and with a slope over those beside which it stands.
#![tactic(auto)]

ghost use Rattle.std.specs.Prelude.{◌≡◌, Bool, length};
ghost use Rattle.number.specs.Lists.{at};
ghost use Rattle.number.specs.Answer.{answer_by};
ghost use Rattle.number.specs.Functions.{calls};
ghost use Rattle.patterns.specs.Formulas.{root_alone, squares, slope, blend, sample};

use number::Refusal;
use plain_num::PlainNum;
use slope_num::SlopeNum;

pub fn squares<D: PlainNum>(xs: &[f64]) -> D
    ensures { (w : Bool) → let A = D.beside w in D.of w result ≡ squares A (length xs.now) (λ i. A.lit (at xs.now i)) }
{
    let mut s = D::entered(0.0);
    for x in xs {
        let d = D::entered(*x);
        s = s + d * d;
    }
    s
}

pub fn slope<S: SlopeNum>(x: S::Re, y: S::Re) -> S::Re
    ensures { (w : Bool) → S.Re.of w result ≡ slope (S.Re.beside w) (S.Re.of w x) (S.Re.of w y) }
{
    let d = S::new(x, S::Re::entered(1.0));
    let q = d.cube() / (d + S::plain(y));
    q.eps()
}

pub fn blend<D: PlainNum>(x: D, y: D) -> Result<D, Refusal>
    ensures { (w : Bool) → let A = D.beside w in answer_by (D.of w) result ≡ blend A (calls A root_alone) (D.of w x) (D.of w y) }
{
    let v = root::sqrt(x.re())?;
    let r = D::entered(v).after(x);
    let unused = r / y;
    if r.re() < y.re() {
        Ok((r + y).after(unused))
    } else {
        Ok((r * y).after(unused))
    }
}

pub fn sample<S: SlopeNum>(xs: &[f64], y: S::Re) -> Result<S::Re, Refusal>
    ensures { (w : Bool) → let A = S.Re.beside w in
        answer_by (S.Re.of w) result ≡ sample A (calls A root_alone) (length xs.now) (λ i. A.lit (at xs.now i)) (S.Re.of w y) }
{
    let b = blend(squares::<S::Re>(xs), y)?;
    Ok(slope::<S>(b, y))
}
