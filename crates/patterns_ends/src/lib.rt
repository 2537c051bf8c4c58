// The made-up formula as a two-ended operation.
#![tactic(auto)]

ghost use Rattle.std.specs.Prelude.{◌≡◌};
ghost use Rattle.number.specs.Answer.{answer};
ghost use Rattle.patterns.specs.Formulas.{root_alone};
ghost use Rattle.patterns_ends.specs.Operations.{sample_ends};

use enclosure::{Enclosure, Ends};
use enclosure_dual::EnclosureDual;
use number::Refusal;
use patterns::sample;

pub fn sample_ends(xs: &[f64], y: f64) -> Result<Ends, Refusal>
    ensures { answer result ≡ sample_ends root_alone xs.now y }
{
    enclosure::ends_of(sample::<EnclosureDual>(xs, Enclosure::point(y)))
}
