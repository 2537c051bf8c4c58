// The elementary functions in the two-ended run: the float run's answer as a point, after its arguments.
#![tactic(auto)]

ghost use Rattle.std.specs.Prelude.{◌≡◌};
ghost use Rattle.number.specs.Functions.{calls};
ghost use Rattle.elementary.specs.Port.{port};
ghost use Rattle.enclosure.specs.Enclosure.{enclosures};
ghost use Rattle.number.specs.Answer.{answer};

use enclosure::Enclosure;
use number::Refusal;

pub fn ln(x: Enclosure) -> Result<Enclosure, Refusal>
    ensures { answer result ≡ (calls enclosures port).ln x }
{
    enclosure::answered(elementary::ln(x.value), x)
}

pub fn ln_1p(x: Enclosure) -> Result<Enclosure, Refusal>
    ensures { answer result ≡ (calls enclosures port).ln1p x }
{
    enclosure::answered(elementary::ln_1p(x.value), x)
}

pub fn exp(x: Enclosure) -> Result<Enclosure, Refusal>
    ensures { answer result ≡ (calls enclosures port).exp x }
{
    enclosure::answered(elementary::exp(x.value), x)
}

pub fn exp_m1(x: Enclosure) -> Result<Enclosure, Refusal>
    ensures { answer result ≡ (calls enclosures port).expm1 x }
{
    enclosure::answered(elementary::exp_m1(x.value), x)
}

pub fn tanh(x: Enclosure) -> Result<Enclosure, Refusal>
    ensures { answer result ≡ (calls enclosures port).tanh x }
{
    enclosure::answered(elementary::tanh(x.value), x)
}

pub fn powf(x: Enclosure, y: Enclosure) -> Result<Enclosure, Refusal>
    ensures { answer result ≡ (calls enclosures port).powf x y }
{
    enclosure::answered_two(elementary::powf(x.value, y.value), x, y)
}
