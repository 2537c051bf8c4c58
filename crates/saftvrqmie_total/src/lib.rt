// The energies of SAFT-VRQ Mie as one number: each rounded sum with its remainder.
#![tactic(auto)]

ghost use Rattle.std.specs.Prelude.{◌≡◌};
ghost use Rattle.number.specs.Answer.{answer};
ghost use Rattle.saftvrqmie_energies.specs.Energies.{energies_in};
ghost use Rattle.saftvrqmie_energies.specs.Reads.{asked_at};
ghost use Rattle.saftvrqmie_total.specs.Total.{finite_sum, contributions_total, total};

use number::Refusal;
use rounded_sum::RoundedSum;
use saftvrqmie_energies::{QuantumEnergies, Set, StateLists};
use saftvrqmie_parameters::SaftVRQMiePars;

#[derive(Clone, Copy)]
pub struct QuantumTotal {
    pub first: RoundedSum,
    pub last: RoundedSum,
}

// 7.
fn finite_sum(x: f64, y: f64) -> Result<RoundedSum, Refusal>
    ensures { answer result ≡ finite_sum x y }
{
    let a = rounded_sum::rounded_sum(x, y);
    number::if_finite(a.sum)?;
    Ok(a)
}

// Hard sphere and dispersion, then that and the non-additive part if wanted. 7.
pub fn contributions_total(e: QuantumEnergies, non_additive: bool) -> Result<QuantumTotal, Refusal>
    ensures { answer result ≡ contributions_total (energies_in e) non_additive }
{
    let first = finite_sum(e.hard_sphere, e.dispersion)?;
    if !non_additive {
        let alone = RoundedSum {
            sum: first.sum,
            remainder: 0.0,
        };
        return Ok(QuantumTotal { first, last: alone });
    }
    let last = finite_sum(first.sum, e.non_additive)?;
    Ok(QuantumTotal { first, last })
}

// 1, 2, 6, 7.
pub fn total(set: &SaftVRQMiePars, q: &StateLists) -> Result<QuantumTotal, Refusal>
    ensures { answer result ≡ asked_at (total set.now) q.now }
{
    let e = saftvrqmie_energies::energies_of(&Set::from(set), q)?;
    contributions_total(e, q.non_additive)
}
