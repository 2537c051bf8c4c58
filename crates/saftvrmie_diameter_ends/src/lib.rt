// The diameter of a pair from its reduced lower limit (saftvrmie/parameters.rs, `hs_diameter_ij`) in the two-ended run, and as a two-ended operation.
// Operations on a pair take its indexes and the temperature one by one, as the Rust's: pair_asked and pair_at read them once.
#![tactic(auto)]

ghost use Rattle.std.specs.Prelude.{◌≡◌};
ghost use Rattle.number.specs.Functions.{calls};
ghost use Rattle.elementary.specs.Port.{port};
ghost use Rattle.number.specs.Answer.{answer};
ghost use Rattle.enclosure.specs.Enclosure.{enclosures};
ghost use Rattle.saftvrmie_diameter.specs.Diameter.{diameter_from};
ghost use Rattle.saftvrmie_diameter_ends.specs.Operations.{diameter_ends};

use dual_num::EnclosureBase;
use enclosure::{Enclosure, Ends};
use number::Refusal;
use saftvrmie_diameter::NO_BASE;
use saftvrmie_parameters::SaftVRMiePars;

// A pair's diameter from its reduced lower limit.
pub fn diameter_from(
    la: Enclosure,
    lr: Enclosure,
    c_eps_t: Enclosure,
    sigma: Enclosure,
    r0: Enclosure,
) -> Result<Enclosure, Refusal>
    ensures { answer result ≡ diameter_from enclosures (calls enclosures port) la lr c_eps_t sigma r0 }
{
    let zero = Enclosure::point(0.0);
    let blank = EnclosureBase {
        x: zero,
        base: NO_BASE,
    };
    let mut bases = [blank; 10];
    let mut betas = [zero; 10];
    saftvrmie_diameter::diameter_staged(la, lr, c_eps_t, sigma, r0, &mut bases, &mut betas)
}

// The diameter of the pair (i, j) from its reduced lower limit, with two ends. 1, 2, 6, 7, 8.
pub fn hs_diameter_ij_ends(
    set: SaftVRMiePars,
    i: usize,
    j: usize,
    temperature: f64,
    r0: f64,
) -> Result<Ends, Refusal>
    ensures { answer result ≡ diameter_ends port set i j temperature r0 }
{
    limits::pair_asked(set.count, i, j, temperature)?;
    let p = saftvrmie_parameters::pair_at(&set.sheets, i, j);
    let la = Enclosure::point(p.la);
    let lr = Enclosure::point(p.lr);
    let c_eps_t = saftvrmie::c_eps_of::<Enclosure>(p, temperature);
    let sigma = Enclosure::point(p.sigma);
    let r = Enclosure::point(r0);
    enclosure::ends_of(diameter_from(la, lr, c_eps_t, sigma, r))
}
