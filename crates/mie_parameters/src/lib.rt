// What both models share: the tables of their dispersion; of their parameters the combining rules of a Mie pair, the answer, lists in their places, the six sheets, and the set beside the answer.
#![tactic(auto)]

ghost use Rattle.std.specs.Prelude.{◌≡◌, ◌≤◌, length};
ghost use Rattle.number.specs.Answer.{answer};
ghost use Rattle.number.specs.Arith.{floats};
ghost use Rattle.number.specs.Functions.{calls};
ghost use Rattle.elementary.specs.Port.{port};
ghost use Rattle.number.specs.Lists.{at};
ghost use Rattle.sizes.specs.Sizes.{side};
ghost use Rattle.mie_parameters.specs.Combine.{epsilon_k_ij, lambda_ij, c_ij};
ghost use Rattle.mie_parameters.specs.Answer.{number_of, status, stored};
ghost use Rattle.mie_parameters.specs.Places.{in_places};

pub mod set;
pub mod sheets;

use number::Refusal;
use sizes::SIDE;

// std::f64::consts, in the float run. What they are in each run is `constant` of its arithmetic; the formulas' code takes them of its run.
pub const PI: f64 = 3.141592653589793;

pub const FRAC_PI_6: f64 = 0.5235987755982989;

// Lafitte et al. 2013, for both models; SAFT-VR Mie calls LAM_COEFF C.
pub const PHI: [[f64; 7]; 6] = [
    [
        7.5365557, -37.60463, 71.745953, -46.83552, -2.467982, -0.50272, 8.0956883,
    ],
    [-359.44, 1825.6, -3168.0, 1884.2, -0.82376, -3.1935, 3.709],
    [1550.9, -5070.1, 6534.6, -3288.7, -2.7171, 2.0883, 0.0],
    [
        -1.19932, 9.063632, -17.9482, 11.34027, 20.52142, -56.6377, 40.53683,
    ],
    [
        -1911.28, 21390.175, -51320.7, 37064.54, 1103.742, -3264.61, 2556.181,
    ],
    [
        9236.9, -129430.0, 357230.0, -315530.0, 1390.2, -4518.2, 4241.6,
    ],
];

pub const LAM_COEFF: [[f64; 4]; 4] = [
    [0.81096, 1.7888, -37.578, 92.284],
    [1.0205, -19.341, 151.26, -463.50],
    [-1.9057, 22.845, -228.14, 973.92],
    [1.0885, -6.1962, 106.98, -677.64],
];

// An answer at the C boundary: 0, or the refusal's number.
pub fn number(a: Result<(), Refusal>) -> u8
    ensures { result ≡ number_of a }
{
    match a {
        Ok(()) => 0,
        Err(r) => r.code(),
    }
}

// An answer with a value likewise: the value goes into the place that the call lends.
pub fn deliver<T: Copy>(a: Result<T, Refusal>, out: &mut T) -> u8
    ensures { (result ≡ status (answer a)) × (out.new ≡ stored out.old (answer a)) }
{
    match a {
        Err(r) => r.code(),
        Ok(v) => {
            *out = v;
            0
        }
    }
}

pub fn epsilon_k_ij(si: f64, sj: f64, ei: f64, ej: f64, sigma: f64, k: f64) -> Result<f64, Refusal>
    ensures { answer result ≡ epsilon_k_ij floats (calls floats port) si sj ei ej sigma k }
{
    let cubes = elementary::sqrt(number::pow_up(si, 3) * number::pow_up(sj, 3))?;
    let energies = elementary::sqrt(ei * ej)?;
    Ok((1.0 - k) * (cubes / number::pow_up(sigma, 3) * energies))
}

pub fn lambda_ij(li: f64, lj: f64) -> Result<f64, Refusal>
    ensures { answer result ≡ lambda_ij floats (calls floats port) li lj }
{
    let r = elementary::sqrt((li - 3.0) * (lj - 3.0))?;
    Ok(r + 3.0)
}

pub fn c_ij(lr: f64, la: f64) -> Result<f64, Refusal>
    ensures { answer result ≡ c_ij floats (calls floats port) lr la }
{
    let p = elementary::powf(lr / la, la / (lr - la))?;
    Ok(lr / (lr - la) * p)
}

// A list as long as the count, which is at most the places. The count stays beside it: a clause of the list's length would have to be led to the count in each caller, for every list.
pub fn in_places(n: usize, l: &[f64]) -> [f64; SIDE]
    requires { (n ≤ side) × (length l.now ≡ n) }
    ensures { result ≡ in_places floats n (at l.now) }
{
    let mut places = [0.0; SIDE];
    places[..n].copy_from_slice(l);
    places
}
