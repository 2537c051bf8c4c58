// What the sums over pairs take beside a perturbation, and the sum of the three orders.
ghost use Rattle.std.specs.Prelude.{◌≡◌, Bool, cond, eqb};
ghost use Rattle.number.specs.Arith.{whole};
ghost use Rattle.mie_parameters.specs.Sums.{orders_sum};
ghost use Rattle.saftvrqmie_potential.specs.Potential.{recip};
ghost use Rattle.saftvrqmie_dispersion.specs.Sums.{lead};

use dual_num::DualNum;
use number::Arithmetic;

// 1.0 on the diagonal, else 2.0.
fn fac<D: DualNum>(i: usize, j: usize) -> D::Plain
    ensures { (w : Bool) → D.plain w result ≡ cond (eqb i j) (whole (D.beside w) 1) (whole (D.beside w) 2) }
{
    if i == j {
        return D::Plain::lit(1.0);
    }
    D::Plain::lit(2.0)
}

// From the segment fractions of both, rho_s, and the diameter of the pair.
pub fn lead<D: DualNum>(i: usize, j: usize, xi: D, xj: D, rho_s: D, d: D) -> D
    ensures { (w : Bool) → D.of w result ≡ lead (D.beside w) (D.functions w) i j (D.of w xi) (D.of w xj) (D.of w rho_s) (D.of w d) }
{
    xi * xj * fac::<D>(i, j) * D::frac_pi_6() * rho_s * d.cube()
}

pub fn orders_sum<D: DualNum>(temperature: D, a1: D, a2: D, a3: D) -> D
    ensures { (w : Bool) → D.of w result ≡ orders_sum (D.beside w) (recip (D.beside w) (D.of w temperature)) (D.of w a1) (D.of w a2) (D.of w a3) }
{
    let inv_t = temperature.recip();
    a1 * inv_t + a2 * inv_t.square() + a3 * inv_t.cube()
}
