// The numbers with a slope that the chain is written over, with the products of `b_ij`'s factors with i and j, whose slopes are so near to zero that a run may know what they add.
ghost use Rattle.std.specs.Prelude.{◌≡◌, Bool};
ghost use Rattle.dual.specs.Dual.{duals, plain_d, mul_d};
ghost use Rattle.saftvrmie_dispersion.specs.Shared.{i_by, j_by};
ghost use Rattle.slope_num.specs.Value.{slope_by};

use dual::Dual;
use slope_num::SlopeNum;

pub trait ChainNum: SlopeNum {
    // By i, p3 being x0's power 3 - lambda and l3 being lambda - 3.
    fn times_i(self, p3: Self::Re, l3: Self::Re) -> Self
        ensures { (w : Bool) → let A = Self.Re.beside w in
            let p3 = plain_d A (Self.Re.of w p3) in
            slope_by Self.parts (Self.Re.of w) result ≡ mul_d A (slope_by Self.parts (Self.Re.of w) self) (i_by A (duals A) (plain_d A) p3 (Self.Re.of w l3)) };

    // By j.
    fn times_j(self, p4: Self::Re, p3: Self::Re, l3: Self::Re, l4: Self::Re) -> Self
        ensures { (w : Bool) → let A = Self.Re.beside w in
            let p4 = plain_d A (Self.Re.of w p4) in
            let p3 = plain_d A (Self.Re.of w p3) in
            slope_by Self.parts (Self.Re.of w) result ≡ mul_d A (slope_by Self.parts (Self.Re.of w) self) (j_by A (duals A) (plain_d A) p4 p3 (Self.Re.of w l3) (Self.Re.of w l4)) };
}

// In floats the rules of dual numbers.
impl ChainNum for Dual {
    #[inline(always)]
    fn times_i(self, p3: f64, l3: f64) -> Dual {
        self * (-(Dual::plain(p3) - 1.0) / l3)
    }

    #[inline(always)]
    fn times_j(self, p4: f64, p3: f64, l3: f64, l4: f64) -> Dual {
        self * (-(Dual::plain(p4) * l3 - Dual::plain(p3) * l4 - 1.0) / (l3 * l4))
    }
}
