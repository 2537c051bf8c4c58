// The elementary functions at the C boundary, and the whole power.
ghost use Rattle.std.specs.Prelude.{◌≡◌, length};
ghost use Rattle.std.specs.Result.{ForOk};
ghost use Rattle.number.specs.Arith as Arith;
ghost use Rattle.number.specs.Arith.{floats};
ghost use Rattle.number.specs.Answer.{answer};
ghost use Rattle.elementary.specs.Port.{port};
ghost use Rattle.elementary.specs.Promised.{SqrtAt, LnAt, Ln1pAt, ExpAt, ExpM1At, TanhAt, PowfAt};
ghost use Rattle.mie_parameters.specs.Answer.{status, stored};
ghost use Rattle.domthelv.specs.Elementary.{Delivers};

use mie_parameters::deliver;
use number::Refusal;

// As `deliver` of mie_parameters, of a list: what is written has as many places, which the call has tested.
pub fn deliver_list<T: Copy, const N: usize>(a: Result<[T; N], Refusal>, out: &mut [T]) -> u8
    requires { ForOk a (λ l. length out.old ≡ length l) }
    ensures { (result ≡ status (answer a)) × (out.new ≡ stored out.old (answer a)) }
{
    match a {
        Err(r) => r.code(),
        Ok(l) => {
            out.copy_from_slice(&l);
            0
        }
    }
}

// The elementary functions: 6 if the argument is outside, else the value of its definition, which keeps what document 01 promises.
pub fn domthelv_sqrt(x: f64, out: &mut f64) -> u8
    ensures { Delivers (SqrtAt x) (port.sqrt x) result out.old out.new }
{
    deliver(elementary::sqrt(x), out)
}

pub fn domthelv_ln(x: f64, out: &mut f64) -> u8
    ensures { Delivers (LnAt x) (port.ln x) result out.old out.new }
{
    deliver(elementary::ln(x), out)
}

pub fn domthelv_ln_1p(x: f64, out: &mut f64) -> u8
    ensures { Delivers (Ln1pAt x) (port.ln1p x) result out.old out.new }
{
    deliver(elementary::ln_1p(x), out)
}

pub fn domthelv_exp(x: f64, out: &mut f64) -> u8
    ensures { Delivers (ExpAt x) (port.exp x) result out.old out.new }
{
    deliver(elementary::exp(x), out)
}

pub fn domthelv_exp_m1(x: f64, out: &mut f64) -> u8
    ensures { Delivers (ExpM1At x) (port.expm1 x) result out.old out.new }
{
    deliver(elementary::exp_m1(x), out)
}

pub fn domthelv_tanh(x: f64, out: &mut f64) -> u8
    ensures { Delivers (TanhAt x) (port.tanh x) result out.old out.new }
{
    deliver(elementary::tanh(x), out)
}

pub fn domthelv_powf(base: f64, exponent: f64, out: &mut f64) -> u8
    ensures { Delivers (PowfAt base exponent) (port.powf base exponent) result out.old out.new }
{
    deliver(elementary::powf(base, exponent), out)
}

// The whole power, total.
pub fn domthelv_powi(x: f64, n: i32) -> f64
    ensures { result ≡ Arith.powi floats x n }
{
    number::powi(x, n)
}
