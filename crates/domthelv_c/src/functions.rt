// The elementary functions at the C boundary, and the whole power.
ghost use Rattle.std.specs.Prelude.{◌≡◌};
ghost use Rattle.number.specs.Arith as Arith;
ghost use Rattle.number.specs.Arith.{floats};
ghost use Rattle.elementary.specs.Port.{port};
ghost use Rattle.elementary.specs.Promised.{SqrtAt, LnAt, Ln1pAt, ExpAt, ExpM1At, TanhAt, PowfAt};
ghost use Rattle.domthelv.specs.Elementary.{Delivers};

// The elementary functions: 6 if the argument is outside, else the value of its definition, which keeps what document 01 promises.
#[unsafe(no_mangle)]
pub extern "C" fn domthelv_sqrt(x: f64, out: &mut f64) -> u8
    ensures { Delivers (SqrtAt x) (port.sqrt x) result out.old out.new }
{
    domthelv::domthelv_sqrt(x, out)
}

#[unsafe(no_mangle)]
pub extern "C" fn domthelv_ln(x: f64, out: &mut f64) -> u8
    ensures { Delivers (LnAt x) (port.ln x) result out.old out.new }
{
    domthelv::domthelv_ln(x, out)
}

#[unsafe(no_mangle)]
pub extern "C" fn domthelv_ln_1p(x: f64, out: &mut f64) -> u8
    ensures { Delivers (Ln1pAt x) (port.ln1p x) result out.old out.new }
{
    domthelv::domthelv_ln_1p(x, out)
}

#[unsafe(no_mangle)]
pub extern "C" fn domthelv_exp(x: f64, out: &mut f64) -> u8
    ensures { Delivers (ExpAt x) (port.exp x) result out.old out.new }
{
    domthelv::domthelv_exp(x, out)
}

#[unsafe(no_mangle)]
pub extern "C" fn domthelv_exp_m1(x: f64, out: &mut f64) -> u8
    ensures { Delivers (ExpM1At x) (port.expm1 x) result out.old out.new }
{
    domthelv::domthelv_exp_m1(x, out)
}

#[unsafe(no_mangle)]
pub extern "C" fn domthelv_tanh(x: f64, out: &mut f64) -> u8
    ensures { Delivers (TanhAt x) (port.tanh x) result out.old out.new }
{
    domthelv::domthelv_tanh(x, out)
}

#[unsafe(no_mangle)]
pub extern "C" fn domthelv_powf(base: f64, exponent: f64, out: &mut f64) -> u8
    ensures { Delivers (PowfAt base exponent) (port.powf base exponent) result out.old out.new }
{
    domthelv::domthelv_powf(base, exponent, out)
}

// The whole power, total.
#[unsafe(no_mangle)]
pub extern "C" fn domthelv_powi(x: f64, n: i32) -> f64
    ensures { result ≡ Arith.powi floats x n }
{
    domthelv::domthelv_powi(x, n)
}
