// Fourteen powers of one base, for the benchmark: the base's logarithm is worked once.
#![tactic(auto)]

ghost use Rattle.std.specs.Prelude.{◌≡◌};
ghost use Rattle.power_bench.specs.Powers.{fourteen_powers};

pub fn domthelv_bench_powers(x: f64, exponents: &[f64; 14]) -> f64
    ensures { result ≡ fourteen_powers x exponents.now }
{
    let log = binary_log::log_base(x);
    let mut s = 0.0;
    for y in exponents {
        s = s + power::raise(log, power::exponent(*y));
    }
    s
}
