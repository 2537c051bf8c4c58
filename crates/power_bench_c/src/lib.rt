// Fourteen powers of one base, as the benchmark links it: an archive exports what its own crate has.
#![tactic(auto)]

ghost use Rattle.std.specs.Prelude.{◌≡◌};
ghost use Rattle.power_bench.specs.Powers.{fourteen_powers};

#[unsafe(no_mangle)]
pub extern "C" fn domthelv_bench_powers(x: f64, exponents: &[f64; 14]) -> f64
    ensures { result ≡ fourteen_powers x exponents.now }
{
    power_bench::domthelv_bench_powers(x, exponents)
}
