// One operation again and again, as the benchmark links it: each function has the clause of the one in interval_bench that it calls. An archive exports what its own crate has.
#![tactic(auto)]

ghost use Rattle.std.specs.Prelude.{◌≡◌};
ghost use Rattle.interval_bench.specs.Repeat.{float_repeat, interval_repeat};

#[unsafe(no_mangle)]
pub extern "C" fn domthelv_bench_float(op: u8, x: f64, y: f64, n: u64) -> f64
    ensures { result ≡ float_repeat op x y n }
{
    interval_bench::domthelv_bench_float(op, x, y, n)
}

#[unsafe(no_mangle)]
pub extern "C" fn domthelv_bench_interval(op: u8, x: f64, y: f64, n: u64) -> f64
    ensures { result ≡ (interval_repeat op x y n).upper }
{
    interval_bench::domthelv_bench_interval(op, x, y, n)
}
