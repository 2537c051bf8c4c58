// One operation again and again, for the benchmark: each turn waits for the one before it.
#![tactic(auto)]

ghost use Rattle.std.specs.Prelude.{◌≡◌};
ghost use Rattle.interval_bench.specs.Repeat.{operation_of, float_step, interval_step, float_repeat, interval_repeat};

use interval::Interval;

#[derive(Clone, Copy)]
pub enum Operation {
    Sum,
    Difference,
    Product,
    Quotient,
}

// The C interface has a byte.
impl From<u8> for Operation {
    ghost from_gives = { λ n r. r ≡ operation_of n };

    fn from(n: u8) -> Operation {
        match n {
            0 => Operation::Sum,
            1 => Operation::Difference,
            2 => Operation::Product,
            _ => Operation::Quotient,
        }
    }
}

// A step for each number: `number::Arithmetic` has the four operators' laws, but asks for literals, powers and a float run's value, which an interval has not.
fn float_step(op: Operation, x: f64, y: f64) -> f64
    ensures { result ≡ float_step op x y }
{
    match op {
        Operation::Sum => x + y,
        Operation::Difference => x - y,
        Operation::Product => x * y,
        Operation::Quotient => x / y,
    }
}

fn interval_step(op: Operation, x: Interval, y: Interval) -> Interval
    ensures { result ≡ interval_step op x y }
{
    match op {
        Operation::Sum => x + y,
        Operation::Difference => x - y,
        Operation::Product => x * y,
        Operation::Quotient => x / y,
    }
}

pub fn domthelv_bench_float(op: u8, x: f64, y: f64, n: u64) -> f64
    ensures { result ≡ float_repeat op x y n }
{
    let operation = Operation::from(op);
    let mut s = x;
    for _ in 0u64..n {
        s = float_step(operation, s, y);
    }
    s
}

pub fn domthelv_bench_interval(op: u8, x: f64, y: f64, n: u64) -> f64
    ensures { result ≡ (interval_repeat op x y n).upper }
{
    let operation = Operation::from(op);
    let mut s = Interval::point(x);
    let step = Interval::point(y);
    for _ in 0u64..n {
        s = interval_step(operation, s, step);
    }
    s.upper
}
