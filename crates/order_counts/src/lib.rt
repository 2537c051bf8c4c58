// How the order lists fall: of all lists of orders 0 to 3, how many pass the walk over the pairs, meet 4 and meet 5.
#![tactic(auto)]

ghost use Rattle.std.specs.Prelude.{◌≡◌, ◌+◌, ◌*◌, ◌-◌, ◌^◌, ◌≤◌};
ghost use Rattle.number.specs.Answer.{answer};
ghost use Rattle.order_counts.specs.Counts.{order_counts};

use number::Refusal;

#[derive(Clone, Copy)]
pub struct OrderCounts {
    pub passing: u64,
    pub meeting_4: u64,
    pub meeting_5: u64,
}

// The numbers from the powers of 2, 3 and 4 whose exponent is the count less 1.
fn of_powers(two: u64, three: u64, four: u64) -> OrderCounts
    requires { (1 ≤ two) × (3 * two ≤ four + three + 1) × (three + two ≤ 3 * four) × (two ≤ 16_777_216) × (three ≤ 16_777_216) × (four ≤ 16_777_216) }
    ensures { result ≡ record { passing = 4 * two - 1; meeting_4 = 3 * four - three - two; meeting_5 = four + three + 1 - 3 * two } }
{
    let passing = 4 * two - 1;
    let meeting_4 = 3 * four - three - two;
    let meeting_5 = four + three + 1 - 3 * two;
    OrderCounts {
        passing,
        meeting_4,
        meeting_5,
    }
}

// The three numbers, or 1 if the count is outside.
pub fn order_counts(count: usize) -> Result<OrderCounts, Refusal>
    ensures { answer result ≡ order_counts count }
{
    if !limits::count_within(count) {
        return Err(Refusal::Length);
    }
    // Narrows, and is proved to lose no digit: try_from would answer a refusal that cannot come.
    let rest = (count - 1) as u32;
    let two = 2u64.pow(rest);
    let three = 3u64.pow(rest);
    let four = 4u64.pow(rest);
    Ok(of_powers(two, three, four))
}
