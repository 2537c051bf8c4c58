// What the call with slopes takes beside a set, its test for 1, and that for 7 of the supplied slopes (document 02, Slip 1).
#![tactic(auto)]

ghost use Rattle.std.specs.Prelude.{◌≡◌, length};
ghost use Rattle.slopes_lists.specs.Lists.{sloped_list, state_of, right_lengths, sloped_lengths, supplied_finite};

use dual::Dual;
use dual_num::NumberList;

// A temperature, fractions and densities, each with a slope.
#[derive(Clone, Copy)]
pub struct SlopedState<'a> {
    pub temperature: Dual,
    pub fractions: NumberList<'a>,
    pub densities: NumberList<'a>,
}

fn right_lengths(n: usize, l: &NumberList) -> bool
    ensures { result ≡ right_lengths n (sloped_list l.now) }
{
    (l.values.len() == n) & (l.slopes.len() == n)
}

// 1: the count, and the length of each list.
pub fn sloped_lengths(n: usize, q: &SlopedState) -> bool
    ensures { result ≡ sloped_lengths n (state_of q.now) }
{
    limits::count_within(n) & right_lengths(n, &q.fractions) & right_lengths(n, &q.densities)
}

// 7: a supplied slope. An operation refuses lists that are not as long as the count with 1 before it asks. n is for the clause alone, as in `limits::state_within`.
pub fn supplied_finite(n: usize, q: &SlopedState) -> bool
    requires { (length q.now.fractions.slopes.now ≡ n) × (length q.now.densities.slopes.now ≡ n) }
    ensures { result ≡ supplied_finite n (state_of q.now) }
{
    number::is_finite(q.temperature.eps)
        & limits::all_finite(q.fractions.slopes)
        & limits::all_finite(q.densities.slopes)
}
