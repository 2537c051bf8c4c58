// The square root, correctly rounded, in whole numbers alone: no division or remainder but by fixed powers of two, and no passes of loops.
// Method: x is m 2^e units of 2^-1074. a is m with its leading digit moved to the top of 64 places, or one lower to make the exponent even.
// The whole root of a 2^44 has 54 digits. The reciprocal of a's root is looked up by a's first eight digits and refined by two steps of
// Newton's. It gives the root's first 32 digits, and 22 more from what these leave; one correction follows. Half of the whole root, rounded up,
// is the result's significand.
// Error budget: none. A step of Newton's never comes out above the reciprocal, so that no digits are too large; what all of them leave is at
// most 4 times the root, so that one correction reaches the whole root, and no midpoint of two floats is the root of a float.
#![tactic(auto)]

ghost use Rattle.std.specs.Prelude.{◌≡◌, ◌+◌, ◌-◌, ◌*◌, ◌/◌, ◌^◌, ◌≤◌, ◌<◌, get_or};
ghost use Rattle.number.specs.Answer.{answer};
ghost use Rattle.root.specs.Root.{root, positive_root, whole_root};
ghost use Rattle.root.specs.Reciprocals.{reciprocals};
ghost use Rattle.root.specs.Inverse.{Inverse};

use number::Refusal;

const TWO_18: u64 = 1 << 18;

const TWO_21: u64 = 1 << 21;

const TWO_22: u64 = 1 << 22;

const TWO_23: u64 = 1 << 23;

const TWO_31: u64 = 1 << 31;

const TWO_34: u64 = 1 << 34;

const TWO_37: u64 = 1 << 37;

const TWO_45: u64 = 1 << 45;

const TWO_52: u64 = 1 << 52;

const TWO_56: u64 = 1 << 56;

const THREE: u64 = 3 << 62;

// Newton's step y (3 - y² c) / 2 towards the reciprocal root of c, 2^62 being one, in units that the caller takes off.
fn refined(y: u64, c: u64) -> u64
    requires { (y < 2 ^ 17) × (y * y * c ≤ 129 * 2 ^ 55) }
    ensures { result ≡ (3 * 2 ^ 62 - y * y * c) / 2 ^ 18 * y }
{
    (THREE - y * y * c) / TWO_18 * y
}

// A little less than 2^62 / √a.
fn inverse(a: u64) -> u64
    requires { 2 ^ 62 ≤ a }
    ensures { Inverse a result }
{
    let c = a / TWO_34 + 1;
    let y = refined(reciprocal(a / TWO_56 - 64), c) / TWO_45;
    refined(y, c) / TWO_31
}

// The whole root of a 2^44: s has its first 32 digits, t the other 22, and what they leave is worth one unit at most.
fn whole_root(a: u64) -> u64
    requires { 2 ^ 62 ≤ a }
    ensures { result ≡ whole_root 54 (a * 2 ^ 44) }
{
    let w = inverse(a);
    let s = a / TWO_31 * w / TWO_31;
    let n = a - s * s;
    let t = n / 16 * w / TWO_37;
    let r = s * TWO_22 + t;
    let rest = (n * TWO_21 - s * t) * TWO_23 - t * t;
    if 2 * r < rest {
        return r + 1;
    }
    r
}

// The root of m 2^e units of 2^-1074. The move by l - 1 or l places makes the exponent even.
fn nearest_root(m: u64, e: u64) -> f64
    requires { (0 < m) × (m < 2 ^ 53) × (e ≤ 2045) }
    ensures { result ≡ positive_root (m * 2 ^ e) }
{
    let l = u64::from(u64::leading_zeros(m));
    let f = 1033 + e - l;
    let a = m << (l - 1 + f % 2);
    let r = whole_root(a);
    f64::from_bits(f / 2 * TWO_52 + (r + 1) / 2)
}

// The square root, correctly rounded; either zero gives itself; below zero or not finite is outside.
// That `root` is what IEEE 754 asks is the law `nearest` of proofs/Correct.antt.
pub fn sqrt(x: f64) -> Result<f64, Refusal>
    ensures { answer result ≡ root x }
{
    if !(0.0 < x) {
        if x == 0.0 {
            return Ok(x);
        }
        return Err(Refusal::Domain);
    }
    let infinity = f64::from_bits(0x7ff0_0000_0000_0000);
    if !(x < infinity) {
        return Err(Refusal::Domain);
    }
    // A positive number's: its sign bit is 0, so the quotient is the exponent's field.
    let b = f64::to_bits(x);
    let f = b / TWO_52;
    let m = b % TWO_52;
    if f == 0 {
        let small = nearest_root(m, 0);
        return Ok(small);
    }
    let r = nearest_root(m + TWO_52, f - 1);
    Ok(r)
}

// Near 2^20 / √(64.5 + j).
static RECIPROCALS: [u64; 192] = [
    130563, 129562, 128585, 127629, 126694, 125779, 124884, 124007, 123149, 122308, 121485, 120678,
    119886, 119110, 118349, 117602, 116870, 116151, 115444, 114751, 114070, 113401, 112744, 112097,
    111462, 110838, 110224, 109620, 109026, 108441, 107866, 107300, 106742, 106193, 105653, 105121,
    104596, 104080, 103571, 103069, 102575, 102088, 101607, 101134, 100667, 100206, 99751, 99303,
    98861, 98424, 97993, 97568, 97149, 96734, 96325, 95921, 95523, 95129, 94740, 94355, 93976,
    93600, 93230, 92863, 92501, 92144, 91790, 91440, 91094, 90753, 90415, 90080, 89750, 89423,
    89099, 88780, 88463, 88150, 87840, 87533, 87230, 86930, 86633, 86338, 86047, 85759, 85474,
    85191, 84911, 84634, 84360, 84088, 83819, 83553, 83289, 83027, 82768, 82511, 82257, 82005,
    81755, 81508, 81263, 81020, 80779, 80541, 80304, 80070, 79837, 79607, 79378, 79152, 78927,
    78705, 78484, 78265, 78048, 77833, 77619, 77407, 77197, 76989, 76782, 76577, 76374, 76172,
    75972, 75773, 75576, 75381, 75187, 74994, 74803, 74613, 74425, 74238, 74053, 73869, 73686,
    73505, 73325, 73147, 72969, 72793, 72618, 72445, 72273, 72102, 71932, 71763, 71596, 71429,
    71264, 71100, 70937, 70775, 70615, 70455, 70297, 70139, 69983, 69828, 69673, 69520, 69368,
    69216, 69066, 68917, 68768, 68621, 68474, 68329, 68184, 68041, 67898, 67756, 67615, 67475,
    67335, 67197, 67060, 66923, 66787, 66652, 66518, 66384, 66252, 66120, 65989, 65858, 65729,
    65600,
];

// usize has no From<u64>.
fn reciprocal(j: u64) -> u64
    requires { j < 192 }
    ensures { result ≡ get_or reciprocals j 0 }
{
    RECIPROCALS[j as usize]
}
