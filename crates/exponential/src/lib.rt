// exp, exp_m1 and tanh in u64 fixed point, on one exponential in base 2: the exponent's whole part is the answer's field, 7 bits of its fraction choose a power from a table, five terms do the rest.
// Budget of exp, in units of 2^-60 and as a part of the value: the argument over ln 2 is cut three times (242, twice that in the answer at most), five terms 81, floors 1, the f64 128; below 2^-50, 2^-48 is asked.
// exp_m1 takes 1 away from it, from 1/4 on; nearer to 0 it is the argument times a quotient of two short polynomials (Padé's), so that the answer keeps all its digits. In units of 2^-53 and as a part of the value: the fraction 1, the cuts 5, product and quotient 7; below 2^-49, 2^-48 is asked.
// Casts from u64: usize and f64 have no From<u64>, and the numbers that become f64s have 53 bits at most.
// tanh is a quotient of f64s from the same numbers, exact but for the division; in units of 2^-52: core and cuts 12.4, the division 1; 16 is asked. Below 2^-17 it is x, off by a third of its cube. From 20 on in size the quotient is 1 or -1, and is not worked.
#![tactic(auto)]

ghost use Rattle.std.specs.Prelude.{◌≡◌, ◌+◌, ◌-◌, ◌*◌, ◌/◌, ◌%◌, ◌^◌, ◌≤◌, ◌<◌, T, get_or};
ghost use Rattle.number.specs.Answer.{answer};
ghost use Rattle.number.specs.Domain.{exp_inside, tanh_inside};
ghost use Rattle.fixed_point.specs.Fields.{exponent_field};
ghost use Rattle.exponential.specs.Powers.{powers};
ghost use Rattle.exponential.specs.Raise.{significand_of, raise_of};
ghost use Rattle.exponential.specs.Exp.{binary_of, exponent_at, binary_exponent_of, exp_of};
ghost use Rattle.exponential.specs.ExpM1.{under_of, small_of, below_of, above_of, away_of, exp_m1_of};
ghost use Rattle.exponential.specs.Tanh.{tanh_ratio_of, tanh_of};

use fixed_point::{exponent_field, high_product, is_negative, pack, polynomial_at, shift_right};
use number::Refusal;

// 2^(63 + j/128), rounded down.
static POWERS: [u64; 128] = [
    9223372036854775808,
    9273454034941487980,
    9323807973325342579,
    9374435328615261675,
    9425337585438007767,
    9476516236481719862,
    9527972782539685958,
    9579708732554353193,
    9631725603661576980,
    9684024921235110403,
    9736608218931335184,
    9789477038734235537,
    9842632931000616231,
    9896077454505566172,
    9949812176488168858,
    10003838672697461028,
    10058158527438640870,
    10112773333619527133,
    10167684692797270501,
    10222894215225318613,
    10278403519900636096,
    10334214234611180996,
    10390327995983639004,
    10446746449531416874,
    10503471249702896438,
    10560504059929950636,
    10617846552676722987,
    10675500409488671926,
    10733467321041881441,
    10791748987192639470,
    10850347117027285504,
    10909263428912328846,
    10968499650544839023,
    11028057519003109801,
    11087938780797598308,
    11148145191922140746,
    11208678517905446200,
    11269540533862870061,
    11330733024548468560,
    11392257784407335968,
    11454116617628225965,
    11516311338196458757,
    11578843769947115458,
    11641715746618521315,
    11704929111906019352,
    11768485719516035986,
    11832387433220440222,
    11896636126911198009,
    11961233684655323370,
    12026182000750127901,
    12091482979778770281,
    12157138536666107400,
    12223150596734848760,
    12289521095762015785,
    12356251980035707703,
    12423345206412175657,
    12490802742373206726,
    12558626566083819534,
    12626818666450273140,
    12695381043178390915,
    12764315706832201103,
    12833624678892895803,
    12903309991818110089,
    12973373689101523008,
    13043817825332782212,
    13114644466257753963,
    13185855688839100305,
    13257453581317185148,
    13329440243271311081,
    13401817785681288682,
    13474588330989340155,
    13547754013162339084,
    13621316977754388158,
    13695279381969736674,
    13769643394726039682,
    13844411196717960624,
    13919584980481119318,
    13995166950456387186,
    14071159323054531591,
    14147564326721211186,
    14224384202002324189,
    14301621201609711481,
    14379277590487216476,
    14457355645877103685,
    14535857657386837922,
    14614785927056226125,
    14694142769424923740,
    14773930511600307665,
    14854151493325717731,
    14934808067049068737,
    15015902597991835028,
    15097437464218409670,
    15179415056705840218,
    15261837779413943161,
    15344708049355799071,
    15428028296668630534,
    15511800964685064948,
    15596028510004784260,
    15680713402566563765,
    15765858125720702065,
    15851465176301844309,
    15937537064702200864,
    16024076314945163555,
    16111085464759321632,
    16198567065652879633,
    16286523682988479336,
    16374957896058427985,
    16463872298160334989,
    16553269496673159336,
    16643152113133669922,
    16733522783313321064,
    16824384157295545430,
    16915738899553466670,
    17007589689028034012,
    17099939219206581124,
    17192790198201811547,
    17286145348831213003,
    17380007408696902921,
    17474379130265907513,
    17569263280950876762,
    17664662643191237676,
    17760580014534788205,
    17857018207719734200,
    17953980050757171828,
    18051468387014017850,
    18149486075296390216,
    18248035989933441396,
    18347121020861646923,
];

fn power_table(j: u64) -> u64
    requires { j < 128 }
    ensures { result ≡ get_or powers j 0 }
{
    POWERS[j as usize]
}

// The terms of 128 (2^(f/128) - 1) / f in units of 2^-64.
static TERMS: [u64; 5] = [
    12786308645202655659,
    34620288231216698,
    62492070775105,
    84601958330,
    91627513,
];

// 2 to the fraction of w, in units of 2^-63.
fn significand(w: u64) -> u64
    ensures { result ≡ significand_of w }
{
    let power = power_table(w / 0x4000_0000_0000 % 128);
    let low = w % 0x4000_0000_0000 * 0x4_0000;
    let rest = high_product(low, polynomial_at(&TERMS, low));
    power + high_product(power, rest) / 128
}

// 2^(w/2^53 - 1023) as an f64. The exponent's field of such a w is a normal number's, also after a carry.
pub fn raise_core(w: u64) -> f64
    requires { (2 ^ 53 ≤ w) × (w < 2046 * 2 ^ 53) }
    ensures { result ≡ raise_of w }
{
    let x = significand(w);
    f64::from_bits((w / 0x20_0000_0000_0000 - 1) * 0x10_0000_0000_0000 + (x / 1024 + 1) / 2)
}

// -700 to 700, ends included.
fn exp_inside(x: f64) -> bool
    ensures { result ≡ exp_inside x }
{
    number::within(-700.0, 700.0, x)
}

// x / ln 2 plus 1023, in units of 2^-53, of the bits of an x from -700 to 700.
fn exponent_bits(b: u64) -> u64
    requires { (exponent_field b ≤ 1032) × (binary_of b ≤ 1010 * 2 ^ 53) }
    ensures value { result ≡ exponent_at b }
    ensures range { (2 ^ 53 ≤ result) × (result < 2046 * 2 ^ 53) }
{
    let digits = fixed_point::significand(b) * 2048;
    let size = shift_right(digits, 1032u64.saturating_sub(exponent_field(b)));
    let v = high_product(size, 13306513097844322491);
    if is_negative(b) {
        0x7fe0_0000_0000_0000 - v
    } else {
        0x7fe0_0000_0000_0000 + v
    }
}

// The same of x itself.
fn exponent(x: f64) -> u64
    requires { T (exp_inside x) }
    ensures value { result ≡ binary_exponent_of x }
    ensures range { (2 ^ 53 ≤ result) × (result < 2046 * 2 ^ 53) }
{
    exponent_bits(f64::to_bits(x))
}

// exp x; outside -700 to 700 no value.
pub fn exp(x: f64) -> Result<f64, Refusal>
    ensures { answer result ≡ exp_of x }
{
    if exp_inside(x) {
        Ok(raise_core(exponent(x)))
    } else {
        Err(Refusal::Domain)
    }
}

// a = 15120 + 420 z + z^2 and c = 15120 + 1680 z + 15 z^2 of Padé's fraction, with 2^49 + 1/16 for 1: were it a power of two, LLVM would know that low digits are 0, and make four products of a high product.
static OVER_TERMS: [u64; 3] = [8511803295730238385, 236438980436951066, 562949953421312];

static UNDER_TERMS: [u64; 3] = [8511803295730238385, 945755921747804265, 8444249301319680];

// c - x a / 2, |x| = s / 2^64 and z = q / 2^64.
fn under(negative: bool, s: u64, q: u64, a: u64) -> u64
    requires { (s ≤ 2 ^ 62) × (q ≤ 2 ^ 60) × (a ≤ 2 ^ 63) }
    ensures { result ≡ under_of negative s q a }
{
    let c = polynomial_at(&UNDER_TERMS, q);
    let half = high_product(s, a) / 2;
    if negative { c + half } else { c - half }
}

// exp x - 1 for an x below 1/4 in size, from x and its bits. Both numbers are cut to 53 bits at most, so that only the product and the quotient round.
fn small(x: f64, b: u64) -> f64
    requires { exponent_field b < 1021 }
    ensures { result ≡ small_of x b }
{
    let digits = fixed_point::significand(b) * 2048;
    let s = shift_right(digits, 1022u64.saturating_sub(exponent_field(b)));
    let q = high_product(s, s);
    let a = polynomial_at(&OVER_TERMS, q);
    let d = under(is_negative(b), s, q, a);
    let y = (a / 2048) as f64;
    let z = (d / 2048) as f64;
    x * y / z
}

// exp x - 1 for an x of -1/4 or less, from its exponent in base 2.
fn below(w: u64) -> f64
    requires { (2 ^ 53 ≤ w) × (w < 1023 * 2 ^ 53) }
    ensures { result ≡ below_of w }
{
    let part = shift_right(significand(w), 1023 - w / 0x20_0000_0000_0000);
    pack(true, 0x8000_0000_0000_0000 - part, 1022)
}

// exp x - 1 for an x of 1/4 or more, from its exponent in base 2.
fn above(w: u64) -> f64
    requires { (1023 * 2 ^ 53 + 2 ^ 46 ≤ w) × (w < 2046 * 2 ^ 53) }
    ensures { result ≡ above_of w }
{
    let one = shift_right(0x8000_0000_0000_0000, w / 0x20_0000_0000_0000 - 1023);
    pack(false, significand(w) - one, w / 0x20_0000_0000_0000 - 1)
}

// exp x - 1 for an x that is not tiny.
fn away(x: f64) -> f64
    requires { T (exp_inside x) }
    ensures { result ≡ away_of x }
{
    let b = f64::to_bits(x);
    if exponent_field(b) < 1021 {
        return small(x, b);
    }
    let w = exponent(x);
    if is_negative(b) { below(w) } else { above(w) }
}

// exp x - 1; outside -700 to 700 no value.
pub fn exp_m1(x: f64) -> Result<f64, Refusal>
    ensures { answer result ≡ exp_m1_of x }
{
    if !exp_inside(x) {
        return Err(Refusal::Domain);
    }
    if exponent_field(f64::to_bits(x)) < 969 {
        return Ok(x);
    }
    Ok(away(x))
}

// -350 to 350, ends included.
fn tanh_inside(x: f64) -> bool
    ensures { result ≡ tanh_inside x }
{
    number::within(-350.0, 350.0, x)
}

// tanh of x from the exponent of 2x. The sign is no branch: either number is moved by how far the exponent's whole part is on its side of 1023.
fn tanh_ratio(w: u64) -> f64
    ensures { result ≡ tanh_ratio_of w }
{
    let whole = w / 0x20_0000_0000_0000;
    let part = shift_right(significand(w), 1023u64.saturating_sub(whole)) / 4096;
    let one = shift_right(0x8000_0000_0000_0000, whole.saturating_sub(1023)) / 4096;
    let x = part as f64;
    let y = one as f64;
    (x - y) / (x + y)
}

// tanh of x from the bits of an x of 20 or more in size: the smaller of exp 2x and 1 has no digit left in the unit of both.
fn tanh_large(b: u64) -> f64
    requires { (4109 ≤ b / 2 ^ 50 % 8192) × (exponent_field b ≤ 1031) }
    ensures { result ≡ tanh_ratio_of (exponent_at (b + 2 ^ 52)) }
{
    if is_negative(b) { -1.0 } else { 1.0 }
}

// tanh x; outside -350 to 350 no value. The exponent's field and two digits are 4109 for 20 and 4024 for 2^-17: one number serves both tests.
pub fn tanh(x: f64) -> Result<f64, Refusal>
    ensures { answer result ≡ tanh_of x }
{
    if !tanh_inside(x) {
        return Err(Refusal::Domain);
    }
    let b = f64::to_bits(x);
    let top = b / 0x4_0000_0000_0000 % 8192;
    if 4109 <= top {
        Ok(tanh_large(b))
    } else if top < 4024 {
        Ok(x)
    } else {
        Ok(tanh_ratio(exponent_bits(b + 0x10_0000_0000_0000)))
    }
}
