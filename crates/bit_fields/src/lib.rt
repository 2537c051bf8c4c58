// Fields of bits in a list of bytes, most significant first: read and written at any position.
#![tactic(auto)]

ghost use Rattle.std.specs.Prelude.{◌≡◌, false, cond, ◌+◌, ◌*◌, ◌%◌, ◌^◌, ◌<◌, ◌≤◌, length, get_or, take, drop};
ghost use Rattle.bit_fields.specs.Bits.{numeral, digits, bits_of, over, Reached};

// The bit at a position, which the bytes reach to.
fn bit_at(l: &[u8], at: usize) -> u64
    requires { at < 8 * length l.now }
    ensures { result ≡ cond (get_or (bits_of l.now) at false) 1 0 }
{
    let b = u64::from(l[at / 8]);
    (b >> (7 - at % 8)) % 2
}

// A narrow field, bit by bit: the loop counts bits, of which there is no list.
fn narrow(l: &[u8], at: usize, width: usize) -> u64
    requires { (width < 64) × Reached l.now at width }
    ensures { result ≡ numeral (take width (drop at (bits_of l.now))) }
{
    let mut value = 0;
    for i in 0usize..width {
        value = 2 * value + bit_at(l, at + i);
    }
    value
}

// Eight bytes from byte q on.
fn word(l: &[u8], q: usize) -> u64
    requires { q + 8 ≤ length l.now }
    ensures { result ≡ numeral (take 64 (drop (8 * q) (bits_of l.now))) }
{
    let words = l[q..].as_chunks().0;
    u64::from_be_bytes(words[0])
}

// A field of 64 bits: the bytes that it begins and ends in are shifted into their places.
fn long(l: &[u8], at: usize) -> u64
    requires { at + 64 ≤ 8 * length l.now }
    ensures { result ≡ numeral (take 64 (drop at (bits_of l.now))) }
{
    let q = at / 8;
    let s = at % 8;
    let high = word(l, q);
    if s == 0 {
        return high;
    }
    (high << s) + (u64::from(l[q + 8]) >> (8 - s))
}

// A field of at most 64 bits, which the bytes reach to: a card's length is tested before its field is read, and no card comes near 2^32 bits.
pub fn field(l: &[u8], at: usize, width: usize) -> u64
    requires { Reached l.now at width }
    ensures { result ≡ numeral (take width (drop at (bits_of l.now))) }
{
    if width == 64 {
        return long(l, at);
    }
    narrow(l, at, width)
}

// The n lowest binary digits of a number.
fn lowest(x: u64, n: usize) -> u64
    requires { n < 64 }
    ensures { result ≡ x % 2 ^ n }
{
    x % (1 << n)
}

// The n lowest digits of v in a byte, in place of its bits from s on.
fn placed(b: u8, s: usize, n: usize, v: u64) -> u8
    requires { s + n ≤ 8 }
    ensures { digits 8 result ≡ over s (digits n v) (digits 8 b) }
{
    let byte = u64::from(b);
    let behind = 8 - s - n;
    let high = byte - lowest(byte, 8 - s);
    let middle = lowest(v, n) << behind;
    let low = lowest(byte, behind);
    // Below 256, as is proved: try_from would answer a refusal that cannot come.
    (high + middle + low) as u8
}

// A field of at most 64 bits, in place of what was there; all else keeps its bits. A card's length is tested before it is written. A turn takes what the byte in hand has room for, so the turns are no range.
pub fn put(l: &mut [u8], at: usize, width: usize, value: u64)
    requires { Reached l.old at width }
    ensures { bits_of l.new ≡ over at (digits width value) (bits_of l.old) }
{
    let mut left = width;
    while 0 < left {
        let end = at + (width - left);
        let s = end % 8;
        let n = left.min(8 - s);
        l[end / 8] = placed(l[end / 8], s, n, value >> (left - n));
        left = left - n;
    }
}
