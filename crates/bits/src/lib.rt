// Bit fields of a run of bytes, read and written, and binary coded decimal. FORMAT, "The record".
// Bits past the last byte read as 0 and are not written, so no caller has to know the length first.
#![tactic(auto)]

ghost use Rattle.std.specs.Prelude.{◌≡◌, ◌+◌, ◌-◌, ◌*◌, ◌/◌, ◌%◌, ◌^◌, ◌≤◌, ◌<◌, min, ltb, get_or, set};
ghost use Rattle.bits.specs.Bits.{get_bits, set_bits, widest};
ghost use Rattle.bits.specs.Decimal.{decimal_value, digits, coded, most_digits};
ghost use Rattle.bits.specs.Steps.{mix, Stored};

// The most bits of a field, and the most decimal digits.
pub const WIDEST: usize = 56;

const MOST_DIGITS: usize = 14;

// A field's width in bits.
#[derive(Clone, Copy)]
pub struct Width {
    pub bits: usize,
    ghost narrow: { bits ≤ widest },
}

impl Width {
    // One above the widest counts as the widest.
    pub fn new(bits: usize) -> Width
        ensures { result.bits ≡ min bits widest }
    {
        Width {
            bits: bits.min(WIDEST),
        }
    }
}

// How many decimal digits a code has.
#[derive(Clone, Copy)]
struct DigitCount {
    digits: usize,
    ghost few: { digits ≤ most_digits },
}

impl DigitCount {
    // More than the most count as the most.
    fn new(digits: usize) -> DigitCount
        ensures { result.digits ≡ min digits most_digits }
    {
        DigitCount {
            digits: digits.min(MOST_DIGITS),
        }
    }
}

// The lowest bit of each of the 14 digits.
const DIGIT_ONES: u64 = 0x11_1111_1111_1111;

// The lowest byte; an `as` alone would have to lose nothing.
fn narrow(x: u64) -> u8
    ensures { result ≡ x % 256 }
{
    (x % 256) as u8
}

// 2 to the power k.
fn two_to(k: usize) -> u64
    requires { k < 64 }
    ensures { (result ≡ 2 ^ k) × (0 < result) }
{
    1u64 << k
}

// Byte i, or 0 past the end: `get`, with the bound that callers need promised beside it.
fn byte_at(bytes: &[u8], i: usize) -> u64
    ensures { (result ≡ get_or bytes.now i 0) × (result < 256) }
{
    u64::from(bytes.get(i).copied().unwrap_or(0))
}

// The number that `count` bytes from `from` on make, high byte first.
fn window(bytes: &[u8], from: usize, count: usize) -> u64
    requires { (from < 2 ^ 61) × (count ≤ 8) }
    ensures { result ≡ get_bits (8 * from) (8 * count) bytes.now }
{
    let mut x = 0;
    // By index: bytes past the end count as 0, so there is no slice to go through.
    for k in 0..count {
        x = x * 256 + byte_at(bytes, from + k);
    }
    x
}

// The field of `width` bits from bit `start` on: few enough that eight bytes hold it wherever it starts.
fn cut_field(bytes: &[u8], start: usize, width: Width) -> u64
    ensures { (result ≡ get_bits start width.bits bytes.now) × (result < 2 ^ width.bits) }
{
    let from = start / 8;
    let skip = start % 8;
    let count = (skip + width.bits + 7) / 8;
    let after = count * 8 - (skip + width.bits);
    window(bytes, from, count) / two_to(after) % two_to(width.bits)
}

// The field of `width` bits from bit `start` on; of one wider than the widest, its first bits.
pub fn read_bits(bytes: &[u8], start: usize, width: usize) -> u64
    ensures { (result ≡ get_bits start (min width widest) bytes.now) × (result < 2 ^ min width widest) }
{
    cut_field(bytes, start, Width::new(width))
}

// Byte i, if there is one, becomes `byte`.
fn set_byte(bytes: &mut [u8], i: usize, byte: u8)
    ensures { bytes.new ≡ set bytes.old i byte }
{
    // Not by get_mut: what it lends out, once written, leaves a proof without the bytes.
    if i < bytes.len() {
        bytes[i] = byte;
    }
}

// The n bytes from `from` on become those that make up x, the last of them first; what lies past the end is dropped.
fn store(bytes: &mut [u8], from: usize, n: usize, x: u64)
    requires { (from < 2 ^ 61) × (n ≤ 8) }
    ensures { Stored from n x 0 bytes.old bytes.new }
{
    let mut rest = x;
    for k in (0..n).rev() {
        set_byte(bytes, from + k, narrow(rest));
        rest /= 256;
    }
}

// The window with its field, of which `after` bits follow, replaced.
fn mixed(old: u64, after: usize, width: Width, value: u64) -> u64
    requires { after ≤ 7 }
    ensures { result ≡ mix old after width.bits value }
{
    let p = two_to(width.bits);
    let t = two_to(after);
    old - old / t % p * t + value % p * t
}

// The field of `width` bits from bit `start` on becomes the lowest bits of `value`; every other bit stays.
fn put_field(bytes: &mut [u8], start: usize, width: Width, value: u64)
    ensures { bytes.new ≡ set_bits start width.bits value bytes.old }
{
    let from = start / 8;
    let skip = start % 8;
    let count = (skip + width.bits + 7) / 8;
    let after = count * 8 - (skip + width.bits);
    let old = window(bytes, from, count);
    let new = mixed(old, after, width, value);
    store(bytes, from, count, new);
}

// The field of `width` bits from bit `start` on, or of one wider than the widest its first bits, becomes the lowest bits of
// `value`.
pub fn write_bits(bytes: &mut [u8], start: usize, width: usize, value: u64)
    ensures { bytes.new ≡ set_bits start (min width widest) value bytes.old }
{
    put_field(bytes, start, Width::new(width), value);
}

// Whether a number has no more bits than `width`.
pub fn fits_bits(width: usize, value: u64) -> bool
    ensures { result ≡ ltb value (2 ^ width) }
{
    if width < 64 {
        return value < two_to(width);
    }
    true
}

// The number that the last `count` digits of `code` say.
fn digits_value(count: DigitCount, code: u64) -> u64
    ensures { result ≡ decimal_value count.digits code }
{
    let mut value = 0;
    for k in (0..count.digits).rev() {
        value = value * 10 + code / two_to(4 * k) % 16;
    }
    value
}

// Whether each of the last `count` digits of `code` is at most 9, all judged at once: a digit above 9 has its bit of 8 set and that
// of 4 or of 2 too.
fn digits_good(count: DigitCount, code: u64) -> bool
    ensures { result ≡ digits count.digits code }
{
    let above = (code / 8) & ((code / 4) | (code / 2));
    above & (DIGIT_ONES % two_to(4 * count.digits)) == 0
}

// The code of the last `count` decimal digits of `value`.
fn digits_code(count: DigitCount, value: u64) -> u64
    ensures { result ≡ coded count.digits value }
{
    let mut code = 0;
    let mut rest = value;
    let mut place = 1;
    for _ in 0..count.digits {
        code += rest % 10 * place;
        place *= 16;
        rest /= 10;
    }
    code
}

// The number that the last `count` digits of `code` say; of more digits than the most, the last ones.
pub fn decimal_value(count: usize, code: u64) -> u64
    ensures { result ≡ decimal_value (min count most_digits) code }
{
    digits_value(DigitCount::new(count), code)
}

// Whether each of the last `count` digits of `code`, or of more than the most the last ones, is at most 9.
pub fn decimal_digits(count: usize, code: u64) -> bool
    ensures { result ≡ digits (min count most_digits) code }
{
    digits_good(DigitCount::new(count), code)
}

// The code of the last `count` decimal digits of `value`; of more than the most, the last ones.
pub fn decimal_code(count: usize, value: u64) -> u64
    ensures { result ≡ coded (min count most_digits) value }
{
    digits_code(DigitCount::new(count), value)
}

// Whether a number has no more decimal digits than `count`.
pub fn fits_digits(count: usize, value: u64) -> bool
    ensures { result ≡ ltb value (10 ^ count) }
{
    let mut rest = value;
    for _ in 0..count {
        rest /= 10;
    }
    rest == 0
}
