// Signed numbers of a few bits, two's complement, read as numbers of 64 bits; written, such a number gives its lowest bits, as
// any other does. FORMAT, "The record". A width above the widest counts as the widest, so no function here asks anything of its
// caller.
#![tactic(auto)]

ghost use Rattle.std.specs.Prelude.{◌≡◌, ◌%◌, ◌^◌, ◌≤◌, ◌<◌, min};
ghost use Rattle.bits.specs.Bits.{widest};
ghost use Rattle.signed.specs.Signed.{signed_value, signed_fits};

use bits::Width;

// How many codes a width has.
fn code_count(width: Width) -> u64
    ensures { (result ≡ 2 ^ width.bits) × (0 < result) }
{
    1u64 << width.bits
}

// The value of the lowest bits of a number: the second half of the codes are the negative values.
pub fn value_of(width: usize, code: u64) -> u64
    ensures { result ≡ signed_value (min width widest) (code % 2 ^ min width widest) }
{
    let codes = code_count(Width::new(width));
    let low = code % codes;
    if low < codes / 2 {
        return low;
    }
    // Not wrapping_sub: with it acceptance and header took 1.52 of plain Rust's time, past the goal of 1.5, and so it takes 1.45.
    low + (u64::MAX - codes + 1)
}

// Whether a value is one that the width can hold.
pub fn fits(width: usize, value: u64) -> bool
    ensures { result ≡ signed_fits (min width widest) value }
{
    let half = code_count(Width::new(width)) / 2;
    (value < half) | (u64::MAX - value < half)
}
