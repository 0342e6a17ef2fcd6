// Numbers as text (FORMAT, "The listing"), each written at a place of a lent buffer as far as the buffer goes; a writer returns
// the place behind what it wrote. Buffer and place stay two parameters: of a struct that holds the `&mut` each writer would have to
// promise too that it gives the same one back, which is no plainer. The decimal printers recurse, as the customer asks.
#![tactic(auto)]

ghost use Rattle.std.specs.Prelude.{[], ◌∷◌};
ghost use Rattle.numbers.specs.Number.{digit, decimal_text, fixed, minus, signed_decimal, signed_fixed};
ghost use Rattle.numbers.specs.Writing.{Written};

pub fn write_byte(out: &mut [u8], at: usize, byte: u8) -> usize
    ensures { Written out.old at (byte ∷ []) result out.new }
{
    // Not by get_mut: what it lends out, once written, leaves a proof without the bytes.
    if at < out.len() {
        out[at] = byte;
        at + 1
    } else {
        at
    }
}

// Writes the last digit of n.
fn write_digit(out: &mut [u8], at: usize, n: u64) -> usize
    ensures { Written out.old at (digit n ∷ []) result out.new }
{
    write_byte(out, at, b'0' + (n % 10) as u8)
}

// Writes the leading digits, then the last.
pub fn write_decimal(out: &mut [u8], at: usize, n: u64) -> usize
    ensures { Written out.old at (decimal_text n) result out.new }
{
    if n < 10 {
        write_digit(out, at, n)
    } else {
        let last = write_decimal(out, at, n / 10);
        write_digit(out, last, n)
    }
}

// Writes the leading digits with one decimal place less, then the last.
pub fn write_fixed(out: &mut [u8], at: usize, places: usize, n: u64) -> usize
    ensures { Written out.old at (fixed places n) result out.new }
{
    if places == 0 {
        let end = write_decimal(out, at, n);
        write_byte(out, end, b'.')
    } else {
        let end = write_fixed(out, at, places - 1, n / 10);
        write_digit(out, end, n)
    }
}

// Writes a minus below zero, else nothing.
fn write_minus(out: &mut [u8], at: usize, value: i64) -> usize
    ensures { Written out.old at (minus value) result out.new }
{
    if value < 0 {
        write_byte(out, at, b'-')
    } else {
        at
    }
}

pub fn write_signed_decimal(out: &mut [u8], at: usize, value: i64) -> usize
    ensures { Written out.old at (signed_decimal value) result out.new }
{
    let digits_at = write_minus(out, at, value);
    write_decimal(out, digits_at, value.unsigned_abs())
}

pub fn write_signed_fixed(out: &mut [u8], at: usize, places: usize, value: i64) -> usize
    ensures { Written out.old at (signed_fixed places value) result out.new }
{
    let digits_at = write_minus(out, at, value);
    write_fixed(out, digits_at, places, value.unsigned_abs())
}

pub fn write_text(out: &mut [u8], at: usize, text: &[u8]) -> usize
    ensures { Written out.old at text.now result out.new }
{
    let mut next = at;
    for byte in text {
        next = write_byte(out, next, *byte);
    }
    next
}
