// The lines of the lister (FORMAT, "The listing"), each put at a place of a lent buffer. A line that does not fit is refused (21)
// and leaves the buffer as it was.
#![tactic(auto)]

ghost use Rattle.std.specs.Prelude.{◌≡◌, ◌+◌, leb};
ghost use Rattle.answers.specs.Refused.{answer_in};
ghost use Rattle.numbers.specs.Writing.{Written};
ghost use Rattle.text.specs.Text.{column, signed_column, frequency_column, rate_column, header_line, record_line, refused_line};
ghost use Rattle.text.specs.Placed.{answer_at, buffer_at};

use answers::Refusal;

// Decimal places: six of hertz, five of a rate.
const HERTZ_PLACES: usize = 6;

const FREQUENCY_RATE_PLACES: usize = 5;

// No line of five numbers of 64 bits is longer: `longest_of_words` of proofs/Line. The library takes no memory, so a line is made in
// an array, with its length beside it.
const LONGEST_LINE: usize = 107;

// The columns of a record's line.
#[derive(Clone, Copy)]
pub struct Columns {
    pub number: u64,
    pub first_us: i64,
    pub origin: u64,
    pub frequency_uhz: u64,
    pub frequency_rate_units: i64,
}

// ## Lines, each written at a place of a buffer; a writer returns the place behind its text.

// A whole number and the comma behind it.
fn write_column(out: &mut [u8], at: usize, n: u64) -> usize
    ensures { Written out.old at (column n) result out.new }
{
    let comma_at = numbers::write_decimal(out, at, n);
    numbers::write_byte(out, comma_at, b',')
}

// One that may be below zero.
fn write_signed_column(out: &mut [u8], at: usize, z: i64) -> usize
    ensures { Written out.old at (signed_column z) result out.new }
{
    let comma_at = numbers::write_signed_decimal(out, at, z);
    numbers::write_byte(out, comma_at, b',')
}

fn write_frequency(out: &mut [u8], at: usize, frequency_uhz: u64) -> usize
    ensures { Written out.old at (frequency_column frequency_uhz) result out.new }
{
    let comma_at = numbers::write_fixed(out, at, HERTZ_PLACES, frequency_uhz);
    numbers::write_byte(out, comma_at, b',')
}

fn write_rate(out: &mut [u8], at: usize, units: i64) -> usize
    ensures { Written out.old at (rate_column units) result out.new }
{
    let end = numbers::write_signed_fixed(out, at, FREQUENCY_RATE_PLACES, units);
    numbers::write_byte(out, end, b'\n')
}

fn write_record_line(out: &mut [u8], at: usize, columns: Columns) -> usize
    ensures { Written out.old at (record_line columns) result out.new }
{
    let first_at = write_column(out, at, columns.number);
    let origin_at = write_signed_column(out, first_at, columns.first_us);
    let frequency_at = write_column(out, origin_at, columns.origin);
    let rate_at = write_frequency(out, frequency_at, columns.frequency_uhz);
    write_rate(out, rate_at, columns.frequency_rate_units)
}

fn write_refused_line(out: &mut [u8], at: usize, number: u64) -> usize
    ensures { Written out.old at (refused_line number) result out.new }
{
    let number_at = numbers::write_text(out, at, b"refused,");
    let end = numbers::write_decimal(out, number_at, number);
    numbers::write_byte(out, end, b'\n')
}

// ## Texts put at a place of a buffer, or refused; each answers the place behind its text.

// Whether `count` bytes from `at` on lie within `length`: no sum is made, so none wraps.
fn room(length: usize, at: usize, count: usize) -> bool
    ensures { result ≡ leb (at + count) length }
{
    at <= length && count <= length - at
}

pub fn put_text(out: &mut [u8], at: usize, text: &[u8]) -> Result<usize, Refusal>
    ensures result_value { answer_in 0 result ≡ answer_at out.old at text.now }
    ensures out_after { out.new ≡ buffer_at out.old at text.now }
{
    if !room(out.len(), at, text.len()) {
        return Err(Refusal::TextTooLong);
    }
    Ok(numbers::write_text(out, at, text))
}

#[tactic(auto, unfolding(crate::specs::Text::header_line))]
pub fn put_header_line(out: &mut [u8], at: usize) -> Result<usize, Refusal>
    ensures result_value { answer_in 0 result ≡ answer_at out.old at header_line }
    ensures out_after { out.new ≡ buffer_at out.old at header_line }
{
    put_text(out, at, b"record,first_us,origin,poca_hz,rate_hz_s\n")
}

pub fn put_record_line(out: &mut [u8], at: usize, columns: Columns) -> Result<usize, Refusal>
    ensures result_value { answer_in 0 result ≡ answer_at out.old at (record_line columns) }
    ensures out_after { out.new ≡ buffer_at out.old at (record_line columns) }
{
    let mut line = [0u8; LONGEST_LINE];
    let length = write_record_line(&mut line, 0, columns);
    put_text(out, at, &line[..length])
}

// As `put_record_line`, three lines each: a closure for the writer would be no plainer.
pub fn put_refused_line(out: &mut [u8], at: usize, number: u64) -> Result<usize, Refusal>
    ensures result_value { answer_in 0 result ≡ answer_at out.old at (refused_line number) }
    ensures out_after { out.new ≡ buffer_at out.old at (refused_line number) }
{
    let mut line = [0u8; LONGEST_LINE];
    let length = write_refused_line(&mut line, 0, number);
    put_text(out, at, &line[..length])
}
