// The listing of a reel as text in a lent buffer, and the line of one record. FORMAT, "The listing", "Refusal numbers". Reels and
// records are of 1985. The walk is by one reel reader, kept from the first record to the last, and each record is judged once. The
// public functions take any bytes and any buffer.
#![tactic(auto)]

ghost use Rattle.std.specs.Prelude.{◌≡◌, length};
ghost use Rattle.answers.specs.Refused.{number_of, answer_in};
ghost use Rattle.text.specs.Text.{refused_line};
ghost use Rattle.numbers.specs.Writing.{Room, Written};
ghost use Rattle.reel.specs.Walk.{walk};
ghost use Rattle.listing.specs.Listing.{columns_of, record_text, walk_text, listing, longest_listing, text_over};
ghost use Rattle.listing.specs.Listing.{line_answer, line_after, list_answer, list_after};

use answers::Refusal;
use header::EDITION_1985;
use reel::Reader;
use text::Columns;

// An input longer than this is refused by 24.
pub const LONGEST_INPUT: usize = 65_536;

// A buffer of this size holds the listing of any input: `longest_listing` of specs/Listing. The library takes no memory, so such a
// buffer is an array, and the length of what stands in it comes beside it.
pub const LONGEST_LISTING: usize = 4_335;

// The columns of the line of a record, read of any bytes.
fn read_columns(bytes: &[u8]) -> Columns
    ensures { result ≡ columns_of bytes.now }
{
    Columns {
        number: fields::read_field(bytes, header::RECORD_NUMBER),
        first_us: times::first_sample_time(EDITION_1985, bytes),
        origin: fields::read_field(bytes, header::CLOCK_ORIGIN),
        frequency_uhz: fields::read_field(bytes, header::READBACK),
        frequency_rate_units: frequency_rate::frequency_rate_of(bytes),
    }
}

// ## Lines, each written at a place of a buffer that has room for it; a writer returns the place behind its text. Each asks for room
// for a text of its own, so no one type could say it.

fn write_record(out: &mut [u8], at: usize, bytes: &[u8]) -> usize
    requires { Room out.old at (record_text bytes.now) }
    ensures { Written out.old at (record_text bytes.now) result out.new }
{
    text::put_record_line(out, at, read_columns(bytes)).unwrap()
}

fn write_refusal(out: &mut [u8], at: usize, refusal: Refusal) -> usize
    requires { Room out.old at (refused_line (number_of refusal)) }
    ensures { Written out.old at (refused_line (number_of refusal)) result out.new }
{
    text::put_refused_line(out, at, u64::from(u8::from(refusal))).unwrap()
}

// The lines of the records from place 0 on, and that of the refusal that ends them.
fn write_walk(reel: &[u8], out: &mut [u8], at: usize) -> usize
    requires { Room out.old at (walk_text (walk 1985 reel.now)) }
    ensures { Written out.old at (walk_text (walk 1985 reel.now)) result out.new }
{
    let mut reader = Reader::new(EDITION_1985, reel);
    let mut at = at;
    loop {
        match reader.read() {
            Ok(Some(record)) => at = write_record(out, at, record),
            Ok(None) => return at,
            Err(refusal) => return write_refusal(out, at, refusal),
        }
    }
}

// ## Public functions

// The whole listing of the input, from the start of a buffer of the longest listing's length: nothing is refused; 24 is a line
// of it.
pub fn list_whole(input: &[u8], out: &mut [u8; LONGEST_LISTING]) -> usize
    ensures value { result ≡ length (listing input.now) }
    ensures out_after { out.new ≡ text_over (listing input.now) out.old }
    ensures out_len { length out.old ≡ longest_listing }
{
    let at = text::put_header_line(out, 0).unwrap();
    if input.len() > LONGEST_INPUT {
        return write_refusal(out, at, Refusal::InputTooLong);
    }
    write_walk(input, out, at)
}

// The whole listing of the input, from the start of the buffer.
pub fn list_reel(input: &[u8], out: &mut [u8]) -> Result<usize, Refusal>
    ensures result_value { answer_in 0 result ≡ list_answer input.now out.old }
    ensures out_after { out.new ≡ list_after input.now out.old }
{
    let mut whole = [0u8; LONGEST_LISTING];
    let length = list_whole(input, &mut whole);
    text::put_text(out, 0, &whole[..length])
}

// The line of one record, from the start of the buffer.
#[tactic(auto, unfolding(crate::specs::Listing::line_refusal, crate::specs::Listing::text_answer, crate::specs::Listing::buffer_after))]
pub fn record_line(bytes: &[u8], out: &mut [u8]) -> Result<usize, Refusal>
    ensures result_value { answer_in 0 result ≡ line_answer bytes.now out.old }
    ensures out_after { out.new ≡ line_after bytes.now out.old }
{
    record::judge(EDITION_1985, bytes)?;
    text::put_record_line(out, 0, read_columns(bytes))
}
