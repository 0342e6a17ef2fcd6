// Refusal 25 and refusals 1 to 11 of an edition as one chain, over what is judged of a record or of a header to be written.
// FORMAT, "Refusal numbers".
#![tactic(auto)]

ghost use Rattle.std.specs.Prelude.{◌≡◌, not, ◌*◌, eqb, drop};
ghost use Rattle.answers.specs.Refusal.{first};
ghost use Rattle.answers.specs.Refused.{refusal_in};
ghost use Rattle.checks.specs.Checks.{last_day, wrong_date, checks};

use answers::Refusal;

// The last millisecond of a day.
pub const LAST_MS: u64 = 86_399_999;

// What the sync word holds where the time is the station clock's.
const SYNC_PATTERN: u64 = 0xA55A;

// What 1 to 11 judge: how many bytes the record has, values of its header, and whether its decimal fields are decimal.
#[derive(Clone, Copy)]
pub struct Judged {
    pub bytes: usize,
    pub length_words: u64,
    pub conversion: u64,
    pub compression: u64,
    pub sample_rate: u64,
    pub tape_number: u64,
    pub record_number: u64,
    pub year: u64,
    pub day: u64,
    pub time_tag: u64,
    pub readback_tag: u64,
    pub decimals: bool,
    pub clock_origin: u64,
    pub sync: u64,
}

// Whether a length in bytes is not twice a length in words; no product, so that no number of words can wrap.
fn wrong_length(bytes: usize, words: u64) -> bool
    ensures { result ≡ not (eqb bytes (2 * words)) }
{
    let whole = (bytes / 2) as u64;
    (bytes % 2 != 0) | (whole != words)
}

// The last day of a year of two digits.
fn last_day(year: u64) -> u64
    ensures { result ≡ last_day year }
{
    let leap = year % 4 == 0;
    if leap { 366 } else { 365 }
}

// Whether there is no such date.
pub fn wrong_date(year: u64, day: u64) -> bool
    ensures { result ≡ wrong_date year day }
{
    let last = last_day(year);
    (year > 99) | ((day == 0) | (day > last))
}

// The first check of the values, of 5 to 11, that applies.
fn check_values(edition: u64, j: Judged) -> Result<(), Refusal>
    ensures { refusal_in result ≡ first (drop 5 (checks edition j)) }
{
    let rate = editions::sample_rate_of(edition, j.sample_rate);
    if rate.hz == 0 {
        return Err(Refusal::NoSuchRate);
    }
    if (j.length_words != rate.words_b) & (j.length_words != rate.words_a) {
        return Err(Refusal::NotTheRatesLength);
    }
    if (j.tape_number == 0) | (j.record_number == 0) {
        return Err(Refusal::NumberZero);
    }
    if wrong_date(j.year, j.day) {
        return Err(Refusal::NoSuchDate);
    }
    if (j.time_tag > LAST_MS) | (j.readback_tag > LAST_MS) {
        return Err(Refusal::PastTheDay);
    }
    if !j.decimals {
        return Err(Refusal::NoDigit);
    }
    if (j.clock_origin == 1) & (j.sync != SYNC_PATTERN) {
        return Err(Refusal::WrongSync);
    }
    Ok(())
}

// The first check, of 25 and then 1 to 11, that applies.
pub fn first_check(edition: u64, j: Judged) -> Result<(), Refusal>
    ensures { refusal_in result ≡ first (checks edition j) }
{
    if editions::is_unknown(edition) {
        return Err(Refusal::NoSuchEdition);
    }
    if j.bytes < editions::header_bytes(edition) {
        return Err(Refusal::TooShort);
    }
    if wrong_length(j.bytes, j.length_words) {
        return Err(Refusal::WrongLength);
    }
    if j.conversion == editions::other_resolution(edition) {
        return Err(Refusal::Not8Bits);
    }
    if j.compression != 1 {
        return Err(Refusal::Compressed);
    }
    check_values(edition, j)
}
