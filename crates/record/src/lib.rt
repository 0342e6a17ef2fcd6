// Records of an edition: which are accepted, their header read and written, and their samples' stretch. FORMAT, "The record",
// "Refusal numbers". Every public function takes any bytes. An edition and bytes stay two parameters here and above, as C hands
// them over: of a struct that holds a reference a clause reads `record.entry.bytes.now`, which is no plainer than `bytes.now`.
#![tactic(auto)]

ghost use Rattle.std.specs.Prelude.{◌≡◌, ◌≤◌, length};
ghost use Rattle.fields.specs.Field.{value_of, decimal_fits};
ghost use Rattle.fields.specs.Table.{all_digits_good, all_fit, value_in};
ghost use Rattle.header.specs.Edition.{sample_rate, sync_word, fields_of};
ghost use Rattle.sample_rates.specs.Rates.{most_samples};
ghost use Rattle.checks.specs.Checks.{judged_of};
ghost use Rattle.answers.specs.Refused.{refusal_in, answer_in};
ghost use Rattle.record.specs.Record.{front_refusal, record_refusal, no_values, header_answer, write_refusal, after_writing};
ghost use Rattle.record.specs.Stretch.{record_rate, sample_count, stretch_of};

use answers::Refusal;
use checks::Judged;
use header::{EDITION_1992, FIELD_COUNT};
use sample_rates::SampleRate;

// What the bytes hold of the two fields that are judged and that each edition has in its own place.
pub fn sample_rate_in(edition: u64, bytes: &[u8]) -> u64
    ensures { result ≡ value_of (sample_rate edition) bytes.now }
{
    if edition == EDITION_1992 {
        return fields::read_field(bytes, header::SAMPLE_RATE_1992);
    }
    fields::read_field(bytes, header::SAMPLE_RATE_1985)
}

// The same for the sync word: one function for both would have to be told both rows at each call, which is no plainer.
fn sync_word_in(edition: u64, bytes: &[u8]) -> u64
    ensures { result ≡ value_of (sync_word edition) bytes.now }
{
    if edition == EDITION_1992 {
        return fields::read_field(bytes, header::SYNC_1992);
    }
    fields::read_field(bytes, header::SYNC_1985)
}

// What 1 to 11 judge of the bytes. Only those fields are read; the digits first, which was measured to be faster.
fn judged(edition: u64, bytes: &[u8]) -> Judged
    ensures { result ≡ judged_of edition (length bytes.now) (λ f. value_of f bytes.now) (all_digits_good (fields_of edition) bytes.now) }
{
    let decimals = header::all_digits_good(bytes);
    Judged {
        bytes: bytes.len(),
        length_words: fields::read_field(bytes, header::LENGTH_WORDS),
        conversion: fields::read_field(bytes, header::CONVERSION),
        compression: fields::read_field(bytes, header::COMPRESSION),
        sample_rate: sample_rate_in(edition, bytes),
        tape_number: fields::read_field(bytes, header::TAPE_NUMBER),
        record_number: fields::read_field(bytes, header::RECORD_NUMBER),
        year: fields::read_field(bytes, header::YEAR),
        day: fields::read_field(bytes, header::DAY),
        time_tag: fields::read_field(bytes, header::TIME_TAG),
        readback_tag: fields::read_field(bytes, header::READBACK_TAG),
        decimals,
        clock_origin: fields::read_field(bytes, header::CLOCK_ORIGIN),
        sync: sync_word_in(edition, bytes),
    }
}

// Whether the bytes are accepted as a record of the edition, or the refusal, 25 or 1 to 11. The length is tested first, so that no
// field past this test has to be.
#[tactic(auto, unfolding(crate::specs::Record::record_refusal))]
pub fn judge(edition: u64, bytes: &[u8]) -> Result<(), Refusal>
    ensures { refusal_in result ≡ record_refusal edition bytes.now }
{
    if editions::is_unknown(edition) {
        return Err(Refusal::NoSuchEdition);
    }
    if bytes.len() < editions::header_bytes(edition) {
        return Err(Refusal::TooShort);
    }
    checks::first_check(edition, judged(edition, bytes))
}

// What 1 to 11 judge of a record of so many bytes that begins with these.
fn judged_by_front(edition: u64, front: &[u8], bytes: usize) -> Judged
    ensures { result ≡ judged_of edition bytes (λ f. value_of f front.now) (all_digits_good (fields_of edition) front.now) }
{
    Judged {
        bytes,
        ..judged(edition, front)
    }
}

// Whether so many bytes that begin with these are accepted as a record of the edition, or the refusal, 25 or 1 to 11. Who has a
// record in parts has it judged by the first of them. The length of the front is tested first, so that no field's place is tested
// after it.
#[tactic(auto, unfolding(crate::specs::Record::front_refusal))]
pub fn judge_front(edition: u64, front: &[u8], bytes: usize) -> Result<(), Refusal>
    ensures { refusal_in result ≡ front_refusal edition front.now bytes }
{
    if editions::is_unknown(edition) {
        return Err(Refusal::NoSuchEdition);
    }
    if front.len() < editions::header_bytes(edition) {
        return Err(Refusal::TooShort);
    }
    checks::first_check(edition, judged_by_front(edition, front, bytes))
}

// The header of a record.
#[tactic(auto, unfolding(crate::specs::Record::header_answer))]
pub fn read_header(edition: u64, bytes: &[u8]) -> Result<[u64; FIELD_COUNT], Refusal>
    ensures { answer_in no_values result ≡ header_answer edition bytes.now }
{
    judge(edition, bytes)?;
    Ok(header::read_values(edition, bytes))
}

// What 1 to 11 judge of values to be written into this many bytes. The values that are judged have the same places in each
// edition.
fn judged_values(edition: u64, bytes: usize, values: [u64; FIELD_COUNT]) -> Judged
    ensures { result ≡ judged_of edition bytes (value_in (fields_of edition) values) (all_fit decimal_fits (fields_of edition) values) }
{
    let decimals = header_fits::decimals_fit(values);
    Judged {
        bytes,
        length_words: values[header::AT_LENGTH_WORDS],
        conversion: values[header::AT_CONVERSION],
        compression: values[header::AT_COMPRESSION],
        sample_rate: values[header::AT_SAMPLE_RATE],
        tape_number: values[header::AT_TAPE_NUMBER],
        record_number: values[header::AT_RECORD_NUMBER],
        year: values[header::AT_YEAR],
        day: values[header::AT_DAY],
        time_tag: values[header::AT_TIME_TAG],
        readback_tag: values[header::AT_READBACK_TAG],
        decimals,
        clock_origin: values[header::AT_CLOCK_ORIGIN],
        sync: values[header::AT_SYNC],
    }
}

// Whether values may be written into this many bytes, or the refusal, 25, 1 to 11 or 22.
#[tactic(auto, unfolding(crate::specs::Record::write_refusal))]
fn judge_writing(edition: u64, bytes: usize, values: [u64; FIELD_COUNT]) -> Result<(), Refusal>
    ensures { refusal_in result ≡ write_refusal edition bytes values }
{
    checks::first_check(edition, judged_values(edition, bytes, values))?;
    if header_fits::binaries_fit(edition, values) {
        return Ok(());
    }
    Err(Refusal::ValueTooWide)
}

// The values go into the header of a record of their length. Bits that no field names and all bytes past the header stay. A
// list of values has no edition of its own: it is taken for one of the edition named.
#[tactic(auto, unfolding(crate::specs::Record::after_writing))]
pub fn write_header(
    edition: u64,
    bytes: &mut [u8],
    values: [u64; FIELD_COUNT],
) -> Result<(), Refusal>
    ensures value { refusal_in result ≡ write_refusal edition (length bytes.old) values }
    ensures bytes_after { bytes.new ≡ after_writing edition bytes.old values }
{
    judge_writing(edition, bytes.len(), values)?;
    header_write::write_values(edition, bytes, values);
    Ok(())
}

// The line of the table of sample rates that a record's header names; a line of zeros where it is no rate.
pub fn rate_of(edition: u64, bytes: &[u8]) -> SampleRate
    ensures { result ≡ record_rate edition bytes.now }
{
    editions::sample_rate_of(edition, sample_rate_in(edition, bytes))
}

// The samples that each channel has in a record.
pub fn sample_count(edition: u64, bytes: &[u8]) -> usize
    ensures { (result ≡ sample_count edition bytes.now) × (result ≤ most_samples) }
{
    let rate = rate_of(edition, bytes);
    rate.samples as usize
}

// The sample stretch of a record, a part of it; of bytes that are too short for it, what there is.
pub fn sample_stretch<'a>(edition: u64, bytes: &'a [u8]) -> &'a [u8]
    ensures { result.now ≡ stretch_of edition bytes.now }
{
    let count = sample_count(edition, bytes);
    let header_bytes = editions::header_bytes(edition);
    let start = header_bytes.min(bytes.len());
    let end = (header_bytes + 4 * count).min(bytes.len());
    &bytes[start..end]
}
