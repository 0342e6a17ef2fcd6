// The library for C and Rust, as c/odr.h declares it. Each call takes any input and answers as the call that it hands on to.
// Numbers come back in structs by value, and what opening returned goes in by value, so no buffer of numbers can be too short;
// beside a refusal every other member is 0 (crate `c_answers`). An edition is named by its number, just before what it is about.
#![tactic(auto)]

ghost use Rattle.std.specs.Prelude.{◌≡◌, length};
ghost use Rattle.answers.specs.Answer.{told};
ghost use Rattle.editions.specs.Answer.{rate_line_answer};
ghost use Rattle.record.specs.Record.{record_refusal, header_answer, write_refusal, after_writing};
ghost use Rattle.frequency_rate.specs.FrequencyRate.{frequency_rate_answer};
ghost use Rattle.samples.specs.InOut.{samples_refusal, channel_after, record_after};
ghost use Rattle.samples.specs.Totals.{totals_answer};
ghost use Rattle.times.specs.SampleTime.{time_answer};
ghost use Rattle.times.specs.Phases.{phase_answer};
ghost use Rattle.segments.specs.Question.{segment_answer};
ghost use Rattle.reel.specs.Reel.{step_at};
ghost use Rattle.block_layout.specs.Layout.{exported_of};
ghost use Rattle.block_layout.specs.Carried.{block_at, carried_of};
ghost use Rattle.block_layout.specs.Refusals.{export_refusal, block_refusal, import_refusal};
ghost use Rattle.block_layout.specs.Given.{length_answer, buffer_after};
ghost use Rattle.block_import.specs.Bad.{bad_block};
ghost use Rattle.index_model.specs.Records.{in_edition};
ghost use Rattle.index_model.specs.Buffers.{lent};
ghost use Rattle.index_model.specs.Opening.{open_answer, opened};
ghost use Rattle.index_model.specs.Calls.{insert_refusal, inserted, remove_refusal, removed, query_answer, consistency_answer};
ghost use Rattle.index_means.specs.Means.{means_answer};
ghost use Rattle.listing.specs.Listing.{line_answer, line_after, list_answer, list_after};
ghost use Rattle.c_answers.specs.Out.{value_or, rate_line_in, second_in, PhasesTold, SegmentTold, StepTold, BadBlockTold};

use c_answers::{
    BadBlockOut, ConsistencyOut, FrequencyRateOut, LengthOut, MeansOut, OpenOut, PhasesOut,
    RateLineOut, SecondOut, SegmentOut, StepOut, TimeOut, TotalsOut,
};
use header::FIELD_COUNT;
use index_model::Opening;

// ## Records

// The refusal of the bytes as a record of the edition, 25 or 1 to 11; 0 where they are accepted.
#[unsafe(no_mangle)]
pub extern "C" fn odr_refusal(edition: u64, bytes: &[u8]) -> u8
    ensures { result ≡ record_refusal edition bytes.now }
{
    answers::refusal_number(record::judge(edition, bytes))
}

// What follows from a sample rate: the samples a channel has in a record, the records of a second, the microseconds from a
// sample to the next. 25; 5 for a number that is no rate of the edition.
#[unsafe(no_mangle)]
pub extern "C" fn odr_sample_rate(edition: u64, hz: u64) -> RateLineOut
    ensures { rate_line_in result ≡ rate_line_answer edition hz }
{
    RateLineOut::from(editions::rate_line(edition, hz))
}

// The values of a record's header, in the order of the edition's table, into the array lent.
#[unsafe(no_mangle)]
pub extern "C" fn odr_read_header(edition: u64, bytes: &[u8], values: &mut [u64; FIELD_COUNT]) -> u8
    ensures value { result ≡ (header_answer edition bytes.now).number }
    ensures values_after { values.new ≡ value_or values.old (header_answer edition bytes.now) }
{
    c_answers::header_into(edition, bytes, values)
}

// The values, taken for those of the edition, go into the header of the record; every other bit stays.
#[unsafe(no_mangle)]
pub extern "C" fn odr_write_header(
    edition: u64,
    bytes: &mut [u8],
    values: &[u64; FIELD_COUNT],
) -> u8
    ensures value { result ≡ write_refusal edition (length bytes.old) values.now }
    ensures bytes_after { bytes.new ≡ after_writing edition bytes.old values.now }
{
    answers::refusal_number(record::write_header(edition, bytes, *values))
}

// The frequency rate of a record, in units of 0.00001 Hz/s.
#[unsafe(no_mangle)]
pub extern "C" fn odr_frequency_rate(edition: u64, bytes: &[u8]) -> FrequencyRateOut
    ensures { told result.refusal result.units ≡ frequency_rate_answer edition bytes.now }
{
    FrequencyRateOut::from(frequency_rate::frequency_rate(edition, bytes))
}

// The time of sample k of a record, in microseconds from 0 h of its day, below zero on the day before.
#[unsafe(no_mangle)]
pub extern "C" fn odr_sample_time(edition: u64, bytes: &[u8], k: u64) -> TimeOut
    ensures { told result.refusal result.microseconds ≡ time_answer edition bytes.now k }
{
    TimeOut::from(times::sample_time(edition, bytes, k))
}

// The two phases of a record, in cycles.
#[unsafe(no_mangle)]
pub extern "C" fn odr_phases(edition: u64, bytes: &[u8]) -> PhasesOut
    ensures { PhasesTold result (phase_answer edition bytes.now) }
{
    PhasesOut::from(times::phases(edition, bytes))
}

// The samples of a record, out to the buffers of channels 1 to 4.
#[unsafe(no_mangle)]
pub extern "C" fn odr_read_samples(
    edition: u64,
    bytes: &[u8],
    one: &mut [i8],
    two: &mut [i8],
    three: &mut [i8],
    four: &mut [i8],
) -> u8
    ensures value { result ≡ samples_refusal edition bytes.now (length one.old) (length two.old) (length three.old) (length four.old) }
    ensures one_after { one.new ≡ channel_after result edition bytes.now 1 one.old }
    ensures two_after { two.new ≡ channel_after result edition bytes.now 2 two.old }
    ensures three_after { three.new ≡ channel_after result edition bytes.now 3 three.old }
    ensures four_after { four.new ≡ channel_after result edition bytes.now 4 four.old }
{
    answers::refusal_number(samples::read_samples(edition, bytes, one, two, three, four))
}

// The samples of channels 1 to 4, into the sample stretch of a record.
#[unsafe(no_mangle)]
pub extern "C" fn odr_write_samples(
    edition: u64,
    bytes: &mut [u8],
    one: &[i8],
    two: &[i8],
    three: &[i8],
    four: &[i8],
) -> u8
    ensures value { result ≡ samples_refusal edition bytes.old (length one.now) (length two.now) (length three.now) (length four.now) }
    ensures bytes_after { bytes.new ≡ record_after result edition bytes.old one.now two.now three.now four.now }
{
    answers::refusal_number(samples::write_samples(edition, bytes, one, two, three, four))
}

// The totals of a record's samples, for each channel.
#[unsafe(no_mangle)]
pub extern "C" fn odr_totals(edition: u64, bytes: &[u8]) -> TotalsOut
    ensures { told result.refusal result.channels ≡ totals_answer edition bytes.now }
{
    TotalsOut::from(samples::record_totals(edition, bytes))
}

// The bytes of a monitor segment, from this record or from the earlier one, both of the edition.
#[unsafe(no_mangle)]
pub extern "C" fn odr_segment<'a>(
    edition: u64,
    this_record: &'a [u8],
    earlier: &'a [u8],
    number: u64,
) -> SegmentOut
    ensures { SegmentTold result (segment_answer edition this_record.now earlier.now number) }
{
    SegmentOut::from(segments::segment(edition, this_record, earlier, number))
}

// ## Reels

// What stands at a place of a reel of the edition: a record's start and end, 255 at the end of the reel, or the refusal, of which
// 25 comes before that end.
#[unsafe(no_mangle)]
pub extern "C" fn odr_step(edition: u64, reel: &[u8], place: usize) -> StepOut
    ensures { StepTold result (step_at edition reel.now place) }
{
    StepOut::from(reel::step_by_reader(edition, reel, place))
}

// ## Blocks

// The blocks of a record of the edition, at the start of the buffer lent.
#[unsafe(no_mangle)]
pub extern "C" fn odr_export(edition: u64, source: &[u8], out: &mut [u8]) -> LengthOut
    ensures length_value { told result.refusal result.length ≡ length_answer (export_refusal edition source.now (length out.old)) (exported_of source.now) }
    ensures out_after { out.new ≡ buffer_after (export_refusal edition source.now (length out.old)) (exported_of source.now) out.old }
{
    LengthOut::from(block_export::export_record(edition, source, out))
}

// One of them alone: that part of the whole export.
#[unsafe(no_mangle)]
pub extern "C" fn odr_export_block(
    edition: u64,
    source: &[u8],
    index: usize,
    out: &mut [u8],
) -> LengthOut
    ensures length_value { told result.refusal result.length ≡ length_answer (block_refusal edition source.now index (length out.old)) (block_at (exported_of source.now) index) }
    ensures out_after { out.new ≡ buffer_after (block_refusal edition source.now index (length out.old)) (block_at (exported_of source.now) index) out.old }
{
    LengthOut::from(block_export::export_block(edition, source, index, out))
}

// The record of the edition that blocks carry, at the start of the buffer lent.
#[unsafe(no_mangle)]
pub extern "C" fn odr_import(edition: u64, blocks: &[u8], out: &mut [u8]) -> LengthOut
    ensures length_value { told result.refusal result.length ≡ length_answer (import_refusal edition blocks.now (length out.old)) (carried_of blocks.now) }
    ensures out_after { out.new ≡ buffer_after (import_refusal edition blocks.now (length out.old)) (carried_of blocks.now) out.old }
{
    LengthOut::from(block_import::import_record(edition, blocks, out))
}

// The first whole block whose check is bad, to be asked for again.
#[unsafe(no_mangle)]
pub extern "C" fn odr_bad_block(blocks: &[u8]) -> BadBlockOut
    ensures { BadBlockTold result (bad_block blocks.now) }
{
    BadBlockOut::from(block_import::bad_block(blocks))
}

// ## The index of seconds

// Opens an index by a pattern record of the edition: the cells of R rows and of C seconds become 0.
#[unsafe(no_mangle)]
pub extern "C" fn odr_open(
    edition: u64,
    pattern: &[u8],
    first_second: u64,
    second_count: u64,
    highest_number: u64,
    rows: &mut [u32],
    seconds: &mut [u32],
) -> OpenOut
    ensures opening_value { told result.refusal result.opening ≡ open_answer (in_edition edition pattern.now) first_second second_count highest_number (lent rows.old seconds.old) }
    ensures rows_after { rows.new ≡ (opened (in_edition edition pattern.now) first_second second_count highest_number (lent rows.old seconds.old)).rows }
    ensures seconds_after { seconds.new ≡ (opened (in_edition edition pattern.now) first_second second_count highest_number (lent rows.old seconds.old)).seconds }
{
    OpenOut::from(index_open::open(
        edition,
        pattern,
        first_second,
        second_count,
        highest_number,
        rows,
        seconds,
    ))
}

// Inserts a record of the edition under its number, in place of any there.
#[unsafe(no_mangle)]
pub extern "C" fn odr_insert(
    opening: Opening,
    edition: u64,
    bytes: &[u8],
    rows: &mut [u32],
    seconds: &mut [u32],
) -> u8
    ensures value { result ≡ insert_refusal opening (in_edition edition bytes.now) (lent rows.old seconds.old) }
    ensures rows_after { rows.new ≡ (inserted opening (in_edition edition bytes.now) (lent rows.old seconds.old)).rows }
    ensures seconds_after { seconds.new ≡ (inserted opening (in_edition edition bytes.now) (lent rows.old seconds.old)).seconds }
{
    answers::refusal_number(index_update::insert(opening, edition, bytes, rows, seconds))
}

// Removes the record of a number.
#[unsafe(no_mangle)]
pub extern "C" fn odr_remove(
    opening: Opening,
    number: u64,
    rows: &mut [u32],
    seconds: &mut [u32],
) -> u8
    ensures value { result ≡ remove_refusal opening number (lent rows.old seconds.old) }
    ensures rows_after { rows.new ≡ (removed opening number (lent rows.old seconds.old)).rows }
    ensures seconds_after { seconds.new ≡ (removed opening number (lent rows.old seconds.old)).seconds }
{
    answers::refusal_number(index_update::remove(opening, number, rows, seconds))
}

// The totals and the verdict of a second.
#[unsafe(no_mangle)]
pub extern "C" fn odr_query(
    opening: Opening,
    second: u64,
    rows: &[u32],
    seconds: &[u32],
) -> SecondOut
    ensures { second_in result ≡ query_answer opening second (lent rows.now seconds.now) }
{
    SecondOut::from(index_query::query(opening, second, rows, seconds))
}

// The mean and the mean square of each channel of a second.
#[unsafe(no_mangle)]
pub extern "C" fn odr_second_means(
    opening: Opening,
    second: u64,
    rows: &[u32],
    seconds: &[u32],
) -> MeansOut
    ensures { told result.refusal result.channels ≡ means_answer opening second (lent rows.now seconds.now) }
{
    MeansOut::from(index_means::second_means(opening, second, rows, seconds))
}

// Whether the cells are those that the rows give, and no row lies outside the window.
#[unsafe(no_mangle)]
pub extern "C" fn odr_is_consistent(
    opening: Opening,
    rows: &[u32],
    seconds: &[u32],
) -> ConsistencyOut
    ensures { told result.refusal result.consistent ≡ consistency_answer opening (lent rows.now seconds.now) }
{
    ConsistencyOut::from(index_query::is_consistent(opening, rows, seconds))
}

// ## Text

// The line of one record, into the buffer lent.
#[unsafe(no_mangle)]
pub extern "C" fn odr_record_line(bytes: &[u8], text: &mut [u8]) -> LengthOut
    ensures length_value { told result.refusal result.length ≡ line_answer bytes.now text.old }
    ensures text_after { text.new ≡ line_after bytes.now text.old }
{
    LengthOut::from(listing::record_line(bytes, text))
}

// The listing of a reel, into the buffer lent.
#[unsafe(no_mangle)]
pub extern "C" fn odr_list(input: &[u8], text: &mut [u8]) -> LengthOut
    ensures length_value { told result.refusal result.length ≡ list_answer input.now text.old }
    ensures text_after { text.new ≡ list_after input.now text.old }
{
    LengthOut::from(listing::list_reel(input, text))
}
