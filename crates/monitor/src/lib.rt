// The words after a record's samples: which of two records has new data of a segment, and what a segment question is refused
// for. A segment is its row here, in the order of the status bits; numbers, starts and lengths are those of crate `segments`.
// FORMAT, "Monitor segments", "Refusal numbers".
#![tactic(auto)]

ghost use Rattle.std.specs.Prelude.{◌≡◌, ◌+◌, ◌*◌, ◌≤◌, ◌<◌, [], IfSome, position, ◌==◌};
ghost use Rattle.answers.specs.Refused.{answer_by};
ghost use Rattle.monitor.specs.Monitor.{place_in, segment_count, last_sample_word_of, most_last_word, monitor_byte, monitor_bytes, is_new, choice_of, choice};

use answers::Refusal;

// The segments of an edition that has any, a bit of the status for each.
pub const SEGMENT_COUNT: usize = 7;

// The row, from 0, of a segment's number among those of all rows.
pub fn row_of(numbers: [u64; SEGMENT_COUNT], number: u64) -> Option<usize>
    ensures place { result ≡ position (λ entry. entry == number) numbers }
    ensures inside { IfSome result (λ row. row < segment_count) }
{
    numbers.iter().position(|entry| *entry == number)
}

// The last word of a record's samples.
#[tactic(auto, using(crate::proofs::Monitor::last_word_most), unfolding(crate::specs::Monitor::last_sample_word_of))]
fn last_sample_word(edition: u64, bytes: &[u8]) -> usize
    ensures { (result ≡ last_sample_word_of edition bytes.now) × (result ≤ most_last_word) }
{
    let rate = record::rate_of(edition, bytes);
    rate.last_word as usize
}

// The first byte of a word after the samples, counted from 1.
fn byte_of(edition: u64, bytes: &[u8], word: u8) -> usize
    ensures { (result ≡ monitor_byte edition bytes.now word) × (result ≤ 2 * (most_last_word + 255)) }
{
    let after = last_sample_word(edition, bytes) + word as usize;
    if after == 0 {
        return 0;
    }
    2 * (after - 1)
}

// The bytes of `count` words after the samples from word `first` on, as many as the record has.
#[tactic(auto, using(lists::proofs::Parts::clipped), unfolding(crate::specs::Monitor::monitor_bytes))]
pub fn monitor_bytes<'a>(edition: u64, bytes: &'a [u8], first: u8, count: u8) -> &'a [u8]
    ensures { result.now ≡ monitor_bytes edition bytes.now first count }
{
    let start = byte_of(edition, bytes, first);
    let end = start + 2 * count as usize;
    let from = start.min(bytes.len());
    let to = end.min(bytes.len());
    &bytes[from..to]
}

// Whether the segment of a row is new in a record. Word 1 is the status, whose bit 1 is row 0's.
#[tactic(auto, unfolding(crate::specs::Monitor::is_new))]
fn is_new(edition: u64, bytes: &[u8], row: usize) -> bool
    requires { row < segment_count }
    ensures { result ≡ is_new edition bytes.now row }
{
    let status = byte_of(edition, bytes, 1);
    let status_bit = row + 1;
    bits::read_bits(bytes, 8 * status + status_bit - 1, 1) == 1
}

// The row of the segment that is asked for by its number among those of all rows, and the record that it is taken from: this one
// if it is new there, else the earlier one. Or the refusal: that of this record, then of the earlier one, then 26, 20 and 23.
#[tactic(auto, using(crate::proofs::Search::place), unfolding(crate::specs::Monitor::chosen_record))]
pub fn choose<'a>(
    edition: u64,
    this: &'a [u8],
    earlier: &'a [u8],
    numbers: [u64; SEGMENT_COUNT],
    number: u64,
) -> Result<(usize, &'a [u8]), Refusal>
    ensures { answer_by choice_of (0, []) result ≡ choice edition this.now earlier.now (place_in numbers number) }
{
    record::judge(edition, this)?;
    record::judge(edition, earlier)?;
    if editions::no_segments(edition) {
        return Err(Refusal::NoSegments);
    }
    let row = row_of(numbers, number).ok_or(Refusal::NoSuchSegment)?;
    if is_new(edition, this, row) {
        return Ok((row, this));
    }
    if is_new(edition, earlier, row) {
        return Ok((row, earlier));
    }
    Err(Refusal::SegmentNotNew)
}
