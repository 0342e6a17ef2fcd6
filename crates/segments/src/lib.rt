// The segment question: a segment by its number, and its bytes in one of two records. The seven segments are one list, which
// the question reads. FORMAT, "Monitor segments", "Refusal numbers".
#![tactic(auto)]

ghost use Rattle.std.specs.Prelude.{◌≡◌, []};
ghost use Rattle.answers.specs.Refused.{answer_by};
ghost use Rattle.segments.specs.Question.{segment_answer};

use answers::Refusal;
use monitor::SEGMENT_COUNT;

// A row of the list: a segment's number, its first word, counted from 1 after the samples, and how many words it has.
// A tuple, since the list is to be compared with the figure line by line: a row with named fields takes five lines.
#[derive(Clone, Copy)]
pub struct Row(pub u64, pub u8, pub u8);

// Figure RSC-11-10-3 of 1985 as a list, in the order of the status bits; behind each row what the figure calls the segment. The
// columns: the number in SEGMENT .. DATA, the WORD at which that begins, the count in (.. WORDS).
const SEGMENTS: [Row; SEGMENT_COUNT] = [
    Row(7, 6, 45), // CONFIGURATION SEGMENT
    Row(5, 51, 13), // STATUS SEGMENT
    Row(2, 64, 15), // 64-M NOISE TEMPERATURE SEGMENT
    Row(6, 79, 15), // 34-M STANDARD NOISE TEMPERATURE SEGMENT (the figure misprints 64 for 79)
    Row(10, 94, 15), // 34-M HEA NOISE TEMPERATURE SEGMENT
    Row(4, 109, 20), // SIGNAL LEVEL SEGMENT - SLE #1
    Row(8, 129, 20), // SIGNAL LEVEL SEGMENT - SLE #2
];

// The words of the longest segment, which is the first.
pub const MOST_WORDS: usize = SEGMENTS[0].2 as usize;

// The bytes of a segment, or the refusal: 25 or 1 to 11 of this record, then of the earlier one, 26, 20 or 23.
#[tactic(auto, unfolding(crate::specs::Question::segment_answer, crate::specs::Question::segment_row))]
pub fn segment<'a>(
    edition: u64,
    this: &'a [u8],
    earlier: &'a [u8],
    number: u64,
) -> Result<&'a [u8], Refusal>
    ensures { answer_by (λ s. s.now) [] result ≡ segment_answer edition this.now earlier.now number }
{
    let numbers = SEGMENTS.map(|row| row.0);
    let (row, record) = monitor::choose(edition, this, earlier, numbers, number)?;
    let Row(_, first, words) = SEGMENTS[row];
    Ok(monitor::monitor_bytes(edition, record, first, words))
}
