// Opening the index of seconds, and what its value decides without a look at any cell: 13 to 17. FORMAT, "The index of seconds",
// "Refusal numbers". Every public function here takes any values.
#![tactic(auto)]

ghost use Rattle.std.specs.Prelude.{◌≡◌, [], ◌∷◌, ◌+◌, ◌*◌, ◌≤◌, ltb, length};
ghost use Rattle.lists.specs.Fill.{over};
ghost use Rattle.answers.specs.Refusal.{◌when◌, first, ◌then◌};
ghost use Rattle.answers.specs.Refused.{refusal_in, answer_in};
ghost use Rattle.record.specs.Record.{record_refusal};
ghost use Rattle.index_model.specs.Records.{in_edition};
ghost use Rattle.index_model.specs.Cells.{width};
ghost use Rattle.index_model.specs.Buffers.{lent};
ghost use Rattle.index_model.specs.Opening.{day_seconds, limits_wrong, held_wrong, too_small, opening_refusal, other_reel, is_outside, in_window, window_place, opening_of, no_opening, open_answer, opened};
ghost use Rattle.index_model.specs.Calls.{full_count};

use answers::Refusal;
use index_model::{Opening, WIDTH};

// The highest record number that an index can have.
const HIGHEST_LIMIT: u64 = 65_535;

// The seconds of a day.
const DAY_SECONDS: u64 = 86_400;

// Whether F, C or R is wrong.
#[tactic(auto, unfolding(index_model::specs::Opening::limits_wrong))]
fn limits_wrong(o: Opening) -> bool
    ensures { result ≡ limits_wrong o }
{
    (o.highest_number == 0)
        | (o.highest_number > HIGHEST_LIMIT)
        | (o.second_count == 0)
        | (o.second_count > DAY_SECONDS)
        | (o.first_second.saturating_add(o.second_count) > DAY_SECONDS)
}

// Whether the held edition, rate, tape number or date is one that 25, 5, 7 or 8 refuses.
#[tactic(auto, unfolding(index_model::specs::Opening::held_wrong))]
fn held_wrong(o: Opening) -> bool
    ensures { result ≡ held_wrong o }
{
    let unknown = editions::is_unknown(o.edition);
    let rate = editions::sample_rate_of(o.edition, o.sample_rate_hz);
    let date = checks::wrong_date(o.year, o.day);
    unknown | (rate.hz == 0) | (o.tape_number == 0) | date
}

// Whether so many cells are fewer than those of so many rows or seconds; no product, so that no count can wrap.
fn fewer_cells(cells: usize, count: u64) -> bool
    ensures { result ≡ ltb cells (width * count) }
{
    count > (cells / WIDTH) as u64
}

// Whether the lent buffers have too few cells.
#[tactic(auto, unfolding(index_model::specs::Opening::too_small))]
fn too_small(o: Opening, rows: &[u32], seconds: &[u32]) -> bool
    ensures { result ≡ too_small o (lent rows.now seconds.now) }
{
    fewer_cells(rows.len(), o.highest_number) | fewer_cells(seconds.len(), o.second_count)
}

// What every call after opening judges of the value that opening returned and of the lent buffers: 13 or 14.
#[tactic(auto, unfolding(index_model::specs::Opening::opening_refusal))]
pub fn judge_opening(o: Opening, rows: &[u32], seconds: &[u32]) -> Result<(), Refusal>
    ensures { refusal_in result ≡ opening_refusal o (lent rows.now seconds.now) }
{
    if limits_wrong(o) || held_wrong(o) {
        return Err(Refusal::WrongLimits);
    }
    if too_small(o, rows, seconds) {
        return Err(Refusal::TooFewCells);
    }
    Ok(())
}

// Whether a record of an edition is of another reel: as the pattern it would give another opening.
#[tactic(auto, unfolding(index_model::specs::Opening::other_reel))]
pub fn other_reel(o: Opening, edition: u64, bytes: &[u8]) -> bool
    ensures { result ≡ other_reel o (in_edition edition bytes.now) }
{
    let own = opening_of(
        edition,
        bytes,
        o.first_second,
        o.second_count,
        o.highest_number,
    );
    own != o
}

// Whether a record number is outside 1 to R.
#[tactic(auto, unfolding(index_model::specs::Opening::is_outside))]
pub fn is_outside(o: Opening, n: u64) -> bool
    ensures { result ≡ is_outside o n }
{
    (n == 0) | (n > o.highest_number)
}

// Whether a second is one of the window; no sum, so that no numbers can wrap.
#[tactic(auto, unfolding(index_model::specs::Opening::in_window))]
pub fn in_window(o: Opening, s: u64) -> bool
    ensures { result ≡ in_window o s }
{
    s >= o.first_second && s - o.first_second < o.second_count
}

// The place of a second among those of the window, from 0; of one before the window, 0.
pub fn window_place(o: Opening, s: u64) -> u64
    ensures { result ≡ window_place o s }
{
    s.saturating_sub(o.first_second)
}

// L: the records of a full second; 0 where the held rate is none.
pub fn full_count(o: Opening) -> u64
    ensures { result ≡ full_count o }
{
    editions::sample_rate_of(o.edition, o.sample_rate_hz).records
}

// F, C and R as given, with the pattern's edition and values that 15 compares.
fn opening_of(
    edition: u64,
    pattern: &[u8],
    first_second: u64,
    second_count: u64,
    highest_number: u64,
) -> Opening
    ensures { result ≡ opening_of (in_edition edition pattern.now) first_second second_count highest_number }
{
    Opening {
        first_second,
        second_count,
        highest_number,
        edition,
        sample_rate_hz: record::sample_rate_in(edition, pattern),
        tape_number: fields::read_field(pattern, header::TAPE_NUMBER),
        year: fields::read_field(pattern, header::YEAR),
        day: fields::read_field(pattern, header::DAY),
        spacecraft: fields::read_field(pattern, header::SPACECRAFT),
        spc: fields::read_field(pattern, header::SPC),
    }
}

// The cells of so many rows or seconds become 0; those past them stay.
fn clear(cells: &mut [u32], count: u64)
    requires { width * count ≤ length cells.old }
    ensures { cells.new ≡ over cells.old (λ k. 0) (width * count) }
{
    cells[..WIDTH * (count as usize)].fill(0);
}

// Opens the index: the cells of R rows and of C seconds become 0, and none beyond is touched; a refusal touches none. Of what an
// accepted pattern holds nothing is refused with 13, so that its opening is judged as in every later call. F, C and R stay three
// numbers, as odr_open (C) lends them: a struct of them would be made only to be taken apart here.
#[tactic(auto, using(index_model::proofs::Opened::open_by), unfolding(index_model::specs::Opening::open_answer, index_model::specs::Opening::opened))]
pub fn open(
    edition: u64,
    pattern: &[u8],
    first_second: u64,
    second_count: u64,
    highest_number: u64,
    rows: &mut [u32],
    seconds: &mut [u32],
) -> Result<Opening, Refusal>
    ensures result_value { answer_in no_opening result ≡ open_answer (in_edition edition pattern.now) first_second second_count highest_number (lent rows.old seconds.old) }
    ensures rows_after { rows.new ≡ (opened (in_edition edition pattern.now) first_second second_count highest_number (lent rows.old seconds.old)).rows }
    ensures seconds_after { seconds.new ≡ (opened (in_edition edition pattern.now) first_second second_count highest_number (lent rows.old seconds.old)).seconds }
{
    record::judge(edition, pattern)?;
    let o = opening_of(edition, pattern, first_second, second_count, highest_number);
    judge_opening(o, rows, seconds)?;
    clear(rows, o.highest_number);
    clear(seconds, o.second_count);
    Ok(o)
}
