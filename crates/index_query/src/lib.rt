// Questions to the index about a second, and the test of its cells. FORMAT, "The index of seconds", "Refusal numbers". Every
// public function here takes any value of an opening and any cells, and changes none. They stay three parameters, as in
// `index_update`.
#![tactic(auto)]

ghost use Rattle.std.specs.Prelude.{◌≡◌, IfOk, false, ◌||◌, ◌*◌, ◌≤◌, ◌<◌, eqb, pos, nat_abs, ◌-ℤ◌, get_or};
ghost use Rattle.lists.specs.Fill.{tab};
ghost use Rattle.floats.specs.Whole.{exact_limit};
ghost use Rattle.sample_rates.specs.Rates.{samples_per_record};
ghost use Rattle.answers.specs.Refused.{refusal_in, answer_by, answer_in};
ghost use Rattle.index_model.specs.Second.{no_second};
ghost use Rattle.index_model.specs.Cells.{width, channel_width, channel_cell, sample_offset};
ghost use Rattle.index_model.specs.Buffers.{lent};
ghost use Rattle.index_model.specs.Limits.{WithinLimits};
ghost use Rattle.index_model.specs.Opening.{held_rate, in_window};
ghost use Rattle.index_model.specs.Calls.{least_from, greatest_from, total_from, kept_from, second_shown, query_refusal, query_answer, rows_inside, cells_right, seconds_right, consistency_answer};
ghost use Rattle.index_query.specs.Inner.{sample_limit};
ghost use Rattle.index_query.specs.Exact.{ExactTotal, ExactTotals};
ghost use Rattle.index_query.specs.Shown.{shown_second};

use answers::Refusal;
use channels::Channel;
use index_cells::{ERRORS, ORIGINS, RECORDS, SECOND};
use index_model::{
    CHANNEL_WIDTH, CLIPPED, GREATEST, GREATEST_OFFSET, HEAD_WIDTH, LEAST, Opening, SAMPLE_OFFSET,
    SQUARES, SUM, WIDTH,
};
use totals::{NO_TOTAL, Total};

// A second's totals and verdict.
#[derive(Clone, Copy)]
pub struct Second {
    pub records: u32,
    pub origins: u32,
    pub errors: u32,
    pub channels: [Total; 4],
    pub kept: bool,
}

// The least sample: the offset less its cell, as a signed byte.
fn least_from(x: u32) -> i8
    ensures { result ≡ least_from x }
{
    channels::signed(((256 + SAMPLE_OFFSET - (x as u64) % 256) % 256) as u8)
}

// The greatest sample: its cell less its offset, as a signed byte.
fn greatest_from(x: u32) -> i8
    ensures { result ≡ greatest_from x }
{
    channels::signed((((x as u64) + (256 - GREATEST_OFFSET)) % 256) as u8)
}

// The sum of so many samples: its cell has the offset of each beside its value. The bound on their count is worked out once, by
// `samples_in_records`, whose promise has it, and handed on by three functions; a type for it would be taken apart in each.
#[tactic(auto, using(crate::proofs::Decoding::sum_fits, crate::proofs::Decoding::sum_read, crate::proofs::Decoding::sum_exact))]
fn sum_from(x: u32, count: u64) -> i64
    requires { count ≤ sample_limit }
    ensures { (result ≡ pos x -ℤ pos (sample_offset * count)) × (nat_abs result ≤ exact_limit) }
{
    (x as i64) - ((SAMPLE_OFFSET * count) as i64)
}

// Cell j (0 to 4) of a channel.
fn channel_cell(cells: [u32; WIDTH], channel: Channel, j: usize) -> u32
    requires { j < channel_width }
    ensures { result ≡ get_or cells (channel_cell channel.number j) 0 }
{
    cells[HEAD_WIDTH + CHANNEL_WIDTH * (channel.number - 1) + j]
}

// The total of a channel from the cells of a second that has so many samples of it.
#[tactic(auto, unfolding(index_model::specs::Calls::total_from))]
fn total_from(cells: [u32; WIDTH], count: u64, channel: Channel) -> Total
    requires { count ≤ sample_limit }
    ensures { (result ≡ total_from count cells channel.number) × ExactTotal result }
{
    if cells[RECORDS] == 0 {
        return NO_TOTAL;
    }
    Total {
        sum: sum_from(channel_cell(cells, channel, SUM), count),
        squares: u64::from(channel_cell(cells, channel, SQUARES)),
        least: least_from(channel_cell(cells, channel, LEAST)),
        greatest: greatest_from(channel_cell(cells, channel, GREATEST)),
        clipped: channel_cell(cells, channel, CLIPPED),
    }
}

// Whether a second is KEPT, where so many records make it full.
#[tactic(auto, unfolding(index_model::specs::Calls::kept_from))]
fn is_kept(cells: [u32; WIDTH], full: u64) -> bool
    ensures { result ≡ kept_from full cells }
{
    u64::from(cells[RECORDS]) == full && cells[ORIGINS] >= 1 && cells[ERRORS] == 0
}

// The samples of each channel in so many records.
#[tactic(auto, using(crate::proofs::Decoding::count_most))]
pub fn samples_in_records(o: Opening, records: u32) -> u64
    ensures { (result ≡ records * samples_per_record (held_rate o)) × (result ≤ sample_limit) }
{
    let rate = editions::sample_rate_of(o.edition, o.sample_rate_hz);
    u64::from(records) * rate.samples
}

// The totals of channels 1 to 4.
fn totals_from(cells: [u32; WIDTH], count: u64) -> [Total; 4]
    requires { count ≤ sample_limit }
    ensures { (result ≡ tab (total_from count cells) 1 4) × ExactTotals result }
{
    channels::ALL.map(|channel| total_from(cells, count, channel))
}

// What the cells of a second say.
#[tactic(auto, unfolding(index_model::specs::Calls::second_shown))]
fn second_from(o: Opening, cells: [u32; WIDTH]) -> Second
    ensures { (shown_second result ≡ second_shown o cells) × ExactTotals result.channels }
{
    let count = samples_in_records(o, cells[RECORDS]);
    Second {
        records: cells[RECORDS],
        origins: cells[ORIGINS],
        errors: cells[ERRORS],
        channels: totals_from(cells, count),
        kept: is_kept(cells, index_open::full_count(o)),
    }
}

// Whether a question about a second is answered, or the refusal.
#[tactic(auto, unfolding(index_model::specs::Calls::query_refusal))]
fn judge(o: Opening, second: u64, rows: &[u32], seconds: &[u32]) -> Result<(), Refusal>
    ensures { refusal_in result ≡ query_refusal o second (lent rows.now seconds.now) }
{
    index_open::judge_opening(o, rows, seconds)?;
    if index_open::in_window(o, second) {
        return Ok(());
    }
    Err(Refusal::SecondOutside)
}

// A second's totals and verdict. On any cells, a 64-bit float holds each sum and each sum of squares exactly.
#[tactic(auto, unfolding(index_model::specs::Calls::query_answer))]
pub fn query(o: Opening, second: u64, rows: &[u32], seconds: &[u32]) -> Result<Second, Refusal>
    ensures result_value { answer_by shown_second no_second result ≡ query_answer o second (lent rows.now seconds.now) }
    ensures exact_totals { IfOk result (λ s. ExactTotals s.channels) }
{
    judge(o, second, rows, seconds)?;
    let place = index_open::window_place(o, second);
    Ok(second_from(o, index_cells::block(seconds, place)))
}

// Whether no held row has a second outside the window.
fn rows_inside(o: Opening, rows: &[u32]) -> bool
    ensures { result ≡ rows_inside o rows.now o.highest_number }
{
    (0..o.highest_number).all(|i| {
        let own = index_cells::read_cell(rows, i, SECOND);
        index_cells::read_cell(rows, i, RECORDS) == 0 || index_open::in_window(o, u64::from(own))
    })
}

// Whether the cells of second k of the window are those that the rows give.
fn second_right(o: Opening, rows: &[u32], seconds: &[u32], k: u64) -> bool
    requires { WithinLimits o (lent rows.now seconds.now) × (k < o.second_count) }
    ensures { result ≡ cells_right o (lent rows.now seconds.now) k width }
{
    index_cells::block(seconds, k)
        == index_cells::second_cells(rows, o.first_second + k, o.highest_number)
}

// Whether the cells of every second of the window are those that the rows give.
fn seconds_right(o: Opening, rows: &[u32], seconds: &[u32]) -> bool
    requires { WithinLimits o (lent rows.now seconds.now) }
    ensures { result ≡ seconds_right o (lent rows.now seconds.now) o.second_count }
{
    (0..o.second_count).all(|k| second_right(o, rows, seconds, k))
}

// Whether no held row has a second outside the window and the second cells are those that the rows give.
#[tactic(auto, unfolding(index_model::specs::Calls::is_consistent, index_model::specs::Calls::consistency_answer))]
pub fn is_consistent(o: Opening, rows: &[u32], seconds: &[u32]) -> Result<bool, Refusal>
    ensures { answer_in false result ≡ consistency_answer o (lent rows.now seconds.now) }
{
    index_open::judge_opening(o, rows, seconds)?;
    Ok(rows_inside(o, rows) && seconds_right(o, rows, seconds))
}
