// Records put into the index of seconds, and taken out. FORMAT, "The index of seconds", "Refusal numbers". Any bytes, any value
// of an opening and any cells; a refusal changes no cell. An opening, rows and seconds stay three parameters, as C lends them, and
// `WithinLimits` a fact about them: of a struct with two `&mut` each function would have to promise too that it gives the same two
// back, which is no plainer.
#![tactic(auto)]

ghost use Rattle.std.specs.Prelude.{◌≡◌, not, ◌&&◌, ◌+◌, ◌-◌, ◌*◌, ◌≤◌, ◌<◌, eqb, length};
ghost use Rattle.answers.specs.Refused.{refusal_in};
ghost use Rattle.index_model.specs.Records.{in_edition, number_of, second_in};
ghost use Rattle.index_model.specs.Cells.{width, cell, block_at, with_block, merged, row_within};
ghost use Rattle.index_model.specs.Buffers.{lent};
ghost use Rattle.index_model.specs.Limits.{WithinLimits};
ghost use Rattle.index_model.specs.Opening.{in_window};
ghost use Rattle.index_model.specs.Calls.{leave, row_inserted, is_full, insert_refusal, inserted, remove_refusal, removed};
ghost use Rattle.index_update.specs.Inner.{Placed};

use answers::Refusal;
use index_cells::{RECORDS, SECOND};
use index_model::{Opening, WIDTH};

// Whether row i is held and of a second.
#[tactic(auto, unfolding(index_model::specs::Cells::row_within))]
fn row_within(rows: &[u32], i: u64, second: u64) -> bool
    ensures { result ≡ row_within rows.now i second }
{
    let held = index_cells::read_cell(rows, i, RECORDS);
    index_cells::is_of(held, index_cells::read_cell(rows, i, SECOND), second)
}

// Whether an old row, by its cells of records and second, was held and of a second of the window.
fn is_left(o: Opening, held: u32, old: u64) -> bool
    ensures { result ≡ (not (eqb held 0) && in_window o old) }
{
    held != 0 && index_open::in_window(o, old)
}

// The second that an old row was of is worked out anew from the rows. What 13 and 14 leave is required here, of `replace_row` and
// of `insert_row`: in a struct that kept it of the two borrowed buffers each clause would name their borrows, and C lends them singly.
#[tactic(auto, unfolding(index_model::specs::Calls::leave))]
fn leave_second(o: Opening, rows: &[u32], held: u32, old: u32, seconds: &mut [u32])
    requires { WithinLimits o (lent rows.now seconds.old) }
    ensures { seconds.new ≡ leave o rows.now held old seconds.old }
{
    let second = index_cells::wide(old);
    if is_left(o, held, second) {
        let cells = index_cells::second_cells(rows, second, o.highest_number);
        index_cells::put_block(seconds, index_open::window_place(o, second), cells);
    }
}

// A row is added to the second at a place.
fn join_second(seconds: &mut [u32], place: u64, row: [u32; WIDTH])
    requires { width * place + width ≤ length seconds.old }
    ensures { seconds.new ≡ with_block seconds.old place (merged (block_at seconds.old place) row) }
{
    let cells = index_cells::block(seconds, place);
    index_cells::put_block(seconds, place, index_cells::merged_cells(cells, row));
}

// Row i is replaced, and the second that the old row was of is left.
fn replace_row(o: Opening, i: u64, row: [u32; WIDTH], rows: &mut [u32], seconds: &mut [u32])
    requires { WithinLimits o (lent rows.old seconds.old) × (i < o.highest_number) }
    ensures rows_after { rows.new ≡ with_block rows.old i row }
    ensures seconds_after { seconds.new ≡ leave o (with_block rows.old i row) (cell rows.old i 0) (cell rows.old i 3) seconds.old }
{
    let held = index_cells::read_cell(rows, i, RECORDS);
    let old = index_cells::read_cell(rows, i, SECOND);
    index_cells::put_block(rows, i, row);
    leave_second(o, rows, held, old, seconds);
}

// Row i becomes that of a record of a second. Where the old row was of that second too, the second was worked out anew with it.
#[tactic(auto, unfolding(index_model::specs::Calls::seconds_inserted, index_model::specs::Calls::join))]
fn insert_row(
    o: Opening,
    i: u64,
    second: u64,
    row: [u32; WIDTH],
    rows: &mut [u32],
    seconds: &mut [u32],
)
    requires { WithinLimits o (lent rows.old seconds.old) × (i < o.highest_number) × Placed o second }
    ensures rows_after { rows.new ≡ (row_inserted o i second row (lent rows.old seconds.old)).rows }
    ensures seconds_after { seconds.new ≡ (row_inserted o i second row (lent rows.old seconds.old)).seconds }
{
    let anew = row_within(rows, i, second);
    replace_row(o, i, row, rows, seconds);
    if !anew {
        join_second(seconds, index_open::window_place(o, second), row);
    }
}

// Whether a second has as many records beside row i as make it full.
#[tactic(auto, unfolding(index_model::specs::Calls::is_full))]
fn is_full(o: Opening, i: u64, second: u64, rows: &[u32], seconds: &[u32]) -> bool
    ensures { result ≡ is_full o i second (lent rows.now seconds.now) }
{
    let own = u64::from(row_within(rows, i, second));
    let place = index_open::window_place(o, second);
    let records = index_cells::read_cell(seconds, place, RECORDS);
    index_open::full_count(o) + own <= index_cells::wide(records)
}

// Whether a record with this number and second may be put. Row `number - 1` is asked for only after 16, which 0 is refused with.
#[tactic(auto, unfolding(index_model::specs::Opening::is_outside, index_model::specs::Calls::insert_refusal))]
fn judge_insert(
    o: Opening,
    edition: u64,
    bytes: &[u8],
    number: u64,
    second: u64,
    rows: &[u32],
    seconds: &[u32],
) -> Result<(), Refusal>
    requires { (number ≡ number_of (in_edition edition bytes.now)) × (second ≡ second_in bytes.now) }
    ensures { refusal_in result ≡ insert_refusal o (in_edition edition bytes.now) (lent rows.now seconds.now) }
{
    record::judge(edition, bytes)?;
    index_open::judge_opening(o, rows, seconds)?;
    if index_open::other_reel(o, edition, bytes) {
        return Err(Refusal::OtherReel);
    }
    if index_open::is_outside(o, number) {
        return Err(Refusal::NumberOutside);
    }
    if !index_open::in_window(o, second) {
        return Err(Refusal::SecondOutside);
    }
    if is_full(o, number - 1, second, rows, seconds) {
        return Err(Refusal::SecondFull);
    }
    Ok(())
}

// A record of an edition is put under its number, in place of any there. It is judged once, and its row made only then.
#[tactic(auto, unfolding(index_model::specs::Calls::inserted))]
pub fn insert(
    o: Opening,
    edition: u64,
    bytes: &[u8],
    rows: &mut [u32],
    seconds: &mut [u32],
) -> Result<(), Refusal>
    ensures value { refusal_in result ≡ insert_refusal o (in_edition edition bytes.now) (lent rows.old seconds.old) }
    ensures rows_after { rows.new ≡ (inserted o (in_edition edition bytes.now) (lent rows.old seconds.old)).rows }
    ensures seconds_after { seconds.new ≡ (inserted o (in_edition edition bytes.now) (lent rows.old seconds.old)).seconds }
{
    let number = fields::read_field(bytes, header::RECORD_NUMBER);
    let second = index_row::second_of(bytes);
    judge_insert(o, edition, bytes, number, second, rows, seconds)?;
    let row = index_row::row_of(edition, bytes);
    insert_row(o, number - 1, second, row, rows, seconds);
    Ok(())
}

// Whether the record of a number may be taken out.
#[tactic(auto, unfolding(index_model::specs::Opening::is_outside, index_model::specs::Calls::remove_refusal))]
fn judge_remove(o: Opening, number: u64, rows: &[u32], seconds: &[u32]) -> Result<(), Refusal>
    ensures { refusal_in result ≡ remove_refusal o number (lent rows.now seconds.now) }
{
    index_open::judge_opening(o, rows, seconds)?;
    if index_open::is_outside(o, number) {
        return Err(Refusal::NumberOutside);
    }
    if index_cells::read_cell(rows, number - 1, RECORDS) == 0 {
        return Err(Refusal::NotHeld);
    }
    Ok(())
}

// The record of a number is taken out; its row becomes 0.
#[tactic(auto, unfolding(index_model::specs::Calls::removed, index_model::specs::Calls::seconds_removed))]
pub fn remove(o: Opening, number: u64, rows: &mut [u32], seconds: &mut [u32]) -> Result<(), Refusal>
    ensures value { refusal_in result ≡ remove_refusal o number (lent rows.old seconds.old) }
    ensures rows_after { rows.new ≡ (removed o number (lent rows.old seconds.old)).rows }
    ensures seconds_after { seconds.new ≡ (removed o number (lent rows.old seconds.old)).seconds }
{
    judge_remove(o, number, rows, seconds)?;
    replace_row(o, number - 1, [0u32; WIDTH], rows, seconds);
    Ok(())
}
