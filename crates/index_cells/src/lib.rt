// Cells of the index: a row or a second read and replaced, a row merged into a second, a second worked out from the rows.
// FORMAT, "The index of seconds". Every public function here takes any cells.
#![tactic(auto)]

ghost use Rattle.std.specs.Prelude.{◌≡◌, cond, not, ◌&&◌, ◌+◌, ◌*◌, ◌/◌, ◌≤◌, ◌<◌, min, eqb, length};
ghost use Rattle.index_model.specs.Cells.{width, cell_limit, cell, block_at, is_greatest, merge, merged, row_within, second_from};
ghost use Rattle.index_cells.specs.Blocks.{block_or_none, block_put};

use index_model::{CHANNEL_WIDTH, WIDTH};

// The cells before those of the channels: records (1 in a row that is held), records with clock origin 1, records with copy
// error 1, and in a row its second.
pub const RECORDS: usize = 0;

pub const ORIGINS: usize = 1;

pub const ERRORS: usize = 2;

pub const SECOND: usize = 3;

// Cell j of row (or second) i, counted from 0; 0 past the end of the buffer.
pub fn read_cell(cells: &[u32], i: u64, j: usize) -> u32
    ensures { result ≡ cell cells.now i j }
{
    let place = i as usize;
    if place > cells.len() / WIDTH {
        return 0;
    }
    let from = WIDTH * place;
    cells[from..].get(j).copied().unwrap_or(0)
}

// The cells of row (or second) i of a buffer. That the buffer holds them stays a `requires` of three functions, here and in
// `index_update`: each has it from another test.
fn read_block(cells: &[u32], i: usize) -> [u32; WIDTH]
    requires { width * i + width ≤ length cells.now }
    ensures { result ≡ block_at cells.now i }
{
    let start = WIDTH * i;
    let mut block = [0; WIDTH];
    // By index: with copy_from_slice the pass over the rows took 1.37 ns a row, and so it takes 0.76.
    for j in 0..WIDTH {
        block[j] = cells[start + j];
    }
    block
}

// The cells of row (or second) i, counted from 0; zeros where the buffer does not hold them all.
pub fn block(cells: &[u32], i: u64) -> [u32; WIDTH]
    ensures { result ≡ block_or_none cells.now i }
{
    let place = i as usize;
    if place < cells.len() / WIDTH {
        return read_block(cells, place);
    }
    [0; WIDTH]
}

// The cells of row (or second) i, replaced; nothing changes where the buffer does not hold them all.
pub fn put_block(cells: &mut [u32], i: u64, block: [u32; WIDTH])
    ensures { cells.new ≡ block_put cells.old i block }
{
    let place = i as usize;
    if place < cells.len() / WIDTH {
        let start = WIDTH * place;
        cells[start..start + WIDTH].copy_from_slice(&block);
    }
}

// Whether cell j holds the greatest, not a sum.
fn is_greatest(j: usize) -> bool
    ensures { result ≡ is_greatest j }
{
    j % CHANNEL_WIDTH > 2
}

// Cell j of a second and of a row, merged.
fn merge_cell(j: usize, a: u32, b: u32) -> u32
    ensures { result ≡ merge j a b }
{
    if is_greatest(j) {
        a.max(b)
    } else {
        a.wrapping_add(b)
    }
}

// A second's cells with a row's added.
pub fn merged_cells(second: [u32; WIDTH], row: [u32; WIDTH]) -> [u32; WIDTH]
    ensures { result ≡ merged second row }
{
    let mut cells = second;
    // By index: cell j is merged by its place, and of iter_mut a proof knows nothing of what was written.
    for j in 0..WIDTH {
        cells[j] = merge_cell(j, cells[j], row[j]);
    }
    cells
}

// A cell as a wider number: `u64::from`, with the bound that callers need promised beside it.
pub fn wide(x: u32) -> u64
    ensures { (result ≡ x) × (result < cell_limit) }
{
    u64::from(x)
}

// Whether a row is held and of a second, by its cells of records and second.
pub fn is_of(held: u32, own: u32, second: u64) -> bool
    ensures { result ≡ not (eqb held 0) && eqb own second }
{
    (held != 0) & (wide(own) == second)
}

// Whether row i, which is there, is held and of a second. The pass over the rows asks this of each.
fn row_within(rows: &[u32], i: usize, second: u64) -> bool
    requires { width * i + width ≤ length rows.now }
    ensures { result ≡ row_within rows.now i second }
{
    let at = WIDTH * i;
    is_of(rows[at + RECORDS], rows[at + SECOND], second)
}

// The cells of a second from the first `count` rows.
fn from_rows(rows: &[u32], second: u64, count: usize) -> [u32; WIDTH]
    requires { width * count ≤ length rows.now }
    ensures { result ≡ second_from rows.now second count }
{
    let mut cells = [0; WIDTH];
    // By index: row i is tested by two of its cells, and only then copied.
    for i in 0..count {
        if row_within(rows, i, second) {
            // Two steps: the borrow checker does not cover an array variable that is assigned straight from a call.
            let next = merged_cells(cells, read_block(rows, i));
            cells = next;
        }
    }
    cells
}

// The cells of a second from the first `count` rows, or from all where the buffer holds fewer.
pub fn second_cells(rows: &[u32], second: u64, count: u64) -> [u32; WIDTH]
    ensures { result ≡ second_from rows.now second (min count (length rows.now / width)) }
{
    let held = rows.len() / WIDTH;
    from_rows(rows, second, held.min(count as usize))
}
