// The row of a record: the cells that the index keeps of it. FORMAT, "The index of seconds". Any bytes have one; the index asks
// for that of accepted records.
#![tactic(auto)]

ghost use Rattle.std.specs.Prelude.{◌≡◌, ◌∷◌, ◌*◌, ◌≤◌, ◌<◌, length};
ghost use Rattle.sample_rates.specs.Rates.{most_samples};
ghost use Rattle.index_model.specs.Records.{in_edition, second_in};
ghost use Rattle.index_model.specs.Cells.{cell_limit, channel_cells, stretch_cells, row_of};
ghost use Rattle.index_row.specs.Row.{Bounded};

use index_model::{CHANNEL_WIDTH, GREATEST_OFFSET, HEAD_WIDTH, SAMPLE_OFFSET, SECOND_MS, WIDTH};
use totals::Total;

// The second of a record: that of its tag, whichever sample this times. The tag of any bytes is less than a cell can hold.
#[tactic(auto, unfolding(index_model::specs::Records::second_in))]
pub fn second_of(bytes: &[u8]) -> u64
    ensures { (result ≡ second_in bytes.now) × (result < cell_limit) }
{
    let tag = fields::read_field(bytes, header::TIME_TAG);
    tag / SECOND_MS
}

// The cells of a channel that has so many samples, each with its offset.
fn channel_cells(total: Total, count: usize) -> [u32; CHANNEL_WIDTH]
    requires { Bounded count total }
    ensures { result ≡ channel_cells count total }
{
    let least = (SAMPLE_OFFSET as i64 - total.least as i64) as u32;
    let sum = (total.sum + (SAMPLE_OFFSET * count as u64) as i64) as u32;
    let greatest = (total.greatest as i64 + GREATEST_OFFSET as i64) as u32;
    [least, sum, total.squares as u32, total.clipped, greatest]
}

// The row with these flags and this second, and the cells of a stretch of samples.
fn stretch_row(origin: u32, error: u32, second: u32, stretch: &[u8]) -> [u32; WIDTH]
    requires { length stretch.now ≤ 4 * most_samples }
    ensures { result ≡ 1 ∷ origin ∷ error ∷ second ∷ stretch_cells stretch.now }
{
    let count = stretch.len() / 4;
    // Not by map: what the closure asks of each total would stand in a `requires` and in a lemma over the four, which is no plainer.
    let [one, two, three, four] = totals::stretch_totals(stretch);
    let channels = [
        channel_cells(one, count),
        channel_cells(two, count),
        channel_cells(three, count),
        channel_cells(four, count),
    ];
    let mut row = [0u32; WIDTH];
    row[..HEAD_WIDTH].copy_from_slice(&[1, origin, error, second]);
    row[HEAD_WIDTH..].copy_from_slice(channels.as_flattened());
    row
}

// The row of any bytes in an edition.
#[tactic(auto, unfolding(index_model::specs::Cells::row_of))]
pub fn row_of(edition: u64, bytes: &[u8]) -> [u32; WIDTH]
    ensures { result ≡ row_of (in_edition edition bytes.now) }
{
    let origin = u32::from(fields::read_field(bytes, header::CLOCK_ORIGIN) == 1);
    let error = u32::from(fields::read_field(bytes, header::COPY_ERROR) == 1);
    let second = second_of(bytes) as u32;
    stretch_row(
        origin,
        error,
        second,
        record::sample_stretch(edition, bytes),
    )
}
