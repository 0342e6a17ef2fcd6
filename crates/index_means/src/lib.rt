// The mean and the mean square of each channel of a second: a question to the index, as `index_query::query` is. Each is one
// division of two whole numbers that a 64-bit float holds exactly; both are 0 for no samples. FORMAT, "The index of seconds". It
// takes any value of an opening and any cells, and changes none.
#![tactic(auto)]

ghost use Rattle.std.specs.Prelude.{◌≡◌, ◌≤◌};
ghost use Rattle.answers.specs.Refused.{answer_in};
ghost use Rattle.index_model.specs.Buffers.{lent};
ghost use Rattle.floats.specs.Whole.{exact_limit};
ghost use Rattle.index_query.specs.Exact.{ExactTotal, ExactTotals};
ghost use Rattle.index_means.specs.Means.{means_of, each_means, no_means_each, means_answer};

use answers::Refusal;
use index_model::Opening;
use totals::Total;

#[repr(C)]
#[derive(Clone, Copy)]
pub struct Means {
    pub mean: f64,
    pub mean_square: f64,
}

// The means of no samples.
pub const NO_MEANS: Means = Means {
    mean: 0.0,
    mean_square: 0.0,
};

// Of so many samples with this total. Only numbers that a float holds exactly come here, so each division is rounded once.
#[tactic(auto, unfolding(crate::specs::Means::means_of))]
fn means_of(total: Total, count: u64) -> Means
    requires { ExactTotal total × (count ≤ exact_limit) }
    ensures { result ≡ means_of total count }
{
    if count == 0 {
        return NO_MEANS;
    }
    let sum = total.sum as f64;
    let squares = total.squares as f64;
    let samples = count as f64;
    Means {
        mean: sum / samples,
        mean_square: squares / samples,
    }
}

// The means of the four channels.
fn each_means(totals: [Total; 4], count: u64) -> [Means; 4]
    requires { ExactTotals totals × (count ≤ exact_limit) }
    ensures { result ≡ each_means totals count }
{
    totals.map(|total| means_of(total, count))
}

// The means of the four channels of a second, by its totals and the samples of its records.
#[tactic(auto, unfolding(crate::specs::Means::means_answer))]
pub fn second_means(
    o: Opening,
    second: u64,
    rows: &[u32],
    seconds: &[u32],
) -> Result<[Means; 4], Refusal>
    ensures { answer_in no_means_each result ≡ means_answer o second (lent rows.now seconds.now) }
{
    let totals = index_query::query(o, second, rows, seconds)?;
    let count = index_query::samples_in_records(o, totals.records);
    Ok(each_means(totals.channels, count))
}
