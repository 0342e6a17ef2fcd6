// Totals of the four channels over a stretch of samples: for each its sum, sum of squares, least, greatest and clipped samples.
// FORMAT, "Samples", "The index of seconds".
#![tactic(auto)]

ghost use Rattle.std.specs.Prelude.{◌≡◌, ◌+◌, ◌*◌, ◌≤◌, ◌<◌, nat_abs, length};
ghost use Rattle.channels.specs.Sample.{sample_of};
ghost use Rattle.totals.specs.Total.{clipped_one, totals_of, count_limit, set_count};
ghost use Rattle.totals.specs.Running.{next_of, Room, runnings_of, total_at, channel_next};

use channels::Channel;

// The most samples a channel that one call takes: more than any record has.
const COUNT_LIMIT: usize = 65_536;

// A channel's total.
#[repr(C)]
#[derive(Clone, Copy)]
pub struct Total {
    pub sum: i64,
    pub squares: u64,
    pub least: i8,
    pub greatest: i8,
    pub clipped: u32,
}

// The total of no samples.
pub const NO_TOTAL: Total = Total {
    sum: 0,
    squares: 0,
    least: 0,
    greatest: 0,
    clipped: 0,
};

// Made in 64 bits, as the sum is: one widening of the sample serves both.
fn squared(sample: i8) -> u64
    ensures { result ≡ nat_abs sample * nat_abs sample }
{
    let wide = i64::from(sample);
    (wide * wide) as u64
}

// 1 for a sample at an end of the converter's range.
fn clipped_one(sample: i8) -> u32
    ensures { result ≡ clipped_one sample }
{
    u32::from((sample == -128) | (sample == 127))
}

impl Total {
    // The total with one sample more.
    fn with(self, sample: i8) -> Total
        requires { Room self }
        ensures { result ≡ next_of self sample }
    {
        Total {
            sum: self.sum + i64::from(sample),
            squares: self.squares + squared(sample),
            least: self.least.min(sample),
            greatest: self.greatest.max(sample),
            clipped: self.clipped + clipped_one(sample),
        }
    }
}

// Sample k of a channel. That the stretch has set k stays a `requires` of three functions: the loop counts k, and 01 names sample k.
fn sample(stretch: &[u8], channel: Channel, k: usize) -> i8
    requires { 4 * k + 4 ≤ length stretch.now }
    ensures { result ≡ sample_of stretch.now channel.number k }
{
    channels::signed(stretch[4 * k + (channel.number - 1)])
}

// The four totals, one channel's replaced: it takes its sample k.
fn with_channel(totals: [Total; 4], stretch: &[u8], channel: Channel, k: usize) -> [Total; 4]
    requires { (4 * k + 4 ≤ length stretch.now) × Room (total_at totals channel.number) }
    ensures { result ≡ channel_next totals stretch.now channel.number k }
{
    let mut next = totals;
    let at = channel.number - 1;
    let total = next[at];
    next[at] = total.with(sample(stretch, channel, k));
    next
}

// The running totals of k samples a channel; each channel takes its sample k. One channel is replaced at a time, as 01
// asks, and literal channels keep the totals in registers.
fn with_samples(totals: [Total; 4], stretch: &[u8], k: usize) -> [Total; 4]
    requires { (totals ≡ runnings_of stretch.now k) × (4 * k + 4 ≤ length stretch.now) × (k < count_limit) }
    ensures { result ≡ runnings_of stretch.now (k + 1) }
{
    let first = with_channel(totals, stretch, Channel { number: 1 }, k);
    let second = with_channel(first, stretch, Channel { number: 2 }, k);
    let third = with_channel(second, stretch, Channel { number: 3 }, k);
    with_channel(third, stretch, Channel { number: 4 }, k)
}

// The totals of channels 1 to 4 over the first `count` samples of each. The running totals start from a least and a greatest
// that any sample replaces, so the loop has no test for the first sample; no samples at all are apart.
fn sum_sets(stretch: &[u8], count: usize) -> [Total; 4]
    requires { (4 * count ≤ length stretch.now) × (count ≤ count_limit) }
    ensures { result ≡ totals_of stretch.now count }
{
    if count == 0 {
        return [NO_TOTAL; 4];
    }
    let start = Total {
        sum: 0,
        squares: 0,
        least: 127,
        greatest: -128,
        clipped: 0,
    };
    let mut totals = [start; 4];
    for k in 0..count {
        // Two steps: the borrow checker does not cover an array variable that is assigned straight from a call.
        let next = with_samples(totals, stretch, k);
        totals = next;
    }
    totals
}

// The totals of channels 1 to 4 over a stretch of samples; of more than one call takes, the first ones.
pub fn stretch_totals(stretch: &[u8]) -> [Total; 4]
    ensures { result ≡ totals_of stretch.now (set_count stretch.now) }
{
    sum_sets(stretch, COUNT_LIMIT.min(stretch.len() / 4))
}
