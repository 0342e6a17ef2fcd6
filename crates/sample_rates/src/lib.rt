// The sample rates of each edition, and what follows from a rate. FORMAT, "Rates".
#![tactic(auto)]

ghost use Rattle.std.specs.Prelude.{◌≡◌, ◌≤◌};
ghost use Rattle.sample_rates.specs.Rates.{second_us, line, no_rate, line1992, rates1985, rates1992, line_in, interval_us};

// The microseconds of a second.
pub const SECOND_US: u64 = 1_000_000;

// A line of the table: samples a second in each channel, records a second, samples a channel in a record, the last word of
// samples, and the record's length in words with and without the operator offsets (software OP-B and OP-A).
#[derive(Clone, Copy)]
pub struct SampleRate {
    pub hz: u64,
    pub records: u64,
    pub samples: u64,
    pub last_word: u64,
    pub words_b: u64,
    pub words_a: u64,
}

fn line(
    hz: u64,
    records: u64,
    samples: u64,
    last_word: u64,
    words_b: u64,
    words_a: u64,
) -> SampleRate
    ensures { result ≡ line hz records samples last_word words_b words_a }
{
    SampleRate {
        hz,
        records,
        samples,
        last_word,
        words_b,
        words_a,
    }
}

// The line of no rate, in place of an Option: of bytes that name no rate record's `rate_of` and `sample_count`, times'
// `first_sample_time` and the index promise what follows from zeros (`line_in`), so each would make this line again.
pub fn no_rate() -> SampleRate
    ensures { result ≡ no_rate }
{
    line(0, 0, 0, 0, 0, 0)
}

// The line of a rate of 1985, or a line of zeros where no line has it. Each line is an arm: a search through an array of
// lines would first write the whole array to memory, at each call.
#[tactic(auto, unfolding(crate::specs::Rates::line_in))]
pub fn rate_1985(hz: u64) -> SampleRate
    ensures { result ≡ line_in rates1985 hz }
{
    match hz {
        50_000 => line(50_000, 50, 1000, 2040, 2195, 2190),
        20_000 => line(20_000, 20, 1000, 2040, 2195, 2190),
        10_000 => line(10_000, 10, 1000, 2040, 2195, 2190),
        5_000 => line(5_000, 5, 1000, 2040, 2195, 2190),
        2_000 => line(2_000, 2, 1000, 2040, 2195, 2190),
        1_000 => line(1_000, 2, 500, 1040, 1195, 1190),
        200 => line(200, 2, 100, 240, 395, 390),
        _ => no_rate(),
    }
}

// A line of 1992: nothing follows the samples, so a record's one length is the last word of samples too.
fn line_1992(hz: u64, samples: u64, records: u64, words: u64) -> SampleRate
    ensures { result ≡ line1992 hz samples records words }
{
    line(hz, records, samples, words, words, words)
}

// The line of a rate of 1992, or a line of zeros where no line has it.
#[tactic(auto, unfolding(crate::specs::Rates::line_in))]
pub fn rate_1992(hz: u64) -> SampleRate
    ensures { result ≡ line_in rates1992 hz }
{
    match hz {
        50_000 => line_1992(50_000, 1000, 50, 2083),
        31_250 => line_1992(31_250, 625, 50, 1333),
        25_000 => line_1992(25_000, 1000, 25, 2083),
        20_000 => line_1992(20_000, 1000, 20, 2083),
        15_625 => line_1992(15_625, 625, 25, 1333),
        12_500 => line_1992(12_500, 625, 20, 1333),
        10_000 => line_1992(10_000, 1000, 10, 2083),
        6_250 => line_1992(6_250, 625, 10, 1333),
        5_000 => line_1992(5_000, 1000, 5, 2083),
        4_000 => line_1992(4_000, 1000, 4, 2083),
        3_125 => line_1992(3_125, 625, 5, 1333),
        2_500 => line_1992(2_500, 625, 4, 1333),
        2_000 => line_1992(2_000, 1000, 2, 2083),
        1_250 => line_1992(1_250, 625, 2, 1333),
        1_000 => line_1992(1_000, 500, 2, 1083),
        500 => line_1992(500, 250, 2, 583),
        400 => line_1992(400, 200, 2, 483),
        250 => line_1992(250, 125, 2, 333),
        200 => line_1992(200, 100, 2, 283),
        _ => no_rate(),
    }
}

// The microseconds from a sample to the next; 0 for the line of no rate.
pub fn interval_us(rate: SampleRate) -> u64
    ensures { (result ≡ interval_us rate) × (result ≤ second_us) }
{
    if rate.hz == 0 {
        return 0;
    }
    SECOND_US / rate.hz
}
