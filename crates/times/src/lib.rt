// When a sample was taken, and the phases of a record. FORMAT, "Times and phases". Every public function takes any bytes.
#![tactic(auto)]

ghost use Rattle.std.specs.Prelude.{◌≡◌, ◌%◌, ◌^◌, ◌<◌, [], pos};
ghost use Rattle.answers.specs.Refused.{answer_in, answer_by};
ghost use Rattle.header.specs.Edition.{fraction_bits};
ghost use Rattle.sample_rates.specs.Rates.{most_samples};
ghost use Rattle.phase.specs.Phase.{InCycles};
ghost use Rattle.times.specs.SampleTime.{from_tag, time_of, sample_time, time_answer};
ghost use Rattle.times.specs.Phases.{both, phase_answer, Exactly};

use answers::Refusal;
use header::EDITION_1992;
use sample_rates::SECOND_US;

// Microseconds in a millisecond.
const MS_US: u64 = 1000;

// The sample that the tag times, counted from 0: the third of each channel.
const TAGGED_SAMPLE: u64 = 2;

// The two phases of a record in cycles.
#[derive(Clone, Copy)]
pub struct PhasePair {
    pub first: f64,
    pub second: f64,
}

// The microseconds from the tag to sample k, 0 where the header names no rate. They are rounded down once, not with each sample;
// before the tag that is the way back rounded up.
fn from_tag(hz: u64, k: u64) -> i64
    requires { k < most_samples }
    ensures { result ≡ from_tag hz k }
{
    if hz == 0 {
        return 0;
    }
    if k < TAGGED_SAMPLE {
        let before = (TAGGED_SAMPLE - k) * SECOND_US;
        return 0 - (((before - 1) / hz + 1) as i64);
    }
    ((k - TAGGED_SAMPLE) * SECOND_US / hz) as i64
}

// The time of sample k by the record's tag and its samples a second.
fn time_of(tag: u64, hz: u64, k: u64) -> i64
    requires { (tag < 2 ^ 27) × (k < most_samples) }
    ensures { result ≡ time_of tag hz k }
{
    (MS_US * tag) as i64 + from_tag(hz, k)
}

// The time of the first sample, of any bytes: the microseconds from 0 h of the record's day, below zero on the day before.
#[tactic(auto, using(crate::proofs::Timed::tag_small), unfolding(crate::specs::SampleTime::sample_time))]
pub fn first_sample_time(edition: u64, bytes: &[u8]) -> i64
    ensures { result ≡ sample_time edition bytes.now 0 }
{
    let hz = record::rate_of(edition, bytes).hz;
    time_of(fields::read_field(bytes, header::TIME_TAG), hz, 0)
}

// The time of sample k of a record, or the refusal.
#[tactic(auto, using(crate::proofs::Timed::tag_small, record::proofs::Count::count_small), unfolding(crate::specs::SampleTime::time_answer, crate::specs::SampleTime::time_refusal, crate::specs::SampleTime::sample_time))]
pub fn sample_time(edition: u64, bytes: &[u8], k: u64) -> Result<i64, Refusal>
    ensures { answer_in (pos 0) result ≡ time_answer edition bytes.now k }
{
    let rate = record::rate_of(edition, bytes);
    record::judge(edition, bytes)?;
    if k >= rate.samples {
        return Err(Refusal::NoSuchSample);
    }
    let tag = fields::read_field(bytes, header::TIME_TAG);
    Ok(time_of(tag, rate.hz, k))
}

// The cycles of a count, by how many of the edition's counts are a cycle.
fn cycles(edition: u64, count: u64) -> f64
    ensures { InCycles (fraction_bits edition) (count % 2 ^ 48) result }
{
    if edition == EDITION_1992 {
        return phase::cycles::<1_048_576>(count);
    }
    phase::cycles::<256>(count)
}

// The two phases of a record, or the refusal.
#[tactic(auto, unfolding(crate::specs::Phases::phase_answer))]
pub fn phases(edition: u64, bytes: &[u8]) -> Result<PhasePair, Refusal>
    ensures result_value { answer_by both [] result ≡ phase_answer edition bytes.now }
    ensures exactly { Exactly edition bytes.now result }
{
    record::judge(edition, bytes)?;
    Ok(PhasePair {
        first: cycles(edition, fields::read_field(bytes, header::PHASE_1)),
        second: cycles(edition, fields::read_field(bytes, header::PHASE_2)),
    })
}
