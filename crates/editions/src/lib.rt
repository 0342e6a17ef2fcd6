// What an edition says beside its rows, by its number. FORMAT, "Editions", "Rates". Every function takes any number; 25 is for
// those that no edition has, and what the others say of such a number does not matter.
#![tactic(auto)]

ghost use Rattle.std.specs.Prelude.{◌≡◌, ◌≤◌};
ghost use Rattle.answers.specs.Refused.{answer_in};
ghost use Rattle.header.specs.Edition.{is_unknown, header_bytes, other_resolution, no_segments};
ghost use Rattle.editions.specs.Rates.{sample_rate_of};
ghost use Rattle.editions.specs.Answer.{rate_line, no_rate_line, rate_line_answer};

use answers::Refusal;
use header::{EDITION_1985, EDITION_1992};
use sample_rates::SampleRate;

// Whether no edition has the number.
pub fn is_unknown(edition: u64) -> bool
    ensures { result ≡ is_unknown edition }
{
    (edition != EDITION_1985) & (edition != EDITION_1992)
}

// The bytes of the header; the samples follow.
pub fn header_bytes(edition: u64) -> usize
    ensures { (result ≡ header_bytes edition) × (result ≤ 166) }
{
    if edition == EDITION_1992 {
        return 166;
    }
    80
}

// What the conversion bit holds where samples have not 8 bits.
pub fn other_resolution(edition: u64) -> u64
    ensures { result ≡ other_resolution edition }
{
    if edition == EDITION_1992 {
        return 0;
    }
    1
}

// Whether the edition has no monitor segments.
pub fn no_segments(edition: u64) -> bool
    ensures { result ≡ no_segments edition }
{
    edition == EDITION_1992
}

// The line of a rate, or a line of zeros where none of the edition's lines has it.
pub fn sample_rate_of(edition: u64, hz: u64) -> SampleRate
    ensures { result ≡ sample_rate_of edition hz }
{
    if edition == EDITION_1992 {
        return sample_rates::rate_1992(hz);
    }
    sample_rates::rate_1985(hz)
}

// What follows from a rate: the samples a channel has in a record, the records of a second, and the microseconds from a sample to
// the next.
#[derive(Clone, Copy)]
pub struct RateLine {
    pub samples: u64,
    pub records: u64,
    pub interval_us: u64,
}

impl From<SampleRate> for RateLine {
    ghost from_gives = { λ rate line. line ≡ rate_line rate };

    fn from(rate: SampleRate) -> RateLine {
        let interval_us = sample_rates::interval_us(rate);
        RateLine {
            samples: rate.samples,
            records: rate.records,
            interval_us,
        }
    }
}

// What follows from a rate of the edition, for a caller who has only its number: 25, then 5.
#[tactic(auto, unfolding(crate::specs::Answer::rate_line_answer))]
pub fn rate_line(edition: u64, hz: u64) -> Result<RateLine, Refusal>
    ensures { answer_in no_rate_line result ≡ rate_line_answer edition hz }
{
    if is_unknown(edition) {
        return Err(Refusal::NoSuchEdition);
    }
    let rate = sample_rate_of(edition, hz);
    if rate.hz == 0 {
        return Err(Refusal::NoSuchRate);
    }
    Ok(RateLine::from(rate))
}
