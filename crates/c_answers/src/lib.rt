// Answers as C and Rust take them: a struct by value with the refusal's number, and beside a refusal 0 in every other member; of
// a header, the number alone, and its values in the array lent. Crate `odr` exports the calls; what they hand on is made here, by
// a conversion for each answer. They are structs of their own, since an exported function can hand out no generic one. FORMAT,
// "Refusal numbers".
#![tactic(auto)]

ghost use Rattle.std.specs.Prelude.{◌≡◌, [], ◌∷◌, false, pos, get_or};
ghost use Rattle.lists.specs.Fill.{tab};
ghost use Rattle.answers.specs.Answer.{told};
ghost use Rattle.answers.specs.Refused.{answer_in, answer_by};
ghost use Rattle.editions.specs.Answer.{no_rate_line};
ghost use Rattle.record.specs.Record.{header_answer};
ghost use Rattle.samples.specs.Totals.{no_totals};
ghost use Rattle.times.specs.Phases.{both};
ghost use Rattle.reel.specs.Shown.{shown_step};
ghost use Rattle.index_model.specs.Opening.{no_opening};
ghost use Rattle.index_model.specs.Second.{no_second};
ghost use Rattle.index_query.specs.Shown.{shown_second};
ghost use Rattle.index_means.specs.Means.{no_means_each};
ghost use Rattle.c_answers.specs.Out.{value_or, longest_segment, rate_line_in, second_in, PhasesTold, SegmentTold, StepTold, BadBlockTold};

use answers::Refusal;
use editions::RateLine;
use header::FIELD_COUNT;
use index_means::{Means, NO_MEANS};
use index_model::Opening;
use index_query::Second;
use reel::Span;
use times::PhasePair;
use totals::{NO_TOTAL, Total};

// What a step answers at the end of a reel: no refusal has this number.
pub const FINISHED: u8 = 255;

// Bytes of the longest monitor segment.
pub const LONGEST_SEGMENT: usize = 2 * segments::MOST_WORDS;

// The refusal's number and the value; 0, and what is empty, the other way round.
fn told<T: Copy>(answer: Result<T, Refusal>, empty: T) -> (u8, T)
    ensures { told result.0 result.1 ≡ answer_in empty answer }
{
    match answer {
        Ok(value) => (0, value),
        Err(refusal) => (u8::from(refusal), empty),
    }
}

#[repr(C)]
#[derive(Clone, Copy)]
pub struct RateLineOut {
    pub refusal: u8,
    pub samples: u64,
    pub records: u64,
    pub interval_us: u64,
}

const NO_RATE_LINE: RateLine = RateLine {
    samples: 0,
    records: 0,
    interval_us: 0,
};

impl From<Result<RateLine, Refusal>> for RateLineOut {
    ghost from_gives = { λ answer out. rate_line_in out ≡ answer_in no_rate_line answer };

    fn from(answer: Result<RateLine, Refusal>) -> RateLineOut {
        let (refusal, line) = told(answer, NO_RATE_LINE);
        RateLineOut {
            refusal,
            samples: line.samples,
            records: line.records,
            interval_us: line.interval_us,
        }
    }
}

#[repr(C)]
#[derive(Clone, Copy)]
pub struct FrequencyRateOut {
    pub refusal: u8,
    pub units: i64,
}

impl From<Result<i64, Refusal>> for FrequencyRateOut {
    ghost from_gives = { λ answer out. told out.refusal out.units ≡ answer_in (pos 0) answer };

    fn from(answer: Result<i64, Refusal>) -> FrequencyRateOut {
        let (refusal, units) = told(answer, 0);
        FrequencyRateOut { refusal, units }
    }
}

#[repr(C)]
#[derive(Clone, Copy)]
pub struct TimeOut {
    pub refusal: u8,
    pub microseconds: i64,
}

impl From<Result<i64, Refusal>> for TimeOut {
    ghost from_gives = { λ answer out. told out.refusal out.microseconds ≡ answer_in (pos 0) answer };

    fn from(answer: Result<i64, Refusal>) -> TimeOut {
        let (refusal, microseconds) = told(answer, 0);
        TimeOut {
            refusal,
            microseconds,
        }
    }
}

#[repr(C)]
#[derive(Clone, Copy)]
pub struct PhasesOut {
    pub refusal: u8,
    pub first: f64,
    pub second: f64,
}

const NO_PHASES: PhasePair = PhasePair {
    first: 0.0,
    second: 0.0,
};

impl From<Result<PhasePair, Refusal>> for PhasesOut {
    ghost from_gives = { λ answer out. PhasesTold out (answer_by both [] answer) };

    fn from(answer: Result<PhasePair, Refusal>) -> PhasesOut {
        let (refusal, phases) = told(answer, NO_PHASES);
        PhasesOut {
            refusal,
            first: phases.first,
            second: phases.second,
        }
    }
}

// The totals of channels 1 to 4.
#[repr(C)]
#[derive(Clone, Copy)]
pub struct TotalsOut {
    pub refusal: u8,
    pub channels: [Total; 4],
}

impl From<Result<[Total; 4], Refusal>> for TotalsOut {
    ghost from_gives = { λ answer out. told out.refusal out.channels ≡ answer_in no_totals answer };

    fn from(answer: Result<[Total; 4], Refusal>) -> TotalsOut {
        let (refusal, channels) = told(answer, [NO_TOTAL; 4]);
        TotalsOut { refusal, channels }
    }
}

// The bytes of a segment, and 0 after them. Each place by itself: of a copy the compiler makes a call of memcpy, which the archive for
// C would need from outside.
pub fn segment_bytes(segment: &[u8]) -> [u8; LONGEST_SEGMENT]
    ensures { result ≡ tab (λ k. get_or segment.now k 0) 0 longest_segment }
{
    let mut bytes = [0u8; LONGEST_SEGMENT];
    for k in 0..LONGEST_SEGMENT {
        bytes[k] = segment.get(k).copied().unwrap_or(0);
    }
    bytes
}

// The segment's bytes are the first `length` ones; 0 follows.
#[repr(C)]
#[derive(Clone, Copy)]
pub struct SegmentOut {
    pub refusal: u8,
    pub length: usize,
    pub bytes: [u8; LONGEST_SEGMENT],
}

impl<'a> From<Result<&'a [u8], Refusal>> for SegmentOut {
    ghost from_gives = { λ answer out. SegmentTold out (answer_by (λ s. s.now) [] answer) };

    fn from(answer: Result<&'a [u8], Refusal>) -> SegmentOut {
        match answer {
            Ok(segment) => SegmentOut {
                refusal: 0,
                length: segment.len(),
                bytes: segment_bytes(segment),
            },
            Err(refusal) => SegmentOut {
                refusal: u8::from(refusal),
                length: 0,
                bytes: [0; LONGEST_SEGMENT],
            },
        }
    }
}

// A record from `start` up to `end`; or the end of the reel, 255; or a refusal.
#[repr(C)]
#[derive(Clone, Copy)]
pub struct StepOut {
    pub answer: u8,
    pub start: usize,
    pub end: usize,
}

impl From<Result<Option<Span>, Refusal>> for StepOut {
    ghost from_gives = { λ answer out. StepTold out (shown_step answer) };

    fn from(answer: Result<Option<Span>, Refusal>) -> StepOut {
        match answer {
            Ok(Some(record)) => StepOut {
                answer: 0,
                start: record.start,
                end: record.end,
            },
            Ok(None) => StepOut {
                answer: FINISHED,
                start: 0,
                end: 0,
            },
            Err(refusal) => StepOut {
                answer: u8::from(refusal),
                start: 0,
                end: 0,
            },
        }
    }
}

// The length of a text that was written, or how many bytes export or import wrote.
#[repr(C)]
#[derive(Clone, Copy)]
pub struct LengthOut {
    pub refusal: u8,
    pub length: usize,
}

impl From<Result<usize, Refusal>> for LengthOut {
    ghost from_gives = { λ answer out. told out.refusal out.length ≡ answer_in 0 answer };

    fn from(answer: Result<usize, Refusal>) -> LengthOut {
        let (refusal, length) = told(answer, 0);
        LengthOut { refusal, length }
    }
}

// A block whose check is bad; 0 beside none.
#[repr(C)]
#[derive(Clone, Copy)]
pub struct BadBlockOut {
    pub found: bool,
    pub index: usize,
}

impl From<Option<usize>> for BadBlockOut {
    ghost from_gives = { λ answer out. BadBlockTold out answer };

    fn from(answer: Option<usize>) -> BadBlockOut {
        BadBlockOut {
            found: answer.is_some(),
            index: answer.unwrap_or(0),
        }
    }
}

#[repr(C)]
#[derive(Clone, Copy)]
pub struct OpenOut {
    pub refusal: u8,
    pub opening: Opening,
}

// Beside a refusal: 0 throughout.
const NO_OPENING: Opening = Opening {
    first_second: 0,
    second_count: 0,
    highest_number: 0,
    edition: 0,
    sample_rate_hz: 0,
    tape_number: 0,
    year: 0,
    day: 0,
    spacecraft: 0,
    spc: 0,
};

impl From<Result<Opening, Refusal>> for OpenOut {
    ghost from_gives = { λ answer out. told out.refusal out.opening ≡ answer_in no_opening answer };

    fn from(answer: Result<Opening, Refusal>) -> OpenOut {
        let (refusal, opening) = told(answer, NO_OPENING);
        OpenOut { refusal, opening }
    }
}

// A second's totals and verdict.
#[repr(C)]
#[derive(Clone, Copy)]
pub struct SecondOut {
    pub refusal: u8,
    pub records: u32,
    pub origins: u32,
    pub errors: u32,
    pub channels: [Total; 4],
    pub kept: bool,
}

const NO_SECOND: Second = Second {
    records: 0,
    origins: 0,
    errors: 0,
    channels: [NO_TOTAL; 4],
    kept: false,
};

impl From<Result<Second, Refusal>> for SecondOut {
    ghost from_gives = { λ answer out. second_in out ≡ answer_by shown_second no_second answer };

    fn from(answer: Result<Second, Refusal>) -> SecondOut {
        let (refusal, second) = told(answer, NO_SECOND);
        let channels = second.channels;
        SecondOut {
            refusal,
            records: second.records,
            origins: second.origins,
            errors: second.errors,
            channels,
            kept: second.kept,
        }
    }
}

// The means of channels 1 to 4.
#[repr(C)]
#[derive(Clone, Copy)]
pub struct MeansOut {
    pub refusal: u8,
    pub channels: [Means; 4],
}

impl From<Result<[Means; 4], Refusal>> for MeansOut {
    ghost from_gives = { λ answer out. told out.refusal out.channels ≡ answer_in no_means_each answer };

    fn from(answer: Result<[Means; 4], Refusal>) -> MeansOut {
        let (refusal, channels) = told(answer, [NO_MEANS; 4]);
        MeansOut { refusal, channels }
    }
}

#[repr(C)]
#[derive(Clone, Copy)]
pub struct ConsistencyOut {
    pub refusal: u8,
    pub consistent: bool,
}

impl From<Result<bool, Refusal>> for ConsistencyOut {
    ghost from_gives = { λ answer out. told out.refusal out.consistent ≡ answer_in false answer };

    fn from(answer: Result<bool, Refusal>) -> ConsistencyOut {
        let (refusal, consistent) = told(answer, false);
        ConsistencyOut {
            refusal,
            consistent,
        }
    }
}

// The values of a record's header go into the array lent, and only where the record is accepted. They go there as they are read:
// an answer by value would copy them.
#[tactic(auto, unfolding(record::specs::Record::header_answer))]
pub fn header_into(edition: u64, bytes: &[u8], values: &mut [u64; FIELD_COUNT]) -> u8
    ensures value { result ≡ (header_answer edition bytes.now).number }
    ensures values_after { values.new ≡ value_or values.old (header_answer edition bytes.now) }
{
    let judged = record::judge(edition, bytes);
    if judged.is_ok() {
        header::read_into(edition, bytes, values);
    }
    answers::refusal_number(judged)
}
