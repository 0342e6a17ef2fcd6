// The index of seconds: definitions of its cells and calls, the ledger, histories, demand 3 proved over every history
// (proofs/Demand3.antt), and exactly when the consistency test says yes, on any cells (proofs/Consistent.antt). FORMAT, "The
// index of seconds", "The ledger". No function here but what is derived; the functions of the index cite these definitions and
// share these numbers.
#![tactic(auto)]

// The cells of a row, and of a second.
pub const WIDTH: usize = 24;

// Of them those before the channels', and then those of each channel.
pub const HEAD_WIDTH: usize = 4;

pub const CHANNEL_WIDTH: usize = 5;

// The places of a channel's cells among them.
pub const LEAST: usize = 0;

pub const SUM: usize = 1;

pub const SQUARES: usize = 2;

pub const CLIPPED: usize = 3;

pub const GREATEST: usize = 4;

// A cell is less than this.
pub const CELL_LIMIT: u64 = 4_294_967_296;

// What makes a sample, and 0 less a sample, a number from 0 up; and a sample a number from 1 up.
pub const SAMPLE_OFFSET: u64 = 128;

pub const GREATEST_OFFSET: u64 = 129;

// The milliseconds of a second.
pub const SECOND_MS: u64 = 1000;

// What opening returns. It never changes and goes into every later call: the first second and the number of seconds of the
// window, the highest record number, and the edition and the values of the pattern record that every record put must share.
#[repr(C)]
#[derive(Clone, Copy, PartialEq, Eq)]
pub struct Opening {
    pub first_second: u64,
    pub second_count: u64,
    pub highest_number: u64,
    pub edition: u64,
    pub sample_rate_hz: u64,
    pub tape_number: u64,
    pub year: u64,
    pub day: u64,
    pub spacecraft: u64,
    pub spc: u64,
}
