// A phase in cycles from its 48-bit count, which has 8 bits of fraction or 20. FORMAT, "Times and phases".
#![tactic(auto)]

ghost use Rattle.std.specs.Prelude.{ℕ, ◌≡◌, ◌%◌, ◌^◌, max, pos};
ghost use Rattle.floats.specs.Whole.{quotient_of};
ghost use Rattle.phase.specs.Phase.{InCycles};

// 2^48: a count has 48 bits.
const COUNTS: u64 = 281_474_976_710_656;

// The cycles of a count, or of a wider number's lowest 48 bits, by how many counts are a cycle: 256 where 8 bits are its fraction,
// 1,048,576 where 20 are; none counts as one. Where they are a power of two nothing is lost: a float holds 53 bits.
pub fn cycles<const PER_CYCLE: u32>(count: u64) -> f64
    ensures value { result ≡ quotient_of (pos (count % 2 ^ 48)) (max PER_CYCLE 1) }
    ensures exactly { (bits : ℕ) → PER_CYCLE ≡ 2 ^ bits → InCycles bits (count % 2 ^ 48) result }
{
    ((count % COUNTS) as f64) / (PER_CYCLE.max(1) as f64)
}
