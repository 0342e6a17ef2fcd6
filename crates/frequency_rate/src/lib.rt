// The frequency rate of a record. FORMAT, "Frequency rate". Every public function takes any bytes.
#![tactic(auto)]

ghost use Rattle.std.specs.Prelude.{◌≡◌, ◌<◌, pos};
ghost use Rattle.answers.specs.Refused.{answer_in};
ghost use Rattle.frequency_rate.specs.FrequencyRate.{digits_below, frequency_rate_units, frequency_rate_of, frequency_rate_answer};

use answers::Refusal;

// The rate by its digits, power and sign bit.
#[tactic(auto, using(crate::proofs::Signs::ten_bound, crate::proofs::Signs::size_bound), unfolding(crate::specs::FrequencyRate::frequency_rate_units))]
fn frequency_rate_units(digits: u64, power: u64, sign: u64) -> i64
    requires { (digits < digits_below) × (power < 8) }
    ensures { result ≡ frequency_rate_units digits power sign }
{
    let size = (digits * 10u64.pow(power as u32)) as i64;
    if sign == 1 {
        return size;
    }
    -size
}

// The frequency rate that any bytes hold, in words 26 and 27 whichever the edition: digits that are not decimal count as they
// stand.
#[tactic(auto, using(crate::proofs::Signs::digits_small, crate::proofs::Signs::power_small), unfolding(crate::specs::FrequencyRate::frequency_rate_of))]
pub fn frequency_rate_of(bytes: &[u8]) -> i64
    ensures { result ≡ frequency_rate_of bytes.now }
{
    let digits = fields::read_field(bytes, header::FREQUENCY_RATE_DIGITS);
    let power = fields::read_field(bytes, header::FREQUENCY_RATE_POWER);
    let sign = fields::read_field(bytes, header::FREQUENCY_RATE_SIGN);
    frequency_rate_units(digits, power, sign)
}

// The frequency rate of a record in units of 0.00001 Hz/s, or the refusal.
#[tactic(auto, unfolding(crate::specs::FrequencyRate::frequency_rate_answer))]
pub fn frequency_rate(edition: u64, bytes: &[u8]) -> Result<i64, Refusal>
    ensures { answer_in (pos 0) result ≡ frequency_rate_answer edition bytes.now }
{
    record::judge(edition, bytes)?;
    Ok(frequency_rate_of(bytes))
}
