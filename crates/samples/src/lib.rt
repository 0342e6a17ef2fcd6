// The samples of a record, out to four channel buffers and back in, and their totals. FORMAT, "Samples", "Refusal numbers". Every
// function here takes any bytes. The four buffers stay four parameters, as C lends them.
#![tactic(auto)]

ghost use Rattle.std.specs.Prelude.{◌≡◌, [], ◌∷◌, ltb, length};
ghost use Rattle.std.specs.List.{list_any};
ghost use Rattle.answers.specs.Refusal.{◌when◌, first, ◌then◌};
ghost use Rattle.answers.specs.Refused.{refusal_in, answer_in};
ghost use Rattle.record.specs.Record.{record_refusal};
ghost use Rattle.samples.specs.InOut.{samples_refusal, channel_after, record_after};
ghost use Rattle.samples.specs.Totals.{no_totals, totals_answer};

use answers::Refusal;
use totals::Total;

// Whether one of these lengths is less than a count.
fn any_fewer(lengths: [usize; 4], count: usize) -> bool
    ensures { result ≡ list_any (λ n. ltb n count) lengths }
{
    lengths.iter().any(|length| *length < count)
}

// Whether a record of `count` samples a channel and channel buffers of these lengths are accepted, or the refusal, 25, 1 to 11 or
// 12.
fn judge(edition: u64, bytes: &[u8], count: usize, lengths: [usize; 4]) -> Result<(), Refusal>
    ensures { refusal_in result ≡ record_refusal edition bytes.now then first (12 when list_any (λ n. ltb n count) lengths ∷ []) }
{
    record::judge(edition, bytes)?; // first, since 12 stands behind 1 to 11
    if any_fewer(lengths, count) {
        return Err(Refusal::NoSuchSample);
    }
    Ok(())
}

// The samples of a record, out to the buffers of the four channels; places past them keep their contents. The stretch tells how
// many there are: of an accepted record it is whole, and any other is refused whatever it tells.
#[tactic(auto, using(crate::proofs::Judged::judged_by_stretch), unfolding(crate::specs::InOut::channel_after))]
pub fn read_samples(
    edition: u64,
    bytes: &[u8],
    one: &mut [i8],
    two: &mut [i8],
    three: &mut [i8],
    four: &mut [i8],
) -> Result<(), Refusal>
    ensures value { refusal_in result ≡ samples_refusal edition bytes.now (length one.old) (length two.old) (length three.old) (length four.old) }
    ensures one_after { one.new ≡ channel_after (refusal_in result) edition bytes.now 1 one.old }
    ensures two_after { two.new ≡ channel_after (refusal_in result) edition bytes.now 2 two.old }
    ensures three_after { three.new ≡ channel_after (refusal_in result) edition bytes.now 3 three.old }
    ensures four_after { four.new ≡ channel_after (refusal_in result) edition bytes.now 4 four.old }
{
    let stretch = record::sample_stretch(edition, bytes);
    let lengths = [one.len(), two.len(), three.len(), four.len()];
    judge(edition, bytes, stretch.len() / 4, lengths)?;
    channels::demultiplex(stretch, 1, one);
    channels::demultiplex(stretch, 2, two);
    channels::demultiplex(stretch, 3, three);
    channels::demultiplex(stretch, 4, four);
    Ok(())
}

// The first samples of the four channels, into the sample stretch of a record; its header and all words past it stay.
#[tactic(auto, unfolding(crate::specs::InOut::samples_refusal, crate::specs::InOut::record_after))]
pub fn write_samples(
    edition: u64,
    bytes: &mut [u8],
    one: &[i8],
    two: &[i8],
    three: &[i8],
    four: &[i8],
) -> Result<(), Refusal>
    ensures value { refusal_in result ≡ samples_refusal edition bytes.old (length one.now) (length two.now) (length three.now) (length four.now) }
    ensures bytes_after { bytes.new ≡ record_after (refusal_in result) edition bytes.old one.now two.now three.now four.now }
{
    let count = record::sample_count(edition, bytes);
    let lengths = [one.len(), two.len(), three.len(), four.len()];
    judge(edition, bytes, count, lengths)?;
    let start = editions::header_bytes(edition);
    let end = start + 4 * count;
    channels::multiplex(&mut bytes[start..end], one, two, three, four);
    Ok(())
}

// The totals of channels 1 to 4 over all samples of a record.
#[tactic(auto, unfolding(crate::specs::Totals::totals_answer))]
pub fn record_totals(edition: u64, bytes: &[u8]) -> Result<[Total; 4], Refusal>
    ensures { answer_in no_totals result ≡ totals_answer edition bytes.now }
{
    record::judge(edition, bytes)?;
    Ok(totals::stretch_totals(record::sample_stretch(edition, bytes)))
}
