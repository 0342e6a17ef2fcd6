// A record out to blocks of 512 bytes, all of them or one alone. FORMAT, "Blocks". A refusal changes nothing in what is lent.
#![tactic(auto)]

ghost use Rattle.std.specs.Prelude.{◌≡◌, ◌++◌, ◌*◌, ◌≤◌, ◌<◌, length, get_or, drop};
ghost use Rattle.answers.specs.Refused.{answer_in};
ghost use Rattle.record.specs.Record.{longest_record};
ghost use Rattle.block_check.specs.Check.{block_bytes, payload_bytes};
ghost use Rattle.block_layout.specs.Layout.{word_bytes, payload_by, block_count, block_of, blocks, exported_of};
ghost use Rattle.block_layout.specs.Carried.{block_at};
ghost use Rattle.block_layout.specs.Refusals.{export_refusal, block_refusal};
ghost use Rattle.block_layout.specs.Given.{length_answer, buffer_after};

use answers::Refusal;
use block_check::{
    BLOCK_BYTES, COVERED, INDEX_AT, LENGTH_AT, NUMBER_AT, PAYLOAD_AT, PAYLOAD_BYTES,
};

// The two bytes of a number, high byte first: `to_be_bytes`, with the list that callers need promised.
fn store_word(pair: &mut [u8], x: usize)
    requires { (length pair.old ≡ 2) × (x < 65536) }
    ensures { pair.new ≡ word_bytes x }
{
    pair.copy_from_slice(&(x as u16).to_be_bytes());
}

// The payload of a block: what is left of the record, as far as it goes in, and zeros after its last byte.
fn store_payload(part: &mut [u8], rest: &[u8])
    requires { length part.old ≡ payload_bytes }
    ensures { part.new ≡ payload_by (λ k. get_or rest.now k 0) }
{
    let used = PAYLOAD_BYTES.min(rest.len());
    lists::copy(&mut part[..used], rest);
    part[used..].fill(0);
}

// Block i of a record: the words and the payload, then the check over them.
fn store_block(block: &mut [u8], source: &[u8], i: usize)
    requires { (length block.old ≡ block_bytes) × (payload_bytes * i < length source.now) × (length source.now ≤ longest_record) }
    ensures { block.new ≡ block_of source.now i }
{
    let from = PAYLOAD_BYTES * i;
    let bytes = PAYLOAD_BYTES.min(source.len() - from);
    let number = block_check::word_at(source, 2);
    store_word(&mut block[NUMBER_AT..INDEX_AT], number);
    store_word(&mut block[INDEX_AT..LENGTH_AT], i);
    store_word(&mut block[LENGTH_AT..PAYLOAD_AT], bytes);
    store_payload(&mut block[PAYLOAD_AT..COVERED], &source[from..]);
    let check = block_check::check(block);
    store_word(&mut block[COVERED..BLOCK_BYTES], check);
}

// All n blocks of a record, into the front of a lent buffer.
fn store_blocks(out: &mut [u8], source: &[u8], n: usize)
    requires { (n ≡ block_count (length source.now)) × (block_bytes * n ≤ length out.old) × (length source.now ≤ longest_record) }
    ensures { out.new ≡ blocks source.now n ++ drop (block_bytes * n) out.old }
{
    // Not by chunks_exact_mut: a proof then knows none of the bytes written.
    for i in 0..n {
        let start = BLOCK_BYTES * i;
        store_block(&mut out[start..start + BLOCK_BYTES], source, i);
    }
}

// The blocks of a record of the edition, at the front of a lent buffer: 25, 1 to 11, or 21 where the buffer cannot hold them.
#[tactic(auto, unfolding(block_layout::specs::Refusals::export_refusal))]
pub fn export_record(edition: u64, source: &[u8], out: &mut [u8]) -> Result<usize, Refusal>
    ensures result_value { answer_in 0 result ≡ length_answer (export_refusal edition source.now (length out.old)) (exported_of source.now) }
    ensures out_after { out.new ≡ buffer_after (export_refusal edition source.now (length out.old)) (exported_of source.now) out.old }
{
    record::judge(edition, source)?;
    let n = block_layout::block_count(source.len());
    if out.len() < BLOCK_BYTES * n {
        return Err(Refusal::TextTooLong);
    }
    store_blocks(out, source, n);
    Ok(BLOCK_BYTES * n)
}

// One block of them alone, to be sent again: 25, 1 to 11, 28 where the record has no block of that index, 21.
#[tactic(auto, unfolding(block_layout::specs::Refusals::block_refusal))]
pub fn export_block(
    edition: u64,
    source: &[u8],
    index: usize,
    out: &mut [u8],
) -> Result<usize, Refusal>
    ensures result_value { answer_in 0 result ≡ length_answer (block_refusal edition source.now index (length out.old)) (block_at (exported_of source.now) index) }
    ensures out_after { out.new ≡ buffer_after (block_refusal edition source.now index (length out.old)) (block_at (exported_of source.now) index) out.old }
{
    record::judge(edition, source)?;
    if index >= block_layout::block_count(source.len()) {
        return Err(Refusal::WrongBlocks);
    }
    if out.len() < BLOCK_BYTES {
        return Err(Refusal::TextTooLong);
    }
    store_block(&mut out[..BLOCK_BYTES], source, index);
    Ok(BLOCK_BYTES)
}
