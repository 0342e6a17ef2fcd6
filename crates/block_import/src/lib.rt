// Blocks of 512 bytes in to the record that they carry, and the first of them whose check is bad. FORMAT, "Blocks". A refusal
// changes nothing in what is lent.
#![tactic(auto)]

ghost use Rattle.std.specs.Prelude.{◌≡◌, ℕ, get_or, ◌++◌, ◌+◌, ◌*◌, ◌/◌, ◌≤◌, ◌<◌, T, IfOk, length, drop};
ghost use Rattle.answers.specs.Refused.{refusal_in, answer_in};
ghost use Rattle.record.specs.Record.{record_refusal};
ghost use Rattle.block_check.specs.Check.{block_bytes};
ghost use Rattle.block_layout.specs.Carried.{carried_of, whole_blocks};
ghost use Rattle.block_layout.specs.Refusals.{checks_pass, full_or_last, length_right, padded, block_right, each_right, blocks_right, blocks_refusal, import_refusal};
ghost use Rattle.block_layout.specs.Given.{length_answer, buffer_after};
ghost use Rattle.block_import.specs.Bad.{bad_block};

use answers::Refusal;
use block_check::{
    BLOCK_BYTES, COVERED, INDEX_AT, LENGTH_AT, NUMBER_AT, PAYLOAD_AT, PAYLOAD_BYTES,
};

// ## 27

// The index of the first whole block whose check is bad, for a caller who asks again for that block alone.
pub fn bad_block(blocks: &[u8]) -> Option<usize>
    ensures { result ≡ bad_block blocks.now }
{
    blocks
        .chunks_exact(BLOCK_BYTES)
        .position(|block| !block_check::passes(block))
}

// Whether each whole block has its check.
fn checks_pass(blocks: &[u8]) -> bool
    ensures { result ≡ checks_pass blocks.now }
{
    bad_block(blocks).is_none()
}

// ## 28

// That i is one of n stays a `requires` of three functions: the range of `each_right` says it, and a type would be made there alone.
fn full_or_last(n: usize, i: usize, bytes: usize) -> bool
    requires { i < n }
    ensures { result ≡ full_or_last n i bytes }
{
    if i + 1 < n {
        return bytes == PAYLOAD_BYTES;
    }
    1 <= bytes && bytes <= PAYLOAD_BYTES
}

// Whether the length of block i of n is right.
fn length_right(n: usize, i: usize, bytes: usize) -> bool
    requires { i < n }
    ensures { result ≡ length_right n i bytes }
{
    full_or_last(n, i, bytes) && (i != 0 || 4 <= bytes)
}

// Whether a block has zeros after its last used byte. A block is a part of a slice whose length is asked for, here and in two more
// functions of blocks: a `&[u8; 512]` would be had by a test that cannot fail.
#[tactic(auto, unfolding(block_layout::specs::Refusals::padded))]
fn is_padded(block: &[u8]) -> bool
    requires { length block.now ≡ block_bytes }
    ensures { result ≡ padded block.now }
{
    let bytes = block_check::word_at(block, LENGTH_AT).min(PAYLOAD_BYTES);
    let padding = &block[PAYLOAD_AT + bytes..COVERED];
    let mut padded = true;
    // Not by all, which ends early and so looks at one byte after the other: a short last block took three times as long.
    for byte in padding {
        padded &= *byte == 0;
    }
    padded
}

// Whether block i of n, of the record of that number, is laid out right.
#[tactic(auto, unfolding(block_layout::specs::Refusals::block_right))]
fn block_right(block: &[u8], number: usize, n: usize, i: usize) -> bool
    requires { (length block.now ≡ block_bytes) × (i < n) }
    ensures { result ≡ block_right number n i block.now }
{
    block_check::word_at(block, NUMBER_AT) == number
        && block_check::word_at(block, INDEX_AT) == i
        && length_right(n, i, block_check::word_at(block, LENGTH_AT))
        && is_padded(block)
}

// Whether each of the n blocks is.
fn each_right(blocks: &[u8], number: usize, n: usize) -> bool
    requires { n ≡ whole_blocks blocks.now }
    ensures { result ≡ each_right number blocks.now n }
{
    // By index: with chunks_exact and enumerate, which was tried, what the closure asks of a block stayed open.
    (0..n).all(|i| {
        let start = BLOCK_BYTES * i;
        block_right(&blocks[start..start + BLOCK_BYTES], number, n, i)
    })
}

// Whether there is a block, and no part block, and each block is right.
#[tactic(auto, unfolding(block_layout::specs::Refusals::blocks_right))]
fn blocks_right(blocks: &[u8]) -> bool
    ensures { result ≡ blocks_right blocks.now }
{
    let n = blocks.len() / BLOCK_BYTES;
    let number = block_check::word_at(blocks, PAYLOAD_AT + 2);
    n >= 1 && blocks.len() % BLOCK_BYTES == 0 && each_right(blocks, number, n)
}

// Blocks that have their checks and are laid out right.
#[derive(Clone, Copy)]
struct RightBlocks<'a> {
    bytes: &'a [u8],
    ghost checked: { T (checks_pass bytes.now) },
    ghost laid_out: { T (blocks_right bytes.now) },
    ghost small: { (k : ℕ) → get_or bytes.now k 0 < 256 },
}

// The blocks, where they may be taken in, whatever they carry; or the refusal, 25, 27 or 28.
#[tactic(auto, unfolding(block_layout::specs::Refusals::blocks_refusal))]
fn judge_blocks<'a>(edition: u64, blocks: &'a [u8]) -> Result<RightBlocks<'a>, Refusal>
    ensures refusal { refusal_in result ≡ blocks_refusal edition blocks.now }
    ensures same { IfOk result (λ right. right.bytes.now ≡ blocks.now) }
{
    if editions::is_unknown(edition) {
        return Err(Refusal::NoSuchEdition);
    }
    if !checks_pass(blocks) {
        return Err(Refusal::BadCheck);
    }
    if !blocks_right(blocks) {
        return Err(Refusal::WrongBlocks);
    }
    Ok(RightBlocks { bytes: blocks })
}

// ## The record that blocks carry

// Its length: every block but the last is full.
fn carried_bytes(blocks: RightBlocks<'_>) -> usize
    ensures { result ≡ length (carried_of blocks.entry.bytes.now) }
{
    let last = blocks.bytes.len() / BLOCK_BYTES - 1;
    let start = BLOCK_BYTES * last;
    let end = start + BLOCK_BYTES;
    PAYLOAD_BYTES * last + block_check::word_at(&blocks.bytes[start..end], LENGTH_AT)
}

// Whether it is accepted, or the refusal, 25 or 1 to 11: block 0's payload is its front, and no more of it is looked at but its
// length.
fn judge_record(edition: u64, blocks: RightBlocks<'_>, bytes: usize) -> Result<(), Refusal>
    requires { bytes ≡ length (carried_of blocks.bytes.now) }
    ensures { refusal_in result ≡ record_refusal edition (carried_of blocks.entry.bytes.now) }
{
    let first = &blocks.bytes[..BLOCK_BYTES];
    let end = PAYLOAD_AT + block_check::word_at(first, LENGTH_AT);
    record::judge_front(edition, &first[PAYLOAD_AT..end], bytes)
}

// The payloads of all blocks, one after the other, into the front of a lent buffer.
fn store_payloads(out: &mut [u8], blocks: RightBlocks<'_>)
    requires { length (carried_of blocks.bytes.now) ≤ length out.old }
    ensures { out.new ≡ carried_of blocks.entry.bytes.now ++ drop (length (carried_of blocks.entry.bytes.now)) out.old }
{
    // By index: the place of block i's payload is made of i too.
    for i in 0..blocks.bytes.len() / BLOCK_BYTES {
        let start = BLOCK_BYTES * i;
        let block = &blocks.bytes[start..start + BLOCK_BYTES];
        let bytes = block_check::word_at(block, LENGTH_AT);
        let from = PAYLOAD_BYTES * i;
        lists::copy(
            &mut out[from..from + bytes],
            &block[PAYLOAD_AT..PAYLOAD_AT + bytes],
        );
    }
}

// Blocks in to the record of the edition that they carry, at the front of a lent buffer: 25, 27, 28, then the record's own, 1 to
// 11, then 21 where the buffer cannot hold the record.
#[tactic(auto, unfolding(block_layout::specs::Refusals::import_refusal))]
pub fn import_record(edition: u64, blocks: &[u8], out: &mut [u8]) -> Result<usize, Refusal>
    ensures result_value { answer_in 0 result ≡ length_answer (import_refusal edition blocks.now (length out.old)) (carried_of blocks.now) }
    ensures out_after { out.new ≡ buffer_after (import_refusal edition blocks.now (length out.old)) (carried_of blocks.now) out.old }
{
    let right = judge_blocks(edition, blocks)?;
    let bytes = carried_bytes(right);
    judge_record(edition, right, bytes)?;
    if out.len() < bytes {
        return Err(Refusal::TextTooLong);
    }
    store_payloads(out, right);
    Ok(bytes)
}
