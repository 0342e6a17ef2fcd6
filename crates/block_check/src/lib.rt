// The check of a block of 512 bytes, and the places and sizes of a block's parts. FORMAT, "Blocks". A byte past the end counts as
// 0, so that every function takes any bytes.
#![tactic(auto)]

ghost use Rattle.std.specs.Prelude.{◌≡◌, ◌+◌, ◌*◌, ◌≤◌, ◌<◌, get_or};
ghost use Rattle.block_check.specs.Check.{modulus, covered, check_of, word_at, passes};

// Where a block has its record number, its index and its payload length, two bytes each, and where its payload starts.
pub const NUMBER_AT: usize = 0;

pub const INDEX_AT: usize = 2;

pub const LENGTH_AT: usize = 4;

pub const PAYLOAD_AT: usize = 6;

// The bytes of a block, of its payload, and those that the check covers, behind which it stands.
pub const BLOCK_BYTES: usize = 512;

pub const PAYLOAD_BYTES: usize = 504;

pub const COVERED: usize = 510;

const MODULUS: u32 = 65_521;

// Byte i, or 0 past the end: `get`, with the bound that callers need promised. One line, as in `bits`, whose numbers are of 64 bits;
// a shared one would need a conversion and its bound at each use.
fn byte_at(bytes: &[u8], i: usize) -> usize
    ensures { (result ≡ get_or bytes.now i 0) × (result < 256) }
{
    usize::from(bytes.get(i).copied().unwrap_or(0))
}

// The number that the two bytes from a place on make, high byte first. The place is tested first, so that the next one is a place.
pub fn word_at(bytes: &[u8], place: usize) -> usize
    ensures { (result ≡ word_at bytes.now place) × (result < 65536) }
{
    if place >= bytes.len() {
        return 0;
    }
    let high = byte_at(bytes, place);
    let low = byte_at(bytes, place + 1);
    high * 256 + low
}

// A byte times its place.
fn weight(byte: u8, place: usize) -> u32
    requires { place ≤ covered }
    ensures { (result ≡ byte * place) × (result ≤ 255 * covered) }
{
    u32::from(byte) * place as u32
}

// The check of a block.
pub fn check(block: &[u8]) -> usize
    ensures { (result ≡ check_of block.now) × (result < modulus) }
{
    let bytes = &block[..COVERED.min(block.len())];
    let mut sum = 0;
    for (k, byte) in bytes.iter().enumerate() {
        sum += weight(*byte, k + 1);
    }
    (sum % MODULUS) as usize
}

// Whether a block has its check.
pub fn passes(block: &[u8]) -> bool
    ensures { result ≡ passes block.now }
{
    word_at(block, COVERED) == check(block)
}
