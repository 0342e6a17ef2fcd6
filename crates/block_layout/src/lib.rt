// A record's blocks as a whole: how many there are. FORMAT, "Blocks".
#![tactic(auto)]

ghost use Rattle.std.specs.Prelude.{◌≡◌};
ghost use Rattle.block_layout.specs.Layout.{block_count};

use block_check::PAYLOAD_BYTES;

// The blocks of a record of this many bytes: as many as are full, and one for what is left.
pub fn block_count(bytes: usize) -> usize
    ensures { result ≡ block_count bytes }
{
    bytes.div_ceil(PAYLOAD_BYTES)
}
