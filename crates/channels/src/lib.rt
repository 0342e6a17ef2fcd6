// The samples of a stretch, out to channels and back in. FORMAT, "Samples". The stretch is what the caller hands on; nothing here
// knows of records.
#![tactic(auto)]

ghost use Rattle.std.specs.Prelude.{◌≡◌, ◌*◌, ◌≤◌, ◌<◌, pos, length, get_or, set};
ghost use Rattle.lists.specs.Fill.{over};
ghost use Rattle.channels.specs.Sample.{signed_of, byte_of, sample_of, channel_room, interleaved, multiplexed};

// A channel, by its number.
#[derive(Clone, Copy)]
pub struct Channel {
    pub number: usize,
    ghost in_range: { (1 ≤ number) × (number ≤ 4) },
}

// The four channels of a record.
pub const ALL: [Channel; 4] = [
    Channel { number: 1 },
    Channel { number: 2 },
    Channel { number: 3 },
    Channel { number: 4 },
];

// A byte as a two's complement number.
#[tactic(auto, unfolding(crate::specs::Sample::signed_of))]
pub fn signed(byte: u8) -> i8
    ensures { result ≡ signed_of byte }
{
    byte.cast_signed()
}

// The byte of a signed sample.
pub fn unsigned(sample: i8) -> u8
    ensures { result ≡ byte_of sample }
{
    sample.cast_unsigned()
}

// The first `count` samples of one channel, out to a lent buffer; places past them keep their contents.
fn copy_channel(stretch: &[u8], channel: Channel, count: usize, out: &mut [i8])
    requires { (4 * count ≤ length stretch.now) × (count ≤ length out.old) }
    ensures { out.new ≡ over out.old (sample_of stretch.now channel.number) count }
{
    let place = channel.number - 1;
    // Not by iter_mut and zip, which was tried: a proof then knows none of the samples written.
    for k in 0..count {
        out[k] = signed(stretch[4 * k + place]);
    }
}

// The samples of one channel, 1 to 4, out to a lent buffer: as many as the stretch has and the buffer holds.
pub fn demultiplex(stretch: &[u8], channel: usize, out: &mut [i8])
    ensures { out.new ≡ over out.old (sample_of stretch.now channel) (channel_room channel (length stretch.now) (length out.old)) }
{
    if (channel < 1) | (channel > 4) {
        return;
    }
    let count = out.len().min(stretch.len() / 4);
    copy_channel(stretch, Channel { number: channel }, count, out);
}

// Sample k of a channel, into one byte of the stretch.
fn store(stretch: &mut [u8], place: usize, samples: &[i8], k: usize)
    requires { (place < length stretch.old) × (k < length samples.now) }
    ensures { stretch.new ≡ set stretch.old place (byte_of (get_or samples.now k (pos 0))) }
{
    stretch[place] = unsigned(samples[k]);
}

// The first `count` samples of the four channels, into a stretch of exactly their bytes.
fn store_sets(stretch: &mut [u8], count: usize, one: &[i8], two: &[i8], three: &[i8], four: &[i8])
    requires stretch_len { length stretch.old ≡ 4 * count }
    requires count_in_bounds { (count ≤ length one.now) × (count ≤ length two.now) }
    requires count_in_bounds_2 { (count ≤ length three.now) × (count ≤ length four.now) }
    ensures { stretch.new ≡ interleaved count one.now two.now three.now four.now }
{
    // Not by chunks_exact_mut and zip: a proof then knows none of the bytes written.
    for k in 0..count {
        let first = 4 * k;
        store(stretch, first, one, k);
        store(stretch, first + 1, two, k);
        store(stretch, first + 2, three, k);
        store(stretch, first + 3, four, k);
    }
}

// The samples of the four channels, into the stretch: as many as it has room for and every channel holds.
pub fn multiplex(stretch: &mut [u8], one: &[i8], two: &[i8], three: &[i8], four: &[i8])
    ensures { stretch.new ≡ multiplexed stretch.old one.now two.now three.now four.now }
{
    let held = one.len().min(two.len()).min(three.len()).min(four.len());
    let count = held.min(stretch.len() / 4);
    let end = 4 * count;
    store_sets(&mut stretch[..end], count, one, two, three, four);
}
