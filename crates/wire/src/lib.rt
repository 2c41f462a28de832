// Reads that are total, 0 past the end, and writing into a lent room. An offset that no usize holds is read at usize::MAX, where nothing stands either.

#![tactic(auto)]

ghost use Rattle.std.specs.Prelude.{◌≡◌, ◌<◌, get_or};
ghost use Rattle.model.specs.Bytes.{byte_at, word_at, long_at};
ghost use Rattle.wire.specs.Placed.{placed};

pub fn byte(s: &[u8], at: usize) -> u8
    ensures { (result ≡ byte_at s.now at) × (result < 256) }
{
    s.get(at).copied().unwrap_or(0)
}

// The two-byte number at an offset, big-endian.
pub fn word(s: &[u8], at: usize) -> u16
    ensures { (result ≡ word_at s.now at) × (result < 65536) }
{
    u16::from_be_bytes([byte(s, at), byte(s, at.saturating_add(1))])
}

// The four-byte number at an offset, big-endian.
pub fn long(s: &[u8], at: usize) -> u32
    ensures { (result ≡ long_at s.now at) × (result < 4294967296) }
{
    let high = u32::from(word(s, at));
    let low = u32::from(word(s, at.saturating_add(2)));
    65536 * high + low
}

pub fn short(s: &[u16], at: usize) -> u16
    ensures { (result ≡ get_or s.now at 0) × (result < 65536) }
{
    s.get(at).copied().unwrap_or(0)
}

// Writes all of the bytes from place at on; where they do not fit, nothing is changed.
pub fn place(bytes: &[u8], room: &mut [u8], at: usize)
    ensures { room.new ≡ placed bytes.now at room.old }
{
    if at <= room.len() && bytes.len() <= room.len() - at {
        room[at..at + bytes.len()].copy_from_slice(bytes);
    }
}
