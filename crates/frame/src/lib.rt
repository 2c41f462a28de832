// What the three kinds of bytes share: length and version in front, and writing into a room what reads as sound.

#![tactic(auto)]

ghost use Rattle.std.specs.Prelude.{◌≡◌};
ghost use Rattle.model.specs.Answers.{Writes};
ghost use Rattle.model.specs.Frame.{is_version, framed, framed_rows, rows_frame};
ghost use Rattle.model.specs.Room.{write};
ghost use Rattle.wire.specs.Placed.{placed};

use editions::{count_place, rows_place, size_at, size_width, version_of};
use model::{Edition, Refusal};
use wire::{byte, place};

// One of the versions from the oldest to the latest.
pub fn is_version(oldest: u8, latest: u8, version: u8) -> bool
    ensures { result ≡ is_version oldest latest version }
{
    (oldest..=latest).contains(&version)
}

// At least so many bytes, a length that matches, a version from the oldest to the latest.
#[tactic(auto, unfolding(model::specs::Frame::framed))]
pub fn framed_answer(
    edition: Edition,
    b: &[u8],
    least: usize,
    oldest: u8,
    latest: u8,
    frame: Refusal,
    version: Refusal,
) -> Result<(), Refusal>
    ensures { result ≡ framed edition b.now least oldest latest frame version }
{
    if b.len() < least {
        return Err(frame);
    }
    let stated = size_at(edition, b, 0) as usize;
    let before = size_width(edition);
    if stated + before != b.len() {
        return Err(frame);
    }
    if !is_version(oldest, latest, byte(b, before)) {
        return Err(version);
    }
    Ok(())
}

// The edition's version, then at most limit rows of one width, and no byte more.
#[tactic(auto, unfolding(model::specs::Frame::framed_rows))]
pub fn rows_framed(
    edition: Edition,
    b: &[u8],
    width: u8,
    limit: u32,
    frame: Refusal,
    version: Refusal,
    count: Refusal,
) -> Result<(), Refusal>
    ensures { result ≡ framed_rows edition b.now width limit frame version count }
{
    let own = version_of(edition);
    framed_answer(edition, b, rows_place(edition), own, own, frame, version)?;
    let at = count_place(edition);
    let rows = size_at(edition, b, at);
    if limit < rows {
        return Err(count);
    }
    if size_at(edition, b, 0) as usize != at + width as usize * rows as usize {
        return Err(count);
    }
    Ok(())
}

// Puts what stands before so many rows of one width at the start of a room, where it fits. Length and count are given by their lowest bytes.
pub fn put_frame(edition: Edition, width: u8, count: u32, room: &mut [u8])
    ensures { room.new ≡ placed (rows_frame edition width count) 0 room.old }
{
    let total = size_width(edition) as u64 + 1 + width as u64 * count as u64;
    match edition {
        Edition::One => {
            let [a, b] = ((total % 65536) as u16).to_be_bytes();
            let [c, d] = ((count % 65536) as u16).to_be_bytes();
            place(&[a, b, 1, c, d], room, 0);
        }
        Edition::Two => {
            let [a, b, c, d] = ((total % 4294967296) as u32).to_be_bytes();
            let [e, f, g, h] = count.to_be_bytes();
            place(&[a, b, c, d, 2, e, f, g, h], room, 0);
        }
    }
}

// Writes bytes whose reading gives this answer.
pub fn put(answer: Result<(), Refusal>, bytes: &[u8], room: &mut [u8]) -> Result<u64, Refusal>
    ensures { Writes (write answer bytes.now room.old) result room.new }
{
    answer?;
    let wanted = bytes.len();
    if room.len() < wanted {
        return Err(Refusal::WriteRoom {
            wanted: wanted as u64,
        });
    }
    place(bytes, room, 0);
    Ok(wanted as u64)
}
