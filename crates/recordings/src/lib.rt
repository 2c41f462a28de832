// The recording, read and written against a table, whose numbers come first.

#![tactic(auto)]

ghost use Rattle.std.specs.Prelude.{◌≡◌, ◌+◌, ◌*◌, ◌<◌, ◌≤◌, length};
ghost use Rattle.model.specs.Answers.{Reads, Writes};
ghost use Rattle.model.specs.Limits.{row_limit};
ghost use Rattle.model.specs.Room.{over};
ghost use Rattle.model.specs.Recording.{count_at, clear_of_before, recorded_row, recorded_rows, recording_frame, recording_scan, recording_answer, recording_parts, read_recording, recording_bytes, write_recording};

use columns::{bytes_column, words_column};
use frame::{put, put_frame, rows_framed};
use model::{Edition, ROW_LIMIT, RecordingParts, Refusal};
use monitor::airtime_of;
use tables::table_answer;
use wire::{byte, place, word};

// The most rows.
const LIMIT: u32 = ROW_LIMIT as u32;

// Row i does not overlap or precede the row before it.
#[tactic(auto, using(crate::proofs::Recordings::clear_first, crate::proofs::Recordings::clear_behind))]
fn clear_of_before(table: &[u8], b: &[u8], i: usize) -> bool
    requires { i < 65536 }
    ensures { result ≡ clear_of_before table.now b.now i }
{
    let Some(before) = i.checked_sub(1) else {
        return true;
    };
    let air = airtime_of(table, byte(b, 7 + 3 * before)) as usize;
    (word(b, 5 + 3 * before) as usize) + air < word(b, 5 + 3 * i) as usize
}

// No time is too late: the latest is the largest that two bytes can say.
#[tactic(auto, unfolding(model::specs::Recording::recorded_row))]
fn recorded_row(table: &[u8], b: &[u8], i: usize) -> Result<(), Refusal>
    requires { i < 65536 }
    ensures { result ≡ recorded_row table.now b.now i }
{
    if word(b, 5 + 3 * i) < 1 || byte(table, 6) <= byte(b, 7 + 3 * i) {
        return Err(Refusal::RecordingRange { row: i as u64 });
    }
    if !clear_of_before(table, b, i) {
        return Err(Refusal::RecordingOrder { row: i as u64 });
    }
    Ok(())
}

#[tactic(auto, using(crate::proofs::Recordings::rows_turn, crate::proofs::Recordings::rows_end))]
fn recorded_rows(table: &[u8], b: &[u8]) -> Result<(), Refusal>
    ensures { result ≡ recorded_rows (count_at b.now) table.now b.now 0 }
{
    for i in 0..word(b, 3) as usize {
        recorded_row(table, b, i)?;
    }
    Ok(())
}

// 20, 21 and 22.
#[tactic(auto, unfolding(model::specs::Recording::recording_frame))]
pub fn recording_frame(b: &[u8]) -> Result<(), Refusal>
    ensures { result ≡ recording_frame b.now }
{
    rows_framed(
        Edition::One,
        b,
        3,
        LIMIT,
        Refusal::RecordingFrame,
        Refusal::RecordingVersion,
        Refusal::RecordingCount,
    )
}

// The recording's own numbers, 20 to 24, against a table that was read before.
#[tactic(auto, unfolding(model::specs::Recording::recording_scan))]
pub fn recording_scan(table: &[u8], b: &[u8]) -> Result<(), Refusal>
    ensures { result ≡ recording_scan table.now b.now }
{
    recording_frame(b)?;
    recorded_rows(table, b)
}

// The table's numbers, then the recording's own.
#[tactic(auto, unfolding(model::specs::Recording::recording_answer))]
pub fn recording_answer(table: &[u8], b: &[u8]) -> Result<(), Refusal>
    ensures { result ≡ recording_answer table.now b.now }
{
    table_answer(table)?;
    recording_scan(table, b)
}

fn parts_at(b: &[u8]) -> RecordingParts
    requires { count_at b.now ≤ row_limit }
    ensures { result ≡ recording_parts b.now }
{
    let count = word(b, 3);
    let mut parts = RecordingParts {
        count,
        ..RecordingParts::default()
    };
    words_column(b, 5, 3, count as u32, &mut parts.times);
    bytes_column(b, 7, 3, count as u32, &mut parts.kinds);
    parts
}

#[tactic(auto, using(crate::proofs::Recordings::count_bound), unfolding(model::specs::Recording::read_recording))]
pub fn read_recording(table: &[u8], b: &[u8]) -> Result<RecordingParts, Refusal>
    ensures value { result ≡ read_recording table.now b.now }
    ensures reads { Reads (recording_answer table.now b.now) (recording_parts b.now) result }
{
    recording_answer(table, b)?;
    Ok(parts_at(b))
}

fn encode(r: &RecordingParts, out: &mut [u8])
    requires { (r.now.count ≤ row_limit) × (5 + 3 * r.now.count ≤ length out.old) }
    ensures { out.new ≡ over (recording_bytes r.now) out.old }
{
    put_frame(Edition::One, 3, r.count as u32, out);
    for i in 0..r.count as usize {
        let [high, low] = r.times[i].to_be_bytes();
        place(&[high, low, r.kinds[i]], out, 5 + 3 * i);
    }
}

// The table's numbers, then 22 for a count outside its limits, then the recording's own.
#[tactic(auto, using(crate::proofs::Recordings::write_first, crate::proofs::Recordings::write_many))]
pub fn write_recording(table: &[u8], r: RecordingParts, room: &mut [u8]) -> Result<u64, Refusal>
    ensures { Writes (write_recording table.now r room.old) result room.new }
{
    table_answer(table)?;
    let count = r.count as usize;
    if ROW_LIMIT < count {
        return Err(Refusal::RecordingCount);
    }
    // made apart: a refusal leaves the room as it was
    let mut bytes = [0u8; 5 + 3 * ROW_LIMIT];
    encode(&r, &mut bytes);
    let encoded = &bytes[..5 + 3 * count];
    put(recording_scan(table, encoded), encoded, room)
}
