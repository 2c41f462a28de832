// What a recording's bytes say of an instant.
ghost use Rattle.std.specs.Prelude.{◌≡◌, true, ◌<◌};
ghost use Rattle.situation.specs.Rows.{is_at, heard_at, passed_by};

use wire::{byte, word};

#[tactic(auto, unfolding(crate::specs::Rows::is_at))]
fn is_at(recording: &[u8], i: usize, t: u64) -> bool
    ensures { (result ≡ is_at recording.now i t) × (result ≡ true → i < 65536) }
{
    i < usize::from(word(recording, 3)) && u64::from(word(recording, 5 + 3 * i)) == t
}

// The kind of row i, if there is one at instant t.
#[tactic(auto, unfolding(crate::specs::Rows::heard_at))]
pub fn heard_at(recording: &[u8], i: usize, t: u64) -> Option<u8>
    ensures { result ≡ heard_at recording.now i t }
{
    if is_at(recording, i, t) {
        Some(byte(recording, 7 + 3 * i))
    } else {
        None
    }
}

// The next row's number, once row i is behind if it is at instant t.
#[tactic(auto, unfolding(crate::specs::Rows::passed_by))]
pub fn passed(recording: &[u8], i: usize, t: u64) -> usize
    ensures { result ≡ passed_by recording.now i t }
{
    if is_at(recording, i, t) { i + 1 } else { i }
}
