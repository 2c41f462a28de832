// What a row of a witness is tested for: the recorded rows that are still unaccounted for, the air behind it, whether it is a guess. Each function takes any input.

#![tactic(auto)]

ghost use Rattle.std.specs.Prelude.{◌≡◌, List, true, ℕ, ◌+◌, ◌<◌, drop};
ghost use Rattle.model.specs.Monitor.{airtime};
ghost use Rattle.model.specs.Recording.{packets_at};
ghost use Rattle.model.specs.Rules.{none_before, is_next, none_at, guessed};
ghost use Rattle.monitor.specs.From.{monitor_from};
ghost use Rattle.witness.specs.Rows.{row_of};
ghost use Rattle.row_tests.specs.Left.{first_time};
ghost use Rattle.row_tests.specs.Under.{ruled_from};

use model::{ADDED, Rule};
use monitor::{airtime_of, device_of};
use wire::{byte, word};
use witness::Entry;

// The time of the next recorded row that is unaccounted for, if one is left.
#[tactic(auto, using(crate::proofs::Left::first_left, crate::proofs::Left::none_left))]
fn next_time(recording: &[u8], next: u16) -> Option<u16>
    ensures { result ≡ first_time (drop next (packets_at recording.now)) }
{
    if next < word(recording, 3) {
        Some(word(recording, 5 + 3 * usize::from(next)))
    } else {
        None
    }
}

// No recorded row of an earlier time is unaccounted for.
#[tactic(auto, using(crate::proofs::Left::none_before_first))]
pub fn none_before(recording: &[u8], next: u16, time: u16) -> bool
    ensures { result ≡ none_before (drop next (packets_at recording.now)) time }
{
    next_time(recording, next).is_none_or(|t| time <= t)
}

pub fn is_next(recording: &[u8], next: u16, e: Entry) -> bool
    ensures { (result ≡ is_next (drop next (packets_at recording.now)) (row_of e)) × (result ≡ true → next < 65535) }
{
    next_time(recording, next) == Some(e.time)
        && byte(recording, 7 + 3 * usize::from(next)) == e.kind
}

// No recorded row of this time is unaccounted for.
#[tactic(auto, using(crate::proofs::Left::none_at_first))]
pub fn none_at(recording: &[u8], next: u16, time: u16) -> bool
    ensures { result ≡ none_at (drop next (packets_at recording.now)) time }
{
    next_time(recording, next) != Some(time)
}

// The first time at which the air is free behind a row, which takes it for its airtime.
pub fn free_after(table: &[u8], e: Entry) -> u32
    ensures { (offsets : List ℕ) → result ≡ e.time + airtime (monitor_from table.now offsets) e.kind + 1 }
{
    u32::from(e.time) + u32::from(airtime_of(table, e.kind)) + 1
}

// A guess is an added row from the rule's device.
pub fn is_guess(rule: Rule, table: &[u8], e: Entry) -> bool
    ensures { (offsets : List ℕ) → result ≡ guessed (ruled_from rule table.now offsets) (row_of e) }
{
    e.mark == ADDED && device_of(table, e.kind) == rule.device
}
