// The states that a table's transitions lead to from state 0, guards ignored (document 02, R-8), for any parts.

#![tactic(auto)]

ghost use Rattle.std.specs.Prelude.{◌≡◌, ℕ, eqb, length};
ghost use Rattle.model.specs.Reach.{StatesJudged, is_reached, lowest_missing, states_answer};
ghost use Rattle.model.specs.Table.{monitor_of};
ghost use Rattle.bits.specs.Member.{mem};
ghost use Rattle.reach.specs.Spreading.{state_bytes, Tried, Spread};

use bits::{put, test};
use model::{Refusal, TableParts};
use wire::byte;

// Bytes of a set of states: a place for every number that fits a byte.
const STATE_BYTES: usize = 32;

// Puts the target into the set if the source is in it. Is it new there?
fn lead(set: &mut [u8], source: u8, target: u8) -> bool
    requires { length set.old ≡ state_bytes }
    ensures { Tried source target set.old set.new result }
{
    let new = test(set, source as usize) && !test(set, target as usize);
    if new {
        put(set, target as usize);
    }
    new
}

// Tries each transition once, in turn. Is a state new?
fn spread(t: TableParts, set: &mut [u8]) -> bool
    requires { length set.old ≡ state_bytes }
    ensures { Spread (monitor_of t) (monitor_of t).transitions set.old set.new result }
{
    let mut grown = false;
    for j in 0..t.transitions as usize {
        grown |= lead(set, byte(&t.sources, j), byte(&t.targets, j));
    }
    grown
}

// From state 0 alone to all that are reached: a round for each transition, unless a round adds none.
fn close(t: TableParts, set: &mut [u8])
    requires { (length set.old ≡ state_bytes) × ((s : ℕ) → mem set.old s ≡ eqb s 0) }
    ensures { (s : ℕ) → mem set.new s ≡ is_reached (monitor_of t) s }
{
    for _round in 0..t.transitions {
        if !spread(t, set) {
            return;
        }
    }
}

// The lowest state that is not in the set.
fn first_absent(set: &[u8], states: u8) -> Result<(), Refusal>
    ensures { result ≡ lowest_missing (mem set.now) states }
{
    for s in 0..states {
        if !test(set, s as usize) {
            return Err(Refusal::TableState { state: s as u64 });
        }
    }
    Ok(())
}

// 17 with the lowest state that cannot be reached, or no number.
pub fn states_answer(t: TableParts) -> Result<(), Refusal>
    ensures value { result ≡ states_answer (monitor_of t) }
    ensures states_judged { StatesJudged (monitor_of t) result }
{
    let mut set = [0u8; STATE_BYTES];
    put(&mut set, 0);
    close(t, &mut set);
    first_absent(&set, t.states)
}
