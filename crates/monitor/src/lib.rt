// The monitor, straight from a table's bytes: which transition fires, and what a kind's record says. Each function takes any bytes.

#![tactic(auto)]

ghost use Rattle.std.specs.Prelude.{◌≡◌, List, cond, ℕ, ◌+◌, ◌%◌, ◌<◌, eqb, ltb};
ghost use Rattle.model.specs.Readiness.{readiness};
ghost use Rattle.model.specs.Monitor as Monitor;
ghost use Rattle.model.specs.Monitor.{changed, fires, to_unit, airtime, device};
ghost use Rattle.model.specs.Kinds.{version_at, kind_at};
ghost use Rattle.model.specs.Table.{kinds_at};
ghost use Rattle.monitor.specs.From.{transition_count, guard_from, tried_from, monitor_from, offsets_of, after_from};

use guard::guard_answer;
use kinds::{device_at, record_at, transitions_at};
use model::{Config, Readiness, TRANSITION_LIMIT};
use wire::{byte, short};

// How many transitions the table counts, at most as many as a sound one has.
pub fn transitions(table: &[u8]) -> usize
    ensures { result ≡ transition_count table.now }
{
    usize::from(byte(table, 7)).min(TRANSITION_LIMIT)
}

// Where the transition records start. Each record's length is known only from its own bytes.
pub fn offsets(table: &[u8]) -> [u16; TRANSITION_LIMIT]
    ensures { result ≡ offsets_of table.now }
{
    let mut found = [0u16; TRANSITION_LIMIT];
    let mut at = transitions_at(table);
    for j in 0..transitions(table) {
        found[j] = at;
        at += 7 + u16::from(byte(table, usize::from(at) + 6));
    }
    found
}

// Where a kind's record starts, if the table has the kind.
fn record_of(table: &[u8], kind: u8) -> Option<u16>
    ensures { result ≡ cond (ltb kind (kinds_at table.now)) (Some (kind_at (version_at table.now) kind)) None }
{
    if kind < byte(table, 6) {
        Some(record_at(table, kind))
    } else {
        None
    }
}

#[tactic(auto, using(crate::proofs::Records::kinds), unfolding(crate::specs::From::monitor_from))]
pub fn to_unit(table: &[u8], kind: u8) -> bool
    ensures { (offsets : List ℕ) → result ≡ to_unit (monitor_from table.now offsets) kind }
{
    record_of(table, kind).is_some_and(|at| byte(table, usize::from(at)) == 1)
}

#[tactic(auto, using(crate::proofs::Records::kinds), unfolding(crate::specs::From::monitor_from))]
pub fn airtime_of(table: &[u8], kind: u8) -> u8
    ensures { (offsets : List ℕ) → result ≡ airtime (monitor_from table.now offsets) kind }
{
    record_of(table, kind).map_or(0, |at| byte(table, usize::from(at) + 1))
}

#[tactic(auto, using(crate::proofs::Records::kinds), unfolding(crate::specs::From::monitor_from))]
pub fn device_of(table: &[u8], kind: u8) -> u8
    ensures { (offsets : List ℕ) → result ≡ device (monitor_from table.now offsets) kind }
{
    record_of(table, kind).map_or(0, |at| device_at(table, at))
}

// The first n variables after some are set and some are cleared.
#[tactic(auto, using(crate::proofs::Masks::changing))]
pub fn variables_after(n: u8, v: u8, set: u8, clear: u8) -> u8
    ensures { result ≡ changed n v set clear }
{
    let all = (v & !clear) | set;
    if n < 8 { all % (1 << n) } else { all }
}

fn clock_after(mask: u8, reads: u16) -> u16
    ensures { result ≡ cond (eqb (mask % 2) 1) 0 reads }
{
    if mask % 2 == 1 { 0 } else { reads }
}

// What firing the transition at an offset leaves.
#[tactic(auto, using(crate::proofs::Records::after_with))]
fn after_record(table: &[u8], at: usize, c: Config) -> Config
    requires { at < 65536 }
    ensures { result ≡ after_from table.now at c }
{
    let resets = byte(table, at + 5);
    let variables = variables_after(
        byte(table, 4),
        c.variables,
        byte(table, at + 3),
        byte(table, at + 4),
    );
    Config {
        state: byte(table, at + 1),
        variables,
        clocks: [
            clock_after(resets, c.clocks[0]),
            clock_after(resets / 2, c.clocks[1]),
        ],
    }
}

#[tactic(auto, unfolding(crate::specs::From::guard_from))]
fn guard_at_answer(table: &[u8], at: usize, c: Config) -> Readiness
    requires { at < 65536 }
    ensures { result ≡ readiness (guard_from table.now at) c.variables c.clocks }
{
    let start = at + 7;
    let end = start + usize::from(byte(table, at + 6));
    guard_answer(
        table,
        start,
        end,
        byte(table, 4),
        byte(table, 5),
        c.variables,
        &c.clocks,
    )
}

// The transition whose record is at an offset.
#[tactic(auto, unfolding(crate::specs::From::transition_from))]
fn record_tried(table: &[u8], at: usize, kind: u8, c: Config) -> Option<Readiness>
    requires { at < 65536 }
    ensures { result ≡ tried_from table.now at kind c }
{
    if byte(table, at) != c.state || byte(table, at + 2) != kind {
        return None;
    }
    Some(guard_at_answer(table, at, c))
}

// What transition j answers to a packet of a kind: its guard's answer; None if it is of another kind or from another state, or the table has no such transition.
#[tactic(auto, using(crate::proofs::Records::transitions), unfolding(crate::specs::From::monitor_from, model::specs::Monitor::tried))]
pub fn tried<'a>(
    table: &'a [u8],
    offsets: &'a [u16],
    j: usize,
    kind: u8,
    c: Config,
) -> Option<Readiness>
    ensures { result ≡ Monitor.tried (monitor_from table.now offsets.now) j kind c }
{
    if usize::from(byte(table, 7)) <= j {
        return None;
    }
    record_tried(table, usize::from(short(offsets, j)), kind, c)
}

// Where it leads, if its guard answers yes.
#[tactic(auto, using(crate::proofs::Records::firing))]
pub fn fire<'a>(
    table: &'a [u8],
    offsets: &'a [u16],
    j: usize,
    kind: u8,
    c: Config,
) -> Option<Config>
    ensures { result ≡ fires (monitor_from table.now offsets.now) j kind c }
{
    match tried(table, offsets, j, kind, c) {
        Some(Readiness::Yes) => Some(after_record(table, usize::from(short(offsets, j)), c)),
        _ => None,
    }
}
