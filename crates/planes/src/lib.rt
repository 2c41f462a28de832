// For each transition of a table the set of variables and clock values at which its guard holds, built by set operations: a comparison is the
// numbers whose digit is below a bound, a negation the complement, a conjunction what two sets have in common.

#![tactic(auto)]

ghost use Rattle.std.specs.Prelude.{◌≡◌, ◌&&◌, ℕ, ◌+◌, ◌*◌, ◌%◌, ◌^◌, ◌<◌, ◌≤◌, leb, ltb, length};
ghost use Rattle.model.specs.Guard.{guard_at, leaf_at, variable};
ghost use Rattle.guard.specs.Guards.{clock_leaf};
ghost use Rattle.monitor.specs.From.{guard_from, transition_count};
ghost use Rattle.words.specs.Words.{Is, bit, mem};
ghost use Rattle.planes.specs.Built.{Built, in_hand};
ghost use Rattle.planes.specs.Planes.{Placed, Planes, sets_at};
ghost use Rattle.planes.specs.Numbering.{Clocks, holds_by, values, weight};

use guard::{has_clock, has_variable};
use model::GUARD_LIMIT;
use monitor::transitions;
use strides::at_most;
use wire::{byte, short};
use words::complement;

// A guard is never deeper than it is long.
const DEPTH: u8 = GUARD_LIMIT as u8;

// The table's numbers of variables and clocks, and of the values of clock 0 and of clock 1.
#[derive(Clone, Copy)]
struct Counts {
    variables: u8,
    clocks: u8,
    first: u32,
    second: u32,
}

#[tactic(auto, using(crate::proofs::Digits::weight_one, crate::proofs::Digits::weight_other))]
fn weight_of(clock: u8, first: u32) -> u32
    ensures { result ≡ weight first clock }
{
    if clock == 1 { first } else { 1 }
}

#[tactic(auto, using(crate::proofs::Digits::values_zero, crate::proofs::Digits::values_one, crate::proofs::Digits::values_other))]
fn values_of(clock: u8, first: u32, second: u32) -> u32
    ensures { result ≡ values first second clock }
{
    match clock {
        0 => first,
        1 => second,
        _ => 1,
    }
}

// The first n words become what they have in common with the next n.
fn keep_common(stack: &mut [u64], n: usize)
    requires { 2 * n ≤ length stack.old }
    ensures { (i : ℕ) → i < 64 * n → mem stack.new i ≡ (mem stack.old i && mem stack.old (64 * n + i)) }
{
    for k in 0..n {
        stack[k] &= stack[n + k];
    }
}

// The set where a comparison of a clock with bound t holds.
fn clock_set(
    code: u8,
    clock: u8,
    t: u8,
    next: usize,
    q: Counts,
    set: &mut [u64],
    spare: &mut [u64],
) -> Option<usize>
    requires { (length set.old ≤ length spare.old) × (length set.old ≤ 1024) × Clocks q.first q.second }
    ensures { Built q.first q.second (length set.old) (clock_leaf code clock t next) result set.new }
{
    let w = weight_of(clock, q.first);
    let r = values_of(clock, q.first, q.second);
    match code {
        1 => at_most(set, spare, w, r, t as u32 + 1),
        2 => {
            at_most(set, spare, w, r, t as u32);
            complement(set);
        }
        _ => return None,
    }
    Some(next)
}

// What the bit of variable x counts.
fn variable_weight(x: u8, first: u32, second: u32) -> u32
    requires { (x < 16) × Clocks first second }
    ensures { result ≡ first * second * 2 ^ x }
{
    first * second * (1u32 << x)
}

// The set where variable x is true; a set has no number with more than 16 variables.
fn variable_set(x: u8, q: Counts, set: &mut [u64], spare: &mut [u64])
    requires { (length set.old ≤ length spare.old) × (length set.old ≤ 1024) × Clocks q.first q.second }
    ensures { Is (holds_by q.first q.second (variable x)) set.old set.new }
{
    if x < 16 {
        at_most(set, spare, variable_weight(x, q.first, q.second), 2, 1);
        complement(set);
    } else {
        set.fill(0);
    }
}

// The forms without a guard inside.
fn leaf_set(
    b: &[u8],
    at: usize,
    end: usize,
    q: Counts,
    set: &mut [u64],
    spare: &mut [u64],
) -> Option<usize>
    requires { (at < end) × (length set.old ≤ length spare.old) × (length set.old ≤ 1024) × Clocks q.first q.second }
    ensures { Built q.first q.second (length set.old) (leaf_at q.variables q.clocks b.now at end) result set.new }
{
    match byte(b, at) {
        0 => {
            set.fill(u64::MAX);
            Some(at + 1)
        }
        3 if has_variable(b, at, end, q.variables) => {
            variable_set(byte(b, at + 1), q, set, spare);
            Some(at + 2)
        }
        3 => None,
        code if has_clock(b, at, end, q.clocks) => clock_set(
            code,
            byte(b, at + 1),
            byte(b, at + 2),
            at + 3,
            q,
            set,
            spare,
        ),
        _ => None,
    }
}

// The set where the guard holds that starts at an offset, none of it at or behind end, into the first n words of stack. The words behind them are for the guards inside.
fn guard_set(
    depth: u8,
    b: &[u8],
    at: usize,
    end: usize,
    q: Counts,
    n: usize,
    stack: &mut [u64],
    spare: &mut [u64],
) -> Option<usize>
    requires { (n * in_hand depth at end ≤ length stack.old) × (n ≤ length spare.old) × (n ≤ 1024) × Clocks q.first q.second }
    ensures { Built q.first q.second n (guard_at depth q.variables q.clocks b.now at end) result stack.new }
{
    if end <= at {
        return None;
    }
    let depth = depth.checked_sub(1)?;
    match byte(b, at) {
        4 => {
            let next = guard_set(depth, b, at + 1, end, q, n, stack, spare)?;
            complement(&mut stack[..n]);
            Some(next)
        }
        5 => {
            let next = guard_set(depth, b, at + 1, end, q, n, stack, spare)?;
            let second = guard_set(depth, b, next, end, q, n, &mut stack[n..], spare)?;
            keep_common(stack, n);
            Some(second)
        }
        _ => leaf_set(b, at, end, q, &mut stack[..n], spare),
    }
}

// The set of the guard of the transition whose record starts at an offset. Bytes that are no guard never hold.
fn plane(
    table: &[u8],
    at: usize,
    first: u32,
    second: u32,
    n: usize,
    stack: &mut [u64],
    spare: &mut [u64],
)
    requires { (at < 65536) × (n * sets_at table.now at ≤ length stack.old) × (n ≤ length spare.old) × (n ≤ 1024) × Clocks first second }
    ensures { (i : ℕ) → i < 64 * n → mem stack.new i ≡ holds_by first second (guard_from table.now at) i }
{
    let start = at + 7;
    let end = start + byte(table, at + 6) as usize;
    let q = Counts {
        variables: byte(table, 4),
        clocks: byte(table, 5),
        first,
        second,
    };
    if guard_set(DEPTH, table, start, end, q, n, stack, spare).is_none() {
        stack[..n].fill(0);
    }
}

fn sets_at(table: &[u8], at: usize) -> usize
    requires { at < 65536 }
    ensures { result ≡ sets_at table.now at }
{
    (1 + byte(table, at + 6) as usize / 2).min(GUARD_LIMIT)
}

// Plane j, where there is room for it and for the sets of the guards inside.
fn plane_at(
    table: &[u8],
    at: usize,
    first: u32,
    second: u32,
    n: usize,
    j: usize,
    planes: &mut [u64],
    spare: &mut [u64],
)
    requires { (at < 65536) × (j < 64) × (n ≤ length spare.old) × (n ≤ 1024) × Clocks first second }
    ensures { Placed first second n table.now at j planes.old planes.new }
{
    if planes.len() < n * (j + sets_at(table, at)) {
        return;
    }
    let from = n * j;
    plane(table, at, first, second, n, &mut planes[from..], spare);
}

fn all_planes(
    table: &[u8],
    offsets: &[u16],
    first: u32,
    second: u32,
    n: usize,
    planes: &mut [u64],
    spare: &mut [u64],
)
    requires { (n ≤ length spare.old) × (n ≤ 1024) × Clocks first second }
    ensures { Planes first second n table.now offsets.now (transition_count table.now) planes.old planes.new }
{
    for j in 0..transitions(table) {
        let at = short(offsets, j) as usize;
        plane_at(table, at, first, second, n, j, planes, spare);
    }
}

fn in_range(x: u32) -> bool
    ensures { result ≡ (ltb 0 x && leb x 257) }
{
    0 < x && x <= 257
}

// The set of each transition's guard: that of transition j stands from word n * j on. The words behind it are room for the guards inside.
pub fn guards(
    table: &[u8],
    offsets: &[u16],
    first: u32,
    second: u32,
    n: u32,
    planes: &mut [u64],
    spare: &mut [u64],
)
    ensures { (length planes.new ≡ length planes.old) × (length spare.new ≡ length spare.old) × (Clocks first second → n ≤ 1024 → n ≤ length spare.old → Planes first second n table.now offsets.now (transition_count table.now) planes.old planes.new) }
{
    let n = n as usize;
    if n <= 1024 && n <= spare.len() && in_range(first) && in_range(second) {
        all_planes(table, offsets, first, second, n, planes, spare);
    }
}
