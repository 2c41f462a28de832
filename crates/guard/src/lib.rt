// Guards in prefix form. One recursion over a guard's bytes tells where it ends, its value, the waits after which it holds, and the largest bound of a clock in it.
// It ends since depth grows less: the limit that the definition sets, which a guard within its length never meets.

#![tactic(auto)]

ghost use Rattle.std.specs.Prelude.{◌≡◌, ◌&&◌, cond, ◌+◌, ◌<◌, leb, ltb, eqb};
ghost use Rattle.model.specs.Limits.{guard_limit};
ghost use Rattle.model.specs.Bytes.{byte_at, has_bit};
ghost use Rattle.model.specs.Guard.{largest, leaf_at, guard_at, ends_at, guard_of};
ghost use Rattle.guard.specs.Guards.{seen, clock_leaf, opposite, both};
ghost use Rattle.guard.specs.Evaluated.{Evaluated};

use model::{GUARD_LIMIT, Readiness};
use waits::{Waits, complement, constant, intersection, is_none, least_waits, most_waits};
use wire::{byte, short};

// A guard is never deeper than it is long.
const DEPTH: u8 = GUARD_LIMIT as u8;

// What is asked of a guard: the table's numbers of variables and clocks, the mask of the variables that are true, and the clock whose bound is asked.
#[derive(Clone, Copy)]
pub struct Question {
    pub variables: u8,
    pub clocks: u8,
    pub mask: u8,
    pub clock: usize,
}

// What is seen of a guard: where it ends, the waits after which it holds, its value, and the largest bound of the clock.
// The two bytes stand together: with value before later it was measured to be slower.
#[derive(Clone, Copy)]
pub struct Seen {
    pub next: usize,
    pub later: Waits,
    pub value: bool,
    pub bound: u8,
}

fn has_bit(mask: u8, i: u8) -> bool
    ensures { result ≡ has_bit mask i }
{
    i < 8 && (mask >> i) % 2 == 1
}

// A form of so many bytes is there, and its second byte is below count.
fn names_one(b: &[u8], at: usize, end: usize, width: usize, count: u8) -> bool
    requires { 0 < width }
    ensures { result ≡ (leb (at + width) end && ltb (byte_at b.now (at + 1)) count) }
{
    width <= end && at <= end - width && byte(b, at + 1) < count
}

// A clock and a bound are there, and the table has the clock.
pub fn has_clock(b: &[u8], at: usize, end: usize, clocks: u8) -> bool
    ensures { result ≡ (leb (at + 3) end && ltb (byte_at b.now (at + 1)) clocks) }
{
    names_one(b, at, end, 3, clocks)
}

// A variable is there, and the table has it.
pub fn has_variable(b: &[u8], at: usize, end: usize, variables: u8) -> bool
    ensures { result ≡ (leb (at + 2) end && ltb (byte_at b.now (at + 1)) variables) }
{
    names_one(b, at, end, 2, variables)
}

fn bound_of(compared: u8, bound: u8, clock: usize) -> u8
    ensures { result ≡ cond (eqb compared clock) bound 0 }
{
    if compared as usize == clock { bound } else { 0 }
}

// The negation of a guard that was seen.
fn negated(s: Seen) -> Seen
    ensures { result ≡ opposite s }
{
    Seen {
        value: !s.value,
        later: complement(s.later),
        ..s
    }
}

// The conjunction of a guard and the guard behind it.
fn joined(first: Seen, second: Seen) -> Seen
    ensures { result ≡ both first second }
{
    Seen {
        next: second.next,
        value: first.value && second.value,
        later: intersection(first.later, second.later),
        bound: first.bound.max(second.bound),
    }
}

// A comparison of clock n, by its code, with bound t.
fn clock_seen(code: u8, n: u8, t: u8, next: usize, q: Question, c: &[u16]) -> Option<Seen>
    ensures { result ≡ seen q.clock q.mask c.now (clock_leaf code n t next) }
{
    let clock = n as usize;
    let reads = short(c, clock);
    let (value, later) = match code {
        1 => (reads <= t as u16, most_waits(c, clock, t)),
        2 => (t as u16 <= reads, least_waits(c, clock, t)),
        _ => return None,
    };
    Some(Seen {
        next,
        value,
        later,
        bound: bound_of(n, t, q.clock),
    })
}

// The forms without a guard inside.
fn leaf_seen<'a>(b: &'a [u8], at: usize, end: usize, q: Question, c: &'a [u16]) -> Option<Seen>
    requires { at < end }
    ensures { result ≡ seen q.clock q.mask c.now (leaf_at q.variables q.clocks b.now at end) }
{
    match byte(b, at) {
        0 => Some(Seen {
            next: at + 1,
            value: true,
            later: constant(true),
            bound: 0,
        }),
        3 if has_variable(b, at, end, q.variables) => {
            let value = has_bit(q.mask, byte(b, at + 1));
            Some(Seen {
                next: at + 2,
                value,
                later: constant(value),
                bound: 0,
            })
        }
        3 => None,
        code if has_clock(b, at, end, q.clocks) => {
            clock_seen(code, byte(b, at + 1), byte(b, at + 2), at + 3, q, c)
        }
        _ => None,
    }
}

// The guard that starts at an offset, none of it at or behind end.
pub fn guard_seen<'a>(
    depth: u8,
    b: &'a [u8],
    at: usize,
    end: usize,
    q: Question,
    c: &'a [u16],
) -> Option<Seen>
    ensures { result ≡ seen q.clock q.mask c.now (guard_at depth q.variables q.clocks b.now at end) }
{
    if end <= at {
        return None;
    }
    let depth = depth.checked_sub(1)?;
    match byte(b, at) {
        4 => guard_seen(depth, b, at + 1, end, q, c).map(negated),
        5 => {
            let first = guard_seen(depth, b, at + 1, end, q, c)?;
            let second = guard_seen(depth, b, first.next, end, q, c)?;
            Some(joined(first, second))
        }
        _ => leaf_seen(b, at, end, q, c),
    }
}

// There is one guard from at to end, no byte missing and none extra.
pub fn guard_fills(b: &[u8], at: usize, end: usize, variables: u8, clocks: u8) -> bool
    ensures { result ≡ ends_at (guard_at guard_limit variables clocks b.now at end) end }
{
    let q = Question {
        variables,
        clocks,
        mask: 0,
        clock: 0,
    };
    guard_seen(DEPTH, b, at, end, q, &[0; 2]).is_some_and(|all| all.next == end)
}

// What the guard answers where the mask's variables are true and the clocks read c. Bytes that are no guard never hold.
pub fn guard_answer<'a>(
    b: &'a [u8],
    at: usize,
    end: usize,
    variables: u8,
    clocks: u8,
    mask: u8,
    c: &'a [u16],
) -> Readiness
    ensures { Evaluated (guard_of (guard_at guard_limit variables clocks b.now at end)) mask c.now result }
{
    let q = Question {
        variables,
        clocks,
        mask,
        clock: 0,
    };
    match guard_seen(DEPTH, b, at, end, q, c) {
        Some(all) if all.value => Readiness::Yes,
        Some(all) if !is_none(all.later) => Readiness::NotYet,
        _ => Readiness::NoMore,
    }
}

// The largest T compared with a clock in the guard.
pub fn guard_bound(b: &[u8], at: usize, end: usize, variables: u8, clocks: u8, clock: usize) -> u8
    ensures { result ≡ largest clock (guard_of (guard_at guard_limit variables clocks b.now at end)) }
{
    let q = Question {
        variables,
        clocks,
        mask: 0,
        clock,
    };
    guard_seen(DEPTH, b, at, end, q, &[0; 2]).map_or(0, |all| all.bound)
}
