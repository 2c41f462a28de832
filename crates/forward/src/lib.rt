// The forward pass: the situations possible after each instant, each set in its row of the scratch, and what they cost.

#![tactic(auto)]

ghost use Rattle.std.specs.Prelude.{◌≡◌, List, length, ℕ, ◌+◌, ◌<◌, ◌≤◌};
ghost use Rattle.model.specs.Recording.{packets_at};
ghost use Rattle.model.specs.Validation.{possible_after};
ghost use Rattle.images.specs.Buffers.{Sized, Kept};
ghost use Rattle.measures.specs.Roomy.{Roomy};
ghost use Rattle.measures.specs.Setting.{monitor_by, Setting};
ghost use Rattle.measures.specs.Working.{Working, Holds};
ghost use Rattle.forward.specs.Forwarding.{Filled, Turn, Turned, Carrying, Emptying, emptied_at, Forwarding, Ended};

use bits::{count, put};
use measures::{Measures, is_roomy};
use memo::{advance, forget};
use pairs::count_pairs;
use rows::span::Span;
use rows::{load, store};
use situation::rows::{heard_at, passed};

// How the pass ends: a situation is left after the last instant, none is after some instant, or the budget is passed.
#[derive(Clone, Copy)]
pub enum Outcome {
    Passed {
        cost: u64,
    },
    Emptied {
        cost: u64,
        instant: u64,
        early: u64,
        late: u64,
    },
    Spent {
        instant: u64,
    },
}

// Fills the row of instant t + 1, and counts it: the work of the next instant. The set of instant t is in cur, and then that of t + 1.
fn instant<'a>(
    table: &'a [u8],
    offsets: &'a [u16],
    recording: &'a [u8],
    g: Measures,
    marks: &'a [u64],
    planes: &'a [u64],
    scratch: &mut [u8],
    cur: &mut [u64],
    sets: &mut [u64],
    one: &mut [u64],
    two: &mut [u64],
    memo: &mut [u64],
    t: usize,
    i: usize,
) -> u64
    requires { Roomy g (length scratch.old) × (t < g.last) }
    ensures { Kept scratch.old scratch.new × Kept cur.old cur.new × Kept sets.old sets.new × Kept one.old one.new × Kept two.old two.new × Kept memo.old memo.new × (result ≤ 65536) × (Turn table.now offsets.now recording.now scratch.old g t i → Working table.now offsets.now g marks.now planes.now → Carrying (monitor_by g table.now) recording.now g.words t cur.old sets.old one.old two.old memo.old → Turned (monitor_by g table.now) recording.now scratch.new g.row t i result × Carrying (monitor_by g table.now) recording.now g.words (t + 1) cur.new sets.new one.new two.new memo.new) }
{
    let heard = heard_at(recording, i, t as u64 + 1);
    advance(
        table, offsets, g.shape, g.size, marks, planes, heard, cur, sets, one, two, memo,
    );
    let from = g.row * (t + 1);
    let to = from + g.row;
    store(cur, &mut scratch[from..to]);
    count(&scratch[from..to])
}

// None is left after instant t + 1: what the transitions answered just before its moves, by the row of instant t.
fn emptied<'a>(
    table: &'a [u8],
    offsets: &'a [u16],
    recording: &'a [u8],
    g: Measures,
    cost: u64,
    scratch: &'a [u8],
    t: usize,
    i: usize,
) -> Outcome
    requires { (g.row ≤ 8192) × (t < 65536) }
    ensures { Emptying table.now offsets.now recording.now scratch.now g t i → result ≡ emptied_at (monitor_by g table.now) recording.now cost t }
{
    let h = g.shape;
    let next = t as u64 + 1;
    let heard = heard_at(recording, i, next);
    let before = Span {
        start: 8 * g.row * t,
        size: g.size,
    };
    let pairs = count_pairs(table, offsets, h, heard, scratch, before);
    Outcome::Emptied {
        cost,
        instant: next,
        early: pairs.early,
        late: pairs.late,
    }
}

// Puts the first situation into the row of instant 0 of a zeroed scratch, and that row into cur.
fn start(g: Measures, scratch: &mut [u8], cur: &mut [u64])
    requires { g.row ≤ length scratch.old }
    ensures { Kept scratch.old scratch.new × Kept cur.old cur.new × ((table offsets recording : List ℕ) → Forwarding table offsets recording scratch.old g → length cur.old ≡ g.words → Filled (monitor_by g table) recording scratch.new g.row 0 0 × Holds g.words cur.new (possible_after (monitor_by g table) (packets_at recording) 0)) }
{
    put(scratch, g.first as usize);
    let row = g.row;
    load(&scratch[0..row], cur);
}

// Fills the rows that follow that of instant 0, instant by instant, to the end or to where none is left or the budget is passed.
fn fill<'a>(
    table: &'a [u8],
    offsets: &'a [u16],
    recording: &'a [u8],
    g: Measures,
    marks: &'a [u64],
    planes: &'a [u64],
    budget: u64,
    scratch: &mut [u8],
    cur: &mut [u64],
    sets: &mut [u64],
    one: &mut [u64],
    two: &mut [u64],
    memo: &mut [u64],
) -> Outcome
    requires { Roomy g (length scratch.old) }
    ensures { Kept scratch.old scratch.new × Kept cur.old cur.new × Kept sets.old sets.new × Kept one.old one.new × Kept two.old two.new × Kept memo.old memo.new × (Setting table.now offsets.now recording.now g → Filled (monitor_by g table.now) recording.now scratch.old g.row 0 0 → Working table.now offsets.now g marks.now planes.now → Carrying (monitor_by g table.now) recording.now g.words 0 cur.old sets.old one.old two.old memo.old → Ended (monitor_by g table.now) recording.now scratch.new budget g.row g.last result) }
{
    let mut cost: u64 = 0;
    let mut work: u64 = 1;
    let mut i = 0;
    let mut t = 0;
    while t < g.last {
        let next = t as u64 + 1;
        cost += work;
        if budget < cost {
            return Outcome::Spent { instant: next };
        }
        work = instant(
            table, offsets, recording, g, marks, planes, scratch, cur, sets, one, two, memo, t, i,
        );
        if work == 0 {
            return emptied(table, offsets, recording, g, cost, scratch, t, i);
        }
        i = passed(recording, i, next);
        t += 1;
    }
    Outcome::Passed { cost }
}

// Fills the rows of a zeroed scratch, instant by instant, to the end or to where none is left or the budget is passed. cur, sets, one and two have room for the sets that it
// works with; memo keeps what it knows from one instant to the next.
pub fn forward<'a>(
    table: &'a [u8],
    offsets: &'a [u16],
    recording: &'a [u8],
    g: Measures,
    marks: &'a [u64],
    planes: &'a [u64],
    budget: u64,
    scratch: &mut [u8],
    cur: &mut [u64],
    sets: &mut [u64],
    one: &mut [u64],
    two: &mut [u64],
    memo: &mut [u64],
) -> Outcome
    ensures { Kept scratch.old scratch.new × Kept cur.old cur.new × Kept sets.old sets.new × Kept one.old one.new × Kept two.old two.new × Kept memo.old memo.new × (Forwarding table.now offsets.now recording.now scratch.old g → Working table.now offsets.now g marks.now planes.now → Sized g.words sets.old one.old two.old → length cur.old ≡ g.words → Ended (monitor_by g table.now) recording.now scratch.new budget g.row g.last result) }
{
    // Lengths that do not fit each other: nothing is done.
    if !is_roomy(g, scratch.len()) {
        return Outcome::Spent { instant: 0 };
    }
    start(g, scratch, cur);
    forget(memo);
    fill(
        table, offsets, recording, g, marks, planes, budget, scratch, cur, sets, one, two, memo,
    )
}
