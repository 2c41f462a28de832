// The pairs of a situation of a row and a transition, by what the transition answers there to what is recorded (R-10).

#![tactic(auto)]

ghost use Rattle.std.specs.Prelude.{◌≡◌, ◌<◌, Some};
ghost use Rattle.model.specs.Limits.{transition_limit};
ghost use Rattle.monitor.specs.From.{transition_count};
ghost use Rattle.pairs.specs.Pairing.{answers_as, answers_in_row, OneMore, Tallied, CountedIn};

use model::{Readiness, SIZE_LIMIT, Situation};
use monitor::{transitions, tried};
use rests::config_of;
use rows::span;
use rows::span::Span;
use situation::Shape;
use situation::numbering::situation_of;

// How many pairs answer not yet (too early), and how many no more (too late).
#[derive(Clone, Copy, Default)]
pub struct Pairs {
    pub early: u64,
    pub late: u64,
}

// One transition more of a situation.
fn with_one(found: Pairs, answer: Option<Readiness>) -> Pairs
    requires { (found.early < transition_limit) × (found.late < transition_limit) }
    ensures { OneMore found answer result }
{
    match answer {
        None | Some(Readiness::Yes) => found,
        Some(Readiness::NotYet) => Pairs {
            early: found.early + 1,
            late: found.late,
        },
        Some(Readiness::NoMore) => Pairs {
            early: found.early,
            late: found.late + 1,
        },
    }
}

// The pairs of one situation, whose air is free, where a row of a kind is recorded.
#[tactic(auto, using(crate::proofs::PairCounts::passing), unfolding(model::specs::Pairs::answer_in))]
fn kind_pairs<'a>(table: &'a [u8], offsets: &'a [u16], kind: u8, s: Situation) -> Pairs
    requires { s.air ≡ 0 }
    ensures { Tallied (answers_as table.now offsets.now (Some kind) s) (transition_count table.now) result }
{
    let mut found = Pairs::default();
    for j in 0..transitions(table) {
        found = with_one(found, tried(table, offsets, j, kind, config_of(s)));
    }
    found
}

fn situation_pairs<'a>(
    table: &'a [u8],
    offsets: &'a [u16],
    heard: Option<u8>,
    s: Situation,
) -> Pairs
    ensures { Tallied (answers_as table.now offsets.now heard s) (transition_count table.now) result }
{
    match heard {
        Some(kind) if s.air == 0 => kind_pairs(table, offsets, kind, s),
        _ => Pairs::default(),
    }
}

// The pairs of situation n, none if it is not in the row at bit from.
fn member_pairs<'a>(
    table: &'a [u8],
    offsets: &'a [u16],
    h: Shape,
    heard: Option<u8>,
    scratch: &'a [u8],
    from: usize,
    n: usize,
) -> Pairs
    ensures { Tallied (λ a j. answers_in_row table.now offsets.now h heard scratch.now from a n j) (transition_count table.now) result }
{
    if !span::has(scratch, from, n) {
        return Pairs::default();
    }
    situation_pairs(table, offsets, heard, situation_of(h, n as u64))
}

// The pairs of the situations of a row, of the first SIZE_LIMIT if it is longer.
#[tactic(auto, using(crate::proofs::PairCounts::counting))]
pub fn count_pairs<'a>(
    table: &'a [u8],
    offsets: &'a [u16],
    h: Shape,
    heard: Option<u8>,
    scratch: &'a [u8],
    from: Span,
) -> Pairs
    ensures { CountedIn (answers_in_row table.now offsets.now h heard scratch.now from.start) from.size (transition_count table.now) result }
{
    let mut found = Pairs::default();
    for n in 0..from.size.min(SIZE_LIMIT as usize) {
        let here = member_pairs(table, offsets, h, heard, scratch, from.start, n);
        found = Pairs {
            early: found.early + here.early,
            late: found.late + here.late,
        };
    }
    found
}
