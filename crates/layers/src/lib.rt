// The least move from a situation into a set. A set is a row of bits in the scratch.

#![tactic(auto)]

ghost use Rattle.std.specs.Prelude.{◌≡◌, ℕ, ◌<◌, false, MatchOption};
ghost use Rattle.model.specs.Situation.{move_limit};
ghost use Rattle.model.specs.Layers.{into};
ghost use Rattle.monitor.specs.From.{transition_count};
ghost use Rattle.steps.specs.Stepping.{as_move, arrive_by, step_at};
ghost use Rattle.layers.specs.Into.{in_row, least_into, by_transition, Leads, FirstBy, LeastMove, first_of};

use model::Situation;
use monitor::transitions;
use rows::span;
use rows::span::Span;
use situation::Shape;
use situation::numbering::situation_of;
use steps::{Move, arrive};

// A move, and the number of the situation that it leads to.
#[derive(Clone, Copy)]
pub struct Least {
    pub k: Move,
    pub to: u64,
}

// A move, if it leads into the row.
fn leading<'a>(
    table: &'a [u8],
    offsets: &'a [u16],
    h: Shape,
    heard: Option<u8>,
    s: Situation,
    k: Move,
    scratch: &'a [u8],
    to: Span,
) -> Option<Least>
    ensures { MatchOption result (into (in_row scratch.now to.start to.size) (arrive_by table.now offsets.now h heard s (as_move k)) ≡ false) (Leads (in_row scratch.now to.start to.size) (arrive_by table.now offsets.now h heard s) (as_move k)) }
{
    let z = arrive(table, offsets, h, heard, s, k)?;
    if z < to.size as u64 && span::has(scratch, to.start, z as usize) {
        Some(Least { k, to: z })
    } else {
        None
    }
}

// The first of the moves by a transition that leads into the row. A recorded row is kept; where none is recorded, one is added.
fn first_by<'a>(
    table: &'a [u8],
    offsets: &'a [u16],
    h: Shape,
    heard: Option<u8>,
    s: Situation,
    scratch: &'a [u8],
    to: Span,
) -> Option<Least>
    ensures { MatchOption result (first_of (in_row scratch.now to.start to.size) (arrive_by table.now offsets.now h heard s) (by_transition heard) (transition_count table.now) ≡ transition_count table.now) (FirstBy (in_row scratch.now to.start to.size) (arrive_by table.now offsets.now h heard s) (by_transition heard) (transition_count table.now)) }
{
    for j in 0..transitions(table) {
        let k = match heard {
            Some(_) => Move::Keep(j),
            None => Move::Add(j),
        };
        if let Some(least) = leading(table, offsets, h, heard, s, k, scratch, to) {
            return Some(least);
        }
    }
    None
}

// The least move that leads from situation n into the row, if one does. While the air is taken, no row is kept or added.
pub fn least_into<'a>(
    table: &'a [u8],
    offsets: &'a [u16],
    h: Shape,
    heard: Option<u8>,
    scratch: &'a [u8],
    to: Span,
    n: u64,
) -> Option<Least>
    ensures { let least = least_into (step_at table.now offsets.now h heard) scratch.now to.start to.size n in MatchOption result (least ≡ move_limit) (LeastMove (step_at table.now offsets.now h heard n) least) }
{
    let s = situation_of(h, n);
    let rest = || leading(table, offsets, h, heard, s, Move::Rest, scratch, to);
    let sent = || first_by(table, offsets, h, heard, s, scratch, to);
    match heard {
        _ if s.air > 0 => rest(),
        Some(_) => sent().or_else(rest),
        None => rest().or_else(sent),
    }
}
