// One step: a move and then one tick.

#![tactic(auto)]

ghost use Rattle.std.specs.Prelude.{◌≡◌, ◌<◌, ◌≤◌, MatchOption};
ghost use Rattle.model.specs.Situation.{keep, add, move_limit, move_of, step_by};
ghost use Rattle.monitor.specs.From.{monitor_from};
ghost use Rattle.situation.specs.Numbering.{capped_by};
ghost use Rattle.situation.specs.Ruled.{ruled_from};
ghost use Rattle.steps.specs.Stepping.{as_move, arrive_by};
ghost use Rattle.steps.specs.Steps.{sent_by, trigger_from};

use model::{FIRST_ADD, MOVE_LIMIT, REST, Situation};
use monitor::{airtime_of, device_of, fire};
use rests::{config_of, rested, ticked};
use rule::{allows, window_behind};
use situation::Shape;
use situation::numbering::number;
use wire::{byte, short};

// A move, in the order of preference: keep by a transition; add nothing, which removes what is recorded; add a row by a transition.
#[derive(Clone, Copy)]
pub enum Move {
    Keep(usize),
    Rest,
    Add(usize),
}

// The move of a number: below REST keep by that transition, REST, from FIRST_ADD on add by transition k - FIRST_ADD. None from MOVE_LIMIT on.
#[tactic(auto, unfolding(model::specs::Situation::move_of))]
pub fn move_of(k: usize) -> Option<Move>
    ensures { MatchOption result (move_limit ≤ k) (λ a. (k < move_limit) × (as_move a ≡ move_of k)) }
{
    if k < REST {
        Some(Move::Keep(k))
    } else if k == REST {
        Some(Move::Rest)
    } else if k < MOVE_LIMIT {
        Some(Move::Add(k - FIRST_ADD))
    } else {
        None
    }
}

// A row of a kind, which is a guess or not, is sent by transition j, where the air is free and the rule allows it.
#[tactic(auto, using(crate::proofs::Moves::fires_under), unfolding(crate::specs::Steps::sent_by, model::specs::Situation::sent, model::specs::Monitor::within_rule))]
fn sent<'a>(
    table: &'a [u8],
    offsets: &'a [u16],
    h: Shape,
    guess: bool,
    j: usize,
    kind: u8,
    s: Situation,
) -> Option<Situation>
    requires { s.air ≡ 0 }
    ensures { result ≡ sent_by h (ruled_from h table.now offsets.now) guess j kind s }
{
    if !allows(h.rule, s.window, guess) {
        return None;
    }
    let c = fire(table, offsets, j, kind, config_of(s))?;
    let window = window_behind(h.rule, s.window, guess);
    Some(ticked(h, c, airtime_of(table, kind), window))
}

// The kind on which transition j fires, if it does from a state.
#[tactic(auto, using(crate::proofs::Moves::records), unfolding(crate::specs::Steps::trigger_from, monitor::specs::From::monitor_from, monitor::specs::From::transition_from))]
fn trigger_from<'a>(table: &'a [u8], offsets: &'a [u16], state: u8, j: usize) -> Option<u8>
    ensures { result ≡ trigger_from (monitor_from table.now offsets.now) state j }
{
    if usize::from(byte(table, 7)) <= j {
        return None;
    }
    let at = usize::from(short(offsets, j));
    if byte(table, at) == state {
        Some(byte(table, at + 2))
    } else {
        None
    }
}

#[tactic(auto, unfolding(crate::specs::Steps::sent_by, model::specs::Situation::step_by, model::specs::Situation::moved))]
fn kept<'a>(
    table: &'a [u8],
    offsets: &'a [u16],
    h: Shape,
    heard: Option<u8>,
    s: Situation,
    j: usize,
) -> Option<Situation>
    requires { s.air ≡ 0 }
    ensures { result ≡ step_by (ruled_from h table.now offsets.now) (capped_by h) heard s (keep j) }
{
    sent(table, offsets, h, false, j, heard?, s)
}

// A row is added by transition j, where none is recorded.
#[tactic(auto, using(crate::proofs::Moves::adding_code), unfolding(model::specs::Situation::step_by, model::specs::Situation::moved))]
fn added<'a>(
    table: &'a [u8],
    offsets: &'a [u16],
    h: Shape,
    heard: Option<u8>,
    s: Situation,
    j: usize,
) -> Option<Situation>
    requires { s.air ≡ 0 }
    ensures { result ≡ step_by (ruled_from h table.now offsets.now) (capped_by h) heard s (add j) }
{
    if heard.is_some() {
        return None;
    }
    let kind = trigger_from(table, offsets, s.state, j)?;
    let guess = device_of(table, kind) == h.rule.device;
    sent(table, offsets, h, guess, j, kind, s)
}

#[tactic(auto, unfolding(model::specs::Situation::step_by, model::specs::Situation::moved, model::specs::Situation::sent))]
pub fn next<'a>(
    table: &'a [u8],
    offsets: &'a [u16],
    h: Shape,
    heard: Option<u8>,
    s: Situation,
    k: Move,
) -> Option<Situation>
    ensures { result ≡ step_by (ruled_from h table.now offsets.now) (capped_by h) heard s (as_move k) }
{
    match k {
        Move::Rest => rested(table, h, heard, s),
        _ if s.air != 0 => None,
        Move::Keep(j) => kept(table, offsets, h, heard, s, j),
        Move::Add(j) => added(table, offsets, h, heard, s, j),
    }
}

// The same step on numbers.
pub fn arrive<'a>(
    table: &'a [u8],
    offsets: &'a [u16],
    h: Shape,
    heard: Option<u8>,
    s: Situation,
    k: Move,
) -> Option<u64>
    ensures { result ≡ arrive_by table.now offsets.now h heard s (as_move k) }
{
    next(table, offsets, h, heard, s, k).map(|to| number(h, to))
}
