// A situation's tick, and what a rest or a removed row makes of it. Each function takes any input.

#![tactic(auto)]

ghost use Rattle.std.specs.Prelude.{◌≡◌, List, ℕ, ◌+◌, ◌-◌, min};
ghost use Rattle.model.specs.Situation.{rest, config_of, tick, step_by};
ghost use Rattle.situation.specs.Numbering.{capped_by};
ghost use Rattle.situation.specs.Ruled.{ruled_from};
ghost use Rattle.rests.specs.Resting.{ticked_by};

use model::{Config, Situation};
use monitor::{airtime_of, to_unit};
use situation::Shape;

// A clock one tick later, where it has that many values.
fn clock_ticked(reads: u16, values: u16) -> u16
    ensures { result ≡ min (reads + 1) (values - 1) }
{
    reads.saturating_add(1).min(values.saturating_sub(1))
}

// A configuration one tick later, with the ticks for which the air is then taken, and the window.
#[tactic(auto, using(crate::proofs::Ticks::written))]
pub fn ticked(h: Shape, c: Config, air: u8, window: u8) -> Situation
    ensures { result ≡ ticked_by h c air window }
{
    Situation {
        state: c.state,
        variables: c.variables,
        clocks: [
            clock_ticked(c.clocks[0], h.first),
            clock_ticked(c.clocks[1], h.second),
        ],
        air,
        window,
    }
}

// A function, since `From` could only be implemented in `model`, which has both types.
pub fn config_of(s: Situation) -> Config
    ensures { result ≡ config_of s }
{
    let clocks = s.clocks;
    Config {
        state: s.state,
        variables: s.variables,
        clocks,
    }
}

// Nothing is sent.
fn still(h: Shape, s: Situation) -> Situation
    ensures { result ≡ tick (capped_by h) s }
{
    ticked(h, config_of(s), s.air.saturating_sub(1), s.window)
}

// A recorded row of a kind is removed, where it is to the unit and the air is free. It takes the air; the unit missed it.
#[tactic(auto, unfolding(model::specs::Situation::step_by, model::specs::Situation::moved, model::specs::Situation::missed))]
fn missed(table: &[u8], h: Shape, kind: u8, s: Situation) -> Option<Situation>
    ensures { (offsets : List ℕ) → result ≡ step_by (ruled_from h table.now offsets) (capped_by h) (Some kind) s rest }
{
    if s.air > 0 || !to_unit(table, kind) {
        return None;
    }
    let air = airtime_of(table, kind);
    Some(ticked(h, config_of(s), air, s.window))
}

#[tactic(auto, unfolding(model::specs::Situation::step_by, model::specs::Situation::moved))]
pub fn rested(table: &[u8], h: Shape, heard: Option<u8>, s: Situation) -> Option<Situation>
    ensures { (offsets : List ℕ) → result ≡ step_by (ruled_from h table.now offsets) (capped_by h) heard s rest }
{
    match heard {
        None => Some(still(h, s)),
        Some(kind) => missed(table, h, kind, s),
    }
}
