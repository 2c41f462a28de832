// The sets of situations before and after one instant, each from the other. A set is words, and a situation its number.

#![tactic(auto)]

pub mod back;
pub mod forward;
mod live;
pub mod marks;
mod moves;
mod plan;
mod sets;
