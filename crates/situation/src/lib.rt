// Situations: numbered into a set and back, and what a recording says of an instant.

#![tactic(auto)]

use model::Rule;

pub mod numbering;
pub mod rows;

// How situations are numbered: the states, 2 to the number of variables, the values of each clock, 1 for a clock that the table does not have, and the windows
// of the rule under which moves are made.
#[derive(Clone, Copy)]
pub struct Shape {
    pub states: u8,
    pub masks: u8,
    pub first: u16,
    pub second: u16,
    pub windows: u8,
    pub rule: Rule,
}
