// A set moved by k numbers, up or down: what comes to where cut has a number is dropped, and what keep has stays where it is.
// Words that a set lacks count as 0. What every set has is one loop with no test of a bound.

#![tactic(auto)]

mod down;
mod fills;
mod up;
mod way;

pub use down::{Down, shift_down};
pub use fills::{fill, fill_within};
pub use up::{Up, shift_up, word_before};
pub use way::{Way, moved_word, read};
