// The states that have a situation in a set: from others nothing need be fired.
ghost use Rattle.std.specs.Prelude.{◌≡◌, ◌&&◌, ℕ, ◌<◌, ltb};
ghost use Rattle.words.specs.Words.{bit};
ghost use Rattle.images.specs.Living.{in_window, is_live};

use ranges::any_in;
use situation::Shape;

// Has a state a situation in the set, in one window? Their numbers are in a row.
fn in_window(s: &[u64], h: Shape, state: u8, w: u8) -> bool
    ensures { result ≡ in_window h s.now state w }
{
    let numbers = h.first as usize * h.second as usize * h.masks as usize;
    let row = state as usize + h.states as usize * w as usize;
    any_in(s, numbers * row, numbers)
}

// .. in any?
fn is_live(s: &[u64], h: Shape, state: u8) -> bool
    ensures { result ≡ is_live h s.now state }
{
    (0..h.windows).any(|w| in_window(s, h, state, w))
}

// As a mask, of the first 64 states.
pub(crate) fn live_states(s: &[u64], h: Shape) -> u64
    ensures { (q : ℕ) → q < 64 → bit result q ≡ (ltb q h.states && is_live h s.now q) }
{
    let mut live = 0;
    for state in 0..h.states.min(64) {
        if is_live(s, h, state) {
            live |= 1 << state;
        }
    }
    live
}
