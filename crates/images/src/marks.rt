// The lowest and the highest values of each clock, marked in sets of n words.
ghost use Rattle.std.specs.Prelude.{◌≡◌, ℕ, ◌+◌, ◌*◌, ◌<◌, length, ◌||◌};
ghost use Rattle.model.specs.Monitor.{Monitor};
ghost use Rattle.words.specs.Words.{Joined, up, below, mem};
ghost use Rattle.situation.specs.Numbering.{Fits};
ghost use Rattle.instants.specs.Digit.{is_lowest, is_highest};
ghost use Rattle.firings.specs.Ready.{Marked};
ghost use Rattle.images.specs.Buffers.{Sized, Kept};

use crate::sets::{Clock, first_clock, is_sized, second_clock};
use ranges::or_range;
use situation::Shape;
use strides::at_most;
use words::{clear, complement};

// Set r of marks gets the numbers at which a clock is lowest.
fn mark_lowest(
    marks: &mut [u64],
    n: usize,
    r: usize,
    clock: Clock,
    one: &mut [u64],
    two: &mut [u64],
)
    requires { Sized n marks.old one.old two.old × (r < 4) × (0 < clock.weight) × (0 < clock.values) }
    ensures { Joined (up (64 * n * r) (below (64 * n) (is_lowest clock.weight clock.values))) marks.old marks.new × Kept one.old one.new × Kept two.old two.new }
{
    at_most(one, two, clock.weight, clock.values, 1);
    or_range(marks, 64 * n * r, one, 0, one, 0, 64 * n);
}

// .. is highest.
fn mark_highest(
    marks: &mut [u64],
    n: usize,
    r: usize,
    clock: Clock,
    one: &mut [u64],
    two: &mut [u64],
)
    requires { Sized n marks.old one.old two.old × (r < 4) × (0 < clock.weight) × (0 < clock.values) }
    ensures { Joined (up (64 * n * r) (below (64 * n) (is_highest clock.weight clock.values))) marks.old marks.new × Kept one.old one.new × Kept two.old two.new }
{
    at_most(one, two, clock.weight, clock.values, clock.values - 1);
    complement(one);
    or_range(marks, 64 * n * r, one, 0, one, 0, 64 * n);
}

fn mark_clock(marks: &mut [u64], n: usize, r: usize, clock: Clock, one: &mut [u64], two: &mut [u64])
    requires { Sized n marks.old one.old two.old × (r < 3) × (0 < clock.weight) × (0 < clock.values) }
    ensures { ((i : ℕ) → i < 64 * length marks.old → mem marks.new i ≡ ((mem marks.old i || up (64 * n * r) (below (64 * n) (is_lowest clock.weight clock.values)) i) || up (64 * n * (r + 1)) (below (64 * n) (is_highest clock.weight clock.values)) i)) × Kept marks.old marks.new × Kept one.old one.new × Kept two.old two.new }
{
    mark_lowest(marks, n, r, clock, one, two);
    mark_highest(marks, n, r + 1, clock, one, two);
}

// Marks the values of both clocks. Nothing is done where lengths do not fit each other.
pub fn mark_clocks(h: Shape, marks: &mut [u64], one: &mut [u64], two: &mut [u64])
    ensures { Kept marks.old marks.new × Kept one.old one.new × Kept two.old two.new × ((m : Monitor) (n : ℕ) → Fits h m → Sized n marks.old one.old two.old → Marked m n marks.new) }
{
    let n = one.len();
    if !is_sized(n, 0, marks.len(), marks.len(), one.len(), two.len(), h) {
        return;
    }
    let first = first_clock(h);
    let second = second_clock(h);
    clear(marks);
    mark_clock(marks, n, 0, first, one, two);
    mark_clock(marks, n, 2, second, one, two);
}
