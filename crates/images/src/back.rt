// From the set after an instant to the situations before it that lead there.
ghost use Rattle.std.specs.Prelude.{◌≡◌, List, ◌&&◌, ◌||◌, ℕ, ◌*◌, ◌^◌, ◌<◌, length};
ghost use Rattle.model.specs.Monitor.{Monitor};
ghost use Rattle.words.specs.Words.{Is, Joined, up, below, mem, bit};
ghost use Rattle.shifts.specs.Shifted.{shifted_down};
ghost use Rattle.firings.specs.Folded.{set_at, spread_by};
ghost use Rattle.images.specs.Buffers.{Sized, Kept};
ghost use Rattle.images.specs.Advanced.{Given, Within, RetreatedTo};
ghost use Rattle.images.specs.Unset.{Unset};

use crate::live::live_states;
use crate::moves::moves;
use crate::plan::plan_of;
use crate::sets::{Clock, first_clock, is_sized, second_clock, unreset_both, unreset_one};
use firings::{has, used};
use ranges::or_range;
use shifts::shift_down;
use situation::Shape;
use words::{clear, keep_common};

// What leads into the set next by the tick of both clocks: into set 0, and nothing into the others.
fn untick(
    next: &[u64],
    n: usize,
    first: usize,
    high_first: &[u64],
    high_second: &[u64],
    sets: &mut [u64],
    one: &mut [u64],
    two: &mut [u64],
)
    requires { Sized n sets.old one.old two.old }
    ensures { Is (shifted_down next.now first high_second.now high_second.now) one.old one.new × Is (shifted_down one.new 1 high_first.now high_first.now) two.old two.new × Is (below (64 * n) (mem two.new)) sets.old sets.new }
{
    shift_down(one, next, first, high_second, high_second);
    shift_down(two, one, 1, high_first, high_first);
    clear(sets);
    or_range(sets, 0, two, 0, two, 0, 64 * n);
}

// Set r for one clock, where transitions that reset it are worth firing.
fn unset_one(
    worth: bool,
    sets: &mut [u64],
    n: usize,
    r: usize,
    clock: Clock,
    low: &[u64],
    one: &mut [u64],
    two: &mut [u64],
)
    requires { Sized n sets.old one.old two.old × (r < 4) × (0 < clock.values) }
    ensures { Joined (λ i. worth && up (64 * n * r) (below (64 * n) (spread_by clock.weight clock.values n low.now (set_at sets.old n 0))) i) sets.old sets.new × Kept one.old one.new × Kept two.old two.new }
{
    if worth {
        unreset_one(sets, n, r, clock, low, one, two);
    }
}

// .. for both.
fn unset_both(
    worth: bool,
    sets: &mut [u64],
    n: usize,
    first: Clock,
    second: Clock,
    low_first: &[u64],
    low_second: &[u64],
    one: &mut [u64],
    two: &mut [u64],
)
    requires { Sized n sets.old one.old two.old × (0 < first.values) × (0 < second.values) }
    ensures { Joined (λ i. worth && up (64 * n * 3) (below (64 * n) (spread_by first.weight first.values n low_first.now (spread_by second.weight second.values n low_second.now (set_at sets.old n 0)))) i) sets.old sets.new × Kept one.old one.new × Kept two.old two.new }
{
    if worth {
        unreset_both(sets, n, first, second, low_first, low_second, one, two);
    }
}

// The sets for each choice of clocks that are reset, from set 0; those for no worthy transition stay empty.
fn unset(
    worth: u64,
    sets: &mut [u64],
    n: usize,
    first: Clock,
    second: Clock,
    low_first: &[u64],
    low_second: &[u64],
    one: &mut [u64],
    two: &mut [u64],
)
    requires { Sized n sets.old one.old two.old × (0 < first.values) × (0 < second.values) }
    ensures { Unset worth n first.weight first.values second.weight second.values low_first.now low_second.now sets.old sets.new × Kept one.old one.new × Kept two.old two.new }
{
    unset_one(has(worth, 1), sets, n, 1, first, low_first, one, two);
    unset_one(has(worth, 2), sets, n, 2, second, low_second, one, two);
    unset_both(
        has(worth, 3),
        sets,
        n,
        first,
        second,
        low_first,
        low_second,
        one,
        two,
    );
}

// Keeps of row the situations from which some move at an instant, with the kind that is recorded there, and a tick lead into next. sets has room for four sets,
// one and two for one each; what they hold does not matter. Nothing is done where lengths do not fit each other.
pub fn retreat(
    table: &[u8],
    offsets: &[u16],
    h: Shape,
    size: usize,
    marks: &[u64],
    planes: &[u64],
    heard: Option<u8>,
    next: &[u64],
    row: &mut [u64],
    sets: &mut [u64],
    one: &mut [u64],
    two: &mut [u64],
)
    ensures { Kept row.old row.new × Kept sets.old sets.new × Kept one.old one.new × Kept two.old two.new × ((m : Monitor) (n : ℕ) → Given m table.now offsets.now h size n marks.now planes.now → Within size n row.old → Sized n sets.old one.old two.old → RetreatedTo m heard n next.now row.old row.new) }
{
    let n = row.len();
    if !is_sized(n, size, marks.len(), sets.len(), one.len(), two.len(), h) {
        return;
    }
    let low_first = &marks[0..n];
    let high_first = &marks[n..2 * n];
    let low_second = &marks[2 * n..3 * n];
    let high_second = &marks[3 * n..4 * n];
    let first = first_clock(h);
    let second = second_clock(h);
    let live = live_states(row, h);
    let p = plan_of(h, heard, live, n, true);
    let worth = used(p, table, offsets);
    untick(
        next,
        n,
        h.first as usize,
        high_first,
        high_second,
        sets,
        one,
        two,
    );
    unset(
        worth, sets, n, first, second, low_first, low_second, one, two,
    );
    moves(p, table, offsets, size, planes, sets, one);
    keep_common(row, one);
}
