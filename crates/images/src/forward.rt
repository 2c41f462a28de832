// From the set before an instant to the set after it.
ghost use Rattle.std.specs.Prelude.{List, ◌||◌, ℕ, ◌*◌, ◌^◌, ◌<◌, length};
ghost use Rattle.model.specs.Monitor.{Monitor};
ghost use Rattle.images.specs.Buffers.{Sized, Kept};
ghost use Rattle.images.specs.Advanced.{Given, Within, AdvancedTo};

use crate::live::live_states;
use crate::moves::moves;
use crate::plan::plan_of;
use crate::sets::{first_clock, is_sized, reset_all, second_clock};
use situation::Shape;
use ticks::tick;

// What the moves of an instant and a tick make of the set cur, with the kind that is recorded there. acc has room for four sets, one and two for one each; what
// they hold does not matter. Nothing is done where lengths do not fit each other.
pub fn advance(
    table: &[u8],
    offsets: &[u16],
    h: Shape,
    size: usize,
    marks: &[u64],
    planes: &[u64],
    heard: Option<u8>,
    cur: &mut [u64],
    acc: &mut [u64],
    one: &mut [u64],
    two: &mut [u64],
)
    ensures { Kept cur.old cur.new × Kept acc.old acc.new × Kept one.old one.new × Kept two.old two.new × ((m : Monitor) (n : ℕ) → Given m table.now offsets.now h size n marks.now planes.now → Within size n cur.old → Sized n acc.old one.old two.old → AdvancedTo m heard n cur.old cur.new) }
{
    let n = cur.len();
    if !is_sized(n, size, marks.len(), acc.len(), one.len(), two.len(), h) {
        return;
    }
    let low_first = &marks[0..n];
    let high_first = &marks[n..2 * n];
    let low_second = &marks[2 * n..3 * n];
    let high_second = &marks[3 * n..4 * n];
    let live = live_states(cur, h);
    let p = plan_of(h, heard, live, n, false);
    moves(p, table, offsets, size, planes, cur, acc);
    let first = first_clock(h);
    let second = second_clock(h);
    reset_all(acc, n, first, second, low_first, low_second, one, two);
    tick(
        cur,
        acc,
        one,
        h.first as usize,
        low_first,
        high_first,
        low_second,
        high_second,
    );
}
