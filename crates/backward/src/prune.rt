// The way back through the rows: a situation from which the end cannot be reached is cut from its row.
ghost use Rattle.std.specs.Prelude.{◌+◌, ◌*◌, ◌≤◌, ◌<◌, ◌≡◌, length};
ghost use Rattle.images.specs.Buffers.{Sized, Kept};
ghost use Rattle.measures.specs.Roomy.{Roomy};
ghost use Rattle.measures.specs.Setting.{monitor_by, Setting, LayersUpTo};
ghost use Rattle.measures.specs.Working.{Working};
ghost use Rattle.backward.specs.PruneRows.{cursor_before, PrunedRows, PrunedTo};

use measures::{Measures, is_roomy};
use memo::{forget, retreat};
use rows::{load, store};
use situation::rows::heard_at;
use wire::word;
use words::copy;

// The cursor of instant t, from that of the next instant.
#[tactic(auto, unfolding(crate::specs::PruneRows::cursor_before, situation::specs::Rows::heard_at))]
fn back(recording: &[u8], cursor: usize, t: u64) -> usize
    ensures { result ≡ cursor_before recording.now cursor t }
{
    let before = cursor.saturating_sub(1);
    if heard_at(recording, before, t).is_some() {
        before
    } else {
        cursor
    }
}

// Prunes the row of instant t by the row after it, which is in next; then next is the pruned row. The cursor goes back with it.
fn prune_at<'a>(
    table: &'a [u8],
    offsets: &'a [u16],
    recording: &'a [u8],
    g: Measures,
    marks: &'a [u64],
    planes: &'a [u64],
    scratch: &mut [u8],
    next: &mut [u64],
    row: &mut [u64],
    sets: &mut [u64],
    one: &mut [u64],
    two: &mut [u64],
    memo: &mut [u64],
    cursor: usize,
    t: usize,
) -> usize
    requires { Roomy g (length scratch.old) × (t < g.last) }
    ensures { Setting table.now offsets.now recording.now g → Working table.now offsets.now g marks.now planes.now
        → PrunedTo (monitor_by g table.now) g recording.now (t + 1) cursor scratch.old next.old row.old sets.old one.old two.old memo.old
        → PrunedTo (monitor_by g table.now) g recording.now t result scratch.new next.new row.new sets.new one.new two.new memo.new }
{
    let instant = t as u64 + 1;
    let before = back(recording, cursor, instant);
    let heard = heard_at(recording, before, instant);
    let from = g.row * t;
    let to = from + g.row;
    load(&scratch[from..to], row);
    retreat(
        table, offsets, g.shape, g.size, marks, planes, heard, next, row, sets, one, two, memo,
    );
    store(row, &mut scratch[from..to]);
    copy(next, row);
    before
}

// Leaves in each row the situations from which the last instant can be reached. next, row, sets, one and two have room for the sets that it works with, and memo for what it may remember.
pub fn prune<'a>(
    table: &'a [u8],
    offsets: &'a [u16],
    recording: &'a [u8],
    g: Measures,
    marks: &'a [u64],
    planes: &'a [u64],
    scratch: &mut [u8],
    next: &mut [u64],
    row: &mut [u64],
    sets: &mut [u64],
    one: &mut [u64],
    two: &mut [u64],
    memo: &mut [u64],
)
    ensures kept { Kept scratch.old scratch.new × Kept next.old next.new × Kept row.old row.new × Kept sets.old sets.new × Kept one.old one.new × Kept two.old two.new × Kept memo.old memo.new }
    ensures pruned { Setting table.now offsets.now recording.now g → Working table.now offsets.now g marks.now planes.now → g.row * (g.last + 1) ≤ length scratch.old
        → LayersUpTo (monitor_by g table.now) recording.now scratch.old g.row g.last
        → Sized g.words sets.old one.old two.old → length next.old ≡ g.words → length row.old ≡ g.words
        → PrunedRows (monitor_by g table.now) recording.now scratch.new g.row g.size g.last }
{
    // Sizes that do not fit each other: nothing is done.
    if !is_roomy(g, scratch.len()) {
        return;
    }
    let from = g.row * g.last;
    load(&scratch[from..from + g.row], next);
    forget(memo);
    let mut cursor = usize::from(word(recording, 3));
    for t in (0..g.last).rev() {
        cursor = prune_at(
            table, offsets, recording, g, marks, planes, scratch, next, row, sets, one, two, memo,
            cursor, t,
        );
    }
}
