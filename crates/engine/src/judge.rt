// Judging a sound recording: forward through the sets, and where a situation is left, back and along the least moves.
ghost use Rattle.std.specs.Prelude.{◌+◌, ◌*◌, ◌≤◌, ◌≡◌, length, replicate};
ghost use Rattle.monitor.specs.From.{offsets_of};
ghost use Rattle.images.specs.Buffers.{Sized, Kept};
ghost use Rattle.measures.specs.Setting.{monitor_by};
ghost use Rattle.measures.specs.Working.{Working, Preparing};
ghost use Rattle.engine.specs.Rooms.{Rooms};
ghost use Rattle.engine.specs.Judging.{Judging, Ending, Concluded, Settled};

use backward::prune::prune;
use backward::walk::walk;
use bits::clear;
use forward::{Outcome, forward};
use images::marks::mark_clocks;
use measures::Measures;
use model::{Edition, Verdict};
use monitor::offsets;
use planes::guards;

// What a forward pass comes to. Where it passed, the rows are pruned and the witness is written.
fn conclude<'a>(
    edition: Edition,
    table: &'a [u8],
    offsets: &'a [u16],
    recording: &'a [u8],
    g: Measures,
    marks: &'a [u64],
    planes: &'a [u64],
    budget: u64,
    scratch: &mut [u8],
    room: &mut [u8],
    next: &mut [u64],
    row: &mut [u64],
    sets: &mut [u64],
    one: &mut [u64],
    two: &mut [u64],
    memo: &mut [u64],
    outcome: Outcome,
) -> Verdict
    requires { Ending edition table.now offsets.now recording.now scratch.old room.old g budget outcome × (g.row * (g.last + 1) ≤ length scratch.old) × Working table.now offsets.now g marks.now planes.now × Sized g.words sets.old one.old two.old × (length next.old ≡ g.words) × (length row.old ≡ g.words) }
    ensures { Concluded edition (monitor_by g table.now) recording.now budget scratch.old room.old scratch.new room.new result }
{
    match outcome {
        Outcome::Spent { instant } => Verdict::Exhausted { budget, instant },
        Outcome::Emptied {
            cost,
            instant,
            early,
            late,
        } => Verdict::Rejected {
            cost,
            instant,
            not_yet: early,
            no_more: late,
        },
        Outcome::Passed { cost } => {
            prune(
                table, offsets, recording, g, marks, planes, scratch, next, row, sets, one, two,
                memo,
            );
            let rows = walk(edition, table, offsets, recording, g, scratch, room);
            Verdict::Accepted {
                cost,
                rows: rows as u64,
            }
        }
    }
}

// Forward, and what that comes to.
fn pass<'a>(
    edition: Edition,
    table: &'a [u8],
    offsets: &'a [u16],
    recording: &'a [u8],
    g: Measures,
    marks: &'a [u64],
    planes: &'a [u64],
    budget: u64,
    scratch: &mut [u8],
    room: &mut [u8],
    cur: &mut [u64],
    row: &mut [u64],
    sets: &mut [u64],
    one: &mut [u64],
    two: &mut [u64],
    memo: &mut [u64],
) -> Verdict
    requires { Judging edition table.now recording.now scratch.old room.old g × (offsets.now ≡ offsets_of table.now) × (scratch.old ≡ replicate (length scratch.old) 0) × Working table.now offsets.now g marks.now planes.now × Sized g.words sets.old one.old two.old × (length cur.old ≡ g.words) × (length row.old ≡ g.words) }
    ensures { Concluded edition (monitor_by g table.now) recording.now budget scratch.old room.old scratch.new room.new result }
{
    let outcome = forward(
        table, offsets, recording, g, marks, planes, budget, scratch, cur, sets, one, two, memo,
    );
    conclude(
        edition, table, offsets, recording, g, marks, planes, budget, scratch, room, cur, row,
        sets, one, two, memo, outcome,
    )
}

// Marks clock values and works out the planes of guards. planes has room for 80 sets, since a guard of 32 bytes has at most 17 sets in hand.
fn prepare<'a>(
    table: &'a [u8],
    offsets: &'a [u16],
    g: Measures,
    marks: &mut [u64],
    planes: &mut [u64],
    one: &mut [u64],
    two: &mut [u64],
)
    requires { Preparing table.now offsets.now g × Sized g.words marks.old one.old two.old × (80 * g.words ≤ length planes.old) }
    ensures { Working table.now offsets.now g marks.new planes.new × Kept one.old one.new × Kept two.old two.new }
{
    let h = g.shape;
    mark_clocks(h, marks, one, two);
    let numbers = h.first as usize * h.second as usize * h.masks as usize;
    let n = (numbers + 63) / 64;
    guards(
        table,
        offsets,
        h.first as u32,
        h.second as u32,
        n as u32,
        planes,
        one,
    );
}

// With room for sets of so many words: marks and sets for four, planes for 80, the others for one each; and memo for what is remembered, as much as it has.
fn judge_in<'a>(
    edition: Edition,
    table: &'a [u8],
    recording: &'a [u8],
    g: Measures,
    budget: u64,
    scratch: &mut [u8],
    room: &mut [u8],
    planes: &mut [u64],
    marks: &mut [u64],
    cur: &mut [u64],
    row: &mut [u64],
    sets: &mut [u64],
    one: &mut [u64],
    two: &mut [u64],
    memo: &mut [u64],
) -> Verdict
    requires { Judging edition table.now recording.now scratch.old room.old g × Rooms g.words planes.old marks.old cur.old row.old sets.old one.old two.old }
    ensures { Settled edition (monitor_by g table.now) recording.now budget scratch.old room.old scratch.new room.new result }
{
    let found = offsets(table);
    prepare(table, &found, g, marks, planes, one, two);
    clear(scratch); // whatever it held
    let verdict = pass(
        edition, table, &found, recording, g, marks, planes, budget, scratch, room, cur, row, sets,
        one, two, memo,
    );
    clear(scratch); // left zero
    verdict
}

// Sets of at most 16 words: not much is made ready for a small table.
fn judge_small<'a>(
    edition: Edition,
    table: &'a [u8],
    recording: &'a [u8],
    g: Measures,
    budget: u64,
    scratch: &mut [u8],
    room: &mut [u8],
) -> Verdict
    requires { Judging edition table.now recording.now scratch.old room.old g × (g.words ≤ 16) }
    ensures { Settled edition (monitor_by g table.now) recording.now budget scratch.old room.old scratch.new room.new result }
{
    let n = g.words;
    let four = 4 * n;
    let mut planes = [0u64; 1280];
    let mut marks = [0u64; 64];
    let mut sets = [0u64; 64];
    let mut cur = [0u64; 16];
    let mut row = [0u64; 16];
    let mut one = [0u64; 16];
    let mut two = [0u64; 16];
    let mut memo = [0u64; 2048];
    judge_in(
        edition,
        table,
        recording,
        g,
        budget,
        scratch,
        room,
        &mut planes,
        &mut marks[0..four],
        &mut cur[0..n],
        &mut row[0..n],
        &mut sets[0..four],
        &mut one[0..n],
        &mut two[0..n],
        &mut memo,
    )
}

// .. of at most 1,024. One instant is remembered.
fn judge_wide<'a>(
    edition: Edition,
    table: &'a [u8],
    recording: &'a [u8],
    g: Measures,
    budget: u64,
    scratch: &mut [u8],
    room: &mut [u8],
) -> Verdict
    requires { Judging edition table.now recording.now scratch.old room.old g × (g.words ≤ 1024) }
    ensures { Settled edition (monitor_by g table.now) recording.now budget scratch.old room.old scratch.new room.new result }
{
    let n = g.words;
    let four = 4 * n;
    let mut planes = [0u64; 81920];
    let mut marks = [0u64; 4096];
    let mut sets = [0u64; 4096];
    let mut cur = [0u64; 1024];
    let mut row = [0u64; 1024];
    let mut one = [0u64; 1024];
    let mut two = [0u64; 1024];
    let mut memo = [0u64; 3073];
    judge_in(
        edition,
        table,
        recording,
        g,
        budget,
        scratch,
        room,
        &mut planes,
        &mut marks[0..four],
        &mut cur[0..n],
        &mut row[0..n],
        &mut sets[0..four],
        &mut one[0..n],
        &mut two[0..n],
        &mut memo,
    )
}

pub(crate) fn judge<'a>(
    edition: Edition,
    table: &'a [u8],
    recording: &'a [u8],
    g: Measures,
    budget: u64,
    scratch: &mut [u8],
    room: &mut [u8],
) -> Verdict
    requires { Judging edition table.now recording.now scratch.old room.old g }
    ensures { Settled edition (monitor_by g table.now) recording.now budget scratch.old room.old scratch.new room.new result }
{
    if g.words <= 16 {
        return judge_small(edition, table, recording, g, budget, scratch, room);
    }
    judge_wide(edition, table, recording, g, budget, scratch, room)
}
