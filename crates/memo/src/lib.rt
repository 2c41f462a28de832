// An instant's sets, recalled where they were worked out before: a recording often comes to the same set again. A memory is lent words; what it holds is of one
// monitor, forward or back, and for sets of one width.

#![tactic(auto)]

mod entry;
mod slot;

ghost use Rattle.std.specs.Prelude.{◌≡◌, ℕ, length};
ghost use Rattle.model.specs.Monitor.{Monitor};
ghost use Rattle.images.specs.Buffers.{Sized, Kept};
ghost use Rattle.images.specs.Advanced.{Given, Within, AdvancedTo, RetreatedTo};
ghost use Rattle.memo.specs.Known.{Known, KnownBack};

use entry::{begin, get, holds, is_for, put};
use images::{back, forward};
use situation::Shape;
use slot::{mix, place, tag_of};

// A memory that holds nothing.
pub fn forget(memo: &mut [u64])
    ensures { Kept memo.old memo.new × ((m : Monitor) (n : ℕ) → Known m n memo.new × KnownBack m n memo.new) }
{
    memo.fill(0);
}

// As images' `advance`, with a memory.
pub fn advance(
    table: &[u8],
    offsets: &[u16],
    h: Shape,
    size: usize,
    marks: &[u64],
    planes: &[u64],
    heard: Option<u8>,
    cur: &mut [u64],
    sets: &mut [u64],
    one: &mut [u64],
    two: &mut [u64],
    memo: &mut [u64],
)
    ensures { Kept cur.old cur.new × Kept sets.old sets.new × Kept one.old one.new × Kept two.old two.new × Kept memo.old memo.new × ((m : Monitor) (n : ℕ) → Given m table.now offsets.now h size n marks.now planes.now → Within size n cur.old → Sized n sets.old one.old two.old → Known m n memo.old → AdvancedTo m heard n cur.old cur.new × Known m n memo.new) }
{
    let n = cur.len();
    let tag = tag_of(heard);
    let Some(at) = place(memo.len(), n, 1 + 2 * n, || mix(tag, cur)) else {
        forward::advance(
            table, offsets, h, size, marks, planes, heard, cur, sets, one, two,
        );
        return;
    };
    if is_for(memo, at, tag, cur) {
        get(memo, at + 1 + n, cur);
        return;
    }
    begin(memo, at, tag, cur);
    forward::advance(
        table, offsets, h, size, marks, planes, heard, cur, sets, one, two,
    );
    put(memo, at + 1 + n, cur);
}

// As images' `retreat`, with a memory.
pub fn retreat(
    table: &[u8],
    offsets: &[u16],
    h: Shape,
    size: usize,
    marks: &[u64],
    planes: &[u64],
    heard: Option<u8>,
    next: &[u64],
    row: &mut [u64],
    sets: &mut [u64],
    one: &mut [u64],
    two: &mut [u64],
    memo: &mut [u64],
)
    ensures { Kept row.old row.new × Kept sets.old sets.new × Kept one.old one.new × Kept two.old two.new × Kept memo.old memo.new × ((m : Monitor) (n : ℕ) → Given m table.now offsets.now h size n marks.now planes.now → Within size n row.old → length next.now ≡ n → Sized n sets.old one.old two.old → KnownBack m n memo.old → RetreatedTo m heard n next.now row.old row.new × KnownBack m n memo.new) }
{
    let n = row.len();
    let tag = tag_of(heard);
    match place(memo.len(), n, 1 + 3 * n, || mix(mix(tag, next), row)) {
        Some(at) if next.len() == n => {
            if is_for(memo, at, tag, next) && holds(memo, at + 1 + n, row) {
                get(memo, at + 1 + 2 * n, row);
                return;
            }
            begin(memo, at, tag, next);
            put(memo, at + 1 + n, row);
            back::retreat(
                table, offsets, h, size, marks, planes, heard, next, row, sets, one, two,
            );
            put(memo, at + 1 + 2 * n, row);
        }
        _ => back::retreat(
            table, offsets, h, size, marks, planes, heard, next, row, sets, one, two,
        ),
    }
}
