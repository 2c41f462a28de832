// A tick of both clocks, as two shifts of a whole set of situations' numbers.

#![tactic(auto)]

ghost use Rattle.words.specs.Words.{Is};
ghost use Rattle.shifts.specs.Shifted.{shifted};

use shifts::shift_up;

// Both clocks tick: from set 0 of acc to one, and from that to cur.
pub fn tick(
    cur: &mut [u64],
    acc: &[u64],
    one: &mut [u64],
    first: usize,
    low_first: &[u64],
    high_first: &[u64],
    low_second: &[u64],
    high_second: &[u64],
)
    ensures { Is (shifted acc.now 1 high_first.now low_first.now) one.old one.new × Is (shifted one.new first high_second.now low_second.now) cur.old cur.new }
{
    shift_up(one, acc, 1, high_first, low_first);
    shift_up(cur, one, first, high_second, low_second);
}
