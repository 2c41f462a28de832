// Four sets of n words in one buffer, one for each choice of clocks that are reset (1 the first, 2 the second, 3 both), and the resets on them.
ghost use Rattle.std.specs.Prelude.{◌≡◌, true, ℕ, ◌*◌, ◌<◌, length};
ghost use Rattle.words.specs.Words.{Is, Joined, up, below, mem};
ghost use Rattle.firings.specs.Folded.{set_at, folded_by, spread_by, reset_sets};
ghost use Rattle.images.specs.Buffers.{Lengths, Sized, Kept};

use ranges::{any_in, or_range};
use situation::Shape;
use strides::{spread_down, spread_up};
use words::{any, clear, keep_common};

// A clock, as a digit of a situation's number: its weight, and how many values it has.
#[derive(Clone, Copy)]
pub(crate) struct Clock {
    pub weight: u32,
    pub values: u32,
}

pub(crate) fn first_clock(h: Shape) -> Clock
    ensures { (result.weight ≡ 1) × (result.values ≡ h.first) }
{
    Clock {
        weight: 1,
        values: h.first as u32,
    }
}

pub(crate) fn second_clock(h: Shape) -> Clock
    ensures { (result.weight ≡ h.first) × (result.values ≡ h.second) }
{
    Clock {
        weight: h.first as u32,
        values: h.second as u32,
    }
}

// Do the lengths of marks, a buffer of four sets and two of one fit sets of n words, and these a table's situations?
pub(crate) fn is_sized(
    n: usize,
    size: usize,
    marks: usize,
    four: usize,
    one: usize,
    two: usize,
    h: Shape,
) -> bool
    ensures { (result ≡ true → Lengths n size marks four one two h) × (Lengths n size marks four one two h → result ≡ true) }
{
    if 1024 < n {
        return false;
    }
    if 65536 < size {
        return false;
    }
    if marks < 4 * n {
        return false;
    }
    if four != 4 * n {
        return false;
    }
    if one != n {
        return false;
    }
    if two != n {
        return false;
    }
    if h.first == 0 {
        return false;
    }
    0 < h.second
}

// Set `from` with a clock made 0 goes into set `to`; low has the numbers at which the clock is 0.
fn fold(
    b: &mut [u64],
    n: usize,
    from: usize,
    to: usize,
    clock: Clock,
    low: &[u64],
    one: &mut [u64],
    two: &mut [u64],
)
    requires { Sized n b.old one.old two.old × (from < 4) × (to < 4) × (0 < clock.values) }
    ensures { Joined (up (64 * n * to) (below (64 * n) (folded_by clock.weight clock.values n low.now (set_at b.old n from)))) b.old b.new × Kept one.old one.new × Kept two.old two.new }
{
    if any_in(b, 64 * n * from, 64 * n) {
        clear(one);
        or_range(one, 0, b, 64 * n * from, b, 64 * n * from, 64 * n);
        spread_down(one, two, clock.weight, clock.values);
        or_range(b, 64 * n * to, one, 0, low, 0, 64 * n);
    }
}

// All resets: what they give goes into set 0.
pub(crate) fn reset_all(
    b: &mut [u64],
    n: usize,
    first: Clock,
    second: Clock,
    low_first: &[u64],
    low_second: &[u64],
    one: &mut [u64],
    two: &mut [u64],
)
    requires { Sized n b.old one.old two.old × (first.weight ≡ 1) × (second.weight ≡ first.values) × (0 < first.values) × (0 < second.values) }
    ensures { Kept b.old b.new × ((i : ℕ) → i < 64 * n → mem b.new i ≡ reset_sets first.values second.values n low_first.now low_second.now b.old i) × Kept one.old one.new × Kept two.old two.new }
{
    fold(b, n, 3, 1, second, low_second, one, two);
    fold(b, n, 1, 0, first, low_first, one, two);
    fold(b, n, 2, 0, second, low_second, one, two);
}

// What set 0 has where a clock is 0, at all of the clock's values.
fn spread_first(b: &[u64], n: usize, clock: Clock, low: &[u64], one: &mut [u64], two: &mut [u64])
    requires { Sized n b.now one.old two.old × (0 < clock.values) }
    ensures { Is (spread_by clock.weight clock.values n low.now (set_at b.now n 0)) one.old one.new × Kept two.old two.new }
{
    clear(one);
    or_range(one, 0, b, 0, low, 0, 64 * n);
    if any(one) {
        spread_up(one, two, clock.weight, clock.values);
    }
}

// The same of a set that stands alone.
fn spread_again(one: &mut [u64], two: &mut [u64], n: usize, clock: Clock, low: &[u64])
    requires { (length one.old ≡ n) × (length two.old ≡ n) × (0 < clock.values) }
    ensures { Is (spread_by clock.weight clock.values n low.now (mem one.old)) one.old one.new × Kept two.old two.new }
{
    keep_common(one, low);
    spread_up(one, two, clock.weight, clock.values);
}

// Set r, which is empty, becomes what leads into set 0 where one clock is reset.
pub(crate) fn unreset_one(
    b: &mut [u64],
    n: usize,
    r: usize,
    clock: Clock,
    low: &[u64],
    one: &mut [u64],
    two: &mut [u64],
)
    requires { Sized n b.old one.old two.old × (r < 4) × (0 < clock.values) }
    ensures { Joined (up (64 * n * r) (below (64 * n) (spread_by clock.weight clock.values n low.now (set_at b.old n 0)))) b.old b.new × Kept one.old one.new × Kept two.old two.new }
{
    spread_first(b, n, clock, low, one, two);
    or_range(b, 64 * n * r, one, 0, one, 0, 64 * n);
}

// .. where both are.
pub(crate) fn unreset_both(
    b: &mut [u64],
    n: usize,
    first: Clock,
    second: Clock,
    low_first: &[u64],
    low_second: &[u64],
    one: &mut [u64],
    two: &mut [u64],
)
    requires { Sized n b.old one.old two.old × (0 < first.values) × (0 < second.values) }
    ensures { Joined (up (64 * n * 3) (below (64 * n) (spread_by first.weight first.values n low_first.now (spread_by second.weight second.values n low_second.now (set_at b.old n 0))))) b.old b.new × Kept one.old one.new × Kept two.old two.new }
{
    spread_first(b, n, second, low_second, one, two);
    spread_again(one, two, n, first, low_first);
    or_range(b, 64 * n * 3, one, 0, one, 0, 64 * n);
}
