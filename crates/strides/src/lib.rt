// A set of numbers repeated at a stride, by doubling: once the places below k are there, moving by k more joins those below 2 k.

#![tactic(auto)]

ghost use Rattle.std.specs.Prelude.{◌≡◌, false, ℕ, ◌+◌, ◌-◌, ◌*◌, ◌/◌, ◌%◌, ◌^◌, ◌<◌, ◌≤◌, length, ltb};
ghost use Rattle.words.specs.Words.{Is, any_below, mem, up};
ghost use Rattle.shifts.specs.Filled.{IsWord};
ghost use Rattle.shifts.specs.Shifted.{IsInner, moved, upward};
ghost use Rattle.strides.specs.Strides.{with_moved};

use shifts::{Down, Up, Way, fill, fill_within, moved_word, read};
use words::copy;

// Word w of a set joined with itself, moved by k.
fn joined_word<W: Way, const TESTED: bool>(a: &[u64], w: usize, k: usize) -> u64
    requires { (w < 2 ^ 60) × (TESTED ≡ false → IsInner W.moves (length a.now) k w) }
    ensures { IsWord (with_moved W.moves k (mem a.now)) w result }
{
    read::<TESTED>(a, w) | moved_word::<W, TESTED>(a, w, k)
}

// a with itself, moved by k.
fn step<W: Way>(a: &mut [u64], spare: &mut [u64], k: usize)
    requires { length a.old ≡ length spare.old }
    ensures { Is (with_moved W.moves k (mem a.old)) a.old a.new }
{
    let src = &*a;
    fill_within(
        spare,
        W::inner(src.len(), k),
        |w| joined_word::<W, true>(src, w, k),
        |w| joined_word::<W, false>(src, w, k),
    );
    copy(a, spare);
}

// The numbers of a moved by 0, w, 2 w, .., n of them.
fn all<W: Way>(a: &mut [u64], spare: &mut [u64], w: usize, n: usize)
    requires { (length a.old ≡ length spare.old) × (w < 2 ^ 32) × (0 < n) × (n < 2 ^ 32) }
    ensures { Is (λ i. any_below (λ d. moved W.moves (w * d) (mem a.old) i) n) a.old a.new }
{
    // k doubles, which no range counts.
    let mut k = 1;
    while k <= n - k {
        step::<W>(a, spare, w * k);
        k = 2 * k;
    }
    if k < n {
        step::<W>(a, spare, w * (n - k));
    }
}

// .. with as much of spare as a is long.
fn spread<W: Way>(a: &mut [u64], spare: &mut [u64], w: u32, n: u32)
    ensures { length a.old ≤ length spare.old → 0 < n → Is (λ i. any_below (λ d. moved W.moves (w * d) (mem a.old) i) n) a.old a.new }
{
    let len = a.len();
    if len <= spare.len() && 0 < n {
        all::<W>(a, &mut spare[..len], w as usize, n as usize);
    }
}

// The numbers of a moved up by 0, w, 2 w, .., n of them.
pub fn spread_up(a: &mut [u64], spare: &mut [u64], w: u32, n: u32)
    ensures { (length a.new ≡ length a.old) × (length spare.new ≡ length spare.old) × (length a.old ≤ length spare.old → 0 < n → Is (λ i. any_below (λ d. up (w * d) (mem a.old) i) n) a.old a.new) }
{
    spread::<Up>(a, spare, w, n);
}

// The numbers of a moved down.
pub fn spread_down(a: &mut [u64], spare: &mut [u64], w: u32, n: u32)
    ensures { (length a.new ≡ length a.old) × (length spare.new ≡ length spare.old) × (length a.old ≤ length spare.old → 0 < n → Is (λ i. any_below (λ d. mem a.old (i + w * d)) n) a.old a.new) }
{
    spread::<Down>(a, spare, w, n);
}

// Word k of the numbers below e.
fn word_below(k: usize, e: usize) -> u64
    ensures { IsWord (λ i. ltb i e) k result }
{
    if k < e / 64 {
        u64::MAX
    } else if k == e / 64 {
        (1 << (e % 64)) - 1
    } else {
        0
    }
}

fn below(a: &mut [u64], e: usize)
    ensures { Is (λ i. ltb i e) a.old a.new }
{
    let n = a.len();
    fill(a, 0, n, |k| word_below(k, e));
}

// A set with nothing from e on, joined with itself moved up by e: only the words below 2 e change.
fn grow(a: &mut [u64], spare: &mut [u64], e: usize)
    requires { (length a.old ≤ length spare.old) × ((i : ℕ) → e ≤ i → mem a.old i ≡ false) }
    ensures { Is (with_moved upward e (mem a.old)) a.old a.new }
{
    let m = a.len().min(e / 32 + 1);
    step::<Up>(&mut a[..m], &mut spare[..m], e);
}

// What a has below the period, again and again.
fn repeat(a: &mut [u64], spare: &mut [u64], period: usize)
    requires { (length a.old ≤ length spare.old) × (length a.old ≤ 2 ^ 57) × (0 < period) × ((i : ℕ) → period ≤ i → mem a.old i ≡ false) }
    ensures { Is (λ i. mem a.old (i % period)) a.old a.new }
{
    // e doubles.
    let mut e = period;
    while e / 64 < a.len() {
        grow(a, spare, e);
        e = 2 * e;
    }
}

// The numbers whose digit of weight w, one of r values, is below n. No memory has 2 ^ 57 words.
pub fn at_most(a: &mut [u64], spare: &mut [u64], w: u32, r: u32, n: u32)
    ensures { (length a.new ≡ length a.old) × (length spare.new ≡ length spare.old) × (length a.old ≤ length spare.old → length a.old ≤ 2 ^ 57 → 0 < w → 0 < r → Is (λ x. ltb (x / w % r) n) a.old a.new) }
{
    let len = a.len();
    if len <= spare.len() && len <= 1 << 57 && 0 < w && 0 < r {
        below(a, w as usize * n.min(r) as usize);
        repeat(a, spare, w as usize * r as usize);
    }
}
