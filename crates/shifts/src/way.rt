// What moving up and moving down have in common. Each word is made in two ways: tested, at the edges, and with no test elsewhere, where that is several times as fast.
ghost use Rattle.std.specs.Prelude.{◌≡◌, ℕ, Bool, true, false, ◌&&◌, ◌+◌, ◌*◌, ◌/◌, ◌^◌, ◌<◌, ◌≤◌, length, get_or};
ghost use Rattle.words.specs.Words.{mem, Is};
ghost use Rattle.shifts.specs.Filled.{IsWord};
ghost use Rattle.shifts.specs.Shifted.{Moves, IsInner, moved, cut_and_kept};

use crate::fills::fill_within;
use std::ops::Range;
use words::word;

// Word k; where it is tested, 0 past the end.
pub fn read<const TESTED: bool>(a: &[u64], k: usize) -> u64
    requires { TESTED ≡ false → k < length a.now }
    ensures { (result ≡ get_or a.now k 0) × (result < 2 ^ 64) }
{
    if TESTED { word(a, k) } else { a[k] }
}

// Up or down.
pub trait Way {
    // From where it comes.
    ghost moves: { Moves };

    // The word that comes to word w from by words off, 0 where there is none.
    fn word_off(a: &[u64], w: usize, by: usize) -> u64
        requires { (w < 2 ^ 60) × (by < 2 ^ 60) }
        ensures { IsWord (moved moves (64 * by) (mem a.now)) w result };

    // The same where there is one. No const parameter tells the two apart, as in `read`: a trait's method that has one cannot be proved yet.
    fn word_there(a: &[u64], w: usize, by: usize) -> u64
        requires { (moves.there by w ≡ true) × (moves.place by w < length a.now) }
        ensures { IsWord (moved moves (64 * by) (mem a.now)) w result };

    // What comes from two such words, one k / 64 words off and the next. Where k % 64 is 0, a shift by 64 would be too far: the second word is shifted by 1 and by 63.
    fn join(near: u64, far: u64, k: usize) -> u64
        ensures { (p : ℕ → Bool) (w : ℕ) → IsWord (moved moves (64 * (k / 64)) p) w near → IsWord (moved moves (64 * (k / 64 + 1)) p) w far → IsWord (moved moves k p) w result };

    // The words of len to which words of these alone come.
    fn inner(len: usize, k: usize) -> Range<usize>
        ensures { (w : ℕ) → result.start ≤ w → w < result.end → IsInner moves len k w };

    // By 0 nothing moves; moved twice is moved by the sum.
    ghost still: { (i : ℕ) → (moves.there 0 i ≡ true) × (moves.place 0 i ≡ i) };

    ghost twice: { (a b i : ℕ) → ((moves.there a i && moves.there b (moves.place a i)) ≡ moves.there (a + b) i) × (moves.place b (moves.place a i) ≡ moves.place (a + b) i) };

    // What comes to below an end n from past it was past it before, too.
    ghost past: { (n a b i : ℕ) → i < n → n ≤ moves.place a i → n ≤ moves.place b (moves.place a i) };
}

// Word w of a set moved by k.
pub fn moved_word<W: Way, const TESTED: bool>(a: &[u64], w: usize, k: usize) -> u64
    requires { (w < 2 ^ 60) × (TESTED ≡ false → IsInner W.moves (length a.now) k w) }
    ensures { IsWord (moved W.moves k (mem a.now)) w result }
{
    let q = k / 64;
    if TESTED {
        W::join(W::word_off(a, w, q), W::word_off(a, w, q + 1), k)
    } else {
        W::join(W::word_there(a, w, q), W::word_there(a, w, q + 1), k)
    }
}

// Word w of what shift makes.
fn shifted_word<W: Way, const TESTED: bool>(
    src: &[u64],
    w: usize,
    k: usize,
    keep: &[u64],
    cut: &[u64],
) -> u64
    requires { (w < 2 ^ 60) × (TESTED ≡ false → IsInner W.moves (length src.now) k w × (w < length keep.now) × (w < length cut.now)) }
    ensures { IsWord (cut_and_kept (moved W.moves k (mem src.now)) src.now keep.now cut.now) w result }
{
    (moved_word::<W, TESTED>(src, w, k) & !read::<TESTED>(cut, w))
        | (read::<TESTED>(src, w) & read::<TESTED>(keep, w))
}

// What is moved by k and not cut, and what is kept.
pub fn shift<W: Way>(dst: &mut [u64], src: &[u64], k: usize, keep: &[u64], cut: &[u64])
    ensures { Is (cut_and_kept (moved W.moves k (mem src.now)) src.now keep.now cut.now) dst.old dst.new }
{
    let inner = W::inner(src.len(), k);
    let e = inner.end.min(keep.len()).min(cut.len());
    fill_within(
        dst,
        inner.start..e,
        |w| shifted_word::<W, true>(src, w, k, keep, cut),
        |w| shifted_word::<W, false>(src, w, k, keep, cut),
    );
}
