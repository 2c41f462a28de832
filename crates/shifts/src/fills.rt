// Sets that are made word by word.
ghost use Rattle.std.specs.Prelude.{ℕ, Bool, ◌^◌, ◌<◌, ◌≤◌, length};
ghost use Rattle.words.specs.Words.{Is, Upto};
ghost use Rattle.shifts.specs.Filled.{GivesWords};

use std::ops::Range;

// The words from v on and before e are those that f gives.
pub fn fill<F: Fn(usize) -> u64>(dst: &mut [u64], v: usize, e: usize, f: F)
    requires within { (v ≤ e) × (e ≤ length dst.old) }
    requires called { (w : ℕ) → v ≤ w → w < e → w < 2 ^ 60 → F.pre f w }
    ensures { (p : ℕ → Bool) → GivesWords (F.post f) p v e → Upto p v dst.old → Upto p e dst.new }
{
    for w in v..e {
        dst[w] = f(w);
    }
}

// All words: within inner those that fast gives, and those that slow gives elsewhere.
pub fn fill_within<S: Fn(usize) -> u64, F: Fn(usize) -> u64>(
    dst: &mut [u64],
    inner: Range<usize>,
    slow: S,
    fast: F,
)
    requires slow { (w : ℕ) → w < 2 ^ 60 → S.pre slow w }
    requires fast { (w : ℕ) → inner.start ≤ w → w < inner.end → w < 2 ^ 60 → F.pre fast w }
    ensures { (p : ℕ → Bool) → GivesWords (S.post slow) p 0 (length dst.old) → GivesWords (F.post fast) p inner.start inner.end → Is p dst.old dst.new }
{
    let n = dst.len();
    let e = inner.end.min(n);
    let v = inner.start.min(e);
    fill(dst, 0, v, &slow);
    fill(dst, v, e, fast);
    fill(dst, e, n, slow);
}
