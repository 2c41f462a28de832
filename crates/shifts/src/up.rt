// Up: the words that come from before the start are 0.
ghost use Rattle.std.specs.Prelude.{◌≡◌, ◌+◌, ◌*◌};
ghost use Rattle.words.specs.Words.{mem, up, Bits, Is};
ghost use Rattle.shifts.specs.Shifted.{upward, shifted};
ghost use Rattle.std.proofs.Common.{rules};

use crate::way::{Way, shift};
use std::ops::Range;
use words::word;

// The word that stands by words before word k, 0 before the start.
pub fn word_before(a: &[u64], k: usize, by: usize) -> u64
    ensures { Bits 64 (λ j. up (64 * by) (mem a.now) (64 * k + j)) result }
{
    if by <= k { word(a, k - by) } else { 0 }
}

pub struct Up;

impl Way for Up {
    ghost moves = { upward };

    fn word_off(a: &[u64], w: usize, by: usize) -> u64 {
        word_before(a, w, by)
    }

    fn word_there(a: &[u64], w: usize, by: usize) -> u64 {
        a[w - by]
    }

    fn join(near: u64, far: u64, k: usize) -> u64 {
        let r = k % 64;
        (near << r) | ((far >> 1) >> (63 - r))
    }

    fn inner(len: usize, k: usize) -> Range<usize> {
        k / 64 + 1..len
    }

    ghost still = { Prim.search rules };

    ghost twice = { Prim.search rules };

    ghost past = { Prim.search rules };
}

// What is moved up by k and not cut, and what is kept.
pub fn shift_up(dst: &mut [u64], src: &[u64], k: usize, keep: &[u64], cut: &[u64])
    ensures { Is (shifted src.now k keep.now cut.now) dst.old dst.new }
{
    shift::<Up>(dst, src, k, keep, cut);
}
