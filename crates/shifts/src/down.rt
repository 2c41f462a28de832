// Down: the words that come from past the end are 0.
ghost use Rattle.words.specs.Words.{Is};
ghost use Rattle.shifts.specs.Shifted.{downward, shifted_down};
ghost use Rattle.std.proofs.Common.{rules};

use crate::way::{Way, shift};
use std::ops::Range;
use words::word;

pub struct Down;

impl Way for Down {
    ghost moves = { downward };

    fn word_off(a: &[u64], w: usize, by: usize) -> u64 {
        word(a, w + by)
    }

    fn word_there(a: &[u64], w: usize, by: usize) -> u64 {
        a[w + by]
    }

    fn join(near: u64, far: u64, k: usize) -> u64 {
        let r = k % 64;
        (near >> r) | ((far << 1) << (63 - r))
    }

    fn inner(len: usize, k: usize) -> Range<usize> {
        0..len.saturating_sub(k / 64 + 1)
    }

    ghost still = { Prim.search rules };

    ghost twice = { Prim.search rules };

    ghost past = { Prim.search rules };
}

// What is moved down by k and not cut, and what is kept.
pub fn shift_down(dst: &mut [u64], src: &[u64], k: usize, keep: &[u64], cut: &[u64])
    ensures { Is (shifted_down src.now k keep.now cut.now) dst.old dst.new }
{
    shift::<Down>(dst, src, k, keep, cut);
}
