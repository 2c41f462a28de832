// Sets of numbers in lent words: number i is bit i % 64 of word i / 64.

#![tactic(auto)]

mod whole;

ghost use Rattle.std.specs.Prelude.{◌≡◌, ◌&&◌, ◌+◌, ◌-◌, ◌/◌, ◌%◌, ◌^◌, ◌<◌, min, get_or, eqb};
ghost use Rattle.words.specs.Words.{bit, mem, Bits, Joined, up};

pub use whole::{any, any_words, clear, complement, copy, equal, keep_common, overwrite};

// Word k, 0 past the end.
pub fn word(a: &[u64], k: usize) -> u64
    ensures { (result ≡ get_or a.now k 0) × (result < 2 ^ 64) }
{
    a.get(k).copied().unwrap_or(0)
}

// The 64 bits from bit at on.
pub fn word_at(a: &[u64], at: usize) -> u64
    ensures { Bits 64 (λ j. mem a.now (at + j)) result }
{
    let k = at / 64;
    let r = at % 64;
    (word(a, k) >> r) | ((word(a, k + 1) << 1) << (63 - r))
}

fn or_word(a: &mut [u64], k: usize, x: u64)
    ensures { Joined (λ i. eqb (i / 64) k && bit x (i % 64)) a.old a.new }
{
    // By index: the library does not say what a slice ends as after get_mut.
    if k < a.len() {
        a[k] |= x;
    }
}

// ORs x into the 64 bits from bit at on; what would fall past the end is dropped.
pub fn or_at(a: &mut [u64], at: usize, x: u64)
    ensures { Joined (up at (bit x)) a.old a.new }
{
    let k = at / 64;
    let r = at % 64;
    or_word(a, k, x << r);
    or_word(a, k + 1, (x >> 1) >> (63 - r));
}

// The lesser of two numbers.
pub fn lesser(a: usize, b: usize) -> usize
    ensures { result ≡ min a b }
{
    a.min(b)
}

// How many of n are past the first k.
pub fn past(n: usize, k: usize) -> usize
    ensures { result ≡ n - k }
{
    n.saturating_sub(k)
}
