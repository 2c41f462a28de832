// A set of numbers in lent bytes: number i is bit i % 8 of byte i / 8. Contracts speak of membership, for every number.

#![tactic(auto)]

ghost use Rattle.std.specs.Prelude.{◌≡◌, ◌≤◌, length, replicate};
ghost use Rattle.bits.specs.Member.{mem, PutIn};
ghost use Rattle.bits.specs.Words.{in_word, WordOf};
ghost use Rattle.bits.specs.Counting.{tally, Counted};
ghost use Rattle.bits.specs.LittleEndian.{little_endian};

// Is i in the set? Nothing is past the end.
pub fn test(s: &[u8], i: usize) -> bool
    ensures { result ≡ mem s.now i }
{
    s.get(i / 8).is_some_and(|byte| (*byte >> (i % 8)) % 2 == 1)
}

// Puts i into the set, where there is a place for it.
pub fn put(s: &mut [u8], i: usize)
    ensures { PutIn i s.old s.new }
{
    let at = i / 8;
    // By index: the library does not say what a slice ends as after get_mut.
    if at < s.len() {
        s[at] |= 1u8 << (i % 8);
    }
}

// At most eight bytes as one number, the first lowest.
fn little_endian(b: &[u8]) -> u64
    requires { length b.now ≤ 8 }
    ensures { result ≡ little_endian b.now }
{
    b.iter()
        .rev()
        .fold(0, |x, byte| (x << 8) | u64::from(*byte))
}

// Word k of the set, the 64 numbers from 64 * k on. A last word of fewer than eight bytes is made of those; past the end it is 0.
pub fn word(s: &[u8], k: usize) -> u64
    ensures { WordOf s.now k result }
{
    let (words, rest) = s.as_chunks::<8>();
    if k < words.len() {
        u64::from_le_bytes(words[k])
    } else if k == words.len() {
        little_endian(rest)
    } else {
        0
    }
}

// How many numbers of word k are in the set.
fn count_word(s: &[u8], k: usize) -> u64
    ensures { result ≡ tally (in_word s.now k) 64 }
{
    u64::from(word(s, k).count_ones())
}

// How many numbers are in the set.
pub fn count(s: &[u8]) -> u64
    ensures { Counted s.now result }
{
    let last = s.len() / 8;
    let mut n: u64 = 0;
    for k in 0..last {
        n = n.wrapping_add(count_word(s, k));
    }
    n.wrapping_add(count_word(s, last))
}

// Takes every number out.
pub fn clear(s: &mut [u8])
    ensures { s.new ≡ replicate (length s.old) 0 }
{
    s.fill(0);
}
