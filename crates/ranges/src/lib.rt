// Ranges of a set in words: carried over under a mask, and tested for emptiness.

#![tactic(auto)]

ghost use Rattle.std.specs.Prelude.{◌≡◌, ℕ, ◌+◌, ◌-◌, ◌*◌, ◌%◌, ◌^◌, ◌<◌, ◌≤◌, length, ltb};
ghost use Rattle.words.specs.Words.{bit, mem, Bits, Joined, up, below, meet, any_below};

use words::{any_words, or_at, word_at};

// The r low bits.
fn low(r: usize) -> u64
    requires { (0 < r) × (r ≤ 64) }
    ensures { (j : ℕ) → bit result j ≡ ltb j r }
{
    u64::MAX >> (64 - r)
}

// At most 64 bits of src from bit s on that are also in mask from bit m on, into dst from bit d on.
fn or_rest(dst: &mut [u64], d: usize, src: &[u64], s: usize, mask: &[u64], m: usize, r: usize)
    requires { r ≤ 64 }
    ensures { Joined (up d (below r (meet src.now s mask.now m))) dst.old dst.new }
{
    if 0 < r {
        or_at(dst, d, word_at(src, s) & word_at(mask, m) & low(r));
    }
}

// .. and any number.
fn or_slow(dst: &mut [u64], d: usize, src: &[u64], s: usize, mask: &[u64], m: usize, len: usize)
    requires { (d + len < 2 ^ 64) × (s + len < 2 ^ 64) × (m + len < 2 ^ 64) }
    ensures { Joined (up d (below len (meet src.now s mask.now m))) dst.old dst.new }
{
    let n = len / 64;
    for k in 0..n {
        or_rest(dst, d + 64 * k, src, s + 64 * k, mask, m + 64 * k, 64);
    }
    or_rest(dst, d + 64 * n, src, s + 64 * n, mask, m + 64 * n, len % 64);
}

// The 64 bits from bit r of word k on, where there are words for them: `word_at` with no test of a bound.
fn pair(a: &[u64], k: usize, r: usize) -> u64
    requires { (k + 1 < length a.now) × (r < 64) }
    ensures { Bits 64 (λ j. mem a.now (64 * k + r + j)) result }
{
    (a[k] >> r) | ((a[k + 1] << 1) << (63 - r))
}

// n whole words of dst, with no test of a bound.
fn or_words(
    dst: &mut [u64],
    k: usize,
    src: &[u64],
    p: usize,
    r: usize,
    mask: &[u64],
    q: usize,
    t: usize,
    n: usize,
)
    requires { (n ≤ length dst.old - k) × (n ≤ length src.now - (p + 1)) × (n ≤ length mask.now - (q + 1)) × (r < 64) × (t < 64) }
    ensures { Joined (up (64 * k) (below (64 * n) (meet src.now (64 * p + r) mask.now (64 * q + t)))) dst.old dst.new }
{
    for j in 0..n {
        dst[k + j] |= pair(src, p + j, r) & pair(mask, q + j, t);
    }
}

// From the start of a word of dst on: the words that all three have, and the rest with its tests.
fn or_middle(dst: &mut [u64], d: usize, src: &[u64], s: usize, mask: &[u64], m: usize, len: usize)
    requires { (d % 64 ≡ 0) × (d + len < 2 ^ 64) × (s + len < 2 ^ 64) × (m + len < 2 ^ 64) }
    ensures { Joined (up d (below len (meet src.now s mask.now m))) dst.old dst.new }
{
    let n = (len / 64)
        .min(dst.len().saturating_sub(d / 64))
        .min(src.len().saturating_sub(s / 64 + 1))
        .min(mask.len().saturating_sub(m / 64 + 1));
    or_words(dst, d / 64, src, s / 64, s % 64, mask, m / 64, m % 64, n);
    or_slow(
        dst,
        d + 64 * n,
        src,
        s + 64 * n,
        mask,
        m + 64 * n,
        len - 64 * n,
    );
}

// Up to the start of a word of dst, and on from there; a few words are done sooner without.
fn or_long(dst: &mut [u64], d: usize, src: &[u64], s: usize, mask: &[u64], m: usize, len: usize)
    requires { (d + len < 2 ^ 64) × (s + len < 2 ^ 64) × (m + len < 2 ^ 64) }
    ensures { Joined (up d (below len (meet src.now s mask.now m))) dst.old dst.new }
{
    let h = (64 - d % 64) % 64;
    if len < 256 {
        or_slow(dst, d, src, s, mask, m, len);
    } else {
        or_rest(dst, d, src, s, mask, m, h);
        or_middle(dst, d + h, src, s + h, mask, m + h, len - h);
    }
}

// No sum of a place below this and a length below this is too large for a usize.
const FAR: usize = 1 << 60;

// Puts len bits into dst from bit d on: those of src from bit s on that are also in mask from bit m on. Places and lengths from 2 ^ 60 on are not gone to.
pub fn or_range(
    dst: &mut [u64],
    d: usize,
    src: &[u64],
    s: usize,
    mask: &[u64],
    m: usize,
    len: usize,
)
    ensures { (length dst.new ≡ length dst.old) × (d < 2 ^ 60 → s < 2 ^ 60 → m < 2 ^ 60 → len < 2 ^ 60 → Joined (up d (below len (meet src.now s mask.now m))) dst.old dst.new) }
{
    if len <= 64 {
        or_rest(dst, d, src, s, mask, m, len);
    } else if d < FAR && s < FAR && m < FAR && len < FAR {
        or_long(dst, d, src, s, mask, m, len);
    }
}

// Is any number in at most 64 bits from bit s on?
fn any_rest(a: &[u64], s: usize, len: usize) -> bool
    requires { len ≤ 64 }
    ensures { result ≡ any_below (λ i. mem a.now (s + i)) len }
{
    0 < len && (word_at(a, s) & low(len)) != 0
}

// Up to the start of a word, whole words, and the rest.
fn any_long(a: &[u64], s: usize, len: usize) -> bool
    requires { (64 ≤ len) × (s + len < 2 ^ 64) }
    ensures { result ≡ any_below (λ i. mem a.now (s + i)) len }
{
    let h = (64 - s % 64) % 64;
    let n = (len - h) / 64;
    any_rest(a, s, h)
        || any_words(a, (s + h) / 64, n)
        || any_rest(a, s + h + 64 * n, (len - h) % 64)
}

// Is any number in len bits from bit s on? Places and lengths from 2 ^ 60 on are not gone to.
pub fn any_in(a: &[u64], s: usize, len: usize) -> bool
    ensures { s < 2 ^ 60 → len < 2 ^ 60 → result ≡ any_below (λ i. mem a.now (s + i)) len }
{
    if len <= 64 {
        any_rest(a, s, len)
    } else {
        s < FAR && len < FAR && any_long(a, s, len)
    }
}
