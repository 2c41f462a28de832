// Whole sets. Words that one of two sets lacks count as 0: what both have is one loop with no test of a bound.
ghost use Rattle.std.specs.Prelude.{◌≡◌, ℕ, not, true, false, ◌&&◌, ◌+◌, ◌*◌, ◌<◌, ◌≤◌, length, get_or, fold, bit_or};
ghost use Rattle.words.specs.Words.{mem, any_below, Is};

pub fn clear(a: &mut [u64])
    ensures { Is (λ i. false) a.old a.new }
{
    a.fill(0);
}

// The words of src over those of dst, as far as both reach. Word by word: the library's copy_from_slice calls memmove, which a C caller need not have.
pub fn overwrite(dst: &mut [u64], src: &[u64])
    ensures long { length dst.new ≡ length dst.old }
    ensures same { length dst.old ≡ length src.now → dst.new ≡ src.now }
    ensures over { (k : ℕ) → k < length dst.old → k < length src.now → get_or dst.new k 0 ≡ get_or src.now k 0 }
    ensures kept { (k : ℕ) → length src.now ≤ k → get_or dst.new k 0 ≡ get_or dst.old k 0 }
{
    for k in 0..dst.len().min(src.len()) {
        dst[k] = src[k];
    }
}

pub fn copy(dst: &mut [u64], src: &[u64])
    ensures { Is (mem src.now) dst.old dst.new }
{
    let n = dst.len().min(src.len());
    overwrite(&mut dst[..n], &src[..n]);
    dst[n..].fill(0);
}

// Keeps what is in b too.
pub fn keep_common(a: &mut [u64], b: &[u64])
    ensures { Is (λ i. mem a.old i && mem b.now i) a.old a.new }
{
    let n = a.len().min(b.len());
    // By index: the library does not say what a slice ends as after a zip of iter_mut.
    for k in 0..n {
        a[k] &= b[k];
    }
    a[n..].fill(0);
}

pub fn complement(a: &mut [u64])
    ensures { Is (λ i. not (mem a.old i)) a.old a.new }
{
    for x in a.iter_mut() {
        *x = !*x;
    }
}

// Is any number in n words from word k on?
pub fn any_words(a: &[u64], k: usize, n: usize) -> bool
    ensures { result ≡ any_below (λ i. mem a.now (64 * k + i)) (64 * n) }
{
    let part = &a[k.min(a.len())..];
    any(&part[..n.min(part.len())])
}

// What is in any of eight words, as one.
fn joined(eight: &[u64; 8]) -> u64
    ensures { result ≡ fold bit_or 0 eight.now }
{
    eight.iter().fold(0, |x, word| x | *word)
}

// By eights, since a test of each word is slower.
pub fn any(a: &[u64]) -> bool
    ensures { result ≡ any_below (mem a.now) (64 * length a.now) }
{
    let (eights, rest) = a.as_chunks::<8>();
    eights.iter().any(|eight| joined(eight) != 0) || rest.iter().any(|word| *word != 0)
}

// Are two sets the same words?
pub fn equal(a: &[u64], b: &[u64]) -> bool
    ensures { (result ≡ true → a.now ≡ b.now) × (a.now ≡ b.now → result ≡ true) }
{
    a == b
}
