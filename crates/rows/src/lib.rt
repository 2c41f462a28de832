// Sets in words to and from sets in bytes.

#![tactic(auto)]

pub mod span;

ghost use Rattle.std.specs.Prelude.{◌≡◌};
ghost use Rattle.bits.specs.Member as bytes;
ghost use Rattle.rows.specs.Bytes.{Is8};
ghost use Rattle.words.specs.Words.{mem, Is};

// Words to bytes: first the words that have room whole, and then the bytes that are left.
pub fn store(a: &[u64], row: &mut [u8])
    ensures { Is8 (mem a.now) row.old row.new }
{
    let n = a.len().min(row.len() / 8);
    // By index: the library does not say what a slice ends as after chunks_exact_mut.
    for k in 0..n {
        row[8 * k..8 * k + 8].copy_from_slice(&a[k].to_le_bytes());
    }
    for b in 8 * n..row.len() {
        row[b] = words::word(a, b / 8).to_le_bytes()[b % 8];
    }
}

// Bytes to words.
pub fn load(row: &[u8], a: &mut [u64])
    ensures { Is (bytes.mem row.now) a.old a.new }
{
    for (k, x) in a.iter_mut().enumerate() {
        *x = bits::word(row, k);
    }
}
