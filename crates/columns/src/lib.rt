// Columns of parts: the numbers that stand at even steps in bytes.

#![tactic(auto)]

ghost use Rattle.std.specs.Prelude.{◌≡◌, ◌<◌, ◌+◌, ◌*◌, ℕ, min};
ghost use Rattle.model.specs.Bytes.{byte_at, word_at};
ghost use Rattle.columns.specs.Filled.{filled};

use wire::{byte, word};

// The library's min, by the name that `tables` calls.
pub fn smaller(a: usize, b: usize) -> usize
    ensures { result ≡ min a b }
{
    a.min(b)
}

// What read gives for 0, 1, .. into the first n places.
fn fill_column<T: Copy, F: Fn(usize) -> T>(column: &mut [T], n: u32, read: F)
    requires { (i : ℕ) → i < n → F.pre read i }
    ensures { (f : ℕ → T) → ((i : ℕ) (x : T) → i < n → F.post read i x → x ≡ f i) → column.new ≡ filled f n column.old }
{
    let most = column.len().min(n as usize);
    for (i, place) in column[..most].iter_mut().enumerate() {
        *place = read(i);
    }
}

// The bytes at from, from + step, .. into the first n places.
pub fn bytes_column(b: &[u8], from: u8, step: u8, n: u32, column: &mut [u8])
    ensures { column.new ≡ filled (λ i. byte_at b.now (from + step * i)) n column.old }
{
    fill_column(column, n, |i| byte(b, from as usize + step as usize * i));
}

// The two-byte numbers at from, from + step, .. into the first n places.
pub fn words_column(b: &[u8], from: u8, step: u8, n: u32, column: &mut [u16])
    ensures { column.new ≡ filled (λ i. word_at b.now (from + step * i)) n column.old }
{
    fill_column(column, n, |i| word(b, from as usize + step as usize * i));
}
