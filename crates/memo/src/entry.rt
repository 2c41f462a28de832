// The words of an entry, which starts at word at.
ghost use Rattle.std.specs.Prelude.{◌≡◌, true, ◌+◌, ◌<◌, ◌≤◌, length, get_or};
ghost use Rattle.images.specs.Buffers.{Kept};
ghost use Rattle.memo.specs.Known.{Stands};
ghost use Rattle.memo.specs.Changed.{Changed};

use words::overwrite;

pub(crate) fn put(memo: &mut [u64], at: usize, s: &[u64])
    requires { at + length s.now ≤ length memo.old }
    ensures { Changed at (at + length s.now) memo.old memo.new × Stands memo.new at s.now }
{
    let end = at + s.len();
    overwrite(&mut memo[at..end], s);
}

pub(crate) fn get(memo: &[u64], at: usize, s: &mut [u64])
    requires { at + length s.old ≤ length memo.now }
    ensures { Kept s.old s.new × Stands memo.now at s.new }
{
    let end = at + s.len();
    overwrite(s, &memo[at..end]);
}

pub(crate) fn holds(memo: &[u64], at: usize, s: &[u64]) -> bool
    requires { at + length s.now ≤ length memo.now }
    ensures { result ≡ true → Stands memo.now at s.now }
{
    let end = at + s.len();
    &memo[at..end] == s
}

// Is the entry that of a tag, and of a set first?
pub(crate) fn is_for(memo: &[u64], at: usize, tag: u64, a: &[u64]) -> bool
    requires { at + 1 + length a.now ≤ length memo.now }
    ensures { result ≡ true → (get_or memo.now at 0 ≡ tag) × Stands memo.now (at + 1) a.now }
{
    memo[at] == tag && holds(memo, at + 1, a)
}

// It becomes that.
pub(crate) fn begin(memo: &mut [u64], at: usize, tag: u64, a: &[u64])
    requires { at + 1 + length a.now ≤ length memo.old }
    ensures { Changed at (at + 1 + length a.now) memo.old memo.new × (get_or memo.new at 0 ≡ tag) × Stands memo.new (at + 1) a.now }
{
    memo[at] = tag;
    put(memo, at + 1, a);
}
