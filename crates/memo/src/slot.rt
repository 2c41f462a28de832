// Where in the memory an entry is looked for: one place for each tag and sets, so that a look costs the same whatever is held.
ghost use Rattle.std.specs.Prelude.{◌≡◌, ◌+◌, ◌*◌, ◌<◌, ◌≤◌, IfSome};
ghost use Rattle.memo.specs.Known.{tag_of};
ghost use Rattle.memo.specs.Changed.{Starts};

#[tactic(auto, unfolding(crate::specs::Known::tag_of))]
pub(crate) fn tag_of(heard: Option<u8>) -> u64
    ensures { result ≡ tag_of heard }
{
    heard.map_or(1, |kind| u64::from(kind) + 2)
}

// No more entries than `spread` can tell apart.
const MOST: usize = 65536;

// How many entries of w words long words have room for; none where sets, of n words, are wider than an instant takes.
fn entries(long: usize, n: usize, w: usize) -> usize
    requires { 0 < w }
    ensures { (result ≤ 65536) × (w * result ≤ long) }
{
    if 1024 < n { 0 } else { (long / w).min(MOST) }
}

pub(crate) fn mix(h: u64, s: &[u64]) -> u64 {
    s.iter().fold(h, |x, word| x.rotate_left(7) ^ *word)
}

// 2 ^ 32 by the golden ratio.
const GOLDEN: u64 = 2654435769;

// Fibonacci hashing: sets that differ in few bits come to lie far apart.
fn spread(h: u64, e: usize) -> usize
    requires { (0 < e) × (e ≤ 65536) }
    ensures { result < e }
{
    let f = (h ^ (h >> 32)) % (1 << 32);
    let k = f * GOLDEN % (1 << 32) >> 16;
    (k as usize * e) >> 16
}

// Where there are fewer entries than these only the first is used: sets are wide there, and to hash one would cost more than it saves.
const FEW: usize = 16;

// Where the entry for what is mixed into a hash starts, if there is room for one.
pub(crate) fn place<F: FnOnce() -> u64>(long: usize, n: usize, w: usize, mixed: F) -> Option<usize>
    requires width { 0 < w }
    requires callable { F.IsAlwaysCallable mixed }
    ensures { IfSome result (λ at. Starts w long at) }
{
    match entries(long, n, w) {
        0 => None,
        e if e < FEW => Some(0),
        e => Some(w * spread(mixed(), e)),
    }
}
