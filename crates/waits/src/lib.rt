// Sets of waits from 1 to 256 ticks, a bit for each: number i of a word that follows `from` ticks is the wait from + i + 1.
// Bounds are bytes: where no wait up to 256 makes a guard hold, none will.

#![tactic(auto)]

ghost use Rattle.std.specs.Prelude.{◌≡◌, get_or, leb};
ghost use Rattle.model.specs.Readiness.{waited};
ghost use Rattle.waits.specs.Waits.{word_of, waits_of, others, common, is_none};

// A word for each 64 waits.
pub type Waits = [u64; 4];

// Every wait, or none.
pub fn constant(every: bool) -> Waits
    ensures { result ≡ waits_of (λ d. every) }
{
    [if every { u64::MAX } else { 0 }; 4]
}

// The waits that are not in the set.
pub fn complement(w: Waits) -> Waits
    ensures { result ≡ others w }
{
    w.map(|word| !word)
}

// The waits that are in both sets.
pub fn intersection(a: Waits, b: Waits) -> Waits
    ensures { result ≡ common a b }
{
    std::array::from_fn(|i| a[i] & b[i])
}

pub fn is_none(w: Waits) -> bool
    ensures { result ≡ is_none w }
{
    w.iter().all(|word| *word == 0)
}

// The word behind `from` of the waits up to last.
fn word_up_to(last: u16, from: u16) -> u64
    ensures { result ≡ word_of (λ d. leb d last) from }
{
    let count = last.saturating_sub(from);
    if count < 64 {
        (1 << count) - 1
    } else {
        u64::MAX
    }
}

fn up_to(last: u16) -> Waits
    ensures { result ≡ waits_of (λ d. leb d last) }
{
    [
        word_up_to(last, 0),
        word_up_to(last, 64),
        word_up_to(last, 128),
        word_up_to(last, 192),
    ]
}

// The waits after which clock n reads at most t. A clock that is not there reads 0 for ever.
pub fn most_waits(c: &[u16], n: usize, t: u8) -> Waits
    ensures { result ≡ waits_of (λ d. leb (get_or (waited d c.now) n 0) t) }
{
    let Some(reads) = c.get(n) else {
        return constant(true);
    };
    match u16::from(t).checked_sub(*reads) {
        Some(most) => up_to(most),
        None => constant(false),
    }
}

// The waits after which it reads at least t: those after which it does not read less.
pub fn least_waits(c: &[u16], n: usize, t: u8) -> Waits
    ensures { result ≡ waits_of (λ d. leb t (get_or (waited d c.now) n 0)) }
{
    match t.checked_sub(1) {
        Some(less) => complement(most_waits(c, n, less)),
        None => constant(true),
    }
}
