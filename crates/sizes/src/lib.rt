// M, A and N of a table's parts, for any parts.

#![tactic(auto)]

ghost use Rattle.std.specs.Prelude.{◌≡◌, ◌+◌, ◌*◌, ◌^◌, ◌≤◌, min};
ghost use Rattle.model.specs.Limits.{size_limit};
ghost use Rattle.model.specs.Size.{largest_bound, largest_airtime, cap, table_size};
ghost use Rattle.model.specs.Table.{monitor_of};

use guard::guard_bound;
use model::{GUARD_LIMIT, SIZE_LIMIT, TableParts};
use wire::byte;

// N above the limit is answered as one above it.
const MANY: u64 = SIZE_LIMIT + 1;

// M: the largest T compared with a clock in any guard.
pub fn largest_bound(t: TableParts, clock: usize) -> u64
    ensures { (result ≡ largest_bound (monitor_of t) clock) × (result ≤ 255) }
{
    let mut most = 0;
    for j in 0..t.transitions as usize {
        let start = GUARD_LIMIT * j;
        let end = start + byte(&t.lengths, j) as usize;
        let bound = guard_bound(&t.guards, start, end, t.variables, t.clocks, clock);
        most = most.max(bound);
    }
    u64::from(most)
}

// A: the largest airtime of any kind.
pub fn largest_airtime(t: TableParts) -> u64
    ensures { (result ≡ largest_airtime (monitor_of t)) × (result ≤ 255) }
{
    let mut most = 0;
    for i in 0..t.kinds as usize {
        most = most.max(byte(&t.airtimes, i));
    }
    u64::from(most)
}

// How many values a clock is written with: 0 to M + 1, and 0 alone for a clock that the table does not have.
#[tactic(auto, unfolding(model::specs::Size::cap, model::specs::Table::monitor_of))]
pub fn clock_values(t: TableParts, clock: usize) -> u64
    ensures { (result ≡ cap (monitor_of t) clock + 1) × (result ≤ 257) }
{
    if clock < t.clocks as usize {
        largest_bound(t, clock) + 2
    } else {
        1
    }
}

fn times(a: u64, b: u64) -> u64
    requires { (a ≤ size_limit + 1) × (b ≤ size_limit + 1) }
    ensures { (result ≡ min (a * b) (size_limit + 1)) × (result ≤ size_limit + 1) }
{
    (a * b).min(MANY)
}

#[tactic(auto, using(crate::proofs::Sizes::power_large))]
fn power(n: u8) -> u64
    ensures { (result ≡ min (2 ^ n) (size_limit + 1)) × (result ≤ size_limit + 1) }
{
    if n < 17 { 1 << n } else { MANY }
}

// N, the number of situations, and one above the limit for all that are more.
pub fn table_size(t: TableParts) -> u64
    ensures { result ≡ min (table_size (monitor_of t)) (size_limit + 1) }
{
    let clocks = times(
        clock_values(t, 0),
        times(clock_values(t, 1), largest_airtime(t) + 1),
    );
    times(u64::from(t.states), times(power(t.variables), clocks))
}
