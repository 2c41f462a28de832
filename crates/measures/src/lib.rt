// What a validation measures of a table and a recording before it starts.

#![tactic(auto)]

ghost use Rattle.std.specs.Prelude.{◌≡◌, true, ◌↔◌, ◌-◌, ◌<◌, min};
ghost use Rattle.model.specs.Recording.{packets_at, end_of};
ghost use Rattle.model.specs.Situation.{first_by};
ghost use Rattle.situation.specs.Numbering.{number_by, capped_by};
ghost use Rattle.measures.specs.Measured.{Measured};
ghost use Rattle.measures.specs.Roomy.{Roomy};

use model::{Rule, Situation, TableParts};
use rule::masks;
use situation::Shape;
use situation::numbering::{number, shape_of};
use sizes::table_size;
use wire::word;

// How situations are numbered, N, the bytes of a set (S) and its words, T, and the number of the first situation.
#[derive(Clone, Copy)]
pub struct Measures {
    pub shape: Shape,
    pub size: usize,
    pub row: usize,
    pub words: usize,
    pub last: usize,
    pub first: u64,
}

// The last recorded time, 0 if there is none.
fn last_time(recording: &[u8]) -> usize
    ensures { (result ≡ end_of (packets_at recording.now)) × (result < 65536) }
{
    let count = word(recording, 3) as usize;
    if count == 0 {
        return 0;
    }
    word(recording, 5 + 3 * (count - 1)) as usize
}

// How a clock is written just before instant 1: as 1, or as 0 where that is its only value.
fn first_clock(values: u16) -> u16
    ensures { result ≡ min 1 (values - 1) }
{
    if values < 2 { 0 } else { 1 }
}

fn first_number(h: Shape) -> u64
    ensures { result ≡ number_by h (first_by (capped_by h)) }
{
    let clocks = [first_clock(h.first), first_clock(h.second)];
    number(
        h,
        Situation {
            state: 0,
            variables: 0,
            clocks,
            air: 0,
            window: 0,
        },
    )
}

pub fn measure(parts: TableParts, rule: Rule, recording: &[u8]) -> Measures
    ensures { Measured parts rule recording.now result }
{
    let shape = shape_of(parts, rule);
    let size = table_size(parts) as usize * masks(rule) as usize;
    Measures {
        shape,
        size,
        row: (size + 7) / 8,
        words: (size + 63) / 64,
        last: last_time(recording),
        first: first_number(shape),
    }
}

// Are there rows for all instants in so many bytes? No sound table and recording have longer rows, or a later end.
pub fn is_roomy(g: Measures, length: usize) -> bool
    ensures { (result ≡ true) ↔ Roomy g length }
{
    if 65535 < g.last {
        return false;
    }
    if 8192 < g.row {
        return false;
    }
    g.row * (g.last + 1) <= length
}
