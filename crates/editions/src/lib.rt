// The numbers in which the editions of a witness differ. A table and a recording have the frame of edition 1.

#![tactic(auto)]

ghost use Rattle.std.specs.Prelude.{◌≡◌, ◌≤◌, ◌<◌};
ghost use Rattle.model.specs.Edition.{size_width, size_at, version_of, count_place, rows_place, most_rows, latest_time};

use model::Edition;
use wire::{long, word};

// The bytes of a length, and of a count.
pub fn size_width(edition: Edition) -> usize
    ensures { (result ≡ size_width edition) × (result ≤ 4) }
{
    match edition {
        Edition::One => 2,
        Edition::Two => 4,
    }
}

// The length or the count at an offset.
pub fn size_at(edition: Edition, b: &[u8], at: usize) -> u32
    ensures { (result ≡ size_at edition b.now at) × (result < 4294967296) }
{
    match edition {
        Edition::One => u32::from(word(b, at)),
        Edition::Two => long(b, at),
    }
}

pub fn version_of(edition: Edition) -> u8
    ensures { result ≡ version_of edition }
{
    match edition {
        Edition::One => 1,
        Edition::Two => 2,
    }
}

// Where the count stands.
pub fn count_place(edition: Edition) -> usize
    ensures { (result ≡ count_place edition) × (result ≤ 5) }
{
    size_width(edition) + 1
}

// Where the rows start.
pub fn rows_place(edition: Edition) -> usize
    ensures { (result ≡ rows_place edition) × (result ≤ 9) }
{
    count_place(edition) + size_width(edition)
}

// The most rows.
pub fn most_rows(edition: Edition) -> u32
    ensures { result ≡ most_rows edition }
{
    match edition {
        Edition::One => 4608,
        Edition::Two => 65535,
    }
}

// The latest time of a row.
pub fn latest_time(edition: Edition) -> u16
    ensures { result ≡ latest_time edition }
{
    match edition {
        Edition::One => 4096,
        Edition::Two => 65535,
    }
}
