// The parts of a witness, of either edition: read and written by its form alone.

#![tactic(auto)]

ghost use Rattle.std.specs.Prelude.{◌≤◌, ◌≡◌};
ghost use Rattle.model.specs.Answers.{Reads, Writes};
ghost use Rattle.model.specs.Limits.{witness_places};
ghost use Rattle.model.specs.Witness.{witness_count_at, witness_answer, witness_parts, read_witness, row_in, write_witness};
ghost use Rattle.witness.specs.Rows.{row_of};

use columns::{bytes_column, words_column};
use editions::{count_place, most_rows, rows_place};
use model::{Edition, Refusal, WitnessParts};
use wire::{byte, short};
use witness::{Entry, count_at, rows_answer, witness_answer, write_rows};

fn parts_at(edition: Edition, b: &[u8]) -> WitnessParts
    requires { witness_count_at edition b.now ≤ witness_places }
    ensures { result ≡ witness_parts edition b.now }
{
    let count = count_at(edition, b);
    let start = rows_place(edition) as u8;
    let mut parts = WitnessParts {
        count,
        ..WitnessParts::default()
    };
    bytes_column(b, start, 5, count, &mut parts.marks);
    words_column(b, start + 1, 5, count, &mut parts.times);
    bytes_column(b, start + 3, 5, count, &mut parts.kinds);
    bytes_column(b, start + 4, 5, count, &mut parts.transitions);
    parts
}

#[tactic(auto, using(crate::proofs::Parts::sound_count), unfolding(model::specs::Witness::read_witness))]
pub fn read_witness(edition: Edition, b: &[u8]) -> Result<WitnessParts, Refusal>
    ensures value { result ≡ read_witness edition b.now }
    ensures reads { Reads (witness_answer edition b.now) (witness_parts edition b.now) result }
{
    witness_answer(edition, b)?;
    Ok(parts_at(edition, b))
}

#[tactic(auto, unfolding(model::specs::Witness::row_in))]
fn row_in(w: &WitnessParts, i: u32) -> Entry
    ensures { row_of result ≡ row_in w.now i }
{
    let i = i as usize;
    Entry {
        mark: byte(&w.marks, i),
        time: short(&w.times, i),
        kind: byte(&w.kinds, i),
        transition: byte(&w.transitions, i),
    }
}

// The rows are tested before the first byte is written: a refusal leaves the room as it was.
pub fn write_witness(edition: Edition, w: WitnessParts, room: &mut [u8]) -> Result<u64, Refusal>
    ensures { Writes (write_witness edition w room.old) result room.new }
{
    let count = w.count;
    if most_rows(edition) < count {
        return Err(Refusal::WitnessCount {
            offset: count_place(edition) as u64,
        });
    }
    let row = |i| row_in(&w, i);
    rows_answer(edition, count, row)?;
    write_rows(edition, count, row, room)
}
