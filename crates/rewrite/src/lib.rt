// Bytes read and written again: the first refusal of either, else the bytes of the parts that were read.

#![tactic(auto)]

ghost use Rattle.model.specs.Table.{table_answer};
ghost use Rattle.model.specs.Recording.{recording_answer};
ghost use Rattle.model.specs.Witness.{witness_answer};
ghost use Rattle.rewrite.specs.Rewriting.{Rewrites, rewrite_table, rewrite_recording, rewrite_witness};

use model::{Edition, Refusal};
use recordings::{read_recording, write_recording};
use tables::{read_table, write_table};
use witness::{count_at, row_at, witness_answer, write_rows};

pub fn rewrite_table(b: &[u8], room: &mut [u8]) -> Result<u64, Refusal>
    ensures { Rewrites (table_answer b.now) b.now room.old room.new (rewrite_table b.now room.old) result }
{
    let parts = read_table(b)?;
    write_table(parts, room)
}

pub fn rewrite_recording(table: &[u8], b: &[u8], room: &mut [u8]) -> Result<u64, Refusal>
    ensures { Rewrites (recording_answer table.now b.now) b.now room.old room.new (rewrite_recording table.now b.now room.old) result }
{
    let parts = read_recording(table, b)?;
    write_recording(table, parts, room)
}

// Row by row: the parts, with their places for 65,535 rows, need not be held for it.
pub fn rewrite_witness(edition: Edition, b: &[u8], room: &mut [u8]) -> Result<u64, Refusal>
    ensures { Rewrites (witness_answer edition b.now) b.now room.old room.new (rewrite_witness edition b.now room.old) result }
{
    witness_answer(edition, b)?;
    write_rows(
        edition,
        count_at(edition, b),
        |i| row_at(edition, b, i),
        room,
    )
}
