// Parts written into a room and read back from what was written: the first refusal of either, else the same parts.

#![tactic(auto)]

ghost use Rattle.model.specs.Table.{write_table};
ghost use Rattle.model.specs.Recording.{write_recording};
ghost use Rattle.model.specs.Witness.{write_witness};
ghost use Rattle.read_back.specs.Back.{table_back, recording_back, witness_back, TableKept, RecordingKept, WitnessKept, ReadsBack};

use model::{Edition, RecordingParts, Refusal, TableParts, WitnessParts};
use recordings::{read_recording, write_recording};
use tables::{read_table, write_table};
use witnesses::{read_witness, write_witness};

#[tactic(auto, using(crate::proofs::Kept::fitting))]
pub fn table_back(t: TableParts, room: &mut [u8]) -> Result<TableParts, Refusal>
    ensures { ReadsBack (write_table t room.old) room.new (table_back (write_table t room.old)) result (TableKept t result) }
{
    let n = write_table(t, room)?;
    read_table(&room[..n as usize])
}

#[tactic(auto, using(crate::proofs::Kept::fitting))]
pub fn recording_back(
    table: &[u8],
    r: RecordingParts,
    room: &mut [u8],
) -> Result<RecordingParts, Refusal>
    ensures { ReadsBack (write_recording table.now r room.old) room.new (recording_back table.now (write_recording table.now r room.old)) result (RecordingKept r result) }
{
    let n = write_recording(table, r, room)?;
    read_recording(table, &room[..n as usize])
}

#[tactic(auto, using(crate::proofs::Kept::fitting))]
pub fn witness_back(
    edition: Edition,
    w: WitnessParts,
    room: &mut [u8],
) -> Result<WitnessParts, Refusal>
    ensures { ReadsBack (write_witness edition w room.old) room.new (witness_back edition (write_witness edition w room.old)) result (WitnessKept w result) }
{
    let n = write_witness(edition, w, room)?;
    read_witness(edition, &room[..n as usize])
}
