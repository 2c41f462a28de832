// The static library (include/lutarosa.h): each export is the function of that name in `lutarosa`, with its clauses.

#![tactic(auto)]

ghost use Rattle.model.specs.Rule.{rule_of};
ghost use Rattle.model.specs.Table.{table_answer};
ghost use Rattle.model.specs.Recording.{recording_answer};
ghost use Rattle.model.specs.Witness.{witness_answer};
ghost use Rattle.rewrite.specs.Rewriting.{rewrite_table, rewrite_recording, rewrite_witness};
ghost use Rattle.model.specs.declared.Edition.TheVariants.{One, Two};
ghost use Rattle.lutarosa.specs.Face.{Validated, Checked, Rewritten, ValidatedUnder, CheckedUnder};

use numbers::{Answer, VerdictAnswer};

#[unsafe(no_mangle)]
pub extern "C" fn lutarosa_validate<'a>(
    table: &'a [u8],
    recording: &'a [u8],
    budget: u32,
    scratch: &mut [u8],
    room: &mut [u8],
) -> VerdictAnswer
    ensures { Validated One table.now recording.now budget scratch.old room.old scratch.new room.new result }
{
    lutarosa::lutarosa_validate(table, recording, budget, scratch, room)
}

#[unsafe(no_mangle)]
pub extern "C" fn lutarosa_check<'a>(table: &'a [u8], recording: &'a [u8], witness: &[u8]) -> Answer
    ensures { Checked One table.now recording.now witness.now result }
{
    lutarosa::lutarosa_check(table, recording, witness)
}

#[unsafe(no_mangle)]
pub extern "C" fn lutarosa_rewrite_table(bytes: &[u8], room: &mut [u8]) -> Answer
    ensures { Rewritten (table_answer bytes.now) bytes.now room.old room.new (rewrite_table bytes.now room.old) result }
{
    lutarosa::lutarosa_rewrite_table(bytes, room)
}

#[unsafe(no_mangle)]
pub extern "C" fn lutarosa_rewrite_recording(table: &[u8], bytes: &[u8], room: &mut [u8]) -> Answer
    ensures { Rewritten (recording_answer table.now bytes.now) bytes.now room.old room.new (rewrite_recording table.now bytes.now room.old) result }
{
    lutarosa::lutarosa_rewrite_recording(table, bytes, room)
}

#[unsafe(no_mangle)]
pub extern "C" fn lutarosa_rewrite_witness(bytes: &[u8], room: &mut [u8]) -> Answer
    ensures { Rewritten (witness_answer One bytes.now) bytes.now room.old room.new (rewrite_witness One bytes.now room.old) result }
{
    lutarosa::lutarosa_rewrite_witness(bytes, room)
}

// The same for edition 2 of the witness.

#[unsafe(no_mangle)]
pub extern "C" fn lutarosa_validate_edition2<'a>(
    table: &'a [u8],
    recording: &'a [u8],
    budget: u32,
    scratch: &mut [u8],
    room: &mut [u8],
) -> VerdictAnswer
    ensures { Validated Two table.now recording.now budget scratch.old room.old scratch.new room.new result }
{
    lutarosa::lutarosa_validate_edition2(table, recording, budget, scratch, room)
}

#[unsafe(no_mangle)]
pub extern "C" fn lutarosa_check_edition2<'a>(
    table: &'a [u8],
    recording: &'a [u8],
    witness: &[u8],
) -> Answer
    ensures { Checked Two table.now recording.now witness.now result }
{
    lutarosa::lutarosa_check_edition2(table, recording, witness)
}

#[unsafe(no_mangle)]
pub extern "C" fn lutarosa_rewrite_witness_edition2(bytes: &[u8], room: &mut [u8]) -> Answer
    ensures { Rewritten (witness_answer Two bytes.now) bytes.now room.old room.new (rewrite_witness Two bytes.now room.old) result }
{
    lutarosa::lutarosa_rewrite_witness_edition2(bytes, room)
}

// The same under a measured loss rate (R-7), in either edition.

#[unsafe(no_mangle)]
pub extern "C" fn lutarosa_validate_rule<'a>(
    table: &'a [u8],
    recording: &'a [u8],
    budget: u32,
    device: u8,
    window: u8,
    most: u8,
    scratch: &mut [u8],
    room: &mut [u8],
) -> VerdictAnswer
    ensures { ValidatedUnder (rule_of device window most) One table.now recording.now budget scratch.old room.old scratch.new room.new result }
{
    lutarosa::lutarosa_validate_rule(
        table, recording, budget, device, window, most, scratch, room,
    )
}

#[unsafe(no_mangle)]
pub extern "C" fn lutarosa_check_rule<'a>(
    table: &'a [u8],
    recording: &'a [u8],
    witness: &[u8],
    device: u8,
    window: u8,
    most: u8,
) -> Answer
    ensures { CheckedUnder (rule_of device window most) One table.now recording.now witness.now result }
{
    lutarosa::lutarosa_check_rule(table, recording, witness, device, window, most)
}

#[unsafe(no_mangle)]
pub extern "C" fn lutarosa_validate_rule_edition2<'a>(
    table: &'a [u8],
    recording: &'a [u8],
    budget: u32,
    device: u8,
    window: u8,
    most: u8,
    scratch: &mut [u8],
    room: &mut [u8],
) -> VerdictAnswer
    ensures { ValidatedUnder (rule_of device window most) Two table.now recording.now budget scratch.old room.old scratch.new room.new result }
{
    lutarosa::lutarosa_validate_rule_edition2(
        table, recording, budget, device, window, most, scratch, room,
    )
}

#[unsafe(no_mangle)]
pub extern "C" fn lutarosa_check_rule_edition2<'a>(
    table: &'a [u8],
    recording: &'a [u8],
    witness: &[u8],
    device: u8,
    window: u8,
    most: u8,
) -> Answer
    ensures { CheckedUnder (rule_of device window most) Two table.now recording.now witness.now result }
{
    lutarosa::lutarosa_check_rule_edition2(table, recording, witness, device, window, most)
}
