// The library's face: each function hands its bytes over and answers in document 01's numbers. `lutarosa_c` exports each to C (include/lutarosa.h).

#![tactic(auto)]

ghost use Rattle.model.specs.Rule.{rule_of};
ghost use Rattle.model.specs.Table.{table_answer};
ghost use Rattle.model.specs.Recording.{recording_answer};
ghost use Rattle.model.specs.Witness.{witness_answer};
ghost use Rattle.rewrite.specs.Rewriting.{rewrite_table, rewrite_recording, rewrite_witness};
ghost use Rattle.model.specs.declared.Edition.TheVariants.{One, Two};
ghost use Rattle.lutarosa.specs.Face.{Validated, Checked, Rewritten, ValidatedUnder, CheckedUnder};

use checker::{check_under, check_witness};
use engine::{validate, validate_under};
use model::Edition;
use numbers::{Answer, VerdictAnswer};
use rewrite::{rewrite_recording, rewrite_table, rewrite_witness};
use rule::rule_of;

#[tactic(auto, using(crate::proofs::Handed::validated))]
pub fn lutarosa_validate<'a>(
    table: &'a [u8],
    recording: &'a [u8],
    budget: u32,
    scratch: &mut [u8],
    room: &mut [u8],
) -> VerdictAnswer
    ensures { Validated One table.now recording.now budget scratch.old room.old scratch.new room.new result }
{
    validate(Edition::One, table, recording, budget, scratch, room).into()
}

#[tactic(auto, using(crate::proofs::Handed::checked))]
pub fn lutarosa_check<'a>(table: &'a [u8], recording: &'a [u8], witness: &[u8]) -> Answer
    ensures { Checked One table.now recording.now witness.now result }
{
    check_witness(Edition::One, table, recording, witness).into()
}

#[tactic(auto, using(crate::proofs::Handed::rewritten))]
pub fn lutarosa_rewrite_table(bytes: &[u8], room: &mut [u8]) -> Answer
    ensures { Rewritten (table_answer bytes.now) bytes.now room.old room.new (rewrite_table bytes.now room.old) result }
{
    rewrite_table(bytes, room).into()
}

#[tactic(auto, using(crate::proofs::Handed::rewritten))]
pub fn lutarosa_rewrite_recording(table: &[u8], bytes: &[u8], room: &mut [u8]) -> Answer
    ensures { Rewritten (recording_answer table.now bytes.now) bytes.now room.old room.new (rewrite_recording table.now bytes.now room.old) result }
{
    rewrite_recording(table, bytes, room).into()
}

#[tactic(auto, using(crate::proofs::Handed::rewritten))]
pub fn lutarosa_rewrite_witness(bytes: &[u8], room: &mut [u8]) -> Answer
    ensures { Rewritten (witness_answer One bytes.now) bytes.now room.old room.new (rewrite_witness One bytes.now room.old) result }
{
    rewrite_witness(Edition::One, bytes, room).into()
}

// The same for edition 2 of the witness.

#[tactic(auto, using(crate::proofs::Handed::validated))]
pub fn lutarosa_validate_edition2<'a>(
    table: &'a [u8],
    recording: &'a [u8],
    budget: u32,
    scratch: &mut [u8],
    room: &mut [u8],
) -> VerdictAnswer
    ensures { Validated Two table.now recording.now budget scratch.old room.old scratch.new room.new result }
{
    validate(Edition::Two, table, recording, budget, scratch, room).into()
}

#[tactic(auto, using(crate::proofs::Handed::checked))]
pub fn lutarosa_check_edition2<'a>(table: &'a [u8], recording: &'a [u8], witness: &[u8]) -> Answer
    ensures { Checked Two table.now recording.now witness.now result }
{
    check_witness(Edition::Two, table, recording, witness).into()
}

#[tactic(auto, using(crate::proofs::Handed::rewritten))]
pub fn lutarosa_rewrite_witness_edition2(bytes: &[u8], room: &mut [u8]) -> Answer
    ensures { Rewritten (witness_answer Two bytes.now) bytes.now room.old room.new (rewrite_witness Two bytes.now room.old) result }
{
    rewrite_witness(Edition::Two, bytes, room).into()
}

// The same under a measured loss rate (R-7), in either edition.

#[tactic(auto, using(crate::proofs::Handed::validated_under))]
pub fn lutarosa_validate_rule<'a>(
    table: &'a [u8],
    recording: &'a [u8],
    budget: u32,
    device: u8,
    window: u8,
    most: u8,
    scratch: &mut [u8],
    room: &mut [u8],
) -> VerdictAnswer
    ensures { ValidatedUnder (rule_of device window most) One table.now recording.now budget scratch.old room.old scratch.new room.new result }
{
    validate_under(
        rule_of(device, window, most),
        Edition::One,
        table,
        recording,
        budget,
        scratch,
        room,
    )
    .into()
}

#[tactic(auto, using(crate::proofs::Handed::checked_under))]
pub fn lutarosa_check_rule<'a>(
    table: &'a [u8],
    recording: &'a [u8],
    witness: &[u8],
    device: u8,
    window: u8,
    most: u8,
) -> Answer
    ensures { CheckedUnder (rule_of device window most) One table.now recording.now witness.now result }
{
    check_under(
        rule_of(device, window, most),
        Edition::One,
        table,
        recording,
        witness,
    )
    .into()
}

#[tactic(auto, using(crate::proofs::Handed::validated_under))]
pub fn lutarosa_validate_rule_edition2<'a>(
    table: &'a [u8],
    recording: &'a [u8],
    budget: u32,
    device: u8,
    window: u8,
    most: u8,
    scratch: &mut [u8],
    room: &mut [u8],
) -> VerdictAnswer
    ensures { ValidatedUnder (rule_of device window most) Two table.now recording.now budget scratch.old room.old scratch.new room.new result }
{
    validate_under(
        rule_of(device, window, most),
        Edition::Two,
        table,
        recording,
        budget,
        scratch,
        room,
    )
    .into()
}

#[tactic(auto, using(crate::proofs::Handed::checked_under))]
pub fn lutarosa_check_rule_edition2<'a>(
    table: &'a [u8],
    recording: &'a [u8],
    witness: &[u8],
    device: u8,
    window: u8,
    most: u8,
) -> Answer
    ensures { CheckedUnder (rule_of device window most) Two table.now recording.now witness.now result }
{
    check_under(
        rule_of(device, window, most),
        Edition::Two,
        table,
        recording,
        witness,
    )
    .into()
}
