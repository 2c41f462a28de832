// The library's functions by the numbers of a batch's calls.
ghost use Rattle.std.specs.Prelude.{◌≡◌, ◌<◌, MatchResult};
ghost use Rattle.model.specs.First.{answer_of};
ghost use Rattle.model.specs.Numbers.{reading_values, counts};
ghost use Rattle.numbers.specs.Told.{told, verdict_told, counts_told};

use batch::parts::{recording_parts, table_parts, witness_parts};
use batch::sums::{sum_recording, sum_table, sum_witness};
use checker::{check_under, check_witness};
use engine::{validate, validate_under};
use model::{Edition, Refusal, Rule};
use numbers::{Answer, VerdictAnswer};
use read_back::{recording_back, table_back, witness_back};
use recordings::write_recording;
use rewrite::{rewrite_recording, rewrite_table, rewrite_witness};
use tables::write_table;
use witnesses::write_witness;

// What a case asks for.
#[derive(Clone, Copy, PartialEq, Eq)]
pub(crate) enum Call {
    Desk,
    Library(Function),
}

// A function of the library. Where a witness is read or written, or left in the room, it is of an edition.
#[derive(Clone, Copy, PartialEq, Eq)]
pub(crate) enum Function {
    Validate(Edition),
    Check(Edition),
    RewriteTable,
    RewriteRecording,
    RewriteWitness(Edition),
    WriteTable,
    WriteRecording,
    WriteWitness(Edition),
    TableBack,
    RecordingBack,
    WitnessBack(Edition),
    ValidateUnder(Edition),
    CheckUnder(Edition),
}

// A number that stands for no call.
#[derive(Clone, Copy, Debug, PartialEq, Eq)]
pub(crate) struct NoSuchCall;

impl TryFrom<u8> for Call {
    type Error = NoSuchCall;

    fn try_from(number: u8) -> Result<Call, NoSuchCall> {
        let function = match number {
            0 => Function::Validate(Edition::One),
            1 => Function::Check(Edition::One),
            2 => Function::RewriteTable,
            3 => Function::RewriteRecording,
            4 => Function::RewriteWitness(Edition::One),
            5 => return Ok(Call::Desk),
            6 => Function::WriteTable,
            7 => Function::WriteRecording,
            8 => Function::WriteWitness(Edition::One),
            9 => Function::TableBack,
            10 => Function::RecordingBack,
            11 => Function::WitnessBack(Edition::One),
            12 => Function::Validate(Edition::Two),
            13 => Function::Check(Edition::Two),
            14 => Function::RewriteWitness(Edition::Two),
            15 => Function::WriteWitness(Edition::Two),
            16 => Function::WitnessBack(Edition::Two),
            17 => Function::ValidateUnder(Edition::One),
            18 => Function::CheckUnder(Edition::One),
            19 => Function::ValidateUnder(Edition::Two),
            20 => Function::CheckUnder(Edition::Two),
            _ => return Err(NoSuchCall),
        };
        Ok(Call::Library(function))
    }
}

// The files of a case.
#[derive(Clone, Copy)]
pub(crate) struct Files<'a> {
    pub first: &'a [u8],
    pub second: &'a [u8],
    pub third: &'a [u8],
}

// The numbers of an answer, the two counts of a rejection among them, and the sum over the parts that were read back, 1 where none are.
#[derive(Clone, Copy)]
pub(crate) struct Outcome {
    pub told: VerdictAnswer,
    pub sum: u64,
}

// An answer that reads no parts back.
impl From<VerdictAnswer> for Outcome {
    ghost from_gives = { λ told o. (o.told ≡ told) × (o.sum ≡ 1) };

    fn from(told: VerdictAnswer) -> Outcome {
        Outcome { told, sum: 1 }
    }
}

// .. and is no verdict.
impl From<Answer> for Outcome {
    ghost from_gives = { λ answer o. (verdict_told o.told ≡ told answer) × (counts_told o.told ≡ counts 0 0) × (o.sum ≡ 1) };

    fn from(answer: Answer) -> Outcome {
        read_parts(answer, 1)
    }
}

// The answer of reading parts back, and the sum over them.
fn read_parts(answer: Answer, sum: u64) -> Outcome
    ensures numbers { verdict_told result.told ≡ told answer }
    ensures counts { counts_told result.told ≡ counts 0 0 }
    ensures sum { result.sum ≡ sum }
{
    Outcome {
        told: VerdictAnswer {
            number: answer.number,
            second: answer.second,
            third: answer.third,
            not_yet: 0,
            no_more: 0,
        },
        sum,
    }
}

// Parts that were read back; where the reading is refused the sum is over parts that are all 0.
fn parts_outcome<P: Copy + Default, F: Fn(P) -> u64>(reading: Result<P, Refusal>, sum: F) -> Outcome
    requires { F.IsAlwaysCallable sum }
    ensures numbers { verdict_told result.told ≡ reading_values (answer_of reading) }
    ensures counts { counts_told result.told ≡ counts 0 0 }
    ensures parts { MatchResult reading (λ parts. F.post sum parts result.sum) (λ why. (parts : P) × P.is_default parts × F.post sum parts result.sum) }
{
    match reading {
        Ok(parts) => read_parts(Answer::from(Ok::<(), Refusal>(())), sum(parts)),
        Err(why) => read_parts(why.into(), sum(P::default())),
    }
}

// Apart from the other calls: a function clears its locals as it begins, and a witness's parts take 328 KB.

fn witness_written(edition: Edition, parts: &[u8], room: &mut [u8]) -> Outcome
    ensures { result.sum < 1000003 }
{
    Answer::from(write_witness(edition, witness_parts(parts), room)).into()
}

fn witness_read_back(edition: Edition, parts: &[u8], room: &mut [u8]) -> Outcome
    ensures { result.sum < 1000003 }
{
    parts_outcome(
        witness_back(edition, witness_parts(parts), room),
        sum_witness,
    )
}

pub(crate) fn perform(
    function: Function,
    rule: Rule,
    budget: u32,
    files: &Files<'_>,
    scratch: &mut [u8],
    room: &mut [u8],
) -> Outcome
    ensures { result.sum < 1000003 }
{
    let first = files.first;
    let second = files.second;
    let third = files.third;
    match function {
        Function::Validate(edition) => {
            VerdictAnswer::from(validate(edition, first, second, budget, scratch, room)).into()
        }
        Function::ValidateUnder(edition) => VerdictAnswer::from(validate_under(
            rule, edition, first, second, budget, scratch, room,
        )).into(),
        Function::Check(edition) => Answer::from(check_witness(
            edition, first, second, third,
        )).into(),
        Function::CheckUnder(edition) => {
            Answer::from(check_under(rule, edition, first, second, third)).into()
        }
        Function::RewriteTable => Answer::from(rewrite_table(first, room)).into(),
        Function::RewriteRecording => Answer::from(rewrite_recording(first, second, room)).into(),
        Function::RewriteWitness(edition) => {
            Answer::from(rewrite_witness(edition, first, room)).into()
        }
        Function::WriteTable => {
            Answer::from(write_table(table_parts(first, second, third), room)).into()
        }
        Function::WriteRecording => {
            Answer::from(write_recording(first, recording_parts(second), room)).into()
        }
        Function::WriteWitness(edition) => witness_written(edition, first, room),
        Function::TableBack => {
            parts_outcome(
                table_back(table_parts(first, second, third), room),
                sum_table,
            )
        }
        Function::RecordingBack => parts_outcome(
            recording_back(first, recording_parts(second), room),
            sum_recording,
        ),
        Function::WitnessBack(edition) => witness_read_back(edition, first, room),
    }
}
