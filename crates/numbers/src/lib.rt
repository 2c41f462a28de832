// Document 01's table of numbers, and those of document 02's requests: the number, second and third value of each answer.

#![tactic(auto)]

ghost use Rattle.std.specs.Prelude.{◌≡◌, Ok};
ghost use Rattle.model.specs.Numbers.{values, refusal_values, reading_values, writing_values, checking_values, verdict_values, ruled_values, counts, verdict_counts, ruled_counts};
ghost use Rattle.numbers.specs.Told.{told, verdict_told, counts_told};

use model::{Permitted, Refusal, RuledVerdict, Verdict};

// An answer as C and Rust see it.
#[repr(C)]
#[derive(Clone, Copy, Debug, PartialEq, Eq)]
pub struct Answer {
    pub number: u64,
    pub second: u64,
    pub third: u64,
}

// A verdict as they see it: besides, the two counts of a rejection, 0 where nothing is rejected.
#[repr(C)]
#[derive(Clone, Copy, Debug, PartialEq, Eq)]
pub struct VerdictAnswer {
    pub number: u64,
    pub second: u64,
    pub third: u64,
    pub not_yet: u64,
    pub no_more: u64,
}

fn numbered(number: u64, second: u64, third: u64) -> Answer
    ensures { told result ≡ values number second third }
{
    Answer {
        number,
        second,
        third,
    }
}

impl From<Refusal> for Answer {
    ghost from_gives = { λ why a. told a ≡ refusal_values why };

    fn from(refusal: Refusal) -> Answer {
        match refusal {
            Refusal::TableFrame => numbered(10, 0, 0),
            Refusal::TableVersion => numbered(11, 2, 0),
            Refusal::TableCount { offset } => numbered(12, offset, 0),
            Refusal::TableLength { offset } => numbered(13, offset, 0),
            Refusal::TableField { offset } => numbered(14, offset, 0),
            Refusal::TableGuard { offset } => numbered(15, offset, 0),
            Refusal::TableSize => numbered(16, 0, 0),
            Refusal::TableState { state } => numbered(17, state, 0),
            Refusal::RecordingFrame => numbered(20, 0, 0),
            Refusal::RecordingVersion => numbered(21, 2, 0),
            Refusal::RecordingCount => numbered(22, 3, 0),
            Refusal::RecordingRange { row } => numbered(23, row, 0),
            Refusal::RecordingOrder { row } => numbered(24, row, 0),
            Refusal::RuleRange => numbered(25, 0, 0),
            Refusal::RuleSize => numbered(26, 0, 0),
            Refusal::Scratch { wanted } => numbered(30, wanted, 0),
            Refusal::WitnessRoom { wanted } => numbered(31, wanted, 0),
            Refusal::WriteRoom { wanted } => numbered(33, wanted, 0),
            Refusal::WitnessFrame => numbered(40, 0, 0),
            Refusal::WitnessVersion { offset } => numbered(41, offset, 0),
            Refusal::WitnessCount { offset } => numbered(42, offset, 0),
            Refusal::WitnessRow { row } => numbered(43, row, 0),
        }
    }
}

// Of reading: nothing is wrong.
impl From<Result<(), Refusal>> for Answer {
    ghost from_gives = { λ reading a. told a ≡ reading_values reading };

    fn from(reading: Result<(), Refusal>) -> Answer {
        reading.map_or_else(|why| why.into(), |()| numbered(0, 0, 0))
    }
}

// Of writing: the bytes written.
impl From<Result<u64, Refusal>> for Answer {
    ghost from_gives = { λ writing a. told a ≡ writing_values writing };

    fn from(writing: Result<u64, Refusal>) -> Answer {
        writing.map_or_else(|why| why.into(), |bytes| numbered(0, bytes, 0))
    }
}

// Of the witness checker.
impl From<Result<Permitted, Refusal>> for Answer {
    ghost from_gives = { λ checking a. told a ≡ checking_values checking };

    fn from(checking: Result<Permitted, Refusal>) -> Answer {
        checking.map_or_else(|why| why.into(), |p| numbered(0, p.changed, p.rows))
    }
}

fn with_counts(answer: Answer, not_yet: u64, no_more: u64) -> VerdictAnswer
    ensures { (verdict_told result ≡ told answer) × (counts_told result ≡ counts not_yet no_more) }
{
    VerdictAnswer {
        number: answer.number,
        second: answer.second,
        third: answer.third,
        not_yet,
        no_more,
    }
}

impl From<RuledVerdict> for VerdictAnswer {
    ghost from_gives = { λ v a. (verdict_told a ≡ ruled_values (Ok v)) × (counts_told a ≡ ruled_counts (Ok v)) };

    fn from(verdict: RuledVerdict) -> VerdictAnswer {
        match verdict {
            RuledVerdict::Accepted { cost, rows } => with_counts(numbered(0, cost, rows), 0, 0),
            RuledVerdict::Unlikely {
                cost,
                instant,
                not_yet,
                no_more,
            } => with_counts(numbered(1, cost, instant), not_yet, no_more),
            RuledVerdict::Exhausted { budget, instant } => {
                with_counts(numbered(2, budget, instant), 0, 0)
            }
        }
    }
}

impl From<Result<RuledVerdict, Refusal>> for VerdictAnswer {
    ghost from_gives = { λ v a. (verdict_told a ≡ ruled_values v) × (counts_told a ≡ ruled_counts v) };

    fn from(verdict: Result<RuledVerdict, Refusal>) -> VerdictAnswer {
        verdict.map_or_else(|why| with_counts(why.into(), 0, 0), |v| v.into())
    }
}

// A certain rejection and an unlikely one have one number.
impl From<Result<Verdict, Refusal>> for VerdictAnswer {
    ghost from_gives = { λ v a. (verdict_told a ≡ verdict_values v) × (counts_told a ≡ verdict_counts v) };

    fn from(verdict: Result<Verdict, Refusal>) -> VerdictAnswer {
        verdict.map(RuledVerdict::from).into()
    }
}
