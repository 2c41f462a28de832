// The witness checker: what is read before the rows, and then the rows, under a rule (R-7) or under none.

#![tactic(auto)]

ghost use Rattle.std.specs.Prelude.{◌≡◌};
ghost use Rattle.model.specs.Rules.{check_answer_under};
ghost use Rattle.checker.specs.Claim.{Checks, ChecksUnder};

use account::check_rows;
use model::{Edition, Permitted, Refusal, Rule};
use monitor::offsets;
use rule::no_rule;
use ruled::read_under;
use witness::witness_frame;

// What is read before the rows is answered first.
#[tactic(auto, using(crate::proofs::Answers::judged, model::proofs::Tests::then_sound), unfolding(model::specs::Rules::check_answer_under, model::specs::Rules::check_refusal, account::specs::Standing::checked_rows))]
fn checked(
    rule: Rule,
    edition: Edition,
    table: &[u8],
    recording: &[u8],
    witness: &[u8],
) -> Result<Permitted, Refusal>
    ensures { result ≡ check_answer_under rule edition table.now recording.now witness.now }
{
    read_under(rule, table, recording)?;
    witness_frame(edition, witness)?;
    check_rows(rule, edition, table, &offsets(table), recording, witness)
}

// The answer on a witness of this edition: 0, or the first number that applies.
pub fn check_witness(
    edition: Edition,
    table: &[u8],
    recording: &[u8],
    witness: &[u8],
) -> Result<Permitted, Refusal>
    ensures { Checks edition table.now recording.now witness.now result }
{
    checked(no_rule(), edition, table, recording, witness)
}

// The same under a rule.
#[tactic(auto, using(crate::proofs::Answers::checks_under))]
pub fn check_under(
    rule: Rule,
    edition: Edition,
    table: &[u8],
    recording: &[u8],
    witness: &[u8],
) -> Result<Permitted, Refusal>
    ensures { ChecksUnder rule edition table.now recording.now witness.now result }
{
    checked(rule, edition, table, recording, witness)
}
