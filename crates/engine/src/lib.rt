// Validation (document 01): can the unit have kept the protocol? The verdict, its cost, and the preferred witness.

#![tactic(auto)]

mod judge;

ghost use Rattle.std.specs.Prelude.{◌≡◌};
ghost use Rattle.model.specs.Ruled.{monitor_under, ruled_answer};
ghost use Rattle.engine.specs.Validates.{Answered, Validates, ValidatesUnder};

use editions::rows_place;
use judge::judge;
use lent::{Loan, lent_answer};
use measures::measure;
use model::{Edition, Refusal, Rule, RuledVerdict, Verdict};
use rule::no_rule;
use ruled::read_under;
use wire::word;

// The one validation, under any rule: the numbers up to 31, and then the judgement.
fn judged<'a>(
    rule: Rule,
    edition: Edition,
    table: &'a [u8],
    recording: &'a [u8],
    budget: u32,
    scratch: &mut [u8],
    room: &mut [u8],
) -> Result<Verdict, Refusal>
    ensures { Answered (ruled_answer rule table.now recording.now) edition (monitor_under rule table.now) recording.now budget scratch.old room.old scratch.new room.new result }
{
    let parts = read_under(rule, table, recording)?;
    let g = measure(parts, rule, recording);
    let scratch_wanted = g.row * (g.last + 1);
    let room_wanted = rows_place(edition) + 5 * (g.last + word(recording, 3) as usize);
    let for_scratch = Loan {
        wanted: scratch_wanted,
        length: scratch.len(),
    };
    let for_room = Loan {
        wanted: room_wanted,
        length: room.len(),
    };
    lent_answer(edition, g.last, for_scratch, for_room)?;
    let part = &mut scratch[0..scratch_wanted];
    Ok(judge(edition, table, recording, g, budget as u64, part, room))
}

// Judges a recording against a table, with a scratch and a witness room that the caller lends, whatever they hold. The caller names the witness's edition.
pub fn validate<'a>(
    edition: Edition,
    table: &'a [u8],
    recording: &'a [u8],
    budget: u32,
    scratch: &mut [u8],
    room: &mut [u8],
) -> Result<Verdict, Refusal>
    ensures { Validates edition table.now recording.now budget scratch.old room.old scratch.new room.new result }
{
    judged(no_rule(), edition, table, recording, budget, scratch, room)
}

// The same under a measured loss rate (R-7).
pub fn validate_under<'a>(
    rule: Rule,
    edition: Edition,
    table: &'a [u8],
    recording: &'a [u8],
    budget: u32,
    scratch: &mut [u8],
    room: &mut [u8],
) -> Result<RuledVerdict, Refusal>
    ensures { ValidatesUnder rule edition table.now recording.now budget scratch.old room.old scratch.new room.new result }
{
    let verdict = judged(rule, edition, table, recording, budget, scratch, room)?;
    Ok(verdict.into())
}
