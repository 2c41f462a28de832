// A table, a recording and a rule, read together: the numbers 10 to 26.

#![tactic(auto)]

ghost use Rattle.std.specs.Prelude.{◌≡◌};
ghost use Rattle.model.specs.First.{read_as};
ghost use Rattle.model.specs.Ruled.{ruled_answer};
ghost use Rattle.model.specs.Table.{table_parts};

use model::{Refusal, Rule, TableParts};
use recordings::recording_scan;
use rule::rule_answer;
use sizes::table_size;
use tables::read_table;

// The first number that applies, and where none does the table's parts.
#[tactic(auto, using(crate::proofs::Laws::size_read), unfolding(model::specs::Ruled::ruled_answer, model::specs::Recording::recording_answer, model::specs::Table::read_table))]
pub fn read_under(rule: Rule, table: &[u8], recording: &[u8]) -> Result<TableParts, Refusal>
    ensures { result ≡ read_as (ruled_answer rule table.now recording.now) (table_parts table.now) }
{
    let parts = read_table(table)?;
    recording_scan(table, recording)?;
    rule_answer(rule, table_size(parts))?;
    Ok(parts)
}
