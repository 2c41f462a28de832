// The lines that the program prints, written into a lent text: as far as they fit, the rest is dropped.
// A writer takes the place to write at and returns the place behind what it wrote, whether or not there was room; for other crates that place is the front.
// By hand, and not by `write!`: that promises its text only where it answers Ok, and never that it does, while the clauses here hold always.

#![tactic(auto)]

ghost use Rattle.std.specs.Prelude.{[], ◌∷◌, ◌≡◌, ◌+◌, ◌*◌, ◌≤◌, length};
ghost use Rattle.model.specs.Edition.{most_rows};
ghost use Rattle.model.specs.declared.Edition.TheVariants.{One};
ghost use Rattle.model.specs.Bytes.{tab};
ghost use Rattle.model.specs.Witness.{row_at};
ghost use Rattle.model.specs.Desk.{digits, spaced, refused_word, line, mark_word, row_line, row_lines, verdict_lines};
ghost use Rattle.witness.specs.Rows.{row_of};
ghost use Rattle.text.specs.Put.{Wrote, Small, line_of, rows_standing};

use editions::most_rows;
use model::{Edition, KEPT, REMOVED, Refusal, Verdict};
use numbers::Answer;
use witness::{Entry, row_at};

// By index: of a slice behind `get_mut` nothing is promised.
fn emit(text: &mut [u8], at: usize, b: u8) -> usize
    requires { Small at 1 }
    ensures { Wrote (b ∷ []) at text.old text.new result }
{
    if at < text.len() {
        text[at] = b;
    }
    at + 1
}

fn put(bytes: &[u8], text: &mut [u8], at: usize) -> usize
    requires { Small at (length bytes.now) }
    ensures { Wrote bytes.now at text.old text.new result }
{
    let mut next = at;
    for b in bytes {
        next = emit(text, next, *b);
    }
    next
}

// In decimal, with at most as many digits as fuel.
fn decimal(fuel: u8, n: u64, text: &mut [u8], at: usize) -> usize
    requires { Small at fuel }
    ensures { Wrote (digits fuel n) at text.old text.new result }
{
    if fuel == 0 {
        return at;
    }
    if n < 10 {
        return emit(text, at, b'0' + n as u8);
    }
    let next = decimal(fuel - 1, n / 10, text, at);
    emit(text, next, b'0' + (n % 10) as u8)
}

fn number(n: u64, text: &mut [u8], at: usize) -> usize
    requires { Small at 21 }
    ensures { Wrote (spaced n) at text.old text.new result }
{
    let next = emit(text, at, b' ');
    decimal(20, n, text, next)
}

// A word and its numbers.
fn line(word: &[u8], numbers: &[u64], text: &mut [u8], at: usize) -> usize
    requires { Small at (length word.now + 21 * length numbers.now + 1) }
    ensures { Wrote (line_of word.now numbers.now) at text.old text.new result }
{
    let mut next = put(word, text, at);
    for n in numbers {
        next = number(*n, text, next);
    }
    emit(text, next, b'\n')
}

fn mark_word(mark: u8) -> &'static [u8]
    ensures { result.now ≡ mark_word mark }
{
    match mark {
        KEPT => b"kept",
        REMOVED => b"removed",
        _ => b"added",
    }
}

fn row_line(e: Entry, text: &mut [u8], at: usize) -> usize
    requires { Small at 71 }
    ensures { Wrote (row_line (row_of e)) at text.old text.new result }
{
    let numbers = [e.time as u64, e.kind as u64, e.transition as u64];
    line(mark_word(e.mark), &numbers, text, at)
}

fn row_lines(witness: &[u8], rows: u32, text: &mut [u8], at: usize) -> usize
    requires { (rows ≤ most_rows One) × Small at (71 * rows) }
    ensures { Wrote (row_lines (tab (row_at One witness.now) rows)) at text.old text.new result }
{
    let mut next = at;
    for i in 0..rows {
        next = row_line(row_at(Edition::One, witness, i), text, next);
    }
    next
}

pub fn refused_line(number: u64, value: u64, text: &mut [u8]) -> usize
    ensures { Wrote (line refused_word number value) 0 text.old text.new result }
{
    line(b"refused", &[number, value], text, 0)
}

// An accepted verdict's rows are read back from the witness room. More than edition 1 has were never written: then none is read.
#[tactic(auto, unfolding(model::specs::Desk::verdict_lines))]
fn judged_lines(verdict: Verdict, witness: &[u8], text: &mut [u8]) -> usize
    ensures { Wrote (verdict_lines (Ok verdict) (rows_standing (Ok verdict) witness.now)) 0 text.old text.new result }
{
    match verdict {
        Verdict::Accepted { cost, rows } => {
            let next = line(b"accepted", &[cost, rows], text, 0);
            if rows > most_rows(Edition::One) as u64 {
                return next;
            }
            row_lines(witness, rows as u32, text, next)
        }
        Verdict::Rejected {
            cost,
            instant,
            not_yet,
            no_more,
        } => line(b"rejected", &[cost, instant, not_yet, no_more], text, 0),
        Verdict::Exhausted { budget, instant } => line(b"exhausted", &[budget, instant], text, 0),
    }
}

#[tactic(auto, unfolding(model::specs::Desk::verdict_lines))]
pub fn verdict_lines(verdict: Result<Verdict, Refusal>, witness: &[u8], text: &mut [u8]) -> usize
    ensures { Wrote (verdict_lines verdict (rows_standing verdict witness.now)) 0 text.old text.new result }
{
    match verdict {
        Ok(verdict) => judged_lines(verdict, witness, text),
        Err(refusal) => {
            let told = Answer::from(refusal);
            refused_line(told.number, told.second, text)
        }
    }
}
