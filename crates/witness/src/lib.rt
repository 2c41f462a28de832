// The form of a witness, of either edition: frame, rows and their order, without a table or a recording. Each public function takes any input.

#![tactic(auto)]

ghost use Rattle.std.specs.Prelude.{◌<◌, ◌≡◌, ℕ, None};
ghost use Rattle.model.specs.Answers.{Writes};
ghost use Rattle.model.specs.Bytes.{tab};
ghost use Rattle.model.specs.Room.{write};
ghost use Rattle.model.specs.Witness.{Row, in_form, in_place, misformed, bad_row, witness_bytes, witness_count_at, row_at, witness_frame, witness_answer, row_bytes};
ghost use Rattle.witness.specs.Rows.{row_of, before_of, GivesRows};

use editions::{count_place, latest_time, most_rows, rows_place, size_at, size_width};
use frame::{put_frame, rows_framed};
use model::{ADDED, Edition, NO_TRANSITION, REMOVED, Refusal};
use wire::{byte, place, word};

// A row of a witness.
#[derive(Clone, Copy, Debug, PartialEq, Eq)]
pub struct Entry {
    // any byte can stand here, in bytes and in parts, and the checker and the writer answer on each
    pub mark: u8,
    pub time: u16,
    pub kind: u8,
    pub transition: u8,
}

// 40, 41 and 42.
#[tactic(auto, unfolding(model::specs::Witness::witness_frame))]
pub fn witness_frame(edition: Edition, b: &[u8]) -> Result<(), Refusal>
    ensures { result ≡ witness_frame edition b.now }
{
    let limit = most_rows(edition);
    rows_framed(
        edition,
        b,
        5,
        limit,
        Refusal::WitnessFrame,
        Refusal::WitnessVersion {
            offset: size_width(edition) as u64,
        },
        Refusal::WitnessCount {
            offset: count_place(edition) as u64,
        },
    )
}

pub fn count_at(edition: Edition, b: &[u8]) -> u32
    ensures { (result ≡ witness_count_at edition b.now) × (result < 4294967296) }
{
    size_at(edition, b, count_place(edition))
}

#[tactic(auto, unfolding(model::specs::Witness::row_at))]
pub fn row_at(edition: Edition, b: &[u8], i: u32) -> Entry
    ensures { row_of result ≡ row_at edition b.now i }
{
    let from = rows_place(edition) + 5 * i as usize;
    Entry {
        mark: byte(b, from),
        time: word(b, from + 1),
        kind: byte(b, from + 3),
        transition: byte(b, from + 4),
    }
}

// A row by itself.
#[tactic(auto, unfolding(model::specs::Witness::in_form))]
fn in_form(edition: Edition, e: Entry) -> bool
    ensures { result ≡ in_form edition (row_of e) }
{
    e.mark <= ADDED
        && (1..=latest_time(edition)).contains(&e.time)
        && (e.mark != REMOVED || e.transition == NO_TRANSITION)
}

// A row by itself and behind the row before it, if there is one. Times rise strictly.
pub fn in_place(edition: Edition, before: Option<Entry>, e: Entry) -> bool
    ensures { result ≡ in_place edition (before_of before) (row_of e) }
{
    in_form(edition, e) && before.is_none_or(|p| p.time < e.time)
}

// 43 for the first of so many rows that breaks the form.
pub fn rows_answer<F: Fn(u32) -> Entry>(edition: Edition, count: u32, row: F) -> Result<(), Refusal>
    requires { F.IsAlwaysCallable row }
    ensures { (rows : ℕ → Row) → GivesRows (F.post row) count rows → result ≡ bad_row (misformed edition None 0 (tab rows count)) }
{
    let mut before = None;
    for i in 0..count {
        let e = row(i);
        if !in_place(edition, before, e) {
            return Err(Refusal::WitnessRow { row: i as u64 });
        }
        before = Some(e);
    }
    Ok(())
}

// The form alone, 40 to 43: tests every row and fills no array.
#[tactic(auto, unfolding(model::specs::Witness::witness_answer))]
pub fn witness_answer(edition: Edition, b: &[u8]) -> Result<(), Refusal>
    ensures { result ≡ witness_answer edition b.now }
{
    witness_frame(edition, b)?;
    rows_answer(edition, count_at(edition, b), |i| row_at(edition, b, i))
}

// A row's five bytes.
pub fn row_bytes(e: Entry) -> [u8; 5]
    ensures { result ≡ row_bytes (row_of e) }
{
    let [high, low] = e.time.to_be_bytes();
    [e.mark, high, low, e.kind, e.transition]
}

// Writes so many rows at their places behind their frame.
pub fn write_rows<F: Fn(u32) -> Entry>(
    edition: Edition,
    count: u32,
    row: F,
    room: &mut [u8],
) -> Result<u64, Refusal>
    requires { F.IsAlwaysCallable row }
    ensures { (rows : ℕ → Row) → GivesRows (F.post row) count rows → Writes (write (Ok tt) (witness_bytes edition (tab rows count)) room.old) result room.new }
{
    let start = rows_place(edition);
    let wanted = start + 5 * count as usize;
    if room.len() < wanted {
        return Err(Refusal::WriteRoom {
            wanted: wanted as u64,
        });
    }
    put_frame(edition, 5, count, room);
    for i in 0..count {
        place(&row_bytes(row(i)), room, start + 5 * i as usize);
    }
    Ok(wanted as u64)
}
