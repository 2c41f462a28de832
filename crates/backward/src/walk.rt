// The walk along the least moves, whose rows are the preferred witness.
ghost use Rattle.std.specs.Prelude.{◌+◌, ◌*◌, ◌≤◌, ◌<◌, ◌≡◌, length};
ghost use Rattle.std.specs.Option.{option_map, option_to_list};
ghost use Rattle.model.specs.Edition.{rows_place};
ghost use Rattle.model.specs.declared.Rule.{Rule};
ghost use Rattle.model.specs.Ruled.{monitor_under};
ghost use Rattle.model.specs.Recording.{packets_at};
ghost use Rattle.model.specs.Situation.{move_limit};
ghost use Rattle.model.specs.Layers.{count};
ghost use Rattle.model.specs.Room.{over};
ghost use Rattle.model.specs.Validation.{rows_by, HasRows, possible_after, preferred};
ghost use Rattle.model.specs.Witness.{rows_bytes, witness_bytes};
ghost use Rattle.witness.specs.Rows.{row_of};
ghost use Rattle.steps.specs.Stepping.{as_move};
ghost use Rattle.layers.specs.Into.{move_number};
ghost use Rattle.images.specs.Buffers.{Kept};
ghost use Rattle.measures.specs.Setting.{monitor_by, Triggers};
ghost use Rattle.backward.specs.WalkRows.{Ground, RowsPut, Stands, WalkedOn};

use editions::rows_place;
use frame::put_frame;
use layers::least_into;
use measures::Measures;
use model::{ADDED, Edition, KEPT, NO_TRANSITION, REMOVED};
use rows::span::Span;
use situation::rows::{heard_at, passed};
use steps::Move;
use wire::{byte, place, short};
use witness::{Entry, row_bytes};

// Where the walk is between two instants: a situation's number, the recording's cursor, and how many rows are written.
#[derive(Clone, Copy)]
struct Place {
    number: u64,
    cursor: usize,
    rows: usize,
}

// The row of a move at instant t, if it has one. The kind of an added row is the trigger, the third byte of the transition's record.
#[tactic(auto, using(crate::proofs::WalkMoves::trigger_byte), unfolding(model::specs::Validation::rows_by))]
fn row_by<'a>(
    table: &'a [u8],
    offsets: &'a [u16],
    t: u16,
    heard: Option<u8>,
    k: Move,
) -> Option<Entry>
    requires { move_number k < move_limit }
    ensures { (rule : Rule) → Triggers table.now offsets.now → HasRows (monitor_under rule table.now) heard (as_move k)
        → option_to_list (option_map row_of result) ≡ rows_by (monitor_under rule table.now) heard t (as_move k) }
{
    let (mark, kind, transition) = match k {
        Move::Keep(j) => (KEPT, heard?, j as u8),
        Move::Rest => (REMOVED, heard?, NO_TRANSITION),
        Move::Add(j) => (
            ADDED,
            byte(table, usize::from(short(offsets, j)) + 2),
            j as u8,
        ),
    };
    Some(Entry {
        mark,
        time: t,
        kind,
        transition,
    })
}

// Writes a row, if there is one, as number r of a room that begins with row 0. The result is the next row's number.
#[tactic(auto, using(crate::proofs::WalkRoom::rows_put_none), unfolding(model::specs::Witness::rows_bytes))]
fn put_row(room: &mut [u8], r: usize, row: Option<Entry>) -> usize
    requires { r < 65536 }
    ensures { RowsPut (option_to_list (option_map row_of row)) r result room.old room.new }
{
    let Some(row) = row else {
        return r;
    };
    let bytes = row_bytes(row);
    place(&bytes, room, 5 * r);
    r + 1
}

// From the place after instant t to that after the next.
fn walk_on<'a>(
    table: &'a [u8],
    offsets: &'a [u16],
    recording: &'a [u8],
    g: Measures,
    scratch: &'a [u8],
    room: &mut [u8],
    t: usize,
    at: Place,
) -> Place
    requires { (g.row ≤ 8192) × (t < 65535) × (at.rows ≤ t) }
    ensures few { result.rows ≤ t + 1 }
    ensures walked { Ground table.now offsets.now recording.now scratch.now g → t < g.last
        → Stands (monitor_by g table.now) recording.now g.last t at.number at.cursor
        → WalkedOn (monitor_by g table.now) recording.now g.last t at.number at.rows result.number result.cursor result.rows room.old room.new }
{
    let instant = t as u64 + 1;
    let heard = heard_at(recording, at.cursor, instant);
    let to = Span {
        start: 8 * g.row * (t + 1),
        size: g.size,
    };
    let (number, row) = match least_into(table, offsets, g.shape, heard, scratch, to, at.number) {
        Some(least) => (
            least.to,
            row_by(table, offsets, instant as u16, heard, least.k),
        ),
        None => (0, None),
    };
    Place {
        number,
        cursor: passed(recording, at.cursor, instant),
        rows: put_row(room, at.rows, row),
    }
}

// Writes the rows of the preferred witness along the pruned rows of the scratch. The result is how many they are.
fn walk_rows<'a>(
    table: &'a [u8],
    offsets: &'a [u16],
    recording: &'a [u8],
    g: Measures,
    scratch: &'a [u8],
    room: &mut [u8],
) -> usize
    requires { (g.row ≤ 8192) × (g.last < 65536) }
    ensures few { result ≤ g.last }
    ensures written { Ground table.now offsets.now recording.now scratch.now g
        → 0 < count (possible_after (monitor_by g table.now) (packets_at recording.now) g.last)
        → 5 * (g.last + length (packets_at recording.now)) ≤ length room.old
        → let rows = preferred (monitor_by g table.now) (packets_at recording.now) in
        (result ≡ length rows) × (room.new ≡ over (rows_bytes rows) room.old) }
{
    let mut at = Place {
        number: g.first,
        cursor: 0,
        rows: 0,
    };
    for t in 0..g.last {
        at = walk_on(table, offsets, recording, g, scratch, room, t, at);
    }
    at.rows
}

// Writes the preferred witness into the room. The result is the number of its rows.
pub fn walk<'a>(
    edition: Edition,
    table: &'a [u8],
    offsets: &'a [u16],
    recording: &'a [u8],
    g: Measures,
    scratch: &'a [u8],
    room: &mut [u8],
) -> usize
    ensures kept { Kept room.old room.new }
    ensures written { Ground table.now offsets.now recording.now scratch.now g
        → 0 < count (possible_after (monitor_by g table.now) (packets_at recording.now) g.last)
        → rows_place edition + 5 * (g.last + length (packets_at recording.now)) ≤ length room.old
        → let rows = preferred (monitor_by g table.now) (packets_at recording.now) in
        (result ≡ length rows) × (room.new ≡ over (witness_bytes edition rows) room.old) }
{
    let head = rows_place(edition);
    // Sizes that no sound table and recording have, or too little room: nothing is written.
    if g.last > 65535 || g.row > 8192 || room.len() < head + 5 * g.last {
        return 0;
    }
    let rows = walk_rows(table, offsets, recording, g, scratch, &mut room[head..]);
    put_frame(edition, 5, rows as u32, room);
    rows
}
