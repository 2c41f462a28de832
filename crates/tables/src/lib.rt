// The table: its fill, which copies, and what reading and writing give.

#![tactic(auto)]

ghost use Rattle.std.specs.Prelude.{◌≡◌, ℕ, ◌+◌, ◌-◌, ◌*◌, ◌<◌, ◌≤◌, List, ◌++◌, length};
ghost use Rattle.model.specs.Answers.{Reads, RefusesUnreached, Writes};
ghost use Rattle.model.specs.First.{answer_of};
ghost use Rattle.model.specs.Numbers.{reading_values, writing_values};
ghost use Rattle.model.specs.Devices.{JudgesDevices};
ghost use Rattle.model.specs.Limits.{kind_limit, transition_limit, guard_limit};
ghost use Rattle.model.specs.Bytes.{word_bytes, joined, padded};
ghost use Rattle.model.specs.Room.{over};
ghost use Rattle.wire.specs.Placed.{placed};
ghost use Rattle.model.specs.Kinds.{kind_at, kind_bytes};
ghost use Rattle.model.specs.Table.{kinds_at, transitions_at, kind_column, device_column, transition_column, guard_place, table_parts, table_scan, table_answer, read_table, field_bytes, guard_bytes_in, transition_bytes, count_bytes, table_bytes, table_limit, table_writable, write_table};

use columns::bytes_column;
use frame::{is_version, put};
use kinds::{FIRST_KIND, WIDEST_KIND, kind_at, kind_width, transitions_at};
use model::{GUARD_LIMIT, KIND_LIMIT, Refusal, TABLE_VERSIONS, TRANSITION_LIMIT, TableParts};
use monitor::device_of;
use scan::{counts_answer, scan_with, whole_answer};
use wire::{byte, place};

// The longest table.
const MOST: usize = FIRST_KIND as usize
    + WIDEST_KIND as usize * KIND_LIMIT
    + (7 + GUARD_LIMIT) * TRANSITION_LIMIT;

// The fill, which writes arrays and tests nothing: a byte of each kind, and of each transition, by its place in the record.
fn kind_column(b: &[u8], field: u8) -> [u8; KIND_LIMIT]
    requires { (kinds_at b.now ≤ kind_limit) × (field ≤ 1) }
    ensures { result ≡ kind_column b.now field }
{
    let mut column = [0u8; KIND_LIMIT];
    let width = kind_width(byte(b, 2));
    bytes_column(b, FIRST_KIND + field, width, byte(b, 6) as u32, &mut column);
    column
}

// The devices of the kinds that the table counts, at most as many as a sound one has.
#[tactic(auto, unfolding(model::specs::Bytes::tab))]
fn device_column(b: &[u8]) -> [u8; KIND_LIMIT]
    ensures { kinds_at b.now ≤ kind_limit → result ≡ device_column b.now }
{
    let mut column = [0u8; KIND_LIMIT];
    for i in 0..KIND_LIMIT.min(byte(b, 6) as usize) {
        column[i] = device_of(b, i as u8);
    }
    column
}

#[tactic(auto, unfolding(model::specs::Bytes::tab))]
fn transition_column(b: &[u8], field: usize) -> [u8; TRANSITION_LIMIT]
    requires { (transitions_at b.now ≤ transition_limit) × (field ≤ 6) }
    ensures { result ≡ transition_column b.now field }
{
    let mut column = [0u8; TRANSITION_LIMIT];
    let mut at = transitions_at(b) as usize;
    for i in 0..byte(b, 7) as usize {
        column[i] = byte(b, at + field);
        at = at + 7 + byte(b, at + 6) as usize;
    }
    column
}

// Each guard in its places.
#[tactic(auto, unfolding(model::specs::Bytes::joined, model::specs::Bytes::padded))]
fn guard_places(b: &[u8]) -> [u8; GUARD_LIMIT * TRANSITION_LIMIT]
    requires { table_scan b.now ≡ Ok tt }
    ensures { result ≡ padded (guard_limit * transition_limit) (joined (guard_place b.now) (transitions_at b.now)) }
{
    let mut guards = [0u8; GUARD_LIMIT * TRANSITION_LIMIT];
    let mut at = transitions_at(b) as usize;
    for i in 0..byte(b, 7) as usize {
        let from = at + 7;
        let to = from + byte(b, at + 6) as usize;
        place(&b[from..to], &mut guards, GUARD_LIMIT * i);
        at = to;
    }
    guards
}

#[tactic(auto, using(crate::proofs::Tables::scan_bounds), unfolding(model::specs::Table::table_parts))]
fn table_parts(b: &[u8], devices: [u8; KIND_LIMIT]) -> TableParts
    requires { (table_scan b.now ≡ Ok tt) × (devices ≡ device_column b.now) }
    ensures { result ≡ table_parts b.now }
{
    TableParts {
        version: byte(b, 2),
        states: byte(b, 3),
        variables: byte(b, 4),
        clocks: byte(b, 5),
        kinds: byte(b, 6),
        transitions: byte(b, 7),
        directions: kind_column(b, 0),
        airtimes: kind_column(b, 1),
        devices,
        sources: transition_column(b, 0),
        targets: transition_column(b, 1),
        triggers: transition_column(b, 2),
        sets: transition_column(b, 3),
        clears: transition_column(b, 4),
        resets: transition_column(b, 5),
        lengths: transition_column(b, 6),
        guards: guard_places(b),
    }
}

#[tactic(auto, using(crate::proofs::Tables::scan_same, crate::proofs::Tables::scan_bounds))]
pub fn read_table(b: &[u8]) -> Result<TableParts, Refusal>
    ensures value { result ≡ read_table b.now }
    ensures reads { Reads (table_answer b.now) (table_parts b.now) result × RefusesUnreached b.now (answer_of result) × JudgesDevices (table_parts b.now) b.now (reading_values (answer_of result)) }
{
    let devices = device_column(b);
    scan_with(b, &devices)?;
    let parts = table_parts(b, devices);
    whole_answer(parts)?;
    Ok(parts)
}

// The table's numbers alone.
#[tactic(auto, using(crate::proofs::Readings::answer_same), unfolding(model::specs::Table::read_table))]
pub fn table_answer(b: &[u8]) -> Result<(), Refusal>
    ensures value { result ≡ table_answer b.now }
    ensures refuses_unreached { RefusesUnreached b.now result × JudgesDevices (table_parts b.now) b.now (reading_values result) }
{
    read_table(b)?;
    Ok(())
}

// Writing. Each record goes behind what stands in the room already, which a contract calls head.
fn encode_kinds(t: TableParts, out: &mut [u8])
    requires { t.kinds ≤ kind_limit }
    ensures { (head room : List ℕ) → length head ≡ 8 → table_limit ≤ length room → out.old ≡ over head room → out.new ≡ over (head ++ joined (kind_bytes t) t.kinds) room }
{
    let width = kind_width(t.version) as usize;
    for i in 0..t.kinds {
        let k = i as usize;
        let record = [t.directions[k], t.airtimes[k], t.devices[k]];
        place(&record[..width], out, kind_at(t.version, i) as usize);
    }
}

fn field_bytes(t: TableParts, j: usize) -> [u8; 7]
    requires { j < transition_limit }
    ensures { result ≡ field_bytes t j }
{
    [
        t.sources[j],
        t.targets[j],
        t.triggers[j],
        t.sets[j],
        t.clears[j],
        t.resets[j],
        t.lengths[j],
    ]
}

// The bytes of guard j that its length covers, and how many they are.
fn put_guard(guards: &[u8], j: usize, count: u8, out: &mut [u8], at: usize) -> usize
    requires { (j < transition_limit) × (guard_limit * transition_limit ≤ length guards.now) }
    ensures { (out.new ≡ placed (guard_bytes_in guards.now count j) at out.old) × (result ≡ length (guard_bytes_in guards.now count j)) × (result ≤ guard_limit) }
{
    let from = GUARD_LIMIT * j;
    let to = from + GUARD_LIMIT.min(count as usize);
    place(&guards[from..to], out, at);
    to - from
}

fn put_transition(t: TableParts, j: usize, at: usize, out: &mut [u8]) -> usize
    requires { (j < transition_limit) × (at ≤ table_limit) }
    ensures { ((head room : List ℕ) → length head ≡ at → at + (7 + guard_limit) ≤ length room → out.old ≡ over head room → (out.new ≡ over (head ++ transition_bytes t j) room) × (result ≡ length (head ++ transition_bytes t j))) × (result ≤ at + (7 + guard_limit)) }
{
    let fields = field_bytes(t, j);
    place(&fields, out, at);
    let length = t.lengths[j];
    at + 7 + put_guard(&t.guards, j, length, out, at + 7)
}

fn encode_transitions(t: TableParts, out: &mut [u8]) -> usize
    requires { (t.kinds ≤ kind_limit) × (t.transitions ≤ transition_limit) }
    ensures { ((head room : List ℕ) → length head ≡ kind_at t.version t.kinds → table_limit ≤ length room → out.old ≡ over head room → (out.new ≡ over (head ++ joined (transition_bytes t) t.transitions) room) × (result ≡ length (head ++ joined (transition_bytes t) t.transitions))) × (result ≤ table_limit) }
{
    let mut at = kind_at(t.version, t.kinds) as usize;
    for i in 0..t.transitions as usize {
        at = put_transition(t, i, at, out);
    }
    at
}

// The records first, since their length stands in front of them.
fn encode(t: TableParts, out: &mut [u8]) -> usize
    requires { (t.kinds ≤ kind_limit) × (t.transitions ≤ transition_limit) × (length out.old ≡ table_limit) }
    ensures { (out.new ≡ over (table_bytes t) out.old) × (result ≡ length (table_bytes t)) × (result ≤ table_limit) }
{
    encode_kinds(t, out);
    let end = encode_transitions(t, out);
    let head = head_bytes(t, end);
    place(&head, out, 0);
    end
}

// What stands before the records of a table that ends at an offset.
fn head_bytes(t: TableParts, end: usize) -> [u8; 8]
    requires { end ≤ table_limit }
    ensures { result ≡ word_bytes (end - 2) ++ count_bytes t }
{
    let [high, low] = (end.saturating_sub(2) as u16).to_be_bytes();
    [
        high,
        low,
        t.version,
        t.states,
        t.variables,
        t.clocks,
        t.kinds,
        t.transitions,
    ]
}

// What writing parts answers, from their bytes: a version 1 table has none for the devices.
#[tactic(auto, using(crate::proofs::Encoded::writable_by))]
fn writable(t: TableParts, encoded: &[u8]) -> Result<(), Refusal>
    requires { encoded.now ≡ table_bytes t }
    ensures { result ≡ table_writable t }
{
    scan_with(encoded, &t.devices)?;
    whole_answer(t)
}

#[tactic(auto, using(scan::proofs::Scans::counts_bound))]
pub fn write_table(t: TableParts, room: &mut [u8]) -> Result<u64, Refusal>
    ensures writes { Writes (write_table t room.old) result room.new }
    ensures judges_devices { JudgesDevices t (table_bytes t) (writing_values result) }
{
    if !is_version(1, TABLE_VERSIONS, t.version) {
        return Err(Refusal::TableVersion);
    }
    counts_answer(t.states, t.variables, t.clocks, t.kinds, t.transitions)?;
    // made apart: a refusal leaves the room as it was
    let mut bytes = [0u8; MOST];
    let end = encode(t, &mut bytes);
    let encoded = &bytes[..end];
    put(writable(t, encoded), encoded, room)
}
