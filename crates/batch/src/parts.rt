// The parts of a table, a recording and a witness as a case's files give them, so that they can be parts that no reading gives.
ghost use Rattle.std.specs.Prelude.{◌≡◌, ◌+◌, ◌*◌, ℕ, replicate};
ghost use Rattle.model.specs.Bytes.{byte_at, word_at};
ghost use Rattle.columns.specs.Filled.{filled};
ghost use Rattle.batch.specs.Parts.{table_given, recording_given, witness_given};

use columns::{bytes_column, words_column};
use model::{
    GUARD_LIMIT, KIND_LIMIT, ROW_LIMIT, RecordingParts, TRANSITION_LIMIT, TableParts,
    WITNESS_PLACES, WitnessParts,
};
use wire::{byte, long, word};

// The places of a guard.
const PLACES: u32 = GUARD_LIMIT as u32;

// n bytes of b, from a start on at even steps, in a column whose other places hold the filler.
fn bytes_over<const N: usize>(filler: u8, b: &[u8], start: u8, step: u8, n: u32) -> [u8; N]
    ensures { result ≡ filled (λ i. byte_at b.now (start + step * i)) n (replicate N filler) }
{
    let mut column = [filler; N];
    bytes_column(b, start, step, n, &mut column);
    column
}

// .. n two-byte numbers, over the filler in both places.
fn words_over<const N: usize>(filler: u8, b: &[u8], start: u8, step: u8, n: u32) -> [u16; N]
    ensures { result ≡ filled (λ i. word_at b.now (start + step * i)) n (replicate N (257 * filler)) }
{
    let mut column = [257 * filler as u16; N];
    words_column(b, start, step, n, &mut column);
    column
}

#[tactic(auto, unfolding(crate::specs::Parts::table_given))]
pub fn table_parts<'a>(b: &'a [u8], fields: &'a [u8], guards: &'a [u8]) -> TableParts
    ensures { result ≡ table_given b.now fields.now guards.now }
{
    let filler = byte(b, 2);
    let kinds = byte(b, 0) as u32;
    let transitions = byte(b, 1) as u32;
    TableParts {
        version: byte(b, 8),
        states: byte(b, 3),
        variables: byte(b, 4),
        clocks: byte(b, 5),
        kinds: byte(b, 6),
        transitions: byte(b, 7),
        directions: bytes_over(filler, b, 9, 3, kinds),
        airtimes: bytes_over(filler, b, 10, 3, kinds),
        devices: bytes_over(filler, b, 11, 3, kinds),
        sources: bytes_over(filler, fields, 0, 7, transitions),
        targets: bytes_over(filler, fields, 1, 7, transitions),
        triggers: bytes_over(filler, fields, 2, 7, transitions),
        sets: bytes_over(filler, fields, 3, 7, transitions),
        clears: bytes_over(filler, fields, 4, 7, transitions),
        resets: bytes_over(filler, fields, 5, 7, transitions),
        lengths: bytes_over(filler, fields, 6, 7, transitions),
        guards: bytes_over(filler, guards, 0, 1, PLACES * transitions),
    }
}

#[tactic(auto, unfolding(crate::specs::Parts::recording_given))]
pub fn recording_parts(b: &[u8]) -> RecordingParts
    ensures { result ≡ recording_given b.now }
{
    let filler = byte(b, 2);
    let rows = word(b, 0) as u32;
    RecordingParts {
        count: word(b, 3),
        times: words_over(filler, b, 5, 3, rows),
        kinds: bytes_over(filler, b, 7, 3, rows),
    }
}

#[tactic(auto, unfolding(crate::specs::Parts::witness_given))]
pub fn witness_parts(b: &[u8]) -> WitnessParts
    ensures { result ≡ witness_given b.now }
{
    let filler = byte(b, 2);
    let rows = word(b, 0) as u32;
    WitnessParts {
        count: long(b, 3),
        marks: bytes_over(filler, b, 7, 5, rows),
        times: words_over(filler, b, 8, 5, rows),
        kinds: bytes_over(filler, b, 10, 5, rows),
        transitions: bytes_over(filler, b, 11, 5, rows),
    }
}
