// P2 of document 01: on the small monitor, the recording (1 DATA) is accepted at cost 1, and these ten bytes stand in the witness room.
// Each comparison is proved: the engine's contract gives what it leaves, and the definition computes on these bytes. Scratch and room are lent dirty.

#![tactic(auto)]

ghost use Rattle.fixed_witness.specs.Tells.{Tells};

use check::{expect, same};
use model::{Edition, Refusal, Verdict};

const TABLE: [u8; 68] = *b"\x00\x42\x01\x03\x00\x01\x03\x05\x00\x01\x00\x01\x01\x00\x00\x01\x00\
    \x00\x00\x01\x01\x00\x01\x00\x02\x00\x00\x00\x03\x01\x00\x03\x01\x02\
    \x01\x00\x00\x01\x08\x05\x04\x01\x00\x03\x01\x00\x06\x02\x00\x02\x00\
    \x00\x00\x03\x01\x00\x03\x02\x01\x00\x00\x00\x01\x04\x04\x01\x00\x03";

const RECORDING: [u8; 8] = [0x00, 0x06, 0x01, 0x00, 0x01, 0x00, 0x01, 0x00];

const WITNESS: [u8; 10] = [0x00, 0x08, 0x01, 0x00, 0x01, 0x00, 0x00, 0x01, 0x00, 0x00];

fn accepted(verdict: Result<Verdict, Refusal>, cost: u64, rows: u64) -> bool
    ensures { Tells verdict cost rows result }
{
    verdict == Ok(Verdict::Accepted { cost, rows })
}

fn main() {
    let mut scratch = [7u8; 100];
    let mut room = [9u8; 90];
    let verdict = engine::validate(
        Edition::One,
        &TABLE,
        &RECORDING,
        10000,
        &mut scratch,
        &mut room,
    );
    expect(accepted(verdict, 1, 1));
    expect(same(&room[0..10], &WITNESS));
    expect(same(&room[10..], &[9u8; 80]));
    expect(same(&scratch[0..12], &[0u8; 12]));
    expect(same(&scratch[12..], &[7u8; 88]));
}
