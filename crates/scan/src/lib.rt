// A table's numbers: 10 to 15 of its bytes, 16 and 17 of its parts.

#![tactic(auto)]

ghost use Rattle.std.specs.Prelude.{◌≡◌, ◌<◌, ◌^◌, ◌&&◌, ltb};
ghost use Rattle.model.specs.Kinds.{kind_record};
ghost use Rattle.model.specs.Table.{counts_of, kind_records, apart, transition_fields, guard_record, transition_record, transition_records, transition_at, transitions_at, scan_with, whole_answer, monitor_of};

use frame::framed_answer;
use guard::guard_fills;
use kinds::{device_fits, kind_width, record_at, transitions_at};
use model::{
    AIRTIME_LIMIT, CLOCK_LIMIT, Edition, GUARD_LIMIT, KIND_LIMIT, Refusal, SIZE_LIMIT, STATE_LIMIT,
    TABLE_VERSIONS, TRANSITION_LIMIT, TableParts, VARIABLE_LIMIT,
};
use reach::states_answer;
use sizes::table_size;
use wire::byte;

// Limits of counts and of a guard's length, which are bytes.
const KINDS: u8 = KIND_LIMIT as u8;

const TRANSITIONS: u8 = TRANSITION_LIMIT as u8;

const GUARD_LENGTH: u8 = GUARD_LIMIT as u8;

// The first count outside its limits.
#[tactic(auto, unfolding(model::specs::Table::counts_of))]
pub fn counts_answer(
    states: u8,
    variables: u8,
    clocks: u8,
    kinds: u8,
    transitions: u8,
) -> Result<(), Refusal>
    ensures { result ≡ counts_of states variables clocks kinds transitions }
{
    if !(1..=STATE_LIMIT).contains(&states) {
        return Err(Refusal::TableCount { offset: 3 });
    }
    if VARIABLE_LIMIT < variables {
        return Err(Refusal::TableCount { offset: 4 });
    }
    if CLOCK_LIMIT < clocks {
        return Err(Refusal::TableCount { offset: 5 });
    }
    if !(1..=KINDS).contains(&kinds) {
        return Err(Refusal::TableCount { offset: 6 });
    }
    if TRANSITIONS < transitions {
        return Err(Refusal::TableCount { offset: 7 });
    }
    Ok(())
}

#[tactic(auto, unfolding(model::specs::Kinds::kind_record))]
fn kind_record(b: &[u8], at: u16, device: u8) -> Result<(), Refusal>
    ensures { result ≡ kind_record b.now at device }
{
    let version = byte(b, 2);
    let start = at as usize;
    if b.len() < start + kind_width(version) as usize {
        return Err(Refusal::TableLength { offset: at as u64 });
    }
    let direction = byte(b, start);
    if 1 < direction
        || AIRTIME_LIMIT < byte(b, start + 1)
        || !device_fits(version, direction, device)
    {
        return Err(Refusal::TableField { offset: at as u64 });
    }
    Ok(())
}

// The records of kinds that have these devices.
fn kind_records(b: &[u8], devices: &[u8]) -> Result<(), Refusal>
    ensures { result ≡ kind_records devices.now b.now }
{
    for i in 0..byte(b, 6) {
        kind_record(b, record_at(b, i), byte(devices, i as usize))?;
    }
    Ok(())
}

// A mask has no bit for an absent variable or clock.
#[tactic(auto, using(crate::proofs::Masks::mask_fits, crate::proofs::Masks::mask_small))]
fn fits_mask(mask: u8, count: u8) -> bool
    ensures { result ≡ ltb mask (2 ^ count) }
{
    8 <= count || mask >> count == 0
}

// Source and target are states, and the trigger is a kind.
fn ends_fit(states: u8, kinds: u8, source: u8, target: u8, trigger: u8) -> bool
    ensures { result ≡ (ltb source states && ltb target states && ltb trigger kinds) }
{
    source < states && target < states && trigger < kinds
}

// No mask has a bit for an absent variable or clock, and no variable is both set and cleared.
#[tactic(auto, using(crate::proofs::Masks::apart_masks))]
fn masks_fit(variables: u8, clocks: u8, sets: u8, clears: u8, resets: u8) -> bool
    ensures { result ≡ (ltb sets (2 ^ variables) && ltb clears (2 ^ variables) && ltb resets (2 ^ clocks) && apart variables sets clears) }
{
    fits_mask(sets, variables)
        && fits_mask(clears, variables)
        && fits_mask(resets, clocks)
        && sets & clears == 0
}

#[tactic(auto, unfolding(model::specs::Table::transition_fields))]
fn transition_fields(b: &[u8], at: usize) -> Result<(), Refusal>
    requires { at < 131072 }
    ensures { result ≡ transition_fields b.now at }
{
    let ends = ends_fit(
        byte(b, 3),
        byte(b, 6),
        byte(b, at),
        byte(b, at + 1),
        byte(b, at + 2),
    );
    let fits = ends
        && masks_fit(
            byte(b, 4),
            byte(b, 5),
            byte(b, at + 3),
            byte(b, at + 4),
            byte(b, at + 5),
        );
    if fits {
        Ok(())
    } else {
        Err(Refusal::TableField { offset: at as u64 })
    }
}

// The guard of the record at an offset: its length, its bytes and its form.
#[tactic(auto, unfolding(model::specs::Table::guard_record))]
fn guard_record(b: &[u8], at: usize) -> Result<(), Refusal>
    requires { at < 131072 }
    ensures { result ≡ guard_record b.now at }
{
    let length = byte(b, at + 6);
    if !(1..=GUARD_LENGTH).contains(&length) {
        return Err(Refusal::TableGuard { offset: at as u64 });
    }
    let end = at + 7 + length as usize;
    if b.len() < end {
        return Err(Refusal::TableLength { offset: at as u64 });
    }
    if !guard_fills(b, at + 7, end, byte(b, 4), byte(b, 5)) {
        return Err(Refusal::TableGuard { offset: at as u64 });
    }
    Ok(())
}

#[tactic(auto, unfolding(model::specs::Table::transition_record))]
fn transition_record(b: &[u8], at: usize) -> Result<(), Refusal>
    requires { at < 131072 }
    ensures { result ≡ transition_record b.now at }
{
    if b.len() < at + 7 {
        return Err(Refusal::TableLength { offset: at as u64 });
    }
    transition_fields(b, at)?;
    guard_record(b, at)
}

#[tactic(auto, using(crate::proofs::Scans::transitions_turn, crate::proofs::Scans::transitions_end))]
fn transition_records(b: &[u8]) -> Result<(), Refusal>
    ensures { result ≡ transition_records (transitions_at b.now) b.now (transition_at b.now 0) }
{
    let mut at = transitions_at(b) as usize;
    for _i in 0..byte(b, 7) {
        transition_record(b, at)?;
        at += 7 + byte(b, at + 6) as usize;
    }
    if at != b.len() {
        return Err(Refusal::TableLength { offset: at as u64 });
    }
    Ok(())
}

// The numbers 10 to 15 of bytes whose kinds have these devices.
#[tactic(auto, unfolding(model::specs::Table::scan_with))]
pub fn scan_with(b: &[u8], devices: &[u8]) -> Result<(), Refusal>
    ensures { result ≡ scan_with devices.now b.now }
{
    framed_answer(
        Edition::One,
        b,
        8,
        1,
        TABLE_VERSIONS,
        Refusal::TableFrame,
        Refusal::TableVersion,
    )?;
    counts_answer(byte(b, 3), byte(b, 4), byte(b, 5), byte(b, 6), byte(b, 7))?;
    kind_records(b, devices)?;
    transition_records(b)
}

// 16, then 17: what is asked of the whole table.
#[tactic(auto, unfolding(model::specs::Table::whole_answer))]
pub fn whole_answer(t: TableParts) -> Result<(), Refusal>
    ensures { result ≡ whole_answer (monitor_of t) }
{
    if SIZE_LIMIT < table_size(t) {
        return Err(Refusal::TableSize);
    }
    states_answer(t)
}
