// A kind's record in each version of a table: how long it is, where it starts, and which device sends the kind. Each function takes any bytes.

#![tactic(auto)]

ghost use Rattle.std.specs.Prelude.{◌≡◌, ◌≤◌};
ghost use Rattle.model.specs.Limits.{table_versions};
ghost use Rattle.model.specs.Table.{transition_at};
ghost use Rattle.model.specs.Kinds.{version_at, kind_width, kind_at, implied_device, device_at, device_fits};

use model::DEVICE_LIMIT;
use wire::byte;

// Where the first record starts, and how long the longest is.
pub const FIRST_KIND: u8 = 8;

pub const WIDEST_KIND: u8 = 3;

// In version 1 a record has no device.
pub fn kind_width(version: u8) -> u8
    ensures { result ≡ kind_width version }
{
    if version == 1 { 2 } else { WIDEST_KIND }
}

// Where the record of kind i starts. Behind the last one the transition records start.
pub fn kind_at(version: u8, i: u8) -> u16
    ensures { result ≡ kind_at version i }
{
    u16::from(FIRST_KIND) + u16::from(kind_width(version)) * u16::from(i)
}

// Where the record of a kind starts in a table.
pub fn record_at(table: &[u8], kind: u8) -> u16
    ensures { result ≡ kind_at (version_at table.now) kind }
{
    kind_at(byte(table, 2), kind)
}

// Where the first transition record starts in a table.
pub fn transitions_at(table: &[u8]) -> u16
    ensures { (result ≡ transition_at table.now 0) × (result ≤ kind_at table_versions 255) }
{
    record_at(table, byte(table, 6))
}

// The device that version 1 gives to kinds of a direction.
#[tactic(auto, unfolding(model::specs::Kinds::implied_device))]
fn implied_device(direction: u8) -> u8
    ensures { result ≡ implied_device direction }
{
    if direction == 0 { 0 } else { 1 }
}

// The device of the kind whose record starts at an offset.
#[tactic(auto, unfolding(model::specs::Kinds::device_at))]
pub fn device_at(table: &[u8], at: u16) -> u8
    ensures { result ≡ device_at table.now at }
{
    let start = usize::from(at);
    if byte(table, 2) == 1 {
        implied_device(byte(table, start))
    } else {
        byte(table, start + 2)
    }
}

// A device that a kind of a direction may have.
#[tactic(auto, unfolding(model::specs::Kinds::device_fits))]
pub fn device_fits(version: u8, direction: u8, device: u8) -> bool
    ensures { result ≡ device_fits version direction device }
{
    match (version, direction) {
        (1, _) => device == implied_device(direction),
        (_, 0) => device == 0,
        _ => (1..=DEVICE_LIMIT).contains(&device),
    }
}
