// A batch of recorded cases as bytes: the heads of its cases, what lent bytes hold before a call, the parts that a case gives, and the sum over what a call leaves.

#![tactic(auto)]

pub mod parts;
pub mod sums;

ghost use Rattle.std.specs.Prelude.{◌≡◌, length};
ghost use Rattle.model.specs.Bytes.{tab};
ghost use Rattle.batch.specs.Batch.{HeadAt, pattern_at};

use model::Rule;
use wire::{byte, long};

#[derive(Clone, Copy)]
pub struct Head {
    pub call: u8,
    pub rule: Rule,
    pub budget: u32,
    pub scratch: u32,
    pub room: u32,
    pub first: u32,
    pub second: u32,
    pub third: u32,
}

pub fn head_of(bytes: &[u8]) -> Head
    ensures { HeadAt bytes.now result }
{
    let rule = Rule {
        device: byte(bytes, 1),
        window: byte(bytes, 2),
        most: byte(bytes, 3),
    };
    Head {
        call: byte(bytes, 0),
        rule,
        budget: long(bytes, 4),
        scratch: long(bytes, 8),
        room: long(bytes, 12),
        first: long(bytes, 16),
        second: long(bytes, 20),
        third: long(bytes, 24),
    }
}

// What lent bytes hold before a call: byte i is (7 i + 1) modulo 256.
pub fn pattern(bytes: &mut [u8])
    ensures { bytes.new ≡ tab pattern_at (length bytes.old) }
{
    let mut next = 1u8;
    for byte in bytes.iter_mut() {
        *byte = next;
        next = next.wrapping_add(7);
    }
}
