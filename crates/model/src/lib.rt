// The values that cross from one crate to the next: the parts of a table, a recording and a witness, a situation, and the answers.
// Their meaning is in specs/: what bytes give which parts, and which number of document 01 each answer stands for.
// The constants are document 01's limits and codes (specs/Limits, Witness, Situation); those of a witness's editions are in `editions`.

#![tactic(auto)]

ghost use Rattle.std.specs.Prelude.{◌≡◌};
ghost use Rattle.model.specs.Validation.{ruling};
ghost use Rattle.model.specs.Table.{no_table};
ghost use Rattle.model.specs.Recording.{no_recording};
ghost use Rattle.model.specs.Witness.{no_witness};

// the latest version of a table
pub const TABLE_VERSIONS: u8 = 2;

pub const STATE_LIMIT: u8 = 16;

pub const VARIABLE_LIMIT: u8 = 4;

pub const CLOCK_LIMIT: u8 = 2;

pub const KIND_LIMIT: usize = 32;

pub const TRANSITION_LIMIT: usize = 64;

pub const AIRTIME_LIMIT: u8 = 15;

pub const DEVICE_LIMIT: u8 = 15;

// the longest window of a rule
pub const WINDOW_LIMIT: u8 = 8;

// the longest guard, and the places of each guard in a table's parts
pub const GUARD_LIMIT: usize = 32;

pub const SIZE_LIMIT: u64 = 65536;
// rows of a recording, whose times may be any u16 from 1 up
pub const ROW_LIMIT: usize = 512;

// the places of each column of a witness's parts, for either edition
pub const WITNESS_PLACES: usize = 65535;

// marks of a witness's rows, and the transition number of a removed one
pub const KEPT: u8 = 0;

pub const REMOVED: u8 = 1;

pub const ADDED: u8 = 2;

pub const NO_TRANSITION: u8 = 255;

// moves as numbers: below REST keep by that transition, REST adds nothing and removes what is recorded, from FIRST_ADD on add by a transition
pub const REST: usize = TRANSITION_LIMIT;

pub const FIRST_ADD: usize = REST + 1;

pub const MOVE_LIMIT: usize = FIRST_ADD + TRANSITION_LIMIT;

// A monitor table's parts. Places beyond a count, and beyond a guard's length, are 0 after reading and are ignored in writing.
#[derive(Clone, Copy)]
pub struct TableParts {
    pub version: u8,
    pub states: u8,
    pub variables: u8,
    pub clocks: u8,
    pub kinds: u8,
    pub transitions: u8,
    pub directions: [u8; KIND_LIMIT],
    pub airtimes: [u8; KIND_LIMIT],
    pub devices: [u8; KIND_LIMIT],
    pub sources: [u8; TRANSITION_LIMIT],
    pub targets: [u8; TRANSITION_LIMIT],
    pub triggers: [u8; TRANSITION_LIMIT],
    pub sets: [u8; TRANSITION_LIMIT],
    pub clears: [u8; TRANSITION_LIMIT],
    pub resets: [u8; TRANSITION_LIMIT],
    pub lengths: [u8; TRANSITION_LIMIT],
    // guard j has the places from GUARD_LIMIT * j on
    pub guards: [u8; GUARD_LIMIT * TRANSITION_LIMIT],
}

#[derive(Clone, Copy)]
pub struct RecordingParts {
    pub count: u16,
    pub times: [u16; ROW_LIMIT],
    pub kinds: [u8; ROW_LIMIT],
}

#[derive(Clone, Copy)]
pub struct WitnessParts {
    pub count: u32,
    pub marks: [u8; WITNESS_PLACES],
    pub times: [u16; WITNESS_PLACES],
    pub kinds: [u8; WITNESS_PLACES],
    pub transitions: [u8; WITNESS_PLACES],
}

// The editions of a witness (R-5), of which a caller names one.
#[derive(Clone, Copy, Debug, PartialEq, Eq)]
pub enum Edition {
    One,
    Two,
}

// Where a monitor is: state, variables as a mask, what each clock reads. A clock that the table does not have is never read.
#[derive(Clone, Copy)]
pub struct Config {
    pub state: u8,
    pub variables: u8,
    pub clocks: [u16; 2],
}

// A situation (document 01): state, variables as a mask, clocks with values above M written as M + 1, and the ticks for which the air is still taken.
// A clock that the table does not have stays 0. Window: which of the last kept or added rows were guesses of the rule's device (R-7), the last one the lowest bit.
#[derive(Clone, Copy)]
pub struct Situation {
    pub state: u8,
    pub variables: u8,
    pub clocks: [u16; 2],
    pub air: u8,
    pub window: u8,
}

// A measured loss rate (R-7): in any window of so many consecutive kept or added rows at most so many are added rows from the device.
#[derive(Clone, Copy)]
pub struct Rule {
    pub device: u8,
    pub window: u8,
    pub most: u8,
}

// Why an input is refused: document 01's numbers from 10 on, with those of document 02's requests (17, 25, 26), in their order.
#[derive(Clone, Copy, Debug, PartialEq, Eq)]
pub enum Refusal {
    TableFrame,
    TableVersion,
    TableCount { offset: u64 },
    TableLength { offset: u64 },
    TableField { offset: u64 },
    TableGuard { offset: u64 },
    TableSize,
    TableState { state: u64 },
    RecordingFrame,
    RecordingVersion,
    RecordingCount,
    RecordingRange { row: u64 },
    RecordingOrder { row: u64 },
    RuleRange,
    RuleSize,
    Scratch { wanted: u64 },
    WitnessRoom { wanted: u64 },
    WriteRoom { wanted: u64 },
    WitnessFrame,
    WitnessVersion { offset: u64 },
    WitnessCount { offset: u64 },
    WitnessRow { row: u64 },
}

// What the checker answers of a witness that is permitted. changed: the removed and added rows together.
#[derive(Clone, Copy, Debug, PartialEq, Eq)]
pub struct Permitted {
    pub changed: u64,
    pub rows: u64,
}

// What a guard answers (R-10): it holds; it does not, but waiting alone would make it hold; it does not, and no wait would.
#[derive(Clone, Copy, Debug, PartialEq, Eq)]
pub enum Readiness {
    Yes,
    NotYet,
    NoMore,
}

// not_yet, no_more: the pairs of a situation and a transition that answer so just before the instant's moves.
#[derive(Clone, Copy, Debug, PartialEq, Eq)]
pub enum Verdict {
    Accepted {
        cost: u64,
        rows: u64,
    },
    Rejected {
        cost: u64,
        instant: u64,
        not_yet: u64,
        no_more: u64,
    },
    Exhausted {
        budget: u64,
        instant: u64,
    },
}

// The verdict under a rule (R-7), by which a rejected recording is unlikely, and not certainly wrong.
#[derive(Clone, Copy, Debug, PartialEq, Eq)]
pub enum RuledVerdict {
    Accepted {
        cost: u64,
        rows: u64,
    },
    Unlikely {
        cost: u64,
        instant: u64,
        not_yet: u64,
        no_more: u64,
    },
    Exhausted {
        budget: u64,
        instant: u64,
    },
}

// Under a rule a rejection is called unlikely.
impl From<Verdict> for RuledVerdict {
    ghost from_gives = { λ v r. r ≡ ruling v };

    fn from(verdict: Verdict) -> RuledVerdict {
        match verdict {
            Verdict::Accepted { cost, rows } => RuledVerdict::Accepted { cost, rows },
            Verdict::Rejected {
                cost,
                instant,
                not_yet,
                no_more,
            } => RuledVerdict::Unlikely {
                cost,
                instant,
                not_yet,
                no_more,
            },
            Verdict::Exhausted { budget, instant } => RuledVerdict::Exhausted { budget, instant },
        }
    }
}

// Parts that are all 0: what stands for the parts of a refused reading.

impl Default for TableParts {
    ghost is_default = { λ t. t ≡ no_table };

    fn default() -> TableParts {
        TableParts {
            version: 0,
            states: 0,
            variables: 0,
            clocks: 0,
            kinds: 0,
            transitions: 0,
            directions: [0; KIND_LIMIT],
            airtimes: [0; KIND_LIMIT],
            devices: [0; KIND_LIMIT],
            sources: [0; TRANSITION_LIMIT],
            targets: [0; TRANSITION_LIMIT],
            triggers: [0; TRANSITION_LIMIT],
            sets: [0; TRANSITION_LIMIT],
            clears: [0; TRANSITION_LIMIT],
            resets: [0; TRANSITION_LIMIT],
            lengths: [0; TRANSITION_LIMIT],
            guards: [0; GUARD_LIMIT * TRANSITION_LIMIT],
        }
    }
}

impl Default for RecordingParts {
    ghost is_default = { λ r. r ≡ no_recording };

    fn default() -> RecordingParts {
        RecordingParts {
            count: 0,
            times: [0; ROW_LIMIT],
            kinds: [0; ROW_LIMIT],
        }
    }
}

impl Default for WitnessParts {
    ghost is_default = { λ w. w ≡ no_witness };

    fn default() -> WitnessParts {
        WitnessParts {
            count: 0,
            marks: [0; WITNESS_PLACES],
            times: [0; WITNESS_PLACES],
            kinds: [0; WITNESS_PLACES],
            transitions: [0; WITNESS_PLACES],
        }
    }
}
