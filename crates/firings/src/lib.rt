// Transitions fired on whole planes of situations' numbers, forward or back. A plane has the clock values of one window, state and variables.

#![tactic(auto)]

ghost use Rattle.std.specs.Prelude.{◌≡◌, true, ◌&&◌, ◌||◌, List, ℕ, ◌+◌, ◌*◌, ◌%◌, ◌^◌, ◌<◌, length};
ghost use Rattle.model.specs.Monitor.{airtime, changed};
ghost use Rattle.words.specs.Words.{bit, Joined};
ghost use Rattle.monitor.specs.From.{transition_from, transition_count};
ghost use Rattle.situation.specs.Ruled.{ruled_from};
ghost use Rattle.instants.specs.Firing as Firing;
ghost use Rattle.firings.specs.Fired.{place_by, carried, carried_each, fired_from, fires_now, fired_by, fired_one, fired};
ghost use Rattle.firings.specs.Used.{used_by};

use monitor::{airtime_of, device_of, transitions, variables_after};
use ranges::or_range;
use rule::{allows, window_behind};
use situation::Shape;
use wire::{byte, short};

// What the firings of one instant share: how situations are numbered; the numbers of a plane, and of the situations whose air is free; what is recorded; the
// states from which it is worth firing, as a mask; how far apart the sets for each reset are, and the guards of two transitions; forward or back.
#[derive(Clone, Copy)]
pub struct Plan {
    pub shape: Shape,
    pub heard: Option<u8>,
    pub live: u64,
    pub plane: u32,
    pub free: u32,
    pub gap: u32,
    pub apart: u32,
    pub back: bool,
}

// What they read: the plan and the table, the planes of guards, and those that are carried over.
#[derive(Drop)]
struct Reads<'a> {
    plan: Plan,
    table: &'a [u8],
    planes: &'a [u64],
    src: &'a [u64],
}

// Bit r of a mask, which has none from 64 on.
pub fn has(mask: u64, r: u8) -> bool
    ensures { result ≡ bit mask r }
{
    r < 64 && (mask >> r) % 2 == 1
}

// Where the planes of a state and a window start: that of variables 0, behind which the others follow.
fn place(p: Plan, state: u8, w: u8) -> usize
    ensures { (result ≡ place_by p 0 state w) × (result < 2 ^ 58) }
{
    let h = p.shape;
    p.plane as usize * (h.masks as usize * (state as usize + h.states as usize * w as usize))
}

// The part of the place after a firing that all planes share: the set for what the transition resets, and the air that its packet takes.
#[tactic(auto, using(crate::proofs::Bounds::share_fits), unfolding(monitor::specs::From::transition_from))]
fn base(p: Plan, table: &[u8], at: usize) -> usize
    requires { at < 65536 }
    ensures { ((offsets : List ℕ) → result ≡ p.gap * ((transition_from table.now at).resets % 4) + p.free * airtime (ruled_from p.shape table.now offsets) (transition_from table.now at).trigger) × (result < 2 ^ 42) }
{
    let resets = byte(table, at + 5);
    let air = airtime_of(table, byte(table, at + 2));
    p.gap as usize * usize::from(resets % 4) + p.free as usize * usize::from(air)
}

// So many numbers go over, those of them that the guard has.
#[tactic(auto, unfolding(crate::specs::Fired::carried))]
fn carry(r: &Reads<'_>, here: usize, there: usize, guard: usize, length: usize, dst: &mut [u64])
    requires { (here < 2 ^ 60) × (there < 2 ^ 60) × (guard < 2 ^ 60) × (length < 2 ^ 60) }
    ensures { Joined (carried r.now.plan r.now.src.now r.now.planes.now here there guard length) dst.old dst.new }
{
    if r.plan.back {
        or_range(dst, here, r.src, there, r.planes, guard, length);
    } else {
        or_range(dst, there, r.src, here, r.planes, guard, length);
    }
}

// Says true only where all variables below masks stay as they are.
fn keeps(masks: u8, variables: u8, sets: u8, clears: u8) -> bool
    ensures { (v : ℕ) → result ≡ true → v < masks → changed variables v sets clears ≡ v }
{
    sets == 0 && clears == 0 && variables < 8 && u16::from(masks) <= 1 << variables
}

// The plane of each variables goes over to that of the variables after.
fn carry_each(
    r: &Reads<'_>,
    variables: u8,
    sets: u8,
    clears: u8,
    here: usize,
    to: usize,
    guard: usize,
    dst: &mut [u64],
)
    requires { (here < 2 ^ 58) × (to < 2 ^ 59) × (guard < 2 ^ 58) }
    ensures { Joined (carried_each r.now.plan r.now.src.now r.now.planes.now variables sets clears here to guard r.now.plan.shape.masks) dst.old dst.new }
{
    let plane = r.plan.plane as usize;
    for v in 0..r.plan.shape.masks {
        let changed = variables_after(variables, v, sets, clears);
        carry(
            r,
            here + plane * v as usize,
            to + plane * changed as usize,
            guard + plane * v as usize,
            plane,
            dst,
        );
    }
}

// One transition from one window, in one run where the variables stay as they are.
fn fire_from(
    r: &Reads<'_>,
    at: usize,
    guess: bool,
    shared: usize,
    guard: usize,
    w: u8,
    dst: &mut [u64],
)
    requires { (at < 65536) × (guard < 2 ^ 58) × (shared < 2 ^ 42) × ((offsets : List ℕ) → shared ≡ r.now.plan.gap * ((transition_from r.now.table.now at).resets % 4) + r.now.plan.free * airtime (ruled_from r.now.plan.shape r.now.table.now offsets) (transition_from r.now.table.now at).trigger) }
    ensures { (offsets : List ℕ) → Joined (fired_from r.now.plan (ruled_from r.now.plan.shape r.now.table.now offsets) r.now.src.now r.now.planes.now guess (transition_from r.now.table.now at) guard w) dst.old dst.new }
{
    let p = r.plan;
    let table = r.table;
    let masks = p.shape.masks;
    let window = window_behind(p.shape.rule, w, guess);
    let here = place(p, byte(table, at), w);
    let to = shared + place(p, byte(table, at + 1), window);
    let count = byte(table, 4);
    let sets = byte(table, at + 3);
    let clears = byte(table, at + 4);
    if keeps(masks, count, sets, clears) {
        let run = p.plane as usize * masks as usize;
        carry(r, here, to, guard, run, dst);
    } else {
        carry_each(r, count, sets, clears, here, to, guard, dst);
    }
}

// One transition from every window behind which the rule allows it.
fn fire_windows(r: &Reads<'_>, at: usize, guess: bool, guard: usize, dst: &mut [u64])
    requires { (at < 65536) × (guard < 2 ^ 58) }
    ensures { (offsets : List ℕ) → Joined (fired_by r.now.plan (ruled_from r.now.plan.shape r.now.table.now offsets) r.now.src.now r.now.planes.now guess (transition_from r.now.table.now at) guard r.now.plan.shape.windows) dst.old dst.new }
{
    let shared = base(r.plan, r.table, at);
    for w in 0..r.plan.shape.windows {
        if allows(r.plan.shape.rule, w, guess) {
            fire_from(r, at, guess, shared, guard, w, dst);
        }
    }
}

// Is the transition at an offset worth firing? Only those on what is recorded fire; where nothing is, each may.
#[tactic(auto, unfolding(crate::specs::Fired::fires_now, monitor::specs::From::transition_from))]
fn fires_now(p: Plan, table: &[u8], at: usize) -> bool
    requires { at < 65536 }
    ensures { result ≡ fires_now p (transition_from table.now at) }
{
    has(p.live, byte(table, at)) && p.heard.is_none_or(|kind| byte(table, at + 2) == kind)
}

// A recorded row is no guess; an added one is, if it is from the rule's device.
#[tactic(auto, unfolding(monitor::specs::From::transition_from))]
fn is_guess(p: Plan, table: &[u8], at: usize) -> bool
    requires { at < 65536 }
    ensures { (offsets : List ℕ) → result ≡ Firing.guessed (ruled_from p.shape table.now offsets) p.heard (transition_from table.now at) }
{
    p.heard.is_none() && device_of(table, byte(table, at + 2)) == p.shape.rule.device
}

// Transition j, where it is worth firing.
fn fire_one(r: &Reads<'_>, offsets: &[u16], j: usize, dst: &mut [u64])
    requires { j < 64 }
    ensures { Joined (fired_one r.now.plan r.now.table.now offsets.now r.now.src.now r.now.planes.now j) dst.old dst.new }
{
    let at = usize::from(short(offsets, j));
    if fires_now(r.plan, r.table, at) {
        let guess = is_guess(r.plan, r.table, at);
        fire_windows(r, at, guess, r.plan.apart as usize * j, dst);
    }
}

// Every transition from every window: puts the planes of src that are carried over into dst.
pub fn fire(p: Plan, table: &[u8], offsets: &[u16], planes: &[u64], src: &[u64], dst: &mut [u64])
    ensures { Joined (fired p table.now offsets.now src.now planes.now (transition_count table.now)) dst.old dst.new }
{
    let r = Reads {
        plan: p,
        table,
        planes,
        src,
    };
    for j in 0..transitions(table) {
        fire_one(&r, offsets, j, dst);
    }
}

// Which choices of clocks the transitions that are worth firing reset, as a mask.
#[tactic(auto, using(crate::proofs::UsedLaws::uses), unfolding(monitor::specs::From::transition_from))]
pub fn used(p: Plan, table: &[u8], offsets: &[u16]) -> u64
    ensures { (r : ℕ) → bit result r ≡ used_by p table.now offsets.now (transition_count table.now) r }
{
    let mut found = 0;
    for j in 0..transitions(table) {
        let at = usize::from(short(offsets, j));
        if fires_now(p, table, at) {
            found |= 1 << (byte(table, at + 5) % 4);
        }
    }
    found
}
