// One pass over a witness's rows against a table and a recording, by their bytes, under a rule (R-7).

#![tactic(auto)]

ghost use Rattle.std.specs.Prelude.{◌≡◌, List, ◌+◌, ◌<◌, length, get_or, drop};
ghost use Rattle.model.specs.Monitor.{wait};
ghost use Rattle.model.specs.Trace.{Packet};
ghost use Rattle.model.specs.Recording.{packets_at};
ghost use Rattle.model.specs.Witness.{rows_at};
ghost use Rattle.model.specs.Rules.{begin, sends, removes, keeps, adds, account};
ghost use Rattle.witness.specs.Rows.{row_of};
ghost use Rattle.row_tests.specs.Under.{ruled_from};
ghost use Rattle.account.specs.Standing.{judged, progress_of, Bounded, Ready, Stepped, checked_rows};

use model::{Config, Edition, KEPT, Permitted, REMOVED, Refusal, Rule};
use monitor::{fire, to_unit};
use row_tests::{free_after, is_guess, is_next, none_at, none_before};
use rule::{allows, window_behind};
use wire::word;
use witness::{Entry, count_at, in_place, row_at};

// What rows are tested against: a table, with its records at the offsets, and a recording, under a rule.
#[derive(Clone, Copy)]
struct Against<'a> {
    rule: Rule,
    table: &'a [u8],
    offsets: &'a [u16],
    recording: &'a [u8],
}

// What the rows so far have come to. The window says which of the last rows are guesses, as a mask.
#[derive(Clone, Copy)]
struct Standing {
    before: Option<Entry>,
    next: u16,
    now: u16,
    free: u32,
    config: Config,
    window: u8,
}

fn waited(c: Config, ticks: u16) -> Config
    requires { (length c.clocks ≡ 2) × (get_or c.clocks 0 0 + ticks < 65536) × (get_or c.clocks 1 0 + ticks < 65536) }
    ensures { result ≡ wait ticks c }
{
    let [first, second] = c.clocks;
    Config {
        clocks: [first + ticks, second + ticks],
        ..c
    }
}

// A kept or added row: the rule is kept, and its transition has its kind and fires.
#[tactic(auto, using(crate::proofs::Steps::fires_under), unfolding(model::specs::Rules::sends, model::specs::Monitor::within_rule))]
fn sent(a: &Against, s: Standing, e: Entry, next: u16) -> Option<Standing>
    requires { Ready s e }
    ensures { (recording : List Packet) → Stepped recording (sends (judged a.now) (progress_of recording s) (row_of e) (drop next recording)) result }
{
    let guess = is_guess(a.rule, a.table, e);
    if !allows(a.rule, s.window, guess) {
        return None;
    }
    let ready = waited(s.config, e.time - s.now);
    let config = fire(a.table, a.offsets, usize::from(e.transition), e.kind, ready)?;
    Some(Standing {
        before: Some(e),
        next,
        now: e.time,
        free: free_after(a.table, e),
        config,
        window: window_behind(a.rule, s.window, guess),
    })
}

#[tactic(auto, using(crate::proofs::Steps::others_drop), unfolding(model::specs::Rules::keeps))]
fn keep_row(a: &Against, s: Standing, e: Entry) -> Option<Standing>
    requires { Ready s e }
    ensures { Stepped (packets_at a.now.recording.now) (keeps (judged a.now) (progress_of (packets_at a.now.recording.now) s) (row_of e)) result }
{
    if !is_next(a.recording, s.next, e) {
        return None;
    }
    sent(a, s, e, s.next + 1)
}

// A removed row is to the unit, which missed it: the monitor and the window stay where they were, under any rule.
#[tactic(auto, using(crate::proofs::Steps::others_drop), unfolding(model::specs::Rules::removes))]
fn remove_row(a: &Against, s: Standing, e: Entry) -> Option<Standing>
    requires { Ready s e }
    ensures { Stepped (packets_at a.now.recording.now) (removes (judged a.now) (progress_of (packets_at a.now.recording.now) s) (row_of e)) result }
{
    if !is_next(a.recording, s.next, e) || !to_unit(a.table, e.kind) {
        return None;
    }
    let free = free_after(a.table, e);
    Some(Standing {
        before: Some(e),
        next: s.next + 1,
        free,
        ..s
    })
}

#[tactic(auto, unfolding(model::specs::Rules::adds))]
fn add_row(a: &Against, s: Standing, e: Entry) -> Option<Standing>
    requires { Ready s e }
    ensures { Stepped (packets_at a.now.recording.now) (adds (judged a.now) (progress_of (packets_at a.now.recording.now) s) (row_of e)) result }
{
    if !none_at(a.recording, s.next, e.time) {
        return None;
    }
    sent(a, s, e, s.next)
}

// The next row: its form, the air, which it finds free, and the rule for its mark. None if it breaks one.
#[tactic(auto, using(crate::proofs::Steps::ready_row), unfolding(model::specs::Rules::account))]
fn accounted(a: &Against, edition: Edition, s: Standing, e: Entry) -> Option<Standing>
    requires { Bounded s }
    ensures { Stepped (packets_at a.now.recording.now) (account edition (judged a.now) (progress_of (packets_at a.now.recording.now) s) (row_of e)) result }
{
    if !in_place(edition, s.before, e)
        || !none_before(a.recording, s.next, e.time)
        || u32::from(e.time) < s.free
    {
        return None;
    }
    match e.mark {
        KEPT => keep_row(a, s, e),
        REMOVED => remove_row(a, s, e),
        _ => add_row(a, s, e),
    }
}

fn begun() -> Standing
    ensures { Bounded result × ((recording : List Packet) → progress_of recording result ≡ begin recording) }
{
    Standing {
        before: None,
        next: 0,
        now: 0,
        free: 0,
        config: Config {
            state: 0,
            variables: 0,
            clocks: [0, 0],
        },
        window: 0,
    }
}

// The rows in turn, for the table's records at the offsets.
pub fn check_rows(
    rule: Rule,
    edition: Edition,
    table: &[u8],
    offsets: &[u16],
    recording: &[u8],
    witness: &[u8],
) -> Result<Permitted, Refusal>
    ensures { result ≡ checked_rows edition (ruled_from rule table.now offsets.now) (packets_at recording.now) (rows_at edition witness.now) }
{
    let against = Against {
        rule,
        table,
        offsets,
        recording,
    };
    let count = count_at(edition, witness);
    let mut s = begun();
    let mut changed = 0;
    for i in 0..count {
        let e = row_at(edition, witness, i);
        changed += u64::from(e.mark != KEPT);
        s = accounted(&against, edition, s, e).ok_or(Refusal::WitnessRow { row: u64::from(i) })?;
    }
    if s.next < word(recording, 3) {
        return Err(Refusal::WitnessRow {
            row: u64::from(count),
        });
    }
    Ok(Permitted {
        changed,
        rows: u64::from(count),
    })
}
