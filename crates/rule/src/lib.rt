// A measured loss rate (R-7): the numbers 25 and 26, and which of the last kept or added rows were guesses, as a mask. Each function takes any numbers.

#![tactic(auto)]

ghost use Rattle.std.specs.Prelude.{◌≡◌, ◌+◌, ◌-◌, ◌*◌, ◌≤◌, ◌<◌, leb};
ghost use Rattle.model.specs.First as First;
ghost use Rattle.model.specs.Limits.{size_limit};
ghost use Rattle.model.specs.Monitor.{Monitor};
ghost use Rattle.model.specs.Rule as Rules;
ghost use Rattle.model.specs.Ruled.{rule_answer};
ghost use Rattle.model.specs.Size.{table_size};
ghost use Rattle.rule.specs.Within.{within, in_range};

use model::{DEVICE_LIMIT, Refusal, Rule, SIZE_LIMIT, WINDOW_LIMIT};

pub fn rule_of(device: u8, window: u8, most: u8) -> Rule
    ensures { result ≡ Rules.rule_of device window most }
{
    Rule {
        device,
        window,
        most,
    }
}

// The rule that forbids nothing.
pub fn no_rule() -> Rule
    ensures { result ≡ Rules.no_rule }
{
    Rule {
        device: 0,
        window: 1,
        most: 1,
    }
}

// So many masks there are: 2 to the number of rows that a window has before its last.
#[tactic(auto, using(crate::proofs::Windows::rows))]
pub fn masks(rule: Rule) -> u8
    ensures { (result ≡ Rules.masks (within rule)) × (result ≤ 128) × (0 < result) }
{
    match rule.window {
        2..=WINDOW_LIMIT => 1 << (rule.window - 1),
        _ => 1,
    }
}

// The mask whose rows are all guesses: it cuts off the rows that are no longer in the window.
fn all_guesses(rule: Rule) -> u8
    ensures { result ≡ Rules.masks (within rule) - 1 }
{
    masks(rule) - 1
}

// One row more, before any is cut off.
fn with_row(window: u8, guess: bool) -> u16
    ensures { result ≡ Rules.as_bit guess + 2 * window }
{
    u16::from(guess) + 2 * u16::from(window)
}

// The mask once one more row is kept or added.
#[tactic(auto, using(crate::proofs::Windows::windows))]
pub fn window_behind(rule: Rule, window: u8, guess: bool) -> u8
    ensures { result ≡ Rules.window_behind (within rule) window guess }
{
    (with_row(window, guess) & u16::from(all_guesses(rule))) as u8
}

// May a row come behind those of a mask? Where a window is one row, as under no rule, nothing is counted.
#[tactic(auto, using(crate::proofs::Windows::windows))]
pub fn allows(rule: Rule, window: u8, guess: bool) -> bool
    ensures { result ≡ Rules.allows (within rule) window guess }
{
    if rule.window <= 1 {
        return u8::from(guess) <= rule.most;
    }
    let before = u8::count_ones(window & all_guesses(rule));
    u32::from(guess) + before <= u32::from(rule.most)
}

// Does 25 let the rule through?
#[tactic(auto, unfolding(crate::specs::Within::in_range))]
fn in_range(rule: Rule) -> bool
    ensures { result ≡ in_range rule }
{
    rule.device <= DEVICE_LIMIT
        && 1 <= rule.window
        && rule.window <= WINDOW_LIMIT
        && rule.most <= rule.window
}

// Does 26? N times the masks may not fit a u64, so it is not worked out.
fn in_limit(rule: Rule, size: u64) -> bool
    ensures { result ≡ leb (size * Rules.masks (within rule)) size_limit }
{
    size <= SIZE_LIMIT / u64::from(masks(rule))
}

// The refusal where the test fails.
fn unless(passed: bool, refusal: Refusal) -> Result<(), Refusal>
    ensures { result ≡ First.unless passed refusal }
{
    if passed { Ok(()) } else { Err(refusal) }
}

// 25, then 26. Size is the table's own N.
#[tactic(auto, using(crate::proofs::Answers::refused, crate::proofs::Answers::sized))]
pub fn rule_answer(rule: Rule, size: u64) -> Result<(), Refusal>
    ensures { (m : Monitor) → m.rule ≡ rule → table_size m ≡ size → result ≡ rule_answer m }
{
    unless(in_range(rule), Refusal::RuleRange)?;
    unless(in_limit(rule, size), Refusal::RuleSize)
}
