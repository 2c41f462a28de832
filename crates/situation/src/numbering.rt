// A situation's number: its parts as digits, the first the lowest.
ghost use Rattle.std.specs.Prelude.{◌≡◌, [], ◌∷◌, ◌+◌, ◌*◌, ◌≤◌, ◌<◌};
ghost use Rattle.situation.specs.Numbering.{masks_of, shape_of, digit_by, rest_by, number_by, situation_by};

use crate::Shape;
use model::{Rule, Situation, TableParts, VARIABLE_LIMIT};
use rule::masks;
use sizes::clock_values;

#[tactic(auto, unfolding(crate::specs::Numbering::masks_of))]
fn masks_of(variables: u8) -> u8
    ensures { result ≡ masks_of variables }
{
    if variables <= VARIABLE_LIMIT {
        1 << variables
    } else {
        0
    }
}

#[tactic(auto, unfolding(crate::specs::Numbering::shape_of))]
pub fn shape_of(t: TableParts, rule: Rule) -> Shape
    ensures { (result ≡ shape_of t rule) × (result.first ≤ 257) × (result.second ≤ 257) }
{
    Shape {
        states: t.states,
        masks: masks_of(t.variables),
        first: clock_values(t, 0) as u16,
        second: clock_values(t, 1) as u16,
        windows: masks(rule),
        rule,
    }
}

// A digit below what stands above it.
fn over(digit: u16, radix: u16, above: u64) -> u64
    requires { above < 281474976710656 }
    ensures { result ≡ digit + radix * above }
{
    u64::from(digit) + u64::from(radix) * above
}

#[tactic(auto, unfolding(crate::specs::Numbering::number_by))]
pub fn number(h: Shape, s: Situation) -> u64
    ensures { result ≡ number_by h s }
{
    let [first, second] = s.clocks;
    let window = over(u16::from(s.window), u16::from(h.windows), u64::from(s.air));
    let state = over(u16::from(s.state), u16::from(h.states), window);
    let variables = over(u16::from(s.variables), u16::from(h.masks), state);
    over(first, h.first, over(second, h.second, variables))
}

// The lowest digit, and the number above it; both 0 where the radix is 0.
#[tactic(auto, unfolding(crate::specs::Numbering::digit_by, crate::specs::Numbering::rest_by))]
fn split(radix: u16, n: u64) -> (u16, u64)
    ensures { (result.0 ≡ digit_by radix n) × (result.1 ≡ rest_by radix n) × (result.0 ≤ radix) }
{
    if radix == 0 {
        return (0, 0);
    }
    let radix = u64::from(radix);
    ((n % radix) as u16, n / radix)
}

#[tactic(auto, unfolding(crate::specs::Numbering::situation_by))]
pub fn situation_of(h: Shape, n: u64) -> Situation
    ensures { result ≡ situation_by h n }
{
    let (first, n) = split(h.first, n);
    let (second, n) = split(h.second, n);
    let (variables, n) = split(u16::from(h.masks), n);
    let (state, n) = split(u16::from(h.states), n);
    let (window, air) = split(u16::from(h.windows), n);
    Situation {
        state: state as u8,
        variables: variables as u8,
        clocks: [first, second],
        air: (air % 256) as u8,
        window: window as u8,
    }
}
