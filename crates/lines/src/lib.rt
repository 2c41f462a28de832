// The program's work on slices: its input is split and judged, and the lines of the verdict are written into a lent text.

#![tactic(auto)]

ghost use Rattle.std.specs.Prelude.{◌≡◌, ◌≤◌, length};
ghost use Rattle.model.specs.Desk.{budget_in, table_length};
ghost use Rattle.lines.specs.Written.{FilesJudged, Lines};

use model::Edition;
use text::{refused_line, verdict_lines};

// The table is what its length states, or all if that runs past the end or no two length bytes are there.
fn table_length(files: &[u8]) -> usize
    ensures { (result ≡ table_length files.now) × (result ≤ length files.now) }
{
    let all = files.len();
    if all < 2 {
        return all;
    }
    let stated = wire::word(files, 0) as usize + 2;
    if stated <= all { stated } else { all }
}

fn budget(input: &[u8]) -> u32
    requires { 4 ≤ length input.now }
    ensures { result ≡ budget_in input.now }
{
    wire::long(input, input.len() - 4)
}

fn judge(files: &[u8], budget: u32, scratch: &mut [u8], room: &mut [u8], text: &mut [u8]) -> usize
    ensures { FilesJudged files.now budget scratch.old room.old text.old scratch.new room.new text.new result }
{
    let split = table_length(files);
    let verdict = engine::validate(
        Edition::One,
        &files[0..split],
        &files[split..],
        budget,
        scratch,
        room,
    );
    verdict_lines(verdict, room, text)
}

// Returns how many bytes the lines are, whether or not the text had room for all of them.
pub fn lines(input: &[u8], scratch: &mut [u8], room: &mut [u8], text: &mut [u8]) -> usize
    ensures { Lines input.now scratch.old room.old text.old scratch.new room.new text.new result }
{
    if input.len() < 4 {
        return refused_line(5, 0, text);
    }
    if 8192 < input.len() {
        return refused_line(6, 0, text);
    }
    let end = input.len() - 4;
    judge(&input[0..end], budget(input), scratch, room, text)
}
