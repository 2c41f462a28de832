// The desk's program (document 01): judges the handover on standard input and prints its lines. A wrong call gets one line on standard error.

#![tactic(auto)]

ghost use Rattle.std.specs.Prelude.{◌<◌, ◌≤◌, length, IfSome};
ghost use Rattle.desk.specs.Program.{Printed};

use inputs::read_full;
use std::env::{Env, FillError};
use std::io::{IsTerminal, Read, Write};

// Reads to the end of the input, or as far as there is room: one byte more than may be judged shows that it is too long.
// A read that fails is never taken for the end.
fn read_input<R: Read>(stdin: &mut R, input: &mut [u8]) -> Option<usize>
    requires { 8192 < length input.old }
    ensures { IfSome result (λ bytes. bytes ≤ length input.new) }
{
    read_full(stdin, input).ok()
}

// Judges with the program's own scratch and witness room.
fn answer(input: &[u8], text: &mut [u8]) -> usize
    ensures { Printed input.now text.old text.new result }
{
    let mut scratch = [0u8; 65536];
    let mut room = [0u8; 23045];
    lines::lines(input, &mut scratch, &mut room, text)
}

// Is there an argument behind the program's name? One that does not fit the buffer is one all the same.
fn has_argument<E: Env>(rt: &E) -> bool {
    let mut byte = [0u8; 1];
    !matches!(rt.arg(1, &mut byte), Err(FillError::NotPresent))
}

// A line on standard error. Where it cannot be written, nothing is left to say.
fn complain<W: Write>(stderr: &mut W, line: &[u8]) {
    let _written = stderr.write_all(line).is_ok();
}

fn main(rt: HostRuntime) {
    let mut stdin = rt.stdin();
    let mut stderr = rt.stderr();
    if has_argument(&rt) || stdin.is_terminal() {
        complain(
            &mut stderr,
            b"usage: desk < HANDOVER   (a table, a recording and a four-byte budget, at most 8,192 bytes; see README.md)\n",
        );
        return;
    }
    let mut input = [0u8; 8193];
    let Some(bytes) = read_input(&mut stdin, &mut input) else {
        complain(&mut stderr, b"desk: standard input could not be read\n");
        return;
    };
    let mut text = [0u8; 400000];
    let count = answer(&input[0..bytes], &mut text);
    if rt.stdout().write_all(&text[0..count]).is_err() {
        complain(&mut stderr, b"desk: standard output could not be written\n");
    }
}
