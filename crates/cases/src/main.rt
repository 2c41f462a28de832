// Runs a batch of recorded calls from standard input through the library, and prints each answer on a line of its own.
// A case is a head of 28 bytes and its files: the call (0 validate, 1 check, 2 to 4 rewrite a table, a recording, a witness, 5 the desk, 6 to 8
// write the parts of one of the three, 9 to 11 read them back too; in edition 2 of the witness 12 validate, 13 check, 14 rewrite it, 15 write its
// parts, 16 read them back too; under a rule 17 validate and 18 check, in edition 2 19 and 20), the rule's device, window and most, then six
// four-byte numbers: the budget and the lengths of scratch, room and three files. An answer is its three numbers, the two counts of a rejection, and a sum over every number of the parts that were read back, and
// every byte of scratch and room, so that none changes unseen. A case of the desk prints the desk's lines.

#![tactic(auto)]

mod calls;

ghost use Rattle.std.specs.Prelude.{◌≤◌, length};

use crate::calls::{Call, Files, Function, NoSuchCall, Outcome, perform};
use batch::sums::sum;
use batch::{Head, head_of, pattern};
use inputs::read_full;
use std::fmt::InlineText;
use std::io::{Read, Write};

// The longest line: six numbers of at most 20 digits, five spaces and the end.
const LINE: usize = 126;

// Made apart: standard output has no buffer, and a line goes out in one write.
fn print<W: Write>(out: &mut W, outcome: Outcome, sum: u64) -> bool {
    let told = outcome.told;
    let line = InlineText::<LINE>::of(format_args!(
        "{} {} {} {} {} {sum}\n",
        told.number, told.second, told.third, told.not_yet, told.no_more
    ));
    out.write_all(line.as_str().as_bytes()).is_ok()
}

// Ends the run with a line that no batch expects.
fn stop<W: Write>(out: &mut W, line: &[u8]) -> bool {
    let _written = out.write_all(line).is_ok();
    false
}

// A read that fails ends it as the end of the input does.
fn fill<R: Read>(input: &mut R, room: &mut [u8]) -> usize
    ensures { result ≤ length room.new }
{
    match read_full(input, room) {
        Ok(got) => got,
        Err(got) => got,
    }
}

fn desk<W: Write>(out: &mut W, input: &[u8]) -> bool {
    let mut scratch = [0u8; 65536];
    let mut room = [0u8; 23045];
    let mut text = [0u8; 400000];
    let count = lines::lines(input, &mut scratch, &mut room, &mut text);
    out.write_all(&text[0..count]).is_ok()
}

fn answer<W: Write>(
    out: &mut W,
    function: Function,
    head: Head,
    files: &Files<'_>,
    scratch: &mut [u8],
    room: &mut [u8],
) -> bool {
    pattern(scratch);
    pattern(room);
    let outcome = perform(function, head.rule, head.budget, files, scratch, room);
    let total = sum(outcome.sum, scratch);
    print(out, outcome, sum(total, room))
}

fn run<W: Write>(
    out: &mut W,
    head: Head,
    files: &Files<'_>,
    scratch: &mut [u8],
    room: &mut [u8],
) -> bool {
    match Call::try_from(head.call) {
        Ok(Call::Desk) => desk(out, files.first),
        Ok(Call::Library(function)) => answer(out, function, head, files, scratch, room),
        Err(NoSuchCall) => stop(out, b"cases: there is no such call\n"),
    }
}

// The limits of the lengths are what is lent. The first file ends where the second begins, and that one where the third does.
fn read_files<R: Read, W: Write>(
    input: &mut R,
    out: &mut W,
    head: Head,
    files: &mut [u8],
    scratch: &mut [u8],
    room: &mut [u8],
) -> bool {
    let second = head.first as usize;
    let third = second + head.second as usize;
    let end = third + head.third as usize;
    let scratch_length = head.scratch as usize;
    let room_length = head.room as usize;
    if files.len() < end || scratch.len() < scratch_length || room.len() < room_length {
        return stop(out, b"cases: a length is above its limit\n");
    }
    if fill(input, &mut files[0..end]) < end {
        return stop(out, b"cases: a file is cut\n");
    }
    let read = &files[0..end];
    let files = Files {
        first: &read[0..second],
        second: &read[second..third],
        third: &read[third..],
    };
    run(
        out,
        head,
        &files,
        &mut scratch[0..scratch_length],
        &mut room[0..room_length],
    )
}

// Runs the next case, and answers whether to go on.
fn one_case<R: Read, W: Write>(
    input: &mut R,
    out: &mut W,
    files: &mut [u8],
    scratch: &mut [u8],
    room: &mut [u8],
) -> bool {
    let mut bytes = [0u8; 28];
    match fill(input, &mut bytes) {
        0 => false,
        28 => read_files(input, out, head_of(&bytes), files, scratch, room),
        _ => stop(out, b"cases: a head is cut\n"),
    }
}

// A proved loop has to end, and nothing says that the input does: its turns are as many as no run uses up.
fn all_cases<R: Read, W: Write>(
    input: &mut R,
    out: &mut W,
    files: &mut [u8],
    scratch: &mut [u8],
    room: &mut [u8],
) {
    for _turn in 0..u64::MAX {
        if !one_case(input, out, files, scratch, room) {
            return;
        }
    }
}

fn main(rt: HostRuntime) {
    let mut input = rt.stdin();
    let mut out = rt.stdout();
    let mut files = [0u8; 400000];
    let mut scratch = [0u8; 400000];
    let mut room = [0u8; 331000];
    all_cases(&mut input, &mut out, &mut files, &mut scratch, &mut room);
}
