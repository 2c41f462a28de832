// Reading from an input whose reads may be short.

#![tactic(auto)]

ghost use Rattle.std.specs.Prelude.{◌≡◌, ◌≤◌, length, MatchResult};

use std::io::Read;

// Reads as many bytes as there is room for, or as there are, and answers how many; Err with how many where a read failed, which is not the end.
pub fn read_full<R: Read>(input: &mut R, room: &mut [u8]) -> Result<usize, usize>
    ensures within { MatchResult result (λ bytes. bytes ≤ length room.new) (λ bytes. bytes ≤ length room.new) }
    ensures room { length room.new ≡ length room.old }
{
    let mut got = 0;
    // each read takes as many bytes as it likes: no `for` knows where the next one begins
    while got < room.len() {
        let more = input.read(&mut room[got..]).map_err(|_| got)?;
        if more == 0 {
            return Ok(got);
        }
        got += more;
    }
    Ok(got)
}
