// Input read whole into a lent room.
#![tactic(auto)]

ghost use Rattle.std.specs.Prelude.{◌<◌, ◌≤◌, take, length, IfOk};
ghost use Rattle.std.specs.Io.KnownBytes.{Consumes, IsAtEnd};

use std::io;
use std::io::Read;

// Reads until the room is full or the input ends; how many bytes then stand at the start of the room.
pub fn read_full<R: Read>(reader: &mut R, room: &mut [u8]) -> io::Result<usize>
    ensures within { IfOk result (λ n. n ≤ length room.new) }
    ensures consumed { IfOk result (λ n. Consumes (R.remaining reader.old) (R.remaining reader.new) (take n room.new)) }
    ensures whole { IfOk result (λ n. n < length room.new → IsAtEnd (R.remaining reader.new)) }
{
    let mut done = 0;
    // Stays: what may not change (`read_full` fills a lent room, and `consumed` says which bytes): `read_exact` fails where the input ends before, `read_to_end` takes a Vec.
    while done < room.len() {
        let n = reader.read(&mut room[done..])?;
        if n == 0 {
            break;
        }
        done += n;
    }
    Ok(done)
}
