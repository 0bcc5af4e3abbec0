// Asks the listing and the reader every case on standard input and prints every answer, one line each.
// A case is `L`, a program, and a room: its length (four bytes), how many bytes are given (two), these; it is answered with every
// byte of the room. Or it is `N`, how often a reader is asked (two bytes), and a program; it is answered with each answer and
// the address after them. A program is given in pieces. Numbers have their low byte first. A room that is longer than what is
// given of it repeats that.
#![tactic(auto)]

use std::io;
use vectors::said::{Decoded, Memory, Written};
use vectors::{Case, pieces, rooms};

// The program and the room stand in the rooms that are lent for them.
fn ask_listing(
    rt: &impl Print,
    case: &mut Case<'_>,
    program: &mut [u8],
    room: &mut [u8],
) -> io::Result<()> {
    let reach = pieces::lay(case, program);
    let size = case.long();
    let end = case.memory(size as usize, room);
    let room = &mut room[..end];
    rt.print(Written(listing::list(&program[..reach], room)))?;
    print!(rt; " {}", Memory(room, 256))
}

// What stands at an address, and the next; at the start it is the first that a new reader gives.
fn ask_reader(rt: &impl Print, program: &[u8], at: usize) -> io::Result<usize> {
    let turn = reader::asked(program, at);
    let answer = if at == 0 {
        reader::first(program)
    } else {
        turn.answer
    };
    rt.print(Decoded(answer))?;
    Ok(turn.at)
}

// A reader asked so often, and where it then stands.
fn ask_often(rt: &impl Print, case: &mut Case<'_>, room: &mut [u8]) -> io::Result<()> {
    let often = case.number();
    let reach = pieces::lay(case, room);
    let program = &room[..reach];
    let mut at = 0;
    for time in 0..often {
        if time > 0 {
            print!(rt; " ; ")?;
        }
        at = ask_reader(rt, program, at)?;
    }
    print!(rt; " @ {at}")
}

// The answer to a case; whether there is its kind.
fn ask(
    rt: &impl Print,
    kind: u8,
    case: &mut Case<'_>,
    program: &mut [u8],
    room: &mut [u8],
) -> io::Result<bool> {
    match kind {
        b'L' => ask_listing(rt, case, program, room)?,
        b'N' => ask_often(rt, case, program)?,
        _ => return Ok(false),
    }
    Ok(true)
}

fn main(rt: HostRuntime) -> io::Result<()> {
    let mut program = rooms::bytes();
    let mut room = rooms::sheet();
    vectors::run_cases(&rt, |kind, case| {
        ask(&rt, kind, case, &mut program, &mut room)
    })
}
