// Asks the verifier every case on standard input and prints every answer, one line each: the verdict and every cell of the map.
// A case is `V`; the number of stack cells (four bytes); the map lent: its length (four), how many cells are given (two), these,
// two bytes each; the program, in pieces. Numbers have their low byte first. A map that is longer than what is given of it
// repeats that.
#![tactic(auto)]

use std::io;
use vectors::said::{Memory, Refused};
use vectors::{Case, pieces, rooms};
use verifier::Rejected;

fn say_verdict(rt: &impl Print, verdict: Result<(), Rejected>) -> io::Result<()> {
    match verdict {
        Ok(()) => print!(rt; "accepted"),
        Err(Rejected::Before(why)) => print!(rt; "{} -", Refused::from(why)),
        Err(Rejected::At(why, address)) => { print!(rt; "{} {address}", Refused::from(why)) }
    }
}

// The map and the program stand in the rooms that are lent for them.
fn ask_verifier(
    rt: &impl Print,
    case: &mut Case<'_>,
    map: &mut [u16],
    program: &mut [u8],
) -> io::Result<()> {
    let cells = case.long() as usize;
    let length = case.long();
    let end = case.memory(length as usize, map);
    let map = &mut map[..end];
    let reach = pieces::lay(case, program);
    say_verdict(rt, verifier::verify(&program[..reach], cells, map))?;
    print!(rt; " {}", Memory(map, 256))
}

// The answer to a case; whether there is its kind.
fn ask(
    rt: &impl Print,
    kind: u8,
    case: &mut Case<'_>,
    map: &mut [u16],
    program: &mut [u8],
) -> io::Result<bool> {
    match kind {
        b'V' => ask_verifier(rt, case, map, program)?,
        _ => return Ok(false),
    }
    Ok(true)
}

fn main(rt: HostRuntime) -> io::Result<()> {
    let mut map = rooms::cells();
    let mut program = rooms::bytes();
    vectors::run_cases(&rt, |kind, case| {
        ask(&rt, kind, case, &mut map, &mut program)
    })
}
