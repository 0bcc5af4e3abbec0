// Asks the decoder, the encoder and the table of shapes every case on standard input and prints every answer, one line each.
// A case is `D`, the program's length (two bytes), an address (four) and the program; or `E`, a code, a number (two), a
// count, flags, four values (two each), the room's length (two) and the room; or `S` and a first byte. Numbers have their low byte first.
#![tactic(auto)]

use isa::Instruction;
use std::io;
use vectors::said::{Decoded, Memory, Written};
use vectors::{Case, LONGEST, rooms};

fn ask_decoder(rt: &impl Print, case: &mut Case<'_>) -> io::Result<()> {
    let n = case.number();
    let address = case.long();
    let program = case.part(usize::from(n));
    rt.print(Decoded(decoder::decode(program, address as usize)))
}

fn instruction(case: &mut Case<'_>) -> Instruction {
    Instruction {
        code: case.byte(),
        number: case.number(),
        count: case.byte(),
        flags: case.byte(),
        v0: case.number(),
        v1: case.number(),
        v2: case.number(),
        v3: case.number(),
    }
}

fn ask_encoder(rt: &impl Print, case: &mut Case<'_>, room: &mut [u8]) -> io::Result<()> {
    let i = instruction(case);
    let n = usize::from(case.number());
    let end = vectors::fill(case.part(n), n, room);
    let room = &mut room[..end];
    rt.print(Written(encoder::encode(i, room)))?;
    print!(rt; " {}", Memory(room, LONGEST))
}

fn ask_shapes(rt: &impl Print, case: &mut Case<'_>) -> io::Result<()> {
    match shapes::shape_of(case.byte()) {
        Some(row) => print!(rt; "row {} {} {}", row.length, row.taken, row.pushed),
        None => print!(rt; "illegal"),
    }
}

// The answer to a case; whether there is its kind.
fn ask(rt: &impl Print, kind: u8, case: &mut Case<'_>, room: &mut [u8]) -> io::Result<bool> {
    match kind {
        b'D' => ask_decoder(rt, case)?,
        b'E' => ask_encoder(rt, case, room)?,
        b'S' => ask_shapes(rt, case)?,
        _ => return Ok(false),
    }
    Ok(true)
}

fn main(rt: HostRuntime) -> io::Result<()> {
    let mut room = rooms::bytes();
    vectors::run_cases(&rt, |kind, case| ask(&rt, kind, case, &mut room))
}
