// Reads a rule pack on standard input and prints what the verifier says of each program, or what refuses the pack.
#![tactic(auto)]

use std::io;

// One byte more than the longest pack is read, so that a longer one is noticed. The room has place for the longest report.
// Stays: fixed rooms are as plain as Vecs of the same lengths here, and nothing can be short of memory.
fn main(rt: HostRuntime) -> io::Result<()> {
    let mut pack = [0u8; 24577];
    let n = input::read_full(&mut rt.reader(), &mut pack)?;
    let mut map = [65535u16; 16384];
    let mut room = [0u8; 1536];
    match report::write(&pack[..n], &mut map, &mut room) {
        Ok(length) => rt.write_all(&room[..length]),
        Err(_) => Ok(()),
    }
}
