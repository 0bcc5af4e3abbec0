// Asks the reader and the writer of packs every case on standard input and prints every answer, one line each.
// A case is `P` and a pack, answered with its entries; `F`, a tag (two bytes) and a pack, answered with the entry and every byte of
// the program found; `L` and the same, looked up; or `W`, three lists (tags, cells, lengths: each its count and its numbers, two bytes each), the bodies, and
// a room: its length (four bytes), how many bytes are given (two), these; it is answered with every byte of the room. A pack and
// bodies are given in pieces. Numbers have their low byte first. A room that is longer than what is given of it repeats that.
#![tactic(auto)]

use basis::Refusal;
use pack::Entry;
use std::io;
use vectors::said::{Memory, Refused, Written};
use vectors::{Case, pieces, rooms};

fn say_entries(rt: &impl Print, pack: &[u8], n: usize) -> io::Result<()> {
    print!(rt; "ok {n}")?;
    for i in 0..n {
        match pack::entry_at(pack, i) {
            Ok(Some(e)) => print!(rt; " {} {} {} {}", e.tag, e.cells, e.offset, e.length)?,
            Ok(None) => print!(rt; " past")?,
            Err(why) => rt.print(Refused::from(why))?,
        }
    }
    Ok(())
}

fn ask_check(rt: &impl Print, case: &mut Case<'_>, room: &mut [u8]) -> io::Result<()> {
    let reach = pieces::lay(case, room);
    let pack = &room[..reach];
    match pack::check(pack) {
        Ok(n) => say_entries(rt, pack, n),
        Err(why) => rt.print(Refused::from(why)),
    }
}

// The entry that a tag finds, and its program.
fn ask_program<F>(rt: &impl Print, case: &mut Case<'_>, room: &mut [u8], find: F) -> io::Result<()>
where
    F: FnOnce(&[u8], u16) -> Result<Entry, Refusal>,
    requires { F.IsAlwaysCallable find }
{
    let tag = case.number();
    let reach = pieces::lay(case, room);
    let pack = &room[..reach];
    match find(pack, tag) {
        Ok(e) => {
            print!(rt; "found {} {} {}", e.cells, e.offset, e.length)?;
            print!(rt; " {}", Memory(pack::body(pack, e), 256))
        }
        Err(why) => rt.print(Refused::from(why)),
    }
}

// The next list of a case, whose numbers stand behind a place of all numbers.
fn list<'a>(case: &mut Case<'_>, numbers: &'a [u16], from: usize) -> &'a [u16] {
    let count = usize::from(case.number());
    case.part(2 * count);
    vectors::part(numbers, from, count)
}

// The bodies, the numbers of the lists and the room stand in the rooms that are lent for them.
fn ask_writer(
    rt: &impl Print,
    case: &mut Case<'_>,
    bodies: &mut [u8],
    numbers: &mut [u16],
    room: &mut [u8],
) -> io::Result<()> {
    let end = vectors::fill(case.rest(), 903, numbers);
    let numbers = &numbers[..end];
    let tags = list(case, numbers, 1);
    let cells = list(case, numbers, 2 + tags.len());
    let lengths = list(case, numbers, 3 + tags.len() + cells.len());
    let reach = pieces::lay(case, bodies);
    let size = case.long();
    let end = case.memory(size as usize, room);
    let room = &mut room[..end];
    let written = packer::write(tags, cells, lengths, &bodies[..reach], room);
    rt.print(Written(written))?;
    print!(rt; " {}", Memory(room, 256))
}

// The answer to a case; whether there is its kind.
fn ask(
    rt: &impl Print,
    kind: u8,
    case: &mut Case<'_>,
    pack: &mut [u8],
    numbers: &mut [u16],
    room: &mut [u8],
) -> io::Result<bool> {
    match kind {
        b'P' => ask_check(rt, case, pack)?,
        b'F' => ask_program(rt, case, pack, pack::find)?,
        b'L' => ask_program(rt, case, pack, pack::lookup)?,
        b'W' => ask_writer(rt, case, pack, numbers, room)?,
        _ => return Ok(false),
    }
    Ok(true)
}

fn main(rt: HostRuntime) -> io::Result<()> {
    let mut pack = rooms::bytes();
    let mut numbers = rooms::cells();
    let mut room = rooms::bytes();
    vectors::run_cases(&rt, |kind, case| {
        ask(&rt, kind, case, &mut pack, &mut numbers, &mut room)
    })
}
