// The listing of a program, one line for each instruction, written into a lent room.
#![tactic(auto)]

ghost use Rattle.std.specs.Prelude.{◌≡◌, ◌≤◌, length};
ghost use Rattle.std.proofs.lemmas.List.Edits.{sets};
ghost use Rattle.basis.specs.Refusal.{answer_of};
ghost use Rattle.basis.specs.Answer.{seen};
ghost use Rattle.basis.specs.Room.{room_after};
ghost use Rattle.listing.specs.Listing.{list_of};
ghost use Rattle.listing.specs.Walk.{left};

mod walk;

use basis::Refusal;
use lines::{line_length, put_line};
use names::Names;
use shapes::Shapes;
use text::Pen;
use walk::Walk;

// The length of the lines of a walk.
fn lines_length(names: Names, walk: Walk) -> usize
    ensures { result ≡ length (left walk.entry) }
{
    let mut n = 0;
    for place in walk {
        n += line_length(names, &place.answer);
    }
    n
}

// Puts the lines of a walk at the start of a room that has place for them.
fn put_lines(names: Names, walk: Walk, room: &mut [u8])
    requires { length (left walk) ≤ length room.old }
    ensures { room.new ≡ sets room.old 0 (left walk.entry) }
{
    let mut pen = Pen { room, at: 0 };
    for place in walk {
        put_line(names, place.address, &place.answer, place.byte, &mut pen);
    }
}

// Writes the listing of a program at the start of a room, or refuses and leaves the room as it was.
#[tactic(auto, using(basis::proofs::Stores::starts), unfolding(crate::specs::Listing::list_of))]
pub fn list(program: &[u8], room: &mut [u8]) -> Result<usize, Refusal>
    ensures result_value { answer_of result ≡ seen length (list_of program.now (length room.old)) }
    ensures room_after { room.new ≡ room_after (list_of program.now (length room.old)) room.old }
{
    if 16384 < program.len() {
        return Err(Refusal::LongProgram);
    }
    let rows = shapes::rows();
    let shapes = Shapes { rows: &rows };
    let rows = names::rows();
    let names = Names { rows: &rows };
    let walk = Walk {
        shapes,
        program,
        at: 0,
    };
    let n = lines_length(names, walk);
    if room.len() < n {
        return Err(Refusal::ShortRoom);
    }
    put_lines(names, walk, room);
    Ok(n)
}
