// The verifier: walks the paths of a program and writes the depth of each address that they meet, or says what is wrong with it.
#![tactic(auto)]

ghost use Rattle.std.specs.Prelude.{◌≡◌, ◌<◌, ◌≤◌, length, replicate};
ghost use Rattle.verifier.specs.Verify.{walk_of, on_walk, verify_of, judged_in};

use basis::Refusal;
use pending::Pending;
use shapes::Shapes;

// Why a program is rejected: before the walk, or at the instruction that the walk examined.
#[derive(Clone, Copy, PartialEq, Eq, Debug)]
pub enum Rejected<E = Refusal> {
    Before(E),
    At(E, usize),
}

// The walk, over a wiped map: the lowest address met and not yet examined is examined, until none is left.
fn walk(program: &[u8], cells: usize, map: &mut [u16], shapes: Shapes) -> Result<(), Rejected>
    requires cells_bound { (cells ≤ 1024) × (length program.now ≤ 16384) × (0 < length program.now) }
    requires map_value { map.old ≡ replicate (length program.now) 65535 }
    ensures { (judged_in result, map.new) ≡ on_walk (length program.now) (walk_of program.now cells) }
{
    map[0] = 0;
    let mut pending = Pending::new();
    let mut due = Some(0);
    while let Some(at) = due {
        match meeting::examine(program, cells, map, &mut pending, at, shapes) {
            Ok(beside) => due = pending.take(beside),
            Err(why) => {
                map.fill(65535);
                return Err(Rejected::At(why, at));
            }
        }
    }
    Ok(())
}

// Whether a program may run with so many cells, and the depth map.
#[tactic(auto, unfolding(crate::specs::Verify::verify_of))]
pub fn verify(program: &[u8], cells: usize, map: &mut [u16]) -> Result<(), Rejected>
    ensures { (judged_in result, map.new) ≡ verify_of program.now cells map.old }
{
    if program.len() > 16384 {
        return Err(Rejected::Before(Refusal::LongProgram));
    }
    if cells > 1024 {
        return Err(Rejected::Before(Refusal::LongCells));
    }
    if map.len() != program.len() {
        return Err(Rejected::Before(Refusal::MapLength));
    }
    map.fill(65535);
    if program.is_empty() {
        return Err(Rejected::At(Refusal::PastEnd, 0));
    }
    let rows = shapes::rows();
    walk(program, cells, map, Shapes { rows: &rows })
}
