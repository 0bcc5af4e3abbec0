// One instruction, told by its first byte: an arm for each of 00 to 5A, so that a step is one jump.
// Stays: a match and no table of functions or `dyn`: a call through either is a second jump, into which nothing is compiled, and its contract would be one for all arms.
// Stays: what an arm is lent goes by itself, as in stack, whose struct did not prove; so `Placed` and `Begun` say what is known of it.
#![tactic(auto)]

mod bytes;
mod numbered;
mod plain;
mod upper;
mod words;

ghost use Rattle.std.specs.Prelude.{◌≡◌, ◌≤◌, length};
ghost use Rattle.effects.specs.Act.{done, act_of};

use basis::Refusal;
use effects::Move;

// What the instruction at an address does.
pub fn act(
    program: &[u8],
    address: usize,
    depth: usize,
    data: &mut [u8],
    cells: &mut [u16],
) -> Result<Move, Refusal>
    requires { (length program.now ≤ 16384) × (depth ≤ length cells.old) }
    ensures { done result «data».new cells.new ≡ act_of program.now address depth «data».old cells.old }
{
    if program.len() <= address {
        return Err(Refusal::PastEnd);
    }
    let first = program[address];
    plain::plain(first, program, address, depth, data, cells)
}
