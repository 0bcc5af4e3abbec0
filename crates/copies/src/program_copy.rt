// The copy from the program to the data.
ghost use Rattle.std.specs.Prelude.{◌≡◌, ◌+◌, ◌≤◌, length};
ghost use Rattle.isa.specs.Op.{ProgramCopy};
ghost use Rattle.effects.specs.Memory.{copied};
ghost use Rattle.effects.specs.Act.{done, do_of};

use crate::inside;
use basis::Refusal;
use effects::Move;
use memory::{push, sum};

// Copies `count` bytes of the program.
fn copy_bytes(to: u16, from: u16, count: u16, program: &[u8], data: &mut [u8])
    requires { (to + count ≤ length «data».old) × (from + count ≤ length program.now) }
    ensures { «data».new ≡ copied program.now count to from «data».old }
{
    let (to, from) = (to as usize, from as usize);
    // Stays: a loop, by the C interface: it becomes memcpy, and `copy_from_slice` memmove, which the library may not need (tools/archive).
    for k in 0..count as usize {
        data[to + k] = program[from + k];
    }
}

// c bytes from program b to data a; pushes a + c.
pub fn copy_program(
    next: usize,
    depth: usize,
    program: &[u8],
    data: &mut [u8],
    cells: &mut [u16],
) -> Result<Move, Refusal>
    requires { depth ≤ length cells.old }
    ensures { done result «data».new cells.new ≡ do_of program.now next ProgramCopy depth «data».old cells.old }
{
    if depth < 3 {
        return Err(Refusal::TooFew);
    }
    let i = cells.len() - depth;
    let j = i + 1;
    let k = i + 2;
    let a = cells[i];
    let b = cells[j];
    let c = cells[k];
    if !inside(a, c, data.len()) {
        return Err(Refusal::DataRange);
    }
    if !inside(b, c, program.len()) {
        return Err(Refusal::ProgramRange);
    }
    copy_bytes(a, b, c, program, data);
    Ok(push((sum(a, c) % 65536) as u16, next, depth - 3, cells))
}
