// The first bytes 5B to FF: illegal, a push of six bits, a push of values.
ghost use Rattle.std.specs.Prelude.{◌≡◌};
ghost use Rattle.effects.specs.Act.{done};
ghost use Rattle.dispatch.specs.First.{first_of, Begun};

use basis::Refusal;
use effects::Move;

#[tactic(auto, unfolding(crate::specs::First::first_of, forms::specs::Form::form_of, forms::specs::Form::code_of, isa::specs::Op::op_in))]
pub fn upper(
    first: u8,
    program: &[u8],
    address: usize,
    depth: usize,
    data: &mut [u8],
    cells: &mut [u16],
) -> Result<Move, Refusal>
    requires { Begun program.now address depth cells.old first 91 }
    ensures { done result «data».new cells.new ≡ first_of program.now address depth «data».old cells.old first }
{
    if first < 0x80 {
        return Err(Refusal::Illegal);
    }
    if first < 0xC0 {
        return stack::push((first % 64) as u16, address + 1, depth, cells);
    }
    values::push_by_first(first, program, address, depth, cells)
}
