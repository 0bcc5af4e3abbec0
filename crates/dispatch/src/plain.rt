// The first bytes 00 to 24: no number in the code. Written by tools/dispatch.
ghost use Rattle.std.specs.Prelude.{◌≡◌};
ghost use Rattle.effects.specs.Act.{done};
ghost use Rattle.dispatch.specs.First.{first_of, Begun};

use crate::bytes::bytes;
use alu::{Pair, Single};
use basis::Refusal;
use effects::Move;

#[tactic(auto, unfolding(crate::specs::First::first_of, forms::specs::Form::form_of, forms::specs::Form::code_of, isa::specs::Op::op_in))]
pub fn plain(
    first: u8,
    program: &[u8],
    address: usize,
    depth: usize,
    data: &mut [u8],
    cells: &mut [u16],
) -> Result<Move, Refusal>
    requires { Begun program.now address depth cells.old first 0 }
    ensures { done result «data».new cells.new ≡ first_of program.now address depth «data».old cells.old first }
{
    match first {
        0x00 => Ok(flow::halt(depth)),
        0x01 => stack::discard(address + 1, depth),
        0x02 => copies::copy_data(address + 1, depth, data, cells),
        0x03 => copies::copy_program(address + 1, depth, program, data, cells),
        0x04 => stack::swap(address + 1, depth, cells),
        0x05 => calls::call_taken(address + 1, depth, cells),
        0x06 => flow::jump_taken(depth, cells),
        0x07 => flow::branch_taken(true, address + 1, depth, cells),
        0x08 => flow::branch_taken(false, address + 1, depth, cells),
        0x09 => calls::system_taken(depth, cells),
        0x0A => calls::extension_taken(depth),
        0x0B => stack::two(Pair::Eq, address + 1, depth, cells),
        0x0C => stack::two(Pair::Ne, address + 1, depth, cells),
        0x0D => stack::two(Pair::Le, address + 1, depth, cells),
        0x0E => stack::two(Pair::Gt, address + 1, depth, cells),
        0x0F => stack::two(Pair::Lt, address + 1, depth, cells),
        0x10 => stack::two(Pair::Ge, address + 1, depth, cells),
        0x11 => stack::two(Pair::And, address + 1, depth, cells),
        0x12 => stack::two(Pair::Or, address + 1, depth, cells),
        0x13 => stack::two(Pair::Xor, address + 1, depth, cells),
        0x14 => stack::two(Pair::Add, address + 1, depth, cells),
        0x15 => stack::two(Pair::Sub, address + 1, depth, cells),
        0x16 => stack::two(Pair::Mul, address + 1, depth, cells),
        0x17 => stack::two(Pair::Shl, address + 1, depth, cells),
        0x18 => stack::two(Pair::Shr, address + 1, depth, cells),
        0x19 => stack::one(Single::Inc, address + 1, depth, cells),
        0x1A => stack::one(Single::Dec, address + 1, depth, cells),
        0x1B => stack::one(Single::Not, address + 1, depth, cells),
        0x1C => stack::one(Single::Neg, address + 1, depth, cells),
        0x1D => loads::load_offset(1, 0, address + 1, depth, data, cells),
        0x1E => loads::load_offset(2, 0, address + 1, depth, data, cells),
        0x1F => loads::load_sum(1, address + 1, depth, data, cells),
        0x20 => loads::load_sum(2, address + 1, depth, data, cells),
        0x21 => stores::store_offset(1, 0, address + 1, depth, data, cells),
        0x22 => stores::store_offset(2, 0, address + 1, depth, data, cells),
        0x23 => stores::store_sum(1, address + 1, depth, data, cells),
        0x24 => stores::store_sum(2, address + 1, depth, data, cells),
        _ => bytes(first, program, address, depth, data, cells),
    }
}
