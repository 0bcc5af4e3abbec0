// The first bytes 25 to 40: a number of one byte. Written by tools/dispatch.
ghost use Rattle.std.specs.Prelude.{◌≡◌};
ghost use Rattle.effects.specs.Act.{done};
ghost use Rattle.dispatch.specs.First.{first_of, Begun};

use crate::numbered::{
    branch_to, call_to, extension_of, jump_to, load_number, load_offset, shift, store_number,
    store_offset, system_of, two_number,
};
use crate::words::words;
use alu::Pair;
use basis::Refusal;
use effects::Move;

#[tactic(auto, unfolding(crate::specs::First::first_of, forms::specs::Form::form_of, forms::specs::Form::code_of, isa::specs::Op::op_in))]
pub fn bytes(
    first: u8,
    program: &[u8],
    address: usize,
    depth: usize,
    data: &mut [u8],
    cells: &mut [u16],
) -> Result<Move, Refusal>
    requires { Begun program.now address depth cells.old first 37 }
    ensures { done result «data».new cells.new ≡ first_of program.now address depth «data».old cells.old first }
{
    match first {
        0x25 => two_number::<1>(Pair::Eq, program, address, depth, cells),
        0x26 => two_number::<1>(Pair::Ne, program, address, depth, cells),
        0x27 => two_number::<1>(Pair::Le, program, address, depth, cells),
        0x28 => two_number::<1>(Pair::Gt, program, address, depth, cells),
        0x29 => two_number::<1>(Pair::Lt, program, address, depth, cells),
        0x2A => two_number::<1>(Pair::Ge, program, address, depth, cells),
        0x2B => two_number::<1>(Pair::And, program, address, depth, cells),
        0x2C => two_number::<1>(Pair::Or, program, address, depth, cells),
        0x2D => two_number::<1>(Pair::Xor, program, address, depth, cells),
        0x2E => two_number::<1>(Pair::Add, program, address, depth, cells),
        0x2F => two_number::<1>(Pair::Sub, program, address, depth, cells),
        0x30 => two_number::<1>(Pair::Mul, program, address, depth, cells),
        0x31 => shift(Pair::Shl, program, address, depth, cells),
        0x32 => shift(Pair::Shr, program, address, depth, cells),
        0x33 => load_number::<1>(1, program, address, depth, data, cells),
        0x34 => load_number::<1>(2, program, address, depth, data, cells),
        0x35 => load_offset::<1>(1, program, address, depth, data, cells),
        0x36 => load_offset::<1>(2, program, address, depth, data, cells),
        0x37 => store_number::<1>(1, program, address, depth, data, cells),
        0x38 => store_number::<1>(2, program, address, depth, data, cells),
        0x39 => store_offset::<1>(1, program, address, depth, data, cells),
        0x3A => store_offset::<1>(2, program, address, depth, data, cells),
        0x3B => call_to::<1>(program, address, depth, cells),
        0x3C => jump_to::<1>(program, address, depth, cells),
        0x3D => branch_to::<1>(true, program, address, depth, cells),
        0x3E => branch_to::<1>(false, program, address, depth, cells),
        0x3F => system_of::<1>(program, address, depth, cells),
        0x40 => extension_of::<1>(program, address, depth, cells),
        _ => words(first, program, address, depth, data, cells),
    }
}
