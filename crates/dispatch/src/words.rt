// The first bytes 41 to 5A: a number of two bytes. Written by tools/dispatch.
ghost use Rattle.std.specs.Prelude.{◌≡◌};
ghost use Rattle.effects.specs.Act.{done};
ghost use Rattle.dispatch.specs.First.{first_of, Begun};

use crate::numbered::{
    branch_to, call_to, extension_of, jump_to, load_number, load_offset, store_number,
    store_offset, system_of, two_number,
};
use crate::upper::upper;
use alu::Pair;
use basis::Refusal;
use effects::Move;

#[tactic(auto, unfolding(crate::specs::First::first_of, forms::specs::Form::form_of, forms::specs::Form::code_of, isa::specs::Op::op_in))]
pub fn words(
    first: u8,
    program: &[u8],
    address: usize,
    depth: usize,
    data: &mut [u8],
    cells: &mut [u16],
) -> Result<Move, Refusal>
    requires { Begun program.now address depth cells.old first 65 }
    ensures { done result «data».new cells.new ≡ first_of program.now address depth «data».old cells.old first }
{
    match first {
        0x41 => two_number::<2>(Pair::Eq, program, address, depth, cells),
        0x42 => two_number::<2>(Pair::Ne, program, address, depth, cells),
        0x43 => two_number::<2>(Pair::Le, program, address, depth, cells),
        0x44 => two_number::<2>(Pair::Gt, program, address, depth, cells),
        0x45 => two_number::<2>(Pair::Lt, program, address, depth, cells),
        0x46 => two_number::<2>(Pair::Ge, program, address, depth, cells),
        0x47 => two_number::<2>(Pair::And, program, address, depth, cells),
        0x48 => two_number::<2>(Pair::Or, program, address, depth, cells),
        0x49 => two_number::<2>(Pair::Xor, program, address, depth, cells),
        0x4A => two_number::<2>(Pair::Add, program, address, depth, cells),
        0x4B => two_number::<2>(Pair::Sub, program, address, depth, cells),
        0x4C => two_number::<2>(Pair::Mul, program, address, depth, cells),
        0x4D => load_number::<2>(1, program, address, depth, data, cells),
        0x4E => load_number::<2>(2, program, address, depth, data, cells),
        0x4F => load_offset::<2>(1, program, address, depth, data, cells),
        0x50 => load_offset::<2>(2, program, address, depth, data, cells),
        0x51 => store_number::<2>(1, program, address, depth, data, cells),
        0x52 => store_number::<2>(2, program, address, depth, data, cells),
        0x53 => store_offset::<2>(1, program, address, depth, data, cells),
        0x54 => store_offset::<2>(2, program, address, depth, data, cells),
        0x55 => call_to::<2>(program, address, depth, cells),
        0x56 => jump_to::<2>(program, address, depth, cells),
        0x57 => branch_to::<2>(true, program, address, depth, cells),
        0x58 => branch_to::<2>(false, program, address, depth, cells),
        0x59 => system_of::<2>(program, address, depth, cells),
        0x5A => extension_of::<2>(program, address, depth, cells),
        _ => upper(first, program, address, depth, data, cells),
    }
}
