// The push of one to four values by its first byte: an arm for each of the thirty from C0 up that has no flag of an absent value, so that
// count and flags are known as the arm is compiled. Written by tools/dispatch.
// Stays: a match, so that each arm's count and flags are constants in it (docs/DECISIONS.md).
// Stays: `depth` and `cells` as two arguments, tried in stack as one struct, whose line says what failed.
#![tactic(auto)]

ghost use Rattle.std.specs.Prelude.{◌≡◌, List, ℕ, ◌≤◌, length};
ghost use Rattle.decoder.specs.Refusals.{Inside};
ghost use Rattle.effects.specs.Act.{done, act_of};

use basis::Refusal;
use effects::Move;
use pushes::push_values;

// Pushes the values of the instruction at `address`, whose first byte is C0 to FF; the last value ends on top.
pub fn push_by_first(
    first: u8,
    program: &[u8],
    address: usize,
    depth: usize,
    cells: &mut [u16],
) -> Result<Move, Refusal>
    requires { (Inside program.now address first) × (192 ≤ first) × (depth ≤ length cells.old) }
    ensures { (mem : List ℕ) → done result mem cells.new ≡ act_of program.now address depth mem cells.old }
{
    match first {
        0xC0 => push_values(0xC0, program, address, depth, cells),
        0xC1 => push_values(0xC1, program, address, depth, cells),
        0xC2 => push_values(0xC2, program, address, depth, cells),
        0xC3 => push_values(0xC3, program, address, depth, cells),
        0xC4 => push_values(0xC4, program, address, depth, cells),
        0xC5 => push_values(0xC5, program, address, depth, cells),
        0xC6 => push_values(0xC6, program, address, depth, cells),
        0xC7 => push_values(0xC7, program, address, depth, cells),
        0xC9 => push_values(0xC9, program, address, depth, cells),
        0xCA => push_values(0xCA, program, address, depth, cells),
        0xCB => push_values(0xCB, program, address, depth, cells),
        0xCD => push_values(0xCD, program, address, depth, cells),
        0xCE => push_values(0xCE, program, address, depth, cells),
        0xCF => push_values(0xCF, program, address, depth, cells),
        0xD2 => push_values(0xD2, program, address, depth, cells),
        0xD3 => push_values(0xD3, program, address, depth, cells),
        0xD6 => push_values(0xD6, program, address, depth, cells),
        0xD7 => push_values(0xD7, program, address, depth, cells),
        0xDA => push_values(0xDA, program, address, depth, cells),
        0xDB => push_values(0xDB, program, address, depth, cells),
        0xDE => push_values(0xDE, program, address, depth, cells),
        0xDF => push_values(0xDF, program, address, depth, cells),
        0xE3 => push_values(0xE3, program, address, depth, cells),
        0xE7 => push_values(0xE7, program, address, depth, cells),
        0xEB => push_values(0xEB, program, address, depth, cells),
        0xEF => push_values(0xEF, program, address, depth, cells),
        0xF3 => push_values(0xF3, program, address, depth, cells),
        0xF7 => push_values(0xF7, program, address, depth, cells),
        0xFB => push_values(0xFB, program, address, depth, cells),
        0xFF => push_values(0xFF, program, address, depth, cells),
        _ => Err(Refusal::Illegal),
    }
}
