// What an instruction leads to at a depth, before it is run: its shape is the table's row, and its first byte says where it leads.
#![tactic(auto)]

ghost use Rattle.std.specs.Prelude.{◌≡◌, not, ◌+◌, ◌<◌, ◌≤◌, ltb, length, get_or};
ghost use Rattle.basis.specs.Pick.{pick};
ghost use Rattle.forms.specs.Form.{length_of};
ghost use Rattle.isa.specs.declared.Way.TheVariants.{Next};
ghost use Rattle.paths.specs.Paths.{bad};
ghost use Rattle.look.specs.Look.{on_way, look_of, outcome_in};
ghost use Rattle.glance.specs.Firsts.{turning, after_of, first_on};

use basis::{Refusal, number_at};
use isa::{Route, Way};
use look::Look;
use shapes::Shapes;

// What was found of an instruction: where the next one begins; the cells, and the depth at which it was met; the values that it takes
// and pushes, by its row.
#[derive(Clone, Copy)]
struct Found {
    next: usize,
    cells: usize,
    depth: usize,
    taken: usize,
    pushed: usize,
}

// Where a way leads behind the stack check.
fn led(found: Found, way: Way) -> Result<Look, Refusal>
    ensures { outcome_in result ≡ on_way found.next way (after_of found) }
{
    let after = isa::depth_after(found.cells, found.depth, found.taken, found.pushed);
    look::on_way(found.next, way, after)
}

// A shift by a number in the code, which is below 16.
fn shifted(program: &[u8], at: usize, found: Found) -> Result<Look, Refusal>
    requires { at + 2 ≤ length program.now }
    ensures { outcome_in result ≡ pick (ltb (get_or program.now (at + 1) 0) 16) (on_way found.next Next (after_of found)) (bad 2) }
{
    if 16 <= program[at + 1] {
        return Err(Refusal::Illegal);
    }
    led(found, Way::Next)
}

// Stays: a match: the arms are the ways themselves, and 0x31 and 0x32 stand apart as their answers do.
// What the instruction at an address leads to, by its first byte: the arms are those that lead elsewhere than to the next one, and the shifts.
fn look_on(first: u8, program: &[u8], at: usize, found: Found) -> Result<Look, Refusal>
    requires { (at + length_of first ≤ length program.now) × (0 < length_of first) }
    ensures { outcome_in result ≡ first_on program.now at first found }
{
    match first {
        0x00 => led(found, Way::Stop),
        0x05 => led(found, Way::Taken(Route::Call)),
        0x06 => led(found, Way::Taken(Route::Jump)),
        0x07 => led(found, Way::Taken(Route::JumpIf)),
        0x08 => led(found, Way::Taken(Route::JumpIfNot)),
        0x09 => led(found, Way::Taken(Route::System)),
        0x0A => led(found, Way::Taken(Route::Extension)),
        0x31 => shifted(program, at, found),
        0x32 => shifted(program, at, found),
        0x3B => led(found, Way::Call(number_at(1, program, at + 1))),
        0x3C => led(found, Way::Jump(number_at(1, program, at + 1))),
        0x3D => led(found, Way::Branch(true, number_at(1, program, at + 1))),
        0x3E => led(found, Way::Branch(false, number_at(1, program, at + 1))),
        0x3F => led(found, Way::System(number_at(1, program, at + 1))),
        0x40 => led(found, Way::Extension(number_at(1, program, at + 1))),
        0x55 => led(found, Way::Call(number_at(2, program, at + 1))),
        0x56 => led(found, Way::Jump(number_at(2, program, at + 1))),
        0x57 => led(found, Way::Branch(true, number_at(2, program, at + 1))),
        0x58 => led(found, Way::Branch(false, number_at(2, program, at + 1))),
        0x59 => led(found, Way::System(number_at(2, program, at + 1))),
        0x5A => led(found, Way::Extension(number_at(2, program, at + 1))),
        _ => led(found, Way::Next),
    }
}

// A first byte that has no arm above: the next instruction follows, whatever stands between. It is asked before the arms, since most
// first bytes have none, and a test is foreseen more often than a jump among the arms.
// Stays: one `matches!` of those bytes was tried and is slower: 90 us where this takes 72 (verify-straight), 43 where it takes 31 (verify-hostile).
fn follows(first: u8) -> bool
    ensures { result ≡ not (turning first) }
{
    match first {
        0x55.. => 0x5B <= first,
        0x3B.. => 0x41 <= first,
        0x31.. => 0x33 <= first,
        0x05.. => 0x0B <= first,
        _ => 0x01 <= first,
    }
}

// What the instruction at an address leads to from a depth, with so many cells.
// Stays: program, cells and shapes by themselves: a struct of them is no plainer for three functions, which each take another part of it.
pub fn look_at(
    shapes: Shapes,
    program: &[u8],
    cells: usize,
    at: usize,
    depth: usize,
) -> Result<Look, Refusal>
    requires { (at < length program.now) × (length program.now ≤ 16384) }
    ensures { outcome_in result ≡ look_of program.now cells at depth }
{
    let first = program[at];
    let Some(row) = shapes.row(first) else {
        return Err(Refusal::Illegal);
    };
    if program.len() - at < row.length {
        return Err(Refusal::Cut);
    }
    let found = Found {
        next: at + row.length,
        cells,
        depth,
        taken: row.taken,
        pushed: row.pushed,
    };
    if follows(first) {
        return led(found, Way::Next);
    }
    look_on(first, program, at, found)
}
