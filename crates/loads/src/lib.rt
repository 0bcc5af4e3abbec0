// Loads: at the number in the code, at a and that number, at a and b. Each takes its operands, checks 4, 5 and 6, and pushes what it read.
// Stays: `width` as a number of bytes with its bounds, as 01 and `Op` count it; an enum needs its number again in each clause and each access, and a const parameter needs the same bounds (dispatch has one, for what is constant there).
#![tactic(auto, unfolding(effects::specs::Act::do_of, isa::specs::Shape::depth_after))]

ghost use Rattle.std.specs.Prelude.{◌≡◌, List, ℕ, ◌-◌, ◌≤◌, ◌<◌, length};
ghost use Rattle.isa.specs.Op.{Load};
ghost use Rattle.effects.specs.Memory.{operand_of};
ghost use Rattle.effects.specs.Effect.{place_of};
ghost use Rattle.effects.specs.Act.{done, do_of};

use basis::Refusal;
use effects::Move;
use memory::{push, sum};

// Any load, once its place is known: `left` values are left of the stack.
fn load(
    width: usize,
    place: usize,
    next: usize,
    left: usize,
    data: &[u8],
    cells: &mut [u16],
) -> Result<Move, Refusal>
    requires { (place < 131072) × (((1 ≤ width) × (width ≤ 2)) × (left < length cells.old)) }
    ensures { (program : List ℕ) (n x depth : ℕ) → n ≤ depth → left ≡ depth - n → place ≡ place_of (operand_of cells.old depth) n x → done result «data».now cells.new ≡ do_of program next (Load width n x) depth «data».now cells.old }
{
    if data.len() < place + width {
        return Err(Refusal::DataRange);
    }
    Ok(push(basis::number_at(width, data, place), next, left, cells))
}

// A load at the number x.
pub fn load_number(
    width: usize,
    x: u16,
    next: usize,
    depth: usize,
    data: &[u8],
    cells: &mut [u16],
) -> Result<Move, Refusal>
    requires { (depth ≤ length cells.old) × ((1 ≤ width) × (width ≤ 2)) }
    ensures { (program : List ℕ) → done result «data».now cells.new ≡ do_of program next (Load width 0 x) depth «data».now cells.old }
{
    if cells.len() <= depth {
        return Err(Refusal::TooMany);
    }
    load(width, x as usize, next, depth, data, cells)
}

// A load at a and the number x.
pub fn load_offset(
    width: usize,
    x: u16,
    next: usize,
    depth: usize,
    data: &[u8],
    cells: &mut [u16],
) -> Result<Move, Refusal>
    requires { (depth ≤ length cells.old) × ((1 ≤ width) × (width ≤ 2)) }
    ensures { (program : List ℕ) → done result «data».now cells.new ≡ do_of program next (Load width 1 x) depth «data».now cells.old }
{
    if depth < 1 {
        return Err(Refusal::TooFew);
    }
    let i = cells.len() - depth;
    let place = sum(cells[i], x);
    load(width, place, next, depth - 1, data, cells)
}

// A load at a and b.
pub fn load_sum(
    width: usize,
    next: usize,
    depth: usize,
    data: &[u8],
    cells: &mut [u16],
) -> Result<Move, Refusal>
    requires { (depth ≤ length cells.old) × ((1 ≤ width) × (width ≤ 2)) }
    ensures { (program : List ℕ) → done result «data».now cells.new ≡ do_of program next (Load width 2 0) depth «data».now cells.old }
{
    if depth < 2 {
        return Err(Refusal::TooFew);
    }
    let i = cells.len() - depth;
    let j = i + 1;
    let place = sum(cells[i], cells[j]);
    load(width, place, next, depth - 2, data, cells)
}
