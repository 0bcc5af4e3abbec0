// Stores: of a at the number in the code, of b at a and that number, of c at a and b. Each takes its operands, checks 4 and 6, and pushes what it stored.
// Stays: `width` as a number of bytes with its bounds, as 01 and `Op` count it; an enum needs its number again in each clause and each access, and a const parameter needs the same bounds (dispatch has one, for what is constant there).
#![tactic(auto, unfolding(effects::specs::Act::do_of, isa::specs::Shape::depth_after))]

ghost use Rattle.std.specs.Prelude.{◌≡◌, List, ℕ, ◌+◌, ◌-◌, ◌%◌, ◌^◌, ◌≤◌, ◌<◌, length};
ghost use Rattle.isa.specs.Op.{Store};
ghost use Rattle.effects.specs.Memory.{operand_of};
ghost use Rattle.effects.specs.Effect.{place_of};
ghost use Rattle.effects.specs.Act.{done, do_of};

use basis::Refusal;
use effects::Move;
use memory::{push, sum};

// What `width` bytes keep of a value.
fn kept(width: usize, value: u16) -> u16
    requires { (1 ≤ width) × (width ≤ 2) }
    ensures { result ≡ value % 256 ^ width }
{
    if width == 1 {
        return value % 256;
    }
    value
}

// Any store, once its place and its value are known: `left` values are left of the stack.
fn store(
    width: usize,
    place: usize,
    value: u16,
    next: usize,
    left: usize,
    data: &mut [u8],
    cells: &mut [u16],
) -> Result<Move, Refusal>
    requires { (place < 131072) × (((1 ≤ width) × (width ≤ 2)) × (left < length cells.old)) }
    ensures { (program : List ℕ) (n x depth : ℕ) → n + 1 ≤ depth → left ≡ depth - (n + 1) → place ≡ place_of (operand_of cells.old depth) n x → value ≡ operand_of cells.old depth n → done result «data».new cells.new ≡ do_of program next (Store width n x) depth «data».old cells.old }
{
    if data.len() < place + width {
        return Err(Refusal::DataRange);
    }
    basis::put_number(width, data, place, value);
    Ok(push(kept(width, value), next, left, cells))
}

// A store of a at the number x.
pub fn store_number(
    width: usize,
    x: u16,
    next: usize,
    depth: usize,
    data: &mut [u8],
    cells: &mut [u16],
) -> Result<Move, Refusal>
    requires { (depth ≤ length cells.old) × ((1 ≤ width) × (width ≤ 2)) }
    ensures { (program : List ℕ) → done result «data».new cells.new ≡ do_of program next (Store width 0 x) depth «data».old cells.old }
{
    if depth < 1 {
        return Err(Refusal::TooFew);
    }
    let i = cells.len() - depth;
    store(width, x as usize, cells[i], next, depth - 1, data, cells)
}

// A store of b at a and the number x.
pub fn store_offset(
    width: usize,
    x: u16,
    next: usize,
    depth: usize,
    data: &mut [u8],
    cells: &mut [u16],
) -> Result<Move, Refusal>
    requires { (depth ≤ length cells.old) × ((1 ≤ width) × (width ≤ 2)) }
    ensures { (program : List ℕ) → done result «data».new cells.new ≡ do_of program next (Store width 1 x) depth «data».old cells.old }
{
    if depth < 2 {
        return Err(Refusal::TooFew);
    }
    let i = cells.len() - depth;
    let j = i + 1;
    let place = sum(cells[i], x);
    store(width, place, cells[j], next, depth - 2, data, cells)
}

// A store of c at a and b.
pub fn store_sum(
    width: usize,
    next: usize,
    depth: usize,
    data: &mut [u8],
    cells: &mut [u16],
) -> Result<Move, Refusal>
    requires { (depth ≤ length cells.old) × ((1 ≤ width) × (width ≤ 2)) }
    ensures { (program : List ℕ) → done result «data».new cells.new ≡ do_of program next (Store width 2 0) depth «data».old cells.old }
{
    if depth < 3 {
        return Err(Refusal::TooFew);
    }
    let i = cells.len() - depth;
    let j = i + 1;
    let k = i + 2;
    let place = sum(cells[i], cells[j]);
    store(width, place, cells[k], next, depth - 3, data, cells)
}
