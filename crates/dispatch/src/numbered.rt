// Operations whose number stands in the code, in one byte or in two: the number is read, and the operation done with it.
// Written by tools/dispatch.
// Stays: ten functions of one shape: one over an `impl FnOnce(u16, usize)` is no plainer, each of its 54 arms would have a closure's contract to meet.
ghost use Rattle.std.specs.Prelude.{◌≡◌, List, ℕ, ◌<◌, ◌≤◌, length};
ghost use Rattle.basis.specs.Refusal.{answer_of};
ghost use Rattle.isa.specs.Op.{TwoNumber, Load, Store, Given};
ghost use Rattle.isa.specs.declared.Route.TheVariants.{Call, Jump, System, Extension};
ghost use Rattle.flow.specs.Branch.{branch_at};
ghost use Rattle.effects.specs.Act.{done};
ghost use Rattle.dispatch.specs.First.{number_after, numbered_of, shift_of, Placed};

use alu::Pair;
use basis::Refusal;
use effects::Move;

// The number in the `WIDTH` bytes after the first.
fn number_after<const WIDTH: usize>(program: &[u8], address: usize) -> Result<u16, Refusal>
    requires { (address < length program.now) × (WIDTH ≤ 2) }
    ensures { answer_of result ≡ number_after WIDTH program.now address }
{
    let at = address + 1;
    if program.len() < at + WIDTH {
        return Err(Refusal::Cut);
    }
    Ok(basis::number_at(WIDTH, program, at))
}

// An operation on a and the number.
#[tactic(auto, unfolding(crate::specs::First::numbered_of))]
pub fn two_number<const WIDTH: usize>(
    pair: Pair,
    program: &[u8],
    address: usize,
    depth: usize,
    cells: &mut [u16],
) -> Result<Move, Refusal>
    requires { (Placed program.now address depth cells.old) × (WIDTH ≤ 2) }
    ensures { (mem : List ℕ) → done result mem cells.new ≡ numbered_of program.now address depth mem cells.old WIDTH (λ x. TwoNumber pair x) }
{
    let x = number_after::<WIDTH>(program, address)?;
    stack::two_number(pair, x, address + 1 + WIDTH, depth, cells)
}

// A load at the number.
#[tactic(auto, unfolding(crate::specs::First::numbered_of))]
pub fn load_number<const WIDTH: usize>(
    width: usize,
    program: &[u8],
    address: usize,
    depth: usize,
    data: &[u8],
    cells: &mut [u16],
) -> Result<Move, Refusal>
    requires { (Placed program.now address depth cells.old) × (WIDTH ≤ 2) × ((1 ≤ width) × (width ≤ 2)) }
    ensures { done result «data».now cells.new ≡ numbered_of program.now address depth «data».now cells.old WIDTH (λ x. Load width 0 x) }
{
    let x = number_after::<WIDTH>(program, address)?;
    loads::load_number(width, x, address + 1 + WIDTH, depth, data, cells)
}

// A load at a and the number.
#[tactic(auto, unfolding(crate::specs::First::numbered_of))]
pub fn load_offset<const WIDTH: usize>(
    width: usize,
    program: &[u8],
    address: usize,
    depth: usize,
    data: &[u8],
    cells: &mut [u16],
) -> Result<Move, Refusal>
    requires { (Placed program.now address depth cells.old) × (WIDTH ≤ 2) × ((1 ≤ width) × (width ≤ 2)) }
    ensures { done result «data».now cells.new ≡ numbered_of program.now address depth «data».now cells.old WIDTH (λ x. Load width 1 x) }
{
    let x = number_after::<WIDTH>(program, address)?;
    loads::load_offset(width, x, address + 1 + WIDTH, depth, data, cells)
}

// A store at the number.
#[tactic(auto, unfolding(crate::specs::First::numbered_of))]
pub fn store_number<const WIDTH: usize>(
    width: usize,
    program: &[u8],
    address: usize,
    depth: usize,
    data: &mut [u8],
    cells: &mut [u16],
) -> Result<Move, Refusal>
    requires { (Placed program.now address depth cells.old) × (WIDTH ≤ 2) × ((1 ≤ width) × (width ≤ 2)) }
    ensures { done result «data».new cells.new ≡ numbered_of program.now address depth «data».old cells.old WIDTH (λ x. Store width 0 x) }
{
    let x = number_after::<WIDTH>(program, address)?;
    stores::store_number(width, x, address + 1 + WIDTH, depth, data, cells)
}

// A store at a and the number.
#[tactic(auto, unfolding(crate::specs::First::numbered_of))]
pub fn store_offset<const WIDTH: usize>(
    width: usize,
    program: &[u8],
    address: usize,
    depth: usize,
    data: &mut [u8],
    cells: &mut [u16],
) -> Result<Move, Refusal>
    requires { (Placed program.now address depth cells.old) × (WIDTH ≤ 2) × ((1 ≤ width) × (width ≤ 2)) }
    ensures { done result «data».new cells.new ≡ numbered_of program.now address depth «data».old cells.old WIDTH (λ x. Store width 1 x) }
{
    let x = number_after::<WIDTH>(program, address)?;
    stores::store_offset(width, x, address + 1 + WIDTH, depth, data, cells)
}

// A call of the number.
#[tactic(auto, unfolding(crate::specs::First::numbered_of))]
pub fn call_to<const WIDTH: usize>(
    program: &[u8],
    address: usize,
    depth: usize,
    cells: &mut [u16],
) -> Result<Move, Refusal>
    requires { (Placed program.now address depth cells.old) × (WIDTH ≤ 2) }
    ensures { (mem : List ℕ) → done result mem cells.new ≡ numbered_of program.now address depth mem cells.old WIDTH (λ x. Given Call x) }
{
    let x = number_after::<WIDTH>(program, address)?;
    calls::call_to(x, address + 1 + WIDTH, depth, cells)
}

// A jump to the number.
#[tactic(auto, unfolding(crate::specs::First::numbered_of))]
pub fn jump_to<const WIDTH: usize>(
    program: &[u8],
    address: usize,
    depth: usize,
    cells: &[u16],
) -> Result<Move, Refusal>
    requires { (Placed program.now address depth cells.now) × (WIDTH ≤ 2) }
    ensures { (mem : List ℕ) → done result mem cells.now ≡ numbered_of program.now address depth mem cells.now WIDTH (λ x. Given Jump x) }
{
    let x = number_after::<WIDTH>(program, address)?;
    Ok(flow::jump_to(x, depth))
}

// A branch to the number.
#[tactic(auto, unfolding(crate::specs::First::numbered_of))]
pub fn branch_to<const WIDTH: usize>(
    want: bool,
    program: &[u8],
    address: usize,
    depth: usize,
    cells: &[u16],
) -> Result<Move, Refusal>
    requires { (Placed program.now address depth cells.now) × (WIDTH ≤ 2) }
    ensures { (mem : List ℕ) → done result mem cells.now ≡ numbered_of program.now address depth mem cells.now WIDTH (λ x. Given (branch_at want) x) }
{
    let x = number_after::<WIDTH>(program, address)?;
    flow::branch_to(want, x, address + 1 + WIDTH, depth, cells)
}

// The system function of the number.
#[tactic(auto, unfolding(crate::specs::First::numbered_of))]
pub fn system_of<const WIDTH: usize>(
    program: &[u8],
    address: usize,
    depth: usize,
    cells: &[u16],
) -> Result<Move, Refusal>
    requires { (Placed program.now address depth cells.now) × (WIDTH ≤ 2) }
    ensures { (mem : List ℕ) → done result mem cells.now ≡ numbered_of program.now address depth mem cells.now WIDTH (λ x. Given System x) }
{
    let x = number_after::<WIDTH>(program, address)?;
    calls::system_of(x, depth)
}

// The extension function of the number.
#[tactic(auto, unfolding(crate::specs::First::numbered_of))]
pub fn extension_of<const WIDTH: usize>(
    program: &[u8],
    address: usize,
    depth: usize,
    cells: &[u16],
) -> Result<Move, Refusal>
    requires { (Placed program.now address depth cells.now) × (WIDTH ≤ 2) }
    ensures { (mem : List ℕ) → done result mem cells.now ≡ numbered_of program.now address depth mem cells.now WIDTH (λ x. Given Extension x) }
{
    number_after::<WIDTH>(program, address)?;
    calls::extension_of(depth)
}

// A shift of a by the number, which is 0 to 15.
#[tactic(auto, unfolding(crate::specs::First::shift_of))]
pub fn shift(
    pair: Pair,
    program: &[u8],
    address: usize,
    depth: usize,
    cells: &mut [u16],
) -> Result<Move, Refusal>
    requires { Placed program.now address depth cells.old }
    ensures { (mem : List ℕ) → done result mem cells.new ≡ shift_of program.now address depth mem cells.old (λ x. TwoNumber pair x) }
{
    let x = number_after::<1>(program, address)?;
    if 16 <= x {
        return Err(Refusal::Illegal);
    }
    stack::two_number(pair, x, address + 1 + 1, depth, cells)
}
