// Calls, and the system and the extension functions: each takes its operands, checks 4, 5 and 8, and says where it leads.
// Stays: `depth` and `cells` as two arguments, tried in stack as one struct, whose line says what failed.
#![tactic(auto, unfolding(effects::specs::Act::do_of, isa::specs::Shape::depth_after))]

ghost use Rattle.std.specs.Prelude.{◌≡◌, List, ℕ, ◌≤◌, ◌<◌, length};
ghost use Rattle.isa.specs.Op.{Taken, Given};
ghost use Rattle.isa.specs.declared.Route.TheVariants.{Call, System, Extension};
ghost use Rattle.effects.specs.Act.{done, do_of};

use basis::Refusal;
use effects::Move;

// Go to a; the address of the next instruction takes its place on the stack.
pub fn call_taken(next: usize, depth: usize, cells: &mut [u16]) -> Result<Move, Refusal>
    requires { (depth ≤ length cells.old) × (next < 65536) }
    ensures { (program mem : List ℕ) → done result mem cells.new ≡ do_of program next (Taken Call) depth mem cells.old }
{
    if depth < 1 {
        return Err(Refusal::TooFew);
    }
    let i = cells.len() - depth;
    let a = cells[i] as usize;
    cells[i] = next as u16;
    Ok(Move::To(a, depth))
}

// Push the address of the next instruction and go to x.
pub fn call_to(x: u16, next: usize, depth: usize, cells: &mut [u16]) -> Result<Move, Refusal>
    requires { (depth ≤ length cells.old) × (next < 65536) }
    ensures { (program mem : List ℕ) → done result mem cells.new ≡ do_of program next (Given Call x) depth mem cells.old }
{
    if cells.len() <= depth {
        return Err(Refusal::TooMany);
    }
    let i = cells.len() - depth - 1;
    cells[i] = next as u16;
    Ok(Move::To(x as usize, depth + 1))
}

// System function a: 0 halts, there is no other.
pub fn system_taken(depth: usize, cells: &[u16]) -> Result<Move, Refusal>
    requires { depth ≤ length cells.now }
    ensures { (program mem : List ℕ) (next : ℕ) → done result mem cells.now ≡ do_of program next (Taken System) depth mem cells.now }
{
    if depth < 1 {
        return Err(Refusal::TooFew);
    }
    let i = cells.len() - depth;
    if cells[i] != 0 {
        return Err(Refusal::NoFunction);
    }
    Ok(Move::Halt(depth - 1))
}

// System function x: 0 halts, there is no other.
pub fn system_of(x: u16, depth: usize) -> Result<Move, Refusal>
    ensures { (program mem cells : List ℕ) (next : ℕ) → depth ≤ length cells → done result mem cells ≡ do_of program next (Given System x) depth mem cells }
{
    if x != 0 {
        return Err(Refusal::NoFunction);
    }
    Ok(Move::Halt(depth))
}

// Extension function a: there is none.
pub fn extension_taken(depth: usize) -> Result<Move, Refusal>
    ensures { (program mem cells : List ℕ) (next : ℕ) → depth ≤ length cells → done result mem cells ≡ do_of program next (Taken Extension) depth mem cells }
{
    let why = if depth < 1 {
        Refusal::TooFew
    } else {
        Refusal::NoFunction
    };
    Err(why)
}

// Extension function x: there is none.
pub fn extension_of(depth: usize) -> Result<Move, Refusal>
    ensures { (program mem cells : List ℕ) (next x : ℕ) → depth ≤ length cells → done result mem cells ≡ do_of program next (Given Extension x) depth mem cells }
{
    Err(Refusal::NoFunction)
}
