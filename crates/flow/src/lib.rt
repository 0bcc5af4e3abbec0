// Halting, jumping and branching: each takes its operands, checks 4, and says where it leads.
// Stays: `depth` and `cells` as two arguments, tried in stack as one struct, whose line says what failed.
#![tactic(auto, unfolding(effects::specs::Act::do_of, isa::specs::Shape::depth_after))]

ghost use Rattle.std.specs.Prelude.{◌≡◌, List, ℕ, ◌≤◌, length};
ghost use Rattle.isa.specs.Op.{Halt, Taken, Given};
ghost use Rattle.isa.specs.declared.Route.TheVariants.{Jump};
ghost use Rattle.basis.specs.Answer.{given};
ghost use Rattle.effects.specs.Act.{became, done, do_of};
ghost use Rattle.flow.specs.Branch.{branch_at};

use basis::Refusal;
use effects::Move;

// The machine halts.
pub fn halt(depth: usize) -> Move
    ensures { (program mem cells : List ℕ) (next : ℕ) → depth ≤ length cells → became (given result) mem cells ≡ do_of program next Halt depth mem cells }
{
    Move::Halt(depth)
}

// Go to a.
pub fn jump_taken(depth: usize, cells: &[u16]) -> Result<Move, Refusal>
    requires { depth ≤ length cells.now }
    ensures { (program mem : List ℕ) (next : ℕ) → done result mem cells.now ≡ do_of program next (Taken Jump) depth mem cells.now }
{
    if depth < 1 {
        return Err(Refusal::TooFew);
    }
    let i = cells.len() - depth;
    let a = cells[i] as usize;
    Ok(Move::To(a, depth - 1))
}

// Go to x.
pub fn jump_to(x: u16, depth: usize) -> Move
    ensures { (program mem cells : List ℕ) (next : ℕ) → depth ≤ length cells → became (given result) mem cells ≡ do_of program next (Given Jump x) depth mem cells }
{
    Move::To(x as usize, depth)
}

// Go to a if "b is not 0" has the wanted outcome, else to the next instruction.
pub fn branch_taken(want: bool, next: usize, depth: usize, cells: &[u16]) -> Result<Move, Refusal>
    requires { depth ≤ length cells.now }
    ensures { (program mem : List ℕ) → done result mem cells.now ≡ do_of program next (Taken (branch_at want)) depth mem cells.now }
{
    if depth < 2 {
        return Err(Refusal::TooFew);
    }
    let i = cells.len() - depth;
    let j = i + 1;
    if (cells[j] != 0) == want {
        let a = cells[i] as usize;
        return Ok(Move::To(a, depth - 2));
    }
    Ok(Move::To(next, depth - 2))
}

// Go to x if "a is not 0" has the wanted outcome, else to the next instruction.
pub fn branch_to(
    want: bool,
    x: u16,
    next: usize,
    depth: usize,
    cells: &[u16],
) -> Result<Move, Refusal>
    requires { depth ≤ length cells.now }
    ensures { (program mem : List ℕ) → done result mem cells.now ≡ do_of program next (Given (branch_at want) x) depth mem cells.now }
{
    if depth < 1 {
        return Err(Refusal::TooFew);
    }
    let i = cells.len() - depth;
    if (cells[i] != 0) == want {
        return Ok(Move::To(x as usize, depth - 1));
    }
    Ok(Move::To(next, depth - 1))
}
