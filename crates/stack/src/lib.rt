// The operations on the stack alone: each takes its operands, checks 4 and 5, and pushes what it makes of them.
// Stays: `depth` and `cells` as two arguments; tried as a struct with the bound as its ghost field, whose callers could not prove what the cells that they lent hold afterwards.
#![tactic(auto, unfolding(effects::specs::Act::do_of, isa::specs::Shape::depth_after))]

ghost use Rattle.std.specs.Prelude.{◌≡◌, List, [], ◌∷◌, ℕ, ◌≤◌, length};
ghost use Rattle.isa.specs.Op.{Discard, Swap, Two, TwoNumber, One, Push};
ghost use Rattle.effects.specs.Act.{done, do_of};

use alu::{Pair, Single};
use basis::Refusal;
use effects::Move;

// One operand is dropped.
pub fn discard(next: usize, depth: usize) -> Result<Move, Refusal>
    ensures { (program mem cells : List ℕ) → depth ≤ length cells → done result mem cells ≡ do_of program next Discard depth mem cells }
{
    if depth < 1 {
        return Err(Refusal::TooFew);
    }
    let left = depth - 1;
    Ok(Move::To(next, left))
}

// "push a; push b": the two operands change places.
pub fn swap(next: usize, depth: usize, cells: &mut [u16]) -> Result<Move, Refusal>
    requires { depth ≤ length cells.old }
    ensures { (program mem : List ℕ) → done result mem cells.new ≡ do_of program next Swap depth mem cells.old }
{
    if depth < 2 {
        return Err(Refusal::TooFew);
    }
    let i = cells.len() - depth;
    let j = i + 1;
    let a = cells[i];
    let b = cells[j];
    cells[j] = a;
    cells[i] = b;
    Ok(Move::To(next, depth))
}

// Two operands make one value.
pub fn two(pair: Pair, next: usize, depth: usize, cells: &mut [u16]) -> Result<Move, Refusal>
    requires { depth ≤ length cells.old }
    ensures { (program mem : List ℕ) → done result mem cells.new ≡ do_of program next (Two pair) depth mem cells.old }
{
    if depth < 2 {
        return Err(Refusal::TooFew);
    }
    let i = cells.len() - depth;
    let j = i + 1;
    cells[j] = alu::combine(pair, cells[i], cells[j]);
    Ok(Move::To(next, depth - 1))
}

// One operand and the number x make one value.
pub fn two_number(
    pair: Pair,
    x: u16,
    next: usize,
    depth: usize,
    cells: &mut [u16],
) -> Result<Move, Refusal>
    requires { depth ≤ length cells.old }
    ensures { (program mem : List ℕ) → done result mem cells.new ≡ do_of program next (TwoNumber pair x) depth mem cells.old }
{
    if depth < 1 {
        return Err(Refusal::TooFew);
    }
    let i = cells.len() - depth;
    cells[i] = alu::combine(pair, cells[i], x);
    Ok(Move::To(next, depth))
}

// One operand makes one value.
pub fn one(single: Single, next: usize, depth: usize, cells: &mut [u16]) -> Result<Move, Refusal>
    requires { depth ≤ length cells.old }
    ensures { (program mem : List ℕ) → done result mem cells.new ≡ do_of program next (One single) depth mem cells.old }
{
    if depth < 1 {
        return Err(Refusal::TooFew);
    }
    let i = cells.len() - depth;
    cells[i] = alu::change(single, cells[i]);
    Ok(Move::To(next, depth))
}

// The value of a push goes onto the stack.
pub fn push(value: u16, next: usize, depth: usize, cells: &mut [u16]) -> Result<Move, Refusal>
    requires { depth ≤ length cells.old }
    ensures { (program mem : List ℕ) → done result mem cells.new ≡ do_of program next (Push (value ∷ [])) depth mem cells.old }
{
    if cells.len() <= depth {
        return Err(Refusal::TooMany);
    }
    let i = cells.len() - depth - 1;
    cells[i] = value;
    Ok(Move::To(next, depth + 1))
}
