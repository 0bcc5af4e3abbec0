// What an instruction is: its parts as a value, the ways it can lead, and the stack check.
#![tactic(auto)]

ghost use Rattle.std.specs.Prelude.{◌≡◌};
ghost use Rattle.basis.specs.Refusal.{answer_of};
ghost use Rattle.isa.specs.Shape.{depth_after};

use basis::Refusal;

// Stays: v0 to v3 and no array, by the C interface (KhxInstruction), which has their names; decoder, encoder and operands go through them one by one.
// An instruction as a value. What the form lacks is 0. Bit i of the flags is set where value i has two bytes.
#[derive(Clone, Copy)]
pub struct Instruction {
    pub code: u8,
    pub number: u16,
    pub count: u8,
    pub flags: u8,
    pub v0: u16,
    pub v1: u16,
    pub v2: u16,
    pub v3: u16,
}

// How an instruction leaves the straight line: 05 to 0A take their target from the stack, 3B to 40 and 55 to 5A have it
// in the code.
#[derive(Clone, Copy)]
pub enum Route {
    Call,
    Jump,
    JumpIf,
    JumpIfNot,
    System,
    Extension,
}

// Where an instruction leads: nowhere, to the next, to an address, to an address or else to the next (with the outcome of
// "not 0" at which it jumps), to a subroutine, where the stack says, or to a system or an extension function.
#[derive(Clone, Copy)]
pub enum Way {
    Stop,
    Next,
    Jump(u16),
    Branch(bool, u16),
    Call(u16),
    Taken(Route),
    System(u16),
    Extension(u16),
}

// The stack check: the depth after `taken` values were taken and `pushed` pushed.
#[tactic(auto, unfolding(crate::specs::Shape::depth_after))]
pub fn depth_after(
    cells: usize,
    depth: usize,
    taken: usize,
    pushed: usize,
) -> Result<usize, Refusal>
    ensures { answer_of result ≡ depth_after cells depth taken pushed }
{
    if depth < taken {
        return Err(Refusal::TooFew);
    }
    let left = depth - taken;
    if cells < left {
        return Err(Refusal::TooMany);
    }
    if cells - left < pushed {
        return Err(Refusal::TooMany);
    }
    Ok(left + pushed)
}
