// What all accesses to the data share: the exact sum of an address, and the push of the one value that each leaves.
#![tactic(auto)]

ghost use Rattle.std.specs.Prelude.{◌≡◌, [], ◌∷◌, ◌+◌, ◌<◌, length};
ghost use Rattle.effects.specs.Memory.{pushed};
ghost use Rattle.effects.specs.declared.Move.TheVariants.{To};

use effects::Move;

// a + b: "Address sums are exact whole numbers."
pub fn sum(a: u16, b: u16) -> usize
    ensures { (result ≡ a + b) × (result < 131072) }
{
    a as usize + b as usize
}

// Pushes a value onto the `left` values that are left of the stack, and goes on.
pub fn push(value: u16, next: usize, left: usize, cells: &mut [u16]) -> Move
    requires { left < length cells.old }
    ensures { (result ≡ To next (left + 1)) × (cells.new ≡ pushed cells.old left (value ∷ [])) }
{
    let depth = left + 1;
    let i = cells.len() - depth;
    cells[i] = value;
    Move::To(next, depth)
}
