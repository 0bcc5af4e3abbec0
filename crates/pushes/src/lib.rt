// The push of one to four values, C0 to FF.
// Stays: `depth` and `cells` as two arguments, tried in stack as one struct, whose line says what failed.
#![tactic(auto)]

ghost use Rattle.std.specs.Prelude.{◌≡◌, List, [], ◌∷◌, ℕ, ◌+◌, ◌≤◌, ◌<◌, length};
ghost use Rattle.basis.specs.Number.{number_at};
ghost use Rattle.decoder.specs.Refusals.{Inside};
ghost use Rattle.effects.specs.Memory.{pushed};
ghost use Rattle.effects.specs.Act.{done, act_of};
ghost use Rattle.pushes.specs.Values.{values_from, bytes_in};

use basis::Refusal;
use effects::Move;

// Pushes the number in the `width` bytes of the program from `at`; the place after them.
// Stays: a width with its bound, as basis has it.
fn push_number(width: usize, program: &[u8], at: usize, depth: usize, cells: &mut [u16]) -> usize
    requires { (width ≤ 2) × (at + width ≤ length program.now) × (depth < length cells.old) }
    ensures value { result ≡ at + width }
    ensures cells_after { cells.new ≡ pushed cells.old depth (number_at width program.now at ∷ []) }
{
    let i = cells.len() - (depth + 1);
    cells[i] = basis::number_at(width, program, at);
    at + width
}

// Pushes a number of one byte or, where its flag is 1, of two; the place after it.
fn push_value(flag: u8, program: &[u8], at: usize, depth: usize, cells: &mut [u16]) -> usize
    requires { (flag ≤ 1) × (at + (1 + flag) ≤ length program.now) × (depth < length cells.old) }
    ensures value { result ≡ at + (1 + flag) }
    ensures cells_after { cells.new ≡ pushed cells.old depth (number_at (1 + flag) program.now at ∷ []) }
{
    if flag == 0 {
        return push_number(1, program, at, depth, cells);
    }
    push_number(2, program, at, depth, cells)
}

// Pushes the `count` values that begin at `at`, one after the other, each of one byte or, by its flag, of two; the place after them.
fn push_all(
    count: u8,
    flags: u8,
    program: &[u8],
    at: usize,
    depth: usize,
    cells: &mut [u16],
) -> usize
    requires { (at + bytes_in count flags ≤ length program.now) × (depth + count ≤ length cells.old) }
    ensures value { result ≡ at + bytes_in count flags }
    ensures cells_after { cells.new ≡ pushed cells.old depth (values_from count flags program.now at) }
{
    let mut rest = flags;
    let mut place = at;
    for k in 0..count as usize {
        place = push_value(rest % 2, program, place, depth + k, cells);
        rest /= 2;
    }
    place
}

// Pushes the values of the instruction at `address`, whose first byte is C0 to FF; the last value ends on top.
pub fn push_values(
    first: u8,
    program: &[u8],
    address: usize,
    depth: usize,
    cells: &mut [u16],
) -> Result<Move, Refusal>
    requires { (Inside program.now address first) × (192 ≤ first) × (depth ≤ length cells.old) }
    ensures { (mem : List ℕ) → done result mem cells.new ≡ act_of program.now address depth mem cells.old }
{
    let count = first % 4 + 1;
    let flags = first / 4 % 16;
    if flags >> count != 0 {
        return Err(Refusal::Illegal);
    }
    let end = address + 1 + count as usize + u8::count_ones(flags) as usize;
    if program.len() < end {
        return Err(Refusal::Cut);
    }
    if cells.len() - depth < count as usize {
        return Err(Refusal::TooMany);
    }
    // it is `end`, told by the last value's place
    let next = push_all(count, flags, program, address + 1, depth, cells);
    Ok(Move::To(next, depth + count as usize))
}
