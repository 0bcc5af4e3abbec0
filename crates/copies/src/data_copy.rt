// The copy from data to data.
ghost use Rattle.std.specs.Prelude.{◌≡◌, List, ◌⊎◌, ℕ, ◌+◌, ◌≤◌, length};
ghost use Rattle.isa.specs.Op.{DataCopy};
ghost use Rattle.effects.specs.Memory.{copied};
ghost use Rattle.effects.specs.Act.{done, do_of};

use crate::inside;
use basis::Refusal;
use effects::Move;
use memory::{push, sum};

// Copies `count` bytes, lowest address first: down, or to a range apart, each is read before one is written over it.
// Stays: two starts and one count by themselves, as the operation has them: two ranges of one length would say the length twice.
// Stays: two orders, which the edits highest_first, lowest_first and shares_one_byte name; `copy_within` has neither, and becomes memmove, as in program_copy.
fn lowest_first(to: u16, from: u16, count: u16, data: &mut [u8])
    requires { (to + count ≤ length «data».old) × (from + count ≤ length «data».old) }
    ensures { (to ≤ from) ⊎ (from + count ≤ to) → «data».new ≡ copied «data».old count to from «data».old }
{
    let (to, from) = (to as usize, from as usize);
    for k in 0..count as usize {
        data[to + k] = data[from + k];
    }
}

// The same, highest address first: up.
fn highest_first(to: u16, from: u16, count: u16, data: &mut [u8])
    requires { (to + count ≤ length «data».old) × (from + count ≤ length «data».old) }
    ensures { from ≤ to → «data».new ≡ copied «data».old count to from «data».old }
{
    let (to, from) = (to as usize, from as usize);
    for last in (0..count as usize).rev() {
        data[to + last] = data[from + last];
    }
}

// Copies `count` bytes as they stood before: lowest address first, but for a target that begins inside its source.
fn copy_bytes(to: u16, from: u16, count: u16, data: &mut [u8])
    requires { (to + count ≤ length «data».old) × (from + count ≤ length «data».old) }
    ensures { «data».new ≡ copied «data».old count to from «data».old }
{
    if to <= from {
        lowest_first(to, from, count, data);
    } else if sum(from, count) <= to as usize {
        lowest_first(to, from, count, data);
    } else {
        highest_first(to, from, count, data);
    }
}

// c bytes from data b to data a; pushes a + c.
pub fn copy_data(
    next: usize,
    depth: usize,
    data: &mut [u8],
    cells: &mut [u16],
) -> Result<Move, Refusal>
    requires { depth ≤ length cells.old }
    ensures { (program : List ℕ) → done result «data».new cells.new ≡ do_of program next DataCopy depth «data».old cells.old }
{
    if depth < 3 {
        return Err(Refusal::TooFew);
    }
    let i = cells.len() - depth;
    let j = i + 1;
    let k = i + 2;
    let a = cells[i];
    let b = cells[j];
    let c = cells[k];
    if !inside(a, c, data.len()) {
        return Err(Refusal::DataRange);
    }
    if !inside(b, c, data.len()) {
        return Err(Refusal::DataRange);
    }
    copy_bytes(a, b, c, data);
    Ok(push((sum(a, c) % 65536) as u16, next, depth - 3, cells))
}
