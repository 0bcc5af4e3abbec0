// The copies, from data and from the program: each takes three operands, checks 4, 6 and 7, copies and pushes one value.
// Stays: `depth` and `cells` as two arguments, tried in stack as one struct, whose line says what failed.
// Stays: two copies, and not one over its source: the one from the data borrows what it writes.
#![tactic(auto, unfolding(effects::specs::Act::do_of, isa::specs::Shape::depth_after))]

ghost use Rattle.std.specs.Prelude.{◌≡◌, ◌+◌, leb};

mod data_copy;
mod program_copy;

pub use data_copy::copy_data;
use memory::sum;
pub use program_copy::copy_program;

// Whether `count` bytes from `at` lie in a memory of this length: "a copy needs this at both ends, also for c = 0".
fn inside(at: u16, count: u16, length: usize) -> bool
    ensures { result ≡ leb (at + count) length }
{
    sum(at, count) <= length
}
