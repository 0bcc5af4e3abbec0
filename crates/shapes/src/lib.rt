// The shapes of the 256 first bytes as one table: length, values taken, values pushed. Decoder and verifier go by it.
#![tactic(auto)]

ghost use Rattle.std.specs.Prelude.{◌≡◌};
ghost use Rattle.shapes.specs.Shapes.{shape_of};

mod row;
mod table;

pub use row::Row;
pub use table::{Shapes, rows};

// The row of a first byte, for a caller that asks once.
pub fn shape_of(first: u8) -> Option<Row>
    ensures { result ≡ shape_of first }
{
    let rows = rows();
    Shapes { rows: &rows }.row(first)
}
