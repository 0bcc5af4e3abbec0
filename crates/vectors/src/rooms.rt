// Rooms for a program to lend. Each says its length, so that no proof above counts its elements.
ghost use Rattle.std.specs.Prelude.{◌≡◌, length};

use crate::{LONGEST, SHEET};

// For all cases of a program, and for the longest listing.
pub fn sheet() -> [u8; SHEET]
    ensures { 524288 ≡ length result }
{
    [0; SHEET]
}

// For a memory of a case.
pub fn bytes() -> [u8; LONGEST]
    ensures { 65600 ≡ length result }
{
    [0; LONGEST]
}

// For the cells of a case.
pub fn cells() -> [u16; LONGEST]
    ensures { 65600 ≡ length result }
{
    [0; LONGEST]
}
