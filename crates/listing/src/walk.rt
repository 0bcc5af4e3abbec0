// The walk along a program that its listing takes: from each line's address to the next.
ghost use Rattle.std.specs.Prelude.{◌≤◌, length};

use basis::Refusal;
use decoder::decode_by;
use isa::Instruction;
use lines::step_of;
use shapes::Shapes;

// What a line is about: its address, the decoder's answer there, and the byte there.
#[derive(Clone, Copy)]
pub struct Place {
    pub address: u16,
    pub answer: Result<(Instruction, usize), Refusal>,
    pub byte: u8,
}

// A program, and the address of the next line.
#[derive(Clone, Copy)]
pub struct Walk<'r, 'p> {
    pub shapes: Shapes<'r>,
    pub program: &'p [u8],
    pub at: usize,
    ghost within: { length program.now ≤ 16384 },
}

impl Iterator for Walk<'_, '_> {
    type Item = Place;

    ghost use Rattle.listing.specs.Walk.{bytes_left, YieldsLine};

    ghost next_gives = { YieldsLine };

    ghost remaining = { bytes_left };

    fn next(&mut self) -> Option<Place> {
        let at = self.at;
        let byte = *self.program.get(at)?;
        let answer = decode_by(self.shapes, self.program, at);
        self.at = at + step_of(&answer);
        Some(Place {
            address: at as u16,
            answer,
            byte,
        })
    }
}
