// A lent room with the place in it where the next byte goes.
ghost use Rattle.std.specs.Prelude.{[], ◌∷◌, ◌*◌, ◌≤◌, length};
ghost use Rattle.text.specs.Text.{hex_of};
ghost use Rattle.text.specs.Pen.{Puts, HasPlace};

use crate::{put_hex, put_text};

#[derive(Drop)]
pub struct Pen<'a> {
    pub room: &'a mut [u8],
    pub at: usize,
}

impl<'a> Pen<'a> {
    // Puts one byte.
    pub fn put(&mut self, byte: u8)
        requires { HasPlace self.old 1 }
        ensures { Puts (byte ∷ []) self.old self.new }
    {
        self.room[self.at] = byte;
        self.at += 1;
    }

    // Puts the bytes of `text`.
    pub fn put_text(&mut self, text: &[u8])
        requires { HasPlace self.old (length text.now) }
        ensures { Puts text.now self.old self.new }
    {
        self.at = put_text(text, self.room, self.at);
    }

    // Puts the digits of the `width` low bytes of `value`.
    pub fn put_hex(&mut self, width: usize, value: u16)
        requires { (width ≤ 2) × HasPlace self.old (2 * width) }
        ensures { Puts (hex_of width value) self.old self.new }
    {
        self.at = put_hex(width, self.room, self.at, value);
    }
}
