// Texts in a lent room: bytes one after the other, and numbers as upper-case hex digits.
#![tactic(auto)]

ghost use Rattle.std.specs.Prelude.{◌≡◌, ◌+◌, ◌*◌, ◌≤◌, ◌<◌, length};
ghost use Rattle.std.proofs.lemmas.List.Edits.{sets};
ghost use Rattle.text.specs.Text.{digit_of, hex_of};
ghost use Rattle.text.specs.Put.{Put};

mod pen;

pub use pen::Pen;

// The digit of a number below 16.
// Stays: `write!` is no plainer for two digits: it answers a Result that cannot fail here, and brings std's formatting into the library for C.
#[tactic(auto, unfolding(crate::specs::Text::digit_of))]
fn digit(n: u16) -> u8
    requires { n < 16 }
    ensures { result ≡ digit_of n }
{
    if n < 10 {
        0x30 + n as u8
    } else {
        0x37 + n as u8
    }
}

// Puts the two digits of the low byte of `value` into `room` from `at`.
fn put_byte(room: &mut [u8], at: usize, value: u16)
    requires { at + 2 ≤ length room.old }
    ensures { room.new ≡ sets room.old at (hex_of 1 value) }
{
    let next = at + 1;
    room[at] = digit(value / 16 % 16);
    room[next] = digit(value % 16);
}

// Puts the digits of the `width` low bytes of `value` into `room` from `at`; the place after them.
// Stays: a room and a place in it, and no `Pen` (what may not change: `put_hex` and `put_text`, which docs/STATEMENTS.md names, take them; a pen calls these).
pub fn put_hex(width: usize, room: &mut [u8], at: usize, value: u16) -> usize
    requires { (width ≤ 2) × (at + 2 * width ≤ length room.old) }
    ensures { Put (hex_of width value) room.old at room.new result }
{
    if width == 0 {
        return at;
    }
    let next = at + 2;
    if width == 1 {
        put_byte(room, at, value);
        return next;
    }
    put_byte(room, at, value / 256);
    put_byte(room, next, value);
    next + 2
}

// Puts the bytes of `text` into `room` from `at`; the place after them.
pub fn put_text(text: &[u8], room: &mut [u8], at: usize) -> usize
    requires { at + length text.now ≤ length room.old }
    ensures { Put text.now room.old at room.new result }
{
    basis::put_bytes(text, room, at);
    at + text.len()
}
