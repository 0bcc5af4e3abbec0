// What all crates above share: numbers in lent bytes, low byte first, and why a call is refused.
#![tactic(auto)]

mod refusal;

ghost use Rattle.std.specs.Prelude.{◌≡◌, ◌+◌, ◌≤◌, length};
ghost use Rattle.std.proofs.lemmas.List.Edits.{sets};
ghost use Rattle.basis.specs.Number.{number_at, bytes_of};

pub use refusal::Refusal;

// The number in the `width` bytes of `s` from `at`; 0 where the width is 0.
// Stays: a width with its bound, and bytes put together by hand: `from_le_bytes` takes arrays of one length, and an absent value has none (`value_width`).
pub fn number_at(width: usize, s: &[u8], at: usize) -> u16
    requires { (width ≤ 2) × (at + width ≤ length s.now) }
    ensures { result ≡ number_at width s.now at }
{
    if width == 0 {
        return 0;
    }
    let low = s[at] as u16;
    if width == 1 {
        return low;
    }
    let next = at + 1;
    let high = s[next] as u16;
    low + 256 * high
}

// Puts the `width` low bytes of `value` into `room` from `at`.
// Stays: a room and any place in it: text's `Pen`, which writes one thing after another, stands above this.
pub fn put_number(width: usize, room: &mut [u8], at: usize, value: u16)
    requires { (width ≤ 2) × (at + width ≤ length room.old) }
    ensures { room.new ≡ sets room.old at (bytes_of width value) }
{
    if width == 0 {
        return;
    }
    room[at] = (value % 256) as u8;
    if width == 1 {
        return;
    }
    let next = at + 1;
    room[next] = (value / 256 % 256) as u8;
}

// Puts bytes into `room` from `at`.
// Stays: a loop, by the C interface: `copy_from_slice` becomes memmove, and of the C library the archive may need memcpy and memset alone (docs/GUIDE.md).
pub fn put_bytes(bytes: &[u8], room: &mut [u8], at: usize)
    requires { at + length bytes.now ≤ length room.old }
    ensures { room.new ≡ sets room.old at bytes.now }
{
    for k in 0..bytes.len() {
        room[at + k] = bytes[k];
    }
}
