// A long memory given in pieces: how many (one byte), and for each how often it stands there, its step, its length (two bytes each)
// and its bytes. Every time that a piece stands there again, the number in its last two bytes is larger by the step, modulo 65536.
ghost use Rattle.std.specs.Prelude.{◌≡◌, ◌+◌, ◌≤◌, length};

use crate::Case;

// The number in the last two bytes is larger by so much.
fn raise(memory: &mut [u8], more: u16) {
    if let [.., low, high] = memory {
        let number = u16::from_le_bytes([*low, *high]).wrapping_add(more);
        [*low, *high] = number.to_le_bytes();
    }
}

// A piece from a place of the room on, unless the room ends before the piece does. The place behind it, or the same.
fn put_piece(room: &mut [u8], at: usize, piece: &[u8], more: u16) -> usize
    requires { at ≤ length room.old }
    ensures reach { result ≤ length room.new }
    ensures length { length room.new ≡ length room.old }
{
    if room.len() - at < piece.len() {
        return at;
    }
    let end = at + piece.len();
    let place = &mut room[at..end];
    basis::put_bytes(piece, place, 0);
    raise(place, more);
    end
}

// A piece so many times, each behind the one before. The place behind the last.
fn put_pieces(room: &mut [u8], start: usize, piece: &[u8], times: u16, step: u16) -> usize
    requires { start ≤ length room.old }
    ensures reach { result ≤ length room.new }
    ensures length { length room.new ≡ length room.old }
{
    let mut at = start;
    for time in 0..times {
        let end = put_piece(room, at, piece, time.wrapping_mul(step));
        // An empty piece, or one that there is no place for: so are all that follow.
        if end == at {
            break;
        }
        at = end;
    }
    at
}

// All pieces from the beginning of the room on, but for those that it has no place for. How far they reach.
pub fn lay(case: &mut Case<'_>, room: &mut [u8]) -> usize
    ensures reach { result ≤ length room.new }
    ensures length { length room.new ≡ length room.old }
    ensures same { case.new.bytes ≡ case.old.bytes }
    ensures read { case.new.at ≤ case.old.at + 16712956 }
{
    let mut reach: usize = 0;
    for _ in 0..case.byte() {
        let times = case.number();
        let step = case.number();
        let length = case.number();
        let piece = case.part(usize::from(length));
        reach = put_pieces(room, reach, piece, times, step);
    }
    reach
}

#[cfg(test)]
mod tests {
    use super::*;
    use std::test::Fail;

    #[test]
    fn a_piece_thrice_and_one_cut(rt: HostRuntime) -> Result<(), Fail> {
        let mut case = Case::new(&[2, 3, 0, 1, 0, 3, 0, 9, 255, 0, 1, 0, 0, 0, 2, 0, 7]);
        let mut room = [5u8; 11];
        assert_eq!(rt; lay(&mut case, &mut room), 10);
        let laid = [9, 255, 0, 9, 0, 1, 9, 1, 1, 7, 5];
        assert_eq!(rt; room.as_slice(), laid.as_slice());
        assert_eq!(rt; case.at, 18);
        Ok(())
    }

    #[test]
    fn a_piece_too_long_is_passed_over(rt: HostRuntime) -> Result<(), Fail> {
        let mut case = Case::new(&[2, 2, 0, 1, 0, 3, 0, 9, 255, 0, 1, 0, 0, 0, 1, 0, 7]);
        let mut room = [5u8; 5];
        assert_eq!(rt; lay(&mut case, &mut room), 4);
        assert_eq!(rt; room.as_slice(), [9, 255, 0, 7, 5].as_slice());
        assert_eq!(rt; case.at, 17);
        Ok(())
    }
}
