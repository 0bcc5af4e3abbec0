// What a memory of a case is made of, and a memory filled.
ghost use Rattle.std.specs.Prelude.{ℕ, ◌≡◌, ◌+◌, ◌*◌, ◌<◌, ◌≤◌, min, length, drop};
ghost use Rattle.std.proofs.Common.{rules};
ghost use Rattle.basis.specs.Number.{number_at};

use crate::Case;

// A byte, or a cell of two bytes.
pub trait Element: Copy {
    ghost SIZE: { ℕ };

    ghost value: { Self → ℕ };

    // How many bytes it has.
    const SIZE: usize;

    // The number that it is.
    fn number(&self) -> u64
        ensures { (result ≡ value self.now) × (result < 65536) };

    // The next of a case.
    fn next(case: &mut Case<'_>) -> Self
        ensures { case.new.bytes ≡ case.old.bytes };

    ghost not_empty: { 0 < SIZE };

    ghost short: { SIZE ≤ 8 };
}

impl Element for u8 {
    ghost SIZE = { 1 };

    ghost value = { λ n. n };

    const SIZE: usize = 1;

    fn number(&self) -> u64 {
        u64::from(*self)
    }

    fn next(case: &mut Case<'_>) -> u8 {
        case.byte()
    }

    ghost not_empty = { Prim.search rules };

    ghost short = { Prim.search rules };
}

impl Element for u16 {
    ghost SIZE = { 2 };

    ghost value = { λ n. n };

    const SIZE: usize = 2;

    fn number(&self) -> u64 {
        u64::from(*self)
    }

    fn next(case: &mut Case<'_>) -> u16 {
        case.number()
    }

    ghost not_empty = { Prim.search rules };

    ghost short = { Prim.search rules };
}

// The first n elements of the room, or all that it has, hold those given, again and again, or 0 where none is given, and the rest stays. How many those
// first are.
pub fn fill<T: Element>(given: &[u8], n: usize, room: &mut [T]) -> usize
    ensures reach { result ≡ min n (length room.old) }
    ensures length { length room.new ≡ length room.old }
    ensures rest { drop result room.new ≡ drop result room.old }
{
    let end = n.min(room.len());
    // One is given, or none, which is read as 0.
    if given.len() < 2 * T::SIZE {
        let element = T::next(&mut Case::new(given));
        for place in room[..end].iter_mut() {
            *place = element;
        }
        return end;
    }
    let elements = given.chunks_exact(T::SIZE).cycle();
    for (place, element) in room[..end].iter_mut().zip(elements) {
        *place = T::next(&mut Case::new(element));
    }
    end
}

impl Case<'_> {
    // A memory of n elements at the beginning of the room: how many are given (two bytes), and those, again and again, or 0. Its length: n, or the
    // room's if that is less.
    pub fn memory<T: Element>(&mut self, n: usize, room: &mut [T]) -> usize
        ensures reach { result ≡ min n (length room.old) }
        ensures length { length room.new ≡ length room.old }
        ensures rest { drop result room.new ≡ drop result room.old }
        ensures same { self.new.bytes ≡ self.old.bytes }
        ensures whole { self.old.at + 2 ≤ length self.old.bytes.now → self.new.at ≡ min (self.old.at + 2 + T.SIZE * number_at 2 self.old.bytes.now self.old.at) usize.MAX }
        ensures cut { length self.old.bytes.now < self.old.at + 2 → self.new.at ≡ min (self.old.at + 2) usize.MAX }
    {
        let count = usize::from(self.number());
        let given = self.part(T::SIZE * count);
        fill(given, n, room)
    }
}

#[cfg(test)]
mod tests {
    use super::*;
    use std::test::Fail;

    #[test]
    fn what_is_given_repeats(rt: HostRuntime) -> Result<(), Fail> {
        let mut cells = [7u16; 4];
        assert_eq!(rt; fill(&[1, 2, 3, 4, 5], 3, &mut cells), 3);
        assert_eq!(rt; cells.as_slice(), [0x0201, 0x0403, 0x0201, 7].as_slice());
        let mut nothing_given = [7u8; 3];
        assert_eq!(rt; fill(&[], 2, &mut nothing_given), 2);
        assert_eq!(rt; nothing_given.as_slice(), [0, 0, 7].as_slice());
        Ok(())
    }

    #[test]
    fn what_is_given_fills_the_front(rt: HostRuntime) -> Result<(), Fail> {
        let mut room = [7u8; 5];
        assert_eq!(rt; fill(&[1, 2], 3, &mut room), 3);
        assert_eq!(rt; room.as_slice(), [1, 2, 1, 7, 7].as_slice());
        assert_eq!(rt; fill(&[3], 9, &mut room), 5);
        assert_eq!(rt; room.as_slice(), [3, 3, 3, 3, 3].as_slice());
        Ok(())
    }

    #[test]
    fn two_cells_given(rt: HostRuntime) -> Result<(), Fail> {
        let mut case = Case::new(&[2, 0, 1, 2, 3, 4, 5]);
        let mut cells = [7u16; 4];
        assert_eq!(rt; case.memory(3, &mut cells), 3);
        assert_eq!(rt; cells.as_slice(), [0x0201, 0x0403, 0x0201, 7].as_slice());
        assert_eq!(rt; case.at, 6);
        Ok(())
    }
}
