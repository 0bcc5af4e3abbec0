// The words of an answer.
ghost use Rattle.std.specs.Prelude.{Some, ◌*◌, ◌≡◌, map};
ghost use Rattle.std.specs.List.{flat_map};
ghost use Rattle.basis.specs.Refusal.{number_of};
ghost use Rattle.vectors.specs.Said.{refused_text, written_text, hex_text, memory_text, checksum_of};

use crate::Element;
use basis::Refusal;
use isa::Instruction;
use std::fmt;

// `refused N`, for any number
#[derive(Clone, Copy)]
pub struct Refused(pub usize);

impl fmt::Display for Refused {
    ghost output = { λ said. Some (refused_text said.0) };

    fn fmt<W: fmt::Write>(&self, f: &mut fmt::Formatter<W>) -> fmt::Result {
        write!(f, "refused {}", self.0)
    }
}

// By the number of a refusal.
impl From<Refusal> for Refused {
    ghost from_gives = { λ why said. said.0 ≡ number_of why };

    fn from(why: Refusal) -> Refused {
        Refused(usize::from(why))
    }
}

// `ok N` or `refused N`
#[derive(Clone, Copy)]
pub struct Written(pub Result<usize, Refusal>);

impl fmt::Display for Written {
    ghost output = { λ said. Some (written_text said.0) };

    fn fmt<W: fmt::Write>(&self, f: &mut fmt::Formatter<W>) -> fmt::Result {
        match self.0 {
            Ok(n) => write!(f, "ok {n}"),
            Err(why) => write!(f, "{}", Refused::from(why)),
        }
    }
}

// `ok`, the instruction's length and all its numbers, or `refused N`
#[derive(Clone, Copy)]
pub struct Decoded(pub Result<(Instruction, usize), Refusal>);

impl fmt::Display for Decoded {
    fn fmt<W: fmt::Write>(&self, f: &mut fmt::Formatter<W>) -> fmt::Result {
        match self.0 {
            Ok((i, length)) => write!(
                f,
                "ok {length} {} {} {} {} {} {} {} {}",
                i.code, i.number, i.count, i.flags, i.v0, i.v1, i.v2, i.v3
            ),
            Err(why) => write!(f, "{}", Refused::from(why)),
        }
    }
}

// All digits of each element.
#[derive(Clone, Copy)]
struct Digits<'a, T>(&'a [T]);

impl<T: Element> fmt::Display for Digits<'_, T> {
    ghost output = { λ said. Some (flat_map (hex_text (2 * T.SIZE)) (map T.value said.0.now)) };

    fn fmt<W: fmt::Write>(&self, f: &mut fmt::Formatter<W>) -> fmt::Result {
        let width = 2 * T::SIZE;
        for element in self.0 {
            write!(f, "{:0width$x}", element.number())?;
        }
        Ok(())
    }
}

// The elements of a memory: all their digits, `-` where there are none, or `#` and their checksum where there are more than so many.
#[derive(Clone, Copy)]
pub struct Memory<'a, T>(pub &'a [T], pub usize);

impl<T: Element> fmt::Display for Memory<'_, T> {
    ghost output = { λ said. Some (memory_text said.1 (2 * T.SIZE) (map T.value said.0.now)) };

    fn fmt<W: fmt::Write>(&self, f: &mut fmt::Formatter<W>) -> fmt::Result {
        let Memory(elements, most) = *self;
        if elements.len() > most {
            write!(f, "#{}", checksum(elements))
        } else if elements.is_empty() {
            write!(f, "-")
        } else {
            write!(f, "{}", Digits(elements))
        }
    }
}

// The checksum is a number modulo a prime, to the base 65599, whose digits are the elements, each and one more.
const PRIME: u64 = 4294967291;

fn checksum<T: Element>(elements: &[T]) -> u64
    ensures { result ≡ checksum_of (map T.value elements.now) }
{
    elements.iter().fold(
        0,
        |sum: u64, x| (sum % PRIME * 65599 + x.number() + 1) % PRIME,
    )
}
