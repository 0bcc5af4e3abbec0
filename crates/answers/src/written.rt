// What was written into a room.
ghost use Rattle.std.specs.Prelude.{◌≡◌};
ghost use Rattle.basis.specs.Refusal.{answer_of};
ghost use Rattle.answers.specs.Written.{written_in};

use crate::KhxWritten;
use basis::Refusal;

// The length, or the refusal's number.
impl From<Result<usize, Refusal>> for KhxWritten {
    ghost from_gives = { λ answer k. k ≡ written_in (answer_of answer) };

    fn from(answer: Result<usize, Refusal>) -> KhxWritten {
        match answer {
            Ok(length) => KhxWritten { refusal: 0, length },
            Err(why) => KhxWritten {
                refusal: usize::from(why),
                length: 0,
            },
        }
    }
}
