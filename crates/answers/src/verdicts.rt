// What the verifier says.
ghost use Rattle.std.specs.Prelude.{◌≡◌};
ghost use Rattle.verifier.specs.Verify.{judged_in};
ghost use Rattle.answers.specs.Verdicts.{verdict_in};

use crate::KhxVerdict;
use verifier::Rejected;

// Accepted, or the refusal's number, with the address of the instruction that it names.
impl From<Result<(), Rejected>> for KhxVerdict {
    ghost from_gives = { λ verdict k. k ≡ verdict_in (judged_in verdict) };

    fn from(verdict: Result<(), Rejected>) -> KhxVerdict {
        match verdict {
            Ok(()) => KhxVerdict { refusal: 0, at: 0 },
            Err(Rejected::Before(why)) => KhxVerdict {
                refusal: usize::from(why),
                at: 0,
            },
            Err(Rejected::At(why, at)) => KhxVerdict {
                refusal: usize::from(why),
                at,
            },
        }
    }
}
