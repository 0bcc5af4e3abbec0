// What an instruction leads to at a depth, before it is run: a refusal, or its successors, by its way and the stack check.
#![tactic(auto)]

ghost use Rattle.std.specs.Prelude.{◌≡◌, ℕ};
ghost use Rattle.basis.specs.Refusal.{number_of, answer_by};
ghost use Rattle.basis.specs.declared.refusal.Refusal.{Refusal};
ghost use Rattle.look.specs.Look.{is_nine, along, on_way, outcome_by, outcome_in};

use basis::Refusal;
use isa::Way;

// No successor; one, with the depth there; or the next instruction and a target, with their depth.
#[derive(Clone, Copy)]
pub enum Look {
    Nowhere,
    One(usize, usize),
    Two(usize, usize, usize),
}

// The codes that the verifier refuses whatever the depth.
fn is_nine(way: Way) -> bool
    ensures { result ≡ is_nine way }
{
    matches!(way, Way::Call(_) | Way::Taken(_))
}

// Where a way leads at the depth after its instruction.
fn along_way(next: usize, depth: usize, way: Way) -> Result<Look, Refusal>
    ensures { outcome_in result ≡ along next depth way }
{
    match way {
        Way::Stop | Way::System(0) => Ok(Look::Nowhere),
        Way::Next => Ok(Look::One(next, depth)),
        Way::Jump(x) => Ok(Look::One(x as usize, depth)),
        Way::Branch(_, x) => Ok(Look::Two(next, x as usize, depth)),
        Way::Call(_) | Way::Taken(_) => Err(Refusal::Untraced),
        Way::System(_) | Way::Extension(_) => Err(Refusal::NoFunction),
    }
}

// Where a way leads, the stack check's answer at hand, by whatever error it refuses.
pub fn on_way<E: From<Refusal> + Drop>(
    next: usize,
    way: Way,
    after: Result<usize, E>,
) -> Result<Look, E>
    ensures { (number : E → ℕ) → ((why : Refusal) (e : E) → E.from_gives why e → number e ≡ number_of why) → outcome_by number result ≡ on_way next way (answer_by number after) }
{
    if is_nine(way) {
        return Err(E::from(Refusal::Untraced));
    }
    let depth = after?;
    Ok(along_way(next, depth, way)?)
}
