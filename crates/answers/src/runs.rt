// States, and what a run came to.
ghost use Rattle.std.specs.Prelude.{◌≡◌, ℕ, List};
ghost use Rattle.machine.specs.Run.{ran_outcome};
ghost use Rattle.answers.specs.Runs.{status_of, state_of, state_in, ran_in};

use crate::{KhxRan, KhxState};
use machine::{Ran, State, Status, Unrun};

// The status that a number and a fault's number say: anything but running and halted is faulted.
// Stays: the C interface: a host hands in any two numbers, and each pair has a status.
#[tactic(auto, unfolding(crate::specs::Runs::status_of))]
fn status_of(status: usize, fault: usize) -> Status
    ensures { result ≡ status_of status fault }
{
    match status {
        0 => Status::Running,
        1 => Status::Halted,
        _ => Status::Faulted(fault),
    }
}

// The state that a host hands in.
impl From<KhxState> for State {
    ghost from_gives = { λ given s. s ≡ state_of given };

    fn from(given: KhxState) -> State {
        State {
            address: given.address,
            depth: given.depth,
            status: status_of(given.status, given.fault),
        }
    }
}

// The state that is handed back.
impl From<State> for KhxState {
    ghost from_gives = { λ s k. k ≡ state_in s };

    fn from(s: State) -> KhxState {
        let (status, fault) = match s.status {
            Status::Running => (0, 0),
            Status::Halted => (1, 0),
            Status::Faulted(fault) => (2, fault),
        };
        KhxState {
            address: s.address,
            depth: s.depth,
            status,
            fault,
        }
    }
}

// The steps taken and the state, or the refusal's number and the state as it was.
impl From<Result<Ran, Unrun>> for KhxRan {
    ghost from_gives = { λ answer k. (mem cells : List ℕ) → (k, mem, cells) ≡ ran_in (ran_outcome answer mem cells) };

    fn from(answer: Result<Ran, Unrun>) -> KhxRan {
        match answer {
            Ok(ran) => KhxRan {
                refusal: 0,
                steps: ran.steps,
                state: KhxState::from(ran.state),
            },
            Err(unrun) => KhxRan {
                refusal: usize::from(unrun.refusal),
                steps: 0,
                state: KhxState::from(unrun.state),
            },
        }
    }
}
