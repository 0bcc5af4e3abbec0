// The C face of the machine, its answer as numbers: the run.
#![tactic(auto)]

ghost use Rattle.std.specs.Prelude.{◌≡◌};
ghost use Rattle.machine.specs.Machine.{machine};
ghost use Rattle.machine.specs.Run.{outcome_of};
ghost use Rattle.answers.specs.Runs.{state_of, ran_in};

use answers::{KhxRan, KhxState};
use machine::State;

// At most `budget` steps.
#[unsafe(no_mangle)]
pub extern "C" fn khx_run(
    state: KhxState,
    program: &[u8],
    data: &mut [u8],
    cells: &mut [u16],
    budget: u32,
) -> KhxRan
    ensures { (result, «data».new, cells.new) ≡ ran_in (outcome_of budget program.now (machine (state_of state) «data».old cells.old)) }
{
    KhxRan::from(State::from(state).run(program, data, cells, budget))
}
