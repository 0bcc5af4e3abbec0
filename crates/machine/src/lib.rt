// The machine: a state that is handed in and handed back, stepped over lent memories.
#![tactic(auto)]

ghost use Rattle.std.specs.Prelude.{◌≡◌, ◌≤◌, length};
ghost use Rattle.basis.specs.Refusal.{answer_of};
ghost use Rattle.machine.specs.Machine.{machine, fresh, state_after, step_of};
ghost use Rattle.machine.specs.Run.{came, run_of, outcome_of, ran_outcome};

use basis::Refusal;
use effects::Move;

// Running, halted, or faulted with its number.
// Stays: a number and no `Refusal`, by the C interface and `run`'s clause: a host may hand in any number, and has it back.
#[derive(Clone, Copy)]
pub enum Status {
    Running,
    Halted,
    Faulted(usize),
}

// Any state can be handed in: any address, any depth, any status.
#[derive(Clone, Copy)]
pub struct State {
    pub address: usize,
    pub depth: usize,
    pub status: Status,
}

// Where a run came to, and the steps that it took.
#[derive(Clone, Copy)]
pub struct Ran {
    pub state: State,
    pub steps: u32,
}

// Why a run is refused, and the state as it was.
#[derive(Clone, Copy)]
pub struct Unrun {
    pub refusal: Refusal,
    pub state: State,
}

impl State {
    // The state with which a program starts.
    pub fn new() -> State
        ensures { result ≡ fresh }
    {
        State {
            address: 0,
            depth: 0,
            status: Status::Running,
        }
    }

    // The state after what became of an operation.
    fn moved(self, made: Result<Move, Refusal>) -> State
        ensures { result ≡ state_after self (answer_of made) }
    {
        match made {
            Ok(Move::To(address, depth)) => State {
                address,
                depth,
                status: Status::Running,
            },
            Ok(Move::Halt(depth)) => State {
                address: self.address,
                depth,
                status: Status::Halted,
            },
            Err(why) => State {
                address: self.address,
                depth: self.depth,
                status: Status::Faulted(usize::from(why)),
            },
        }
    }

    // The state after one step, which is taken as if the state were running.
    // Stays: the program's bound as a clause: a type for it is no plainer, `run` and the verifier would each make one and every reader take it apart.
    fn stepped(self, program: &[u8], data: &mut [u8], cells: &mut [u16]) -> State
        requires { (length program.now ≤ 16384) × (self.depth ≤ length cells.old) }
        ensures { machine result «data».new cells.new ≡ step_of program.now (machine self «data».old cells.old) }
    {
        let made = dispatch::act(program, self.address, self.depth, data, cells);
        self.moved(made)
    }

    // The run over memories of allowed sizes.
    fn went(self, program: &[u8], data: &mut [u8], cells: &mut [u16], budget: u32) -> Ran
        requires { (length program.now ≤ 16384) × (self.depth ≤ length cells.old) }
        ensures { came (machine result.state «data».new cells.new) result.steps ≡ run_of budget program.now (machine self «data».old cells.old) 0 }
    {
        let Status::Running = self.status else {
            return Ran {
                state: self,
                steps: 0,
            };
        };
        let mut state = self;
        let mut left = budget;
        // Stays: a `while`, tried as `for` and slower: loca 3.19 ns a step so, 3.44 over `0..budget`; over its `rev()` the loop's head fits no line of the cache.
        while 0 < left {
            state = state.stepped(program, data, cells);
            match state.status {
                Status::Running => left -= 1,
                Status::Halted => return Ran {
                    state,
                    steps: budget - (left - 1),
                },
                Status::Faulted(_) => return Ran {
                    state,
                    steps: budget - left,
                },
            }
        }
        Ran {
            state,
            steps: budget,
        }
    }

    // A run from this state, refused.
    fn unrun(self, refusal: Refusal) -> Unrun
        ensures { (result.refusal ≡ refusal) × (result.state ≡ self) }
    {
        Unrun {
            refusal,
            state: self,
        }
    }

    // At most `budget` steps.
    #[tactic(auto, unfolding(crate::specs::Run::outcome_of))]
    pub fn run(
        self,
        program: &[u8],
        data: &mut [u8],
        cells: &mut [u16],
        budget: u32,
    ) -> Result<Ran, Unrun>
        ensures { ran_outcome result «data».new cells.new ≡ outcome_of budget program.now (machine self «data».old cells.old) }
    {
        if 16384 < program.len() {
            return Err(self.unrun(Refusal::LongProgram));
        }
        if 65535 < data.len() {
            return Err(self.unrun(Refusal::LongData));
        }
        if 1024 < cells.len() {
            return Err(self.unrun(Refusal::LongCells));
        }
        if cells.len() < self.depth {
            return Err(self.unrun(Refusal::DeepState));
        }
        Ok(self.went(program, data, cells, budget))
    }

    // One step: a run with a budget of one.
    pub fn step(self, program: &[u8], data: &mut [u8], cells: &mut [u16]) -> Result<Ran, Unrun>
        ensures { ran_outcome result «data».new cells.new ≡ outcome_of 1 program.now (machine self «data».old cells.old) }
    {
        self.run(program, data, cells, 1)
    }
}
