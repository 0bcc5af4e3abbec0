// Runs every case on standard input and prints every answer, one line each: the steps, the state, every data byte, every cell.
// A case is `R`; the program: its length and how much of it is given (two bytes each), the bytes given; the data: the same,
// its length in four bytes; the cells: the same, the cells given in two bytes each; the state: address (four), depth (two),
// status (0 running, 1 halted, 2 faulted), fault number; the budget (four). Numbers have their low byte first. A memory that
// is longer than what is given of it repeats that.
#![tactic(auto)]

use machine::{Ran, State, Status, Unrun};
use std::io;
use vectors::said::{Memory, Refused};
use vectors::{Case, LONGEST, rooms};

fn say_state(rt: &impl Print, state: State) -> io::Result<()> {
    print!(rt; " {} {}", state.address, state.depth)?;
    match state.status {
        Status::Running => print!(rt; " running"),
        Status::Halted => print!(rt; " halted"),
        Status::Faulted(number) => print!(rt; " faulted:{number}"),
    }
}

fn say_answer(rt: &impl Print, answer: Result<Ran, Unrun>) -> io::Result<()> {
    match answer {
        Ok(ran) => {
            print!(rt; "ok {}", ran.steps)?;
            say_state(rt, ran.state)
        }
        Err(unrun) => {
            rt.print(Refused::from(unrun.refusal))?;
            say_state(rt, unrun.state)
        }
    }
}

fn status(case: &mut Case<'_>) -> Status {
    let kind = case.byte();
    let fault = case.byte();
    match kind {
        0 => Status::Running,
        1 => Status::Halted,
        _ => Status::Faulted(usize::from(fault)),
    }
}

fn state(case: &mut Case<'_>) -> State {
    State {
        address: case.long() as usize,
        depth: usize::from(case.number()),
        status: status(case),
    }
}

// A budget of one asks the single step. The program, the data and the cells stand in the rooms that are lent for them.
fn ask_machine(
    rt: &impl Print,
    case: &mut Case<'_>,
    program: &mut [u8],
    data: &mut [u8],
    cells: &mut [u16],
) -> io::Result<()> {
    let length = case.number();
    let end = case.memory(usize::from(length), program);
    let program = &program[..end];
    let length = case.long();
    let end = case.memory(length as usize, data);
    let data = &mut data[..end];
    let length = case.number();
    let end = case.memory(usize::from(length), cells);
    let cells = &mut cells[..end];
    let state = state(case);
    let answer = match case.long() {
        1 => state.step(program, data, cells),
        budget => state.run(program, data, cells, budget),
    };
    say_answer(rt, answer)?;
    print!(rt; " {}", Memory(data, LONGEST))?;
    print!(rt; " {}", Memory(cells, LONGEST))
}

// The answer to a case; whether there is its kind.
fn ask(
    rt: &impl Print,
    kind: u8,
    case: &mut Case<'_>,
    program: &mut [u8],
    data: &mut [u8],
    cells: &mut [u16],
) -> io::Result<bool> {
    match kind {
        b'R' => ask_machine(rt, case, program, data, cells)?,
        _ => return Ok(false),
    }
    Ok(true)
}

fn main(rt: HostRuntime) -> io::Result<()> {
    let mut program = rooms::bytes();
    let mut data = rooms::bytes();
    let mut cells = rooms::cells();
    vectors::run_cases(&rt, |kind, case| {
        ask(&rt, kind, case, &mut program, &mut data, &mut cells)
    })
}
