// What an operation does to the stack and the data, and where it leads.
#![tactic(auto)]

// What an operation that does not fault leads to: it goes on at an address with a depth, or it halts with a depth.
#[derive(Clone, Copy)]
pub enum Move {
    To(usize, usize),
    Halt(usize),
}
