// The answers of the public functions, and a machine's state, as structs of numbers that C can hold. A refusal of 0 is none.
// What each number says stands in specs/; the code makes them of the answers, and a state and an instruction of what C hands in.
// Stays: numbers for refusals, kinds and flags, by the C interface.
#![tactic(auto)]

mod instructions;
mod packs;
mod runs;
mod verdicts;
mod written;

// An instruction as a value. What the form lacks is 0. Bit i of the flags is set where value i has two bytes.
#[repr(C)]
#[derive(Clone, Copy)]
pub struct KhxInstruction {
    pub code: u8,
    pub count: u8,
    pub flags: u8,
    pub number: u16,
    pub v0: u16,
    pub v1: u16,
    pub v2: u16,
    pub v3: u16,
}

// What stands at an address: an instruction and its length, all 0 on a refusal.
#[repr(C)]
#[derive(Clone, Copy)]
pub struct KhxDecoded {
    pub refusal: usize,
    pub length: usize,
    pub instruction: KhxInstruction,
}

// The row of a first byte: length, values taken, values pushed; refused by 2, and all else 0, where no instruction begins with it.
#[repr(C)]
#[derive(Clone, Copy)]
pub struct KhxRow {
    pub refusal: usize,
    pub length: usize,
    pub taken: usize,
    pub pushed: usize,
}

// What was written into a room: its length, 0 on a refusal.
#[repr(C)]
#[derive(Clone, Copy)]
pub struct KhxWritten {
    pub refusal: usize,
    pub length: usize,
}

// A state: status 0 is running, 1 halted, 2 faulted by the fault's number.
#[repr(C)]
#[derive(Clone, Copy)]
pub struct KhxState {
    pub address: usize,
    pub depth: usize,
    pub status: usize,
    pub fault: usize,
}

// What a run came to: the steps taken, 0 on a refusal, and the state.
#[repr(C)]
#[derive(Clone, Copy)]
pub struct KhxRan {
    pub refusal: usize,
    pub steps: u32,
    pub state: KhxState,
}

// What the verifier says: accepted, or refused at an instruction, 0 where the refusal names none.
#[repr(C)]
#[derive(Clone, Copy)]
pub struct KhxVerdict {
    pub refusal: usize,
    pub at: usize,
}

// A good pack's count of entries, 0 on a refusal.
#[repr(C)]
#[derive(Clone, Copy)]
pub struct KhxChecked {
    pub refusal: usize,
    pub entries: usize,
}

// An entry where `present` is 1; where it is 0, for want of one or on a refusal, all else is 0.
#[repr(C)]
#[derive(Clone, Copy)]
pub struct KhxEntry {
    pub refusal: usize,
    pub present: usize,
    pub tag: u16,
    pub cells: u16,
    pub offset: u16,
    pub length: u16,
}

// What an admission answers: whether it is closed, how many programs have their verdict, and what refuses the pack whatever follows, 0 for
// nothing; all 0 where the memory is too short or the numbers are none that an admission has.
#[repr(C)]
#[derive(Clone, Copy)]
pub struct KhxAdmitted {
    pub refusal: usize,
    pub closed: usize,
    pub verdicts: usize,
    pub lost: usize,
}
