// A reader: it keeps hold of a lent program, and gives one instruction at a time.
#![tactic(auto)]

ghost use Rattle.std.specs.Prelude.{◌≡◌};
ghost use Rattle.basis.specs.Refusal.{answer_of};
ghost use Rattle.decoder.specs.Decode.{decode_of};
ghost use Rattle.reader.specs.Turn.{turn_of, turn_answer};

use basis::Refusal;
use isa::Instruction;

// A program, and the address of the next instruction to be read.
// Stays: what may not change (docs/DECISIONS.md names `new`, `next`, `peek`, `first` and `asked` as functions of the module).
#[derive(Clone, Copy)]
pub struct Reader<'a> {
    pub program: &'a [u8],
    pub at: usize,
}

// What a reader gives: the decoder's answer at its address, and the address where it then stands.
#[derive(Clone, Copy)]
pub struct Turn {
    pub answer: Result<(Instruction, usize), Refusal>,
    pub at: usize,
}

// What a reader of a program gives that stands at an address.
#[tactic(auto, using(decoder::proofs::Lengths::read_length))]
pub fn turn_at(program: &[u8], at: usize) -> Turn
    ensures { turn_answer result.answer result.at ≡ turn_of program.now at }
{
    let answer = decoder::decode(program, at);
    match answer {
        Ok((_, n)) => Turn { answer, at: at + n },
        Err(_) => Turn { answer, at },
    }
}

// A reader of a program, at address 0.
pub fn new(program: &[u8]) -> Reader<'_>
    ensures { (result.program ≡ program.entry) × (result.at ≡ 0) }
{
    Reader { program, at: 0 }
}

// What stands where a reader is; the reader stays.
pub fn peek(r: Reader) -> Result<(Instruction, usize), Refusal>
    ensures { answer_of result ≡ decode_of r.entry.program.now r.entry.at }
{
    decoder::decode(r.program, r.at)
}

// What stands where a reader is; the reader moves past it, and on a refusal it stays.
pub fn next(r: &mut Reader) -> Result<(Instruction, usize), Refusal>
    ensures { (r.new.program ≡ r.old.program) × (turn_answer result r.new.at ≡ turn_of r.old.program.now r.old.at) }
{
    let t = turn_at(r.program, r.at);
    r.at = t.at;
    t.answer
}

// What a new reader of a program stands at; a caller of this holds no reader.
pub fn first(program: &[u8]) -> Result<(Instruction, usize), Refusal>
    ensures { answer_of result ≡ decode_of program.now 0 }
{
    peek(new(program))
}

// What a reader that stands at an address gives, and where it then stands; a caller of this holds no reader.
pub fn asked(program: &[u8], at: usize) -> Turn
    ensures { turn_answer result.answer result.at ≡ turn_of program.now at }
{
    let mut r = Reader { program, at };
    let answer = next(&mut r);
    Turn { answer, at: r.at }
}
