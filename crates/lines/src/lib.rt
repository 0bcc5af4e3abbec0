// One line of a listing, put by a pen.
#![tactic(auto)]

ghost use Rattle.std.specs.Prelude.{◌≡◌, ℕ, ◌≤◌, length};
ghost use Rattle.basis.specs.Refusal.{answer_by};
ghost use Rattle.text.specs.Pen.{Puts, HasPlace};
ghost use Rattle.lines.specs.Line.{said_of, step_of, line_of};

use isa::Instruction;
use names::Names;
use operands::{operands_length, put_operand, put_operands};
use text::Pen;

// The length of what a line says.
#[tactic(auto, unfolding(crate::specs::Line::said_of))]
fn said_length<E>(names: Names, answer: &Result<(Instruction, usize), E>) -> usize
    ensures { (number : E → ℕ) → (result ≡ length (said_of (answer_by number answer.now) 0)) × (result ≤ 285) }
{
    match answer {
        Ok((i, _)) => names.length(i.code) + operands_length(*i),
        Err(_) => 8,
    }
}

// Puts what a line says of the decoder's answer at a byte.
#[tactic(auto, using(crate::proofs::Written::written), unfolding(crate::specs::Line::said_of))]
fn put_said<E>(names: Names, answer: &Result<(Instruction, usize), E>, byte: u8, pen: &mut Pen)
    requires { (number : E → ℕ) × HasPlace pen.old (length (said_of (answer_by number answer.now) 0)) }
    ensures { (number : E → ℕ) → Puts (said_of (answer_by number answer.now) byte) pen.old pen.new }
{
    match answer {
        Ok((i, _)) => {
            names.put(i.code, pen);
            put_operands(*i, pen);
        }
        Err(_) => {
            pen.put_text(b"byte");
            put_operand(1, byte as u16, pen);
        }
    }
}

// How many bytes of the program a line is about.
pub fn step_of<E>(answer: &Result<(Instruction, usize), E>) -> usize
    ensures { (number : E → ℕ) → result ≡ step_of (answer_by number answer.now) }
{
    match answer {
        Ok((_, n)) => *n,
        Err(_) => 1,
    }
}

// The length of the line of a decoder's answer.
pub fn line_length<E>(names: Names, answer: &Result<(Instruction, usize), E>) -> usize
    ensures { (number : E → ℕ) → (result ≡ length (line_of 0 (answer_by number answer.now) 0)) × (result ≤ 291) }
{
    6 + said_length(names, answer)
}

// Puts the line of the decoder's answer at an address, where `byte` stands.
#[tactic(auto, using(crate::proofs::Written::written), unfolding(crate::specs::Line::line_of))]
pub fn put_line<E>(
    names: Names,
    address: u16,
    answer: &Result<(Instruction, usize), E>,
    byte: u8,
    pen: &mut Pen,
)
    requires { (number : E → ℕ) × HasPlace pen.old (length (line_of 0 (answer_by number answer.now) 0)) }
    ensures { (number : E → ℕ) → Puts (line_of address (answer_by number answer.now) byte) pen.old pen.new }
{
    pen.put_hex(2, address);
    pen.put(b' ');
    put_said(names, answer, byte, pen);
    pen.put(b'\n');
}
