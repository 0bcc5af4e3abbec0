// Reading one instruction: its shape by the table, its parts by its form.
#![tactic(auto)]

ghost use Rattle.std.specs.Prelude.{◌≡◌, ◌+◌, ◌≤◌, ◌<◌, length, get_or};
ghost use Rattle.basis.specs.Refusal.{answer_of};
ghost use Rattle.forms.specs.Form.{length_of, width_in, width0, width1, width2, width3};
ghost use Rattle.decoder.specs.Decode.{number_in, with_values, head_of, decode_of};

use basis::Refusal;
use forms::{Form, code_of, count_in, flags_in, form_of, limit_in, value_width, width_in};
use isa::Instruction;
use shapes::Shapes;

// The number of the instruction that s begins with.
fn number_in(form: Form, s: &[u8]) -> u16
    requires { 1 + width_in form ≤ length s.now }
    ensures { result ≡ number_in form s.now }
{
    match form {
        Form::Plain => 0,
        Form::Byte => basis::number_at(1, s, 1),
        Form::Shift => basis::number_at(1, s, 1),
        Form::Word => basis::number_at(2, s, 1),
        Form::Short => (s[0] % 64) as u16,
        Form::Values => 0,
        Form::Illegal => 0,
    }
}

// The instruction with these parts, its values beginning at a place of s.
#[tactic(auto, using(forms::proofs::Widths::narrow))]
fn with_values(code: u8, number: u16, count: u8, flags: u8, s: &[u8], at: usize) -> Instruction
    requires { at + width0 count flags + width1 count flags + width2 count flags + width3 count flags ≤ length s.now }
    ensures { result ≡ with_values code number count flags s.now at }
{
    let w0 = value_width(0, count, flags);
    let w1 = value_width(1, count, flags / 2);
    let w2 = value_width(2, count, flags / 4);
    let w3 = value_width(3, count, flags / 8);
    let a1 = at + w0;
    let a2 = a1 + w1;
    let a3 = a2 + w2;
    let v0 = basis::number_at(w0, s, at);
    let v1 = basis::number_at(w1, s, a1);
    let v2 = basis::number_at(w2, s, a2);
    let v3 = basis::number_at(w3, s, a3);
    Instruction {
        code,
        number,
        count,
        flags,
        v0,
        v1,
        v2,
        v3,
    }
}

// What s begins with, where its first byte begins an instruction of length n.
fn read_long(n: usize, s: &[u8]) -> Result<(Instruction, usize), Refusal>
    requires { (0 < length s.now) × (n ≡ length_of (get_or s.now 0 0)) × (0 < n) }
    ensures { answer_of result ≡ head_of s.now }
{
    if s.len() < n {
        return Err(Refusal::Cut);
    }
    let first = s[0];
    let code = code_of(first);
    let form = form_of(code);
    let number = number_in(form, s);
    let limit = limit_in(form);
    if limit <= number as u32 {
        return Err(Refusal::Illegal);
    }
    let at = 1 + width_in(form);
    let i = with_values(
        code,
        number,
        count_in(form, first),
        flags_in(form, first),
        s,
        at,
    );
    Ok((i, n))
}

// What s begins with.
fn read_head(shapes: Shapes, s: &[u8]) -> Result<(Instruction, usize), Refusal>
    requires { 0 < length s.now }
    ensures { answer_of result ≡ head_of s.now }
{
    match shapes.row(s[0]) {
        Some(row) => read_long(row.length, s),
        None => Err(Refusal::Illegal),
    }
}

// The same as `decode`, for a caller that made the table of shapes once and lends it.
#[tactic(auto, unfolding(crate::specs::Decode::decode_of))]
pub fn decode_by(shapes: Shapes, program: &[u8], at: usize) -> Result<(Instruction, usize), Refusal>
    ensures { answer_of result ≡ decode_of program.now at }
{
    if 16384 < program.len() {
        return Err(Refusal::LongProgram);
    }
    if program.len() <= at {
        return Err(Refusal::PastEnd);
    }
    read_head(shapes, &program[at..])
}

// The instruction at an address of a program, and its length, or the refusal.
pub fn decode(program: &[u8], at: usize) -> Result<(Instruction, usize), Refusal>
    ensures { answer_of result ≡ decode_of program.now at }
{
    let rows = shapes::rows();
    decode_by(Shapes { rows: &rows }, program, at)
}
