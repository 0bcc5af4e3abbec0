// The operands of an instruction, as a line shows them.
#![tactic(auto)]

ghost use Rattle.std.specs.Prelude.{◌≡◌, ◌≤◌, length};
ghost use Rattle.text.specs.Pen.{Puts, HasPlace};
ghost use Rattle.operands.specs.Operands.{operand_of, shown_in, sized_of, operands_of};

use forms::{Form, form_of, value_width};
use isa::Instruction;
use text::Pen;

// How many bytes of a form's number are shown.
fn shown_in(form: Form) -> usize
    ensures { result ≡ shown_in form }
{
    match form {
        Form::Byte | Form::Shift | Form::Short => 1,
        Form::Word => 2,
        Form::Plain | Form::Values | Form::Illegal => 0,
    }
}

// The length in a line of an operand of `width` bytes.
// Stays: a width with its bound, as basis has it.
#[tactic(auto, using(crate::proofs::Shown::lengths))]
fn operand_length(width: usize) -> usize
    requires { width ≤ 2 }
    ensures { (result ≡ length (operand_of width 0)) × (result ≤ 6) }
{
    if width == 0 { 0 } else { 2 + 2 * width }
}

// Puts an operand of `width` bytes.
pub fn put_operand(width: usize, value: u16, pen: &mut Pen)
    requires { (width ≤ 2) × HasPlace pen.old (length (operand_of width 0)) }
    ensures { Puts (operand_of width value) pen.old pen.new }
{
    if width == 0 {
        return;
    }
    pen.put(b' ');
    pen.put(b'$');
    pen.put_hex(width, value);
}

// The operands of an instruction, each with the bytes of it that are shown: its number, and its values.
fn sized(i: Instruction) -> [(usize, u16); 5]
    ensures { result ≡ sized_of i }
{
    let count = i.count;
    let flags = i.flags;
    [
        (shown_in(form_of(i.code)), i.number),
        (value_width(0, count, flags), i.v0),
        (value_width(1, count, flags / 2), i.v1),
        (value_width(2, count, flags / 4), i.v2),
        (value_width(3, count, flags / 8), i.v3),
    ]
}

// The length in a line of the operands of an instruction.
pub fn operands_length(i: Instruction) -> usize
    ensures { (result ≡ length (operands_of i)) × (result ≤ 30) }
{
    let mut n = 0;
    for (width, _) in sized(i) {
        n += operand_length(width);
    }
    n
}

// Puts the operands of an instruction.
pub fn put_operands(i: Instruction, pen: &mut Pen)
    requires { HasPlace pen.old (length (operands_of i)) }
    ensures { Puts (operands_of i) pen.old pen.new }
{
    for (width, value) in sized(i) {
        put_operand(width, value, pen);
    }
}
