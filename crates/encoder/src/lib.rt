// Writing one instruction into a lent room.
#![tactic(auto)]

ghost use Rattle.std.specs.Prelude.{◌≡◌, true, ◌+◌, ◌^◌, ◌≤◌, length, ltb};
ghost use Rattle.std.proofs.lemmas.List.Edits.{sets};
ghost use Rattle.basis.specs.Answer.{seen};
ghost use Rattle.basis.specs.Refusal.{answer_of};
ghost use Rattle.basis.specs.Room.{room_after};
ghost use Rattle.forms.specs.Form.{form_of, width0, width1, width2, width3};
ghost use Rattle.encoder.specs.Encode.{count_good, values_good, well_formed, first_in, value_bytes, encoded_of, encode_of};

use basis::Refusal;
use forms::{Form, flags_end, form_of, limit_in, value_width, width_in};
use isa::Instruction;

// The count is one that the form has.
fn count_good(form: Form, count: u8) -> bool
    ensures { result ≡ count_good form count }
{
    match form {
        Form::Plain => count == 0,
        Form::Byte => count == 0,
        Form::Shift => count == 0,
        Form::Word => count == 0,
        Form::Short => count == 0,
        Form::Values => 1 <= count && count <= 4,
        Form::Illegal => count == 0,
    }
}

// A value fits its width.
fn value_good(v: u16, w: usize) -> bool
    requires { w ≤ 2 }
    ensures { result ≡ ltb v (256 ^ w) }
{
    if w == 0 {
        return v < 1;
    }
    if w == 1 {
        return v < 256;
    }
    true
}

// The values fit their widths.
#[tactic(auto, using(forms::proofs::Widths::narrow), unfolding(crate::specs::Encode::values_good))]
fn values_good(i: Instruction) -> bool
    ensures { result ≡ values_good i }
{
    let count = i.count;
    let flags = i.flags;
    value_good(i.v0, value_width(0, count, flags))
        && value_good(i.v1, value_width(1, count, flags / 2))
        && value_good(i.v2, value_width(2, count, flags / 4))
        && value_good(i.v3, value_width(3, count, flags / 8))
}

// The instruction can be written.
#[tactic(auto, unfolding(crate::specs::Encode::well_formed))]
fn well_formed(i: Instruction) -> bool
    ensures { result ≡ well_formed i }
{
    let form = form_of(i.code);
    (i.number as u32) < limit_in(form)
        && count_good(form, i.count)
        && i.flags < flags_end(i.count)
        && values_good(i)
}

// The first byte of a well-formed instruction.
// Stays: `well_formed i` as a clause of three functions: a struct of an instruction and that fact is no plainer, it would be taken apart for each field.
fn first_of(i: Instruction) -> u8
    requires { well_formed i ≡ true }
    ensures { result ≡ first_in (form_of i.code) i }
{
    let f = form_of(i.code);
    match f {
        Form::Plain => i.code,
        Form::Byte => i.code,
        Form::Shift => i.code,
        Form::Word => i.code,
        Form::Short => (0x80 + i.number) as u8,
        Form::Values => 0xC0 + i.flags * 4 + (i.count - 1),
        Form::Illegal => i.code,
    }
}

// Puts the bytes of the values at a place.
#[tactic(auto, using(forms::proofs::Widths::narrow, basis::proofs::Stores::parts))]
fn put_values(i: Instruction, room: &mut [u8], at: usize)
    requires { at + width0 i.count i.flags + width1 i.count i.flags + width2 i.count i.flags + width3 i.count i.flags ≤ length room.old }
    ensures { room.new ≡ sets room.old at (value_bytes i) }
{
    let count = i.count;
    let flags = i.flags;
    let w0 = value_width(0, count, flags);
    let w1 = value_width(1, count, flags / 2);
    let w2 = value_width(2, count, flags / 4);
    let w3 = value_width(3, count, flags / 8);
    let a1 = at + w0;
    let a2 = a1 + w1;
    let a3 = a2 + w2;
    basis::put_number(w0, room, at, i.v0);
    basis::put_number(w1, room, a1, i.v1);
    basis::put_number(w2, room, a2, i.v2);
    basis::put_number(w3, room, a3, i.v3);
}

// Puts the bytes of a well-formed instruction at the start of a room that has place for them.
fn put_bytes(i: Instruction, room: &mut [u8])
    requires { (well_formed i ≡ true) × (length (encoded_of i) ≤ length room.old) }
    ensures { room.new ≡ sets room.old 0 (encoded_of i) }
{
    let w = width_in(form_of(i.code));
    let at = 1 + w;
    room[0] = first_of(i);
    basis::put_number(w, room, 1, i.number);
    put_values(i, room, at);
}

// The length of a well-formed instruction.
fn encoded_length(i: Instruction) -> usize
    requires { well_formed i ≡ true }
    ensures { result ≡ length (encoded_of i) }
{
    let flags = i.flags;
    1 + width_in(form_of(i.code)) + i.count as usize + u8::count_ones(flags) as usize
}

// Writes an instruction at the start of a room, or refuses and leaves the room as it was.
#[tactic(auto, using(basis::proofs::Stores::starts), unfolding(crate::specs::Encode::encode_of))]
pub fn encode(i: Instruction, room: &mut [u8]) -> Result<usize, Refusal>
    ensures result_value { answer_of result ≡ seen length (encode_of i (length room.old)) }
    ensures room_after { room.new ≡ room_after (encode_of i (length room.old)) room.old }
{
    if !well_formed(i) {
        return Err(Refusal::Unwritable);
    }
    let n = encoded_length(i);
    if room.len() < n {
        return Err(Refusal::ShortRoom);
    }
    put_bytes(i, room);
    Ok(n)
}
