// The forms of instructions: what the first byte says of the bytes that follow it.
#![tactic(auto)]

ghost use Rattle.std.specs.Prelude.{◌≡◌, ◌^◌, ◌≤◌};
ghost use Rattle.forms.specs.Form.{form_of, code_of, width_in, limit_in, count_in, flags_in, value_width};

// What follows the first byte: nothing, a number of one byte, a shift byte, a number of two bytes; or the first byte
// itself holds a six-bit number, or the count and the flags of one to four values.
// Stays: `Illegal` is one of seven forms, with a width and a limit as the others have (the clauses of `width_in` and `limit_in`), and no missing answer.
#[derive(Clone, Copy, PartialEq, Eq, Debug)]
pub enum Form {
    Plain,
    Byte,
    Shift,
    Word,
    Short,
    Values,
    Illegal,
}

// The form of a code.
#[tactic(auto, unfolding(crate::specs::Form::form_of))]
pub fn form_of(code: u8) -> Form
    ensures { result ≡ form_of code }
{
    match code {
        0x00..=0x24 => Form::Plain,
        0x25..=0x30 | 0x33..=0x40 => Form::Byte,
        0x31..=0x32 => Form::Shift,
        0x41..=0x5A => Form::Word,
        0x80 => Form::Short,
        0xC0 => Form::Values,
        _ => Form::Illegal,
    }
}

// The code of a first byte.
// Stays: what may not change (the edit code_of_80, no wrong body, is refused in these tests alone).
pub fn code_of(first: u8) -> u8
    ensures { result ≡ code_of first }
{
    if first < 0x80 {
        return first;
    }
    if first < 0xC0 {
        #[tactic(auto, unfolding(crate::specs::Form::code_of))]
        return 0x80;
    }
    0xC0
}

// How many bytes after the first hold the number.
pub fn width_in(form: Form) -> usize
    ensures { result ≡ width_in form }
{
    match form {
        Form::Plain => 0,
        Form::Byte => 1,
        Form::Shift => 1,
        Form::Word => 2,
        Form::Short => 0,
        Form::Values => 0,
        Form::Illegal => 0,
    }
}

// The number is below this.
pub fn limit_in(form: Form) -> u32
    ensures { result ≡ limit_in form }
{
    match form {
        Form::Plain => 1,
        Form::Byte => 256,
        Form::Shift => 16,
        Form::Word => 65536,
        Form::Short => 64,
        Form::Values => 1,
        Form::Illegal => 0,
    }
}

// How many values are pushed.
pub fn count_in(form: Form, first: u8) -> u8
    ensures { result ≡ count_in form first }
{
    match form {
        Form::Values => first % 4 + 1,
        _ => 0,
    }
}

// The flags of the values.
pub fn flags_in(form: Form, first: u8) -> u8
    ensures { result ≡ flags_in form first }
{
    match form {
        Form::Values => first / 4 % 16,
        _ => 0,
    }
}

// Two to the count: the flags of that many values are below it.
pub fn flags_end(count: u8) -> u8
    requires { count ≤ 4 }
    ensures { result ≡ 2 ^ count }
{
    1 << count
}

// How many bytes value k of `count` has; `flags` begin with its flag.
#[tactic(auto, unfolding(crate::specs::Form::value_width))]
pub fn value_width(k: u8, count: u8, flags: u8) -> usize
    ensures { result ≡ value_width k count flags }
{
    if k < count {
        1 + (flags % 2) as usize
    } else {
        0
    }
}
