// One line of a report, put by a pen: of an entry of a pack, or of a refused pack.
#![tactic(auto)]

ghost use Rattle.std.specs.Prelude.{ℕ, ◌≡◌, ◌+◌};
ghost use Rattle.text.specs.Pen.{Puts, HasPlace};
ghost use Rattle.verifier.specs.Verify.{names, judged_by};
ghost use Rattle.verdicts.specs.Line.{decimal_of, refused_of, said_of, line_of, pack_line_of};

use text::Pen;
use verifier::Rejected;

// Puts the decimal digits of a number below 100.
// Stays: `write!` is no plainer, as in text: a Result that cannot fail, and std's formatting in the library for C.
fn put_decimal(number: usize, pen: &mut Pen)
    requires { HasPlace pen.old 2 }
    ensures { Puts (decimal_of number) pen.old pen.new }
{
    if 10 <= number {
        pen.put(0x30 + (number / 10 % 10) as u8);
    }
    pen.put(0x30 + (number % 10) as u8);
}

// Puts ` refused N`.
fn put_refused(number: usize, pen: &mut Pen)
    requires { HasPlace pen.old 11 }
    ensures { Puts (refused_of number) pen.old pen.new }
{
    pen.put_text(b" refused ");
    put_decimal(number, pen);
}

// Puts ` refused N at AAAA`.
fn put_refused_at(number: usize, address: usize, pen: &mut Pen)
    requires { HasPlace pen.old 19 }
    ensures { Puts (said_of (names number address)) pen.old pen.new }
{
    put_refused(number, pen);
    pen.put_text(b" at ");
    pen.put_hex(2, (address % 65536) as u16);
}

// Puts what is said of a program, by whatever error it is rejected.
#[tactic(auto, unfolding(crate::specs::Line::said_of))]
fn put_said<E: Into<usize> + Drop>(verdict: Result<(), Rejected<E>>, pen: &mut Pen)
    requires { HasPlace pen.old 19 }
    ensures said { (number : E → ℕ) → ((why : E) (n : ℕ) → E.converts why n → n ≡ number why) → Puts (said_of (judged_by number verdict)) pen.old pen.new }
    ensures place { (n : ℕ) → HasPlace pen.old (19 + n) → HasPlace pen.new n }
{
    match verdict {
        Ok(()) => pen.put_text(b" accepted"),
        Err(Rejected::Before(why)) => put_refused(why.into(), pen),
        Err(Rejected::At(why, address)) => put_refused_at(why.into(), address, pen),
    }
}

// Puts the line of an entry with its verdict, by whatever error it is rejected.
pub fn put_line<E: Into<usize> + Drop>(tag: u16, verdict: Result<(), Rejected<E>>, pen: &mut Pen)
    requires { HasPlace pen.old 24 }
    ensures { (number : E → ℕ) → ((why : E) (n : ℕ) → E.converts why n → n ≡ number why) → Puts (line_of tag (judged_by number verdict)) pen.old pen.new }
{
    pen.put_hex(2, tag);
    put_said(verdict, pen);
    pen.put(b'\n');
}

// Puts the line of a refused pack.
// Stays: what may not change (the clause of `put_pack_line` is of any number, and not of a `Refusal` alone).
pub fn put_pack_line(number: usize, pen: &mut Pen)
    requires { HasPlace pen.old 16 }
    ensures { Puts (pack_line_of number) pen.old pen.new }
{
    pen.put_text(b"pack");
    put_refused(number, pen);
    pen.put(b'\n');
}
