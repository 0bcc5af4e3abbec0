// The names of the codes: a table of rows that a caller makes once and lends.
#![tactic(auto)]

ghost use Rattle.std.specs.Prelude.{◌≡◌, ◌<◌, length};
ghost use Rattle.text.specs.Pen.{Puts, HasPlace};
ghost use Rattle.names.specs.Names.{place_of, name_of};
ghost use Rattle.names.specs.Rows.{name_rows};

use text::Pen;

// Stays: rows of bytes, as in shapes.
// A row of 18 bytes for each code of 00 to 5A, for 80 and for C0: the name's length, the name, and blanks.
const ROWS: [u8; 1674] = *b"\
\x04halt             \
\x07discard          \
\x05dcopy            \
\x05pcopy            \
\x04swap             \
\x04call             \
\x04jump             \
\x07jump-if          \
\x0bjump-if-not      \
\x07syscall          \
\x07extcall          \
\x02eq               \
\x02ne               \
\x02le               \
\x02gt               \
\x02lt               \
\x02ge               \
\x03and              \
\x02or               \
\x03xor              \
\x03add              \
\x03sub              \
\x03mul              \
\x03shl              \
\x03shr              \
\x03inc              \
\x03dec              \
\x03not              \
\x03neg              \
\x05ld-u8            \
\x06ld-u16           \
\x0bld-u8--offs      \
\x0bld-u16-offs      \
\x05st-u8            \
\x06st-u16           \
\x0bst-u8--offs      \
\x0bst-u16-offs      \
\x08eq--imm8         \
\x08ne--imm8         \
\x08le--imm8         \
\x08gt--imm8         \
\x08lt--imm8         \
\x08ge--imm8         \
\x08and-imm8         \
\x08or--imm8         \
\x08xor-imm8         \
\x08add-imm8         \
\x08sub-imm8         \
\x08mul-imm8         \
\x08shl-imm4         \
\x08shr-imm4         \
\x0bld-u8--imm8      \
\x0bld-u16-imm8      \
\x10ld-u8--offs-imm8 \
\x10ld-u16-offs-imm8 \
\x0bst-u8--imm8      \
\x0bst-u16-imm8      \
\x10st-u8--offs-imm8 \
\x10st-u16-offs-imm8 \
\x09call-imm8        \
\x09jump-imm8        \
\x0cjump-imm8-if     \
\x10jump-imm8-if-not \
\x0csyscall-imm8     \
\x0cextcall-imm8     \
\x09eq--imm16        \
\x09ne--imm16        \
\x09le--imm16        \
\x09gt--imm16        \
\x09lt--imm16        \
\x09ge--imm16        \
\x09and-imm16        \
\x09or--imm16        \
\x09xor-imm16        \
\x09add-imm16        \
\x09sub-imm16        \
\x09mul-imm16        \
\x0cld-u8--imm16     \
\x0cld-u16-imm16     \
\x11ld-u8--offs-imm16\
\x11ld-u16-offs-imm16\
\x0cst-u8--imm16     \
\x0cst-u16-imm16     \
\x11st-u8--offs-imm16\
\x11st-u16-offs-imm16\
\x0acall-imm16       \
\x0ajump-imm16       \
\x0djump-imm16-if    \
\x11jump-imm16-if-not\
\x0dsyscall-imm16    \
\x0dextcall-imm16    \
\x07push-u8          \
\x0bpush-values      ";

// The table.
pub fn rows() -> [u8; 1674]
    ensures { result ≡ name_rows }
{
    ROWS
}

// The row of a code.
#[tactic(auto, unfolding(crate::specs::Names::place_of))]
fn place_of(code: u8) -> usize
    ensures { (result ≡ place_of code) × (result < 93) }
{
    match code {
        0x00..=0x5A => code as usize,
        0x5B..=0xBF => 0x5B,
        _ => 0x5C,
    }
}

// The table as it is lent.
#[derive(Clone, Copy)]
pub struct Names<'a> {
    pub rows: &'a [u8],
    ghost table: { rows.now ≡ name_rows },
}

impl Names<'_> {
    // The length of a code's name.
    #[tactic(auto, using(crate::proofs::Named::tabled))]
    pub fn length(self, code: u8) -> usize
        ensures { (result ≡ length (name_of code)) × (result < 256) }
    {
        let start = 18 * place_of(code);
        self.rows[start] as usize
    }

    // Puts a code's name.
    #[tactic(auto, using(crate::proofs::Named::tabled))]
    pub fn put(self, code: u8, pen: &mut Pen)
        requires { HasPlace pen.old (length (name_of code)) }
        ensures { Puts (name_of code) pen.old pen.new }
    {
        let row = 18 * place_of(code);
        let from = row + 1;
        let end = from + self.length(code);
        pen.put_text(&self.rows[from..end]);
    }
}
