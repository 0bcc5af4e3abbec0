// The value operations of the machine, on sixteen bits.
#![tactic(auto)]

ghost use Rattle.std.specs.Prelude.{◌≡◌};
ghost use Rattle.alu.specs.Values.{pair_of, single_of};

// An operation on a and b.
#[derive(Clone, Copy)]
pub enum Pair {
    Eq,
    Ne,
    Le,
    Gt,
    Lt,
    Ge,
    And,
    Or,
    Xor,
    Add,
    Sub,
    Mul,
    Shl,
    Shr,
}

// An operation on a alone.
#[derive(Clone, Copy)]
pub enum Single {
    Inc,
    Dec,
    Not,
    Neg,
}

// What the operation makes of a and b.
pub fn combine(pair: Pair, a: u16, b: u16) -> u16
    ensures { result ≡ pair_of pair a b }
{
    match pair {
        Pair::Eq => u16::from(a == b),
        Pair::Ne => u16::from(a != b),
        Pair::Le => u16::from(a <= b),
        Pair::Gt => u16::from(a > b),
        Pair::Lt => u16::from(a < b),
        Pair::Ge => u16::from(a >= b),
        Pair::And => a & b,
        Pair::Or => a | b,
        Pair::Xor => a ^ b,
        Pair::Add => a.wrapping_add(b),
        Pair::Sub => a.wrapping_sub(b),
        Pair::Mul => a.wrapping_mul(b),
        Pair::Shl => a.checked_shl(u32::from(b)).unwrap_or(0),
        Pair::Shr => a.checked_shr(u32::from(b)).unwrap_or(0),
    }
}

// What the operation makes of a.
pub fn change(single: Single, a: u16) -> u16
    ensures { result ≡ single_of single a }
{
    match single {
        Single::Inc => a.wrapping_add(1),
        Single::Dec => a.wrapping_sub(1),
        Single::Not => !a,
        Single::Neg => a.wrapping_neg(),
    }
}
