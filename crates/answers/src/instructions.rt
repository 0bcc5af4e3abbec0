// Instructions, what stands at an address, and the row of a first byte.
ghost use Rattle.std.specs.Prelude.{◌≡◌};
ghost use Rattle.basis.specs.Refusal.{answer_of};
ghost use Rattle.answers.specs.Instructions.{instruction_of, instruction_in, no_instruction, decoded_in, row_in};

use crate::{KhxDecoded, KhxInstruction, KhxRow};
use basis::Refusal;
use isa::Instruction;
use shapes::Row;

// The instruction with the fields of a host's.
impl From<KhxInstruction> for Instruction {
    ghost from_gives = { λ fields i. i ≡ instruction_of fields };

    fn from(fields: KhxInstruction) -> Instruction {
        Instruction {
            code: fields.code,
            number: fields.number,
            count: fields.count,
            flags: fields.flags,
            v0: fields.v0,
            v1: fields.v1,
            v2: fields.v2,
            v3: fields.v3,
        }
    }
}

// And back.
impl From<Instruction> for KhxInstruction {
    ghost from_gives = { λ i k. k ≡ instruction_in i };

    fn from(i: Instruction) -> KhxInstruction {
        KhxInstruction {
            code: i.code,
            count: i.count,
            flags: i.flags,
            number: i.number,
            v0: i.v0,
            v1: i.v1,
            v2: i.v2,
            v3: i.v3,
        }
    }
}

// Every field 0.
// Stays: no derived Default, as in packs: `no_instruction` says which are 0.
fn no_instruction() -> KhxInstruction
    ensures { result ≡ no_instruction }
{
    KhxInstruction {
        code: 0,
        count: 0,
        flags: 0,
        number: 0,
        v0: 0,
        v1: 0,
        v2: 0,
        v3: 0,
    }
}

// An instruction and its length, or the refusal's number.
impl From<Result<(Instruction, usize), Refusal>> for KhxDecoded {
    ghost from_gives = { λ answer k. k ≡ decoded_in (answer_of answer) };

    fn from(answer: Result<(Instruction, usize), Refusal>) -> KhxDecoded {
        match answer {
            Ok((i, length)) => KhxDecoded {
                refusal: 0,
                length,
                instruction: KhxInstruction::from(i),
            },
            Err(why) => KhxDecoded {
                refusal: usize::from(why),
                length: 0,
                instruction: no_instruction(),
            },
        }
    }
}

// The row of a first byte; or 2, by which the decoder refuses it.
impl From<Option<Row>> for KhxRow {
    ghost from_gives = { λ row k. k ≡ row_in row };

    fn from(row: Option<Row>) -> KhxRow {
        match row {
            Some(r) => KhxRow {
                refusal: 0,
                length: r.length,
                taken: r.taken,
                pushed: r.pushed,
            },
            None => KhxRow {
                refusal: usize::from(Refusal::Illegal),
                length: 0,
                taken: 0,
                pushed: 0,
            },
        }
    }
}
