// The C face of instructions, each answer as numbers: read at an address, read one after the other, written; and the table of shapes.
#![tactic(auto)]

ghost use Rattle.std.specs.Prelude.{◌≡◌, length};
ghost use Rattle.basis.specs.Answer.{seen};
ghost use Rattle.basis.specs.Room.{room_after};
ghost use Rattle.decoder.specs.Decode.{decode_of};
ghost use Rattle.encoder.specs.Encode.{encode_of};
ghost use Rattle.reader.specs.Turn.{turn_of};
ghost use Rattle.answers.specs.Written.{written_in};
ghost use Rattle.answers.specs.Instructions.{decoded_in, instruction_of, read_in, row_in};
ghost use Rattle.shapes.specs.Shapes.{shape_of};

use answers::{KhxDecoded, KhxInstruction, KhxRow, KhxWritten};
use isa::Instruction;

// The instruction at an address of a program.
#[unsafe(no_mangle)]
pub extern "C" fn khx_decode(program: &[u8], at: usize) -> KhxDecoded
    ensures { result ≡ decoded_in (decode_of program.now at) }
{
    KhxDecoded::from(decoder::decode(program, at))
}

// The instruction at an address of a program, and the address moved past it; on a refusal it stays.
#[unsafe(no_mangle)]
pub extern "C" fn khx_read(program: &[u8], at: &mut usize) -> KhxDecoded
    ensures { (result, at.new) ≡ read_in (turn_of program.now at.old) }
{
    let turn = reader::turn_at(program, *at);
    *at = turn.at;
    KhxDecoded::from(turn.answer)
}

// Writes an instruction at the start of a room, or refuses and leaves the room as it was.
#[unsafe(no_mangle)]
pub extern "C" fn khx_encode(fields: KhxInstruction, room: &mut [u8]) -> KhxWritten
    ensures value { result ≡ written_in (seen length (encode_of (instruction_of fields) (length room.old))) }
    ensures room_after { room.new ≡ room_after (encode_of (instruction_of fields) (length room.old)) room.old }
{
    KhxWritten::from(encoder::encode(Instruction::from(fields), room))
}

// The row of a first byte in the table of shapes.
#[unsafe(no_mangle)]
pub extern "C" fn khx_shape(first: u8) -> KhxRow
    ensures { result ≡ row_in (shape_of first) }
{
    KhxRow::from(shapes::shape_of(first))
}
