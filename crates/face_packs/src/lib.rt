// The C face of rule packs, each answer as numbers: checked, their entries by index and by tag, written.
#![tactic(auto)]

ghost use Rattle.std.specs.Prelude.{◌≡◌, length};
ghost use Rattle.std.proofs.Math.ListN.{get_elem?};
ghost use Rattle.basis.specs.Answer.{seen};
ghost use Rattle.basis.specs.Room.{room_after};
ghost use Rattle.pack.specs.Read.{read_of};
ghost use Rattle.pack.specs.Find.{find_of};
ghost use Rattle.packer.specs.Write.{write_of};
ghost use Rattle.answers.specs.Written.{written_in};
ghost use Rattle.answers.specs.Packs.{checked_in, listed_in, found_in};

use answers::{KhxChecked, KhxEntry, KhxWritten};

// Checks a whole pack.
#[unsafe(no_mangle)]
pub extern "C" fn khx_pack_check(pack: &[u8]) -> KhxChecked
    ensures { result ≡ checked_in (seen length (read_of pack.now)) }
{
    KhxChecked::from(pack::check(pack))
}

// The entry at an index, the first being 0.
#[unsafe(no_mangle)]
pub extern "C" fn khx_pack_entry(pack: &[u8], index: usize) -> KhxEntry
    ensures { result ≡ listed_in (seen (λ es. get_elem? es index) (read_of pack.now)) }
{
    KhxEntry::from(pack::entry_at(pack, index))
}

// The entry of the program with a tag.
#[unsafe(no_mangle)]
pub extern "C" fn khx_pack_find(pack: &[u8], tag: u16) -> KhxEntry
    ensures { result ≡ found_in (find_of pack.now tag) }
{
    KhxEntry::from(pack::find(pack, tag))
}

// Writes a pack at the start of a room, or refuses and leaves the room as it was.
// Stays: three arrays, by the C interface.
#[unsafe(no_mangle)]
pub extern "C" fn khx_pack_write(
    tags: &[u16],
    cells: &[u16],
    lengths: &[u16],
    bodies: &[u8],
    room: &mut [u8],
) -> KhxWritten
    ensures value { result ≡ written_in (seen length (write_of tags.now cells.now lengths.now bodies.now (length room.old))) }
    ensures room_after { room.new ≡ room_after (write_of tags.now cells.now lengths.now bodies.now (length room.old)) room.old }
{
    KhxWritten::from(packer::write(tags, cells, lengths, bodies, room))
}
