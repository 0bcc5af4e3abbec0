// The listing of a program.
ghost use Rattle.std.specs.Prelude.{◌≡◌, length};
ghost use Rattle.basis.specs.Answer.{seen};
ghost use Rattle.basis.specs.Room.{room_after};
ghost use Rattle.listing.specs.Listing.{list_of};
ghost use Rattle.answers.specs.Written.{written_in};

use answers::KhxWritten;

// Writes the listing of a program at the start of a room, or refuses and leaves the room as it was.
#[unsafe(no_mangle)]
pub extern "C" fn khx_list(program: &[u8], room: &mut [u8]) -> KhxWritten
    ensures value { result ≡ written_in (seen length (list_of program.now (length room.old))) }
    ensures room_after { room.new ≡ room_after (list_of program.now (length room.old)) room.old }
{
    KhxWritten::from(listing::list(program, room))
}
