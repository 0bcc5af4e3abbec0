// The report on a rule pack.
ghost use Rattle.std.specs.Prelude.{◌≡◌, length};
ghost use Rattle.basis.specs.Answer.{seen};
ghost use Rattle.basis.specs.Room.{room_after};
ghost use Rattle.report.specs.Report.{write_of, map_of};
ghost use Rattle.answers.specs.Written.{written_in};

use answers::KhxWritten;

// Writes the report on a pack at the start of a room, or refuses and leaves the room as it was; the map is worked in.
#[unsafe(no_mangle)]
pub extern "C" fn khx_report(pack: &[u8], map: &mut [u16], room: &mut [u8]) -> KhxWritten
    ensures value { result ≡ written_in (seen length (write_of pack.now (length map.old) (length room.old))) }
    ensures room_after { room.new ≡ room_after (write_of pack.now (length map.old) (length room.old)) room.old }
    ensures map_after { map.new ≡ map_of pack.now map.old }
{
    KhxWritten::from(report::write(pack, map, room))
}
