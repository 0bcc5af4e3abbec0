// The report on a rule pack: what the verifier says of each program, a line for each, written into a lent room.
#![tactic(auto)]

ghost use Rattle.std.specs.Prelude.{◌≡◌, ◌≤◌, length};
ghost use Rattle.basis.specs.Answer.{seen};
ghost use Rattle.basis.specs.Refusal.{answer_of};
ghost use Rattle.basis.specs.Room.{room_after};
ghost use Rattle.text.specs.Pen.{Puts, HasPlace};
ghost use Rattle.pack.specs.Read.{read_of};
ghost use Rattle.pack.specs.Find.{body_of};
ghost use Rattle.verdicts.specs.Line.{line_of};
ghost use Rattle.rulings.specs.Rulings.{judged_of};
ghost use Rattle.report.specs.Report.{laid_over, report_of, map_in, write_of, map_of};

use basis::Refusal;
use pack::Entry;
use text::Pen;

// Verifies the program of an entry over the first cells of `map`, and puts its line.
fn put_entry(pack: &[u8], e: Entry, map: &mut [u16], pen: &mut Pen)
    requires { (length (body_of pack.now e) ≤ length map.old) × HasPlace pen.old 24 }
    ensures put { Puts (line_of e.tag (judged_of pack.now e)) pen.old pen.new }
    ensures map_after { map.new ≡ laid_over pack.now e map.old }
{
    let program = pack::body(pack, e);
    let n = program.len();
    let verdict = verifier::verify(program, e.cells as usize, &mut map[..n]);
    verdicts::put_line(e.tag, verdict, pen);
}

// Puts the report on a pack.
fn put_report(pack: &[u8], map: &mut [u16], pen: &mut Pen)
    requires { (16384 ≤ length map.old) × HasPlace pen.old 1536 }
    ensures put { Puts (report_of pack.now) pen.old pen.new × (length (report_of pack.now) ≤ 1536) }
    ensures map_after { map.new ≡ map_in pack.now (read_of pack.now) map.old }
{
    let n = match pack::check(pack) {
        Ok(n) => n,
        Err(why) => return verdicts::put_pack_line(usize::from(why), pen),
    };
    // Stays: by index: an iterator over a checked pack is no plainer, it would be one more type with a fact of the whole pack.
    for index in 0..n {
        let Ok(Some(e)) = pack::entry_at(pack, index) else {
            unreachable!()
        };
        put_entry(pack, e, map, pen);
    }
}

// Writes the report on a pack at the start of a room, or refuses and leaves the room as it was: its length.
#[tactic(auto, unfolding(crate::specs::Report::write_of, crate::specs::Report::map_of))]
pub fn write(pack: &[u8], map: &mut [u16], room: &mut [u8]) -> Result<usize, Refusal>
    ensures result_value { answer_of result ≡ seen length (write_of pack.now (length map.old) (length room.old)) }
    ensures room_after { room.new ≡ room_after (write_of pack.now (length map.old) (length room.old)) room.old }
    ensures map_after { map.new ≡ map_of pack.now map.old }
{
    if map.len() < 16384 {
        return Err(Refusal::MapLength);
    }
    // Stays: a fixed room: what the library for C contains takes no heap, and no report is longer (`report-max`).
    let mut lines = [0u8; 1536];
    let mut pen = Pen {
        room: &mut lines,
        at: 0,
    };
    put_report(pack, map, &mut pen);
    let n = pen.at;
    if room.len() < n {
        return Err(Refusal::ShortRoom);
    }
    basis::put_bytes(&lines[..n], room, 0);
    Ok(n)
}
