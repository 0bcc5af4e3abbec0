// Writing a rule pack from tags, cells and lengths, with the bodies end to end, into a lent room.
#![tactic(auto)]

ghost use Rattle.std.specs.Prelude.{◌≡◌, ℕ, true, false, List, ◌≤◌, length, Result, Ok, Err, MatchResult};
ghost use Rattle.basis.specs.Answer.{given, seen};
ghost use Rattle.basis.specs.Refusal.{answer_of};
ghost use Rattle.basis.specs.Room.{room_after};
ghost use Rattle.basis.specs.declared.refusal.Refusal.TheVariants.{CutContents};
ghost use Rattle.pack.specs.Contents.{first_of, end_of};
ghost use Rattle.pack.specs.declared.Entry.{Entry};
ghost use Rattle.packer.specs.Write.{laid_of, alike, ended_of, write_of};

use basis::Refusal;
use layout::{Entries, put_pack};
use pack::refusal_of;

// The entries with these tags, cells and lengths, where the lists can be those of a pack.
fn entries<'a>(
    tags: &'a [u16],
    cells: &'a [u16],
    lengths: &'a [u16],
) -> Result<Entries<'a>, Refusal>
    ensures { MatchResult result (λ e. (e.tags.now ≡ tags.now) × (e.cells.now ≡ cells.now) × (e.lengths.now ≡ lengths.now)) (λ why. (why ≡ CutContents) × (alike tags.now cells.now lengths.now ≡ false)) }
{
    let n = tags.len();
    if 64 < n {
        return Err(Refusal::CutContents);
    }
    if cells.len() != n {
        return Err(Refusal::CutContents);
    }
    if lengths.len() != n {
        return Err(Refusal::CutContents);
    }
    Ok(Entries {
        tags,
        cells,
        lengths,
    })
}

// Where the bodies of some entries end. Their offsets are right, whatever they are, so each is judged as one at 0.
// Stays: one function with pack's is no plainer: entries there bring their offsets, which are judged, and here these may pass what an Entry holds.
fn bodies_end(entries: &Entries) -> Result<usize, Refusal>
    ensures { answer_of result ≡ end_of 0 (first_of (length entries.now.tags.now)) (laid_of entries.now.tags.now entries.now.cells.now entries.now.lengths.now) }
{
    let mut least = 0;
    let mut end = 2 + 8 * entries.tags.len();
    for index in 0..entries.tags.len() {
        let e = entries.at(index, 0);
        if let Some(why) = refusal_of(least, 0, e) {
            return Err(why);
        }
        least = e.tag as usize + 1;
        end += e.length as usize;
    }
    Ok(end)
}

// What is to become of a pack with so many bytes of bodies, which begin at `first` and by their lengths end at `end`: its length.
fn fit(first: usize, end: usize, bodies: usize, room: usize) -> Result<usize, Refusal>
    requires { first ≤ end }
    ensures { (es : List Entry) (b : List ℕ) → first_of (length es) ≡ first → length b ≡ bodies → answer_of result ≡ seen length (ended_of room es b (given end)) }
{
    if end - first != bodies {
        return Err(Refusal::WrongEnd);
    }
    if 24576 < end {
        return Err(Refusal::LongPack);
    }
    if room < end {
        return Err(Refusal::ShortRoom);
    }
    Ok(end)
}

// What is to become of a pack with so many bytes of bodies in a room of so many bytes: its length.
#[tactic(auto, unfolding(crate::specs::Write::write_of))]
fn decide(entries: &Entries, bodies: usize, room: usize) -> Result<usize, Refusal>
    ensures { (b : List ℕ) → length b ≡ bodies → answer_of result ≡ seen length (write_of entries.now.tags.now entries.now.cells.now entries.now.lengths.now b room) }
{
    let end = bodies_end(entries)?;
    fit(2 + 8 * entries.tags.len(), end, bodies, room)
}

// Writes a pack at the start of a room, or refuses and leaves the room as it was.
// Stays: three lists, as layout's `Entries` says.
#[tactic(auto, unfolding(crate::specs::Write::write_of))]
pub fn write(
    tags: &[u16],
    cells: &[u16],
    lengths: &[u16],
    bodies: &[u8],
    room: &mut [u8],
) -> Result<usize, Refusal>
    ensures result_value { answer_of result ≡ seen length (write_of tags.now cells.now lengths.now bodies.now (length room.old)) }
    ensures room_after { room.new ≡ room_after (write_of tags.now cells.now lengths.now bodies.now (length room.old)) room.old }
{
    let entries = entries(tags, cells, lengths)?;
    let n = decide(&entries, bodies.len(), room.len())?;
    put_pack(&entries, bodies, room);
    Ok(n)
}
