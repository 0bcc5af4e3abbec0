// The parts of a rule pack put into a lent room: entries from tags, cells and lengths, and the bodies end to end.
#![tactic(auto)]

ghost use Rattle.std.specs.Prelude.{◌≡◌, ◌+◌, ◌*◌, ◌≤◌, length};
ghost use Rattle.std.proofs.lemmas.List.Edits.{sets};
ghost use Rattle.pack.specs.Contents.{first_of};
ghost use Rattle.pack.specs.Format.{entry_bytes, entries_bytes, pack_of};
ghost use Rattle.layout.specs.Layout.{laid, laid_of, sum_of};

mod entries;

pub use entries::Entries;
use pack::Entry;

// Puts an entry at a place.
fn put_entry(room: &mut [u8], at: usize, e: Entry)
    requires { at + 8 ≤ length room.old }
    ensures { room.new ≡ sets room.old at (entry_bytes e) }
{
    basis::put_number(2, room, at, e.tag);
    basis::put_number(2, room, at + 2, e.cells);
    basis::put_number(2, room, at + 4, e.offset);
    basis::put_number(2, room, at + 6, e.length);
}

// Puts the entries after the count; their bodies begin at `first`.
fn put_entries(entries: &Entries, first: usize, room: &mut [u8])
    requires { (first + sum_of entries.now.lengths.now ≤ 24576) × (first_of (length entries.now.tags.now) ≤ length room.old) }
    ensures { room.new ≡ sets room.old 2 (entries_bytes (laid first entries.now.tags.now entries.now.cells.now entries.now.lengths.now)) }
{
    let mut offset = first;
    for index in 0..entries.tags.len() {
        let e = entries.at(index, offset as u16);
        put_entry(room, 2 + 8 * index, e);
        offset += e.length as usize;
    }
}

// Puts a whole pack at the start of a room that has place for it.
pub fn put_pack(entries: &Entries, bodies: &[u8], room: &mut [u8])
    requires { (first_of (length entries.now.tags.now) + sum_of entries.now.lengths.now ≤ 24576) × (first_of (length entries.now.tags.now) + length bodies.now ≤ length room.old) }
    ensures { room.new ≡ sets room.old 0 (pack_of (laid_of entries.now.tags.now entries.now.cells.now entries.now.lengths.now) bodies.now) }
{
    let n = entries.tags.len();
    let first = 2 + 8 * n;
    basis::put_number(2, room, 0, n as u16);
    put_entries(entries, first, room);
    basis::put_bytes(bodies, room, first);
}
