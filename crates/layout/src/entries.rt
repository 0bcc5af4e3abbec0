// The entries of a pack that is to be written.
ghost use Rattle.std.specs.Prelude.{◌≡◌, true, ◌<◌, length, get_or};
ghost use Rattle.layout.specs.Layout.{entry_of, alike};

use pack::Entry;

// A tag, a number of cells and a length of a body for each entry of a pack, in order: as many of each, and 64 at most.
// Stays: the C interface: khx_pack_write lends the three as arrays of their own, and no heap is there to gather them in.
#[derive(Clone, Copy)]
pub struct Entries<'a> {
    pub tags: &'a [u16],
    pub cells: &'a [u16],
    pub lengths: &'a [u16],
    pub ghost alike: { alike tags.now cells.now lengths.now ≡ true },
}

impl Entries<'_> {
    // The entry with an index, with its body at an offset.
    pub fn at(&self, index: usize, offset: u16) -> Entry
        requires { index < length self.now.tags.now }
        ensures { result ≡ entry_of (get_or self.now.tags.now index 0) (get_or self.now.cells.now index 0) offset (get_or self.now.lengths.now index 0) }
    {
        Entry {
            tag: self.tags[index],
            cells: self.cells[index],
            offset,
            length: self.lengths[index],
        }
    }
}
