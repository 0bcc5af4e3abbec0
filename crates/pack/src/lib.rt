// Reading a rule pack: its check, its entries by index and by tag, and the body of an entry.
#![tactic(auto)]

ghost use Rattle.std.specs.Prelude.{◌≡◌, ◌+◌, ◌≤◌, length, slice_get};
ghost use Rattle.basis.specs.Answer.{seen};
ghost use Rattle.basis.specs.Refusal.{answer_of};
ghost use Rattle.pack.specs.Contents.{first_of, entry_at, entries_from, number_or_0, refusal_of, end_of};
ghost use Rattle.pack.specs.Read.{held_of, contents_of, read_of};
ghost use Rattle.pack.specs.Find.{find_of, body_of};
ghost use Rattle.pack.specs.Lookup.{kept_of, halved_of, lookup_of};

use basis::Refusal;

// An entry of the contents: a tag, the cells that its program runs with, and where its body stands in the pack. A program may be empty:
// its length is then 0.
#[derive(Clone, Copy, PartialEq, Eq, Debug)]
pub struct Entry {
    pub tag: u16,
    pub cells: u16,
    pub offset: u16,
    pub length: u16,
}

// The entry at a place.
#[tactic(auto, unfolding(crate::specs::Contents::entry_at))]
fn read_entry(s: &[u8], at: usize) -> Entry
    requires { at + 8 ≤ length s.now }
    ensures { result ≡ entry_at s.now at }
{
    let tag = basis::number_at(2, s, at);
    let cells = basis::number_at(2, s, at + 2);
    let offset = basis::number_at(2, s, at + 4);
    let length = basis::number_at(2, s, at + 6);
    Entry {
        tag,
        cells,
        offset,
        length,
    }
}

// What refuses an entry, if anything does: `least` is the least tag allowed, `at` where its body is to begin.
#[tactic(auto, unfolding(crate::specs::Contents::refusal_of))]
pub fn refusal_of(least: usize, at: usize, e: Entry) -> Option<Refusal>
    ensures { number_or_0 result ≡ refusal_of least at e }
{
    if (e.tag as usize) < least {
        return Some(Refusal::TagOrder);
    }
    if 1024 < e.cells {
        return Some(Refusal::OverLimit);
    }
    if 16384 < e.length {
        return Some(Refusal::OverLimit);
    }
    if e.offset as usize != at {
        return Some(Refusal::WrongOffset);
    }
    None
}

// Where the bodies of the n entries of a pack end.
fn bodies_end(pack: &[u8], n: usize) -> Result<usize, Refusal>
    requires { (n ≤ 64) × (first_of n ≤ length pack.now) }
    ensures { answer_of result ≡ end_of 0 (first_of n) (entries_from pack.now 2 n) }
{
    let mut least = 0;
    let mut end = 2 + 8 * n;
    for index in 0..n {
        let e = read_entry(pack, 2 + 8 * index);
        if let Some(why) = refusal_of(least, end, e) {
            return Err(why);
        }
        least = e.tag as usize + 1;
        end += e.length as usize;
    }
    Ok(end)
}

// How many entries a pack holds, all of them inside it.
#[tactic(auto, unfolding(crate::specs::Read::held_of))]
fn held(pack: &[u8]) -> Result<usize, Refusal>
    ensures { answer_of result ≡ held_of pack.now }
{
    if pack.len() < 2 {
        return Err(Refusal::CutContents);
    }
    let n = basis::number_at(2, pack, 0) as usize;
    if 64 < n {
        return Err(Refusal::CutContents);
    }
    if pack.len() < 2 + 8 * n {
        return Err(Refusal::CutContents);
    }
    Ok(n)
}

// Where the bodies of a pack end by its contents.
#[tactic(auto, unfolding(crate::specs::Read::held_of, crate::specs::Read::contents_of, crate::specs::Read::entries_of))]
pub fn contents_end(pack: &[u8]) -> Result<usize, Refusal>
    ensures { answer_of result ≡ contents_of pack.now }
{
    let n = held(pack)?;
    bodies_end(pack, n)
}

// Checks a whole pack: the count of its entries.
#[tactic(auto, unfolding(crate::specs::Read::read_of))]
pub fn check(pack: &[u8]) -> Result<usize, Refusal>
    ensures { answer_of result ≡ seen length (read_of pack.now) }
{
    if 24576 < pack.len() {
        return Err(Refusal::LongPack);
    }
    let end = contents_end(pack)?;
    if end != pack.len() {
        return Err(Refusal::WrongEnd);
    }
    Ok(basis::number_at(2, pack, 0) as usize)
}

// The entry at an index, the first being 0; none where the pack has not so many.
pub fn entry_at(pack: &[u8], index: usize) -> Result<Option<Entry>, Refusal>
    ensures { answer_of result ≡ seen (λ es. slice_get es index) (read_of pack.now) }
{
    let n = check(pack)?;
    if n <= index {
        return Ok(None);
    }
    Ok(Some(read_entry(pack, 2 + 8 * index)))
}

// The entry at a place, where its tag is the one that is sought and a host may read by what it says.
#[tactic(auto, unfolding(crate::specs::Lookup::kept_of, crate::specs::Contents::entry_at))]
fn kept(pack: &[u8], at: usize, tag: u16) -> Result<Entry, Refusal>
    requires { at + 8 ≤ length pack.now }
    ensures { answer_of result ≡ kept_of pack.now tag (entry_at pack.now at) }
{
    if basis::number_at(2, pack, at) != tag {
        return Err(Refusal::NoTag);
    }
    let cells = basis::number_at(2, pack, at + 2);
    if 1024 < cells {
        return Err(Refusal::OverLimit);
    }
    let length = basis::number_at(2, pack, at + 6);
    if 16384 < length {
        return Err(Refusal::OverLimit);
    }
    let offset = basis::number_at(2, pack, at + 4);
    if pack.len() < offset as usize + length as usize {
        return Err(Refusal::WrongEnd);
    }
    Ok(Entry {
        tag,
        cells,
        offset,
        length,
    })
}

// The entry with a tag among the n entries of a pack, by halving.
#[tactic(auto, unfolding(crate::specs::Lookup::halved_of))]
fn seek(pack: &[u8], n: usize, tag: u16) -> Result<Entry, Refusal>
    requires { (n ≤ 64) × (first_of n ≤ length pack.now) }
    ensures { answer_of result ≡ halved_of pack.now n tag }
{
    if n == 0 {
        return Err(Refusal::NoTag);
    }
    kept(pack, halving::reach(2, 8, pack, n, tag), tag)
}

// The entry of the program with a tag.
#[tactic(auto, unfolding(crate::specs::Find::find_of))]
pub fn find(pack: &[u8], tag: u16) -> Result<Entry, Refusal>
    ensures { answer_of result ≡ find_of pack.now tag }
{
    let entries = check(pack)?;
    seek(pack, entries, tag)
}

// The entry of the program with a tag, in a pack that was checked before: few of its tags are read, and the pack is not checked again. In any other bytes it is one
// that they hold, or a refusal.
#[tactic(auto, unfolding(crate::specs::Lookup::lookup_of))]
pub fn lookup(pack: &[u8], tag: u16) -> Result<Entry, Refusal>
    ensures { answer_of result ≡ lookup_of pack.now tag }
{
    let size = pack.len();
    if 24576 < size {
        return Err(Refusal::LongPack);
    }
    let count = held(pack)?;
    seek(pack, count, tag)
}

// The body of an entry, a part of the pack. Of an entry that is not the pack's own it is what the pack has of those bytes.
pub fn body(pack: &[u8], e: Entry) -> &[u8]
    ensures { result.now ≡ body_of pack.now e }
{
    let start = e.offset as usize;
    let end = start + e.length as usize;
    if pack.len() < start {
        return &pack[0..0];
    }
    if pack.len() < end {
        return &pack[start..];
    }
    &pack[start..end]
}
