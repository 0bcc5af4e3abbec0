// What packs answer.
ghost use Rattle.std.specs.Prelude.{◌≡◌};
ghost use Rattle.basis.specs.Refusal.{number_of, answer_of};
ghost use Rattle.answers.specs.Packs.{checked_in, entry_in, no_entry, placed_in, found_in};

use crate::{KhxChecked, KhxEntry};
use basis::Refusal;
use pack::Entry;

// The count of the entries, or the refusal's number.
impl From<Result<usize, Refusal>> for KhxChecked {
    ghost from_gives = { λ answer k. k ≡ checked_in (answer_of answer) };

    fn from(answer: Result<usize, Refusal>) -> KhxChecked {
        match answer {
            Ok(entries) => KhxChecked {
                refusal: 0,
                entries,
            },
            Err(why) => KhxChecked {
                refusal: usize::from(why),
                entries: 0,
            },
        }
    }
}

// An entry that is there.
impl From<Entry> for KhxEntry {
    ghost from_gives = { λ e k. k ≡ entry_in e };

    fn from(e: Entry) -> KhxEntry {
        KhxEntry {
            refusal: 0,
            present: 1,
            tag: e.tag,
            cells: e.cells,
            offset: e.offset,
            length: e.length,
        }
    }
}

// No entry, by a refusal or, where it is 0, for want of one.
// Stays: every field, and no `..KhxEntry::default()`: a derive would say which are 0, which `no_entry` says.
fn absent(refusal: usize) -> KhxEntry
    ensures { result ≡ no_entry refusal }
{
    KhxEntry {
        refusal,
        present: 0,
        tag: 0,
        cells: 0,
        offset: 0,
        length: 0,
    }
}

// The entry of a tag, or the refusal's number.
impl From<Result<Entry, Refusal>> for KhxEntry {
    ghost from_gives = { λ answer k. k ≡ found_in (answer_of answer) };

    fn from(answer: Result<Entry, Refusal>) -> KhxEntry {
        match answer {
            Ok(e) => KhxEntry::from(e),
            Err(why) => absent(usize::from(why)),
        }
    }
}

// The entry at an index, none where the pack has not so many, or the refusal's number.
impl From<Result<Option<Entry>, Refusal>> for KhxEntry {
    ghost from_gives = { λ answer k. k ≡ placed_in (answer_of answer) };

    fn from(answer: Result<Option<Entry>, Refusal>) -> KhxEntry {
        match answer {
            Ok(Some(e)) => KhxEntry::from(e),
            Ok(None) => absent(0),
            Err(why) => absent(usize::from(why)),
        }
    }
}
