// The C face of looking up a tag in a pack that was checked before. It is a family of its own, with one caller of what halves,
// so that the compiler makes it and the conversion one function without a call, which hosts ask for every table of every font.
#![tactic(auto)]

ghost use Rattle.std.specs.Prelude.{◌≡◌};
ghost use Rattle.pack.specs.Lookup.{lookup_of};
ghost use Rattle.answers.specs.Packs.{found_in};

use answers::KhxEntry;

// The entry of the program with a tag, in a pack that was checked before; in any other bytes one that they hold, or a refusal.
#[unsafe(no_mangle)]
pub extern "C" fn khx_pack_lookup(pack: &[u8], tag: u16) -> KhxEntry
    ensures { result ≡ found_in (lookup_of pack.now tag) }
{
    KhxEntry::from(pack::lookup(pack, tag))
}
