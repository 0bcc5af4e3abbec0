// A chunk of a pack comes, of any length: its bytes are counted, stored or judged, as many at a time as end nothing.
#![tactic(auto)]

ghost use Rattle.std.specs.Prelude.{◌≡◌, ◌+◌, ◌≤◌, ◌<◌, length, take};
ghost use Rattle.admission.specs.Numbers.{counts};
ghost use Rattle.admission.specs.Admission.{mach, chunk_of, short_of, admit_of, admitted_as};
ghost use Rattle.admission.specs.Fit.{Fit};
ghost use Rattle.intake.specs.Idle.{capped_at, idle_of};

use admission::{Admission, Admitted};
use basis::Refusal;

// How many bytes were taken, and the admission after them.
#[derive(Clone, Copy, PartialEq, Eq, Debug)]
pub struct Taken {
    pub count: usize,
    pub admission: Admission,
}

// Whether bytes are only counted: the contents are refused, or every body has come.
#[tactic(auto, unfolding(crate::specs::Idle::idle_of))]
fn idle(st: Admission) -> bool
    ensures { result ≡ idle_of st }
{
    st.want <= st.counted && st.programs <= st.judged
}

// So many bytes are counted.
fn pass(st: Admission, n: usize) -> Admission
    ensures { result ≡ counts (capped_at (st.counted + n)) st }
{
    let mut next = st;
    next.counted = st.counted.saturating_add(n).min(24577);
    next
}

// Some of the bytes that are left of a chunk come, at least one.
// Stays: the new form is no plainer (a struct of the memory is taken apart for `plain`, `take_byte` and `store`, and put together again).
fn take_some(
    st: Admission,
    rest: &[u8],
    contents: &mut [u8],
    body: &mut [u8],
    map: &mut [u16],
    verdicts: &mut [u16],
) -> Taken
    requires { Fit (mach st contents.old body.old map.old verdicts.old) × (0 < length rest.now) }
    ensures count_nonzero { (0 < result.count) × (result.count ≤ length rest.now) }
    ensures verdicts_after { mach result.admission contents.new body.new map.new verdicts.new ≡ chunk_of (take result.count rest.now) (mach st contents.old body.old map.old verdicts.old) }
{
    let n = rest.len();
    if idle(st) {
        let admission = pass(st, n);
        return Taken {
            count: n,
            admission,
        };
    }
    let k = arrival::plain(st, contents, n);
    if k == 0 {
        let byte = rest[0];
        let admission = arrival::take_byte(st, byte, contents, body, map, verdicts);
        return Taken {
            count: 1,
            admission,
        };
    }
    let admission = arrival::store(st, &rest[0..k], contents, body);
    Taken {
        count: k,
        admission,
    }
}

// The bytes of a chunk come.
// Stays: six things by themselves, as `settling::settle` says.
fn take_chunk(
    st: Admission,
    chunk: &[u8],
    contents: &mut [u8],
    body: &mut [u8],
    map: &mut [u16],
    verdicts: &mut [u16],
) -> Admission
    requires { Fit (mach st contents.old body.old map.old verdicts.old) }
    ensures { mach result contents.new body.new map.new verdicts.new ≡ chunk_of chunk.now (mach st contents.old body.old map.old verdicts.old) }
{
    let mut now = st;
    let mut rest = chunk;
    while !rest.is_empty() {
        let taken = take_some(now, rest, contents, body, map, verdicts);
        now = taken.admission;
        rest = &rest[taken.count..];
    }
    now
}

// Whether the memory lent is shorter than an admission's.
#[tactic(auto, unfolding(admission::specs::Admission::short_of))]
fn short(contents: &[u8], body: &[u8], map: &[u16], verdicts: &[u16]) -> bool
    ensures { result ≡ short_of contents.now body.now map.now verdicts.now }
{
    contents.len() < 514 || body.len() < 16384 || map.len() < 16384 || verdicts.len() < 192
}

// A chunk comes. A refusal changes nothing: 90 for memory that is too short, 91 for numbers that no admission has, 37 after the close.
// Stays: six things by themselves, as `settling::settle` says; and the two tests of `close`: a function for both would answer what each turns into an Admitted again.
#[tactic(auto, unfolding(admission::specs::Admission::admit_of))]
pub fn chunk(
    st: Admission,
    chunk: &[u8],
    contents: &mut [u8],
    body: &mut [u8],
    map: &mut [u16],
    verdicts: &mut [u16],
) -> Admitted
    ensures { admitted_as result contents.new body.new map.new verdicts.new ≡ admit_of chunk.now (mach st contents.old body.old map.old verdicts.old) }
{
    if short(contents, body, map, verdicts) {
        return Admitted {
            refusal: usize::from(Refusal::ShortMemory),
            admission: st,
        };
    }
    if admission::damaged(st) {
        return Admitted {
            refusal: usize::from(Refusal::Damaged),
            admission: st,
        };
    }
    if st.closed != 0 {
        return Admitted {
            refusal: usize::from(Refusal::Closed),
            admission: st,
        };
    }
    let admission = take_chunk(st, chunk, contents, body, map, verdicts);
    Admitted {
        refusal: 0,
        admission,
    }
}
