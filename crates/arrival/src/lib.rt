// Bytes of a pack come: one that may end the contents or a body, or some that end nothing and are only stored.
#![tactic(auto)]

ghost use Rattle.std.specs.Prelude.{◌≡◌, ℕ, ◌≤◌, ◌<◌, List, length};
ghost use Rattle.admission.specs.Admission.{mach, sized_of, opened_of, byte_of, chunk_of};
ghost use Rattle.admission.specs.Fit.{Sound, Fit};
ghost use Rattle.arrival.specs.Plain.{Plain};

use admission::Admission;
use basis::Refusal;

// After the second byte: how long the contents are, or 30.
// Stays: the length of the contents as a clause, since they are lent by themselves, as `settling::settle` says.
#[tactic(auto, unfolding(admission::specs::Admission::sized_of))]
fn sized(st: Admission, contents: &[u8]) -> Admission
    requires { 514 ≤ length contents.now }
    ensures { result ≡ sized_of st contents.now }
{
    if st.counted != 2 {
        return st;
    }
    let mut next = st;
    let n = basis::number_at(2, contents, 0) as usize;
    if 64 < n {
        next.refusal = usize::from(Refusal::CutContents);
        return next;
    }
    next.want = 2 + 8 * n;
    next
}

// After the last byte of the contents: what they say.
#[tactic(auto, unfolding(admission::specs::Admission::opened_of))]
fn opened(st: Admission, contents: &[u8]) -> Admission
    requires { 514 ≤ length contents.now }
    ensures { result ≡ opened_of st contents.now }
{
    if st.counted != st.want || st.refusal != 0 {
        return st;
    }
    let mut next = st;
    match pack::contents_end(contents) {
        Ok(end) => {
            next.end = end;
            next.programs = basis::number_at(2, contents, 0) as usize;
        }
        Err(why) => next.refusal = usize::from(why),
    }
    next
}

// One byte comes.
// Stays: what may not change (six arguments, as `settling::settle` says).
#[tactic(auto, unfolding(admission::specs::Admission::byte_of, admission::specs::Admission::contents_byte, admission::specs::Admission::body_byte))]
pub fn take_byte(
    st: Admission,
    byte: u8,
    contents: &mut [u8],
    body: &mut [u8],
    map: &mut [u16],
    verdicts: &mut [u16],
) -> Admission
    requires { Fit (mach st contents.old body.old map.old verdicts.old) }
    ensures { mach result contents.new body.new map.new verdicts.new ≡ byte_of byte (mach st contents.old body.old map.old verdicts.old) }
{
    let k = st.counted;
    let h = st.have;
    let mut next = st;
    if 24576 <= k {
        next.counted = 24577;
        return next;
    }
    next.counted = k + 1;
    if k < st.want {
        contents[k] = byte;
        let told = opened(sized(next, contents), contents);
        return settling::settle(told, contents, body, map, verdicts);
    }
    if st.programs <= st.judged || 16384 <= h {
        return next;
    }
    body[h] = byte;
    next.have = h + 1;
    settling::settle(next, contents, body, map, verdicts)
}

// Stays: 0 for none: it is a number of bytes, and fewer are as right (docs/STATEMENTS.md).
// How many of the next `left` bytes are only stored, since they end neither the count of the contents, nor the contents, nor a body; 0 where it may be none.
pub fn plain(st: Admission, contents: &[u8], left: usize) -> usize
    requires { (st.programs ≤ 64) × (514 ≤ length contents.now) }
    ensures { (result ≤ left) × (0 < result → Plain result st contents.now) }
{
    if st.counted < st.want {
        if st.counted < 2 {
            return 0;
        }
        return left.min(st.want - st.counted - 1);
    }
    if st.programs <= st.judged || 24576 <= st.counted {
        return 0;
    }
    let need = basis::number_at(2, contents, 8 + 8 * st.judged) as usize;
    if 16384 < need || need <= st.have {
        return 0;
    }
    left.min(need - st.have - 1).min(24576 - st.counted)
}

// Bytes that are only stored come.
pub fn store(st: Admission, part: &[u8], contents: &mut [u8], body: &mut [u8]) -> Admission
    requires { Plain (length part.now) st contents.old × Sound st × (514 ≤ length contents.old) × (16384 ≤ length body.old) }
    ensures { (map verdicts : List ℕ) → mach result contents.new body.new map verdicts ≡ chunk_of part.now (mach st contents.old body.old map verdicts) }
{
    let n = part.len();
    let k = st.counted;
    let h = st.have;
    let mut next = st;
    next.counted = k + n;
    if k < st.want {
        text::put_text(part, contents, k);
        return next;
    }
    text::put_text(part, body, h);
    next.have = h + n;
    next
}
