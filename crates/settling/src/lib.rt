// The program whose body is whole gets its verdict: the verifier's answer in three lent cells.
#![tactic(auto)]

ghost use Rattle.std.specs.Prelude.{◌≡◌, ◌+◌, ◌≤◌, ◌<◌, length};
ghost use Rattle.std.proofs.lemmas.List.Edits.{sets};
ghost use Rattle.verifier.specs.Verify.{judged_in};
ghost use Rattle.admission.specs.Verdicts.{number_of, place_of, codes_of};
ghost use Rattle.admission.specs.Admission.{mach, judge_of, settled};
ghost use Rattle.admission.specs.Fit.{Fit};

use admission::Admission;
use verifier::Rejected;

// The number of a verdict as a cell, 0 where it accepts.
// Stays: two functions of a verdict are plainer than two impls of `From` for a `u16`, of which a caller could not tell which number it gets.
fn number_of(verdict: Result<(), Rejected>) -> u16
    ensures { result ≡ number_of (judged_in verdict) }
{
    match verdict {
        Ok(()) => 0,
        Err(Rejected::Before(why)) => usize::from(why) as u16,
        Err(Rejected::At(why, _)) => usize::from(why) as u16,
    }
}

// The address that a verdict names as a cell, 0 where it names none.
fn place_of(verdict: Result<(), Rejected>) -> u16
    ensures { result ≡ place_of (judged_in verdict) }
{
    match verdict {
        Err(Rejected::At(_, at)) => (at % 65536) as u16,
        _ => 0,
    }
}

// Puts the three cells of a verdict.
fn put_verdict(tag: u16, verdict: Result<(), Rejected>, verdicts: &mut [u16], at: usize)
    requires { at + 3 ≤ length verdicts.old }
    ensures { verdicts.new ≡ sets verdicts.old at (codes_of tag (judged_in verdict)) }
{
    verdicts[at] = tag;
    verdicts[at + 1] = number_of(verdict);
    verdicts[at + 2] = place_of(verdict);
}

// The program whose body is whole gets its verdict.
// Stays: five things by themselves, as `settle` says.
#[tactic(auto, unfolding(admission::specs::Admission::judge_of))]
fn judge(
    st: Admission,
    contents: &[u8],
    body: &[u8],
    map: &mut [u16],
    verdicts: &mut [u16],
) -> Admission
    requires { Fit (mach st contents.now body.now map.old verdicts.old) × (st.judged < st.programs) }
    ensures { mach result contents.now body.now map.new verdicts.new ≡ judge_of (mach st contents.now body.now map.old verdicts.old) }
{
    let i = st.judged;
    let n = st.have;
    let tag = basis::number_at(2, contents, 2 + 8 * i);
    let cells = basis::number_at(2, contents, 4 + 8 * i) as usize;
    let verdict = verifier::verify(&body[0..n], cells, &mut map[..n]);
    put_verdict(tag, verdict, verdicts, 3 * i);
    let mut next = st;
    next.judged = i + 1;
    next.have = 0;
    next
}

// Every program whose body is whole gets its verdict: one, and after it those of no bytes.
// Stays: what may not change (`settle` takes contents and body by `&`; one struct of all the memory, which `take_byte` writes into, would ask for `&mut`).
pub fn settle(
    st: Admission,
    contents: &[u8],
    body: &[u8],
    map: &mut [u16],
    verdicts: &mut [u16],
) -> Admission
    requires { Fit (mach st contents.now body.now map.old verdicts.old) }
    ensures { mach result contents.now body.now map.new verdicts.new ≡ settled (mach st contents.now body.now map.old verdicts.old) }
{
    let mut now = st;
    // Stays: a `while`: it ends by what the next entry says, and not by a count.
    while now.judged < now.programs
        && now.have == basis::number_at(2, contents, 8 + 8 * now.judged) as usize
    {
        now = judge(now, contents, body, map, verdicts);
    }
    now
}
