// The C face of an admission: its eight numbers and its memory are lent, and changed in place.
#![tactic(auto)]

ghost use Rattle.std.specs.Prelude.{◌≡◌, ◌≤◌, length};
ghost use Rattle.answers.specs.Admissions.{admission_of, kept_in, untold, told_in, start_in, close_in, ask_in, lent, chunk_in};

use admission::{Admission, Admitted};
use answers::KhxAdmitted;
use basis::Refusal;

// The admission that eight numbers are of.
// Stays: the C interface: the numbers are lent as a slice, and neither it nor an admission is this crate's or the answers' own, so that no `From` can be written.
fn read(numbers: &[usize]) -> Admission
    requires { 8 ≤ length numbers.now }
    ensures { result ≡ admission_of numbers.now }
{
    Admission {
        counted: numbers[0],
        want: numbers[1],
        programs: numbers[2],
        end: numbers[3],
        judged: numbers[4],
        have: numbers[5],
        refusal: numbers[6],
        closed: numbers[7],
    }
}

// Its eight numbers are written over those that are lent.
// Stays: as `read`.
fn keep(st: Admission, numbers: &mut [usize])
    requires { 8 ≤ length numbers.old }
    ensures { numbers.new ≡ kept_in st numbers.old }
{
    numbers[0] = st.counted;
    numbers[1] = st.want;
    numbers[2] = st.programs;
    numbers[3] = st.end;
    numbers[4] = st.judged;
    numbers[5] = st.have;
    numbers[6] = st.refusal;
    numbers[7] = st.closed;
}

// An answer that tells a refusal alone.
fn alone(refusal: usize) -> KhxAdmitted
    ensures { result ≡ untold refusal }
{
    KhxAdmitted {
        refusal,
        closed: 0,
        verdicts: 0,
        lost: 0,
    }
}

// What an admission answers; by 90 and 91 the refusal alone.
// Stays: no `From`: it is made of two, and `khx_admit_ask` has a number that is no refusal of an Admitted.
#[tactic(auto, unfolding(answers::specs::Admissions::told_in))]
fn told(refusal: usize, st: Admission) -> KhxAdmitted
    ensures { result ≡ told_in refusal st }
{
    if 90 <= refusal {
        return alone(refusal);
    }
    KhxAdmitted {
        refusal,
        closed: st.closed,
        verdicts: st.judged,
        lost: admission::lost(st),
    }
}

// An admission of which no byte has come is written into eight numbers.
#[unsafe(no_mangle)]
#[tactic(auto, unfolding(answers::specs::Admissions::start_in))]
pub extern "C" fn khx_admit_start(numbers: &mut [usize]) -> KhxAdmitted
    ensures { (result, numbers.new) ≡ start_in numbers.old }
{
    if numbers.len() < 8 {
        return alone(usize::from(Refusal::ShortMemory));
    }
    let fresh = admission::start();
    keep(fresh, numbers);
    told(0, fresh)
}

// A chunk comes, of any length.
#[unsafe(no_mangle)]
#[tactic(auto, unfolding(answers::specs::Admissions::chunk_in))]
pub extern "C" fn khx_admit_chunk(
    numbers: &mut [usize],
    chunk: &[u8],
    contents: &mut [u8],
    body: &mut [u8],
    map: &mut [u16],
    verdicts: &mut [u16],
) -> KhxAdmitted
    ensures { lent result numbers.new contents.new body.new map.new verdicts.new ≡ chunk_in chunk.now numbers.old contents.old body.old map.old verdicts.old }
{
    if numbers.len() < 8 {
        return alone(usize::from(Refusal::ShortMemory));
    }
    let before = read(numbers);
    let Admitted {
        refusal,
        admission: after,
    } = intake::chunk(before, chunk, contents, body, map, verdicts);
    keep(after, numbers);
    told(refusal, after)
}

// The pack has come.
#[unsafe(no_mangle)]
#[tactic(auto, unfolding(answers::specs::Admissions::close_in))]
pub extern "C" fn khx_admit_close(numbers: &mut [usize]) -> KhxAdmitted
    ensures { (result, numbers.new) ≡ close_in numbers.old }
{
    if numbers.len() < 8 {
        return alone(usize::from(Refusal::ShortMemory));
    }
    let still = read(numbers);
    let Admitted {
        refusal,
        admission: ended,
    } = admission::close(still);
    keep(ended, numbers);
    told(refusal, ended)
}

// The answer so far.
#[unsafe(no_mangle)]
#[tactic(auto, unfolding(answers::specs::Admissions::ask_in))]
pub extern "C" fn khx_admit_ask(numbers: &[usize]) -> KhxAdmitted
    ensures { result ≡ ask_in numbers.now }
{
    if numbers.len() < 8 {
        return alone(usize::from(Refusal::ShortMemory));
    }
    let st = read(numbers);
    let answer = admission::ask(st);
    told(answer, st)
}
