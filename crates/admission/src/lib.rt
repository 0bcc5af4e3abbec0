// A rule pack that is admitted while it comes: the numbers of an admission, as it begins, is asked and is closed. What a byte does to them and to the
// lent memory stands in specs/; the crates above do it.
#![tactic(auto)]

ghost use Rattle.std.specs.Prelude.{◌≡◌};
ghost use Rattle.admission.specs.Numbers.{start_of, wild_of, torn_of, damaged_of, lost_of};
ghost use Rattle.admission.specs.Admission.{closing_of, ended_of, close_of, ask_of};

use basis::Refusal;

// The numbers of an admission. `counted`: the bytes that came, 24,577 for more than a pack has; `want`: the bytes of the contents, as
// far as it is known; `programs`, `end`: of good contents, how many programs there are and where their bodies end; `judged`: how many have
// their verdict; `have`: the bytes of the next body; `refusal`: what refuses the contents, and after the close the pack, 0 for nothing; `closed`: 1 after the close.
// Stays: the C interface: a host keeps the eight numbers, and `damaged` answers for any that it hands in, a refusal of 29 and a `closed` of 2 too.
#[derive(Clone, Copy, PartialEq, Eq, Debug)]
pub struct Admission {
    pub counted: usize,
    pub want: usize,
    pub programs: usize,
    pub end: usize,
    pub judged: usize,
    pub have: usize,
    pub refusal: usize,
    pub closed: usize,
}

// What a chunk or a close answers: a refusal's number, 0 for none, and the admission after it.
// Stays: what may not change (`close` hands on the refusal that an admission holds, and the contracts of `closing`, `ended` and `ask` are of every number).
#[derive(Clone, Copy, PartialEq, Eq, Debug)]
pub struct Admitted {
    pub refusal: usize,
    pub admission: Admission,
}

// An admission of which no byte has come.
pub fn start() -> Admission
    ensures { result ≡ start_of }
{
    Admission {
        counted: 0,
        want: 2,
        programs: 0,
        end: 0,
        judged: 0,
        have: 0,
        refusal: 0,
        closed: 0,
    }
}

// Whether a number is past its bound.
#[tactic(auto, unfolding(crate::specs::Numbers::wild_of))]
fn wild(st: Admission) -> bool
    ensures { result ≡ wild_of st }
{
    24577 < st.counted
        || st.want < 2
        || 514 < st.want
        || 64 < st.programs
        || st.programs < st.judged
        || 16384 < st.have
        || 1 < st.closed
}

// Whether the numbers contradict one another.
#[tactic(auto, unfolding(crate::specs::Numbers::torn_of))]
fn torn(st: Admission) -> bool
    ensures { result ≡ torn_of st }
{
    let refused = st.refusal != 0;
    if st.programs == 0 {
        refused && (st.refusal < 30 || 35 < st.refusal)
    } else {
        st.counted < st.want || refused
    }
}

// Whether the numbers are none that an admission has.
#[tactic(auto, unfolding(crate::specs::Numbers::damaged_of))]
pub fn damaged(st: Admission) -> bool
    ensures { result ≡ damaged_of st }
{
    wild(st) || torn(st)
}

// What refuses the pack whatever follows, 0 for nothing.
// Stays: a number, by the clause of `lost`: of any admission, whatever number it holds.
#[tactic(auto, unfolding(crate::specs::Numbers::lost_of))]
pub fn lost(st: Admission) -> usize
    ensures { result ≡ lost_of st }
{
    if st.counted <= 24576 {
        return st.refusal;
    }
    usize::from(Refusal::LongPack)
}

// What refuses the pack whose bytes have all come, 0 for nothing.
// Stays: a number, by the clause of `closing`, which `ended` and `close` hand on.
#[tactic(auto, unfolding(crate::specs::Admission::closing_of))]
fn closing(st: Admission) -> usize
    ensures { result ≡ closing_of st }
{
    if 24576 < st.counted {
        return usize::from(Refusal::LongPack);
    }
    if st.counted < st.want {
        return usize::from(Refusal::CutContents);
    }
    if st.refusal != 0 {
        return st.refusal;
    }
    if st.end != st.counted {
        return usize::from(Refusal::WrongEnd);
    }
    0
}

// The pack has come, and is admitted or refused; a refused one has no verdicts.
#[tactic(auto, unfolding(crate::specs::Admission::ended_of))]
fn ended(st: Admission) -> Admitted
    ensures { result ≡ ended_of st }
{
    let refusal = closing(st);
    let mut admission = st;
    admission.refusal = refusal;
    admission.closed = 1;
    if refusal != 0 {
        admission.programs = 0;
        admission.judged = 0;
    }
    Admitted { refusal, admission }
}

// The pack has come: its own refusal, or 0, and each program has its verdict. 91 for numbers that no admission has and 37 after the close change nothing.
#[tactic(auto, unfolding(crate::specs::Admission::close_of))]
pub fn close(st: Admission) -> Admitted
    ensures { result ≡ close_of st }
{
    if damaged(st) {
        return Admitted {
            refusal: usize::from(Refusal::Damaged),
            admission: st,
        };
    }
    if st.closed != 0 {
        return Admitted {
            refusal: usize::from(Refusal::Closed),
            admission: st,
        };
    }
    ended(st)
}

// The answer so far: after the close the first close's, 0 before it; 91 for numbers that no admission has.
// Stays: a number, by the clause of `ask`: after the close the one that the admission holds.
#[tactic(auto, unfolding(crate::specs::Admission::ask_of))]
pub fn ask(st: Admission) -> usize
    ensures { result ≡ ask_of st }
{
    if damaged(st) {
        return usize::from(Refusal::Damaged);
    }
    if st.closed == 0 {
        return 0;
    }
    st.refusal
}
