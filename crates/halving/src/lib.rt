// Finding a number by halving, among entries that stand one after the other in lent bytes: each begins with a number of two bytes, and
// these rise. Where the first stands and how far apart they are is told: a pack has its entries 8 bytes apart from its third byte on.
#![tactic(auto)]

ghost use Rattle.std.specs.Prelude.{◌≡◌, ◌+◌, ◌*◌, ◌<◌, ◌≤◌, length};
ghost use Rattle.halving.specs.Halving.{later_of, halved, narrowed, reached};

// The place to go on from: `next`, where the number at `mid` is not above the one that is sought.
// Stays: start, stride and count by themselves: a struct of them is no plainer, since each function goes on with other ones.
fn later(s: &[u8], at: usize, next: usize, mid: usize, sought: u16) -> usize
    requires { mid + 2 ≤ length s.now }
    ensures { result ≡ later_of s.now sought at next mid }
{
    if basis::number_at(2, s, mid) <= sought {
        return next;
    }
    at
}

// The place that so many comparisons come to, among `many` entries from a place on. Called with constants, it becomes so many comparisons
// one after the other, without a branch that the processor would have to guess.
// Stays: no binary_search_by_key over `as_chunks`: it promises no number of comparisons, which `seven-comparisons` (guarantee/proofs/Tags) bounds for this.
fn halve(rounds: usize, stride: usize, s: &[u8], from: usize, many: usize, sought: u16) -> usize
    requires { (2 ≤ stride) × (0 < many) × (from + stride * many ≤ length s.now) }
    ensures { result ≡ halved rounds stride s.now sought from many }
{
    let mut at = from;
    let mut left = many;
    for _ in 0..rounds {
        let half = left / 2;
        let mid = at + stride * half;
        at = later(s, at, mid, mid, sought);
        left -= half;
    }
    at
}

// The same among n entries, which the first comparison makes `whole`: the first of them, or the last. It is with an entry whose place
// does not depend on n, so it need not wait until n is read.
fn narrow(
    rounds: usize,
    whole: usize,
    start: usize,
    stride: usize,
    s: &[u8],
    n: usize,
    sought: u16,
) -> usize
    requires { (2 ≤ stride) × (0 < whole) × (whole < n) × (start + stride * n ≤ length s.now) }
    ensures { result ≡ narrowed rounds whole start stride s.now sought n }
{
    let last = start + stride * (n - whole);
    let at = later(s, start, last, start + stride * whole, sought);
    halve(rounds, stride, s, at, whole, sought)
}

// The place of the one entry, of n, that can begin with the number that is sought.
pub fn reach(start: usize, stride: usize, s: &[u8], n: usize, sought: u16) -> usize
    requires { (2 ≤ stride) × (0 < n) × (n ≤ 64) × (start + stride * n ≤ length s.now) }
    ensures { result ≡ reached start stride s.now sought n }
{
    if 32 < n {
        return narrow(5, 32, start, stride, s, n, sought);
    }
    if 16 < n {
        return narrow(4, 16, start, stride, s, n, sought);
    }
    if 8 < n {
        return narrow(3, 8, start, stride, s, n, sought);
    }
    if 4 < n {
        return narrow(2, 4, start, stride, s, n, sought);
    }
    if 2 < n {
        return narrow(1, 2, start, stride, s, n, sought);
    }
    if 1 < n {
        return narrow(0, 1, start, stride, s, n, sought);
    }
    start
}
