// A set of addresses below 16,384 whose lowest is found in a few words, however many it holds.
#![tactic(auto)]

ghost use Rattle.std.specs.Prelude.{◌≡◌, ◌≢◌, ℕ, ◌+◌, ◌*◌, ◌/◌, ◌<◌, ◌≤◌, length, get_or, MatchOption};
ghost use Rattle.std.specs.Int.{bit_at};
ghost use Rattle.pending.specs.Sets.{held, Joined, Gone, First, Topped, Beside, Taken};

// A binary digit for each address, 64 a word; and one for each word, in the tops, which says whether it holds any.
// Stays: digits in words, and no set of the library's: what the C library contains takes no heap.
#[derive(Drop)]
pub struct Pending {
    pub words: [u64; 256],
    pub tops: [u64; 4],
    ghost topped: { Topped words tops },
}

// The number with digit t set.
fn with(w: u64, t: u32) -> u64
    requires { t < 64 }
    ensures { (bit_at result t ≡ 1) × ((i : ℕ) → i ≢ t → bit_at result i ≡ bit_at w i) }
{
    w | (1u64 << t)
}

// The number without its digit t.
fn without(w: u64, t: u32) -> u64
    requires { (t < 64) × (bit_at w t ≡ 1) }
    ensures { (bit_at result t ≡ 0) × ((i : ℕ) → i ≢ t → bit_at result i ≡ bit_at w i) }
{
    w ^ (1u64 << t)
}

// An address comes into the digits of words.
fn join(words: &mut [u64], a: usize)
    requires { a < length words.old * 64 }
    ensures { Joined words.old a words.new }
{
    let j = a / 64;
    words[j] = with(words[j], (a % 64) as u32);
}

// An address goes from the digits of words.
fn leave(words: &mut [u64], a: usize)
    requires { (a < length words.old * 64) × (held words.old a ≡ 1) }
    ensures { Gone words.old a words.new }
{
    let j = a / 64;
    words[j] = without(words[j], (a % 64) as u32);
}

// The first word that is not 0.
fn filled(words: &[u64]) -> Option<usize>
    ensures { MatchOption result ((j : ℕ) → get_or words.now j 0 ≡ 0) (λ i. (i < length words.now) × ((j : ℕ) → j < i → get_or words.now j 0 ≡ 0) × (get_or words.now i 0 ≢ 0)) }
{
    words.iter().position(|w| *w != 0)
}

// The lowest address in the digits of words, the first of which that is not 0 is j.
fn first(words: &[u64], j: usize) -> usize
    requires { (j < length words.now) × (length words.now ≤ 256) × (get_or words.now j 0 ≢ 0) × ((i : ℕ) → i < j → get_or words.now i 0 ≡ 0) }
    ensures { (result / 64 ≡ j) × First words.now result }
{
    j * 64 + u64::trailing_zeros(words[j]) as usize
}

impl Pending {
    // The empty set.
    pub fn new() -> Self
        ensures { (a : ℕ) → held result.words a ≡ 0 }
    {
        Pending {
            words: [0; 256],
            tops: [0; 4],
        }
    }

    // An address comes into the set.
    pub fn put(&mut self, a: usize)
        requires { a < 16384 }
        ensures { Joined self.old.words a self.new.words }
    {
        join(&mut self.words, a);
        join(&mut self.tops, a / 64);
    }

    // An address goes from the set.
    fn remove(&mut self, a: usize)
        requires { (a < 16384) × (held self.old.words a ≡ 1) }
        ensures { Gone self.old.words a self.new.words }
    {
        let j = a / 64;
        leave(&mut self.words, a);
        if self.words[j] == 0 {
            leave(&mut self.tops, j);
        }
    }

    // The lowest address of the set.
    fn lowest(&self) -> Option<usize>
        ensures { MatchOption result ((a : ℕ) → held self.now.words a ≡ 0) (λ low. (low < 16384) × First self.now.words low) }
    {
        let top = filled(&self.tops)?;
        Some(first(&self.words, first(&self.tops, top)))
    }

    // The lowest of the set and of one address beside it, if any: it is taken out, and the others are then the set.
    pub fn take(&mut self, beside: Option<usize>) -> Option<usize>
        requires { Beside self.old.words beside }
        ensures { Taken self.old.words beside result self.new.words }
    {
        let Some(low) = self.lowest() else {
            return beside;
        };
        match beside {
            None => self.remove(low),
            Some(b) => {
                if b <= low {
                    return beside;
                }
                self.remove(low);
                self.put(b);
            }
        }
        Some(low)
    }
}
