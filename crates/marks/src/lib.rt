// Sets of small numbers, held as marks: number n is in the set where binary digit n - 1 is set.
#![tactic(auto)]

ghost use Rattle.std.specs.Prelude.{◌≡◌, ◌≤◌, ◌<◌, ◌^◌};
ghost use Rattle.marks.specs.Bits.{has_mark, up_to, with_mark};
ghost use Rattle.marks.specs.Sets.{marked, half_width, joined, has_load, loads_up_to, size_of};

// ---- A word of marks, for a set of numbers from 1 to at most 64.

const WORD: usize = 64;

// The word with n in it. A number outside 1 to `width` changes nothing.
fn word_with(word: u64, width: usize, n: usize) -> u64
    requires { width ≤ half_width }
    ensures value { result ≡ with_mark width word n }
    ensures fits { word < 2 ^ width → result < 2 ^ width }
{
    if (1..=width).contains(&n) {
        word | 1 << (n - 1)
    } else {
        word
    }
}

// Is n in the word?
fn word_has(word: u64, n: usize) -> bool
    ensures { result ≡ has_mark word n }
{
    (1..=WORD).contains(&n) && (word >> (n - 1)) % 2 == 1
}

// Are all of its numbers from 1 to n?
fn word_up_to(word: u64, n: usize) -> bool
    ensures { result ≡ up_to n word }
{
    WORD <= n || word >> n == 0
}

const MARKS: usize = 8;

// A set of states or of stages: numbers from 1 to 8.
#[repr(C)]
#[derive(Clone, Copy, PartialEq, Eq)]
pub struct Marks(pub u8);

impl Marks {
    pub const EMPTY: Marks = Marks(0);

    // The set with n in it. A number outside 1 to 8 changes nothing.
    pub fn with(self, n: usize) -> Marks
        ensures { result ≡ marked self n }
    {
        Marks(word_with(u64::from(self.0), MARKS, n) as u8)
    }

    // Is n in the set?
    pub fn has(self, n: usize) -> bool
        ensures { result ≡ has_mark self.0 n }
    {
        word_has(u64::from(self.0), n)
    }

    // Are all of its numbers from 1 to n?
    pub fn up_to(self, n: usize) -> bool
        ensures { result ≡ up_to n self.0 }
    {
        word_up_to(u64::from(self.0), n)
    }
}

// A set of loads: numbers from 1 to 128. Load n stands as n in the low word, or as n - 64 in the high one.
#[repr(C)]
#[derive(Clone, Copy, PartialEq, Eq)]
pub struct LoadSet {
    pub low: u64,
    pub high: u64,
}

impl LoadSet {
    pub const EMPTY: LoadSet = LoadSet { low: 0, high: 0 };

    // The set with this load in it. A number outside 1 to 128 changes nothing.
    pub fn with(self, load: usize) -> LoadSet
        ensures { result ≡ joined self load }
    {
        if load <= WORD {
            LoadSet {
                low: word_with(self.low, WORD, load),
                ..self
            }
        } else {
            LoadSet {
                high: word_with(self.high, WORD, load - WORD),
                ..self
            }
        }
    }

    // Is this load in the set?
    pub fn has(self, load: usize) -> bool
        ensures { result ≡ has_load self load }
    {
        if load <= WORD {
            word_has(self.low, load)
        } else {
            word_has(self.high, load - WORD)
        }
    }

    // Are all of its loads from 1 to n?
    pub fn up_to(self, n: usize) -> bool
        ensures { result ≡ loads_up_to n self }
    {
        if n <= WORD {
            word_up_to(self.low, n) && self.high == 0
        } else {
            word_up_to(self.high, n - WORD)
        }
    }

    // How many loads are in the set.
    pub fn count(self) -> u32
        ensures { result ≡ size_of self }
    {
        self.low.count_ones() + self.high.count_ones()
    }
}
