// A set of literals by value: the words of a bit set. Every literal number is safe: past the end nothing is a member and nothing changes.
#![tactic(auto)]

ghost use Rattle.std.specs.Prelude.{◌≡◌, true, ◌↔◌, length, ◌<◌};
ghost use Rattle.wfsx.specs.Sets.{∅, ◌∪◌, ◌∖◌, members};
ghost use Rattle.wfsx.specs.Program.{compl, complements};
ghost use Rattle.litset.specs.Words.{n_words, capacity, set_of, from_on, with, without, clash_in};
ghost use Rattle.litset.specs.Steps.{WordFrom, exchange, pairs};

// How many words a set has. `n_words` in specs/Words.antt is the same number.
pub const WORDS: usize = 4;

// The literals below this number can be members.
pub const CAPACITY: usize = 64 * WORDS;

// The words are a fixed array: there is no heap, and C passes a set by value.
#[repr(C)]
#[derive(Clone, Copy)]
pub struct LitSet {
    pub words: [u64; WORDS],
}

// The other literal of the same name.
pub fn complement(l: usize) -> usize
    ensures { result ≡ compl l }
{
    if l % 2 == 0 { l + 1 } else { l - 1 }
}

impl LitSet {
    pub fn empty() -> LitSet
        ensures { set_of result.words ≡ ∅ }
    {
        LitSet {
            words: [0u64; WORDS],
        }
    }

    // The literals from k on for which a set has room.
    pub fn from(k: usize) -> LitSet
        ensures { set_of result.words ≡ from_on k }
    {
        let mut words = [0u64; WORDS];
        for (i, word) in words.iter_mut().enumerate() {
            *word = word_from(k, i);
        }
        LitSet { words }
    }

    pub fn contains(self, l: usize) -> bool
        ensures { result ≡ set_of self.words l }
    {
        let i = l / 64;
        if i < WORDS {
            (self.words[i] >> (l % 64)) % 2 == 1
        } else {
            false
        }
    }

    pub fn insert(self, l: usize) -> LitSet
        ensures { set_of result.words ≡ with l (set_of self.words) }
    {
        let i = l / 64;
        let mut t = self;
        if i < WORDS {
            t.words[i] |= 1u64 << (l % 64);
        }
        t
    }

    pub fn remove(self, l: usize) -> LitSet
        ensures { set_of result.words ≡ without l (set_of self.words) }
    {
        let i = l / 64;
        let mut t = self;
        if i < WORDS {
            let bit = 1u64 << (l % 64);
            t.words[i] = (t.words[i] | bit) ^ bit;
        }
        t
    }

    pub fn union(self, other: LitSet) -> LitSet
        ensures { set_of result.words ≡ set_of self.words ∪ set_of other.words }
    {
        LitSet {
            words: union_of(self.words, other.words),
        }
    }

    // The members that are not in the other set.
    pub fn difference(self, other: LitSet) -> LitSet
        ensures { set_of result.words ≡ set_of self.words ∖ set_of other.words }
    {
        LitSet {
            words: difference_of(self.words, other.words),
        }
    }

    // The complements of the members.
    pub fn complements(self) -> LitSet
        ensures { set_of result.words ≡ complements (set_of self.words) }
    {
        let mut t = self;
        for word in &mut t.words {
            *word = exchanged(*word);
        }
        t
    }

    // The lowest-numbered name that has both literals in the set, if any.
    pub fn lowest_both(self) -> Option<usize>
        ensures { result ≡ clash_in (set_of self.words) }
    {
        for (i, word) in self.words.iter().enumerate() {
            let pairs = pairs_in(*word);
            if pairs != 0 {
                // `as` loses nothing, and `usize` has no `From<u32>`.
                return Some(32 * i + pairs.trailing_zeros() as usize / 2);
            }
        }
        None
    }

    // Whether the two have the same members.
    // It stays beside `==`: its clause speaks of members, and the must-fail edits equal_any and equal_never speak of this function.
    pub fn equal(self, other: LitSet) -> bool
        ensures { (result ≡ true) ↔ (set_of self.words ≡ set_of other.words) }
    {
        self.words == other.words
    }

    // How many members the set has: the count of ones over its words.
    pub fn count(self) -> usize
        ensures { result ≡ length (members capacity (set_of self.words)) }
    {
        let mut n = 0;
        for word in &self.words {
            // `as` loses nothing, and `usize` has no `From<u32>`.
            n += word.count_ones() as usize;
        }
        n
    }
}

// ---- words of any count, which sets of names have too

// The words of the members of either.
pub fn union_of<const N: usize>(a: [u64; N], b: [u64; N]) -> [u64; N]
    ensures { set_of result ≡ set_of a.entry ∪ set_of b.entry }
{
    let mut words = a;
    for (i, word) in words.iter_mut().enumerate() {
        *word |= b[i];
    }
    words
}

// The words of the members of a that are not in b.
pub fn difference_of<const N: usize>(a: [u64; N], b: [u64; N]) -> [u64; N]
    ensures { set_of result ≡ set_of a.entry ∖ set_of b.entry }
{
    let mut words = a;
    for (i, word) in words.iter_mut().enumerate() {
        *word = (*word | b[i]) ^ b[i];
    }
    words
}

// ---- single words

// A word of which every literal is a member.
const FULL: u64 = 0xFFFF_FFFF_FFFF_FFFF;

// Word i of the literals from k on.
fn word_from(k: usize, i: usize) -> u64
    requires { i < n_words }
    ensures { WordFrom k i result }
{
    let first = 64 * i;
    if k <= first {
        return FULL;
    }
    if first + 64 <= k {
        return 0;
    }
    FULL << (k - first)
}

// The bits of the literals that are names; those of their explicit negations stand one place higher.
const PLAIN: u64 = 0x5555_5555_5555_5555;

// A word with the two bits of each name exchanged.
fn exchanged(w: u64) -> u64
    ensures { result ≡ exchange w }
{
    ((w >> 1) & PLAIN) | ((w & PLAIN) << 1)
}

// The bits of a word's names that have both literals in it.
fn pairs_in(w: u64) -> u64
    ensures { result ≡ pairs w }
{
    (w & (w >> 1)) & PLAIN
}
