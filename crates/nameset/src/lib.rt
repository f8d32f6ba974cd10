// A set of names by value: the words of a bit set with a bit for each name whose literals a set of literals has room for. It has half as many words as such a
// set, so what goes over all words takes half as long.
#![tactic(auto)]

ghost use Rattle.std.specs.Prelude.{◌≡◌, true, ◌↔◌};
ghost use Rattle.std.specs.Int.Bits.{bit_or, bit_xor};
ghost use Rattle.wfsx.specs.Sets.{∅, ◌∪◌, ◌∖◌};
ghost use Rattle.litset.specs.Words.{set_of, add_below};
ghost use Rattle.nameset.specs.Names.{n_names, below, word_with, LowestOf};

use litset::LitSet;

// How many words a set has. `name_words` in specs/Names.antt is the same number.
pub const WORDS: usize = litset::WORDS / 2;

// The names below this number can be members.
pub const NAMES: usize = 64 * WORDS;

// The words are a fixed array, since there is no heap for a Vec.
#[repr(C)]
#[derive(Clone, Copy)]
pub struct NameSet {
    pub words: [u64; WORDS],
}

impl NameSet {
    pub fn empty() -> NameSet
        ensures { set_of result.words ≡ ∅ }
    {
        NameSet {
            words: [0u64; WORDS],
        }
    }

    // The names below a number, as far as there is room for them. `LitSet::from` has those from a number on.
    pub fn below(n: usize) -> NameSet
        ensures { set_of result.words ≡ below n }
    {
        let numbers = LitSet::from(0).difference(LitSet::from(n));
        let mut words = [0u64; WORDS];
        for (i, word) in words.iter_mut().enumerate() {
            *word = numbers.words[i];
        }
        NameSet { words }
    }

    // The set with name k, if there is room for it. Every word is looked at, so that none is stored at a place that is known only when it runs: a set that is read
    // whole right after such a store has to wait for it.
    pub fn with_name(self, k: usize) -> NameSet
        ensures { set_of result.words ≡ add_below n_names k (set_of self.words) }
    {
        let mut t = self;
        for (i, word) in t.words.iter_mut().enumerate() {
            *word = word_with(*word, i, k);
        }
        t
    }

    pub fn union(self, other: NameSet) -> NameSet
        ensures { set_of result.words ≡ set_of self.words ∪ set_of other.words }
    {
        NameSet {
            words: litset::union_of(self.words, other.words),
        }
    }

    // The members that are not in the other set.
    pub fn difference(self, other: NameSet) -> NameSet
        ensures { set_of result.words ≡ set_of self.words ∖ set_of other.words }
    {
        NameSet {
            words: litset::difference_of(self.words, other.words),
        }
    }

    // Whether the two have the same members.
    // It stays beside `==`: its clause speaks of members, and must-fail edits speak of this function.
    pub fn equal(self, other: NameSet) -> bool
        ensures { (result ≡ true) ↔ (set_of self.words ≡ set_of other.words) }
    {
        self.words == other.words
    }

    // The lowest-numbered name that is in this set and not in the other, if any. No set is made for it, and the words behind the first that has one are not looked at.
    pub fn lowest_left(self, other: NameSet) -> Option<usize>
        ensures { LowestOf (set_of self.words ∖ set_of other.words) result }
    {
        for (i, word) in self.words.iter().enumerate() {
            let left = word_left(*word, other.words[i]);
            if left != 0 {
                // `as` loses nothing, and `usize` has no `From<u32>`.
                return Some(64 * i + left.trailing_zeros() as usize);
            }
        }
        None
    }
}

// Word i of a set, with the bit of name k where it is of that word.
fn word_with(word: u64, i: usize, k: usize) -> u64
    ensures { result ≡ word_with word i k }
{
    if i == k / 64 {
        return word | (1u64 << (k % 64));
    }
    word
}

// The bits of a word that are not in another.
fn word_left(w: u64, v: u64) -> u64
    ensures { result ≡ bit_xor (bit_or w v) v }
{
    (w | v) ^ v
}
