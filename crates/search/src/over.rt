// What a walk is over. It stands in a file of its own, since the definitions that speak of it import this file's.
ghost use Rattle.std.specs.Prelude.{◌≡◌, length};
ghost use Rattle.litset.specs.Words.{n_words};

use book::Book;
use index::Index;
use litset::LitSet;

// The rules of a book by head, their bodies, and the facts put in.
#[derive(Clone, Copy)]
pub struct Walk<'a> {
    pub index: &'a Index,
    pub book: &'a Book,
    pub facts: LitSet,
    // A set of literals has its words, behind a reference too.
    ghost sized: { length facts.words ≡ n_words },
}
