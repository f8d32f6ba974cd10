// The desk: one book on its shelf and one lesson beside it. The calls on its lesson are those of `lesson`; a load is the desk's own, since
// it changes both. A list of calls on a desk is what the demands of document 01 are about (specs/Runs.antt).
#![tactic(auto)]

ghost use Rattle.std.specs.Prelude.{◌≡◌};
ghost use Rattle.desk.specs.Calls.{Begun, Fresh, Loads};

use book::Book;
use lesson::{Lesson, Shelf};
use reader::Refusal;

#[repr(C)]
#[derive(Clone, Copy)]
pub struct Desk {
    pub shelf: Shelf,
    pub lesson: Lesson,
}

// A desk whose lesson begins on this book; `loaded` 0 says that there is none. It is the number of the shelf, which C passes, and so no bool.
fn begun(loaded: u8, book: Book) -> Desk
    ensures { Begun loaded book result }
{
    let lesson = lesson::begin(&book);
    Desk {
        shelf: Shelf { loaded, book },
        lesson,
    }
}

// A desk with no book and no facts.
pub fn fresh() -> Desk
    ensures { Fresh result }
{
    begun(0, Book::empty())
}

// A file becomes the book and empties the facts, or is refused under its number and line.
#[tactic(auto, using(crate::proofs::LoadLaws::load_accepted, crate::proofs::LoadLaws::load_refused))]
pub fn load(desk: &mut Desk, file: &[u8]) -> Result<(), Refusal>
    ensures { Loads desk.old file.now result desk.new }
{
    let book = reader::read(file)?;
    *desk = begun(1, book);
    Ok(())
}
