// The calls on a lesson: each is a function of the shelf with the book, of the lesson beside it and of its arguments, whatever their bits. A change writes the
// lesson, and a refused one leaves it as it was; a call that only reads returns its answer alone.
#![tactic(auto)]

ghost use Rattle.std.specs.Prelude.{◌≡◌, ◌<◌, length};
ghost use Rattle.sheet.specs.Flat.{entries_in};
ghost use Rattle.litset.specs.Words.{capacity, set_of, clash_in};
ghost use Rattle.book.specs.Book.{names_of, program_of};
ghost use Rattle.search.specs.Questions.{tree_of, question_of};
ghost use Rattle.lesson.specs.State.{acknowledged, gives, if_loaded, in_order, in_force, its_literal, change_fits, change_says, changed_set, is_clash, number_of, told_done};
ghost use Rattle.lesson.specs.Calls.{shelf_of, own_of, meaning_of, Begins, MarksOf, MarksAfter, Changes, GivesVerdict, Searches, GivesModel, GivesOrder, GivesGroups, Lists, Previews, OfCheck, Checks, MakesTable};

use book::Book;
use fixpoint::{Model, Values, Verdict};
use lister::Marks;
use litset::LitSet;
use maker::Made;
use reach::Order;
use search::Tree;
use sheet::{Rejection, Sheet};

// The book, or none: `loaded` 0 says that there is none. (C passes the shelf, so it is no Option.)
#[repr(C)]
#[derive(Clone, Copy)]
pub struct Shelf {
    pub loaded: u8,
    pub book: Book,
}

// A lesson beside its book: the facts put in, and the marks of the book with the facts in force, which stand until another call changes the one or the
// other.
#[repr(C)]
#[derive(Clone, Copy)]
pub struct Lesson {
    pub facts: LitSet,
    pub marks: Marks,
}

// Putting in and taking out a literal.
#[derive(Clone, Copy)]
pub enum Change {
    PutIn(usize),
    TakeOut(usize),
}

// M, N and the rounds, and whether the lesson is contradictory.
#[derive(Clone, Copy)]
pub struct WholeModel {
    pub model: Model,
    pub contradictory: bool,
}

// M and N, worked out group by group, and whether the lesson is contradictory. It stays apart from `WholeModel`: one struct for both would have one name for
// what the clauses call `model` and `values`.
#[derive(Clone, Copy)]
pub struct ModelByGroups {
    pub values: Values,
    pub contradictory: bool,
}

// Why a call is turned down; specs/Conditions.antt has the condition of each for each call.
#[derive(Clone, Copy, Debug, PartialEq, Eq)]
pub enum Refusal {
    // No book is loaded.
    NoBook,
    // The literal is none of the book's.
    NotInBook,
    // The literal that is to be put in is put in now.
    AlreadyPutIn,
    // The literal that is to be taken out isn't put in now.
    NotPutIn,
    // The literal's name is contradictory.
    ContradictoryName,
    // The lent buffer or run is too short.
    TooShort,
    // The sheet has no entries, or more than a sheet may have.
    EntryCount,
    // The entry at this index doesn't follow.
    EntryAt(usize),
    // The claim isn't shown by the sheet, or none can show it.
    ClaimNotShown,
}

impl Refusal {
    // Document 01's number, and document 02's for 24 to 28.
    pub fn number(self) -> u8
        ensures { result ≡ number_of self }
    {
        match self {
            Refusal::NoBook => 20,
            Refusal::NotInBook => 21,
            Refusal::AlreadyPutIn => 22,
            Refusal::NotPutIn => 23,
            Refusal::ContradictoryName => 24,
            Refusal::TooShort => 25,
            Refusal::EntryCount => 26,
            Refusal::EntryAt(_) => 27,
            Refusal::ClaimNotShown => 28,
        }
    }
}

// Why no sheet is given for a lent run. Where the run is too short, `made` is the sheet that has no room in it; beside another refusal nothing is said of it.
// It comes first, so that it lies where that of an Ok does: then it is copied in one piece, and not word by word.
#[derive(Clone, Copy)]
pub struct Unmade {
    pub made: Made,
    pub refusal: Refusal,
}

impl From<Refusal> for Unmade {
    ghost from_gives = { λ refusal u. u.refusal ≡ refusal };

    fn from(refusal: Refusal) -> Unmade {
        Unmade {
            made: Made {
                count: 0,
                sheet: sheet::blank(),
            },
            refusal,
        }
    }
}

// ---- the lesson

// Shelf and lesson stay two parameters of the calls: a change writes the lesson alone, and the working order has none. The struct of both is the desk, one
// crate up.

// The facts in force: those put in.
#[tactic(auto, using(crate::proofs::Replies::force_is))]
fn in_force(l: &Lesson) -> LitSet
    ensures { set_of result.words ≡ in_force (own_of l.now) }
{
    l.facts
}

// The marks of a book with these facts in force.
#[tactic(auto, using(crate::proofs::Marks::marks_are))]
fn marks_of(book: &Book, facts: LitSet) -> Marks
    ensures { MarksOf (length (names_of book.now)) (program_of book.now (set_of facts.words)) result }
{
    let model = fixpoint::model_of(book, facts);
    let contradictory = reach::reaching_both(book, model.truths);
    Marks {
        model,
        contradictory,
    }
}

// The lesson that begins on a book: no fact is put in.
pub fn begin(book: &Book) -> Lesson
    ensures { Begins book.now result }
{
    let facts = LitSet::empty();
    let marks = marks_of(book, facts);
    Lesson { facts, marks }
}

// The marks of a book with these facts in force, for a lesson made from l: they are worked out only where these are others than those of l.
fn marks_with(book: &Book, l: &Lesson, facts: LitSet) -> Marks
    ensures { MarksAfter l.now (set_of facts.words) (length (names_of book.now)) (program_of book.now (set_of facts.words)) result }
{
    let before = in_force(l);
    if facts.equal(before) {
        return l.marks;
    }
    marks_of(book, facts)
}

// The call needs a book.
#[tactic(auto, using(crate::proofs::Replies::shelf_20, crate::proofs::Replies::shelf_given))]
fn check_loaded(s: &Shelf) -> Result<(), Refusal>
    ensures { told_done result ≡ if_loaded (shelf_of s.now) (gives acknowledged) }
{
    if s.loaded == 0 {
        return Err(Refusal::NoBook);
    }
    Ok(())
}

// The call needs a book and a literal of it.
#[tactic(auto, using(crate::proofs::Replies::literal_20, crate::proofs::Replies::literal_21, crate::proofs::Replies::literal_given))]
fn check_literal(s: &Shelf, literal: usize) -> Result<(), Refusal>
    ensures { told_done result ≡ in_order (shelf_of s.now) literal (gives acknowledged) }
{
    check_loaded(s)?;
    let names = s.book.name_count();
    if 2 * names <= literal {
        return Err(Refusal::NotInBook);
    }
    Ok(())
}

// ---- putting in and taking out

fn literal_of(change: Change) -> usize
    ensures { result ≡ its_literal change }
{
    match change {
        Change::PutIn(literal) => literal,
        Change::TakeOut(literal) => literal,
    }
}

// Whether a change fits, by whether its literal is put in now.
fn check_fits(change: Change, now_in: bool) -> Result<(), Refusal>
    ensures { told_done result ≡ change_fits change now_in }
{
    match (change, now_in) {
        (Change::PutIn(_), true) => Err(Refusal::AlreadyPutIn),
        (Change::TakeOut(_), false) => Err(Refusal::NotPutIn),
        _ => Ok(()),
    }
}

// Whether a change may be made.
#[tactic(auto, using(crate::proofs::Replies::change_turned, crate::proofs::Replies::change_fitting))]
fn check_change(s: &Shelf, l: &Lesson, change: Change) -> Result<(), Refusal>
    ensures { told_done result ≡ change_says (meaning_of s.now l.now) change }
{
    let literal = literal_of(change);
    check_literal(s, literal)?;
    check_fits(change, l.facts.contains(literal))
}

// The facts put in, after a change.
#[tactic(auto, using(crate::proofs::Replies::taken_out_set))]
fn facts_after(facts: LitSet, change: Change) -> LitSet
    requires { its_literal change < capacity }
    ensures { set_of result.words ≡ changed_set change (set_of facts.words) }
{
    match change {
        Change::PutIn(literal) => facts.insert(literal),
        Change::TakeOut(literal) => facts.remove(literal),
    }
}

// Puts a literal in, or takes it out.
#[tactic(auto, using(crate::proofs::Replies::change_refused, crate::proofs::Replies::change_room))]
pub fn change_facts(s: &Shelf, l: &mut Lesson, change: Change) -> Result<(), Refusal>
    ensures { Changes s.now l.old change result l.new }
{
    check_change(s, l, change)?;
    let mut after = *l;
    after.facts = facts_after(l.facts, change);
    after.marks = marks_with(&s.book, l, in_force(&after));
    *l = after;
    Ok(())
}

// ---- verdict, search, model

// The verdict of a literal.
#[tactic(auto, using(crate::proofs::Replies::verdict_state, crate::proofs::Replies::verdict_24, crate::proofs::Replies::verdict_given))]
pub fn verdict(s: &Shelf, l: &Lesson, literal: usize) -> Result<Verdict, Refusal>
    ensures { GivesVerdict s.now l.now literal result }
{
    check_literal(s, literal)?;
    if l.marks.contradictory.contains(literal) {
        return Err(Refusal::ContradictoryName);
    }
    Ok(l.marks.model.verdict_of(literal))
}

// Whether the literal, or `not` of it where `default` says so, has a tree of this kind.
#[tactic(auto, using(crate::proofs::Replies::search_state, crate::proofs::Replies::search_given))]
pub fn search(
    s: &Shelf,
    l: &Lesson,
    literal: usize,
    default: bool,
    tree: Tree,
) -> Result<bool, Refusal>
    ensures { Searches s.now l.now literal (tree_of tree) (question_of literal default) result }
{
    check_literal(s, literal)?;
    let holds = search::search(&s.book, in_force(l), literal, default, tree);
    Ok(holds)
}

// Whether a set that stands for M is that of a contradictory lesson.
fn is_contradictory(truths: LitSet) -> bool
    ensures { result ≡ is_clash (clash_in (set_of truths.words)) }
{
    truths.lowest_both().is_some()
}

// M, N, the rounds, and whether the lesson is contradictory.
#[tactic(auto, using(crate::proofs::Replies::model_state, crate::proofs::Replies::model_given))]
pub fn model(s: &Shelf, l: &Lesson) -> Result<WholeModel, Refusal>
    ensures { GivesModel s.now l.now result }
{
    check_loaded(s)?; // Without a book nothing stands.
    let model = l.marks.model;
    let contradictory = is_contradictory(model.truths);
    Ok(WholeModel {
        model,
        contradictory,
    })
}

// ---- working order, model by groups

// The names of the book in working order. Facts alter nothing of it, so it has no lesson.
#[tactic(auto, using(crate::proofs::Replies::order_state, crate::proofs::Replies::order_given))]
pub fn working_order(s: &Shelf) -> Result<Order, Refusal>
    ensures { GivesOrder s.now result }
{
    check_loaded(s)?; // Without a book there is no name to list.
    Ok(reach::order_below(&s.book, s.book.names))
}

// M and N worked out group by group in working order, and whether the lesson is contradictory. The model that stands is not read.
#[tactic(auto, using(crate::proofs::Replies::groups_state))]
pub fn model_by_groups(s: &Shelf, l: &Lesson) -> Result<ModelByGroups, Refusal>
    ensures { GivesGroups s.now l.now result }
{
    check_loaded(s)?;
    let values = groups::model_by_groups(&s.book, in_force(l));
    let contradictory = is_contradictory(values.truths);
    Ok(ModelByGroups {
        values,
        contradictory,
    })
}

// ---- listing

// The listing, into a lent buffer; the answer is its length.
#[tactic(auto, using(crate::proofs::Replies::listing_state))]
pub fn listing(s: &Shelf, l: &Lesson, buffer: &mut [u8]) -> Result<usize, Refusal>
    ensures { Lists s.now l.now buffer.old result buffer.new }
{
    check_loaded(s)?;
    // The two arms stand here in place of `ok_or`: a must-fail edit changes each of them.
    match lister::write(&s.book, in_force(l), l.marks, buffer) {
        Some(n) => Ok(n),
        None => Err(Refusal::TooShort),
    }
}

// ---- preview

// The listing that would follow a change, into a lent buffer. The change is made on a copy of the lesson, so the lesson keeps its facts.
#[tactic(auto, using(crate::proofs::Listings::preview_listed, crate::proofs::Listings::preview_refused))]
pub fn preview(s: &Shelf, l: &Lesson, change: Change, buffer: &mut [u8]) -> Result<usize, Refusal>
    ensures { Previews s.now l.now change buffer.old result buffer.new }
{
    let mut copy = *l;
    change_facts(s, &mut copy, change)?;
    listing(s, &copy, buffer)
}

// ---- proof sheets

impl From<Rejection> for Refusal {
    ghost from_gives = { OfCheck };

    fn from(r: Rejection) -> Refusal {
        match r {
            Rejection::WrongCount => Refusal::EntryCount,
            Rejection::NotFollowing(index) => Refusal::EntryAt(index),
            Rejection::ClaimMissing => Refusal::ClaimNotShown,
        }
    }
}

// Whether the first n entries of a sheet show the claim that a literal is true, or that it is false. It holds of M and N of the lesson's program, contradictory
// or not, and reads neither.
#[tactic(auto, using(crate::proofs::Sheets::check_state, crate::proofs::Sheets::check_given))]
pub fn check_sheet(
    s: &Shelf,
    l: &Lesson,
    literal: usize,
    truth: bool,
    n: usize,
    sheet: &Sheet,
) -> Result<(), Refusal>
    ensures { Checks s.now l.now literal truth (entries_in sheet.now.entries n) result }
{
    check_literal(s, literal)?; // 20 and 21 are of the claim, and have no index.
    sheet::judge(&s.book, in_force(l), literal, truth, n, sheet)?;
    Ok(())
}

// A sheet for the claim that a literal is true, or that it is false, for a lent run with room for so many entries.
#[tactic(auto, using(crate::proofs::Sheets::make_state, crate::proofs::Sheets::make_28))]
pub fn make_sheet(
    s: &Shelf,
    l: &Lesson,
    literal: usize,
    truth: bool,
    room: usize,
) -> Result<Made, Unmade>
    ensures { MakesTable s.now l.now literal truth room result }
{
    check_literal(s, literal)?;
    let Some(made) = maker::make(&s.book, in_force(l), literal, truth) else {
        return Err(Unmade::from(Refusal::ClaimNotShown));
    };
    let names = s.book.name_count();
    if room < 4 * names {
        return Err(Unmade {
            made,
            refusal: Refusal::TooShort,
        });
    }
    Ok(made)
}
