// The calls of a desk for Rust and C, and sizing, which has no desk: structs by value, slices as pointer and length, answers as numbers. Each call answers
// what the call of `desk`, `lesson` or `reader` answers, in document 01's numbers; 0 says that it was not turned down.
#![tactic(auto)]

ghost use Rattle.std.specs.Prelude.{◌≡◌, ◌≤◌, [], ◌++◌, length, drop};
ghost use Rattle.reach.specs.Order.{order_table};
ghost use Rattle.scan.specs.declared.Alphabet.TheVariants.{EitherCase};
ghost use Rattle.reader.specs.File.{read_file};
ghost use Rattle.reader.specs.Sizing.{SizedAs};
ghost use Rattle.sheet.specs.Sheet.{max_sheet};
ghost use Rattle.sheet.specs.Flat.{entries_in};
ghost use Rattle.search.specs.Questions.{tree_of, question_of};
ghost use Rattle.lesson.specs.Calls.{Changes, GivesVerdict, Searches, GivesModel, GivesOrder, GivesGroups, Lists, Previews, Checks, Makes};
ghost use Rattle.lesson.specs.declared.Change.TheVariants.{PutIn, TakeOut};
ghost use Rattle.desk.specs.Calls.{Fresh, Loads};
ghost use Rattle.mezhkura.specs.Numbers.{number_in, verdict_number, listing_numbers, is_set, kind_of, SizeIn, LoadIn, ChangeIn, VerdictIn, SearchIn, ModelIn, OrderIn, GroupsIn, ListingIn, check_numbers, CheckIn, MakeIn};

use desk::Desk;
use fixpoint::{Model, Values, Verdict};
use lesson::{Change, ModelByGroups, Refusal, WholeModel};
use litset::LitSet;
use reach::Order;
use reader::Sizes;
use search::Tree;
use sheet::SheetEntry;

// The replies: C passes each by value, with its own layout, and has no Result, so each is a number with the values beside it.

#[repr(C)]
#[derive(Clone, Copy)]
pub struct SizeReply {
    pub number: u8,
    pub line: usize,
    pub names: usize,
    pub rules: usize,
    pub body_literals: usize,
}

#[repr(C)]
#[derive(Clone, Copy)]
pub struct LoadReply {
    pub number: u8,
    pub line: usize,
    pub desk: Desk,
}

#[repr(C)]
#[derive(Clone, Copy)]
pub struct ChangeReply {
    pub number: u8,
    pub desk: Desk,
}

#[repr(C)]
#[derive(Clone, Copy)]
pub struct VerdictReply {
    pub number: u8,
    pub verdict: u8,
}

#[repr(C)]
#[derive(Clone, Copy)]
pub struct SearchReply {
    pub number: u8,
    pub holds: u8,
}

#[repr(C)]
#[derive(Clone, Copy)]
pub struct ModelReply {
    pub number: u8,
    pub contradictory: u8,
    pub truths: LitSet,
    pub nonfalse: LitSet,
    pub rounds: usize,
}

#[repr(C)]
#[derive(Clone, Copy)]
pub struct OrderReply {
    pub number: u8,
    pub order: Order,
}

#[repr(C)]
#[derive(Clone, Copy)]
pub struct GroupsReply {
    pub number: u8,
    pub contradictory: u8,
    pub truths: LitSet,
    pub nonfalse: LitSet,
}

#[repr(C)]
#[derive(Clone, Copy)]
pub struct ListingReply {
    pub number: u8,
    pub length: usize,
}

#[repr(C)]
#[derive(Clone, Copy)]
pub struct CheckReply {
    pub number: u8,
    pub index: usize,
}

#[repr(C)]
#[derive(Clone, Copy)]
pub struct MakeReply {
    pub number: u8,
    pub count: usize,
}

// ---- the number of an answer

// 0 where the call was not turned down, and otherwise the number of the refusal.
fn number_in<T>(answer: &Result<T, Refusal>) -> u8
    ensures { result ≡ number_in answer.now }
{
    match answer {
        Ok(_) => 0,
        Err(refusal) => refusal.number(),
    }
}

// ---- sizing

#[unsafe(no_mangle)]
pub extern "C" fn mezhkura_size(file: &[u8]) -> SizeReply
    ensures { SizeIn (SizedAs (read_file EitherCase file.now)) result }
{
    match reader::size(file) {
        Ok(
            Sizes {
                names,
                rules,
                body_literals,
            },
        ) => SizeReply {
            number: 0,
            line: 0,
            names,
            rules,
            body_literals,
        },
        Err(reader::Refusal { fault, line }) => SizeReply {
            number: fault.number(),
            line,
            names: 0,
            rules: 0,
            body_literals: 0,
        },
    }
}

// ---- a fresh desk

#[unsafe(no_mangle)]
pub extern "C" fn mezhkura_fresh() -> Desk
    ensures { Fresh result }
{
    desk::fresh()
}

// ---- load

#[unsafe(no_mangle)]
pub extern "C" fn mezhkura_load(desk: Desk, file: &[u8]) -> LoadReply
    ensures { LoadIn (Loads desk file.now) result }
{
    let mut after = desk;
    match desk::load(&mut after, file) {
        Ok(()) => LoadReply {
            number: 0,
            line: 0,
            desk: after,
        },
        Err(refusal) => LoadReply {
            number: refusal.fault.number(),
            line: refusal.line,
            desk: after,
        },
    }
}

// ---- putting in and taking out: C calls each by its name

fn changed(desk: Desk, change: Change) -> ChangeReply
    ensures { ChangeIn desk.shelf (Changes desk.shelf desk.lesson change) result }
{
    // The desk that is returned is made before the call, and its own shelf is read: otherwise the desk is copied once more.
    let mut after = desk;
    let answer = lesson::change_facts(&after.shelf, &mut after.lesson, change);
    ChangeReply {
        number: number_in(&answer),
        desk: after,
    }
}

#[unsafe(no_mangle)]
pub extern "C" fn mezhkura_put_in(desk: Desk, literal: usize) -> ChangeReply
    ensures { ChangeIn desk.shelf (Changes desk.shelf desk.lesson (PutIn literal)) result }
{
    changed(desk, Change::PutIn(literal))
}

#[unsafe(no_mangle)]
pub extern "C" fn mezhkura_take_out(desk: Desk, literal: usize) -> ChangeReply
    ensures { ChangeIn desk.shelf (Changes desk.shelf desk.lesson (TakeOut literal)) result }
{
    changed(desk, Change::TakeOut(literal))
}

// ---- verdict

fn verdict_number(verdict: Verdict) -> u8
    ensures { result ≡ verdict_number verdict }
{
    match verdict {
        Verdict::False => 0,
        Verdict::True => 1,
        Verdict::Undefined => 2,
    }
}

#[unsafe(no_mangle)]
pub extern "C" fn mezhkura_verdict(desk: Desk, literal: usize) -> VerdictReply
    ensures { VerdictIn (GivesVerdict desk.shelf desk.lesson literal) result }
{
    let answer = lesson::verdict(&desk.shelf, &desk.lesson, literal);
    let number = number_in(&answer);
    let verdict = verdict_number(answer.unwrap_or(Verdict::False));
    VerdictReply { number, verdict }
}

// ---- search

// 0 is T, every other number TU. It is a function and no `From`, which would have to stand in `search`: the numbers of C are known in this crate alone.
fn kind_of(tree: u8) -> Tree
    ensures { result ≡ kind_of tree }
{
    if tree == 0 { Tree::T } else { Tree::Tu }
}

// `not` stands before the literal where `default` is not 0; a T-search where `tree` is 0, a TU-search otherwise.
#[unsafe(no_mangle)]
pub extern "C" fn mezhkura_search(desk: Desk, literal: usize, default: u8, tree: u8) -> SearchReply
    ensures { SearchIn (Searches desk.shelf desk.lesson literal (tree_of (kind_of tree)) (question_of literal (is_set default))) result }
{
    let answer = lesson::search(
        &desk.shelf,
        &desk.lesson,
        literal,
        default != 0,
        kind_of(tree),
    );
    let number = number_in(&answer);
    let holds = answer.unwrap_or(false);
    SearchReply {
        number,
        holds: u8::from(holds),
    }
}

// ---- model

#[unsafe(no_mangle)]
pub extern "C" fn mezhkura_model(desk: Desk) -> ModelReply
    ensures { ModelIn (GivesModel desk.shelf desk.lesson) result }
{
    let answer = lesson::model(&desk.shelf, &desk.lesson);
    let number = number_in(&answer);
    let whole = answer.unwrap_or(WholeModel {
        model: Model {
            truths: LitSet::empty(),
            nonfalse: LitSet::empty(),
            rounds: 0,
        },
        contradictory: false,
    });
    ModelReply {
        number,
        contradictory: u8::from(whole.contradictory),
        truths: whole.model.truths,
        nonfalse: whole.model.nonfalse,
        rounds: whole.model.rounds,
    }
}

// ---- working order, model by groups

// No name and no group, in place of an order that is not given.
fn no_order() -> Order
    ensures { result ≡ order_table [] }
{
    Order {
        names: 0,
        groups: 0,
        name: [0u16; book::MAX_NAMES],
        group: [0u16; book::MAX_NAMES],
    }
}

#[unsafe(no_mangle)]
pub extern "C" fn mezhkura_working_order(desk: Desk) -> OrderReply
    ensures { OrderIn (GivesOrder desk.shelf) result }
{
    let order = lesson::working_order(&desk.shelf);
    OrderReply {
        number: number_in(&order),
        order: order.unwrap_or(no_order()),
    }
}

#[unsafe(no_mangle)]
pub extern "C" fn mezhkura_model_by_groups(desk: Desk) -> GroupsReply
    ensures { GroupsIn (GivesGroups desk.shelf desk.lesson) result }
{
    let answer = lesson::model_by_groups(&desk.shelf, &desk.lesson);
    let number = number_in(&answer);
    let grouped = answer.unwrap_or(ModelByGroups {
        values: Values {
            truths: LitSet::empty(),
            nonfalse: LitSet::empty(),
        },
        contradictory: false,
    });
    GroupsReply {
        number,
        contradictory: u8::from(grouped.contradictory),
        truths: grouped.values.truths,
        nonfalse: grouped.values.nonfalse,
    }
}

// ---- listing

fn listing_reply(answer: Result<usize, Refusal>) -> ListingReply
    ensures { result ≡ listing_numbers answer }
{
    ListingReply {
        number: number_in(&answer),
        length: answer.unwrap_or(0),
    }
}

#[unsafe(no_mangle)]
pub extern "C" fn mezhkura_listing(desk: Desk, buffer: &mut [u8]) -> ListingReply
    ensures { ListingIn (λ a. Lists desk.shelf desk.lesson buffer.old a buffer.new) result }
{
    listing_reply(lesson::listing(&desk.shelf, &desk.lesson, buffer))
}

// ---- preview: C calls each by its name

fn previewed(desk: &Desk, change: Change, buffer: &mut [u8]) -> ListingReply
    ensures { ListingIn (λ a. Previews desk.now.shelf desk.now.lesson change buffer.old a buffer.new) result }
{
    listing_reply(lesson::preview(&desk.shelf, &desk.lesson, change, buffer))
}

#[unsafe(no_mangle)]
pub extern "C" fn mezhkura_preview_put_in(
    desk: Desk,
    literal: usize,
    buffer: &mut [u8],
) -> ListingReply
    ensures { ListingIn (λ a. Previews desk.shelf desk.lesson (PutIn literal) buffer.old a buffer.new) result }
{
    previewed(&desk, Change::PutIn(literal), buffer)
}

#[unsafe(no_mangle)]
pub extern "C" fn mezhkura_preview_take_out(
    desk: Desk,
    literal: usize,
    buffer: &mut [u8],
) -> ListingReply
    ensures { ListingIn (λ a. Previews desk.shelf desk.lesson (TakeOut literal) buffer.old a buffer.new) result }
{
    previewed(&desk, Change::TakeOut(literal), buffer)
}

// ---- proof sheets: the entries of a lent run are copied into a sheet's table and back

fn check_reply(answer: Result<(), Refusal>) -> CheckReply
    ensures { result ≡ check_numbers answer }
{
    CheckReply {
        number: number_in(&answer),
        index: match answer {
            Err(Refusal::EntryAt(index)) => index,
            _ => 0,
        },
    }
}

// A run that is no longer than a sheet's table becomes its first entries. No more of a longer one is read.
fn read_entries(table: &mut [SheetEntry; sheet::MAX_SHEET], run: &[SheetEntry])
    ensures { length run.now ≤ max_sheet → entries_in table.new (length run.now) ≡ run.now }
{
    let n = run.len().min(sheet::MAX_SHEET);
    table[..n].copy_from_slice(&run[..n]);
}

// The claim says "true" of the literal where `truth` is not 0, and "false" otherwise.
#[unsafe(no_mangle)]
pub extern "C" fn mezhkura_check_sheet(
    desk: Desk,
    literal: usize,
    truth: u8,
    entries: &[SheetEntry],
) -> CheckReply
    ensures { CheckIn (Checks desk.shelf desk.lesson literal (is_set truth) entries.now) result }
{
    let mut sheet = sheet::blank();
    read_entries(&mut sheet.entries, entries);
    check_reply(lesson::check_sheet(
        &desk.shelf,
        &desk.lesson,
        literal,
        truth != 0,
        entries.len(),
        &sheet,
    ))
}

// The first n entries of a sheet's table are written from the first place of a run on.
fn write_entries(run: &mut [SheetEntry], table: &[SheetEntry; sheet::MAX_SHEET], n: usize)
    requires { (n ≤ length run.old) × (n ≤ max_sheet) }
    ensures { run.new ≡ entries_in table.now n ++ drop n run.old }
{
    run[..n].copy_from_slice(&table[..n]);
}

// The sheet's entries are written from the first place on.
#[unsafe(no_mangle)]
pub extern "C" fn mezhkura_make_sheet(
    desk: Desk,
    literal: usize,
    truth: u8,
    entries: &mut [SheetEntry],
) -> MakeReply
    ensures { MakeIn (λ a. Makes desk.shelf desk.lesson literal (is_set truth) entries.old a entries.new) result }
{
    let room = entries.len();
    match lesson::make_sheet(&desk.shelf, &desk.lesson, literal, truth != 0, room) {
        Ok(made) => {
            write_entries(entries, &made.sheet.entries, made.count);
            MakeReply {
                number: 0,
                count: made.count,
            }
        }
        Err(unmade) => MakeReply {
            number: unmade.refusal.number(),
            count: 0,
        },
    }
}
