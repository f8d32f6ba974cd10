// Proof sheets (document 02, A.3): the reasons for a mark as a run of entries, and the check of such a run.
#![tactic(auto)]

ghost use Rattle.std.specs.Prelude.{◌≡◌, ◌&&◌, ◌*◌, ◌≤◌, ◌<◌, eqb, length, set};
ghost use Rattle.std.specs.Bool.{beq};
ghost use Rattle.wfsx.specs.Model.{every};
ghost use Rattle.litset.specs.Words.{n_words, capacity, set_of};
ghost use Rattle.book.specs.Book.{rows, body_of, entry_is, program, names_of, rules_of};
ghost use Rattle.sheet.specs.Sheet.{shown, rule_numbered, true_follows, kind_of, among, judgement};
ghost use Rattle.sheet.specs.Flat.{entry_in, entries_in, blank};
ghost use Rattle.sheet.specs.Turns.{shows_for, open_in, numbered, passes, FirstFailing, GroupOf, left_at, TurnOf, FaultAt};
ghost use Rattle.sheet.specs.Answers.{judgement_of, number_of};

mod numbers;

use book::{Book, Entry};
use litset::LitSet;
pub use numbers::{MAX_FIELDS, entry_at, put_entry};

// The most entries of a sheet: two for each literal of a full book.
pub const MAX_SHEET: usize = 4 * book::MAX_NAMES;

// An entry of a proof sheet. The kind is 1 for true and 0 for false; it is a number and no enum, since C lends entries of whatever bits. The rule number is read where the kind is 1, the group number where it is 0.
#[repr(C)]
#[derive(Clone, Copy)]
pub struct SheetEntry {
    pub kind: u16,
    pub literal: u16,
    pub rule: u16,
    pub group: u16,
}

// An entry whose numbers are 0.
const NO_ENTRY: SheetEntry = SheetEntry {
    kind: 0,
    literal: 0,
    rule: 0,
    group: 0,
};

// A table of entries. How many of them are the sheet's stands beside it.
// It is a fixed array, since there is no heap for a Vec.
#[derive(Clone, Copy)]
pub struct Sheet {
    pub entries: [SheetEntry; MAX_SHEET],
}

// ---- the table

// A sheet that has no entry yet.
pub fn blank() -> Sheet
    ensures { result ≡ blank }
{
    Sheet {
        entries: [NO_ENTRY; MAX_SHEET],
    }
}

// Entry i of a table; past its end the numbers are 0.
pub fn entry_of(table: &[SheetEntry], i: usize) -> SheetEntry
    ensures { result ≡ entry_in table.now i }
{
    table.get(i).copied().unwrap_or(NO_ENTRY)
}

// An entry becomes entry i of a table; what lies past its end is left out.
pub fn set_entry(table: &mut [SheetEntry], i: usize, e: SheetEntry)
    ensures { table.new ≡ set table.old i e }
{
    store::put(table, i, e);
}

// ---- the check

// Why a sheet is rejected.
#[derive(Clone, Copy, Debug, PartialEq, Eq)]
pub enum Rejection {
    // It has no entries, or more than the most.
    WrongCount,
    // The entry at this index does not follow.
    NotFollowing(usize),
    // The claim is not among the entries.
    ClaimMissing,
}

impl Rejection {
    // The number of document 02, A.3.
    pub fn number(self) -> u8
        ensures { result ≡ number_of self }
    {
        match self {
            Rejection::WrongCount => 26,
            Rejection::NotFollowing(_) => 27,
            Rejection::ClaimMissing => 28,
        }
    }
}

// The number that names the fact of a literal is this and the literal.
const FACTS: usize = book::MAX_RULES;

// Whether the answer for an entry of a body is the wanted one. What is asked: whether a positive literal is in d, and the literal of a `not` in s.
fn entry_as(e: Entry, d: LitSet, s: LitSet, want: bool) -> bool
    ensures { result ≡ beq (shown (set_of d.words) (set_of s.words) (entry_is e)) want }
{
    match e {
        Entry::Positive(b) => d.contains(b) == want,
        Entry::Default(c) => s.contains(c) == want,
    }
}

// Whether it is for every entry of the body of rule r. A body is shown where all answers are yes, and a rule left open where all are no.
// `want` is a value that answers are compared with, and chooses no step. The function takes tables and no `Book`: its clause speaks of tables of any length.
// It stays apart from `body_holds` of `fixpoint` for the reason that stands there.
#[tactic(auto, using(book::proofs::Bodies::body_more, book::proofs::Bodies::body_fails, book::proofs::Bodies::body_over))]
pub fn body_as<'a>(
    starts: &'a [u16],
    entries: &'a [u16],
    r: usize,
    d: LitSet,
    s: LitSet,
    want: bool,
) -> bool
    ensures { result
        ≡ every (λ e. beq (shown (set_of d.words) (set_of s.words) e) want) (body_of starts.now entries.now r) }
{
    let end = book::body_end(starts, entries, r);
    for j in book::body_start(starts, r)..end {
        if !entry_as(book::entry_at(entries, j), d, s, want) {
            return false;
        }
    }
    true
}

// Whether the number is that of a rule of the literal whose body is shown.
#[tactic(auto, using(crate::proofs::Tables::names_past, crate::proofs::Tables::names_other, crate::proofs::Tables::names_body))]
fn rule_shown(book: &Book, t: LitSet, f: LitSet, literal: usize, number: usize) -> bool
    ensures { result
        ≡ rule_numbered (shows_for (set_of t.words) (set_of f.words) literal) (rules_of book.now) number }
{
    let count = book.rule_count();
    if count <= number {
        return false;
    }
    if book::head_at(&book.heads, number) != literal {
        return false;
    }
    body_as(&book.starts, &book.entries, number, t, f, true)
}

// How far the check has come: the entry that is next, and the literals of the entries before it.
#[derive(Clone, Copy)]
struct Progress {
    next: usize,
    truths: LitSet,
    falses: LitSet,
}

// Whether an entry is a "false" entry under the number g.
fn is_false_of(e: SheetEntry, g: u16) -> bool
    ensures { result ≡ (eqb e.kind 0 && eqb g e.group) }
{
    e.kind == 0 && g == e.group
}

// A group of "false" entries: its number, the place behind it, and its literals, as far as a set has room.
#[derive(Clone, Copy)]
struct Group {
    number: u16,
    end: usize,
    members: LitSet,
}

// Whether an entry is of the kind and for the literal. The kind is the number that an entry has, here and in `Check::has`.
fn is_claim(e: SheetEntry, kind: u16, literal: usize) -> bool
    ensures { result ≡ (eqb e.kind kind && eqb literal e.literal) }
{
    e.kind == kind && literal == usize::from(e.literal)
}

// What is checked, and over what: the entries of a sheet, the rules of a book and the facts put in; the literals below a number are known.
#[derive(Clone, Copy)]
struct Check<'a> {
    book: &'a Book,
    facts: LitSet,
    known: usize,
    entries: &'a [SheetEntry],
    // A set of literals has its words, behind a reference too.
    ghost sized: { length facts.words ≡ n_words },
    ghost small: { known ≤ capacity },
}

impl<'a> Check<'a> {
    // The literals that have a rule left open, facts too: t are the literals already true, d those already false or in the group. A rule is passed over at
    // once where its head's complement is in t, or its head is known to have a rule left open.
    fn left_open(&self, t: LitSet, d: LitSet) -> LitSet
        ensures { set_of result.words
            ≡ open_in (program (rules_of self.now.book.now) (set_of self.now.facts.words)) (set_of t.words) (set_of d.words) }
    {
        let shut = t.complements();
        let mut done = self.facts.union(shut);
        for r in 0..self.book.rule_count() {
            let head = book::head_at(&self.book.heads, r);
            if done.contains(head)
                || !body_as(&self.book.starts, &self.book.entries, r, d, t, false)
            {
                continue;
            }
            done = done.insert(head);
        }
        done.difference(shut)
    }

    // Whether a "true" entry follows; an entry of another kind does not.
    #[tactic(auto, using(crate::proofs::Tables::other_kind, crate::proofs::Tables::unknown, crate::proofs::Tables::follows_rule, crate::proofs::Tables::names_nothing, crate::proofs::Tables::follows_fact))]
    fn true_follows(&self, p: Progress, e: SheetEntry) -> bool
        ensures { result
            ≡ true_follows (rules_of self.now.book.now) (set_of self.now.facts.words) self.now.known (set_of p.truths.words) (set_of p.falses.words) e }
    {
        if e.kind != 1 {
            return false;
        }
        let literal = usize::from(e.literal);
        if self.known <= literal {
            return false;
        }
        let number = usize::from(e.rule);
        if rule_shown(self.book, p.truths, p.falses, literal, number) {
            return true;
        }
        number == FACTS + literal && self.facts.contains(literal)
    }

    // Whether a "false" entry before place i has the number.
    #[tactic(auto, using(crate::proofs::Entries::numbered_none, crate::proofs::Entries::numbered_found, crate::proofs::Entries::numbered_other))]
    fn is_ended(&self, i: usize, g: u16) -> bool
        ensures { result ≡ numbered (entry_in self.now.entries.now) i g }
    {
        for j in 0..i {
            if is_false_of(entry_of(self.entries, j), g) {
                return true;
            }
        }
        false
    }

    // The group that begins at place i.
    fn group_of(&self, i: usize) -> Group
        requires { i < length self.now.entries.now }
        ensures { GroupOf (entry_in self.now.entries.now) i (length self.now.entries.now) result }
    {
        let first = entry_of(self.entries, i);
        let number = first.group;
        let mut members = LitSet::empty().insert(usize::from(first.literal));
        for j in i + 1..self.entries.len() {
            let e = entry_of(self.entries, j);
            if !is_false_of(e, number) {
                return Group {
                    number,
                    end: j,
                    members,
                };
            }
            members = members.insert(usize::from(e.literal));
        }
        Group {
            number,
            end: self.entries.len(),
            members,
        }
    }

    // Whether a literal is known and has no rule left open.
    fn passes(&self, opened: LitSet, literal: usize) -> bool
        ensures { result ≡ passes self.now.known (set_of opened.words) literal }
    {
        literal < self.known && !opened.contains(literal)
    }

    // Whether the literals of the entries from place i to place j pass; the place of the first that doesn't.
    fn all_pass(&self, opened: LitSet, i: usize, j: usize) -> Result<(), usize>
        requires { i ≤ j }
        ensures { FirstFailing (passes self.now.known (set_of opened.words)) (entry_in self.now.entries.now) i j result }
    {
        for k in i..j {
            let e = entry_of(self.entries, k);
            if !self.passes(opened, usize::from(e.literal)) {
                return Err(k);
            }
        }
        Ok(())
    }

    // The group that comes next is judged, whole; the place of the entry that does not follow.
    fn group_turn(&self, p: Progress) -> Result<Progress, usize>
        requires { (p.next < length self.now.entries.now) × ((entry_in self.now.entries.now p.next).kind ≡ 0) }
        ensures { TurnOf (left_at (rules_of self.now.book.now) (set_of self.now.facts.words) self.now.known (entry_in self.now.entries.now) (length self.now.entries.now))
            (length self.now.entries.now) p result }
    {
        let group = self.group_of(p.next);
        if self.is_ended(p.next, group.number) {
            return Err(p.next);
        }
        let falses = p.falses.union(group.members);
        let opened = self.left_open(p.truths, falses);
        self.all_pass(opened, p.next, group.end)?;
        Ok(Progress {
            next: group.end,
            falses,
            ..p
        })
    }

    // The entry or the group that comes next is judged.
    fn turn(&self, p: Progress) -> Result<Progress, usize>
        requires { p.next < length self.now.entries.now }
        ensures { TurnOf (left_at (rules_of self.now.book.now) (set_of self.now.facts.words) self.now.known (entry_in self.now.entries.now) (length self.now.entries.now))
            (length self.now.entries.now) p result }
    {
        let e = entry_of(self.entries, p.next);
        if e.kind == 0 {
            return self.group_turn(p);
        }
        if !self.true_follows(p, e) {
            return Err(p.next);
        }
        let truths = p.truths.insert(usize::from(e.literal));
        Ok(Progress {
            next: p.next + 1,
            truths,
            ..p
        })
    }

    // Whether all entries follow; the place of the first that doesn't. A turn goes on by an entry or by a whole group, so this is no `for`.
    #[tactic(auto, using(crate::proofs::Turns::come_end, crate::proofs::Turns::come_on, crate::proofs::Turns::come_halt))]
    fn all_follow(&self) -> Result<(), usize>
        ensures { FaultAt (rules_of self.now.book.now) (set_of self.now.facts.words) self.now.known (entry_in self.now.entries.now) (length self.now.entries.now) result }
    {
        let mut p = Progress {
            next: 0,
            truths: LitSet::empty(),
            falses: LitSet::empty(),
        };
        while p.next < self.entries.len() {
            p = self.turn(p)?;
        }
        Ok(())
    }

    // Whether an entry of the kind for the literal is among them.
    #[tactic(auto, using(crate::proofs::Entries::unseen_all, crate::proofs::Entries::unseen_found, crate::proofs::Entries::unseen_more))]
    fn has(&self, kind: u16, literal: usize) -> bool
        ensures { result ≡ among kind literal (rows (entry_in self.now.entries.now) 0 (length self.now.entries.now)) }
    {
        for j in 0..self.entries.len() {
            if is_claim(entry_of(self.entries, j), kind, literal) {
                return true;
            }
        }
        false
    }
}

// The first n entries of a sheet are judged for the claim that a literal is true, or that it is false.
// The count n stands beside the sheet: C lends a run that may be longer than a sheet holds, and that is rejected by its length.
#[tactic(auto, using(crate::proofs::Judged::no_entries, crate::proofs::Judged::too_many))]
pub fn judge(
    book: &Book,
    facts: LitSet,
    literal: usize,
    truth: bool,
    n: usize,
    sheet: &Sheet,
) -> Result<(), Rejection>
    ensures { judgement_of result
        ≡ judgement (rules_of book.now) (set_of facts.words) (2 * length (names_of book.now)) truth literal
        (entries_in sheet.now.entries n) }
{
    if n == 0 {
        return Err(Rejection::WrongCount);
    }
    if MAX_SHEET < n {
        return Err(Rejection::WrongCount);
    }
    let check = Check {
        book,
        facts,
        known: 2 * book.name_count(),
        entries: &sheet.entries[..n],
    };
    if let Err(place) = check.all_follow() {
        return Err(Rejection::NotFollowing(place));
    }
    if !check.has(u16::from(truth), literal) {
        return Err(Rejection::ClaimMissing);
    }
    Ok(())
}
