// The maker of proof sheets (document 02, A.3): for a claim that is so it writes a sheet that the check accepts. It goes in rounds. A round writes a group of
// all known literals that nothing can derive over what is shown so far, and then "true" entries by passes over the rules, until a pass adds none.
#![tactic(auto)]

ghost use Rattle.std.specs.Prelude.{◌≡◌, cond, ◌+◌, ◌*◌, ◌≤◌, ◌<◌, length};
ghost use Rattle.wfsx.specs.Sets.{members};
ghost use Rattle.litset.specs.Words.{capacity, set_of};
ghost use Rattle.book.specs.Limits.{max_names};
ghost use Rattle.book.specs.Book.{rule_at, rules_of, names_of};
ghost use Rattle.sheet.specs.Sheet.{max_sheet};
ghost use Rattle.maker.specs.Result.{MadeFor};
ghost use Rattle.maker.specs.Making.{member_entry, adds, passed, MembersPut, PassOf, AllPassed};

use book::Book;
use litset::LitSet;
use sheet::{Sheet, SheetEntry};

// A sheet, and how many entries it has.
// The count stands beside a fixed array, here and in a draft, since there is no heap for a Vec.
#[derive(Clone, Copy)]
pub struct Made {
    pub count: usize,
    pub sheet: Sheet,
}

// A sheet that is being made: its entries so far, how many they are, and the literals of the "true" and the "false" ones.
#[derive(Clone, Copy)]
struct Draft {
    sheet: Sheet,
    count: usize,
    truths: LitSet,
    falses: LitSet,
}

// ---- the entries for facts and groups

// The entry for a fact, where the kind is 1, or for a literal of a group. The kind is the number that an entry has, here and in `put_members`.
// Each `as` loses nothing, and `try_from` would bring an error that cannot come.
fn member_entry(kind: u16, group: u16, literal: usize) -> SheetEntry
    requires { literal < capacity }
    ensures { result ≡ member_entry kind group literal }
{
    if kind == 1 {
        return SheetEntry {
            kind,
            literal: literal as u16,
            rule: (book::MAX_RULES + literal) as u16,
            group,
        };
    }
    SheetEntry {
        kind,
        literal: literal as u16,
        rule: 0,
        group,
    }
}

// ---- rules

// Whether rule r adds its head to t.
fn rule_adds(book: &Book, r: usize, known: usize, t: LitSet, f: LitSet) -> bool
    ensures { result
        ≡ adds known (set_of t.words) (set_of f.words) (rule_at book.now.heads book.now.starts book.now.entries r) }
{
    let head = book::head_at(&book.heads, r);
    if known <= head {
        return false;
    }
    if t.contains(head) {
        return false;
    }
    sheet::body_as(&book.starts, &book.entries, r, t, f, true)
}

// ---- the parts of a sheet

impl Draft {
    // Entries for the members of a set below `known`.
    fn put_members(&mut self, s: LitSet, known: usize, kind: u16, group: u16)
        requires { (known ≤ capacity) × (self.old.count + length (members known (set_of s.words)) ≤ length self.old.sheet.entries) }
        ensures { MembersPut kind group known (set_of s.words) self.old self.new }
    {
        for l in 0..known {
            if !s.contains(l) {
                continue;
            }
            sheet::set_entry(
                &mut self.sheet.entries,
                self.count,
                member_entry(kind, group, l),
            );
            self.count += 1;
        }
    }

    // One pass over the rules: entries for those that add their heads.
    fn put_shown(&mut self, book: &Book, known: usize)
        requires { self.old.count + length (passed known (set_of self.old.falses.words) 0 (rules_of book.now) (set_of self.old.truths.words)) ≤ length self.old.sheet.entries }
        ensures { PassOf (rules_of book.now) known self.old self.new }
    {
        for r in 0..book.rule_count() {
            if !rule_adds(book, r, known, self.truths, self.falses) {
                continue;
            }
            let head = book::head_at(&book.heads, r);
            // Each `as` loses nothing, and `try_from` would bring an error that cannot come.
            let e = SheetEntry {
                kind: 1,
                literal: head as u16,
                rule: r as u16,
                group: 0,
            };
            sheet::set_entry(&mut self.sheet.entries, self.count, e);
            self.truths = self.truths.insert(head);
            self.count += 1;
        }
    }

    // Passes over the rules until one adds nothing: how many there are shows only then, so this is no `for`.
    fn put_truths(&mut self, book: &Book, known: usize)
        requires { (known ≤ 2 * max_names) × (length self.old.sheet.entries ≡ max_sheet)
            × (self.old.count ≤ length (members known (set_of self.old.truths.words)) + length (members known (set_of self.old.falses.words))) }
        ensures { AllPassed (rules_of book.now) known self.old self.new }
    {
        loop {
            let before = self.count;
            self.put_shown(book, known);
            if self.count == before {
                return;
            }
        }
    }

    // Whether the literal is among those of the entries of its kind.
    fn claims(&self, literal: usize, truth: bool) -> bool
        ensures { result ≡ cond truth (set_of self.now.truths.words literal) (set_of self.now.falses.words literal) }
    {
        (if truth { self.truths } else { self.falses }).contains(literal)
    }
}

// ---- the sheet

// The sheet for a claim, if there is one. Literals that are not known have no entries, so they count as facts in Γs: then a group follows whatever the book's
// bits are.
pub fn make(book: &Book, facts: LitSet, literal: usize, truth: bool) -> Option<Made>
    ensures { MadeFor (rules_of book.now) (set_of facts.words) (2 * length (names_of book.now)) truth literal result }
{
    let known = 2 * book.name_count();
    let all = LitSet::from(0);
    let unknown = LitSet::from(known);
    let mut d = Draft {
        sheet: sheet::blank(),
        count: 0,
        truths: facts.difference(unknown),
        falses: LitSet::empty(),
    };
    d.put_members(facts, known, 1, 0);
    // How many rounds there are shows only at the end, so this is no `for`.
    loop {
        let derived = fixpoint::gamma_s(book, facts.union(unknown), d.truths);
        let group = all.difference(derived).difference(d.falses);
        // `as` loses nothing, and `try_from` would bring an error that cannot come.
        let number = d.count as u16;
        d.put_members(group, known, 0, number);
        d.falses = d.falses.union(group);
        let grouped = d.count;
        d.put_truths(book, known);
        if d.claims(literal, truth) {
            return Some(Made {
                count: d.count,
                sheet: d.sheet,
            });
        }
        let done = d.count == grouped;
        if done {
            return None;
        }
    }
}
