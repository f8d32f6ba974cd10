// The model of a book and the facts put in: M, N, and the verdict of a literal; and the same for one group of names after others. A set grows by passes
// over some of the rules until a pass adds nothing. A pass takes the literals whose rules are shut: none for Γ, the complements of S for Γs(S).
#![tactic(auto)]

ghost use Rattle.std.specs.Prelude.{◌≡◌, ◌≤◌, take};
ghost use Rattle.wfsx.specs.Sets.{◌⊆◌};
ghost use Rattle.wfsx.specs.Program.{without_heads};
ghost use Rattle.wfsx.specs.Model.{holds, every, Γ, Γs};
ghost use Rattle.wfsx.specs.Groups.{round_of};
ghost use Rattle.litset.specs.Words.{set_of};
ghost use Rattle.book.specs.Limits.{max_rules};
ghost use Rattle.book.specs.Book.{rows, entry_is, body_of, program, program_of};
ghost use Rattle.fixpoint.specs.Pass.{rules_by, pass, SettledFrom};
ghost use Rattle.fixpoint.specs.Result.{ModelOf, StepOf, verdict_is, verdict_in};

use book::{Book, Entry};
use litset::LitSet;

#[derive(Clone, Copy)]
pub enum Verdict {
    True,
    False,
    Undefined,
}

// M, N, and the least k with I(k) = I(k + 1). The name that makes a program contradictory is read from M.
#[repr(C)]
#[derive(Clone, Copy)]
pub struct Model {
    pub truths: LitSet,
    pub nonfalse: LitSet,
    pub rounds: usize,
}

impl Model {
    // The verdict of a literal.
    pub fn verdict_of(&self, l: usize) -> Verdict
        ensures { verdict_is result ≡ verdict_in (set_of self.now.truths.words) (set_of self.now.nonfalse.words) l }
    {
        if self.truths.contains(l) {
            Verdict::True
        } else if self.nonfalse.contains(l) {
            Verdict::Undefined
        } else {
            Verdict::False
        }
    }
}

// M and N, of the whole program or of some of its groups.
// A step counts no rounds, so this is no `Model`; and `Model` has the two sets itself and not this struct, since C reads it with its three fields.
#[repr(C)]
#[derive(Clone, Copy)]
pub struct Values {
    pub truths: LitSet,
    pub nonfalse: LitSet,
}

// The rules with these numbers, in tables that are laid out as those of a book.
#[derive(Clone, Copy)]
pub struct Numbered<'a> {
    pub heads: &'a [u16],
    pub starts: &'a [u16],
    pub entries: &'a [u16],
    pub numbers: &'a [u16],
}

// Whether an entry holds over d and s.
fn entry_holds(e: Entry, d: LitSet, s: LitSet) -> bool
    ensures { result ≡ holds (set_of d.words) (set_of s.words) (entry_is e) }
{
    match e {
        Entry::Positive(b) => d.contains(b),
        Entry::Default(c) => !s.contains(c),
    }
}

impl<'a> Numbered<'a> {
    // Whether the body of rule r holds over d and s.
    // `sheet::body_as` has such a loop too and stays apart: it asks something else of an entry, so one function for both would take a function of an entry, and
    // its clause the law of that function.
    fn body_holds(&self, r: usize, d: LitSet, s: LitSet) -> bool
        ensures { result ≡ every (holds (set_of d.words) (set_of s.words)) (body_of self.now.starts.now self.now.entries.now r) }
    {
        let start = book::body_start(self.starts, r);
        let end = book::body_end(self.starts, self.entries, r);
        for j in start..end {
            if !entry_holds(book::entry_at(self.entries, j), d, s) {
                return false;
            }
        }
        true
    }

    // One pass over the rules whose heads are not shut. A later rule sees what an earlier one added.
    fn add_heads(&self, shut: LitSet, s: LitSet, x: LitSet) -> LitSet
        ensures { set_of result.words ≡ pass (rules_by self.now) (set_of shut.words) (set_of s.words) (set_of x.words) }
    {
        let mut y = x;
        // A rule whose head is shut, or is in the set already, adds nothing: it is passed over at once.
        let mut done = x.union(shut);
        for n in self.numbers {
            let r = usize::from(*n);
            let head = book::head_at(self.heads, r);
            if done.contains(head) {
                continue;
            }
            if !self.body_holds(r, y, s) {
                continue;
            }
            y = y.insert(head);
            done = done.insert(head);
        }
        y
    }

    // The least set that has the start and is closed under the rules that are not shut and that s keeps: passes until one adds nothing.
    // How many passes there are shows only when one adds nothing, so this is no `for`.
    // It and the three functions below are compiled into their callers, where the lengths of a book's tables are known: a pass that reads a length from the struct
    // for each place that it looks at is slower.
    #[inline(always)]
    fn least_closed(&self, start: LitSet, shut: LitSet, s: LitSet) -> LitSet
        ensures { set_of result.words
            ≡ Γ (program (without_heads (set_of shut.words) (rules_by self.now)) (set_of start.words)) (set_of s.words) }
    {
        let mut x = start;
        loop {
            let y = self.add_heads(shut, s, x);
            if x.equal(y) {
                return y;
            }
            x = y;
        }
    }

    // Γ(s), where `inside` is known to lie in it.
    #[inline(always)]
    fn gamma_above(&self, facts: LitSet, s: LitSet, inside: LitSet) -> LitSet
        requires { set_of inside.words ⊆ Γ (program (rules_by self.now) (set_of facts.words)) (set_of s.words) }
        ensures { set_of result.words ≡ Γ (program (rules_by self.now) (set_of facts.words)) (set_of s.words) }
    {
        let start = facts.union(inside);
        self.least_closed(start, LitSet::empty(), s)
    }

    // Γs(s).
    #[inline(always)]
    fn gamma_seminormal(&self, facts: LitSet, s: LitSet) -> LitSet
        ensures { set_of result.words ≡ Γs (program (rules_by self.now) (set_of facts.words)) (set_of s.words) }
    {
        let shut = s.complements();
        let start = facts.difference(shut);
        self.least_closed(start, shut, s)
    }

    // Rounds from `start`, which the first round keeps: Γs with the facts `possible`, and Γ of it with the facts `facts`, until the set stays the same. The
    // round that finds this out is not counted.
    // How many rounds there are shows only when the set stays the same, so this is no `for`.
    #[inline(always)]
    fn settle(&self, start: LitSet, facts: LitSet, possible: LitSet) -> Model
        requires { set_of start.words
            ⊆ round_of (program (rules_by self.now) (set_of facts.words)) (program (rules_by self.now) (set_of possible.words)) (set_of start.words) }
        ensures { SettledFrom
            (program (rules_by self.now) (set_of facts.words)) (program (rules_by self.now) (set_of possible.words)) (set_of start.words) result }
    {
        let mut x = start;
        let mut rounds = 0;
        loop {
            let n = self.gamma_seminormal(possible, x);
            let m = self.gamma_above(facts, n, x);
            if x.equal(m) {
                return Model {
                    truths: m,
                    nonfalse: n,
                    rounds,
                };
            }
            x = m;
            rounds += 1;
        }
    }

    // One step of the model by groups: M and N with a group, from the group's rules, its facts, and M and N of the groups before (document 02, A.5). The rounds
    // begin with what counts as facts in Γ, since every round has that.
    pub fn step(&self, facts: LitSet, before: Values) -> Values
        ensures { StepOf (program (rules_by self.now) (set_of facts.words)) before result }
    {
        let known = facts.union(before.truths);
        let possible = facts.union(before.nonfalse);
        let m = self.settle(known, known, possible);
        let truths = m.truths;
        let nonfalse = m.nonfalse;
        Values { truths, nonfalse }
    }
}

// The numbers of the first rules of a table: 0, 1, 2, .. as far as the count.
// It is a fixed array and the caller has the count, since there is no heap for a Vec.
fn all_numbers(count: usize) -> [u16; book::MAX_RULES]
    requires { count ≤ max_rules }
    ensures { take count result ≡ rows (λ k. k) 0 count }
{
    let mut numbers = [0u16; book::MAX_RULES];
    for k in 0..count {
        // `as` loses nothing, and `try_from` would bring an error that cannot come.
        numbers[k] = k as u16;
    }
    numbers
}

// Γ(s) of a book and the facts put in. The rules with their numbers are written out here, in `gamma_s` and in `model_of`: a function for them would have the same
// four fields in its clause.
pub fn gamma(book: &Book, facts: LitSet, s: LitSet) -> LitSet
    ensures { set_of result.words ≡ Γ (program_of book.now (set_of facts.words)) (set_of s.words) }
{
    let count = book.rule_count();
    let numbers = all_numbers(count);
    let rules = Numbered {
        heads: &book.heads,
        starts: &book.starts,
        entries: &book.entries,
        numbers: &numbers[..count],
    };
    rules.gamma_above(facts, s, LitSet::empty())
}

// Γs(s) of a book and the facts put in.
pub fn gamma_s(book: &Book, facts: LitSet, s: LitSet) -> LitSet
    ensures { set_of result.words ≡ Γs (program_of book.now (set_of facts.words)) (set_of s.words) }
{
    let count = book.rule_count();
    let numbers = all_numbers(count);
    let rules = Numbered {
        heads: &book.heads,
        starts: &book.starts,
        entries: &book.entries,
        numbers: &numbers[..count],
    };
    rules.gamma_seminormal(facts, s)
}

// The model of a book and the facts put in.
pub fn model_of(book: &Book, facts: LitSet) -> Model
    ensures { ModelOf (program_of book.now (set_of facts.words)) result }
{
    let count = book.rule_count();
    let numbers = all_numbers(count);
    let rules = Numbered {
        heads: &book.heads,
        starts: &book.starts,
        entries: &book.entries,
        numbers: &numbers[..count],
    };
    rules.settle(LitSet::empty(), facts, facts)
}
