// The model of a book and the facts put in, worked out group by group in working order (document 02, A.5). A step sees the rules and the facts of its group and
// M and N of the groups before, and nothing else.
#![tactic(auto)]

ghost use Rattle.std.specs.Prelude.{◌≡◌, ◌+◌, ◌-◌, ◌*◌, ◌≤◌, ◌<◌, length, get_or, drop};
ghost use Rattle.litset.specs.Words.{set_of};
ghost use Rattle.book.specs.Limits.{max_names, max_rules};
ghost use Rattle.book.specs.Book.{rules_numbered, program, program_of};
ghost use Rattle.groups.specs.Whole.{WholeOf};
ghost use Rattle.groups.specs.Parts.{RunsFit, Copied, Gathered, facts_for, used_in, UsedBelow, alike, Stepped, Laid, ByGroups};

use book::Book;
use fixpoint::{Numbered, Values};
use index::Index;
use litset::LitSet;

// The model of a book and the facts put in.
pub fn model_by_groups(book: &Book, facts: LitSet) -> Values
    ensures { WholeOf (program_of book.now (set_of facts.words)) result }
{
    let index = index::index_of(&book.heads, book.rules);
    let names = book.name_count();
    let used = names_used(&index.starts, names, facts);
    let order = reach::order_below(book, used);
    let places = order.names;
    let name = &order.name[..places];
    let group = &order.group[..places];
    settle_groups(book, &index, name, group, facts)
}

// ---- the names that matter

// Whether a name has a rule or a fact.
fn is_used(first: &[u16], k: usize, facts: LitSet) -> bool
    requires { k < max_names }
    ensures { result ≡ used_in first.now (set_of facts.words) k }
{
    let from = index::rules_start(first, 2 * k);
    let end = index::rules_start(first, 2 * k + 2);
    (from != end) | (facts.contains(2 * k) | facts.contains(2 * k + 1))
}

// The book's count of names, or more where a name past them has a rule or a fact: the names below it are all that matter.
fn names_used(first: &[u16], names: usize, facts: LitSet) -> usize
    ensures { UsedBelow first.now (set_of facts.words) result }
{
    for k in (names..book::MAX_NAMES).rev() {
        if is_used(first, k, facts) {
            return k + 1;
        }
    }
    names.min(book::MAX_NAMES)
}

// ---- the rules and facts of a group

// The first literal of a name: the second is the next number.
fn first_literal(name: u16) -> usize
    ensures { (result ≡ 2 * name) × (result < 2 * 65536) }
{
    2 * usize::from(name)
}

// Puts the numbers from one place to another of a table into `numbers` from place `at` on. Answers with the place behind them. There is no `copy_from_slice`:
// where the end lies before the beginning there is nothing to copy, and a part of a slice with such ends is refused.
fn copy_run(rules: &[u16], from: usize, end: usize, numbers: &mut [u16], at: usize) -> usize
    requires { (end ≤ length rules.now) × (at + (end - from) ≤ length numbers.old) }
    ensures { Copied rules.now from end numbers.old at result numbers.new }
{
    for j in from..end {
        numbers[at + (j - from)] = rules[j];
    }
    at + end.saturating_sub(from)
}

// Puts the numbers of the rules for some names into `numbers`. Answers how many there are.
fn gather<'a>(first: &'a [u16], rules: &'a [u16], names: &[u16], numbers: &mut [u16]) -> usize
    requires { RunsFit first.now rules.now names.now × (max_rules ≤ length numbers.old) }
    ensures { Gathered first.now rules.now names.now numbers.old result numbers.new }
{
    let mut at = 0;
    for name in names {
        let a = first_literal(*name);
        let from = index::rules_start(first, a);
        let end = index::rules_start(first, a + 2);
        at = copy_run(rules, from, end, numbers, at);
    }
    at
}

// The facts for some names.
fn facts_for(names: &[u16], facts: LitSet) -> LitSet
    ensures { set_of result.words ≡ facts_for names.now (set_of facts.words) }
{
    let mut literals = LitSet::empty();
    for name in names {
        let a = first_literal(*name);
        literals = literals.insert(a).insert(a + 1);
    }
    facts.difference(facts.difference(literals))
}

// ---- group by group

// The place behind the last of the group that place p is of.
fn group_end(group: &[u16], p: usize) -> usize
    ensures { result ≡ p + alike (get_or group.now p 0) (drop p group.now) }
{
    for end in p..group.len() {
        if group[end] != group[p] {
            return end;
        }
    }
    p.max(group.len())
}

// A step with a group's rules and facts, if it has any: without them it has no values.
fn settle_group(book: &Book, numbers: &[u16], facts: LitSet, before: Values) -> Values
    ensures { Stepped
        (program (rules_numbered book.now.heads book.now.starts book.now.entries numbers.now) (set_of facts.words))
        before result }
{
    if numbers.len() == 0 {
        if facts.equal(LitSet::empty()) {
            return before;
        }
    }
    let rules = Numbered {
        heads: &book.heads,
        starts: &book.starts,
        entries: &book.entries,
        numbers,
    };
    rules.step(facts, before)
}

// M and N, from nothing, with one group more in each turn. The numbers of a group's rules are put into one table, which the next group uses again.
fn settle_groups(book: &Book, index: &Index, name: &[u16], group: &[u16], facts: LitSet) -> Values
    requires { Laid book.now.heads book.now.starts book.now.entries index.now.starts index.now.rules name.now group.now (set_of facts.words) }
    ensures { ByGroups book.now.heads book.now.starts book.now.entries index.now.starts index.now.rules
        name.now group.now (set_of facts.words) result }
{
    // A fixed array with a count beside it, since there is no heap for a Vec.
    let mut numbers = [0u16; book::MAX_RULES];
    let mut v = Values {
        truths: LitSet::empty(),
        nonfalse: LitSet::empty(),
    };
    let mut p = 0;
    // A turn goes on by a whole group, whose end is found in the turn, so this is no `for`.
    while p < name.len() {
        let end = group_end(group, p);
        let count = gather(&index.starts, &index.rules, &name[p..end], &mut numbers);
        let own = facts_for(&name[p..end], facts);
        v = settle_group(book, &numbers[..count], own, v);
        p = end;
    }
    v
}
