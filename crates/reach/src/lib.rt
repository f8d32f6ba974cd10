// What the names of a book reach: their working order, group by group the lowest name whose group waits for no other, and the names that reach one
// with both literals in a set. A set of names is a set of literals that has both literals of each name, and a table of what each name reaches has such a
// set for each name.
#![tactic(auto)]

ghost use Rattle.std.specs.Prelude.{◌≡◌, ◌≤◌, ◌<◌, length};
ghost use Rattle.wfsx.specs.Sets.{∅, ◌∪◌};
ghost use Rattle.wfsx.specs.Reach.{name_of, name_in, mentioned, literals_of};
ghost use Rattle.wfsx.specs.Groups.{working_order};
ghost use Rattle.litset.specs.Words.{set_of};
ghost use Rattle.book.specs.Limits.{max_names};
ghost use Rattle.book.specs.Book.{clamp, entry_is, head_at, body_of, rules_of};
ghost use Rattle.reach.specs.Order.{order_table};
ghost use Rattle.reach.specs.Reaching.{ReachingBoth};
ghost use Rattle.reach.specs.Table.{n_names, row_set, paired_word, with_name, both_in, Put, Rows, WholeRows, ReachedBy, settled_with, Completed, TurnOf, SweptBy, WithReaching, RowsHaving, Met, below, NextBy, Released, PutFits, PutNames};

use book::{Book, Entry};
use litset::LitSet;

// The names that a set has room for.
// A table has a row for each: a fixed array, since there is no heap for a Vec.
const NAMES: usize = litset::CAPACITY / 2;

// Place p has the name with the number name[p], of the group with the number group[p]; groups count from 0. Places past the names are 0.
// It is two fixed arrays with counts beside them and no Vec of pairs: there is no heap, and C passes an order by value.
#[repr(C)]
#[derive(Clone, Copy)]
pub struct Order {
    pub names: usize,
    pub groups: usize,
    pub name: [u16; book::MAX_NAMES],
    pub group: [u16; book::MAX_NAMES],
}

// The names of a book below a number, in working order.
pub fn order_below(book: &Book, names: usize) -> Order
    ensures { result ≡ order_table (working_order (rules_of book.now) (clamp max_names names)) }
{
    order_in(book, names.min(book::MAX_NAMES))
}

// Both literals of each name of the book that reaches a name with both literals in a set. A name reaches itself, so such a name is among them. Where there is
// none, nothing has to be reached.
pub fn reaching_both(book: &Book, s: LitSet) -> LitSet
    ensures { ReachingBoth (rules_of book.now) (clamp max_names book.now.names) (set_of s.words) (set_of result.words) }
{
    match s.lowest_both() {
        None => LitSet::empty(),
        Some(_) => reaching_by_table(book, s),
    }
}

// ---- sets of names

// Word i of a set, with both literals of name k where they are of that word.
fn with_pair(word: u64, i: usize, k: usize) -> u64
    ensures { result ≡ paired_word word i k }
{
    if i == k / 32 {
        let at = 2 * (k % 32);
        return word | (1u64 << at) | (1u64 << (at + 1));
    }
    word
}

// The set with name k. Every word is looked at, so that none is stored at a place that is known only when it runs: a set that is read whole right after such a
// store has to wait for it.
fn with_name(s: LitSet, k: usize) -> LitSet
    requires { k < n_names }
    ensures { set_of result.words ≡ with_name k (set_of s.words) }
{
    let mut t = s;
    for (i, word) in t.words.iter_mut().enumerate() {
        *word = with_pair(*word, i, k);
    }
    t
}

fn names_below(names: usize) -> LitSet
    requires { names ≤ n_names }
    ensures { set_of result.words ≡ literals_of (below names) }
{
    let mut s = LitSet::empty();
    for k in 0..names {
        s = with_name(s, k);
    }
    s
}

// ---- what each name reaches

// Row k of a table.
fn row_at(table: &[LitSet; NAMES], k: usize) -> LitSet
    requires { k < n_names }
    ensures { set_of result.words ≡ row_set table.now k }
{
    table[k]
}

fn name_in(e: Entry) -> usize
    ensures { result ≡ name_in (entry_is e) }
{
    match e {
        Entry::Positive(b) => b / 2,
        Entry::Default(c) => c / 2,
    }
}

// The words of a set with name j. One word is read and stored, and not the set: it is done for every entry of every body.
fn add_name(words: &mut [u64; litset::WORDS], j: usize)
    requires { j < n_names }
    ensures { set_of words.new ≡ with_name j (set_of words.old) }
{
    let i = j / 32;
    let at = 2 * (j % 32);
    words[i] = words[i] | (1u64 << at) | (1u64 << (at + 1));
}

// Row k with the names in the body of rule r added.
fn add_names(book: &Book, r: usize, table: &mut [LitSet; NAMES], k: usize)
    requires { k < n_names }
    ensures { Put table.old k
        (row_set table.old k ∪ literals_of (mentioned (body_of book.now.starts book.now.entries r))) table.new }
{
    let start = book::body_start(&book.starts, r);
    let end = book::body_end(&book.starts, &book.entries, r);
    for j in start..end {
        let name = name_in(book::entry_at(&book.entries, j));
        add_name(&mut table[k].words, name);
    }
}

// The name that rule r is for: the head is one of its literals.
fn name_for(heads: &[u16], r: usize) -> usize
    ensures { result ≡ name_of (head_at heads.now r) }
{
    book::head_at(heads, r) / 2
}

// The names in the bodies of each name's rules. No row is whole yet.
fn direct(book: &Book) -> [LitSet; NAMES]
    ensures { Rows (rules_of book.now) ∅ result }
{
    let mut table = [LitSet::empty(); NAMES];
    for r in 0..book.rule_count() {
        let k = name_for(&book.heads, r);
        add_names(book, r, &mut table, k);
    }
    table
}

// The names whose bodies are found, with j among them. With a whole row the bodies of all its names are found.
fn settled(done: LitSet, j: usize, whole: LitSet, row: LitSet) -> LitSet
    requires { j < n_names }
    ensures { set_of result.words ≡ settled_with j (set_of whole.words) (set_of row.words) (set_of done.words) }
{
    if whole.contains(2 * j) & row.contains(2 * j) {
        return done.union(row);
    }
    with_name(done, j)
}

// What name k reaches: the names found until the bodies of all of them are.
// More names are found while these are gone through, so how many turns there are shows only at the end, and this is no `for`.
fn reached(table: &[LitSet; NAMES], whole: LitSet, k: usize) -> LitSet
    requires { k < n_names }
    ensures { ReachedBy table.now (set_of whole.words) k (set_of result.words) }
{
    let mut found = with_name(LitSet::empty(), k);
    let mut done = LitSet::empty();
    loop {
        match found.difference(done).lowest_both() {
            None => {
                return found;
            }
            Some(j) => {
                let row = row_at(table, j);
                found = found.union(row);
                done = settled(done, j, whole, row);
            }
        }
    }
}

// Whether the bodies of name k's rules speak of k and of names with whole rows alone: then its row is soon found. Any answer would be right.
fn is_soon_found(table: &[LitSet; NAMES], whole: LitSet, k: usize) -> bool
    requires { k < n_names }
{
    let known = with_name(whole, k);
    known.union(row_at(table, k)).equal(known)
}

// Makes row k whole, where it is not yet and is soon found or wanted by all means. Answers with the names whose rows are whole.
fn complete(table: &mut [LitSet; NAMES], whole: LitSet, k: usize, all: bool) -> LitSet
    requires { k < n_names }
    ensures { Completed table.old (set_of whole.words) k all table.new (set_of result.words) }
{
    if whole.contains(2 * k) {
        return whole;
    }
    if !all & !is_soon_found(table, whole, k) {
        return whole;
    }
    let row = reached(table, whole, k);
    table[k] = row;
    with_name(whole, k)
}

// The name at a turn of a way through the names below a number.
fn name_at_turn(names: usize, i: usize, down: bool) -> usize
    requires { i < names }
    ensures { TurnOf names i down result }
{
    if down { names - 1 - i } else { i }
}

// Goes through the names below a number, upwards or downwards, and makes rows whole.
// `down` and `all` are two flags that its one clause reads for all three calls: a closure for the way through the names would need a law of its own in it.
fn sweep(table: &mut [LitSet; NAMES], whole: LitSet, names: usize, down: bool, all: bool) -> LitSet
    requires { names ≤ n_names }
    ensures { SweptBy table.old (set_of whole.words) names down all table.new (set_of result.words) }
{
    let mut found = whole;
    for i in 0..names {
        let k = name_at_turn(names, i, down);
        found = complete(table, found, k, all);
    }
    found
}

// What each name below a number reaches. A row is soon found once those of the names in its bodies are whole, so the names are gone through upwards and
// downwards for such rows before all others.
fn reach_table(book: &Book, names: usize) -> [LitSet; NAMES]
    requires { names ≤ n_names }
    ensures { WholeRows (rules_of book.now) names result }
{
    let mut table = direct(book);
    let up = sweep(&mut table, LitSet::empty(), names, false, false);
    let down = sweep(&mut table, up, names, true, false);
    sweep(&mut table, down, names, false, true);
    table
}

// ---- the names that reach a name with both literals in a set

// The names found, with more of them where the row of these has a name with both literals in a set. The row without what the set has not is what the
// two share.
fn with_reaching(found: LitSet, more: LitSet, row: LitSet, s: LitSet) -> LitSet
    ensures { WithReaching (set_of found.words) (set_of more.words) (set_of row.words) (set_of s.words) (set_of result.words) }
{
    match row.difference(row.difference(s)).lowest_both() {
        None => found,
        Some(_) => found.union(more),
    }
}

// The names below a number whose rows have a name with both literals in a set.
fn rows_having(table: &[LitSet; NAMES], names: usize, s: LitSet) -> LitSet
    requires { names ≤ n_names }
    ensures { RowsHaving table.now names (set_of s.words) (set_of result.words) }
{
    let mut found = LitSet::empty();
    for k in 0..names {
        let itself = with_name(LitSet::empty(), k);
        let row = row_at(table, k);
        found = with_reaching(found, itself, row, s);
    }
    found
}

// What `reaching_both` gives, by a table of what each name reaches.
fn reaching_by_table(book: &Book, s: LitSet) -> LitSet
    ensures { ReachingBoth (rules_of book.now) (clamp max_names book.now.names) (set_of s.words) (set_of result.words) }
{
    let names = book.name_count();
    let table = reach_table(book, names);
    rows_having(&table, names, s)
}

// ---- the next group

// The names of a set that reach name k, from the lowest to the first that does not, with k itself.
// It goes from member to member and ends at the first that does not reach k. A `for` would go through the numbers of all names and ask of each besides
// whether it is a member.
fn meet(table: &[LitSet; NAMES], among: LitSet, k: usize) -> LitSet
    requires { k < n_names }
    ensures { Met table.now k (set_of among.words) (set_of result.words) }
{
    let mut met = with_name(LitSet::empty(), k);
    loop {
        match among.difference(met).lowest_both() {
            None => {
                return met;
            }
            Some(j) => {
                if !row_at(table, j).contains(2 * k) {
                    return met;
                }
                met = with_name(met, j);
            }
        }
    }
}

// The group that comes next, and names known to wait. Where none comes the group is the empty set, as the look for it ends: an Option would say that twice.
#[derive(Clone, Copy)]
struct NextGroup {
    group: LitSet,
    stuck: LitSet,
}

// The group that comes next, of those whose names are left. Of the names left that a name reaches all must be of its group. Names of a group that may not
// come are passed over together, and noted in the row of a name they wait for: until that one is listed they need not be tried again.
// A turn passes over as many names as were met, so how many turns there are shows only at the end, and this is no `for`.
fn next_group(
    table: &[LitSet; NAMES],
    left: LitSet,
    stuck: LitSet,
    watch: &mut [LitSet; NAMES],
) -> NextGroup
    ensures { NextBy table.now (set_of left.words) watch.old (set_of stuck.words)
        watch.new (set_of result.stuck.words) (set_of result.group.words) }
{
    let mut out = stuck;
    loop {
        match left.difference(out).lowest_both() {
            None => {
                return NextGroup {
                    group: LitSet::empty(),
                    stuck: out,
                };
            }
            Some(k) => {
                let row = row_at(table, k);
                let among = row.difference(row.difference(left));
                let met = meet(table, among, k);
                match among.difference(met).lowest_both() {
                    None => {
                        return NextGroup {
                            group: met,
                            stuck: out,
                        };
                    }
                    Some(j) => {
                        watch[j] = row_at(watch, j).union(met);
                        out = out.union(met);
                    }
                }
            }
        }
    }
}

// The names known to wait for a name that is left, once a group is listed: those without the names that wait for one of the group.
// It goes from member to member of the group. A `for` would go through the numbers of all names and ask of each besides whether it is a member.
fn release(watch: &[LitSet; NAMES], stuck: LitSet, group: LitSet) -> LitSet
    ensures { Released watch.now (set_of group.words) (set_of stuck.words) (set_of result.words) }
{
    let mut out = stuck;
    let mut done = LitSet::empty();
    loop {
        match group.difference(done).lowest_both() {
            None => {
                return out;
            }
            Some(j) => {
                out = out.difference(row_at(watch, j));
                done = with_name(done, j);
            }
        }
    }
}

// ---- the table

// Puts the names of a group, the lowest first, and the group's number at the places from `at` on. Answers with the place behind them.
// It goes from member to member. A `for` would go through the numbers of all names and ask of each besides whether it is a member.
fn put_names(
    group: LitSet,
    number: usize,
    at: usize,
    name: &mut [u16],
    numbers: &mut [u16],
) -> usize
    requires { PutFits (set_of group.words) number at name.old numbers.old }
    ensures { PutNames (both_in (set_of group.words)) number at name.old numbers.old result name.new numbers.new }
{
    let mut left = group;
    let mut p = at;
    loop {
        match left.lowest_both() {
            None => {
                return p;
            }
            Some(k) => {
                // Each `as` loses nothing, and `try_from` would bring an error that cannot come.
                name[p] = k as u16;
                numbers[p] = number as u16;
                p += 1;
                left = left.difference(with_name(LitSet::empty(), k));
            }
        }
    }
}

// The names below a number in working order.
// A turn lists a whole group, and how many groups there are shows only when none comes, so this is no `for`.
fn order_in(book: &Book, names: usize) -> Order
    requires { names ≤ max_names }
    ensures { result ≡ order_table (working_order (rules_of book.now) names) }
{
    let table = reach_table(book, names);
    let mut name = [0u16; book::MAX_NAMES];
    let mut group = [0u16; book::MAX_NAMES];
    let mut left = names_below(names);
    let mut watch = [LitSet::empty(); NAMES];
    let mut stuck = LitSet::empty();
    let mut at = 0;
    let mut groups = 0;
    loop {
        let next = next_group(&table, left, stuck, &mut watch);
        if next.group.equal(LitSet::empty()) {
            return Order {
                names,
                groups,
                name,
                group,
            };
        }
        at = put_names(next.group, groups, at, &mut name, &mut group);
        left = left.difference(next.group);
        stuck = release(&watch, next.stuck, next.group);
        groups += 1;
    }
}
