// The search of a question through its pruned trees. Ancestors are marks in two tables, set on the way down and taken off on the way up. The
// same tables keep, for one search, what the trees answer for a literal, so that no tree is walked again for nothing. Neither M nor N is
// read.
#![tactic(auto)]

ghost use Rattle.std.specs.Prelude.{◌≡◌, ◌||◌, ◌<◌, ◌≤◌, length, map};
ghost use Rattle.wfsx.specs.Sets.{∅};
ghost use Rattle.wfsx.specs.Model.{every, head_count};
ghost use Rattle.wfsx.specs.Trees.{tree, answer, T, TU};
ghost use Rattle.litset.specs.Words.{capacity, set_of};
ghost use Rattle.book.specs.Book.{entry_is, literal_in, body_of, program_of};
ghost use Rattle.index.specs.Index.{supported_by};
ghost use Rattle.search.specs.Questions.{tree_of, question_of, decided_by};
ghost use Rattle.search.specs.Bound.{most_visits};
ghost use Rattle.search.specs.Marks.{t_code, turned_mark, t_left, held_left, u_left, is_holds, is_fails, found, leaf_says};
ghost use Rattle.search.specs.Walk.{program_in, rules_in, rule_in, head_in, state, coded, blank, Ready, TVisit, TuVisit, TuSearch, Asked};

mod over;

use crate::over::Walk;
use book::{Book, Entry};
use litset::LitSet;

#[derive(Clone, Copy, Debug, PartialEq, Eq)]
pub enum Tree {
    T,
    Tu,
}

// Whether the literal, or `not` of it where `default` says so, holds as the question of a search of this kind. A literal past the capacity has
// no rule and is no fact: it fails, and `not` of it holds.
pub fn search(book: &Book, facts: LitSet, literal: usize, default: bool, tree: Tree) -> bool
    ensures { result ≡ answer (program_of book.now (set_of facts.words)) (tree_of tree) (question_of literal default) }
{
    search_counted(book, facts, literal, default, tree).holds
}

// An answer, and how many nodes asked their rules for it.
#[derive(Clone, Copy)]
pub struct Counted {
    pub holds: bool,
    pub visits: usize,
}

// The same search, with its visits.
pub fn search_counted(
    book: &Book,
    facts: LitSet,
    literal: usize,
    default: bool,
    tree: Tree,
) -> Counted
    ensures { (result.holds ≡ answer (program_of book.now (set_of facts.words)) (tree_of tree) (question_of literal default))
        × (result.visits ≤ most_visits (head_count capacity (program_of book.now (set_of facts.words)))) }
{
    if litset::CAPACITY <= literal {
        return Counted {
            holds: default,
            visits: 0,
        };
    }
    let index = index::index_of(&book.heads, book.rules);
    let walk = Walk {
        index: &index,
        book,
        facts,
    };
    let walked = walk.root(decided_by(tree, default), literal);
    if default {
        return Counted {
            holds: !walked.holds,
            visits: walked.visits,
        };
    }
    walked
}

// The kind of the tree that decides a question.
fn decided_by(tree: Tree, default: bool) -> Tree
    ensures { tree_of result ≡ decided_by (tree_of tree) default }
{
    match (tree, default) {
        (_, false) => tree,
        (Tree::T, true) => Tree::Tu,
        (Tree::Tu, true) => Tree::T,
    }
}

// ---- findings

// What a visit finds: that the literal holds, that it fails, or that a TU-tree waits for a T-tree for another literal.
#[derive(Clone, Copy)]
enum Finding {
    Holds,
    Fails,
    Waits(usize),
}

impl From<bool> for Finding {
    ghost from_gives = { λ holds f. f ≡ found holds };

    fn from(holds: bool) -> Finding {
        if holds {
            Finding::Holds
        } else {
            Finding::Fails
        }
    }
}

impl Finding {
    fn holds(self) -> bool
        ensures { result ≡ is_holds self }
    {
        matches!(self, Finding::Holds)
    }

    fn fails(self) -> bool
        ensures { result ≡ is_fails self }
    {
        matches!(self, Finding::Fails)
    }
}

// ---- marks

// What is known of a literal in the trees of one kind, or that it stands above the present node.
#[derive(Clone, Copy, PartialEq, Eq)]
enum Mark {
    Unknown,
    // In T-trees: it holds, it fails below the present T-ancestors, it is one of them.
    Proved,
    Failed,
    Above,
    // In TU-trees: it fails whatever stands above it, it holds below the present T-ancestors, it failed in the present tree, it is on the
    // tree's path.
    False,
    Held,
    Shut,
    Path,
}

impl Mark {
    fn turned(self, from: Mark, to: Mark) -> Mark
        ensures { result ≡ turned_mark from to self }
    {
        if self == from { to } else { self }
    }
}

// The marks of the literals in T-trees and in TU-trees, and how many nodes have asked their rules.
// Both tables are fixed arrays, since there is no heap for a Vec. They stay two: a node of one kind of tree reads and writes its own.
#[derive(Clone, Copy)]
struct State {
    t: [Mark; litset::CAPACITY],
    u: [Mark; litset::CAPACITY],
    visits: usize,
}

// Each mark `from` of a table becomes `to`.
fn turn(marks: &mut [Mark; litset::CAPACITY], from: Mark, to: Mark)
    ensures { marks.new ≡ map (turned_mark from to) marks.old }
{
    for i in 0..litset::CAPACITY {
        marks[i] = marks[i].turned(from, to);
    }
}

impl State {
    // Nothing is marked, and no node has asked.
    fn blank() -> State
        ensures { coded result ≡ blank }
    {
        let t = [Mark::Unknown; litset::CAPACITY];
        let u = [Mark::Unknown; litset::CAPACITY];
        let visits = 0;
        State { t, u, visits }
    }

    // The node of a T-tree is left: its literal is no ancestor any more. Where it holds, what failed or was held below it may not be so above it.
    fn leave_t(&mut self, a: usize, f: Finding)
        requires { a < capacity }
        ensures { coded self.new ≡ state (t_left f a (coded self.old).t) (held_left f (coded self.old).u) self.old.visits }
    {
        match f {
            Finding::Holds => {
                turn(&mut self.t, Mark::Failed, Mark::Unknown);
                turn(&mut self.u, Mark::Held, Mark::Unknown);
                self.t[a] = Mark::Proved;
            }
            Finding::Fails | Finding::Waits(_) => {
                self.t[a] = Mark::Failed;
            }
        }
    }

    // The node of a TU-tree is left: its literal is not on the path any more. Where it holds, what failed below it may not fail above it.
    fn leave_u(&mut self, a: usize, f: Finding)
        requires { a < capacity }
        ensures { coded self.new ≡ state (coded self.old).t (u_left f a (coded self.old).u) self.old.visits }
    {
        match f {
            Finding::Holds => {
                turn(&mut self.u, Mark::Shut, Mark::Unknown);
                self.u[a] = Mark::Held;
            }
            Finding::Fails => {
                self.u[a] = Mark::Shut;
            }
            Finding::Waits(_) => {
                self.u[a] = Mark::Unknown;
            }
        }
    }
}

// ---- the walk

impl<'a> Walk<'a> {
    // The trees of this kind for a literal, with nothing above them.
    fn root(&self, kind: Tree, a: usize) -> Counted
        requires { a < capacity }
        ensures { (result.holds ≡ tree (program_in self.now) (tree_of kind) ∅ ∅ a)
            × (result.visits ≤ most_visits (head_count capacity (program_in self.now))) }
    {
        let mut s = State::blank();
        let holds = match kind {
            Tree::T => self.t_node(&mut s, a),
            Tree::Tu => self.tu_search(&mut s, a),
        };
        Counted {
            holds,
            visits: s.visits,
        }
    }

    // Whether a literal, which `fact` says to be a fact or not, is a head.
    fn is_head(&self, fact: bool, a: usize) -> bool
        ensures { result ≡ (fact || rule_in self.now a) }
    {
        fact || index::rules_start(&self.index.starts, a)
            < index::rules_end(&self.index.starts, &self.index.rules, a)
    }

    // What a leaf `not b` of a TU-tree says by the mark of `b` in T-trees. Where there is none a T-tree is wanted first, if `b` is a head; if
    // it is not, it fails, and the leaf holds.
    fn leaf(&self, mark: Mark, b: usize) -> Finding
        ensures { result ≡ leaf_says (head_in self.now b) (t_code mark) b }
    {
        match mark {
            Mark::Unknown => {}
            Mark::Proved => return Finding::Fails,
            _ => return Finding::Holds,
        }
        if self.is_head(self.facts.contains(b), b) {
            return Finding::Waits(b);
        }
        Finding::Holds
    }

    // ---- T-trees

    // What each function of the cycle needs of the state is one name, `Ready`. It is no invariant of `State`, since it speaks of the walk and of the kind too.

    // A node of a T-tree. A literal that fails leaves all that was found below it true, and one that holds is kept for good.
    #[cycle(walk_trees)]
    fn t_node(&self, s: &mut State, a: usize) -> bool
        requires { (a < capacity) × Ready (program_in self.now) T (coded s.old) (head_count capacity (program_in self.now)) }
        ensures { TVisit (program_in self.now) (coded s.old) (coded s.new) a result }
    {
        let known = s.t[a];
        match known {
            Mark::Unknown => {}
            Mark::Proved => return true,
            _ => return false,
        }
        if self.facts.contains(a) {
            s.t[a] = Mark::Proved;
            return true;
        }
        if !self.is_head(false, a) {
            return false;
        }
        s.visits += 1;
        s.t[a] = Mark::Above;
        let f = self.some_rule(s, Tree::T, a);
        s.leave_t(a, f);
        f.holds()
    }

    // ---- TU-trees

    // The TU-trees for a literal. A T-tree that one of them waits for is opened from here, and the walk begun again with what is then known: so no path of
    // a TU-tree stands above a T-tree, and the stack is linear in the literals. How often it is begun shows only at the end, so this is no `for`.
    #[cycle(walk_trees)]
    fn tu_search(&self, s: &mut State, a: usize) -> bool
        requires { (a < capacity) × Ready (program_in self.now) T (coded s.old) 0 }
        ensures { TuSearch (program_in self.now) (coded s.old) (coded s.new) a result }
    {
        loop {
            match self.tu_node(s, a) {
                Finding::Holds => {
                    return true;
                }
                Finding::Fails => {
                    turn(&mut s.u, Mark::Shut, Mark::False);
                    return false;
                }
                Finding::Waits(l) => {
                    turn(&mut s.u, Mark::Shut, Mark::Unknown);
                    self.t_node(s, l);
                }
            }
        }
    }

    // A node of a TU-tree. The added leaf, `not` of the complement, is asked for once and not under each rule (`complement_once`).
    #[cycle(walk_trees)]
    fn tu_node(&self, s: &mut State, a: usize) -> Finding
        requires { (a < capacity) × Ready (program_in self.now) TU (coded s.old) 0 }
        ensures { TuVisit (program_in self.now) (coded s.old) (coded s.new) a result }
    {
        let known = s.u[a];
        match known {
            Mark::Unknown => {}
            Mark::Held => return Finding::Holds,
            _ => return Finding::Fails,
        }
        let fact = self.facts.contains(a);
        if !self.is_head(fact, a) {
            return Finding::Fails;
        }
        let other = litset::complement(a);
        let added = self.leaf(s.t[other], other);
        if !added.holds() {
            return added;
        }
        if fact {
            return Finding::Holds;
        }
        s.visits += 1;
        s.u[a] = Mark::Path;
        let f = self.some_rule(s, Tree::Tu, a);
        s.leave_u(a, f);
        f
    }

    // ---- the rules and the entries of either tree

    // `kind` is a parameter of all three and there is no closure for each kind: with closures each clause of the cycle would have to be said of them too.

    // Whether all children under some rule for `a` hold.
    #[cycle(walk_trees)]
    fn some_rule(&self, s: &mut State, kind: Tree, a: usize) -> Finding
        requires { Ready (program_in self.now) (tree_of kind) (coded s.old) 0 }
        ensures { Asked (program_in self.now) (tree_of kind) (coded s.old) (coded s.new) (λ test. rules_in self.now test a) result }
    {
        let end = index::rules_end(&self.index.starts, &self.index.rules, a);
        for p in index::rules_start(&self.index.starts, a)..end {
            let f = self.all_children(s, kind, index::rule_at(&self.index.rules, p));
            if !f.fails() {
                return f;
            }
        }
        Finding::Fails
    }

    // Whether all children under rule `i` hold.
    #[cycle(walk_trees)]
    fn all_children(&self, s: &mut State, kind: Tree, i: usize) -> Finding
        requires { Ready (program_in self.now) (tree_of kind) (coded s.old) 0 }
        ensures { Asked (program_in self.now) (tree_of kind) (coded s.old) (coded s.new)
            (λ test. every test (body_of self.now.book.now.starts self.now.book.now.entries i)) result }
    {
        let end = book::body_end(&self.book.starts, &self.book.entries, i);
        for j in book::body_start(&self.book.starts, i)..end {
            let f = self.child(s, kind, book::entry_at(&self.book.entries, j));
            if !f.holds() {
                return f;
            }
        }
        Finding::Holds
    }

    // A child of a node. In a T-tree the second way of a leaf, a T-tree for the complement, is left out: it follows from the first
    // (`first_way`). A leaf of a TU-tree opens nothing itself.
    #[cycle(walk_trees)]
    fn child(&self, s: &mut State, kind: Tree, e: Entry) -> Finding
        requires { (literal_in (entry_is e) < capacity) × Ready (program_in self.now) (tree_of kind) (coded s.old) 0 }
        ensures { Asked (program_in self.now) (tree_of kind) (coded s.old) (coded s.new) (λ test. test (entry_is e)) result }
    {
        match (kind, e) {
            (Tree::T, Entry::Positive(b)) => Finding::from(self.t_node(s, b)),
            (Tree::T, Entry::Default(b)) => Finding::from(!self.tu_search(s, b)),
            (Tree::Tu, Entry::Positive(b)) => self.tu_node(s, b),
            (Tree::Tu, Entry::Default(b)) => self.leaf(s.t[b], b),
        }
    }
}
