// The bytes of the listing and of a refusal, written into a lent buffer.
#![tactic(auto)]

ghost use Rattle.std.specs.Prelude.{◌≡◌, [], ◌<◌, ◌≤◌, get_or};
ghost use Rattle.book.specs.Limits.{max_names};
ghost use Rattle.book.specs.Book.{name_at, names_in};
ghost use Rattle.scan.specs.Text.{newline};
ghost use Rattle.lister.specs.Listing.{verdict_word, digits, field, name_line, name_lines, verdicts_by, words_by, listing_held, refusal_of};
ghost use Rattle.lister.specs.Buffer.{Writes};
ghost use Rattle.lister.specs.Steps.{Room, Put, counts_to, verdicts_end, header_of};

use book::Book;
use fixpoint::{Model, Verdict};
use litset::LitSet;

// What a listing shows of a lesson: its model, and the literals whose verdicts 24 would refuse.
#[repr(C)]
#[derive(Clone, Copy)]
pub struct Marks {
    pub model: Model,
    pub contradictory: LitSet,
}

// The counts of a header.
#[derive(Clone, Copy)]
struct Counts {
    names: usize,
    rules: usize,
    facts: usize,
    rounds: usize,
}

// ---- fields: each function writes from `at` on and answers the next place; past the end of the buffer nothing is stored

// Buffer and place stay two parameters: a struct of both is no plainer, since each clause would name two of its fields before the call and two after, in
// place of `t.old`, `at`, `t.new` and `result`. Each needs room for what it writes, which is another thing in each: `Room` is the one name for it.
// Digits and words are written here and not by Display: there is no heap, and the clauses speak of bytes.

// The bytes of s, and the byte `stop` behind them.
fn put_word(t: &mut [u8], at: usize, s: &[u8], stop: u8) -> usize
    requires { Room (field s.now stop) at }
    ensures { Put (field s.now stop) at t.old t.new result }
{
    store::put_all(t, at, s);
    let end = at + s.len();
    store::put8(t, end, stop);
    end + 1
}

// A number in decimal digits: those of its tenth, and the last.
// Each `as` loses nothing, and `try_from` would bring an error that cannot come.
fn put_digits(t: &mut [u8], at: usize, n: usize) -> usize
    requires { Room (digits n) at }
    ensures { Put (digits n) at t.old t.new result }
{
    if n < 10 {
        store::put8(t, at, 48 + n as u8);
        return at + 1;
    }
    let p = put_digits(t, at, n / 10);
    store::put8(t, p, 48 + (n % 10) as u8);
    p + 1
}

// A number, and the byte `stop` behind it.
fn put_number(t: &mut [u8], at: usize, n: usize, stop: u8) -> usize
    requires { Room (field (digits n) stop) at }
    ensures { Put (field (digits n) stop) at t.old t.new result }
{
    let p = put_digits(t, at, n);
    store::put8(t, p, stop);
    p + 1
}

// The word of a literal's verdict, and the byte `stop` behind it.
fn put_verdict(t: &mut [u8], at: usize, model: Model, l: usize, stop: u8) -> usize
    requires { Room (field (verdict_word (verdicts_by model l)) stop) at }
    ensures { Put (field (verdict_word (verdicts_by model l)) stop) at t.old t.new result }
{
    match model.verdict_of(l) {
        Verdict::True => put_word(t, at, b"true", stop),
        Verdict::False => put_word(t, at, b"false", stop),
        Verdict::Undefined => put_word(t, at, b"undefined", stop),
    }
}

// The word in the verdict field of a literal, and the byte `stop` behind it.
fn put_mark(t: &mut [u8], at: usize, marks: Marks, l: usize, stop: u8) -> usize
    requires { Room (field (words_by marks l) stop) at }
    ensures { Put (field (words_by marks l) stop) at t.old t.new result }
{
    if marks.contradictory.contains(l) {
        return put_word(t, at, b"contradictory", stop);
    }
    put_verdict(t, at, marks.model, l, stop)
}

// ---- lines

// The counts of a header, and the byte `stop` behind the last.
fn put_counts(t: &mut [u8], at: usize, counts: Counts, stop: u8) -> usize
    requires { Room (counts_to stop counts) at }
    ensures { Put (counts_to stop counts) at t.old t.new result }
{
    let p = put_number(t, at, counts.names, b',');
    let q = put_number(t, p, counts.rules, b',');
    let r = put_number(t, q, counts.facts, b',');
    put_number(t, r, counts.rounds, stop)
}

// The verdict field of name k and that of its explicit negation, the end of its line.
fn put_verdicts(t: &mut [u8], at: usize, marks: Marks, k: usize) -> usize
    requires { Room (verdicts_end (words_by marks) k) at × (k < max_names) }
    ensures { Put (verdicts_end (words_by marks) k) at t.old t.new result }
{
    let p = put_mark(t, at, marks, 2 * k, b',');
    put_mark(t, p, marks, 2 * k + 1, b'\n')
}

// The line of name k.
fn put_name_line(t: &mut [u8], at: usize, book: &Book, k: usize, marks: Marks) -> usize
    requires { Room (name_line (words_by marks) k (name_at book.now.text book.now.lengths k)) at × (k < max_names) }
    ensures { Put (name_line (words_by marks) k (name_at book.now.text book.now.lengths k))
        at t.old t.new result }
{
    let p = put_number(t, at, k, b',');
    let q = put_word(t, p, book.name_at(k), b',');
    put_verdicts(t, q, marks, k)
}

// The lines of the first `count` names.
fn put_name_lines(t: &mut [u8], at: usize, book: &Book, count: usize, marks: Marks) -> usize
    requires { Room (name_lines (words_by marks) 0 (names_in book.now.text book.now.lengths count)) at × (count ≤ max_names) }
    ensures { Put (name_lines (words_by marks) 0 (names_in book.now.text book.now.lengths count))
        at t.old t.new result }
{
    let mut p = at;
    for k in 0..count {
        p = put_name_line(t, p, book, k, marks);
    }
    p
}

// Name k as the end of a line; a number past the names stands for the empty name.
fn put_name_end(t: &mut [u8], at: usize, book: &Book, count: usize, k: usize) -> usize
    requires { Room (field (get_or (names_in book.now.text book.now.lengths count) k []) newline) at }
    ensures { Put (field (get_or (names_in book.now.text book.now.lengths count) k []) newline)
        at t.old t.new result }
{
    if k < count {
        return put_word(t, at, book.name_at(k), b'\n');
    }
    put_word(t, at, &[], b'\n')
}

// ---- the listing, from the start of a buffer on

fn put_header(t: &mut [u8], book: &Book, counts: Counts, clash: Option<usize>) -> usize
    requires { Room (header_of book.now.text book.now.lengths counts clash) 0 }
    ensures { Put (header_of book.now.text book.now.lengths counts clash) 0 t.old t.new result }
{
    match clash {
        None => {
            let p = put_word(t, 0, b"model", b',');
            put_counts(t, p, counts, b'\n')
        }
        Some(k) => {
            let p = put_word(t, 0, b"contradiction", b',');
            let q = put_counts(t, p, counts, b',');
            put_name_end(t, q, book, counts.names, k)
        }
    }
}

fn put_listing(t: &mut [u8], book: &Book, facts: LitSet, marks: Marks) -> usize
    ensures { Put (listing_held book.now facts marks) 0 t.old t.new result }
{
    let names = book.name_count();
    let counts = Counts {
        names,
        rules: book.rule_count(),
        facts: facts.count(),
        rounds: marks.model.rounds,
    };
    let clash = marks.model.truths.lowest_both();
    let p = put_header(t, book, counts, clash);
    put_name_lines(t, p, book, names, marks)
}

fn put_refusal(t: &mut [u8], number: u8, line: usize) -> usize
    ensures { Put (refusal_of number line) 0 t.old t.new result }
{
    let p = put_word(t, 0, b"refused", b',');
    let q = put_number(t, p, usize::from(number), b',');
    put_number(t, q, line, b'\n')
}

// ---- the calls: their answer is how many bytes were written, or none where the buffer is shorter than them; a buffer of one byte tells the length, since the place behind the bytes does not depend on how many fit

// The listing of a book, the facts put in and the marks of them.
pub fn write(book: &Book, facts: LitSet, marks: Marks, buffer: &mut [u8]) -> Option<usize>
    ensures { Writes (listing_held book.now facts marks) buffer.old result buffer.new }
{
    let mut tried = [0u8; 1];
    let length = put_listing(&mut tried, book, facts, marks);
    if buffer.len() < length {
        return None;
    }
    put_listing(buffer, book, facts, marks);
    Some(length)
}

// `refused,NUMBER,LINE`.
// The number is a `u8` and no enum of faults, since the clause speaks of every number.
pub fn write_refusal(number: u8, line: usize, buffer: &mut [u8]) -> Option<usize>
    ensures { Writes (refusal_of number line) buffer.old result buffer.new }
{
    let mut tried = [0u8; 1];
    let n = put_refusal(&mut tried, number, line);
    if buffer.len() < n {
        return None;
    }
    put_refusal(buffer, number, line);
    Some(n)
}
