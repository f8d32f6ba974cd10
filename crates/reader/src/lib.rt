// A marking file of whatever bytes becomes a book, or is refused under its number and line. Sizing reads it the same way and stores no book.
#![tactic(auto)]

ghost use Rattle.std.specs.Prelude.{◌≡◌, false, not, List, [], ◌∷◌, ℕ, ◌+◌, ◌≤◌, ◌<◌, length};
ghost use Rattle.scan.specs.Text.{newline, comma, max_length, split, rest, fields};
ghost use Rattle.scan.specs.declared.Word.TheVariants.{Name, Rule as RuleWord};
ghost use Rattle.scan.specs.declared.Alphabet.TheVariants.{EitherCase};
ghost use Rattle.book.specs.Limits.{max_names, max_rules, max_entries, max_body};
ghost use Rattle.keys.specs.Keyed.{Keyed};
ghost use Rattle.reader.specs.File.{Content, nothing_yet, all_fields, is_literal, wrong_fields, malformed, read_lines, read_file};
ghost use Rattle.reader.specs.Loading.{number_of, LoadedAs};
ghost use Rattle.reader.specs.Sizing.{SizedAs};
ghost use Rattle.reader.specs.Tables.{Lists, no_lists, lists_of, with_name, with_entry, with_rule};
ghost use Rattle.reader.specs.Steps.{no_counts, Fits, Holds, KnownAmong, FieldsKnown, line_step, word_step, LineRead, FileRead};

use book::Book;
use keys::Names;
use scan::{Alphabet, Word};

// The most bytes of a file; `max_bytes` in specs/File.antt is the same number.
const MAX_BYTES: usize = 60000;

// ---- refusals

// What is wrong with a file: the conditions of refusals 1 to 9 (specs/Conditions.antt), with their numbers.
#[derive(Clone, Copy, Debug, PartialEq, Eq)]
pub enum Fault {
    TooLong = 1,
    StrangeByte = 2,
    LastLineOpen = 3,
    FieldsWrong = 4,
    FormWrong = 5,
    NameTaken = 6,
    NameMissing = 7,
    TableFull = 8,
    EndNotLast = 9,
}

impl Fault {
    // The number of the refusal.
    pub fn number(self) -> u8
        ensures { result ≡ number_of self }
    {
        // `as` is how an enum with numbers gives its number.
        self as u8
    }
}

// A fault and its line, which is 0 where the fault is that of the whole file.
#[derive(Clone, Copy, Debug, PartialEq, Eq)]
pub struct Refusal {
    pub fault: Fault,
    pub line: usize,
}

// ---- tables

// Where the names and rules of a file go.
trait Tables {
    // What they hold.
    ghost lists: { Self → Lists };

    // Name k.
    fn put_name(&mut self, k: usize, name: &[u8])
        requires { (k < max_names) × (length name.now ≤ max_length) }
        ensures { lists self.new ≡ with_name (lists self.old) k name.now };

    // What stands in place j of the bodies: twice a literal, and one more where `not` stands before it. Past the end of a table it is left out.
    fn put_entry(&mut self, j: usize, entry: u16)
        ensures { lists self.new ≡ with_entry (lists self.old) j entry };

    // The head of rule r, and where its body ends.
    fn put_rule(&mut self, r: usize, head: u16, end: u16)
        requires { r < max_rules }
        ensures { lists self.new ≡ with_rule (lists self.old) r head end };
}

impl Tables for Book {
    ghost lists = { lists_of };

    fn put_name(&mut self, k: usize, name: &[u8]) {
        store::put_all(&mut self.text, scan::MAX_LENGTH * k, name);
        // `as` loses nothing, and `try_from` would bring an error that cannot come.
        self.lengths[k] = name.len() as u8;
    }

    fn put_entry(&mut self, j: usize, entry: u16) {
        store::put16(&mut self.entries, j, entry);
    }

    fn put_rule(&mut self, r: usize, head: u16, end: u16) {
        self.heads[r] = head;
        self.starts[r + 1] = end;
    }
}

// No tables: a file is read and nothing is stored.
#[derive(Clone, Copy)]
struct Unstored;

impl Tables for Unstored {
    ghost lists = { λ s. no_lists };

    fn put_name(&mut self, _k: usize, _name: &[u8]) {}

    fn put_entry(&mut self, _j: usize, _entry: u16) {}

    fn put_rule(&mut self, _r: usize, _head: u16, _end: u16) {}
}

// ---- a name's line

// How much has been read: names, rules, body literals, and whether `end` came. That it fits the tables is required of it by three functions (`Fits`): as a
// ghost field that would be no plainer, since a struct with one has no `..t`, and functions whose clauses name it stand in another file.
#[derive(Clone, Copy)]
struct Counts {
    names: usize,
    rules: usize,
    used: usize,
    ended: bool,
}

// The line that declares `name`.
fn name_line<T: Tables>(
    t: Counts,
    names: &mut Names,
    tables: &mut T,
    name: &[u8],
) -> Result<Counts, Fault>
    requires { Fits t × (t.ended ≡ false) }
    ensures { (d : Content) → Holds d t names.old
        → LineRead (word_step d Name (name.now ∷ [])) result names.new (T.lists tables.old)
        (T.lists tables.new) }
{
    if !scan::is_name(name) {
        return Err(Fault::FormWrong);
    }
    let count = t.names;
    let key = scan::key_of(name, Alphabet::EitherCase);
    let None = names.find(count, key) else {
        return Err(Fault::NameTaken);
    };
    let full = book::MAX_NAMES <= count;
    if full {
        return Err(Fault::TableFull);
    }
    names.put(count, key);
    tables.put_name(count, name);
    Ok(Counts {
        names: count + 1,
        ..t
    })
}

// ---- a rule's line

// Whether a field reads as a literal.
fn is_literal(f: &[u8]) -> bool
    ensures { result ≡ is_literal EitherCase f.now }
{
    scan::form_of(f).is_some()
}

// Whether every field reads as a literal, and the first, which is the head, has no `~`.
fn well_formed(rule: &[u8]) -> bool
    ensures { result ≡ not (malformed EitherCase RuleWord (fields rule.now)) }
{
    let e = scan::end_of(rule, 0, b',');
    let tildes = scan::marks_of(&rule[..e]).tildes;
    let marked = tildes != 0;
    if marked {
        return false;
    }
    rule.split(|b| *b == b',').all(|f| is_literal(f))
}

// The literal of a field whose name is declared, and how many `~` stand before it.
#[derive(Clone, Copy)]
struct Known {
    literal: usize,
    tildes: usize,
}

// A field's name looked up.
fn known_of(names: &Names, count: usize, f: &[u8]) -> Option<Known>
    requires { count ≤ max_names }
    ensures { KnownAmong names.now count f.now result }
{
    let m = scan::marks_of(f);
    let from = m.tildes + m.minuses;
    let key = scan::key_of(&f[from..], Alphabet::EitherCase);
    let i = names.find(count, key)?;
    Some(Known {
        literal: 2 * i + m.minuses,
        tildes: m.tildes,
    })
}

// Whether every field from place `from` on has a declared name. Then their entries stand from `at` on.
fn all_known<T: Tables>(
    names: &Names,
    count: usize,
    tables: &mut T,
    at: usize,
    line: &[u8],
    from: usize,
) -> bool
    requires { (count ≤ max_names) × (from ≤ length line.now + 1) × (at ≤ max_entries) }
    ensures { (declared : List (List ℕ)) → Keyed declared names.now.keys → count ≡ length declared
        → FieldsKnown declared (rest comma line.now from) at result (T.lists tables.old)
        (T.lists tables.new) }
{
    let mut k = at;
    let mut p = from;
    // A place is moved by hand: a `for` over `split` was tried, and in a function with a type parameter the proof of a loop over an iterator with a closure
    // does not close.
    while p <= line.len() {
        let e = scan::end_of(line, p, b',');
        let Some(known) = known_of(names, count, &line[p..e]) else {
            return false;
        };
        // As in `put_name`, `as` loses nothing.
        tables.put_entry(k, (2 * known.literal + known.tildes) as u16);
        k += 1;
        p = e + 1;
    }
    true
}

// The line whose fields after the first are a head and n body literals.
fn rule_line<T: Tables>(
    t: Counts,
    names: &Names,
    tables: &mut T,
    rule: &[u8],
    n: usize,
) -> Result<Counts, Fault>
    requires { Fits t × (t.ended ≡ false) × (n ≤ max_body) × (n + 1 ≡ length (fields rule.now)) }
    ensures { (d : Content) → Holds d t names.now
        → LineRead (word_step d RuleWord (fields rule.now)) result names.now (T.lists tables.old)
        (T.lists tables.new) }
{
    if !well_formed(rule) {
        return Err(Fault::FormWrong);
    }
    let e = scan::end_of(rule, 0, b',');
    let Some(head) = known_of(names, t.names, &rule[..e]) else {
        return Err(Fault::NameMissing);
    };
    if !all_known(names, t.names, tables, t.used, rule, e + 1) {
        return Err(Fault::NameMissing);
    }
    let rules = t.rules;
    let end = t.used + n;
    let many = book::MAX_RULES <= rules;
    let long = book::MAX_ENTRIES < end;
    if many || long {
        return Err(Fault::TableFull);
    }
    // As in `put_name`, `as` loses nothing.
    tables.put_rule(rules, head.literal as u16, end as u16);
    Ok(Counts {
        rules: rules + 1,
        used: end,
        ..t
    })
}

// ---- a line, the lines, the file

// Whether a line whose first field is the word may have n fields.
#[tactic(auto, unfolding(crate::specs::File::wrong_fields))]
fn right_count(word: Word, n: usize) -> bool
    ensures { (others : List (List ℕ)) → n ≡ length others + 1 → result ≡ not (wrong_fields word others) }
{
    match word {
        Word::Name => n == 2,
        Word::Rule => 2 <= n && n <= book::MAX_BODY + 2,
        Word::End => n == 1,
        Word::Unknown => false,
    }
}

// A line behind those that have been read.
fn judge<T: Tables>(
    t: Counts,
    names: &mut Names,
    tables: &mut T,
    line: &[u8],
) -> Result<Counts, Fault>
    requires { Fits t }
    ensures { (d : Content) → Holds d t names.old
        → LineRead (line_step d (fields line.now)) result names.new (T.lists tables.old)
        (T.lists tables.new) }
{
    if t.ended {
        return Err(Fault::EndNotLast);
    }
    let e = scan::end_of(line, 0, b',');
    let n = scan::pieces(line, b',');
    let word = scan::word_of(&line[..e]);
    if !right_count(word, n) {
        return Err(Fault::FieldsWrong);
    }
    match word {
        Word::Name => name_line(t, names, tables, &line[e + 1..]),
        Word::Rule => {
            let rule = &line[e + 1..];
            rule_line(t, names, tables, rule, n - 2)
        }
        Word::End => Ok(Counts { ended: true, ..t }),
        // No count of fields is right for it.
        Word::Unknown => Err(Fault::FieldsWrong),
    }
}

// Nothing has been read.
fn none_yet() -> Counts
    ensures { result ≡ no_counts }
{
    Counts {
        names: 0,
        rules: 0,
        used: 0,
        ended: false,
    }
}

// The lines of b, which is the file without its last byte.
fn read_lines<T: Tables>(b: &[u8], tables: &mut T) -> Result<Counts, Refusal>
    ensures { FileRead (read_lines EitherCase nothing_yet 1 (split newline b.now)) result
        (T.lists tables.old) (T.lists tables.new) }
{
    let mut names = Names::empty();
    let mut t = none_yet();
    let mut at = 0;
    let mut number = 1;
    // A place is moved by hand, as in `all_known`.
    while at <= b.len() {
        let e = scan::end_of(b, at, b'\n');
        t = judge(t, &mut names, tables, &b[at..e]).map_err(|fault| Refusal {
            fault,
            line: number,
        })?;
        at = e + 1;
        number += 1;
    }
    if t.ended {
        Ok(t)
    } else {
        // The line is the one where `end` was expected.
        Err(Refusal {
            fault: Fault::EndNotLast,
            line: number,
        })
    }
}

// The file, into the tables.
fn read_file<T: Tables>(file: &[u8], tables: &mut T) -> Result<Counts, Refusal>
    ensures { FileRead (read_file EitherCase file.now) result (T.lists tables.old)
        (T.lists tables.new) }
{
    let n = file.len();
    let long = MAX_BYTES < n;
    if long {
        return Err(Refusal {
            fault: Fault::TooLong,
            line: 0,
        });
    }
    if !scan::all_text(file) {
        return Err(Refusal {
            fault: Fault::StrangeByte,
            line: 0,
        });
    }
    // A file of no bytes has no lines, and needs no `end`.
    let bare = n == 0;
    if bare {
        return Ok(none_yet());
    }
    if file[n - 1] != b'\n' {
        return Err(Refusal {
            fault: Fault::LastLineOpen,
            line: 0,
        });
    }
    read_lines(&file[..n - 1], tables)
}

// ---- loading

// The book that a file says.
pub fn read(file: &[u8]) -> Result<Book, Refusal>
    ensures { LoadedAs (read_file EitherCase file.now) result }
{
    let mut book = Book::empty();
    let t = read_file(file, &mut book)?;
    book.names = t.names;
    book.rules = t.rules;
    Ok(book)
}

// ---- sizing

// What a file fills of each table.
#[derive(Clone, Copy, Debug, PartialEq, Eq)]
pub struct Sizes {
    pub names: usize,
    pub rules: usize,
    pub body_literals: usize,
}

// How much of each table a file fills, or the refusal that loading gives, with no book stored.
pub fn size(file: &[u8]) -> Result<Sizes, Refusal>
    ensures { SizedAs (read_file EitherCase file.now) result }
{
    let t = read_file(file, &mut Unstored)?;
    Ok(Sizes {
        names: t.names,
        rules: t.rules,
        body_literals: t.used,
    })
}
