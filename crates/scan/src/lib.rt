// Bytes, names and fields of a marking file.
#![tactic(auto)]

ghost use Rattle.std.specs.Prelude.{◌≡◌, ◌+◌, ◌≤◌, length, drop};
ghost use Rattle.scan.specs.Text.{is_text, class_of, is_letter, counts_as, in_name, all_bytes, split, len_to, max_length, is_name, same_bytes, word_of, lead, tildes, minuses, form_of};
ghost use Rattle.scan.specs.Keys.{in_word, Bytes, word_from, key_of};
ghost use Rattle.scan.specs.declared.Alphabet.TheVariants.{EitherCase};

// The most bytes of a name; `max_length` in specs/Text.antt is the same number.
pub const MAX_LENGTH: usize = 16;

// What a byte may be in a name.
#[derive(Clone, Copy)]
pub enum Class {
    Letter,
    Capital,
    Digit,
    Underscore,
    Other,
}

fn class_of(b: u8) -> Class
    ensures { result ≡ class_of b }
{
    match b {
        b'a'..=b'z' => Class::Letter,
        b'A'..=b'Z' => Class::Capital,
        b'0'..=b'9' => Class::Digit,
        b'_' => Class::Underscore,
        _ => Class::Other,
    }
}

fn is_letter(c: Class) -> bool
    ensures { result ≡ is_letter EitherCase c }
{
    matches!(c, Class::Letter | Class::Capital)
}

fn in_name(c: Class) -> bool
    ensures { result ≡ in_name EitherCase c }
{
    is_letter(c) || matches!(c, Class::Digit | Class::Underscore)
}

fn all_in_name(s: &[u8]) -> bool
    ensures { result ≡ all_bytes (λ b. in_name EitherCase (class_of b)) s.now }
{
    s.iter().all(|b| in_name(class_of(*b)))
}

#[tactic(auto, using(crate::proofs::Names::name_none, crate::proofs::Names::name_long, crate::proofs::Names::name_first, crate::proofs::Names::name_rest))]
pub fn is_name(s: &[u8]) -> bool
    ensures { result ≡ is_name EitherCase s.now }
{
    if s.len() == 0 {
        return false;
    }
    if MAX_LENGTH < s.len() {
        return false;
    }
    if !is_letter(class_of(s[0])) {
        return false;
    }
    all_in_name(&s[1..])
}

fn is_text(b: u8) -> bool
    ensures { result ≡ is_text b }
{
    matches!(b, b'\n' | 32..=126)
}

// Whether every byte may stand in a file.
pub fn all_text(s: &[u8]) -> bool
    ensures { result ≡ all_bytes is_text s.now }
{
    s.iter().all(|b| is_text(*b))
}

// The place of the first `stop` at or after `from`, or the end; a place past the end stays.
pub fn end_of(s: &[u8], from: usize, stop: u8) -> usize
    ensures { (result ≡ from + len_to stop (drop from s.now)) × (from ≤ result)
        × (from ≤ length s.now → result ≤ length s.now) }
{
    for i in from..s.len() {
        if s[i] == stop {
            return i;
        }
    }
    from.max(s.len())
}

// How many pieces the stops part s into.
pub fn pieces(s: &[u8], stop: u8) -> usize
    ensures { result ≡ length (split stop s.now) }
{
    let mut n = 0;
    for b in s {
        if *b == stop {
            n += 1;
        }
    }
    n + 1
}

// ---- keys: names are compared by them

// How letters count where bytes are compared: as they are spelled, as in the first field of a line, or capitals as small letters, as in a name.
#[derive(Clone, Copy)]
pub enum Alphabet {
    SmallOnly,
    EitherCase,
}

// How a byte of a name counts. It is a function with one call in it, since the must-fail edit digits_folded speaks of it by its name.
fn small(b: u8) -> u8
    ensures { result ≡ counts_as EitherCase b }
{
    b.to_ascii_lowercase()
}

fn counts_as(b: u8, alphabet: Alphabet) -> u8
    ensures { result ≡ counts_as alphabet b }
{
    match alphabet {
        Alphabet::SmallOnly => b,
        Alphabet::EitherCase => small(b),
    }
}

// The bytes of one word of a key.
const IN_WORD: usize = 8;

// The bytes of a word from `from` on, as they count, as a number in base 256.
fn word_from(s: &[u8], from: usize, alphabet: Alphabet) -> u64
    requires { from ≤ in_word }
    ensures { result ≡ word_from alphabet from s.now }
{
    let end = s.len().min(from + IN_WORD);
    let mut w = 0;
    for k in from..end {
        w = 256 * w + u64::from(counts_as(s[k], alphabet));
    }
    w
}

// How many bytes there are, and the first 16 of them as they count: two names are the same exactly where their keys are.
#[derive(Clone, Copy, PartialEq, Eq)]
pub struct Key {
    pub length: usize,
    pub first: u64,
    pub second: u64,
}

// The contract also says that the elements are bytes: without it two lists could have the same key.
pub fn key_of(s: &[u8], alphabet: Alphabet) -> Key
    ensures { (result ≡ key_of alphabet s.now) × Bytes s.now }
{
    Key {
        length: s.len(),
        first: word_from(s, 0, alphabet),
        second: word_from(s, IN_WORD, alphabet),
    }
}

// Whether the bytes of s, as they are spelled, are those of a word.
fn spells(s: &[u8], word: &[u8]) -> bool
    ensures { length word.now ≤ max_length → result ≡ same_bytes s.now word.now }
{
    let key = key_of(s, Alphabet::SmallOnly);
    let other = key_of(word, Alphabet::SmallOnly);
    key == other
}

// The first field of a line.
#[derive(Clone, Copy)]
pub enum Word {
    Name,
    Rule,
    End,
    Unknown,
}

pub fn word_of(f: &[u8]) -> Word
    ensures { result ≡ word_of f.now }
{
    if spells(f, b"name") {
        return Word::Name;
    }
    if spells(f, b"rule") {
        return Word::Rule;
    }
    if spells(f, b"end") {
        return Word::End;
    }
    Word::Unknown
}

// One more than `at` where the byte b stands there.
fn skip(s: &[u8], at: usize, b: u8) -> usize
    ensures { (result ≡ at + lead b (drop at s.now)) × (at ≤ length s.now → result ≤ length s.now) }
{
    if s.get(at) == Some(&b) { at + 1 } else { at }
}

// How many `~` and how many `-` stand before a literal's name.
#[derive(Clone, Copy)]
pub struct Marks {
    pub tildes: usize,
    pub minuses: usize,
}

pub fn marks_of(f: &[u8]) -> Marks
    ensures { (result.tildes ≡ tildes f.now) × (result.minuses ≡ minuses f.now)
        × (result.tildes + result.minuses ≤ length f.now) }
{
    let a = skip(f, 0, b'~');
    let b = skip(f, a, b'-');
    Marks {
        tildes: a,
        minuses: b - a,
    }
}

// The marks of a field that reads as a literal; none where it is malformed.
pub fn form_of(f: &[u8]) -> Option<Marks>
    ensures { result ≡ form_of EitherCase f.now }
{
    let m = marks_of(f);
    if is_name(&f[m.tildes + m.minuses..]) {
        Some(m)
    } else {
        None
    }
}
