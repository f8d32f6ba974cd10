// The names of a file while it is read: a key for each, and for a key the name to look at first. A name is looked up in a few steps, wherever it
// was declared.
#![tactic(auto)]

ghost use Rattle.std.specs.Prelude.{◌≡◌, ◌≤◌, ◌<◌};
ghost use Rattle.keys.specs.Keyed.{max_hints, hint_place, put_key, put_hint, no_names, with_name, LookedUp};

mod numbers;

pub use numbers::{MAX_KEYS, find, put};
use scan::Key;

// The places of the hints: more than there are names, and a prime, so that few names share one. `max_hints` in specs/Keyed.antt is the same number.
pub const MAX_HINTS: usize = 1021;

// Where the hint for a key stands. Which place it is matters to speed alone.
fn hint_place(key: Key) -> usize
    ensures place { result ≡ hint_place key }
    ensures room { result < max_hints }
{
    // `as` loses nothing, and `try_from` would bring an error that cannot come.
    ((key.first ^ key.second) % MAX_HINTS as u64) as usize
}

// The name to look at first for a key; past the end of the hints it is name 0.
fn hint_at(hints: &[u8], key: Key) -> usize
    ensures { result ≤ 255 }
{
    usize::from(hints.get(hint_place(key)).copied().unwrap_or(0))
}

// `find_key` and `put_key` take tables of any length, as their clauses say; `Names` has the two of a file.

// The number of the name with the key among the first `count`. Whatever the hints say, the names that they lead to are compared by their keys.
pub fn find_key(keys: &[Key], hints: &[u8], count: usize, key: Key) -> Option<usize>
    ensures { LookedUp keys.now count key result }
{
    let few = count.min(keys.len());
    let hint = hint_at(hints, key);
    if hint < few && keys[hint] == key {
        return Some(hint);
    }
    keys[..few].iter().position(|own| *own == key)
}

// Name k is declared: it has the key, and is the name to look at first for it. What has no room is left out.
pub fn put_key(keys: &mut [Key], hints: &mut [u8], k: usize, key: Key)
    ensures { (keys.new ≡ put_key keys.old k key) × (hints.new ≡ put_hint hints.old k key) }
{
    if k < book::MAX_NAMES {
        store::put(keys, k, key);
        // As in `hint_place`, `as` loses nothing.
        store::put(hints, hint_place(key), k as u8);
    }
}

// The names that are declared: the keys in the order of their numbers, and the hints. The two arrays are not parallel: a hint stands where its key leads.
#[derive(Clone, Copy)]
pub struct Names {
    keys: [Key; book::MAX_NAMES],
    hints: [u8; MAX_HINTS],
}

impl Names {
    // No name is declared.
    pub fn empty() -> Names
        ensures { result ≡ no_names }
    {
        let no_key = Key {
            length: 0,
            first: 0,
            second: 0,
        };
        Names {
            keys: [no_key; book::MAX_NAMES],
            hints: [0u8; MAX_HINTS],
        }
    }

    // The name with the key, as `find_key` says. The count is no field: it stands with the reader's other counts, which a line alters together.
    pub fn find(&self, count: usize, key: Key) -> Option<usize>
        ensures { LookedUp self.now.keys count key result }
    {
        find_key(&self.keys, &self.hints, count, key)
    }

    // Name k is declared, as `put_key` says.
    pub fn put(&mut self, k: usize, key: Key)
        ensures { self.new ≡ with_name self.old k key }
    {
        put_key(&mut self.keys, &mut self.hints, k, key);
    }
}
